//! Counts the words of each light once per edit, so that queries need not.
ghost use Rattle.std.specs.Prelude.{◌≡◌};

use crate::net::Net;
use xw_bits::bit_row::BitRow;

/// Counts the set bits of each row whose count is not cached.
fn keep_counts(rows: &mut [BitRow])
    ensures { rows.new ≡ rows.old }
{
    for light in 0..rows.len() {
        let row = &mut rows[light];
        row.keep_count();
    }
}

impl Net {
    ghost use Rattle.xw_net.specs.Room.{IsRoomier};

    /// Caches the number of words of each light.
    pub(crate) fn keep_counts(&mut self)
        ensures { IsRoomier self.old self.new }
    {
        keep_counts(&mut self.rows);
    }
}
