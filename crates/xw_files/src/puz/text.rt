//! Reads NUL-terminated texts.
ghost use Rattle.xw_files.specs.Puz.Reading.{text_at};
ghost use Rattle.xw_files.specs.Steps.{Gives};

use crate::fault::{ReadFault, TextName};

/// Splits the bytes at the first NUL into a text and what follows. Returns `NoNul(which)` if there is no NUL.
pub fn text_of(which: TextName, bytes: &[u8]) -> Result<(&[u8], &[u8]), ReadFault>
    ensures { Gives (λ found. (found.0.now, found.1.now)) result (text_at which bytes.now) }
{
    for (end, byte) in bytes.iter().enumerate() {
        if *byte == 0 {
            return Ok((&bytes[..end], &bytes[end + 1..]));
        }
    }
    Err(ReadFault::NoNul(which))
}
