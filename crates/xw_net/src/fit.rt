//! Adapts a net to the lights and the dictionary after an edit.
ghost use Rattle.std.specs.Prelude.{◌≡◌, ℕ, ◌<◌, ◌≤◌, length};
ghost use Rattle.xw_net.specs.Room.{counts_of, row_at, HaveRoom, KeepRoom};
ghost use Rattle.xw_net.specs.Fit.{fitted, AreFitted};

use crate::net::Net;
use crate::room::size_at;
use xw_bits::bit_row::BitRow;
use xw_feas::notes::Notes;
use xw_grid::lights::Lights;
use xw_words::rows::Rows;

/// Appends a clear bit to a row if it has fewer than `known` bits.
fn fit_row(row: &mut BitRow, known: usize)
    requires { known ≤ row.old.room }
    ensures bits { row.new.bits ≡ fitted known row.old.bits }
    ensures room { row.old.room ≤ row.new.room }
{
    if row.len() < known {
        row.push(false);
    }
}

/// Appends a clear bit to the row of each light that lacks a bit for a known word.
pub(crate) fn fit_rows<R: Rows>(words: &R, lights: &Lights, rows: &mut [BitRow])
    requires lights { length lights.now ≤ length rows.old }
    requires room { HaveRoom lights.now (counts_of (R.entries words.now)) rows.old }
    ensures fitted { AreFitted lights.now (counts_of (R.entries words.now)) rows.old rows.new }
    ensures others { (light : ℕ) → length lights.now ≤ light → row_at rows.new light ≡ row_at rows.old light }
    ensures room { KeepRoom rows.old rows.new }
{
    for light in 0..lights.len() {
        let known = words.known(size_at(lights, light));
        let row = &mut rows[light];
        fit_row(row, known);
    }
}

impl Net {
    ghost use Rattle.std.specs.Prelude.{◌≡◌, None, vec_len};
    ghost use Rattle.xw_net.specs.Change.{before_of, word_of};
    ghost use Rattle.xw_net.specs.Update.{MovesTo};
    ghost use Rattle.xw_net.specs.Room.{counts_of, IsWhole, HasRoom};
    ghost use Rattle.xw_net.specs.Fit.{IsAtRest, CanFollow, Follows};

    /// Switches to the spare arrays for the lights after a change of shape, if there are any.
    fn turn_to<R: Rows>(&mut self, words: &R, before: &Lights, lights: &Lights)
        requires { CanFollow before.now lights.now (counts_of (R.entries words.now)) None self.old }
        ensures { Follows before.now lights.now (counts_of (R.entries words.now)) None self.old self.new }
    {
        if let Some(spare) = self.spare.take() {
            self.renumber(words, spare, before, lights);
        }
    }
    /// Follows the lights after an edit. Only a change of shape can have changed them; any other one
    /// drops spare arrays.
    fn follow<R: Rows>(&mut self, words: &R, change: &Notes, lights: &Lights)
        requires { CanFollow (before_of lights.now change.now) lights.now (counts_of (R.entries words.now)) (word_of change.now) self.old }
        ensures { Follows (before_of lights.now change.now) lights.now (counts_of (R.entries words.now)) (word_of change.now) self.old self.new }
    {
        match change.before() {
            Some(before) => self.turn_to(words, before, lights),
            None => self.spare = None,
        }
    }
    /// Adapts the net to the lights and the known words after an edit. Only an added word needs a bit in the rows.
    pub(crate) fn move_to<R: Rows>(&mut self, words: &R, change: &Notes, lights: &Lights)
        requires { CanFollow (before_of lights.now change.now) lights.now (counts_of (R.entries words.now)) (word_of change.now) self.old }
        ensures rest { IsAtRest lights.now (vec_len self.old.letters) self.new }
        ensures whole { IsWhole lights.now (counts_of (R.entries words.now)) self.new }
        ensures room { HasRoom lights.now (counts_of (R.entries words.now)) self.new }
        ensures spare { self.new.spare ≡ None }
        ensures moved { MovesTo (before_of lights.now change.now) lights.now (R.entries words.now) self.old self.new }
    {
        self.follow(words, change, lights);
        if change.word().is_none() {
            return;
        }
        fit_rows(words, lights, &mut self.rows);
        fit_rows(words, lights, &mut self.base);
    }
}
