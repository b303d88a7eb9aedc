//! Moves the data of the lights that stay to their new indices when an edit changes the lights.
ghost use Rattle.std.specs.Prelude.{◌≡◌, ℕ, ◌<◌, ◌≤◌, false, [], length, replicate, Some, IfSome};
ghost use Rattle.xw_net.specs.Room.{counts_of, row_at, AreEmpty};
ghost use Rattle.xw_net.specs.Renumber.{AreLights, bits_from, room_from, AreRowsMoved, AreFlagsMoved};

use crate::net::Net;
use crate::room::{Spare, fill_row, size_at};
use std::mem::swap;
use xw_bits::bit_row::BitRow;
use xw_grid::lights::Lights;
use xw_words::rows::Rows;

/// Swaps in the old row of a light that stays, or fills the row of a new light with clear bits.
fn move_row(
    rows: &mut [BitRow],
    spare: &mut [BitRow],
    light: usize,
    same: Option<usize>,
    known: usize,
)
    requires light { light < length spare.old }
    requires same { IfSome same (λ other. other < length rows.old) }
    requires empty { (row_at spare.old light).bits ≡ [] }
    requires room { known ≤ (row_at spare.old light).room }
    ensures bits { (row_at spare.new light).bits ≡ bits_from rows.old known same }
    ensures room { room_from rows.old known same ≤ (row_at spare.new light).room }
    ensures others { (other : ℕ) → (other ≡ light → ⊥) → row_at spare.new other ≡ row_at spare.old other }
    ensures kept { (other : ℕ) → (same ≡ Some other → ⊥) → row_at rows.new other ≡ row_at rows.old other }
{
    match same {
        Some(other) => swap(&mut spare[light], &mut rows[other]),
        None => {
            let row = &mut spare[light];
            fill_row(row, known);
        }
    }
}

/// Moves the rows of the lights that stay to their new indices.
#[tactic(auto, using(crate::proofs::Nets::RenumberedLights::moving_steps))]
fn move_rows<R: Rows>(
    words: &R,
    rows: &mut [BitRow],
    spare: &mut [BitRow],
    before: &Lights,
    after: &Lights,
)
    requires rows { length before.now ≤ length rows.old }
    requires spare { AreEmpty after.now (counts_of (R.entries words.now)) spare.old }
    requires after { AreLights after.now }
    ensures { AreRowsMoved before.now after.now (counts_of (R.entries words.now)) rows.old spare.new }
{
    for light in 0..spare.len() {
        let known = words.known(size_at(after, light));
        move_row(rows, spare, light, after.same(light, before), known);
    }
}

/// Copies the flags of the lights that stay to their new indices.
#[tactic(auto, using(crate::proofs::Nets::RenumberedLights::moving_steps))]
fn move_flags(flags: &[bool], spare: &mut [bool], before: &Lights, after: &Lights)
    requires flags { length before.now ≤ length flags.now }
    requires spare { spare.old ≡ replicate (length after.now) false }
    ensures { AreFlagsMoved before.now after.now flags.now spare.new }
{
    for light in 0..spare.len() {
        if let Some(other) = after.same(light, before) {
            spare[light] = flags[other];
        }
    }
}

impl Spare {
    ghost use Rattle.std.specs.Prelude.{◌≡◌, ◌≤◌, length};
    ghost use Rattle.xw_net.specs.Room.{counts_of, IsSpare};
    ghost use Rattle.xw_net.specs.Renumber.{AreLights, AreRowsMoved, AreFlagsMoved};

    /// Takes over the data of the lights that stay.
    fn take_over<R: Rows>(
        &mut self,
        words: &R,
        rows: &mut [BitRow],
        base: &mut [BitRow],
        entered: &[bool],
        before: &Lights,
        after: &Lights,
    )
        requires rows { length before.now ≤ length rows.old }
        requires base { length before.now ≤ length base.old }
        requires entered { length before.now ≤ length entered.now }
        requires spare { IsSpare after.now (counts_of (R.entries words.now)) self.old }
        requires after { AreLights after.now }
        ensures rows { AreRowsMoved before.now after.now (counts_of (R.entries words.now)) rows.old self.new.rows.items }
        ensures base { AreRowsMoved before.now after.now (counts_of (R.entries words.now)) base.old self.new.base.items }
        ensures entered { AreFlagsMoved before.now after.now entered.now self.new.entered.items }
        ensures queue { self.new.queue_marks ≡ self.old.queue_marks }
        ensures chain { self.new.chain_marks ≡ self.old.chain_marks }
    {
        move_rows(words, rows, &mut self.rows, before, after);
        move_rows(words, base, &mut self.base, before, after);
        move_flags(entered, &mut self.entered, before, after);
    }
}

impl Net {
    ghost use Rattle.std.specs.Prelude.{◌≡◌, ◌≤◌, length, vec_len};
    ghost use Rattle.xw_net.specs.Room.{counts_of, HasRoom, HasSpare};
    ghost use Rattle.xw_net.specs.Renumber.{AreLights, IsRenumbered};

    /// Replaces the arrays by those for other lights. The lights that stay keep their data.
    pub(crate) fn renumber<R: Rows>(
        &mut self,
        words: &R,
        spare: Spare,
        before: &Lights,
        after: &Lights,
    )
        requires rows { length before.now ≤ vec_len self.old.rows }
        requires base { length before.now ≤ vec_len self.old.base }
        requires entered { length before.now ≤ vec_len self.old.entered }
        requires spare { HasSpare after.now (counts_of (R.entries words.now)) self.old spare }
        requires after { AreLights after.now }
        ensures renumbered { IsRenumbered before.now after.now (counts_of (R.entries words.now)) self.old self.new }
        ensures rest { self.new ≡ record self.old { rows = self.new.rows; base = self.new.base; entered = self.new.entered; queue = self.new.queue; chain = self.new.chain } }
        ensures room { HasRoom before.now (counts_of (R.entries words.now)) self.old → HasRoom after.now (counts_of (R.entries words.now)) self.new }
    {
        let mut spare = spare;
        spare.take_over(
            words,
            &mut self.rows,
            &mut self.base,
            &self.entered,
            before,
            after,
        );
        self.rows = spare.rows;
        self.base = spare.base;
        self.entered = spare.entered;
        self.queue.renew(spare.queue_marks);
        self.chain.renew(spare.chain_marks);
    }
}
