//! Leaves out the words below a grade.
ghost use Rattle.xw_bits.specs.Bits.{has_bit};
ghost use Rattle.std.specs.Prelude.{◌≡◌, ℕ, ◌+◌, ◌*◌, ◌<◌, ◌≤◌, true, false, length, slice_index_or, map};
ghost use Rattle.std.specs.List.{list_any};
ghost use Rattle.xw_words.specs.Dictionary.{entry_at, all_limited, is_left as spec_is_left, is_turned as spec_is_turned};
ghost use Rattle.xw_words.specs.Marks.{no_marks, are_left};

use crate::marks::MarkList;
use crate::table::Table;
use xw_bits::bit_row::BitRow;

/// Sets the flag of each word that is not struck and not below a grade, and clears the others.
fn limit_flags(active: &mut BitRow, marks: &MarkList, least: u8)
    requires { length active.old.bits ≡ length marks.now.items }
    ensures bits { active.new.bits ≡ map (are_left least) marks.now.items }
    ensures room { active.new.room ≡ active.old.room }
{
    for chunk in 0..marks.len().div_ceil(64) {
        active.set_chunk(chunk, marks.left_chunk(chunk, least));
    }
}

#[tactic(auto, using(crate::proofs::RowLemmas::row_steps))]
impl Table {
    /// Makes the words active that are not struck and not below a grade, and no others.
    pub fn limit(&mut self, least: u8)
        ensures entries { self.new.entries ≡ all_limited least self.old.entries }
        ensures word_len { self.new.word_len ≡ self.old.word_len }
        ensures reserved { self.new.reserved ≡ self.old.reserved }
    {
        limit_flags(&mut self.active, &self.marks, least);
    }

    /// A bit for each word of a chunk of 64 words: whether it is not struck and not below a grade. The
    /// first word is the lowest bit.
    fn left_chunk(&self, chunk: usize, least: u8) -> u64
        requires { 64 * chunk < length self.now.entries }
        ensures { (k : ℕ) → k < 64 → 64 * chunk + k < length self.now.entries → has_bit result k ≡ spec_is_left least (entry_at self.now.entries (64 * chunk + k)) }
    {
        self.marks.left_chunk(chunk, least)
    }

    /// Whether word `index` is active but would be left out at this least grade, or the other way round.
    fn is_turned(&self, index: usize, least: u8) -> bool
        requires { index < length self.now.entries }
        ensures { result ≡ spec_is_turned least (entry_at self.now.entries index) }
    {
        let left = self.marks.at(index).is_left(least);
        if self.is_active(index) { !left } else { left }
    }

    /// Whether one of a chunk of 64 words is active but would be left out at this least grade, or the other way round. It
    /// looks at single words only if there is one.
    fn turns_chunk(&self, chunk: usize, least: u8) -> bool
        requires { 64 * chunk < length self.now.entries }
        ensures yes { result ≡ true → list_any (spec_is_turned least) self.now.entries ≡ true }
        ensures no { result ≡ false → (k : ℕ) → 64 * chunk ≤ k → k < 64 * chunk + 64 → k < length self.now.entries → spec_is_turned least (entry_at self.now.entries k) ≡ false }
    {
        if self.left_chunk(chunk, least) == self.active_chunk(chunk) {
            return false;
        }
        let known = self.len();
        for index in 64 * chunk..known.min(64 * chunk + 64) {
            if self.is_turned(index, least) {
                return true;
            }
        }
        false
    }

    /// Whether a word is active but would be left out at this least grade, or the other way round.
    pub fn turns(&self, least: u8) -> bool
        ensures { result ≡ list_any (spec_is_turned least) self.now.entries }
    {
        for chunk in 0..self.len().div_ceil(64) {
            if self.turns_chunk(chunk, least) {
                return true;
            }
        }
        false
    }
}
