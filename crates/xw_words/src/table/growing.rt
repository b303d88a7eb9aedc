//! Reserves room for words.
ghost use Rattle.std.specs.Prelude.{◌≡◌, ◌⊎◌, ℕ, ◌*◌, ◌%◌, ◌<◌, ◌≤◌, false, length, slice_index_or, nat_lt, OnOk, OnErr, IfErr, vec_capacity};
ghost use Rattle.xw_words.specs.Dictionary.{most_words};

use crate::fault::WordFault;
use crate::marks::MarkList;
use crate::table::{MOST_WORDS, Table};
use std::alloc::{AllocError, Global};
use xw_bits::bit_row::BitRow;
use xw_letters::letter::Letter;

/// The least number of words by which a row grows.
const LEAST_GROWTH: usize = 64;

/// The capacity to grow to when `known` words are known: an eighth more, but at least
/// `LEAST_GROWTH` more; at most `MOST_WORDS`. So little room stays unused, and each word moves only a
/// few times.
pub fn grown(known: usize) -> usize
    requires { known < most_words }
    ensures more { known < result }
    ensures few { result ≤ most_words }
{
    (known + (known / 8).max(LEAST_GROWTH)).min(MOST_WORDS)
}

/// Appends clear bits, 64 at a time, until a row has `words` bits.
fn lengthen(row: &mut BitRow, words: usize)
    requires whole { length row.old.bits % 64 ≡ 0 }
    requires few { words ≤ most_words }
    requires room { words ≤ row.old.room }
    ensures whole { length row.new.bits % 64 ≡ 0 }
    ensures long { words ≤ length row.new.bits }
    ensures bits { (i : ℕ) → slice_index_or row.new.bits i false ≡ slice_index_or row.old.bits i false }
{
    for _ in row.len() / 64..words.div_ceil(64) {
        row.push_chunk();
    }
}

/// Reserves room for `words` words in total, and lengthens `regraded` to a bit for each of them.
fn reserve_words(
    active: &mut BitRow,
    regraded: &mut BitRow,
    marks: &mut MarkList,
    letters: &mut Vec<Letter>,
    word_len: usize,
    words: usize,
) -> Result<(), AllocError>
    requires more { length active.old.bits ≤ words }
    requires few { words ≤ most_words }
    requires short { word_len ≤ 255 }
    requires letters { length letters.old.items ≡ length active.old.bits * word_len }
    requires marks { length marks.old.items ≡ length active.old.bits }
    requires regraded { length regraded.old.bits % 64 ≡ 0 }
    ensures bits { active.new.bits ≡ active.old.bits }
    ensures room_stays { active.old.room ≤ active.new.room }
    ensures regraded_whole { length regraded.new.bits % 64 ≡ 0 }
    ensures regraded_bits { (i : ℕ) → slice_index_or regraded.new.bits i false ≡ slice_index_or regraded.old.bits i false }
    ensures regraded_stays { OnErr result (regraded.new.bits ≡ regraded.old.bits) }
    ensures marks_stay { marks.new.items ≡ marks.old.items }
    ensures marks_room_stays { marks.old.room ≤ marks.new.room }
    ensures items { letters.new.items ≡ letters.old.items }
    ensures capacity { vec_capacity letters.old ≤ vec_capacity letters.new }
    ensures room { OnOk result (words ≤ active.new.room) }
    ensures regraded_long { OnOk result (words ≤ length regraded.new.bits) }
    ensures marks_room { OnOk result (words ≤ marks.new.room) }
    ensures letters_room { OnOk result (words * word_len ≤ vec_capacity letters.new) }
{
    let more = words - active.len();
    active.reserve(words)?;
    regraded.reserve(words)?;
    marks.reserve(more)?;
    letters.reserve_exact(more * word_len)?;
    lengthen(regraded, words);
    Ok(())
}

#[tactic(auto, using(crate::proofs::RowLemmas::row_steps))]
impl Table {
    /// Reserves room for one more word, unless there is some.
    pub(crate) fn make_room(&mut self, alloc: Global) -> Result<(), WordFault>
        requires long { 2 ≤ self.old.word_len }
        ensures word_len { self.new.word_len ≡ self.old.word_len }
        ensures entries { self.new.entries ≡ self.old.entries }
        ensures room { OnOk result (length self.new.entries < self.new.reserved) }
        ensures full { result ≡ Err WordFault.Full → most_words ≤ length self.old.entries }
        ensures fault { IfErr result (λ fault. (fault ≡ WordFault.Full) ⊎ (fault ≡ WordFault.Memory)) }
    {
        let known = self.len();
        if known >= MOST_WORDS {
            return Err(WordFault::Full);
        }
        if !self.has_room() {
            self.reserve(alloc, grown(known))?;
        }
        Ok(())
    }

    /// Whether there is reserved room for one more word.
    pub fn has_room(&self) -> bool
        ensures { result ≡ nat_lt (length self.now.entries) self.now.reserved }
    {
        self.active.len() < self.reserved
    }

    /// Reserves room for so many words, if there are none yet. If the allocation fails, the table grows in steps.
    pub fn expect(&mut self, alloc: Global, words: usize)
        requires long { 2 ≤ self.old.word_len }
        ensures word_len { self.new.word_len ≡ self.old.word_len }
        ensures entries { self.new.entries ≡ self.old.entries }
    {
        if self.len() == 0 && words > 0 {
            let _ = self.reserve(alloc, words.min(MOST_WORDS));
        }
    }

    /// Reserves room for `words` words in total.
    pub fn reserve(&mut self, alloc: Global, words: usize) -> Result<(), AllocError>
        requires more { length self.old.entries < words }
        requires few { words ≤ most_words }
        requires long { 2 ≤ self.old.word_len }
        ensures word_len { self.new.word_len ≡ self.old.word_len }
        ensures entries { self.new.entries ≡ self.old.entries }
        ensures ok { OnOk result (self.new.reserved ≡ words) }
        ensures err { OnErr result (self.new.reserved ≡ self.old.reserved) }
    {
        self.index
            .reserve(alloc, &self.letters, self.word_len, words)?;
        reserve_words(
            &mut self.active,
            &mut self.regraded,
            &mut self.marks,
            &mut self.letters,
            self.word_len,
            words,
        )?;
        self.reserved = words;
        Ok(())
    }
}
