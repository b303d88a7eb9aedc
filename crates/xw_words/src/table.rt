//! The known words of one length, without their columns.
pub mod growing;
mod limiting;

ghost use Rattle.xw_bits.specs.Bits.{has_bit};
ghost use Rattle.xw_words.specs.Columns.{is_active};
ghost use Rattle.std.specs.Prelude.{◌≡◌, ℕ, ◌+◌, ◌*◌, ◌<◌, ◌≤◌, true, false, None, All, [], ◌∷◌, ◌++◌, length, slice_index_or, slice_set, map, position, OnOk, OnErr, IfOk, ◌≢◌, vec_len, vec_capacity};
ghost use Rattle.xw_words.specs.Dictionary.{entry_at, index_in, add_to, added_at, with_added, strike_from, most_words, grade_left, grade_in, new_entry, returned, with_struck, best_grade};
ghost use Rattle.xw_words.specs.Row.{entry_of};
ghost use Rattle.xw_words.specs.Index.{word_in};
ghost use Rattle.xw_letters.specs.Letter.{folded};
ghost use Rattle.xw_words.specs.Word.{is_bad_letter};

use crate::bank::Added;
use crate::fault::WordFault;
use crate::index::Index;
use crate::marks::{MarkList, Marks};
use crate::weights::Weights;
use crate::word::{LONGEST, spell};
use std::alloc::Global;
use std::marker::Model;
use xw_bits::bit_row::BitRow;
use xw_letters::letter::Letter;

/// The largest number of known words of one length.
pub const MOST_WORDS: usize = 1048576;

/// The greatest grade of a word.
pub const BEST_GRADE: u8 = 100;

/// Appends a word's letters within the capacity.
fn append(letters: &mut Vec<Letter>, word: &[Letter])
    requires { vec_len letters.old + length word.now ≤ vec_capacity letters.old }
    ensures items { letters.new.items ≡ letters.old.items ++ word.now }
    ensures capacity { vec_capacity letters.old ≤ vec_capacity letters.new }
{
    let _ = letters.extend_from_slice(word);
}

/// The grade of an added word: the one that is given, at most `BEST_GRADE`, or else `usual`; raised to `least`.
fn grade_or(least: u8, given: Option<u8>, usual: u8) -> u8
    requires least { least ≤ best_grade }
    requires usual { usual < 128 }
    ensures grade { result ≡ grade_left least given usual }
    ensures small { result < 128 }
{
    match given {
        Some(grade) => grade.min(BEST_GRADE).max(least),
        None => usual.max(least),
    }
}

/// The known words of one length, in the order they were first added.
#[derive(Drop)]
pub struct Table {
    word_len: usize,
    letters: Vec<Letter>,
    index: Index,
    active: BitRow,
    /// The words that came back with a grade that was chosen then. It has a bit for each word that there is room for.
    regraded: BitRow,
    marks: MarkList,
    weights: Weights,
    reserved: usize,
}

impl Model for Table {
    ghost use Rattle.xw_words.specs.Table.{Table as SpecTable, table_of, IsKeptTable};

    ghost Value = { SpecTable };

    ghost view = { table_of };

    ghost invariant = { IsKeptTable };
}

#[tactic(auto, using(crate::proofs::RowLemmas::row_steps))]
impl Table {
    /// An empty table for the words of length `word_len`.
    pub fn new(alloc: Global, word_len: usize) -> Table
        requires { word_len ≤ 255 }
        ensures word_len { result.word_len ≡ word_len }
        ensures entries { result.entries ≡ [] }
        ensures reserved { result.reserved ≡ 0 }
    {
        Table {
            word_len,
            letters: Vec::new(alloc),
            index: Index::new(alloc),
            active: BitRow::new(alloc),
            regraded: BitRow::new(alloc),
            marks: MarkList::new(alloc),
            weights: Weights::new(),
            reserved: 0,
        }
    }

    /// The number of letters of each word.
    pub fn word_len(&self) -> usize
        ensures value { result ≡ self.now.word_len }
        ensures short { result ≤ 255 }
        ensures words { All (λ entry. length entry.word ≡ self.now.word_len) self.now.entries }
    {
        self.word_len
    }

    /// The number of words that there is reserved room for.
    pub fn reserved(&self) -> usize
        ensures value { result ≡ self.now.reserved }
        ensures few { result ≤ most_words }
        ensures within { length self.now.entries ≤ result }
    {
        self.reserved
    }

    /// The table without room for more words.
    pub fn trimmed(self) -> Table
        ensures word_len { result.word_len ≡ self.word_len }
        ensures entries { result.entries ≡ self.entries }
        ensures reserved { result.reserved ≡ length self.entries }
    {
        Table {
            reserved: self.active.len(),
            ..self
        }
    }

    /// The letters of all words, one word after another.
    pub fn letters(&self) -> &[Letter]
        ensures long { length result.now ≡ length self.now.entries * self.now.word_len }
        ensures words { (k : ℕ) → k < length self.now.entries → (entry_at self.now.entries k).word ≡ word_in self.now.word_len result.now k }
    {
        &self.letters
    }

    /// The number of known words, active or not.
    pub fn len(&self) -> usize
        ensures value { result ≡ length self.now.entries }
        ensures few { result ≤ most_words }
        ensures within { result ≤ self.now.reserved }
    {
        self.active.len()
    }

    /// Whether word `index` is active; false if there is no such word.
    pub fn is_active(&self, index: usize) -> bool
        ensures { result ≡ (entry_at self.now.entries index).active }
    {
        index < self.active.len() && self.active.has(index)
    }

    /// The grade of word `index`; 0 if there is no such word.
    pub fn grade(&self, index: usize) -> u8
        ensures value { result ≡ (entry_at self.now.entries index).grade }
        ensures small { result < 128 }
    {
        self.marks.at(index).grade()
    }

    /// The grade of the word that the bytes spell, active or not.
    pub fn grade_of(&self, bytes: &[u8]) -> Result<u8, WordFault>
        requires letters { position is_bad_letter bytes.now ≡ None }
        requires length { length bytes.now ≡ self.now.word_len }
        ensures { result ≡ grade_in self.now.entries (map folded bytes.now) }
    {
        let _ = self.word_len();
        let mut letters = [Letter::first(); LONGEST];
        spell(&mut letters, bytes);
        match self.find(&letters[..bytes.len()]) {
            Some(index) => Ok(self.grade(index)),
            None => Err(WordFault::Unknown),
        }
    }

    /// Whether word `index` was struck; false if there is no such word.
    pub fn is_struck(&self, index: usize) -> bool
        ensures { result ≡ (entry_at self.now.entries index).struck }
    {
        self.marks.at(index).is_struck()
    }

    /// Whether word `index` came back with a grade that was chosen then; false if there is no such word.
    pub fn is_regraded(&self, index: usize) -> bool
        ensures { result ≡ (entry_at self.now.entries index).regraded }
    {
        index < self.regraded.len() && self.regraded.has(index)
    }

    /// How much word `index` weighs in a search: 1, if all grades are equal. The contract promises nothing.
    pub fn weight(&self, index: usize) -> u64 {
        if self.weights.are_equal() {
            return 1;
        }
        self.weights.of_grade(self.grade(index))
    }

    /// How much these words of a chunk of 64 words weigh in a search. The contract promises nothing. No sum wraps, since
    /// a row has at most 2^20 words.
    fn weigh_chunk(&self, chunk: usize, words: u64) -> u64 {
        if self.weights.are_equal() {
            return u64::from(words.count_ones());
        }
        let first = chunk.wrapping_mul(64);
        let mut total: u64 = 0;
        let mut left = words;
        while left != 0 {
            let index = first.wrapping_add(left.trailing_zeros() as usize);
            total = total.wrapping_add(self.weights.of_grade(self.grade(index)));
            left &= left - 1;
        }
        total
    }

    /// How much the words that both rows have weigh in a search: 1 each, if all grades are equal. The contract promises
    /// nothing.
    pub fn weigh(&self, row: &BitRow, column: &BitRow) -> u64 {
        let mut total: u64 = 0;
        let mut from = 0;
        while let Some(index) = row.next_common(column, from) {
            let chunk = index / 64;
            let words = row.chunk(chunk) & column.chunk(chunk);
            total = total.wrapping_add(self.weigh_chunk(chunk, words));
            from = chunk + 1;
        }
        total
    }

    /// The least and the greatest grade that a word of the row had. The contract promises nothing.
    pub fn grade_range(&self) -> (u8, u8) {
        (self.weights.least(), self.weights.greatest())
    }

    /// The letters of word `index`.
    pub fn word(&self, index: usize) -> &[Letter]
        requires { index < length self.now.entries }
        ensures { result.now ≡ (entry_at self.now.entries index).word }
    {
        &self.letters[index * self.word_len..(index + 1) * self.word_len]
    }

    /// Makes word `index` active or not, and regraded or not, with these marks.
    fn mark(&mut self, index: usize, active: bool, regraded: bool, marks: Marks)
        requires { index < length self.old.entries }
        ensures entries { self.new.entries ≡ slice_set self.old.entries index (entry_of (entry_at self.old.entries index).word active regraded marks) }
        ensures word_len { self.new.word_len ≡ self.old.word_len }
        ensures reserved { self.new.reserved ≡ self.old.reserved }
    {
        self.weights.note(marks.grade());
        self.active.put(index, active);
        self.regraded.put(index, regraded);
        self.marks.put(index, marks);
    }

    /// The index of a word, active or not.
    pub fn find(&self, word: &[Letter]) -> Option<usize>
        ensures { result ≡ index_in self.now.entries word.now }
    {
        if word.len() != self.word_len {
            return None;
        }
        self.index.find(&self.letters, word)
    }

    /// A bit for each word: whether it is active.
    pub fn active_row(&self) -> &BitRow
        ensures len { length result.now.bits ≡ length self.now.entries }
        ensures bits { (i : ℕ) → slice_index_or result.now.bits i false ≡ is_active self.now.entries i }
    {
        &self.active
    }

    /// A bit for each of the 64 words of a chunk: whether it is active. The first word is the
    /// lowest bit.
    pub fn active_chunk(&self, chunk: usize) -> u64
        ensures { (k : ℕ) → k < 64 → has_bit result k ≡ is_active self.now.entries (64 * chunk + k) }
    {
        if chunk >= self.active.len().div_ceil(64) {
            return 0;
        }
        self.active.chunk(chunk)
    }

    /// What `add` would return if no allocation failed.
    pub fn judge_add(&self, bytes: &[u8]) -> Result<Added, WordFault>
        requires letters { position is_bad_letter bytes.now ≡ None }
        requires length { length bytes.now ≡ self.now.word_len }
        ensures { result ≡ add_to self.now.entries (map folded bytes.now) }
    {
        let _ = &self.word_len;
        let mut letters = [Letter::first(); LONGEST];
        spell(&mut letters, bytes);
        match self.find(&letters[..bytes.len()]) {
            Some(index) if self.is_active(index) => Err(WordFault::Known),
            Some(index) => Ok(Added::Returned(index)),
            None if self.len() >= MOST_WORDS => Err(WordFault::Full),
            None => Ok(Added::New(self.len())),
        }
    }

    /// Makes a word active again; refuses an active one.
    pub fn add_again(
        &mut self,
        index: usize,
        grade: Option<u8>,
        least: u8,
    ) -> Result<Added, WordFault>
        requires known { index < length self.old.entries }
        requires least { least ≤ best_grade }
        ensures word_len { self.new.word_len ≡ self.old.word_len }
        ensures answer { result ≡ added_at self.old.entries (Some index) }
        ensures ok { OnOk result (self.new.entries ≡ slice_set self.old.entries index (returned least grade (entry_at self.old.entries index))) }
        ensures err { OnErr result (self.new.entries ≡ self.old.entries) }
        ensures reserved { self.new.reserved ≡ self.old.reserved }
    {
        if self.is_active(index) {
            return Err(WordFault::Known);
        }
        self.return_at(index, grade, least);
        Ok(Added::Returned(index))
    }

    /// Makes word `index` active, with the grade that `add_again` gives it.
    pub fn return_at(&mut self, index: usize, grade: Option<u8>, least: u8)
        requires known { index < length self.old.entries }
        requires least { least ≤ best_grade }
        ensures word_len { self.new.word_len ≡ self.old.word_len }
        ensures entries { self.new.entries ≡ slice_set self.old.entries index (returned least grade (entry_at self.old.entries index)) }
        ensures reserved { self.new.reserved ≡ self.old.reserved }
    {
        let old = self.grade(index);
        let regraded = self.is_regraded(index) || grade.is_some() || old < least;
        let marks = Marks::new(grade_or(least, grade, old), false);
        self.mark(index, true, regraded, marks);
    }

    /// The index of the word that the bytes spell, if it can be struck.
    pub fn judge_strike(&self, bytes: &[u8]) -> Result<usize, WordFault>
        requires letters { position is_bad_letter bytes.now ≡ None }
        requires length { length bytes.now ≡ self.now.word_len }
        ensures { result ≡ strike_from self.now.entries (map folded bytes.now) }
    {
        let _ = &self.word_len;
        let mut letters = [Letter::first(); LONGEST];
        spell(&mut letters, bytes);
        match self.find(&letters[..bytes.len()]) {
            Some(index) if !self.is_struck(index) => Ok(index),
            _ => Err(WordFault::Unknown),
        }
    }

    /// Strikes word `index`.
    pub fn strike_at(&mut self, index: usize)
        requires { index < length self.old.entries }
        ensures word_len { self.new.word_len ≡ self.old.word_len }
        ensures entries { self.new.entries ≡ with_struck self.old.entries index }
        ensures reserved { self.new.reserved ≡ self.old.reserved }
    {
        let regraded = self.is_regraded(index);
        let marks = Marks::new(self.grade(index), true);
        self.mark(index, false, regraded, marks);
    }

    /// Adds a word: appends a new one, or brings back one that is not active.
    pub fn add_word(
        &mut self,
        alloc: Global,
        word: &[Letter],
        grade: Option<u8>,
        least: u8,
    ) -> Result<Added, WordFault>
        requires length { length word.now ≡ self.old.word_len }
        requires long { 2 ≤ self.old.word_len }
        requires least { least ≤ best_grade }
        ensures word_len { self.new.word_len ≡ self.old.word_len }
        ensures answer { result ≢ Err WordFault.Memory → result ≡ add_to self.old.entries word.now }
        ensures ok { IfOk result (λ added. self.new.entries ≡ with_added least self.old.entries word.now grade added) }
        ensures err { OnErr result (self.new.entries ≡ self.old.entries) }
    {
        match self.find(word) {
            Some(index) => self.add_again(index, grade, least),
            None => {
                self.make_room(alloc)?;
                let index = self.len();
                self.add_reserved(word, grade, least);
                Ok(Added::New(index))
            }
        }
    }

    /// Appends a word that is not known, in reserved room.
    pub fn add_reserved(&mut self, word: &[Letter], grade: Option<u8>, least: u8)
        requires length { length word.now ≡ self.old.word_len }
        requires room { length self.old.entries < self.old.reserved }
        requires unknown { index_in self.old.entries word.now ≡ None }
        requires least { least ≤ best_grade }
        ensures word_len { self.new.word_len ≡ self.old.word_len }
        ensures entries { self.new.entries ≡ self.old.entries ++ new_entry least word.now grade ∷ [] }
        ensures reserved { self.new.reserved ≡ self.old.reserved }
        ensures few { length self.old.entries < most_words }
        ensures long { 2 ≤ length word.now }
        ensures short { length word.now ≤ 255 }
    {
        self.index.insert(word);
        self.active.push(true);
        let grade = grade_or(least, grade, BEST_GRADE);
        self.weights.note(grade);
        self.marks.push(Marks::new(grade, false));
        append(&mut self.letters, word);
    }
}
