//! The dictionary: all known words, grouped by length.
ghost use Rattle.std.specs.Prelude.{◌≡◌, ◌≢◌, ℕ, ◌+◌, ◌*◌, ◌<◌, ◌≤◌, Bool, true, false, [], map, replicate, length, slice_index_or, slice_set, Ok, Err, None, All, IsOk, IfErr, IfOk, IfSome, IfNone, OnOk, OnErr, IsOkUnless, position, vec_len};
ghost use Rattle.xw_letters.specs.Letter.{folded, IsLetter};
ghost use Rattle.xw_words.specs.Dictionary.{known_words, entry_at, index_of_word, add_answer, answer_on, add_to, after_add, strike_answer, after_strike, with_row, with_struck, returned, IsNew, IsDictionary, capped, is_turned, matching_answer, grade_answer, reserve_answer, most_words, best_grade, no_words, with_least};
ghost use Rattle.std.specs.List.{list_any};
ghost use Rattle.xw_words.specs.Bank.{has_room, limited_row, IsKept, KeepsRoom, KeepsOtherRoom};
ghost use Rattle.xw_words.specs.Word.{is_bad_letter, judged};
ghost use Rattle.xw_bits.specs.Bits.{has_bit};
ghost use Rattle.xw_words.specs.Columns.{has_letter, has_one_of, is_active as spec_is_active, IsColumn, AreColumns};

use crate::fault::WordFault;
use crate::loader::Loader;
use crate::matching::Matching;
use crate::row::Row;
use crate::table::{BEST_GRADE, MOST_WORDS};
use crate::word::{judge_length, judge_pattern, judge_word};
use std::alloc::Global;
use std::marker::Model;
use xw_bits::bit_row::BitRow;
use xw_letters::letter::{Letter, are_letters};

/// What an addition did. The field is the word's index among the known words of its length.
#[derive(Clone, Copy, Debug, PartialEq, Eq)]
pub enum Added {
    /// The word was not known before.
    New(usize),
    /// The word was known but not active, and is active again.
    Returned(usize),
}

/// The number of rows: one for each length from 0 to 255.
pub(crate) const LENGTHS: usize = 256;

/// Leaves out the words below a grade in each row.
fn limit_rows(rows: &mut [Row], least: u8)
    ensures { rows.new ≡ map (limited_row least) rows.old }
{
    for index in 0..rows.len() {
        let row = &mut rows[index];
        row.limit(least);
    }
}

/// The dictionary. For each length it keeps the known words in the order they were first added. A word
/// is active, struck, or left out because its grade is below the least one. It is addressed by its length
/// and its index among the known words of that length; the index never changes.
#[derive(Drop)]
pub struct Bank {
    alloc: Global,
    rows: Vec<Row>,
    least: u8,
}

impl Model for Bank {
    ghost use Rattle.xw_words.specs.Bank.{Bank as SpecBank, bank_of, IsKept};

    ghost Value = { SpecBank };

    ghost view = { λ bank. bank_of bank.rows.items bank.least };

    ghost invariant = { λ bank. IsKept bank.rows.items bank.least };
}

impl Bank {
    /// An empty dictionary. Returns `Memory` if the allocation fails.
    pub fn new(alloc: Global) -> Result<Bank, WordFault>
        ensures empty { IfOk result (λ bank. bank.words ≡ no_words) }
        ensures memory { IsOkUnless result WordFault.Memory }
    {
        Bank::of(alloc, Loader::new(alloc)?)
    }

    /// The dictionary of loaded words. Returns `Memory` if an allocation fails.
    pub(crate) fn of(alloc: Global, loader: Loader) -> Result<Bank, WordFault>
        ensures words { IfOk result (λ bank. bank.words ≡ loader) }
        ensures memory { IsOkUnless result WordFault.Memory }
    {
        Ok(Bank {
            alloc,
            rows: loader.into_rows(alloc)?,
            least: 0,
        })
    }

    /// Does nothing at run time; it gives the prover the invariant.
    pub fn well_formed(&self)
        ensures { IsDictionary self.now.words }
    {
        let _ = &self.rows;
    }

    /// The number of known words of length `len`, including struck ones.
    pub fn known(&self, len: usize) -> usize
        ensures { result ≡ length (known_words self.now.words len) }
    {
        match self.rows.get(len) {
            Some(row) => row.len(),
            None => 0,
        }
    }

    /// The least grade of an active word, 0 to `BEST_GRADE`.
    pub fn least(&self) -> u8
        ensures least { result ≡ self.now.words.least }
        ensures range { result ≤ best_grade }
    {
        self.least
    }

    /// Leaves out all words below a grade, and brings back those above it that are not struck. More than `BEST_GRADE`
    /// counts as `BEST_GRADE`.
    pub fn set_least(&mut self, least: u8)
        ensures words { self.new.words ≡ with_least least self.old.words }
        ensures room { self.new.room ≡ self.old.room }
    {
        self.least = least.min(BEST_GRADE);
        limit_rows(&mut self.rows, self.least);
    }

    /// Whether `set_least` of this grade would make a known word of length `len` active, or leave out one that is.
    pub fn turns(&self, len: usize, least: u8) -> bool
        ensures { result ≡ list_any (is_turned (capped least)) (known_words self.now.words len) }
    {
        match self.rows.get(len) {
            Some(row) => row.table().turns(least.min(BEST_GRADE)),
            None => false,
        }
    }

    /// Whether word `index` of length `len` was struck; false if there is no such word.
    pub fn is_struck(&self, len: usize, index: usize) -> bool
        ensures { result ≡ (entry_at (known_words self.now.words len) index).struck }
    {
        match self.rows.get(len) {
            Some(row) => row.table().is_struck(index),
            None => false,
        }
    }

    /// Whether word `index` of length `len` came back with a grade that was chosen then; false if there is no such word.
    pub fn is_regraded(&self, len: usize, index: usize) -> bool
        ensures { result ≡ (entry_at (known_words self.now.words len) index).regraded }
    {
        match self.rows.get(len) {
            Some(row) => row.table().is_regraded(index),
            None => false,
        }
    }

    /// Whether word `index` of length `len` is active; false if there is no such word.
    pub fn is_active(&self, len: usize, index: usize) -> bool
        ensures { result ≡ (entry_at (known_words self.now.words len) index).active }
    {
        match self.rows.get(len) {
            Some(row) => row.table().is_active(index),
            None => false,
        }
    }

    /// The grade of word `index` of length `len`, 0 to `BEST_GRADE`; 0 if there is no such word.
    pub fn grade(&self, len: usize, index: usize) -> u8
        ensures grade { result ≡ (entry_at (known_words self.now.words len) index).grade }
        ensures range { result ≤ best_grade }
    {
        match self.rows.get(len) {
            Some(row) => row.table().grade(index),
            None => 0,
        }
    }

    /// The grade of the word that the bytes spell, active or not, 0 to `BEST_GRADE`. Returns `BadLetter` or `Length`
    /// as `add` does, and `Unknown` if the word is not known.
    pub fn grade_of(&self, bytes: &[u8]) -> Result<u8, WordFault>
        ensures { result ≡ grade_answer self.now.words bytes.now }
    {
        judge_word(bytes)?;
        self.rows[bytes.len()].table().grade_of(bytes)
    }

    /// How much the words of length `len` that a row has and that have `letter` at `position` weigh in a search: more for
    /// better grades, and 1 each if all grades are equal. It is a hint; the contract promises nothing.
    pub fn weigh(&self, len: usize, position: usize, letter: Letter, row: &BitRow) -> u64 {
        match self.rows.get(len) {
            Some(words) => words.weigh(position, letter, row),
            None => 0,
        }
    }

    /// How much word `index` of length `len` weighs in a search: 1, if all grades are equal. It is a hint; the contract promises
    /// nothing.
    pub fn weight(&self, len: usize, index: usize) -> u64 {
        match self.rows.get(len) {
            Some(words) => words.table().weight(index),
            None => 0,
        }
    }

    /// Whether words had different grades. It is a hint for a search; the contract promises nothing.
    pub fn is_graded(&self) -> bool {
        let mut least = u8::MAX;
        let mut greatest = 0;
        for row in &self.rows {
            let range = row.table().grade_range();
            least = least.min(range.0);
            greatest = greatest.max(range.1);
        }
        least < greatest
    }

    /// The letters of word `index` of length `len`.
    pub fn word(&self, len: usize, index: usize) -> &[Letter]
        requires { index < length (known_words self.now.words len) }
        ensures word { result.now ≡ (entry_at (known_words self.now.words len) index).word }
        ensures long { length result.now ≡ len }
    {
        self.rows[len].table().word(index)
    }

    /// The index of a word among the known words of its length, including struck ones.
    pub fn find(&self, word: &[Letter]) -> Option<usize>
        ensures { result ≡ index_of_word self.now.words word.now }
    {
        self.rows.get(word.len())?.table().find(word)
    }

    /// The column of a letter at a position, for the words of length `len`. Returns `None` only
    /// if `position` is out of range or no word of this length is known.
    pub(crate) fn column_of(&self, len: usize, position: usize, letter: Letter) -> Option<&BitRow>
        ensures some { IfSome result (λ column. IsColumn (known_words self.now.words len) position letter column.now.bits) }
        ensures none { IfNone result ((index : ℕ) → has_letter (known_words self.now.words len) position letter index ≡ false) }
        ensures within { position < len → IfNone result (length (known_words self.now.words len) ≡ 0) }
    {
        match self.rows.get(len) {
            Some(row) => row.column_of(position, letter),
            None => None,
        }
    }

    /// The 26 columns at a position, for the words of length `len`. If it returns `None`, no
    /// known word has a letter there.
    pub(crate) fn columns_of(&self, len: usize, position: usize) -> Option<&[BitRow]>
        ensures some { IfSome result (λ columns. AreColumns (known_words self.now.words len) position columns.now) }
        ensures none { IfNone result ((index letters : ℕ) → has_one_of (known_words self.now.words len) position letters index ≡ false) }
    {
        match self.rows.get(len) {
            Some(row) => row.columns_of(position),
            None => None,
        }
    }

    /// A bit for each of the 64 words from `64 * chunk` on: whether it has `letter` at `position`.
    /// The first word is the lowest bit.
    pub(crate) fn column(&self, len: usize, position: usize, letter: Letter, chunk: usize) -> u64
        ensures { (k : ℕ) → k < 64 → has_bit result k ≡ has_letter (known_words self.now.words len) position letter (64 * chunk + k) }
    {
        match self.rows.get(len) {
            Some(row) => row.column_chunk(position, letter, chunk),
            None => 0,
        }
    }

    /// A bit for each of the 64 words from `64 * chunk` on: whether it is active. The first word is
    /// the lowest bit.
    pub(crate) fn active(&self, len: usize, chunk: usize) -> u64
        ensures { (k : ℕ) → k < 64 → has_bit result k ≡ spec_is_active (known_words self.now.words len) (64 * chunk + k) }
    {
        match self.rows.get(len) {
            Some(row) => row.table().active_chunk(chunk),
            None => 0,
        }
    }

    /// A bit for each known word of length `len`: whether it is active. Returns `None` only if no word of
    /// this length is known.
    pub(crate) fn active_row(&self, len: usize) -> Option<&BitRow>
        ensures len { IfSome result (λ row. length row.now.bits ≡ length (known_words self.now.words len)) }
        ensures bits { IfSome result (λ row. (i : ℕ) → slice_index_or row.now.bits i false ≡ spec_is_active (known_words self.now.words len) i) }
        ensures none { IfNone result ((i : ℕ) → spec_is_active (known_words self.now.words len) i ≡ false) }
    {
        match self.rows.get(len) {
            Some(row) => Some(row.table().active_row()),
            None => None,
        }
    }

    /// What `add` would return if no allocation failed.
    pub fn judge_add(&self, bytes: &[u8]) -> Result<Added, WordFault>
        ensures { result ≡ add_answer self.now.words bytes.now }
    {
        judge_word(bytes)?;
        self.rows[bytes.len()].table().judge_add(bytes)
    }

    /// Adds a word: appends a new one, or makes one active again that was struck or left out. A grade that is given, at
    /// most `BEST_GRADE`, becomes the word's; else a new word has `BEST_GRADE`, and another one keeps its grade. A grade
    /// below the least one of active words is raised to it.
    ///
    /// Returns `BadLetter` for the first byte that is not a letter, then `Length` for a length
    /// outside 2 to 255, then `Known` if the word is active, `Full` if `MOST_WORDS` words of this
    /// length are known, and `Memory` if an allocation fails. The words stay as they were on an
    /// error.
    pub fn add(&mut self, bytes: &[u8], grade: Option<u8>) -> Result<Added, WordFault>
        ensures answer { result ≢ Err WordFault.Memory → result ≡ add_answer self.old.words bytes.now }
        ensures memory { result ≡ Err WordFault.Memory → IsNew (add_answer self.old.words bytes.now) }
        ensures ok { IfOk result (λ added. self.new.words ≡ after_add self.old.words (map folded bytes.now) grade added) }
        ensures err { OnErr result (self.new.words ≡ self.old.words) }
        ensures room { KeepsOtherRoom (length bytes.now) self.old self.new }
        ensures room_at_err { OnErr result (KeepsRoom self.old self.new) }
        ensures room_at_return { (index : ℕ) → result ≡ Ok (Added.Returned index) → KeepsRoom self.old self.new }
    {
        judge_word(bytes)?;
        let row = &mut self.rows[bytes.len()];
        row.add(self.alloc, bytes, grade, self.least)
    }

    /// Strikes a word and returns its index. The word stays known. Returns `BadLetter` or `Length`
    /// as `add` does, and `Unknown` if the word is not known or struck already.
    pub fn strike(&mut self, bytes: &[u8]) -> Result<usize, WordFault>
        ensures answer { result ≡ strike_answer self.old.words bytes.now }
        ensures ok { IfOk result (λ index. self.new.words ≡ after_strike self.old.words (map folded bytes.now) index) }
        ensures err { OnErr result (self.new.words ≡ self.old.words) }
        ensures room { KeepsRoom self.old self.new }
    {
        let index = self.judge_strike(bytes)?;
        self.strike_at(bytes.len(), index);
        Ok(index)
    }

    /// What `strike` would return.
    pub fn judge_strike(&self, bytes: &[u8]) -> Result<usize, WordFault>
        ensures { result ≡ strike_answer self.now.words bytes.now }
    {
        judge_word(bytes)?;
        self.rows[bytes.len()].table().judge_strike(bytes)
    }

    /// Strikes word `index` of length `len`.
    pub fn strike_at(&mut self, len: usize, index: usize)
        requires { index < length (known_words self.old.words len) }
        ensures words { self.new.words ≡ with_row self.old.words len (with_struck (known_words self.old.words len) index) }
        ensures room { KeepsRoom self.old self.new }
    {
        let row = &mut self.rows[len];
        row.strike_at(index);
    }

    /// Makes word `index` of length `len` active. Its grade is as `add` says.
    pub fn return_at(&mut self, len: usize, index: usize, grade: Option<u8>)
        requires { index < length (known_words self.old.words len) }
        ensures words { self.new.words ≡ with_row self.old.words len (slice_set (known_words self.old.words len) index (returned self.old.words.least grade (entry_at (known_words self.old.words len) index))) }
        ensures room { KeepsRoom self.old self.new }
    {
        let row = &mut self.rows[len];
        row.return_at(index, grade, self.least);
    }

    /// Iterates over the active words that match a pattern, in index order. A pattern has a letter
    /// or a dot for each position. Returns `BadLetter` for the first byte that is neither, and then
    /// `Length` for a length outside 2 to 255.
    pub fn matching<'a>(&'a self, pattern: &'a [u8]) -> Result<Matching<'a>, WordFault>
        ensures words { IfOk result (λ words. matching_answer self.now.words pattern.now ≡ Ok words) }
        ensures refused { IfErr result (λ fault. matching_answer self.now.words pattern.now ≡ Err fault) }
    {
        judge_pattern(pattern)?;
        Ok(Matching::new(&self.rows[pattern.len()], pattern))
    }

    /// Reserves room for one more word of length `len`. Returns `Length` for a length outside 2
    /// to 255, `Full` if `MOST_WORDS` words of this length are known, and `Memory` if an allocation
    /// fails.
    pub fn reserve(&mut self, len: usize) -> Result<(), WordFault>
        ensures words { self.new.words ≡ self.old.words }
        ensures room { OnOk result (has_room self.new len ≡ true) }
        ensures kept { KeepsRoom self.old self.new }
        ensures answer { result ≢ Err WordFault.Memory → result ≡ reserve_answer self.old.words len }
        ensures memory { result ≡ Err WordFault.Memory → IsOk (reserve_answer self.old.words len) }
    {
        judge_length(len)?;
        let row = &mut self.rows[len];
        if row.len() >= MOST_WORDS {
            return Err(WordFault::Full);
        }
        row.reserve(self.alloc)
    }

    /// Adds a word that is not known, in reserved room, and returns its index. Its grade is as
    /// `add` says.
    pub fn add_reserved(&mut self, word: &[Letter], grade: Option<u8>) -> usize
        requires room { has_room self.old (length word.now) ≡ true }
        requires unknown { index_of_word self.old.words word.now ≡ None }
        ensures index { result ≡ length (known_words self.old.words (length word.now)) }
        ensures words { self.new.words ≡ after_add self.old.words word.now grade (Added.New result) }
        ensures room { KeepsOtherRoom (length word.now) self.old self.new }
    {
        are_letters(word);
        let row = &mut self.rows[word.len()];
        let index = row.len();
        row.add_reserved(word, grade, self.least);
        index
    }
}
