//! The known words of one length, with their columns.
ghost use Rattle.xw_bits.specs.Bits.{has_bit};
ghost use Rattle.xw_words.specs.Columns.{has_letter, has_one_of, AreFits, IsColumn, AreColumns};
ghost use Rattle.xw_words.specs.Matching.{HasFits};
ghost use Rattle.std.specs.Prelude.{◌≡◌, ℕ, ◌+◌, ◌*◌, ◌<◌, ◌≤◌, ◌||◌, ◌==◌, true, false, None, [], ◌∷◌, ◌++◌, length, map, slice_set, position, OnOk, OnErr, IfOk, IfErr, IfSome, IfNone, ◌≢◌};
ghost use Rattle.xw_words.specs.Dictionary.{index_in, add_to, added_at, with_added, entry_at, returned, IsNew, most_words, all_limited, new_entry, with_struck, best_grade};
ghost use Rattle.xw_letters.specs.Letter.{folded};
ghost use Rattle.xw_words.specs.Word.{is_bad_letter, is_bad_in_pattern};

use crate::bank::Added;
use crate::columns::{LETTERS, columns_of, grow_columns, push_word};
use crate::fault::WordFault;
use crate::table::growing::grown;
use crate::table::{MOST_WORDS, Table};
use crate::word::{LONGEST, spell};
use std::alloc::{AllocError, Global};
use std::marker::Model;
use xw_bits::bit_row::BitRow;
use xw_letters::letter::Letter;

/// The known words of one length with their columns, in the order they were first added.
#[derive(Drop)]
pub struct Row {
    table: Table,
    columns: Vec<BitRow>,
}

impl Model for Row {
    ghost use Rattle.xw_words.specs.Row.{Row as SpecRow};

    ghost Value = { SpecRow };

    ghost use Rattle.xw_words.specs.KeptRow.{row_of, IsKeptRow};

    ghost view = { row_of };

    ghost invariant = { IsKeptRow };
}

#[tactic(auto, using(crate::proofs::RowLemmas::row_steps))]
impl Row {
    /// The row with the words of a table.
    pub fn of(alloc: Global, table: Table) -> Result<Row, AllocError>
        ensures word_len { IfOk result (λ row. row.word_len ≡ table.word_len) }
        ensures entries { IfOk result (λ row. row.entries ≡ table.entries) }
    {
        let columns = columns_of(alloc, table.letters(), table.word_len(), table.len())?;
        Ok(Row {
            table: table.trimmed(),
            columns,
        })
    }

    /// The words, without columns.
    pub fn table(&self) -> &Table
        ensures word_len { result.now.word_len ≡ self.now.word_len }
        ensures entries { result.now.entries ≡ self.now.entries }
    {
        &self.table
    }

    /// The number of known words, active or not.
    pub fn len(&self) -> usize
        ensures value { result ≡ length self.now.entries }
        ensures few { result ≤ most_words }
    {
        self.table.len()
    }

    /// Makes the words active that are not struck and not below a grade, and no others.
    pub fn limit(&mut self, least: u8)
        ensures entries { self.new.entries ≡ all_limited least self.old.entries }
        ensures word_len { self.new.word_len ≡ self.old.word_len }
        ensures room { self.new.room ≡ self.old.room }
    {
        self.table.limit(least);
    }

    /// The column of a letter at a position. Returns `None` only if `position` is out of range or
    /// no word is known.
    pub fn column_of(&self, position: usize, letter: Letter) -> Option<&BitRow>
        ensures some { IfSome result (λ column. IsColumn self.now.entries position letter column.now.bits) }
        ensures none { IfNone result ((index : ℕ) → has_letter self.now.entries position letter index ≡ false) }
        ensures within { position < self.now.word_len → IfNone result (length self.now.entries ≡ 0) }
    {
        if position >= self.table.word_len() {
            return None;
        }
        self.columns
            .get(position * LETTERS + (letter.byte() - b'A') as usize)
    }

    /// How much the words that a row has and that have `letter` at `position` weigh in a search. The contract promises
    /// nothing.
    pub fn weigh(&self, position: usize, letter: Letter, row: &BitRow) -> u64 {
        match self.column_of(position, letter) {
            Some(column) => self.table.weigh(row, column),
            None => 0,
        }
    }

    /// The 26 columns at a position. If it returns `None`, no known word has a letter there.
    pub fn columns_of(&self, position: usize) -> Option<&[BitRow]>
        ensures some { IfSome result (λ columns. AreColumns self.now.entries position columns.now) }
        ensures none { IfNone result ((index letters : ℕ) → has_one_of self.now.entries position letters index ≡ false) }
    {
        if position >= self.table.word_len() {
            return None;
        }
        if self.columns.len() < LETTERS * self.table.word_len() {
            return None;
        }
        Some(&self.columns[LETTERS * position..LETTERS * (position + 1)])
    }

    /// A bit for each of the 64 words of a chunk: whether it has `letter` at `position`. The first
    /// word is the lowest bit.
    pub fn column_chunk(&self, position: usize, letter: Letter, chunk: usize) -> u64
        ensures { (k : ℕ) → k < 64 → has_bit result k ≡ has_letter self.now.entries position letter (64 * chunk + k) }
    {
        if position >= self.table.word_len() {
            return 0;
        }
        if chunk >= self.table.len().div_ceil(64) {
            return 0;
        }
        let column = &self.columns[position * LETTERS + (letter.byte() - b'A') as usize];
        column.chunk(chunk)
    }

    /// A bit for each of the 64 words of a chunk: whether its letter at `position` matches
    /// `wanted`, a letter or a dot.
    fn stand_in_chunk(&self, wanted: u8, position: usize, chunk: usize) -> u64
        requires { is_bad_in_pattern wanted ≡ false }
        ensures { (k : ℕ) → k < 64 → has_bit result k ≡ ((folded wanted == 46) || has_letter self.now.entries position (folded wanted) (64 * chunk + k)) }
    {
        if wanted == b'.' {
            return u64::MAX;
        }
        self.column_chunk(position, Letter::capital(wanted), chunk)
    }

    /// A bit for each of the 64 words of a chunk: whether it is active and matches the pattern. The
    /// first word is the lowest bit.
    pub fn fits_chunk(&self, pattern: &[u8], chunk: usize) -> u64
        requires length { length pattern.now ≡ self.now.word_len }
        requires good { position is_bad_in_pattern pattern.now ≡ None }
        ensures { AreFits (map folded pattern.now) self.now.entries chunk result }
    {
        let _ = self.table.word_len();
        let mut fits = self.table.active_chunk(chunk);
        for position in 0..pattern.len() {
            if fits == 0 {
                return 0;
            }
            fits &= self.stand_in_chunk(pattern[position], position, chunk);
        }
        fits
    }

    /// A row of bits that has each word that matches the pattern: the column of the first letter from
    /// position `from` on, or the row of active words if there is none. Also returns the position after
    /// that letter.
    pub fn sieve_from(&self, pattern: &[u8], from: usize) -> (&BitRow, usize)
        requires length { length pattern.now ≡ self.now.word_len }
        requires good { position is_bad_in_pattern pattern.now ≡ None }
        requires from { from ≤ length pattern.now }
        ensures row { HasFits (map folded pattern.now) self.now.entries result.0.now.bits }
        ensures next { result.1 ≤ length pattern.now }
    {
        let _ = self.table.word_len();
        for position in from..pattern.len() {
            if pattern[position] != b'.' {
                let letter = Letter::capital(pattern[position]);
                if let Some(column) = self.column_of(position, letter) {
                    return (column, position + 1);
                }
            }
        }
        (self.table.active_row(), pattern.len())
    }

    /// Adds the word that the bytes spell: appends a new one, or brings back one that is not active.
    pub fn add(
        &mut self,
        alloc: Global,
        bytes: &[u8],
        grade: Option<u8>,
        least: u8,
    ) -> Result<Added, WordFault>
        requires letters { position is_bad_letter bytes.now ≡ None }
        requires length { length bytes.now ≡ self.old.word_len }
        requires long { 2 ≤ self.old.word_len }
        requires least { least ≤ best_grade }
        ensures word_len { self.new.word_len ≡ self.old.word_len }
        ensures answer { result ≢ Err WordFault.Memory → result ≡ add_to self.old.entries (map folded bytes.now) }
        ensures memory { result ≡ Err WordFault.Memory → IsNew (add_to self.old.entries (map folded bytes.now)) }
        ensures ok { IfOk result (λ added. self.new.entries ≡ with_added least self.old.entries (map folded bytes.now) grade added) }
        ensures err { OnErr result (self.new.entries ≡ self.old.entries) }
        ensures room_at_err { OnErr result (self.new.room ≡ self.old.room) }
        ensures room_at_return { (index : ℕ) → result ≡ Ok (Added.Returned index) → self.new.room ≡ self.old.room }
    {
        let _ = self.table.word_len();
        let mut letters = [Letter::first(); LONGEST];
        spell(&mut letters, bytes);
        let word = &letters[..bytes.len()];
        match self.table.find(word) {
            Some(index) => self.table.add_again(index, grade, least),
            None => self.add_new(alloc, word, grade, least),
        }
    }

    /// Appends a word that is not known.
    fn add_new(
        &mut self,
        alloc: Global,
        word: &[Letter],
        grade: Option<u8>,
        least: u8,
    ) -> Result<Added, WordFault>
        requires length { length word.now ≡ self.old.word_len }
        requires long { 2 ≤ self.old.word_len }
        requires unknown { index_in self.old.entries word.now ≡ None }
        requires least { least ≤ best_grade }
        ensures word_len { self.new.word_len ≡ self.old.word_len }
        ensures answer { result ≢ Err WordFault.Memory → result ≡ added_at self.old.entries None }
        ensures memory { result ≡ Err WordFault.Memory → IsNew (added_at self.old.entries None) }
        ensures ok { OnOk result (self.new.entries ≡ self.old.entries ++ new_entry least word.now grade ∷ []) }
        ensures err { OnErr result (self.new.entries ≡ self.old.entries) }
        ensures room { OnErr result (self.new.room ≡ self.old.room) }
        ensures added { IfOk result (λ added. IsNew (Ok added)) }
    {
        let index = self.len();
        if index >= MOST_WORDS {
            return Err(WordFault::Full);
        }
        self.reserve(alloc)?;
        self.add_reserved(word, grade, least);
        Ok(Added::New(index))
    }

    /// Makes word `index` active. Its grade is as `add` says.
    pub fn return_at(&mut self, index: usize, grade: Option<u8>, least: u8)
        requires known { index < length self.old.entries }
        requires least { least ≤ best_grade }
        ensures word_len { self.new.word_len ≡ self.old.word_len }
        ensures entries { self.new.entries ≡ slice_set self.old.entries index (returned least grade (entry_at self.old.entries index)) }
        ensures room { self.new.room ≡ self.old.room }
    {
        self.table.return_at(index, grade, least);
    }

    /// Strikes word `index`.
    pub fn strike_at(&mut self, index: usize)
        requires { index < length self.old.entries }
        ensures word_len { self.new.word_len ≡ self.old.word_len }
        ensures entries { self.new.entries ≡ with_struck self.old.entries index }
        ensures room { self.new.room ≡ self.old.room }
    {
        self.table.strike_at(index);
    }

    /// Reserves room for one more word.
    pub fn reserve(&mut self, alloc: Global) -> Result<(), WordFault>
        requires few { length self.old.entries < most_words }
        requires long { 2 ≤ self.old.word_len }
        ensures word_len { self.new.word_len ≡ self.old.word_len }
        ensures entries { self.new.entries ≡ self.old.entries }
        ensures ok { OnOk result (self.new.room ≡ true) }
        ensures refused { IfErr result (λ fault. fault ≡ WordFault.Memory) }
        ensures err { OnErr result (self.new.room ≡ self.old.room) }
    {
        if self.table.has_room() {
            return Ok(());
        }
        let words = grown(self.table.len());
        let many = LETTERS * self.table.word_len();
        grow_columns(alloc, &mut self.columns, many, words)?;
        self.table.reserve(alloc, words)?;
        Ok(())
    }

    /// Appends a word that is not known, in reserved room.
    pub fn add_reserved(&mut self, word: &[Letter], grade: Option<u8>, least: u8)
        requires length { length word.now ≡ self.old.word_len }
        requires room { self.old.room ≡ true }
        requires unknown { index_in self.old.entries word.now ≡ None }
        requires least { least ≤ best_grade }
        ensures word_len { self.new.word_len ≡ self.old.word_len }
        ensures entries { self.new.entries ≡ self.old.entries ++ new_entry least word.now grade ∷ [] }
        ensures few { length self.old.entries < most_words }
        ensures long { 2 ≤ length word.now }
    {
        let index = self.table.len();
        self.table.add_reserved(word, grade, least);
        push_word(&mut self.columns, word, index);
    }
}
