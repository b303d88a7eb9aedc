//! The words of a list, before their columns are made.
ghost use Rattle.std.specs.Prelude.{◌≡◌, ◌≢◌, ℕ, ◌<◌, ◌≤◌, [], None, length, map, replicate, slice_index_or, All, Err, IfOk, OnErr, OnOk, vec_len};
ghost use Rattle.xw_letters.specs.Letter.{IsLetter};
ghost use Rattle.xw_words.specs.Bank.{words_of, IsKept};
ghost use Rattle.xw_words.specs.Dictionary.{add_to, after_add, answer_on, no_words};
ghost use Rattle.xw_words.specs.Loader.{words_in, AreKept, no_table};
ghost use Rattle.xw_words.specs.Word.{judged};

use crate::bank::{Added, LENGTHS};
use crate::fault::WordFault;
use crate::row::Row;
use crate::table::Table;
use crate::word::judge_length;
use std::alloc::{AllocError, Global};
use std::marker::Model;
use xw_letters::letter::Letter;

/// Pushes an empty table for each length.
fn make_tables(alloc: Global, tables: &mut Vec<Table>) -> Result<(), AllocError>
    requires { vec_len tables.old ≡ 0 }
    ensures many { OnOk result (vec_len tables.new ≡ 256) }
    ensures empty { OnOk result (map (λ table. table.entries) tables.new.items ≡ replicate 256 []) }
    ensures lens { OnOk result ((len : ℕ) → len < 256 → (slice_index_or tables.new.items len no_table).word_len ≡ len) }
{
    for len in 0..LENGTHS {
        tables.push(Table::new(alloc, len))?;
    }
    Ok(())
}

/// Pushes a row for each table.
fn make_rows(alloc: Global, tables: Vec<Table>, rows: &mut Vec<Row>) -> Result<(), AllocError>
    requires none { vec_len rows.old ≡ 0 }
    requires kept { AreKept tables.items }
    ensures words { OnOk result (words_of rows.new.items 0 ≡ words_in tables.items) }
    ensures kept { OnOk result (IsKept rows.new.items 0) }
{
    for table in tables {
        rows.push(Row::of(alloc, table)?)?;
    }
    Ok(())
}

/// A dictionary without columns: a table for each length. A list fills it faster than a dictionary, where each word
/// changes a column at each position.
#[derive(Drop)]
pub(crate) struct Loader {
    tables: Vec<Table>,
}

impl Model for Loader {
    ghost use Rattle.xw_words.specs.Dictionary.{Dictionary};
    ghost use Rattle.xw_words.specs.Loader.{words_in, AreKept};

    ghost Value = { Dictionary };

    ghost view = { λ loader. words_in loader.tables.items };

    ghost invariant = { λ loader. AreKept loader.tables.items };
}

impl Loader {
    /// A loader without words.
    pub fn new(alloc: Global) -> Result<Loader, AllocError>
        ensures { IfOk result (λ loader. loader ≡ no_words) }
    {
        let mut tables = Vec::new(alloc);
        make_tables(alloc, &mut tables)?;
        Ok(Loader { tables })
    }

    /// Reserves room for so many words of length `len`. If the allocation fails, the table grows in steps.
    pub fn expect(&mut self, alloc: Global, len: usize, words: usize)
        requires low { 2 ≤ len }
        requires high { len ≤ 255 }
        ensures { self.new ≡ self.old }
    {
        let table = &mut self.tables[len];
        table.expect(alloc, words);
    }

    /// Adds a word, as `Bank::add` does where the least grade is 0.
    pub fn add_word(
        &mut self,
        alloc: Global,
        word: &[Letter],
        grade: Option<u8>,
    ) -> Result<Added, WordFault>
        requires { All IsLetter word.now }
        ensures answer { result ≢ Err WordFault.Memory → result ≡ answer_on add_to self.old (judged None (length word.now) word.now) }
        ensures ok { IfOk result (λ added. self.new ≡ after_add self.old word.now grade added) }
        ensures err { OnErr result (self.new ≡ self.old) }
    {
        judge_length(word.len())?;
        let table = &mut self.tables[word.len()];
        table.add_word(alloc, word, grade, 0)
    }

    /// The rows with these words, and their columns.
    pub fn into_rows(self, alloc: Global) -> Result<Vec<Row>, AllocError>
        ensures words { IfOk result (λ rows. words_of rows.items 0 ≡ self) }
        ensures kept { IfOk result (λ rows. IsKept rows.items 0) }
    {
        let mut rows = Vec::new(alloc);
        make_rows(alloc, self.tables, &mut rows)?;
        Ok(rows)
    }
}
