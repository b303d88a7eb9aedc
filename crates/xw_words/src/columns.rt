//! The columns of the words of one length. There is one row of bits for each position and letter;
//! bit `i` says whether word `i` has that letter at that position.
ghost use Rattle.std.specs.Prelude.{◌≡◌, ℕ, ◌+◌, ◌*◌, ◌/◌, ◌%◌, ◌<◌, ◌≤◌, ◌&&◌, false, [], length, nat_lt, slice_index, slice_index_or, vec_len, OnOk, IfOk};
ghost use Rattle.xw_bits.specs.Bits.{has_bit};
ghost use Rattle.xw_words.specs.Columns.{column_at, bits_put, bit_pushed, letter_at, AreFilled};
ghost use Rattle.xw_words.specs.Dictionary.{most_words};

use std::alloc::{AllocError, Global};
use xw_bits::bit_row::{BitRow, MAX_BITS};
use xw_letters::letter::Letter;

/// The number of letters, and so of columns for each position.
pub(crate) const LETTERS: usize = 26;

/// Pushes empty columns until there are `many`.
fn make_columns(alloc: Global, columns: &mut Vec<BitRow>, many: usize) -> Result<(), AllocError>
    requires { vec_len columns.old ≤ many }
    ensures kept { (i : ℕ) → i < vec_len columns.old → column_at columns.new.items i ≡ column_at columns.old.items i }
    ensures made { (i : ℕ) → vec_len columns.old ≤ i → (column_at columns.new.items i).bits ≡ [] }
    ensures more { vec_len columns.old ≤ vec_len columns.new }
    ensures few { vec_len columns.new ≤ many }
    ensures ok { OnOk result (vec_len columns.new ≡ many) }
{
    for _ in columns.len()..many {
        columns.push(BitRow::new(alloc))?;
    }
    Ok(())
}

/// Reserves room for `words` words in total in each column.
fn reserve_columns(columns: &mut [BitRow], words: usize) -> Result<(), AllocError>
    requires { words ≤ MAX_BITS }
    ensures bits { (i : ℕ) → (column_at columns.new i).bits ≡ (column_at columns.old i).bits }
    ensures more { (i : ℕ) → (column_at columns.old i).room ≤ (column_at columns.new i).room }
    ensures ok { OnOk result ((i : ℕ) → i < length columns.new → words ≤ (column_at columns.new i).room) }
{
    for i in 0..columns.len() {
        let column = &mut columns[i];
        column.reserve(words)?;
    }
    Ok(())
}

/// Pushes empty columns until there are `many`, and reserves room for `words` words in each.
pub(crate) fn grow_columns(
    alloc: Global,
    columns: &mut Vec<BitRow>,
    many: usize,
    words: usize,
) -> Result<(), AllocError>
    requires many { vec_len columns.old ≤ many }
    requires words { words ≤ MAX_BITS }
    ensures bits { (i : ℕ) → (column_at columns.new.items i).bits ≡ (column_at columns.old.items i).bits }
    ensures room_stays { (i : ℕ) → (column_at columns.old.items i).room ≤ (column_at columns.new.items i).room }
    ensures more { vec_len columns.old ≤ vec_len columns.new }
    ensures few { vec_len columns.new ≤ many }
    ensures all { OnOk result (vec_len columns.new ≡ many) }
    ensures room { OnOk result ((i : ℕ) → i < vec_len columns.new → words ≤ (column_at columns.new.items i).room) }
{
    make_columns(alloc, columns, many)?;
    reserve_columns(columns, words)
}

/// Appends 64 clear bits to each column.
fn lengthen(columns: &mut [BitRow])
    requires whole { (i : ℕ) → i < length columns.old → length (column_at columns.old i).bits % 64 ≡ 0 }
    requires room { (i : ℕ) → i < length columns.old → length (column_at columns.old i).bits < (column_at columns.old i).room }
    requires few { (i : ℕ) → i < length columns.old → length (column_at columns.old i).bits ≤ most_words }
    ensures long { (i : ℕ) → i < length columns.old → length (column_at columns.new i).bits ≡ length (column_at columns.old i).bits + 64 }
    ensures bits { (i index : ℕ) → slice_index_or (column_at columns.new i).bits index false ≡ slice_index_or (column_at columns.old i).bits index false }
    ensures more { (i : ℕ) → (column_at columns.old i).room ≤ (column_at columns.new i).room }
{
    for i in 0..columns.len() {
        let column = &mut columns[i];
        column.push_chunk();
    }
}

/// Sets bit `index` in the columns of the word's letters.
fn put_word(columns: &mut [BitRow], word: &[Letter], index: usize)
    requires many { length columns.old ≡ 26 * length word.now }
    requires short { length word.now ≤ 255 }
    requires within { (i : ℕ) → i < length columns.old → index < length (column_at columns.old i).bits }
    ensures bits { (i : ℕ) → i < length columns.old → (column_at columns.new i).bits ≡ bits_put word.now index i (column_at columns.old i).bits }
    ensures more { (i : ℕ) → (column_at columns.old i).room ≤ (column_at columns.new i).room }
{
    for position in 0..word.len() {
        let letter = word[position].byte() - b'A';
        let column = &mut columns[position * LETTERS + letter as usize];
        column.put(index, true);
    }
}

/// Appends a word, whose index is `index`.
pub(crate) fn push_word(columns: &mut [BitRow], word: &[Letter], index: usize)
    requires many { length columns.old ≡ 26 * length word.now }
    requires short { length word.now ≤ 255 }
    requires few { index < most_words }
    requires long { (i : ℕ) → i < length columns.old → length (column_at columns.old i).bits ≡ 64 * ((index + 63) / 64) }
    requires clear { (i : ℕ) → i < length columns.old → slice_index_or (column_at columns.old i).bits index false ≡ false }
    requires room { (i : ℕ) → i < length columns.old → index < (column_at columns.old i).room }
    ensures long { (i : ℕ) → i < length columns.old → length (column_at columns.new i).bits ≡ 64 * ((index + 64) / 64) }
    ensures bits { (i other : ℕ) → i < length columns.old → slice_index_or (column_at columns.new i).bits other false ≡ bit_pushed word.now index i (column_at columns.old i).bits other }
    ensures more { (i : ℕ) → (column_at columns.old i).room ≤ (column_at columns.new i).room }
{
    if index % 64 == 0 {
        lengthen(columns);
    }
    put_word(columns, word, index);
}

/// For each letter a bit for each of the 64 words from `first` on: whether it has the letter at the
/// position.
fn letter_bits(
    letters: &[Letter],
    word_len: usize,
    words: usize,
    first: usize,
    position: usize,
) -> [u64; LETTERS]
    requires letters { length letters.now ≡ words * word_len }
    requires short { word_len ≤ 255 }
    requires few { words ≤ most_words }
    requires within { first < words }
    requires position { position < word_len }
    ensures { (k j : ℕ) → k < 26 → j < 64 → has_bit (slice_index result k) j ≡ (nat_lt (first + j) words && letter_at letters.now ((first + j) * word_len + position) k) }
{
    let mut bits = [0u64; LETTERS];
    for index in first..words.min(first + 64) {
        let letter = letters[index * word_len + position].byte() - b'A';
        bits[letter as usize] |= 1 << (index - first);
    }
    bits
}

/// Writes the 64 bits of a chunk that is clear.
fn put_chunk(column: &mut BitRow, chunk: usize, word: u64)
    requires within { 64 * chunk + 64 ≤ length column.old.bits }
    requires clear { (j : ℕ) → j < 64 → slice_index_or column.old.bits (64 * chunk + j) false ≡ false }
    ensures len { length column.new.bits ≡ length column.old.bits }
    ensures inside { (j : ℕ) → j < 64 → slice_index_or column.new.bits (64 * chunk + j) false ≡ has_bit word j }
    ensures others { (i : ℕ) → (i / 64 ≡ chunk → ⊥) → slice_index_or column.new.bits i false ≡ slice_index_or column.old.bits i false }
    ensures room { column.new.room ≡ column.old.room }
{
    if word != 0 {
        column.set_chunk(chunk, word);
    }
}

/// Writes the 64 words of a chunk to the columns of a position.
fn put_position(
    columns: &mut [BitRow],
    letters: &[Letter],
    word_len: usize,
    words: usize,
    chunk: usize,
    position: usize,
)
    requires many { length columns.old ≡ 26 * word_len }
    requires letters { length letters.now ≡ words * word_len }
    requires short { word_len ≤ 255 }
    requires few { words ≤ most_words }
    requires within { 64 * chunk < words }
    requires position { position < word_len }
    requires long { (k : ℕ) → k < 26 → length (column_at columns.old (26 * position + k)).bits ≡ 64 * chunk + 64 }
    requires clear { (k j : ℕ) → k < 26 → j < 64 → slice_index_or (column_at columns.old (26 * position + k)).bits (64 * chunk + j) false ≡ false }
    ensures len { (i : ℕ) → length (column_at columns.new i).bits ≡ length (column_at columns.old i).bits }
    ensures inside { (k j : ℕ) → k < 26 → j < 64 → slice_index_or (column_at columns.new (26 * position + k)).bits (64 * chunk + j) false ≡ (nat_lt (64 * chunk + j) words && letter_at letters.now ((64 * chunk + j) * word_len + position) k) }
    ensures others { (i at : ℕ) → (at / 64 ≡ chunk → ⊥) → slice_index_or (column_at columns.new i).bits at false ≡ slice_index_or (column_at columns.old i).bits at false }
    ensures rest { (i : ℕ) → (i / 26 ≡ position → ⊥) → column_at columns.new i ≡ column_at columns.old i }
    ensures room { (i : ℕ) → (column_at columns.new i).room ≡ (column_at columns.old i).room }
{
    let bits = letter_bits(letters, word_len, words, 64 * chunk, position);
    for letter in 0..LETTERS {
        let column = &mut columns[LETTERS * position + letter];
        put_chunk(column, chunk, bits[letter]);
    }
}

/// Writes the 64 words of a chunk, which is clear, to the columns.
fn put_words(
    columns: &mut [BitRow],
    letters: &[Letter],
    word_len: usize,
    words: usize,
    chunk: usize,
)
    requires many { length columns.old ≡ 26 * word_len }
    requires letters { length letters.now ≡ words * word_len }
    requires short { word_len ≤ 255 }
    requires few { words ≤ most_words }
    requires within { 64 * chunk < words }
    requires long { (i : ℕ) → i < length columns.old → length (column_at columns.old i).bits ≡ 64 * chunk + 64 }
    requires clear { (i j : ℕ) → i < length columns.old → j < 64 → slice_index_or (column_at columns.old i).bits (64 * chunk + j) false ≡ false }
    ensures len { (i : ℕ) → length (column_at columns.new i).bits ≡ length (column_at columns.old i).bits }
    ensures inside { (i j : ℕ) → i < length columns.old → j < 64 → slice_index_or (column_at columns.new i).bits (64 * chunk + j) false ≡ (nat_lt (64 * chunk + j) words && letter_at letters.now ((64 * chunk + j) * word_len + i / 26) (i % 26)) }
    ensures others { (i at : ℕ) → (at / 64 ≡ chunk → ⊥) → slice_index_or (column_at columns.new i).bits at false ≡ slice_index_or (column_at columns.old i).bits at false }
    ensures room { (i : ℕ) → (column_at columns.new i).room ≡ (column_at columns.old i).room }
{
    for position in 0..word_len {
        put_position(columns, letters, word_len, words, chunk, position);
    }
}

/// Writes the words whose letters stand one after another to empty columns.
fn fill_columns(columns: &mut [BitRow], letters: &[Letter], word_len: usize, words: usize)
    requires many { length columns.old ≡ 26 * word_len }
    requires letters { length letters.now ≡ words * word_len }
    requires short { word_len ≤ 255 }
    requires few { words ≤ most_words }
    requires clear { (i : ℕ) → (column_at columns.old i).bits ≡ [] }
    requires room { (i : ℕ) → i < length columns.old → words ≤ (column_at columns.old i).room }
    ensures { AreFilled word_len words words letters.now columns.new }
{
    for chunk in 0..words.div_ceil(64) {
        lengthen(columns);
        put_words(columns, letters, word_len, words, chunk);
    }
}

/// The columns of words whose letters stand one after another. There are none without words.
pub(crate) fn columns_of(
    alloc: Global,
    letters: &[Letter],
    word_len: usize,
    words: usize,
) -> Result<Vec<BitRow>, AllocError>
    requires letters { length letters.now ≡ words * word_len }
    requires short { word_len ≤ 255 }
    requires few { words ≤ most_words }
    ensures few { IfOk result (λ columns. length columns.items ≤ 26 * word_len) }
    ensures all { IfOk result (λ columns. 0 < words → length columns.items ≡ 26 * word_len) }
    ensures filled { IfOk result (λ columns. AreFilled word_len words words letters.now columns.items) }
{
    let mut columns = Vec::new(alloc);
    if words == 0 {
        return Ok(columns);
    }
    grow_columns(alloc, &mut columns, LETTERS * word_len, words)?;
    fill_columns(&mut columns, letters, word_len, words);
    Ok(columns)
}
