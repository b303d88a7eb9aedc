//! Filters a row of words by a set of letters at a position. It skips chunks that are clear, and takes
//! eight chunks at a time where the row is dense. The letters are listed once for the whole row, by
//! their place in the alphabet, 0 for A.
ghost use Rattle.std.specs.Prelude.{◌≡◌, ℕ, ◌+◌, ◌*◌, ◌^◌, ◌<◌, ◌≤◌, Option, false, length, take, bit_or, slice_index, slice_index_or};
ghost use Rattle.xw_bits.specs.Bits.{has_bit};
ghost use Rattle.xw_words.specs.Columns.{column_at, is_among, is_listed, TellsOneOf, IsSifted, IsSiftedBy};
ghost use Rattle.xw_words.specs.Rows.{chunks_in};

use std::simd::prelude::*;
use xw_bits::bit_row::BitRow;
use xw_letters::letter_set::LetterSet;

/// The number of chunks in a block.
const BLOCK: usize = 8;

/// The bitwise OR of two blocks.
fn either_block(block: u64x8, other: u64x8) -> u64x8
    ensures { (k : ℕ) → k < 8 → slice_index result k ≡ bit_or (slice_index block k) (slice_index other k) }
{
    block | other
}

/// Writes the letters of a set to a list, by their place in the alphabet. Returns how many there are.
fn list_letters(letters: LetterSet, list: &mut [u8]) -> usize
    requires { length list.old ≡ 26 }
    ensures few { result ≤ 26 }
    ensures places { (k : ℕ) → k < result → slice_index list.new k < 26 }
    ensures lists { (letter : Option ℕ) → is_listed (take result list.new) letter ≡ is_among letters letter }
{
    let mut count = 0;
    let mut next = 0;
    while let Some(index) = letters.next_index(next) {
        list[count] = index as u8;
        count += 1;
        next = index + 1;
    }
    count
}

/// A bit for each word of the block at chunk `at`: whether it has one of the letters.
fn block_with(columns: &[BitRow], list: &[u8], at: usize) -> u64x8
    requires many { length columns.now ≡ 26 }
    requires places { (k : ℕ) → k < length list.now → slice_index list.now k < 26 }
    requires within { (k : ℕ) → k < 26 → 64 * at + 448 < length (column_at columns.now k).bits }
    ensures { (chunk k : ℕ) → chunk < 8 → k < 64 → TellsOneOf columns.now list.now (64 * (at + chunk) + k) (has_bit (slice_index result chunk) k) }
{
    let mut found = u64x8::splat(0);
    for letter in list {
        found = either_block(found, columns[*letter as usize].block(at));
    }
    found
}

/// A bit for each word of a chunk: whether it has one of the letters.
fn chunk_with(columns: &[BitRow], list: &[u8], at: usize) -> u64
    requires many { length columns.now ≡ 26 }
    requires places { (k : ℕ) → k < length list.now → slice_index list.now k < 26 }
    requires within { (k : ℕ) → k < 26 → 64 * at < length (column_at columns.now k).bits }
    ensures { (k : ℕ) → k < 64 → TellsOneOf columns.now list.now (64 * at + k) (has_bit result k) }
{
    let mut found = 0;
    for letter in list {
        found |= columns[*letter as usize].chunk(at);
    }
    found
}

/// In one block, keeps the words that have one of the letters, or those that have none if `keep` is
/// false.
fn sift_block(row: &mut BitRow, columns: &[BitRow], list: &[u8], keep: bool, at: usize)
    requires many { length columns.now ≡ 26 }
    requires places { (k : ℕ) → k < length list.now → slice_index list.now k < 26 }
    requires within { (k : ℕ) → k < 26 → 64 * at + 448 < length (column_at columns.now k).bits }
    requires row { 64 * at + 448 < length row.old.bits }
    ensures len { length row.new.bits ≡ length row.old.bits }
    ensures below { (i : ℕ) → i < 64 * at → slice_index_or row.new.bits i false ≡ slice_index_or row.old.bits i false }
    ensures inside { (i : ℕ) → 64 * at ≤ i → i < 64 * at + 512 → IsSiftedBy columns.now list.now keep row.old.bits row.new.bits i }
    ensures above { (i : ℕ) → 64 * at + 512 ≤ i → slice_index_or row.new.bits i false ≡ slice_index_or row.old.bits i false }
    ensures room { row.new.room ≡ row.old.room }
{
    let found = block_with(columns, list, at);
    if keep {
        row.keep_block(at, found);
    } else {
        row.strike_block(at, found);
    }
}

/// Like `sift_block`, but for one chunk.
fn sift_chunk(row: &mut BitRow, columns: &[BitRow], list: &[u8], keep: bool, at: usize)
    requires many { length columns.now ≡ 26 }
    requires places { (k : ℕ) → k < length list.now → slice_index list.now k < 26 }
    requires within { (k : ℕ) → k < 26 → 64 * at < length (column_at columns.now k).bits }
    requires row { 64 * at < length row.old.bits }
    ensures len { length row.new.bits ≡ length row.old.bits }
    ensures below { (i : ℕ) → i < 64 * at → slice_index_or row.new.bits i false ≡ slice_index_or row.old.bits i false }
    ensures inside { (i : ℕ) → 64 * at ≤ i → i < 64 * at + 64 → IsSiftedBy columns.now list.now keep row.old.bits row.new.bits i }
    ensures above { (i : ℕ) → 64 * at + 64 ≤ i → slice_index_or row.new.bits i false ≡ slice_index_or row.old.bits i false }
    ensures room { row.new.room ≡ row.old.room }
{
    let found = chunk_with(columns, list, at);
    row.keep_chunk(at, if keep { found } else { !found });
}

/// Filters the block at a chunk if the row is dense there, else the chunk. Returns the chunk after it.
fn sift_at(row: &mut BitRow, columns: &[BitRow], list: &[u8], keep: bool, at: usize) -> usize
    requires many { length columns.now ≡ 26 }
    requires places { (k : ℕ) → k < length list.now → slice_index list.now k < 26 }
    requires long { (k : ℕ) → k < 26 → length (column_at columns.now k).bits ≡ 64 * chunks_in (length row.old.bits) }
    requires row { 64 * at < length row.old.bits }
    ensures next { at < result }
    ensures small { result < 2 ^ 57 }
    ensures len { length row.new.bits ≡ length row.old.bits }
    ensures below { (i : ℕ) → i < 64 * at → slice_index_or row.new.bits i false ≡ slice_index_or row.old.bits i false }
    ensures inside { (i : ℕ) → 64 * at ≤ i → i < 64 * result → IsSiftedBy columns.now list.now keep row.old.bits row.new.bits i }
    ensures above { (i : ℕ) → 64 * result ≤ i → slice_index_or row.new.bits i false ≡ slice_index_or row.old.bits i false }
    ensures room { row.new.room ≡ row.old.room }
{
    let _ = row.len();
    if row.is_dense(at) {
        sift_block(row, columns, list, keep, at);
        at + BLOCK
    } else {
        sift_chunk(row, columns, list, keep, at);
        at + 1
    }
}

/// Keeps the words of a row that have one of the letters, or those that have none if `keep` is
/// false.
pub(crate) fn sift(row: &mut BitRow, columns: &[BitRow], letters: LetterSet, keep: bool)
    requires many { length columns.now ≡ 26 }
    requires long { (k : ℕ) → k < 26 → length (column_at columns.now k).bits ≡ 64 * chunks_in (length row.old.bits) }
    ensures len { length row.new.bits ≡ length row.old.bits }
    ensures bits { (i : ℕ) → IsSifted columns.now letters keep row.old.bits row.new.bits i }
    ensures room { row.new.room ≡ row.old.room }
{
    let mut room = [0u8; 26];
    let count = list_letters(letters, &mut room);
    let list = &room[..count];
    let mut from = 0;
    while let Some(chunk) = row.next_chunk(from) {
        from = sift_at(row, columns, list, keep, chunk);
    }
}
