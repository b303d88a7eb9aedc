//! A growable row of bits, packed into 64-bit words.
//!
//! A chunk is one word: chunk `c` holds the bits from `64 * c` to `64 * c + 63`, the lowest bit
//! first. A block is eight consecutive chunks, as one SIMD vector.
ghost use Rattle.std.specs.Prelude.{◌≡◌, ℕ, ◌+◌, ◌-◌, ◌*◌, ◌/◌, ◌%◌, ◌^◌, ◌<◌, ◌≤◌, Bool, false, not, ◌&&◌, [], ◌∷◌, ◌++◌, length, min, slice_index, slice_index_or, slice_set, count_by, replicate, IfOk, OnOk, OnErr, IfSome, IfNone, None, true, if◌then◌else◌, nat_eq};
ghost use Rattle.std.specs.Simd.Lanes.{zip2};
ghost use Rattle.xw_bits.specs.Bits.{RowOfBits, has_bit, chunk_bit};
ghost use Rattle.xw_bits.specs.SetBits.{set_indices};

use crate::kernels::{
    block_at, copy_marked, count_after, count_kept, count_words, keep_at, low_bits,
    make_room_for_bit, next_common, sift_words, with_bit,
};
use crate::ones::{Ones, next_one};
use crate::summary::{make_room_for_mark, next_both, put_bit, put_word, unmark_block};
use std::alloc::{AllocError, Global};
use std::marker::Model;
use std::simd::prelude::*;

/// The largest number of bits a row can have room for.
pub const MAX_BITS: usize = 0x1FF_FFFF_FFFF_FFFF;

/// A row of bits, packed 64 to a word.
///
/// The row caches the number of set bits once `keep_count` has counted them. `keep_block`,
/// `strike_block`, `keep_chunk`, `set_chunk`, `put` and a `push` of a clear bit keep the cache up to
/// date, and `copy_from` copies that of the other row; every other change drops it.
#[derive(Drop)]
pub struct BitRow {
    words: Vec<u64>,
    /// A bit for each chunk. If it is clear, the chunk is 0, and the operations on the row skip it.
    summary: Vec<u64>,
    len: usize,
    /// The number of chunks that there is room for.
    reserved: usize,
    counted: Option<usize>,
}

/// The cached count after `bit` is pushed: a set bit drops it.
fn count_with(counted: Option<usize>, bit: bool) -> Option<usize>
    ensures { result ≡ (if bit then None else counted) }
{
    if bit { None } else { counted }
}

impl Model for BitRow {
    ghost use Rattle.xw_bits.specs.Bits.{RowOfBits};

    ghost Value = { RowOfBits };

    ghost use Rattle.xw_bits.specs.BitRow.{row_of, IsBitRow};

    ghost view = { row_of };

    ghost invariant = { IsBitRow };
}

impl BitRow {
    /// An empty row.
    pub fn new(alloc: Global) -> Self
        ensures { result.bits ≡ [] }
    {
        BitRow {
            words: Vec::new(alloc),
            summary: Vec::new(alloc),
            len: 0,
            reserved: 0,
            counted: Some(0),
        }
    }

    /// A row of `bits` clear bits, with room for them.
    pub fn clear_of(alloc: Global, bits: usize) -> Result<BitRow, AllocError>
        requires { bits < 2 ^ 57 }
        ensures bits { IfOk result (λ row. row.bits ≡ replicate bits false) }
        ensures room { IfOk result (λ row. bits ≤ row.room) }
    {
        let words = bits.div_ceil(64);
        Ok(BitRow {
            words: vec![in alloc; 0; words]?,
            summary: vec![in alloc; 0; words.div_ceil(64)]?,
            len: bits,
            reserved: words,
            counted: Some(0),
        })
    }

    /// A copy of the row. Returns an error if an allocation fails.
    pub fn copy(&self) -> Result<BitRow, AllocError>
        ensures { IfOk result (λ copy. copy.bits ≡ self.now.bits) }
    {
        Ok(BitRow {
            words: self.words.clone()?,
            summary: self.summary.clone()?,
            len: self.len,
            reserved: self.words.len(),
            counted: self.counted,
        })
    }

    /// The number of bits, set or clear.
    pub fn len(&self) -> usize
        ensures value { result ≡ length self.now.bits }
        ensures small { result < 2 ^ 57 }
    {
        self.len
    }

    /// Intersects the row with `other`: clears each bit that `other` does not have set.
    pub fn and(&mut self, other: &BitRow)
        requires { length self.old.bits ≡ length other.now.bits }
        ensures bits { self.new.bits ≡ zip2 (λ x y. x && y) self.old.bits other.now.bits }
        ensures room { self.new.room ≡ self.old.room }
    {
        self.counted = None;
        sift_words(&mut self.words, &mut self.summary, &other.words, true);
    }

    /// Subtracts `other`: clears each bit that `other` has set.
    pub fn and_not(&mut self, other: &BitRow)
        requires { length self.old.bits ≡ length other.now.bits }
        ensures bits { self.new.bits ≡ zip2 (λ x y. x && not y) self.old.bits other.now.bits }
        ensures room { self.new.room ≡ self.old.room }
    {
        self.counted = None;
        sift_words(&mut self.words, &mut self.summary, &other.words, false);
    }

    /// Copies the bits of `other`, a row of the same length.
    pub fn copy_from(&mut self, other: &BitRow)
        requires { length self.old.bits ≡ length other.now.bits }
        ensures bits { self.new.bits ≡ other.now.bits }
        ensures room { self.new.room ≡ self.old.room }
    {
        self.counted = other.counted;
        copy_marked(
            &mut self.words,
            &mut self.summary,
            &other.words,
            &other.summary,
        );
    }

    /// Clears all bits. The length stays.
    pub fn clear(&mut self)
        ensures len { length self.new.bits ≡ length self.old.bits }
        ensures bits { (i : ℕ) → slice_index_or self.new.bits i false ≡ false }
        ensures room { self.new.room ≡ self.old.room }
    {
        self.counted = None;
        self.words.as_mut_slice().fill(0);
        self.summary.as_mut_slice().fill(0);
    }

    /// The eight chunks from chunk `at` on. Bits past the end of the row are 0.
    pub fn block(&self, at: usize) -> u64x8
        requires { 64 * at + 448 < length self.now.bits }
        ensures { (chunk k : ℕ) → chunk < 8 → k < 64 → has_bit (slice_index result chunk) k ≡ chunk_bit self.now.bits (at + chunk) k }
    {
        block_at(&self.words, at)
    }

    /// Intersects the block at chunk `at` with `block`.
    pub fn keep_block(&mut self, at: usize, block: u64x8)
        requires { 64 * at + 448 < length self.old.bits }
        ensures len { length self.new.bits ≡ length self.old.bits }
        ensures below { (i : ℕ) → i < 64 * at → slice_index_or self.new.bits i false ≡ slice_index_or self.old.bits i false }
        ensures inside { (chunk k : ℕ) → chunk < 8 → k < 64 → chunk_bit self.new.bits (at + chunk) k ≡ (chunk_bit self.old.bits (at + chunk) k && has_bit (slice_index block chunk) k) }
        ensures above { (i : ℕ) → 64 * at + 512 ≤ i → slice_index_or self.new.bits i false ≡ slice_index_or self.old.bits i false }
        ensures room { self.new.room ≡ self.old.room }
    {
        self.counted = count_kept(&self.words, at, block, self.counted);
        keep_at(&mut self.words, at, block);
        unmark_block(&self.words, &mut self.summary, at);
    }

    /// Clears, in the block at chunk `at`, each bit that `block` has set.
    pub fn strike_block(&mut self, at: usize, block: u64x8)
        requires { 64 * at + 448 < length self.old.bits }
        ensures len { length self.new.bits ≡ length self.old.bits }
        ensures below { (i : ℕ) → i < 64 * at → slice_index_or self.new.bits i false ≡ slice_index_or self.old.bits i false }
        ensures inside { (chunk k : ℕ) → chunk < 8 → k < 64 → chunk_bit self.new.bits (at + chunk) k ≡ (chunk_bit self.old.bits (at + chunk) k && not (has_bit (slice_index block chunk) k)) }
        ensures above { (i : ℕ) → 64 * at + 512 ≤ i → slice_index_or self.new.bits i false ≡ slice_index_or self.old.bits i false }
        ensures room { self.new.room ≡ self.old.room }
    {
        self.keep_block(at, !block);
    }

    /// The first index, from chunk `from` on, of a bit that is set in both rows.
    pub fn next_common(&self, other: &BitRow, from: usize) -> Option<usize>
        ensures found { IfSome result (λ index. (64 * from ≤ index) × ((slice_index_or self.now.bits index false && slice_index_or other.now.bits index false) ≡ true)) }
        ensures first { IfSome result (λ index. (i : ℕ) → 64 * from ≤ i → i < index → (slice_index_or self.now.bits i false && slice_index_or other.now.bits i false) ≡ false) }
        ensures none { IfNone result ((i : ℕ) → 64 * from ≤ i → (slice_index_or self.now.bits i false && slice_index_or other.now.bits i false) ≡ false) }
    {
        match next_common(
            &self.words,
            &self.summary,
            &other.words,
            &other.summary,
            from,
        ) {
            Some(chunk) => {
                let common = self.words[chunk] & other.words[chunk];
                Some(64 * chunk + common.trailing_zeros() as usize)
            }
            None => None,
        }
    }

    /// The number of set bits. Takes constant time if the count is cached, else time linear in the
    /// length.
    pub fn count(&self) -> usize
        ensures { result ≡ count_by (λ bit. bit) self.now.bits }
    {
        match self.counted {
            Some(count) => count,
            None => count_words(&self.words) as usize,
        }
    }

    /// Counts the set bits and caches the count for `count`.
    pub fn keep_count(&mut self)
        ensures { self.new ≡ self.old }
    {
        self.counted = Some(self.count());
    }

    /// Reserves room for `bits` bits in total, or for `MAX_BITS` if that is less. Returns `AllocError`
    /// if the allocation fails.
    pub fn reserve(&mut self, bits: usize) -> Result<(), AllocError>
        ensures room { OnOk result (min bits MAX_BITS ≤ self.new.room) }
        ensures same { OnErr result (self.new ≡ self.old) }
        ensures bits { self.new.bits ≡ self.old.bits }
        ensures room_stays { self.old.room ≤ self.new.room }
    {
        let words = bits.min(MAX_BITS).div_ceil(64);
        if words > self.reserved {
            let more = words - self.words.len();
            self.words.reserve_exact(more)?;
            self.summary
                .reserve_exact(words.div_ceil(64) - self.summary.len())?;
            self.reserved = words;
        }
        Ok(())
    }

    /// Whether the row has at least the room of another one.
    pub fn has_room_of(&self, other: &BitRow) -> bool
        ensures { result ≡ true → other.now.room ≤ self.now.room }
    {
        other.reserved <= self.reserved
    }

    /// Appends a bit. The caller reserves the room first.
    pub fn push(&mut self, bit: bool)
        requires { length self.old.bits < self.old.room }
        ensures bits { self.new.bits ≡ self.old.bits ++ bit ∷ [] }
        ensures room { self.old.room ≤ self.new.room }
    {
        let counted = count_with(self.counted, bit);
        self.counted = counted;
        make_room_for_mark(&mut self.summary, self.len);
        make_room_for_bit(&mut self.words, self.len);
        put_bit(&mut self.words, &mut self.summary, self.len, bit);
        self.len += 1;
    }

    /// Appends 64 clear bits. The length must be a multiple of 64.
    pub fn push_chunk(&mut self)
        requires whole { length self.old.bits % 64 ≡ 0 }
        requires room { length self.old.bits < self.old.room }
        requires small { length self.old.bits < 2 ^ 56 }
        ensures len { length self.new.bits ≡ length self.old.bits + 64 }
        ensures bits { (i : ℕ) → slice_index_or self.new.bits i false ≡ slice_index_or self.old.bits i false }
        ensures room { self.old.room ≤ self.new.room }
    {
        self.counted = None;
        make_room_for_mark(&mut self.summary, self.len);
        make_room_for_bit(&mut self.words, self.len);
        self.len += 64;
    }

    /// The 64 bits from `64 * chunk` on, the first one lowest. Bits past the end of the row are 0.
    pub fn chunk(&self, chunk: usize) -> u64
        requires { 64 * chunk < length self.now.bits }
        ensures { (k : ℕ) → k < 64 → has_bit result k ≡ chunk_bit self.now.bits chunk k }
    {
        self.words[chunk]
    }

    /// Replaces the 64 bits from `64 * chunk` on. Drops the bits of `word` past the end of the row.
    pub fn set_chunk(&mut self, chunk: usize, word: u64)
        requires { 64 * chunk < length self.old.bits }
        ensures len { length self.new.bits ≡ length self.old.bits }
        ensures inside { (k : ℕ) → k < 64 → 64 * chunk + k < length self.old.bits → chunk_bit self.new.bits chunk k ≡ has_bit word k }
        ensures others { (i : ℕ) → (i / 64 ≡ chunk → ⊥) → slice_index_or self.new.bits i false ≡ slice_index_or self.old.bits i false }
        ensures room { self.new.room ≡ self.old.room }
    {
        let left = self.len - 64 * chunk;
        let word = low_bits(word, left.min(64));
        self.counted = count_after(&self.words, chunk, word, self.counted);
        put_word(&mut self.words, &mut self.summary, chunk, word);
    }

    /// Intersects chunk `chunk` with `word`.
    pub fn keep_chunk(&mut self, chunk: usize, word: u64)
        requires { 64 * chunk < length self.old.bits }
        ensures len { length self.new.bits ≡ length self.old.bits }
        ensures inside { (k : ℕ) → k < 64 → chunk_bit self.new.bits chunk k ≡ (chunk_bit self.old.bits chunk k && has_bit word k) }
        ensures others { (i : ℕ) → (i / 64 ≡ chunk → ⊥) → slice_index_or self.new.bits i false ≡ slice_index_or self.old.bits i false }
        ensures room { self.new.room ≡ self.old.room }
    {
        let left = self.words[chunk] & word;
        self.counted = count_after(&self.words, chunk, left, self.counted);
        put_word(&mut self.words, &mut self.summary, chunk, left);
    }

    /// The first chunk from `from` on that may have a set bit. It skips chunks that are clear, most of
    /// them 64 at a time.
    pub fn next_chunk(&self, from: usize) -> Option<usize>
        ensures found { IfSome result (λ chunk. (from ≤ chunk) × (64 * chunk < length self.now.bits)) }
        ensures passed { IfSome result (λ chunk. (i : ℕ) → 64 * from ≤ i → i < 64 * chunk → slice_index_or self.now.bits i false ≡ false) }
        ensures none { IfNone result ((i : ℕ) → 64 * from ≤ i → slice_index_or self.now.bits i false ≡ false) }
    {
        next_both(&self.summary, &self.summary, from)
    }

    /// Whether operations on the block at `chunk` are faster than those on its chunks: the row has eight
    /// chunks from this one on, and at least three of them may have set bits. The contract promises
    /// nothing for `false`.
    pub fn is_dense(&self, chunk: usize) -> bool
        requires { 64 * chunk < length self.now.bits }
        ensures { result ≡ true → 64 * chunk + 448 < length self.now.bits }
    {
        self.words.len() - chunk >= 8
            && ((self.summary[chunk / 64] >> (chunk % 64)) & 255).count_ones() >= 3
    }

    /// Sets or clears the bit at index `i`.
    pub fn put(&mut self, i: usize, bit: bool)
        requires { i < length self.old.bits }
        ensures bits { self.new.bits ≡ slice_set self.old.bits i bit }
        ensures room { self.new.room ≡ self.old.room }
    {
        let chunk = i / 64;
        let word = with_bit(self.words[chunk], i % 64, bit);
        self.counted = count_after(&self.words, chunk, word, self.counted);
        put_word(&mut self.words, &mut self.summary, chunk, word);
    }

    /// The indices of the set bits, in ascending order.
    pub fn ones(&self) -> Ones<'_>
        ensures { result ≡ set_indices self.now.bits 0 }
    {
        Ones::new(self)
    }

    /// The first index from `from` on whose bit is set.
    pub fn next_one(&self, from: usize) -> Option<usize>
        ensures set { IfSome result (λ index. (from ≤ index) × (slice_index_or self.now.bits index false ≡ true)) }
        ensures small { IfSome result (λ index. index < 2 ^ 57) }
        ensures first { IfSome result (λ index. (i : ℕ) → from ≤ i → i < index → slice_index_or self.now.bits i false ≡ false) }
        ensures none { IfNone result ((i : ℕ) → from ≤ i → slice_index_or self.now.bits i false ≡ false) }
    {
        next_one(self, from)
    }

    /// Whether the bit at index `i` is set.
    pub fn has(&self, i: usize) -> bool
        requires { i < length self.now.bits }
        ensures { result ≡ slice_index_or self.now.bits i false }
    {
        (self.words[i / 64] >> (i % 64)) & 1 == 1
    }
}
