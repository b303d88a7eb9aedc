//! Bit operations on slices of 64-bit words. The loops take several words per step, then the rest
//! one by one.
ghost use Rattle.std.specs.Prelude.{◌≡◌, ℕ, ◌+◌, ◌-◌, ◌*◌, ◌/◌, ◌^◌, ◌<◌, ◌≤◌, length, slice_index, bit_and, sum_by, count_by, count_ones, slice_range, slice_set, not, ◌&&◌, ◌==◌, nat_lt, if◌then◌else◌, true, false, vec_len, vec_capacity, IfSome, IfNone};
ghost use Rattle.xw_bits.specs.Bits.{has_bit, words_have, bits_of, block_kept};
ghost use Rattle.xw_bits.specs.Summary.{IsSummary};

use crate::summary::{next_both, sift_word};
use std::simd::prelude::*;

/// The number of words that one SIMD vector of a count holds.
const LANES: usize = 4;

/// Clears the bits of `words` that `other` has clear or, if `keep` is false, those that it has set.
/// Visits only the marked words.
pub fn sift_words(words: &mut [u64], summary: &mut [u64], other: &[u64], keep: bool)
    requires other { length words.old ≡ length other.now }
    requires small { length summary.old < 2 ^ 57 }
    requires summary { IsSummary words.old summary.old }
    ensures bits { (i : ℕ) → words_have words.new i ≡ (words_have words.old i && (if keep then words_have other.now i else not (words_have other.now i))) }
    ensures summary { IsSummary words.new summary.new }
{
    let mut from = 0;
    while let Some(chunk) = next_both(summary, summary, from) {
        sift_word(
            words,
            summary,
            chunk,
            if keep { other[chunk] } else { !other[chunk] },
        );
        from = chunk + 1;
    }
}

/// The number of set bits in the four words from `at` on.
fn count_block(words: &[u64], at: usize) -> u64
    requires { at + 4 ≤ length words.now }
    ensures { result ≡ sum_by count_ones (slice_range words.now at (at + 4)) }
{
    u64x4::from_slice(&words[at..])
        .count_ones()
        .strict_reduce_sum()
}

/// The number of set bits in the eight words from `at` on. Skips the count if they are all clear.
fn count_span(words: &[u64], at: usize) -> u64
    requires within { at + 8 ≤ length words.now }
    requires small { length words.now < 2 ^ 57 }
    ensures { result ≡ sum_by count_ones (slice_range words.now at (at + 8)) }
{
    if is_clear_block(words, at) {
        return 0;
    }
    count_block(words, at) + count_block(words, at + LANES)
}

/// The number of set bits.
pub fn count_words(words: &[u64]) -> u64
    requires { length words.now < 2 ^ 57 }
    ensures { result ≡ count_by (λ bit. bit) (bits_of words.now (64 * length words.now)) }
{
    let mut total = 0;
    let mut at = 0;
    while at + 2 * LANES <= words.len() {
        total += count_span(words, at);
        at += 2 * LANES;
    }
    while at < words.len() {
        total += u64::from(words[at].count_ones());
        at += 1;
    }
    total
}

/// The number of set bits after `word` replaces the word at `at`. `counted` is the number before;
/// `None` if it is not known, and then the result is `None` too.
pub fn count_after(words: &[u64], at: usize, word: u64, counted: Option<usize>) -> Option<usize>
    requires within { at < length words.now }
    requires small { length words.now < 2 ^ 57 }
    requires counted { IfSome counted (λ count. count ≡ count_by (λ bit. bit) (bits_of words.now (64 * length words.now))) }
    ensures { IfSome result (λ count. count ≡ count_by (λ bit. bit) (bits_of (slice_set words.now at word) (64 * length words.now))) }
{
    match counted {
        Some(count) => {
            Some(count - words[at].count_ones() as usize + word.count_ones() as usize)
        }
        None => None,
    }
}

/// The bitwise OR of four consecutive words.
fn joined(words: &[u64], at: usize) -> u64
    requires { at + 4 ≤ length words.now }
    ensures { result ≡ 0 → (k : ℕ) → at ≤ k → k < at + 4 → slice_index words.now k ≡ 0 }
{
    words[at] | words[at + 1] | words[at + 2] | words[at + 3]
}

/// The index of the first word that has a set bit in common with the word of `other` at the same index, among those
/// with a mark. Bit k of `marks` is the mark of the word at `first + k`.
fn common_in(words: &[u64], other: &[u64], first: usize, marks: u64) -> Option<usize>
    requires small { first < 2 ^ 63 }
    requires words { (k : ℕ) → k < 64 → has_bit marks k ≡ true → first + k < length words.now }
    requires other { (k : ℕ) → k < 64 → has_bit marks k ≡ true → first + k < length other.now }
    ensures found { IfSome result (λ at. (first ≤ at) × (at < first + 64) × (has_bit marks (at - first) ≡ true)) }
    ensures common { IfSome result (λ at. 0 < bit_and (slice_index words.now at) (slice_index other.now at)) }
    ensures passed { IfSome result (λ at. (k : ℕ) → k < 64 → first + k < at → has_bit marks k ≡ true → bit_and (slice_index words.now (first + k)) (slice_index other.now (first + k)) ≡ 0) }
    ensures none { IfNone result ((k : ℕ) → k < 64 → has_bit marks k ≡ true → bit_and (slice_index words.now (first + k)) (slice_index other.now (first + k)) ≡ 0) }
{
    let mut left = marks;
    while left != 0 {
        let chunk = first + left.trailing_zeros() as usize;
        if words[chunk] & other[chunk] != 0 {
            return Some(chunk);
        }
        left &= left - 1;
    }
    None
}

/// The index of the first word, from `from` on, that has a set bit in common with the word of
/// `other` at the same index. Visits only words that are marked in both summaries.
pub fn next_common(
    words: &[u64],
    summary: &[u64],
    other: &[u64],
    other_summary: &[u64],
    from: usize,
) -> Option<usize>
    requires summary { IsSummary words.now summary.now }
    requires other { IsSummary other.now other_summary.now }
    requires small { length summary.now < 2 ^ 57 }
    ensures found { IfSome result (λ at. (from ≤ at) × (at < length words.now) × (at < length other.now) × (0 < bit_and (slice_index words.now at) (slice_index other.now at))) }
    ensures passed { IfSome result (λ at. (k : ℕ) → from ≤ k → k < at → bit_and (slice_index words.now k) (slice_index other.now k) ≡ 0) }
    ensures none { IfNone result ((k : ℕ) → from ≤ k → bit_and (slice_index words.now k) (slice_index other.now k) ≡ 0) }
{
    let many = summary.len().min(other_summary.len());
    let mut part = from / 64;
    let mut mask = u64::MAX << (from % 64);
    while part < many {
        let found = common_in(
            words,
            other,
            64 * part,
            summary[part] & other_summary[part] & mask,
        );
        if found.is_some() {
            return found;
        }
        part += 1;
        mask = u64::MAX;
    }
    None
}

/// The eight words from `at` on.
pub fn block_at(words: &[u64], at: usize) -> u64x8
    requires { at + 8 ≤ length words.now }
    ensures { (k : ℕ) → k < 8 → slice_index result k ≡ slice_index words.now (at + k) }
{
    u64x8::from_slice(&words[at..])
}

/// Whether the eight words from `at` on are all clear.
pub fn is_clear_block(words: &[u64], at: usize) -> bool
    requires { at + 8 ≤ length words.now }
    ensures { result ≡ true → (k : ℕ) → at ≤ k → k < at + 8 → slice_index words.now k ≡ 0 }
{
    joined(words, at) | joined(words, at + 4) == 0
}

/// Intersects the eight words from `at` on with `block`.
pub fn keep_at(words: &mut [u64], at: usize, block: u64x8)
    requires { at + 8 ≤ length words.old }
    ensures below { (k : ℕ) → k < at → slice_index words.new k ≡ slice_index words.old k }
    ensures inside { (k : ℕ) → k < 8 → slice_index words.new (at + k) ≡ bit_and (slice_index words.old (at + k)) (slice_index block k) }
    ensures above { (k : ℕ) → at + 8 ≤ k → slice_index words.new k ≡ slice_index words.old k }
{
    let left = u64x8::from_slice(&words[at..]) & block;
    left.copy_to_slice(&mut words[at..]);
}

/// The `count` lowest bits of the word, with the others cleared.
pub fn low_bits(word: u64, count: usize) -> u64
    requires { count ≤ 64 }
    ensures { (k : ℕ) → k < 64 → has_bit result k ≡ (nat_lt k count && has_bit word k) }
{
    if count < 64 {
        word & ((1 << count) - 1)
    } else {
        word
    }
}

/// Appends a zero word if bit `len` needs a new word.
pub fn make_room_for_bit(words: &mut Vec<u64>, len: usize)
    requires words { vec_len words.old ≡ (len + 63) / 64 }
    requires room { len < 64 * vec_capacity words.old }
    requires small { len < 2 ^ 57 }
    ensures words { vec_len words.new ≡ (len + 64) / 64 }
    ensures values { (k : ℕ) → slice_index words.new.items k ≡ slice_index words.old.items k }
    ensures bits { (i : ℕ) → words_have words.new.items i ≡ words_have words.old.items i }
    ensures capacity { vec_capacity words.old ≤ vec_capacity words.new }
{
    if len % 64 == 0 {
        let _ = words.push(0);
    }
}

/// The word with bit `i` set or cleared.
pub fn with_bit(word: u64, i: usize, bit: bool) -> u64
    requires { i < 64 }
    ensures { (k : ℕ) → k < 64 → has_bit result k ≡ (if k == i then bit else has_bit word k) }
{
    if bit { word | 1 << i } else { word & !(1 << i) }
}

/// Makes the words and their summary those of `other`. Visits only the words that are marked in one of the summaries.
pub fn copy_marked(words: &mut [u64], summary: &mut [u64], other: &[u64], other_summary: &[u64])
    requires same { length words.old ≡ length other.now }
    requires same_summary { length summary.old ≡ length other_summary.now }
    requires summary { IsSummary words.old summary.old }
    requires other { IsSummary other.now other_summary.now }
    requires small { length words.old < 2 ^ 57 }
    requires few { length summary.old < 2 ^ 57 }
    ensures words { words.new ≡ other.now }
    ensures summary { summary.new ≡ other_summary.now }
{
    for part in 0..summary.len() {
        let marks = summary[part] | other_summary[part];
        if marks == 0 {
            continue;
        }
        copy_part(words, other, 64 * part, marks);
        summary[part] = other_summary[part];
    }
}

/// Makes the 64 words from `first` on those of `other`, where words without a mark are the same already. Bit k of
/// `marks` is the mark of the word at `first + k`.
fn copy_part(words: &mut [u64], other: &[u64], first: usize, marks: u64)
    requires same { length words.old ≡ length other.now }
    requires small { length words.old < 2 ^ 57 }
    requires within { first < length words.old }
    requires marked { (k : ℕ) → k < 64 → has_bit marks k ≡ true → first + k < length words.old }
    requires unmarked { (k : ℕ) → k < 64 → has_bit marks k ≡ false → slice_index words.old (first + k) ≡ slice_index other.now (first + k) }
    ensures below { (k : ℕ) → k < first → slice_index words.new k ≡ slice_index words.old k }
    ensures inside { (k : ℕ) → k < 64 → slice_index words.new (first + k) ≡ slice_index other.now (first + k) }
    ensures above { (k : ℕ) → first + 64 ≤ k → slice_index words.new k ≡ slice_index words.old k }
{
    if marks.count_ones() >= 16 {
        let end = (first + 64).min(words.len());
        words[first..end].copy_from_slice(&other[first..end]);
        return;
    }
    let mut left = marks;
    while left != 0 {
        let at = first + left.trailing_zeros() as usize;
        words[at] = other[at];
        left &= left - 1;
    }
}

/// The number of set bits after the eight words from `at` on are intersected with `block`. `counted` is the number before;
/// `None` if it is not known, and then the result is `None` too.
pub fn count_kept(words: &[u64], at: usize, block: u64x8, counted: Option<usize>) -> Option<usize>
    requires within { at + 8 ≤ length words.now }
    requires small { length words.now < 2 ^ 57 }
    requires counted { IfSome counted (λ count. count ≡ count_by (λ bit. bit) (bits_of words.now (64 * length words.now))) }
    ensures { IfSome result (λ count. count ≡ count_by (λ bit. bit) (bits_of (block_kept words.now at block) (64 * length words.now))) }
{
    let count = counted?;
    let gone = u64x8::from_slice(&words[at..]) & !block;
    let gone = gone.to_array();
    let mut cleared = 0;
    for k in 0..8 {
        cleared += gone[k].count_ones() as usize;
    }
    Some(count - cleared)
}
