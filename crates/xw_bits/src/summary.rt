//! Summaries of slices of words: a bit for each word, set if the word may have a set bit. A word is
//! marked if its bit is set.
ghost use Rattle.std.specs.Prelude.{◌≡◌, ℕ, ◌+◌, ◌*◌, ◌/◌, ◌^◌, ◌<◌, ◌≤◌, length, slice_index, slice_set, bit_and, ◌&&◌, ◌==◌, if◌then◌else◌, true, false, vec_len, vec_capacity, IfSome, IfNone};
ghost use Rattle.xw_bits.specs.Bits.{words_have};
ghost use Rattle.xw_bits.specs.Summary.{IsSummary};

use crate::kernels::with_bit;

/// The index of the first word, from `from` on, that is marked in both summaries.
pub fn next_both(summary: &[u64], other: &[u64], from: usize) -> Option<usize>
    requires small { length summary.now < 2 ^ 57 }
    ensures found { IfSome result (λ at. (from ≤ at) × (words_have summary.now at ≡ true) × (words_have other.now at ≡ true)) }
    ensures passed { IfSome result (λ at. (k : ℕ) → from ≤ k → k < at → (words_have summary.now k && words_have other.now k) ≡ false) }
    ensures none { IfNone result ((k : ℕ) → from ≤ k → (words_have summary.now k && words_have other.now k) ≡ false) }
    ensures small { IfSome result (λ at. at < 2 ^ 63) }
{
    let many = summary.len().min(other.len());
    let mut at = from;
    while at / 64 < many {
        let both = (summary[at / 64] & other[at / 64]) >> (at % 64);
        if both != 0 {
            return Some(at + both.trailing_zeros() as usize);
        }
        at = at / 64 * 64 + 64;
    }
    None
}

/// Marks a word, or removes its mark.
fn put_mark(summary: &mut [u64], chunk: usize, bit: bool)
    requires { chunk / 64 < length summary.old }
    ensures len { length summary.new ≡ length summary.old }
    ensures bits { (j : ℕ) → words_have summary.new j ≡ (if j == chunk then bit else words_have summary.old j) }
{
    summary[chunk / 64] = with_bit(summary[chunk / 64], chunk % 64, bit);
}

/// Removes the mark of a word if the word is 0.
fn unmark(words: &[u64], summary: &mut [u64], chunk: usize)
    requires within { chunk < length words.now }
    requires summary { IsSummary words.now summary.old }
    requires long { chunk / 64 < length summary.old }
    ensures { IsSummary words.now summary.new }
{
    if words[chunk] == 0 {
        put_mark(summary, chunk, false);
    }
}

/// Intersects the word at `chunk` with `word`, and removes its mark if it is then 0.
pub fn sift_word(words: &mut [u64], summary: &mut [u64], chunk: usize, word: u64)
    requires within { chunk < length words.old }
    requires summary { IsSummary words.old summary.old }
    requires long { chunk / 64 < length summary.old }
    ensures words { words.new ≡ slice_set words.old chunk (bit_and (slice_index words.old chunk) word) }
    ensures summary { IsSummary words.new summary.new }
{
    words[chunk] &= word;
    unmark(words, summary, chunk);
}

/// Replaces the word at `chunk`, and marks it unless it is 0.
pub fn put_word(words: &mut [u64], summary: &mut [u64], chunk: usize, word: u64)
    requires within { chunk < length words.old }
    requires summary { IsSummary words.old summary.old }
    requires long { chunk / 64 < length summary.old }
    ensures words { words.new ≡ slice_set words.old chunk word }
    ensures summary { IsSummary words.new summary.new }
{
    words[chunk] = word;
    put_mark(summary, chunk, word != 0);
}

/// Sets bit `i` of the words if `bit` is true, and marks its word. The bit must be clear.
pub fn put_bit(words: &mut [u64], summary: &mut [u64], i: usize, bit: bool)
    requires within { i / 64 < length words.old }
    requires long { i / 4096 < length summary.old }
    requires clear { words_have words.old i ≡ false }
    requires summary { IsSummary words.old summary.old }
    ensures bits { (j : ℕ) → words_have words.new j ≡ (if j == i then bit else words_have words.old j) }
    ensures summary { IsSummary words.new summary.new }
{
    if bit {
        words[i / 64] |= 1 << (i % 64);
        put_mark(summary, i / 64, true);
    }
}

/// Removes the marks of those of the eight words from `at` on that are 0.
pub fn unmark_block(words: &[u64], summary: &mut [u64], at: usize)
    requires within { at + 8 ≤ length words.now }
    requires summary { IsSummary words.now summary.old }
    requires long { length words.now ≤ 64 * length summary.old }
    ensures { IsSummary words.now summary.new }
{
    for chunk in at..at + 8 {
        unmark(words, summary, chunk);
    }
}

/// Appends a word of 64 clear marks if the summary has no mark yet for the word of bit `len`.
pub fn make_room_for_mark(summary: &mut Vec<u64>, len: usize)
    requires words { vec_len summary.old ≡ (len + 4095) / 4096 }
    requires room { len < 4096 * vec_capacity summary.old }
    requires small { len < 2 ^ 57 }
    ensures words { vec_len summary.new ≡ (len + 4096) / 4096 }
    ensures bits { (i : ℕ) → words_have summary.new.items i ≡ words_have summary.old.items i }
    ensures capacity { vec_capacity summary.old ≤ vec_capacity summary.new }
{
    if len % 4096 == 0 {
        let _ = summary.push(0);
    }
}
