//! The grade of a word, and whether it was struck.
ghost use Rattle.std.specs.Prelude.{◌≡◌, ℕ, ◌+◌, ◌*◌, ◌<◌, ◌≤◌, [], ◌∷◌, ◌++◌, length, slice_index, slice_index_or, slice_set, OnOk};
ghost use Rattle.xw_bits.specs.Bits.{has_bit};
ghost use Rattle.xw_words.specs.Marks.{no_marks, marks_in, are_left};

use std::alloc::{AllocError, Global};
use std::marker::Model;
use std::simd::prelude::*;

/// What the byte of a struck word has beside its grade, which is less.
const STRUCK: u8 = 128;

/// The grade of a word, and whether it was struck, in one byte.
#[derive(Drop)]
pub struct Marks {
    /// The grade, and `STRUCK` more if the word was struck.
    byte: u8,
}

impl Model for Marks {
    ghost use Rattle.xw_words.specs.Marks.{Marks as SpecMarks, marks_in};

    ghost Value = { SpecMarks };

    ghost view = { λ marks. marks_in marks.byte };
}

impl Marks {
    /// The marks of a word of this grade, which is less than `STRUCK`.
    pub fn new(grade: u8, struck: bool) -> Marks
        requires { grade < 128 }
        ensures grade { result.grade ≡ grade }
        ensures struck { result.struck ≡ struck }
    {
        Marks {
            byte: if struck { grade + STRUCK } else { grade },
        }
    }

    /// The grade.
    pub fn grade(&self) -> u8
        ensures grade { result ≡ self.now.grade }
        ensures small { result < 128 }
    {
        self.byte % STRUCK
    }

    /// Whether the word was struck.
    pub fn is_struck(&self) -> bool
        ensures { result ≡ self.now.struck }
    {
        self.byte >= STRUCK
    }

    /// Whether the word is not struck and not below a grade. It has no branch, since no processor could
    /// predict it.
    pub fn is_left(&self, least: u8) -> bool
        ensures { result ≡ are_left least self.now }
    {
        (least <= self.byte) & (self.byte < STRUCK)
    }
}

/// The bytes of fewer than 64 words, and 0 past the last one.
fn padded(bytes: &[u8]) -> [u8; 64]
    requires { length bytes.now < 64 }
    ensures len { length result ≡ 64 }
    ensures bytes { (k : ℕ) → k < length bytes.now → slice_index result k ≡ slice_index bytes.now k }
{
    let mut padded = [0; 64];
    padded[..bytes.len()].copy_from_slice(bytes);
    padded
}

/// A bit for each of 64 words, by the bytes of their marks: whether it is not struck and not below a grade. The first
/// word is the lowest bit. It looks at all words at once.
fn left_bits(bytes: u8x64, least: u8) -> u64
    ensures { (k : ℕ) → k < 64 → has_bit result k ≡ are_left least (marks_in (slice_index bytes k)) }
{
    let graded = bytes.simd_ge(u8x64::splat(least)).to_bitmask();
    let kept = bytes.simd_lt(u8x64::splat(STRUCK)).to_bitmask();
    graded & kept
}

/// The marks of the words of one length, in their order. The bytes are one array, so that those of 64 words are read at
/// once.
#[derive(Drop)]
pub struct MarkList {
    bytes: Vec<u8>,
}

impl Model for MarkList {
    ghost use Rattle.std.specs.Prelude.{map, vec_capacity};
    ghost use Rattle.xw_words.specs.Marks.{MarkList as SpecMarkList, marks_in};

    ghost Value = { SpecMarkList };

    ghost view = { λ list. record { items = map marks_in list.bytes.items; room = vec_capacity list.bytes } };
}

impl MarkList {
    /// The marks of no words.
    pub fn new(alloc: Global) -> MarkList
        ensures { result.items ≡ [] }
    {
        MarkList {
            bytes: Vec::new(alloc),
        }
    }

    /// The number of words.
    pub fn len(&self) -> usize
        ensures { result ≡ length self.now.items }
    {
        self.bytes.len()
    }

    /// The marks of word `index`; those of a word of grade 0 that is not struck if there is no such word.
    pub fn at(&self, index: usize) -> Marks
        ensures { result ≡ slice_index_or self.now.items index no_marks }
    {
        let byte = match self.bytes.get(index) {
            Some(byte) => *byte,
            None => 0,
        };
        Marks { byte }
    }

    /// Replaces the marks of word `index`.
    pub fn put(&mut self, index: usize, marks: Marks)
        requires { index < length self.old.items }
        ensures items { self.new.items ≡ slice_set self.old.items index marks }
        ensures room { self.new.room ≡ self.old.room }
    {
        self.bytes[index] = marks.byte;
    }

    /// Appends the marks of a word, in reserved room.
    pub fn push(&mut self, marks: Marks)
        requires { length self.old.items < self.old.room }
        ensures items { self.new.items ≡ self.old.items ++ marks ∷ [] }
        ensures room { self.old.room ≤ self.new.room }
    {
        let _ = self.bytes.push(marks.byte);
    }

    /// Reserves room for so many more words. Returns `AllocError` if the allocation fails.
    pub fn reserve(&mut self, more: usize) -> Result<(), AllocError>
        ensures items { self.new.items ≡ self.old.items }
        ensures room { self.old.room ≤ self.new.room }
        ensures ok { OnOk result (length self.old.items + more ≤ self.new.room) }
    {
        self.bytes.reserve_exact(more)?;
        Ok(())
    }

    /// A bit for each of the 64 words of a chunk: whether it is not struck and not below a grade. The first word is the
    /// lowest bit.
    pub fn left_chunk(&self, chunk: usize, least: u8) -> u64
        requires { 64 * chunk < length self.now.items }
        ensures { (k : ℕ) → k < 64 → 64 * chunk + k < length self.now.items → has_bit result k ≡ are_left least (slice_index_or self.now.items (64 * chunk + k) no_marks) }
    {
        let known = self.bytes.len();
        let first = 64 * chunk;
        if known - first >= 64 {
            left_bits(u8x64::from_slice(&self.bytes[first..]), least)
        } else {
            left_bits(u8x64::from_array(padded(&self.bytes[first..])), least)
        }
    }
}
