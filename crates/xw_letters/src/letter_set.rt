//! Sets of letters.
ghost use Rattle.std.specs.Prelude.{◌≡◌, ℕ, ◌+◌, ◌<◌, ◌≤◌, true, false, not, ◌||◌, ◌&&◌, ◌==◌, length, bytes_eq, IfSome, IfNone};
ghost use Rattle.xw_letters.specs.Letter.{is_capital};
ghost use Rattle.xw_letters.specs.LetterSet.{has, letters_in};

use crate::letter::Letter;
use crate::letters::Letters;
use std::marker::Model;

/// The bits of all 26 letters.
const ALL: u32 = 67108863;

/// A set of letters. Bit 0 stands for A, bit 25 for Z.
#[derive(Clone, Copy, Debug, PartialEq, Eq)]
pub struct LetterSet {
    bits: u32,
}

impl Model for LetterSet {
    ghost use Rattle.std.specs.Prelude.{ℕ, ◌<◌, ◌^◌};

    ghost Value = { ℕ };

    ghost view = { λ set. set.bits };

    ghost invariant = { λ set. set.bits < 2 ^ 26 };

    ghost inverse = { λ bits. record { bits = bits } };
}

impl LetterSet {
    /// The empty set.
    pub fn new() -> LetterSet
        ensures { result ≡ 0 }
    {
        LetterSet { bits: 0 }
    }

    /// The set of all 26 letters.
    #[tactic(auto, using(crate::proofs::LetterSetLemmas::set_steps))]
    pub fn all() -> LetterSet
        ensures { (letter : ℕ) → has result letter ≡ is_capital letter }
    {
        LetterSet { bits: ALL }
    }

    /// The set with just `letter`.
    #[tactic(auto, using(crate::proofs::LetterSetLemmas::set_steps))]
    pub fn only(letter: Letter) -> LetterSet
        ensures letters { (other : ℕ) → has result other ≡ (other == letter) }
        ensures capital { is_capital letter ≡ true }
    {
        let mut set = LetterSet::new();
        set.insert(letter);
        set
    }

    /// Whether the set contains `letter`.
    #[tactic(auto, using(crate::proofs::LetterSetLemmas::set_steps))]
    pub fn has(self, letter: Letter) -> bool
        ensures { result ≡ has self letter }
    {
        (self.bits >> (letter.byte() - b'A')) & 1 == 1
    }

    /// Adds `letter`. Nothing changes if the set contains it.
    pub fn insert(&mut self, letter: Letter)
        ensures inserted { (other : ℕ) → has self.new other ≡ (has self.old other || (other == letter)) }
        ensures capital { is_capital letter ≡ true }
    {
        self.bits |= 1 << (letter.byte() - b'A');
    }

    /// Removes `letter`. Nothing changes if the set does not contain it.
    pub fn remove(&mut self, letter: Letter)
        ensures removed { (other : ℕ) → has self.new other ≡ (has self.old other && not (other == letter)) }
        ensures fewer { has self.old letter ≡ true → self.new < self.old }
        ensures capital { is_capital letter ≡ true }
    {
        self.bits &= !(1 << (letter.byte() - b'A'));
    }

    /// The intersection of the two sets.
    #[tactic(auto, using(crate::proofs::LetterSetLemmas::set_steps))]
    pub fn common(self, other: LetterSet) -> LetterSet
        ensures both { (letter : ℕ) → has result letter ≡ (has self letter && has other letter) }
        ensures fewer { result ≤ self }
    {
        LetterSet {
            bits: self.bits & other.bits,
        }
    }

    /// The union of the two sets.
    #[tactic(auto, using(crate::proofs::LetterSetLemmas::set_steps))]
    pub fn with(self, other: LetterSet) -> LetterSet
        ensures { (letter : ℕ) → has result letter ≡ (has self letter || has other letter) }
    {
        LetterSet {
            bits: self.bits | other.bits,
        }
    }

    /// The letters of this set that are not in the other.
    #[tactic(auto, using(crate::proofs::LetterSetLemmas::set_steps))]
    pub fn without(self, other: LetterSet) -> LetterSet
        ensures rest { (letter : ℕ) → has result letter ≡ (has self letter && not (has other letter)) }
        ensures fewer { (letter : ℕ) → has self letter ≡ true → has other letter ≡ true → result < self }
    {
        LetterSet {
            bits: self.bits & !other.bits,
        }
    }

    /// Whether the two sets have the same letters.
    #[tactic(auto, using(crate::proofs::LetterSetLemmas::set_steps))]
    pub fn is_same(self, other: LetterSet) -> bool
        ensures set { result ≡ (self == other) }
        ensures letters { result ≡ bytes_eq (letters_in self) (letters_in other) }
    {
        self.bits == other.bits
    }

    /// The letters of the set in alphabetical order.
    pub fn iter(self) -> Letters
        ensures { result ≡ letters_in self }
    {
        Letters::new(self)
    }

    /// Whether the set contains the letter at an index in the alphabet.
    pub(crate) fn holds(self, index: u32) -> bool
        requires { index < 26 }
        ensures { result ≡ has self (65 + index) }
    {
        (self.bits >> index) & 1 == 1
    }

    /// The first index in the alphabet, from `from` on, whose letter is in the set.
    pub fn next_index(self, from: u32) -> Option<u32>
        ensures set { IfSome result (λ index. (from ≤ index) × (index < 26) × (has self (65 + index) ≡ true)) }
        ensures first { IfSome result (λ index. (other : ℕ) → from ≤ other → other < index → has self (65 + other) ≡ false) }
        ensures none { IfNone result ((other : ℕ) → from ≤ other → has self (65 + other) ≡ false) }
    {
        if from >= 26 {
            return None;
        }
        let rest = self.bits >> from;
        if rest == 0 {
            return None;
        }
        Some(from + rest.trailing_zeros())
    }

    /// Removes the first letter in alphabetical order, and returns its index in the alphabet; `None` if the set is empty.
    pub fn take_first(&mut self) -> Option<u32>
        ensures set { IfSome result (λ index. (index < 26) × (has self.old (65 + index) ≡ true)) }
        ensures first { IfSome result (λ index. (other : ℕ) → other < index → has self.old (65 + other) ≡ false) }
        ensures removed { IfSome result (λ index. (other : ℕ) → has self.new other ≡ (has self.old other && not (other == 65 + index))) }
        ensures fewer { IfSome result (λ index. self.new < self.old) }
        ensures none { IfNone result ((letter : ℕ) → has self.old letter ≡ false) }
        ensures same { IfNone result (self.new ≡ self.old) }
    {
        if self.bits == 0 {
            return None;
        }
        let index = self.bits.trailing_zeros();
        self.bits &= self.bits - 1;
        Some(index)
    }

    /// The number of letters in the set.
    pub fn len(self) -> usize
        ensures { result ≡ length (letters_in self) }
    {
        self.bits.count_ones() as usize
    }
}
