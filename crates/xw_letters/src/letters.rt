//! An iterator over the letters of a set.
ghost use Rattle.std.specs.Prelude.{◌≡◌, ℕ};
ghost use Rattle.std.specs.Iterator.{YieldsFirst, item_count};
ghost use Rattle.xw_letters.specs.LetterSet.{letters_in};

use crate::letter::Letter;
use crate::letter_set::LetterSet;
use std::marker::Model;

/// The letters of a set in alphabetical order.
#[derive(Drop)]
pub struct Letters {
    set: LetterSet,
    index: u32,
}

impl Model for Letters {
    ghost use Rattle.std.specs.Prelude.{List, ℕ};
    ghost use Rattle.xw_letters.specs.LetterSet.{letters_from};

    ghost Value = { List ℕ };

    ghost view = { λ letters. letters_from letters.set letters.index };
}

impl Letters {
    /// An iterator over the letters of `set`.
    pub(crate) fn new(set: LetterSet) -> Letters
        ensures { result ≡ letters_in set }
    {
        Letters { set, index: 0 }
    }
}

impl Iterator for Letters {
    type Item = Letter;

    ghost next_gives = { YieldsFirst (λ letters. letters) };

    ghost remaining = { item_count (λ letters. letters) };

    #[tactic(auto, using(crate::proofs::LetterSetLemmas::walking_steps))]
    fn next(&mut self) -> Option<Letter> {
        while self.index < 26 {
            let index = self.index;
            self.index += 1;
            if self.set.holds(index) {
                return Some(Letter::at(index));
            }
        }
        None
    }
}
