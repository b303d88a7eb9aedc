//! A cell that a search fills, and its letter.
ghost use Rattle.xw_search.specs.Progress.{CanBeEntered, is_forced, IsLetterEntered};

use crate::placement::Placement;
use std::alloc::AllocError;
use xw_feas::searchable::Searchable;
use xw_letters::letter::Letter;
use xw_letters::letter_set::LetterSet;

/// A cell, by its index in reading order, the letter in it, the letters that were tried there without a fill, and
/// whether the letter is the only feasible one.
#[derive(Clone, Copy)]
pub struct Frame {
    pub cell: usize,
    pub letter: Letter,
    pub tried: LetterSet,
    pub is_forced: bool,
}

impl Placement for Frame {
    ghost may_place = { CanBeEntered };

    ghost is_placed = { IsLetterEntered };

    ghost forced = { is_forced };

    fn is_forced(&self) -> bool {
        self.is_forced
    }

    ghost entries = { λ frame before after entered. entered.entries };

    fn try_place<E: Searchable>(
        &self,
        engine: &mut E,
        watched: &[bool],
    ) -> Result<Option<usize>, AllocError> {
        let cell = engine.grid().cell_at(self.cell);
        engine.try_letter(cell, self.letter, watched)
    }
}
