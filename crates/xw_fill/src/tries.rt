//! Words that a search tries.
ghost use Rattle.xw_fill.specs.Inner.Tries.{CanBeMade, IsMade, is_forced};

use std::alloc::AllocError;
use xw_feas::searchable::Searchable;
use xw_search::placement::Placement;

/// A word that is tried in a light, both by index.
#[derive(Clone, Copy)]
pub struct Try {
    pub light: usize,
    pub index: usize,
}

impl Placement for Try {
    ghost may_place = { CanBeMade };

    ghost is_placed = { IsMade };

    ghost forced = { is_forced };

    fn is_forced(&self) -> bool {
        false
    }

    ghost entries = { λ tried before after made. made.entries };

    fn try_place<E: Searchable>(
        &self,
        engine: &mut E,
        watched: &[bool],
    ) -> Result<Option<usize>, AllocError> {
        engine.try_word(self.light, self.index, watched)
    }
}
