//! An iterator over the cells whose feasible letters an edit changed.
ghost use Rattle.std.specs.Prelude.{◌≡◌, length, slice_index_or, IfOk, IsOkUnless};
ghost use Rattle.std.specs.Iterator.{YieldsFirst, item_count};
ghost use Rattle.xw_feas.specs.Changes.{changed_sets};
ghost use Rattle.xw_feas.specs.Changed.{changes_left};

use std::alloc::Global;
use xw_grid::cell::Cell;
use xw_grid::fault::GridFault;
use xw_grid::grid::Grid;
use xw_letters::letter_set::LetterSet;

/// Creates an empty set for each cell of a grid. Returns `Memory` if the allocation fails.
pub fn make_grid_sets(alloc: Global, grid: &Grid) -> Result<Vec<LetterSet>, GridFault>
    ensures ok { IfOk result (λ sets. length sets.items ≡ length grid.now.squares) }
    ensures memory { IsOkUnless result GridFault.Memory }
{
    Ok(vec![in alloc; LetterSet::new(); grid.squares().len()]?)
}

/// The open cells whose feasible letters changed, in reading order, each with its new letters.
#[derive(Drop)]
pub struct Changed<'a> {
    grid: &'a Grid,
    before: &'a [LetterSet],
    after: &'a [LetterSet],
    index: usize,
}

impl<'a> Changed<'a> {
    /// Compares the feasible letters of each cell before and after an edit. The slices are in
    /// reading order; a missing entry counts as an empty set.
    pub fn new(grid: &'a Grid, before: &'a [LetterSet], after: &'a [LetterSet]) -> Changed<'a>
        ensures { changes_left result ≡ changed_sets grid.now before.now after.now 0 }
    {
        Changed {
            grid,
            before,
            after,
            index: 0,
        }
    }
}

impl<'a> Iterator for Changed<'a> {
    ghost use Rattle.xw_feas.specs.Changed.{changes_left};

    type Item = (Cell, LetterSet);

    ghost next_gives = { YieldsFirst changes_left };

    ghost remaining = { item_count changes_left };

    fn next(&mut self) -> Option<(Cell, LetterSet)> {
        while self.index < self.grid.size() {
            let index = self.index;
            self.index += 1;
            let after = set_at(self.after, index);
            // Most sets do not change, and `cell_at` costs a division, so compare first.
            if set_at(self.before, index).is_same(after) {
                continue;
            }
            let cell = self.grid.cell_at(index);
            if self.grid.is_open(cell) {
                return Some((cell, after));
            }
        }
        None
    }
}

/// The set at an index; empty if there is none.
fn set_at(sets: &[LetterSet], index: usize) -> LetterSet
    ensures { result ≡ slice_index_or sets.now index 0 }
{
    sets.get(index).copied().unwrap_or(LetterSet::new())
}
