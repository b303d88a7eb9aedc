//! The entries of a grid before a search.
ghost use Rattle.std.specs.Prelude.{◌≡◌, [], IfOk};

use std::alloc::{AllocError, Global};
use std::marker::Model;
use xw_grid::Grid;
use xw_grid::grid::LONGEST_SIDE;
use xw_letters::Letter;

/// The number of cells of the largest grid.
const MOST_CELLS: usize = LONGEST_SIDE as usize * LONGEST_SIDE as usize;

/// A copy of the entries of a grid. It has room for those of any grid.
#[derive(Drop)]
pub struct Entries {
    items: Vec<Option<Letter>>,
}

impl Model for Entries {
    ghost use Rattle.std.specs.Prelude.{ℕ, ◌≤◌, List, Option, vec_capacity};

    ghost Value = { List (Option ℕ) };

    ghost view = { λ entries. entries.items.items };

    ghost invariant = { λ entries. 65025 ≤ vec_capacity entries.items };
}

impl Entries {
    ghost use Rattle.std.specs.Prelude.{ℕ, Option, Some, slice_get};
    ghost use Rattle.xw_journal.specs.Journal.{entries_of, is_same_entry};

    /// No entries. Fails if the room cannot be allocated.
    pub fn new(alloc: Global) -> Result<Entries, AllocError>
        ensures { IfOk result (λ entries. entries ≡ []) }
    {
        Ok(Entries {
            items: Vec::with_capacity(alloc, MOST_CELLS)?,
        })
    }

    /// Copies the entries of a grid.
    pub fn copy(&mut self, grid: &Grid)
        ensures { self.new ≡ entries_of grid.now }
    {
        self.items.clear();
        for index in 0..grid.size() {
            let _ = self.items.push(grid.entry(grid.cell_at(index)));
        }
    }

    /// Whether this is the entry at an index.
    pub fn has(&self, index: usize, entry: Option<Letter>) -> bool
        ensures { (known : Option ℕ) → slice_get self.now index ≡ Some known → result ≡ is_same_entry known entry }
    {
        match self.items.get(index) {
            Some(known) => *known == entry,
            None => false,
        }
    }
}
