//! The cells whose entry an edit may change.
ghost use Rattle.std.specs.Prelude.{◌≡◌, ◌<◌, ◌≤◌, length, [], ◌∷◌, ◌++◌, map, slice_index_or};
ghost use Rattle.xw_grid.specs.Light.{lights_of, cells_of, no_light};
ghost use Rattle.xw_grid.specs.Orbit.{orbit_of};
ghost use Rattle.xw_feas.specs.Pending.{shape_action};
ghost use Rattle.xw_feas.specs.Written.{with_entry_of, entries_written};

use crate::pending::ShapeEdit;
use std::marker::Model;
use xw_grid::cell::Cell;
use xw_grid::grid::Grid;
use xw_grid::lights::{Light, Lights};
use xw_grid::orbit::orbits_are_small;
use xw_letters::letter::Letter;
use xw_words::word::LONGEST;

/// The cells that an edit writes, each with its entry before the edit. A position has one of these, and each edit fills
/// it anew.
#[derive(Drop)]
pub struct Written {
    cells: [(Cell, Option<Letter>); LONGEST],
    count: usize,
}

impl Model for Written {
    ghost use Rattle.std.specs.Prelude.{List, ℕ, Option, ◌≤◌, take};
    ghost use Rattle.xw_grid.specs.declared.cell.Cell.{Cell as SpecCell};

    ghost Value = { List (SpecCell × Option ℕ) };

    ghost view = { λ written. take written.count written.cells };

    ghost invariant = { λ written. written.count ≤ 255 };
}

impl Written {
    /// No cells.
    pub(crate) fn none() -> Written
        ensures { result ≡ [] }
    {
        let nowhere = Cell { row: 0, col: 0 };
        Written {
            cells: [(nowhere, None); LONGEST],
            count: 0,
        }
    }

    /// Removes all cells.
    fn clear(&mut self)
        ensures { self.new ≡ [] }
    {
        self.count = 0;
    }

    /// Appends a cell with its entry.
    fn push(&mut self, grid: &Grid, cell: Cell)
        requires { length self.old < 255 }
        ensures { self.new ≡ self.old ++ with_entry_of grid.now cell ∷ [] }
    {
        self.cells[self.count] = (cell, grid.entry(cell));
        self.count += 1;
    }

    /// The cells, each with its entry before the edit.
    pub fn as_slice(&self) -> &[(Cell, Option<Letter>)]
        ensures { result.now ≡ self.now }
    {
        &self.cells[..self.count]
    }

    /// Takes one cell.
    pub(crate) fn note_cell(&mut self, grid: &Grid, cell: Cell)
        ensures { self.new ≡ with_entry_of grid.now cell ∷ [] }
    {
        self.clear();
        self.push(grid, cell);
    }

    /// Takes the cells of a light.
    fn note_light(&mut self, grid: &Grid, index: usize, light: Light)
        requires index { index < length (lights_of grid.now) }
        requires light { light ≡ slice_index_or (lights_of grid.now) index no_light }
        ensures { self.new ≡ map (with_entry_of grid.now) (cells_of light) }
    {
        grid.well_formed();
        self.clear();
        for k in 0..light.size {
            self.push(grid, light.cell(k));
        }
    }

    /// Takes the cells of the light with an index.
    pub(crate) fn note_index(&mut self, grid: &Grid, lights: &Lights, light: usize)
        requires lights { lights.now ≡ lights_of grid.now }
        requires light { light < length (lights_of grid.now) }
        ensures { self.new ≡ map (with_entry_of grid.now) (cells_of (slice_index_or (lights_of grid.now) light no_light)) }
    {
        self.note_light(grid, light, lights.at(light));
    }

    /// Takes the cells of an orbit.
    fn note_orbit(&mut self, grid: &Grid, cell: Cell)
        ensures { self.new ≡ map (with_entry_of grid.now) (orbit_of grid.now cell) }
    {
        grid.well_formed();
        orbits_are_small();
        self.clear();
        let mut orbit = grid.orbit(cell);
        while let Some(member) = orbit.next() {
            self.push(grid, member);
        }
    }

    /// Takes the cells that an edit of blocks or bars writes.
    pub(crate) fn note_shape(&mut self, grid: &Grid, edit: &ShapeEdit)
        ensures { self.new ≡ entries_written grid.now (shape_action edit.now) }
    {
        match *edit {
            ShapeEdit::Block(cell) => self.note_orbit(grid, cell),
            ShapeEdit::Bar(..) => self.clear(),
        }
    }
}
