//! The orbits of cells under a symmetry.
ghost use Rattle.std.specs.Prelude.{◌≡◌, ℕ, ◌<◌, ◌≤◌, ◌||◌, [], All, Option, nat_eq};
ghost use Rattle.std.specs.Iterator.{YieldsFirst, item_count};
ghost use Rattle.std.specs.List.{list_any};
ghost use Rattle.xw_grid.specs.Grid.{cell_in};
ghost use Rattle.xw_grid.specs.Orbit.{cells_among, IsLeastFrom, nearer as spec_nearer, AreNeighbours, IsEdgeBetween, OrbitIsLeast, EdgeOrbitIsLeast, OrbitsAreSmall, EdgeOrbitsAreSmall};

use crate::cell::{Cell, Edge, Side};
use std::marker::Model;

/// An iterator over the cells of an orbit, in reading order. There are at most four.
#[derive(Drop)]
pub struct Orbit {
    width: u32,
    squares: [usize; 4],
    from: usize,
    end: usize,
}

impl Model for Orbit {
    ghost use Rattle.std.specs.Prelude.{List, All, ◌<◌, ◌≤◌};
    ghost use Rattle.xw_grid.specs.declared.cell.Cell.{Cell as SpecCell};
    ghost use Rattle.xw_grid.specs.Orbit.{cells_among};

    ghost Value = { List SpecCell };

    ghost view = { λ orbit. cells_among orbit.width orbit.squares orbit.from orbit.end };

    ghost invariant = { λ orbit. (1 ≤ orbit.width) × (orbit.end ≤ 65025) × All (λ square. square < orbit.end) orbit.squares };
}

impl Orbit {
    /// The cells at these indices, which are below `end`, in a grid of this width. Indices can
    /// repeat.
    pub(crate) fn new(width: u32, end: usize, squares: [usize; 4]) -> Orbit
        requires wide { 1 ≤ width }
        requires small { end ≤ 65025 }
        requires within { All (λ square. square < end) squares }
        ensures { result ≡ cells_among width squares 0 end }
    {
        Orbit {
            width,
            squares,
            from: 0,
            end,
        }
    }

    /// An empty orbit.
    pub(crate) fn empty() -> Orbit
        ensures { result ≡ [] }
    {
        Orbit {
            width: 1,
            squares: [0; 4],
            from: 1,
            end: 1,
        }
    }
}

impl Iterator for Orbit {
    type Item = Cell;

    ghost next_gives = { YieldsFirst (λ cells. cells) };

    ghost remaining = { item_count (λ cells. cells) };

    fn next(&mut self) -> Option<Cell> {
        match least_from(&self.squares, self.from) {
            Some(square) => {
                self.from = square + 1;
                Some(cell_of(self.width, square))
            }
            None => {
                self.from = self.end;
                None
            }
        }
    }
}

/// The least of four numbers that is at least `from`.
fn least_from(squares: &[usize; 4], from: usize) -> Option<usize>
    ensures { IsLeastFrom from (λ index. list_any (nat_eq index) squares.now) result }
{
    let [first, second, third, fourth] = *squares;
    let last = nearer(from, fourth, None);
    nearer(from, first, nearer(from, second, nearer(from, third, last)))
}

/// The lesser of `index` and `found`. An `index` below `from` does not count.
fn nearer(from: usize, index: usize, found: Option<usize>) -> Option<usize>
    ensures { result ≡ spec_nearer from index found }
{
    match found {
        Some(other) if index < from || other < index => Some(other),
        None if index < from => None,
        _ => Some(index),
    }
}

fn cell_of(width: u32, index: usize) -> Cell
    requires wide { 1 ≤ width }
    requires small { index < 65025 }
    ensures { result ≡ cell_in width index }
{
    let width = width as usize;
    Cell {
        row: (index / width) as u32 + 1,
        col: (index % width) as u32 + 1,
    }
}

/// The edge between two neighbouring cells.
pub(crate) fn edge_between(a: Cell, b: Cell) -> Edge
    requires { AreNeighbours a b }
    ensures { IsEdgeBetween a b result }
{
    let side = if a.row == b.row {
        Side::Right
    } else {
        Side::Below
    };
    let cell = if a.row < b.row || a.col < b.col { a } else { b };
    Edge { cell, side }
}

/// The orbit of a cell is the least set that contains the cell and, with each member, its image.
pub fn orbit_is_least()
    ensures { OrbitIsLeast }
{}

/// The orbit of an edge is the least set that contains it and, with each member, the edge between the images of its
/// two cells.
pub fn edge_orbit_is_least()
    ensures { EdgeOrbitIsLeast }
{}

/// An orbit has at most four cells.
pub fn orbits_are_small()
    ensures { OrbitsAreSmall }
{}

/// The orbit of an edge has at most four edges.
pub fn edge_orbits_are_small()
    ensures { EdgeOrbitsAreSmall }
{}
