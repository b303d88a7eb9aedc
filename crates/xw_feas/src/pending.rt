//! Edits that a position accepts, with what was looked up for them.
use xw_grid::cell::{Cell, Side, Symmetry};
use xw_letters::letter::Letter;

/// An accepted edit, by what has to be reserved for it.
#[derive(Clone, Copy)]
pub enum Pending<'a> {
    /// Nothing.
    InPlace(InPlace<'a>),
    /// Another grid, with its lights.
    Shape(ShapeEdit),
    /// Room for a word that is not known. The word has this grade.
    New(&'a [u8], Option<u8>),
}

/// An accepted edit that needs no memory.
#[derive(Clone, Copy)]
pub enum InPlace<'a> {
    /// Writes a letter into a cell, or empties it. The cell is open.
    Enter(Cell, Option<Letter>),
    /// Writes a word of letters into the light with this index, which has its length.
    Place(usize, &'a [u8]),
    /// Writes a list of cells, all open.
    List(&'a [(Cell, Option<Letter>)]),
    /// Sets the symmetry.
    Symmetry(Symmetry),
    /// Makes a known word active again. The word has this grade and this index.
    Return(&'a [u8], Option<u8>, usize),
    /// Strikes the word, which has this index.
    Strike(&'a [u8], usize),
    /// Leaves out the words below a grade.
    Least(u8),
}

/// An edit of blocks or bars.
#[derive(Clone, Copy)]
pub enum ShapeEdit {
    /// Toggles the block at a cell and its orbit.
    Block(Cell),
    /// Toggles the bar at an edge and its orbit.
    Bar(Cell, Side),
}
