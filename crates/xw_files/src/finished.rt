//! What both writers need: tests for bars, empty cells and circles, and the byte of a square. Nothing here allocates.
ghost use Rattle.std.specs.Prelude.{◌≡◌, find};
ghost use Rattle.std.specs.List.{list_any};
ghost use Rattle.xw_grid.specs.Grid.{cells};
ghost use Rattle.xw_files.specs.Part.{is_circled_open};
ghost use Rattle.xw_files.specs.Finished.{is_barred_cell, has_bar, is_empty_cell, empty_cell, square_byte};

use xw_grid::cell::{Cell, Side, Square};
use xw_grid::circles::Circles;
use xw_grid::grid::Grid;

/// Returns whether the grid has a bar.
pub(crate) fn has_bar(grid: &Grid) -> bool
    ensures { result ≡ has_bar grid.now }
{
    for index in 0..grid.size() {
        if is_barred(grid, grid.cell_at(index)) {
            return true;
        }
    }
    false
}

fn is_barred(grid: &Grid, cell: Cell) -> bool
    ensures { result ≡ is_barred_cell grid.now cell }
{
    grid.is_barred(cell, Side::Right) || grid.is_barred(cell, Side::Below)
}

/// Returns the first empty cell in reading order.
pub(crate) fn empty_cell(grid: &Grid) -> Option<Cell>
    ensures { result ≡ empty_cell grid.now }
{
    for index in 0..grid.size() {
        let cell = grid.cell_at(index);
        if is_empty(grid, cell) {
            return Some(cell);
        }
    }
    None
}

fn is_empty(grid: &Grid, cell: Cell) -> bool
    ensures { result ≡ is_empty_cell grid.now cell }
{
    grid.is_open(cell) && grid.entry(cell).is_none()
}

/// Returns whether a cell is open and circled.
pub(crate) fn is_circled(grid: &Grid, circles: &Circles, cell: Cell) -> bool
    ensures { result ≡ is_circled_open grid.now circles.now cell }
{
    grid.is_open(cell) && circles.has(cell)
}

/// Returns the byte of a square in a file of either format: `.` for a block, `-` for an empty cell, and otherwise the
/// letter.
pub(crate) fn square_byte(square: Square) -> u8
    ensures { result ≡ square_byte square }
{
    match square {
        Square::Block => b'.',
        Square::Open(None) => b'-',
        Square::Open(Some(letter)) => letter.byte(),
    }
}
