//! Reads the solution board.
ghost use Rattle.std.specs.Prelude.{◌≡◌, ◌≤◌, ◌<◌, ◌*◌, length};
ghost use Rattle.xw_grid.specs.Grid.{cell_in};
ghost use Rattle.xw_files.specs.Puz.Board.{square_of, squares_at, board_grid, grid_of_puz};
ghost use Rattle.xw_files.specs.Steps.{GivesOrLacksMemory};

use crate::fault::{Piece, ReadFault};
use crate::puz::header::{self, HEADER_LENGTH, Header};
use std::alloc::Global;
use xw_grid::cell::{Cell, Square};
use xw_grid::grid::Grid;
use xw_letters::letter::Letter;

/// Returns the square of a byte, or `None` if the byte is not a square.
fn square_of(byte: u8) -> Option<Square>
    ensures { result ≡ square_of byte }
{
    match byte {
        b'.' => Some(Square::Block),
        b'-' => Some(Square::Open(None)),
        _ => Some(Square::Open(Some(Letter::of(byte)?))),
    }
}

/// Returns the cell at an index in reading order.
fn cell_in(width: u8, index: usize) -> Cell
    requires wide { 1 ≤ width }
    requires few { index < 65025 }
    ensures { result ≡ cell_in width index }
{
    let width = usize::from(width);
    Cell {
        row: (index / width) as u32 + 1,
        col: (index % width) as u32 + 1,
    }
}

/// Returns the squares of a board. Returns `BadCell` for the first byte that is not a square.
fn squares_of(alloc: Global, width: u8, bytes: &[u8]) -> Result<Vec<Square>, ReadFault>
    requires wide { 1 ≤ width }
    requires few { length bytes.now ≤ 65025 }
    ensures { GivesOrLacksMemory (λ squares. squares.items) result (squares_at width 0 bytes.now) }
{
    let mut squares = Vec::new(alloc);
    for (index, byte) in bytes.iter().enumerate() {
        match square_of(*byte) {
            Some(square) => squares.extend_from_slice(&[square])?,
            None => return Err(ReadFault::BadCell(cell_in(width, index))),
        }
    }
    Ok(squares)
}

/// Returns the grid of a solution board.
pub fn grid_of(alloc: Global, header: &Header, solution: &[u8]) -> Result<Grid, ReadFault>
    requires wide { 1 ≤ header.now.width }
    requires high { 1 ≤ header.now.height }
    requires solution { length solution.now ≡ header.now.width * header.now.height }
    ensures { GivesOrLacksMemory (λ grid. grid) result (board_grid header.now solution.now) }
{
    // `cell_count` does nothing more here; its contract bounds the number of cells for `squares_of`.
    let _ = header.cell_count();
    let squares = squares_of(alloc, header.width, solution)?;
    let (width, height) = (u32::from(header.width), u32::from(header.height));
    Ok(Grid::of_squares(alloc, width, height, squares)?)
}

/// Returns the grid of a file, read from its header and solution board alone. Returns the first fault of these two, or
/// `Memory` if an allocation fails.
pub fn grid_of_puz(alloc: Global, bytes: &[u8]) -> Result<Grid, ReadFault>
    ensures { GivesOrLacksMemory (λ grid. grid) result (grid_of_puz bytes.now) }
{
    let header = header::header_of(bytes)?;
    let cells = header.cell_count();
    if bytes.len() < HEADER_LENGTH + cells {
        return Err(ReadFault::Short(Piece::Boards));
    }
    let (_, boards) = bytes.split_at(HEADER_LENGTH);
    grid_of(alloc, &header, &boards[..cells])
}
