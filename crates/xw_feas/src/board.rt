//! The part of a grid that feasibility depends on: the open cells, the letters in them, and the
//! lights. Cells are addressed by their index in reading order, and lights by their index in the
//! grid's order of lights.
ghost use Rattle.std.specs.Prelude.{◌≡◌, ◌⊎◌, ◌+◌, ◌<◌, ◌≤◌, ◌&&◌, ℕ, Some, length, slice_index, slice_get, All, unwrap_or, IfSome};
ghost use Rattle.xw_letters.specs.Letter.{IsLetter, is_capital};
ghost use Rattle.xw_letters.specs.LetterSet.{has};
ghost use Rattle.xw_grid.specs.Grid.{is_open_square as spec_is_open_square, letter_in as spec_letter_in};
ghost use Rattle.xw_grid.specs.Light.{lights_of};
ghost use Rattle.xw_feas.specs.Board.{board_of, indices_of, light_at, is_open as spec_is_open, entry as spec_entry, IsCrossing, other_than as spec_other_than, allows, is_wholly_entered};
ghost use Rattle.xw_feas.specs.Fits.{Fits, stride_of};
ghost use Rattle.xw_feas.specs.Passes.{Passes};

use std::marker::Model;
use xw_grid::cell::{Direction, Square};
use xw_grid::grid::Grid;
use xw_grid::lights::{Light, Lights};
use xw_letters::letter::Letter;
use xw_letters::letter_set::LetterSet;

/// The indices of a light's cells, in order.
#[derive(Drop)]
pub struct Cells {
    first: usize,
    stride: usize,
    len: usize,
}

impl Model for Cells {
    ghost use Rattle.std.specs.Prelude.{List, ℕ, ◌≤◌, ◌+◌, ◌*◌, map};
    ghost use Rattle.std.specs.List.{range_with_len};

    ghost Value = { List ℕ };

    ghost view = { λ cells. map (λ k. cells.first + k * cells.stride) (range_with_len 0 cells.len) };

    ghost invariant = { λ cells. (cells.first ≤ 65025) × (cells.stride ≤ 255) × (cells.len ≤ 255) };
}

impl Cells {
    /// The number of cells, 2 to 255 for a light.
    pub fn len(&self) -> usize
        ensures { result ≡ length self.now }
    {
        self.len
    }

    /// The index of the cell at position `k` of the light.
    pub fn at(&self, k: usize) -> usize
        requires { k < length self.now }
        ensures { result ≡ slice_index self.now k }
    {
        self.first + k * self.stride
    }

    /// The difference between the indices of two consecutive cells.
    pub fn stride(&self) -> usize
        ensures { (k : ℕ) → k + 1 < length self.now → slice_index self.now (k + 1) ≡ slice_index self.now k + result }
    {
        self.stride
    }
}

/// A grid with its lights, addressed by index.
#[derive(Drop)]
pub struct Board<'a> {
    grid: &'a Grid,
    squares: &'a [Square],
    lights: &'a Lights,
}

impl<'a> Model for Board<'a> {
    ghost use Rattle.std.specs.Prelude.{◌≡◌};
    ghost use Rattle.xw_grid.specs.Grid.{IsGrid};
    ghost use Rattle.xw_grid.specs.Light.{lights_of};
    ghost use Rattle.xw_feas.specs.Board.{Board as SpecBoard, board_of};

    ghost Value = { SpecBoard };

    ghost view = { λ board. board_of board.grid.now };

    ghost invariant = { λ board. (board.lights.now ≡ lights_of board.grid.now) × (board.squares.now ≡ board.grid.now.squares) × IsGrid board.grid.now };
}

#[tactic(auto, using(crate::proofs::BoardLemmas::board_steps))]
impl<'a> Board<'a> {
    /// A view of a grid and its lights.
    pub fn new(grid: &'a Grid, lights: &'a Lights) -> Board<'a>
        requires { lights.now ≡ lights_of grid.now }
        ensures { result ≡ board_of grid.now }
    {
        Board {
            grid,
            squares: grid.squares(),
            lights,
        }
    }

    /// The number of cells of the grid.
    pub fn cell_count(&self) -> usize
        ensures open_cells { result ≡ length self.now.open_cells }
        ensures entries { result ≡ length self.now.entries }
    {
        self.squares.len()
    }

    /// The number of lights.
    pub fn light_count(&self) -> usize
        ensures { result ≡ length self.now.lights }
    {
        self.lights.len()
    }

    /// The cells of a light, given by its index.
    pub fn light(&self, light: usize) -> Cells
        requires { light < length self.now.lights }
        ensures cells { result ≡ light_at self.now light }
        ensures in_board { All (λ cell. cell < length self.now.open_cells) result }
    {
        cells_of(self.grid, self.lights.at(light))
    }

    /// The index of the light that crosses a light at a position; `None` if the cell there is unchecked.
    pub fn crossing(&self, light: usize, position: usize) -> Option<usize>
        requires light { light < length self.now.lights }
        requires position { position < length (light_at self.now light) }
        ensures other { IfSome result (IsCrossing self.now light (slice_index (light_at self.now light) position)) }
        ensures only { (other : ℕ) → IsCrossing self.now light (slice_index (light_at self.now light) position) other → result ≡ Some other }
    {
        let cell = self.lights.at(light).cell(position as u32);
        match other_than(light, self.lights.across_at(cell)) {
            Some(other) => Some(other),
            None => other_than(light, self.lights.down_at(cell)),
        }
    }

    /// The indices of the across light and of the down light through a cell; `None` where there is none.
    pub fn lights_at(&self, cell: usize) -> (Option<usize>, Option<usize>)
        requires { cell < length self.now.open_cells }
        ensures across { IfSome result.0 (Passes self.now cell) }
        ensures down { IfSome result.1 (Passes self.now cell) }
        ensures only { (light : ℕ) → Passes self.now cell light → (result.0 ≡ Some light) ⊎ (result.1 ≡ Some light) }
    {
        let cell = self.grid.cell_at(cell);
        (self.lights.across_at(cell), self.lights.down_at(cell))
    }

    /// Whether the cell is open.
    pub fn is_open(&self, cell: usize) -> bool
        ensures { result ≡ spec_is_open self.now cell }
    {
        is_open_square(square_at(self.squares, cell))
    }

    /// The letter in a cell; `None` if the cell has none.
    pub fn entry(&self, cell: usize) -> Option<Letter>
        ensures entry { result ≡ spec_entry self.now cell }
        ensures letter { IfSome result IsLetter }
    {
        letter_in(square_at(self.squares, cell))
    }

    /// The letter in a cell; A if the cell is empty.
    pub fn letter(&self, cell: usize) -> Letter
        ensures { result ≡ unwrap_or (spec_entry self.now cell) 65 }
    {
        match self.entry(cell) {
            Some(letter) => letter,
            None => Letter::first(),
        }
    }
}

/// The light that was found, unless it is `light` itself.
fn other_than(light: usize, found: Option<usize>) -> Option<usize>
    ensures { result ≡ spec_other_than light found }
{
    match found {
        Some(other) if other != light => Some(other),
        _ => None,
    }
}

fn square_at(squares: &[Square], index: usize) -> Option<Square>
    ensures { result ≡ slice_get squares.now index }
{
    squares.get(index).copied()
}

fn is_open_square(square: Option<Square>) -> bool
    ensures { result ≡ spec_is_open_square square }
{
    matches!(square, Some(Square::Open(_)))
}

fn letter_in(square: Option<Square>) -> Option<Letter>
    ensures entry { result ≡ spec_letter_in square }
    ensures letter { IfSome result IsLetter }
{
    match square {
        Some(Square::Open(letter)) => letter,
        _ => None,
    }
}

/// The indices of the cells of a light that lies inside the grid.
#[tactic(auto, using(crate::proofs::BoardLemmas::cells_steps))]
fn cells_of(grid: &Grid, light: Light) -> Cells
    requires { Fits grid.now light }
    ensures { result ≡ indices_of grid.now light }
{
    Cells {
        first: grid.index_inside(light.start),
        stride: stride(grid, light.name.direction),
        len: light.size as usize,
    }
}

/// The difference between the indices of two consecutive cells of a light.
fn stride(grid: &Grid, direction: Direction) -> usize
    ensures stride { result ≡ stride_of grid.now direction }
    ensures small { result ≤ 255 }
{
    match direction {
        Direction::Across => 1,
        Direction::Down => grid.width() as usize,
    }
}

/// Whether each of the cells has a letter.
#[tactic(auto, using(crate::proofs::BoardLemmas::entered_steps))]
pub fn has_all_entries(board: &Board<'_>, cells: &Cells) -> bool
    ensures { result ≡ is_wholly_entered board.now cells.now }
{
    for position in 0..cells.len() {
        if board.entry(cells.at(position)).is_none() {
            return false;
        }
    }
    true
}

/// The letters that a cell allows: none if the cell is not open, its letter if it has one, and otherwise all.
#[tactic(auto, using(crate::proofs::BoardLemmas::allowed_steps))]
pub fn allowed(is_open: bool, entry: Option<Letter>) -> LetterSet
    ensures { (letter : ℕ) →
        has result letter ≡ (is_open && is_capital letter && allows entry letter) }
{
    if !is_open {
        return LetterSet::new();
    }
    match entry {
        None => LetterSet::all(),
        Some(letter) => LetterSet::only(letter),
    }
}
