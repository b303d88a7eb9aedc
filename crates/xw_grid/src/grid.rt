//! Grids: the type, its constructors and copies, its size and its squares. The modules below read and edit entries,
//! blocks, bars and the symmetry.
mod bars;
mod blocks;
mod entries;
mod symmetry;

ghost use Rattle.std.specs.Prelude.{◌≡◌, ◌≢◌, ◌<◌, ◌≤◌, ◌*◌, true, length, All, Some, None, Ok, Err, IfOk, IfErr, IfSome, IsOk, IsOkUnless, if◌then◌else◌};
ghost use Rattle.xw_grid.specs.Grid.{IsGrid, IsSquare, cell_at as spec_cell_at, is_inside, index_of};
ghost use Rattle.xw_grid.specs.Edit.{new_grid, grid_of};

use crate::cell::{Cell, Square, Symmetry};
use crate::fault::GridFault;
use std::alloc::Global;
use std::marker::Model;

/// The largest width and height of a grid.
pub const LONGEST_SIDE: u32 = 255;

/// A grid of squares with letters, blocks and bars. Edits of blocks and bars apply to whole orbits
/// of the grid's symmetry.
#[derive(Drop)]
pub struct Grid {
    width: u32,
    height: u32,
    squares: Vec<Square>,
    right: Vec<bool>,
    below: Vec<bool>,
    symmetry: Symmetry,
}

impl Model for Grid {
    ghost use Rattle.xw_grid.specs.Grid.{Grid as SpecGrid, IsGrid};
    ghost use Rattle.xw_grid.specs.GridView.{grid_in};

    ghost Value = { SpecGrid };

    ghost view = { grid_in };

    ghost invariant = { λ grid. IsGrid (grid_in grid) };
}

impl Grid {
    /// A grid of open, empty cells, without bars or symmetry. Returns `Size` if a side is outside 1
    /// to 255, and `Memory` if an allocation fails.
    pub fn new(alloc: Global, width: u32, height: u32) -> Result<Grid, GridFault>
        ensures ok { IfOk result (λ grid. new_grid width height ≡ Ok grid) }
        ensures refused { IfErr result (λ fault. fault ≢ GridFault.Memory → new_grid width height ≡ Err fault) }
        ensures memory { result ≡ Err GridFault.Memory → IsOk (new_grid width height) }
    {
        if !(1..=LONGEST_SIDE).contains(&width) || !(1..=LONGEST_SIDE).contains(&height) {
            return Err(GridFault::Size);
        }
        let size = width as usize * height as usize;
        let squares = vec![in alloc; Square::Open(None); size]?;
        Grid::of_squares(alloc, width, height, squares)
    }

    /// A grid with these squares, in reading order, without bars or symmetry. There is one square for each
    /// cell, and both sides are 1 to 255. Returns `Memory` if an allocation fails.
    pub fn of_squares(
        alloc: Global,
        width: u32,
        height: u32,
        squares: Vec<Square>,
    ) -> Result<Grid, GridFault>
        requires wide { (1 ≤ width) × (width ≤ 255) }
        requires high { (1 ≤ height) × (height ≤ 255) }
        requires squares { length squares.items ≡ width * height }
        requires letters { All IsSquare squares.items }
        ensures ok { IfOk result (λ grid. grid ≡ grid_of width height squares.items) }
        ensures memory { IsOkUnless result GridFault.Memory }
    {
        let size = squares.len();
        Ok(Grid {
            width,
            height,
            squares,
            right: vec![in alloc; false; size]?,
            below: vec![in alloc; false; size]?,
            symmetry: Symmetry::None,
        })
    }

    /// Does nothing at run time; it gives the prover the invariant.
    pub fn well_formed(&self)
        ensures { IsGrid self.now }
    {
        let _ = &self.width;
    }

    /// A copy of the grid. Returns `Memory` if an allocation fails.
    pub fn copy(&self) -> Result<Grid, GridFault>
        ensures ok { IfOk result (λ copy. copy ≡ self.now) }
        ensures memory { IsOkUnless result GridFault.Memory }
    {
        Ok(Grid {
            width: self.width,
            height: self.height,
            squares: self.squares.clone()?,
            right: self.right.clone()?,
            below: self.below.clone()?,
            symmetry: self.symmetry,
        })
    }

    /// Makes this grid equal to `other`, a grid with as many cells. Allocates nothing.
    pub fn copy_from(&mut self, other: &Grid)
        requires { length self.old.squares ≡ length other.now.squares }
        ensures { self.new ≡ other.now }
    {
        self.width = other.width;
        self.height = other.height;
        self.squares.as_mut_slice().copy_from_slice(&other.squares);
        self.right.as_mut_slice().copy_from_slice(&other.right);
        self.below.as_mut_slice().copy_from_slice(&other.below);
        self.symmetry = other.symmetry;
    }

    /// The number of columns.
    pub fn width(&self) -> u32
        ensures width { result ≡ self.now.width }
        ensures small { result ≤ 255 }
    {
        self.width
    }

    /// The number of rows.
    pub fn height(&self) -> u32
        ensures height { result ≡ self.now.height }
        ensures small { result ≤ 255 }
    {
        self.height
    }

    /// The number of cells.
    #[tactic(auto, using(crate::proofs::GridLemmas::size_steps))]
    pub fn size(&self) -> usize
        ensures size { result ≡ self.now.width * self.now.height }
        ensures small { result ≤ 65025 }
        ensures grid { IsGrid self.now }
    {
        self.width as usize * self.height as usize
    }

    /// The symmetry that edits follow.
    pub fn symmetry(&self) -> Symmetry
        ensures { result ≡ self.now.symmetry }
    {
        self.symmetry
    }

    /// Whether the cell is inside the grid.
    pub fn contains(&self, cell: Cell) -> bool
        ensures { result ≡ is_inside self.now cell }
    {
        (1..=self.height).contains(&cell.row) && (1..=self.width).contains(&cell.col)
    }

    /// The squares in reading order.
    pub fn squares(&self) -> &[Square]
        ensures squares { result.now ≡ self.now.squares }
        ensures grid { IsGrid self.now }
    {
        let _ = &self.width;
        &self.squares
    }

    /// The index of a cell in reading order; `None` outside the grid.
    pub fn index(&self, cell: Cell) -> Option<usize>
        ensures index { result ≡ (if is_inside self.now cell then Some (index_of self.now cell) else None) }
        ensures small { IfSome result (λ index. index < 65025) }
        ensures within { IfSome result (λ index. (index < length self.now.squares) × (index < length self.now.right) × (index < length self.now.below)) }
    {
        if self.contains(cell) {
            Some(self.index_inside(cell))
        } else {
            None
        }
    }

    /// The index of a cell inside the grid.
    #[tactic(auto, using(crate::proofs::GridLemmas::inside_steps))]
    pub fn index_inside(&self, cell: Cell) -> usize
        requires { is_inside self.now cell ≡ true }
        ensures index { result ≡ index_of self.now cell }
        ensures small { result < 65025 }
        ensures squares { result < length self.now.squares }
        ensures right { result < length self.now.right }
        ensures below { result < length self.now.below }
    {
        (cell.row - 1) as usize * self.width as usize + (cell.col - 1) as usize
    }

    /// The cell at an index in reading order.
    #[tactic(auto, using(crate::proofs::GridLemmas::size_steps))]
    pub fn cell_at(&self, index: usize) -> Cell
        requires { index < self.now.width * self.now.height }
        ensures cell { result ≡ spec_cell_at self.now index }
        ensures inside { is_inside self.now result ≡ true }
    {
        let width = self.width as usize;
        Cell {
            row: (index / width) as u32 + 1,
            col: (index % width) as u32 + 1,
        }
    }
}
