//! The symmetry of a grid: setting it, and the images and the orbit of a cell.
ghost use Rattle.std.specs.Prelude.{◌≡◌, ◌<◌, true, length, map, All, Ok, Err, OnOk, IfErr, OnErr, IsOk};
ghost use Rattle.xw_grid.specs.Grid.{is_inside, index_of};
ghost use Rattle.xw_grid.specs.Edit.{set_symmetry as spec_set_symmetry};
ghost use Rattle.xw_grid.specs.Orbit.{moved as spec_moved, images_of, orbit_of};

use crate::cell::{Cell, Symmetry};
use crate::fault::GridFault;
use crate::grid::Grid;
use crate::orbit::Orbit;

impl Grid {
    /// Sets the symmetry for later edits. Blocks and bars stay as they are. Returns `NotSquare` for
    /// quarter turns of a grid that is not square.
    pub fn set_symmetry(&mut self, kind: Symmetry) -> Result<(), GridFault>
        ensures ok { OnOk result (spec_set_symmetry self.old kind ≡ Ok self.new) }
        ensures refused { IfErr result (λ fault. spec_set_symmetry self.old kind ≡ Err fault) }
        ensures same { OnErr result (self.new ≡ self.old) }
    {
        self.judge_symmetry(kind)?;
        self.choose_symmetry(kind);
        Ok(())
    }

    /// Whether `set_symmetry` would succeed, or why it would not.
    pub fn judge_symmetry(&self, kind: Symmetry) -> Result<(), GridFault>
        ensures ok { OnOk result (IsOk (spec_set_symmetry self.now kind)) }
        ensures refused { IfErr result (λ fault. spec_set_symmetry self.now kind ≡ Err fault) }
    {
        if kind == Symmetry::Quarter && self.width != self.height {
            return Err(GridFault::NotSquare);
        }
        Ok(())
    }

    /// Sets the symmetry, as `set_symmetry` does where no rule refuses it.
    pub fn choose_symmetry(&mut self, kind: Symmetry)
        requires { IsOk (spec_set_symmetry self.old kind) }
        ensures { spec_set_symmetry self.old kind ≡ Ok self.new }
    {
        self.symmetry = kind;
    }

    /// The orbit of a cell, in reading order. It is empty for a cell outside the grid.
    pub fn orbit(&self, cell: Cell) -> Orbit
        ensures { result ≡ orbit_of self.now cell }
    {
        if self.contains(cell) {
            Orbit::new(self.width, self.size(), self.indices(cell))
        } else {
            Orbit::empty()
        }
    }

    /// The indices of a cell and its three images.
    pub(crate) fn indices(&self, cell: Cell) -> [usize; 4]
        requires { is_inside self.now cell ≡ true }
        ensures indices { result ≡ map (index_of self.now) (images_of self.now cell) }
        ensures inside { All (λ image. is_inside self.now image ≡ true) (images_of self.now cell) }
        ensures squares { All (λ index. index < length self.now.squares) result }
        ensures right { All (λ index. index < length self.now.right) result }
        ensures below { All (λ index. index < length self.now.below) result }
    {
        let [first, second, third, fourth] = self.images(cell);
        [
            self.index_inside(first),
            self.index_inside(second),
            self.index_inside(third),
            self.index_inside(fourth),
        ]
    }

    /// A cell and its images under one, two and three moves. They cover the orbit, and can repeat.
    pub(crate) fn images(&self, cell: Cell) -> [Cell; 4]
        requires { is_inside self.now cell ≡ true }
        ensures images { result ≡ images_of self.now cell }
        ensures inside { All (λ image. is_inside self.now image ≡ true) result }
    {
        let second = self.moved(cell);
        let third = self.moved(second);
        [cell, second, third, self.moved(third)]
    }

    /// The image of a cell under the symmetry.
    pub(crate) fn moved(&self, cell: Cell) -> Cell
        requires { is_inside self.now cell ≡ true }
        ensures image { result ≡ spec_moved self.now cell }
        ensures inside { is_inside self.now result ≡ true }
    {
        let row = self.height + 1 - cell.row;
        let col = self.width + 1 - cell.col;
        match self.symmetry {
            Symmetry::None => cell,
            Symmetry::Half => Cell { row, col },
            Symmetry::Quarter => Cell {
                row: cell.col,
                col: row,
            },
            Symmetry::LeftRight => Cell { row: cell.row, col },
            Symmetry::UpDown => Cell { row, col: cell.col },
        }
    }
}
