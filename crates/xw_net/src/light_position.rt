//! Positions in lights.
ghost use Rattle.std.specs.Prelude.{◌≡◌, ◌<◌, ◌≤◌, ◌+◌, ◌*◌, ◌^◌, length};
ghost use Rattle.xw_net.specs.Marks.{side_of, IsPositionIn, cell_at, slot_at, HasFewCells};
ghost use Rattle.xw_net.specs.Nets.{IsThere};

use xw_feas::board::{Board, Cells};

/// A position in a light, with the light's length and the position's cell and slot.
#[derive(Clone, Copy)]
pub(crate) struct LightPosition {
    pub light: usize,
    pub position: usize,
    pub len: usize,
    pub cell: usize,
    pub slot: usize,
}

/// 0 for the cells of an across light, and 1 for those of a down light.
pub(crate) fn side(cells: &Cells) -> usize
    ensures side { result ≡ side_of cells.now }
    ensures small { result ≤ 1 }
{
    if cells.len() >= 2 && cells.stride() == 1 {
        0
    } else {
        1
    }
}

/// The positions of a light.
#[derive(Drop)]
pub(crate) struct Positions {
    light: usize,
    cells: Cells,
    side: usize,
}

impl Positions {
    ghost use Rattle.std.specs.Prelude.{◌≡◌, ◌<◌, ◌^◌, All, length};
    ghost use Rattle.xw_feas.specs.Board.{Board as SpecBoard};
    ghost use Rattle.xw_net.specs.Marks.{HasFewCells};
    ghost use Rattle.xw_net.specs.Nets.{IsThere, ArePositionsIn};

    /// The positions of a light of a board.
    pub(crate) fn of(board: &Board<'_>, light: usize) -> Positions
        requires light { light < length board.now.lights }
        requires few { HasFewCells board.now }
        ensures light { result.light ≡ light }
        ensures positions { ArePositionsIn board.now result }
        ensures small { All (λ cell. cell < 2 ^ 32) result.cells }
        ensures side { result.side < 2 }
    {
        let cells = board.light(light);
        let side = side(&cells);
        Positions { light, cells, side }
    }

    /// The number of positions.
    pub(crate) fn len(&self) -> usize
        ensures { result ≡ length self.now.cells }
    {
        self.cells.len()
    }

    /// A position.
    pub(crate) fn at(&self, position: usize) -> LightPosition
        requires position { position < length self.now.cells }
        requires small { All (λ cell. cell < 2 ^ 32) self.now.cells }
        requires side { self.now.side < 2 }
        ensures light { result.light ≡ self.now.light }
        ensures position { result.position ≡ position }
        ensures there { (board : SpecBoard) → ArePositionsIn board self.now → IsThere board result }
    {
        let cell = self.cells.at(position);
        LightPosition {
            light: self.light,
            position,
            len: self.cells.len(),
            cell,
            slot: 2 * cell + self.side,
        }
    }
}

/// A position of a light.
pub(crate) fn position_of(board: &Board<'_>, light: usize, position: usize) -> LightPosition
    requires position { IsPositionIn board.now light position }
    requires few { HasFewCells board.now }
    ensures light { result.light ≡ light }
    ensures position { result.position ≡ position }
    ensures there { IsThere board.now result }
    ensures cell { result.cell ≡ cell_at board.now light position }
    ensures slot { result.slot ≡ slot_at board.now light position }
    ensures in_board { result.cell < length board.now.open_cells }
    ensures in_slots { result.slot < 2 * length board.now.open_cells }
{
    Positions::of(board, light).at(position)
}
