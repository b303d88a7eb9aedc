//! Blocks: whether an orbit can be toggled, and toggling it.
ghost use Rattle.std.specs.Prelude.{◌≡◌, ◌<◌, true, length, All, fold, Ok, Err, OnOk, IfErr, OnErr, IsOk};
ghost use Rattle.xw_grid.specs.Grid.{IsSquare, is_inside};
ghost use Rattle.xw_grid.specs.Edit.{turned, turn_at, with_orbit, is_occupied as spec_is_occupied, toggle_block as spec_toggle_block};

use crate::cell::{Cell, Square};
use crate::fault::GridFault;
use crate::grid::Grid;

impl Grid {
    /// Whether `toggle_block` would succeed, or why it would not.
    pub fn judge_block(&self, cell: Cell) -> Result<(), GridFault>
        ensures ok { OnOk result (IsOk (spec_toggle_block self.now cell)) }
        ensures refused { IfErr result (λ fault. spec_toggle_block self.now cell ≡ Err fault) }
    {
        if !self.contains(cell) {
            return Err(GridFault::OutOfGrid);
        }
        if !self.is_block(cell) && self.is_occupied(cell) {
            return Err(GridFault::Occupied);
        }
        Ok(())
    }

    /// Turns the whole orbit of a cell into blocks if the cell is open, and otherwise opens the whole
    /// orbit. An opened block is empty; cells that were open keep their letters.
    ///
    /// Returns `OutOfGrid`, then `Occupied` if the orbit would become blocks and one of its cells
    /// holds a letter.
    pub fn toggle_block(&mut self, cell: Cell) -> Result<(), GridFault>
        ensures ok { OnOk result (spec_toggle_block self.old cell ≡ Ok self.new) }
        ensures refused { IfErr result (λ fault. spec_toggle_block self.old cell ≡ Err fault) }
        ensures same { OnErr result (self.new ≡ self.old) }
    {
        self.judge_block(cell)?;
        self.turn_block(cell);
        Ok(())
    }

    /// Toggles the orbit of a cell, as `toggle_block` does where no rule refuses it.
    #[tactic(auto, using(crate::proofs::AcceptedLemmas::block_accepted))]
    pub fn turn_block(&mut self, cell: Cell)
        requires { IsOk (spec_toggle_block self.old cell) }
        ensures { spec_toggle_block self.old cell ≡ Ok self.new }
    {
        let blocked = !self.is_block(cell);
        self.paint(cell, blocked);
    }

    /// Whether a cell of the orbit holds a letter.
    fn is_occupied(&self, cell: Cell) -> bool
        requires { is_inside self.now cell ≡ true }
        ensures { result ≡ spec_is_occupied self.now cell }
    {
        self.images(cell)
            .iter()
            .any(|image| self.entry(*image).is_some())
    }

    /// Turns the orbit of a cell into blocks, or opens it.
    fn paint(&mut self, cell: Cell, blocked: bool)
        requires inside { is_inside self.old cell ≡ true }
        ensures { self.new ≡ with_orbit self.old cell blocked }
    {
        let indices = self.indices(cell);
        turn_each(&mut self.squares, &indices, blocked);
    }
}

/// Turns the squares at several indices into blocks, or opens them.
fn turn_each(squares: &mut [Square], indices: &[usize], blocked: bool)
    requires within { All (λ index. index < length squares.old) indices.now }
    requires letters { All IsSquare squares.old }
    ensures turned { squares.new ≡ fold (turn_at blocked) squares.old indices.now }
    ensures letters { All IsSquare squares.new }
{
    for index in indices {
        squares[*index] = turned(blocked, squares[*index]);
    }
}

fn turned(blocked: bool, square: Square) -> Square
    requires letter { IsSquare square }
    ensures turned { result ≡ turned blocked square }
    ensures letter { IsSquare result }
{
    match (blocked, square) {
        (true, _) => Square::Block,
        (false, Square::Block) => Square::Open(None),
        (false, Square::Open(entered)) => Square::Open(entered),
    }
}
