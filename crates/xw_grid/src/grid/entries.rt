//! What the cells of a grid hold, and the edits of their letters.
ghost use Rattle.std.specs.Prelude.{◌≡◌, ℕ, true, Option, Some, None, Ok, Err, OnOk, IfErr, OnErr, IfSome};
ghost use Rattle.xw_grid.specs.Grid.{is_open as spec_is_open, is_block as spec_is_block, entry as spec_entry, square_at};
ghost use Rattle.xw_grid.specs.Edit.{set_entry, with_entry};
ghost use Rattle.xw_letters.specs.Letter.{IsLetter};

use crate::cell::{Cell, Square};
use crate::fault::GridFault;
use crate::grid::Grid;
use xw_letters::letter::Letter;

impl Grid {
    fn square(&self, cell: Cell) -> Option<Square>
        ensures { result ≡ square_at self.now cell }
    {
        Some(self.squares[self.index(cell)?])
    }

    /// The letter in a cell; `None` if the cell is empty, a block, or outside the grid.
    pub fn entry(&self, cell: Cell) -> Option<Letter>
        ensures entry { result ≡ spec_entry self.now cell }
        ensures letter { IfSome result (λ letter. IsLetter letter) }
    {
        match self.square(cell) {
            Some(Square::Open(letter)) => letter,
            _ => None,
        }
    }

    /// Whether the cell is a block; false outside the grid.
    pub fn is_block(&self, cell: Cell) -> bool
        ensures { result ≡ spec_is_block self.now cell }
    {
        matches!(self.square(cell), Some(Square::Block))
    }

    /// Whether the cell is open; false outside the grid.
    pub fn is_open(&self, cell: Cell) -> bool
        ensures { result ≡ spec_is_open self.now cell }
    {
        matches!(self.square(cell), Some(Square::Open(_)))
    }

    /// Writes a letter into an open cell, over the letter that may be there. Returns `OutOfGrid`, then
    /// `OnBlock` if the cell is a block.
    pub fn set(&mut self, cell: Cell, letter: Letter) -> Result<(), GridFault>
        ensures ok { OnOk result (set_entry self.old cell (Some letter) ≡ Ok self.new) }
        ensures refused { IfErr result (λ fault. set_entry self.old cell (Some letter) ≡ Err fault) }
        ensures same { OnErr result (self.new ≡ self.old) }
    {
        self.judge_entry(cell)?;
        self.enter(cell, Some(letter));
        Ok(())
    }

    /// Empties an open cell. Returns `OutOfGrid`, then `OnBlock` if the cell is a block.
    pub fn clear(&mut self, cell: Cell) -> Result<(), GridFault>
        ensures ok { OnOk result (set_entry self.old cell None ≡ Ok self.new) }
        ensures refused { IfErr result (λ fault. set_entry self.old cell None ≡ Err fault) }
        ensures same { OnErr result (self.new ≡ self.old) }
    {
        self.judge_entry(cell)?;
        self.enter(cell, None);
        Ok(())
    }

    /// Whether a letter can be written into a cell, or why not.
    #[tactic(auto, using(crate::proofs::ChangeLemmas::open_from_no_block))]
    fn judge_entry(&self, cell: Cell) -> Result<(), GridFault>
        ensures open { OnOk result (spec_is_open self.now cell ≡ true) }
        ensures ok { OnOk result ((letter : Option ℕ) → set_entry self.now cell letter ≡ Ok (with_entry self.now cell letter)) }
        ensures refused { IfErr result (λ fault. (letter : Option ℕ) → set_entry self.now cell letter ≡ Err fault) }
    {
        let _ = &self.width;
        if !self.contains(cell) {
            return Err(GridFault::OutOfGrid);
        }
        if self.is_block(cell) {
            return Err(GridFault::OnBlock);
        }
        Ok(())
    }

    /// Writes a letter into an open cell, or empties it.
    pub fn enter(&mut self, cell: Cell, letter: Option<Letter>)
        requires { spec_is_open self.old cell ≡ true }
        ensures { self.new ≡ with_entry self.old cell letter }
    {
        let index = self.index_inside(cell);
        if let Some(letter) = letter {
            let _code = letter.byte();
        }
        self.squares[index] = Square::Open(letter);
    }
}
