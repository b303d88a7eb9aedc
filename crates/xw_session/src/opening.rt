//! Opens sessions on a dictionary and a puzzle.
ghost use Rattle.std.specs.Prelude.{◌≡◌, IfOk, IsOkUnless};
ghost use Rattle.xw_grid.specs.Edit.{blank};
ghost use Rattle.xw_grid.specs.Puzzle.{puzzle_view};
ghost use Rattle.xw_session.specs.Opening.{empty_puzzle, opened_on};

use crate::session::Session;
use std::alloc::{AllocError, Global};
use xw_feas::feasible::Feasible;
use xw_grid::Grid;
use xw_grid::puzzle::Puzzle;
use xw_words::Bank;

/// The number of rows and columns of an empty grid.
const START: u32 = 15;

/// Opens a session on a dictionary and a puzzle. Fails only if an allocation fails.
pub fn open_puzzle<F: Feasible>(
    alloc: Global,
    bank: Bank,
    puzzle: Puzzle,
) -> Result<Session<F>, AllocError>
    ensures ok { IfOk result (λ session. session ≡ opened_on bank.words (puzzle_view puzzle)) }
{
    match F::open(alloc, puzzle.grid, bank) {
        Ok(engine) => Ok(Session::open(engine, puzzle.texts, puzzle.clues, puzzle.circles)),
        Err(_) => Err(AllocError),
    }
}

/// Opens a session on a dictionary and an empty grid of 15 rows and columns. Fails only if an allocation fails.
pub fn open_empty<F: Feasible>(alloc: Global, bank: Bank) -> Result<Session<F>, AllocError>
    ensures ok { IfOk result (λ session. session ≡ opened_on bank.words empty_puzzle) }
{
    let grid = empty_grid(alloc)?;
    match F::open(alloc, grid, bank) {
        Ok(engine) => Ok(Session::new(alloc, engine)),
        Err(_) => Err(AllocError),
    }
}

fn empty_grid(alloc: Global) -> Result<Grid, AllocError>
    ensures ok { IfOk result (λ grid. grid ≡ blank 15 15) }
{
    match Grid::new(alloc, START, START) {
        Ok(grid) => Ok(grid),
        Err(_) => Err(AllocError),
    }
}
