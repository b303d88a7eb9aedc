//! Creates the rows of flags in which the plain engine keeps its words.
ghost use Rattle.std.specs.Prelude.{◌≡◌, length, None, Some, IfOk, IsOkUnless};
ghost use Rattle.xw_grid.specs.Light.{lights_of};
ghost use Rattle.xw_feas.specs.Board.{board_of};
ghost use Rattle.xw_feas.specs.Rows.{HasWordRows, row_len};

use crate::flags::Flags;
use std::alloc::{AllocError, Global};
use xw_feas::board::Board;
use xw_feas::engine_state::EngineState;
use xw_grid::fault::GridFault;
use xw_grid::grid::Grid;
use xw_grid::lights::Lights;
use xw_words::WordFault;
use xw_words::bank::Bank;

/// A row with a flag for each choice of a light with `len` cells, and one more if `grown` is `len`.
fn make_row(
    alloc: Global,
    bank: &Bank,
    len: usize,
    grown: Option<usize>,
) -> Result<Flags, AllocError>
    ensures { IfOk result (λ row. length row ≡ row_len bank.now.words grown len) }
{
    let mut row = Flags::new(alloc, bank.known(len))?;
    row.push(false)?;
    if grown == Some(len) {
        row.push(false)?;
    }
    Ok(row)
}

/// A row for each light.
fn make_rows(
    alloc: Global,
    board: &Board<'_>,
    bank: &Bank,
    grown: Option<usize>,
) -> Result<Vec<Flags>, AllocError>
    ensures { IfOk result (λ rows. HasWordRows board.now bank.now.words grown rows.items) }
{
    let mut rows = Vec::new(alloc);
    for light in 0..board.light_count() {
        let len = board.light(light).len();
        rows.push(make_row(alloc, bank, len, grown)?)?;
    }
    Ok(rows)
}

/// A row for each light of a grid. Returns `Memory` if an allocation fails.
pub fn make_grid_rows(
    alloc: Global,
    grid: &Grid,
    lights: &Lights,
    bank: &Bank,
) -> Result<Vec<Flags>, GridFault>
    requires { lights.now ≡ lights_of grid.now }
    ensures ok { IfOk result (λ rows. HasWordRows (board_of grid.now) bank.now.words None rows.items) }
    ensures memory { IsOkUnless result GridFault.Memory }
{
    Ok(make_rows(alloc, &Board::new(grid, lights), bank, None)?)
}

/// A row for each light of a position, with room for one more word of length `count`. Returns `Memory`
/// if an allocation fails.
pub fn make_grown_rows(
    alloc: Global,
    position: &EngineState,
    count: usize,
) -> Result<Vec<Flags>, WordFault>
    ensures ok { IfOk result (λ rows. HasWordRows (board_of position.now.grid) position.now.bank.words (Some count) rows.items) }
    ensures memory { IsOkUnless result WordFault.Memory }
{
    let board = Board::new(&position.grid, &position.lights);
    Ok(make_rows(alloc, &board, &position.bank, Some(count))?)
}
