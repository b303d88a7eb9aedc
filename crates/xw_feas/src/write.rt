//! Writing a list of cells, each with a letter or empty.
ghost use Rattle.std.specs.Prelude.{◌≡◌, ℕ, All, Option, IfErr, OnOk, Ok, Err, Some, None};
ghost use Rattle.xw_grid.specs.declared.cell.Cell.{Cell as SpecCell};
ghost use Rattle.xw_grid.specs.EditLaws.{SameShape};
ghost use Rattle.xw_feas.specs.Shape.{fault_at};
ghost use Rattle.xw_feas.specs.State.{write_list};

use xw_grid::cell::Cell;
use xw_grid::fault::GridFault;
use xw_grid::grid::Grid;
use xw_letters::letter::Letter;

/// Whether a letter can be written into the cell, or why not.
pub(crate) fn judge_cell(grid: &Grid, cell: Cell) -> Result<(), GridFault>
    ensures ok { OnOk result (fault_at grid.now cell ≡ None) }
    ensures refused { IfErr result (λ fault. fault_at grid.now cell ≡ Some fault) }
{
    if !grid.contains(cell) {
        return Err(GridFault::OutOfGrid);
    }
    if grid.is_block(cell) {
        return Err(GridFault::OnBlock);
    }
    Ok(())
}

/// Returns the fault of the first cell of the list that cannot be written.
pub(crate) fn judge_list(grid: &Grid, list: &[(Cell, Option<Letter>)]) -> Result<(), GridFault>
    ensures ok { OnOk result (All (λ (written : SpecCell × Option ℕ). fault_at grid.now written.0 ≡ None) list.now) }
    ensures refused { IfErr result (λ fault. write_list list.now grid.now ≡ Err fault) }
{
    for index in 0..list.len() {
        judge_cell(grid, list[index].0)?;
    }
    Ok(())
}

/// Writes each cell of a list, in order.
pub(crate) fn enter_list(grid: &mut Grid, list: &[(Cell, Option<Letter>)])
    requires { All (λ (written : SpecCell × Option ℕ). fault_at grid.old written.0 ≡ None) list.now }
    ensures written { write_list list.now grid.old ≡ Ok grid.new }
    ensures shape { SameShape grid.old grid.new }
{
    for written in list {
        grid.well_formed();
        let (cell, letter) = *written;
        grid.enter(cell, letter);
    }
}
