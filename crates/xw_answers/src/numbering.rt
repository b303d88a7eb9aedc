//! Finds where a light begins by its name, without a list of the lights. What was found of cells, whether they have a
//! number, is kept by their indices. A block changes it in a few rows only, which are read again. A list that is too
//! short says nothing of the other cells.
ghost use Rattle.std.specs.Prelude.{◌≡◌, ℕ, ◌*◌, ◌<◌, ◌≤◌, ◌⊎◌, Bool, true, Some, Ok, IfSome, IfNone, slice_get};
ghost use Rattle.xw_grid.specs.declared.cell.Cell.{Cell as SpecCell};
ghost use Rattle.xw_grid.specs.Edit.{toggle_block};
ghost use Rattle.xw_grid.specs.Grid.{Grid as SpecGrid, cell_at as spec_cell_at};
ghost use Rattle.xw_grid.specs.Light.{begins_some, number_at};
ghost use Rattle.xw_answers.specs.Numbering.{AreNumbered, IsApart, start_named as spec_start_named};

use std::alloc::Global;
use xw_commands::command::LightArg;
use xw_grid::lights::begins;
use xw_grid::{Cell, Direction, Grid};

/// Makes room for what is found of the cells of a grid, unless there is some or an allocation fails.
fn make_room(alloc: Global, grid: &Grid, known: &mut Vec<Option<bool>>)
    requires { AreNumbered grid.now known.old.items }
    ensures { AreNumbered grid.now known.new.items }
{
    if known.is_empty() {
        if let Ok(unknown) = vec![in alloc; None; grid.size()] {
            *known = unknown;
        }
    }
}

/// Returns whether a cell has a number.
fn is_numbered(grid: &Grid, cell: Cell) -> bool
    ensures { result ≡ begins_some grid.now cell }
{
    begins(grid, Direction::Across, cell) || begins(grid, Direction::Down, cell)
}

/// Returns whether the cell at an index has a number. If that is not known, it is known afterwards.
fn is_numbered_at(grid: &Grid, known: &mut Vec<Option<bool>>, index: usize) -> bool
    requires index { index < grid.now.width * grid.now.height }
    requires known { AreNumbered grid.now known.old.items }
    ensures is { result ≡ begins_some grid.now (spec_cell_at grid.now index) }
    ensures known { AreNumbered grid.now known.new.items }
{
    if let Some(Some(is)) = known.get(index) {
        return *is;
    }
    let is = is_numbered(grid, grid.cell_at(index));
    if index < known.len() {
        known[index] = Some(is);
    }
    is
}

/// Returns the cell with this number, or `None` if no cell has it.
fn numbered(grid: &Grid, known: &mut Vec<Option<bool>>, number: u64) -> Option<Cell>
    requires { AreNumbered grid.now known.old.items }
    ensures begins { IfSome result (λ cell. begins_some grid.now cell ≡ true) }
    ensures number { IfSome result (λ cell. number_at grid.now cell ≡ number) }
    ensures none { IfNone result ((cell : SpecCell) → begins_some grid.now cell ≡ true → number_at grid.now cell ≡ number → ⊥) }
    ensures known { AreNumbered grid.now known.new.items }
{
    let mut begun = 0;
    for index in 0..grid.size() {
        if is_numbered_at(grid, known, index) {
            begun += 1;
            if begun == number {
                return Some(grid.cell_at(index));
            }
        }
    }
    None
}

/// Returns the first cell of the light that a command names, or `None` if the grid has no such light. `known` has for
/// cells, by index, whether they have a number. `Lights` finds lights faster, but takes longer to make.
pub fn start_named(
    alloc: Global,
    grid: &Grid,
    known: &mut Vec<Option<bool>>,
    named: LightArg,
) -> Option<Cell>
    requires { AreNumbered grid.now known.old.items }
    ensures start { result ≡ spec_start_named grid.now named }
    ensures known { AreNumbered grid.now known.new.items }
{
    make_room(alloc, grid, known);
    let start = numbered(grid, known, named.number)?;
    if begins(grid, named.direction, start) {
        Some(start)
    } else {
        None
    }
}

/// Forgets the cells with an index from `from` up to `to`.
fn forget_between(known: &mut Vec<Option<bool>>, from: usize, to: usize)
    ensures kept { (index : ℕ) (is : Bool) → slice_get known.new.items index ≡ Some (Some is) → slice_get known.old.items index ≡ Some (Some is) }
    ensures gone { (index : ℕ) (is : Bool) → slice_get known.new.items index ≡ Some (Some is) → (index < from) ⊎ (to ≤ index) }
{
    for index in from..to.min(known.len()) {
        known[index] = None;
    }
}

/// Forgets the rows that have a cell of an orbit, and those beside them.
fn forget_near(grid: &Grid, known: &mut Vec<Option<bool>>, cell: Cell)
    ensures kept { (index : ℕ) (is : Bool) → slice_get known.new.items index ≡ Some (Some is) → slice_get known.old.items index ≡ Some (Some is) }
    ensures gone { (index : ℕ) (is : Bool) → slice_get known.new.items index ≡ Some (Some is) → IsApart grid.now cell (spec_cell_at grid.now index).row }
{
    grid.well_formed();
    let width = grid.width() as usize;
    let mut orbit = grid.orbit(cell);
    while let Some(member) = orbit.next() {
        let row = member.row as usize;
        forget_between(known, row.saturating_sub(2) * width, (row + 1) * width);
    }
}

/// Forgets the cells whose numbers a block at a cell can change.
pub fn forget_block(grid: &Grid, known: &mut Vec<Option<bool>>, cell: Cell)
    requires { AreNumbered grid.now known.old.items }
    ensures same { AreNumbered grid.now known.new.items }
    ensures made { (new : SpecGrid) → toggle_block grid.now cell ≡ Ok new → AreNumbered new known.new.items }
{
    grid.well_formed();
    forget_near(grid, known, cell);
}
