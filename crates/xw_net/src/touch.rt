//! The first step of an update, by the kind of the change: letters, the queue and the chain.
ghost use Rattle.std.specs.Prelude.{◌≡◌, ℕ, ◌<◌, ◌≤◌, true, false, length, slice_index_or};
ghost use Rattle.xw_net.specs.Begin.{only_filled as spec_only_filled, filled_of};
ghost use Rattle.xw_net.specs.Change.{cells_of, fields_of};
ghost use Rattle.xw_net.specs.Marks.{AreByCell};
ghost use Rattle.xw_net.specs.Opened.{HasTurnedWords, Touches};
ghost use Rattle.xw_net.specs.Update.{AreInside};
ghost use Rattle.xw_net.specs.Worklist.{Adds, HasLights, HasSeeds};

use crate::begin::{edit_cells, index_in};
use crate::gone::raise_gone;
use crate::seeds::mark_new;
use crate::worklist::Worklist;
use xw_feas::board::Board;
use xw_feas::notes::Notes;
use xw_grid::cell::Cell;
use xw_grid::grid::Grid;
use xw_grid::lights::Lights;
use xw_letters::letter::Letter;
use xw_letters::letter_set::LetterSet;

/// The flag of a length; false if there is none.
fn flag_of(flags: &[bool], len: usize) -> bool
    ensures { result ≡ slice_index_or flags.now len false }
{
    match flags.get(len) {
        Some(flag) => *flag,
        None => false,
    }
}

/// Puts the lights whose length has its flag set on the list.
fn mark_turned(board: &Board<'_>, turned: &[bool], list: &mut Worklist)
    requires { HasLights board.now list.old }
    ensures { Adds (HasTurnedWords board.now (λ len. slice_index_or turned.now len false)) list.old list.new }
{
    for light in 0..board.light_count() {
        let len = board.light(light).len();
        if !flag_of(turned, len) {
            continue;
        }
        list.insert(light);
    }
}

/// Queues the lights whose length has its flag set. If words may have come back, marks these lights too.
fn touch_turned(
    board: &Board<'_>,
    turned: &[bool],
    back: bool,
    queue: &mut Worklist,
    chain: &mut Worklist,
)
    requires queue { HasLights board.now queue.old }
    requires chain { HasLights board.now chain.old }
    ensures queue { Adds (HasTurnedWords board.now (λ len. slice_index_or turned.now len false)) queue.old queue.new }
    ensures chain { Adds (λ light. (back ≡ true) × HasTurnedWords board.now (λ len. slice_index_or turned.now len false) light) chain.old chain.new }
{
    mark_turned(board, turned, queue);
    if back {
        mark_turned(board, turned, chain);
    }
}

/// The index of the cell that an edit filled, if it wrote no other cell.
pub(crate) fn only_filled(
    grid: &Grid,
    board: &Board<'_>,
    cells: &[(Cell, Option<Letter>)],
) -> Option<usize>
    requires { AreInside grid.now cells.now }
    ensures { result ≡ spec_only_filled grid.now board.now cells.now }
{
    if cells.len() != 1 {
        return None;
    }
    let (cell, old) = cells[0];
    let cell = index_in(grid, cell);
    if old.is_none() && board.entry(cell).is_some() {
        Some(cell)
    } else {
        None
    }
}

/// The index of the cell that an edit of letters filled, if it wrote no other cell.
pub(crate) fn filled_in(grid: &Grid, board: &Board<'_>, change: &Notes) -> Option<usize>
    requires { AreInside grid.now (cells_of change.now) }
    ensures { result ≡ filled_of grid.now board.now change.now }
{
    match change.before() {
        Some(_) => None,
        None => only_filled(grid, board, change.cells()),
    }
}

/// Queues the new lights, those through edited cells and those of lengths with other active words, and
/// marks those that may get words back. Only a change of shape has lights come and go, and a change of a
/// word touches none.
pub(crate) fn touch(
    grid: &Grid,
    board: &Board<'_>,
    lights: &Lights,
    change: &Notes,
    letters: &mut [LetterSet],
    queue: &mut Worklist,
    chain: &mut Worklist,
)
    requires cells { length grid.now.squares ≡ length board.now.open_cells }
    requires inside { AreInside grid.now (cells_of change.now) }
    requires lights { length lights.now ≡ length board.now.lights }
    requires letters { AreByCell board.now letters.old }
    requires queue { HasLights board.now queue.old }
    requires chain { HasLights board.now chain.old }
    requires seeds { HasSeeds chain.old }
    ensures { Touches grid.now board.now lights.now (fields_of lights.now change.now) letters.old queue.old chain.old letters.new queue.new chain.new }
{
    let cells = change.cells();
    if let Some((turned, back)) = change.turned() {
        touch_turned(board, turned, back, queue, chain);
        return;
    }
    if let Some(before) = change.before() {
        mark_new(lights, before, queue, chain);
        raise_gone(grid, board, lights, before, letters, chain);
        edit_cells(grid, board, cells, letters, queue, chain);
        return;
    }
    edit_cells(grid, board, cells, letters, queue, chain);
}
