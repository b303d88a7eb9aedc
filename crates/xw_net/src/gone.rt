//! Restores letters at the cells of lights that an edit removed.
ghost use Rattle.std.specs.Prelude.{◌≡◌, ℕ, ◌<◌, ◌≤◌, true, None, IfSome, length};
ghost use Rattle.xw_net.specs.Worklist.{HasSeeds, HasLights};
ghost use Rattle.xw_net.specs.Gone.{IsAlong, IsAmong, IsFreed, IsFreedAt, Raises};
ghost use Rattle.xw_net.specs.Marks.{AreByCell};

use crate::seeds::raise_cell;
use crate::worklist::Worklist;
use xw_feas::board::Board;
use xw_grid::grid::Grid;
use xw_grid::lights::{Light, Lights};
use xw_letters::letter_set::LetterSet;

/// The index of cell `k` of a light, if it is inside the grid.
fn index_along(grid: &Grid, light: &Light, k: u32) -> Option<usize>
    ensures along { IfSome result (λ cell. IsAlong grid.now light.now k cell) }
    ensures within { IfSome result (λ cell. cell < length grid.now.squares) }
    ensures only { result ≡ None → (cell : ℕ) → IsAlong grid.now light.now k cell → ⊥ }
{
    grid.well_formed();
    if light.start.row > 255 || light.start.col > 255 || k > 255 {
        return None;
    }
    grid.index(light.cell(k))
}

/// Gives each cell of a removed light all letters that it allows.
fn raise_along(
    grid: &Grid,
    board: &Board<'_>,
    light: &Light,
    letters: &mut [LetterSet],
    chain: &mut Worklist,
)
    requires cells { length grid.now.squares ≡ length board.now.open_cells }
    requires letters { AreByCell board.now letters.old }
    requires chain { HasLights board.now chain.old }
    requires seeds { HasSeeds chain.old }
    ensures { Raises board.now (IsAmong grid.now light.now light.now.size) letters.old chain.old letters.new chain.new }
{
    for k in 0..light.size {
        let Some(cell) = index_along(grid, light, k) else {
            continue;
        };
        raise_cell(board, cell, letters, chain);
    }
}

/// Calls `raise_along` for the light with index `other` before the edit, if no light after it has the
/// same cells.
fn raise_if_gone(
    grid: &Grid,
    board: &Board<'_>,
    lights: &Lights,
    before: &Lights,
    other: usize,
    letters: &mut [LetterSet],
    chain: &mut Worklist,
)
    requires cells { length grid.now.squares ≡ length board.now.open_cells }
    requires letters { AreByCell board.now letters.old }
    requires chain { HasLights board.now chain.old }
    requires seeds { HasSeeds chain.old }
    ensures { Raises board.now (IsFreedAt grid.now before.now lights.now other) letters.old chain.old letters.new chain.new }
{
    match (before.same(other, lights), before.get(other)) {
        (None, Some(light)) => raise_along(grid, board, &light, letters, chain),
        _ => {}
    }
}

/// Gives the cells of each removed light all letters that they allow, and marks as seeds the lights
/// through a cell that gets a letter back.
pub(crate) fn raise_gone(
    grid: &Grid,
    board: &Board<'_>,
    lights: &Lights,
    before: &Lights,
    letters: &mut [LetterSet],
    chain: &mut Worklist,
)
    requires cells { length grid.now.squares ≡ length board.now.open_cells }
    requires letters { AreByCell board.now letters.old }
    requires chain { HasLights board.now chain.old }
    requires seeds { HasSeeds chain.old }
    ensures { Raises board.now (IsFreed grid.now before.now lights.now (length before.now)) letters.old chain.old letters.new chain.new }
{
    for other in 0..before.len() {
        raise_if_gone(grid, board, lights, before, other, letters, chain);
    }
}
