//! The order in which entries are left out. It decides which reason is found; no proof depends on it.
ghost use Rattle.std.specs.List.Sorted.{IsPermutation};

use xw_grid::cell::{Cell, Direction};
use xw_grid::lights::Light;
use xw_letters::letter::Letter;

/// How far a row or a column lies outside a range.
fn gap(at: u32, first: u32, last: u32) -> u32 {
    first
        .saturating_sub(at)
        .saturating_add(at.saturating_sub(last))
}

/// The number of rows plus the number of columns from a cell to the nearest cell of a light.
fn distance(light: &Light, cell: Cell) -> u32 {
    let Cell { row, col } = light.start;
    let steps = light.size.saturating_sub(1);
    let (last_row, last_col) = match light.name.direction {
        Direction::Across => (row, col.saturating_add(steps)),
        Direction::Down => (row.saturating_add(steps), col),
    };
    gap(cell.row, row, last_row).saturating_add(gap(cell.col, col, last_col))
}

/// Sorts entries by their distance from a light, the farthest first, and then in reading order.
pub fn sort_by_distance(list: &mut Vec<(Cell, Option<Letter>)>, light: &Light)
    ensures { IsPermutation list.old.items list.new.items }
{
    list.sort_unstable_by_key(|written| (
        u32::MAX - distance(light, written.0),
        written.0.row,
        written.0.col,
    ));
}
