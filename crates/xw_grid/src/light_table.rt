//! Tables from each cell to the index of the light through it.
ghost use Rattle.std.specs.Prelude.{◌≡◌, ℕ, ◌*◌, ◌<◌, ◌≤◌, true, length, slice_set, IfOk};
ghost use Rattle.xw_grid.specs.Grid.{index_of, is_inside};
ghost use Rattle.xw_grid.specs.Light.{lights_of, is_on_line, passes, same_direction, step};
ghost use Rattle.xw_grid.specs.LightTable.{IsLightTable, entry_for, marked, IsEntered};

use crate::cell::{Cell, Direction};
use crate::grid::Grid;
use crate::lights::Light;
use std::alloc::{AllocError, Global};

/// The table's entry for a cell; `None` outside the grid.
pub(crate) fn at(width: u32, height: u32, table: &[Option<usize>], cell: Cell) -> Option<usize>
    requires { (width ≤ 255) × (height ≤ 255) }
    ensures { result ≡ entry_for width height table.now cell }
{
    if !(1..=height).contains(&cell.row) || !(1..=width).contains(&cell.col) {
        return None;
    }
    let square = (cell.row - 1) as usize * width as usize + (cell.col - 1) as usize;
    table.get(square).copied().unwrap_or(None)
}

/// The table of the lights in a direction: for each cell the index of the light through it.
pub(crate) fn through(
    alloc: Global,
    grid: &Grid,
    lights: &[Light],
    direction: Direction,
) -> Result<Vec<Option<usize>>, AllocError>
    requires { lights.now ≡ lights_of grid.now }
    ensures { IfOk result (λ table. IsLightTable grid.now lights.now direction table.items) }
{
    let mut table = vec![in alloc; None; grid.size()]?;
    for index in 0..lights.len() {
        enter_towards(&mut table, grid, &lights[index], index, direction);
    }
    Ok(table)
}

/// Enters a light into the table if it has this direction.
fn enter_towards(
    table: &mut [Option<usize>],
    grid: &Grid,
    light: &Light,
    index: usize,
    direction: Direction,
)
    requires long { length table.old ≡ grid.now.width * grid.now.height }
    requires inside { (k : ℕ) → k < light.now.size → is_inside grid.now (step light.now.name.direction light.now.start k) ≡ true }
    ensures long { length table.new ≡ length table.old }
    ensures each { IsEntered grid.now (λ cell. passes direction cell light.now) index table.old table.new }
{
    if is_towards(light, direction) {
        enter(table, grid, light, index);
    }
}

fn is_towards(light: &Light, direction: Direction) -> bool
    ensures { result ≡ same_direction light.now.name.direction direction }
{
    matches!(
        (light.name.direction, direction),
        (Direction::Across, Direction::Across) | (Direction::Down, Direction::Down)
    )
}

/// Enters a light's index at each of its cells that has no entry yet.
fn enter(table: &mut [Option<usize>], grid: &Grid, light: &Light, index: usize)
    requires long { length table.old ≡ grid.now.width * grid.now.height }
    requires inside { (k : ℕ) → k < light.now.size → is_inside grid.now (step light.now.name.direction light.now.start k) ≡ true }
    ensures long { length table.new ≡ length table.old }
    ensures each { IsEntered grid.now (is_on_line light.now.name.direction light.now.start light.now.size) index table.old table.new }
{
    grid.well_formed();
    for k in 0..light.size {
        let square = square_inside(grid, light.cell(k));
        mark(table, square, index);
    }
}

/// The index in reading order of a cell inside the grid.
fn square_inside(grid: &Grid, cell: Cell) -> usize
    requires { is_inside grid.now cell ≡ true }
    ensures index { result ≡ index_of grid.now cell }
    ensures within { result < grid.now.width * grid.now.height }
{
    grid.well_formed();
    grid.index(cell).unwrap_or(0)
}

fn mark(table: &mut [Option<usize>], square: usize, index: usize)
    requires { square < length table.old }
    ensures { table.new ≡ slice_set table.old square (marked table.old index square) }
{
    table[square] = Some(table[square].unwrap_or(index));
}
