//! The lights of a grid and their numbers.
ghost use Rattle.std.specs.Prelude.{◌≡◌, ℕ, ◌+◌, ◌++◌, ◌<◌, ◌≤◌, ◌^◌, true, List, Some, None, slice_get, slice_index_or, IfOk, OnOk, IsOkUnless, length, if◌then◌else◌, ◌&&◌, ◌||◌, ◌==◌};
ghost use Rattle.xw_grid.specs.Grid.{is_inside, same_cell};
ghost use Rattle.xw_grid.specs.Light.{is_joined as spec_is_joined, begins as spec_begins, previous as spec_previous, begins_some, step as spec_step, run_from, light_from, lights_at, lights_of, number_at, same_name, index_named, index_through, index_with_cells, number_in, same_name, name_before, no_light};
ghost use Rattle.xw_grid.specs.LightLaws.{LightsAreLights, LightsAreAll, LightsBegin, LightsAreOrdered, LightsAreApart, LightsAreFew, LightsMeetOnce};
ghost use Rattle.xw_grid.specs.LightTable.{IsLightTable, number_of_start, is_such};
ghost use Rattle.std.specs.Option.{option_and_then};

use crate::cell::{Cell, Direction, LightName, Side};
use crate::fault::GridFault;
use crate::grid::Grid;
use crate::light_table;
use std::alloc::{AllocError, Global};
use std::marker::Model;

/// A light: its name, its first cell, and its number of cells.
#[derive(Clone, Copy, Debug, PartialEq, Eq)]
pub struct Light {
    pub name: LightName,
    /// The first cell.
    pub start: Cell,
    /// The number of cells, 2 to 255 for a light of a grid.
    pub size: u32,
}

impl Light {
    /// The cell `k` steps after the first one; position `k` counts from 0. The cell can lie past the end of
    /// the light.
    pub fn cell(&self, k: u32) -> Cell
        requires { (self.now.start.row ≤ 255) × (self.now.start.col ≤ 255) × (k ≤ 255) }
        ensures { result ≡ spec_step self.now.name.direction self.now.start k }
    {
        step(self.name.direction, self.start, k)
    }
}

/// The lights of a grid, ordered by number, across before down. A light is addressed by its index
/// in this order.
#[derive(Drop)]
pub struct Lights {
    width: u32,
    height: u32,
    lights: Vec<Light>,
    across: Vec<Option<usize>>,
    down: Vec<Option<usize>>,
}

impl Model for Lights {
    ghost use Rattle.std.specs.Prelude.{List};
    ghost use Rattle.xw_grid.specs.declared.lights.Light.{Light as SpecLight};
    ghost use Rattle.xw_grid.specs.LightTable.{AreKept};

    ghost Value = { List SpecLight };

    ghost view = { λ lights. lights.lights.items };

    ghost invariant = { λ lights. AreKept lights.width lights.height lights.lights.items lights.across.items lights.down.items };
}

impl Lights {
    /// Finds the lights of a grid. Returns `Memory` if an allocation fails.
    pub fn of(alloc: Global, grid: &Grid) -> Result<Lights, GridFault>
        ensures ok { IfOk result (λ lights. lights ≡ lights_of grid.now) }
        ensures memory { IsOkUnless result GridFault.Memory }
    {
        let lights = list(alloc, grid)?;
        let across = light_table::through(alloc, grid, &lights, Direction::Across)?;
        let down = light_table::through(alloc, grid, &lights, Direction::Down)?;
        Ok(kept(grid, lights, across, down))
    }

    /// The number of lights.
    pub fn len(&self) -> usize
        ensures len { result ≡ length self.now }
        ensures few { result ≤ 64770 }
    {
        self.lights.len()
    }

    /// The light at an index; `None` past the last one.
    pub fn get(&self, index: usize) -> Option<Light>
        ensures { result ≡ slice_get self.now index }
    {
        self.lights.get(index).copied()
    }

    /// The light at an index.
    pub fn at(&self, index: usize) -> Light
        requires { index < length self.now }
        ensures { result ≡ slice_index_or self.now index no_light }
    {
        self.lights[index]
    }

    /// The index of the light with this name, found by binary search; `None` if there is none.
    pub fn index(&self, name: LightName) -> Option<usize>
        ensures { result ≡ index_named self.now name }
    {
        let index = self
            .lights
            .partition_point(|light| is_before(light.name, name));
        if self.is_at(index, name) {
            Some(index)
        } else {
            None
        }
    }

    /// Whether the light at an index has this name.
    fn is_at(&self, index: usize, name: LightName) -> bool
        ensures { result ≡ is_such (λ light. same_name light.name name) (slice_get self.now index) }
    {
        match self.get(index) {
            Some(light) => is_named(&light, name),
            None => false,
        }
    }

    /// The number in a cell; `None` if no light begins there.
    pub fn number(&self, cell: Cell) -> Option<u16>
        ensures { result ≡ number_in self.now cell }
    {
        let _ = &self.lights;
        match self.number_by(self.across_at(cell), cell) {
            Some(number) => Some(number),
            None => self.number_by(self.down_at(cell), cell),
        }
    }

    /// The number of the light at an index, if it begins at the cell.
    fn number_by(&self, index: Option<usize>, cell: Cell) -> Option<u16>
        ensures { result ≡ number_of_start self.now index cell }
    {
        let light = self.get(index?)?;
        if starts_at(&light, cell) {
            Some(light.name.number)
        } else {
            None
        }
    }

    /// The index of the across light through a cell; `None` if there is none.
    pub fn across_at(&self, cell: Cell) -> Option<usize>
        ensures { result ≡ index_through self.now Direction.Across cell }
    {
        light_table::at(self.width, self.height, &self.across, cell)
    }

    /// The index of the down light through a cell; `None` if there is none.
    pub fn down_at(&self, cell: Cell) -> Option<usize>
        ensures { result ≡ index_through self.now Direction.Down cell }
    {
        light_table::at(self.width, self.height, &self.down, cell)
    }

    /// The index, in another grid's lights, of the light with the same cells as the light at
    /// `index` here; `None` if there is none.
    pub fn same(&self, index: usize, other: &Lights) -> Option<usize>
        ensures { result ≡ option_and_then (index_with_cells other.now) (slice_get self.now index) }
    {
        let _ = &self.lights;
        let light = self.get(index)?;
        other.same_as(&light)
    }

    /// The index of the light with the same cells as `light`.
    fn same_as(&self, light: &Light) -> Option<usize>
        requires { 2 ≤ light.now.size }
        ensures { result ≡ index_with_cells self.now light.now }
    {
        let _ = &self.lights;
        let index = self.through(light.name.direction, light.start)?;
        if self.is_like(index, light) {
            Some(index)
        } else {
            None
        }
    }

    /// The index of the light in a direction through a cell.
    fn through(&self, direction: Direction, cell: Cell) -> Option<usize>
        ensures { result ≡ index_through self.now direction cell }
    {
        match direction {
            Direction::Across => self.across_at(cell),
            Direction::Down => self.down_at(cell),
        }
    }

    /// Whether the light at an index has the same first cell and size as `light`.
    fn is_like(&self, index: usize, light: &Light) -> bool
        ensures { result ≡ is_such (λ other. same_cell other.start light.now.start && (other.size == light.now.size)) (slice_get self.now index) }
    {
        match self.get(index) {
            Some(other) => starts_at(&other, light.start) && other.size == light.size,
            None => false,
        }
    }
}

/// The lights of a grid in order.
fn list(alloc: Global, grid: &Grid) -> Result<Vec<Light>, AllocError>
    ensures { IfOk result (λ lights. lights.items ≡ lights_of grid.now) }
{
    let mut lights = Vec::new(alloc);
    let mut begun = 0;
    for index in 0..grid.size() {
        begun = add_lights(&mut lights, grid, begun, grid.cell_at(index))?;
    }
    Ok(lights)
}

/// Builds `Lights` from the list and its two tables.
fn kept(
    grid: &Grid,
    lights: Vec<Light>,
    across: Vec<Option<usize>>,
    down: Vec<Option<usize>>,
) -> Lights
    requires lights { lights.items ≡ lights_of grid.now }
    requires across { IsLightTable grid.now lights.items Direction.Across across.items }
    requires down { IsLightTable grid.now lights.items Direction.Down down.items }
    ensures { result ≡ lights.items }
{
    grid.well_formed();
    Lights {
        width: grid.width(),
        height: grid.height(),
        lights,
        across,
        down,
    }
}

/// Whether a name comes before another.
fn is_before(name: LightName, other: LightName) -> bool
    ensures { result ≡ name_before name other }
{
    name.number < other.number
        || name.number == other.number
            && matches!(
                (name.direction, other.direction),
                (Direction::Across, Direction::Down)
            )
}

fn is_named(light: &Light, name: LightName) -> bool
    ensures { result ≡ same_name light.now.name name }
{
    light.name.number == name.number
        && matches!(
            (light.name.direction, name.direction),
            (Direction::Across, Direction::Across) | (Direction::Down, Direction::Down)
        )
}

fn starts_at(light: &Light, cell: Cell) -> bool
    ensures { result ≡ same_cell light.now.start cell }
{
    light.start.row == cell.row && light.start.col == cell.col
}

/// Whether a cell and the next one in a direction are open, with no bar between them.
fn is_joined(grid: &Grid, direction: Direction, cell: Cell) -> bool
    ensures { result ≡ spec_is_joined grid.now direction cell }
{
    let side = match direction {
        Direction::Across => Side::Right,
        Direction::Down => Side::Below,
    };
    grid.joins(cell, side)
}

fn previous(direction: Direction, cell: Cell) -> Cell
    ensures { result ≡ spec_previous direction cell }
{
    match direction {
        Direction::Across => Cell {
            row: cell.row,
            col: cell.col.saturating_sub(1),
        },
        Direction::Down => Cell {
            row: cell.row.saturating_sub(1),
            col: cell.col,
        },
    }
}

/// Whether a light in a direction begins at a cell.
pub fn begins(grid: &Grid, direction: Direction, cell: Cell) -> bool
    ensures { result ≡ spec_begins grid.now direction cell }
{
    is_joined(grid, direction, cell) && !is_joined(grid, direction, previous(direction, cell))
}

/// The cell `count` steps further on.
fn step(direction: Direction, first: Cell, count: u32) -> Cell
    requires { (first.row ≤ 255) × (first.col ≤ 255) × (count ≤ 255) }
    ensures { result ≡ spec_step direction first count }
{
    match direction {
        Direction::Across => Cell {
            row: first.row,
            col: first.col + count,
        },
        Direction::Down => Cell {
            row: first.row + count,
            col: first.col,
        },
    }
}

/// The number of cells of the light that begins at a cell.
fn run(grid: &Grid, direction: Direction, first: Cell) -> u32
    requires { is_inside grid.now first ≡ true }
    ensures { result ≡ run_from grid.now direction first }
{
    let (width, height) = (grid.width(), grid.height());
    let extent = match direction {
        Direction::Across => width,
        Direction::Down => height,
    };
    for count in 0..extent {
        if !is_joined(grid, direction, step(direction, first, count)) {
            return count + 1;
        }
    }
    extent + 1
}

/// Appends the lights that begin at a cell. Returns the number of cells so far that begin a light.
fn add_lights(
    lights: &mut Vec<Light>,
    grid: &Grid,
    begun: u16,
    cell: Cell,
) -> Result<u16, AllocError>
    requires inside { is_inside grid.now cell ≡ true }
    requires number { begun + 1 ≡ number_at grid.now cell }
    requires few { begun < 65025 }
    ensures lights { OnOk result (lights.new.items ≡ lights.old.items ++ lights_at grid.now cell) }
    ensures begun { IfOk result (λ now. now ≡ begun + (if begins_some grid.now cell then 1 else 0)) }
{
    let number = begun + 1;
    let across = add_light(lights, grid, number, Direction::Across, cell)?;
    let down = add_light(lights, grid, number, Direction::Down, cell)?;
    Ok(counted(begun, across, down))
}

/// Counts a cell if a light begins there across or down.
fn counted(begun: u16, across: bool, down: bool) -> u16
    requires { begun < 65025 }
    ensures { result ≡ begun + (if across || down then 1 else 0) }
{
    if across || down { begun + 1 } else { begun }
}

/// Appends the light that begins at a cell in a direction, if one does. Returns whether one does.
fn add_light(
    lights: &mut Vec<Light>,
    grid: &Grid,
    number: u16,
    direction: Direction,
    start: Cell,
) -> Result<bool, AllocError>
    requires inside { is_inside grid.now start ≡ true }
    requires number { number ≡ number_at grid.now start }
    ensures lights { OnOk result (lights.new.items ≡ lights.old.items ++ light_from grid.now start direction) }
    ensures begins { IfOk result (λ here. here ≡ spec_begins grid.now direction start) }
{
    let here = begins(grid, direction, start);
    if here {
        lights.push(Light {
            name: LightName { number, direction },
            start,
            size: run(grid, direction, start),
        })?;
    }
    Ok(here)
}

/// Each light in a grid's list is a light: at least two open cells, each joined to the one before,
/// that cannot be extended at either end. Its number is that of its first cell.
pub fn lights_are_lights()
    ensures { LightsAreLights }
{}

/// Every light of a grid is in its list.
pub fn lights_are_all()
    ensures { LightsAreAll }
{}

/// A light begins at a cell if and only if `begins` returns true.
pub fn lights_begin()
    ensures { LightsBegin }
{}

/// The lights are ordered by name, so no two have the same name.
pub fn lights_are_ordered()
    ensures { LightsAreOrdered }
{}

/// Two lights of the same direction share no cell.
pub fn lights_are_apart()
    ensures { LightsAreApart }
{}

/// Two lights share at most one cell.
pub fn lights_meet_once()
    ensures { LightsMeetOnce }
{}

/// A grid has at most 64,770 lights.
pub fn lights_are_few()
    ensures { LightsAreFew }
{}
