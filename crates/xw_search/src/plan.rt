//! The cells that a search fills, and the lights that it watches.
ghost use Rattle.std.specs.Prelude.{◌≡◌, ◌<◌, All, true, length, IfOk};
ghost use Rattle.xw_feas.specs.Board.{board_of, is_open};
ghost use Rattle.xw_search.specs.OfState.{light_count, is_in_named, is_target, has_target, AreTargets, AreWatched, IsPlan};
ghost use Rattle.xw_search.specs.NamedFill.{flags};
ghost use Rattle.xw_search.specs.Progress.{is_flagged};

use crate::lights::{board, light_count};
use std::alloc::{AllocError, Global};
use xw_feas::feasible::Feasible;

/// In place of a light that is not there.
pub const NO_LIGHT: usize = usize::MAX;

/// The lights through a cell, by index; `NO_LIGHT` where there is none. They weigh in the choice of the next cell, and
/// nothing is proved of them.
#[derive(Clone, Copy)]
pub struct Crossing {
    pub across: usize,
    pub down: usize,
}

/// What a search fills: flags for the named lights and for the lights to watch, the indices of the cells to fill, and
/// the lights through each.
#[derive(Drop)]
pub struct Plan {
    pub named: Vec<bool>,
    pub watched: Vec<bool>,
    pub targets: Vec<usize>,
    pub crossings: Vec<Crossing>,
}

/// Whether there is a light, and it is named.
fn is_flagged(named: &[bool], light: Option<usize>) -> bool
    ensures { result ≡ is_flagged (flags named.now) light }
{
    match light {
        Some(light) => light < named.len() && named[light],
        None => false,
    }
}

/// Whether a cell is in a named light.
fn is_in_named<E: Feasible>(engine: &E, named: &[bool], cell: usize) -> bool
    requires { cell < length (board_of (E.state engine.now).grid).open_cells }
    ensures { result ≡ is_in_named (flags named.now) (E.state engine.now) cell }
{
    let (across, down) = board(engine).lights_at(cell);
    is_flagged(named, across) || is_flagged(named, down)
}

/// Whether a cell is to be filled.
fn is_target<E: Feasible>(engine: &E, named: &[bool], cell: usize) -> bool
    requires { cell < length (board_of (E.state engine.now).grid).open_cells }
    ensures { result ≡ is_target (flags named.now) (E.state engine.now) cell }
{
    board(engine).entry(cell).is_none() && is_in_named(engine, named, cell)
}

/// Whether a light passes through a cell that is to be filled.
fn has_target<E: Feasible>(engine: &E, named: &[bool], light: usize) -> bool
    requires { light < light_count (E.state engine.now) }
    ensures { result ≡ has_target (flags named.now) (E.state engine.now) light }
{
    let cells = board(engine).light(light);
    for pos in 0..cells.len() {
        if is_target(engine, named, cells.at(pos)) {
            return true;
        }
    }
    false
}

/// The cells to be filled, in reading order.
fn targets_of<E: Feasible>(
    alloc: Global,
    engine: &E,
    named: &[bool],
) -> Result<Vec<usize>, AllocError>
    ensures { IfOk result (λ targets. AreTargets (flags named.now) (E.state engine.now) targets.items) }
{
    let mut targets = Vec::new(alloc);
    for cell in 0..board(engine).cell_count() {
        if is_target(engine, named, cell) {
            targets.push(cell)?;
        }
    }
    Ok(targets)
}

/// The lights through each of some open cells.
fn crossings_of<E: Feasible>(
    alloc: Global,
    engine: &E,
    cells: &[usize],
) -> Result<Vec<Crossing>, AllocError>
    requires { All (λ cell. is_open (board_of (E.state engine.now).grid) cell ≡ true) cells.now }
    ensures { IfOk result (λ crossings. length crossings.items ≡ length cells.now) }
{
    let mut crossings = Vec::new(alloc);
    for cell in cells {
        let (across, down) = board(engine).lights_at(*cell);
        let crossing = Crossing {
            across: across.unwrap_or(NO_LIGHT),
            down: down.unwrap_or(NO_LIGHT),
        };
        crossings.push(crossing)?;
    }
    Ok(crossings)
}

/// A flag for each light: whether it is watched.
fn watched_of<E: Feasible>(
    alloc: Global,
    engine: &E,
    named: &[bool],
) -> Result<Vec<bool>, AllocError>
    ensures { IfOk result (λ watched. AreWatched (flags named.now) (E.state engine.now) watched.items) }
{
    let mut watched = Vec::new(alloc);
    for light in 0..light_count(engine) {
        let flag = is_flagged(named, Some(light)) || has_target(engine, named, light);
        watched.push(flag)?;
    }
    Ok(watched)
}

impl Plan {
    /// The plan to fill the named lights of an engine.
    pub fn of<E: Feasible>(alloc: Global, engine: &E, named: Vec<bool>) -> Result<Plan, AllocError>
        ensures named { IfOk result (λ plan. plan.named ≡ named) }
        ensures ok { IfOk result (λ plan. IsPlan (E.state engine.now) plan) }
    {
        let targets = targets_of(alloc, engine, &named)?;
        let watched = watched_of(alloc, engine, &named)?;
        let crossings = crossings_of(alloc, engine, &targets)?;
        Ok(Plan {
            named,
            watched,
            targets,
            crossings,
        })
    }
}
