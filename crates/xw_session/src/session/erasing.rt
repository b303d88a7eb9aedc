//! Answers `erase`.
ghost use Rattle.std.specs.Prelude.{◌≡◌, ◌+◌, ◌<◌, ◌≤◌, [], ◌∷◌, ◌++◌, None, length, true, false};
ghost use Rattle.xw_session.specs.Erase.{crossing as spec_crossing, is_held as spec_is_held, is_erased as spec_is_erased, erased_if, erased_cells as spec_erased_cells, emptied};
ghost use Rattle.xw_session.specs.Answer.{AnswersChange};

use crate::session::Session;
use crate::session::ending::Ended;
use crate::session::tallying::light_through;
use std::marker::Model;
use xw_answers::refusal::CommandRefusal;
use xw_commands::command::LightArg;
use xw_feas::edit::{Edit, Refusal};
use xw_feas::feasible::Feasible;
use xw_grid::{Cell, Direction, Light};
use xw_letters::Letter;
use xw_lines::device::{Sink, WriteFailed};
use xw_search::lights::is_entered;
use xw_words::word::LONGEST;

/// A list of cells to be emptied, at most as many as a light has. It allocates nothing.
#[derive(Drop)]
struct Emptied {
    cells: [(Cell, Option<Letter>); LONGEST],
    count: usize,
}

impl Model for Emptied {
    ghost use Rattle.std.specs.Prelude.{ℕ, ◌≤◌, List, Option, take};
    ghost use Rattle.xw_grid.specs.declared.cell.Cell.{Cell as SpecCell};

    ghost Value = { List (SpecCell × Option ℕ) };

    ghost view = { λ emptied. take emptied.count emptied.cells };

    ghost invariant = { λ emptied. emptied.count ≤ 255 };
}

impl Emptied {
    fn new() -> Emptied
        ensures { result ≡ [] }
    {
        Emptied {
            cells: [(Cell { row: 0, col: 0 }, None); LONGEST],
            count: 0,
        }
    }

    fn push(&mut self, cell: Cell)
        requires { length self.old < 255 }
        ensures { self.new ≡ self.old ++ (cell, None) ∷ [] }
    {
        self.cells[self.count] = (cell, None);
        self.count += 1;
    }

    fn list(&self) -> &[(Cell, Option<Letter>)]
        ensures { result.now ≡ self.now }
    {
        &self.cells[..self.count]
    }
}

/// Returns the direction of the lights that cross those of a direction.
fn crossing(direction: Direction) -> Direction
    ensures { result ≡ spec_crossing direction }
{
    match direction {
        Direction::Across => Direction::Down,
        Direction::Down => Direction::Across,
    }
}

/// Returns whether the light that crosses those of a direction at a cell is wholly entered.
fn is_held<E: Feasible>(engine: &E, direction: Direction, cell: Cell) -> bool
    ensures { result ≡ spec_is_held (E.state engine.now) direction cell }
{
    match light_through(engine.lights(), crossing(direction), cell) {
        Some(light) => is_entered(engine, light),
        None => false,
    }
}

/// Returns whether a cell has a letter and, if `spares` is set, no complete word crosses there.
fn is_erased<E: Feasible>(engine: &E, spares: bool, direction: Direction, cell: Cell) -> bool
    ensures { result ≡ spec_is_erased (E.state engine.now) spares direction cell }
{
    engine.grid().entry(cell).is_some() && !(spares && is_held(engine, direction, cell))
}

/// Returns the cells of a light that pass this test.
fn cells_erased<E: Feasible>(engine: &E, spares: bool, light: &Light) -> Emptied
    requires short { light.now.size ≤ 255 }
    requires inside { (light.now.start.row ≤ 255) × (light.now.start.col ≤ 255) }
    ensures { result ≡ emptied (erased_if (E.state engine.now) spares light.now) }
{
    let mut emptied = Emptied::new();
    for k in 0..light.size {
        let cell = light.cell(k);
        if is_erased(engine, spares, light.name.direction, cell) {
            emptied.push(cell);
        }
    }
    emptied
}

/// Returns the cells of a light that `erase` empties.
fn erased_cells<E: Feasible>(engine: &E, light: &Light) -> Emptied
    requires short { light.now.size ≤ 255 }
    requires inside { (light.now.start.row ≤ 255) × (light.now.start.col ≤ 255) }
    ensures { result ≡ emptied (spec_erased_cells (E.state engine.now) light.now) }
{
    let loose = cells_erased(engine, true, light);
    if loose.list().is_empty() {
        cells_erased(engine, false, light)
    } else {
        loose
    }
}

impl<E: Feasible> Session<E> {
    ghost use Rattle.xw_commands.specs.declared.change.Change.TheVariants as changes;

    /// Answers `erase`: empties the cells of a light, if possible without those of complete crossing words.
    pub(crate) fn answer_erase<W: Sink>(
        &mut self,
        named: LightArg,
        sink: &mut W,
    ) -> Result<Ended, WriteFailed>
        ensures { AnswersChange W.transcript W.failures self.old (changes.Erase named) result self.new sink.old sink.new }
    {
        match self.light(named) {
            Some(light) => {
                let erased = erased_cells(&self.engine, &light);
                self.answer_edit(&Edit::Write(erased.list()), sink)
            }
            None => Ok(Err(CommandRefusal::Engine(Refusal::NoLight))),
        }
    }
}
