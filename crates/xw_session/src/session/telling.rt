//! Answers the commands that report on the whole puzzle.
ghost use Rattle.std.specs.Prelude.{◌≡◌};
ghost use Rattle.xw_lines.specs.Sends.{Sends};
ghost use Rattle.xw_session.specs.Reports.{letters_told, cell_lines, light_report, text_lines, unless_longer as spec_unless_longer, longest as spec_longest, longest_line, told_lines};
ghost use Rattle.xw_answers.specs.Stats.{stat_lines};
ghost use Rattle.xw_session.specs.Answer.{AnswersQuery};

use crate::session::Session;
use crate::session::ending::{Ended, accepted};
use xw_answers::{fields, stats, text};
use xw_commands::query::Report;
use xw_feas::feasible::Feasible;
use xw_grid::{Cell, Light, Lights};
use xw_lines::device::{Sink, WriteFailed};

/// Writes the feasible letters of a cell. Writes nothing for a block.
fn write_cell_letters<E: Feasible, W: Sink>(
    sink: &mut W,
    engine: &E,
    cell: Cell,
) -> Result<(), WriteFailed>
    ensures { Sends W.transcript W.failures sink.old sink.new result (letters_told (E.state engine.now) cell) }
{
    if !engine.grid().is_open(cell) {
        return Ok(());
    }
    match engine.letters(cell) {
        Ok(letters) => text::write_change(sink, cell, letters),
        Err(_) => Ok(()),
    }
}

/// Writes each open cell with its feasible letters.
fn write_cells<E: Feasible, W: Sink>(sink: &mut W, engine: &E) -> Result<(), WriteFailed>
    ensures { Sends W.transcript W.failures sink.old sink.new result (cell_lines (E.state engine.now)) }
{
    let grid = engine.grid();
    for index in 0..grid.size() {
        write_cell_letters(sink, engine, grid.cell_at(index))?;
    }
    Ok(())
}

/// What a report says of each light.
pub(crate) trait LightReport {
    ghost use Rattle.std.specs.Prelude.{ℕ, List, ◌<◌};
    ghost use Rattle.xw_feas.specs.State.{State};
    ghost use Rattle.xw_search.specs.OfState.{light_count};
    ghost use Rattle.xw_lines.specs.Sends.{Sends};

    ghost line: { State → ℕ → List ℕ };

    /// Writes the line of the light at an index. Writes nothing if the report has no line for it.
    fn write_light<E: Feasible, W: Sink>(
        &self,
        sink: &mut W,
        engine: &E,
        light: usize,
    ) -> Result<(), WriteFailed>
        requires { light < light_count (E.state engine.now) }
        ensures { Sends W.transcript W.failures sink.old sink.new result (line (E.state engine.now) light) };
}

/// Writes what a report says of each light.
pub(crate) fn write_each_light<R: LightReport, E: Feasible, W: Sink>(
    sink: &mut W,
    engine: &E,
    report: &R,
) -> Result<(), WriteFailed>
    ensures { Sends W.transcript W.failures sink.old sink.new result (light_report R.line (E.state engine.now)) }
{
    for light in 0..engine.lights().len() {
        report.write_light(sink, engine, light)?;
    }
    Ok(())
}

/// Each light has a line with its number of feasible words.
struct WordCounts;

impl LightReport for WordCounts {
    ghost use Rattle.xw_session.specs.Reports.{count_line};

    ghost line = { count_line };

    fn write_light<E: Feasible, W: Sink>(
        &self,
        sink: &mut W,
        engine: &E,
        light: usize,
    ) -> Result<(), WriteFailed> {
        let name = engine.lights().at(light).name;
        text::write_numbered(sink, name, engine.word_count_at(light) as u64)
    }
}

/// Returns the second light if it is longer, and otherwise the first.
fn unless_longer(light: Light, other: Option<Light>) -> Option<Light>
    ensures { result ≡ spec_unless_longer light other }
{
    match other {
        Some(other) if light.size < other.size => Some(other),
        _ => Some(light),
    }
}

/// Returns the first of the longest lights, if there is any.
#[tactic(auto, using(std::proofs::lemmas::List::drop_more))]
fn longest(lights: &Lights) -> Option<Light>
    ensures { result ≡ spec_longest lights.now }
{
    let mut found = None;
    let mut index = lights.len();
    while index > 0 {
        index -= 1;
        found = unless_longer(lights.at(index), found);
    }
    found
}

/// Writes a light with its length. Writes nothing if there is no light.
fn write_longest<W: Sink>(sink: &mut W, light: Option<Light>) -> Result<(), WriteFailed>
    ensures { Sends W.transcript W.failures sink.old sink.new result (longest_line light) }
{
    match light {
        Some(light) => text::write_numbered(sink, light.name, u64::from(light.size)),
        None => Ok(()),
    }
}

impl<E: Feasible> Session<E> {
    ghost use Rattle.xw_commands.specs.declared.query.Query.TheVariants as queries;

    /// Writes the texts, and the clues of the lights.
    fn write_texts<W: Sink>(&self, sink: &mut W) -> Result<(), WriteFailed>
        ensures { Sends W.transcript W.failures sink.old sink.new result (text_lines self.now) }
    {
        fields::write_fields(sink, &self.texts)?;
        let engine = &self.engine;
        fields::write_clues(sink, engine.grid(), engine.lights(), &self.clues)
    }

    /// Writes the counts of the grid.
    fn write_stats<W: Sink>(&self, sink: &mut W) -> Result<(), WriteFailed>
        ensures { Sends W.transcript W.failures sink.old sink.new result (stat_lines self.now.engine.grid) }
    {
        let engine = &self.engine;
        stats::write_stats(sink, engine.grid(), engine.lights())
    }

    fn write_told<W: Sink>(&self, report: Report, sink: &mut W) -> Result<(), WriteFailed>
        ensures { Sends W.transcript W.failures sink.old sink.new result (told_lines self.now report) }
    {
        match report {
            Report::Cells => write_cells(sink, &self.engine),
            Report::Counts => write_each_light(sink, &self.engine, &WordCounts),
            Report::Texts => self.write_texts(sink),
            Report::Stats => self.write_stats(sink),
            Report::Longest => write_longest(sink, longest(self.engine.lights())),
            Report::Record => self.write_record(sink),
        }
    }

    /// Answers a command that reports on the whole puzzle.
    pub(crate) fn tell<W: Sink>(&self, report: Report, sink: &mut W) -> Result<Ended, WriteFailed>
        ensures { AnswersQuery W.transcript W.failures self.now (queries.Tell report) result sink.old sink.new }
    {
        accepted(self.write_told(report, sink))
    }
}
