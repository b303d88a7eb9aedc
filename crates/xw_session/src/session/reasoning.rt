//! Answers `why`.
ghost use Rattle.std.specs.Prelude.{◌≡◌, IfOk, IfErr};
ghost use Rattle.xw_fill.specs.Reason.{entry_in, IsReasonOf, IsRefused};
ghost use Rattle.xw_lines.specs.Sends.{Sends};
ghost use Rattle.xw_session.specs.Reply.{name_of_light};
ghost use Rattle.xw_session.specs.Why.{entry_lines, refusal_without_reason as spec_refusal_without_reason};
ghost use Rattle.xw_session.specs.State.{SessionState};
ghost use Rattle.xw_session.specs.Answer.{AnswersQuery, why_reply, lines_in, ended_by};

use crate::lookup::light_name;
use crate::session::Session;
use crate::session::ending::{Ended, accepted};
use std::alloc::Global;
use xw_answers::refusal::CommandRefusal;
use xw_answers::text;
use xw_commands::command::LightArg;
use xw_feas::edit::Refusal;
use xw_feas::feasible::Feasible;
use xw_fill::{NoReason, reason};
use xw_grid::{Grid, GridFault};
use xw_letters::Letter;
use xw_lines::device::{Sink, WriteFailed};

/// Returns the entry at an index, or none past the end.
fn entry_at(entries: &[Option<Letter>], index: usize) -> Option<Letter>
    ensures { result ≡ entry_in entries.now index }
{
    if index < entries.len() {
        entries[index]
    } else {
        None
    }
}

/// Writes each cell that has an entry on a line, in reading order.
fn write_entries<W: Sink>(
    sink: &mut W,
    grid: &Grid,
    entries: &[Option<Letter>],
) -> Result<(), WriteFailed>
    ensures { Sends W.transcript W.failures sink.old sink.new result (entry_lines grid.now entries.now) }
{
    for index in 0..grid.size() {
        text::write_entry(sink, grid.cell_at(index), entry_at(entries, index))?;
    }
    Ok(())
}

/// Returns the refusal for a search that found no reason.
fn refusal_without_reason(refusal: NoReason) -> CommandRefusal
    ensures { result ≡ spec_refusal_without_reason refusal }
{
    match refusal {
        NoReason::NoLight => CommandRefusal::Engine(Refusal::NoLight),
        NoReason::Alive => CommandRefusal::Alive,
        NoReason::Memory => CommandRefusal::Engine(Refusal::Grid(GridFault::Memory)),
    }
}

/// Writes the reason that a search found.
fn write_reason<W: Sink>(
    sink: &mut W,
    grid: &Grid,
    found: Result<Vec<Option<Letter>>, NoReason>,
) -> Result<Ended, WriteFailed>
    ensures sends { (state : SessionState) → Sends W.transcript W.failures sink.old sink.new result (lines_in (why_reply grid.now found state)) }
    ensures ends { (state : SessionState) → IfOk result (λ ended. ended ≡ ended_by (why_reply grid.now found state)) }
{
    match found {
        Ok(entries) => accepted(write_entries(sink, grid, &entries)),
        Err(refusal) => Ok(Err(refusal_without_reason(refusal))),
    }
}

/// Finds a reason why the light named in a command has no feasible word.
fn reason_for<E: Feasible>(
    alloc: Global,
    engine: &mut E,
    named: LightArg,
) -> Result<Vec<Option<Letter>>, NoReason>
    ensures ok { IfOk result (λ entries. IsReasonOf (E.state engine.old) (name_of_light named) entries.items) }
    ensures refused { IfErr result (IsRefused (E.state engine.old) (name_of_light named)) }
    ensures unchanged { E.state engine.new ≡ E.state engine.old }
{
    engine.grid().well_formed();
    match light_name(named) {
        Some(name) => reason(alloc, engine, name),
        None => Err(NoReason::NoLight),
    }
}

impl<E: Feasible> Session<E> {
    ghost use Rattle.xw_commands.specs.declared.query.Query.TheVariants as queries;

    /// Answers `why`: the entries of a reason why a light has no feasible word.
    pub(crate) fn answer_why<W: Sink>(
        &mut self,
        named: LightArg,
        sink: &mut W,
    ) -> Result<Ended, WriteFailed>
        ensures answer { AnswersQuery W.transcript W.failures self.old (queries.Why named) result sink.old sink.new }
        ensures unchanged { self.new ≡ self.old }
    {
        let found = reason_for(self.alloc, &mut self.engine, named);
        write_reason(sink, self.engine.grid(), found)
    }
}
