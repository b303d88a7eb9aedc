//! Writes the text of a line to a journal.
ghost use Rattle.std.specs.Prelude.{◌≡◌, ℕ, List, [], ◌∷◌, ◌++◌, false, true, ◌≢◌, if◌then◌else◌, option_map, OnErr};
ghost use Rattle.xw_grid.specs.Grid.{Grid as SpecGrid, entry};
ghost use Rattle.xw_commands.specs.Command.{command_of};
ghost use Rattle.xw_lines.specs.Cut.{held};
ghost use Rattle.xw_lines.specs.Device.{flushed};
ghost use Rattle.xw_lines.specs.Sends.{Sends};
ghost use Rattle.xw_answers.specs.Record.{command_lines, letter_commands};
ghost use Rattle.xw_journal.specs.Group.{grouped};
ghost use Rattle.xw_journal.specs.Journal.{entered_commands, written_of as spec_written_of, events_of, journal_events, HasEntriesBefore, WereKept};

use crate::entries::Entries;
use crate::group::{BEGIN, END};
use xw_answers::record::write_letter;
use xw_commands::Command;
use xw_commands::command::SyntaxFault;
use xw_grid::{Cell, Grid};
use xw_lines::device::{self, Sink, WriteFailed};
use xw_lines::outcome::Step;

/// What is written of an accepted line.
#[derive(Clone, Copy, Debug, PartialEq, Eq)]
pub enum Written {
    /// Nothing, since the line changes nothing.
    Nothing,
    /// The line itself.
    Line,
    /// The letters that a search entered.
    Letters,
}

/// Returns what is written of a parsed line, if it is accepted.
pub fn written_of(parsed: &Result<Option<Command<'_>>, SyntaxFault>) -> Written
    ensures { result ≡ spec_written_of parsed.now }
{
    match parsed {
        Ok(Some(Command::Change(_))) => Written::Line,
        Ok(Some(Command::Search(_))) => Written::Letters,
        Ok(Some(Command::Ask(_)) | None) | Err(_) => Written::Nothing,
    }
}

/// Writes the command that enters the letter of a cell, unless the cell has the entry that it had before.
fn write_unless<J: Sink>(
    journal: &mut J,
    is_same: bool,
    grid: &Grid,
    cell: Cell,
) -> Result<(), WriteFailed>
    ensures { Sends J.transcript J.failures journal.old journal.new result (command_lines (if is_same then [] else letter_commands cell (entry grid.now cell))) }
{
    if is_same {
        return Ok(());
    }
    write_letter(journal, grid, cell)
}

/// Writes the letters that are new in a grid, as commands.
fn write_entered<J: Sink>(journal: &mut J, before: &Entries, grid: &Grid) -> Result<(), WriteFailed>
    ensures { (was : SpecGrid) → HasEntriesBefore was grid.now before.now → Sends J.transcript J.failures journal.old journal.new result (command_lines (entered_commands was grid.now)) }
{
    for index in 0..grid.size() {
        let cell = grid.cell_at(index);
        write_unless(journal, before.has(index, grid.entry(cell)), grid, cell)?;
    }
    Ok(())
}

/// Whether a grid has new letters.
fn has_entered(before: &Entries, grid: &Grid) -> bool
    ensures none { (was : SpecGrid) → HasEntriesBefore was grid.now before.now → result ≡ false → entered_commands was grid.now ≡ [] }
    ensures some { (was : SpecGrid) → HasEntriesBefore was grid.now before.now → result ≡ true → entered_commands was grid.now ≢ [] }
{
    for index in 0..grid.size() {
        let entry = grid.entry(grid.cell_at(index));
        if entry.is_some() && !before.has(index, entry) {
            return true;
        }
    }
    false
}

/// Writes the letters that are new in a grid, as a group of commands, if there are any.
fn write_group<J: Sink>(journal: &mut J, before: &Entries, grid: &Grid) -> Result<(), WriteFailed>
    ensures { (was : SpecGrid) → HasEntriesBefore was grid.now before.now → Sends J.transcript J.failures journal.old journal.new result (grouped (entered_commands was grid.now)) }
{
    if !has_entered(before, grid) {
        return Ok(());
    }
    write_line(journal, BEGIN)?;
    write_entered(journal, before, grid)?;
    write_line(journal, END)
}

fn flush<J: Sink>(journal: &mut J) -> Result<(), WriteFailed>
    ensures { Sends J.transcript J.failures journal.old journal.new result (flushed ∷ []) }
{
    match journal.flush() {
        Ok(()) => Ok(()),
        Err(_) => Err(WriteFailed),
    }
}

/// Writes a line as it is, and an LF.
fn write_line<J: Sink>(journal: &mut J, line: &[u8]) -> Result<(), WriteFailed>
    ensures { Sends J.transcript J.failures journal.old journal.new result (line.now ++ 10 ∷ []) }
{
    device::write_all(journal, line)?;
    device::write_all(journal, b"\n")
}

/// Writes the text of an accepted line to the journal, and flushes it, unless the line changes nothing.
fn keep<J: Sink>(
    journal: &mut J,
    written: Written,
    line: &[u8],
    before: &Entries,
    grid: &Grid,
) -> Result<(), WriteFailed>
    ensures { (was : SpecGrid) → WereKept written was grid.now before.now → Sends J.transcript J.failures journal.old journal.new result (events_of written line.now was grid.now) }
{
    match written {
        Written::Nothing => return Ok(()),
        Written::Line => write_line(journal, line)?,
        Written::Letters => write_group(journal, before, grid)?,
    }
    flush(journal)
}

/// Writes the text of a line to the journal if the line was accepted.
pub fn keep_accepted<J: Sink>(
    journal: &mut J,
    step: Step,
    written: Written,
    line: Option<&[u8]>,
    before: &Entries,
    grid: &Grid,
) -> Result<(), WriteFailed>
    ensures events { (was : SpecGrid) (whole : List ℕ) → held whole ≡ option_map (λ bytes. bytes.now) line.entry
        → written ≡ spec_written_of (command_of whole) → (written ≡ Written.Letters → step ≡ Step.Accepted → HasEntriesBefore was grid.now before.now)
        → Sends J.transcript J.failures journal.old journal.new result (journal_events was whole step grid.now) }
    ensures accepted { OnErr result (step ≡ Step.Accepted) }
{
    match (step, line) {
        (Step::Accepted, Some(line)) => keep(journal, written, line, before, grid),
        _ => Ok(()),
    }
}
