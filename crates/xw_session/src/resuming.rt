//! Replays the lines of a session file into a session.
ghost use Rattle.std.specs.Prelude.{◌≡◌, ℕ, ◌≤◌, ◌+◌, List, Result, Some, None, Ok, IfOk, IfErr, IfSome, IfNone, IsErr, OnErr};
ghost use Rattle.xw_lines.specs.Cut.{lines_of};
ghost use Rattle.xw_commands.specs.Command.{command_of};
ghost use Rattle.xw_answers.specs.declared.refusal.CommandRefusal.{CommandRefusal as SpecCommandRefusal};
ghost use Rattle.xw_session.specs.Answer.{IsExecuted};
ghost use Rattle.xw_session.specs.Resuming.{line_fault, is_memory as spec_is_memory, refused_line, IsNoted, ResumesLine, Resumes, Tells};

use crate::session::Session;
use crate::session::ending::Ended;
use crate::vec_sink::VecSink;
use std::alloc::{AllocError, Global};
use xw_answers::escape::is_spelling;
use xw_answers::refusal::{self, CommandRefusal};
use xw_commands::{Change, Command, command};
use xw_feas::edit::Refusal;
use xw_feas::searchable::Searchable;
use xw_grid::GridFault;
use xw_lines::{Sink, device};
use xw_text::lines::first_line;
use xw_words::WordFault;

/// Why a replay stops before the last line.
#[derive(Clone, Copy, Debug, PartialEq, Eq)]
pub enum Stop {
    /// The line with this number, from 1, is not a command in any session; `refusal` says why.
    NoCommand {
        number: usize,
        refusal: CommandRefusal,
    },
    /// An allocation failed.
    Memory,
}

impl From<AllocError> for Stop {
    ghost use Rattle.std.specs.Prelude.{◌≡◌};
    ghost use Rattle.xw_session.specs.declared.resuming.Stop.TheVariants.{Memory};

    ghost from_gives = { λ _ stop. stop ≡ Memory };

    fn from(_error: AllocError) -> Stop {
        Stop::Memory
    }
}

/// Returns the command of a line, or why the line is not a command in any session.
pub(crate) fn command_in(line: &[u8]) -> Result<Option<Command<'_>>, CommandRefusal>
    ensures ok { IfOk result (λ command. (command_of line.now ≡ Ok command) × (line_fault line.now ≡ None)) }
    ensures err { IfErr result (λ refusal. line_fault line.now ≡ Some refusal) }
{
    match command::parse(line) {
        Ok(Some(Command::Change(Change::Put(putting, field, spelling)))) => {
            if is_spelling(spelling.bytes()) {
                Ok(Some(Command::Change(Change::Put(putting, field, spelling))))
            } else {
                Err(CommandRefusal::Escape)
            }
        }
        Ok(command) => Ok(command),
        Err(fault) => Err(CommandRefusal::Syntax(fault)),
    }
}

/// Whether a refusal says that an allocation failed.
fn is_memory(refusal: CommandRefusal) -> bool
    ensures { result ≡ spec_is_memory refusal }
{
    matches!(
        refusal,
        CommandRefusal::Engine(Refusal::Word(WordFault::Memory) | Refusal::Grid(GridFault::Memory))
    )
}

/// Returns the report of a refused line of a file.
fn report(
    alloc: Global,
    file: &str,
    number: usize,
    refusal: CommandRefusal,
) -> Result<String, AllocError>
    ensures { IfOk result (λ text. text.bytes.items ≡ refused_line file.now number refusal) }
{
    let name = refusal::name(refusal);
    Ok(format!(in alloc; "xw: {file}: line {number}: {name}\n")?)
}

/// Executes a command. Its answer is dropped.
fn redo<F: Searchable>(
    alloc: Global,
    session: &mut Session<F>,
    command: Command<'_>,
) -> Result<Ended, AllocError>
    ensures done { IfOk result (λ ended. IsExecuted session.old command.entry ended session.new) }
    ensures memory { OnErr result ((ended : Result (Unit {0}) SpecCommandRefusal) × IsExecuted session.old command.entry ended session.new) }
{
    let mut answer = VecSink::new(alloc);
    match session.perform(command, &mut answer) {
        Ok(ended) => Ok(ended),
        Err(_) => Err(AllocError),
    }
}

/// Writes a text. Write errors are ignored.
pub fn tell<E: Sink>(errors: &mut E, text: &[u8])
    ensures { Tells E.transcript E.failures errors.old errors.new text.now }
{
    let _ = device::write_all(errors, text);
}

/// Appends the report of a line that ended in this way, if it was refused. Returns 1 if it was refused, 0 otherwise.
/// Returns `None`, and appends nothing, if the refusal or an allocation for the report says that memory is short.
pub(crate) fn note(
    alloc: Global,
    reports: &mut Vec<u8>,
    file: &str,
    number: usize,
    ended: Ended,
) -> Option<usize>
    ensures some { IfSome result (λ refused. IsNoted file.now number ended refused reports.old.items reports.new.items) }
    ensures once { IfSome result (λ refused. refused ≤ 1) }
    ensures none { IfNone result (IsErr ended) }
    ensures same { IfNone result (reports.new.items ≡ reports.old.items) }
{
    let Err(refusal) = ended else {
        return Some(0);
    };
    if is_memory(refusal) {
        return None;
    }
    let text = report(alloc, file, number, refusal).ok()?;
    match reports.extend_from_slice(text.as_bytes()) {
        Ok(()) => Some(1),
        Err(_) => None,
    }
}

/// Executes the command of a line, and appends the report of the line if the session refuses it. Returns 1 if it was
/// refused, 0 otherwise. Fails if an allocation fails.
fn resume_command<F: Searchable>(
    alloc: Global,
    session: &mut Session<F>,
    file: &str,
    number: usize,
    command: Command<'_>,
    reports: &mut Vec<u8>,
) -> Result<usize, Stop>
    ensures done { (line : List ℕ) → command_of line ≡ Ok (Some command.entry) → line_fault line ≡ None → ResumesLine file.now number session.old line result session.new reports.old.items reports.new.items }
    ensures once { IfOk result (λ refused. refused ≤ 1) }
{
    match redo(alloc, session, command) {
        Ok(ended) => match note(alloc, reports, file, number, ended) {
            Some(refused) => Ok(refused),
            None => Err(Stop::Memory),
        },
        Err(AllocError) => Err(Stop::Memory),
    }
}

/// Executes a line of a file, and appends its report if the session refuses it. Returns 1 if it was refused, 0
/// otherwise. Fails with `NoCommand` if the line is not a command, and with `Memory` if an allocation fails.
fn resume_line<F: Searchable>(
    alloc: Global,
    session: &mut Session<F>,
    file: &str,
    number: usize,
    line: &[u8],
    reports: &mut Vec<u8>,
) -> Result<usize, Stop>
    ensures done { ResumesLine file.now number session.old line.now result session.new reports.old.items reports.new.items }
    ensures once { IfOk result (λ refused. refused ≤ 1) }
{
    match command_in(line) {
        Ok(Some(command)) => resume_command(alloc, session, file, number, command, reports),
        Ok(None) => Ok(0),
        Err(refusal) => Err(Stop::NoCommand { number, refusal }),
    }
}

/// Executes the lines of a session file without writing their answers. Reports each refused line on `errors`, in the
/// form `xw: FILE: line N: NAME`. Returns the number of refused lines. Stops at the first line that is not a command,
/// and if an allocation fails. Changes in a row that need no engine update it once.
pub fn resume<F: Searchable, E: Sink>(
    alloc: Global,
    session: &mut Session<F>,
    file: &str,
    text: &[u8],
    errors: &mut E,
) -> Result<usize, Stop>
    ensures { (transcript : List ℕ) × Resumes file.now session.old (lines_of text.now) result transcript session.new × Tells E.transcript E.failures errors.old errors.new transcript }
{
    let mut rest = text;
    let mut number = 0;
    let mut refused = 0;
    let mut singly = 0;
    while !rest.is_empty() {
        if let Some(drawn) = session.redraw(file, number, rest, &mut singly) {
            tell(errors, drawn.reports.as_slice());
            number += drawn.taken;
            refused += drawn.refused;
            rest = drawn.rest;
            continue;
        }
        let (line, after) = first_line(rest);
        number += 1;
        let mut reports = Vec::new(alloc);
        refused += resume_line(alloc, session, file, number, line, &mut reports)?;
        tell(errors, reports.as_slice());
        rest = after;
    }
    Ok(refused)
}
