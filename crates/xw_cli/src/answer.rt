//! Answers the input of a call: resumes the commands that it names, greets who types, answers each line, and ends the
//! session.
ghost use Rattle.std.specs.Prelude.{◌≡◌, IfErr, IfOk, None};
ghost use Rattle.xw_desk.specs.Desk.{ReportsIf};
ghost use Rattle.xw_desk.specs.Files.{IfNamed};
ghost use Rattle.xw_cli.specs.Performed.{greeting, HasResumed, IsSessionRun, IsUnresumed, RunsOrFails};

use crate::input::answer_input;
use crate::session_files::{Refusals, resume_file};
use crate::unended::end_answered;
use xw_arguments::SessionFiles;
use xw_desk::desk::Desk;
use xw_desk::failure::{ExitStatus, Failure, run_status};
use xw_desk::outlet::Outlet;
use xw_disk::Disk;
use xw_feas::searchable::Searchable;
use xw_lines::{Sink, Source};
use xw_session::Session;

/// The line that greets who types commands.
const KEPT: &[u8] =
    b"xw: type one command per line; help lists them, and Ctrl D ends the session\n";

/// The same, with a line that says that no file keeps the session.
const UNKEPT: &[u8] =
    b"xw: type one command per line; help lists them, and Ctrl D ends the session\nxw: the session is not kept; --save or --journal keeps it\n";

/// Replays the commands to start with, answers the input, and writes the files of the session.
pub fn answer<'a, F: Searchable, D: Disk, I: Source, O: Outlet, E: Sink>(
    desk: &mut Desk<D, I, O, E>,
    mut session: Session<F>,
    named: SessionFiles<'a>,
) -> Result<ExitStatus, Failure<'a>>
    ensures { RunsOrFails None named.entry session result desk.old desk.new }
{
    let before = resume(desk, &mut session, named.resume_file)?;
    converse(desk, session, named, before)
}

/// Replays the commands of a file if one is given, and returns the refused lines.
fn resume<'a, F: Searchable, D: Disk, I: Source, O: Outlet, E: Sink>(
    desk: &mut Desk<D, I, O, E>,
    session: &mut Session<F>,
    named: Option<&'a str>,
) -> Result<Refusals, Failure<'a>>
    ensures ok { IfOk result (λ refused. HasResumed named.entry session.old refused session.new desk.old desk.new) }
    ensures err { IfErr result (λ failure. IfNamed named.entry (λ name. IsUnresumed name session.old failure desk.old desk.new)) }
{
    match named {
        Some(file) => resume_file(desk, file, session),
        None => Ok(Refusals::NONE),
    }
}

/// Greets, answers the input, and writes the files of the session. `before` are the lines refused earlier.
fn converse<'a, F: Searchable, D: Disk, I: Source, O: Outlet, E: Sink>(
    desk: &mut Desk<D, I, O, E>,
    mut session: Session<F>,
    named: SessionFiles<'a>,
    before: Refusals,
) -> Result<ExitStatus, Failure<'a>>
    ensures { IsSessionRun named.entry before session result desk.old desk.new }
{
    greet(desk, named.save_file.is_some());
    let input = answer_input(desk, &mut session);
    let answered = run_status(input.end, before.count);
    end_answered(desk, &session, named, before, answered, input.before)
}

/// Says how to type commands and how to end, and whether the session is kept, if lines come from a terminal.
pub fn greet<D: Disk, I: Source, O: Outlet, E: Sink>(desk: &mut Desk<D, I, O, E>, is_kept: bool)
    ensures { ReportsIf desk.old.is_dialogue (greeting is_kept) desk.old desk.new }
{
    if is_dialogue(desk) {
        desk.report(greeting(is_kept));
    }
}

/// Returns what greets who types commands.
fn greeting(is_kept: bool) -> &'static [u8]
    ensures { result.now ≡ greeting is_kept }
{
    if is_kept { KEPT } else { UNKEPT }
}

/// Returns whether lines come from a terminal and messages go to one.
fn is_dialogue<D: Disk, I: Source, O: Outlet, E: Sink>(desk: &Desk<D, I, O, E>) -> bool
    ensures { result ≡ desk.now.is_dialogue }
{
    desk.is_dialogue
}
