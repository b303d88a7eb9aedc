//! Answers the input of a call while each change is journaled.
ghost use Rattle.std.specs.Prelude.{◌≡◌, [], Some, None, IfOk, IfErr};
ghost use Rattle.xw_cli.specs.Journals.{HasReplayed, IsUnreplayed};
ghost use Rattle.xw_cli.specs.Performed.{IsJournalEnd, IsJournalRun, RunsOrFails};

use crate::answer::greet;
use crate::input::answer_input;
use crate::journal::resume_journal;
use crate::session_files::Refusals;
use crate::unended::end_answered;
use xw_arguments::SessionFiles;
use xw_cli_files::journal_file::close_journal;
use xw_desk::desk::Desk;
use xw_desk::failure::{ExitStatus, Failure, run_status};
use xw_desk::outlet::Outlet;
use xw_disk::Disk;
use xw_feas::searchable::Searchable;
use xw_journal::{Cause, JournaledSession};
use xw_lines::{RunEnd, Sink, Source};
use xw_session::Session;

/// Replays the journal, answers the input while each change is journaled, and writes the files of the session.
pub fn answer_journaled<'a, F: Searchable, D: Disk, I: Source, O: Outlet, E: Sink>(
    desk: &mut Desk<D, I, O, E>,
    session: Session<F>,
    file: &'a str,
    named: SessionFiles<'a>,
) -> Result<ExitStatus, Failure<'a>>
    ensures { RunsOrFails (Some file.entry) named.entry session result desk.old desk.new }
{
    let (journaled, before) = begin(desk, session, file, named.is_synced)?;
    converse(desk, journaled, file, named, before)
}

/// Replays the journal, and joins it with the session. Returns the lines refused.
fn begin<'a, F: Searchable, D: Disk, I: Source, O: Outlet, E: Sink>(
    desk: &mut Desk<D, I, O, E>,
    mut session: Session<F>,
    file: &'a str,
    is_synced: bool,
) -> Result<(JournaledSession<F, D::Journal>, Refusals), Failure<'a>>
    ensures ok { IfOk result (λ begun. HasReplayed file.entry.now is_synced session begun.1 begun.0.state desk.old desk.new) }
    ensures new { IfOk result (λ begun. begun.0 ≡ record { state = begun.0.state; journal = []; failures = 0; cause = None }) }
    ensures err { IfErr result (λ failure. IsUnreplayed file.entry.now is_synced session failure desk.old desk.new) }
{
    let (journal, before) = resume_journal(desk, file, is_synced, &mut session)?;
    let journaled = JournaledSession::new(desk.alloc, session, journal)?;
    Ok((journaled, before))
}

/// Greets, answers the input while each change is journaled, and writes the files of the session. `before` are the lines
/// refused earlier.
fn converse<'a, F: Searchable, D: Disk, I: Source, O: Outlet, E: Sink>(
    desk: &mut Desk<D, I, O, E>,
    mut journaled: JournaledSession<F, D::Journal>,
    file: &'a str,
    named: SessionFiles<'a>,
    before: Refusals,
) -> Result<ExitStatus, Failure<'a>>
    ensures { IsJournalRun file.entry.now named.entry before journaled result desk.old desk.new }
{
    greet(desk, true);
    let input = answer_input(desk, &mut journaled);
    let cause = journaled.cause();
    let (session, journal) = journaled.into_parts();
    close_journal(desk, file, journal);
    let answered = journal_status(input.end, before.count, cause, file, desk.disk.is_lost());
    end_answered(desk, &session, named, before, answered, input.before)
}

/// Returns the outcome of a session with a journal. `before` is the number of lines refused earlier.
fn journal_status<'a>(
    end: RunEnd,
    before: usize,
    cause: Option<Cause>,
    file: &'a str,
    is_lost: bool,
) -> Result<ExitStatus, Failure<'a>>
    ensures { IsJournalEnd file.entry.now before end cause result }
{
    match (end, cause) {
        (RunEnd::Stopped, Some(Cause::Memory)) => Err(Failure::Memory),
        (RunEnd::Stopped, _) if is_lost => Err(Failure::Replaced { file }),
        (RunEnd::Stopped, _) => Err(Failure::CannotWrite { file }),
        _ => run_status(end, before),
    }
}
