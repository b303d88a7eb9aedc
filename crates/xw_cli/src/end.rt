//! Ends a session: saves it, ends its journal, and writes its puzzle.
ghost use Rattle.std.specs.Prelude.{nat_lt, IfErr, OnOk};
ghost use Rattle.xw_session.specs.Opening.{puzzle_of};
ghost use Rattle.xw_desk.specs.Apart.{IsNotApart};
ghost use Rattle.xw_cli.specs.Performed.{Closes, Ends, EndsJournal, IsNotPut, IsNotSaved, IsPut, IsSaved, StillPuts};
ghost use Rattle.xw_cli_files.specs.Put.{IsNotPutOver, IsPutOver};

use crate::journal::end_journal;
use crate::session_files::Refusals;
use xw_arguments::SessionFiles;
use xw_cli_files::put::{is_kept, of_session, put_puzzle};
use xw_cli_files::saved::{leave_unsaved, replace_saved};
use xw_desk::apart::keep_apart;
use xw_desk::desk::Desk;
use xw_desk::failure::{ExitStatus, Failure};
use xw_desk::outlet::Outlet;
use xw_disk::Disk;
use xw_feas::feasible::Feasible;
use xw_journal::file::saved;
use xw_lines::{Sink, Source};
use xw_session::Session;

/// Ends a session that answered its input or failed: saves it in any case, and then, unless it failed, ends its
/// journal and writes its puzzle. If it cannot be saved, this is reported, the puzzle is written, and the journal stays.
/// `refused` are the lines of the file to resume or of the journal that were refused.
pub fn end_session<'a, F: Feasible, D: Disk, I: Source, O: Outlet, E: Sink>(
    desk: &mut Desk<D, I, O, E>,
    session: &Session<F>,
    named: SessionFiles<'a>,
    refused: Refusals,
    answered: Result<ExitStatus, Failure<'a>>,
) -> Result<ExitStatus, Failure<'a>>
    ensures { Ends named.entry refused session.now answered.entry result desk.old desk.new }
{
    // Two names may lead to one file by now. This is tested before a file is replaced.
    let apart = keep_apart(&desk.disk, named);
    let saved = write_saved(desk, session, named, refused);
    let status = answered?;
    match saved {
        Ok(()) => close(desk, session, named, refused.count, status, apart),
        Err(failure) => Ok(put_unsaved(desk, session, named, &failure, apart)),
    }
}

/// Reports that a session is not saved, and writes its puzzle all the same. If it cannot be written, reports this too.
/// Returns the status of the first failure.
fn put_unsaved<'a, F: Feasible, D: Disk, I: Source, O: Outlet, E: Sink>(
    desk: &mut Desk<D, I, O, E>,
    session: &Session<F>,
    named: SessionFiles<'a>,
    failure: &Failure<'_>,
    apart: Result<(), Failure<'a>>,
) -> ExitStatus
    requires { IfErr apart (λ failure. IsNotApart named failure) }
    ensures { StillPuts named.entry session.now failure.now result desk.old desk.new }
{
    let status = desk.tell(failure);
    let Some(_) = named.to_file else {
        return status;
    };
    if let Err(other) = write_puzzle_if(desk, session, named, apart) {
        let _ = desk.tell(&other);
    }
    status
}

/// Ends the journal of a session that was saved, and writes its puzzle.
fn close<'a, F: Feasible, D: Disk, I: Source, O: Outlet, E: Sink>(
    desk: &mut Desk<D, I, O, E>,
    session: &Session<F>,
    named: SessionFiles<'a>,
    refused: usize,
    status: ExitStatus,
    apart: Result<(), Failure<'a>>,
) -> Result<ExitStatus, Failure<'a>>
    requires { IfErr apart (λ failure. IsNotApart named failure) }
    ensures { Closes named.entry refused session.now status result desk.old desk.new }
{
    end_journal_if(desk, named.journal_file, refused, session)?;
    write_puzzle_if(desk, session, named, apart)?;
    Ok(status)
}

/// Ends the journal of a session if it has one.
fn end_journal_if<'a, F: Feasible, D: Disk, I: Source, O: Outlet, E: Sink>(
    desk: &mut Desk<D, I, O, E>,
    journal: Option<&'a str>,
    refused: usize,
    session: &Session<F>,
) -> Result<(), Failure<'a>>
    ensures { EndsJournal journal.entry refused session.now result desk.old desk.new }
{
    match journal {
        Some(file) => end_journal(desk, file, refused, session),
        None => Ok(()),
    }
}

/// Writes the session to a file if one is given. If this fails, leaves it in another file, unless an allocation failed.
fn write_saved<'a, F: Feasible, D: Disk, I: Source, O: Outlet, E: Sink>(
    desk: &mut Desk<D, I, O, E>,
    session: &Session<F>,
    named: SessionFiles<'a>,
    refused: Refusals,
) -> Result<(), Failure<'a>>
    ensures ok { OnOk result (IsSaved named.entry.save_file (nat_lt 0 refused.count) session.now desk.old desk.new) }
    ensures err { IfErr result (λ failure. IsNotSaved named.entry (nat_lt 0 refused.count) session.now failure desk.old desk.new) }
{
    let Some(file) = named.save_file else {
        return Ok(());
    };
    let bytes = saved(desk.alloc, session)?;
    let text = bytes.as_slice();
    match replace_saved(desk, file, named, refused.count > 0, text) {
        Ok(()) => Ok(()),
        Err(failure) => Err(leave_unsaved(desk, file, named.to_file, text, failure)),
    }
}

/// Writes the puzzle of a session that ended to a file if one is given. Fails if the files of the call were not apart, or
/// if two have become one since the session began.
fn write_puzzle_if<'a, F: Feasible, D: Disk, I: Source, O: Outlet, E: Sink>(
    desk: &mut Desk<D, I, O, E>,
    session: &Session<F>,
    named: SessionFiles<'a>,
    apart: Result<(), Failure<'a>>,
) -> Result<(), Failure<'a>>
    requires { IfErr apart (λ failure. IsNotApart named failure) }
    ensures ok { OnOk result (IsPut named.entry.to_file (puzzle_of session.now) desk.old desk.new) }
    ensures err { IfErr result (λ failure. IsNotPut named.entry (puzzle_of session.now) failure desk.old desk.new) }
{
    apart?;
    let Some(file) = named.to_file else {
        return Ok(());
    };
    keep_apart(&desk.disk, named)?;
    match put(desk, file, named.save_file, session) {
        Ok(()) => Ok(()),
        Err(failure) => Err(of_session(failure, is_kept(named))),
    }
}

/// Writes the puzzle of a session to a file.
fn put<'a, F: Feasible, D: Disk, I: Source, O: Outlet, E: Sink>(
    desk: &mut Desk<D, I, O, E>,
    file: &'a str,
    apart: Option<&str>,
    session: &Session<F>,
) -> Result<(), Failure<'a>>
    ensures ok { OnOk result (IsPutOver file.entry.now (puzzle_of session.now) desk.old desk.new) }
    ensures err { IfErr result (λ failure. IsNotPutOver file.entry.now (puzzle_of session.now) failure desk.old desk.new) }
{
    match session.puzzle() {
        Ok(puzzle) => put_puzzle(desk, file, apart, &puzzle),
        Err(_) => Err(Failure::Memory),
    }
}
