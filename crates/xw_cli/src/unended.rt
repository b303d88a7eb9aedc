//! What follows a last line of the input that has no LF: it may have been cut, so the session before it is kept.
ghost use Rattle.std.specs.Prelude.{◌≡◌, option_map};
ghost use Rattle.xw_cli.specs.Performed.{EndsAfter};
ghost use Rattle.xw_cli.specs.Unended.{KeepsBefore, record_file, unended_lines};

use crate::end::end_session;
use crate::session_files::Refusals;
use xw_arguments::SessionFiles;
use xw_cli_files::before::keep_beside;
use xw_desk::desk::Desk;
use xw_desk::failure::{ExitStatus, Failure};
use xw_desk::outlet::Outlet;
use xw_disk::Disk;
use xw_feas::feasible::Feasible;
use xw_journal::file::saved;
use xw_lines::{Sink, Source};
use xw_session::Session;

/// What is reported of a last line without an LF.
const UNENDED: &[u8] = b"xw: the last line had no end\n";

/// What is reported of it if failures are explained.
const EXPLAINED: &[u8] =
    b"xw: the last line had no end\nxw: it was run as it stands, but its end may be missing\n";

/// Ends a session as `end_session` does. Then, if the last line had no LF and changed the session, reports this, and keeps
/// the session before it, of which `before` is the file.
pub fn end_answered<'a, F: Feasible, D: Disk, I: Source, O: Outlet, E: Sink>(
    desk: &mut Desk<D, I, O, E>,
    session: &Session<F>,
    named: SessionFiles<'a>,
    refused: Refusals,
    answered: Result<ExitStatus, Failure<'a>>,
    before: Option<Vec<u8>>,
) -> Result<ExitStatus, Failure<'a>>
    ensures { EndsAfter named.entry refused (option_map (λ bytes. bytes.items) before) session.now answered.entry result desk.old desk.new }
{
    let ended = end_session(desk, session, named, refused, answered);
    let kept = keep_before(desk, session, named, before);
    let status = ended?;
    kept?;
    Ok(status)
}

/// Reports a last line without an LF that changed the session, and keeps the session before it.
fn keep_before<'a, F: Feasible, D: Disk, I: Source, O: Outlet, E: Sink>(
    desk: &mut Desk<D, I, O, E>,
    session: &Session<F>,
    named: SessionFiles<'a>,
    before: Option<Vec<u8>>,
) -> Result<(), Failure<'a>>
    ensures { KeepsBefore named.entry (option_map (λ bytes. bytes.items) before) session.now result desk.old desk.new }
{
    let Some(before) = before else {
        return Ok(());
    };
    let after = saved(desk.alloc, session)?;
    if before.as_slice() == after.as_slice() {
        return Ok(());
    }
    desk.report(unended(desk.explains));
    keep_beside(desk, record_file(named), named.to_file, before.as_slice())
}

/// Returns what is reported of a last line without an LF.
fn unended(explains: bool) -> &'static [u8]
    ensures { result.now ≡ unended_lines explains }
{
    if explains { EXPLAINED } else { UNENDED }
}

/// Returns the file that has the session after the last line.
fn record_file<'a>(named: SessionFiles<'a>) -> Option<&'a str>
    ensures { result ≡ record_file named.entry }
{
    match named.save_file {
        Some(file) => Some(file),
        None => named.journal_file,
    }
}
