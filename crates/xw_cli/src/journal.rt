//! The journal of a session: its opening, its replay and its end.
ghost use Rattle.std.specs.Prelude.{◌≡◌, ◌⊎◌, [], IfOk, IfErr, OnOk};
ghost use Rattle.xw_journal.specs.File.{form_of as spec_form_of};
ghost use Rattle.xw_journal.specs.declared.file.Form.TheVariants as forms;
ghost use Rattle.xw_disk.specs.Disk.{started};
ghost use Rattle.xw_desk.specs.declared.failure.Failure.TheVariants.{Memory};
ghost use Rattle.xw_cli.specs.Journals.{drops, Begins, HasReplayed, IsEnded, IsNoJournal, IsNotEnded, IsUnended, IsUnreplayed, Replaces};

use crate::mark::unmarked;
use crate::session_files::{Refusals, resume_text};
use xw_cli_files::journal_file::{
    begin_journal, cut_fault, find_journal, is_comments, open_journal, replace_journal,
};
use xw_cli_files::replay_reports::tell_cut_if;
use xw_desk::desk::Desk;
use xw_desk::failure::Failure;
use xw_desk::files::line_fault;
use xw_desk::outlet::Outlet;
use xw_disk::{Disk, Start};
use xw_feas::feasible::Feasible;
use xw_feas::searchable::Searchable;
use xw_journal::file::{FIRST_LINE, Form, form_of, is_cut, kept, saved};
use xw_lines::{Sink, Source};
use xw_session::Session;

/// Opens the journal, or creates it, replays the lines that count, and cuts it to these. Returns the journal, which
/// then has the first line, and the refused lines. If a line is no command, or if a file without the first line has a cut
/// last line or only comments, the file stays as it was.
pub fn resume_journal<'a, F: Searchable, D: Disk, I: Source, O: Outlet, E: Sink>(
    desk: &mut Desk<D, I, O, E>,
    file: &'a str,
    is_synced: bool,
    session: &mut Session<F>,
) -> Result<(D::Journal, Refusals), Failure<'a>>
    ensures ok { IfOk result (λ resumed. HasReplayed file.entry.now is_synced session.old resumed.1 session.new desk.old desk.new) }
    ensures transcript { IfOk result (λ resumed. D.Journal.transcript resumed.0 ≡ []) }
    ensures failures { IfOk result (λ resumed. D.Journal.failures resumed.0 ≡ 0) }
    ensures err { IfErr result (λ failure. IsUnreplayed file.entry.now is_synced session.old failure desk.old desk.new) }
{
    let (opened, bytes) = open_journal(desk, file)?;
    let text = unmarked(bytes.as_slice());
    let refused = resume_text(desk, file, session, kept(text))?;
    let start = start_of(file, text, text.len() < bytes.len())?;
    let journal = begin_journal(desk, file, opened, start, is_synced)?;
    tell_cut_if(desk, file, drops(text))?;
    Ok((journal, refused))
}

/// Returns how a file with these bytes becomes a journal that lines can be appended to. A byte order mark before them is
/// dropped.
fn start_of<'a, 'b>(
    file: &'a str,
    bytes: &'b [u8],
    is_marked: bool,
) -> Result<Start<'b>, Failure<'a>>
    ensures ok { IfOk result (λ start. Begins (spec_form_of bytes.entry.now) bytes.entry.now (started start)) }
    ensures err { IfErr result (λ failure. IsNoJournal file.entry.now bytes.entry.now failure) }
{
    match form_of(bytes) {
        Form::Begun => Ok(Start::Anew(FIRST_LINE)),
        Form::Named if is_marked => Ok(Start::Put(&[], kept(bytes))),
        Form::Named => Ok(Start::Cut(kept(bytes))),
        Form::Whole if is_comments(bytes) => Err(line_fault(file, 1, "Command")),
        Form::Whole => Ok(Start::Put(FIRST_LINE, bytes)),
        Form::Cut => Err(cut_fault(file, bytes)),
    }
}

/// Returns whether some of these bytes are dropped when a journal begins with them.
fn drops(bytes: &[u8]) -> bool
    ensures { result ≡ drops bytes.now }
{
    match form_of(bytes) {
        Form::Begun => bytes.len() > 0,
        _ => is_cut(bytes),
    }
}

/// Replaces a journal by the record of its session, unless its name no longer leads to it. `refused` is the number of
/// its lines that were refused: if there are any, the record lacks them, and the journal stays as it is.
pub fn end_journal<'a, F: Feasible, D: Disk, I: Source, O: Outlet, E: Sink>(
    desk: &mut Desk<D, I, O, E>,
    file: &'a str,
    refused: usize,
    session: &Session<F>,
) -> Result<(), Failure<'a>>
    ensures ok { OnOk result (IsEnded file.entry.now refused session.now desk.old desk.new) }
    ensures err { IfErr result (λ failure. IsUnended file.entry.now session.now failure desk.old desk.new) }
{
    find_journal(desk, file)?;
    replace_if(desk, file, refused, session)
}

/// Replaces a journal by the record of its session, unless lines of it were refused.
fn replace_if<'a, F: Feasible, D: Disk, I: Source, O: Outlet, E: Sink>(
    desk: &mut Desk<D, I, O, E>,
    file: &'a str,
    refused: usize,
    session: &Session<F>,
) -> Result<(), Failure<'a>>
    ensures ok { OnOk result (Replaces file.entry.now refused session.now desk.old desk.new) }
    ensures err { IfErr result (λ failure. ((failure ≡ Memory) × (desk.new ≡ desk.old)) ⊎ IsNotEnded file.entry.now session.now failure desk.old desk.new) }
{
    if refused > 0 {
        return Ok(());
    }
    let bytes = saved(desk.alloc, session)?;
    replace_journal(desk, file, bytes.as_slice())
}
