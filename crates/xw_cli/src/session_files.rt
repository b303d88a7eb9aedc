//! The files of commands that a session replays.
ghost use Rattle.xw_lines.specs.Cut.{lines_of};
ghost use Rattle.xw_cli.specs.SessionFiles.{IsResumed, IsStopped, Replays, TellsReplay};

use crate::mark::unmarked;
use xw_answers::refusal;
use xw_cli_files::replay_reports::{explained, tell_cut_if};
use xw_desk::desk::Desk;
use xw_desk::failure::Failure;
use xw_desk::files::line_fault;
use xw_desk::outlet::Outlet;
use xw_disk::Disk;
use xw_feas::searchable::Searchable;
use xw_journal::file::{is_cut, kept};
use xw_lines::{Sink, Source};
use xw_session::Session;
use xw_session::resuming::{self, Stop};
use xw_session::vec_sink::VecSink;

/// The lines that a replay refused.
#[derive(Clone, Copy, Debug, PartialEq, Eq)]
pub struct Refusals {
    /// How many there were. The record of the session lacks what they say, also a word that the list has.
    pub count: usize,
}

impl Refusals {
    /// No lines.
    pub const NONE: Refusals = Refusals { count: 0 };
}

/// Replays the commands of a file that count, and returns the refused lines. Reports first if others were cut.
pub fn resume_file<'a, F: Searchable, D: Disk, I: Source, O: Outlet, E: Sink>(
    desk: &mut Desk<D, I, O, E>,
    file: &'a str,
    session: &mut Session<F>,
) -> Result<Refusals, Failure<'a>>
    ensures { IsResumed file.entry.now session.old session.new result desk.old desk.new }
{
    let text = desk.read_file(file)?;
    let bytes = unmarked(text.as_slice());
    tell_cut_if(desk, file, is_cut(bytes))?;
    resume_text(desk, file, session, kept(bytes))
}

/// Replays commands, and returns the refused lines, which it reports. `file` is named in reports.
pub fn resume_text<'a, F: Searchable, D: Disk, I: Source, O: Outlet, E: Sink>(
    desk: &mut Desk<D, I, O, E>,
    file: &'a str,
    session: &mut Session<F>,
    text: &[u8],
) -> Result<Refusals, Failure<'a>>
    ensures { Replays file.entry.now (lines_of text.now) session.old session.new result desk.old desk.new }
{
    let mut reports = VecSink::new(desk.alloc);
    let ended = resuming::resume(desk.alloc, session, file, text, &mut reports);
    tell_replayed(desk, file, ended, &reports)
}

/// Prints the reports of a replay, and returns the refused lines. If failures are explained, a sentence follows the report of
/// a word that the list has. Fails if the text could not be allocated; then nothing is printed.
fn tell_replayed<'a, D: Disk, I: Source, O: Outlet, E: Sink>(
    desk: &mut Desk<D, I, O, E>,
    file: &'a str,
    ended: Result<usize, Stop>,
    reports: &VecSink,
) -> Result<Refusals, Failure<'a>>
    ensures { TellsReplay file.entry.now reports.now.failures reports.now.bytes.items ended result desk.old desk.new }
{
    if reports.failures() > 0 {
        return Err(Failure::Memory);
    }
    let text = explained(desk.alloc, reports.bytes(), desk.explains)?;
    desk.report(text.as_slice());
    match ended {
        Ok(count) => Ok(Refusals { count }),
        Err(stop) => Err(stopped(file, stop)),
    }
}

/// The failure for a replay that stopped.
fn stopped<'a>(file: &'a str, stop: Stop) -> Failure<'a>
    ensures { IsStopped file.entry.now stop result }
{
    match stop {
        Stop::NoCommand { number, refusal } => { line_fault(file, number, refusal::name(refusal)) }
        Stop::Memory => Failure::Memory,
    }
}
