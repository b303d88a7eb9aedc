//! The file of a journal: it is opened, begun, closed, found and replaced. Each fault of the disk is a failure that names it.
ghost use Rattle.std.specs.Prelude.{◌≡◌, ◌+◌, [], IfOk, IfErr, OnOk, Ok, Err, codes, count_by};
ghost use Rattle.xw_text.specs.Lines.{is_line_feed};
ghost use Rattle.xw_disk.specs.Disk.{begin, find, open_, started, take_lines, end};
ghost use Rattle.xw_disk.specs.declared.disk.DiskFault.{DiskFault};
ghost use Rattle.xw_desk.specs.Failures.{IsFaultOf};
ghost use Rattle.xw_desk.specs.Desk.{Asks};
ghost use Rattle.xw_desk.specs.Files.{IsLineFault};
ghost use Rattle.xw_cli_files.specs.JournalFiles.{IsNotFound, IsNotOpened};

use memchr::memchr_iter;
use xw_desk::desk::Desk;
use xw_desk::failure::{Failure, failure_of};
use xw_desk::files::line_fault;
use xw_desk::outlet::Outlet;
use xw_disk::{Disk, Start};
use xw_lines::{Sink, Source};

/// Opens a journal. Returns the open file and its bytes.
pub fn open_journal<'a, D: Disk, I: Source, O: Outlet, E: Sink>(
    desk: &mut Desk<D, I, O, E>,
    file: &'a str,
) -> Result<(D::Opened, Vec<u8>), Failure<'a>>
    ensures ok { IfOk result (λ opened. Asks (open_ file.entry.now (Ok opened.1.items)) desk.old desk.new) }
    ensures err { IfErr result (λ failure. IsNotOpened file.entry.now failure desk.old desk.new) }
{
    match desk.disk.open_journal(file) {
        Ok(opened) => Ok(opened),
        Err(fault) => Err(failure_of(fault, file)),
    }
}

/// Makes an open file a journal that lines can be appended to.
pub fn begin_journal<'a, D: Disk, I: Source, O: Outlet, E: Sink>(
    desk: &mut Desk<D, I, O, E>,
    file: &'a str,
    opened: D::Opened,
    start: Start<'_>,
    is_synced: bool,
) -> Result<D::Journal, Failure<'a>>
    ensures ok { IfOk result (λ journal. Asks (begin file.entry.now (started start.entry) is_synced (Ok tt)) desk.old desk.new) }
    ensures transcript { IfOk result (λ journal. D.Journal.transcript journal ≡ []) }
    ensures failures { IfOk result (λ journal. D.Journal.failures journal ≡ 0) }
    ensures err { IfErr result (λ failure. (fault : DiskFault) × IsFaultOf fault file.entry.now failure × Asks (begin file.entry.now (started start.entry) is_synced (Err fault)) desk.old desk.new) }
{
    match desk.disk.begin_journal(file, opened, start, is_synced) {
        Ok(journal) => Ok(journal),
        Err(fault) => Err(failure_of(fault, file)),
    }
}

/// Closes a journal for writing.
pub fn close_journal<D: Disk, I: Source, O: Outlet, E: Sink>(
    desk: &mut Desk<D, I, O, E>,
    file: &str,
    journal: D::Journal,
)
    ensures { Asks (take_lines file.now (D.Journal.transcript journal)) desk.old desk.new }
{
    desk.disk.close_journal(file, journal);
}

/// Fails if the name of a journal no longer leads to it, or another program has changed its length.
pub fn find_journal<'a, D: Disk, I: Source, O: Outlet, E: Sink>(
    desk: &mut Desk<D, I, O, E>,
    file: &'a str,
) -> Result<(), Failure<'a>>
    ensures ok { OnOk result (Asks (find file.entry.now (Ok tt)) desk.old desk.new) }
    ensures err { IfErr result (λ failure. IsNotFound file.entry.now failure desk.old desk.new) }
{
    match desk.disk.find_journal(file) {
        Ok(()) => Ok(()),
        Err(fault) => Err(failure_of(fault, file)),
    }
}

/// Replaces a journal by these bytes.
pub fn replace_journal<'a, D: Disk, I: Source, O: Outlet, E: Sink>(
    desk: &mut Desk<D, I, O, E>,
    file: &'a str,
    bytes: &[u8],
) -> Result<(), Failure<'a>>
    ensures ok { OnOk result (Asks (end file.entry.now bytes.now (Ok tt)) desk.old desk.new) }
    ensures err { IfErr result (λ failure. (fault : DiskFault) × IsFaultOf fault file.entry.now failure × Asks (end file.entry.now bytes.now (Err fault)) desk.old desk.new) }
{
    match desk.disk.end_journal(file, bytes) {
        Ok(()) => Ok(()),
        Err(fault) => Err(failure_of(fault, file)),
    }
}

/// Returns whether there are comments, and otherwise only blank lines. The end of a journal would lose them.
pub fn is_comments(bytes: &[u8]) -> bool {
    let mut is_start = true;
    let mut is_found = false;
    for byte in bytes {
        match *byte {
            b'\n' => is_start = true,
            b' ' | b'\t' | b'\r' => {}
            b'#' if is_start => {
                is_start = false;
                is_found = true;
            }
            _ if is_start => return false,
            _ => {}
        }
    }
    is_found
}

/// Returns the failure for a file without the first line whose last line, the one after all LFs, has none.
pub fn cut_fault<'a>(file: &'a str, bytes: &[u8]) -> Failure<'a>
    ensures { IsLineFault file.entry.now (count_by is_line_feed bytes.now + 1) (codes "Cut") result }
{
    let ended = memchr_iter(b'\n', bytes).count();
    line_fault(file, ended.saturating_add(1), "Cut")
}
