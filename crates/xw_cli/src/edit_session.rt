//! Runs a session: opens its files, answers the input, and writes its files.
ghost use Rattle.std.specs.Prelude.{IfErr, OnOk};
ghost use Rattle.xw_desk.specs.Apart.{AreWritable};
ghost use Rattle.xw_cli.specs.Performed.{AreNotKept, EditsOrFails, OpensOrFails};

use crate::answer::answer;
use crate::answer_journaled::answer_journaled;
use crate::open::open_observed;
use xw_arguments::SessionFiles;
use xw_desk::apart::{keep_apart, keep_free, keep_writable};
use xw_desk::desk::Desk;
use xw_desk::failure::{ExitStatus, Failure};
use xw_desk::outlet::Outlet;
use xw_disk::Disk;
use xw_feas::observed::Observed;
use xw_feas::progress::Observer;
use xw_feas::searchable::Searchable;
use xw_lines::{Sink, Source};
use xw_session::Session;

/// Runs a session: opens its files, answers the input, and writes its files. Files that must differ are refused first. The
/// observer may be told how far a long search is.
pub fn edit_session<'a, F: Searchable, D: Disk, I: Source, O: Outlet, E: Sink, W: Observer>(
    desk: &mut Desk<D, I, O, E>,
    named: SessionFiles<'a>,
    observer: W,
) -> Result<ExitStatus, Failure<'a>>
    ensures { EditsOrFails named.entry result desk.old desk.new }
{
    keep_files(desk, named)?;
    edit_apart::<F, D, I, O, E, W>(desk, named, observer)
}

/// Refuses files that must differ and do not, and files that cannot be written.
fn keep_files<'a, D: Disk, I: Source, O: Outlet, E: Sink>(
    desk: &mut Desk<D, I, O, E>,
    named: SessionFiles<'a>,
) -> Result<(), Failure<'a>>
    ensures ok { OnOk result (AreWritable named.entry desk.old desk.new) }
    ensures err { IfErr result (λ failure. AreNotKept named.entry failure desk.old desk.new) }
{
    keep_apart(&desk.disk, named)?;
    keep_free(&desk.disk, named)?;
    keep_writable(desk, named)
}

/// Runs a session whose files are apart.
fn edit_apart<'a, F: Searchable, D: Disk, I: Source, O: Outlet, E: Sink, W: Observer>(
    desk: &mut Desk<D, I, O, E>,
    named: SessionFiles<'a>,
    observer: W,
) -> Result<ExitStatus, Failure<'a>>
    ensures { OpensOrFails named.entry result desk.old desk.new }
{
    let session: Session<Observed<F, W>> = open_observed(desk, named, observer)?;
    match named.journal_file {
        Some(file) => answer_journaled(desk, session, file, named),
        None => answer(desk, session, named),
    }
}
