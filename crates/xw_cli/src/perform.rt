//! Executes a call.
ghost use Rattle.std.specs.Prelude.{◌≡◌, ◌||◌};
ghost use Rattle.xw_cli.specs.Performed.{IsPerformed, Performs};

use crate::edit_session::edit_session;
use xw_arguments::Call;
use xw_cli_files::convert::convert;
use xw_desk::desk::Desk;
use xw_desk::failure::{ExitStatus, Failure};
use xw_desk::outlet::Outlet;
use xw_disk::Disk;
use xw_feas::progress::Observer;
use xw_feas::searchable::Searchable;
use xw_lines::{Sink, Source};

/// Executes a call, reports a failure if there is one, and returns the exit status. On a terminal, failures are
/// explained. The observer may be told how far a long search is.
pub fn perform<F: Searchable, D: Disk, I: Source, O: Outlet, E: Sink, W: Observer>(
    desk: &mut Desk<D, I, O, E>,
    call: Call<'_>,
    observer: W,
) -> ExitStatus
    ensures { Performs call.entry result desk.old desk.new }
{
    explain_if(desk, call.is_explained());
    match run::<F, D, I, O, E, W>(desk, call, observer) {
        Ok(status) => status,
        Err(failure) => desk.end(&failure),
    }
}

/// Has failures explained from now on, if this is due or messages go to a terminal.
fn explain_if<D: Disk, I: Source, O: Outlet, E: Sink>(desk: &mut Desk<D, I, O, E>, is_due: bool)
    ensures { desk.new ≡ record desk.old { explains = is_due || desk.old.is_terminal } }
{
    desk.explains = is_due || desk.is_terminal;
}

/// Executes a call.
fn run<'a, F: Searchable, D: Disk, I: Source, O: Outlet, E: Sink, W: Observer>(
    desk: &mut Desk<D, I, O, E>,
    call: Call<'a>,
    observer: W,
) -> Result<ExitStatus, Failure<'a>>
    ensures { IsPerformed call.entry result desk.old desk.new }
{
    match call {
        Call::Edit { files, .. } => edit_session::<F, D, I, O, E, W>(desk, files, observer),
        Call::Convert {
            from_file,
            to_file,
            ..
        } => convert(desk, from_file, to_file),
        Call::Check { files, .. } => desk.check_files(files.as_slice()),
    }
}
