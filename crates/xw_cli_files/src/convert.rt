//! Converts a puzzle file.
ghost use Rattle.std.specs.Prelude.{◌≡◌, MatchResult};
ghost use Rattle.xw_desk.specs.declared.failure.ExitStatus.TheVariants.{Accepted};
ghost use Rattle.xw_cli_files.specs.Converted.{IsConverted, IsUnconverted};

use crate::put::put_puzzle;
use xw_desk::desk::Desk;
use xw_desk::failure::{ExitStatus, Failure};
use xw_desk::files::text_note;
use xw_desk::outlet::Outlet;
use xw_disk::Disk;
use xw_lines::{Sink, Source};

/// Converts a puzzle file into the format that the name of another file asks for, or of the same one.
pub fn convert<'a, D: Disk, I: Source, O: Outlet, E: Sink>(
    desk: &mut Desk<D, I, O, E>,
    from_file: &'a str,
    to_file: &'a str,
) -> Result<ExitStatus, Failure<'a>>
    ensures { MatchResult result
        (λ status. (status ≡ Accepted) × IsConverted from_file.entry.now to_file.entry.now desk.old desk.new)
        (λ failure. IsUnconverted from_file.entry.now to_file.entry.now failure desk.old desk.new) }
{
    let (_, puzzle) = desk.read_puzzle(from_file)?;
    let note = text_note(desk.alloc, to_file)?;
    put_puzzle(desk, to_file, None, &puzzle)?;
    desk.tell_text(&note, to_file);
    Ok(ExitStatus::Accepted)
}
