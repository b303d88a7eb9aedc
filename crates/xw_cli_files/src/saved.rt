//! Replaces a file by the bytes of a session, or leaves them in another file.
ghost use Rattle.std.specs.Prelude.{◌≡◌, IfErr, MatchResult, OnOk, OnErr, IsOkUnless, Ok, Err};
ghost use Rattle.xw_disk.specs.Disk.{leave};
ghost use Rattle.xw_desk.specs.declared.failure.Failure.TheVariants.{Memory};
ghost use Rattle.xw_desk.specs.Desk.{Asks, Reports};
ghost use Rattle.xw_cli_files.specs.Saved.{IsNotOver, IsOver, KeepsAs, Leaves, UnkeptAs, left_line};

use crate::keeping::{keep_old, standing_of};
use xw_arguments::SessionFiles;
use xw_desk::apart::keep_session_apart;
use xw_desk::desk::Desk;
use xw_desk::failure::Failure;
use xw_desk::outlet::Outlet;
use xw_disk::{Disk, DiskFault, Standing};
use xw_lines::{Sink, Source};

/// Replaces a file by these bytes of a session, unless it is another file of the call. What the file has is kept first
/// if it would be lost.
pub fn replace_saved<'a, D: Disk, I: Source, O: Outlet, E: Sink>(
    desk: &mut Desk<D, I, O, E>,
    file: &'a str,
    named: SessionFiles<'a>,
    is_loss: bool,
    bytes: &[u8],
) -> Result<(), Failure<'a>>
    ensures ok { OnOk result (IsOver file.entry.now is_loss bytes.now desk.old desk.new) }
    ensures err { IfErr result (λ failure. IsNotOver named.entry file.entry.now is_loss bytes.now failure desk.old desk.new) }
{
    keep_session_apart(&desk.disk, named)?;
    let standing = standing_of(desk, file);
    keep_as(desk, file, named.to_file, standing, is_loss, bytes)?;
    desk.write_file(file, bytes)
}

/// Keeps a file under another name if these bytes are written over it and its own would be lost: it is not the one that was resumed, it has changed since,
/// or a line of it was refused.
fn keep_as<'a, D: Disk, I: Source, O: Outlet, E: Sink>(
    desk: &mut Desk<D, I, O, E>,
    file: &'a str,
    apart: Option<&str>,
    standing: Standing,
    is_loss: bool,
    written: &[u8],
) -> Result<(), Failure<'a>>
    ensures ok { OnOk result (KeepsAs standing is_loss file.entry.now written.now desk.old desk.new) }
    ensures err { IfErr result (λ failure. UnkeptAs standing is_loss file.entry.now failure desk.old desk.new) }
{
    match standing {
        Standing::Nothing => Ok(()),
        Standing::Other => keep_old(desk, file, apart, false, written),
        Standing::AsRead => {
            if is_loss {
                keep_old(desk, file, apart, true, written)
            } else {
                Ok(())
            }
        }
    }
}

/// Leaves the bytes of a session that a file did not get in another file, and reports its name. Leaves nothing if an
/// allocation failed. Returns the failure to report.
pub fn leave_unsaved<'a, D: Disk, I: Source, O: Outlet, E: Sink>(
    desk: &mut Desk<D, I, O, E>,
    file: &'a str,
    apart: Option<&str>,
    bytes: &[u8],
    failure: Failure<'a>,
) -> Failure<'a>
    ensures { Leaves file.entry.now bytes.now failure.entry result desk.old desk.new }
{
    if let Failure::Memory = failure {
        return failure;
    }
    let Ok(place) = leave_bytes(desk, file, apart, bytes) else {
        return failure;
    };
    match tell_left(desk, file, place.as_str()) {
        Ok(()) => failure,
        Err(memory) => memory,
    }
}

/// Leaves bytes that a file did not get in another file, and returns its name.
fn leave_bytes<D: Disk, I: Source, O: Outlet, E: Sink>(
    desk: &mut Desk<D, I, O, E>,
    file: &str,
    apart: Option<&str>,
    bytes: &[u8],
) -> Result<String, DiskFault>
    ensures { MatchResult result
        (λ place. Asks (leave file.now bytes.now (Ok place.bytes.items)) desk.old desk.new)
        (λ fault. Asks (leave file.now bytes.now (Err fault)) desk.old desk.new) }
{
    desk.disk.leave(file, apart, bytes)
}

/// Reports in which file a session is left that was not saved.
fn tell_left<'a, D: Disk, I: Source, O: Outlet, E: Sink>(
    desk: &mut Desk<D, I, O, E>,
    file: &'a str,
    place: &str,
) -> Result<(), Failure<'a>>
    ensures told { OnOk result (Reports (left_line file.entry.now place.now) desk.old desk.new) }
    ensures memory { IsOkUnless result Memory }
    ensures untold { OnErr result (desk.new ≡ desk.old) }
{
    let text = format!(in desk.alloc; "xw: {file}: not saved; the session is kept as {place}\n")?;
    desk.report(text.as_bytes());
    Ok(())
}
