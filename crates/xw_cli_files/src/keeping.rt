//! Keeps what a file has under another name before the file is written over.
ghost use Rattle.std.specs.Prelude.{◌≡◌, ℕ, Ok, Err, IfOk, IfErr, OnOk, OnErr, IsOkUnless};
ghost use Rattle.xw_disk.specs.Disk.{keep, stands};
ghost use Rattle.xw_disk.specs.declared.disk.DiskFault.{DiskFault};
ghost use Rattle.xw_desk.specs.Failures.{IsOldFaultOf};
ghost use Rattle.xw_desk.specs.declared.failure.Failure.TheVariants.{Memory};
ghost use Rattle.xw_desk.specs.Desk.{Asks, Reports};
ghost use Rattle.xw_cli_files.specs.Keeping.{kept_because, old_line, IsNotKept, KeepsOld};

use xw_desk::desk::Desk;
use xw_desk::failure::{Failure, old_failure_of};
use xw_desk::outlet::Outlet;
use xw_disk::replacing::kept_name;
use xw_disk::{Disk, Standing};
use xw_lines::{Sink, Source};

/// Returns what a file is before it is written over.
pub fn standing_of<D: Disk, I: Source, O: Outlet, E: Sink>(
    desk: &mut Desk<D, I, O, E>,
    file: &str,
) -> Standing
    ensures { Asks (stands file.now result) desk.old desk.new }
{
    desk.disk.standing(file)
}

/// Keeps a file under another name before these bytes are written over it, unless it has the same. Reports it, and whether
/// lines of it were refused. The other name does not lead to `apart`.
pub fn keep_old<'a, D: Disk, I: Source, O: Outlet, E: Sink>(
    desk: &mut Desk<D, I, O, E>,
    file: &'a str,
    apart: Option<&str>,
    is_refused: bool,
    written: &[u8],
) -> Result<(), Failure<'a>>
    ensures ok { OnOk result (KeepsOld is_refused file.entry.now written.now desk.old desk.new) }
    ensures err { IfErr result (λ failure. IsNotKept file.entry.now failure desk.old desk.new) }
{
    let bytes = desk.read_own_file(file)?;
    let old = bytes.as_slice();
    if old == written {
        return Ok(());
    }
    let number = keep_bytes(desk, file, apart, old)?;
    tell_kept(desk, file, number, is_refused)
}

/// Keeps these bytes of a file beside it, and returns the number of their name.
pub fn keep_bytes<'a, D: Disk, I: Source, O: Outlet, E: Sink>(
    desk: &mut Desk<D, I, O, E>,
    file: &'a str,
    apart: Option<&str>,
    bytes: &[u8],
) -> Result<u32, Failure<'a>>
    ensures ok { IfOk result (λ number. Asks (keep file.entry.now bytes.now number (Ok tt)) desk.old desk.new) }
    ensures err { IfErr result (λ failure. (number : ℕ) × (fault : DiskFault) × IsOldFaultOf fault file.entry.now number failure × Asks (keep file.entry.now bytes.now number (Err fault)) desk.old desk.new) }
{
    match desk.disk.keep(file, apart, bytes) {
        Ok(number) => Ok(number),
        Err(unkept) => Err(old_failure_of(unkept, file)),
    }
}

/// Reports that an old file is kept under the name with this number.
pub fn tell_kept<'a, D: Disk, I: Source, O: Outlet, E: Sink>(
    desk: &mut Desk<D, I, O, E>,
    file: &'a str,
    number: u32,
    is_refused: bool,
) -> Result<(), Failure<'a>>
    ensures told { OnOk result (Reports (old_line is_refused file.entry.now number) desk.old desk.new) }
    ensures memory { IsOkUnless result Memory }
    ensures untold { OnErr result (desk.new ≡ desk.old) }
{
    let name = kept_name(desk.alloc, file, number)?;
    let said = kept_because(is_refused);
    let text = format!(in desk.alloc; "xw: {file}{said}{name}\n")?;
    desk.report(text.as_bytes());
    Ok(())
}

/// Returns what the report of an old file says before the name that it is kept under.
fn kept_because(is_refused: bool) -> &'static str
    ensures { result.now ≡ kept_because is_refused }
{
    if is_refused {
        ": refused lines; the old file is kept as "
    } else {
        ": the old file is kept as "
    }
}
