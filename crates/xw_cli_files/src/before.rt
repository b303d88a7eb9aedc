//! Keeps the session before a last line without an LF beside a file.
ghost use Rattle.std.specs.Prelude.{◌≡◌, OnOk, OnErr, IsOkUnless};
ghost use Rattle.xw_desk.specs.declared.failure.Failure.TheVariants.{Memory};
ghost use Rattle.xw_desk.specs.Desk.{Reports};
ghost use Rattle.xw_cli_files.specs.Keeping.{before_line, KeepsBeside};

use crate::keeping::keep_bytes;
use xw_desk::desk::Desk;
use xw_desk::failure::Failure;
use xw_desk::outlet::Outlet;
use xw_disk::Disk;
use xw_disk::replacing::kept_name;
use xw_lines::{Sink, Source};

/// Keeps these bytes beside a file, if one is named, and reports it.
pub fn keep_beside<'a, D: Disk, I: Source, O: Outlet, E: Sink>(
    desk: &mut Desk<D, I, O, E>,
    file: Option<&'a str>,
    apart: Option<&str>,
    bytes: &[u8],
) -> Result<(), Failure<'a>>
    ensures { KeepsBeside file.entry bytes.now result desk.old desk.new }
{
    let Some(file) = file else {
        return Ok(());
    };
    let number = keep_bytes(desk, file, apart, bytes)?;
    tell_before(desk, file, number)
}

/// Reports that the session before the last line is kept under the name with this number.
fn tell_before<'a, D: Disk, I: Source, O: Outlet, E: Sink>(
    desk: &mut Desk<D, I, O, E>,
    file: &'a str,
    number: u32,
) -> Result<(), Failure<'a>>
    ensures told { OnOk result (Reports (before_line file.entry.now number) desk.old desk.new) }
    ensures memory { IsOkUnless result Memory }
    ensures untold { OnErr result (desk.new ≡ desk.old) }
{
    let name = kept_name(desk.alloc, file, number)?;
    let text = format!(in desk.alloc;
        "xw: {file}: the session before the last line is kept as {name}\n"
    )?;
    desk.report(text.as_bytes());
    Ok(())
}
