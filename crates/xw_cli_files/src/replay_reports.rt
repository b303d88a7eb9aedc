//! What is reported of a file whose commands are replayed.
ghost use Rattle.std.specs.Prelude.{◌≡◌, IfOk, OnOk, OnErr, IsOkUnless};
ghost use Rattle.xw_desk.specs.declared.failure.Failure.TheVariants.{Memory};
ghost use Rattle.xw_desk.specs.Desk.{ReportsIf};
ghost use Rattle.xw_cli_files.specs.ReplayReports.{after_report, cut_line, ends_in_known, explained_reports};

use std::alloc::{AllocError, Global};
use xw_desk::desk::Desk;
use xw_desk::failure::Failure;
use xw_desk::outlet::Outlet;
use xw_disk::Disk;
use xw_lines::{Sink, Source};
use xw_text::lines::first_line;

/// Reports that an incomplete last command is ignored if one was.
pub fn tell_cut_if<'a, D: Disk, I: Source, O: Outlet, E: Sink>(
    desk: &mut Desk<D, I, O, E>,
    file: &'a str,
    is_due: bool,
) -> Result<(), Failure<'a>>
    ensures told { OnOk result (ReportsIf is_due (cut_line file.entry.now) desk.old desk.new) }
    ensures memory { IsOkUnless result Memory }
    ensures untold { OnErr result (desk.new ≡ desk.old) }
{
    if !is_due {
        return Ok(());
    }
    let text = format!(in desk.alloc; "xw: {file}: an incomplete last command is ignored\n")?;
    desk.report(text.as_bytes());
    Ok(())
}

/// Returns the reports of a replay. If failures are explained, a sentence follows each report of a word that the list has.
pub fn explained(alloc: Global, reports: &[u8], explains: bool) -> Result<Vec<u8>, AllocError>
    ensures { IfOk result (λ text. text.items ≡ explained_reports explains reports.now) }
{
    if !explains {
        return Vec::from_slice(alloc, reports);
    }
    let mut text = Vec::new(alloc);
    let mut rest = reports;
    while !rest.is_empty() {
        let (line, after) = first_line(rest);
        text.extend_from_slice(line)?;
        text.extend_from_slice(after_report(line))?;
        rest = after;
    }
    Ok(text)
}

/// Returns what follows a report, which is without its LF, if failures are explained.
fn after_report(line: &[u8]) -> &'static [u8]
    ensures { result.now ≡ after_report line.now }
{
    if ends_in_known(line) {
        b"\nxw: the list has this word\n"
    } else {
        b"\n"
    }
}

/// Returns whether a report ends with the reason `Known`.
fn ends_in_known(line: &[u8]) -> bool
    ensures { result ≡ ends_in_known line.now }
{
    let reason = &line[line.len().saturating_sub(7)..];
    reason == b": Known".as_slice()
}
