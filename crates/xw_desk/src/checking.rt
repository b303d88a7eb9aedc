//! Checks puzzle files.
ghost use Rattle.std.specs.Prelude.{◌≡◌, ◌⊎◌, ◌++◌, List, length, map, fold, IfOk, IfErr, IsOkUnless};
ghost use Rattle.xw_grid.specs.Light.{lights_of};
ghost use Rattle.xw_desk.specs.declared.failure.Failure.TheVariants.{Memory};
ghost use Rattle.xw_desk.specs.declared.failure.ExitStatus.{ExitStatus};
ghost use Rattle.xw_desk.specs.declared.failure.ExitStatus.TheVariants.{Accepted};
ghost use Rattle.xw_desk.specs.Checked.{described, ends_call, format_name, greater, line_start, AreChecked, IsChecked, IsCheckedInTurn, IsCheckOf, EndsCheck, IsUnchecked, IsUncheckedAmong};

use crate::desk::Desk;
use crate::failure::{ExitStatus, Failure};
use crate::outlet::Outlet;
use std::alloc::Global;
use xw_disk::Disk;
use xw_files::Kind;
use xw_grid::{Grid, Lights};
use xw_lines::{Sink, Source};

impl<D: Disk, I: Source, O: Outlet, E: Sink> Desk<D, I, O, E> {
    /// Prints a line for each puzzle file. One file has no name in its line, and its failure ends the call.
    pub fn check_files<'a>(&mut self, files: &[&'a str]) -> Result<ExitStatus, Failure<'a>>
        ensures { IsCheckOf (map (λ file. file.now) files.now) result self.old self.new }
    {
        if files.len() == 1 {
            return self.check(files[0], false);
        }
        self.check_each(files)
    }

    /// Prints a line for each puzzle file, with its name. Reports each file that cannot be checked, and returns the
    /// greatest status.
    fn check_each<'a>(&mut self, files: &[&'a str]) -> Result<ExitStatus, Failure<'a>>
        ensures ok { IfOk result (λ status. (statuses : List ExitStatus) × (status ≡ fold greater Accepted statuses) × AreChecked (map (λ file. file.now) files.now) statuses self.old self.new) }
        ensures err { IfErr result (λ failure. IsUncheckedAmong (map (λ file. file.now) files.now) failure self.old self.new) }
    {
        let mut status = ExitStatus::Accepted;
        for file in files {
            let found = self.check_in_turn(*file)?;
            status = greater(status, found);
        }
        Ok(status)
    }

    /// Checks one of several files. Reports its failure, unless that ends the call.
    fn check_in_turn<'a>(&mut self, file: &'a str) -> Result<ExitStatus, Failure<'a>>
        ensures ok { IfOk result (λ status. IsCheckedInTurn file.entry.now status self.old self.new) }
        ensures err { IfErr result (λ failure. EndsCheck file.entry.now failure self.old self.new) }
    {
        match self.check(file, true) {
            Ok(status) => Ok(status),
            Err(failure) if ends_call(&failure) => Err(failure),
            Err(failure) => Ok(self.tell_in_turn(&failure)?),
        }
    }

    /// Prints the format, size and number of lights of a puzzle file, with its name if `is_named` is set.
    fn check<'a>(&mut self, file: &'a str, is_named: bool) -> Result<ExitStatus, Failure<'a>>
        ensures ok { IfOk result (λ status. (status ≡ Accepted) × IsChecked is_named file.entry.now self.old self.new) }
        ensures err { IfErr result (λ failure. IsUnchecked is_named file.entry.now failure self.old self.new) }
    {
        let line = {
            let (kind, puzzle) = self.read_puzzle(file)?;
            line_of(self.alloc, file, is_named, kind, &puzzle.grid)
        };
        let line = line?;
        match self.show(line.as_bytes()) {
            Ok(()) => Ok(ExitStatus::Accepted),
            Err(_) => Err(Failure::Output),
        }
    }
}

/// Returns the greater status.
fn greater(first: ExitStatus, second: ExitStatus) -> ExitStatus
    ensures { result ≡ greater first second }
{
    if first.code() < second.code() {
        second
    } else {
        first
    }
}

/// Returns whether a failure ends a call that checks several files: the output or an allocation failed.
fn ends_call(failure: &Failure<'_>) -> bool
    ensures { result ≡ ends_call failure.now }
{
    match failure {
        Failure::Output | Failure::Memory => true,
        _ => false,
    }
}

/// Returns the line of a puzzle file, with its name if `is_named` is set.
fn line_of<'a>(
    alloc: Global,
    file: &'a str,
    is_named: bool,
    kind: Kind,
    grid: &Grid,
) -> Result<String, Failure<'a>>
    ensures line { IfOk result (λ line. line.bytes.items ≡ line_start is_named file.entry.now ++ described kind grid.now) }
    ensures memory { IsOkUnless result Memory }
{
    let line = describe(alloc, kind, grid)?;
    if is_named {
        return Ok(format!(in alloc; "{file}: {line}")?);
    }
    Ok(line)
}

/// Returns the line with the format, size and number of lights.
fn describe<'a>(alloc: Global, kind: Kind, grid: &Grid) -> Result<String, Failure<'a>>
    ensures line { IfOk result (λ line. line.bytes.items ≡ described kind grid.now) }
    ensures memory { IsOkUnless result Memory }
{
    let count = light_count(alloc, grid)?;
    let kind = format_name(kind);
    let (width, height) = (grid.width(), grid.height());
    Ok(format!(in alloc; "{kind} {width}x{height} {count} lights\n")?)
}

fn light_count<'a>(alloc: Global, grid: &Grid) -> Result<usize, Failure<'a>>
    ensures ok { IfOk result (λ count. count ≡ length (lights_of grid.now)) }
    ensures memory { IsOkUnless result Memory }
{
    match Lights::of(alloc, grid) {
        Ok(lights) => Ok(lights.len()),
        Err(_) => Err(Failure::Memory),
    }
}

fn format_name(kind: Kind) -> &'static str
    ensures { result.now ≡ format_name kind }
{
    match kind {
        Kind::Puz => "puz",
        Kind::Text => "text",
    }
}
