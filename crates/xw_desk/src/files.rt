//! Reads and writes the files of a call.
ghost use Rattle.std.specs.Prelude.{◌≡◌, ◌⊎◌, option_map, IfOk, IfErr, OnOk, OnErr, IsOkUnless};
ghost use Rattle.xw_grid.specs.Puzzle.{puzzle_view};
ghost use Rattle.xw_files.specs.Formats.{IsRead};
ghost use Rattle.xw_files.specs.FaultNames.{read_fault_name, write_fault_name};
ghost use Rattle.xw_desk.specs.declared.failure.Failure.TheVariants.{Memory};
ghost use Rattle.xw_desk.specs.Desk.{Reports};
ghost use Rattle.xw_desk.specs.Explained.{rebus_line};
ghost use Rattle.xw_desk.specs.Files.{location_if, AreBytesFor, IsFileFault, IsFound, IsLineFault, IsMalformed, IsRebusTold, IsTextNote, IsTextTold, IsUnfit, IsUnread};
ghost use Rattle.xw_desk.specs.Locations.{read_location, write_location};

use crate::desk::Desk;
use crate::failure::Failure;
use crate::location::{self, Location};
use crate::names::{is_named_text, kind_by_name};
use crate::outlet::Outlet;
use std::alloc::Global;
use xw_disk::Disk;
use xw_files::fault::{ReadFault, WriteFault};
use xw_files::{Kind, Puzzle, has_rebus, kind_of, read_as, write_as};
use xw_grid::grid::Grid;
use xw_lines::{Sink, Source};

impl<D: Disk, I: Source, O: Outlet, E: Sink> Desk<D, I, O, E> {
    /// Reads a puzzle file, and returns its format and its puzzle. Reports if the file has rebus cells, which are not kept.
    pub fn read_puzzle<'a>(&mut self, file: &'a str) -> Result<(Kind, Puzzle), Failure<'a>>
        ensures ok { IfOk result (λ found. IsFound file.entry.now found.0 (puzzle_view found.1) self.old self.new) }
        ensures err { IfErr result (λ failure. IsUnread file.entry.now failure self.old self.new) }
    {
        let bytes = self.read_file(file)?;
        self.puzzle_in(file, bytes.as_slice())
    }

    /// Returns the format and the puzzle of the bytes of a file. Reports if the file has rebus cells, which are not kept.
    fn puzzle_in<'a>(&mut self, file: &'a str, bytes: &[u8]) -> Result<(Kind, Puzzle), Failure<'a>>
        ensures means { IfOk result (λ found. IsRead found.0 bytes.now (puzzle_view found.1)) }
        ensures rebus { IfOk result (λ found. IsRebusTold file.entry.now found.0 bytes.now self.old self.new) }
        ensures err { IfErr result (λ failure. (failure ≡ Memory) ⊎ IsMalformed file.entry.now self.old.explains bytes.now failure) }
        ensures untold { OnErr result (self.new ≡ self.old) }
    {
        let (kind, puzzle) = parsed(self.alloc, file, self.explains, bytes)?;
        match self.warn_of_rebus(file, kind, bytes) {
            Ok(()) => Ok((kind, puzzle)),
            Err(failure) => Err(failure),
        }
    }

    /// Reports that the rebus cells of a `.puz` file are not kept, if it has any.
    fn warn_of_rebus<'a>(
        &mut self,
        file: &'a str,
        kind: Kind,
        bytes: &[u8],
    ) -> Result<(), Failure<'a>>
        ensures told { OnOk result (IsRebusTold file.entry.now kind bytes.now self.old self.new) }
        ensures memory { IsOkUnless result Memory }
        ensures untold { OnErr result (self.new ≡ self.old) }
    {
        if kind == Kind::Text {
            return Ok(());
        }
        match has_rebus(self.alloc, bytes) {
            Ok(true) => self.tell_rebus(file),
            Ok(false) => Ok(()),
            // a file that was read has no other fault
            Err(_) => Err(Failure::Memory),
        }
    }

    /// Reports that the rebus cells of a file are not kept.
    fn tell_rebus<'a>(&mut self, file: &'a str) -> Result<(), Failure<'a>>
        ensures told { OnOk result (Reports (rebus_line file.entry.now) self.old self.new) }
        ensures memory { IsOkUnless result Memory }
        ensures untold { OnErr result (self.new ≡ self.old) }
    {
        let text = format!(in self.alloc; "xw: {file}: rebus cells are not kept\n")?;
        self.report(text.as_bytes());
        Ok(())
    }

    /// Prints the report that a puzzle is written as text, if it is due.
    pub fn tell_text(&mut self, note: &Option<String>, file: &str)
        ensures { IsTextNote file.now (option_map (λ text. text.bytes.items) note.now) → IsTextTold file.now self.old self.new }
    {
        if let Some(text) = note {
            self.report(text.as_bytes());
        }
    }
}

/// Returns the puzzle in the bytes of a file, and its format. A fault comes with its location if `explain` is set.
fn parsed<'a>(
    alloc: Global,
    file: &'a str,
    explain: bool,
    bytes: &[u8],
) -> Result<(Kind, Puzzle), Failure<'a>>
    ensures ok { IfOk result (λ read. IsRead read.0 bytes.now (puzzle_view read.1)) }
    ensures err { IfErr result (λ failure. (failure ≡ Memory) ⊎ IsMalformed file.entry.now explain bytes.now failure) }
{
    let kind = kind_of(bytes);
    match read_as(alloc, kind, bytes) {
        Ok(puzzle) => Ok((kind, puzzle)),
        Err(fault) => Err(malformed(alloc, file, explain, bytes, fault)),
    }
}

/// Returns the failure for a fault of the bytes of a file.
fn malformed<'a>(
    alloc: Global,
    file: &'a str,
    explain: bool,
    bytes: &[u8],
    fault: ReadFault,
) -> Failure<'a>
    ensures memory { fault ≡ ReadFault.Memory → result ≡ Memory }
    ensures told { (result ≡ Memory) ⊎ IsFileFault file.entry.now (read_fault_name fault) (location_if explain (read_location bytes.now fault)) result }
{
    if fault == ReadFault::Memory {
        return Failure::Memory;
    }
    let location = if explain {
        location::in_file(alloc, bytes, fault)
    } else {
        Ok(None)
    };
    match location {
        Ok(location) => file_fault(file, fault.name(), location),
        Err(_) => Failure::Memory,
    }
}

/// Returns the failure for a fault of a file, with the location if there is one.
pub fn file_fault<'a>(file: &'a str, name: &'static str, location: Option<Location>) -> Failure<'a>
    ensures { IsFileFault file.entry.now name.now location result }
{
    match location {
        Some(location) => Failure::Located {
            file,
            name,
            location,
        },
        None => Failure::File { file, name },
    }
}

/// Returns the failure for a line of a file.
pub fn line_fault<'a>(file: &'a str, number: usize, name: &'static str) -> Failure<'a>
    ensures { IsLineFault file.entry.now number name.now result }
{
    Failure::Line { file, number, name }
}

/// Returns the report that a puzzle is written as text, if the name of its file asks for no format.
pub fn text_note<'a>(alloc: Global, file: &'a str) -> Result<Option<String>, Failure<'a>>
    ensures note { IfOk result (λ note. IsTextNote file.entry.now (option_map (λ text. text.bytes.items) note)) }
    ensures memory { IsOkUnless result Memory }
{
    if kind_by_name(file) == Kind::Puz || is_named_text(file) {
        return Ok(None);
    }
    Ok(Some(format!(in alloc; "xw: {file}: written as text\n")?))
}

/// Returns the bytes of a puzzle in the format that the name of a file asks for.
pub fn bytes_for<'a>(
    alloc: Global,
    file: &'a str,
    puzzle: &Puzzle,
    explain: bool,
) -> Result<Vec<u8>, Failure<'a>>
    ensures ok { IfOk result (λ bytes. AreBytesFor file.entry.now (puzzle_view puzzle.now) bytes.items) }
    ensures err { IfErr result (λ failure. (failure ≡ Memory) ⊎ IsUnfit file.entry.now explain (puzzle_view puzzle.now) failure) }
{
    match write_as(alloc, kind_by_name(file), puzzle) {
        Ok(bytes) => Ok(bytes),
        Err(fault) => Err(unfit(alloc, file, explain, &puzzle.grid, fault)),
    }
}

/// Returns the failure for a fault of a puzzle that is to be written to a file.
fn unfit<'a>(
    alloc: Global,
    file: &'a str,
    explain: bool,
    grid: &Grid,
    fault: WriteFault,
) -> Failure<'a>
    ensures memory { fault ≡ WriteFault.Memory → result ≡ Memory }
    ensures told { (result ≡ Memory) ⊎ IsFileFault file.entry.now (write_fault_name fault) (location_if explain (write_location grid.now fault)) result }
{
    if fault == WriteFault::Memory {
        return Failure::Memory;
    }
    let location = if explain {
        location::in_puzzle(alloc, grid, fault)
    } else {
        Ok(None)
    };
    match location {
        Ok(location) => file_fault(file, fault.name(), location),
        Err(_) => Failure::Memory,
    }
}
