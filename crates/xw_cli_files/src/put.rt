//! Writes a puzzle to a file. What the file had is kept first if it would be lost.
ghost use Rattle.std.specs.Prelude.{◌≡◌, ◌⊎◌, IfOk, IfErr, OnOk, Ok};
ghost use Rattle.xw_grid.specs.Puzzle.{puzzle_view};
ghost use Rattle.xw_disk.specs.Disk.{read};
ghost use Rattle.xw_desk.specs.declared.failure.Failure.TheVariants.{Memory};
ghost use Rattle.xw_desk.specs.Desk.{Asks};
ghost use Rattle.xw_cli_files.specs.Put.{is_kept as spec_is_kept, of_session as spec_of_session, unkept_failure, unkept_location, HasKeptBytes, IsLostUnkept, IsNotKeptFirst, IsNotPutOver, IsPutOver, IsUnkept, IsUnseen, KeepsFirst, KeepsFirstAs, KeepsIf, KeepsLost, ReadsAndKeeps, UnkeptRead};
ghost use Rattle.xw_desk.specs.Names.{is_session as spec_is_session};

use crate::keeping::{keep_bytes, standing_of, tell_kept};
use crate::lost::lost_lines;
use xw_arguments::SessionFiles;
use xw_desk::apart::refuse_journal;
use xw_desk::desk::Desk;
use xw_desk::failure::Failure;
use xw_desk::files::bytes_for;
use xw_desk::location::Location;
use xw_desk::names::is_session;
use xw_desk::outlet::Outlet;
use xw_disk::{Disk, DiskFault, Standing};
use xw_files::Puzzle;
use xw_lines::{Sink, Source};

/// Writes a puzzle to a file in the format that its name asks for. What the file had is kept first if it would be lost; its
/// other name does not lead to `apart`. The disk is not asked until all bytes are built.
pub fn put_puzzle<'a, D: Disk, I: Source, O: Outlet, E: Sink>(
    desk: &mut Desk<D, I, O, E>,
    file: &'a str,
    apart: Option<&str>,
    puzzle: &Puzzle,
) -> Result<(), Failure<'a>>
    ensures ok { OnOk result (IsPutOver file.entry.now (puzzle_view puzzle.now) desk.old desk.new) }
    ensures err { IfErr result (λ failure. IsNotPutOver file.entry.now (puzzle_view puzzle.now) failure desk.old desk.new) }
{
    let bytes = bytes_for(desk.alloc, file, puzzle, desk.explains)?;
    keep_first(desk, file, apart)?;
    desk.write_file(file, bytes.as_slice())
}

/// Keeps what a file has if a puzzle would be written over it and it would be lost. Fails if another program has the file as
/// its journal.
fn keep_first<'a, D: Disk, I: Source, O: Outlet, E: Sink>(
    desk: &mut Desk<D, I, O, E>,
    file: &'a str,
    apart: Option<&str>,
) -> Result<(), Failure<'a>>
    ensures ok { OnOk result (KeepsFirst file.entry.now desk.old desk.new) }
    ensures err { IfErr result (λ failure. IsNotKeptFirst file.entry.now failure desk.old desk.new) }
{
    refuse_journal(&desk.disk, Some(file))?;
    let standing = standing_of(desk, file);
    keep_standing(desk, file, apart, standing)
}

/// Keeps a file that a puzzle would be written over, by what it is.
fn keep_standing<'a, D: Disk, I: Source, O: Outlet, E: Sink>(
    desk: &mut Desk<D, I, O, E>,
    file: &'a str,
    apart: Option<&str>,
    standing: Standing,
) -> Result<(), Failure<'a>>
    ensures ok { OnOk result (KeepsFirstAs standing file.entry.now desk.old desk.new) }
    ensures err { IfErr result (λ failure. UnkeptRead file.entry.now failure desk.old desk.new) }
{
    match standing {
        Standing::Nothing => Ok(()),
        Standing::AsRead => keep_source(desk, file, apart),
        Standing::Other => keep_session(desk, file, apart),
    }
}

/// Keeps a file that the call read if the puzzle in it has not all of it, and names what is lost.
fn keep_source<'a, D: Disk, I: Source, O: Outlet, E: Sink>(
    desk: &mut Desk<D, I, O, E>,
    file: &'a str,
    apart: Option<&str>,
) -> Result<(), Failure<'a>>
    ensures ok { OnOk result (ReadsAndKeeps KeepsLost file.entry.now desk.old desk.new) }
    ensures err { IfErr result (λ failure. UnkeptRead file.entry.now failure desk.old desk.new) }
{
    let bytes = read_target(desk, file)?;
    keep_lost(desk, file, apart, bytes.as_slice())
}

/// Keeps a file that the call did not read if it is a session.
fn keep_session<'a, D: Disk, I: Source, O: Outlet, E: Sink>(
    desk: &mut Desk<D, I, O, E>,
    file: &'a str,
    apart: Option<&str>,
) -> Result<(), Failure<'a>>
    ensures ok { OnOk result (ReadsAndKeeps (λ name bytes. KeepsIf (spec_is_session bytes) name bytes) file.entry.now desk.old desk.new) }
    ensures err { IfErr result (λ failure. UnkeptRead file.entry.now failure desk.old desk.new) }
{
    let bytes = read_target(desk, file)?;
    keep_if(desk, file, apart, bytes.as_slice())
}

/// Returns the bytes of a file that is to be replaced. One that cannot be read cannot be written, since what it has might be
/// lost.
fn read_target<'a, D: Disk, I: Source, O: Outlet, E: Sink>(
    desk: &mut Desk<D, I, O, E>,
    file: &'a str,
) -> Result<Vec<u8>, Failure<'a>>
    ensures ok { IfOk result (λ bytes. Asks (read file.entry.now (Ok bytes.items)) desk.old desk.new) }
    ensures err { IfErr result (λ failure. IsUnseen file.entry.now failure desk.old desk.new) }
{
    match desk.disk.read_own(file) {
        Ok(bytes) => Ok(bytes),
        Err(DiskFault::Memory) => Err(Failure::Memory),
        Err(_) => Err(Failure::CannotWrite { file }),
    }
}

/// Keeps these bytes of a file if they are a session.
fn keep_if<'a, D: Disk, I: Source, O: Outlet, E: Sink>(
    desk: &mut Desk<D, I, O, E>,
    file: &'a str,
    apart: Option<&str>,
    bytes: &[u8],
) -> Result<(), Failure<'a>>
    ensures ok { OnOk result (KeepsIf (spec_is_session bytes.now) file.entry.now bytes.now desk.old desk.new) }
    ensures err { IfErr result (λ failure. IsUnkept file.entry.now bytes.now failure desk.old desk.new) }
{
    if !is_session(bytes) {
        return Ok(());
    }
    keep_told(desk, file, apart, bytes)
}

/// Names what of these bytes of a file is lost, and keeps them, if something is.
fn keep_lost<'a, D: Disk, I: Source, O: Outlet, E: Sink>(
    desk: &mut Desk<D, I, O, E>,
    file: &'a str,
    apart: Option<&str>,
    bytes: &[u8],
) -> Result<(), Failure<'a>>
    ensures ok { OnOk result (KeepsLost file.entry.now bytes.now desk.old desk.new) }
    ensures err { IfErr result (λ failure. ((failure ≡ Memory) × (desk.new ≡ desk.old)) ⊎ IsLostUnkept file.entry.now bytes.now failure desk.old desk.new) }
{
    let Some(lines) = lost_lines(desk.alloc, file, bytes)? else {
        return Ok(());
    };
    desk.report(lines.as_bytes());
    keep_told(desk, file, apart, bytes)
}

/// Keeps these bytes of a file beside it, and reports it.
fn keep_told<'a, D: Disk, I: Source, O: Outlet, E: Sink>(
    desk: &mut Desk<D, I, O, E>,
    file: &'a str,
    apart: Option<&str>,
    bytes: &[u8],
) -> Result<(), Failure<'a>>
    ensures ok { OnOk result (HasKeptBytes file.entry.now bytes.now desk.old desk.new) }
    ensures err { IfErr result (λ failure. IsUnkept file.entry.now bytes.now failure desk.old desk.new) }
{
    let number = keep_bytes(desk, file, apart, bytes)?;
    tell_kept(desk, file, number, false)
}

/// Returns whether a file of the call keeps the session.
pub fn is_kept(named: SessionFiles<'_>) -> bool
    ensures { result ≡ spec_is_kept named.entry }
{
    named.save_file.is_some() || named.journal_file.is_some()
}

/// Returns the failure of the puzzle of a session. An empty cell is told in other words if no file keeps the session.
pub fn of_session<'a>(failure: Failure<'a>, is_kept: bool) -> Failure<'a>
    ensures { result ≡ spec_of_session is_kept failure.entry }
{
    if is_kept { failure } else { unkept(failure) }
}

/// Returns the failure of the puzzle of a session that no file keeps.
fn unkept<'a>(failure: Failure<'a>) -> Failure<'a>
    ensures { result ≡ unkept_failure failure.entry }
{
    match failure {
        Failure::Located {
            file,
            name,
            location,
        } => Failure::Located {
            file,
            name,
            location: unkept_at(location),
        },
        _ => failure,
    }
}

/// Returns the location of a fault in the puzzle of a session that no file keeps.
fn unkept_at(location: Location) -> Location
    ensures { result ≡ unkept_location location }
{
    match location {
        Location::Cell(cell) => Location::Unkept(cell),
        _ => location,
    }
}
