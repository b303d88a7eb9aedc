//! The locations of faults in files and puzzles.
ghost use Rattle.std.specs.Prelude.{◌≡◌, IfOk};
ghost use Rattle.xw_grid.specs.Light.{lights_of};
ghost use Rattle.xw_files.specs.Puz.Board.{grid_of_puz};
ghost use Rattle.xw_files.specs.Text.Location.{text_location as location_text_location};
ghost use Rattle.xw_desk.specs.Locations.{cut_text_location, header_location, line_location, read_location, text_location, write_location};

use crate::names::is_session;
use std::alloc::{AllocError, Global};
use std::fmt;
use xw_commands::names::Named;
use xw_files::fault::{Piece, ReadFault, SumName, TextName, WriteFault};
use xw_files::{TextLocation, grid_of_puz, text_location};
use xw_grid::cell::{Cell, LightName};
use xw_grid::grid::Grid;
use xw_grid::lights::Lights;

/// The location of a fault, as it is printed.
#[derive(Clone, Copy, Debug, PartialEq, Eq)]
pub enum Location {
    Cell(Cell),
    /// The first empty cell of a session that no file keeps.
    Unkept(Cell),
    Piece(Piece),
    Text(TextName),
    /// A clue by its index in light order, from 1, and its light.
    Clue(usize, LightName),
    Sum(SumName),
    /// A line of a text file, from 1.
    Line(usize),
    /// The first line of a session, in place of a puzzle.
    Session,
    /// The end of a text file.
    End,
}

impl fmt::Display for Location {
    ghost use Rattle.std.specs.Prelude.{Some};
    ghost use Rattle.xw_desk.specs.Locations.{location_text};

    ghost output = { λ location. Some (location_text location) };

    fn fmt<W: fmt::Write>(&self, f: &mut fmt::Formatter<W>) -> fmt::Result {
        match *self {
            Location::Cell(Cell { row, col }) | Location::Unkept(Cell { row, col }) => {
                write!(f, "row {row}, column {col}")
            }
            Location::Piece(Piece::Header) => f.write_str("header"),
            Location::Piece(Piece::Boards) => f.write_str("boards"),
            Location::Text(TextName::Title) => f.write_str("title"),
            Location::Text(TextName::Author) => f.write_str("author"),
            Location::Text(TextName::Copyright) => f.write_str("copyright"),
            Location::Text(TextName::Clue(number)) => write!(f, "clue {number}"),
            Location::Text(TextName::Notes) => f.write_str("notes"),
            Location::Clue(number, light) => {
                let (light, direction) = (light.number, light.direction.name());
                write!(f, "clue {number} ({light} {direction})")
            }
            Location::Sum(SumName::Cib) => f.write_str("CIB checksum"),
            Location::Sum(SumName::File) => f.write_str("file checksum"),
            Location::Sum(SumName::Masked(byte)) => write!(f, "masked byte {byte}"),
            Location::Line(number) => write!(f, "line {number}"),
            Location::Session => f.write_str("line 1"),
            Location::End => f.write_str("end of file"),
        }
    }
}

/// Returns the location of a write fault, if it has one. Fails only if an allocation fails.
pub fn in_puzzle(
    alloc: Global,
    grid: &Grid,
    fault: WriteFault,
) -> Result<Option<Location>, AllocError>
    ensures location { IfOk result (λ location. location ≡ write_location grid.now fault) }
{
    match fault {
        WriteFault::NotFilled(cell) | WriteFault::Circled(cell) => Ok(Some(Location::Cell(cell))),
        WriteFault::Field(text) => Ok(Some(of_text(alloc, grid, text)?)),
        WriteFault::Barred | WriteFault::Memory => Ok(None),
    }
}

/// Returns the location of a text. A clue comes with its light if the grid has one at that index.
fn of_text(alloc: Global, grid: &Grid, text: TextName) -> Result<Location, AllocError>
    ensures location { IfOk result (λ location. location ≡ text_location (lights_of grid.now) text) }
{
    let TextName::Clue(number) = text else {
        return Ok(Location::Text(text));
    };
    let lights = Lights::of(alloc, grid).map_err(|_| AllocError)?;
    match lights.get(number.saturating_sub(1)) {
        Some(light) => Ok(Location::Clue(number, light.name)),
        None => Ok(Location::Text(text)),
    }
}

/// Returns the location of a read fault, if it has one. Fails only if an allocation fails.
pub fn in_file(
    alloc: Global,
    bytes: &[u8],
    fault: ReadFault,
) -> Result<Option<Location>, AllocError>
    ensures location { IfOk result (λ location. location ≡ read_location bytes.now fault) }
{
    match fault {
        ReadFault::Short(piece) => Ok(Some(Location::Piece(piece))),
        ReadFault::NoNul(text) => Ok(Some(of_cut_text(alloc, bytes, text)?)),
        ReadFault::BadSum(sum) => Ok(Some(Location::Sum(sum))),
        ReadFault::BadCell(cell) => Ok(Some(Location::Cell(cell))),
        ReadFault::Header => of_header(alloc, bytes),
        _ => of_line(alloc, bytes, fault),
    }
}

/// Returns the location of the first line of a text file that is no puzzle file.
fn of_header(alloc: Global, bytes: &[u8]) -> Result<Option<Location>, AllocError>
    ensures location { IfOk result (λ location. location ≡ header_location bytes.now) }
{
    if is_session(bytes) {
        Ok(Some(Location::Session))
    } else {
        of_line(alloc, bytes, ReadFault::Header)
    }
}

/// Returns the location of an unterminated text. A clue comes with its light if the file's grid can be read.
fn of_cut_text(alloc: Global, bytes: &[u8], text: TextName) -> Result<Location, AllocError>
    ensures location { IfOk result (λ location. location ≡ cut_text_location (grid_of_puz bytes.now) text) }
{
    match grid_of_puz(alloc, bytes) {
        Ok(grid) => of_text(alloc, &grid, text),
        Err(ReadFault::Memory) => Err(AllocError),
        Err(_) => Ok(Location::Text(text)),
    }
}

/// Returns the line of a fault of a text file, if it has one.
fn of_line(alloc: Global, bytes: &[u8], fault: ReadFault) -> Result<Option<Location>, AllocError>
    ensures location { IfOk result (λ location. location ≡ line_location (location_text_location bytes.now fault)) }
{
    match text_location(alloc, bytes, fault) {
        Ok(Some(TextLocation::Line(number))) => Ok(Some(Location::Line(number))),
        Ok(Some(TextLocation::End)) => Ok(Some(Location::End)),
        Err(ReadFault::Memory) => Err(AllocError),
        Ok(None) | Err(_) => Ok(None),
    }
}
