//! Sentences that say what a failure means, for first-time users.
ghost use Rattle.std.specs.Prelude.{◌≡◌, option_map, IfOk};
ghost use Rattle.xw_desk.specs.Sentences.{line_of as spec_line_of, located_line, said, said_at, said_of_line, said_of_puz, said_of_puzzle, said_of_text, sentence_if, unkept_line};

use crate::failure::Failure;
use crate::location::Location;
use std::alloc::{AllocError, Global};

/// Returns what a fault of a text file means.
fn said_of_text(name: &str) -> Option<&'static str>
    ensures { option_map (λ said. said.now) result ≡ said_of_text name.now }
{
    match name {
        "Header" => Some("this is no puzzle file"),
        "NulByte" => Some("this is no puzzle file"),
        "Tag" => Some("a tag is expected here"),
        "SizeLine" => Some("the size is expected here, such as 15x15"),
        "GridLine" => Some("a row is missing, or its length differs from the grid's width"),
        "AcrossCount" => Some("the number of clues differs from the number of lights"),
        "DownCount" => Some("the number of clues differs from the number of lights"),
        _ => None,
    }
}

/// Returns what a fault of a `.puz` file or of a word list means.
fn said_of_puz(name: &str) -> Option<&'static str>
    ensures { option_map (λ said. said.now) result ≡ said_of_puz name.now }
{
    match name {
        "Short" => Some("the file is cut off"),
        "NoNul" => Some("the file is cut off"),
        "BadSum" => Some("the file is damaged: a checksum is wrong"),
        "BadCell" => Some("a cell is neither a letter nor a block"),
        "Scrambled" => Some("the solution is locked"),
        "Version" => Some("this version of .puz cannot be read"),
        "ClueCount" => Some("the number of clues differs from the number of lights"),
        "Full" => Some("the list has more than 1,048,576 words of one length"),
        _ => None,
    }
}

/// Returns why a format cannot hold a puzzle.
fn said_of_puzzle(name: &str) -> Option<&'static str>
    ensures { option_map (λ said. said.now) result ≡ said_of_puzzle name.now }
{
    match name {
        "Barred" => Some("a puzzle file cannot hold bars; nothing was written"),
        "Field" => Some("the file cannot hold one of the texts; nothing was written"),
        "Circled" => Some("a text file cannot hold circles; nothing was written"),
        _ => None,
    }
}

/// Returns what the fault with this name means, if there is a sentence for it.
fn said(name: &str) -> Option<&'static str>
    ensures { option_map (λ said. said.now) result ≡ said name.now }
{
    if let Some(said) = said_of_text(name) {
        return Some(said);
    }
    if let Some(said) = said_of_puz(name) {
        return Some(said);
    }
    said_of_puzzle(name)
}

/// Returns what the fault with this name means at a location.
fn said_at(location: Location, name: &str) -> Option<&'static str>
    ensures { option_map (λ said. said.now) result ≡ said_at location name.now }
{
    match location {
        Location::Session => Some("this is a session; use --resume to go on with it"),
        _ => said(name),
    }
}

/// Returns the line for a session that no file keeps, or no bytes for any other location.
fn unkept_line(location: Location) -> &'static str
    ensures { result.now ≡ unkept_line location }
{
    match location {
        Location::Unkept(_) => "xw: the session is not kept; --save or --journal keeps it\n",
        _ => "",
    }
}

/// Returns what it means that a line of a file is no command.
fn said_of_line(number: usize, name: &str) -> Option<&'static str>
    ensures { option_map (λ said. said.now) result ≡ said_of_line number name.now }
{
    if number == 1 && name == "Command" {
        return Some("this is no journal; nothing in it was changed");
    }
    match name {
        "Command" => Some(
            "not a session file: it has an unknown command; nothing in it was changed",
        ),
        "Arguments" => Some(
            "the arguments of the command are wrong; nothing in the file was changed",
        ),
        "LineTooLong" => Some(
            "the line has more than 4,096 bytes; nothing in the file was changed",
        ),
        "Cut" => Some(
            "the last line has no line feed, so this may not be a journal; nothing in it was changed",
        ),
        _ => None,
    }
}

/// Returns the line with a sentence, or no bytes if there is none.
fn line_of(alloc: Global, said: Option<&str>) -> Result<String, AllocError>
    ensures { IfOk result (λ line. line.bytes.items ≡ spec_line_of (option_map (λ said. said.now) said.entry)) }
{
    match said {
        Some(said) => format!(in alloc; "xw: {said}\n"),
        None => Ok(String::new(alloc)),
    }
}

/// Returns the line for a fault at a location.
fn located_line(alloc: Global, name: &str, location: Location) -> Result<String, AllocError>
    ensures { IfOk result (λ line. line.bytes.items ≡ located_line name.now location) }
{
    if name == "NotFilled" {
        let unkept = unkept_line(location);
        return format!(in alloc;
            "xw: the grid has empty cells, the first at {location}; nothing was written\n{unkept}"
        );
    }
    line_of(alloc, said_at(location, name))
}

/// Returns the line that says what a failure means. Returns no bytes if there is no sentence for it, or if it is not
/// due.
pub fn sentence_line(
    alloc: Global,
    failure: &Failure<'_>,
    is_due: bool,
) -> Result<String, AllocError>
    ensures { IfOk result (λ line. line.bytes.items ≡ sentence_if is_due failure.now) }
{
    if !is_due {
        return Ok(String::new(alloc));
    }
    match *failure {
        Failure::File { name, .. } => line_of(alloc, said(name)),
        Failure::Located { name, location, .. } => located_line(alloc, name, location),
        Failure::Line { number, name, .. } => line_of(alloc, said_of_line(number, name)),
        _ => Ok(String::new(alloc)),
    }
}
