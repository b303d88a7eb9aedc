//! Cuts a `.puz` file into its fields.
ghost use Rattle.std.specs.Prelude.{◌≡◌, ◌*◌, ◌≤◌, length, map};
ghost use Rattle.xw_files.specs.Puz.Reading.{cell_count, clues_at, texts_at, boards_at, fields_at};
ghost use Rattle.xw_files.specs.Steps.{GivesOrLacksMemory};
ghost use Rattle.xw_files.specs.Puz.View.{view};

use crate::fault::{Piece, ReadFault, TextName};
use crate::puz::header::{HEADER_LENGTH, Header};
use crate::puz::{header, text};
use std::alloc::Global;

/// The fields of a file. The boards `solution` and `state` have a byte for each cell, in reading order. Texts have no
/// NUL at their end. There are as many clues as the header says. `rest` is everything after the notes.
#[derive(Drop)]
pub struct Fields<'a> {
    pub header: Header,
    pub solution: &'a [u8],
    pub state: &'a [u8],
    pub title: &'a [u8],
    pub author: &'a [u8],
    pub copyright: &'a [u8],
    pub clues: Vec<&'a [u8]>,
    pub notes: &'a [u8],
    pub rest: &'a [u8],
}

/// Splits `count` clues from the front of the bytes. Returns `NoNul` for the first clue without a NUL.
fn clues_of<'a>(
    alloc: Global,
    count: u16,
    bytes: &'a [u8],
) -> Result<(Vec<&'a [u8]>, &'a [u8]), ReadFault>
    ensures { GivesOrLacksMemory (λ found. (map (λ clue. clue.now) found.0.items, found.1.now)) result (clues_at 1 count bytes.entry.now) }
{
    let mut clues = Vec::new(alloc);
    let mut rest = bytes;
    for index in 0..count {
        let (clue, others) = text::text_of(TextName::Clue(usize::from(index) + 1), rest)?;
        clues.push(clue)?;
        rest = others;
    }
    Ok((clues, rest))
}

/// Splits the texts that follow the boards into fields.
fn texts_of<'a>(
    alloc: Global,
    header: Header,
    solution: &'a [u8],
    state: &'a [u8],
    bytes: &'a [u8],
) -> Result<Fields<'a>, ReadFault>
    ensures { GivesOrLacksMemory view result (texts_at header solution.entry.now state.entry.now bytes.entry.now) }
{
    let (title, rest) = text::text_of(TextName::Title, bytes)?;
    let (author, rest) = text::text_of(TextName::Author, rest)?;
    let (copyright, rest) = text::text_of(TextName::Copyright, rest)?;
    let (clues, rest) = clues_of(alloc, header.clue_count, rest)?;
    let (notes, rest) = text::text_of(TextName::Notes, rest)?;
    Ok(Fields {
        header,
        solution,
        state,
        title,
        author,
        copyright,
        clues,
        notes,
        rest,
    })
}

/// Cuts a file into its fields. Returns the first fault of the header, of the length of the boards, or of the texts.
pub fn fields_of(alloc: Global, bytes: &[u8]) -> Result<Fields<'_>, ReadFault>
    ensures { GivesOrLacksMemory view result (fields_at bytes.entry.now) }
{
    let header = header::header_of(bytes)?;
    let cells = header.cell_count();
    if bytes.len() < HEADER_LENGTH + 2 * cells {
        return Err(ReadFault::Short(Piece::Boards));
    }
    let (_, rest) = bytes.split_at(HEADER_LENGTH);
    boards_of(alloc, header, cells, rest)
}

/// Splits the two boards, and then the texts, from the bytes after the header.
fn boards_of(
    alloc: Global,
    header: Header,
    cells: usize,
    bytes: &[u8],
) -> Result<Fields<'_>, ReadFault>
    requires cells { cells ≡ cell_count header }
    requires long { 2 * cells ≤ length bytes.now }
    ensures { GivesOrLacksMemory view result (boards_at header bytes.entry.now) }
{
    let (solution, rest) = bytes.split_at(cells);
    let (state, rest) = rest.split_at(cells);
    texts_of(alloc, header, solution, state, rest)
}
