//! What a `.puz` file has that is lost if the puzzle in it is written over it.
ghost use Rattle.std.specs.Prelude.{◌<◌, ◌≤◌, ◌+◌, length, IfSome};

use memchr::memchr;
use std::alloc::{AllocError, Global};
use xw_files::{Kind, kind_of};

/// Where a file has its width, its height, its number of clues, and its boards.
const WIDTH_AT: usize = 0x2C;

const HEIGHT_AT: usize = 0x2D;

const CLUES_AT: usize = 0x2E;

const BOARDS_AT: usize = 0x34;

/// The title, the author, the copyright and the notes.
const TEXTS: usize = 4;

/// The bytes of a section before its data: its name, length and checksum. A NUL follows the data.
const SECTION_HEAD: usize = 8;

/// What of a file is lost.
#[derive(Clone, Copy, Debug, PartialEq, Eq)]
struct Lost {
    rebus: bool,
    timer: bool,
    /// What a solver entered.
    letters: bool,
    /// Sections that the program does not know.
    others: bool,
}

impl Lost {
    const NOTHING: Lost = Lost {
        rebus: false,
        timer: false,
        letters: false,
        others: false,
    };

    fn is_nothing(self) -> bool {
        !(self.rebus || self.timer || self.letters || self.others)
    }

    /// Notes a section with this name.
    fn note(&mut self, name: &[u8]) {
        if name == b"GRBS".as_slice() || name == b"RTBL".as_slice() {
            self.rebus = true;
        } else if name == b"LTIM".as_slice() {
            self.timer = true;
        } else if name == b"RUSR".as_slice() {
            self.letters = true;
        } else if name != b"GEXT".as_slice() {
            self.others = true;
        }
    }
}

/// Returns the lines that name what of a file is lost, or `None` if nothing is. Rebus cells have no line here: they are told
/// when the file is read.
pub fn lost_lines(alloc: Global, file: &str, bytes: &[u8]) -> Result<Option<String>, AllocError> {
    let lost = lost_of(bytes);
    if lost.is_nothing() {
        return Ok(None);
    }
    let timer = line_if(alloc, lost.timer, file, "the timer is not kept")?;
    let letters = line_if(
        alloc,
        lost.letters,
        file,
        "the letters of a solver are not kept",
    )?;
    let others = line_if(alloc, lost.others, file, "unknown sections are not kept")?;
    Ok(Some(format!(in alloc; "{timer}{letters}{others}")?))
}

/// Returns a line about a file if it is due, and otherwise no bytes.
fn line_if(alloc: Global, is_due: bool, file: &str, said: &str) -> Result<String, AllocError> {
    if !is_due {
        return Ok(String::new(alloc));
    }
    format!(in alloc; "xw: {file}: {said}\n")
}

/// Returns what of a file is lost: nothing of a text file.
fn lost_of(bytes: &[u8]) -> Lost {
    if kind_of(bytes) != Kind::Puz || bytes.len() < BOARDS_AT {
        return Lost::NOTHING;
    }
    let area = usize::from(bytes[WIDTH_AT]).saturating_mul(usize::from(bytes[HEIGHT_AT]));
    let texts = TEXTS.saturating_add(number_at(bytes, CLUES_AT));
    let boards = &bytes[BOARDS_AT..];
    if boards.len() < area {
        return Lost::NOTHING;
    }
    lost_after(&boards[area..], area, texts)
}

/// Returns what is lost of the state, which has so many cells, and of the sections after so many texts.
fn lost_after(bytes: &[u8], area: usize, texts: usize) -> Lost {
    if bytes.len() < area {
        return Lost::NOTHING;
    }
    let mut lost = lost_in_sections(after_texts(&bytes[area..], texts));
    if has_letters(&bytes[..area]) {
        lost.letters = true;
    }
    lost
}

/// Returns the number of two bytes at an index.
fn number_at(bytes: &[u8], at: usize) -> usize
    requires { at + 1 < length bytes.now }
{
    usize::from(bytes[at]).saturating_add(usize::from(bytes[at + 1]).saturating_mul(256))
}

/// Returns whether a solver entered something: a cell of the state is neither empty nor a block.
fn has_letters(state: &[u8]) -> bool {
    state.iter().any(|byte| *byte != b'-' && *byte != b'.')
}

/// Returns what follows a text that ends with a NUL: nothing if none ends so.
fn after_text(bytes: &[u8]) -> &[u8] {
    match memchr(0, bytes) {
        Some(end) => &bytes[end + 1..],
        None => &[],
    }
}

/// Returns what follows a number of texts.
fn after_texts(bytes: &[u8], count: usize) -> &[u8] {
    let mut rest = bytes;
    for _ in 0..count {
        rest = after_text(rest);
    }
    rest
}

/// Returns what of the sections at the front of the bytes is lost.
fn lost_in_sections(bytes: &[u8]) -> Lost {
    let mut lost = Lost::NOTHING;
    let mut rest = bytes;
    for _ in 0..bytes.len() {
        let Some(size) = section_size(rest) else {
            return lost;
        };
        lost.note(&rest[..4]);
        rest = &rest[size..];
    }
    lost
}

/// Returns the size of the whole section at the front of the bytes, if there is one.
fn section_size(bytes: &[u8]) -> Option<usize>
    ensures { IfSome result (λ size. (4 ≤ length bytes.now) × (size ≤ length bytes.now)) }
{
    if bytes.len() < SECTION_HEAD {
        return None;
    }
    let last = SECTION_HEAD.saturating_add(number_at(bytes, 4));
    if bytes.len() <= last || bytes[last] != 0 {
        return None;
    }
    Some(last + 1)
}
