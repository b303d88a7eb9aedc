//! What is told about a word list beside its counts: how many of its lines have a grade, and what it may be instead of
//! a word list.
ghost use Rattle.std.specs.Prelude.{◌<◌, length, IfOk, IfSome};
ghost use Rattle.xw_cli_files.specs.WordLists.{AreNotes};

use std::alloc::{AllocError, Global};
use xw_files::{Kind, kind_of};
use xw_text::lines::first_line;

/// The most digits of a grade.
const MOST_DIGITS: usize = 9;

/// Returns the notes on a word list, or no bytes if they are not due.
pub fn notes_of(alloc: Global, bytes: &[u8], is_due: bool) -> Result<String, AllocError>
    ensures { IfOk result (λ notes. AreNotes is_due notes.bytes.items) }
{
    if !is_due {
        return Ok(String::new(alloc));
    }
    let (lines, graded) = counts(bytes);
    let warning = warning(bytes);
    format!(in alloc; "xw: {graded} of {lines} lines have a grade\n{warning}")
}

/// Returns the number of lines, and the number of lines with a grade.
fn counts(bytes: &[u8]) -> (usize, usize) {
    let mut lines = 0usize;
    let mut graded = 0usize;
    let mut rest = bytes;
    while !rest.is_empty() {
        let (line, after) = first_line(rest);
        lines = lines.saturating_add(1);
        if has_grade(line) {
            graded = graded.saturating_add(1);
        }
        rest = after;
    }
    (lines, graded)
}

/// Returns the index of the first semicolon.
fn first_semicolon(text: &[u8]) -> Option<usize>
    ensures { IfSome result (λ at. at < length text.now) }
{
    text.iter().position(|byte| *byte == b';')
}

/// Returns the index of the first byte that is not a letter.
fn word_end(line: &[u8]) -> Option<usize>
    ensures { IfSome result (λ at. at < length line.now) }
{
    line.iter().position(|byte| !byte.is_ascii_alphabetic())
}

/// Returns whether the second field of a line is a grade: a number, which may have a minus sign.
fn has_grade(line: &[u8]) -> bool {
    let Some(start) = first_semicolon(line) else {
        return false;
    };
    let after = &line[start + 1..];
    let field = match first_semicolon(after) {
        Some(end) => trimmed(&after[..end]),
        None => trimmed(after),
    };
    is_number(field) || (field.starts_with(b"-") && is_number(&field[1..]))
}

/// Returns whether a byte is a space, a tab or a carriage return.
fn is_blank(byte: u8) -> bool {
    byte == b' ' || byte == b'\t' || byte == b'\r'
}

/// Returns the index of the first byte that is not blank.
fn first_ink(text: &[u8]) -> Option<usize>
    ensures { IfSome result (λ at. at < length text.now) }
{
    text.iter().position(|byte| !is_blank(*byte))
}

/// Returns the distance of the last byte that is not blank from the end.
fn last_ink(text: &[u8]) -> Option<usize>
    ensures { IfSome result (λ at. at < length text.now) }
{
    text.iter().rev().position(|byte| !is_blank(*byte))
}

/// Returns a text without blanks at its ends.
fn trimmed(text: &[u8]) -> &[u8] {
    match (first_ink(text), last_ink(text)) {
        (Some(start), Some(after)) if start < text.len() - after => &text[start..text.len()
            - after],
        _ => &[],
    }
}

fn is_number(text: &[u8]) -> bool {
    !text.is_empty() && text.len() <= MOST_DIGITS && text.iter().all(|byte| byte.is_ascii_digit())
}

/// Returns the line that warns of a list in another form or of another file, or no text.
fn warning(bytes: &[u8]) -> &'static str {
    if kind_of(bytes) == Kind::Puz {
        return "xw: this is a puzzle file; use --from to start with it\n";
    }
    if is_utf16(bytes) {
        return "xw: the list looks like UTF-16; save it as UTF-8\n";
    }
    if has_returns_alone(bytes) {
        return "xw: the lines end in carriage returns alone; end them in line feeds\n";
    }
    match other_separator(bytes) {
        Some(b',') =>
            "xw: a number follows a comma; a grade must follow a semicolon, as in cat;70\n",
        Some(b'\t') =>
            "xw: a number follows a tab; a grade must follow a semicolon, as in cat;70\n",
        Some(b' ') =>
            "xw: a number follows a space; a grade must follow a semicolon, as in cat;70\n",
        Some(b':') =>
            "xw: a number follows a colon; a grade must follow a semicolon, as in cat;70\n",
        _ => "",
    }
}

/// Returns whether the bytes begin with a mark of UTF-16, or have a NUL among the first two.
fn is_utf16(bytes: &[u8]) -> bool {
    bytes.starts_with(&[0xFF, 0xFE])
        || bytes.starts_with(&[0xFE, 0xFF])
        || bytes[..bytes.len().min(2)].contains(&0)
}

/// Returns whether there are carriage returns, and no line feed.
fn has_returns_alone(bytes: &[u8]) -> bool {
    bytes.contains(&b'\r') && !bytes.contains(&b'\n')
}

/// Returns the byte between a word and a number in the first line that has these three alone.
fn other_separator(bytes: &[u8]) -> Option<u8> {
    let mut rest = bytes;
    while !rest.is_empty() {
        let (line, after) = first_line(rest);
        let found = separator_in(trimmed(line));
        if found.is_some() {
            return found;
        }
        rest = after;
    }
    None
}

/// Returns the byte between a word and a number if a line has these three alone, and the byte is no semicolon.
fn separator_in(line: &[u8]) -> Option<u8> {
    let at = word_end(line)?;
    if at == 0 || line[at] == b';' || !is_number(trimmed(&line[at + 1..])) {
        return None;
    }
    Some(line[at])
}
