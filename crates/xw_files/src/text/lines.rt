//! Splits a text file into trimmed lines.
ghost use Rattle.std.specs.Prelude.{◌≡◌, ℕ, [], ◌∷◌, MatchOption, None};
ghost use Rattle.std.specs.Option.{option_copied};
ghost use Rattle.xw_files.specs.Text.Lines.{is_blank as spec_is_blank, trimmed, shown, text_lines, first_of, without_mark as spec_without_mark};

use bstr::{ByteSlice, Lines};
use std::marker::Model;

/// The UTF-8 byte order mark, which is ignored at the start of a file.
const MARK: [u8; 3] = [0xEF, 0xBB, 0xBF];

/// Returns whether a byte is a space or a tab.
pub(crate) fn is_blank(byte: u8) -> bool
    ensures { result ≡ spec_is_blank byte }
{
    matches!(byte, b' ' | b'\t')
}

/// Removes spaces and tabs from both ends of a line.
pub(crate) fn trim(line: &[u8]) -> &[u8]
    ensures { result.now ≡ trimmed line.now }
{
    let mut rest = line;
    while let [first, after @ ..] = rest
        && is_blank(*first)
    {
        rest = after;
    }
    while let [before @ .., last] = rest
        && is_blank(*last)
    {
        rest = before;
    }
    rest
}

/// Drops a byte order mark at the start of a file.
pub(crate) fn without_mark(bytes: &[u8]) -> &[u8]
    ensures { result.now ≡ spec_without_mark bytes.now }
{
    if bytes.starts_with(&MARK) {
        &bytes[MARK.len()..]
    } else {
        bytes
    }
}

/// Returns the next line that is not blank, trimmed.
fn next_shown<'a>(lines: &mut Lines<'a>) -> Option<&'a [u8]>
    ensures { MatchOption result ((shown lines.old ≡ []) × (shown lines.new ≡ [])) (λ line. shown lines.old ≡ line.now ∷ shown lines.new) }
{
    while let Some(line) = lines.next() {
        let line = trim(line);
        if !line.is_empty() {
            return Some(line);
        }
    }
    None
}

/// Iterates over the lines of a file, trimmed and without the blank ones. One line can be peeked at.
#[derive(Drop)]
pub(crate) struct TextLines<'a> {
    next: Option<&'a [u8]>,
    rest: Lines<'a>,
}

impl<'a> Model for TextLines<'a> {
    ghost use Rattle.std.specs.Prelude.{◌≡◌, List, ℕ, ◌++◌, [], None};
    ghost use Rattle.xw_files.specs.Text.Lines.{with_next, shown};

    ghost Value = { List (List ℕ) };

    ghost view = { λ lines. with_next lines.next (shown lines.rest) };

    ghost invariant = { λ lines. lines.next ≡ None → shown lines.rest ≡ [] };
}

impl<'a> TextLines<'a> {
    /// The lines of a file.
    pub(crate) fn new(bytes: &'a [u8]) -> TextLines<'a>
        ensures { result ≡ text_lines bytes.now }
    {
        let mut rest = without_mark(bytes).lines();
        let next = next_shown(&mut rest);
        TextLines { next, rest }
    }

    /// The next line, which stays the next one; `None` at the end.
    pub(crate) fn peek(&self) -> Option<&'a [u8]>
        ensures { option_copied result ≡ first_of self.now }
    {
        self.next
    }

    /// Takes the next line; `None` at the end.
    pub(crate) fn next(&mut self) -> Option<&'a [u8]>
        ensures { MatchOption result ((self.old ≡ []) × (self.new ≡ [])) (λ line. self.old ≡ line.now ∷ self.new) }
    {
        let line = self.next;
        self.next = next_shown(&mut self.rest);
        line
    }
}
