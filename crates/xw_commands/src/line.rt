//! Splits a line into words.
ghost use Rattle.std.specs.Prelude.{◌≡◌, ◌+◌, ◌*◌, ◌^◌, ◌<◌, ◌≤◌, true, length, reverse, position, bytes_eq, Some, None};
ghost use Rattle.std.specs.Option.{option_map};
ghost use Rattle.xw_commands.specs.Names.{by_name};
ghost use Rattle.xw_commands.specs.Reading.{lookup};
ghost use Rattle.xw_commands.specs.Line.{is_blank as spec_is_blank, is_ink as spec_is_ink, number_in as spec_number_in, grade_in as spec_grade_in, byte_in as spec_byte_in, without_cr as spec_without_cr, trimmed as spec_trimmed, trimmed_start as spec_trimmed_start, trimmed_end as spec_trimmed_end, first_word as spec_first_word};

use crate::command::BEST_GRADE;
use crate::names::Named;
use xw_text::digits::{MOST_DIGITS, is_number, value};

/// Returns whether a byte separates words: a space or a tab.
fn is_blank(byte: u8) -> bool
    ensures { result ≡ spec_is_blank byte }
{
    byte == b' ' || byte == b'\t'
}

/// Returns whether a word is this name.
fn is(word: &[u8], name: &str) -> bool
    ensures { result ≡ bytes_eq word.now name.now }
{
    word == name.as_bytes()
}

/// Returns the first of these values that has this word.
pub fn named<T: Named>(values: &[T], word: &[u8]) -> Option<T>
    ensures { result ≡ lookup (by_name T.name values.now) word.now }
{
    for value in values {
        if is(word, value.name()) {
            return Some(*value);
        }
    }
    None
}

/// Removes one CR from the end of a line.
pub fn without_cr(line: &[u8]) -> &[u8]
    ensures { result.now ≡ spec_without_cr line.now }
{
    match line.split_last() {
        Some((b'\r', front)) => front,
        _ => line,
    }
}

/// Returns whether a byte is part of a word.
fn is_ink(byte: u8) -> bool
    ensures { result ≡ spec_is_ink byte }
{
    !is_blank(byte)
}

fn first_ink(text: &[u8]) -> Option<usize>
    ensures { result ≡ position spec_is_ink text.now }
{
    text.iter().position(|byte| is_ink(*byte))
}

/// Returns the distance of the last non-blank byte from the end.
fn last_ink(text: &[u8]) -> Option<usize>
    ensures { result ≡ position spec_is_ink (reverse text.now) }
{
    text.iter().rev().position(|byte| is_ink(*byte))
}

fn first_blank(text: &[u8]) -> Option<usize>
    ensures { result ≡ position spec_is_blank text.now }
{
    text.iter().position(|byte| is_blank(*byte))
}

/// Removes spaces and tabs from the start of a text.
pub fn trimmed_start(text: &[u8]) -> &[u8]
    ensures { result.now ≡ spec_trimmed_start text.now }
{
    match first_ink(text) {
        Some(start) => &text[start..],
        None => &[],
    }
}

/// Removes spaces and tabs from the end of a text.
fn trimmed_end(text: &[u8]) -> &[u8]
    ensures { result.now ≡ spec_trimmed_end text.now }
{
    match last_ink(text) {
        Some(after) => &text[..text.len() - after],
        None => &[],
    }
}

/// Removes spaces and tabs from both ends of a text.
pub fn trimmed(text: &[u8]) -> &[u8]
    ensures { result.now ≡ spec_trimmed text.now }
{
    trimmed_end(trimmed_start(text))
}

/// Splits a text into its first word and what follows. Returns `None` for a blank text.
pub fn first_word(text: &[u8]) -> Option<(&[u8], &[u8])>
    ensures { option_map (λ found. (found.0.now, found.1.now)) result ≡ spec_first_word text.now }
{
    let text = trimmed_start(text);
    if text.is_empty() {
        return None;
    }
    match first_blank(text) {
        Some(end) => Some(text.split_at(end)),
        None => Some((text, &[])),
    }
}

/// Parses a word as a number of 1 to 18 decimal digits.
pub fn number_in(word: &[u8]) -> Option<u64>
    ensures { result ≡ spec_number_in word.now }
{
    if is_number(word, MOST_DIGITS) {
        Some(value(word))
    } else {
        None
    }
}

/// Returns a number as a grade. Returns `None` if it is more than `BEST_GRADE`.
pub fn grade_in(number: u64) -> Option<u8>
    ensures { result ≡ spec_grade_in number }
{
    if number <= u64::from(BEST_GRADE) {
        Some(number as u8)
    } else {
        None
    }
}

/// Returns the byte of a one-byte word.
pub fn byte_in(word: &[u8]) -> Option<u8>
    ensures { result ≡ spec_byte_in word.now }
{
    match word {
        [byte] => Some(*byte),
        _ => None,
    }
}
