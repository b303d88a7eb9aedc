//! The grade that a line of a word list gives its word.
ghost use Rattle.std.specs.Prelude.{◌≡◌, length, position, reverse};
ghost use Rattle.xw_words.specs.Dictionary.{capped};
ghost use Rattle.xw_words.specs.WordList.{is_semicolon, is_blank as spec_is_blank, is_ink as spec_is_ink, is_negative as spec_is_negative, after_semicolon as spec_after_semicolon, before_semicolon as spec_before_semicolon, trimmed_start as spec_trimmed_start, trimmed_end as spec_trimmed_end, score_field as spec_score_field, score_in as spec_score_in, score_of, left_of};

use crate::table::BEST_GRADE;
use xw_text::digits::{is_number, value};

/// The maximum number of digits of a score.
const MOST_DIGITS: usize = 9;

/// The score of a line that gives none.
const USUAL_SCORE: u64 = 50;

fn first_semicolon(text: &[u8]) -> Option<usize>
    ensures { result ≡ position is_semicolon text.now }
{
    text.iter().position(|byte| *byte == b';')
}

/// What follows the first semicolon; nothing if there is none.
fn after_semicolon(line: &[u8]) -> &[u8]
    ensures { result.now ≡ spec_after_semicolon line.now }
{
    match first_semicolon(line) {
        Some(at) => &line[at + 1..],
        None => &[],
    }
}

/// What comes before the first semicolon; all if there is none.
fn before_semicolon(text: &[u8]) -> &[u8]
    ensures { result.now ≡ spec_before_semicolon text.now }
{
    match first_semicolon(text) {
        Some(at) => &text[..at],
        None => text,
    }
}

/// Whether a byte is a space, a tab or a carriage return.
fn is_blank(byte: u8) -> bool
    ensures { result ≡ spec_is_blank byte }
{
    byte == b' ' || byte == b'\t' || byte == b'\r'
}

fn is_ink(byte: u8) -> bool
    ensures { result ≡ spec_is_ink byte }
{
    !is_blank(byte)
}

fn first_ink(text: &[u8]) -> Option<usize>
    ensures { result ≡ position spec_is_ink text.now }
{
    text.iter().position(|byte| is_ink(*byte))
}

/// The distance of the last byte that is not blank from the end.
fn last_ink(text: &[u8]) -> Option<usize>
    ensures { result ≡ position spec_is_ink (reverse text.now) }
{
    text.iter().rev().position(|byte| is_ink(*byte))
}

fn trimmed_start(text: &[u8]) -> &[u8]
    ensures { result.now ≡ spec_trimmed_start text.now }
{
    match first_ink(text) {
        Some(start) => &text[start..],
        None => &[],
    }
}

fn trimmed_end(text: &[u8]) -> &[u8]
    ensures { result.now ≡ spec_trimmed_end text.now }
{
    match last_ink(text) {
        Some(after) => &text[..text.len() - after],
        None => &[],
    }
}

/// The second field of a line, without blanks at its ends.
fn score_field(line: &[u8]) -> &[u8]
    ensures { result.now ≡ spec_score_field line.now }
{
    trimmed_end(trimmed_start(before_semicolon(after_semicolon(line))))
}

/// Whether a text is a minus sign and a number.
fn is_negative(text: &[u8]) -> bool
    ensures { result ≡ spec_is_negative text.now }
{
    text.starts_with(b"-") && is_number(&text[1..], MOST_DIGITS)
}

/// The score that a field gives: its number, 0 for a negative one, 50 for anything else.
#[tactic(auto, using(xw_text::proofs::DigitLemmas::nine_digits))]
fn score_in(field: &[u8]) -> u64
    ensures { result ≡ spec_score_in field.now }
{
    if is_number(field, MOST_DIGITS) {
        value(field)
    } else if is_negative(field) {
        0
    } else {
        USUAL_SCORE
    }
}

/// The grade that a line of a word list gives its word.
pub fn grade_of(line: &[u8]) -> u8
    ensures { result ≡ capped (score_of line.now) }
{
    score_in(score_field(line)).min(u64::from(BEST_GRADE)) as u8
}

/// The same, where the line leaves so many letters. A line of letters alone gives no grade.
pub fn grade_beside(line: &[u8], letters: usize) -> u8
    requires { letters ≡ length (left_of line.now) }
    ensures { result ≡ capped (score_of line.now) }
{
    if letters == line.len() {
        USUAL_SCORE as u8
    } else {
        grade_of(line)
    }
}
