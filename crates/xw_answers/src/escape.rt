//! Escapes in texts: LF, CR, tab, space and backslash as a backslash and a letter.
ghost use Rattle.std.specs.Prelude.{◌≡◌, ℕ, ◌<◌, ◌++◌, [], ◌∷◌, List, Some, length, not, IfOk, OnOk, OnErr, MatchOption};
ghost use Rattle.std.specs.Option.{is_some};
ghost use Rattle.xw_answers.specs.Escape.{meaning as spec_meaning, added as spec_added, begins_escape as spec_begins_escape, text_spelled, letter_for as spec_letter_for, is_end as spec_is_end};

use std::alloc::{AllocError, Global};

/// Returns the byte of an escape, from the letter after its backslash.
fn meaning(letter: u8) -> Option<u8>
    ensures { result ≡ spec_meaning letter }
{
    match letter {
        b'n' => Some(b'\n'),
        b'r' => Some(b'\r'),
        b't' => Some(b'\t'),
        b's' => Some(b' '),
        b'\\' => Some(b'\\'),
        _ => None,
    }
}

fn begins_escape(is_within: bool, byte: u8) -> bool
    ensures { result ≡ spec_begins_escape is_within byte }
{
    !is_within && byte == b'\\'
}

/// Returns whether a byte ends an invalid escape.
fn is_fault(is_within: bool, byte: u8) -> bool
    ensures { result ≡ not (is_some (spec_added is_within byte)) }
{
    is_within && meaning(byte).is_none()
}

/// Returns whether all escapes of a spelling are valid and complete.
pub fn is_spelling(spelling: &[u8]) -> bool
    ensures { result ≡ is_some (text_spelled spelling.now) }
{
    let mut is_within = false;
    for byte in spelling {
        if is_fault(is_within, *byte) {
            return false;
        }
        is_within = begins_escape(is_within, *byte);
    }
    !is_within
}

/// Returns the byte that a byte of a spelling adds to its text. `is_within` says whether a backslash of an escape
/// precedes it. A backslash that begins an escape adds nothing.
fn added(is_within: bool, byte: u8) -> Option<u8>
    ensures { MatchOption result
        ((front : List ℕ) → spec_added is_within byte ≡ Some front → front ≡ [])
        (λ added. spec_added is_within byte ≡ Some (added ∷ [])) }
{
    if is_within {
        return meaning(byte);
    }
    if begins_escape(is_within, byte) {
        None
    } else {
        Some(byte)
    }
}

/// Appends the text of a spelling. If the spelling is invalid, what is appended is unspecified. If the allocation
/// fails, the text is unchanged.
pub fn append(text: &mut Vec<u8>, spelling: &[u8]) -> Result<(), AllocError>
    ensures ok { OnOk result ((piece : List ℕ) → text_spelled spelling.now ≡ Some piece → text.new.items ≡ text.old.items ++ piece) }
    ensures err { OnErr result (text.new.items ≡ text.old.items) }
{
    text.reserve(spelling.len())?;
    let mut is_within = false;
    for byte in spelling {
        if let Some(byte) = added(is_within, *byte) {
            let _ = text.push(byte);
        }
        is_within = begins_escape(is_within, *byte);
    }
    Ok(())
}

/// Returns the text of a spelling appended to another text. If the spelling is invalid, what is appended is
/// unspecified.
pub fn behind(alloc: Global, front: &[u8], spelling: &[u8]) -> Result<Vec<u8>, AllocError>
    ensures { IfOk result (λ text. (piece : List ℕ) → text_spelled spelling.now ≡ Some piece → text.items ≡ front.now ++ piece) }
{
    let mut text = Vec::from_slice(alloc, front)?;
    append(&mut text, spelling)?;
    Ok(text)
}

/// Returns the escape letter of a byte, if it needs one. Spaces and tabs need one only at an end of the text.
pub(crate) fn letter_for(is_end: bool, byte: u8) -> Option<u8>
    ensures { result ≡ spec_letter_for is_end byte }
{
    match byte {
        b'\n' => Some(b'n'),
        b'\r' => Some(b'r'),
        b'\\' => Some(b'\\'),
        b' ' if is_end => Some(b's'),
        b'\t' if is_end => Some(b't'),
        _ => None,
    }
}

/// Returns whether an index is that of the first or the last byte.
pub(crate) fn is_end(text: &[u8], index: usize) -> bool
    requires { index < length text.now }
    ensures { result ≡ spec_is_end text.now index }
{
    index == 0 || index + 1 == text.len()
}
