//! Checks words and patterns that come as bytes.
ghost use Rattle.std.specs.Prelude.{map, take, None, ◌≡◌, ℕ, length, position, IfSome, ◌<◌, ◌≤◌};
ghost use Rattle.xw_letters.specs.Letter.{is_letter as spec_is_letter, folded};
ghost use Rattle.xw_words.specs.Word.{judged, is_bad_letter, is_bad_in_pattern};

use crate::fault::WordFault;
use xw_letters::letter::Letter;

/// The least length of a word.
pub const SHORTEST: usize = 2;

/// The greatest length of a word.
pub const LONGEST: usize = 255;

/// Whether a byte is an ASCII letter of either case.
pub(crate) fn is_letter(byte: u8) -> bool
    ensures { result ≡ spec_is_letter byte }
{
    matches!(byte, b'A'..=b'Z' | b'a'..=b'z')
}

/// The index of the first byte that is not a letter.
pub fn bad_letter(bytes: &[u8]) -> Option<usize>
    ensures { result ≡ position is_bad_letter bytes.now }
{
    bytes.iter().position(|byte| !is_letter(*byte))
}

/// The index of the first byte that is neither a letter nor a dot.
fn bad_in_pattern(bytes: &[u8]) -> Option<usize>
    ensures { result ≡ position is_bad_in_pattern bytes.now }
{
    bytes
        .iter()
        .position(|byte| !(is_letter(*byte) || *byte == b'.'))
}

/// Returns `BadLetter` if there is a bad byte, and otherwise checks the length.
fn judge(bad: Option<usize>, len: usize) -> Result<(), WordFault>
    requires { IfSome bad (λ position. position < len) }
    ensures { result ≡ judged bad len tt }
{
    match bad {
        Some(position) => Err(WordFault::BadLetter(position + 1)),
        None => judge_length(len),
    }
}

/// Returns `Length` if no word has this length.
pub(crate) fn judge_length(len: usize) -> Result<(), WordFault>
    ensures { result ≡ judged None len tt }
{
    if (SHORTEST..=LONGEST).contains(&len) {
        Ok(())
    } else {
        Err(WordFault::Length)
    }
}

/// Checks that the bytes are letters, and as many as a word can have.
pub(crate) fn judge_word(bytes: &[u8]) -> Result<(), WordFault>
    ensures { result ≡ judged (position is_bad_letter bytes.now) (length bytes.now) tt }
{
    judge(bad_letter(bytes), bytes.len())
}

/// Checks that the bytes are letters and dots, and as many as a word can have.
pub(crate) fn judge_pattern(bytes: &[u8]) -> Result<(), WordFault>
    ensures { result ≡ judged (position is_bad_in_pattern bytes.now) (length bytes.now) tt }
{
    judge(bad_in_pattern(bytes), bytes.len())
}

/// Writes the letters for the bytes to the start of `letters`.
pub fn spell(letters: &mut [Letter], bytes: &[u8])
    requires letters { position is_bad_letter bytes.now ≡ None }
    requires room { length bytes.now ≤ length letters.old }
    ensures { take (length bytes.now) letters.new ≡ map folded bytes.now }
{
    for position in 0..bytes.len() {
        letters[position] = Letter::capital(bytes[position]);
    }
}
