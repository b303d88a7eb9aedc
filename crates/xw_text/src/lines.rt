//! The first line of a text, and a law about its lines. `specs/Lines.antt` defines them.
ghost use Rattle.std.specs.Prelude.{◌≡◌, ℕ, ◌<◌, List, ◌∷◌, ◌++◌, length, position, IfSome};
ghost use Rattle.xw_text.specs.Lines.{is_line_feed, HasNoLf, AllHaveNoLf, lines_of, with_lfs, last_line};

use memchr::memchr;

/// The index of the first line feed.
pub fn line_end(bytes: &[u8]) -> Option<usize>
    ensures index { result ≡ position is_line_feed bytes.now }
    ensures within { IfSome result (λ index. index < length bytes.now) }
{
    memchr(b'\n', bytes)
}

/// Splits off the first line; returns it and the bytes after its line feed.
pub fn first_line(bytes: &[u8]) -> (&[u8], &[u8])
    requires { 0 < length bytes.now }
    ensures lines { lines_of bytes.now ≡ result.0.now ∷ lines_of result.1.now }
    ensures rest { length result.1.now < length bytes.now }
{
    match line_end(bytes) {
        Some(end) => (&bytes[..end], &bytes[end + 1..]),
        None => (bytes, &bytes[bytes.len()..]),
    }
}

/// The lines of a text are its pieces between line feeds. The piece after the last line feed is a
/// line unless it is empty.
pub fn lines_are_pieces_between_line_feeds()
    ensures { (lines : List (List ℕ)) (rest : List ℕ) → AllHaveNoLf lines → HasNoLf rest
        → lines_of (with_lfs lines rest) ≡ lines ++ last_line rest }
{}
