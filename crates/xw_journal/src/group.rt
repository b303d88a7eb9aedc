//! Groups of lines: a comment, commands, and another comment. A group that was cut is not executed at all.
ghost use Rattle.std.specs.Prelude.{◌≡◌, ℕ, List, [], ◌++◌};
ghost use Rattle.xw_lines.specs.Cut.{ended_lines, lines_of, with_lfs};
ghost use Rattle.xw_journal.specs.Group.{complete as spec_complete, open_after as spec_open_after};

use xw_lines::run::next_lf;

/// The comment before a group.
pub const BEGIN: &[u8] = b"# xw begin";

/// The comment after a group.
pub const END: &[u8] = b"# xw end";

/// Returns the start of the group that is still open after a line, if there is one. `begun` is the start of the group
/// that is open before the line, and `from` is the start of the line.
fn open_after(begun: Option<usize>, from: usize, line: &[u8]) -> Option<usize>
    ensures { result ≡ spec_open_after begun from line.now }
{
    if line == BEGIN {
        begun.or(Some(from))
    } else if line == END {
        None
    } else {
        begun
    }
}

/// Returns the bytes before a last line without an LF, and before the first group without an end.
pub fn complete(bytes: &[u8]) -> &[u8]
    ensures lines { lines_of result.now ≡ spec_complete (ended_lines bytes.now) }
    ensures bytes { result.now ≡ with_lfs (spec_complete (ended_lines bytes.now)) [] }
    ensures front { (rest : List ℕ) × (bytes.now ≡ result.now ++ rest) }
{
    let mut open = None;
    let mut from = 0;
    while let Some(end) = next_lf(bytes, from) {
        open = open_after(open, from, &bytes[from..end]);
        from = end + 1;
    }
    &bytes[..open.unwrap_or(from)]
}
