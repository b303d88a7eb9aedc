//! The format that a file's name asks for, and how the file of a session begins.
ghost use Rattle.std.specs.Prelude.{◌≡◌, ◌↔◌, IsTrue, codes};
ghost use Rattle.xw_desk.specs.Names.{is_session, without_mark, HasEnding, IsKindNamed};

use xw_files::Kind;

/// The line with which the file of a session begins, without its LF.
const SESSION_LINE: &[u8] = b"# xw session 1";

/// Returns the format to write for a file name: `Puz` if the name ends with `.puz` in any case, and `Text` otherwise.
pub fn kind_by_name(name: &str) -> Kind
    ensures { IsKindNamed name.now result }
{
    let name = name.as_bytes();
    let ending = &name[name.len().saturating_sub(4)..];
    if ending.eq_ignore_ascii_case(b".puz") {
        Kind::Puz
    } else {
        Kind::Text
    }
}

/// Returns whether a file name ends with `.txt` in any case.
pub fn is_named_text(name: &str) -> bool
    ensures { IsTrue result ↔ HasEnding name.now (codes ".txt") }
{
    let name = name.as_bytes();
    name[name.len().saturating_sub(4)..].eq_ignore_ascii_case(b".txt")
}

/// Returns whether the bytes of a file are those of a session.
pub fn is_session(bytes: &[u8]) -> bool
    ensures { result ≡ is_session bytes.now }
{
    without_mark(bytes).starts_with(SESSION_LINE)
}

/// Returns the bytes of a file without a byte order mark at their start.
fn without_mark(bytes: &[u8]) -> &[u8]
    ensures { result.now ≡ without_mark bytes.now }
{
    if bytes.starts_with(&[0xEF, 0xBB, 0xBF]) {
        &bytes[3..]
    } else {
        bytes
    }
}
