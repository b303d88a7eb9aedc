//! The file of a session, which is a journal or a saved record: its first line, and which of its lines are executed.
ghost use Rattle.std.specs.Prelude.{◌≡◌, ◌++◌, ℕ, List, IfOk};
ghost use Rattle.xw_lines.specs.Cut.{ended_lines, last_piece, lines_of};
ghost use Rattle.xw_session.specs.Record.{record_lines};
ghost use Rattle.xw_journal.specs.File.{first_line, form_of as spec_form_of, is_cut as spec_is_cut, is_part as spec_is_part, is_whole as spec_is_whole, kept_bytes, kept_lines};

use crate::group::complete;
use std::alloc::{AllocError, Global};
use xw_feas::feasible::Feasible;
use xw_session::Session;
use xw_session::saving::record;

/// The first line of a file that the program writes: a comment, with its LF.
pub const FIRST_LINE: &[u8] = b"# xw session 1\n";

/// What the bytes of a file are to a journal.
#[derive(Clone, Copy, Debug, PartialEq, Eq)]
pub enum Form {
    /// Nothing, or a part of the first line: a journal that has just begun.
    Begun,
    /// It begins with the first line.
    Named,
    /// Whole lines, without the first line.
    Whole,
    /// The last line has no LF, and the first line is missing.
    Cut,
}

/// Whether the bytes are a part of the first line: its beginning, or nothing.
fn is_part(bytes: &[u8]) -> bool
    ensures { result ≡ spec_is_part bytes.now }
{
    FIRST_LINE.starts_with(bytes) && bytes.len() < FIRST_LINE.len()
}

/// Whether each line has an LF.
fn is_whole(bytes: &[u8]) -> bool
    ensures { result ≡ spec_is_whole bytes.now }
{
    whole_lines(bytes).len() == bytes.len()
}

/// Returns what the bytes of a file are to a journal.
pub fn form_of(bytes: &[u8]) -> Form
    ensures { result ≡ spec_form_of bytes.now }
{
    if is_part(bytes) {
        Form::Begun
    } else if bytes.starts_with(FIRST_LINE) {
        Form::Named
    } else if is_whole(bytes) {
        Form::Whole
    } else {
        Form::Cut
    }
}

/// Returns the bytes up to the last LF.
fn whole_lines(bytes: &[u8]) -> &[u8]
    ensures lines { lines_of result.now ≡ ended_lines bytes.now }
    ensures rest { bytes.now ≡ result.now ++ last_piece bytes.now }
{
    let mut end = bytes.len();
    while end > 0 && bytes[end - 1] != b'\n' {
        end -= 1;
    }
    &bytes[..end]
}

/// Returns the lines of a file that are executed.
pub fn kept(bytes: &[u8]) -> &[u8]
    ensures lines { lines_of result.now ≡ kept_lines bytes.now }
    ensures bytes { result.now ≡ kept_bytes bytes.now }
    ensures front { (rest : List ℕ) × (bytes.now ≡ result.now ++ rest) }
{
    if bytes.starts_with(FIRST_LINE) {
        complete(bytes)
    } else {
        bytes
    }
}

/// Returns whether a file was cut while it was written, so that the bytes at its end do not count.
pub fn is_cut(bytes: &[u8]) -> bool
    ensures { result ≡ spec_is_cut bytes.now }
{
    kept(bytes).len() < bytes.len()
}

/// Returns the file of a session: the first line and the record.
pub fn saved<F: Feasible>(alloc: Global, session: &Session<F>) -> Result<Vec<u8>, AllocError>
    ensures { IfOk result (λ bytes. bytes.items ≡ first_line ++ record_lines session.now) }
{
    let record = record(alloc, session)?;
    let mut bytes = Vec::with_capacity(alloc, FIRST_LINE.len() + record.len())?;
    bytes.extend_from_slice(FIRST_LINE)?;
    bytes.extend_from_slice(record.as_slice())?;
    Ok(bytes)
}
