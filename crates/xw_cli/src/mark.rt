//! A byte order mark before the first line of a session, which counts for nothing.
ghost use Rattle.std.specs.Prelude.{◌≡◌};
ghost use Rattle.xw_words.specs.WordList.{without_mark as spec_without_mark};
ghost use Rattle.xw_cli.specs.SessionFiles.{unmarked as spec_unmarked};

use xw_journal::file::FIRST_LINE;

/// Returns the bytes of a file without a byte order mark before the first line of a session.
pub fn unmarked(bytes: &[u8]) -> &[u8]
    ensures { result.now ≡ spec_unmarked bytes.now }
{
    let body = without_mark(bytes);
    if body.starts_with(FIRST_LINE) {
        body
    } else {
        bytes
    }
}

/// Returns bytes without a byte order mark at their start.
fn without_mark(bytes: &[u8]) -> &[u8]
    ensures { result.now ≡ spec_without_mark bytes.now }
{
    if bytes.starts_with(&[0xEF, 0xBB, 0xBF]) {
        &bytes[3..]
    } else {
        bytes
    }
}
