//! Tells the two file formats apart.
ghost use Rattle.std.specs.Prelude.{◌≡◌, ◌↔◌, take, drop};
ghost use Rattle.xw_files.specs.Puz.Reading.{magic};
ghost use Rattle.xw_files.specs.declared.kind.Kind.TheVariants as kinds;

use crate::puz;

/// A puzzle file format.
#[derive(Clone, Copy, Debug, PartialEq, Eq)]
pub enum Kind {
    /// The binary format `.puz`, version 1.3.
    Puz,
    /// The text format, which begins with `<ACROSS PUZZLE>`.
    Text,
}

/// Returns the format of a file: `Puz` if it has the `.puz` magic at offset 2, and `Text` otherwise.
pub fn kind_of(bytes: &[u8]) -> Kind
    ensures { (result ≡ kinds.Puz) ↔ (take 12 (drop 2 bytes.now) ≡ magic) }
{
    if puz::has_magic(bytes) {
        Kind::Puz
    } else {
        Kind::Text
    }
}
