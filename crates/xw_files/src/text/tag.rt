//! The tag lines of the text format.
ghost use Rattle.std.specs.Prelude.{◌≡◌, codes};
ghost use Rattle.xw_files.specs.Text.Tag.{name_of, is_tag_line as spec_is_tag_line, names as spec_names};

use crate::fault::Tag;

/// The first line of a text file.
const HEADER: &[u8] = b"<ACROSS PUZZLE>";

impl Tag {
    /// Returns the spelling of the tag.
    pub(crate) fn name(self) -> &'static [u8]
        ensures { result.now ≡ name_of self }
    {
        match self {
            Tag::Title => b"<TITLE>",
            Tag::Author => b"<AUTHOR>",
            Tag::Copyright => b"<COPYRIGHT>",
            Tag::Size => b"<SIZE>",
            Tag::Grid => b"<GRID>",
            Tag::Across => b"<ACROSS>",
            Tag::Down => b"<DOWN>",
            Tag::Notepad => b"<NOTEPAD>",
        }
    }
}

/// Returns whether a line is this tag, ignoring ASCII case.
pub(crate) fn names(line: &[u8], tag: &[u8]) -> bool
    ensures { result ≡ spec_names line.now tag.now }
{
    line.eq_ignore_ascii_case(tag)
}

/// Returns whether a line begins with `<`, as every tag does.
pub(crate) fn is_tag_line(line: &[u8]) -> bool
    ensures { result ≡ spec_is_tag_line line.now }
{
    matches!(line, [b'<', ..])
}

/// Returns the first line of a text file.
pub(crate) fn header() -> &'static [u8]
    ensures { result.now ≡ codes "<ACROSS PUZZLE>" }
{
    HEADER
}
