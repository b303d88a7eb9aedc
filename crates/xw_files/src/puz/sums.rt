//! The checksums of a `.puz` file.
ghost use Rattle.std.specs.Prelude.{◌≡◌, flat_map, map};
ghost use Rattle.xw_files.specs.Puz.Sums.{summed, sum_from, counted, text_bytes, sums_of, masked_of, wrong_masked, wrong_sum};
ghost use Rattle.xw_files.specs.Puz.View.{view};

use crate::fault::SumName;
use crate::puz::fields::Fields;
use crate::puz::header::{self, Header, high_byte, low_byte};

/// The checksums of the fields of a file.
#[derive(Clone, Copy, Debug, PartialEq, Eq)]
pub struct Sums {
    pub cib: u16,
    pub solution: u16,
    pub state: u16,
    pub text: u16,
    pub file: u16,
}

impl Sums {
    /// Computes the checksums of the fields.
    pub fn of(fields: &Fields<'_>) -> Sums
        ensures { result ≡ sums_of (view fields.now) }
    {
        let cib = sum_from(0, &header::cib_bytes(&fields.header));
        let boards = sum_from(sum_from(cib, fields.solution), fields.state);
        Sums {
            cib,
            solution: sum_from(0, fields.solution),
            state: sum_from(0, fields.state),
            text: sum_texts(0, fields),
            file: sum_texts(boards, fields),
        }
    }

    /// Returns the masked bytes of these checksums.
    pub fn masked(&self) -> [u8; 8]
        ensures { result ≡ masked_of self.now }
    {
        [
            b'I' ^ low_byte(self.cib),
            b'C' ^ low_byte(self.solution),
            b'H' ^ low_byte(self.state),
            b'E' ^ low_byte(self.text),
            b'A' ^ high_byte(self.cib),
            b'T' ^ high_byte(self.solution),
            b'E' ^ high_byte(self.state),
            b'D' ^ high_byte(self.text),
        ]
    }

    /// Returns the first checksum of a header that differs from these.
    pub fn wrong_in(&self, header: &Header) -> Option<SumName>
        ensures { result ≡ wrong_sum header.now self.now }
    {
        if header.cib_sum != self.cib {
            return Some(SumName::Cib);
        }
        if header.file_sum != self.file {
            return Some(SumName::File);
        }
        wrong_masked(&header.masked, &self.masked())
    }
}

/// Returns the first masked byte that differs.
fn wrong_masked(masked: &[u8; 8], computed: &[u8; 8]) -> Option<SumName>
    ensures { result ≡ wrong_masked 1 masked.now computed.now }
{
    for index in 0..8 {
        if masked[index] != computed[index] {
            return Some(SumName::Masked(index + 1));
        }
    }
    None
}

/// Adds one byte to a checksum.
fn add_byte(sum: u16, byte: u8) -> u16
    ensures { result ≡ summed sum byte }
{
    let rotated = sum / 2 + 0x8000 * (sum % 2);
    rotated.wrapping_add(u16::from(byte))
}

/// Returns the checksum of bytes, from a start value.
pub fn sum_from(start: u16, bytes: &[u8]) -> u16
    ensures { result ≡ sum_from start bytes.now }
{
    bytes.iter().fold(start, |sum, byte| add_byte(sum, *byte))
}

/// Adds a text and its NUL to a checksum. An empty text adds nothing.
#[tactic(auto, using(crate::proofs::PuzLemmas::SumLemmas::sum_steps))]
fn sum_text(start: u16, text: &[u8]) -> u16
    ensures { result ≡ sum_from start (counted text.now) }
{
    if text.is_empty() {
        start
    } else {
        add_byte(sum_from(start, text), 0)
    }
}

/// Adds clues without their NULs to a checksum.
fn sum_clues(start: u16, clues: &[&[u8]]) -> u16
    ensures { result ≡ sum_from start (flat_map (λ clue. clue) (map (λ clue. clue.now) clues.now)) }
{
    let mut sum = start;
    for clue in clues {
        sum = sum_from(sum, clue);
    }
    sum
}

/// Adds title, author, copyright, clues and notes to a checksum.
#[tactic(auto, using(crate::proofs::PuzLemmas::SumLemmas::sum_steps))]
fn sum_texts(start: u16, fields: &Fields<'_>) -> u16
    ensures { result ≡ sum_from start (text_bytes (view fields.now)) }
{
    let sum = sum_text(start, fields.title);
    let sum = sum_text(sum, fields.author);
    let sum = sum_text(sum, fields.copyright);
    let sum = sum_clues(sum, &fields.clues);
    sum_text(sum, fields.notes)
}
