//! The header of a `.puz` file.
ghost use Rattle.std.specs.Prelude.{◌≡◌, ◌≤◌, ◌/◌, ◌%◌, length};
ghost use Rattle.xw_files.specs.Puz.Reading.{cell_count, has_magic, header_at, sized_header_at};
ghost use Rattle.xw_files.specs.Puz.Spelling.{cib_bytes};

use crate::fault::{Piece, ReadFault};
use byteorder::{ByteOrder, LittleEndian};

/// The length of the header in bytes.
pub const HEADER_LENGTH: usize = 52;

/// The values of the header, by the table in `docs/formats.md`. Numbers of 16 bits are little-endian in the file.
#[derive(Clone, Copy, Debug, PartialEq, Eq)]
pub struct Header {
    /// The file checksum, at 0x00.
    pub file_sum: u16,
    /// The CIB checksum, at 0x0E.
    pub cib_sum: u16,
    /// The masked checksums, at 0x10: four low bytes, then four high bytes.
    pub masked: [u8; 8],
    pub width: u8,
    pub height: u8,
    /// The number of clues, at 0x2E.
    pub clue_count: u16,
    /// A field at 0x30 that only the checksums use. `xw` writes 1.
    pub bitmask: u16,
}

impl Header {
    /// Returns the number of cells.
    pub fn cell_count(&self) -> usize
        ensures count { result ≡ cell_count self.now }
        ensures small { result ≤ 65025 }
    {
        usize::from(self.width) * usize::from(self.height)
    }
}

/// Returns whether the bytes have the magic at its offset.
pub fn has_magic(bytes: &[u8]) -> bool
    ensures { result ≡ has_magic bytes.now }
{
    bytes.len() >= 0x0E && &bytes[0x02..0x0E] == b"ACROSS&DOWN\0".as_slice()
}

/// Reads the header. Returns the first fault in the order `Short`, `Magic`, `Version`, `Scrambled`, `Size`.
#[tactic(auto, unfolding(crate::specs::Puz::Reading::header_at))]
pub fn header_of(bytes: &[u8]) -> Result<Header, ReadFault>
    ensures { result ≡ header_at bytes.now }
{
    if bytes.len() < HEADER_LENGTH {
        return Err(ReadFault::Short(Piece::Header));
    }
    if !has_magic(bytes) {
        return Err(ReadFault::Magic);
    }
    if &bytes[0x18..0x1C] != b"1.3\0".as_slice() {
        return Err(ReadFault::Version);
    }
    if LittleEndian::read_u16(&bytes[0x32..]) != 0 {
        return Err(ReadFault::Scrambled);
    }
    sized_header_of(bytes)
}

/// Reads the values of a header whose magic, version and scrambled tag are already checked.
#[tactic(auto, unfolding(crate::specs::Puz::Reading::sized_header_at))]
fn sized_header_of(bytes: &[u8]) -> Result<Header, ReadFault>
    requires { 52 ≤ length bytes.now }
    ensures { result ≡ sized_header_at bytes.now }
{
    let width = bytes[0x2C];
    let height = bytes[0x2D];
    if width == 0 || height == 0 {
        return Err(ReadFault::Size);
    }
    let mut masked = [0; 8];
    masked.copy_from_slice(&bytes[0x10..0x18]);
    Ok(Header {
        file_sum: LittleEndian::read_u16(bytes),
        cib_sum: LittleEndian::read_u16(&bytes[0x0E..]),
        masked,
        width,
        height,
        clue_count: LittleEndian::read_u16(&bytes[0x2E..]),
        bitmask: LittleEndian::read_u16(&bytes[0x30..]),
    })
}

/// Returns the bytes covered by the CIB checksum.
pub fn cib_bytes(header: &Header) -> [u8; 8]
    ensures { result ≡ cib_bytes header.now }
{
    [
        header.width,
        header.height,
        low_byte(header.clue_count),
        high_byte(header.clue_count),
        low_byte(header.bitmask),
        high_byte(header.bitmask),
        0,
        0,
    ]
}

/// Returns the low byte of a number, which comes first in a file.
pub fn low_byte(number: u16) -> u8
    ensures { result ≡ number % 256 }
{
    (number % 256) as u8
}

/// Returns the high byte of a number.
pub fn high_byte(number: u16) -> u8
    ensures { result ≡ number / 256 % 256 }
{
    (number / 256) as u8
}
