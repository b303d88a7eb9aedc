//! Faults of reading and writing puzzle files, and their names.
ghost use Rattle.std.specs.Prelude.{◌≡◌};
ghost use Rattle.xw_files.specs.FaultNames.{read_fault_name, write_fault_name};

use std::alloc::{AllocError, AllocFailed};
use std::fmt;
use xw_grid::cell::Cell;
use xw_grid::fault::GridFault;

/// A part of a `.puz` file whose length is known before it is read: the header of 52 bytes, and the two boards.
#[derive(Clone, Copy, Debug, PartialEq, Eq)]
pub enum Piece {
    Header,
    Boards,
}

/// A text of a puzzle. `Clue(k)` is the clue of the k-th light in light order, counted from 1.
#[derive(Clone, Copy, Debug, PartialEq, Eq)]
pub enum TextName {
    Title,
    Author,
    Copyright,
    Clue(usize),
    Notes,
}

/// A checksum of a `.puz` file. `Masked(k)` is the k-th of the eight masked bytes, counted from 1.
#[derive(Clone, Copy, Debug, PartialEq, Eq)]
pub enum SumName {
    Cib,
    File,
    Masked(usize),
}

/// A tag line of a text file.
#[derive(Clone, Copy, Debug, PartialEq, Eq)]
pub enum Tag {
    Title,
    Author,
    Copyright,
    Size,
    Grid,
    Across,
    Down,
    Notepad,
}

/// Why a file cannot be read: the first fault in the order of its format, or `Memory` if an allocation fails.
/// `docs/formats.md` has the formats and the order of their faults.
#[derive(Clone, Copy, Debug, PartialEq, Eq)]
pub enum ReadFault {
    /// The bytes end before the end of this part.
    Short(Piece),
    /// The bytes at offset 2 are not the magic.
    Magic,
    /// The version is not `1.3`.
    Version,
    /// The solution is scrambled.
    Scrambled,
    /// The width or the height is 0.
    Size,
    /// This text has no terminating NUL.
    NoNul(TextName),
    /// This checksum does not match the bytes.
    BadSum(SumName),
    /// This cell has a byte that is not a square.
    BadCell(Cell),
    /// The number of clues differs from the number of lights.
    ClueCount,
    /// An allocation failed.
    Memory,
    /// The first line of a text file is not `<ACROSS PUZZLE>`.
    Header,
    /// This tag is missing.
    Tag(Tag),
    /// There is no line `WxH` under `<SIZE>`, with sides of 1 to 255 cells.
    SizeLine,
    /// This row, from 1, has no line, a line of another length than the width, or a tag line.
    GridLine(u32),
    /// There are more clues under `<ACROSS>` than lights, or fewer.
    AcrossCount,
    /// There are more clues under `<DOWN>` than lights, or fewer.
    DownCount,
    /// The file has a NUL at this offset, from 0.
    NulByte(usize),
    /// The length of the GEXT section differs from the number of cells.
    GextSize,
    /// The checksum of the GEXT section does not match its bytes.
    GextSum,
}

impl ReadFault {
    /// Returns the name of the fault. The name does not include the location.
    pub fn name(self) -> &'static str
        ensures { result.now ≡ read_fault_name self }
    {
        match self {
            ReadFault::Short(_) => "Short",
            ReadFault::Magic => "Magic",
            ReadFault::Version => "Version",
            ReadFault::Scrambled => "Scrambled",
            ReadFault::Size => "Size",
            ReadFault::NoNul(_) => "NoNul",
            ReadFault::BadSum(_) => "BadSum",
            ReadFault::BadCell(_) => "BadCell",
            ReadFault::ClueCount => "ClueCount",
            ReadFault::Memory => "Memory",
            ReadFault::Header => "Header",
            ReadFault::Tag(_) => "Tag",
            ReadFault::SizeLine => "SizeLine",
            ReadFault::GridLine(_) => "GridLine",
            ReadFault::AcrossCount => "AcrossCount",
            ReadFault::DownCount => "DownCount",
            ReadFault::NulByte(_) => "NulByte",
            ReadFault::GextSize => "GextSize",
            ReadFault::GextSum => "GextSum",
        }
    }
}

/// Writes the name of the fault.
impl fmt::Display for ReadFault {
    ghost use Rattle.std.specs.Prelude.{Some};
    ghost use Rattle.xw_files.specs.FaultNames.{read_fault_name};

    ghost output = { λ fault. Some (read_fault_name fault) };

    fn fmt<W: fmt::Write>(&self, f: &mut fmt::Formatter<W>) -> fmt::Result {
        f.write_str(self.name())
    }
}

impl From<AllocError> for ReadFault {
    ghost use Rattle.std.specs.Prelude.{◌≡◌};
    ghost use Rattle.xw_files.specs.declared.fault.ReadFault.TheVariants.{Memory};

    ghost from_gives = { λ _ fault. fault ≡ Memory };

    fn from(_: AllocError) -> ReadFault {
        ReadFault::Memory
    }
}

impl<T: Drop> From<AllocFailed<T>> for ReadFault {
    ghost use Rattle.std.specs.Prelude.{◌≡◌};
    ghost use Rattle.xw_files.specs.declared.fault.ReadFault.TheVariants.{Memory};

    ghost from_gives = { λ _ fault. fault ≡ Memory };

    fn from(_: AllocFailed<T>) -> ReadFault {
        ReadFault::Memory
    }
}

/// After the size tests, building the parts of a puzzle fails only if an allocation fails.
impl From<GridFault> for ReadFault {
    ghost use Rattle.std.specs.Prelude.{◌≡◌};
    ghost use Rattle.xw_files.specs.declared.fault.ReadFault.TheVariants.{Memory};

    ghost from_gives = { λ _ fault. fault ≡ Memory };

    fn from(_: GridFault) -> ReadFault {
        ReadFault::Memory
    }
}

/// Why a puzzle cannot be written in a format: the first fault that applies, or `Memory` if an allocation fails.
#[derive(Clone, Copy, Debug, PartialEq, Eq)]
pub enum WriteFault {
    /// The grid has a bar.
    Barred,
    /// This cell is empty.
    NotFilled(Cell),
    /// The format cannot hold this text.
    Field(TextName),
    /// An allocation failed.
    Memory,
    /// This open cell is circled, and the text format has no circles.
    Circled(Cell),
}

impl WriteFault {
    /// Returns the name of the fault. The name does not include the location.
    pub fn name(self) -> &'static str
        ensures { result.now ≡ write_fault_name self }
    {
        match self {
            WriteFault::Barred => "Barred",
            WriteFault::NotFilled(_) => "NotFilled",
            WriteFault::Field(_) => "Field",
            WriteFault::Memory => "Memory",
            WriteFault::Circled(_) => "Circled",
        }
    }
}

/// Writes the name of the fault.
impl fmt::Display for WriteFault {
    ghost use Rattle.std.specs.Prelude.{Some};
    ghost use Rattle.xw_files.specs.FaultNames.{write_fault_name};

    ghost output = { λ fault. Some (write_fault_name fault) };

    fn fmt<W: fmt::Write>(&self, f: &mut fmt::Formatter<W>) -> fmt::Result {
        f.write_str(self.name())
    }
}

impl From<AllocError> for WriteFault {
    ghost use Rattle.std.specs.Prelude.{◌≡◌};
    ghost use Rattle.xw_files.specs.declared.fault.WriteFault.TheVariants.{Memory};

    ghost from_gives = { λ _ fault. fault ≡ Memory };

    fn from(_: AllocError) -> WriteFault {
        WriteFault::Memory
    }
}

impl<T: Drop> From<AllocFailed<T>> for WriteFault {
    ghost use Rattle.std.specs.Prelude.{◌≡◌};
    ghost use Rattle.xw_files.specs.declared.fault.WriteFault.TheVariants.{Memory};

    ghost from_gives = { λ _ fault. fault ≡ Memory };

    fn from(_: AllocFailed<T>) -> WriteFault {
        WriteFault::Memory
    }
}

/// Building the parts of a file fails only if an allocation fails.
impl From<GridFault> for WriteFault {
    ghost use Rattle.std.specs.Prelude.{◌≡◌};
    ghost use Rattle.xw_files.specs.declared.fault.WriteFault.TheVariants.{Memory};

    ghost from_gives = { λ _ fault. fault ≡ Memory };

    fn from(_: GridFault) -> WriteFault {
        WriteFault::Memory
    }
}
