//! The status with which a call of the library ends, and its code.
ghost use Rattle.std.specs.Prelude.{◌≡◌, ◌++◌, ◌∷◌, []};
ghost use Rattle.xw_c.specs.Status.{code_of, name_of_code, read_code, write_code};

use xw_files::{ReadFault, WriteFault};
use xw_lines::Step;

/// How a call ends. Each status has a code, which programs in other languages see.
#[derive(Clone, Copy, Debug, PartialEq, Eq)]
pub enum Status {
    /// The call was done. A line was accepted.
    Accepted,
    /// A line was refused, or some lines of a record were.
    Refused,
    /// The line is blank or a comment, which has no answer.
    Silent,
    /// There is no open session.
    Closed,
    /// There is an open session already.
    Open,
    /// An allocation failed.
    Memory,
    /// A line of a record is not a command.
    NoCommand,
    /// The word list has too many words of one length.
    Full,
    /// The puzzle cannot be read.
    Unread(ReadFault),
    /// The puzzle cannot be written in this format.
    Unwritten(WriteFault),
    /// The end of a record was cut off, and the lines there were not executed.
    Cut,
}

impl Status {
    ghost use Rattle.xw_c.specs.Status.{step_status};

    /// The status of a line with this outcome.
    pub fn of_step(step: Step) -> Status
        ensures { result ≡ step_status step }
    {
        match step {
            Step::Silent => Status::Silent,
            Step::Accepted => Status::Accepted,
            Step::Refused => Status::Refused,
        }
    }

    /// The code of a status, as `enum xw_status` of `include/xw.h` has it.
    pub fn code(self) -> u32
        ensures { result ≡ code_of self }
    {
        match self {
            Status::Accepted => 0,
            Status::Refused => 1,
            Status::Silent => 2,
            Status::Closed => 3,
            Status::Open => 4,
            Status::Memory => 5,
            Status::NoCommand => 6,
            Status::Full => 7,
            Status::Unread(fault) => read_code(fault),
            Status::Unwritten(fault) => write_code(fault),
            Status::Cut => 30,
        }
    }
}

impl From<ReadFault> for Status {
    ghost use Rattle.std.specs.Prelude.{◌≡◌};
    ghost use Rattle.xw_c.specs.declared.status.Status.TheVariants.{Unread};

    ghost from_gives = { λ fault status. status ≡ Unread fault };

    fn from(read: ReadFault) -> Status {
        Status::Unread(read)
    }
}

fn read_code(fault: ReadFault) -> u32
    ensures { result ≡ read_code fault }
{
    match fault {
        ReadFault::Memory => 5,
        ReadFault::Short(_) => 8,
        ReadFault::Magic => 9,
        ReadFault::Version => 10,
        ReadFault::Scrambled => 11,
        ReadFault::Size => 12,
        ReadFault::NoNul(_) => 13,
        ReadFault::BadSum(_) => 14,
        ReadFault::BadCell(_) => 15,
        ReadFault::ClueCount => 16,
        ReadFault::Header => 17,
        ReadFault::Tag(_) => 18,
        ReadFault::SizeLine => 19,
        ReadFault::GridLine(_) => 20,
        ReadFault::AcrossCount => 21,
        ReadFault::DownCount => 22,
        ReadFault::NulByte(_) => 23,
        ReadFault::GextSize => 24,
        ReadFault::GextSum => 25,
    }
}

fn write_code(fault: WriteFault) -> u32
    ensures { result ≡ write_code fault }
{
    match fault {
        WriteFault::Memory => 5,
        WriteFault::Barred => 26,
        WriteFault::NotFilled(_) => 27,
        WriteFault::Field(_) => 28,
        WriteFault::Circled(_) => 29,
    }
}

/// The name of the status with a code, and `Unknown` for any other code, with a NUL at its end.
pub fn name_of_code(code: u32) -> &'static [u8]
    ensures { result.now ≡ name_of_code code ++ 0 ∷ [] }
{
    match code {
        0 => b"Accepted\0",
        1 => b"Refused\0",
        2 => b"Silent\0",
        3 => b"Closed\0",
        4 => b"Open\0",
        5 => b"Memory\0",
        6 => b"NoCommand\0",
        7 => b"Full\0",
        8 => b"Short\0",
        9 => b"Magic\0",
        10 => b"Version\0",
        11 => b"Scrambled\0",
        12 => b"Size\0",
        13 => b"NoNul\0",
        14 => b"BadSum\0",
        15 => b"BadCell\0",
        16 => b"ClueCount\0",
        17 => b"Header\0",
        18 => b"Tag\0",
        19 => b"SizeLine\0",
        20 => b"GridLine\0",
        21 => b"AcrossCount\0",
        22 => b"DownCount\0",
        23 => b"NulByte\0",
        24 => b"GextSize\0",
        25 => b"GextSum\0",
        26 => b"Barred\0",
        27 => b"NotFilled\0",
        28 => b"Field\0",
        29 => b"Circled\0",
        30 => b"Cut\0",
        _ => b"Unknown\0",
    }
}
