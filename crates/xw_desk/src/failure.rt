//! Failures that end a run, and exit statuses.
ghost use Rattle.std.specs.Prelude.{◌≡◌, ◌++◌, codes};
ghost use Rattle.std.specs.Fmt.{WritesOnOk};
ghost use Rattle.std.specs.Process.{exit_status};
ghost use Rattle.xw_desk.specs.ExitStatus.{code_of, status_of, run_ended};
ghost use Rattle.xw_desk.specs.Explained.{is_of_disk};
ghost use Rattle.xw_desk.specs.Failures.{IsFaultOf, IsOldFaultOf};
ghost use Rattle.xw_disk.specs.Kept.{kept_name};

use crate::apart::FileConflict;
use crate::location::Location;
use std::alloc::AllocError;
use std::fmt;
use std::process::ExitCode;
use xw_disk::{DiskFault, SameFile, Unkept};
use xw_lines::RunEnd;

/// The outcome of a run, as the exit status of the program.
#[derive(Clone, Copy, Debug, PartialEq, Eq)]
pub enum ExitStatus {
    /// Every command was accepted, or help was requested.
    Accepted,
    /// At least one command was refused.
    Refused,
    /// The arguments are invalid.
    Usage,
    /// A file is malformed, a word list has too many words, or a file format cannot hold the puzzle.
    Format,
    /// An allocation or a stream failed, or a file could not be read or written.
    Failed,
}

impl ExitStatus {
    pub fn code(self) -> u8
        ensures { result ≡ code_of self }
    {
        match self {
            ExitStatus::Accepted => 0,
            ExitStatus::Refused => 1,
            ExitStatus::Usage => 2,
            ExitStatus::Format => 3,
            ExitStatus::Failed => 4,
        }
    }

    pub fn exit_code(self) -> ExitCode
        ensures { exit_status result ≡ code_of self }
    {
        ExitCode::from(self.code())
    }
}

/// A failure that ends a run early, with the names of the call. Its text is the message to print.
#[derive(Clone, Copy)]
pub enum Failure<'a> {
    Input,
    Output,
    Memory,
    CannotRead {
        file: &'a str,
    },
    CannotWrite {
        file: &'a str,
    },
    InUse {
        file: &'a str,
    },
    Replaced {
        file: &'a str,
    },
    /// The old file cannot be kept under the name with this number.
    OldUnwritable {
        file: &'a str,
        number: u32,
    },
    File {
        file: &'a str,
        name: &'static str,
    },
    Located {
        file: &'a str,
        name: &'static str,
        location: Location,
    },
    Line {
        file: &'a str,
        number: usize,
        name: &'static str,
    },
    /// Two files of the call are one, and must not be. `file` is the name of the second.
    SameFile {
        conflict: FileConflict,
        file: &'a str,
        same: SameFile<'a>,
    },
    /// The name for the session asks for `.puz`.
    SavedAsPuz {
        file: &'a str,
    },
    /// Two of the files to start with are standard input.
    InputTwice,
}

impl<'a> fmt::Display for Failure<'a> {
    ghost use Rattle.std.specs.Prelude.{Some};
    ghost use Rattle.xw_desk.specs.Failures.{failure_text};

    ghost output = { λ failure. Some (failure_text failure) };

    fn fmt<W: fmt::Write>(&self, f: &mut fmt::Formatter<W>) -> fmt::Result {
        match *self {
            Failure::Input => f.write_str("xw: input fault"),
            Failure::Output => f.write_str("xw: output fault"),
            Failure::Memory => f.write_str("xw: memory"),
            Failure::CannotRead { file } => write_named(f, file, ": cannot read"),
            Failure::CannotWrite { file } => write_named(f, file, ": cannot write"),
            Failure::InUse { file } => write_named(f, file, ": in use"),
            Failure::Replaced { file } => write_named(f, file, ": replaced"),
            Failure::OldUnwritable { file, number } => write_unkept(f, file, number),
            Failure::File { file, name } => write!(f, "xw: {file}: {name}"),
            Failure::Located {
                file,
                name,
                location,
            } => write!(f, "xw: {file}: {name}\nxw: {location}"),
            Failure::Line { file, number, name } => {
                write!(f, "xw: {file}: line {number}: {name}")
            }
            Failure::SameFile { conflict, file, .. } => write_named(f, file, conflict.reason()),
            Failure::SavedAsPuz { file } => {
                write_named(f, file, ": the session cannot be written as .puz")
            }
            Failure::InputTwice => f.write_str("xw: -: standard input can be read only once"),
        }
    }
}

/// Writes a message that begins with the name of a file.
fn write_named<W: fmt::Write>(f: &mut fmt::Formatter<W>, file: &str, said: &str) -> fmt::Result
    ensures { WritesOnOk W.write_str_gives f.old result (codes "xw: " ++ file.now ++ said.now) f.new }
{
    write!(f, "xw: {file}{said}")
}

/// Writes the message of a file that cannot be kept under the name with this number.
fn write_unkept<W: fmt::Write>(f: &mut fmt::Formatter<W>, file: &str, number: u32) -> fmt::Result
    ensures { WritesOnOk W.write_str_gives f.old result (codes "xw: " ++ kept_name file.now number ++ codes ": cannot write") f.new }
{
    if number == 1 {
        return write!(f, "xw: {file}~: cannot write");
    }
    write!(f, "xw: {file}~{number}: cannot write")
}

impl<'a> Failure<'a> {
    pub fn status(&self) -> ExitStatus
        ensures { result ≡ status_of self.now }
    {
        match self {
            Failure::File { .. } => ExitStatus::Format,
            Failure::Located { .. } => ExitStatus::Format,
            Failure::Line { .. } => ExitStatus::Format,
            Failure::SameFile { .. } => ExitStatus::Usage,
            Failure::SavedAsPuz { .. } => ExitStatus::Usage,
            Failure::InputTwice => ExitStatus::Usage,
            _ => ExitStatus::Failed,
        }
    }

    /// Returns whether a call of the system failed on a file.
    pub fn is_of_disk(&self) -> bool
        ensures { result ≡ is_of_disk self.now }
    {
        match self {
            Failure::CannotRead { .. } => true,
            Failure::CannotWrite { .. } => true,
            Failure::OldUnwritable { .. } => true,
            _ => false,
        }
    }
}

impl<'a> From<AllocError> for Failure<'a> {
    ghost use Rattle.std.specs.Prelude.{◌≡◌};
    ghost use Rattle.xw_desk.specs.declared.failure.Failure.TheVariants.{Memory};

    ghost from_gives = { λ _ failure. failure ≡ Memory };

    fn from(_error: AllocError) -> Failure<'a> {
        Failure::Memory
    }
}

/// Returns the failure for a fault of the disk with a file.
pub fn failure_of<'a>(fault: DiskFault, file: &'a str) -> Failure<'a>
    ensures { IsFaultOf fault file.entry.now result }
{
    match fault {
        DiskFault::Memory => Failure::Memory,
        DiskFault::Unreadable => Failure::CannotRead { file },
        DiskFault::Unwritable => Failure::CannotWrite { file },
        DiskFault::InUse => Failure::InUse { file },
        DiskFault::Replaced => Failure::Replaced { file },
    }
}

/// Returns the failure for an old file that was not kept.
pub fn old_failure_of<'a>(unkept: Unkept, file: &'a str) -> Failure<'a>
    ensures { IsOldFaultOf unkept.fault file.entry.now unkept.number result }
{
    match unkept.fault {
        DiskFault::Memory => Failure::Memory,
        _ => Failure::OldUnwritable {
            file,
            number: unkept.number,
        },
    }
}

/// Returns the outcome of answering commands. `before` is the number of lines refused earlier. If the line handler
/// stopped the run, an answer was not finished.
pub fn run_status<'a>(end: RunEnd, before: usize) -> Result<ExitStatus, Failure<'a>>
    ensures { result ≡ run_ended before end }
{
    match end {
        RunEnd::Done { refused: 0 } if before == 0 => Ok(ExitStatus::Accepted),
        RunEnd::Done { .. } => Ok(ExitStatus::Refused),
        RunEnd::ReadFailed | RunEnd::Endless => Err(Failure::Input),
        RunEnd::WriteFailed | RunEnd::Stopped => Err(Failure::Output),
        RunEnd::Memory => Err(Failure::Memory),
    }
}
