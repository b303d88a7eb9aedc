//! The outcome of a line, why it was not answered, and how a run ended.
use crate::device::WriteFailed;

/// The outcome of a line. A `Silent` line has no answer.
#[derive(Clone, Copy, Debug, PartialEq, Eq)]
pub enum Step {
    Silent,
    Accepted,
    Refused,
}

/// Why the answer to a line was not finished.
#[derive(Clone, Copy, Debug, PartialEq, Eq)]
pub enum AnswerFault {
    /// The writer failed.
    WriteFailed,
    /// The line handler cannot go on.
    Stopped,
}

impl From<WriteFailed> for AnswerFault {
    ghost use Rattle.std.specs.Prelude.{◌≡◌};
    ghost use Rattle.xw_lines.specs.declared.outcome.AnswerFault.TheVariants as faults;

    ghost from_gives = { λ _ fault. fault ≡ faults.WriteFailed };

    fn from(_failed: WriteFailed) -> AnswerFault {
        AnswerFault::WriteFailed
    }
}

/// How a run over a reader and a writer ended. Refused lines are not an error; `Done` counts them.
#[derive(Clone, Copy, Debug, PartialEq, Eq)]
pub enum RunEnd {
    /// The reader reached its end. `refused` counts the refused lines and stops at `u64::MAX`.
    Done { refused: u64 },
    ReadFailed,
    WriteFailed,
    /// The line handler could not go on.
    Stopped,
    /// The reader did not end within `u64::MAX` reads.
    Endless,
    /// The line buffer could not be allocated. Nothing was read or written.
    Memory,
}
