//! Ends the answers of commands.
ghost use Rattle.std.specs.Prelude.{◌≡◌, IfOk};
ghost use Rattle.xw_lines.specs.Sends.{Sends};
ghost use Rattle.xw_session.specs.State.{SessionState};
ghost use Rattle.xw_session.specs.Answer.{accepted_by, end_of, ended_by, lines_in, lines_reply, step_by};

use xw_answers::refusal::CommandRefusal;
use xw_answers::text;
use xw_feas::edit::Refusal;
use xw_lines::device::{Sink, WriteFailed};
use xw_lines::outcome::Step;

/// How a command ended: it was accepted, or refused.
pub(crate) type Ended = Result<(), CommandRefusal>;

/// What the engine gave, as the lines of an answer.
pub(crate) trait WriteLines {
    ghost use Rattle.std.specs.Prelude.{ℕ, List};
    ghost use Rattle.xw_lines.specs.Sends.{Sends};

    ghost lines: { Self → List ℕ };

    /// Writes the lines.
    fn write_lines<W: Sink>(self, sink: &mut W) -> Result<(), WriteFailed>
        ensures { Sends W.transcript W.failures sink.old sink.new result (lines self) };
}

/// Writes the end of an answer: `ok`, or the refusal.
pub(crate) fn end_answer<W: Sink>(sink: &mut W, ended: Ended) -> Result<Step, WriteFailed>
    ensures sends { Sends W.transcript W.failures sink.old sink.new result (end_of ended) }
    ensures step { IfOk result (λ step. step ≡ step_by ended) }
{
    match ended {
        Ok(()) => {
            text::write_accepted(sink)?;
            Ok(Step::Accepted)
        }
        Err(refusal) => {
            text::write_refused(sink, refusal)?;
            Ok(Step::Refused)
        }
    }
}

/// Returns that a command was accepted, if its lines were written.
pub(crate) fn accepted(wrote: Result<(), WriteFailed>) -> Result<Ended, WriteFailed>
    ensures { result ≡ accepted_by wrote }
{
    match wrote {
        Ok(()) => Ok(Ok(())),
        Err(failed) => Err(failed),
    }
}

/// Writes the lines of what the engine gave for an edit or a search, or returns its refusal.
pub(crate) fn write_given<T: WriteLines, W: Sink>(
    sink: &mut W,
    given: Result<T, Refusal>,
) -> Result<Ended, WriteFailed>
    ensures sends { (state : SessionState) → Sends W.transcript W.failures sink.old sink.new result (lines_in (lines_reply T.lines given state)) }
    ensures ends { (state : SessionState) → IfOk result (λ ended. ended ≡ ended_by (lines_reply T.lines given state)) }
{
    match given {
        Ok(given) => accepted(given.write_lines(sink)),
        Err(refusal) => Ok(Err(CommandRefusal::Engine(refusal))),
    }
}
