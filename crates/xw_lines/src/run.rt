//! Reads lines and writes their answers.
ghost use Rattle.std.specs.Prelude.{◌≡◌, ℕ, ◌+◌, ◌<◌, ◌≤◌, List, [], ◌∷◌, ◌++◌, length, drop, Some, IfOk, IfErr, IfSome, IfNone, OnOk, OnErr};
ghost use Rattle.std.specs.Option.{option_map};
ghost use Rattle.xw_lines.specs.Cut.{lines_of, HasNoLf, EndsLine};
ghost use Rattle.xw_lines.specs.Device.{flushed, saturated, HasFailed};
ghost use Rattle.xw_lines.specs.Spoken.{Answered, BreaksPiece, HasFailedFor, broken_by, refusals, flush_after};
ghost use Rattle.xw_lines.specs.Run.{Speaks, StopsIn, Progress, IsEarly, IsFinished, IsRead, IsRun, broken_end};

use crate::device::{Sink, Source, WriteFailed};
use crate::line_buffer::LineBuffer;
use crate::outcome::{AnswerFault, RunEnd, Step};
use std::alloc::Global;
use xw_text::lines::line_end;

/// The maximum length of a line in bytes, without its LF.
pub const LINE_LIMIT: usize = 4096;

/// The number of bytes that one read asks for.
const CHUNK: usize = 4096;

/// Answers lines, one after another.
pub trait LineHandler {
    ghost use Rattle.std.specs.Prelude.{ℕ, List};
    ghost use Rattle.xw_lines.specs.declared.outcome.Step.{Step};

    // `answers state line step answer next`: in `state` the line may get this answer, which leaves the state `next`.
    ghost answers: { Self → List ℕ → Step → List ℕ → Self → Type 0 };

    // `stops state line next old new`: in `state` the handler may stop at the line and leave the state `next`. The
    // transcript of the writer is then `new`, and was `old`.
    ghost stops: { Self → List ℕ → Self → List ℕ → List ℕ → Type 0 };

    /// Writes the answer to a line. The line has no LF; `None` stands for a line longer than `LINE_LIMIT`. If the
    /// writer fails, a prefix of the answer was written, and the effect of the line remains.
    fn handle<W: Sink>(&mut self, line: Option<&[u8]>, sink: &mut W) -> Result<Step, AnswerFault>
        ensures ok { IfOk result (λ outcome. Answered answers self.old (option_map (λ bytes. bytes.now) line.entry)
            outcome self.new (W.transcript sink.old) (W.transcript sink.new)) }
        ensures quiet { OnOk result (W.failures sink.new ≡ W.failures sink.old) }
        ensures silent { IfOk result (λ outcome. outcome ≡ Step.Silent → sink.new ≡ sink.old) }
        ensures err { IfErr result (λ fault. BreaksPiece answers stops fault self.old (option_map (λ bytes. bytes.now) line.entry)
            self.new (W.transcript sink.old) (W.transcript sink.new)) }
        ensures failed { IfErr result (λ fault. HasFailedFor fault (W.failures sink.old) (W.failures sink.new)) };
}

/// Returns the count of refused lines after one more line.
fn with_outcome(refused: u64, outcome: Step) -> u64
    ensures { result ≡ saturated (refused + refusals outcome) }
{
    match outcome {
        Step::Refused => refused.saturating_add(1),
        Step::Silent | Step::Accepted => refused,
    }
}

/// Flushes the writer, unless the line was silent.
fn pass_on<W: Sink>(step: Step, sink: &mut W) -> Result<(), WriteFailed>
    ensures transcript { OnOk result (W.transcript sink.new ≡ W.transcript sink.old ++ flush_after step) }
    ensures unmoved { OnErr result (W.transcript sink.new ≡ W.transcript sink.old) }
    ensures quiet { OnOk result (W.failures sink.new ≡ W.failures sink.old) }
    ensures failed { OnErr result (HasFailed (W.failures sink.old) (W.failures sink.new)) }
{
    match step {
        Step::Silent => Ok(()),
        Step::Accepted | Step::Refused => flush(sink),
    }
}

fn flush<W: Sink>(sink: &mut W) -> Result<(), WriteFailed>
    ensures transcript { OnOk result (W.transcript sink.new ≡ W.transcript sink.old ++ flushed ∷ []) }
    ensures unmoved { OnErr result (W.transcript sink.new ≡ W.transcript sink.old) }
    ensures quiet { OnOk result (W.failures sink.new ≡ W.failures sink.old) }
    ensures failed { OnErr result (HasFailed (W.failures sink.old) (W.failures sink.new)) }
{
    match sink.flush() {
        Ok(()) => Ok(()),
        Err(_) => Err(WriteFailed),
    }
}

/// Answers the buffered line, flushes the answer, updates the count of refused lines, and clears the buffer.
fn answer_piece<S: LineHandler, W: Sink>(
    handler: &mut S,
    piece: &mut LineBuffer,
    refused: &mut u64,
    sink: &mut W,
) -> Result<(), AnswerFault>
    ensures ok { OnOk result ((outcome : Step) × (answered : List ℕ)
        × Answered S.answers handler.old piece.old outcome handler.new (W.transcript sink.old) answered
        × (W.transcript sink.new ≡ answered ++ flush_after outcome)
        × (refused.new ≡ saturated (refused.old + refusals outcome))) }
    ensures cleared { OnOk result (piece.new ≡ Some []) }
    ensures quiet { OnOk result (W.failures sink.new ≡ W.failures sink.old) }
    ensures err { IfErr result (λ fault. BreaksPiece S.answers S.stops fault handler.old piece.old handler.new (W.transcript sink.old) (W.transcript sink.new)) }
    ensures failed { IfErr result (λ fault. HasFailedFor fault (W.failures sink.old) (W.failures sink.new)) }
{
    let outcome = handler.handle(piece.line(), sink)?;
    pass_on(outcome, sink)?;
    *refused = with_outcome(*refused, outcome);
    piece.clear();
    Ok(())
}

/// Returns the index of the first LF at `from` or later.
pub fn next_lf(bytes: &[u8], from: usize) -> Option<usize>
    requires { from ≤ length bytes.now }
    ensures within { IfSome result (λ end. (from ≤ end) × (end < length bytes.now)) }
    ensures ends { IfSome result (λ end. EndsLine bytes.now from end) }
    ensures none { IfNone result (HasNoLf (drop from bytes.now)) }
{
    match line_end(&bytes[from..]) {
        Some(more) => Some(from + more),
        None => None,
    }
}

/// Completes the buffered line with these bytes, and answers it.
fn take_line<S: LineHandler, W: Sink>(
    handler: &mut S,
    piece: &mut LineBuffer,
    refused: &mut u64,
    bytes: &[u8],
    sink: &mut W,
) -> Result<(), AnswerFault>
    requires { HasNoLf bytes.now }
    ensures ok { OnOk result ((start : S) (begun text : List ℕ)
        → Progress S.answers start begun text handler.old piece.old refused.old (W.transcript sink.old)
        → Progress S.answers start begun ((text ++ bytes.now) ++ 10 ∷ []) handler.new piece.new refused.new (W.transcript sink.new)) }
    ensures quiet { OnOk result (W.failures sink.new ≡ W.failures sink.old) }
    ensures err { IfErr result (λ fault. (start : S) (begun text more : List ℕ)
        → Progress S.answers start begun text handler.old piece.old refused.old (W.transcript sink.old)
        → StopsIn S.answers (broken_by S.answers S.stops fault) start ((text ++ bytes.now) ++ 10 ∷ more) handler.new begun (W.transcript sink.new)) }
    ensures failed { IfErr result (λ fault. HasFailedFor fault (W.failures sink.old) (W.failures sink.new)) }
{
    piece.hold(bytes);
    answer_piece(handler, piece, refused, sink)?;
    Ok(())
}

/// Processes the bytes of one read: answers each line that they complete, and buffers the rest.
fn take_bytes<S: LineHandler, W: Sink>(
    handler: &mut S,
    piece: &mut LineBuffer,
    refused: &mut u64,
    bytes: &[u8],
    sink: &mut W,
) -> Result<(), AnswerFault>
    ensures ok { OnOk result ((start : S) (begun text : List ℕ)
        → Progress S.answers start begun text handler.old piece.old refused.old (W.transcript sink.old)
        → Progress S.answers start begun (text ++ bytes.now) handler.new piece.new refused.new (W.transcript sink.new)) }
    ensures quiet { OnOk result (W.failures sink.new ≡ W.failures sink.old) }
    ensures err { IfErr result (λ fault. (start : S) (begun text : List ℕ)
        → Progress S.answers start begun text handler.old piece.old refused.old (W.transcript sink.old)
        → StopsIn S.answers (broken_by S.answers S.stops fault) start (text ++ bytes.now) handler.new begun (W.transcript sink.new)) }
    ensures failed { IfErr result (λ fault. HasFailedFor fault (W.failures sink.old) (W.failures sink.new)) }
{
    let mut from = 0;
    while let Some(end) = next_lf(bytes, from) {
        take_line(handler, piece, refused, &bytes[from..end], sink)?;
        from = end + 1;
    }
    piece.hold(&bytes[from..]);
    Ok(())
}

/// Answers the last line if it has no LF, and returns the count of refused lines.
fn finish<S: LineHandler, W: Sink>(
    handler: &mut S,
    mut piece: LineBuffer,
    mut refused: u64,
    sink: &mut W,
) -> Result<u64, AnswerFault>
    ensures ok { IfOk result (λ total. (start : S) (begun text : List ℕ)
        → Progress S.answers start begun text handler.old piece refused (W.transcript sink.old)
        → (count : ℕ) × (total ≡ saturated count) × Speaks S.answers start (lines_of text) count handler.new begun (W.transcript sink.new)) }
    ensures quiet { OnOk result (W.failures sink.new ≡ W.failures sink.old) }
    ensures err { IfErr result (λ fault. (start : S) (begun text : List ℕ)
        → Progress S.answers start begun text handler.old piece refused (W.transcript sink.old)
        → StopsIn S.answers (broken_by S.answers S.stops fault) start text handler.new begun (W.transcript sink.new)) }
    ensures failed { IfErr result (λ fault. HasFailedFor fault (W.failures sink.old) (W.failures sink.new)) }
{
    if piece.is_empty() {
        return Ok(refused);
    }
    answer_piece(handler, &mut piece, &mut refused, sink)?;
    Ok(refused)
}

/// What is left when the reader ended and each line with an LF is answered: the bytes after the last LF, and the count of
/// refused lines.
#[derive(Drop)]
pub struct Rest {
    pub piece: LineBuffer,
    pub refused: u64,
}

/// Answers the last line if it has no LF, and returns how the run ended.
pub fn answer_rest<S: LineHandler, W: Sink>(handler: &mut S, rest: Rest, sink: &mut W) -> RunEnd
    ensures { (start : S) (begun text : List ℕ)
        → Progress S.answers start begun text handler.old rest.piece rest.refused (W.transcript sink.old)
        → IsFinished S.answers S.stops result start text handler.new begun (W.transcript sink.new) (W.failures sink.old) (W.failures sink.new) }
{
    match finish(handler, rest.piece, rest.refused, sink) {
        Ok(refused) => RunEnd::Done { refused },
        Err(fault) => broken(fault),
    }
}

/// Returns how a run ends if an answer was not finished.
fn broken(fault: AnswerFault) -> RunEnd
    ensures { result ≡ broken_end fault }
{
    match fault {
        AnswerFault::WriteFailed => RunEnd::WriteFailed,
        AnswerFault::Stopped => RunEnd::Stopped,
    }
}

/// Reads lines until the reader ends, and writes the answer to each that has an LF, as `run_lines` does. Returns the rest,
/// or how the run ended before.
pub fn answer_ended<S: LineHandler, R: Source, W: Sink>(
    alloc: Global,
    handler: &mut S,
    source: &mut R,
    sink: &mut W,
) -> Result<Rest, RunEnd>
    ensures ok { IfOk result (λ rest. IsRead S.answers R.transcript R.is_at_end R.failures W.transcript W.failures rest.piece rest.refused
        handler.old handler.new source.old source.new sink.old sink.new) }
    ensures err { IfErr result (λ end. IsRun S.answers S.stops R.transcript R.is_at_end R.failures W.transcript W.failures end
        handler.old handler.new source.old source.new sink.old sink.new) }
    ensures early { IfErr result IsEarly }
{
    let Ok(mut piece) = LineBuffer::new(alloc) else {
        return Err(RunEnd::Memory);
    };
    let mut chunk = [0; CHUNK];
    let mut refused = 0;
    for turn in 0..u64::MAX {
        match source.read(&mut chunk) {
            Err(_) => return Err(RunEnd::ReadFailed),
            Ok(0) => return Ok(Rest { piece, refused }),
            Ok(count) => {
                let bytes = &chunk[..count];
                match take_bytes(handler, &mut piece, &mut refused, bytes, sink) {
                    Ok(()) => {}
                    Err(fault) => return Err(broken(fault)),
                }
            }
        }
    }
    Err(RunEnd::Endless)
}

/// Reads lines until the reader ends, and writes the answer to each. Flushes each answer before it starts the next
/// one. Stops early if the reader or the writer fails, or if the line handler stops. Returns `Memory`, before the
/// first read, if the line buffer cannot be allocated.
pub fn run_lines<S: LineHandler, R: Source, W: Sink>(
    alloc: Global,
    handler: &mut S,
    source: &mut R,
    sink: &mut W,
) -> RunEnd
    ensures { IsRun S.answers S.stops R.transcript R.is_at_end R.failures W.transcript W.failures result
        handler.old handler.new source.old source.new sink.old sink.new }
{
    match answer_ended(alloc, handler, source, sink) {
        Ok(rest) => answer_rest(handler, rest, sink),
        Err(end) => end,
    }
}
