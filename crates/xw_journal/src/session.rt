//! A session that writes its changes to a journal.
ghost use Rattle.std.specs.Prelude.{◌≡◌, Option, None, IfOk, IfErr, option_map};
ghost use Rattle.xw_lines.specs.Run.{IsRun};
ghost use Rattle.xw_journal.specs.declared.cause.Cause.{Cause as SpecCause};
ghost use Rattle.xw_journal.specs.Journal.{AnswersJournaled, StopsAtJournal, IsExecuted, IsHalted, journaled_state};

use crate::cause::Cause;
use crate::entries::Entries;
use crate::journal::{Written, keep_accepted, written_of};
use std::alloc::{AllocError, Global};
use std::marker::Model;
use xw_commands::command::parse_held;
use xw_feas::feasible::Feasible;
use xw_feas::searchable::Searchable;
use xw_lines::device::{self, Sink, Source};
use xw_lines::outcome::{AnswerFault, RunEnd, Step};
use xw_lines::run::{self, LineHandler};
use xw_session::{Session, VecSink};

/// The room for an answer that is allocated at the start: enough for the changed cells of a large grid.
const ROOM: usize = 65536;

/// A session and its journal. The text of each change is in the journal before the first byte of its answer is
/// written.
#[derive(Drop)]
pub struct JournaledSession<E: Feasible, J: Sink> {
    alloc: Global,
    session: Session<E>,
    journal: J,
    /// The entries before a search.
    before: Entries,
    /// The answer to the current line.
    answer: VecSink,
    cause: Option<Cause>,
}

impl<E: Feasible, J: Sink> Model for JournaledSession<E, J> {
    ghost use Rattle.xw_journal.specs.Journal.{JournaledState};

    ghost Value = { JournaledState };

    ghost view = { λ journaled. record {
      state = journaled.session;
      journal = J.transcript journaled.journal;
      failures = J.failures journaled.journal;
      cause = journaled.cause;
    } };
}

/// Makes the room for the entries before a search, and for an answer.
fn buffers(alloc: Global) -> Result<(Entries, VecSink), AllocError> {
    let before = Entries::new(alloc)?;
    let answer = VecSink::with_capacity(alloc, ROOM)?;
    Ok((before, answer))
}

impl<E: Feasible, J: Sink + Drop> JournaledSession<E, J> {
    /// Joins a session and its journal. Fails only if an allocation fails.
    pub fn new(
        alloc: Global,
        session: Session<E>,
        journal: J,
    ) -> Result<JournaledSession<E, J>, AllocError>
        ensures { IfOk result (λ journaled. journaled ≡ record {
          state = session;
          journal = J.transcript journal;
          failures = J.failures journal;
          cause = None;
        }) }
    {
        match buffers(alloc) {
            Ok((before, answer)) => Ok(JournaledSession {
                alloc,
                session,
                journal,
                before,
                answer,
                cause: None,
            }),
            Err(error) => Err(error),
        }
    }

    /// The session.
    pub fn session(&self) -> &Session<E>
        ensures { result.now ≡ self.now.state }
    {
        &self.session
    }

    /// Why the session stopped, if it did.
    pub fn cause(&self) -> Option<Cause>
        ensures { result ≡ self.now.cause }
    {
        self.cause
    }

    /// The session and the journal.
    pub fn into_parts(self) -> (Session<E>, J)
        ensures session { result.0 ≡ self.state }
        ensures transcript { J.transcript result.1 ≡ self.journal }
        ensures failures { J.failures result.1 ≡ self.failures }
    {
        (self.session, self.journal)
    }
}

impl<E: Searchable, J: Sink> JournaledSession<E, J> {
    /// Reads lines until the reader ends. Writes the text of each change to the journal, and then the answer. Stops
    /// early if the reader, the writer or the journal fails, or if an answer cannot be kept in memory. Returns
    /// `Memory`, before the first read, if the line buffer cannot be allocated.
    pub fn run_lines<R: Source, W: Sink>(&mut self, source: &mut R, sink: &mut W) -> RunEnd
        ensures { IsRun AnswersJournaled StopsAtJournal R.transcript R.is_at_end R.failures W.transcript W.failures result
            self.old self.new source.old source.new sink.old sink.new }
    {
        let alloc = self.alloc;
        run::run_lines(alloc, self, source, sink)
    }
}

/// Executes a line, keeps its answer in memory, and writes its text to the journal.
fn execute<E: Searchable, J: Sink>(
    session: &mut Session<E>,
    journal: &mut J,
    before: &mut Entries,
    answer: &mut VecSink,
    line: Option<&[u8]>,
) -> Result<Step, Cause>
    ensures ok { IfOk result (λ step. (cause : Option SpecCause) → IsExecuted (journaled_state session.old (J.transcript journal.old) (J.failures journal.old) cause)
        (option_map (λ bytes. bytes.now) line.entry) step answer.new.bytes.items (journaled_state session.new (J.transcript journal.new) (J.failures journal.new) cause)) }
    ensures err { IfErr result (λ why. (cause later : Option SpecCause) → IsHalted (journaled_state session.old (J.transcript journal.old) (J.failures journal.old) cause)
        (option_map (λ bytes. bytes.now) line.entry) why (journaled_state session.new (J.transcript journal.new) (J.failures journal.new) later)) }
{
    let parsed = parse_held(line);
    let written = written_of(&parsed);
    if written == Written::Letters {
        before.copy(session.grid());
    }
    answer.clear();
    let Ok(step) = session.execute(parsed, answer) else {
        return Err(Cause::Memory);
    };
    match keep_accepted(journal, step, written, line, before, session.grid()) {
        Ok(()) => Ok(step),
        Err(_) => Err(Cause::Journal),
    }
}

impl<E: Searchable, J: Sink> LineHandler for JournaledSession<E, J> {
    ghost use Rattle.xw_journal.specs.Journal.{AnswersJournaled, StopsAtJournal};

    ghost answers = { AnswersJournaled };

    ghost stops = { StopsAtJournal };

    fn handle<W: Sink>(&mut self, line: Option<&[u8]>, sink: &mut W) -> Result<Step, AnswerFault> {
        let done = execute(
            &mut self.session,
            &mut self.journal,
            &mut self.before,
            &mut self.answer,
            line,
        );
        let step = match done {
            Ok(step) => step,
            Err(cause) => {
                self.cause = Some(cause);
                return Err(AnswerFault::Stopped);
            }
        };
        if step == Step::Silent {
            return Ok(step);
        }
        device::write_all(sink, self.answer.bytes())?;
        Ok(step)
    }
}
