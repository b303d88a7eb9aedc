//! A session that holds its last answer.
ghost use Rattle.std.specs.Prelude.{◌≡◌, ◌≢◌, ◌⊎◌, ◌++◌, ℕ, [], Ok, Err, IfOk, IfErr, IfSome};
ghost use Rattle.xw_words.specs.WordList.{IsTooLong, listed_in};
ghost use Rattle.xw_grid.specs.Puzzle.{PuzzleShown, puzzle_view};
ghost use Rattle.xw_session.specs.Resuming.{refused_line};
ghost use Rattle.xw_files.specs.Formats.{IsRead, written_as};
ghost use Rattle.xw_session.specs.Opening.{opened_on, puzzle_of};
ghost use Rattle.xw_c.specs.OpenSession.{Shown, HasPuzzle, IsOpened, IsMisread, IsUnread, IsUnopened, IsLineDone, IsFileMade, IsRecordMade, IsReplayAnswer, IsResumed, cut_report, record_name, replay_status};

use crate::status::Status;
use std::alloc::{AllocError, Global};
use std::marker::Model;
use xw_answers::refusal::{self, CommandRefusal};
use xw_files::{Kind, Puzzle, ReadFault, WriteFault, kind_of, read_as, write_as};
use xw_journal::file::{is_cut, kept};
use xw_live::Live;
use xw_session::opening::{open_empty, open_puzzle};
use xw_session::resuming::{self, Stop};
use xw_session::{Session, VecSink, saving};
use xw_words::{Bank, WordFault};

/// The name of a record in the reports of its lines.
const RECORD: &str = "record";

/// The report of a record whose end was cut off.
const CUT: &[u8] = b"xw: record: an incomplete last command is ignored\n";

/// A session over a word list, and the answer to the last call.
#[derive(Drop)]
pub struct OpenSession {
    alloc: Global,
    session: Session<Live>,
    answer: Vec<u8>,
}

impl Model for OpenSession {
    ghost use Rattle.xw_c.specs.OpenSession.{Shown};

    ghost Value = { Shown };

    ghost view = { λ opened. record { state = opened.session; answer = opened.answer.items } };
}

/// Loads a word list. Returns `Full` if it has too many words of one length, and `Memory` if an allocation fails.
fn dictionary(alloc: Global, list: &[u8]) -> Result<Bank, Status>
    ensures ok { IfOk result (λ bank. bank.words ≡ listed_in list.now) }
    ensures err { IfErr result (λ status. (status ≡ Status.Memory) ⊎ ((status ≡ Status.Full) × IsTooLong (listed_in list.now))) }
{
    match Bank::load_list(alloc, list) {
        Ok((bank, _)) => Ok(bank),
        Err(WordFault::Full) => Err(Status::Full),
        Err(_) => Err(Status::Memory),
    }
}

/// Reads the puzzle in the bytes of a file.
fn puzzle_in(alloc: Global, bytes: &[u8]) -> Result<Puzzle, ReadFault>
    ensures ok { IfOk result (λ puzzle. (kind : Kind) × IsRead kind bytes.now (puzzle_view puzzle)) }
    ensures err { IfErr result (λ fault. (fault ≡ ReadFault.Memory) ⊎ IsMisread bytes.now fault) }
{
    read_as(alloc, kind_of(bytes), bytes)
}

/// Opens a session on the puzzle in the bytes of a file or, if there are none, on an empty grid.
fn session_on(alloc: Global, bank: Bank, bytes: &[u8]) -> Result<Session<Live>, ReadFault>
    ensures ok { IfOk result (λ session. (puzzle : PuzzleShown) × HasPuzzle bytes.now puzzle × (session ≡ opened_on bank.words puzzle)) }
    ensures err { IfErr result (λ fault. IsUnread bytes.now fault) }
{
    if bytes.is_empty() {
        return Ok(open_empty(alloc, bank)?);
    }
    let puzzle = puzzle_in(alloc, bytes)?;
    Ok(open_puzzle(alloc, bank, puzzle)?)
}

/// Returns the bytes of the puzzle of a session in this format.
fn written(alloc: Global, session: &Session<Live>, kind: Kind) -> Result<Vec<u8>, WriteFault>
    ensures ok { IfOk result (λ bytes. written_as kind (puzzle_of session.now) ≡ Ok bytes.items) }
    ensures refused { IfErr result (λ fault. fault ≢ WriteFault.Memory → written_as kind (puzzle_of session.now) ≡ Err fault) }
{
    match session.puzzle() {
        Ok(puzzle) => write_as(alloc, kind, &puzzle),
        Err(_) => Err(WriteFault::Memory),
    }
}

/// The report of a record whose end was cut off, and nothing for another.
fn report_of(is_cut: bool) -> &'static [u8]
    ensures { result.now ≡ cut_report is_cut }
{
    if is_cut { CUT } else { b"" }
}

/// The status of a replay of a record, which may have been cut, in which this many lines were refused.
fn replayed(is_cut: bool, refused: usize) -> Status
    ensures { result ≡ replay_status is_cut refused }
{
    if is_cut {
        Status::Cut
    } else if refused == 0 {
        Status::Accepted
    } else {
        Status::Refused
    }
}

/// The report of a line that is not a command.
fn stop_line(alloc: Global, number: usize, refusal: CommandRefusal) -> Result<String, AllocError>
    ensures { IfOk result (λ line. line.bytes.items ≡ refused_line record_name number refusal) }
{
    let name = refusal::name(refusal);
    Ok(format!(in alloc; "xw: record: line {number}: {name}\n")?)
}

/// The status and the answer of a replay. `told` has the reports of refused lines. Returns `None` if an allocation
/// fails or failed during the replay.
fn report(
    alloc: Global,
    is_cut: bool,
    ended: Result<usize, Stop>,
    told: VecSink,
) -> Option<(Status, Vec<u8>)>
    ensures { IfSome result (λ told_so. (told.failures ≡ 0) × IsReplayAnswer is_cut ended told.bytes.items told_so.0 told_so.1.items) }
{
    if told.failures() > 0 {
        return None;
    }
    let mut answer = told.into_bytes();
    match ended {
        Ok(refused) => Some((replayed(is_cut, refused), answer)),
        Err(Stop::NoCommand { number, refusal }) => {
            let line = stop_line(alloc, number, refusal).ok()?;
            answer.extend_from_slice(line.as_bytes()).ok()?;
            Some((Status::NoCommand, answer))
        }
        Err(Stop::Memory) => None,
    }
}

impl OpenSession {
    /// Opens a session over the words of a list. It starts on the puzzle in the bytes of a file or, if there are no
    /// bytes, on an empty grid of 15 rows and columns. Returns `Full` if the list has more than 1,048,576 words of one
    /// length, and `Unread` with the first fault of bytes that are not a puzzle. Returns `Memory`, or `Unread` with
    /// the fault `Memory`, if an allocation fails.
    pub fn open(alloc: Global, list: &[u8], puzzle: &[u8]) -> Result<OpenSession, Status>
        ensures ok { IfOk result (λ opened. IsOpened list.now puzzle.now opened) }
        ensures err { IfErr result (λ status. IsUnopened list.now puzzle.now status) }
    {
        let bank = dictionary(alloc, list)?;
        let session = session_on(alloc, bank, puzzle)?;
        Ok(OpenSession {
            alloc,
            session,
            answer: Vec::new(alloc),
        })
    }

    /// Answers a line, given without its line feed. The answer is what `xw edit` prints. Returns `Accepted`, `Refused`
    /// or `Silent`. Returns `Memory` if there is no memory for the answer, which is then empty; the line may have been
    /// executed.
    pub fn line(&mut self, line: &[u8]) -> Status
        ensures { IsLineDone line.now self.old result self.new }
    {
        let mut told = VecSink::new(self.alloc);
        match self.session.step(line, &mut told) {
            Ok(step) => {
                self.answer = told.into_bytes();
                Status::of_step(step)
            }
            Err(_) => {
                self.answer = Vec::new(self.alloc);
                Status::Memory
            }
        }
    }

    /// Replays the lines of a record that count, up to the first that is not a command. The answer begins with a
    /// report if the end of the record was cut off. It has a line `xw: record: line N: NAME` for each line that is
    /// refused, and for the one that is not a command. Returns `NoCommand` if there is one, and otherwise `Cut` if the
    /// end was cut off, `Refused` if lines were refused, or `Accepted`. Returns `Memory` if an allocation fails; the
    /// answer is then empty, and some lines may have been executed.
    pub fn resume(&mut self, record: &[u8]) -> Status
        ensures { IsResumed record.now self.old result self.new }
    {
        let is_cut = is_cut(record);
        let mut told = VecSink::new(self.alloc);
        resuming::tell(&mut told, report_of(is_cut));
        let lines = kept(record);
        let ended = resuming::resume(self.alloc, &mut self.session, RECORD, lines, &mut told);
        match report(self.alloc, is_cut, ended, told) {
            Some((status, answer)) => {
                self.answer = answer;
                status
            }
            None => {
                self.answer = Vec::new(self.alloc);
                Status::Memory
            }
        }
    }

    /// Makes a `.puz` file of the puzzle the answer. Returns `Accepted`. If the format cannot hold the puzzle, returns
    /// `Unwritten` with the first fault; if an allocation fails, the fault is `Memory`. The answer is then empty.
    pub fn puz(&mut self) -> Status
        ensures { IsFileMade Kind.Puz self.old result self.new }
    {
        self.file(Kind::Puz)
    }

    /// Makes a text file of the puzzle the answer. Returns what `puz` returns, for this format.
    pub fn text(&mut self) -> Status
        ensures { IsFileMade Kind.Text self.old result self.new }
    {
        self.file(Kind::Text)
    }

    fn file(&mut self, kind: Kind) -> Status
        ensures { IsFileMade kind self.old result self.new }
    {
        match written(self.alloc, &self.session, kind) {
            Ok(bytes) => {
                self.answer = bytes;
                Status::Accepted
            }
            Err(fault) => {
                self.answer = Vec::new(self.alloc);
                Status::Unwritten(fault)
            }
        }
    }

    /// Makes the record of the session the answer. Returns `Accepted`, or `Memory` if an allocation fails. The answer
    /// is then empty.
    pub fn record(&mut self) -> Status
        ensures { IsRecordMade self.old result self.new }
    {
        match saving::record(self.alloc, &self.session) {
            Ok(bytes) => {
                self.answer = bytes;
                Status::Accepted
            }
            Err(_) => {
                self.answer = Vec::new(self.alloc);
                Status::Memory
            }
        }
    }

    /// The answer to the last call.
    pub fn answer(&self) -> &[u8]
        ensures { result.now ≡ self.now.answer }
    {
        self.answer.as_slice()
    }
}
