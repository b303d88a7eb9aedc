//! The session type, and the answering of lines.
mod asking;
mod autofilling;
mod besting;
mod changing;
mod choosing;
mod drafting;
pub(crate) mod ending;
mod erasing;
mod grading;
mod helping;
mod matching;
mod putting;
mod queries;
mod reasoning;
mod recording;
mod tallying;
mod telling;

ghost use Rattle.std.specs.Prelude.{◌≡◌, IfOk, IfErr, IsOkUnless, true, false, []};
ghost use Rattle.xw_grid.specs.Grid.{is_inside};
ghost use Rattle.xw_grid.specs.Clue.{no_clues};
ghost use Rattle.xw_grid.specs.Puzzle.{texts_view, puzzle_view};
ghost use Rattle.xw_lines.specs.Run.{IsRun};
ghost use Rattle.xw_lines.specs.Spoken.{NeverStops};
ghost use Rattle.xw_answers.specs.Record.{known_counts};
ghost use Rattle.xw_session.specs.Reply.{cell_of};
ghost use Rattle.xw_session.specs.Answer.{AnswersTo, AnswersQuery, AnswersChange, AnswersSearch, AnswersParsedBy, AnswersLine, Answers};

use crate::session::asking::Asked;
use crate::session::ending::{Ended, end_answer};
use std::alloc::Global;
use std::marker::Model;
use xw_answers::record::{LENGTHS, known_words};
use xw_answers::refusal::CommandRefusal;
use xw_best::best::BestHint;
use xw_commands::command::{self, CellArg, SyntaxFault};
use xw_commands::{Change, Command, Query, Search};
use xw_feas::edit::Refusal;
use xw_feas::feasible::Feasible;
use xw_feas::observed::Observed;
use xw_feas::progress::Observer;
use xw_feas::searchable::Searchable;
use xw_fill::named_lights::Hint;
use xw_grid::puzzle::{Puzzle, Texts};
use xw_grid::{Cell, Circles, Clues, Grid, GridFault};
use xw_lines::device::{Sink, Source, WriteFailed};
use xw_lines::outcome::{AnswerFault, RunEnd, Step};
use xw_lines::run::{self, LineHandler};

/// The hints that the last searches left. That of `autofill` lasts until anything changes. That of `best` lasts until
/// anything but entries and the least grade changes; a `best` that begins with other entries than the last one begins
/// anew.
#[derive(Drop)]
pub(crate) struct Hints {
    autofill: Option<Hint>,
    best: Option<BestHint>,
}

impl Hints {
    fn none() -> Hints {
        Hints {
            autofill: None,
            best: None,
        }
    }

    /// Forgets the hint of `autofill` if its search is over.
    pub(crate) fn end_autofill_if(&mut self, is_over: bool) {
        if is_over {
            self.autofill = None;
        }
    }

    /// Forgets all hints if the searches are over.
    pub(crate) fn forget_if(&mut self, are_over: bool) {
        if are_over {
            *self = Hints::none();
        }
    }
}

/// A session over an engine: the puzzle, the watch, and the word counts at the start. `begun` holds, for each length,
/// how many words were known when the session started.
#[derive(Drop)]
pub struct Session<E: Feasible> {
    alloc: Global,
    pub(crate) engine: E,
    texts: Texts,
    clues: Clues,
    circles: Circles,
    is_watched: bool,
    begun: [usize; LENGTHS],
    pub(crate) hints: Hints,
}

impl<E: Feasible> Model for Session<E> {
    ghost use Rattle.xw_grid.specs.Puzzle.{texts_view};
    ghost use Rattle.xw_session.specs.State.{SessionState};

    ghost Value = { SessionState };

    ghost view = { λ session. record {
      engine = E.state session.engine;
      texts = texts_view session.texts;
      clues = session.clues;
      circles = session.circles;
      is_watched = session.is_watched;
      begun = session.begun;
    } };
}

/// Whether a change changes at most entries and the least grade.
fn keeps_words_and_lights(change: &Change<'_>) -> bool {
    matches!(
        change,
        Change::Set(..) | Change::Clear(_) | Change::Place(..) | Change::Erase(_) | Change::Least(_)
    )
}

/// Copies the texts. Fails only if an allocation fails.
fn copy_texts(texts: &Texts) -> Result<Texts, GridFault>
    ensures ok { IfOk result (λ copy. texts_view copy ≡ texts_view texts.now) }
    ensures memory { IsOkUnless result GridFault.Memory }
{
    Ok(Texts {
        title: texts.title.clone()?,
        author: texts.author.clone()?,
        copyright: texts.copyright.clone()?,
        notes: texts.notes.clone()?,
    })
}

/// Returns the cell of a grid at a row and column. Returns `OutOfGrid` if it is not in the grid.
pub(crate) fn cell_in(grid: &Grid, spot: CellArg) -> Result<Cell, Refusal>
    ensures ok { IfOk result (λ cell. (cell ≡ cell_of spot) × (is_inside grid.now cell ≡ true)) }
    ensures refused { IfErr result (λ refusal. (refusal ≡ Refusal.Grid GridFault.OutOfGrid) × (is_inside grid.now (cell_of spot) ≡ false)) }
{
    let rows = 1..=u64::from(grid.height());
    let cols = 1..=u64::from(grid.width());
    if !rows.contains(&spot.row) || !cols.contains(&spot.col) {
        return Err(Refusal::Grid(GridFault::OutOfGrid));
    }
    Ok(Cell {
        row: spot.row as u32,
        col: spot.col as u32,
    })
}

impl<E: Feasible> Session<E> {
    /// Starts a session over an engine, with empty texts, no clues, no circles, and the watch off.
    pub fn new(alloc: Global, engine: E) -> Session<E>
        ensures { result ≡ record {
          engine = E.state engine;
          texts = record { title = []; author = []; copyright = []; notes = [] };
          clues = no_clues;
          circles = [];
          is_watched = false;
          begun = known_counts (E.state engine).words;
        } }
    {
        let texts = Texts {
            title: Vec::new(alloc),
            author: Vec::new(alloc),
            copyright: Vec::new(alloc),
            notes: Vec::new(alloc),
        };
        Session::open(engine, texts, Clues::new(alloc), Circles::new(alloc))
    }

    /// Starts a session over an engine with these texts, clues and circles, and with the watch off.
    pub fn open(engine: E, texts: Texts, clues: Clues, circles: Circles) -> Session<E>
        ensures { result ≡ record {
          engine = E.state engine;
          texts = texts_view texts;
          clues = clues;
          circles = circles;
          is_watched = false;
          begun = known_counts (E.state engine).words;
        } }
    {
        let alloc = *texts.title.allocator();
        let begun = known_words(engine.bank());
        Session {
            alloc,
            engine,
            texts,
            clues,
            circles,
            is_watched: false,
            begun,
            hints: Hints::none(),
        }
    }

    /// The grid.
    pub fn grid(&self) -> &Grid
        ensures { result.now ≡ self.now.engine.grid }
    {
        self.engine.grid()
    }

    /// Copies the grid, the texts, the clues and the circles. Returns `Memory` if an allocation fails.
    pub fn puzzle(&self) -> Result<Puzzle, Refusal>
        ensures ok { IfOk result (λ puzzle. puzzle_view puzzle ≡ record {
          grid = self.now.engine.grid;
          texts = self.now.texts;
          clues = self.now.clues;
          circles = self.now.circles;
        }) }
        ensures memory { IsOkUnless result (Refusal.Grid GridFault.Memory) }
    {
        match self.copied() {
            Ok(puzzle) => Ok(puzzle),
            Err(fault) => Err(Refusal::Grid(fault)),
        }
    }

    fn copied(&self) -> Result<Puzzle, GridFault>
        ensures ok { IfOk result (λ puzzle. puzzle_view puzzle ≡ record {
          grid = self.now.engine.grid;
          texts = self.now.texts;
          clues = self.now.clues;
          circles = self.now.circles;
        }) }
        ensures memory { IsOkUnless result GridFault.Memory }
    {
        Ok(Puzzle {
            grid: self.engine.grid().copy()?,
            texts: copy_texts(&self.texts)?,
            clues: self.clues.copy()?,
            circles: self.circles.copy()?,
        })
    }
}

impl<E: Searchable> Session<E> {
    /// Has an observer, if there is one, told how far each search is. The session stays as it was.
    pub fn observed<O: Observer>(self, observer: Option<O>) -> Session<Observed<E, O>>
        ensures { result ≡ self }
    {
        Session {
            alloc: self.alloc,
            engine: Observed::new(self.engine, observer),
            texts: self.texts,
            clues: self.clues,
            circles: self.circles,
            is_watched: self.is_watched,
            begun: self.begun,
            hints: self.hints,
        }
    }

    /// Writes the lines of the answer to a query. The session stays as it was.
    fn ask<W: Sink>(&mut self, query: Query<'_>, sink: &mut W) -> Result<Ended, WriteFailed>
        ensures answer { AnswersQuery W.transcript W.failures self.old query.entry result sink.old sink.new }
        ensures unchanged { self.new ≡ self.old }
    {
        match query {
            Query::Match(pattern) => self.answer_match(pattern.bytes(), sink),
            Query::Grade(word) => self.answer_grade(word.bytes(), sink),
            Query::Circles => self.answer_circles(sink),
            Query::Show => self.answer_show(sink),
            Query::Lights => self.answer_lights(sink),
            Query::Words(named, most) => self.answer_words(named, most, sink),
            Query::Choices(named, most, first) => self.answer_choices(named, most, &first, sink),
            Query::Letters(spot) => self.answer_letters(spot, sink),
            Query::Tally(spot) => self.answer_tally(spot, sink),
            Query::Duplicates => self.answer_duplicates(sink),
            Query::Unlisted => self.answer_unlisted(sink),
            Query::Grades(lights) => self.answer_grades(lights, sink),
            Query::Unmatched => self.answer_unmatched(sink),
            Query::Suggest => self.answer_suggestion(sink),
            Query::Why(named) => self.answer_why(named, sink),
            Query::Help(word) => self.answer_help(&word, sink),
            Query::Tell(report) => self.tell(report, sink),
        }
    }

    /// Makes a change and writes the lines of its answer.
    fn answer_change<W: Sink>(
        &mut self,
        change: Change<'_>,
        sink: &mut W,
    ) -> Result<Ended, WriteFailed>
        ensures { AnswersChange W.transcript W.failures self.old change.entry result self.new sink.old sink.new }
    {
        match self.begin(None, change) {
            Ok(Asked::Nothing) => Ok(Ok(())),
            Ok(Asked::Edit(edit)) => self.answer_edit(&edit, sink),
            Ok(Asked::Clue(named, text)) => Ok(self.set_clue(named, text)),
            Ok(Asked::Erase(named)) => self.answer_erase(named, sink),
            Ok(Asked::Size(width, height)) => Ok(self.resize(width, height)),
            Err(refusal) => Ok(Err(refusal)),
        }
    }

    /// Makes a change and writes the lines of its answer. A change that is not refused ends the search that `autofill` could
    /// continue. It also ends that of `best` if it changes more than entries and the least grade.
    fn change<W: Sink>(&mut self, change: Change<'_>, sink: &mut W) -> Result<Ended, WriteFailed>
        ensures { AnswersChange W.transcript W.failures self.old change.entry result self.new sink.old sink.new }
    {
        let may_go_on = keeps_words_and_lights(&change);
        let answered = self.answer_change(change, sink);
        let has_changed = !matches!(answered, Ok(Err(_)));
        self.hints.end_autofill_if(has_changed);
        self.hints.forget_if(has_changed && !may_go_on);
        answered
    }

    /// Searches and writes how the search ended.
    fn search<W: Sink>(&mut self, search: Search<'_>, sink: &mut W) -> Result<Ended, WriteFailed>
        ensures { AnswersSearch W.transcript W.failures self.old search.entry result self.new sink.old sink.new }
    {
        match search {
            Search::Fill(limit) => self.answer_fill(limit, sink),
            Search::Autofill(limit, seed, lights) => {
                self.answer_autofill(limit, seed, lights, sink)
            }
            Search::Best(limit, seed, lights) => self.answer_best(limit, seed, lights, sink),
        }
    }

    /// Executes a command and writes the lines of its answer.
    pub(crate) fn perform<W: Sink>(
        &mut self,
        command: Command<'_>,
        sink: &mut W,
    ) -> Result<Ended, WriteFailed>
        ensures { AnswersTo W.transcript W.failures self.old command.entry result self.new sink.old sink.new }
    {
        match command {
            Command::Ask(query) => self.ask(query, sink),
            Command::Change(change) => self.change(change, sink),
            Command::Search(search) => self.search(search, sink),
        }
    }

    /// Executes a parsed line and writes its answer. A silent line has no answer. After an error a prefix of the
    /// answer was written, and the effect of the line remains.
    pub fn execute<W: Sink>(
        &mut self,
        parsed: Result<Option<Command<'_>>, SyntaxFault>,
        sink: &mut W,
    ) -> Result<Step, WriteFailed>
        ensures answer { AnswersParsedBy W.transcript W.failures self.old parsed.entry result self.new sink.old sink.new }
        ensures silent { IfOk result (λ step. step ≡ Step.Silent → sink.new ≡ sink.old) }
    {
        match parsed {
            Ok(None) => Ok(Step::Silent),
            Ok(Some(command)) => {
                let ended = self.perform(command, sink)?;
                end_answer(sink, ended)
            }
            Err(fault) => end_answer(sink, Err(CommandRefusal::Syntax(fault))),
        }
    }

    /// Executes a line, which must not contain its LF, and writes its answer, as `execute` does.
    pub fn step<W: Sink>(&mut self, line: &[u8], sink: &mut W) -> Result<Step, WriteFailed>
        ensures answer { AnswersLine W.transcript W.failures self.old line.now result self.new sink.old sink.new }
        ensures silent { IfOk result (λ step. step ≡ Step.Silent → sink.new ≡ sink.old) }
    {
        self.execute(command::parse(line), sink)
    }

    /// Reads lines until the reader ends, and writes the answer of each. Each answer is flushed before the next one is
    /// started. Stops early if the reader or the writer fails. Returns `Memory`, before the first read, if the line
    /// buffer cannot be allocated.
    pub fn run_lines<R: Source, W: Sink>(&mut self, source: &mut R, sink: &mut W) -> RunEnd
        ensures { IsRun Answers NeverStops R.transcript R.is_at_end R.failures W.transcript W.failures result
            self.old self.new source.old source.new sink.old sink.new }
    {
        let alloc = self.alloc;
        run::run_lines(alloc, self, source, sink)
    }
}

impl<E: Searchable> LineHandler for Session<E> {
    ghost use Rattle.xw_lines.specs.Spoken.{NeverStops};
    ghost use Rattle.xw_session.specs.Answer.{Answers};

    ghost answers = { Answers };

    ghost stops = { NeverStops };

    fn handle<W: Sink>(&mut self, line: Option<&[u8]>, sink: &mut W) -> Result<Step, AnswerFault> {
        let step = self.execute(command::parse_held(line), sink)?;
        Ok(step)
    }
}
