//! Answers queries of the session, the engine and the search.
ghost use Rattle.std.specs.Prelude.{◌≡◌, ℕ, List, flat_map, Ok, Err, ◌∷◌, [], length, IfOk, IfErr, IfSome, IfNone, Some, None, decimal};
ghost use Rattle.xw_letters.specs.LetterSet.{letters_in};
ghost use Rattle.xw_grid.specs.Grid.{index_of};
ghost use Rattle.xw_grid.specs.Light.{lights_of, index_named};
ghost use Rattle.xw_search.specs.OfState.{feasible_letters, feasible_words};
ghost use Rattle.xw_lines.specs.Sends.{Sends};
ghost use Rattle.xw_commands.specs.Names.{direction_name};
ghost use Rattle.xw_answers.specs.Text.{line_of, counted_lines};
ghost use Rattle.xw_session.specs.Found.{duplicate_line, suggestion_line, word_at as spec_word_at};
ghost use Rattle.xw_session.specs.Reply.{first_words, name_of_light, filling_name as spec_filling_name, cell_of, on_open};
ghost use Rattle.xw_session.specs.Answer.{AnswersQuery, AnswersSearch};

use crate::lookup::light_name;
use crate::session::ending::{Ended, WriteLines, accepted, write_given};
use crate::session::{Session, cell_in};
use xw_answers::answer_line::{Token, write_line};
use xw_answers::lookup::light_named;
use xw_answers::refusal::CommandRefusal;
use xw_answers::{lists, show, text};
use xw_commands::command::{CellArg, LightArg};
use xw_commands::names::Named;
use xw_feas::edit::Refusal;
use xw_feas::feasible::Feasible;
use xw_feas::progress::{News, Task};
use xw_feas::searchable::Searchable;
use xw_feas::word_iter::{WordIter, words};
use xw_fill::search::fill;
use xw_fill::suggesting::{Suggestion, suggest};
use xw_grid::{Cell, Grid, LightName, Lights};
use xw_letters::{Letter, LetterSet};
use xw_lines::device::{Sink, WriteFailed};
use xw_search::filling::Filling;
use xw_search::listing::{Duplicate, duplicates, unlisted};

/// Writes the count of words, and then the words, at most `most` of them.
fn write_counted<E: Feasible, W: Sink>(
    sink: &mut W,
    count: usize,
    words: WordIter<'_, E>,
    most: Option<u64>,
) -> Result<(), WriteFailed>
    ensures { Sends W.transcript W.failures sink.old sink.new result (counted_lines count (first_words most words.entry)) }
{
    text::write_number(sink, count as u64)?;
    match most {
        None => lists::write_feasible(sink, words),
        Some(most) => lists::write_first_feasible(sink, words, most),
    }
}

/// Returns the known word at an index among those of the light's length.
fn word_at<E: Feasible>(engine: &E, name: LightName, index: usize) -> &[Letter]
    ensures { result.now ≡ spec_word_at (E.state engine.now) name index }
{
    let size = match light_named(engine.lights(), name) {
        Some(light) => light.size as usize,
        None => 0,
    };
    let bank = engine.bank();
    if index < bank.known(size) {
        bank.word(size, index)
    } else {
        &[]
    }
}

/// Writes a key word and a light's name.
fn write_named<W: Sink>(sink: &mut W, said: &str, light: LightName) -> Result<(), WriteFailed>
    ensures { Sends W.transcript W.failures sink.old sink.new result (line_of (said.now ∷ decimal light.number ∷ direction_name light.direction ∷ [])) }
{
    write_line(
        sink,
        &[
            Token::Name(said),
            Token::Number(u64::from(light.number)),
            Token::Name(light.direction.name()),
        ],
    )
}

/// Writes a key word, a light's name and a word.
fn write_named_word<'a, W: Sink>(
    sink: &mut W,
    said: &'a str,
    light: LightName,
    word: &'a [Letter],
) -> Result<(), WriteFailed>
    ensures { Sends W.transcript W.failures sink.old sink.new result (line_of (said.now ∷ decimal light.number ∷ direction_name light.direction ∷ word.now ∷ [])) }
{
    write_line(
        sink,
        &[
            Token::Name(said),
            Token::Number(u64::from(light.number)),
            Token::Name(light.direction.name()),
            Token::Letters(word),
        ],
    )
}

/// Writes a suggestion.
fn write_suggestion<E: Feasible, W: Sink>(
    sink: &mut W,
    engine: &E,
    suggestion: Suggestion,
) -> Result<(), WriteFailed>
    ensures { Sends W.transcript W.failures sink.old sink.new result (suggestion_line (E.state engine.now) suggestion) }
{
    match suggestion {
        Suggestion::Dead(light) => write_named(sink, "dead", light),
        Suggestion::Done => write_line(sink, &[Token::Name("done")]),
        Suggestion::Try { light, word } => {
            write_named_word(sink, "try", light, word_at(engine, light, word))
        }
        Suggestion::NoWord(light) => write_named(sink, "noword", light),
    }
}

fn filling_name(filling: Filling) -> &'static str
    ensures { result.now ≡ spec_filling_name filling }
{
    match filling {
        Filling::Filled => "filled",
        Filling::NoFill => "nofill",
        Filling::Limit => "limit",
    }
}

impl WriteLines for Filling {
    ghost use Rattle.xw_session.specs.Reply.{filling_line};

    ghost lines = { filling_line };

    fn write_lines<W: Sink>(self, sink: &mut W) -> Result<(), WriteFailed> {
        write_line(sink, &[Token::Name(filling_name(self))])
    }
}

/// Writes each light that spells the same as an earlier light on a line, with that earlier light.
fn write_duplicates<W: Sink>(
    sink: &mut W,
    grid: &Grid,
    lights: &Lights,
    found: &[Duplicate],
) -> Result<(), WriteFailed>
    requires { lights.now ≡ lights_of grid.now }
    ensures { Sends W.transcript W.failures sink.old sink.new result (flat_map (duplicate_line grid.now) found.now) }
{
    for duplicate in found {
        text::write_repeat(sink, grid, lights, duplicate.light, duplicate.first)?;
    }
    Ok(())
}

impl<E: Feasible> Session<E> {
    ghost use Rattle.xw_commands.specs.declared.query.Query.TheVariants as queries;

    /// Answers `match`: the active words that fit a pattern.
    pub(crate) fn answer_match<W: Sink>(
        &self,
        pattern: &[u8],
        sink: &mut W,
    ) -> Result<Ended, WriteFailed>
        ensures { AnswersQuery W.transcript W.failures self.now (queries.Match pattern.now) result sink.old sink.new }
    {
        match self.engine.bank().matching(pattern) {
            Ok(words) => accepted(lists::write_words(sink, words)),
            Err(fault) => Ok(Err(CommandRefusal::Engine(Refusal::Word(fault)))),
        }
    }

    /// Answers `show`: the grid.
    pub(crate) fn answer_show<W: Sink>(&self, sink: &mut W) -> Result<Ended, WriteFailed>
        ensures { AnswersQuery W.transcript W.failures self.now queries.Show result sink.old sink.new }
    {
        accepted(show::write_grid(sink, self.engine.grid()))
    }

    /// Answers `lights`: all lights.
    pub(crate) fn answer_lights<W: Sink>(&self, sink: &mut W) -> Result<Ended, WriteFailed>
        ensures { AnswersQuery W.transcript W.failures self.now queries.Lights result sink.old sink.new }
    {
        accepted(lists::write_lights(sink, self.engine.grid(), self.engine.lights()))
    }

    /// Answers `circles`: the open circled cells.
    pub(crate) fn answer_circles<W: Sink>(&self, sink: &mut W) -> Result<Ended, WriteFailed>
        ensures { AnswersQuery W.transcript W.failures self.now queries.Circles result sink.old sink.new }
    {
        accepted(lists::write_circles(sink, self.engine.grid(), &self.circles))
    }

    /// Returns the feasible words of a light and their count.
    fn counted_by(&self, name: LightName) -> Option<(usize, WordIter<'_, E>)>
        ensures some { IfSome result (λ found. (light : ℕ) × (index_named (lights_of self.now.engine.grid) name ≡ Some light)
            × (found.0 ≡ length (feasible_words self.now.engine light))
            × (found.1 ≡ feasible_words self.now.engine light)) }
        ensures none { IfNone result (index_named (lights_of self.now.engine.grid) name ≡ None) }
    {
        match (self.engine.word_count(name), words(&self.engine, name)) {
            (Ok(count), Ok(found)) => Some((count, found)),
            _ => None,
        }
    }

    /// Returns the feasible words, and their count, of the light named in a command.
    fn counted_words(&self, named: LightArg) -> Option<(usize, WordIter<'_, E>)>
        ensures some { IfSome result (λ found. (light : ℕ) × (index_named (lights_of self.now.engine.grid) (name_of_light named) ≡ Some light)
            × (found.0 ≡ length (feasible_words self.now.engine light))
            × (found.1 ≡ feasible_words self.now.engine light)) }
        ensures none { IfNone result (index_named (lights_of self.now.engine.grid) (name_of_light named) ≡ None) }
    {
        self.engine.grid().well_formed();
        match light_name(named) {
            Some(name) => self.counted_by(name),
            None => None,
        }
    }

    /// Answers `words`: the feasible words of a light.
    pub(crate) fn answer_words<W: Sink>(
        &self,
        named: LightArg,
        most: Option<u64>,
        sink: &mut W,
    ) -> Result<Ended, WriteFailed>
        ensures { AnswersQuery W.transcript W.failures self.now (queries.Words named most) result sink.old sink.new }
    {
        match self.counted_words(named) {
            Some((count, found)) => accepted(write_counted(sink, count, found, most)),
            None => Ok(Err(CommandRefusal::Engine(Refusal::NoLight))),
        }
    }

    /// Returns the open cell at a row and column with its feasible letters. Returns `OutOfGrid` or `OnBlock` if there is
    /// none.
    pub(crate) fn open_cell(&self, spot: CellArg) -> Result<(Cell, LetterSet), Refusal>
        ensures ok { IfOk result (λ found. (found.0 ≡ cell_of spot)
            × ((lines : List ℕ) → on_open self.now.engine.grid (cell_of spot) lines ≡ Ok lines)
            × (letters_in found.1 ≡ feasible_letters self.now.engine (index_of self.now.engine.grid (cell_of spot)))) }
        ensures refused { (lines : List ℕ) → IfErr result (λ refusal. on_open self.now.engine.grid (cell_of spot) lines ≡ Err (CommandRefusal.Engine refusal)) }
    {
        let cell = cell_in(self.engine.grid(), spot)?;
        let letters = self.engine.letters(cell)?;
        Ok((cell, letters))
    }

    /// Answers `letters`: the feasible letters of a cell.
    pub(crate) fn answer_letters<W: Sink>(
        &self,
        spot: CellArg,
        sink: &mut W,
    ) -> Result<Ended, WriteFailed>
        ensures { AnswersQuery W.transcript W.failures self.now (queries.Letters spot) result sink.old sink.new }
    {
        match self.open_cell(spot) {
            Ok(found) => accepted(text::write_letter_set(sink, found.1)),
            Err(refusal) => Ok(Err(CommandRefusal::Engine(refusal))),
        }
    }

    /// Answers `dups`: the lights that spell the same as an earlier light.
    pub(crate) fn answer_duplicates<W: Sink>(&self, sink: &mut W) -> Result<Ended, WriteFailed>
        ensures { AnswersQuery W.transcript W.failures self.now queries.Duplicates result sink.old sink.new }
    {
        match duplicates(self.alloc, &self.engine) {
            Ok(found) => accepted(write_duplicates(
                sink,
                self.engine.grid(),
                self.engine.lights(),
                &found,
            )),
            Err(refusal) => Ok(Err(CommandRefusal::Engine(refusal))),
        }
    }

    /// Answers `unlisted`: the lights whose words are not active.
    pub(crate) fn answer_unlisted<W: Sink>(&self, sink: &mut W) -> Result<Ended, WriteFailed>
        ensures { AnswersQuery W.transcript W.failures self.now queries.Unlisted result sink.old sink.new }
    {
        match unlisted(self.alloc, &self.engine) {
            Ok(found) => accepted(lists::write_unlisted(
                sink,
                self.engine.grid(),
                self.engine.lights(),
                &found,
            )),
            Err(refusal) => Ok(Err(CommandRefusal::Engine(refusal))),
        }
    }

    /// Answers `suggest`: the next word to place.
    pub(crate) fn answer_suggestion<W: Sink>(&mut self, sink: &mut W) -> Result<Ended, WriteFailed>
        ensures answer { AnswersQuery W.transcript W.failures self.old queries.Suggest result sink.old sink.new }
        ensures unchanged { self.new ≡ self.old }
    {
        let suggestion = suggest(&mut self.engine);
        accepted(write_suggestion(sink, &self.engine, suggestion))
    }
}

impl<E: Searchable> Session<E> {
    ghost use Rattle.xw_commands.specs.declared.search.Search.TheVariants as searches;

    /// Answers `fill`: fills the grid with at most `limit` placements, if possible.
    pub(crate) fn answer_fill<W: Sink>(
        &mut self,
        limit: u64,
        sink: &mut W,
    ) -> Result<Ended, WriteFailed>
        ensures { AnswersSearch W.transcript W.failures self.old (searches.Fill limit) result self.new sink.old sink.new }
    {
        self.engine.tell(News::Begins(Task::Fill));
        let filled = fill(self.alloc, &mut self.engine, limit);
        self.engine.tell(News::Ends);
        self.hints
            .end_autofill_if(matches!(filled, Ok(Filling::Filled)));
        write_given(sink, filled)
    }
}
