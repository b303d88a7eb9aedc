//! Answers `choices`.
ghost use Rattle.std.specs.Prelude.{◌≡◌, ◌<◌, ℕ, true, false, length, slice_index_or, [], ◌∷◌, Some, None, IfSome};
ghost use Rattle.xw_grid.specs.Light.{lights_of, index_named};
ghost use Rattle.xw_fill.specs.Choices.{fewest_after as spec_fewest_after};
ghost use Rattle.xw_search.specs.OfState.{light_count, is_entered as spec_is_entered};
ghost use Rattle.xw_fill.specs.OfState.{IsTriedAt, spellings_at};
ghost use Rattle.xw_lines.specs.Sends.{Sends};
ghost use Rattle.xw_answers.specs.Text.{line_of};
ghost use Rattle.xw_answers.specs.Token.{token_bytes};
ghost use Rattle.xw_session.specs.Choices.{number_or_done as spec_number_or_done, choice_line, choice_lines, first_index};
ghost use Rattle.xw_session.specs.Reply.{name_of_light};
ghost use Rattle.xw_session.specs.Answer.{AnswersQuery};

use crate::lookup::light_name;
use crate::session::Session;
use crate::session::ending::{Ended, accepted};
use xw_answers::answer_line::{Token, write_line};
use xw_answers::refusal::CommandRefusal;
use xw_answers::text::Pattern;
use xw_commands::command::{LightArg, Text};
use xw_feas::edit::Refusal;
use xw_feas::feasible::Feasible;
use xw_feas::progress::{News, Task};
use xw_feas::searchable::Searchable;
use xw_fill::choices::{fewest_after, fewest_after_any, fewest_words};
use xw_fill::scan::next_word_index;
use xw_letters::Letter;
use xw_lines::device::{Sink, WriteFailed};
use xw_search::lights::{is_entered, light_at, name_at, word_count};
use xw_words::WordFault;
use xw_words::word::{LONGEST, bad_letter, spell};

/// Returns a number, or `done` if there is none, as a word of a line.
fn number_or_done(number: Option<usize>) -> Token<'static>
    ensures { token_bytes result ≡ spec_number_or_done number }
{
    match number {
        Some(number) => Token::Number(number as u64),
        None => Token::Name("done"),
    }
}

/// Writes a known word, and a number or `done`.
fn write_choice<W: Sink>(
    sink: &mut W,
    word: &[Letter],
    fewest: Option<usize>,
) -> Result<(), WriteFailed>
    ensures { Sends W.transcript W.failures sink.old sink.new result (line_of (word.now ∷ spec_number_or_done fewest ∷ [])) }
{
    write_line(sink, &[Token::Letters(word), number_or_done(fewest)])
}

/// Writes an entered word, and a number or `done`.
fn write_entered_choice<W: Sink>(
    sink: &mut W,
    word: &[u8],
    fewest: Option<usize>,
) -> Result<(), WriteFailed>
    ensures { Sends W.transcript W.failures sink.old sink.new result (line_of (word.now ∷ spec_number_or_done fewest ∷ [])) }
{
    write_line(sink, &[Token::Bytes(word), number_or_done(fewest)])
}

/// Returns the known word at an index among those of a light's length.
fn known_word<E: Feasible>(engine: &E, light: usize, index: usize) -> &[Letter]
    requires light { light < light_count (E.state engine.now) }
    requires index { index < length (spellings_at (E.state engine.now) light) }
    ensures { result.now ≡ slice_index_or (spellings_at (E.state engine.now) light) index [] }
{
    let size = light_at(engine, light).size as usize;
    engine.bank().word(size, index)
}

/// Returns what a feasible word leaves. That is `any`, if all feasible words leave the same. Otherwise the word is placed
/// and taken back.
fn fewest_at<E: Feasible>(
    engine: &mut E,
    light: usize,
    index: usize,
    any: Option<Option<usize>>,
) -> Option<usize>
    requires tried { IsTriedAt (E.state engine.old) light index }
    requires any { IfSome any (λ fewest. (index : ℕ) → IsTriedAt (E.state engine.old) light index
        → fewest ≡ spec_fewest_after (E.state engine.old) light (slice_index_or (spellings_at (E.state engine.old) light) index [])) }
    ensures fewest { result ≡ spec_fewest_after (E.state engine.old) light (slice_index_or (spellings_at (E.state engine.old) light) index []) }
    ensures unchanged { E.state engine.new ≡ E.state engine.old }
{
    match any {
        Some(fewest) => fewest,
        None => fewest_after(engine, light, index),
    }
}

/// Writes a feasible word with what it leaves, which is `any` if all feasible words leave the same.
fn write_choice_at<E: Feasible, W: Sink>(
    sink: &mut W,
    engine: &mut E,
    light: usize,
    index: usize,
    any: Option<Option<usize>>,
) -> Result<(), WriteFailed>
    requires tried { IsTriedAt (E.state engine.old) light index }
    requires any { IfSome any (λ fewest. (index : ℕ) → IsTriedAt (E.state engine.old) light index
        → fewest ≡ spec_fewest_after (E.state engine.old) light (slice_index_or (spellings_at (E.state engine.old) light) index [])) }
    ensures sends { Sends W.transcript W.failures sink.old sink.new result (choice_line (E.state engine.old) light (slice_index_or (spellings_at (E.state engine.old) light) index [])) }
    ensures unchanged { E.state engine.new ≡ E.state engine.old }
{
    let fewest = fewest_at(engine, light, index, any);
    write_choice(sink, known_word(engine, light, index), fewest)
}

/// Tells how many words were placed, unless none has to be: `any` is what each leaves, if all leave the same.
fn tell_placed<E: Searchable>(engine: &E, any: Option<Option<usize>>, made: u64, limit: u64) {
    if any.is_none() {
        engine.tell(News::Placed { made, limit });
    }
}

/// Writes the first feasible words from an index on, at most `most`, of a light that is not wholly entered. `any` is
/// what each of them leaves, if all leave the same. Leaves the engine's state as it was.
fn write_choices<E: Searchable, W: Sink>(
    sink: &mut W,
    engine: &mut E,
    light: usize,
    first: Option<usize>,
    most: u64,
    any: Option<Option<usize>>,
) -> Result<(), WriteFailed>
    requires light { light < light_count (E.state engine.old) }
    requires not_entered { spec_is_entered (E.state engine.old) light ≡ false }
    requires any { IfSome any (λ fewest. (index : ℕ) → IsTriedAt (E.state engine.old) light index
        → fewest ≡ spec_fewest_after (E.state engine.old) light (slice_index_or (spellings_at (E.state engine.old) light) index [])) }
    ensures sends { Sends W.transcript W.failures sink.old sink.new result (choice_lines (E.state engine.old) light first most) }
    ensures unchanged { E.state engine.new ≡ E.state engine.old }
{
    let limit = most.min(word_count(engine, light) as u64);
    let mut from = first.unwrap_or(0);
    let mut left = most;
    while left > 0 {
        let Some(index) = next_word_index(engine, light, from) else {
            return Ok(());
        };
        write_choice_at(sink, engine, light, index, any)?;
        from = index + 1;
        left -= 1;
        tell_placed(engine, any, most.saturating_sub(left), limit);
    }
    Ok(())
}

/// Writes the first feasible words from an index on, at most `most`, of a light that is not wholly entered. Leaves the
/// engine's state as it was.
fn write_unentered<E: Searchable, W: Sink>(
    sink: &mut W,
    engine: &mut E,
    light: usize,
    first: Option<usize>,
    most: u64,
) -> Result<(), WriteFailed>
    requires light { light < light_count (E.state engine.old) }
    requires not_entered { spec_is_entered (E.state engine.old) light ≡ false }
    ensures sends { Sends W.transcript W.failures sink.old sink.new result (choice_lines (E.state engine.old) light first most) }
    ensures unchanged { E.state engine.new ≡ E.state engine.old }
{
    engine.tell(News::Begins(Task::Choices));
    let any = fewest_after_any(engine, light);
    let written = write_choices(sink, engine, light, first, most, any);
    engine.tell(News::Ends);
    written
}

/// Writes the word of a wholly entered light, if it is feasible and at least one word is asked for.
fn write_entered<E: Feasible, W: Sink>(
    sink: &mut W,
    engine: &E,
    light: usize,
    most: u64,
) -> Result<(), WriteFailed>
    requires light { light < light_count (E.state engine.now) }
    requires entered { spec_is_entered (E.state engine.now) light ≡ true }
    ensures { Sends W.transcript W.failures sink.old sink.new result (choice_lines (E.state engine.now) light None most) }
{
    if most == 0 || word_count(engine, light) == 0 {
        return Ok(());
    }
    let word = Pattern::named(engine.grid(), engine.lights(), name_at(engine, light));
    write_entered_choice(sink, word.bytes(), fewest_words(engine))
}

/// Writes the first feasible words of a light from an index on, at most `most`, with what each leaves. Leaves the
/// engine's state as it was.
fn write_weighed<E: Searchable, W: Sink>(
    sink: &mut W,
    engine: &mut E,
    light: usize,
    first: Option<usize>,
    most: u64,
) -> Result<(), WriteFailed>
    requires light { light < light_count (E.state engine.old) }
    ensures sends { Sends W.transcript W.failures sink.old sink.new result (choice_lines (E.state engine.old) light first most) }
    ensures unchanged { E.state engine.new ≡ E.state engine.old }
{
    if is_entered(engine, light) {
        write_entered(sink, engine, light, most)
    } else {
        write_unentered(sink, engine, light, first, most)
    }
}

/// Returns the index of the known word that a command names, active or struck. Returns `BadLetter` for a byte that is
/// not a letter, then `PlaceLength` if the light has another length, and then `Unknown` if the word is not known.
fn spelled_index<E: Feasible>(
    engine: &E,
    light: usize,
    word: &[u8],
) -> Result<Option<usize>, Refusal>
    requires light { light < light_count (E.state engine.now) }
    ensures { result ≡ first_index (E.state engine.now) light (Some word.now) }
{
    if let Some(position) = bad_letter(word) {
        return Err(Refusal::Word(WordFault::BadLetter(position + 1)));
    }
    if word.len() != light_at(engine, light).size as usize {
        return Err(Refusal::PlaceLength);
    }
    let mut letters = [Letter::first(); LONGEST];
    spell(&mut letters, word);
    match engine.bank().find(&letters[..word.len()]) {
        Some(index) => Ok(Some(index)),
        None => Err(Refusal::Word(WordFault::Unknown)),
    }
}

/// Returns the index of the word that a command names, or `None` if it names none.
fn first_index<E: Feasible>(
    engine: &E,
    light: usize,
    first: &Option<Text<'_>>,
) -> Result<Option<usize>, Refusal>
    requires light { light < light_count (E.state engine.now) }
    ensures { result ≡ first_index (E.state engine.now) light first.now }
{
    match first {
        Some(word) => spelled_index(engine, light, word.bytes()),
        None => Ok(None),
    }
}

impl<E: Searchable> Session<E> {
    ghost use Rattle.xw_commands.specs.declared.query.Query.TheVariants as queries;

    /// Returns the index of the light that a command names.
    fn light_index(&self, named: LightArg) -> Option<usize>
        ensures { result ≡ index_named (lights_of self.now.engine.grid) (name_of_light named) }
    {
        self.engine.grid().well_formed();
        match light_name(named) {
            Some(name) => self.engine.lights().index(name),
            None => None,
        }
    }

    /// Answers `choices`: the first feasible words of a light from a word on, each with the fewest words that it
    /// leaves to a light.
    pub(crate) fn answer_choices<W: Sink>(
        &mut self,
        named: LightArg,
        most: u64,
        first: &Option<Text<'_>>,
        sink: &mut W,
    ) -> Result<Ended, WriteFailed>
        ensures answer { AnswersQuery W.transcript W.failures self.old (queries.Choices named most first.now) result sink.old sink.new }
        ensures unchanged { self.new ≡ self.old }
    {
        let Some(light) = self.light_index(named) else {
            return Ok(Err(CommandRefusal::Engine(Refusal::NoLight)));
        };
        match first_index(&self.engine, light, first) {
            Ok(from) => accepted(write_weighed(sink, &mut self.engine, light, from, most)),
            Err(refusal) => Ok(Err(CommandRefusal::Engine(refusal))),
        }
    }
}
