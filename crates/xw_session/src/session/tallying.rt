//! Answers `tally`.
ghost use Rattle.std.specs.Prelude.{◌≡◌, Some, flat_map, [], ◌∷◌};
ghost use Rattle.xw_letters.specs.LetterSet.{letters_in};
ghost use Rattle.xw_grid.specs.Light.{lights_of, index_through};
ghost use Rattle.xw_lines.specs.Sends.{Sends};
ghost use Rattle.xw_answers.specs.Text.{line_of};
ghost use Rattle.xw_answers.specs.Token.{token_bytes};
ghost use Rattle.xw_session.specs.Tally.{distance as spec_distance, words_with as spec_words_with, tally_at as spec_tally_at, number_or_dash as spec_number_or_dash, tally_line};
ghost use Rattle.xw_session.specs.Answer.{AnswersQuery};

use crate::session::Session;
use crate::session::ending::{Ended, accepted};
use xw_answers::answer_line::{Token, write_line};
use xw_answers::refusal::CommandRefusal;
use xw_commands::command::CellArg;
use xw_feas::searchable::Searchable;
use xw_grid::{Cell, Direction, Lights};
use xw_letters::{Letter, LetterSet};
use xw_lines::device::{Sink, WriteFailed};

/// Returns the index of the light through a cell in a direction.
pub(crate) fn light_through(lights: &Lights, direction: Direction, cell: Cell) -> Option<usize>
    ensures { result ≡ index_through lights.now direction cell }
{
    match direction {
        Direction::Across => lights.across_at(cell),
        Direction::Down => lights.down_at(cell),
    }
}

/// Returns how far a cell of a light is from the first cell of the light.
fn distance(direction: Direction, first: Cell, cell: Cell) -> u32
    ensures { result ≡ spec_distance direction first cell }
{
    match direction {
        Direction::Across => cell.col.saturating_sub(first.col),
        Direction::Down => cell.row.saturating_sub(first.row),
    }
}

/// Returns the number of feasible words of the light at an index that have the letter in a cell.
fn words_with<E: Searchable>(
    engine: &E,
    direction: Direction,
    cell: Cell,
    letter: Letter,
    light: usize,
) -> usize
    requires { index_through (lights_of (E.state engine.now).grid) direction cell ≡ Some light }
    ensures { result ≡ spec_words_with (E.state engine.now) direction cell letter light }
{
    let found = engine.lights().at(light);
    let position = distance(direction, found.start, cell);
    engine.tally(light, position as usize, letter)
}

/// Returns the number of feasible words of the light through a cell that have the letter there, or `None` if no light
/// in this direction goes through it.
fn tally_at<E: Searchable>(
    engine: &E,
    direction: Direction,
    cell: Cell,
    letter: Letter,
) -> Option<usize>
    ensures { result ≡ spec_tally_at (E.state engine.now) direction cell letter }
{
    match light_through(engine.lights(), direction, cell) {
        Some(light) => Some(words_with(engine, direction, cell, letter, light)),
        None => None,
    }
}

/// Returns a number, or a dash if there is none, as a word of a line.
fn number_or_dash(number: Option<usize>) -> Token<'static>
    ensures { token_bytes result ≡ spec_number_or_dash number }
{
    match number {
        Some(number) => Token::Number(number as u64),
        None => Token::Name("-"),
    }
}

/// Writes a letter and two counts on a line.
fn write_counts<W: Sink>(
    sink: &mut W,
    letter: &[Letter],
    across: Option<usize>,
    down: Option<usize>,
) -> Result<(), WriteFailed>
    ensures { Sends W.transcript W.failures sink.old sink.new result (line_of (letter.now ∷ spec_number_or_dash across ∷ spec_number_or_dash down ∷ [])) }
{
    write_line(
        sink,
        &[
            Token::Letters(letter),
            number_or_dash(across),
            number_or_dash(down),
        ],
    )
}

/// Writes a letter with the counts of the lights through a cell on a line.
fn write_tally<E: Searchable, W: Sink>(
    sink: &mut W,
    engine: &E,
    cell: Cell,
    letter: Letter,
) -> Result<(), WriteFailed>
    ensures { Sends W.transcript W.failures sink.old sink.new result (tally_line (E.state engine.now) cell letter) }
{
    let across = tally_at(engine, Direction::Across, cell, letter);
    let down = tally_at(engine, Direction::Down, cell, letter);
    write_counts(sink, &[letter], across, down)
}

/// Writes the line of each of these letters.
fn write_tallies<E: Searchable, W: Sink>(
    sink: &mut W,
    engine: &E,
    cell: Cell,
    letters: LetterSet,
) -> Result<(), WriteFailed>
    ensures { Sends W.transcript W.failures sink.old sink.new result (flat_map (tally_line (E.state engine.now) cell) (letters_in letters)) }
{
    for letter in letters.iter() {
        write_tally(sink, engine, cell, letter)?;
    }
    Ok(())
}

impl<E: Searchable> Session<E> {
    ghost use Rattle.xw_commands.specs.declared.query.Query.TheVariants as queries;

    /// Answers `tally`: how many feasible words of the lights through a cell have each of its letters there.
    pub(crate) fn answer_tally<W: Sink>(
        &self,
        spot: CellArg,
        sink: &mut W,
    ) -> Result<Ended, WriteFailed>
        ensures { AnswersQuery W.transcript W.failures self.now (queries.Tally spot) result sink.old sink.new }
    {
        match self.open_cell(spot) {
            Ok(found) => accepted(write_tallies(sink, &self.engine, found.0, found.1)),
            Err(refusal) => Ok(Err(CommandRefusal::Engine(refusal))),
        }
    }
}
