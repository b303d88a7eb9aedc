//! The lines of answers that have a fixed number of words.
ghost use Rattle.std.specs.Prelude.{◌≡◌, ◌≤◌, [], ◌∷◌, decimal};
ghost use Rattle.xw_letters.specs.LetterSet.{letters_in};
ghost use Rattle.xw_grid.specs.Light.{lights_of};
ghost use Rattle.xw_lines.specs.Sends.{Sends, Gathers};
ghost use Rattle.xw_commands.specs.Names.{direction_name};
ghost use Rattle.xw_answers.specs.Text.{line_of, number_line, accepted, refused, letter_or_dot as spec_letter_or_dot, pattern as spec_pattern, pattern_of, light_of, cell_line, letters_line, change_line, entry_line, repeat_line, numbered_line, grade_line, spelled_line};

use crate::answer_line::{AnswerLine, Token, write_line};
use crate::lookup::light_named;
use crate::refusal::{self, CommandRefusal};
use arrayvec::ArrayVec;
use std::marker::Model;
use xw_commands::names::Named;
use xw_grid::{Cell, Grid, Light, LightName, Lights};
use xw_letters::{Letter, LetterSet};
use xw_lines::device::{Sink, WriteFailed};
use xw_words::word::LONGEST;

/// Writes the line `ok`.
pub fn write_accepted<W: Sink>(sink: &mut W) -> Result<(), WriteFailed>
    ensures { Sends W.transcript W.failures sink.old sink.new result accepted }
{
    write_line(sink, &[Token::Name("ok")])
}

/// Writes the line `no` with the name of the refusal.
pub fn write_refused<W: Sink>(sink: &mut W, refusal: CommandRefusal) -> Result<(), WriteFailed>
    ensures { Sends W.transcript W.failures sink.old sink.new result (refused refusal) }
{
    write_line(
        sink,
        &[Token::Name("no"), Token::Name(refusal::name(refusal))],
    )
}

/// Returns the letter in a cell, or a dot if it has none.
pub fn letter_or_dot(entry: Option<Letter>) -> u8
    ensures { result ≡ spec_letter_or_dot entry }
{
    match entry {
        Some(letter) => letter.byte(),
        None => b'.',
    }
}

/// The letters of a light, with a dot for each empty cell. Allocates nothing.
#[derive(Drop)]
pub struct Pattern {
    bytes: ArrayVec<u8, LONGEST>,
}

impl Model for Pattern {
    ghost use Rattle.std.specs.Prelude.{ℕ, List};

    ghost Value = { List ℕ };

    ghost view = { λ pattern. pattern.bytes.items };
}

impl Pattern {
    fn new(grid: &Grid, light: &Light) -> Pattern
        requires short { light.now.size ≤ 255 }
        requires inside { (light.now.start.row ≤ 255) × (light.now.start.col ≤ 255) }
        ensures { result ≡ spec_pattern grid.now light.now }
    {
        let mut bytes = ArrayVec::new();
        for k in 0..light.size {
            bytes.push(letter_or_dot(grid.entry(light.cell(k))));
        }
        Pattern { bytes }
    }

    /// Returns the letters of the light with this name, or no letters if there is no such light.
    pub fn named(grid: &Grid, lights: &Lights, name: LightName) -> Pattern
        requires { lights.now ≡ lights_of grid.now }
        ensures { result ≡ pattern_of grid.now (light_of grid.now name) }
    {
        grid.well_formed();
        match light_named(lights, name) {
            Some(light) => Pattern::new(grid, &light),
            None => Pattern {
                bytes: ArrayVec::new(),
            },
        }
    }

    pub fn bytes(&self) -> &[u8]
        ensures { result.now ≡ self.now }
    {
        self.bytes.as_slice()
    }
}

/// Writes the row and column of a cell, and an LF.
pub fn write_cell<W: Sink>(sink: &mut W, cell: Cell) -> Result<(), WriteFailed>
    ensures { Sends W.transcript W.failures sink.old sink.new result (cell_line cell) }
{
    write_line(
        sink,
        &[
            Token::Number(u64::from(cell.row)),
            Token::Number(u64::from(cell.col)),
        ],
    )
}

/// Writes a number and an LF.
pub fn write_number<W: Sink>(sink: &mut W, number: u64) -> Result<(), WriteFailed>
    ensures { Sends W.transcript W.failures sink.old sink.new result (line_of (decimal number ∷ [])) }
{
    write_line(sink, &[Token::Number(number)])
}

/// Writes a name, a number and an LF.
pub fn write_named_number<W: Sink>(sink: &mut W, name: &str, number: u64) -> Result<(), WriteFailed>
    ensures { Sends W.transcript W.failures sink.old sink.new result (number_line name.now number) }
{
    write_line(sink, &[Token::Name(name), Token::Number(number)])
}

/// Writes a light's name, a number and an LF.
pub fn write_numbered<W: Sink>(
    sink: &mut W,
    light: LightName,
    number: u64,
) -> Result<(), WriteFailed>
    ensures { Sends W.transcript W.failures sink.old sink.new result (numbered_line light number) }
{
    write_line(
        sink,
        &[
            Token::Number(u64::from(light.number)),
            Token::Name(light.direction.name()),
            Token::Number(number),
        ],
    )
}

/// Writes a light's name, a grade or a dash, and an LF.
pub fn write_grade<W: Sink>(
    sink: &mut W,
    light: LightName,
    grade: Option<u8>,
) -> Result<(), WriteFailed>
    ensures { Sends W.transcript W.failures sink.old sink.new result (grade_line light grade) }
{
    let grade = match grade {
        Some(grade) => Token::Number(u64::from(grade)),
        None => Token::Name("-"),
    };
    write_line(
        sink,
        &[
            Token::Number(u64::from(light.number)),
            Token::Name(light.direction.name()),
            grade,
        ],
    )
}

/// Writes the letters of a set and an LF.
pub fn write_letter_set<W: Sink>(sink: &mut W, letters: LetterSet) -> Result<(), WriteFailed>
    ensures { Sends W.transcript W.failures sink.old sink.new result (letters_line (letters_in letters)) }
{
    write_line(sink, &[Token::Set(letters)])
}

/// Appends the line of a changed cell with its feasible letters.
pub fn put_change<W: Sink>(
    line: &mut AnswerLine,
    cell: Cell,
    letters: LetterSet,
    sink: &mut W,
) -> Result<(), WriteFailed>
    ensures { Gathers W.transcript W.failures sink.old sink.new line.old line.new result (change_line (cell, letters_in letters)) }
{
    line.put_line(
        &[
            Token::Name("cell"),
            Token::Number(u64::from(cell.row)),
            Token::Number(u64::from(cell.col)),
            Token::Set(letters),
        ],
        sink,
    )
}

/// Writes the line of a changed cell with its feasible letters.
pub fn write_change<W: Sink>(
    sink: &mut W,
    cell: Cell,
    letters: LetterSet,
) -> Result<(), WriteFailed>
    ensures { Sends W.transcript W.failures sink.old sink.new result (change_line (cell, letters_in letters)) }
{
    let mut line = AnswerLine::new();
    put_change(&mut line, cell, letters, sink)?;
    line.send(sink)
}

/// Writes the line of a cell if it has an entry.
pub fn write_entry<W: Sink>(
    sink: &mut W,
    cell: Cell,
    entry: Option<Letter>,
) -> Result<(), WriteFailed>
    ensures { Sends W.transcript W.failures sink.old sink.new result (entry_line cell entry) }
{
    let Some(letter) = entry else {
        return Ok(());
    };
    write_line(
        sink,
        &[
            Token::Name("cell"),
            Token::Number(u64::from(cell.row)),
            Token::Number(u64::from(cell.col)),
            Token::Letters(&[letter]),
        ],
    )
}

/// Writes two lights' names, letters and an LF.
fn write_repeat_line<W: Sink>(
    sink: &mut W,
    name: LightName,
    first: LightName,
    letters: &[u8],
) -> Result<(), WriteFailed>
    ensures { Sends W.transcript W.failures sink.old sink.new result (line_of (decimal name.number ∷ direction_name name.direction ∷ decimal first.number ∷ direction_name first.direction ∷ letters.now ∷ [])) }
{
    write_line(
        sink,
        &[
            Token::Number(u64::from(name.number)),
            Token::Name(name.direction.name()),
            Token::Number(u64::from(first.number)),
            Token::Name(first.direction.name()),
            Token::Bytes(letters),
        ],
    )
}

/// Writes a light, the first earlier light that spells the same, and the word.
pub fn write_repeat<W: Sink>(
    sink: &mut W,
    grid: &Grid,
    lights: &Lights,
    name: LightName,
    first: LightName,
) -> Result<(), WriteFailed>
    requires { lights.now ≡ lights_of grid.now }
    ensures { Sends W.transcript W.failures sink.old sink.new result (repeat_line grid.now name first) }
{
    let word = Pattern::named(grid, lights, name);
    write_repeat_line(sink, name, first, word.bytes())
}

/// Writes a light's name, letters and an LF.
fn write_named_letters<W: Sink>(
    sink: &mut W,
    name: LightName,
    letters: &[u8],
) -> Result<(), WriteFailed>
    ensures { Sends W.transcript W.failures sink.old sink.new result (line_of (decimal name.number ∷ direction_name name.direction ∷ letters.now ∷ [])) }
{
    write_line(
        sink,
        &[
            Token::Number(u64::from(name.number)),
            Token::Name(name.direction.name()),
            Token::Bytes(letters),
        ],
    )
}

/// Writes a light's name and its word.
pub fn write_light_word<W: Sink>(
    sink: &mut W,
    grid: &Grid,
    lights: &Lights,
    name: LightName,
) -> Result<(), WriteFailed>
    requires { lights.now ≡ lights_of grid.now }
    ensures { Sends W.transcript W.failures sink.old sink.new result (spelled_line grid.now name) }
{
    let word = Pattern::named(grid, lights, name);
    write_named_letters(sink, name, word.bytes())
}
