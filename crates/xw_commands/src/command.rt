//! The commands, and the parser of a line.
ghost use Rattle.std.specs.Prelude.{◌≡◌, ℕ, List, option_map};
ghost use Rattle.xw_lines.specs.Cut.{held};
ghost use Rattle.xw_commands.specs.Reading.{Reads};
ghost use Rattle.xw_commands.specs.Command.{command_named as spec_command_named, command_of, form_named as spec_form_named};

use crate::change::{self, CHANGES, Change};
use crate::line;
use crate::names::CommandName;
use crate::query::{self, QUERIES, Query};
use crate::search::{self, SEARCHES, Search};
use crate::words::Words;
use std::marker::Model;
use xw_grid::Direction;
use xw_lines::run::LINE_LIMIT;

/// The greatest grade of a word.
pub const BEST_GRADE: u8 = 100;

/// Why a line is not a valid command.
#[derive(Clone, Copy, Debug, PartialEq, Eq)]
pub enum SyntaxFault {
    LineTooLong,
    Command,
    Arguments,
}

/// A row and a column as written in a line. They may lie outside the grid.
#[derive(Clone, Copy, Debug, PartialEq, Eq)]
pub struct CellArg {
    pub row: u64,
    pub col: u64,
}

/// The number and direction of a light as written in a line. The grid may have no such light.
#[derive(Clone, Copy, Debug, PartialEq, Eq)]
pub struct LightArg {
    pub number: u64,
    pub direction: Direction,
}

/// A text of the puzzle other than a clue.
#[derive(Clone, Copy, Debug, PartialEq, Eq)]
pub enum TextField {
    Title,
    Author,
    Copyright,
    Notes,
}

/// A text of the puzzle, or the clue at a start cell and direction.
#[derive(Clone, Copy, Debug, PartialEq, Eq)]
pub enum Field {
    Text(TextField),
    Clue(CellArg, Direction),
}

/// How a text is put into a field: `Instead` replaces the field, `Behind` appends to it.
#[derive(Clone, Copy, Debug, PartialEq, Eq)]
pub enum TextMode {
    Instead,
    Behind,
}

/// A word or text of a line.
#[derive(Drop)]
pub struct Text<'a> {
    bytes: &'a [u8],
}

impl<'a> Model for Text<'a> {
    ghost use Rattle.std.specs.Prelude.{ℕ, List};

    ghost Value = { List ℕ };

    ghost view = { λ text. text.bytes.now };
}

impl<'a> Text<'a> {
    pub fn new(bytes: &'a [u8]) -> Text<'a>
        ensures { result ≡ bytes.now }
    {
        Text { bytes }
    }

    pub fn bytes(&self) -> &'a [u8]
        ensures { result.now ≡ self.now }
    {
        self.bytes
    }
}

/// A parsed command with its arguments.
#[derive(Drop)]
pub enum Command<'a> {
    /// Answers lines, and changes nothing.
    Ask(Query<'a>),
    /// Makes the change that it states.
    Change(Change<'a>),
    /// Answers how it ended, and may enter letters.
    Search(Search<'a>),
}

/// Looks up a command word and reads its arguments. Returns `Command` if the word is unknown.
fn command_named<'a>(word: &[u8], words: &mut Words<'a>) -> Result<Command<'a>, SyntaxFault>
    ensures { Reads (λ command. command) result words.new (spec_command_named word.now words.old) }
{
    if let Some(name) = line::named(&QUERIES, word) {
        return Ok(Command::Ask(query::arguments(name, words)?));
    }
    if let Some(name) = line::named(&CHANGES, word) {
        return Ok(Command::Change(change::arguments(name, words)?));
    }
    match line::named(&SEARCHES, word) {
        Some(name) => Ok(Command::Search(search::arguments(name, words)?)),
        None => Err(SyntaxFault::Command),
    }
}

/// Returns the word of a command with its arguments. Returns `None` if no command has this word.
pub fn form_named(word: &[u8]) -> Option<&'static str>
    ensures { option_map (λ form. form.now) result ≡ spec_form_named word.now }
{
    if let Some(name) = line::named(&QUERIES, word) {
        return Some(name.form());
    }
    if let Some(name) = line::named(&CHANGES, word) {
        return Some(name.form());
    }
    match line::named(&SEARCHES, word) {
        Some(name) => Some(name.form()),
        None => None,
    }
}

/// Parses a line, which must not contain its LF. Returns `None` for a blank line, and for a comment, whose first word
/// starts with `#`. Returns `LineTooLong` for more than `LINE_LIMIT` bytes, then `Command` for an unknown command,
/// then `Arguments` for missing, malformed or extra arguments.
pub fn parse(line: &[u8]) -> Result<Option<Command<'_>>, SyntaxFault>
    ensures { result ≡ command_of line.now }
{
    if line.len() > LINE_LIMIT {
        return Err(SyntaxFault::LineTooLong);
    }
    let Some((name, rest)) = line::first_word(line::without_cr(line)) else {
        return Ok(None);
    };
    if name.first() == Some(&b'#') {
        return Ok(None);
    }
    let mut words = Words::new(rest);
    let command = command_named(name, &mut words)?;
    if !words.is_ended() {
        return Err(SyntaxFault::Arguments);
    }
    Ok(Some(command))
}

/// Parses a buffered line, which is `None` for a line that is too long.
pub fn parse_held(line: Option<&[u8]>) -> Result<Option<Command<'_>>, SyntaxFault>
    ensures { (whole : List ℕ) → held whole ≡ option_map (λ bytes. bytes.now) line.entry → result ≡ command_of whole }
{
    match line {
        Some(line) => parse(line),
        None => Err(SyntaxFault::LineTooLong),
    }
}
