//! The changes: the commands that make the change that they state.
ghost use Rattle.std.specs.Prelude.{◌≡◌};
ghost use Rattle.xw_commands.specs.Reading.{Reads};
ghost use Rattle.xw_commands.specs.Change.{change_word, change_named};
ghost use Rattle.xw_commands.specs.declared.change.ChangeName.TheVariants as names;

use crate::command::{CellArg, Field, LightArg, SyntaxFault, Text, TextField, TextMode};
use crate::names::{CLUE, CommandName, Named};
use crate::words::Words;
use xw_grid::{Side, Symmetry};

/// A change with its arguments.
#[derive(Drop)]
pub enum Change<'a> {
    Size(u64, u64),
    Symmetry(Symmetry),
    Add(Text<'a>, Option<u8>),
    Strike(Text<'a>),
    Least(u8),
    Set(CellArg, u8),
    Clear(CellArg),
    Place(LightArg, Text<'a>),
    Erase(LightArg),
    Block(CellArg),
    Bar(CellArg, Side),
    Clue(LightArg, Text<'a>),
    Write(TextField, Text<'a>),
    Circle(CellArg),
    Watch(bool),
    Put(TextMode, Field, Text<'a>),
}

/// The name of a change.
#[derive(Clone, Copy)]
pub enum ChangeName {
    Size,
    Symmetry,
    Add,
    Strike,
    Least,
    Set,
    Clear,
    Place,
    Erase,
    Block,
    Bar,
    Clue,
    Write(TextField),
    Circle,
    Watch,
    Put(TextMode),
}

/// The names of all changes.
pub const CHANGES: [ChangeName; 20] = [
    ChangeName::Size,
    ChangeName::Symmetry,
    ChangeName::Add,
    ChangeName::Strike,
    ChangeName::Least,
    ChangeName::Set,
    ChangeName::Clear,
    ChangeName::Place,
    ChangeName::Erase,
    ChangeName::Block,
    ChangeName::Bar,
    ChangeName::Clue,
    ChangeName::Write(TextField::Title),
    ChangeName::Write(TextField::Author),
    ChangeName::Write(TextField::Copyright),
    ChangeName::Write(TextField::Notes),
    ChangeName::Circle,
    ChangeName::Watch,
    ChangeName::Put(TextMode::Instead),
    ChangeName::Put(TextMode::Behind),
];

/// The name of the change.
impl Named for TextMode {
    ghost use Rattle.xw_commands.specs.Change.{mode_word};

    ghost name = { mode_word };

    fn name(self) -> &'static str {
        match self {
            TextMode::Instead => "text",
            TextMode::Behind => "more",
        }
    }
}

impl Named for ChangeName {
    ghost use Rattle.xw_commands.specs.Change.{change_word};

    ghost name = { change_word };

    fn name(self) -> &'static str {
        match self {
            ChangeName::Size => "size",
            ChangeName::Symmetry => "sym",
            ChangeName::Add => "add",
            ChangeName::Strike => "strike",
            ChangeName::Least => "least",
            ChangeName::Set => "set",
            ChangeName::Clear => "clear",
            ChangeName::Place => "place",
            ChangeName::Erase => "erase",
            ChangeName::Block => "block",
            ChangeName::Bar => "bar",
            ChangeName::Clue => CLUE,
            ChangeName::Write(field) => field.name(),
            ChangeName::Circle => "circle",
            ChangeName::Watch => "watch",
            ChangeName::Put(mode) => mode.name(),
        }
    }
}

impl CommandName for ChangeName {
    ghost use Rattle.xw_commands.specs.Change.{change_form};

    ghost form = { change_form };

    fn form(self) -> &'static str {
        match self {
            ChangeName::Size => "size W H",
            ChangeName::Symmetry => "sym KIND",
            ChangeName::Add => "add WORD [G]",
            ChangeName::Strike => "strike WORD",
            ChangeName::Least => "least G",
            ChangeName::Set => "set R C L",
            ChangeName::Clear => "clear R C",
            ChangeName::Place => "place N DIR WORD",
            ChangeName::Erase => "erase N DIR",
            ChangeName::Block => "block R C",
            ChangeName::Bar => "bar R C SIDE",
            ChangeName::Clue => "clue N DIR TEXT",
            ChangeName::Write(TextField::Title) => "title TEXT",
            ChangeName::Write(TextField::Author) => "author TEXT",
            ChangeName::Write(TextField::Copyright) => "copyright TEXT",
            ChangeName::Write(TextField::Notes) => "notes TEXT",
            ChangeName::Circle => "circle R C",
            ChangeName::Watch => "watch on, watch off",
            ChangeName::Put(TextMode::Instead) => "text FIELD ESC",
            ChangeName::Put(TextMode::Behind) => "more FIELD ESC",
        }
    }
}

/// Reads the arguments of `Size`.
fn read_size<'a>(words: &mut Words<'a>) -> Result<Change<'a>, SyntaxFault>
    ensures { Reads (λ change. change) result words.new (change_named (change_word names.Size) words.old) }
{
    Ok(Change::Size(words.number()?, words.number()?))
}

/// Reads the arguments of `Add`.
fn read_add<'a>(words: &mut Words<'a>) -> Result<Change<'a>, SyntaxFault>
    ensures { Reads (λ change. change) result words.new (change_named (change_word names.Add) words.old) }
{
    Ok(Change::Add(words.word()?, words.grade_if_any()?))
}

/// Reads the arguments of `Set`.
fn read_set<'a>(words: &mut Words<'a>) -> Result<Change<'a>, SyntaxFault>
    ensures { Reads (λ change. change) result words.new (change_named (change_word names.Set) words.old) }
{
    Ok(Change::Set(words.spot()?, words.byte()?))
}

/// Reads the arguments of `Place`.
fn read_place<'a>(words: &mut Words<'a>) -> Result<Change<'a>, SyntaxFault>
    ensures { Reads (λ change. change) result words.new (change_named (change_word names.Place) words.old) }
{
    Ok(Change::Place(words.named()?, words.word()?))
}

/// Reads the arguments of `Bar`.
fn read_bar<'a>(words: &mut Words<'a>) -> Result<Change<'a>, SyntaxFault>
    ensures { Reads (λ change. change) result words.new (change_named (change_word names.Bar) words.old) }
{
    Ok(Change::Bar(words.spot()?, words.side()?))
}

/// Reads the arguments of `Clue`.
fn read_clue<'a>(words: &mut Words<'a>) -> Result<Change<'a>, SyntaxFault>
    ensures { Reads (λ change. change) result words.new (change_named (change_word names.Clue) words.old) }
{
    Ok(Change::Clue(words.named()?, words.text()))
}

/// Reads the arguments of a change.
pub(crate) fn arguments<'a>(
    name: ChangeName,
    words: &mut Words<'a>,
) -> Result<Change<'a>, SyntaxFault>
    ensures { Reads (λ change. change) result words.new (change_named (change_word name) words.old) }
{
    match name {
        ChangeName::Size => read_size(words),
        ChangeName::Symmetry => Ok(Change::Symmetry(words.symmetry()?)),
        ChangeName::Add => read_add(words),
        ChangeName::Strike => Ok(Change::Strike(words.word()?)),
        ChangeName::Least => Ok(Change::Least(words.grade()?)),
        ChangeName::Set => read_set(words),
        ChangeName::Clear => Ok(Change::Clear(words.spot()?)),
        ChangeName::Place => read_place(words),
        ChangeName::Erase => Ok(Change::Erase(words.named()?)),
        ChangeName::Block => Ok(Change::Block(words.spot()?)),
        ChangeName::Bar => read_bar(words),
        ChangeName::Clue => read_clue(words),
        ChangeName::Write(field) => Ok(Change::Write(field, words.text())),
        ChangeName::Circle => Ok(Change::Circle(words.spot()?)),
        ChangeName::Watch => Ok(Change::Watch(words.switch()?)),
        ChangeName::Put(mode) => Ok(Change::Put(mode, words.field()?, words.text())),
    }
}
