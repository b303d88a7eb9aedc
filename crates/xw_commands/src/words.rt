//! Reads the arguments of a command one after another.
ghost use Rattle.std.specs.Prelude.{◌≡◌, Ok, IfSome, IfNone};
ghost use Rattle.xw_commands.specs.Reading.{word as spec_word, number as spec_number, byte as spec_byte, text as spec_text, word_if_any as spec_word_if_any, number_if_any as spec_number_if_any, number_or_zero as spec_number_or_zero, grade as spec_grade, grade_if_any as spec_grade_if_any, is_ended as spec_is_ended, direction as spec_direction, side as spec_side, symmetry as spec_symmetry, switch as spec_switch, spot as spec_spot, named as spec_named, text_name as spec_text_name, field as spec_field, Reads, HasFault};

use crate::command::{CellArg, Field, LightArg, SyntaxFault, Text, TextField};
use crate::{line, names};
use std::marker::Model;
use xw_grid::{Direction, Side, Symmetry};

/// The unread rest of a line.
#[derive(Drop)]
pub struct Words<'a> {
    rest: &'a [u8],
}

impl<'a> Model for Words<'a> {
    ghost use Rattle.std.specs.Prelude.{ℕ, List};

    ghost Value = { List ℕ };

    ghost view = { λ words. words.rest.now };
}

impl<'a> Words<'a> {
    pub fn new(rest: &'a [u8]) -> Words<'a>
        ensures { result ≡ rest.now }
    {
        Words { rest }
    }

    pub fn copy(&self) -> Words<'a>
        ensures { result ≡ self.now }
    {
        Words { rest: self.rest }
    }

    pub fn is_ended(&self) -> bool
        ensures { result ≡ spec_is_ended self.now }
    {
        line::trimmed_start(self.rest).is_empty()
    }

    /// Reads the next word. Returns `Arguments` if there is none.
    fn next(&mut self) -> Result<&'a [u8], SyntaxFault>
        ensures { Reads (λ word. word.now) result self.new (spec_word self.old) }
    {
        let (word, rest) = line::first_word(self.rest).ok_or(SyntaxFault::Arguments)?;
        self.rest = rest;
        Ok(word)
    }

    pub fn word(&mut self) -> Result<Text<'a>, SyntaxFault>
        ensures { Reads (λ word. word) result self.new (spec_word self.old) }
    {
        Ok(Text::new(self.next()?))
    }

    /// Reads a word if another word follows.
    pub fn word_if_any(&mut self) -> Result<Option<Text<'a>>, SyntaxFault>
        ensures { Reads (λ word. word) result self.new (spec_word_if_any self.old) }
    {
        if self.is_ended() {
            return Ok(None);
        }
        Ok(Some(self.word()?))
    }

    /// Takes the whole rest as a text, without spaces and tabs at its ends.
    pub fn text(&mut self) -> Text<'a>
        ensures { spec_text self.old ≡ Ok (result, self.new) }
    {
        let text = Text::new(line::trimmed(self.rest));
        self.rest = &[];
        text
    }

    pub fn number(&mut self) -> Result<u64, SyntaxFault>
        ensures { Reads (λ number. number) result self.new (spec_number self.old) }
    {
        line::number_in(self.next()?).ok_or(SyntaxFault::Arguments)
    }

    /// Reads a number if another word follows.
    pub fn number_if_any(&mut self) -> Result<Option<u64>, SyntaxFault>
        ensures { Reads (λ number. number) result self.new (spec_number_if_any self.old) }
    {
        if self.is_ended() {
            return Ok(None);
        }
        Ok(Some(self.number()?))
    }

    /// Reads a number if another word follows. Returns 0 if none does.
    pub fn number_or_zero(&mut self) -> Result<u64, SyntaxFault>
        ensures { Reads (λ number. number) result self.new (spec_number_or_zero self.old) }
    {
        Ok(self.number_if_any()?.unwrap_or(0))
    }

    /// Reads a grade, 0 to `BEST_GRADE`.
    pub fn grade(&mut self) -> Result<u8, SyntaxFault>
        ensures { Reads (λ grade. grade) result self.new (spec_grade self.old) }
    {
        line::grade_in(self.number()?).ok_or(SyntaxFault::Arguments)
    }

    /// Reads a grade if another word follows.
    pub fn grade_if_any(&mut self) -> Result<Option<u8>, SyntaxFault>
        ensures { Reads (λ grade. grade) result self.new (spec_grade_if_any self.old) }
    {
        if self.is_ended() {
            return Ok(None);
        }
        Ok(Some(self.grade()?))
    }

    pub fn byte(&mut self) -> Result<u8, SyntaxFault>
        ensures { Reads (λ byte. byte) result self.new (spec_byte self.old) }
    {
        line::byte_in(self.next()?).ok_or(SyntaxFault::Arguments)
    }

    pub fn direction(&mut self) -> Result<Direction, SyntaxFault>
        ensures { Reads (λ direction. direction) result self.new (spec_direction self.old) }
    {
        line::named(&names::DIRECTIONS, self.next()?).ok_or(SyntaxFault::Arguments)
    }

    pub fn side(&mut self) -> Result<Side, SyntaxFault>
        ensures { Reads (λ side. side) result self.new (spec_side self.old) }
    {
        line::named(&names::SIDES, self.next()?).ok_or(SyntaxFault::Arguments)
    }

    pub fn symmetry(&mut self) -> Result<Symmetry, SyntaxFault>
        ensures { Reads (λ kind. kind) result self.new (spec_symmetry self.old) }
    {
        line::named(&names::SYMMETRIES, self.next()?).ok_or(SyntaxFault::Arguments)
    }

    pub fn switch(&mut self) -> Result<bool, SyntaxFault>
        ensures { Reads (λ is_on. is_on) result self.new (spec_switch self.old) }
    {
        line::named(&names::SWITCHES, self.next()?).ok_or(SyntaxFault::Arguments)
    }

    pub fn spot(&mut self) -> Result<CellArg, SyntaxFault>
        ensures { Reads (λ spot. spot) result self.new (spec_spot self.old) }
    {
        let row = self.number()?;
        let col = self.number()?;
        Ok(CellArg { row, col })
    }

    pub fn named(&mut self) -> Result<LightArg, SyntaxFault>
        ensures { Reads (λ named. named) result self.new (spec_named self.old) }
    {
        let number = self.number()?;
        let direction = self.direction()?;
        Ok(LightArg { number, direction })
    }

    /// Reads the light that comes next. Reads nothing if something else comes next.
    pub fn named_if_any(&mut self) -> Option<LightArg>
        ensures some { IfSome result (λ named. spec_named self.old ≡ Ok (named, self.new)) }
        ensures none { IfNone result (HasFault (spec_named self.old)) }
        ensures left { IfNone result (self.new ≡ self.old) }
    {
        let mut ahead = self.copy();
        match ahead.named() {
            Ok(named) => {
                self.rest = ahead.rest;
                Some(named)
            }
            Err(_) => None,
        }
    }

    /// Reads the name of a text field, or `None` for `clue`.
    fn text_name(&mut self) -> Result<Option<TextField>, SyntaxFault>
        ensures { Reads (λ name. name) result self.new (spec_text_name self.old) }
    {
        line::named(&names::TEXT_FIELDS, self.next()?).ok_or(SyntaxFault::Arguments)
    }

    pub fn field(&mut self) -> Result<Field, SyntaxFault>
        ensures { Reads (λ field. field) result self.new (spec_field self.old) }
    {
        if let Some(name) = self.text_name()? {
            return Ok(Field::Text(name));
        }
        let spot = self.spot()?;
        let direction = self.direction()?;
        Ok(Field::Clue(spot, direction))
    }
}
