//! Writes the texts and clues of a puzzle for the command `texts`.
ghost use Rattle.std.specs.Prelude.{◌≡◌, ◌<◌, length, slice_index_or};
ghost use Rattle.xw_grid.specs.Light.{lights_of, no_light};
ghost use Rattle.xw_grid.specs.Puzzle.{texts_view};
ghost use Rattle.xw_lines.specs.Sends.{Sends};
ghost use Rattle.xw_commands.specs.Names.{field_name};
ghost use Rattle.xw_answers.specs.Fields.{field_line, title_and_author, copyright_and_notes, field_lines, clue_line, clue_told, clue_lines};

use crate::answer_line::{Token, write_line};
use xw_commands::command::TextField;
use xw_commands::names::{CLUE, Named};
use xw_grid::puzzle::Texts;
use xw_grid::{Clues, Grid, LightName, Lights};
use xw_lines::device::{Sink, WriteFailed};

/// Writes the name of a text and the text. Writes nothing if the text is empty.
fn write_field<W: Sink>(sink: &mut W, field: TextField, text: &[u8]) -> Result<(), WriteFailed>
    ensures { Sends W.transcript W.failures sink.old sink.new result (field_line (field_name field) text.now) }
{
    if text.is_empty() {
        return Ok(());
    }
    write_line(sink, &[Token::Name(field.name()), Token::Text(text)])
}

fn write_title_and_author<W: Sink>(sink: &mut W, texts: &Texts) -> Result<(), WriteFailed>
    ensures { Sends W.transcript W.failures sink.old sink.new result (title_and_author (texts_view texts.now)) }
{
    write_field(sink, TextField::Title, &texts.title)?;
    write_field(sink, TextField::Author, &texts.author)
}

fn write_copyright_and_notes<W: Sink>(sink: &mut W, texts: &Texts) -> Result<(), WriteFailed>
    ensures { Sends W.transcript W.failures sink.old sink.new result (copyright_and_notes (texts_view texts.now)) }
{
    write_field(sink, TextField::Copyright, &texts.copyright)?;
    write_field(sink, TextField::Notes, &texts.notes)
}

/// Writes the texts that are not empty.
pub fn write_fields<W: Sink>(sink: &mut W, texts: &Texts) -> Result<(), WriteFailed>
    ensures { Sends W.transcript W.failures sink.old sink.new result (field_lines (texts_view texts.now)) }
{
    write_title_and_author(sink, texts)?;
    write_copyright_and_notes(sink, texts)
}

/// Writes the clue of a light. Writes nothing if it is empty.
fn write_clue<W: Sink>(sink: &mut W, light: LightName, text: &[u8]) -> Result<(), WriteFailed>
    ensures { Sends W.transcript W.failures sink.old sink.new result (clue_line light text.now) }
{
    if text.is_empty() {
        return Ok(());
    }
    write_line(
        sink,
        &[
            Token::Name(CLUE),
            Token::Number(u64::from(light.number)),
            Token::Name(light.direction.name()),
            Token::Text(text),
        ],
    )
}

/// Writes the clue of the light at an index.
fn write_clue_at<W: Sink>(
    sink: &mut W,
    lights: &Lights,
    clues: &Clues,
    index: usize,
) -> Result<(), WriteFailed>
    requires { index < length lights.now }
    ensures { Sends W.transcript W.failures sink.old sink.new result (clue_told clues.now (slice_index_or lights.now index no_light)) }
{
    let light = lights.at(index);
    let text = clues.get(light.start, light.name.direction);
    write_clue(sink, light.name, text)
}

/// Writes the clues of the lights that have one, in light order.
pub fn write_clues<W: Sink>(
    sink: &mut W,
    grid: &Grid,
    lights: &Lights,
    clues: &Clues,
) -> Result<(), WriteFailed>
    requires { lights.now ≡ lights_of grid.now }
    ensures { Sends W.transcript W.failures sink.old sink.new result (clue_lines clues.now grid.now) }
{
    for index in 0..lights.len() {
        write_clue_at(sink, lights, clues, index)?;
    }
    Ok(())
}
