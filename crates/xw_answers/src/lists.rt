//! Writes answers that are lists, one line per item.
ghost use Rattle.std.specs.Prelude.{◌≡◌, flat_map, take};
ghost use Rattle.xw_grid.specs.Light.{lights_of};
ghost use Rattle.xw_feas.specs.Changed.{changes_left};
ghost use Rattle.xw_feas.specs.Changes.{spelled_out};
ghost use Rattle.xw_feas.specs.Spelled.{spelling};
ghost use Rattle.xw_lines.specs.Sends.{Sends, Gathers};
ghost use Rattle.xw_answers.specs.Text.{word_line, light_lines, circle_line, circle_lines, change_line, spelled_line};

use crate::answer_line::{AnswerLine, Token};
use crate::lights::put_light;
use crate::text;
use xw_feas::changed::Changed;
use xw_feas::feasible::Feasible;
use xw_feas::word_iter::{Spelled, WordIter};
use xw_grid::{Cell, Circles, Grid, LightName, Lights};
use xw_lines::device::{Sink, WriteFailed};
use xw_words::Matching;

/// Writes each word on a line.
pub fn write_words<W: Sink>(sink: &mut W, words: Matching<'_>) -> Result<(), WriteFailed>
    ensures { Sends W.transcript W.failures sink.old sink.new result (flat_map word_line words.entry) }
{
    let mut lines = AnswerLine::new();
    for word in words {
        lines.put_word(word, sink)?;
    }
    lines.send(sink)
}

/// Writes each light on a line.
pub fn write_lights<W: Sink>(sink: &mut W, grid: &Grid, lights: &Lights) -> Result<(), WriteFailed>
    requires { lights.now ≡ lights_of grid.now }
    ensures { Sends W.transcript W.failures sink.old sink.new result (light_lines grid.now) }
{
    let mut lines = AnswerLine::new();
    for index in 0..lights.len() {
        put_light(&mut lines, grid, lights, index, sink)?;
    }
    lines.send(sink)
}

/// Writes the line of a cell if the cell is open and circled.
fn write_circle<W: Sink>(
    sink: &mut W,
    grid: &Grid,
    circles: &Circles,
    cell: Cell,
) -> Result<(), WriteFailed>
    ensures { Sends W.transcript W.failures sink.old sink.new result (circle_line grid.now circles.now cell) }
{
    if grid.is_open(cell) && circles.has(cell) {
        text::write_cell(sink, cell)
    } else {
        Ok(())
    }
}

/// Writes each open circled cell on a line, in reading order.
pub fn write_circles<W: Sink>(
    sink: &mut W,
    grid: &Grid,
    circles: &Circles,
) -> Result<(), WriteFailed>
    ensures { Sends W.transcript W.failures sink.old sink.new result (circle_lines grid.now circles.now) }
{
    for index in 0..grid.size() {
        write_circle(sink, grid, circles, grid.cell_at(index))?;
    }
    Ok(())
}

/// Writes each changed cell with its feasible letters on a line.
pub fn write_changes<W: Sink>(sink: &mut W, changed: Changed<'_>) -> Result<(), WriteFailed>
    ensures { Sends W.transcript W.failures sink.old sink.new result (flat_map change_line (spelled_out (changes_left changed.entry))) }
{
    let mut lines = AnswerLine::new();
    for change in changed {
        let (cell, letters) = change;
        text::put_change(&mut lines, cell, letters, sink)?;
    }
    lines.send(sink)
}

/// Appends a feasible word and an LF.
fn put_word<W: Sink>(
    lines: &mut AnswerLine,
    word: &Spelled<'_>,
    sink: &mut W,
) -> Result<(), WriteFailed>
    ensures { Gathers W.transcript W.failures sink.old sink.new lines.old lines.new result (word_line (spelling word.now)) }
{
    match word {
        Spelled::Listed(letters) => lines.put_word(letters, sink),
        Spelled::Entered(entries) => lines.put_line(&[Token::Entries(entries)], sink),
    }
}

/// Writes each feasible word on a line.
pub fn write_feasible<E: Feasible, W: Sink>(
    sink: &mut W,
    words: WordIter<'_, E>,
) -> Result<(), WriteFailed>
    ensures { Sends W.transcript W.failures sink.old sink.new result (flat_map word_line words.entry) }
{
    let mut lines = AnswerLine::new();
    for word in words {
        put_word(&mut lines, &word, sink)?;
    }
    lines.send(sink)
}

/// Writes at most `most` feasible words, each on a line.
pub fn write_first_feasible<E: Feasible, W: Sink>(
    sink: &mut W,
    words: WordIter<'_, E>,
    most: u64,
) -> Result<(), WriteFailed>
    ensures { Sends W.transcript W.failures sink.old sink.new result (flat_map word_line (take most words.entry)) }
{
    let mut lines = AnswerLine::new();
    let mut left = most;
    for word in words {
        if left == 0 {
            break;
        }
        left -= 1;
        put_word(&mut lines, &word, sink)?;
    }
    lines.send(sink)
}

/// Writes each light with its word on a line.
pub fn write_unlisted<W: Sink>(
    sink: &mut W,
    grid: &Grid,
    lights: &Lights,
    found: &[LightName],
) -> Result<(), WriteFailed>
    requires { lights.now ≡ lights_of grid.now }
    ensures { Sends W.transcript W.failures sink.old sink.new result (flat_map (spelled_line grid.now) found.now) }
{
    for name in found {
        text::write_light_word(sink, grid, lights, *name)?;
    }
    Ok(())
}
