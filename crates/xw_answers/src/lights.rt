//! The lines of lights.
ghost use Rattle.std.specs.Prelude.{◌≡◌, ◌+◌, ◌<◌, ◌≤◌, ◌++◌, ◌∷◌, [], decimal, codes, length, slice_index_or};
ghost use Rattle.xw_grid.specs.Light.{lights_of, no_light};
ghost use Rattle.xw_lines.specs.Sends.{Gathers};
ghost use Rattle.xw_commands.specs.Names.{direction_name};
ghost use Rattle.xw_answers.specs.Text.{letters_at, light_line, light_words};

use crate::answer_line::AnswerLine;
use crate::text::letter_or_dot;
use xw_commands::names::Named;
use xw_feas::board::{Board, Cells};
use xw_grid::{Direction, Grid, Light, Lights};
use xw_lines::device::{Sink, WriteFailed};

/// The most bytes of a light's line beside its letters.
const BESIDE_LETTERS: usize = 26;

/// Appends a number and a space, which must fit.
fn push_number(line: &mut AnswerLine, number: u16)
    requires { length line.old + 6 ≤ 512 }
    ensures number { line.new ≡ line.old ++ (decimal number ++ codes " ") }
    ensures short { length line.new ≤ length line.old + 6 }
{
    line.push_number(number);
    line.push_byte(b' ');
}

/// Appends the word of a direction and a space, which must fit.
fn push_direction(line: &mut AnswerLine, direction: Direction)
    requires { length line.old + 7 ≤ 512 }
    ensures name { line.new ≡ line.old ++ (direction_name direction ++ codes " ") }
    ensures short { length line.new ≤ length line.old + 7 }
{
    line.push_bytes(direction.name().as_bytes());
    line.push_byte(b' ');
}

/// Appends the letters of cells, with a dot for each empty one. They must fit.
fn push_letters(line: &mut AnswerLine, board: &Board<'_>, cells: &Cells)
    requires { length line.old + length cells.now ≤ 512 }
    ensures letters { line.new ≡ line.old ++ letters_at board.now cells.now }
    ensures long { length line.new ≡ length line.old + length cells.now }
{
    for k in 0..cells.len() {
        line.push_byte(letter_or_dot(board.entry(cells.at(k))));
    }
}

/// Appends a light's name, its start cell and the letters of its cells, which must fit.
fn push_light(line: &mut AnswerLine, light: &Light, board: &Board<'_>, cells: &Cells)
    requires inside { (light.now.start.row ≤ 255) × (light.now.start.col ≤ 255) }
    requires room { length line.old + (26 + length cells.now) ≤ 512 }
    ensures { line.new ≡ line.old ++ light_words light.now (letters_at board.now cells.now) }
{
    push_number(line, light.name.number);
    push_direction(line, light.name.direction);
    push_number(line, light.start.row as u16);
    push_number(line, light.start.col as u16);
    push_letters(line, board, cells);
    line.push_byte(b'\n');
}

/// Appends the line of the light at an index: its name, its start cell and its letters.
pub fn put_light<W: Sink>(
    line: &mut AnswerLine,
    grid: &Grid,
    lights: &Lights,
    index: usize,
    sink: &mut W,
) -> Result<(), WriteFailed>
    requires lights { lights.now ≡ lights_of grid.now }
    requires index { index < length lights.now }
    ensures { Gathers W.transcript W.failures sink.old sink.new line.old line.new result (light_line grid.now (slice_index_or lights.now index no_light)) }
{
    grid.well_formed();
    let board = Board::new(grid, lights);
    let cells = board.light(index);
    line.make_room(BESIDE_LETTERS + cells.len(), sink)?;
    push_light(line, &lights.at(index), &board, &cells);
    Ok(())
}
