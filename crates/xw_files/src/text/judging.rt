//! Decides whether a puzzle can be written as text, without allocating.
ghost use Rattle.std.specs.Prelude.{◌≡◌, ◌≢◌, ◌<◌, ◌+◌, ◌^◌, ◌≤◌, not, ◌&&◌, length, OnOk, IfErr, IfSome, Ok, Err, find};
ghost use Rattle.std.specs.List.{list_any, list_all};
ghost use Rattle.std.specs.Option.{option_copied};
ghost use Rattle.xw_grid.specs.Grid.{cells};
ghost use Rattle.xw_grid.specs.Light.{begins as spec_begins, lights_at, lights_of};
ghost use Rattle.xw_grid.specs.Clue.{clue_at};
ghost use Rattle.xw_grid.specs.Puzzle.{puzzle_view};
ghost use Rattle.xw_files.specs.Part.{is_circled_open};
ghost use Rattle.xw_files.specs.Text.Written.{is_line_end, is_blank_at as spec_is_blank_at, is_spelled as spec_is_spelled, is_clue as spec_is_clue, are_notes as spec_are_notes, pieces, index_at as spec_index_at, bad_clue as spec_bad_clue, bad_field as spec_bad_field, texted, written};

use crate::fault::{TextName, WriteFault};
use crate::finished::{empty_cell, has_bar, is_circled};
use crate::text::lines::is_blank;
use crate::text::tag::is_tag_line;
use xw_grid::cell::{Cell, Direction};
use xw_grid::circles::Circles;
use xw_grid::clues::Clues;
use xw_grid::grid::Grid;
use xw_grid::lights::begins;
use xw_grid::puzzle::Puzzle;

fn has_line_end(text: &[u8]) -> bool
    ensures { result ≡ list_any is_line_end text.now }
{
    text.iter().any(|byte| matches!(byte, 0 | b'\n' | b'\r'))
}

fn is_blank_at(byte: Option<&u8>) -> bool
    ensures { result ≡ spec_is_blank_at (option_copied byte.entry) }
{
    match byte {
        Some(byte) => is_blank(*byte),
        None => false,
    }
}

/// Returns whether a text can be written on one line.
#[tactic(auto, unfolding(crate::specs::Text::Written::is_spelled))]
fn is_spelled(text: &[u8]) -> bool
    ensures { result ≡ spec_is_spelled text.now }
{
    !has_line_end(text)
        && !is_blank_at(text.first())
        && !is_blank_at(text.last())
        && !is_tag_line(text)
}

#[tactic(auto, unfolding(crate::specs::Text::Written::is_clue))]
fn is_clue(text: &[u8]) -> bool
    ensures { result ≡ spec_is_clue text.now }
{
    !text.is_empty() && is_spelled(text)
}

#[tactic(auto, unfolding(crate::specs::Text::Written::are_notes))]
fn are_notes(notes: &[u8]) -> bool
    ensures { result ≡ spec_are_notes notes.now }
{
    notes.is_empty() || are_clues(notes)
}

fn are_clues(notes: &[u8]) -> bool
    ensures { result ≡ list_all spec_is_clue (pieces notes.now) }
{
    notes
        .split(|byte| *byte == b'\n')
        .all(|piece| is_clue(piece))
}

/// Returns the first open circled cell in reading order.
fn circled(grid: &Grid, circles: &Circles) -> Option<Cell>
    ensures { result ≡ find (is_circled_open grid.now circles.now) (cells grid.now) }
{
    for index in 0..grid.size() {
        let cell = grid.cell_at(index);
        if is_circled(grid, circles, cell) {
            return Some(cell);
        }
    }
    None
}

/// Returns how many lights begin at a cell.
fn light_count(grid: &Grid, cell: Cell) -> usize
    ensures count { result ≡ length (lights_at grid.now cell) }
    ensures few { result ≤ 2 }
{
    usize::from(begins(grid, Direction::Across, cell))
        + usize::from(begins(grid, Direction::Down, cell))
}

/// Returns whether a light of this direction begins at a cell and its clue cannot be written.
fn has_bad_clue(grid: &Grid, clues: &Clues, direction: Direction, cell: Cell) -> bool
    ensures { result ≡ (spec_begins grid.now direction cell && not (spec_is_clue (clue_at clues.now cell direction))) }
{
    begins(grid, direction, cell) && !is_clue(clues.get(cell, direction))
}

/// Returns how many lights begin at a cell before the one of this direction.
fn index_at(grid: &Grid, direction: Direction, cell: Cell) -> usize
    ensures index { result ≡ spec_index_at grid.now direction cell }
    ensures few { result < 2 }
{
    match direction {
        Direction::Across => 0,
        Direction::Down => usize::from(begins(grid, Direction::Across, cell)),
    }
}

/// Returns the index, in light order, of the first light of a direction whose clue cannot be written.
fn bad_clue(grid: &Grid, clues: &Clues, direction: Direction) -> Option<usize>
    ensures index { result ≡ spec_bad_clue direction clues.now (lights_of grid.now) }
    ensures small { IfSome result (λ index. index + 1 < 2 ^ 64) }
{
    let mut before = 0;
    for index in 0..grid.size() {
        let cell = grid.cell_at(index);
        if has_bad_clue(grid, clues, direction, cell) {
            return Some(before + index_at(grid, direction, cell));
        }
        before += light_count(grid, cell);
    }
    None
}

/// Returns the first text that cannot be written.
#[tactic(auto, unfolding(crate::specs::Text::Written::bad_field))]
fn bad_field(puzzle: &Puzzle) -> Option<TextName>
    ensures { result ≡ spec_bad_field (puzzle_view puzzle.now) }
{
    let texts = &puzzle.texts;
    if !is_spelled(&texts.title) {
        return Some(TextName::Title);
    }
    if !is_spelled(&texts.author) {
        return Some(TextName::Author);
    }
    if !is_spelled(&texts.copyright) {
        return Some(TextName::Copyright);
    }
    if let Some(index) = bad_clue(&puzzle.grid, &puzzle.clues, Direction::Across) {
        return Some(TextName::Clue(index + 1));
    }
    if let Some(index) = bad_clue(&puzzle.grid, &puzzle.clues, Direction::Down) {
        return Some(TextName::Clue(index + 1));
    }
    if !are_notes(&texts.notes) {
        return Some(TextName::Notes);
    }
    None
}

/// Returns the first fault that applies, in the order `Barred`, `NotFilled`, `Field`, `Circled`.
#[tactic(auto, unfolding(crate::specs::Text::Written::written))]
pub(crate) fn judge(puzzle: &Puzzle) -> Result<(), WriteFault>
    ensures ok { OnOk result (written (puzzle_view puzzle.now) ≡ Ok (texted (puzzle_view puzzle.now))) }
    ensures refused { IfErr result (λ fault. written (puzzle_view puzzle.now) ≡ Err fault) }
    ensures other { IfErr result (λ fault. fault ≢ WriteFault.Memory) }
{
    let grid = &puzzle.grid;
    if has_bar(grid) {
        return Err(WriteFault::Barred);
    }
    if let Some(cell) = empty_cell(grid) {
        return Err(WriteFault::NotFilled(cell));
    }
    if let Some(field) = bad_field(puzzle) {
        return Err(WriteFault::Field(field));
    }
    if let Some(cell) = circled(grid, &puzzle.circles) {
        return Err(WriteFault::Circled(cell));
    }
    Ok(())
}
