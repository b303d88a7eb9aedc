//! Decides whether a puzzle can be written as `.puz`, without allocating.
ghost use Rattle.std.specs.Prelude.{◌≡◌, ◌+◌, ◌≤◌, map, IfOk, IfErr};
ghost use Rattle.xw_grid.specs.Grid.{IsGrid};
ghost use Rattle.xw_grid.specs.Light.{light_from, lights_at, lights_of};
ghost use Rattle.xw_grid.specs.Puzzle.{puzzle_view, clue_of};
ghost use Rattle.xw_files.specs.Puz.Writing.{has_nul, clue_with_nul, text_with_nul, write_fault, PassesClues, StopsAtClue};

use crate::fault::{TextName, WriteFault};
use crate::finished::{empty_cell, has_bar};
use xw_grid::cell::{Cell, Direction};
use xw_grid::clues::Clues;
use xw_grid::grid::Grid;
use xw_grid::lights;
use xw_grid::puzzle::Puzzle;

/// Returns the first fault that applies, in the order `Barred`, `NotFilled`, `Field`.
pub fn fault_of(puzzle: &Puzzle) -> Option<WriteFault>
    ensures fault { result ≡ write_fault (puzzle_view puzzle.now) }
    ensures grid { IsGrid puzzle.now.grid }
{
    let grid = &puzzle.grid;
    grid.well_formed();
    if has_bar(grid) {
        return Some(WriteFault::Barred);
    }
    if let Some(cell) = empty_cell(grid) {
        return Some(WriteFault::NotFilled(cell));
    }
    Some(WriteFault::Field(text_with_nul(puzzle)?))
}

/// Returns the first text with a NUL, in file order.
fn text_with_nul(puzzle: &Puzzle) -> Option<TextName>
    ensures { result ≡ text_with_nul (puzzle_view puzzle.now) }
{
    let texts = &puzzle.texts;
    if has_nul(&texts.title) {
        return Some(TextName::Title);
    }
    if has_nul(&texts.author) {
        return Some(TextName::Author);
    }
    if has_nul(&texts.copyright) {
        return Some(TextName::Copyright);
    }
    if let Some(text) = clue_with_nul(&puzzle.grid, &puzzle.clues) {
        return Some(text);
    }
    has_nul(&texts.notes).then_some(TextName::Notes)
}

fn has_nul(text: &[u8]) -> bool
    ensures { result ≡ has_nul text.now }
{
    text.iter().any(|byte| *byte == 0)
}

/// Returns the first clue with a NUL, in light order.
fn clue_with_nul(grid: &Grid, clues: &Clues) -> Option<TextName>
    ensures { result ≡ clue_with_nul 1 (map (clue_of clues.now) (lights_of grid.now)) }
{
    let mut number = 1;
    for index in 0..grid.size() {
        match pass_cell(grid, clues, grid.cell_at(index), number) {
            Ok(next) => number = next,
            Err(text) => return Some(text),
        }
    }
    None
}

/// Returns the clue number after the lights that begin at a cell, or the first of their clues with a NUL.
fn pass_cell(grid: &Grid, clues: &Clues, cell: Cell, number: usize) -> Result<usize, TextName>
    requires { number ≤ 131072 }
    ensures passed { IfOk result (λ next. PassesClues clues.now (lights_at grid.now cell) number next) }
    ensures stopped { IfErr result (λ text. StopsAtClue clues.now (lights_at grid.now cell) number text) }
    ensures small { IfOk result (λ next. next ≤ number + 2) }
{
    let number = pass_light(grid, clues, Direction::Across, cell, number)?;
    pass_light(grid, clues, Direction::Down, cell, number)
}

/// Returns the clue number after the light of a direction that begins at a cell, if any, or its clue if that has a
/// NUL.
fn pass_light(
    grid: &Grid,
    clues: &Clues,
    direction: Direction,
    cell: Cell,
    number: usize,
) -> Result<usize, TextName>
    requires { number ≤ 131073 }
    ensures passed { IfOk result (λ next. PassesClues clues.now (light_from grid.now cell direction) number next) }
    ensures stopped { IfErr result (λ text. StopsAtClue clues.now (light_from grid.now cell direction) number text) }
    ensures small { IfOk result (λ next. next ≤ number + 1) }
{
    if !lights::begins(grid, direction, cell) {
        return Ok(number);
    }
    if has_nul(clues.get(cell, direction)) {
        return Err(TextName::Clue(number));
    }
    Ok(number + 1)
}
