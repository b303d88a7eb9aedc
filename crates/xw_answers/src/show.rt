//! Writes the grid for the command `show`.
ghost use Rattle.std.specs.Prelude.{◌≡◌, ◌+◌, ◌*◌, ◌<◌, ◌≤◌, ◌++◌, if◌then◌else◌, [], length};
ghost use Rattle.std.specs.List.{list_any};
ghost use Rattle.xw_lines.specs.Sends.{Sends, Gathers};
ghost use Rattle.xw_grid.specs.declared.cell.Side.TheVariants.{Below};
ghost use Rattle.xw_grid.specs.Grid.{is_barred as spec_is_barred};
ghost use Rattle.xw_answers.specs.Show.{cell_glyph as spec_cell_glyph, after_cell as spec_after_cell, cell_pair as spec_cell_pair, bar_pair as spec_bar_pair, cell_in as spec_cell_in, columns, row_line, bar_line, has_bar_below as spec_has_bar_below, row_lines, show_lines};

use crate::answer_line::AnswerLine;
use xw_grid::{Cell, Grid, Side};
use xw_lines::device::{Sink, WriteFailed};

fn cell_glyph(grid: &Grid, cell: Cell) -> u8
    ensures { result ≡ spec_cell_glyph grid.now cell }
{
    if grid.is_block(cell) {
        return b'#';
    }
    match grid.entry(cell) {
        Some(letter) => letter.byte(),
        None => b'-',
    }
}

fn after_cell(grid: &Grid, cell: Cell) -> u8
    ensures { result ≡ spec_after_cell grid.now cell }
{
    if cell.col == grid.width() {
        b'\n'
    } else if grid.is_barred(cell, Side::Right) {
        b'|'
    } else {
        b' '
    }
}

fn cell_pair(grid: &Grid, cell: Cell) -> [u8; 2]
    ensures { result ≡ spec_cell_pair grid.now cell }
{
    [cell_glyph(grid, cell), after_cell(grid, cell)]
}

fn bar_pair(grid: &Grid, cell: Cell) -> [u8; 2]
    ensures { result ≡ spec_bar_pair grid.now cell }
{
    let bar = if grid.is_barred(cell, Side::Below) {
        b'='
    } else {
        b'.'
    };
    let after = if cell.col == grid.width() {
        b'\n'
    } else {
        b'.'
    };
    [bar, after]
}

/// Returns the cell of a row after `before` other cells.
fn cell_in(row: u32, before: u32) -> Cell
    requires { before < 255 }
    ensures { result ≡ spec_cell_in row before }
{
    Cell {
        row,
        col: before + 1,
    }
}

/// Returns whether a bar lies below a cell of the row.
fn has_bar_below(grid: &Grid, row: u32) -> bool
    ensures { result ≡ spec_has_bar_below grid.now row }
{
    for before in 0..grid.width() {
        if grid.is_barred(cell_in(row, before), Side::Below) {
            return true;
        }
    }
    false
}

/// Appends the line of a row's cells, which must fit.
fn push_cells(line: &mut AnswerLine, grid: &Grid, row: u32)
    requires { length line.old + 2 * grid.now.width ≤ 512 }
    ensures { line.new ≡ line.old ++ row_line grid.now row }
{
    for before in 0..grid.width() {
        line.push_bytes(&cell_pair(grid, cell_in(row, before)));
    }
}

/// Appends the line of the bars below a row, which must fit.
fn push_bars(line: &mut AnswerLine, grid: &Grid, row: u32)
    requires { length line.old + 2 * grid.now.width ≤ 512 }
    ensures { line.new ≡ line.old ++ bar_line grid.now row }
{
    for before in 0..grid.width() {
        line.push_bytes(&bar_pair(grid, cell_in(row, before)));
    }
}

/// Appends the line of a row's cells.
fn put_cells<W: Sink>(
    line: &mut AnswerLine,
    grid: &Grid,
    row: u32,
    sink: &mut W,
) -> Result<(), WriteFailed>
    ensures { Gathers W.transcript W.failures sink.old sink.new line.old line.new result (row_line grid.now row) }
{
    line.make_room(2 * grid.width() as usize, sink)?;
    push_cells(line, grid, row);
    Ok(())
}

/// Appends the line of the bars below a row.
fn put_bars<W: Sink>(
    line: &mut AnswerLine,
    grid: &Grid,
    row: u32,
    sink: &mut W,
) -> Result<(), WriteFailed>
    ensures { Gathers W.transcript W.failures sink.old sink.new line.old line.new result (bar_line grid.now row) }
{
    line.make_room(2 * grid.width() as usize, sink)?;
    push_bars(line, grid, row);
    Ok(())
}

/// Appends the line of a row, and a line of bars if the row has a bar below it.
fn put_row_lines<W: Sink>(
    line: &mut AnswerLine,
    grid: &Grid,
    row: u32,
    sink: &mut W,
) -> Result<(), WriteFailed>
    ensures { Gathers W.transcript W.failures sink.old sink.new line.old line.new result (row_lines grid.now row) }
{
    put_cells(line, grid, row, sink)?;
    if has_bar_below(grid, row) {
        put_bars(line, grid, row, sink)
    } else {
        Ok(())
    }
}

/// Writes the grid row by row.
pub fn write_grid<W: Sink>(sink: &mut W, grid: &Grid) -> Result<(), WriteFailed>
    ensures { Sends W.transcript W.failures sink.old sink.new result (show_lines grid.now) }
{
    let mut lines = AnswerLine::new();
    for above in 0..grid.height() {
        put_row_lines(&mut lines, grid, above + 1, sink)?;
    }
    lines.send(sink)
}
