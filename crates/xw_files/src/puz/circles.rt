//! Writes the GEXT section, which holds the circles.
ghost use Rattle.std.specs.Prelude.{◌≡◌, ◌==◌, ◌<◌, ◌^◌, length, IfOk};
ghost use Rattle.std.specs.List.{list_any};
ghost use Rattle.xw_files.specs.Puz.Writing.{mark_of, marks_of, gext_bytes, circles_section};

use crate::finished::is_circled;
use crate::puz::sections::CIRCLED;
use crate::puz::spell::{push_number, push_text};
use crate::puz::sums::sum_from;
use std::alloc::{AllocError, Global};
use xw_grid::cell::Cell;
use xw_grid::circles::Circles;
use xw_grid::grid::Grid;

/// Returns the GEXT section, or no bytes if no open cell is circled.
pub fn circles_section(alloc: Global, grid: &Grid, circles: &Circles) -> Result<Vec<u8>, AllocError>
    ensures { IfOk result (λ bytes. bytes.items ≡ circles_section grid.now circles.now) }
{
    let marks = marks_of(alloc, grid, circles)?;
    if has_mark(&marks) {
        Ok(gext_of(alloc, &marks)?)
    } else {
        Ok(Vec::new(alloc))
    }
}

fn has_mark(marks: &[u8]) -> bool
    ensures { result ≡ list_any (λ mark. mark == 128) marks.now }
{
    marks.iter().any(|mark| *mark == CIRCLED)
}

/// Returns one byte for each cell, with the circle bit set if the cell is open and circled.
fn marks_of(alloc: Global, grid: &Grid, circles: &Circles) -> Result<Vec<u8>, AllocError>
    ensures marks { IfOk result (λ marks. marks.items ≡ marks_of grid.now circles.now) }
    ensures few { IfOk result (λ marks. length marks.items < 2 ^ 16) }
{
    let mut marks = Vec::new(alloc);
    for index in 0..grid.size() {
        marks.push(mark_of(grid, circles, grid.cell_at(index)))?;
    }
    Ok(marks)
}

fn mark_of(grid: &Grid, circles: &Circles, cell: Cell) -> u8
    ensures { result ≡ mark_of grid.now circles.now cell }
{
    if is_circled(grid, circles, cell) {
        CIRCLED
    } else {
        0
    }
}

/// Returns the bytes of a GEXT section with this data.
fn gext_of(alloc: Global, marks: &[u8]) -> Result<Vec<u8>, AllocError>
    requires { length marks.now < 2 ^ 16 }
    ensures { IfOk result (λ bytes. bytes.items ≡ gext_bytes marks.now) }
{
    let mut out = Vec::new(alloc);
    out.extend_from_slice(b"GEXT")?;
    push_number(&mut out, marks.len() as u16)?;
    push_number(&mut out, sum_from(0, marks))?;
    push_text(&mut out, marks)?;
    Ok(out)
}
