//! Writes text files.
ghost use Rattle.std.specs.Prelude.{◌≡◌, ◌++◌, ◌<◌, ◌*◌, length, OnOk, IfOk, IfSome, IsOk, Err, position, map, flat_map, decimal};
ghost use Rattle.xw_grid.specs.Puzzle.{puzzle_view, texts_view};
ghost use Rattle.xw_files.specs.Finished.{square_byte};
ghost use Rattle.xw_text.specs.Lines.{is_line_feed};
ghost use Rattle.xw_files.specs.Text.Written.{pieces, line, tag_line, tag, texts_text, size_text, row_texts, grid_text, clue_texts, direction_text, clues_text, notes_text, texted, written, Writes};
ghost use Rattle.xw_files.specs.Text.Relation.{IsText};

use crate::fault::{Tag, WriteFault};
use crate::finished::square_byte;
use crate::text::judging::judge;
use crate::text::tag::header;
use std::alloc::{AllocError, Global};
use xw_grid::cell::{Direction, Square};
use xw_grid::clues::Clues;
use xw_grid::grid::Grid;
use xw_grid::lights::begins;
use xw_grid::puzzle::{Puzzle, Texts};

fn put_line(out: &mut Vec<u8>, text: &[u8]) -> Result<(), AllocError>
    ensures { OnOk result (out.new.items ≡ out.old.items ++ line text.now) }
{
    out.push(b'\t')?;
    out.extend_from_slice(text)?;
    out.push(b'\n')?;
    Ok(())
}

fn put_name(out: &mut Vec<u8>, name: &[u8]) -> Result<(), AllocError>
    ensures { OnOk result (out.new.items ≡ out.old.items ++ tag_line name.now) }
{
    out.extend_from_slice(name)?;
    out.push(b'\n')?;
    Ok(())
}

fn put_tag(out: &mut Vec<u8>, which: Tag) -> Result<(), AllocError>
    ensures { OnOk result (out.new.items ≡ out.old.items ++ tag which) }
{
    put_name(out, which.name())
}

fn put_texts(out: &mut Vec<u8>, texts: &Texts) -> Result<(), AllocError>
    ensures { OnOk result (out.new.items ≡ out.old.items ++ texts_text (texts_view texts.now)) }
{
    put_tag(out, Tag::Title)?;
    put_line(out, &texts.title)?;
    put_tag(out, Tag::Author)?;
    put_line(out, &texts.author)?;
    put_tag(out, Tag::Copyright)?;
    put_line(out, &texts.copyright)?;
    Ok(())
}

fn put_number(alloc: Global, out: &mut Vec<u8>, number: u32) -> Result<(), AllocError>
    ensures { OnOk result (out.new.items ≡ out.old.items ++ decimal number) }
{
    let digits = number.to_string(alloc)?;
    out.extend_from_slice(digits.as_bytes())?;
    Ok(())
}

fn put_size(alloc: Global, out: &mut Vec<u8>, grid: &Grid) -> Result<(), AllocError>
    ensures { OnOk result (out.new.items ≡ out.old.items ++ line (size_text grid.now)) }
{
    out.push(b'\t')?;
    put_number(alloc, out, grid.width())?;
    out.push(b'x')?;
    put_number(alloc, out, grid.height())?;
    out.push(b'\n')?;
    Ok(())
}

fn put_row(out: &mut Vec<u8>, row: &[Square]) -> Result<(), AllocError>
    ensures { OnOk result (out.new.items ≡ out.old.items ++ line (map square_byte row.now)) }
{
    out.push(b'\t')?;
    put_squares(out, row)?;
    out.push(b'\n')?;
    Ok(())
}

fn put_squares(out: &mut Vec<u8>, row: &[Square]) -> Result<(), AllocError>
    ensures { OnOk result (out.new.items ≡ out.old.items ++ map square_byte row.now) }
{
    for square in row {
        out.push(square_byte(*square))?;
    }
    Ok(())
}

fn put_rows(
    out: &mut Vec<u8>,
    width: usize,
    height: u32,
    squares: &[Square],
) -> Result<(), AllocError>
    requires { length squares.now ≡ width * height }
    ensures { OnOk result (out.new.items ≡ out.old.items ++ flat_map line (row_texts width height squares.now)) }
{
    let mut rest = squares;
    for _ in 0..height {
        let (row, after) = rest.split_at(width);
        put_row(out, row)?;
        rest = after;
    }
    Ok(())
}

fn put_grid(alloc: Global, out: &mut Vec<u8>, grid: &Grid) -> Result<(), AllocError>
    ensures { OnOk result (out.new.items ≡ out.old.items ++ grid_text grid.now) }
{
    put_tag(out, Tag::Size)?;
    put_size(alloc, out, grid)?;
    put_tag(out, Tag::Grid)?;
    put_rows(out, grid.width() as usize, grid.height(), grid.squares())?;
    Ok(())
}

fn put_clues(
    out: &mut Vec<u8>,
    clues: &Clues,
    grid: &Grid,
    direction: Direction,
) -> Result<(), AllocError>
    ensures { OnOk result (out.new.items ≡ out.old.items ++ flat_map line (clue_texts direction clues.now grid.now)) }
{
    for index in 0..grid.size() {
        let cell = grid.cell_at(index);
        if begins(grid, direction, cell) {
            put_line(out, clues.get(cell, direction))?;
        }
    }
    Ok(())
}

/// Writes the clues of a direction under their tag.
#[tactic(auto, unfolding(crate::specs::Text::Written::direction_text))]
fn put_direction(
    out: &mut Vec<u8>,
    puzzle: &Puzzle,
    which: Tag,
    direction: Direction,
) -> Result<(), AllocError>
    ensures { OnOk result (out.new.items ≡ out.old.items ++ direction_text which direction puzzle.now.clues puzzle.now.grid) }
{
    put_tag(out, which)?;
    put_clues(out, &puzzle.clues, &puzzle.grid, direction)
}

fn put_all_clues(out: &mut Vec<u8>, puzzle: &Puzzle) -> Result<(), AllocError>
    ensures { OnOk result (out.new.items ≡ out.old.items ++ clues_text puzzle.now.clues puzzle.now.grid) }
{
    put_direction(out, puzzle, Tag::Across, Direction::Across)?;
    put_direction(out, puzzle, Tag::Down, Direction::Down)
}

fn line_feed(bytes: &[u8]) -> Option<usize>
    ensures index { result ≡ position is_line_feed bytes.now }
    ensures within { IfSome result (λ index. index < length bytes.now) }
{
    bytes.iter().position(|byte| *byte == b'\n')
}

fn put_pieces(out: &mut Vec<u8>, notes: &[u8]) -> Result<(), AllocError>
    ensures { OnOk result (out.new.items ≡ out.old.items ++ flat_map line (pieces notes.now)) }
{
    let mut rest = notes;
    while let Some(end) = line_feed(rest) {
        put_line(out, &rest[..end])?;
        rest = &rest[end + 1..];
    }
    put_line(out, rest)
}

#[tactic(auto, unfolding(crate::specs::Text::Written::notes_text))]
fn put_notes(out: &mut Vec<u8>, notes: &[u8]) -> Result<(), AllocError>
    ensures { OnOk result (out.new.items ≡ out.old.items ++ notes_text notes.now) }
{
    if notes.is_empty() {
        return Ok(());
    }
    put_tag(out, Tag::Notepad)?;
    put_pieces(out, notes)?;
    Ok(())
}

#[tactic(auto, unfolding(crate::specs::Text::Written::texted))]
fn text_of(alloc: Global, puzzle: &Puzzle) -> Result<Vec<u8>, AllocError>
    ensures { IfOk result (λ text. text.items ≡ texted (puzzle_view puzzle.now)) }
{
    let mut out = Vec::new(alloc);
    put_name(&mut out, header())?;
    put_texts(&mut out, &puzzle.texts)?;
    put_grid(alloc, &mut out, &puzzle.grid)?;
    put_all_clues(&mut out, puzzle)?;
    put_notes(&mut out, &puzzle.texts.notes)?;
    Ok(out)
}

/// Writes a puzzle as a text file. Returns the first fault that applies, in the order `Barred`, `NotFilled`, `Field`,
/// `Circled`. Returns `Memory` if an allocation fails.
pub fn write_text(alloc: Global, puzzle: &Puzzle) -> Result<Vec<u8>, WriteFault>
    // The result is a text file of the puzzle.
    ensures again { IfOk result (λ text. IsText text.items (puzzle_view puzzle.now)) }
    // The exact text or fault.
    ensures exact { Writes (λ text. text.items) result (written (puzzle_view puzzle.now)) }
    // `Memory` is returned only if no other fault applies.
    ensures memory { result ≡ Err WriteFault.Memory → IsOk (written (puzzle_view puzzle.now)) }
{
    puzzle.grid.well_formed();
    judge(puzzle)?;
    Ok(text_of(alloc, puzzle)?)
}
