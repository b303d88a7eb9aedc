//! Finds the line of a text file at which a read fault is reported.
ghost use Rattle.std.specs.Prelude.{◌≡◌, ◌+◌, length, map, take, count_by, option_map, IfOk};
ghost use Rattle.xw_text.specs.Lines.{is_line_feed};
ghost use Rattle.xw_files.specs.Steps.{GivesOrLacksMemory};
ghost use Rattle.xw_files.specs.Text.Lines.{file_lines};
ghost use Rattle.xw_files.specs.Text.Starts.{starts};
ghost use Rattle.xw_files.specs.Text.Location.{after, left_after, under, tag_above, grid_of_text, lines_due, location_before, location_under, text_location};

use crate::fault::{ReadFault, Tag};
use crate::text::lines::{TextLines, trim, without_mark};
use crate::text::reading::{grid, header, texts};
use crate::text::tag::{header as header_line, is_tag_line, names};
use bstr::ByteSlice;
use std::alloc::{AllocError, Global};
use xw_grid::cell::Direction;
use xw_grid::grid::Grid;
use xw_grid::lights::begins;

/// A location in a text file: a line by its number (from 1, counting blank lines), or the end of the file.
#[derive(Clone, Copy, Debug, PartialEq, Eq)]
pub enum TextLocation {
    Line(usize),
    End,
}

/// Returns all lines, trimmed, including the blank ones.
fn file_lines(alloc: Global, bytes: &[u8]) -> Result<Vec<&[u8]>, AllocError>
    ensures { IfOk result (λ lines. map (λ line. line.now) lines.items ≡ file_lines bytes.now) }
{
    let mut lines = Vec::new(alloc);
    for line in without_mark(bytes).lines() {
        lines.push(trim(line))?;
    }
    Ok(lines)
}

/// Returns the lines after the first line with this name. Returns no lines if there is none.
fn after<'a, 'b>(lines: &'a [&'b [u8]], name: &[u8]) -> &'a [&'b [u8]]
    ensures { map (λ line. line.now) result.now ≡ after name.now (map (λ line. line.now) lines.now) }
{
    let mut rest = lines;
    while let [line, others @ ..] = rest {
        rest = others;
        if names(line, name) {
            return rest;
        }
    }
    rest
}

/// Skips blank lines and the first `due` other lines, but stops at a tag line. Returns the lines that remain.
fn left_after<'a, 'b>(lines: &'a [&'b [u8]], due: usize) -> &'a [&'b [u8]]
    ensures { map (λ line. line.now) result.now ≡ left_after due (map (λ line. line.now) lines.now) }
{
    let mut rest = lines;
    let mut due = due;
    while let [line, others @ ..] = rest {
        if !line.is_empty() {
            if due == 0 || is_tag_line(line) {
                return rest;
            }
            due -= 1;
        }
        rest = others;
    }
    rest
}

/// Returns the tag line that precedes the location of a fault.
fn tag_above(fault: ReadFault) -> Option<&'static [u8]>
    ensures { option_map (λ name. name.now) result ≡ tag_above fault }
{
    match fault {
        ReadFault::Tag(Tag::Title) => Some(header_line()),
        ReadFault::Tag(Tag::Author) => Some(Tag::Title.name()),
        ReadFault::Tag(Tag::Copyright) => Some(Tag::Author.name()),
        ReadFault::Tag(Tag::Size) => Some(Tag::Copyright.name()),
        ReadFault::SizeLine | ReadFault::Tag(Tag::Grid) => Some(Tag::Size.name()),
        ReadFault::GridLine(_) | ReadFault::Tag(Tag::Across) => Some(Tag::Grid.name()),
        ReadFault::AcrossCount | ReadFault::Tag(Tag::Down) => Some(Tag::Across.name()),
        ReadFault::DownCount | ReadFault::Tag(Tag::Notepad) => Some(Tag::Down.name()),
        _ => None,
    }
}

/// Returns the number of lights of a direction.
fn light_count(grid: &Grid, direction: Direction) -> usize
    ensures { result ≡ length (starts grid.now direction) }
{
    let mut count = 0;
    for index in 0..grid.size() {
        if begins(grid, direction, grid.cell_at(index)) {
            count += 1;
        }
    }
    count
}

/// Returns the grid of a text file. What follows the grid does not matter.
#[tactic(auto, unfolding(crate::specs::Text::Location::grid_of_text))]
fn grid_of_text(alloc: Global, bytes: &[u8]) -> Result<Grid, ReadFault>
    ensures { GivesOrLacksMemory (λ grid. grid) result (grid_of_text bytes.now) }
{
    let mut lines = TextLines::new(bytes);
    header(&mut lines)?;
    texts(alloc, &mut lines)?;
    grid(alloc, &mut lines)
}

/// Returns how many lines the format has between the tag line of `tag_above` and a fault.
fn lines_due(alloc: Global, bytes: &[u8], fault: ReadFault) -> Result<usize, ReadFault>
    ensures { GivesOrLacksMemory (λ due. due) result (lines_due bytes.now fault) }
{
    match fault {
        ReadFault::Tag(Tag::Author | Tag::Copyright | Tag::Size | Tag::Grid) => Ok(1),
        ReadFault::GridLine(row) => Ok((row as usize).saturating_sub(1)),
        ReadFault::Tag(Tag::Across) => Ok(grid_of_text(alloc, bytes)?.height() as usize),
        ReadFault::AcrossCount | ReadFault::Tag(Tag::Down) => {
            Ok(light_count(&grid_of_text(alloc, bytes)?, Direction::Across))
        }
        ReadFault::DownCount | ReadFault::Tag(Tag::Notepad) => {
            Ok(light_count(&grid_of_text(alloc, bytes)?, Direction::Down))
        }
        _ => Ok(0),
    }
}

/// Returns the line number at which the last `left` of `count` lines begin.
fn location_before(count: usize, left: usize) -> TextLocation
    ensures { result ≡ location_before count left }
{
    if left == 0 {
        TextLocation::End
    } else {
        TextLocation::Line(count.saturating_sub(left) + 1)
    }
}

/// Returns how many lines are left after the first `due` lines under a tag line, or from the start of the file if
/// there is no tag.
fn count_left(lines: &[&[u8]], tag: Option<&[u8]>, due: usize) -> usize
    ensures { result ≡ length (left_after due (under (option_map (λ name. name.now) tag.entry) (map (λ line. line.now) lines.now))) }
{
    match tag {
        Some(name) => left_after(after(lines, name), due).len(),
        None => left_after(lines, due).len(),
    }
}

/// Returns the location after the first `due` lines under a tag line, or from the start of the file if there is no
/// tag.
fn location_under(
    alloc: Global,
    bytes: &[u8],
    tag: Option<&[u8]>,
    due: usize,
) -> Result<TextLocation, AllocError>
    ensures { IfOk result (λ location. location ≡ location_under (option_map (λ name. name.now) tag.entry) due (file_lines bytes.now)) }
{
    let lines = file_lines(alloc, bytes)?;
    let left = count_left(&lines, tag, due);
    Ok(location_before(lines.len(), left))
}

/// Returns the number of the line that contains an offset.
fn line_at(bytes: &[u8], offset: usize) -> usize
    ensures { result ≡ count_by is_line_feed (take offset bytes.now) + 1 }
{
    let before = &bytes[..offset.min(bytes.len())];
    before.iter().filter(|byte| **byte == b'\n').count() + 1
}

/// Returns the location at which `read_text` reports `fault`. Returns `None` if the fault has no location of its own.
/// Returns a read fault if the grid is needed and cannot be read, and `Memory` if an allocation fails.
pub fn text_location(
    alloc: Global,
    bytes: &[u8],
    fault: ReadFault,
) -> Result<Option<TextLocation>, ReadFault>
    ensures { GivesOrLacksMemory (λ location. location) result (text_location bytes.now fault) }
{
    if let ReadFault::NulByte(offset) = fault {
        return Ok(Some(TextLocation::Line(line_at(bytes, offset))));
    }
    let tag = tag_above(fault);
    if tag.is_none() && fault != ReadFault::Header {
        return Ok(None);
    }
    let due = lines_due(alloc, bytes, fault)?;
    Ok(Some(location_under(alloc, bytes, tag, due)?))
}
