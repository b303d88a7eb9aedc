//! Reads text files.
ghost use Rattle.std.specs.Prelude.{◌≡◌, ◌≢◌, true, ◌<◌, ◌≤◌, length, IfSome, IfOk, IfErr, position, Ok};
ghost use Rattle.std.specs.Option.{option_copied};
ghost use Rattle.std.specs.List.{list_all};
ghost use Rattle.std.specs.Char.{is_ascii_digit};
ghost use Rattle.std.specs.Str.Parse.{digits_value};
ghost use Rattle.std.specs.List.{join_with_byte};
ghost use Rattle.xw_files.specs.declared.fault.ReadFault.TheVariants.{Memory};
ghost use Rattle.xw_files.specs.Text.Faults.{IsFirstFault, HasNoFault, HasOneFirstFault};
ghost use Rattle.xw_files.specs.Text.Relation.{IsText, IsBare, HasOnePart};
ghost use Rattle.xw_grid.specs.Puzzle.{PuzzleShown, puzzle_view, texts_view};
ghost use Rattle.xw_files.specs.Part.{part_of};
ghost use Rattle.xw_files.specs.Text.Starts.{starts};
ghost use Rattle.xw_files.specs.Steps.{GivesOrLacksMemory};
ghost use Rattle.xw_files.specs.Text.Shape.{header_at, tag_at, plain_at, text_at, texts_at, is_numeral as spec_is_numeral, side_of, is_times, sides_of, size_at, with_front, AreSides, row_squares, squares_after, row_at, rows_at, grid_at, clue_at_start, clues_at, both_clues_at, notes_at, shape, is_nul, all_of};

use crate::fault::{ReadFault, Tag};
use crate::text::lines::{TextLines, trim};
use crate::text::tag::{header as header_line, is_tag_line, names};
use std::alloc::{AllocError, Global};
use xw_grid::cell::{Cell, Direction, Square};
use xw_grid::circles::Circles;
use xw_grid::clues::Clues;
use xw_grid::grid::{Grid, LONGEST_SIDE};
use xw_grid::lights::begins;
use xw_grid::puzzle::{Puzzle, Texts};
use xw_letters::letter::Letter;

#[tactic(auto, unfolding(crate::specs::Text::Shape::header_at))]
pub(super) fn header(lines: &mut TextLines<'_>) -> Result<(), ReadFault>
    ensures { GivesOrLacksMemory (λ _. lines.new) result (header_at lines.old) }
{
    match lines.next() {
        Some(line) if names(line, header_line()) => Ok(()),
        _ => Err(ReadFault::Header),
    }
}

#[tactic(auto, unfolding(crate::specs::Text::Shape::tag_at))]
fn tag(lines: &mut TextLines<'_>, tag: Tag) -> Result<(), ReadFault>
    ensures { GivesOrLacksMemory (λ _. lines.new) result (tag_at tag lines.old) }
{
    match lines.next() {
        Some(line) if names(line, tag.name()) => Ok(()),
        _ => Err(ReadFault::Tag(tag)),
    }
}

/// Takes the next line if it is not a tag line.
fn plain<'a>(lines: &mut TextLines<'a>) -> Option<&'a [u8]>
    ensures { plain_at lines.old ≡ (option_copied result, lines.new) }
{
    match lines.peek() {
        Some(line) if !is_tag_line(line) => lines.next(),
        _ => None,
    }
}

/// Takes the next line as a text. The text is empty if no line is left or the next one is a tag line.
#[tactic(auto, unfolding(crate::specs::Text::Shape::text_at))]
fn text(alloc: Global, lines: &mut TextLines<'_>) -> Result<Vec<u8>, ReadFault>
    ensures { GivesOrLacksMemory (λ text. (text.items, lines.new)) result (text_at lines.old) }
{
    match plain(lines) {
        Some(line) => Ok(Vec::from_slice(alloc, line)?),
        None => Ok(Vec::new(alloc)),
    }
}

/// Reads title, author and copyright. The notes come last in a file and are read elsewhere.
#[tactic(auto, unfolding(crate::specs::Text::Shape::texts_at))]
pub(super) fn texts(alloc: Global, lines: &mut TextLines<'_>) -> Result<Texts, ReadFault>
    ensures { GivesOrLacksMemory (λ texts. (texts_view texts, lines.new)) result (texts_at lines.old) }
{
    tag(lines, Tag::Title)?;
    let title = text(alloc, lines)?;
    tag(lines, Tag::Author)?;
    let author = text(alloc, lines)?;
    tag(lines, Tag::Copyright)?;
    let copyright = text(alloc, lines)?;
    Ok(Texts {
        title,
        author,
        copyright,
        notes: Vec::new(alloc),
    })
}

fn are_digits(bytes: &[u8]) -> bool
    ensures { result ≡ list_all is_ascii_digit bytes.now }
{
    bytes.iter().all(|byte| byte.is_ascii_digit())
}

fn is_numeral(digits: &[u8]) -> bool
    ensures { result ≡ spec_is_numeral digits.now }
{
    (1..=3).contains(&digits.len()) && are_digits(digits)
}

/// Returns the value of 1 to 3 digits.
fn number(digits: &[u8]) -> u32
    requires { spec_is_numeral digits.now ≡ true }
    ensures { result ≡ digits_value 10 digits.now }
{
    let mut number = 0;
    for digit in digits {
        number = number * 10 + u32::from(*digit - b'0');
    }
    number
}

/// Parses 1 to 3 digits as a width or height of 1 to 255.
fn side(digits: &[u8]) -> Option<u32>
    ensures number { result ≡ side_of digits.now }
    ensures range { IfSome result (λ side. (1 ≤ side) × (side ≤ 255)) }
{
    if !is_numeral(digits) {
        return None;
    }
    let number = number(digits);
    if (1..=LONGEST_SIDE).contains(&number) {
        Some(number)
    } else {
        None
    }
}

/// Returns the index of the first `x` or `X`.
fn times(line: &[u8]) -> Option<usize>
    ensures index { result ≡ position is_times line.now }
    ensures within { IfSome result (λ index. index < length line.now) }
{
    line.iter().position(|byte| matches!(byte, b'x' | b'X'))
}

#[tactic(auto, unfolding(crate::specs::Text::Shape::sides_of))]
fn sides(line: &[u8]) -> Option<(u32, u32)>
    ensures numbers { result ≡ sides_of line.now }
    ensures range { IfSome result AreSides }
{
    let index = times(line)?;
    let width = side(trim(&line[..index]))?;
    let height = side(trim(&line[index + 1..]))?;
    Some((width, height))
}

#[tactic(auto, unfolding(crate::specs::Text::Shape::size_at))]
fn size(lines: &mut TextLines<'_>) -> Result<(u32, u32), ReadFault>
    ensures exact { GivesOrLacksMemory (λ sides. (sides, lines.new)) result (size_at lines.old) }
    ensures range { IfOk result AreSides }
{
    match plain(lines) {
        Some(line) => sides(line).ok_or(ReadFault::SizeLine),
        None => Err(ReadFault::SizeLine),
    }
}

/// Appends the squares of a line. Returns `BadCell` for the first byte that is not a square.
fn push_squares(squares: &mut Vec<Square>, row: u32, line: &[u8]) -> Result<(), ReadFault>
    requires { length line.now ≤ 255 }
    ensures { GivesOrLacksMemory (λ _. squares.new.items) result (squares_after squares.old.items (row_squares row line.now)) }
{
    for (index, byte) in line.iter().enumerate() {
        let square = match *byte {
            b'.' => Square::Block,
            b'-' => Square::Open(None),
            byte => match Letter::of(byte) {
                Some(letter) => Square::Open(Some(letter)),
                None => {
                    let col = index as u32 + 1;
                    return Err(ReadFault::BadCell(Cell { row, col }));
                }
            },
        };
        squares.push(square)?;
    }
    Ok(())
}

/// Reads one row and appends its squares. Returns `GridLine` if the line is missing or has the wrong length.
#[tactic(auto, unfolding(crate::specs::Text::Shape::row_at))]
fn row(
    lines: &mut TextLines<'_>,
    squares: &mut Vec<Square>,
    width: u32,
    row: u32,
) -> Result<(), ReadFault>
    requires { width ≤ 255 }
    ensures { GivesOrLacksMemory (λ _. (squares.new.items, lines.new)) result (with_front squares.old.items (row_at width row lines.old)) }
{
    let line = plain(lines).ok_or(ReadFault::GridLine(row))?;
    if line.len() != width as usize {
        return Err(ReadFault::GridLine(row));
    }
    push_squares(squares, row, line)
}

fn rows(
    alloc: Global,
    lines: &mut TextLines<'_>,
    width: u32,
    height: u32,
) -> Result<Vec<Square>, ReadFault>
    requires wide { width ≤ 255 }
    requires high { height ≤ 255 }
    ensures { GivesOrLacksMemory (λ squares. (squares.items, lines.new)) result (rows_at width 1 height lines.old) }
{
    let mut squares = Vec::new(alloc);
    for above in 0..height {
        row(lines, &mut squares, width, above + 1)?;
    }
    Ok(squares)
}

#[tactic(auto, unfolding(crate::specs::Text::Shape::grid_at))]
pub(super) fn grid(alloc: Global, lines: &mut TextLines<'_>) -> Result<Grid, ReadFault>
    ensures { GivesOrLacksMemory (λ grid. (grid, lines.new)) result (grid_at lines.old) }
{
    tag(lines, Tag::Size)?;
    let (width, height) = size(lines)?;
    tag(lines, Tag::Grid)?;
    let squares = rows(alloc, lines, width, height)?;
    Ok(Grid::of_squares(alloc, width, height, squares)?)
}

/// Takes the next line as the clue of the light that begins at a cell. Returns `fault` if there is no such line.
#[tactic(auto, unfolding(crate::specs::Text::Shape::clue_at_start))]
fn add_clue(
    lines: &mut TextLines<'_>,
    clues: &mut Clues,
    start: Cell,
    direction: Direction,
    fault: ReadFault,
) -> Result<(), ReadFault>
    ensures { GivesOrLacksMemory (λ _. (clues.new, lines.new)) result (clue_at_start fault direction start clues.old lines.old) }
{
    let line = plain(lines).ok_or(fault)?;
    clues.set(start, direction, line)?;
    Ok(())
}

/// Takes one line for each light of a direction, in order. Returns `fault` if there are too few lines or too many.
fn add_clues(
    lines: &mut TextLines<'_>,
    clues: &mut Clues,
    grid: &Grid,
    direction: Direction,
    fault: ReadFault,
) -> Result<(), ReadFault>
    ensures { GivesOrLacksMemory (λ _. (clues.new, lines.new)) result (clues_at fault direction (starts grid.now direction) clues.old lines.old) }
{
    for index in 0..grid.size() {
        let cell = grid.cell_at(index);
        if begins(grid, direction, cell) {
            add_clue(lines, clues, cell, direction, fault)?;
        }
    }
    match plain(lines) {
        Some(_) => Err(fault),
        None => Ok(()),
    }
}

#[tactic(auto, unfolding(crate::specs::Text::Shape::both_clues_at))]
fn clues(alloc: Global, lines: &mut TextLines<'_>, grid: &Grid) -> Result<Clues, ReadFault>
    ensures { GivesOrLacksMemory (λ clues. (clues, lines.new)) result (both_clues_at grid.now lines.old) }
{
    let mut clues = Clues::new(alloc);
    tag(lines, Tag::Across)?;
    add_clues(
        lines,
        &mut clues,
        grid,
        Direction::Across,
        ReadFault::AcrossCount,
    )?;
    tag(lines, Tag::Down)?;
    add_clues(
        lines,
        &mut clues,
        grid,
        Direction::Down,
        ReadFault::DownCount,
    )?;
    Ok(clues)
}

/// Joins all remaining lines with line feeds.
fn joined(alloc: Global, lines: &mut TextLines<'_>) -> Result<Vec<u8>, AllocError>
    ensures { IfOk result (λ text. text.items ≡ join_with_byte 10 lines.old) }
{
    let mut text = Vec::new(alloc);
    let Some(first) = lines.next() else {
        return Ok(text);
    };
    text.extend_from_slice(first)?;
    while let Some(line) = lines.next() {
        text.push(b'\n')?;
        text.extend_from_slice(line)?;
    }
    Ok(text)
}

#[tactic(auto, unfolding(crate::specs::Text::Shape::notes_at))]
fn notes(alloc: Global, lines: &mut TextLines<'_>) -> Result<Vec<u8>, ReadFault>
    ensures { GivesOrLacksMemory (λ notes. notes.items) result (notes_at lines.old) }
{
    match lines.next() {
        None => Ok(Vec::new(alloc)),
        Some(line) if names(line, Tag::Notepad.name()) => Ok(joined(alloc, lines)?),
        Some(_) => Err(ReadFault::Tag(Tag::Notepad)),
    }
}

#[tactic(auto, unfolding(crate::specs::Text::Shape::shape))]
fn puzzle(alloc: Global, lines: &mut TextLines<'_>) -> Result<Puzzle, ReadFault>
    ensures { GivesOrLacksMemory puzzle_view result (shape lines.old) }
{
    header(lines)?;
    let mut texts = texts(alloc, lines)?;
    let grid = grid(alloc, lines)?;
    let clues = clues(alloc, lines, &grid)?;
    texts.notes = notes(alloc, lines)?;
    Ok(Puzzle {
        grid,
        texts,
        clues,
        circles: Circles::new(alloc),
    })
}

fn first_nul(bytes: &[u8]) -> Option<usize>
    ensures { result ≡ position is_nul bytes.now }
{
    bytes.iter().position(|byte| *byte == 0)
}

#[tactic(auto, unfolding(crate::specs::Text::Shape::all_of))]
fn all(alloc: Global, bytes: &[u8]) -> Result<Puzzle, ReadFault>
    ensures { GivesOrLacksMemory puzzle_view result (all_of bytes.now) }
{
    if let Some(offset) = first_nul(bytes) {
        return Err(ReadFault::NulByte(offset));
    }
    puzzle(alloc, &mut TextLines::new(bytes))
}

/// Reads the puzzle of a text file. Returns `NulByte` if the file has a NUL, and otherwise the fault of the first line
/// that breaks the format. Returns `Memory` if an allocation fails, at any point.
pub fn read_text(alloc: Global, bytes: &[u8]) -> Result<Puzzle, ReadFault>
    // The bytes are a text file of the puzzle that is returned.
    ensures found { IfOk result (λ read. IsText bytes.now (puzzle_view read)) }
    // That puzzle has no symmetry and no circles.
    ensures bare { IfOk result (λ read. IsBare (puzzle_view read)) }
    // A text file of some puzzle is read as a puzzle with the same file part, unless an allocation fails.
    ensures only { (puzzle : PuzzleShown) → IsText bytes.now puzzle → GivesOrLacksMemory (λ read. part_of (puzzle_view read)) result (Ok (part_of puzzle)) }
    // The fault is the first one that the file has, unless an allocation failed.
    ensures first { IfErr result (λ fault. fault ≢ Memory → IsFirstFault bytes.now fault) }
    // A file that is read has no fault.
    ensures faultless { IfOk result (λ _. HasNoFault bytes.now) }
    // The exact result, including which fault is returned.
    ensures exact { GivesOrLacksMemory puzzle_view result (all_of bytes.now) }
{
    all(alloc, bytes)
}

/// A law: a text file has at most one first fault.
pub fn text_has_one_first_fault()
    ensures { HasOneFirstFault }
{}

/// A law: all puzzles of one text file have the same file part.
pub fn text_has_one_part()
    ensures { HasOnePart }
{}
