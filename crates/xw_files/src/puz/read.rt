//! Reads `.puz` files.
ghost use Rattle.std.specs.Prelude.{◌≡◌, ◌≤◌, ◌*◌, ◌⊎◌, length, map, IfOk, IfErr, IsOkUnless};
ghost use Rattle.xw_grid.specs.Light.{lights_of};
ghost use Rattle.xw_grid.specs.Clue.{no_clues};
ghost use Rattle.xw_files.specs.Puz.Board.{with_clues, clues_in, puzzle_of, puzzle_at};
ghost use Rattle.xw_files.specs.Puz.Relation.{IsPuz};
ghost use Rattle.xw_files.specs.Puz.Faults.{IsFirstFault, HasNoFault};
ghost use Rattle.xw_files.specs.Steps.{GivesOrLacksMemory};
ghost use Rattle.xw_grid.specs.Puzzle.{PuzzleShown, puzzle_view};
ghost use Rattle.xw_files.specs.Part.{part_of};
ghost use Rattle.xw_files.specs.Puz.View.{view};
ghost use Rattle.xw_grid.specs.declared.cell.Symmetry.TheVariants as Symmetry;
ghost use Rattle.xw_files.specs.declared.fault.ReadFault.TheVariants as faults;

use crate::fault::ReadFault;
use crate::puz::fields::{self, Fields};
use crate::puz::sums::Sums;
use crate::puz::{board, sections};
use std::alloc::Global;
use xw_grid::clues::Clues;
use xw_grid::grid::Grid;
use xw_grid::lights::Lights;
use xw_grid::puzzle::{Puzzle, Texts};

/// Reads the puzzle of a `.puz` file. The puzzle has no symmetry, and no clues or circles but those of the file.
/// Returns the first fault in the order of the format, and `Memory` if an allocation fails at any point.
pub fn read_puz(alloc: Global, bytes: &[u8]) -> Result<Puzzle, ReadFault>
    ensures symmetry { IfOk result (λ puzzle. puzzle.grid.symmetry ≡ Symmetry.None) }
    // The bytes are a `.puz` file of the puzzle that is returned.
    ensures found { IfOk result (λ puzzle. IsPuz bytes.entry.now (puzzle_view puzzle)) }
    // A file of some puzzle is read as a puzzle with the same file part (`part_of`), unless an allocation fails.
    ensures only { (puzzle : PuzzleShown) → IsPuz bytes.entry.now puzzle → IfOk result (λ read. part_of (puzzle_view read) ≡ part_of puzzle) × IsOkUnless result faults.Memory }
    // The fault is `Memory`, or the first one that the bytes have.
    ensures first { IfErr result (λ fault. (fault ≡ faults.Memory) ⊎ IsFirstFault bytes.entry.now fault) }
    // Bytes that are read have no fault.
    ensures faultless { IfOk result (λ _. HasNoFault bytes.entry.now) }
    // The exact result, including which fault is returned.
    ensures exact { GivesOrLacksMemory puzzle_view result (puzzle_at bytes.entry.now) }
{
    read_fields(alloc, bytes)
}

fn read_fields(alloc: Global, bytes: &[u8]) -> Result<Puzzle, ReadFault>
    ensures exact { GivesOrLacksMemory puzzle_view result (puzzle_at bytes.entry.now) }
{
    let fields = fields::fields_of(alloc, bytes)?;
    puzzle_of(alloc, &fields)
}

/// Builds the puzzle of a file from its fields, or returns their first fault.
fn puzzle_of(alloc: Global, fields: &Fields<'_>) -> Result<Puzzle, ReadFault>
    requires wide { 1 ≤ fields.now.header.width }
    requires high { 1 ≤ fields.now.header.height }
    requires solution { length fields.now.solution.now ≡ fields.now.header.width * fields.now.header.height }
    ensures { GivesOrLacksMemory puzzle_view result (puzzle_of (view fields.now)) }
{
    if let Some(sum) = Sums::of(fields).wrong_in(&fields.header) {
        return Err(ReadFault::BadSum(sum));
    }
    let grid = board::grid_of(alloc, &fields.header, fields.solution)?;
    let clues = clues_of(alloc, &grid, fields)?;
    let circles = sections::circles_of(alloc, &grid, fields.rest)?;
    let texts = texts_of(alloc, fields)?;
    Ok(Puzzle {
        grid,
        texts,
        clues,
        circles,
    })
}

/// Returns the clues of the lights. Returns `ClueCount` if the header's count differs from the number of lights.
fn clues_of(alloc: Global, grid: &Grid, fields: &Fields<'_>) -> Result<Clues, ReadFault>
    ensures { GivesOrLacksMemory (λ clues. clues) result (clues_in (lights_of grid.now) (view fields.now)) }
{
    let lights = Lights::of(alloc, grid)?;
    if usize::from(fields.header.clue_count) != lights.len() {
        return Err(ReadFault::ClueCount);
    }
    clues_by(alloc, &lights, &fields.clues)
}

/// Sets the clue of each light to the text at the same index.
fn clues_by(alloc: Global, lights: &Lights, texts: &[&[u8]]) -> Result<Clues, ReadFault>
    ensures ok { IfOk result (λ clues. clues ≡ with_clues no_clues lights.now (map (λ text. text.now) texts.now)) }
    ensures memory { IsOkUnless result faults.Memory }
{
    let mut clues = Clues::new(alloc);
    for (index, text) in texts.iter().enumerate() {
        let Some(light) = lights.get(index) else {
            return Ok(clues);
        };
        clues.set(light.start, light.name.direction, text)?;
    }
    Ok(clues)
}

/// Copies title, author, copyright and notes.
fn texts_of(alloc: Global, fields: &Fields<'_>) -> Result<Texts, ReadFault>
    ensures title { IfOk result (λ texts. texts.title.items ≡ fields.now.title.now) }
    ensures author { IfOk result (λ texts. texts.author.items ≡ fields.now.author.now) }
    ensures copyright { IfOk result (λ texts. texts.copyright.items ≡ fields.now.copyright.now) }
    ensures notes { IfOk result (λ texts. texts.notes.items ≡ fields.now.notes.now) }
    ensures memory { IsOkUnless result faults.Memory }
{
    Ok(Texts {
        title: Vec::from_slice(alloc, fields.title)?,
        author: Vec::from_slice(alloc, fields.author)?,
        copyright: Vec::from_slice(alloc, fields.copyright)?,
        notes: Vec::from_slice(alloc, fields.notes)?,
    })
}
