//! Writes `.puz` files.
ghost use Rattle.std.specs.Prelude.{◌≡◌, ◌≢◌, map, Ok, Err, IfOk, IfErr, IsOk, IsOkUnless};
ghost use Rattle.xw_grid.specs.Puzzle.{puzzle_view, clue_of};
ghost use Rattle.xw_files.specs.Finished.{square_byte};
ghost use Rattle.xw_files.specs.Puz.View.{view};
ghost use Rattle.xw_files.specs.Puz.Relation.{IsPuzBefore};
ghost use Rattle.xw_files.specs.Puz.Writing.{state_byte, unsealed, sealed, spelled_puzzle, written};
ghost use Rattle.xw_files.specs.declared.fault.WriteFault.TheVariants as faults;

use crate::fault::WriteFault;
use crate::finished::square_byte;
use crate::puz::fields::Fields;
use crate::puz::header::Header;
use crate::puz::sums::Sums;
use crate::puz::{circles, refusal, spell};
use std::alloc::{AllocError, Global};
use xw_grid::cell::Square;
use xw_grid::clues::Clues;
use xw_grid::grid::Grid;
use xw_grid::lights::Lights;
use xw_grid::puzzle::Puzzle;

/// Writes a puzzle as a `.puz` file. Returns the first fault that applies, in the order `Barred`, `NotFilled`,
/// `Field`. Returns `Memory` if an allocation fails, which is possible only if no other fault applies.
pub fn write_puz(alloc: Global, puzzle: &Puzzle) -> Result<Vec<u8>, WriteFault>
    ensures ok { IfOk result (λ bytes. written (puzzle_view puzzle.now) ≡ Ok bytes.items) }
    ensures refused { IfErr result (λ fault. fault ≢ faults.Memory → written (puzzle_view puzzle.now) ≡ Err fault) }
    ensures memory { result ≡ Err faults.Memory → IsOk (written (puzzle_view puzzle.now)) }
    // With any bytes appended, the result is still a file of this puzzle. If no open cell is circled, the appended
    // bytes must have no GEXT section.
    ensures again { IfOk result (λ bytes. IsPuzBefore bytes.items (puzzle_view puzzle.now)) }
{
    match refusal::fault_of(puzzle) {
        Some(fault) => Err(fault),
        None => bytes_of(alloc, puzzle),
    }
}

/// Returns the bytes of a puzzle that has no fault.
fn bytes_of(alloc: Global, puzzle: &Puzzle) -> Result<Vec<u8>, WriteFault>
    ensures ok { IfOk result (λ bytes. bytes.items ≡ spelled_puzzle (puzzle_view puzzle.now)) }
    ensures memory { IsOkUnless result faults.Memory }
{
    let grid = &puzzle.grid;
    let lights = Lights::of(alloc, grid)?;
    let solution = solution_of(alloc, grid)?;
    let state = state_of(alloc, grid)?;
    let section = circles::circles_section(alloc, grid, &puzzle.circles)?;
    let clues = clues_of(alloc, &lights, &puzzle.clues)?;
    let mut fields = Fields {
        header: unsealed(grid.width() as u8, grid.height() as u8, lights.len() as u16),
        solution: &solution,
        state: &state,
        title: &puzzle.texts.title,
        author: &puzzle.texts.author,
        copyright: &puzzle.texts.copyright,
        clues,
        notes: &puzzle.texts.notes,
        rest: &section,
    };
    fields.header = sealed_header(&fields);
    Ok(spell::spell(alloc, &fields)?)
}

/// Returns a header with all checksums zero.
fn unsealed(width: u8, height: u8, clue_count: u16) -> Header
    ensures { result ≡ unsealed width height clue_count }
{
    Header {
        file_sum: 0,
        cib_sum: 0,
        masked: [0; 8],
        width,
        height,
        clue_count,
        bitmask: 1,
    }
}

/// Returns the header of the fields with their checksums set.
fn sealed_header(fields: &Fields<'_>) -> Header
    ensures { result ≡ (sealed (view fields.now)).header }
{
    let sums = Sums::of(fields);
    let header = fields.header;
    Header {
        file_sum: sums.file,
        cib_sum: sums.cib,
        masked: sums.masked(),
        width: header.width,
        height: header.height,
        clue_count: header.clue_count,
        bitmask: header.bitmask,
    }
}

fn solution_of(alloc: Global, grid: &Grid) -> Result<Vec<u8>, AllocError>
    ensures { IfOk result (λ bytes. bytes.items ≡ map square_byte grid.now.squares) }
{
    grid.squares()
        .iter()
        .map(|square| square_byte(*square))
        .collect(alloc)
}

fn state_of(alloc: Global, grid: &Grid) -> Result<Vec<u8>, AllocError>
    ensures { IfOk result (λ bytes. bytes.items ≡ map state_byte grid.now.squares) }
{
    grid.squares()
        .iter()
        .map(|square| state_byte(*square))
        .collect(alloc)
}

fn state_byte(square: Square) -> u8
    ensures { result ≡ state_byte square }
{
    match square {
        Square::Block => b'.',
        Square::Open(_) => b'-',
    }
}

/// Returns the clue of each light, which is empty for a light without a clue.
fn clues_of<'a>(
    alloc: Global,
    lights: &Lights,
    clues: &'a Clues,
) -> Result<Vec<&'a [u8]>, AllocError>
    ensures { IfOk result (λ texts. map (λ text. text.now) texts.items ≡ map (clue_of clues.now) lights.now) }
{
    let mut texts = Vec::new(alloc);
    for index in 0..lights.len() {
        let light = lights.at(index);
        texts.push(clues.get(light.start, light.name.direction))?;
    }
    Ok(texts)
}
