//! Reads and writes puzzle files in either format.
ghost use Rattle.std.specs.Prelude.{◌≡◌, ◌≢◌, Ok, Err, IfOk, IfErr};
ghost use Rattle.xw_grid.specs.Puzzle.{puzzle_view};
ghost use Rattle.xw_files.specs.Formats.{IsFileOf, IsFirstFault, puzzle_in, written_as};

use crate::fault::{ReadFault, WriteFault};
use crate::kind::Kind;
use crate::puz::{read_puz, write_puz};
use crate::text::{read_text, write_text};
use std::alloc::Global;
use xw_grid::puzzle::Puzzle;

/// Reads the puzzle in the bytes of a file of this format. Returns its first fault, or `Memory` if an allocation
/// fails.
pub fn read_as(alloc: Global, kind: Kind, bytes: &[u8]) -> Result<Puzzle, ReadFault>
    ensures file { IfOk result (λ puzzle. IsFileOf kind bytes.now (puzzle_view puzzle)) }
    ensures exact { IfOk result (λ puzzle. puzzle_in kind bytes.now ≡ Ok (puzzle_view puzzle)) }
    ensures first { IfErr result (λ fault. fault ≢ ReadFault.Memory → IsFirstFault kind bytes.now fault) }
{
    match kind {
        Kind::Puz => read_puz(alloc, bytes),
        Kind::Text => read_text(alloc, bytes),
    }
}

/// Returns the bytes of a puzzle in this format. Returns the first fault that applies, or `Memory` if an allocation
/// fails.
pub fn write_as(alloc: Global, kind: Kind, puzzle: &Puzzle) -> Result<Vec<u8>, WriteFault>
    ensures ok { IfOk result (λ bytes. written_as kind (puzzle_view puzzle.now) ≡ Ok bytes.items) }
    ensures refused { IfErr result (λ fault. fault ≢ WriteFault.Memory → written_as kind (puzzle_view puzzle.now) ≡ Err fault) }
{
    match kind {
        Kind::Puz => write_puz(alloc, puzzle),
        Kind::Text => write_text(alloc, puzzle),
    }
}
