//! The entries of a grid as lists of cells, and writing such a list.
ghost use Rattle.std.specs.Prelude.{◌≡◌, ◌≤◌, All, length, drop, true, IfOk, IfErr, IfSome, map, slice_set};
ghost use Rattle.xw_letters.specs.Letter.{IsLetter};
ghost use Rattle.xw_grid.specs.Grid.{is_open, index_of};
ghost use Rattle.xw_search.specs.Position.{DiffersInEntries};
ghost use Rattle.xw_search.specs.Writing.{entries_of, CanBeWritten, by_index, written_in};
ghost use Rattle.xw_fill.specs.Sparing.{emptied, IsListOf};

use crate::why::NoReason;
use std::alloc::Global;
use xw_feas::feasible::Feasible;
use xw_grid::cell::Cell;
use xw_letters::letter::Letter;
use xw_search::lights::board;
use xw_search::writing::write;

/// Writes the cells of a list from an index on, in one edit.
pub fn write_from<E: Feasible>(engine: &mut E, list: &[(Cell, Option<Letter>)], from: usize)
    requires from { from ≤ length list.now }
    requires good { All (CanBeWritten (E.state engine.old).grid) list.now }
    ensures entries { entries_of (E.state engine.new) ≡ written_in (entries_of (E.state engine.old)) (by_index (E.state engine.old).grid (drop from list.now)) }
    ensures rest { DiffersInEntries (E.state engine.old) (E.state engine.new) }
{
    write(engine, &list[from..]);
}

/// Writes one open cell.
pub fn write_cell<E: Feasible>(engine: &mut E, cell: Cell, letter: Option<Letter>)
    requires open { is_open (E.state engine.old).grid cell ≡ true }
    requires letter { IfSome letter IsLetter }
    ensures entries { entries_of (E.state engine.new) ≡ slice_set (entries_of (E.state engine.old)) (index_of (E.state engine.old).grid cell) letter }
    ensures rest { DiffersInEntries (E.state engine.old) (E.state engine.new) }
{
    write(engine, &[(cell, letter)]);
}

/// Lists each cell that has an entry, with its letter. Returns `Memory` if an allocation fails.
pub fn entered_cells<E: Feasible>(
    alloc: Global,
    engine: &E,
) -> Result<Vec<(Cell, Option<Letter>)>, NoReason>
    ensures ok { IfOk result (λ list. IsListOf (E.state engine.now) (entries_of (E.state engine.now)) list.items) }
    ensures memory { IfErr result (λ refusal. refusal ≡ NoReason.Memory) }
{
    let mut list = Vec::new(alloc);
    for index in 0..board(engine).cell_count() {
        let letter = board(engine).entry(index);
        if letter.is_some() {
            let cell = engine.grid().cell_at(index);
            list.push((cell, letter)).map_err(|_| NoReason::Memory)?;
        }
    }
    Ok(list)
}

/// Lists the same cells without letters. Returns `Memory` if an allocation fails.
pub fn emptied(
    alloc: Global,
    list: &[(Cell, Option<Letter>)],
) -> Result<Vec<(Cell, Option<Letter>)>, NoReason>
    ensures ok { IfOk result (λ empty. empty.items ≡ map emptied list.now) }
    ensures memory { IfErr result (λ refusal. refusal ≡ NoReason.Memory) }
{
    let mut empty = Vec::with_capacity(alloc, list.len()).map_err(|_| NoReason::Memory)?;
    for written in list {
        empty.push((written.0, None)).map_err(|_| NoReason::Memory)?;
    }
    Ok(empty)
}

/// Allocates a list with room for the entry of each cell of the grid. Returns `Memory` if the allocation fails.
pub fn room_for_entries<E: Feasible>(
    alloc: Global,
    engine: &E,
) -> Result<Vec<Option<Letter>>, NoReason>
    ensures ok { IfOk result (λ entries. length entries.items ≡ length (entries_of (E.state engine.now))) }
    ensures memory { IfErr result (λ refusal. refusal ≡ NoReason.Memory) }
{
    vec![in alloc; None; board(engine).cell_count()].map_err(|_| NoReason::Memory)
}

/// Copies the entry of each cell, in reading order.
pub fn note_entries<E: Feasible>(engine: &E, entries: &mut [Option<Letter>])
    requires { length entries.old ≡ length (entries_of (E.state engine.now)) }
    ensures { entries.new ≡ entries_of (E.state engine.now) }
{
    for index in 0..entries.len() {
        entries[index] = board(engine).entry(index);
    }
}
