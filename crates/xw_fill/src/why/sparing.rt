//! Leaves out the entries that a reason can spare: without them, the light still has no feasible word.
ghost use Rattle.std.specs.Prelude.{◌≡◌, ◌<◌, All, true, false, count_by, is_some};
ghost use Rattle.xw_grid.specs.Grid.{is_open, index_of};
ghost use Rattle.xw_search.specs.Position.{DiffersInEntries};
ghost use Rattle.xw_search.specs.OfState.{light_count};
ghost use Rattle.xw_fill.specs.OfState.{lacks_words, IsNeeded};
ghost use Rattle.xw_search.specs.Writing.{entries_of};
ghost use Rattle.xw_fill.specs.Reason.{IsPart};
ghost use Rattle.xw_fill.specs.Sparing.{IsNeededIn, IsSpared};

use crate::why::entries::write_cell;
use xw_feas::feasible::Feasible;
use xw_grid::cell::Cell;
use xw_letters::letter::Letter;
use xw_search::lights::word_count;

/// Empties a cell if it has an entry that can be spared: without it, the light still has no feasible word. Returns
/// whether the cell was emptied.
fn spare<E: Feasible>(engine: &mut E, light: usize, cell: Cell) -> bool
    requires light { light < light_count (E.state engine.old) }
    requires open { is_open (E.state engine.old).grid cell ≡ true }
    ensures spared { result ≡ true → IsSpared (E.state engine.old) light (index_of (E.state engine.old).grid cell) (E.state engine.new) }
    ensures needed { result ≡ false → IsNeededIn (E.state engine.old) light cell }
    ensures same { result ≡ false → E.state engine.new ≡ E.state engine.old }
{
    let letter = engine.grid().entry(cell);
    if letter.is_none() {
        return false;
    }
    write_cell(engine, cell, None);
    if word_count(engine, light) == 0 {
        return true;
    }
    write_cell(engine, cell, letter);
    false
}

/// Goes through the cells once and empties each whose entry can be spared. Returns whether any was emptied.
fn spare_once<E: Feasible>(engine: &mut E, light: usize, list: &[(Cell, Option<Letter>)]) -> bool
    requires light { light < light_count (E.state engine.old) }
    requires open { All (λ written. is_open (E.state engine.old).grid written.0 ≡ true) list.now }
    requires dead { lacks_words (E.state engine.old) light ≡ true }
    ensures rest { DiffersInEntries (E.state engine.old) (E.state engine.new) }
    ensures part { IsPart (entries_of (E.state engine.new)) (entries_of (E.state engine.old)) }
    ensures dead { lacks_words (E.state engine.new) light ≡ true }
    ensures fewer { result ≡ true → count_by is_some (entries_of (E.state engine.new)) < count_by is_some (entries_of (E.state engine.old)) }
    ensures same { result ≡ false → E.state engine.new ≡ E.state engine.old }
    ensures needed { result ≡ false → All (λ written. IsNeededIn (E.state engine.old) light written.0) list.now }
{
    let mut spared = false;
    for written in list {
        if spare(engine, light, written.0) {
            spared = true;
        }
    }
    spared
}

/// Repeats `spare_once` until no entry of the cells can be spared.
pub fn spare_all<E: Feasible>(engine: &mut E, light: usize, list: &[(Cell, Option<Letter>)])
    requires light { light < light_count (E.state engine.old) }
    requires open { All (λ written. is_open (E.state engine.old).grid written.0 ≡ true) list.now }
    requires dead { lacks_words (E.state engine.old) light ≡ true }
    ensures rest { DiffersInEntries (E.state engine.old) (E.state engine.new) }
    ensures part { IsPart (entries_of (E.state engine.new)) (entries_of (E.state engine.old)) }
    ensures dead { lacks_words (E.state engine.new) light ≡ true }
    ensures needed { All (λ written. IsNeeded (E.state engine.old) light (entries_of (E.state engine.new)) (index_of (E.state engine.old).grid written.0)) list.now }
{
    loop {
        if !spare_once(engine, light, list) {
            return;
        }
    }
}
