//! Enters letters in a search: narrows the lights through their cells, and keeps what they had.
ghost use Rattle.std.specs.Prelude.{◌≡◌, ◌<◌, true, false, length};
ghost use Rattle.xw_net.specs.Entered.{IsNew, IsOnlyNew, IsThroughNew, AreNarrowedIn};
ghost use Rattle.xw_net.specs.Marks.{AreByCell};
ghost use Rattle.xw_net.specs.Update.{AreInside};
ghost use Rattle.xw_net.specs.Worklist.{Adds, HasLights};

use crate::base::read_row;
use crate::begin::{index_in, narrow_cell};
use crate::level::{Level, Pool, keep_row};
use crate::narrow::narrow;
use crate::net::Net;
use crate::seeds::mark_through;
use crate::trying::Search;
use crate::worklist::Worklist;
use std::alloc::AllocError;
use xw_feas::board::{Board, has_all_entries};
use xw_grid::cell::Cell;
use xw_grid::grid::Grid;
use xw_letters::letter::Letter;
use xw_letters::letter_set::LetterSet;
use xw_words::rows::Rows;

/// Puts the lights through the written cells that were empty on the list.
fn mark_entered(
    grid: &Grid,
    board: &Board<'_>,
    written: &[(Cell, Option<Letter>)],
    list: &mut Worklist,
)
    requires cells { length grid.now.squares ≡ length board.now.open_cells }
    requires inside { AreInside grid.now written.now }
    requires list { HasLights board.now list.old }
    ensures { Adds (IsThroughNew grid.now board.now written.now) list.old list.new }
{
    for at in 0..written.len() {
        let (cell, old) = written[at];
        if old.is_some() {
            continue;
        }
        mark_through(board, index_in(grid, cell), list);
    }
}

/// Removes from the written cells that were empty the letters that they no longer allow.
fn narrow_entered(
    grid: &Grid,
    board: &Board<'_>,
    written: &[(Cell, Option<Letter>)],
    letters: &mut [LetterSet],
)
    requires cells { length grid.now.squares ≡ length board.now.open_cells }
    requires inside { AreInside grid.now written.now }
    requires letters { AreByCell board.now letters.old }
    ensures len { length letters.new ≡ length letters.old }
    ensures narrowed { AreNarrowedIn grid.now board.now written.now letters.old letters.new }
{
    for at in 0..written.len() {
        let (cell, old) = written[at];
        if old.is_some() {
            continue;
        }
        narrow_cell(board, index_in(grid, cell), letters);
    }
}

/// Whether a cell was written, and was empty before.
fn is_new(grid: &Grid, written: &[(Cell, Option<Letter>)], cell: usize) -> bool
    requires { AreInside grid.now written.now }
    ensures yes { result ≡ true → IsNew grid.now written.now cell }
    ensures no { result ≡ false → ¬ IsNew grid.now written.now cell }
{
    for at in 0..written.len() {
        let (listed, old) = written[at];
        if old.is_none() && index_in(grid, listed) == cell {
            return true;
        }
    }
    false
}

/// The cell of a light that got a letter, if only one did.
fn only_new(
    grid: &Grid,
    board: &Board<'_>,
    written: &[(Cell, Option<Letter>)],
    light: usize,
) -> Option<usize>
    requires inside { AreInside grid.now written.now }
    requires light { light < length board.now.lights }
    ensures { IsOnlyNew grid.now board.now written.now light result }
{
    let cells = board.light(light);
    let mut found = None;
    for position in 0..cells.len() {
        let cell = cells.at(position);
        if !is_new(grid, written, cell) {
            continue;
        }
        if found.is_some() {
            return None;
        }
        found = Some(cell);
    }
    found
}

impl Net {
    ghost use Rattle.std.specs.Prelude.{◌≡◌, ◌≢◌, ℕ, ◌<◌, true, false, Option, length, OnOk};
    ghost use Rattle.xw_net.specs.Entered.{IsUnchanged, IsNarrowedTo, IsNarrowedIn, IsEnteredIn};
    ghost use Rattle.xw_net.specs.Filled.{AreLong};
    ghost use Rattle.xw_net.specs.Level.{IsWay};
    ghost use Rattle.xw_net.specs.Update.{IsSized, KeepsRoom};
    ghost use Rattle.xw_net.specs.Worklist.{is_marked};
    ghost use Rattle.xw_net.specs.declared.net.Net.{Net as SpecNet};

    /// Narrows a light through cells that got letters to its base words. `filled` is the cell, if only one of the light got a
    /// letter. Returns an error if an allocation fails, and then changes nothing.
    fn narrow_light<R: Rows>(
        &mut self,
        rows: &mut R,
        board: &Board<'_>,
        filled: Option<usize>,
        light: usize,
        level: &mut Level,
        pool: &mut Pool,
    ) -> Result<(), AllocError>
        requires light { light < length board.now.lights }
        requires long { AreLong board.now (R.entries rows.old) }
        requires sized { IsSized board.now (R.entries rows.old) self.old }
        ensures entries { R.entries rows.new ≡ R.entries rows.old }
        ensures back { (before : SpecNet) → IsWay level.old self.old before → IsWay level.new self.new before }
        ensures sized { IsSized board.now (R.entries rows.old) self.new }
        ensures room { KeepsRoom self.old self.new }
        ensures rest { self.new ≡ record self.old { rows = self.new.rows; base = self.new.base; entered = self.new.entered } }
        ensures here { OnOk result (IsNarrowedTo board.now (R.entries rows.old) filled light self.old self.new) }
        ensures others { (other : ℕ) → other ≢ light → IsUnchanged other self.old self.new }
    {
        keep_row(&mut level.base, pool, light, &self.base[light])?;
        keep_row(&mut level.rows, pool, light, &self.rows[light])?;
        read_row(rows, board, None, filled, light, &mut self.base[light]);
        let cells = board.light(light);
        narrow(None, cells.len(), &self.base[light], &mut self.rows[light]);
        self.entered[light] = has_all_entries(board, &cells);
        Ok(())
    }

    /// Narrows the queued lights, which pass through cells that got letters, to their base words. Returns an error if an
    /// allocation fails.
    fn narrow_queued<R: Rows>(
        &mut self,
        rows: &mut R,
        board: &Board<'_>,
        search: Search<'_>,
        level: &mut Level,
        pool: &mut Pool,
    ) -> Result<(), AllocError>
        requires inside { AreInside search.grid.now search.written.now }
        requires long { AreLong board.now (R.entries rows.old) }
        requires sized { IsSized board.now (R.entries rows.old) self.old }
        ensures entries { R.entries rows.new ≡ R.entries rows.old }
        ensures back { (before : SpecNet) → IsWay level.old self.old before → IsWay level.new self.new before }
        ensures sized { IsSized board.now (R.entries rows.old) self.new }
        ensures room { KeepsRoom self.old self.new }
        ensures rest { self.new ≡ record self.old { rows = self.new.rows; base = self.new.base; entered = self.new.entered } }
        ensures on { OnOk result ((light : ℕ) → light < length board.now.lights → is_marked self.old.queue.marks light ≡ true → IsNarrowedIn search.entry.grid.now board.now (R.entries rows.old) search.entry.written.now light self.old self.new) }
        ensures off { (light : ℕ) → is_marked self.old.queue.marks light ≡ false → IsUnchanged light self.old self.new }
    {
        for light in 0..board.light_count() {
            if !self.queue.contains(light) {
                continue;
            }
            let filled = only_new(search.grid, board, search.written, light);
            self.narrow_light(rows, board, filled, light, level, pool)?;
        }
        Ok(())
    }

    /// Enters the letters that empty cells got: queues the lights through these cells and narrows them to their base words, and
    /// takes the other letters from the cells. Returns an error if an allocation fails.
    pub(crate) fn enter<R: Rows>(
        &mut self,
        rows: &mut R,
        board: &Board<'_>,
        search: Search<'_>,
        level: &mut Level,
        pool: &mut Pool,
    ) -> Result<(), AllocError>
        requires cells { length search.grid.now.squares ≡ length board.now.open_cells }
        requires inside { AreInside search.grid.now search.written.now }
        requires long { AreLong board.now (R.entries rows.old) }
        requires sized { IsSized board.now (R.entries rows.old) self.old }
        ensures entries { R.entries rows.new ≡ R.entries rows.old }
        ensures back { (before : SpecNet) → IsWay level.old self.old before → IsWay level.new self.new before }
        ensures sized { IsSized board.now (R.entries rows.old) self.new }
        ensures room { KeepsRoom self.old self.new }
        ensures rest { self.new ≡ record self.old { rows = self.new.rows; base = self.new.base; entered = self.new.entered; letters = self.new.letters; queue = self.new.queue } }
        ensures entered { OnOk result (IsEnteredIn search.entry.grid.now board.now (R.entries rows.old) search.entry.written.now self.old self.new) }
    {
        mark_entered(search.grid, board, search.written, &mut self.queue);
        self.narrow_queued(rows, board, search, level, pool)?;
        narrow_entered(search.grid, board, search.written, &mut self.letters);
        Ok(())
    }
}
