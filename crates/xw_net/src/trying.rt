//! Entering letters in a search: strips the lights that lose words, and goes back if a watched light dies.
ghost use Rattle.std.specs.Prelude.{◌≡◌, ◌*◌, ◌^◌, ℕ, ◌<◌, List, [], length, OnOk};
ghost use Rattle.xw_net.specs.Seen.{AreKeptOrNone};

use crate::begin::index_in;
use crate::level::{Level, Pool, give_back, keep_row};
use crate::light_position::{LightPosition, Positions};
use crate::net::Net;
use crate::room::{NOWHERE, make_held};
use crate::seen::found_letters;
use std::alloc::{AllocError, Global};
use xw_feas::board::Board;
use xw_grid::cell::Cell;
use xw_grid::grid::Grid;
use xw_grid::lights::Lights;
use xw_letters::letter::Letter;
use xw_letters::letter_set::LetterSet;
use xw_words::bank::Bank;
use xw_words::counted::Counted;
use xw_words::rows::Rows;

/// What the levels of a search share: rows that no level needs, and for each slot and letter a word that had it.
#[derive(Drop)]
pub struct Trail {
    alloc: Global,
    pub(crate) pool: Pool,
    pub(crate) seen: Vec<u32>,
}

impl Trail {
    /// A trail for no cells.
    pub fn new(alloc: Global) -> Trail
        ensures { result.seen.items ≡ [] }
    {
        Trail {
            alloc,
            pool: Pool::new(alloc),
            seen: Vec::new(alloc),
        }
    }

    /// Makes room for the words of a grid with so many cells, and remembers none then. Room of that size stays, with the words in
    /// it.
    pub fn begin(&mut self, cells: usize) -> Result<(), AllocError>
        requires { cells < 2 ^ 32 }
        ensures long { OnOk result (length self.new.seen.items ≡ 52 * cells) }
        ensures kept { length self.old.seen.items ≡ 52 * cells → self.new.seen.items ≡ self.old.seen.items }
        ensures seen { AreKeptOrNone cells self.old.seen.items self.new.seen.items }
    {
        if self.seen.len() != 52 * cells {
            self.seen = make_held(self.alloc, 52 * cells)?;
        }
        Ok(())
    }
}

/// What a search enters, and how the net is stripped then.
#[derive(Clone, Copy)]
pub struct Search<'a> {
    /// The grid after the letters were entered.
    pub grid: &'a Grid,
    pub lights: &'a Lights,
    /// The cells that were written, each with its entry before.
    pub written: &'a [(Cell, Option<Letter>)],
    /// The dictionary.
    pub words: &'a Bank,
    /// For each light, whether stripping stops when it has no word.
    pub watched: &'a [bool],
    /// Whether the lights are stripped in the order in which they were queued, so that the light where stripping stops tells
    /// more about the letter. Otherwise those with few words come first.
    pub in_turn: bool,
}

impl Net {
    ghost use Rattle.std.specs.Prelude.{◌≡◌, ◌≢◌, ℕ, ◌<◌, ◌≤◌, List, true, false, Ok, Some, None, [], length, replicate, vec_len, slice_index_or, IfOk, IfSome, IfNone};
    ghost use Rattle.xw_words.specs.Dictionary.{known_words};
    ghost use Rattle.xw_feas.specs.Board.{light_at};
    ghost use Rattle.xw_feas.specs.Passes.{Passes};
    ghost use Rattle.xw_net.specs.Entered.{DiesEntered, FillsEntered, IsNew, IsTriedOn};
    ghost use Rattle.xw_net.specs.Net.{IsSettledFor};
    ghost use Rattle.xw_grid.specs.Light.{lights_of};
    ghost use Rattle.xw_feas.specs.Board.{board_of};
    ghost use Rattle.xw_feas.specs.Feasible.{IsFeasibleWord};
    ghost use Rattle.xw_feas.specs.State.{State};
    ghost use Rattle.xw_net.specs.Filled.{AreLong, IsQuiet};
    ghost use Rattle.xw_net.specs.Marks.{AreSlotsApart};
    ghost use Rattle.xw_net.specs.Nets.{IsShaped, IsQueue, IsThere, left_of, pending_in, queued_in, word_stands, Waits};
    ghost use Rattle.xw_net.specs.Level.{IsLike, IsWay, IsBack, IsBackFrom};
    ghost use Rattle.xw_net.specs.Update.{AreInside, IsSized, KeepsRoom, state_of};
    ghost use Rattle.xw_net.specs.Seen.{AreSeen};
    ghost use Rattle.xw_net.specs.Steps.{IsStrippable, IsStep, IsCheck, IsStruckFrom, StandFewer, AreLightHeld, ArePositionHeld, ChecksOn, IsEmptied, KeepsHolding, PendAtSlots, StaysReady, FillsNet, Dies};
    ghost use Rattle.xw_net.specs.declared.net.Net.{Net as SpecNet};
    ghost use Rattle.xw_net.specs.Worklist.{is_waiting};

    /// Removes the letters at a position that no word of the light has. Remembers words that have the others.
    fn keep_found<R: Rows>(
        &mut self,
        rows: &mut R,
        board: &Board<'_>,
        here: LightPosition,
        seen: &mut [u32],
    )
        requires net { IsStrippable board.now (R.entries rows.old) self.old }
        requires there { IsThere board.now here }
        requires open { slice_index_or self.old.entered.items here.light false ≡ false }
        requires few { length (R.entries rows.old (length (light_at board.now here.light))) < 4294967296 }
        requires apart { AreSlotsApart board.now }
        requires seen { AreSeen board.now (R.entries rows.old) seen.old }
        ensures entries { R.entries rows.new ≡ R.entries rows.old }
        ensures risen { R.ticks rows.old ≤ R.ticks rows.new }
        ensures seen { AreSeen board.now (R.entries rows.old) seen.new }
        ensures step { IsStep board.now (R.entries rows.old) self.old self.new }
        ensures check { IsCheck board.now (R.entries rows.old) self.old self.new }
        ensures same { IsStruckFrom self.old self.new }
        ensures alive { StandFewer self.old self.new }
        ensures held { ArePositionHeld board.now (R.entries rows.old) self.new here.light here.position }
        ensures kept { (ticks : ℕ) → ChecksOn board.now (R.entries rows.old) here.light self.old ticks self.new ticks }
    {
        let alive = self.letters[here.cell];
        let found = found_letters(rows, &self.rows[here.light], here, alive, seen);
        self.keep_listed(board, here, found);
    }

    /// Checks each letter of a light, position by position.
    fn keep_wide<R: Rows>(
        &mut self,
        rows: &mut R,
        board: &Board<'_>,
        light: usize,
        seen: &mut [u32],
    )
        requires net { IsStrippable board.now (R.entries rows.old) self.old }
        requires light { light < length board.now.lights }
        requires open { slice_index_or self.old.entered.items light false ≡ false }
        requires few { length (R.entries rows.old (length (light_at board.now light))) < 4294967296 }
        requires apart { AreSlotsApart board.now }
        requires seen { AreSeen board.now (R.entries rows.old) seen.old }
        ensures entries { R.entries rows.new ≡ R.entries rows.old }
        ensures risen { R.ticks rows.old ≤ R.ticks rows.new }
        ensures seen { AreSeen board.now (R.entries rows.old) seen.new }
        ensures step { IsStep board.now (R.entries rows.old) self.old self.new }
        ensures check { IsCheck board.now (R.entries rows.old) self.old self.new }
        ensures same { IsStruckFrom self.old self.new }
        ensures held { AreLightHeld board.now (R.entries rows.old) self.new light }
        ensures kept { (ticks : ℕ) → ChecksOn board.now (R.entries rows.old) light self.old ticks self.new ticks }
    {
        let positions = Positions::of(board, light);
        for position in 0..positions.len() {
            self.keep_found(rows, board, positions.at(position), seen);
        }
    }

    /// Checks each letter of a light. A light whose entered word is in the net needs no check. If it has few words, it reads them
    /// all.
    fn check_found<R: Rows>(
        &mut self,
        rows: &mut R,
        board: &Board<'_>,
        light: usize,
        bank: &Bank,
        seen: &mut [u32],
    )
        requires net { IsStrippable board.now (R.entries rows.old) self.old }
        requires light { light < length board.now.lights }
        requires words { R.entries rows.old ≡ known_words bank.now.words }
        requires few { length (R.entries rows.old (length (light_at board.now light))) < 4294967296 }
        requires apart { AreSlotsApart board.now }
        requires seen { AreSeen board.now (R.entries rows.old) seen.old }
        ensures entries { R.entries rows.new ≡ R.entries rows.old }
        ensures risen { R.ticks rows.old ≤ R.ticks rows.new }
        ensures seen { AreSeen board.now (R.entries rows.old) seen.new }
        ensures step { IsStep board.now (R.entries rows.old) self.old self.new }
        ensures check { IsCheck board.now (R.entries rows.old) self.old self.new }
        ensures same { IsStruckFrom self.old self.new }
        ensures held { AreLightHeld board.now (R.entries rows.old) self.new light }
        ensures kept { (ticks : ℕ) → ChecksOn board.now (R.entries rows.old) light self.old ticks self.new ticks }
    {
        if self.entered[light] {
            return;
        }
        if self.is_narrow(board, light) {
            self.pass_light(bank, board, light);
            return;
        }
        self.keep_wide(rows, board, light, seen);
    }

    /// Whether a light is watched and has no word left.
    fn is_dead(&self, light: usize, watched: &[bool]) -> bool
        requires rows { light < length self.now.rows.items }
        requires entered { light < length self.now.entered.items }
        ensures watched { result ≡ true → slice_index_or watched.now light false ≡ true }
        ensures emptied { result ≡ true → IsEmptied self.now light }
        ensures alive { result ≡ false → slice_index_or watched.now light false ≡ true → ¬ IsEmptied self.now light }
    {
        if light >= watched.len() || !watched[light] || self.entered[light] {
            return false;
        }
        let words = self.rows[light].count();
        words == 0
    }

    /// Processes a light that was taken from the queue, and keeps its row before. Returns whether it is watched and has no word
    /// left; then its letters are not checked. Returns an error if an allocation fails, and then changes nothing.
    fn try_light<R: Rows>(
        &mut self,
        rows: &mut R,
        board: &Board<'_>,
        light: usize,
        search: Search<'_>,
        level: &mut Level,
        trail: &mut Trail,
    ) -> Result<bool, AllocError>
        requires net { IsStrippable board.now (R.entries rows.old) self.old }
        requires light { light < length board.now.lights }
        requires words { R.entries rows.old ≡ known_words search.words.now.words }
        requires few { length (R.entries rows.old (length (light_at board.now light))) < 4294967296 }
        requires apart { AreSlotsApart board.now }
        requires seen { AreSeen board.now (R.entries rows.old) trail.old.seen.items }
        requires queued { queued_in self.old light ≡ true }
        requires taken { is_waiting self.old.queue.lights light ≡ false }
        ensures entries { R.entries rows.new ≡ R.entries rows.old }
        ensures risen { R.ticks rows.old ≤ R.ticks rows.new }
        ensures seen { AreSeen board.now (R.entries rows.old) trail.new.seen.items }
        ensures back { (before : SpecNet) → IsWay level.old self.old before → IsWay level.new self.new before }
        ensures step { IsStep board.now (R.entries rows.old) self.old self.new }
        ensures fewer { result ≡ Ok false → left_of self.new ≤ left_of self.old }
        ensures waits { result ≡ Ok false → (other : ℕ) → (other ≢ light → Waits self.old other) → Waits self.new other }
        ensures holding { result ≡ Ok false → KeepsHolding board.now (R.entries rows.old) self.old self.new }
        ensures pending { result ≡ Ok false → PendAtSlots board.now self.old self.new }
        ensures ready { IfOk result (λ dead. StaysReady board.now (R.entries rows.old) self.old self.new) }
        ensures watched { result ≡ Ok true → slice_index_or search.entry.watched.now light false ≡ true }
        ensures emptied { result ≡ Ok true → IsEmptied self.new light }
        ensures alive { result ≡ Ok false → slice_index_or search.entry.watched.now light false ≡ true → ¬ IsEmptied self.new light }
        ensures others { result ≡ Ok false → (other choice : ℕ) → other ≢ light → word_stands self.new other choice ≡ word_stands self.old other choice }
    {
        keep_row(&mut level.rows, &mut trail.pool, light, &self.rows[light])?;
        self.strike_light(rows, board, light);
        if self.is_dead(light, search.watched) {
            return Ok(true);
        }
        self.queue.release(light);
        self.check_found(rows, board, light, search.words, &mut trail.seen);
        Ok(false)
    }

    /// Notes a light that has no word left, unless another was noted before.
    fn note_dead(&mut self, light: usize)
        ensures { self.new ≡ record self.old { emptied = self.new.emptied } }
    {
        if self.emptied == NOWHERE {
            self.emptied = light;
        }
    }

    /// Where in the queue the light to process next is; `last` is where the last one was. This decides the order of stripping only,
    /// so the contract promises nothing.
    fn index_to_try(&self, last: usize, in_turn: bool) -> usize {
        if !in_turn || self.queue.has_urgent() {
            return self.index_of_next(last);
        }
        let next = last.saturating_add(1);
        if next < self.queue.len() { next } else { 0 }
    }

    /// Strips the net in a search: processes queued lights until the words and letters left support one another. Stops at the first
    /// watched light without a word, and returns it. Returns an error if an allocation fails. After both, work is left.
    fn strip_trying<R: Rows>(
        &mut self,
        rows: &mut R,
        board: &Board<'_>,
        search: Search<'_>,
        level: &mut Level,
        trail: &mut Trail,
    ) -> Result<Option<usize>, AllocError>
        requires net { IsStrippable board.now (R.entries rows.old) self.old }
        requires queue { IsQueue self.old }
        requires words { R.entries rows.old ≡ known_words search.words.now.words }
        requires few { (light : ℕ) → light < length board.now.lights → length (R.entries rows.old (length (light_at board.now light))) < 4294967296 }
        requires apart { AreSlotsApart board.now }
        requires seen { AreSeen board.now (R.entries rows.old) trail.old.seen.items }
        ensures entries { R.entries rows.new ≡ R.entries rows.old }
        ensures seen { AreSeen board.now (R.entries rows.old) trail.new.seen.items }
        ensures back { (before : SpecNet) → IsWay level.old self.old before → IsWay level.new self.new before }
        ensures step { IsStep board.now (R.entries rows.old) self.old self.new }
        ensures filled { result ≡ Ok None → FillsNet board.now (R.entries rows.old) self.old self.new }
        ensures dies { IfOk result (λ dead. IfSome dead (Dies board.now (R.entries rows.old) self.old)) }
        ensures watched { IfOk result (λ dead. IfSome dead (λ light. slice_index_or search.entry.watched.now light false ≡ true)) }
        ensures within { IfOk result (λ dead. IfSome dead (λ light. light < length board.now.lights)) }
        ensures alive { result ≡ Ok None → (light : ℕ) → slice_index_or search.entry.watched.now light false ≡ true → IsEmptied self.new light → IsEmptied self.old light }
    {
        self.emptied = NOWHERE;
        let mut at = self.index_to_try(NOWHERE, search.in_turn);
        while let Some(light) = self.queue.take_at(at) {
            let is_dead = self.try_light(rows, board, light, search, level, trail)?;
            if is_dead {
                self.note_dead(light);
                return Ok(Some(light));
            }
            self.note_emptied(board, light);
            at = self.index_to_try(at, search.in_turn);
        }
        Ok(None)
    }

    /// Discards the work that a stripping left when it stopped.
    fn halt(&mut self)
        ensures rest { self.new ≡ record self.old { queue = self.new.queue; pending = self.new.pending } }
        ensures long { vec_len self.new.pending ≡ vec_len self.old.pending }
        ensures pending { (slot letter : ℕ) → pending_in self.new slot letter ≡ false }
        ensures lights { self.new.queue.lights ≡ [] }
        ensures marks { self.new.queue.marks ≡ replicate (length self.old.queue.marks) false }
    {
        self.queue.clear();
        self.pending.as_mut_slice().fill(LetterSet::new());
    }

    /// Goes back to the net before a level. What is queued or pending stays.
    fn undo(&mut self, level: &mut Level, pool: &mut Pool)
        requires { (before : SpecNet) × IsWay level.old self.old before }
        ensures like { (before : SpecNet) → IsWay level.old self.old before → IsLike self.new before }
        ensures rows { level.new.rows.items ≡ [] }
        ensures base { level.new.base.items ≡ [] }
        ensures room { KeepsRoom self.old self.new }
        ensures many { length self.new.rows.items ≡ length self.old.rows.items }
        ensures many_base { length self.new.base.items ≡ length self.old.base.items }
        ensures rest { self.new ≡ record self.old { rows = self.new.rows; base = self.new.base; letters = self.new.letters; entered = self.new.entered } }
    {
        give_back(&mut level.rows, pool, &mut self.rows);
        give_back(&mut level.base, pool, &mut self.base);
        self.letters.as_mut_slice().copy_from_slice(&level.letters);
        self.entered.as_mut_slice().copy_from_slice(&level.entered);
    }

    /// The light, if there is one, if it is watched and has no word.
    fn dead_of(&self, light: Option<usize>, watched: &[bool]) -> Option<usize>
        requires { IfSome light (λ light. (light < length self.now.rows.items) × (light < length self.now.entered.items)) }
        ensures some { IfSome result (λ dead. (light ≡ Some dead) × (slice_index_or watched.now dead false ≡ true) × IsEmptied self.now dead) }
        ensures none { IfNone result ((one : ℕ) → light ≡ Some one → slice_index_or watched.now one false ≡ true → ¬ IsEmptied self.now one) }
    {
        match light {
            Some(light) if self.is_dead(light, watched) => Some(light),
            _ => None,
        }
    }

    /// The first light through a cell that is watched and has no word.
    fn dead_through(&self, board: &Board<'_>, cell: usize, watched: &[bool]) -> Option<usize>
        requires cell { cell < length board.now.open_cells }
        requires shaped { IsShaped board.now self.now }
        ensures some { IfSome result (λ dead. (dead < length board.now.lights) × (slice_index_or watched.now dead false ≡ true) × IsEmptied self.now dead) }
        ensures none { IfNone result ((light : ℕ) → Passes board.now cell light → slice_index_or watched.now light false ≡ true → ¬ IsEmptied self.now light) }
    {
        let (across, down) = board.lights_at(cell);
        let dead = self.dead_of(across, watched);
        if dead.is_some() {
            return dead;
        }
        self.dead_of(down, watched)
    }

    /// The first light through a written cell that was empty which is watched and has no word.
    fn dead_through_new(&self, board: &Board<'_>, search: Search<'_>) -> Option<usize>
        requires cells { length search.grid.now.squares ≡ length board.now.open_cells }
        requires inside { AreInside search.grid.now search.written.now }
        requires shaped { IsShaped board.now self.now }
        ensures some { IfSome result (λ dead. (dead < length board.now.lights) × (slice_index_or search.entry.watched.now dead false ≡ true) × IsEmptied self.now dead) }
        ensures none { IfNone result ((cell light : ℕ) → IsNew search.entry.grid.now search.entry.written.now cell → Passes board.now cell light → slice_index_or search.entry.watched.now light false ≡ true → ¬ IsEmptied self.now light) }
    {
        for at in 0..search.written.len() {
            let (cell, old) = search.written[at];
            if old.is_some() {
                continue;
            }
            let dead = self.dead_through(board, index_in(search.grid, cell), search.watched);
            if dead.is_some() {
                return dead;
            }
        }
        None
    }

    /// Enters the letters that empty cells got, and strips. Returns a watched light that has no word left, if there is one. Unless
    /// it returns `Ok(None)`, work may be left.
    fn place<R: Rows>(
        &mut self,
        rows: &mut R,
        board: &Board<'_>,
        search: Search<'_>,
        level: &mut Level,
        trail: &mut Trail,
    ) -> Result<Option<usize>, AllocError>
        requires cells { length search.grid.now.squares ≡ length board.now.open_cells }
        requires inside { AreInside search.grid.now search.written.now }
        requires long { AreLong board.now (R.entries rows.old) }
        requires sized { IsSized board.now (R.entries rows.old) self.old }
        requires quiet { IsQuiet self.old }
        requires words { R.entries rows.old ≡ known_words search.words.now.words }
        requires few { (light : ℕ) → light < length board.now.lights → length (R.entries rows.old (length (light_at board.now light))) < 4294967296 }
        requires apart { AreSlotsApart board.now }
        requires seen { AreSeen board.now (R.entries rows.old) trail.old.seen.items }
        ensures entries { R.entries rows.new ≡ R.entries rows.old }
        ensures seen { AreSeen board.now (R.entries rows.old) trail.new.seen.items }
        ensures back { (before : SpecNet) → IsWay level.old self.old before → IsWay level.new self.new before }
        ensures sized { IsSized board.now (R.entries rows.old) self.new }
        ensures room { KeepsRoom self.old self.new }
        ensures chain { self.new.chain ≡ self.old.chain }
        ensures spare { self.new.spare ≡ self.old.spare }
        ensures filled { result ≡ Ok None → FillsEntered search.entry.grid.now board.now (R.entries rows.old) search.entry.written.now self.old self.new }
        ensures dies { IfOk result (λ dead. IfSome dead (DiesEntered search.entry.grid.now board.now (R.entries rows.old) search.entry.written.now self.old)) }
        ensures watched { IfOk result (λ dead. IfSome dead (λ light. slice_index_or search.entry.watched.now light false ≡ true)) }
        ensures within { IfOk result (λ dead. IfSome dead (λ light. light < length board.now.lights)) }
        ensures alive { result ≡ Ok None → (light : ℕ) → slice_index_or search.entry.watched.now light false ≡ true → IsEmptied self.new light → IsEmptied self.old light }
    {
        self.enter(rows, board, search, level, &mut trail.pool)?;
        let dead = self.strip_trying(rows, board, search, level, trail)?;
        if dead.is_some() {
            return Ok(dead);
        }
        Ok(self.dead_through_new(board, search))
    }

    /// Updates a settled net after letters were entered in empty cells, and keeps the way back in a level that was begun with the net.
    /// If this leaves a watched light without a feasible word, returns such a light. Unless it returns `Ok(None)`, the net is as
    /// before. Returns an error if an allocation fails.
    pub fn try_letters(
        &mut self,
        search: Search<'_>,
        level: &mut Level,
        trail: &mut Trail,
    ) -> Result<Option<usize>, AllocError>
        requires lights { search.lights.now ≡ lights_of search.grid.now }
        requires inside { AreInside search.grid.now search.written.now }
        requires tried { IsTriedOn (state_of search.grid.now search.words.now.words) search.written.now self.old }
        requires begun { IsWay level.old self.old self.old }
        requires seen { AreSeen (board_of search.grid.now) (known_words search.words.now.words) trail.old.seen.items }
        ensures seen { AreSeen (board_of search.entry.grid.now) (known_words search.entry.words.now.words) trail.new.seen.items }
        ensures spare { self.new.spare ≡ self.old.spare }
        ensures settled { result ≡ Ok None → ∥ IsSettledFor (state_of search.entry.grid.now search.entry.words.now.words) self.new ∥₁ }
        ensures way { result ≡ Ok None → IsWay level.new self.new self.old }
        ensures alive { result ≡ Ok None → (light : ℕ) → slice_index_or search.entry.watched.now light false ≡ true → IsEmptied self.new light → IsEmptied self.old light }
        ensures dead { IfOk result (λ dead. IfSome dead (λ light. (word : List ℕ) → ¬ IsFeasibleWord (board_of search.entry.grid.now) search.entry.words.now.words light word)) }
        ensures watched { IfOk result (λ dead. IfSome dead (λ light. slice_index_or search.entry.watched.now light false ≡ true)) }
        ensures within { IfOk result (λ dead. IfSome dead (λ light. light < length search.entry.lights.now)) }
        ensures back { result ≢ Ok None → IsBack self.old self.new }
    {
        let board = Board::new(search.grid, search.lights);
        search.words.well_formed();
        let mut rows = Counted::new(search.words, 0);
        let tried = self.place(&mut rows, &board, search, level, trail);
        if matches!(tried, Ok(None)) {
            self.keep_counts();
        } else {
            self.halt();
            self.undo(level, &mut trail.pool);
        }
        tried
    }

    /// Takes a settled net back to the one before a level. Forgets what the level keeps.
    pub fn take_back(&mut self, level: &mut Level, trail: &mut Trail)
        requires way { (before : SpecNet) × IsWay level.old self.old before }
        ensures back { (before : SpecNet) (now : State) → IsWay level.old self.old before → ∥ IsSettledFor now self.old ∥₁ → IsBackFrom now before self.new }
        ensures spare { self.new.spare ≡ self.old.spare }
        ensures seen { trail.new.seen.items ≡ trail.old.seen.items }
    {
        self.undo(level, &mut trail.pool);
    }
}
