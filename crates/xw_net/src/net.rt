//! The net, and its stripping: removing words and letters without support.
use crate::light_position::{LightPosition, Positions, position_of, side};
use crate::room::{NOWHERE, Spare};
use crate::support::{find_support, next_lost, strike_row};
use crate::worklist::Worklist;
use std::alloc::Global;
use xw_bits::bit_row::BitRow;
use xw_feas::board::Board;
use xw_letters::letter::Letter;
use xw_letters::letter_set::LetterSet;
use xw_words::rows::Rows;

/// The most queued lights that are compared to find the one with the fewest words. In a grid with
/// more, comparing all of them would take longer than stripping.
const MOST_COMPARED: usize = 128;

/// The words of each light and the letters of each cell, with the state of the algorithm that
/// updates them.
///
/// Each cell has two slots, one for each direction. Words are numbered: a known word by its index
/// among the known words of the light's length, and after them the word that the letters of a
/// filled light spell.
#[derive(Drop)]
pub struct Net {
    pub(crate) alloc: Global,
    /// For each light, the known words in the net.
    pub(crate) rows: Vec<BitRow>,
    /// For each light, its base words.
    pub(crate) base: Vec<BitRow>,
    /// For each light, whether the net has the word that its letters spell.
    pub(crate) entered: Vec<bool>,
    /// For each cell, its letters in the net.
    pub(crate) letters: Vec<LetterSet>,
    /// For each slot and letter, the index of the known word last found to support the letter;
    /// `NO_WORD` if there is none.
    pub(crate) held: Vec<u32>,
    /// For each slot, the letters for which words before the held one may have come back. Their
    /// next search starts at the first word.
    pub(crate) restart: Vec<LetterSet>,
    /// For each slot, the letters that were removed from the cell, and whose words are still to be
    /// removed from the light.
    pub(crate) pending: Vec<LetterSet>,
    /// The lights to process.
    pub(crate) queue: Worklist,
    /// The lights of the chain along which a revival goes. They stay marked until it ends.
    pub(crate) chain: Worklist,
    /// The arrays reserved for the lights after the next edit.
    pub(crate) spare: Option<Spare>,
    /// The first light whose words the last edit removed, as a hint for searches; `NOWHERE` if there is none.
    pub(crate) emptied: usize,
}

impl Net {
    ghost use Rattle.std.specs.Prelude.{◌≡◌, ℕ, ◌+◌, ◌-◌, ◌*◌, ◌^◌, ◌<◌, ◌≤◌, true, false, not, ◌||◌, ◌&&◌, ◌==◌, length, slice_index, slice_index_or};
    ghost use Rattle.xw_letters.specs.Letter.{IsLetter};
    ghost use Rattle.xw_letters.specs.LetterSet.{has};
    ghost use Rattle.xw_feas.specs.Board.{light_at};
    ghost use Rattle.xw_net.specs.Marks.{side_of, IsPositionIn, Drops, LeavesPending, cell_at, slot_at};
    ghost use Rattle.xw_net.specs.Inner.Lost.{IsLost};
    ghost use Rattle.xw_net.specs.Nets.{bits_for, marks_of, letter_stands, pending_in, queued_in, IsShaped, IsLeft, IsThere, IsQueue, Waits, left_of};
    ghost use Rattle.xw_net.specs.Steps.{IsQueuedToo, IsCheck, IsStruck, IsStruckAt, StandFewer, OthersStand, IsLetterHeld, IsStruckFrom, IsLeftPending, IsStrippable, IsStep, WaitMore, PendLess, IsCleared, PendAtSlots, ArePositionHeld, AreLightHeld, KeepSupports, KeepsHolding, StepsOn, StrikesOn, ChecksOn, FillsNet, StripsWithin};
    ghost use Rattle.xw_net.specs.Support.{holds, Finds};
    ghost use Rattle.xw_net.specs.Worklist.{is_waiting};

    /// Removes from a light the words with a pending letter at a position.
    fn strike_position<R: Rows>(&mut self, rows: &mut R, board: &Board<'_>, here: LightPosition)
        requires net { IsStrippable board.now (R.entries rows.old) self.old }
        requires there { IsThere board.now here }
        ensures entries { R.entries rows.new ≡ R.entries rows.old }
        ensures risen { R.ticks rows.old ≤ R.ticks rows.new }
        ensures step { IsStep board.now (R.entries rows.old) self.old self.new }
        ensures struck { IsStruck self.old self.new }
        ensures cleared { IsCleared board.now self.new here.light here.position }
        ensures less { PendLess self.old self.new }
        ensures only { IsStruckAt here.light self.old self.new }
        ensures kept { StrikesOn board.now (R.entries rows.old) here.light self.old (R.ticks rows.old) self.new (R.ticks rows.new) }
    {
        let pending = self.pending[here.slot];
        let alive = self.letters[here.cell];
        self.pending[here.slot] = LetterSet::new();
        strike_row(
            rows,
            &mut self.rows[here.light],
            here.len,
            here.position,
            pending,
            alive,
        );
        self.entered[here.light] &= !pending.has(board.letter(here.cell));
    }

    /// Whether no letter is pending at a slot.
    fn is_clear(&self, slot: usize) -> bool
        requires { slot < length self.now.pending.items }
        ensures { result ≡ true → (letter : ℕ) → pending_in self.now slot letter ≡ false }
    {
        self.pending[slot].is_same(LetterSet::new())
    }

    /// Removes from a light the words with a pending letter at any position.
    pub(crate) fn strike_light<R: Rows>(&mut self, rows: &mut R, board: &Board<'_>, light: usize)
        requires net { IsStrippable board.now (R.entries rows.old) self.old }
        requires light { light < length board.now.lights }
        ensures entries { R.entries rows.new ≡ R.entries rows.old }
        ensures risen { R.ticks rows.old ≤ R.ticks rows.new }
        ensures step { IsStep board.now (R.entries rows.old) self.old self.new }
        ensures struck { IsStruck self.old self.new }
        ensures cleared { (position letter : ℕ) → IsPositionIn board.now light position → pending_in self.new (slot_at board.now light position) letter ≡ false }
        ensures less { PendLess self.old self.new }
        ensures only { IsStruckAt light self.old self.new }
        ensures kept { StrikesOn board.now (R.entries rows.old) light self.old (R.ticks rows.old) self.new (R.ticks rows.new) }
    {
        let positions = Positions::of(board, light);
        for position in 0..positions.len() {
            let here = positions.at(position);
            if self.is_clear(here.slot) {
                continue;
            }
            self.strike_position(rows, board, here);
        }
    }

    /// Makes a letter that was removed from a cell pending for a light through it, and queues the
    /// light.
    fn leave_pending(&mut self, board: &Board<'_>, light: usize, cell: usize, letter: Letter)
        requires shaped { IsShaped board.now self.old }
        requires light { light < length board.now.lights }
        requires cell { cell < length board.now.open_cells }
        ensures shaped { IsShaped board.now self.new }
        ensures rest { IsLeft self.old self.new }
        ensures same { IsLeftPending self.old self.new }
        ensures pending { (slot other : ℕ) → pending_in self.new slot other ≡ (pending_in self.old slot other || ((slot == 2 * cell + side_of (light_at board.now light)) && (other == letter))) }
        ensures queued { IsQueuedToo light self.old self.new }
        ensures waits { WaitMore self.old self.new }
        ensures longer { length self.new.queue.lights ≤ length self.old.queue.lights + 1 }
    {
        let slot = 2 * cell + side(&board.light(light));
        self.pending[slot].insert(letter);
        self.queue.insert(light);
    }

    /// Removes a letter from a cell, and makes it pending for the crossing light.
    pub(crate) fn drop_letter(&mut self, board: &Board<'_>, here: LightPosition, letter: Letter)
        requires shaped { IsShaped board.now self.old }
        requires there { IsThere board.now here }
        requires stood { letter_stands self.old here.cell letter ≡ true }
        ensures shaped { IsShaped board.now self.new }
        ensures rest { IsLeft self.old self.new }
        ensures same { IsStruckFrom self.old self.new }
        ensures fewer { left_of self.new ≤ left_of self.old }
        ensures waits { WaitMore self.old self.new }
        ensures drops { Drops board.now here.light here.position letter (marks_of self.old) (marks_of self.new) }
    {
        self.letters[here.cell].remove(letter);
        if let Some(other) = board.crossing(here.light, here.position) {
            self.leave_pending(board, other, here.cell, letter);
        }
    }

    /// Makes letters that were removed from a cell pending for a light through it, and queues the
    /// light.
    fn leave_all_pending(
        &mut self,
        board: &Board<'_>,
        light: usize,
        cell: usize,
        gone: LetterSet,
        is_urgent: bool,
    )
        requires shaped { IsShaped board.now self.old }
        requires light { light < length board.now.lights }
        requires cell { cell < length board.now.open_cells }
        ensures shaped { IsShaped board.now self.new }
        ensures rest { IsLeft self.old self.new }
        ensures same { IsLeftPending self.old self.new }
        ensures pending { (slot letter : ℕ) → pending_in self.new slot letter ≡ (pending_in self.old slot letter || ((slot == 2 * cell + side_of (light_at board.now light)) && has gone letter)) }
        ensures queued { IsQueuedToo light self.old self.new }
        ensures waits { WaitMore self.old self.new }
        ensures longer { length self.new.queue.lights ≤ length self.old.queue.lights + 1 }
    {
        let slot = 2 * cell + side(&board.light(light));
        let pending = self.pending[slot];
        self.pending[slot] = pending.with(gone);
        self.queue.insert_urgent(light, is_urgent);
    }

    /// Removes letters from a cell, at least one, and makes them pending for the crossing light.
    pub(crate) fn drop_letters(
        &mut self,
        board: &Board<'_>,
        here: LightPosition,
        gone: LetterSet,
        is_urgent: bool,
    )
        requires shaped { IsShaped board.now self.old }
        requires there { IsThere board.now here }
        requires stood { (letter : ℕ) → has gone letter ≡ true → letter_stands self.old here.cell letter ≡ true }
        requires some { (letter : ℕ) × (has gone letter ≡ true) }
        ensures shaped { IsShaped board.now self.new }
        ensures rest { IsLeft self.old self.new }
        ensures same { IsStruckFrom self.old self.new }
        ensures fewer { left_of self.new ≤ left_of self.old }
        ensures waits { WaitMore self.old self.new }
        ensures letters { (cell letter : ℕ) → letter_stands self.new cell letter ≡ (letter_stands self.old cell letter && not ((cell == cell_at board.now here.light here.position) && has gone letter)) }
        ensures leaves { LeavesPending board.now here.light here.position (has gone) (marks_of self.old) (marks_of self.new) }
    {
        let alive = self.letters[here.cell];
        self.letters[here.cell] = alive.without(gone);
        if let Some(other) = board.crossing(here.light, here.position) {
            self.leave_all_pending(board, other, here.cell, gone, is_urgent);
        }
    }

    /// Looks for another word that supports a letter whose held word is gone, and holds it. Returns
    /// whether there is one.
    fn hold_another<R: Rows>(&mut self, rows: &mut R, here: LightPosition, letter: Letter) -> bool
        requires letter { IsLetter letter }
        requires light { here.light < length self.old.rows.items }
        requires held { 26 * here.slot + (letter - 65) < length self.old.held.items }
        requires restart { here.slot < length self.old.restart.items }
        requires small { length self.old.held.items < 2 ^ 63 }
        requires lost { IsLost (bits_for self.old here.light) (slice_index self.old.held.items (26 * here.slot + (letter - 65))) }
        ensures entries { R.entries rows.new ≡ R.entries rows.old }
        ensures risen { R.ticks rows.old ≤ R.ticks rows.new }
        ensures same { self.new ≡ record self.old { held = self.new.held; restart = self.new.restart } }
        ensures held { length self.new.held.items ≡ length self.old.held.items }
        ensures restart { length self.new.restart.items ≡ length self.old.restart.items }
        ensures finds { length (bits_for self.old here.light) < 2 ^ 32 → Finds (bits_for self.old here.light) (R.entries rows.old here.len) here.position here.slot letter (holds self.old.held.items self.old.restart.items) (holds self.new.held.items self.new.restart.items) result (R.ticks rows.new - R.ticks rows.old) }
    {
        let row = &self.rows[here.light];
        find_support(rows, row, here, letter, &mut self.held, &mut self.restart)
    }

    /// Checks one letter of a cell whose support is gone: looks for another, and removes the letter
    /// if there is none.
    fn keep_letter<R: Rows>(
        &mut self,
        rows: &mut R,
        board: &Board<'_>,
        here: LightPosition,
        letter: Letter,
    )
        requires letter { IsLetter letter }
        requires net { IsStrippable board.now (R.entries rows.old) self.old }
        requires there { IsThere board.now here }
        requires stands { letter_stands self.old here.cell letter ≡ true }
        requires open { slice_index_or self.old.entered.items here.light false ≡ false }
        requires lost { IsLost (bits_for self.old here.light) (slice_index self.old.held.items (26 * here.slot + (letter - 65))) }
        ensures entries { R.entries rows.new ≡ R.entries rows.old }
        ensures risen { R.ticks rows.old ≤ R.ticks rows.new }
        ensures step { IsStep board.now (R.entries rows.old) self.old self.new }
        ensures check { IsCheck board.now (R.entries rows.old) self.old self.new }
        ensures entered { self.new.entered.items ≡ self.old.entered.items }
        ensures others { OthersStand here.cell letter self.old self.new }
        ensures alive { StandFewer self.old self.new }
        ensures held { IsLetterHeld board.now (R.entries rows.old) self.new here letter }
        ensures stays { KeepSupports board.now (R.entries rows.old) here.light self.old self.new }
        ensures kept { ChecksOn board.now (R.entries rows.old) here.light self.old (R.ticks rows.old) self.new (R.ticks rows.new) }
    {
        if !self.hold_another(rows, here, letter) {
            self.drop_letter(board, here, letter);
        }
    }

    /// Checks each letter at a position whose held word is gone. If the light has no word left, all go at once.
    fn keep_position<R: Rows>(
        &mut self,
        rows: &mut R,
        board: &Board<'_>,
        light: usize,
        position: usize,
    )
        requires net { IsStrippable board.now (R.entries rows.old) self.old }
        requires position { IsPositionIn board.now light position }
        requires open { slice_index_or self.old.entered.items light false ≡ false }
        ensures entries { R.entries rows.new ≡ R.entries rows.old }
        ensures risen { R.ticks rows.old ≤ R.ticks rows.new }
        ensures step { IsStep board.now (R.entries rows.old) self.old self.new }
        ensures check { IsCheck board.now (R.entries rows.old) self.old self.new }
        ensures entered { self.new.entered.items ≡ self.old.entered.items }
        ensures held { ArePositionHeld board.now (R.entries rows.old) self.new light position }
        ensures stays { KeepSupports board.now (R.entries rows.old) light self.old self.new }
        ensures kept { ChecksOn board.now (R.entries rows.old) light self.old (R.ticks rows.old) self.new (R.ticks rows.new) }
    {
        let here = position_of(board, light, position);
        let alive = self.letters[here.cell];
        if let Some(_) = alive.next_index(0) {
            if self.rows[light].count() == 0 {
                self.drop_letters(board, here, alive, true);
                return;
            }
        }
        let mut from = 0;
        while let Some(number) = next_lost(&self.rows[light], &self.held, here.slot, alive, from) {
            self.keep_letter(rows, board, here, Letter::at(number));
            from = number + 1;
        }
    }

    /// Checks each letter at each position of a light. A light whose entered word is in the net
    /// needs no check.
    pub(crate) fn keep_light<R: Rows>(&mut self, rows: &mut R, board: &Board<'_>, light: usize)
        requires net { IsStrippable board.now (R.entries rows.old) self.old }
        requires light { light < length board.now.lights }
        ensures entries { R.entries rows.new ≡ R.entries rows.old }
        ensures risen { R.ticks rows.old ≤ R.ticks rows.new }
        ensures step { IsStep board.now (R.entries rows.old) self.old self.new }
        ensures check { IsCheck board.now (R.entries rows.old) self.old self.new }
        ensures held { AreLightHeld board.now (R.entries rows.old) self.new light }
        ensures kept { ChecksOn board.now (R.entries rows.old) light self.old (R.ticks rows.old) self.new (R.ticks rows.new) }
    {
        if self.entered[light] {
            return;
        }
        for position in 0..board.light(light).len() {
            self.keep_position(rows, board, light, position);
        }
    }

    /// Processes a light that was taken from the queue.
    fn see_to<R: Rows>(&mut self, rows: &mut R, board: &Board<'_>, light: usize)
        requires net { IsStrippable board.now (R.entries rows.old) self.old }
        requires light { light < length board.now.lights }
        requires queued { queued_in self.old light ≡ true }
        requires taken { is_waiting self.old.queue.lights light ≡ false }
        ensures entries { R.entries rows.new ≡ R.entries rows.old }
        ensures risen { R.ticks rows.old ≤ R.ticks rows.new }
        ensures step { IsStep board.now (R.entries rows.old) self.old self.new }
        ensures fewer { left_of self.new ≤ left_of self.old }
        ensures waits { (other : ℕ) → ((other ≡ light → ⊥) → Waits self.old other) → Waits self.new other }
        ensures holding { KeepsHolding board.now (R.entries rows.old) self.old self.new }
        ensures pending { PendAtSlots board.now self.old self.new }
        ensures kept { StepsOn board.now (R.entries rows.old) self.old (R.ticks rows.old) self.new (R.ticks rows.new) }
    {
        self.strike_light(rows, board, light);
        self.queue.release(light);
        self.keep_light(rows, board, light);
    }

    /// Notes a light that has no letter left at its first cell, unless one was noted before.
    pub(crate) fn note_emptied(&mut self, board: &Board<'_>, light: usize)
        requires shaped { IsShaped board.now self.old }
        requires light { light < length board.now.lights }
        ensures { self.new ≡ record self.old { emptied = self.new.emptied } }
    {
        let cells = board.light(light);
        if self.emptied == NOWHERE
            && cells.len() > 0
            && self.letters[cells.at(0)].is_same(LetterSet::new())
        {
            self.emptied = light;
        }
    }

    /// Where in the queue the light with the fewest words is, among the first `MOST_COMPARED`.
    fn index_of_fewest(&self) -> usize {
        let lights = self.queue.waiting();
        let mut best = 0;
        let mut fewest = usize::MAX;
        for at in 0..lights.len().min(MOST_COMPARED) {
            if let Some(row) = self.rows.get(lights[at]) {
                let words = row.count();
                if words < fewest {
                    best = at;
                    fewest = words;
                }
                if words == 0 {
                    return best;
                }
            }
        }
        best
    }

    /// Where in the queue the light to process next is; `last` is where the last one was. A light with few
    /// words removes most letters, so it comes first. This decides the order of stripping only, so the
    /// contract promises nothing.
    pub(crate) fn index_of_next(&self, last: usize) -> usize {
        if self.queue.has_urgent() {
            return last;
        }
        self.index_of_fewest()
    }

    /// Strips the net: processes queued lights until the words and letters left support one another.
    pub(crate) fn strip_queued<R: Rows>(&mut self, rows: &mut R, board: &Board<'_>)
        requires net { IsStrippable board.now (R.entries rows.old) self.old }
        requires queue { IsQueue self.old }
        ensures entries { R.entries rows.new ≡ R.entries rows.old }
        ensures risen { R.ticks rows.old ≤ R.ticks rows.new }
        ensures step { IsStep board.now (R.entries rows.old) self.old self.new }
        ensures filled { FillsNet board.now (R.entries rows.old) self.old self.new }
        ensures cost { StripsWithin board.now (R.entries rows.old) self.old (R.ticks rows.old) (R.ticks rows.new) }
    {
        self.emptied = NOWHERE;
        let mut at = self.index_of_next(NOWHERE);
        while let Some(light) = self.queue.take_at(at) {
            self.see_to(rows, board, light);
            self.note_emptied(board, light);
            at = self.index_of_next(at);
        }
    }
}
