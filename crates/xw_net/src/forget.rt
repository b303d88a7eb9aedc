//! Forgets supports that an edit may have made invalid.
ghost use Rattle.std.specs.Prelude.{◌≡◌, ◌⊎◌, ℕ, ◌+◌, ◌-◌, ◌*◌, ◌^◌, ◌<◌, ◌≤◌, false, true, nat_le, List, Option, is_some, length, slice_index};
ghost use Rattle.xw_grid.specs.declared.lights.Light.{Light};
ghost use Rattle.xw_feas.specs.Board.{Board as SpecBoard, light_at};
ghost use Rattle.xw_feas.specs.Flags.{set_has};
ghost use Rattle.xw_net.specs.Marks.{slot_at, AreSlotsApart, AreBySlot, AreHeld, HasFewCells};
ghost use Rattle.xw_net.specs.Change.{before_of, fields_of};
ghost use Rattle.xw_net.specs.Renumber.{same_before};
ghost use Rattle.xw_net.specs.Inner.Forget.{cut, lose, lost_from as spec_lost_from, lost_at, nowhere, ChangesHeld, KeepsHeld, KeepsFewer, ForgetNone, Forgets};

use crate::light_position::position_of;
use crate::room::NO_WORD;
use xw_feas::board::Board;
use xw_feas::notes::Notes;
use xw_grid::lights::Lights;
use xw_letters::letter_set::LetterSet;
use xw_words::rows::Rows;

/// Forgets the supports held at a slot whose index is at least `first`.
fn forget_slot(slot: usize, first: usize, held: &mut [u32])
    requires { 26 * slot + 26 ≤ length held.old }
    ensures len { length held.new ≡ length held.old }
    ensures here { (number : ℕ) → number < 26 → slice_index held.new (26 * slot + number) ≡ cut first (slice_index held.old (26 * slot + number)) }
    ensures others { (at : ℕ) → (at < 26 * slot) ⊎ (26 * slot + 26 ≤ at) → slice_index held.new at ≡ slice_index held.old at }
{
    for number in 0..26 {
        let at = 26 * slot + number;
        if first <= held[at] as usize {
            held[at] = NO_WORD;
        }
    }
}

/// Forgets the supports held at the slots of a light whose index is at least `first`, and clears
/// its pending letters. Does nothing if `first` is `NO_WORD`.
fn forget_light(
    board: &Board<'_>,
    light: usize,
    first: usize,
    held: &mut [u32],
    pending: &mut [LetterSet],
)
    requires few { HasFewCells board.now }
    requires light { light < length board.now.lights }
    requires apart { AreSlotsApart board.now }
    requires held { AreHeld board.now held.old }
    requires pending { AreBySlot board.now pending.old }
    ensures held { length held.new ≡ length held.old }
    ensures pending { length pending.new ≡ length pending.old }
    ensures cuts { ChangesHeld board.now light (lose first) held.old held.new }
    ensures others { KeepsHeld board.now light held.old held.new }
    ensures less { KeepsFewer pending.old pending.new }
    ensures cleared { (position letter : ℕ) → first < nowhere → position < length (light_at board.now light) → set_has pending.new (slot_at board.now light position) letter ≡ false }
{
    if first >= NO_WORD as usize {
        return;
    }
    for position in 0..board.light(light).len() {
        let slot = position_of(board, light, position).slot;
        forget_slot(slot, first, held);
        pending[slot] = LetterSet::new();
    }
}

/// The least index of a support that a light has to forget: 0 for a new light, the index of the
/// changed word if that is the last known word of the light's length, and else `NO_WORD`.
fn lost_from(word: Option<(usize, usize)>, has_stayed: bool, size: usize, known: usize) -> usize
    ensures { (same : Option ℕ) → has_stayed ≡ is_some same → result ≡ spec_lost_from word same size known }
{
    if !has_stayed {
        return 0;
    }
    match word {
        Some((len, index)) if len == size && (known <= index || known - 1 == index) => index,
        _ => NO_WORD as usize,
    }
}

/// Whether the word of this length and index is the last known one, or past it.
fn is_last<R: Rows>(rows: &R, len: usize, index: usize) -> bool
    ensures { result ≡ nat_le (length (R.entries rows.now len)) (index + 1) }
{
    let known = rows.known(len);
    known <= index || known - 1 == index
}

/// Whether no light has to forget a support: no light is new, and no index of a word may have got
/// another meaning.
fn forgets_none<R: Rows>(rows: &R, change: &Notes) -> bool
    ensures { (board : SpecBoard) (lights : List Light) → result ≡ true → ForgetNone (fields_of lights change.now) board lights (R.entries rows.now) }
{
    if change.before().is_some() {
        return false;
    }
    match change.word() {
        Some((len, index)) => !is_last(rows, len, index),
        None => true,
    }
}

/// Whether a light has the same cells as one before the edit.
fn has_stayed(lights: &Lights, change: &Notes, light: usize) -> bool
    requires { light < length lights.now }
    ensures { result ≡ is_some (same_before (before_of lights.now change.now) lights.now light) }
{
    match change.before() {
        Some(before) => lights.same(light, before).is_some(),
        None => true,
    }
}

/// The least index of a support that a light of a board has to forget after an edit.
fn lost_of<R: Rows>(
    rows: &R,
    board: &Board<'_>,
    lights: &Lights,
    change: &Notes,
    light: usize,
) -> usize
    requires light { light < length board.now.lights }
    requires lights { length lights.now ≡ length board.now.lights }
    ensures { result ≡ lost_at (fields_of lights.now change.now) board.now lights.now (R.entries rows.now) light }
{
    let size = board.light(light).len();
    let known = rows.known(size);
    lost_from(
        change.word(),
        has_stayed(lights, change, light),
        size,
        known,
    )
}

/// Forgets, for each light, the supports that may be invalid after an edit.
pub(crate) fn forget_lights<R: Rows>(
    rows: &R,
    board: &Board<'_>,
    lights: &Lights,
    change: &Notes,
    held: &mut [u32],
    pending: &mut [LetterSet],
)
    requires lights { length lights.now ≡ length board.now.lights }
    requires few { HasFewCells board.now }
    requires apart { AreSlotsApart board.now }
    requires held { AreHeld board.now held.old }
    requires pending { AreBySlot board.now pending.old }
    ensures { Forgets board.now (lost_at (fields_of lights.now change.now) board.now lights.now (R.entries rows.now)) held.old held.new pending.old pending.new }
{
    if forgets_none(rows, change) {
        return;
    }
    for light in 0..board.light_count() {
        let first = lost_of(rows, board, lights, change, light);
        forget_light(board, light, first, held, pending);
    }
}
