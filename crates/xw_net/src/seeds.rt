//! Marks the seeds: the lights where a chain starts.
ghost use Rattle.std.specs.Prelude.{◌≡◌, ℕ, ◌+◌, ◌*◌, ◌^◌, ◌<◌, ◌≤◌, true, IfSome, Some, length};
ghost use Rattle.xw_feas.specs.Feasible.{may_stand};
ghost use Rattle.xw_feas.specs.Flags.{set_has};
ghost use Rattle.xw_net.specs.Spread.{HasAll, IsThrough, KeepsSpread, OtherCellsStay};
ghost use Rattle.xw_net.specs.Gone.{IsLacking};
ghost use Rattle.xw_net.specs.Begin.{IsNewLight};
ghost use Rattle.xw_net.specs.Worklist.{Grows, Adds, MarksOnly, HasLights};
ghost use Rattle.xw_net.specs.Marks.{AreByCell};

use crate::spread::{letters_allowed, raise};
use crate::worklist::Worklist;
use xw_feas::board::Board;
use xw_grid::lights::Lights;
use xw_letters::letter_set::LetterSet;

/// Puts the light on the list, if there is one.
pub(crate) fn mark_found(found: Option<usize>, list: &mut Worklist)
    requires { IfSome found (λ light. light < length list.old.marks) }
    ensures { Adds (λ light. found ≡ Some light) list.old list.new }
{
    if let Some(light) = found {
        list.insert(light);
    }
}

/// Puts the lights through a cell on the list.
pub(crate) fn mark_through(board: &Board<'_>, cell: usize, list: &mut Worklist)
    requires cell { cell < length board.now.open_cells }
    requires list { HasLights board.now list.old }
    ensures { Adds (IsThrough board.now cell) list.old list.new }
{
    let (across, down) = board.lights_at(cell);
    mark_found(across, list);
    mark_found(down, list);
}

/// Gives an edited cell exactly the letters that it allows, and marks the lights through it as
/// seeds.
pub fn free_cell(board: &Board<'_>, cell: usize, letters: &mut [LetterSet], chain: &mut Worklist)
    requires cell { cell < length board.now.open_cells }
    requires letters { AreByCell board.now letters.old }
    requires chain { HasLights board.now chain.old }
    ensures len { length letters.new ≡ length letters.old }
    ensures chain { Adds (IsThrough board.now cell) chain.old chain.new }
    ensures here { (letter : ℕ) → set_has letters.new cell letter ≡ may_stand board.now cell letter }
    ensures others { OtherCellsStay cell letters.old letters.new }
    ensures spread { KeepsSpread board.now letters.old chain.old letters.new chain.new }
{
    letters[cell] = letters_allowed(board, cell);
    mark_through(board, cell, chain);
}

/// Gives a cell of a removed light all letters that it allows. If it gets a letter back, marks the
/// lights through it as seeds.
pub fn raise_cell(board: &Board<'_>, cell: usize, letters: &mut [LetterSet], chain: &mut Worklist)
    requires cell { cell < length board.now.open_cells }
    requires letters { AreByCell board.now letters.old }
    requires chain { HasLights board.now chain.old }
    ensures len { length letters.new ≡ length letters.old }
    ensures grows { Grows chain.old chain.new }
    ensures within { MarksOnly (λ light. IsLacking board.now letters.old cell × IsThrough board.now cell light) chain.old chain.new }
    ensures all { HasAll board.now (set_has letters.new) cell }
    ensures spread { KeepsSpread board.now letters.old chain.old letters.new chain.new }
{
    if raise(letters, cell, letters_allowed(board, cell)) {
        mark_through(board, cell, chain);
    }
}

/// Queues and marks the lights whose cells no light before the edit has.
pub(crate) fn mark_new(lights: &Lights, before: &Lights, queue: &mut Worklist, chain: &mut Worklist)
    requires queue { length lights.now ≤ length queue.old.marks }
    requires chain { length lights.now ≤ length chain.old.marks }
    ensures queue { Adds (IsNewLight before.now lights.now) queue.old queue.new }
    ensures chain { Adds (IsNewLight before.now lights.now) chain.old chain.new }
{
    for light in 0..lights.len() {
        if lights.same(light, before).is_some() {
            continue;
        }
        queue.insert(light);
        chain.insert(light);
    }
}

/// Marks all lights.
pub(crate) fn mark_all(board: &Board<'_>, chain: &mut Worklist)
    requires { HasLights board.now chain.old }
    ensures { Adds (λ light. light < length board.now.lights) chain.old chain.new }
{
    for light in 0..board.light_count() {
        chain.insert(light);
    }
}
