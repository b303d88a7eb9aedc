//! The steps of an edit that update the net.
ghost use Rattle.std.specs.Prelude.{◌≡◌, ◌≤◌, length, true, false, is_some, IfErr, OnOk, OnErr, Ok};
ghost use Rattle.xw_feas.specs.Board.{board_of};
ghost use Rattle.xw_feas.specs.Pending.{pending_action, IsPending};
ghost use Rattle.xw_feas.specs.EngineState.{state_of};
ghost use Rattle.xw_feas.specs.State.{State, Action, after, IsRefused};
ghost use Rattle.xw_feas.specs.Effect.{is_idle_by, IsTold};
ghost use Rattle.xw_net.specs.Change.{fields_of, IsChange};
ghost use Rattle.xw_net.specs.Cost.{RoseWithinCost};
ghost use Rattle.xw_live.specs.Engine.{CanFollow, IsKept};
ghost use Rattle.xw_live.specs.Levels.{IsOfShape};
ghost use Rattle.xw_net.specs.Net.{IsSettledFor, IsAlike, sets_of};

use std::alloc::Global;
use xw_feas::edit::Refusal;
use xw_feas::engine_state::EngineState;
use xw_feas::pending::Pending;
use xw_letters::letter_set::LetterSet;
use xw_net::net::Net;
use xw_words::counted::Counted;
use xw_words::rows::Rows;

/// Updates a net to the answers for a grid and a dictionary after the edit that was noted. Returns the ticks so
/// far.
pub fn settle(net: &mut Net, spent: u64, position: &EngineState) -> u64
    requires { CanFollow position.now (fields_of position.now.lights position.now.notes) net.old }
    ensures risen { spent ≤ result }
    ensures kept { (before : State) (action : Action) →
        IsChange before (record { grid = position.now.grid; words = position.now.bank.words }) action (fields_of position.now.lights position.now.notes) →
        ∥ IsSettledFor before net.old ∥₁ →
        IsKept (record { grid = position.now.grid; words = position.now.bank.words }) net.new }
    ensures cost { (before : State) (action : Action) →
        IsChange before (record { grid = position.now.grid; words = position.now.bank.words }) action (fields_of position.now.lights position.now.notes) →
        ∥ IsSettledFor before net.old ∥₁ →
        RoseWithinCost before (record { grid = position.now.grid; words = position.now.bank.words }) action spent result }
{
    position.bank.well_formed();
    let mut rows = Counted::new(&position.bank, spent);
    net.settle(&mut rows, &position.notes, &position.grid, &position.lights);
    rows.spent()
}

/// Whether the last edit of a position changed nothing that an answer depends on.
pub fn is_idle(position: &EngineState) -> bool
    ensures { result ≡ is_idle_by position.now.notes.effect }
{
    position.notes.is_idle()
}

/// Copies the net's letters to `before`.
pub fn keep_letters(before: &mut Vec<LetterSet>, net: &Net)
    requires { length before.old.items ≡ length (sets_of net.now) }
    ensures { before.new.items ≡ sets_of net.now }
{
    before.as_mut_slice().copy_from_slice(net.letters());
}

/// Makes an edit that no rule refuses. It reserves first what the position and the net need. Returns `Memory` if an
/// allocation fails, and then changes nothing.
pub fn apply(
    net: &mut Net,
    position: &mut EngineState,
    alloc: Global,
    edit: &Pending<'_>,
) -> Result<(), Refusal>
    requires kept { IsKept (state_of position.old) net.old }
    requires pending { IsPending (state_of position.old) edit.now }
    ensures made { OnOk result (after (state_of position.old) (pending_action (state_of position.old) edit.now) ≡ Ok (state_of position.new)) }
    ensures told { OnOk result (IsTold (state_of position.old) position.new (pending_action (state_of position.old) edit.now)) }
    ensures cells { OnOk result (length position.new.grid.squares ≡ length position.old.grid.squares) }
    ensures shape { OnOk result (IsOfShape edit.now position.old.grid position.new.grid) }
    ensures follow { OnOk result (is_idle_by position.new.notes.effect ≡ false → CanFollow position.new (fields_of position.new.lights position.new.notes) net.new) }
    ensures refused { IfErr result (λ refusal. IsRefused (state_of position.old) (pending_action (state_of position.old) edit.now) refusal) }
    ensures same { OnErr result (state_of position.new ≡ state_of position.old) }
    ensures alike { IsAlike net.old net.new }
    ensures spare { OnErr result (net.new.spare ≡ net.old.spare) }
    ensures waits { OnOk result (is_idle_by position.new.notes.effect ≡ true → is_some net.new.spare ≡ false) }
{
    match edit {
        Pending::InPlace(edit) => position.commit(edit),
        Pending::Shape(edit) => {
            let (grid, lights) = position.shaped(alloc, edit)?;
            net.reserve(&lights, &position.bank, None)?;
            position.reshape(edit, grid, lights);
        }
        Pending::New(word, grade) => {
            position.reserve(word)?;
            net.reserve(&position.lights, &position.bank, Some(word.len()))?;
            position.append(word, *grade);
        }
    }
    Ok(())
}
