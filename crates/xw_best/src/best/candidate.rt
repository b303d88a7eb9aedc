//! A fill that is known beforehand: its letters are entered at once, and then it is checked.
ghost use Rattle.std.specs.Prelude.{◌≡◌, All, Ok, length, true, is_some, IfOk, IfSome};
ghost use Rattle.xw_letters.specs.Letter.{IsLetter};
ghost use Rattle.xw_search.specs.OfState.{light_count, IsPlan};
ghost use Rattle.xw_best.specs.Inner.OfState.{AreFresh};
ghost use Rattle.xw_search.specs.Position.{DiffersInEntries};
ghost use Rattle.xw_search.specs.NamedFill.{flags, entry_in};
ghost use Rattle.xw_search.specs.Progress.{entries_of, HasEntered};
ghost use Rattle.xw_search.specs.declared.filling.Filling.TheVariants.{Filled};
ghost use Rattle.xw_best.specs.Inner.Candidate.{IsForTarget, AreListed, IsComplete};

use std::alloc::{AllocError, Global};
use xw_feas::feasible::Feasible;
use xw_grid::cell::Cell;
use xw_letters::letter::Letter;
use xw_search::checks::first_dead;
use xw_search::lights::{board, light_count};
use xw_search::listing::is_unlisted;
use xw_search::plan::Plan;
use xw_search::repeats::has_repeat;
use xw_search::writing::write;

/// The entry of a cell in a list of entries; `None` if the list is too short.
fn entry_of(entries: &[Option<Letter>], cell: usize) -> Option<Letter>
    ensures { IfSome result IsLetter }
{
    if cell >= entries.len() {
        return None;
    }
    let letter = entries[cell]?;
    let _ = letter.byte();
    Some(letter)
}

/// The cells to fill, each with its entry in a list.
pub fn written_of<E: Feasible>(
    alloc: Global,
    engine: &E,
    plan: &Plan,
    entries: &[Option<Letter>],
) -> Result<Vec<(Cell, Option<Letter>)>, AllocError>
    requires { IsPlan (E.state engine.now) plan.now }
    ensures { IfOk result (λ list. All (IsForTarget (flags plan.now.named.items) (E.state engine.now)) list.items) }
{
    let mut list = Vec::new(alloc);
    let targets = plan.targets.as_slice();
    for index in 0..targets.len() {
        let target = targets[index];
        let cell = engine.grid().cell_at(target);
        list.push((cell, entry_of(entries, target)))?;
    }
    Ok(list)
}

/// Whether each of these cells has a letter.
fn are_entered<E: Feasible>(engine: &E, cells: &[usize]) -> bool
    ensures { result ≡ true → All (λ cell. is_some (entry_in (entries_of (E.state engine.now)) cell) ≡ true) cells.now }
{
    for index in 0..cells.len() {
        if board(engine).entry(cells[index]).is_none() {
            return false;
        }
    }
    true
}

/// Whether each flagged light that is wholly entered spells an active word.
fn are_listed<E: Feasible>(engine: &E, flagged: &[bool]) -> bool
    requires { length flagged.now ≡ light_count (E.state engine.now) }
    ensures { result ≡ true → AreListed (flags flagged.now) (E.state engine.now) }
{
    for light in 0..light_count(engine) {
        if flagged[light] && is_unlisted(engine, light) {
            return false;
        }
    }
    true
}

/// Whether the grid holds a fill, if only cells of the plan have new entries. `fresh` has a flag for each light: whether
/// it was not wholly entered before. If an allocation fails, it is taken for none.
fn is_complete<E: Feasible>(alloc: Global, engine: &E, plan: &Plan, fresh: &[bool]) -> bool
    requires watched { length plan.now.watched.items ≡ light_count (E.state engine.now) }
    requires fresh { length fresh.now ≡ light_count (E.state engine.now) }
    ensures { result ≡ true → IsComplete plan.now fresh.now (E.state engine.now) }
{
    if !are_entered(engine, &plan.targets) || !are_listed(engine, fresh) {
        return false;
    }
    if first_dead(engine, &plan.watched).is_some() {
        return false;
    }
    match has_repeat(alloc, engine) {
        Ok(repeats) => !repeats,
        Err(_) => false,
    }
}

/// Enters in each cell to fill its entry in a list, in one edit. Returns whether the grid then holds a fill. `fresh` has a flag
/// for each light: whether it was not wholly entered.
pub fn enter<E: Feasible>(
    alloc: Global,
    engine: &mut E,
    plan: &Plan,
    fresh: &[bool],
    entries: &[Option<Letter>],
) -> Result<bool, AllocError>
    requires plan { IsPlan (E.state engine.old) plan.now }
    requires fresh { AreFresh (E.state engine.old) fresh.now }
    ensures filled { result ≡ Ok true → HasEntered (flags plan.now.named.items) (E.state engine.old) (E.state engine.new) Filled }
    ensures entries { DiffersInEntries (E.state engine.old) (E.state engine.new) }
    ensures count { E.placed engine.new ≡ E.placed engine.old }
{
    let list = written_of(alloc, engine, plan, entries)?;
    write(engine, &list);
    Ok(is_complete(alloc, engine, plan, fresh))
}
