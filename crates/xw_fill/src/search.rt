//! The search for a fill: depth first, with the words of each light in dictionary order.
ghost use Rattle.std.specs.Prelude.{◌≡◌, ◌+◌, ◌≤◌, false, suc, [], length, Ok, IfOk, IfErr, OnOk, OnErr};
ghost use Rattle.xw_search.specs.Position.{DiffersInEntries};
ghost use Rattle.xw_fill.specs.OfState.{is_dead, outlook};
ghost use Rattle.xw_search.specs.OfState.{light_count};
ghost use Rattle.xw_fill.specs.Inner.OfState.{AreEntered};
ghost use Rattle.xw_search.specs.Stack.{first_or, LeadThrough};
ghost use Rattle.xw_fill.specs.Inner.Tries.{CanBeMade, IsMade};
ghost use Rattle.xw_fill.specs.Inner.Stepping.{HasStepped};
ghost use Rattle.xw_fill.specs.Inner.EnteredSince.{noted, StayNoted};
ghost use Rattle.xw_fill.specs.Filling.{IsFilling, HasFill, UnlessFilled, unless_repeated};

use crate::entered_since::{has_new_repeat, note_entered};
use crate::scan::{Scan, next_word_index, scan_lights};
use crate::tries::Try;
use std::alloc::{AllocError, Global};
use xw_feas::edit::Refusal;
use xw_feas::feasible::Feasible;
use xw_feas::progress::News;
use xw_feas::searchable::Searchable;
use xw_grid::fault::GridFault;
use xw_search::filling::Filling;
use xw_search::lights::light_count;
use xw_search::repeats::has_repeat;
use xw_search::stack::Stack;

/// The next step of the search.
/// - `Done`: the position is a fill.
/// - `Spent`: go back, no word is left to try here.
/// - `Words(light, from)`: try the feasible words of `light` from index `from` on.
#[derive(Clone, Copy)]
pub enum Next {
    Done,
    Spent,
    Words(usize, usize),
}

/// Returns the next step at a position where every light has a feasible word. `chosen` is the chosen light; `repeats`
/// says whether the grid repeats a word.
fn open_outlook(chosen: Option<usize>, repeats: bool) -> Next
    ensures { result ≡ unless_repeated repeats chosen }
{
    if repeats {
        return Next::Spent;
    }
    match chosen {
        None => Next::Done,
        Some(light) => Next::Words(light, 0),
    }
}

/// Returns the first step of the search, and notes which lights are wholly entered. The old notes do not matter.
fn begin<E: Feasible>(
    alloc: Global,
    engine: &E,
    since: &mut [Option<usize>],
) -> Result<Next, AllocError>
    requires { length since.old ≡ light_count (E.state engine.now) }
    ensures long { length since.new ≡ length since.old }
    ensures entered { AreEntered (E.state engine.now) (noted since.new 1) }
    ensures next { IfOk result (λ next. next ≡ outlook (E.state engine.now)) }
{
    note_entered(engine, since, 0);
    match scan_lights(engine, since) {
        Scan::Blocked => Ok(Next::Spent),
        Scan::Open(chosen) => {
            let repeats = has_repeat(alloc, engine)?;
            Ok(open_outlook(chosen, repeats))
        }
    }
}

/// Places a feasible word at a position that is not dead, and returns the next step. Returns `None`, and changes
/// nothing, if this leaves a light without a feasible word. Returns an error if an allocation fails, and then changes nothing.
fn try_word<E: Searchable>(
    engine: &mut E,
    stack: &mut Stack<Try>,
    since: &mut [Option<usize>],
    watched: &[bool],
    tried: Try,
) -> Result<Option<Next>, AllocError>
    requires may { CanBeMade tried (E.state engine.old) }
    requires alive { is_dead (E.state engine.old) ≡ false }
    requires stands { LeadThrough IsMade stack.old.placements.items (E.levels engine.old) (E.state engine.old) }
    requires long { length since.old ≡ light_count (E.state engine.old) }
    requires entered { AreEntered (E.state engine.old) (noted since.old (suc (length stack.old.placements.items))) }
    ensures long { length since.new ≡ length since.old }
    ensures stay { StayNoted (suc (length stack.old.placements.items)) since.old since.new }
    ensures entries { DiffersInEntries (E.state engine.old) (E.state engine.new) }
    ensures stands { LeadThrough IsMade stack.new.placements.items (E.levels engine.new) (E.state engine.new) }
    ensures start { first_or (E.levels engine.new) (E.state engine.new) ≡ first_or (E.levels engine.old) (E.state engine.old) }
    ensures led { IfOk result (HasStepped tried (E.state engine.old) stack.old.placements.items since.old (E.state engine.new) stack.new.placements.items since.new) }
    ensures count { OnOk result (E.placed engine.new ≡ suc (E.placed engine.old)) }
    ensures none { OnErr result (E.placed engine.new ≡ E.placed engine.old) }
{
    let dead = stack.try_place(engine, tried, watched)?;
    if let Some(_light) = dead {
        return Ok(None);
    }
    let placement = stack.len();
    note_entered(engine, since, placement);
    Ok(Some(match scan_lights(engine, since) {
        Scan::Blocked => Next::Spent,
        Scan::Open(chosen) => open_outlook(chosen, has_new_repeat(engine, since, placement)),
    }))
}

/// Fills the grid with at most `limit` placements, `first` being the first step. The engine changes only for `Filled`.
/// The stack is empty. `since` notes the wholly entered lights.
fn fill_from<E: Searchable>(
    engine: &mut E,
    stack: &mut Stack<Try>,
    since: &mut [Option<usize>],
    watched: &[bool],
    first: Next,
    limit: u64,
) -> Result<Filling, AllocError>
    requires first { first ≡ outlook (E.state engine.old) }
    requires empty { stack.old.placements.items ≡ [] }
    requires levels { E.levels engine.old ≡ [] }
    requires long { length since.old ≡ light_count (E.state engine.old) }
    requires entered { AreEntered (E.state engine.old) (noted since.old 1) }
    ensures found { IfOk result (IsFilling limit (E.state engine.old) (E.state engine.new)) }
    ensures fill { IfOk result (HasFill (E.state engine.old) (E.state engine.new)) }
    ensures unchanged { OnErr result (E.state engine.new ≡ E.state engine.old) }
    ensures within { E.placed engine.new ≤ limit + E.placed engine.old }
    ensures limit { result ≡ Ok Filling.Limit → E.placed engine.new ≡ limit + E.placed engine.old }
{
    let mut used = 0;
    let mut next = first;
    'search: loop {
        match next {
            Next::Done => return Ok(Filling::Filled),
            Next::Spent => match stack.back(engine) {
                None => return Ok(Filling::NoFill),
                Some(tried) => next = Next::Words(tried.light, tried.index + 1),
            },
            Next::Words(light, from) => match next_word_index(engine, light, from) {
                None => next = Next::Spent,
                Some(index) => {
                    if used == limit {
                        stack.reset(engine);
                        return Ok(Filling::Limit);
                    }
                    used += 1;
                    engine.tell(News::Placed { made: used, limit });
                    let tried = Try { light, index };
                    let Ok(led) = try_word(engine, stack, since, watched, tried) else {
                        stack.reset(engine);
                        return Err(AllocError);
                    };
                    match led {
                        Some(placed) => next = placed,
                        None => next = Next::Words(light, index + 1),
                    }
                }
            },
        }
    }
}

/// Fills the grid with at most `limit` placements, and makes all of them before it answers `Limit`. The state changes
/// only for `Filled`. Returns `Memory` if an allocation fails.
pub fn fill<E: Searchable>(alloc: Global, engine: &mut E, limit: u64) -> Result<Filling, Refusal>
    ensures found { IfOk result (IsFilling limit (E.state engine.old) (E.state engine.new)) }
    ensures fill { IfOk result (HasFill (E.state engine.old) (E.state engine.new)) }
    ensures memory { IfErr result (λ refusal. refusal ≡ Refusal.Grid GridFault.Memory) }
    ensures unchanged { OnErr result (E.state engine.new ≡ E.state engine.old) }
    ensures answers { IfOk result (λ filling. UnlessFilled filling (E.answers engine.new ≡ E.answers engine.old)) }
    ensures kept { OnErr result (E.answers engine.new ≡ E.answers engine.old) }
    ensures within { E.placed engine.new ≤ limit + E.placed engine.old }
    ensures limit { result ≡ Ok Filling.Limit → E.placed engine.new ≡ limit + E.placed engine.old }
{
    let count = light_count(engine);
    let mut since = vec![in alloc; None; count]?;
    let all = vec![in alloc; true; count]?;
    let first = begin(alloc, engine, since.as_mut_slice())?;
    let mut stack: Stack<Try> = Stack::new(alloc, count)?;
    stack.begin(engine);
    let since = since.as_mut_slice();
    Ok(fill_from(engine, &mut stack, since, &all, first, limit)?)
}
