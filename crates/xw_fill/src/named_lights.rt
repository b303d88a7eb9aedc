//! Fills the named lights letter by letter, first where the search failed before.
ghost use Rattle.std.specs.Prelude.{◌≡◌, ◌≤◌, ◌-◌, true, IfOk, IfErr, OnOk, OnErr};
ghost use Rattle.xw_search.specs.Allowance.{IsCounted, HasPlaced, HasPlacedWithin};
ghost use Rattle.xw_fill.specs.Filling.{IsFilling};
ghost use Rattle.xw_search.specs.NamedFill.{flags, is_named, IsAutofilled, IsRefusal};

use crate::search::fill;
use std::alloc::{AllocError, Global};
use xw_feas::edit::Refusal;
use xw_feas::feasible::Feasible;
use xw_feas::searchable::Searchable;
use xw_grid::cell::LightName;
use xw_grid::fault::GridFault;
use xw_search::allowance::Allowance;
use xw_search::filling::Filling;
use xw_search::flags::{all_lights, flags_of};
use xw_search::letters::{fill_planned, stack_for};
use xw_search::lights::light_count;
use xw_search::plan::Plan;
use xw_search::run::Effort;

/// How many placements the search of `fill` gets first with seed 0, so that the good words of a sorted list come
/// first.
const FIRST: u64 = 500;

/// The hint that a search leaves. The next search continues from it if it has the same seed and lights. A hint decides
/// only the order in which a search tries cells and letters.
#[derive(Drop)]
pub struct Hint {
    names: Vec<LightName>,
    effort: Effort,
}

impl Hint {
    /// The hint for a search that has not begun.
    fn new<E: Feasible>(
        alloc: Global,
        engine: &E,
        names: &[LightName],
        seed: u64,
    ) -> Result<Hint, AllocError> {
        let names = Vec::from_slice(alloc, names)?;
        let effort = Effort::new(alloc, light_count(engine), seed, engine.bank().is_graded())?;
        Ok(Hint { names, effort })
    }

    /// Whether the hint is from a search with these lights and this seed.
    fn is_of(&self, names: &[LightName], seed: u64) -> bool {
        self.effort.seed == seed && self.names.as_slice() == names
    }
}

/// Fills the lights with a flag.
fn fill_flagged<E: Searchable>(
    alloc: Global,
    engine: &mut E,
    named: Vec<bool>,
    effort: &mut Effort,
    allowance: &mut Allowance,
) -> Result<Filling, AllocError>
    ensures counted { IsCounted allowance.old allowance.new (E.state engine.old) (E.state engine.new) }
    ensures placed { OnOk result (HasPlaced allowance.old allowance.new (E.placed engine.old) (E.placed engine.new)) }
    ensures within { HasPlacedWithin allowance.old allowance.new (E.placed engine.old) (E.placed engine.new) }
    ensures limit { result ≡ Ok Filling.Limit → allowance.new.made ≡ allowance.old.until }
    ensures ok { IfOk result (IsAutofilled (flags named.items) (E.state engine.old) (E.state engine.new)) }
    ensures unchanged { OnErr result (E.state engine.new ≡ E.state engine.old) }
{
    let plan = Plan::of(alloc, engine, named)?;
    let mut stack = stack_for(alloc, &plan)?;
    fill_planned(alloc, engine, &mut stack, &plan, effort, allowance)
}

/// How many placements the search of `fill` gets before the search by letters. It gets none with a seed other than 0,
/// which asks for another fill. It gets none if words have different grades, since only the search by letters uses
/// grades.
fn first_share(limit: u64, effort: &Effort) -> u64
    ensures { result ≤ limit }
{
    if effort.seed == 0 && !effort.graded {
        limit.min(FIRST)
    } else {
        0
    }
}

/// Fills all lights by letters.
fn all_by_letters<E: Searchable>(
    alloc: Global,
    engine: &mut E,
    effort: &mut Effort,
    allowance: &mut Allowance,
) -> Result<Filling, AllocError>
    ensures counted { IsCounted allowance.old allowance.new (E.state engine.old) (E.state engine.new) }
    ensures placed { OnOk result (HasPlaced allowance.old allowance.new (E.placed engine.old) (E.placed engine.new)) }
    ensures within { HasPlacedWithin allowance.old allowance.new (E.placed engine.old) (E.placed engine.new) }
    ensures limit { result ≡ Ok Filling.Limit → allowance.new.made ≡ allowance.old.limit }
    ensures ok { IfOk result (IsAutofilled (λ light. true) (E.state engine.old) (E.state engine.new)) }
    ensures unchanged { OnErr result (E.state engine.new ≡ E.state engine.old) }
{
    let named = all_lights(alloc, engine)?;
    allowance.grant_all();
    fill_flagged(alloc, engine, named, effort, allowance)
}

/// Fills all lights by the search of `fill`. All placements that it may make count as made, also if an allocation fails.
fn fill_by_words<E: Searchable>(
    alloc: Global,
    engine: &mut E,
    allowance: &mut Allowance,
) -> Result<Filling, Refusal>
    ensures counted { IsCounted allowance.old allowance.new (E.state engine.old) (E.state engine.new) }
    ensures placed { result ≡ Ok Filling.Limit → HasPlaced allowance.old allowance.new (E.placed engine.old) (E.placed engine.new) }
    ensures within { HasPlacedWithin allowance.old allowance.new (E.placed engine.old) (E.placed engine.new) }
    ensures until { allowance.new.until ≡ allowance.old.until }
    ensures made { OnOk result (allowance.new.made ≡ allowance.new.until) }
    ensures found { IfOk result (IsFilling (allowance.old.until - allowance.old.made) (E.state engine.old) (E.state engine.new)) }
    ensures ok { IfOk result (IsAutofilled (λ light. true) (E.state engine.old) (E.state engine.new)) }
    ensures memory { IfErr result (λ refusal. refusal ≡ Refusal.Grid GridFault.Memory) }
    ensures unchanged { OnErr result (E.state engine.new ≡ E.state engine.old) }
{
    let filling = fill(alloc, engine, allowance.share());
    allowance.count_all();
    filling
}

/// Fills all lights: first by the search of `fill`, then by letters.
fn fill_all<E: Searchable>(
    alloc: Global,
    engine: &mut E,
    effort: &mut Effort,
    allowance: &mut Allowance,
) -> Result<Filling, Refusal>
    ensures counted { IsCounted allowance.old allowance.new (E.state engine.old) (E.state engine.new) }
    ensures placed { result ≡ Ok Filling.Limit → HasPlaced allowance.old allowance.new (E.placed engine.old) (E.placed engine.new) }
    ensures within { HasPlacedWithin allowance.old allowance.new (E.placed engine.old) (E.placed engine.new) }
    ensures limit { result ≡ Ok Filling.Limit → allowance.new.made ≡ allowance.old.limit }
    ensures ok { IfOk result (IsAutofilled (λ light. true) (E.state engine.old) (E.state engine.new)) }
    ensures memory { IfErr result (λ refusal. refusal ≡ Refusal.Grid GridFault.Memory) }
    ensures unchanged { OnErr result (E.state engine.new ≡ E.state engine.old) }
{
    allowance.grant(first_share(allowance.left(), effort));
    match fill_by_words(alloc, engine, allowance)? {
        Filling::Filled => return Ok(Filling::Filled),
        Filling::NoFill => return Ok(Filling::NoFill),
        Filling::Limit => {}
    }
    if allowance.left() == 0 {
        return Ok(Filling::Limit);
    }
    Ok(all_by_letters(alloc, engine, effort, allowance)?)
}

/// Fills the named lights, or all lights if the list of names is empty. A search that continues an earlier one tries
/// letters only.
fn fill_named<E: Searchable>(
    alloc: Global,
    engine: &mut E,
    names: &[LightName],
    effort: &mut Effort,
    goes_on: bool,
    allowance: &mut Allowance,
) -> Result<Filling, Refusal>
    ensures counted { IsCounted allowance.old allowance.new (E.state engine.old) (E.state engine.new) }
    ensures placed { result ≡ Ok Filling.Limit → HasPlaced allowance.old allowance.new (E.placed engine.old) (E.placed engine.new) }
    ensures within { HasPlacedWithin allowance.old allowance.new (E.placed engine.old) (E.placed engine.new) }
    ensures limit { result ≡ Ok Filling.Limit → allowance.new.made ≡ allowance.old.limit }
    ensures ok { IfOk result (IsAutofilled (is_named (E.state engine.old) names.now) (E.state engine.old) (E.state engine.new)) }
    ensures refused { IfErr result (IsRefusal (E.state engine.old) names.now) }
    ensures unchanged { OnErr result (E.state engine.new ≡ E.state engine.old) }
{
    if names.is_empty() {
        return Ok(if goes_on {
            all_by_letters(alloc, engine, effort, allowance)?
        } else {
            fill_all(alloc, engine, effort, allowance)?
        });
    }
    let named = flags_of(alloc, engine, names)?;
    allowance.grant_all();
    Ok(fill_flagged(alloc, engine, named, effort, allowance)?)
}

/// The effort of a hint if it is from a search with these lights and this seed.
fn effort_of<'a>(
    hint: &'a mut Option<Hint>,
    names: &[LightName],
    seed: u64,
) -> Option<&'a mut Effort> {
    match hint {
        Some(hint) if hint.is_of(names, seed) => Some(&mut hint.effort),
        _ => None,
    }
}

/// Fills the named lights, or all lights if the list of names is empty. The seed decides the order of ties, so another
/// seed leads to another fill. The state changes only for `Filled`.
///
/// The search makes no more placements of words or letters than it may, and all of them before it answers `Limit`.
///
/// A search that ends with `Limit` leaves a hint: which lights fail, and how long runs are. The next search with the
/// same names and seed continues with it, from the grid as it stands. So slices that get longer come about as far as a
/// single search. Pass `None`, or the hint of a search from the same state: the answer
/// depends on the state, the names, the allowance, the seed and the hint alone. An error leaves the hint as it was.
///
/// Returns `NoLight` if one of the names belongs to no light, and `Memory` if an allocation fails.
pub fn autofill<E: Searchable>(
    alloc: Global,
    engine: &mut E,
    names: &[LightName],
    allowance: &mut Allowance,
    seed: u64,
    hint: &mut Option<Hint>,
) -> Result<Filling, Refusal>
    ensures counted { IsCounted allowance.old allowance.new (E.state engine.old) (E.state engine.new) }
    ensures placed { result ≡ Ok Filling.Limit → HasPlaced allowance.old allowance.new (E.placed engine.old) (E.placed engine.new) }
    ensures within { HasPlacedWithin allowance.old allowance.new (E.placed engine.old) (E.placed engine.new) }
    ensures limit { result ≡ Ok Filling.Limit → allowance.new.made ≡ allowance.new.limit }
    ensures ok { IfOk result (IsAutofilled (is_named (E.state engine.old) names.now) (E.state engine.old) (E.state engine.new)) }
    ensures refused { IfErr result (IsRefusal (E.state engine.old) names.now) }
    ensures unchanged { OnErr result (E.state engine.new ≡ E.state engine.old) }
{
    if let Some(effort) = effort_of(hint, names, seed) {
        let filling = fill_named(alloc, engine, names, effort, true, allowance)?;
        if filling != Filling::Limit {
            *hint = None;
        }
        return Ok(filling);
    }
    let mut begun = Hint::new(alloc, engine, names, seed)?;
    let filling = fill_named(alloc, engine, names, &mut begun.effort, false, allowance)?;
    *hint = if filling == Filling::Limit {
        Some(begun)
    } else {
        None
    };
    Ok(filling)
}
