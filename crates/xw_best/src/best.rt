//! Searches for the best fill of the named lights: the one whose worst new word has the greatest grade.
mod candidate;
mod climb;
mod course;
mod grades;
mod pace;
mod parts;
mod probe;

ghost use Rattle.std.specs.Prelude.{◌≡◌, ℕ, OnErr, IfOk, IfErr};
ghost use Rattle.xw_search.specs.NamedFill.{flags, is_named, AreFlags, IsRefusal};
ghost use Rattle.xw_search.specs.Allowance.{IsCounted, HasPlacedWithin};
ghost use Rattle.xw_best.specs.Best.{IsBest};
ghost use Rattle.xw_best.specs.OneSearch.{IsOfOneSearch};

use crate::best::climb::Climb;
use crate::best::course::Course;
use std::alloc::{AllocError, Global};
use xw_feas::edit::Refusal;
use xw_feas::feasible::Feasible;
use xw_feas::searchable::Searchable;
use xw_grid::cell::LightName;
use xw_letters::letter::Letter;
use xw_search::allowance::Allowance;
use xw_search::flags::{all_lights, flags_of};
use xw_search::lights::{board, light_count};
use xw_search::plan::Plan;

/// What a search for the best fill found. With the words of grade `bound` and better there is no fill; a bound of 101
/// says nothing.
#[derive(Clone, Copy, Debug, PartialEq, Eq)]
pub enum Best {
    /// The grid holds a fill. `least` is the greatest grade at which it is one.
    Filled { least: u8, bound: u8 },
    /// There is no fill.
    NoFill,
    /// No fill was found within the limit.
    Limit { bound: u8 },
}

/// The hint that a search leaves. The next search continues from it if it has the same seed and lights and begins with
/// the same entries. A hint decides only which fill a search tries first, and at which grades and in which order it tries
/// letters.
#[derive(Drop)]
pub struct BestHint {
    names: Vec<LightName>,
    entries: Vec<Option<Letter>>,
    course: Course,
}

/// The entries of the cells, in reading order.
fn copied_entries<E: Feasible>(
    alloc: Global,
    engine: &E,
) -> Result<Vec<Option<Letter>>, AllocError> {
    let mut entries = Vec::new(alloc);
    for cell in 0..board(engine).cell_count() {
        entries.push(board(engine).entry(cell))?;
    }
    Ok(entries)
}

/// Whether the cells have these entries.
fn has_entries<E: Feasible>(engine: &E, entries: &[Option<Letter>]) -> bool {
    if entries.len() != board(engine).cell_count() {
        return false;
    }
    for cell in 0..entries.len() {
        if board(engine).entry(cell) != entries[cell] {
            return false;
        }
    }
    true
}

impl BestHint {
    /// The hint for a search that has not begun.
    fn new<E: Feasible>(
        alloc: Global,
        engine: &E,
        names: &[LightName],
        seed: u64,
    ) -> Result<BestHint, AllocError> {
        let names = Vec::from_slice(alloc, names)?;
        let entries = copied_entries(alloc, engine)?;
        let course = Course::new(alloc, light_count(engine), seed, engine.bank().is_graded())?;
        Ok(BestHint {
            names,
            entries,
            course,
        })
    }

    /// Whether the hint is from a search with these lights and this seed that began with the entries of the engine.
    fn is_of<E: Feasible>(&self, engine: &E, names: &[LightName], seed: u64) -> bool {
        self.course.seed() == seed
            && self.names.as_slice() == names
            && has_entries(engine, &self.entries)
    }
}

/// A flag for each light: whether it is named. An empty list names all lights.
fn named_flags<E: Feasible>(
    alloc: Global,
    engine: &E,
    names: &[LightName],
) -> Result<Vec<bool>, Refusal>
    ensures ok { IfOk result (λ named. AreFlags (E.state engine.now) names.now named.items) }
    ensures refused { IfErr result (IsRefusal (E.state engine.now) names.now) }
{
    if names.is_empty() {
        return Ok(all_lights(alloc, engine)?);
    }
    flags_of(alloc, engine, names)
}

/// Finds the best fill of the lights with a flag.
fn best_flagged<E: Searchable>(
    alloc: Global,
    engine: &mut E,
    named: Vec<bool>,
    course: &mut Course,
    allowance: &mut Allowance,
) -> Result<Best, AllocError>
    ensures counted { IsCounted allowance.old allowance.new (E.state engine.old) (E.state engine.new) }
    ensures within { HasPlacedWithin allowance.old allowance.new (E.placed engine.old) (E.placed engine.new) }
    ensures limit { (bound : ℕ) → result ≡ Ok (Best.Limit bound) → allowance.new.made ≡ allowance.new.limit }
    ensures ok { IfOk result (IsBest (flags named.items) (E.state engine.old) (E.state engine.new)) }
    ensures one { IfOk result (IsOfOneSearch E.state E.saved (flags named.items) engine.old engine.new allowance.old allowance.new) }
    ensures unchanged { OnErr result (E.state engine.new ≡ E.state engine.old) }
{
    let plan = Plan::of(alloc, engine, named)?;
    let mut climb = Climb::new(alloc, engine, plan, allowance)?;
    climb.run(alloc, engine, course, allowance)?;
    Ok(climb.finish(engine))
}

/// Finds the best fill of the named lights.
fn best_named<E: Searchable>(
    alloc: Global,
    engine: &mut E,
    names: &[LightName],
    hint: &mut BestHint,
    allowance: &mut Allowance,
) -> Result<Best, Refusal>
    ensures counted { IsCounted allowance.old allowance.new (E.state engine.old) (E.state engine.new) }
    ensures within { HasPlacedWithin allowance.old allowance.new (E.placed engine.old) (E.placed engine.new) }
    ensures limit { (bound : ℕ) → result ≡ Ok (Best.Limit bound) → allowance.new.made ≡ allowance.new.limit }
    ensures ok { IfOk result (IsBest (is_named (E.state engine.old) names.now) (E.state engine.old) (E.state engine.new)) }
    ensures one { IfOk result (IsOfOneSearch E.state E.saved (is_named (E.state engine.old) names.now) engine.old engine.new allowance.old allowance.new) }
    ensures refused { IfErr result (IsRefusal (E.state engine.old) names.now) }
    ensures unchanged { OnErr result (E.state engine.new ≡ E.state engine.old) }
{
    let named = named_flags(alloc, engine, names)?;
    Ok(best_flagged(alloc, engine, named, &mut hint.course, allowance)?)
}

/// The hint if it is from a search with these lights and this seed that began with the entries of the engine.
fn hint_of<'a, E: Feasible>(
    hint: &'a mut Option<BestHint>,
    engine: &E,
    names: &[LightName],
    seed: u64,
) -> Option<&'a mut BestHint> {
    match hint {
        Some(hint) if hint.is_of(engine, names, seed) => Some(hint),
        _ => None,
    }
}

/// Fills the named lights, or all lights if the list of names is empty, with the fill whose worst new word has the best
/// grade among all that a search finds. It tries no word below the least grade of active words, and leaves that grade
/// as it was. The seed decides the order of ties. The state changes only for `Filled`.
///
/// The search makes no more placements of letters than it may, and all of them before it answers `Limit`.
///
/// A bound is proved, and it holds for all greater grades too (`grade_law`). So if it is one more than `least`, no
/// fill is better. A search without any placement still finds a bound.
///
/// A search leaves a hint, unless there is no fill. The next search with the same names and seed continues from it if
/// it begins with the same entries, but proves its bound anew. It tries the best fill of the earlier ones first, as one
/// placement, and takes it over only if it is one. So a search can continue after a fill once the letters
/// of the fill are removed. The least grade may change in between. Pass `None`, or the hint of a search over the same
/// words and lights: the answer depends on the state, the names, the allowance, the seed and the hint alone. An error
/// leaves the hint as it was.
///
/// Returns `NoLight` if one of the names belongs to no light, and `Memory` if an allocation fails.
pub fn best_fill<E: Searchable>(
    alloc: Global,
    engine: &mut E,
    names: &[LightName],
    allowance: &mut Allowance,
    seed: u64,
    hint: &mut Option<BestHint>,
) -> Result<Best, Refusal>
    ensures counted { IsCounted allowance.old allowance.new (E.state engine.old) (E.state engine.new) }
    ensures within { HasPlacedWithin allowance.old allowance.new (E.placed engine.old) (E.placed engine.new) }
    ensures limit { (bound : ℕ) → result ≡ Ok (Best.Limit bound) → allowance.new.made ≡ allowance.new.limit }
    ensures ok { IfOk result (IsBest (is_named (E.state engine.old) names.now) (E.state engine.old) (E.state engine.new)) }
    ensures one { IfOk result (IsOfOneSearch E.state E.saved (is_named (E.state engine.old) names.now) engine.old engine.new allowance.old allowance.new) }
    ensures refused { IfErr result (IsRefusal (E.state engine.old) names.now) }
    ensures unchanged { OnErr result (E.state engine.new ≡ E.state engine.old) }
{
    if let Some(begun) = hint_of(hint, engine, names, seed) {
        let best = best_named(alloc, engine, names, begun, allowance)?;
        if best == Best::NoFill {
            *hint = None;
        }
        return Ok(best);
    }
    let mut begun = BestHint::new(alloc, engine, names, seed)?;
    let best = best_named(alloc, engine, names, &mut begun, allowance)?;
    *hint = if best == Best::NoFill {
        None
    } else {
        Some(begun)
    };
    Ok(best)
}
