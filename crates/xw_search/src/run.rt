//! One run of the search: depth first by letters, until a fill, a cut or the end.
ghost use Rattle.std.specs.Prelude.{◌≡◌, ◌<◌, ℕ, suc, length, ◌||◌, ◌==◌, [], IfOk, OnOk, OnErr};
ghost use Rattle.xw_letters.specs.LetterSet.{has};
ghost use Rattle.xw_search.specs.Position.{DiffersInEntries};
ghost use Rattle.xw_search.specs.Allowance.{IsCounted, HasPlaced, HasPlacedWithin};
ghost use Rattle.xw_search.specs.OfState.{IsFillOf, HasNone, IsPlan, IsOpen, AreAlive};
ghost use Rattle.xw_search.specs.Stack.{first_or, LeadThrough};
ghost use Rattle.xw_search.specs.NamedFill.{flags};
ghost use Rattle.xw_search.specs.Progress.{entries_of, CanBeEntered, IsLetterEntered, IsTried};

use crate::allowance::Allowance;
use crate::checks::has_repeat_at;
use crate::choice::{is_only_letter, next_cell, next_letter};
use crate::frame::Frame;
use crate::plan::Plan;
use crate::stack::Stack;
use std::alloc::{AllocError, Global};
use xw_feas::searchable::Searchable;
use xw_letters::letter::Letter;
use xw_letters::letter_set::LetterSet;

/// How a run ended.
/// - `Filled`: the grid holds a fill.
/// - `NoFill`: no fill exists.
/// - `Limit`: no placement was left.
/// - `Cut`: it failed too often.
/// - `Memory`: an allocation failed.
#[derive(Clone, Copy, Debug, PartialEq, Eq)]
pub enum Ending {
    Filled,
    NoFill,
    Limit,
    Cut,
    Memory,
}

/// After how many failures the first run is cut. Each later run gets twice as many.
const CUT: u64 = 100;

/// What a search keeps from run to run.
/// - `weights`: a weight for each light, which grows when the light fails.
/// - `cut`: after how many failures the next run is cut.
/// - `graded`: whether words have different grades.
/// - `weighted`: whether words of better grades count for more in the next run. If words have grades, every other run
///   uses plain counts, since the hardest grids fill only that way.
#[derive(Drop)]
pub struct Effort {
    weights: Vec<u64>,
    pub seed: u64,
    pub cut: u64,
    pub graded: bool,
    pub weighted: bool,
}

impl Effort {
    /// The effort of a search that has not begun: each light has the weight 1.
    pub fn new(
        alloc: Global,
        lights: usize,
        seed: u64,
        graded: bool,
    ) -> Result<Effort, AllocError> {
        Ok(Effort {
            weights: vec![in alloc; 1; lights]?,
            seed,
            cut: CUT,
            graded,
            weighted: graded,
        })
    }

    /// Begins another search with the same weights, and with the cut of a first run.
    pub fn restart(&mut self) {
        self.cut = CUT;
        self.weighted = self.graded;
    }
}

/// Counts a failure of a light.
fn blame(weights: &mut Vec<u64>, light: usize)
    ensures { length weights.new.items ≡ length weights.old.items }
{
    if light < weights.len() {
        weights[light] = weights[light].saturating_add(1);
    }
}

/// Tries the letter of a frame, which is a placement. Returns whether the letter stays; if not, the search is back
/// where it was.
fn try_letter<E: Searchable>(
    engine: &mut E,
    stack: &mut Stack<Frame>,
    plan: &Plan,
    weights: &mut Vec<u64>,
    frame: Frame,
    allowance: &mut Allowance,
) -> Result<bool, AllocError>
    requires can { CanBeEntered frame (E.state engine.old) }
    requires alive { AreAlive (flags plan.now.watched.items) (E.state engine.old) }
    requires stands { LeadThrough IsLetterEntered stack.old.placements.items (E.levels engine.old) (E.state engine.old) }
    requires left { allowance.old.made < allowance.old.until }
    ensures made { allowance.new.made ≡ suc allowance.old.made }
    ensures until { allowance.new.until ≡ allowance.old.until }
    ensures limit { allowance.new.limit ≡ allowance.old.limit }
    ensures stands { LeadThrough IsLetterEntered stack.new.placements.items (E.levels engine.new) (E.state engine.new) }
    ensures start { first_or (E.levels engine.new) (E.state engine.new) ≡ first_or (E.levels engine.old) (E.state engine.old) }
    ensures entries { DiffersInEntries (E.state engine.old) (E.state engine.new) }
    ensures tried { IfOk result (λ stands. IsTried (flags plan.now.watched.items) frame stands (E.state engine.old) stack.old.placements.items (E.state engine.new) stack.new.placements.items) }
    ensures placed { OnOk result (E.placed engine.new ≡ suc (E.placed engine.old)) }
    ensures none { OnErr result (E.placed engine.new ≡ E.placed engine.old) }
{
    let cell = frame.cell;
    allowance.count();
    engine.tell(allowance.news());
    let dead = stack.try_place(engine, frame, &plan.watched)?;
    if let Some(light) = dead {
        blame(weights, engine.emptied().unwrap_or(light));
        return Ok(false);
    }
    if has_repeat_at(engine, cell) {
        let _ = stack.back(engine);
        return Ok(false);
    }
    Ok(true)
}

/// The letters with one more.
fn with_letter(letters: LetterSet, letter: Letter) -> LetterSet
    ensures { (other : ℕ) → has result other ≡ (has letters other || (other == letter)) }
{
    let mut more = letters;
    more.insert(letter);
    more
}

/// Searches from a position that does not rule out a fill. Ends when the grid holds a fill, no fill exists, no
/// placement is left, or `cut` letters have failed. `stack` has the cells with letters.
fn search<E: Searchable>(
    engine: &mut E,
    stack: &mut Stack<Frame>,
    plan: &Plan,
    effort: &mut Effort,
    cut: u64,
    allowance: &mut Allowance,
) -> Ending
    requires plan { IsPlan (E.state engine.old) plan.now }
    requires open { IsOpen (flags plan.now.named.items) (E.state engine.old) (entries_of (E.state engine.old)) }
    requires empty { stack.old.placements.items ≡ [] }
    requires levels { E.levels engine.old ≡ [] }
    ensures stands { LeadThrough IsLetterEntered stack.new.placements.items (E.levels engine.new) (E.state engine.new) }
    ensures start { first_or (E.levels engine.new) (E.state engine.new) ≡ E.state engine.old }
    ensures entries { DiffersInEntries (E.state engine.old) (E.state engine.new) }
    ensures counted { IsCounted allowance.old allowance.new (E.state engine.old) (E.state engine.new) }
    ensures placed { (result ≡ Ending.Memory → ⊥) → HasPlaced allowance.old allowance.new (E.placed engine.old) (E.placed engine.new) }
    ensures within { HasPlacedWithin allowance.old allowance.new (E.placed engine.old) (E.placed engine.new) }
    ensures until { allowance.new.until ≡ allowance.old.until }
    ensures limit { result ≡ Ending.Limit → allowance.new.made ≡ allowance.new.until }
    ensures cut { result ≡ Ending.Cut → allowance.old.made < allowance.new.made }
    ensures filled { result ≡ Ending.Filled → IsFillOf (flags plan.now.named.items) (E.state engine.old) (entries_of (E.state engine.new)) }
    ensures no_fill { result ≡ Ending.NoFill → HasNone (flags plan.now.named.items) (E.state engine.old) (entries_of (E.state engine.old)) }
{
    let Some(first) = next_cell(
        engine,
        &plan.targets,
        &effort.weights,
        effort.seed,
        &plan.crossings,
    ) else {
        return Ending::Filled;
    };
    let mut cell = first;
    let mut tried = LetterSet::new();
    let mut fails: u64 = 0;
    loop {
        let Some(letter) = next_letter(engine, cell, tried, effort.weighted) else {
            let depth = stack.len();
            let Some(below) = stack.retreat(engine) else {
                return Ending::NoFill;
            };
            cell = below.cell;
            tried = with_letter(below.tried, below.letter);
            fails = fails.saturating_add((depth - stack.len()) as u64);
            continue;
        };
        if allowance.is_spent() {
            return Ending::Limit;
        }
        let frame = Frame {
            cell,
            letter,
            tried,
            is_forced: is_only_letter(engine, cell, letter),
        };
        let Ok(stands) = try_letter(engine, stack, plan, &mut effort.weights, frame, allowance)
        else {
            return Ending::Memory;
        };
        if !stands {
            tried = with_letter(tried, letter);
            fails = fails.saturating_add(1);
            if fails >= cut {
                return Ending::Cut;
            }
            continue;
        }
        let Some(next) = next_cell(
            engine,
            &plan.targets,
            &effort.weights,
            effort.seed,
            &plan.crossings,
        ) else {
            return Ending::Filled;
        };
        cell = next;
        tried = LetterSet::new();
    }
}

/// One run: a search that leaves the state as it was unless it finds a fill. It counts exactly the letters that it
/// places.
pub fn run<E: Searchable>(
    engine: &mut E,
    stack: &mut Stack<Frame>,
    plan: &Plan,
    effort: &mut Effort,
    cut: u64,
    allowance: &mut Allowance,
) -> Ending
    requires plan { IsPlan (E.state engine.old) plan.now }
    requires open { IsOpen (flags plan.now.named.items) (E.state engine.old) (entries_of (E.state engine.old)) }
    ensures counted { IsCounted allowance.old allowance.new (E.state engine.old) (E.state engine.new) }
    ensures placed { (result ≡ Ending.Memory → ⊥) → HasPlaced allowance.old allowance.new (E.placed engine.old) (E.placed engine.new) }
    ensures within { HasPlacedWithin allowance.old allowance.new (E.placed engine.old) (E.placed engine.new) }
    ensures until { allowance.new.until ≡ allowance.old.until }
    ensures limit { result ≡ Ending.Limit → allowance.new.made ≡ allowance.new.until }
    ensures cut { result ≡ Ending.Cut → allowance.old.made < allowance.new.made }
    ensures filled { result ≡ Ending.Filled → IsFillOf (flags plan.now.named.items) (E.state engine.old) (entries_of (E.state engine.new)) }
    ensures entries { result ≡ Ending.Filled → DiffersInEntries (E.state engine.old) (E.state engine.new) }
    ensures no_fill { result ≡ Ending.NoFill → HasNone (flags plan.now.named.items) (E.state engine.old) (entries_of (E.state engine.old)) }
    ensures same { (result ≡ Ending.Filled → ⊥) → E.state engine.new ≡ E.state engine.old }
{
    stack.begin(engine);
    let ending = search(engine, stack, plan, effort, cut, allowance);
    if ending != Ending::Filled {
        stack.reset(engine);
    }
    ending
}
