//! A search for a fill with the words of a grade and better.
ghost use Rattle.std.specs.Prelude.{◌≡◌, ◌⊎◌, ℕ, suc, ◌≤◌, length, IfOk};
ghost use Rattle.xw_words.specs.Dictionary.{best_grade};
ghost use Rattle.xw_feas.specs.Count.{number};
ghost use Rattle.xw_search.specs.Allowance.{HasPlacedWithin};
ghost use Rattle.xw_search.specs.OfState.{light_count, IsPlan};
ghost use Rattle.xw_search.specs.NamedFill.{flags};
ghost use Rattle.xw_best.specs.Best.{IsBound};
ghost use Rattle.xw_feas.specs.Snapshot.{CanSave};
ghost use Rattle.xw_best.specs.Inner.Climbing.{DiffersInLeast, IsDeadAt, AreAliveAt, AreActiveAt, IsProber, IsProbed};

use crate::best::candidate::{enter, written_of};
use crate::best::grades::{NO_BOUND, choose_least, first_deadly, fresh_lights, worst_grade};
use crate::best::parts::Parts;
use std::alloc::{AllocError, Global};
use std::snapshot::Snapshot;
use xw_feas::count::Count;
use xw_feas::feasible::Feasible;
use xw_feas::searchable::Searchable;
use xw_letters::letter::Letter;
use xw_search::allowance::Allowance;
use xw_search::filling::Filling;
use xw_search::frame::Frame;
use xw_search::letters::{fill_planned, stack_for};
use xw_search::plan::Plan;
use xw_search::run::Effort;
use xw_search::stack::Stack;
use xw_search::writing::write;

/// What a search with the words of a grade and better found.
/// - `Filled`: the grid holds a fill, and this is the greatest grade at which it is one.
/// - `NoFill`: no fill exists.
/// - `Limit`: no placement was left.
#[derive(Clone, Copy, Debug, PartialEq, Eq)]
pub enum Probe {
    Filled(u8),
    NoFill,
    Limit,
}

/// A bound that needs no search: at this grade a watched light has no feasible word. The least grade of active words,
/// `least`, stays as it was.
pub fn bound_of<E: Feasible>(engine: &mut E, plan: &Plan, least: u8) -> u8
    requires plan { IsPlan (E.state engine.old) plan.now }
    requires least { least ≡ (E.state engine.old).words.least }
    ensures bound { IsBound (flags plan.now.named.items) (E.state engine.old) result }
    ensures unchanged { E.state engine.new ≡ E.state engine.old }
    ensures count { E.placed engine.new ≡ E.placed engine.old }
{
    let bound = first_deadly(engine, &plan.watched, least, NO_BOUND);
    choose_least(engine, least);
    bound
}

/// The greatest grade at which the flagged lights spell active words and each watched light has a feasible word, as
/// they do at `grade`. Changes the least grade.
fn greatest_grade<E: Feasible>(engine: &mut E, watched: &[bool], fresh: &[bool], grade: u8) -> u8
    requires watched { length watched.now ≡ light_count (E.state engine.old) }
    requires fresh { length fresh.now ≡ light_count (E.state engine.old) }
    requires graded { grade ≤ best_grade }
    requires active { AreActiveAt (flags fresh.now) (E.state engine.old) grade }
    requires alive { AreAliveAt (flags watched.now) (E.state engine.old) grade }
    ensures state { DiffersInLeast (E.state engine.old) (E.state engine.new) }
    ensures above { grade ≤ result }
    ensures graded { result ≤ best_grade }
    ensures active { AreActiveAt (flags fresh.now) (E.state engine.old) result }
    ensures alive { AreAliveAt (flags watched.now) (E.state engine.old) result }
    ensures greatest { IsDeadAt (flags watched.now) (E.state engine.old) (suc result) ⊎ ((other : ℕ) → other ≤ best_grade → AreActiveAt (flags fresh.now) (E.state engine.old) other → other ≤ result) }
    ensures count { E.placed engine.new ≡ E.placed engine.old }
{
    let worst = worst_grade(engine, fresh);
    first_deadly(engine, watched, grade + 1, worst + 1) - 1
}

/// What the probes of a search for the best fill share.
/// - `fresh`: a flag for each light that was not wholly entered at the start.
/// - `least`: the least grade of active words.
/// - `stack`: the stack of each probe.
/// - `last`: what `try_known` found last. It takes no memory: it tells the prover what the search has to offer.
/// - `tries`: how many known fills were tried. It takes no memory either.
#[derive(Drop)]
pub struct Prober {
    pub plan: Plan,
    pub fresh: Vec<bool>,
    pub least: u8,
    stack: Stack<Frame>,
    last: Snapshot<Probe>,
    tries: Count,
}

impl Prober {
    /// The prober for the lights of a plan.
    pub fn new<E: Feasible>(alloc: Global, engine: &E, plan: Plan) -> Result<Prober, AllocError>
        requires plan { IsPlan (E.state engine.now) plan }
        ensures prober { IfOk result (λ prober. IsProber prober (E.state engine.now)) }
        ensures plan { IfOk result (λ prober. prober.plan ≡ plan) }
        ensures tries { IfOk result (λ prober. number prober.tries ≡ 0) }
    {
        let fresh = fresh_lights(alloc, engine)?;
        let stack = stack_for(alloc, &plan)?;
        Ok(Prober {
            plan,
            fresh,
            least: engine.bank().least(),
            stack,
            last: Snapshot::of(&Probe::Limit),
            tries: Count::new(),
        })
    }

    /// Looks for a fill with the words of a grade and better. The least grade of active words stays as it was if it finds one;
    /// otherwise the caller goes back to the start.
    pub fn probe<E: Searchable>(
        &mut self,
        alloc: Global,
        engine: &mut E,
        grade: u8,
        effort: &mut Effort,
        allowance: &mut Allowance,
    ) -> Result<Probe, AllocError>
        requires prober { IsProber self.old (E.state engine.old) }
        requires above { self.old.least ≤ grade }
        requires graded { grade ≤ best_grade }
        ensures prober { IsProber self.new (E.state engine.old) }
        ensures plan { self.new.plan ≡ self.old.plan }
        ensures fresh { self.new.fresh ≡ self.old.fresh }
        ensures least { self.new.least ≡ self.old.least }
        ensures made { allowance.old.made ≤ allowance.new.made }
        ensures total { allowance.new.limit ≡ allowance.old.limit }
        ensures until { allowance.new.until ≡ allowance.old.until }
        ensures limit { result ≡ Ok Probe.Limit → allowance.new.made ≡ allowance.new.until }
        ensures ok { IfOk result (IsProbed (flags self.old.plan.named.items) (E.state engine.old) grade (E.state engine.new)) }
        ensures idle { (least : ℕ) → result ≡ Ok (Probe.Filled least) → allowance.new.made ≡ allowance.old.made → E.state engine.new ≡ E.state engine.old }
        ensures saved { CanSave (E.state engine.old) (E.state engine.new) }
        ensures within { HasPlacedWithin allowance.old allowance.new (E.placed engine.old) (E.placed engine.new) }
        ensures tries { number self.new.tries ≡ number self.old.tries }
    {
        choose_least(engine, grade);
        let plan = &self.plan;
        let filling = fill_planned(alloc, engine, &mut self.stack, plan, effort, allowance)?;
        match filling {
            Filling::Filled => {
                let watched = self.plan.watched.as_slice();
                let fresh = self.fresh.as_slice();
                let found = greatest_grade(engine, watched, fresh, grade);
                choose_least(engine, self.least);
                Ok(Probe::Filled(found))
            }
            Filling::NoFill => Ok(Probe::NoFill),
            Filling::Limit => Ok(Probe::Limit),
        }
    }

    /// Looks whether some entries of the cells to fill are a fill, and counts a try. Answers `Filled` if they are, and `Limit` if
    /// not. Then, and if an allocation fails, the caller goes back to the start.
    pub fn try_known<E: Feasible>(
        &mut self,
        alloc: Global,
        engine: &mut E,
        entries: &[Option<Letter>],
    ) -> Result<Probe, AllocError>
        requires prober { IsProber self.old (E.state engine.old) }
        ensures prober { IsProber self.new (E.state engine.old) }
        ensures plan { self.new.plan ≡ self.old.plan }
        ensures fresh { self.new.fresh ≡ self.old.fresh }
        ensures least { self.new.least ≡ self.old.least }
        ensures ok { IfOk result (IsProbed (flags self.old.plan.named.items) (E.state engine.old) self.old.least (E.state engine.new)) }
        ensures last { IfOk result (λ probe. self.new.last.value ≡ probe) }
        ensures saved { CanSave (E.state engine.old) (E.state engine.new) }
        ensures count { E.placed engine.new ≡ E.placed engine.old }
        ensures tries { number self.new.tries ≡ suc (number self.old.tries) }
    {
        self.tries.raise();
        let fresh = self.fresh.as_slice();
        let is_fill = enter(alloc, engine, &self.plan, fresh, entries)?;
        if !is_fill {
            self.last = Snapshot::of(&Probe::Limit);
            return Ok(Probe::Limit);
        }
        let watched = self.plan.watched.as_slice();
        let least = self.least;
        let grade = greatest_grade(engine, watched, fresh, least);
        choose_least(engine, least);
        let probe = Probe::Filled(grade);
        self.last = Snapshot::of(&probe);
        Ok(probe)
    }

    /// Fills the cells of the named lights that are empty now. Only entries change.
    fn fill_empty<E: Searchable>(
        &mut self,
        alloc: Global,
        engine: &mut E,
        effort: &mut Effort,
        allowance: &mut Allowance,
    ) -> Result<Filling, AllocError>
        ensures plan { self.new.plan ≡ self.old.plan }
        ensures fresh { self.new.fresh ≡ self.old.fresh }
        ensures least { self.new.least ≡ self.old.least }
        ensures made { allowance.old.made ≤ allowance.new.made }
        ensures limit { allowance.new.limit ≡ allowance.old.limit }
        ensures saved { CanSave (E.state engine.old) (E.state engine.new) }
        ensures within { HasPlacedWithin allowance.old allowance.new (E.placed engine.old) (E.placed engine.new) }
        ensures tries { number self.new.tries ≡ number self.old.tries }
    {
        let named = Vec::from_slice(alloc, &self.plan.named)?;
        let plan = Plan::of(alloc, engine, named)?;
        fill_planned(alloc, engine, &mut self.stack, &plan, effort, allowance)
    }

    /// Enters the fill of which a part is emptied, and fills the part with the words of its grade and better. Only entries
    /// and the least grade change, and nothing is promised of them: the caller goes back to the start.
    pub fn fill_part<E: Searchable>(
        &mut self,
        alloc: Global,
        engine: &mut E,
        parts: &mut Parts,
        allowance: &mut Allowance,
    ) -> Result<Filling, AllocError>
        requires prober { IsProber self.old (E.state engine.old) }
        ensures prober { IsProber self.new (E.state engine.old) }
        ensures plan { self.new.plan ≡ self.old.plan }
        ensures fresh { self.new.fresh ≡ self.old.fresh }
        ensures least { self.new.least ≡ self.old.least }
        ensures made { allowance.old.made ≤ allowance.new.made }
        ensures limit { allowance.new.limit ≡ allowance.old.limit }
        ensures saved { CanSave (E.state engine.old) (E.state engine.new) }
        ensures within { HasPlacedWithin allowance.old allowance.new (E.placed engine.old) (E.placed engine.new) }
        ensures tries { number self.new.tries ≡ number self.old.tries }
    {
        let list = written_of(alloc, engine, &self.plan, &parts.entries)?;
        write(engine, &list);
        choose_least(engine, parts.grade);
        self.fill_empty(alloc, engine, &mut parts.effort, allowance)
    }
}
