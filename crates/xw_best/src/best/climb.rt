//! The search for the best fill: what it keeps of the grades that it tries.
ghost use Rattle.std.specs.Prelude.{◌≡◌, suc, ◌+◌, ◌<◌, ◌≤◌, ◌⊎◌, true, false, IfOk, OnOk, IfSome};
ghost use Rattle.xw_words.specs.Dictionary.{best_grade};
ghost use Rattle.xw_feas.specs.Count.{number};
ghost use Rattle.xw_search.specs.Allowance.{HasPlacedWithin};
ghost use Rattle.xw_search.specs.OfState.{IsPlan};
ghost use Rattle.xw_search.specs.NamedFill.{flags};
ghost use Rattle.xw_best.specs.Best.{IsBest, IsFilledAt};
ghost use Rattle.xw_feas.specs.Snapshot.{CanSave};
ghost use Rattle.xw_feas.specs.State.{State};
ghost use Rattle.xw_search.specs.declared.allowance.Allowance.{Allowance as SpecAllowance};
ghost use Rattle.xw_best.specs.Inner.Climbing.{IsAtLeast, IsBetter, IsClimbing, IsOffered, HasClimbed, HasScheduled, IsTaken, HasOffered, IsIdle, grade_sum, next_grade, spent_by, work_left, best_of};

use crate::best::Best;
use crate::best::course::Course;
use crate::best::grades::grade_sum;
use crate::best::pace::Turn;
use crate::best::parts::{FEE, Goal, PLACEMENTS};
use crate::best::probe::{Probe, Prober, bound_of};
use std::alloc::{AllocError, Global};
use std::snapshot::Snapshot;
use xw_feas::progress::News;
use xw_feas::searchable::Searchable;
use xw_letters::letter::Letter;
use xw_search::allowance::Allowance;
use xw_search::plan::Plan;

/// A search for the best fill.
/// - `start`, `best`: the state where it began, and the best fill that was found.
/// - `found`: the greatest grade at which `best` is a fill, if one was found. `sum`: the sum of the grades of its new
///   words.
/// - `bound`: a grade at which no fill exists.
/// - `counted`: the allowance after the last search. It takes no memory: it tells the prover that every placement that
///   was counted is one of this search.
#[derive(Drop)]
pub struct Climb<E: Searchable> {
    prober: Prober,
    start: E::Snapshot,
    best: E::Snapshot,
    found: Option<u8>,
    sum: u64,
    bound: u8,
    counted: Snapshot<Allowance>,
}

impl<E: Searchable> Climb<E> {
    /// A search that has found a bound and nothing else.
    pub fn new(
        alloc: Global,
        engine: &mut E,
        plan: Plan,
        allowance: &Allowance,
    ) -> Result<Climb<E>, AllocError>
        requires plan { IsPlan (E.state engine.old) plan }
        ensures climbing { IfOk result (λ climb. IsClimbing E.saved climb (E.state engine.old)) }
        ensures none { IfOk result (λ climb. climb.found ≡ None) }
        ensures plan { IfOk result (λ climb. climb.prober.plan ≡ plan) }
        ensures counted { IfOk result (λ climb. climb.counted.value.made ≡ allowance.now.made) }
        ensures unchanged { E.state engine.new ≡ E.state engine.old }
        ensures count { E.placed engine.new ≡ E.placed engine.old }
        ensures tries { IfOk result (λ climb. number climb.prober.tries ≡ 0) }
    {
        let prober = Prober::new(alloc, engine, plan)?;
        let start = engine.snapshot()?;
        let best = engine.snapshot()?;
        let bound = bound_of(engine, &prober.plan, prober.least);
        Ok(Climb {
            prober,
            start,
            best,
            found: None,
            sum: 0,
            bound,
            counted: Snapshot::of(allowance),
        })
    }

    /// The least grade at which a fill would be new.
    fn next_grade(&self) -> u8
        requires { IfSome self.now.found (λ grade. (self.now.prober.least ≤ grade) × (grade ≤ best_grade)) }
        ensures { result ≡ next_grade self.now }
    {
        match self.found {
            Some(grade) => grade + 1,
            None => self.prober.least,
        }
    }

    /// Whether a fill of this grade whose new words have this sum of grades is better than the best one: its worst word
    /// is better, or it has the same grade and the sum is greater.
    fn is_better(&self, grade: u8, sum: u64) -> bool
        ensures better { result ≡ true → IsBetter self.now.found self.now.sum grade sum }
        ensures no_better { result ≡ false → IsBetter self.now.found self.now.sum grade sum → ⊥ }
    {
        match self.found {
            Some(found) => found < grade || (found == grade && self.sum < sum),
            None => true,
        }
    }

    /// Returns to the start.
    fn go_back(&mut self, engine: &mut E)
        requires { CanSave (E.saved self.old.start) (E.state engine.old) }
        ensures back { E.state engine.new ≡ E.saved self.old.start }
        ensures climbing { (start : State) → IsClimbing E.saved self.old start → IsClimbing E.saved self.new start }
        ensures start { E.saved self.new.start ≡ E.saved self.old.start }
        ensures best { self.new.best ≡ self.old.best }
        ensures found { self.new.found ≡ self.old.found }
        ensures sum { self.new.sum ≡ self.old.sum }
        ensures prober { self.new.prober ≡ self.old.prober }
        ensures bound { self.new.bound ≡ self.old.bound }
        ensures counted { self.new.counted ≡ self.old.counted }
        ensures count { E.placed engine.new ≡ E.placed engine.old }
    {
        engine.exchange(&mut self.start);
        engine.save(&mut self.start);
    }

    /// Keeps the fill that the grid holds, which is better than the one before, and returns to the start.
    fn keep(&mut self, engine: &mut E, grade: u8, sum: u64)
        requires climbing { IsClimbing E.saved self.old (E.saved self.old.start) }
        requires better { IsBetter self.old.found self.old.sum grade sum }
        requires filled { IsFilledAt (flags self.old.prober.plan.named.items) (E.saved self.old.start) (E.state engine.old) grade }
        requires sum { sum ≡ grade_sum (flags self.old.prober.fresh.items) (E.state engine.old) }
        ensures climbing { IsClimbing E.saved self.new (E.state engine.new) }
        ensures back { E.state engine.new ≡ E.saved self.old.start }
        ensures found { self.new.found ≡ Some grade }
        ensures sum { self.new.sum ≡ sum }
        ensures best { E.saved self.new.best ≡ E.state engine.old }
        ensures prober { self.new.prober ≡ self.old.prober }
        ensures bound { self.new.bound ≡ self.old.bound }
        ensures counted { self.new.counted ≡ self.old.counted }
        ensures count { E.placed engine.new ≡ E.placed engine.old }
    {
        engine.save(&mut self.best);
        self.found = Some(grade);
        self.sum = sum;
        self.go_back(engine);
    }

    /// Keeps the fill that the grid holds if it is better than the one before, and returns to the start. Returns whether it
    /// kept it.
    fn offer(&mut self, engine: &mut E, grade: u8) -> bool
        requires climbing { IsClimbing E.saved self.old (E.saved self.old.start) }
        requires filled { IsFilledAt (flags self.old.prober.plan.named.items) (E.saved self.old.start) (E.state engine.old) grade }
        ensures climbing { IsClimbing E.saved self.new (E.state engine.new) }
        ensures back { E.state engine.new ≡ E.saved self.old.start }
        ensures offered { IsOffered E.saved self.old self.new (E.state engine.old) grade (grade_sum (flags self.old.prober.fresh.items) (E.state engine.old)) }
        ensures prober { self.new.prober ≡ self.old.prober }
        ensures bound { self.new.bound ≡ self.old.bound }
        ensures counted { self.new.counted ≡ self.old.counted }
        ensures count { E.placed engine.new ≡ E.placed engine.old }
    {
        let sum = grade_sum(engine, &self.prober.fresh);
        let is_better = self.is_better(grade, sum);
        if is_better {
            self.keep(engine, grade, sum);
        } else {
            self.go_back(engine);
        }
        is_better
    }

    /// Looks for a fill with the words of a grade and better, within the share of the placements that is granted, and
    /// keeps what it finds.
    fn step(
        &mut self,
        alloc: Global,
        engine: &mut E,
        grade: u8,
        course: &mut Course,
        allowance: &mut Allowance,
    ) -> Result<Probe, AllocError>
        requires climbing { IsClimbing E.saved self.old (E.state engine.old) }
        requires counted { self.old.counted.value.made ≡ allowance.old.made }
        requires new { next_grade self.old ≤ grade }
        requires below { grade < self.old.bound }
        ensures climbing { IsClimbing E.saved self.new (E.state engine.new) }
        ensures unchanged { E.state engine.new ≡ E.state engine.old }
        ensures climbed { HasClimbed E.saved self.old self.new allowance.old allowance.new }
        ensures within { HasPlacedWithin allowance.old allowance.new (spent_by (E.placed engine.old) self.old) (spent_by (E.placed engine.new) self.new) }
        ensures until { allowance.new.until ≡ allowance.old.until }
        ensures found { IfOk result (IsAtLeast grade) }
        ensures taken { IfOk result (IsTaken grade self.old self.new allowance.new) }
    {
        let probe = self
            .prober
            .probe(alloc, engine, grade, course.effort(), allowance);
        self.counted = Snapshot::of(allowance);
        let Ok(probe) = probe else {
            self.go_back(engine);
            return Err(AllocError);
        };
        match probe {
            Probe::Filled(found) => {
                course.parts.note_best(engine, &self.prober.fresh);
                let _ = self.offer(engine, found);
            }
            Probe::NoFill => {
                self.go_back(engine);
                self.bound = grade;
            }
            Probe::Limit => self.go_back(engine),
        }
        Ok(probe)
    }

    /// Tries the next grade, upwards or downwards. It decides a grade or makes a placement.
    fn try_grade(
        &mut self,
        alloc: Global,
        engine: &mut E,
        course: &mut Course,
        allowance: &mut Allowance,
    ) -> Result<(), AllocError>
        requires climbing { IsClimbing E.saved self.old (E.state engine.old) }
        requires counted { self.old.counted.value.made ≡ allowance.old.made }
        requires below { next_grade self.old < self.old.bound }
        requires left { allowance.old.made < allowance.old.limit }
        ensures climbing { IsClimbing E.saved self.new (E.state engine.new) }
        ensures unchanged { E.state engine.new ≡ E.state engine.old }
        ensures climbed { HasClimbed E.saved self.old self.new allowance.old allowance.new }
        ensures within { HasPlacedWithin allowance.old allowance.new (spent_by (E.placed engine.old) self.old) (spent_by (E.placed engine.new) self.new) }
        ensures moved { OnOk result (work_left self.new allowance.new < work_left self.old allowance.old) }
    {
        let left = allowance.left();
        let grade = course.pace.grade(self.next_grade(), self.bound);
        let spare = course.pace.spare(self.may_raise(course), left).max(1);
        allowance.grant(course.pace.share().min(spare));
        let probe = self.step(alloc, engine, grade, course, allowance)?;
        course
            .pace
            .note(grade, probe, left.saturating_sub(allowance.left()));
        Ok(())
    }

    /// Tries the least grade at which a fill would be new, if there may be one.
    fn try_next(
        &mut self,
        alloc: Global,
        engine: &mut E,
        course: &mut Course,
        allowance: &mut Allowance,
    ) -> Result<(), AllocError>
        requires climbing { IsClimbing E.saved self.old (E.state engine.old) }
        requires counted { self.old.counted.value.made ≡ allowance.old.made }
        ensures climbing { IsClimbing E.saved self.new (E.state engine.new) }
        ensures unchanged { E.state engine.new ≡ E.state engine.old }
        ensures climbed { HasClimbed E.saved self.old self.new allowance.old allowance.new }
        ensures within { HasPlacedWithin allowance.old allowance.new (spent_by (E.placed engine.old) self.old) (spent_by (E.placed engine.new) self.new) }
    {
        let grade = self.next_grade();
        if grade < self.bound {
            let _ = self.step(alloc, engine, grade, course, allowance)?;
        }
        Ok(())
    }

    /// Keeps the fill that has these entries in the cells to fill, if they are one and it is better than the best one.
    /// Returns whether it kept it.
    fn try_known(
        &mut self,
        alloc: Global,
        engine: &mut E,
        entries: &[Option<Letter>],
    ) -> Result<bool, AllocError>
        requires climbing { IsClimbing E.saved self.old (E.state engine.old) }
        ensures climbing { IsClimbing E.saved self.new (E.state engine.new) }
        ensures unchanged { E.state engine.new ≡ E.state engine.old }
        ensures offered { OnOk result (HasOffered E.saved self.old self.new) }
        ensures climbed { (from to : SpecAllowance) → from.made < to.made → to.limit ≡ from.limit → self.old.counted.value.made ≡ to.made → HasClimbed E.saved self.old self.new from to }
        ensures count { E.placed engine.new ≡ E.placed engine.old }
        ensures tries { number self.new.prober.tries ≡ suc (number self.old.prober.tries) }
    {
        let Ok(probe) = self.prober.try_known(alloc, engine, entries) else {
            self.go_back(engine);
            return Err(AllocError);
        };
        match probe {
            Probe::Filled(grade) => Ok(self.offer(engine, grade)),
            Probe::NoFill | Probe::Limit => {
                self.go_back(engine);
                Ok(false)
            }
        }
    }

    /// Tries the best fill that is known, as one placement.
    fn try_best(
        &mut self,
        alloc: Global,
        engine: &mut E,
        course: &Course,
        allowance: &mut Allowance,
    ) -> Result<(), AllocError>
        requires climbing { IsClimbing E.saved self.old (E.state engine.old) }
        requires counted { self.old.counted.value.made ≡ allowance.old.made }
        ensures climbing { IsClimbing E.saved self.new (E.state engine.new) }
        ensures unchanged { E.state engine.new ≡ E.state engine.old }
        ensures climbed { HasClimbed E.saved self.old self.new allowance.old allowance.new }
        ensures within { HasPlacedWithin allowance.old allowance.new (spent_by (E.placed engine.old) self.old) (spent_by (E.placed engine.new) self.new) }
        ensures offered { OnOk result (allowance.old.made < allowance.new.made → HasOffered E.saved self.old self.new) }
    {
        let entries = course.parts.best.entries.as_slice();
        if entries.is_empty() || allowance.left() == 0 {
            return Ok(());
        }
        allowance.grant(1);
        allowance.count();
        self.counted = Snapshot::of(allowance);
        let _ = self.try_known(alloc, engine, entries)?;
        Ok(())
    }

    /// Fills a part again, and returns to the start. Returns whether the fill seems to be better than the best one.
    fn fill_part(
        &mut self,
        alloc: Global,
        engine: &mut E,
        goal: Goal,
        course: &mut Course,
        allowance: &mut Allowance,
    ) -> Result<bool, AllocError>
        requires climbing { IsClimbing E.saved self.old (E.state engine.old) }
        requires counted { self.old.counted.value.made ≡ allowance.old.made }
        ensures climbing { IsClimbing E.saved self.new (E.state engine.new) }
        ensures unchanged { E.state engine.new ≡ E.state engine.old }
        ensures climbed { HasClimbed E.saved self.old self.new allowance.old allowance.new }
        ensures within { HasPlacedWithin allowance.old allowance.new (spent_by (E.placed engine.old) self.old) (spent_by (E.placed engine.new) self.new) }
        ensures scheduled { goal ≡ Goal.Worst → HasScheduled course.old.pace course.new.pace 0 }
    {
        let left = allowance.left();
        allowance.grant(PLACEMENTS.min(left));
        let parts = &mut course.parts;
        let filling = self.prober.fill_part(alloc, engine, parts, allowance);
        self.counted = Snapshot::of(allowance);
        let is_better = match filling {
            Ok(filling) => Ok(parts.note(engine, &self.prober.fresh, goal, filling)),
            Err(failed) => Err(failed),
        };
        let made = left.saturating_sub(allowance.left());
        course.pace.count_part(goal, made);
        self.go_back(engine);
        is_better
    }

    /// Fills a part again, and keeps the fill if it is better than the best one. To try the fill is one more placement,
    /// which the caller has counted.
    fn refill(
        &mut self,
        alloc: Global,
        engine: &mut E,
        goal: Goal,
        course: &mut Course,
        allowance: &mut Allowance,
    ) -> Result<(), AllocError>
        requires climbing { IsClimbing E.saved self.old (E.state engine.old) }
        requires counted { self.old.counted.value.made ≡ allowance.old.made }
        ensures climbing { IsClimbing E.saved self.new (E.state engine.new) }
        ensures unchanged { E.state engine.new ≡ E.state engine.old }
        ensures made { allowance.old.made ≤ allowance.new.made }
        ensures limit { allowance.new.limit ≡ allowance.old.limit }
        ensures climbed { (from : SpecAllowance) → from.made < allowance.old.made → allowance.old.limit ≡ from.limit → HasClimbed E.saved self.old self.new from allowance.new }
        ensures within { spent_by (E.placed engine.new) self.new + allowance.old.made ≤ suc (spent_by (E.placed engine.old) self.old + allowance.new.made) }
        ensures scheduled { goal ≡ Goal.Worst → HasScheduled course.old.pace course.new.pace 0 }
    {
        let is_better = self.fill_part(alloc, engine, goal, course, allowance)?;
        if !is_better {
            return Ok(());
        }
        let is_kept = self.try_known(alloc, engine, &course.parts.current.entries)?;
        if is_kept {
            course.parts.keep_current();
        }
        Ok(())
    }

    /// Empties a part of a fill and fills it again. The part counts some placements besides those of its search, also if
    /// there is no part: so a search whose fill could not be noted goes on with grades.
    fn try_part(
        &mut self,
        alloc: Global,
        engine: &mut E,
        goal: Goal,
        course: &mut Course,
        allowance: &mut Allowance,
    ) -> Result<(), AllocError>
        requires climbing { IsClimbing E.saved self.old (E.state engine.old) }
        requires counted { self.old.counted.value.made ≡ allowance.old.made }
        requires left { allowance.old.made < allowance.old.limit }
        ensures climbing { IsClimbing E.saved self.new (E.state engine.new) }
        ensures unchanged { E.state engine.new ≡ E.state engine.old }
        ensures climbed { HasClimbed E.saved self.old self.new allowance.old allowance.new }
        ensures within { HasPlacedWithin allowance.old allowance.new (spent_by (E.placed engine.old) self.old) (spent_by (E.placed engine.new) self.new) }
        ensures fee { (allowance.old.made + 20 ≤ allowance.new.made) ⊎ (allowance.new.made ≡ allowance.new.limit) }
        ensures scheduled { goal ≡ Goal.Worst → HasScheduled course.old.pace course.new.pace 20 }
    {
        allowance.grant(FEE.min(allowance.left()));
        allowance.count_all();
        self.counted = Snapshot::of(allowance);
        course.pace.count_part(goal, FEE);
        let is_part = course.parts.empty_next(alloc, engine, goal, self.bound)?;
        if !is_part {
            return Ok(());
        }
        self.refill(alloc, engine, goal, course, allowance)
    }

    /// Whether parts can still raise the mean of the best fill.
    fn may_raise(&self, course: &Course) -> bool {
        self.found.is_some() && !self.prober.plan.targets.is_empty() && !course.parts.is_tired()
    }

    /// Tells how good the best fill is and may be, and tries the next grade or the next part.
    fn advance(
        &mut self,
        alloc: Global,
        engine: &mut E,
        course: &mut Course,
        allowance: &mut Allowance,
    ) -> Result<(), AllocError>
        requires climbing { IsClimbing E.saved self.old (E.state engine.old) }
        requires counted { self.old.counted.value.made ≡ allowance.old.made }
        requires left { allowance.old.made < allowance.old.limit }
        ensures climbing { IsClimbing E.saved self.new (E.state engine.new) }
        ensures unchanged { E.state engine.new ≡ E.state engine.old }
        ensures climbed { HasClimbed E.saved self.old self.new allowance.old allowance.new }
        ensures within { HasPlacedWithin allowance.old allowance.new (spent_by (E.placed engine.old) self.old) (spent_by (E.placed engine.new) self.new) }
        ensures moved { OnOk result (work_left self.new allowance.new < work_left self.old allowance.old) }
    {
        engine.tell(News::Graded {
            worst: self.found,
            bound: self.bound,
        });
        let is_open = self.next_grade() < self.bound;
        let turn = if is_open {
            course
                .pace
                .next_turn(self.may_raise(course), allowance.left())
        } else {
            Turn::Part(Goal::Mean)
        };
        match turn {
            Turn::Grade => self.try_grade(alloc, engine, course, allowance),
            Turn::Part(goal) => self.try_part(alloc, engine, goal, course, allowance),
        }
    }

    /// Tries the fill that is known. If no cell is to be filled, it decides all grades, which needs no placement: the first
    /// search finds the greatest grade of what stands there, and the second one that there is nothing else.
    fn begin(
        &mut self,
        alloc: Global,
        engine: &mut E,
        course: &mut Course,
        allowance: &mut Allowance,
    ) -> Result<(), AllocError>
        requires climbing { IsClimbing E.saved self.old (E.state engine.old) }
        requires counted { self.old.counted.value.made ≡ allowance.old.made }
        ensures climbing { IsClimbing E.saved self.new (E.state engine.new) }
        ensures unchanged { E.state engine.new ≡ E.state engine.old }
        ensures climbed { HasClimbed E.saved self.old self.new allowance.old allowance.new }
        ensures within { HasPlacedWithin allowance.old allowance.new (spent_by (E.placed engine.old) self.old) (spent_by (E.placed engine.new) self.new) }
    {
        if !self.prober.plan.targets.is_empty() {
            return self.try_best(alloc, engine, course, allowance);
        }
        self.try_next(alloc, engine, course, allowance)?;
        self.try_next(alloc, engine, course, allowance)
    }

    /// Searches until no fill can be better than the best one that was found, or no placement is left.
    pub fn run(
        &mut self,
        alloc: Global,
        engine: &mut E,
        course: &mut Course,
        allowance: &mut Allowance,
    ) -> Result<(), AllocError>
        requires climbing { IsClimbing E.saved self.old (E.state engine.old) }
        requires counted { self.old.counted.value.made ≡ allowance.old.made }
        ensures climbing { IsClimbing E.saved self.new (E.state engine.new) }
        ensures unchanged { E.state engine.new ≡ E.state engine.old }
        ensures climbed { HasClimbed E.saved self.old self.new allowance.old allowance.new }
        ensures within { HasPlacedWithin allowance.old allowance.new (spent_by (E.placed engine.old) self.old) (spent_by (E.placed engine.new) self.new) }
        ensures ended { OnOk result ((allowance.new.made ≡ allowance.new.limit) ⊎ (self.new.bound ≤ next_grade self.new)) }
    {
        course.begin(allowance.left());
        self.begin(alloc, engine, course, allowance)?;
        while allowance.left() > 0 && (self.next_grade() < self.bound || self.may_raise(course)) {
            self.advance(alloc, engine, course, allowance)?;
        }
        Ok(())
    }

    /// Ends the search: enters the best fill, if one was found.
    pub fn finish(&mut self, engine: &mut E) -> Best
        requires climbing { IsClimbing E.saved self.old (E.state engine.old) }
        ensures best { IsBest (flags self.old.prober.plan.named.items) (E.state engine.old) (E.state engine.new) result }
        ensures found { result ≡ best_of self.old.found self.old.prober.least self.old.bound }
        ensures entered { IfSome self.old.found (λ grade. E.state engine.new ≡ E.saved self.old.best) }
        ensures idle { IsIdle E.saved self.old → E.state engine.new ≡ E.state engine.old }
        ensures count { E.placed engine.new ≡ E.placed engine.old }
    {
        match self.found {
            Some(least) => {
                engine.exchange(&mut self.best);
                Best::Filled {
                    least,
                    bound: self.bound,
                }
            }
            None if self.bound <= self.prober.least => Best::NoFill,
            None => Best::Limit { bound: self.bound },
        }
    }
}
