//! Which part of a fill a search for the best fill empties next, and with which words it is filled again.
ghost use Rattle.std.specs.Prelude.{◌≡◌, ◌<◌};

use crate::best::grades::{BEST_GRADE, NO_BOUND};
use std::alloc::{AllocError, Global};
use std::mem::swap;
use xw_feas::feasible::Feasible;
use xw_letters::letter::Letter;
use xw_search::filling::Filling;
use xw_search::lights::{board, light_count};
use xw_search::listing::grade;
use xw_search::run::Effort;

/// How many placements a part counts besides those of its search: what it takes to empty it and to check the fill.
pub const FEE: u64 = 20;

/// How many placements the search of a part gets.
pub const PLACEMENTS: u64 = 300;

/// The size of the first part in tenths of a light, beyond two lights.
const SIZE: u64 = 50;

/// The size of the smallest part in tenths of a light, beyond two lights.
const SMALLEST: u64 = 20;

/// How many grades above the worst word the words of a part are at most, less one.
const RISE: u64 = 10;

/// How often a crossing light is drawn for a part.
const DRAWS: usize = 200;

/// After how many parts for the mean without a better fill no more of them are tried.
const PATIENCE: u64 = 150;

/// What a part is to raise.
#[derive(Clone, Copy, Debug, PartialEq, Eq)]
pub enum Goal {
    /// The worst word.
    Worst,
    /// The mean of the grades, with no word below the worst one.
    Mean,
}

/// The entries of a fill, cell by cell, and the grades of its new words, light by light, with `NO_BOUND` for each other
/// light. Both are empty if there is none. Nothing is promised of them, so a search checks them.
#[derive(Drop)]
pub struct EnteredSince {
    pub entries: Vec<Option<Letter>>,
    grades: Vec<u8>,
}

impl EnteredSince {
    /// No fill.
    fn new(alloc: Global) -> EnteredSince {
        EnteredSince {
            entries: Vec::new(alloc),
            grades: Vec::new(alloc),
        }
    }

    /// Notes no fill.
    fn clear(&mut self) {
        self.entries.clear();
        self.grades.clear();
    }

    /// Notes the entry of each cell.
    fn note_entries<E: Feasible>(&mut self, engine: &E) -> Result<(), AllocError> {
        for cell in 0..board(engine).cell_count() {
            self.entries.push(board(engine).entry(cell))?;
        }
        Ok(())
    }

    /// Notes the grade of each new word.
    fn note_grades<E: Feasible>(&mut self, engine: &E, fresh: &[bool]) -> Result<(), AllocError> {
        for light in 0..light_count(engine) {
            let is_new = light < fresh.len() && fresh[light];
            let graded = if is_new { grade(engine, light) } else { None };
            self.grades.push(graded.unwrap_or(NO_BOUND))?;
        }
        Ok(())
    }

    /// Notes the fill that the grid holds; none if an allocation fails. `fresh` has a flag for each light: whether its
    /// word is new.
    pub fn note<E: Feasible>(&mut self, engine: &E, fresh: &[bool]) {
        self.clear();
        if self.note_entries(engine).is_err() || self.note_grades(engine, fresh).is_err() {
            self.clear();
        }
    }

    /// The grade of the worst new word.
    fn worst(&self) -> u8 {
        let mut worst = BEST_GRADE;
        for light in 0..self.grades.len() {
            worst = worst.min(self.grades[light]);
        }
        worst
    }

    /// The grade of a light, if its word is new.
    fn new_grade(&self, light: usize) -> Option<u8> {
        if light < self.grades.len() && self.grades[light] <= BEST_GRADE {
            Some(self.grades[light])
        } else {
            None
        }
    }

    /// The sum of the grades, with `NO_BOUND` for each light whose word is not new.
    fn sum(&self) -> u64 {
        let mut sum: u64 = 0;
        for light in 0..self.grades.len() {
            sum = sum.saturating_add(u64::from(self.grades[light]));
        }
        sum
    }
}

/// How much a light counts in the draw of the first light of a part. For the worst word only lights with the worst grade
/// count; for the mean each new word does, the more the lower its grade.
fn weight_of(noted: &EnteredSince, light: usize, goal: Goal, worst: u8) -> u64 {
    match (noted.new_grade(light), goal) {
        (Some(grade), Goal::Worst) => u64::from(grade <= worst),
        (Some(grade), Goal::Mean) => u64::from(NO_BOUND.saturating_sub(grade)),
        (None, _) => 0,
    }
}

/// The parts that a search empties. They get greater the more of them have no fill, and smaller the more of them are not
/// decided.
/// - `best`: the best fill that was found. `current`: the fill that the last part led to.
/// - `entries`: a fill with a part emptied. `grade`: the least grade of the words that fill it again.
/// - `effort`: what the searches of parts learned of the lights.
/// - `lights`: those that were emptied.
/// - `drawn`: the state of the draws.
/// - `sizes`: the size of the next part for each goal, in tenths of a light, beyond two lights.
/// - `failures`: how many parts for the mean there were since the last better fill.
#[derive(Drop)]
pub struct Parts {
    pub best: EnteredSince,
    pub current: EnteredSince,
    pub entries: Vec<Option<Letter>>,
    pub grade: u8,
    pub effort: Effort,
    lights: Vec<usize>,
    drawn: u64,
    sizes: [u64; 2],
    failures: u64,
}

/// The index of what is kept for a goal.
fn index_of(goal: Goal) -> usize
    ensures { result < 2 }
{
    match goal {
        Goal::Worst => 0,
        Goal::Mean => 1,
    }
}

impl Parts {
    /// The parts of a search that has not begun.
    pub fn new(alloc: Global, lights: usize, seed: u64, graded: bool) -> Result<Parts, AllocError> {
        let effort = Effort::new(alloc, lights, seed, graded)?;
        Ok(Parts {
            best: EnteredSince::new(alloc),
            current: EnteredSince::new(alloc),
            entries: Vec::new(alloc),
            grade: 0,
            effort,
            lights: Vec::new(alloc),
            drawn: seed,
            sizes: [SIZE; 2],
            failures: 0,
        })
    }

    /// Begins a search.
    pub fn begin_search(&mut self) {
        self.failures = 0;
    }

    /// Notes that the grid holds the best fill.
    pub fn note_best<E: Feasible>(&mut self, engine: &E, fresh: &[bool]) {
        self.best.note(engine, fresh);
        self.failures = 0;
    }

    /// Notes that the fill to which the last part led is the best one.
    pub fn keep_current(&mut self) {
        swap(&mut self.best, &mut self.current);
        self.current.clear();
        self.failures = 0;
    }

    /// Whether many parts raised no mean since the last better fill.
    pub fn is_tired(&self) -> bool {
        self.failures >= PATIENCE
    }

    /// Draws a number below `count`.
    fn draw(&mut self, count: u64) -> u64
        requires { 0 < count }
        ensures below { result < count }
        ensures lights { self.new.lights ≡ self.old.lights }
    {
        self.drawn = self.drawn.wrapping_add(0x9e37_79b9_7f4a_7c15);
        let mixed = (self.drawn ^ (self.drawn >> 30)).wrapping_mul(0xbf58_476d_1ce4_e5b9);
        let mixed = (mixed ^ (mixed >> 27)).wrapping_mul(0x94d0_49bb_1331_11eb);
        (mixed ^ (mixed >> 31)) % count
    }

    /// The fill of which a part is emptied: for the worst word, the one that the last part led to, unless it is worse
    /// than the best one.
    fn base(&self, goal: Goal) -> &EnteredSince {
        let is_current = goal == Goal::Worst
            && !self.current.entries.is_empty()
            && self.current.worst() >= self.best.worst();
        if is_current {
            &self.current
        } else {
            &self.best
        }
    }

    /// The weight of all lights in the draw of the first light of a part.
    fn weight(&self, goal: Goal) -> u64 {
        let base = self.base(goal);
        let worst = base.worst();
        let mut total: u64 = 0;
        for light in 0..base.grades.len() {
            total = total.saturating_add(weight_of(base, light, goal, worst));
        }
        total
    }

    /// The light at which a number falls that was drawn below the weight of all lights.
    fn light_at(&self, goal: Goal, number: u64) -> usize {
        let base = self.base(goal);
        let worst = base.worst();
        let mut left = number;
        for light in 0..base.grades.len() {
            let weight = weight_of(base, light, goal, worst);
            if left < weight {
                return light;
            }
            left -= weight;
        }
        0
    }

    /// Begins a part with all entries of the fill.
    fn begin(&mut self, alloc: Global, goal: Goal) -> Result<(), AllocError> {
        self.lights.clear();
        self.entries = Vec::from_slice(alloc, &self.base(goal).entries)?;
        Ok(())
    }

    /// Empties a light.
    fn empty<E: Feasible>(&mut self, engine: &E, light: usize) -> Result<(), AllocError> {
        if light >= light_count(engine) {
            return Ok(());
        }
        self.lights.push(light)?;
        let cells = board(engine).light(light);
        for position in 0..cells.len() {
            let cell = cells.at(position);
            if cell < self.entries.len() {
                self.entries[cell] = None;
            }
        }
        Ok(())
    }

    /// Draws a light that crosses one that was emptied, and whose word is new. `None` if the draw hits no such light.
    fn draw_crossing<E: Feasible>(&mut self, engine: &E, goal: Goal) -> Option<usize> {
        if self.lights.is_empty() {
            return None;
        }
        let count = self.lights.len() as u64;
        let index = self.draw(count) as usize;
        let light = self.lights[index];
        if light >= light_count(engine) {
            return None;
        }
        let count = board(engine).light(light).len() as u64;
        if count == 0 {
            return None;
        }
        let position = self.draw(count) as usize;
        let crossing = board(engine).crossing(light, position)?;
        let is_new = self.base(goal).new_grade(crossing).is_some();
        if is_new && !self.lights.as_slice().contains(&crossing) {
            Some(crossing)
        } else {
            None
        }
    }

    /// Empties lights that cross the part until it has so many.
    fn widen<E: Feasible>(&mut self, engine: &E, goal: Goal, count: u64) -> Result<(), AllocError> {
        for _draw in 0..DRAWS {
            if self.lights.len() as u64 >= count {
                return Ok(());
            }
            if let Some(light) = self.draw_crossing(engine, goal) {
                self.empty(engine, light)?;
            }
        }
        Ok(())
    }

    /// Whether a light has a cell without an entry.
    fn is_emptied<E: Feasible>(&self, engine: &E, light: usize) -> bool {
        if light >= light_count(engine) {
            return false;
        }
        let cells = board(engine).light(light);
        for position in 0..cells.len() {
            let cell = cells.at(position);
            if cell < self.entries.len() && self.entries[cell].is_none() {
                return true;
            }
        }
        false
    }

    /// The worst grade of the words that lose a letter.
    fn worst_emptied<E: Feasible>(&self, engine: &E, goal: Goal) -> u8 {
        let base = self.base(goal);
        let mut worst = BEST_GRADE;
        for light in 0..base.grades.len() {
            if base.grades[light] < worst && self.is_emptied(engine, light) {
                worst = base.grades[light];
            }
        }
        worst
    }

    /// The least grade of the words of the next part. To raise the worst word it is below the bound.
    fn grade_for<E: Feasible>(&mut self, engine: &E, goal: Goal, bound: u8) -> u8 {
        let worst = self.base(goal).worst();
        match goal {
            Goal::Worst => {
                let chance = self.draw(100);
                let rise = (RISE * chance * chance / 10_000) as u8;
                worst.saturating_add(rise + 1).min(bound.saturating_sub(1))
            }
            Goal::Mean if self.draw(2) == 0 => worst,
            Goal::Mean => self
                .worst_emptied(engine, goal)
                .saturating_add(1)
                .min(BEST_GRADE),
        }
    }

    /// Draws a light of the fill, empties it with some that cross it, and chooses the grade of the new words. Returns
    /// whether there is such a part, which it is not if the worst word cannot be better.
    pub fn empty_next<E: Feasible>(
        &mut self,
        alloc: Global,
        engine: &E,
        goal: Goal,
        bound: u8,
    ) -> Result<bool, AllocError> {
        if goal == Goal::Mean {
            self.failures = self.failures.saturating_add(1);
        }
        let weight = self.weight(goal);
        if weight == 0 {
            return Ok(false);
        }
        self.begin(alloc, goal)?;
        let number = self.draw(weight);
        let first = self.light_at(goal, number);
        let size = (self.sizes[index_of(goal)] / 10).max(1);
        let count = self.draw(size).saturating_add(2);
        self.empty(engine, first)?;
        self.widen(engine, goal, count)?;
        self.grade = self.grade_for(engine, goal, bound);
        self.effort.restart();
        self.effort.seed = self.draw(1 << 40);
        Ok(goal == Goal::Mean || self.grade > self.base(goal).worst())
    }

    /// Notes what the search of a part found, and the fill that the grid then holds. Returns whether this seems to be
    /// better than the best one.
    pub fn note<E: Feasible>(
        &mut self,
        engine: &E,
        fresh: &[bool],
        goal: Goal,
        filling: Filling,
    ) -> bool {
        let is_better = filling == Filling::Filled && self.is_better_now(engine, fresh, goal);
        self.resize(goal, filling, is_better);
        is_better
    }

    /// Chooses the size of the next part. One that found what was there already is too small.
    fn resize(&mut self, goal: Goal, filling: Filling, is_better: bool) {
        let size = self.sizes[index_of(goal)];
        let is_small = match filling {
            Filling::NoFill => true,
            Filling::Limit => false,
            Filling::Filled => goal == Goal::Mean && !is_better,
        };
        self.sizes[index_of(goal)] = if is_small {
            size.saturating_add(1)
        } else {
            size.saturating_sub(1).max(SMALLEST)
        };
    }

    /// Notes the fill that the grid holds. Returns whether it seems to be better than the best one. If not, the next part
    /// for the mean begins with the best one again.
    fn is_better_now<E: Feasible>(&mut self, engine: &E, fresh: &[bool], goal: Goal) -> bool {
        self.current.note(engine, fresh);
        let is_better = self.is_better();
        if goal == Goal::Mean && !is_better {
            self.current.clear();
        }
        is_better
    }

    /// Whether the current fill seems to be better than the best one.
    fn is_better(&self) -> bool {
        let worst = self.current.worst();
        let best = self.best.worst();
        worst > best || (worst == best && self.current.sum() > self.best.sum())
    }
}
