//! Which grades a search for the best fill tries, and with how many placements each.
ghost use Rattle.std.specs.Prelude.{◌≡◌, ◌<◌, ◌≤◌};
ghost use Rattle.xw_best.specs.Inner.Climbing.{HasScheduled};

use crate::best::grades::NO_BOUND;
use crate::best::parts::Goal;
use crate::best::probe::Probe;

/// How many placements a grade gets first, until there is a fill.
const FIRST: u64 = 750;

/// How many placements a grade gets first after a fill.
const BUDGET: u64 = 2000;

/// A search that may make fewer placements hurries: its first step down is short, and it leaps.
const FEW: u64 = 5000;

/// How many placements the first step down gets in a search that hurries.
const PRICE: u64 = 200;

/// After a fill that took fewer placements, the next step up is a leap in a search that hurries.
const EASY: u64 = 300;

/// How many placements a leap gets at least. It gets twice those of the fill before it, if these are more.
const LEAP: u64 = 200;

/// How many grades a step up goes that follows the first one or a leap. The first one and leaps go halfway to the bound.
const STEP: u8 = 8;

/// How many grades a later step up goes at most.
const LONGEST: u8 = 16;

/// Of ten placements, those for the bound.
const TENTHS_DOWN: u64 = 2;

/// With fewer placements for the last bound, the next step down goes three grades.
const CHEAP: u64 = 200;

/// With fewer placements for the last bound, the next step down goes two grades.
const FAIR: u64 = 800;

/// How many times the placements of the last bound the next one gets.
const DEARER: u64 = 4;

/// How many placements grades get before parts around a worst word are tried.
const LATE: u64 = 20_000;

/// For each hundred later placements of grades, how many those parts get.
const PARTS: u64 = 15;

/// The last of so many equal shares of the placements is for the mean.
const SHARES: u64 = 12;

/// What a search does next: it tries a grade, or a part with a goal.
#[derive(Clone, Copy, Debug, PartialEq, Eq)]
pub enum Turn {
    Grade,
    Part(Goal),
}

/// Whether a search looks for a better fill or for a better bound.
#[derive(Clone, Copy, Debug, PartialEq, Eq)]
pub enum Direction {
    Up,
    Down,
}

/// The progress of a search for the best fill. It goes up from the best fill, in steps that get longer with each fill
/// and shorter with each grade that is not decided, and in turn down from the bound, by fewer grades the more the last
/// bound cost. If a step of one grade is not decided, the next one in its direction gets twice as many placements. With
/// few placements it hurries: after a fill that came easily it leaps, which is to try the grade halfway to the bound with
/// few placements.
/// Which grades are tried is not promised.
/// - `direction`: of the grade that is tried now.
/// - `spent`: how many placements this grade has used.
/// - `step`, `budget`: how far the next step up goes, and its placements. `leap`: its placements if it is a leap.
/// - `stride`, `price`: how far the next step down goes beyond one grade, and its placements.
/// - `hurries`: whether it may make few placements, with those of the searches that it continues.
/// - `up`, `down`, `parts`: the placements that were made in each direction, and for parts around a worst word.
/// - `reserve`: how many placements are left for the mean.
/// - `floor`: one more than the best grade at which this search, or one that it continues, found a fill. Grades below
///   it are tried only if there is no fill at it.
/// - `ceiling`: the least grade at which it found that there is no fill. Grades from it on are tried only if no grade
///   below it can have a fill.
#[derive(Clone, Copy)]
pub struct Pace {
    pub direction: Direction,
    pub spent: u64,
    step: u8,
    budget: u64,
    leap: Option<u64>,
    stride: u8,
    price: u64,
    hurries: bool,
    up: u64,
    down: u64,
    parts: u64,
    reserve: u64,
    floor: u8,
    ceiling: u8,
}

impl Pace {
    /// The pace of a search that has not begun.
    pub fn new() -> Pace {
        Pace {
            direction: Direction::Up,
            spent: 0,
            step: NO_BOUND,
            budget: FIRST,
            leap: None,
            stride: 2,
            price: BUDGET,
            hurries: false,
            up: 0,
            down: 0,
            parts: 0,
            reserve: 0,
            floor: 0,
            ceiling: NO_BOUND,
        }
    }

    /// Begins a search with so many placements.
    pub fn begin(&mut self, left: u64) {
        self.reserve = left / SHARES;
        let made = self.up.saturating_add(self.down);
        self.hurries = made.saturating_add(left) < FEW;
        if self.hurries && self.down == 0 {
            self.price = PRICE;
        }
    }

    /// How many of the placements that are left are not for the mean.
    pub fn spare(&self, may_raise: bool, left: u64) -> u64
        ensures { result ≤ left }
    {
        if may_raise {
            left.saturating_sub(self.reserve)
        } else {
            left
        }
    }

    /// What a search does next with the placements that are left, while its best fill is not proved to be the best.
    /// `may_raise` says whether parts can raise the mean of a fill.
    pub fn next_turn(&self, may_raise: bool, left: u64) -> Turn {
        if self.spare(may_raise, left) == 0 {
            return Turn::Part(Goal::Mean);
        }
        let late = self.up.saturating_add(self.down).saturating_sub(LATE);
        if self.floor > 0 && self.spent == 0 && self.parts < late / 100 * PARTS {
            return Turn::Part(Goal::Worst);
        }
        Turn::Grade
    }

    /// Counts the placements of a part.
    pub fn count_part(&mut self, goal: Goal, made: u64)
        ensures { goal ≡ Goal.Worst → HasScheduled self.old self.new made }
    {
        if goal == Goal::Worst {
            self.parts = self.parts.saturating_add(made);
        }
    }

    /// The grade to try, if a fill at `least` would be new, and there is none at `bound`. If an earlier search found
    /// that there is no fill at `least` either, it is this grade.
    pub fn grade(&mut self, least: u8, bound: u8) -> u8
        requires { least < bound }
        ensures least { least ≤ result }
        ensures bound { result < bound }
    {
        if self.ceiling <= least {
            return least;
        }
        let last = bound.min(self.ceiling) - 1;
        let first = if self.floor <= last {
            least.max(self.floor)
        } else {
            least
        };
        if first == last {
            // A proof or a fill at this grade ends the search, so it gets all placements.
            self.direction = Direction::Down;
        }
        if self.direction == Direction::Down {
            return last.saturating_sub(self.stride).max(first);
        }
        self.step = self.step.min((last - first) / 2 + 1);
        first + self.step.saturating_sub(1)
    }

    /// How many placements this grade still gets.
    pub fn share(&self) -> u64
        ensures { 0 < result }
    {
        let budget = match self.direction {
            Direction::Up => self.leap.unwrap_or(self.budget),
            Direction::Down => self.price,
        };
        budget.saturating_sub(self.spent).max(1)
    }

    /// Notes what a search at a grade found with so many placements, and chooses the next direction. A search that was
    /// given fewer placements than `share` goes on.
    pub fn note(&mut self, grade: u8, probe: Probe, made: u64) {
        let is_over = made >= self.share();
        self.count(made);
        if probe == Probe::Limit && !is_over {
            return;
        }
        match probe {
            Probe::Filled(least) => self.floor = least.saturating_add(1),
            Probe::NoFill => self.ceiling = grade,
            Probe::Limit => {}
        }
        match self.direction {
            Direction::Up => self.step_after(probe),
            Direction::Down => self.stride_after(probe),
        }
        self.turn();
    }

    /// Counts placements.
    fn count(&mut self, made: u64) {
        self.spent = self.spent.saturating_add(made);
        match self.direction {
            Direction::Up => self.up = self.up.saturating_add(made),
            Direction::Down => self.down = self.down.saturating_add(made),
        }
    }

    /// The next step up.
    fn step_after(&mut self, probe: Probe) {
        let has_leapt = self.leap.is_some();
        self.leap = None;
        match probe {
            Probe::Filled(_) => self.step_after_fill(),
            Probe::Limit if has_leapt => self.step = (self.step / 2).min(STEP).max(1),
            Probe::Limit if self.step <= 1 => {
                self.budget = self.budget.saturating_mul(2);
                self.step = STEP / 2;
            }
            _ => self.step = (self.step / 2).max(1),
        }
    }

    /// The next step up after a fill.
    fn step_after_fill(&mut self) {
        self.budget = (self.budget / 2).max(BUDGET);
        if self.hurries && self.spent < EASY {
            self.leap = Some(self.spent.saturating_mul(2).max(LEAP));
            self.step = NO_BOUND;
        } else if self.step > LONGEST {
            self.step = STEP;
        } else {
            self.step = self.step.saturating_mul(2).min(LONGEST);
        }
    }

    /// The next step down.
    fn stride_after(&mut self, probe: Probe) {
        if probe == Probe::Limit {
            if self.stride == 0 {
                self.price = self.price.saturating_mul(2);
            }
            self.stride = 0;
            return;
        }
        self.price = self.price.max(self.spent.saturating_mul(DEARER));
        self.stride = if self.spent < CHEAP {
            2
        } else if self.spent < FAIR {
            1
        } else {
            0
        };
    }

    /// Turns to the next grade.
    fn turn(&mut self) {
        self.spent = 0;
        let is_down = self.down < self.up.saturating_add(self.down) / 10 * TENTHS_DOWN;
        self.direction = if is_down {
            Direction::Down
        } else {
            Direction::Up
        };
    }
}
