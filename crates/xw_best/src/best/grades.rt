//! Tests which grades a fill of a grid can have.
ghost use Rattle.std.specs.Prelude.{◌≡◌, ℕ, suc, ◌<◌, ◌≤◌, true, false, length, IfOk};
ghost use Rattle.xw_words.specs.Dictionary.{best_grade};
ghost use Rattle.xw_search.specs.OfState.{light_count, spelling};
ghost use Rattle.xw_best.specs.Inner.OfState.{AreFresh};
ghost use Rattle.xw_search.specs.NamedFill.{flags};
ghost use Rattle.xw_best.specs.Best.{at_least};
ghost use Rattle.xw_best.specs.Inner.Climbing.{DiffersInLeast, IsDeadAt, AreAliveAt, IsActiveAt, AreActiveAt, new_grade, grade_sum};

use std::alloc::{AllocError, Global};
use xw_feas::edit::Edit;
use xw_feas::feasible::Feasible;
use xw_search::checks::first_dead;
use xw_search::lights::{is_entered, light_count};
use xw_search::listing::{grade, size_of, word_index};

/// The greatest grade of a word.
pub const BEST_GRADE: u8 = 100;

/// One more than the greatest grade: a bound that says nothing.
pub const NO_BOUND: u8 = BEST_GRADE + 1;

/// Leaves out the words below a grade, and brings back the others.
pub fn choose_least<E: Feasible>(engine: &mut E, grade: u8)
    ensures state { E.state engine.new ≡ at_least (E.state engine.old) grade }
    ensures count { E.placed engine.new ≡ E.placed engine.old }
{
    let _ = engine.edit(&Edit::Least(grade));
}

/// Leaves out the words below a grade. Returns whether a watched light then has no feasible word.
fn is_dead_at<E: Feasible>(engine: &mut E, watched: &[bool], grade: u8) -> bool
    requires long { length watched.now ≡ light_count (E.state engine.old) }
    ensures state { E.state engine.new ≡ at_least (E.state engine.old) grade }
    ensures dead { result ≡ true → IsDeadAt (flags watched.now) (E.state engine.old) grade }
    ensures alive { result ≡ false → AreAliveAt (flags watched.now) (E.state engine.old) grade }
    ensures count { E.placed engine.new ≡ E.placed engine.old }
{
    choose_least(engine, grade);
    first_dead(engine, watched).is_some()
}

/// Finds, by bisection from `from` to below `to`, a grade at which a watched light has no feasible word although each
/// has one at the grade below. Returns `to` if there is none. Changes the least grade.
pub fn first_deadly<E: Feasible>(engine: &mut E, watched: &[bool], from: u8, to: u8) -> u8
    requires long { length watched.now ≡ light_count (E.state engine.old) }
    requires ordered { from ≤ to }
    requires graded { to ≤ suc best_grade }
    ensures state { DiffersInLeast (E.state engine.old) (E.state engine.new) }
    ensures above { from ≤ result }
    ensures below { result ≤ to }
    ensures dead { result < to → IsDeadAt (flags watched.now) (E.state engine.old) result }
    ensures alive { (grade : ℕ) → from ≤ grade → suc grade ≡ result → AreAliveAt (flags watched.now) (E.state engine.old) grade }
    ensures count { E.placed engine.new ≡ E.placed engine.old }
{
    let mut low = from;
    let mut high = to;
    while low < high {
        let grade = low + (high - low) / 2;
        if is_dead_at(engine, watched, grade) {
            high = grade;
        } else {
            low = grade + 1;
        }
    }
    high
}

/// The grade of the word that a light spells; 0 if it is not known.
fn grade_of<E: Feasible>(engine: &E, light: usize) -> u8
    requires { light < light_count (E.state engine.now) }
    ensures within { result ≤ best_grade }
    ensures active { (grade : ℕ) → grade ≤ best_grade → IsActiveAt (E.state engine.now) grade (spelling (E.state engine.now) light) → grade ≤ result }
    ensures reached { (grade other : ℕ) → IsActiveAt (E.state engine.now) other (spelling (E.state engine.now) light) → grade ≤ result → IsActiveAt (E.state engine.now) grade (spelling (E.state engine.now) light) }
{
    match word_index(engine, light) {
        None => 0,
        Some(index) => engine.bank().grade(size_of(engine, light), index),
    }
}

/// The least grade of the words that the wholly entered flagged lights spell; `BEST_GRADE` if there are none.
pub fn worst_grade<E: Feasible>(engine: &E, flagged: &[bool]) -> u8
    requires long { length flagged.now ≡ light_count (E.state engine.now) }
    ensures within { result ≤ best_grade }
    ensures active { (grade : ℕ) → grade ≤ best_grade → AreActiveAt (flags flagged.now) (E.state engine.now) grade → grade ≤ result }
    ensures reached { (grade other : ℕ) → AreActiveAt (flags flagged.now) (E.state engine.now) other → grade ≤ result → AreActiveAt (flags flagged.now) (E.state engine.now) grade }
{
    let mut worst = BEST_GRADE;
    for light in 0..light_count(engine) {
        if flagged[light] && is_entered(engine, light) {
            worst = worst.min(grade_of(engine, light));
        }
    }
    worst
}

/// The grade of the word that a flagged light spells; 0 if the light has no flag, and if the word is not known.
fn new_grade<E: Feasible>(engine: &E, flagged: &[bool], light: usize) -> u8
    requires long { length flagged.now ≡ light_count (E.state engine.now) }
    requires light { light < light_count (E.state engine.now) }
    ensures { result ≡ new_grade (flags flagged.now) (E.state engine.now) light }
{
    if !flagged[light] {
        return 0;
    }
    grade(engine, light).unwrap_or(0)
}

/// The sum of the grades of the words that the flagged lights spell.
pub fn grade_sum<E: Feasible>(engine: &E, flagged: &[bool]) -> u64
    requires long { length flagged.now ≡ light_count (E.state engine.now) }
    ensures { result ≡ grade_sum (flags flagged.now) (E.state engine.now) }
{
    let mut sum = 0;
    for light in 0..light_count(engine) {
        sum += u64::from(new_grade(engine, flagged, light));
    }
    sum
}

/// A flag for each light: whether it is not wholly entered.
pub fn fresh_lights<E: Feasible>(alloc: Global, engine: &E) -> Result<Vec<bool>, AllocError>
    ensures { IfOk result (λ fresh. AreFresh (E.state engine.now) fresh.items) }
{
    let mut fresh = Vec::new(alloc);
    for light in 0..light_count(engine) {
        fresh.push(!is_entered(engine, light))?;
    }
    Ok(fresh)
}
