//! Queries over the lights of an engine. A light is given by its index in light order.
ghost use Rattle.std.specs.Prelude.{◌≡◌, ◌<◌, length, false, MatchOption};
ghost use Rattle.xw_fill.specs.OfState.{IsNextWord, HasNoMore, lacks_words, chosen, scanned};
ghost use Rattle.xw_search.specs.OfState.{is_entered, light_count};
ghost use Rattle.xw_fill.specs.Inner.OfState.{AreEntered};
ghost use Rattle.xw_search.specs.Below.{first_below};
ghost use Rattle.xw_fill.specs.Inner.EnteredSince.{has_note};

use xw_feas::edit::Found;
use xw_feas::feasible::Feasible;
use xw_search::lights::{is_entered, light_count, word_count};

/// Returns the first light without a feasible word.
pub(crate) fn first_without_words<E: Feasible>(engine: &E) -> Option<usize>
    ensures { result ≡ first_below (lacks_words (E.state engine.now)) (light_count (E.state engine.now)) }
{
    for light in 0..light_count(engine) {
        if word_count(engine, light) == 0 {
            return Some(light);
        }
    }
    None
}

/// Returns the chosen light: of the lights that are not wholly entered, the first with the fewest feasible words.
/// Returns `None` if all lights are wholly entered.
pub(crate) fn chosen<E: Feasible>(engine: &E) -> Option<usize>
    ensures { result ≡ chosen (E.state engine.now) }
{
    let mut best = None;
    let mut fewest = 0;
    for light in 0..light_count(engine) {
        if !is_entered(engine, light) {
            let count = word_count(engine, light);
            if best.is_none() || count < fewest {
                best = Some(light);
                fewest = count;
            }
        }
    }
    best
}

/// The result of one scan of all lights.
#[derive(Clone, Copy)]
pub(crate) enum Scan {
    /// Some light has no feasible word.
    Blocked,
    /// Each light has a feasible word. The value is the chosen light, if any.
    Open(Option<usize>),
}

/// Scans all lights, with one count of words per light. `since` must have a note for exactly the wholly entered
/// lights.
pub(crate) fn scan_lights<E: Feasible>(engine: &E, since: &[Option<usize>]) -> Scan
    requires long { length since.now ≡ light_count (E.state engine.now) }
    requires entered { AreEntered (E.state engine.now) (has_note since.now) }
    ensures { result ≡ scanned (E.state engine.now) }
{
    let mut best = None;
    let mut least = 0;
    for light in 0..light_count(engine) {
        let count = word_count(engine, light);
        if count == 0 {
            return Scan::Blocked;
        }
        let entered = since[light].is_some();
        if !entered {
            if best.is_none() || count < least {
                best = Some(light);
                least = count;
            }
        }
    }
    Scan::Open(best)
}

/// Returns the index of the first feasible word at `from` or later. The light must not be wholly entered.
pub fn next_word_index<E: Feasible>(engine: &E, light: usize, from: usize) -> Option<usize>
    requires light { light < light_count (E.state engine.now) }
    requires not_entered { is_entered (E.state engine.now) light ≡ false }
    ensures { MatchOption result (HasNoMore (E.state engine.now) light from) (λ index. IsNextWord (E.state engine.now) light from index) }
{
    match engine.next_word_at(light, from) {
        None => None,
        Some(found) => match found {
            Found::Listed(index) => Some(index),
            Found::Entered => None,
        },
    }
}
