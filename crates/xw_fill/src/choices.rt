//! The least number of words that a light has left once a word is placed.
ghost use Rattle.std.specs.Prelude.{◌≡◌, ℕ, ◌<◌, slice_index_or, [], false, IfSome};
ghost use Rattle.xw_feas.specs.Board.{board_of};
ghost use Rattle.xw_fill.specs.OfState.{fewest_words as spec_fewest_words, IsTriedAt, spellings_at};
ghost use Rattle.xw_search.specs.OfState.{is_entered, light_count};
ghost use Rattle.xw_fill.specs.Choices.{fewest_after as spec_fewest_after, CrossesNone};

use crate::scan::{chosen, next_word_index};
use crate::trial::Trial;
use xw_feas::feasible::Feasible;
use xw_search::lights::{board, word_count};

/// Returns the least number of feasible words of a light that is not wholly entered, or `None` if all lights are.
pub fn fewest_words<E: Feasible>(engine: &E) -> Option<usize>
    ensures { result ≡ spec_fewest_words (E.state engine.now) }
{
    match chosen(engine) {
        Some(light) => Some(word_count(engine, light)),
        None => None,
    }
}

/// Returns the same number for the state after a feasible word is placed. Allocates no memory, and leaves the engine's
/// state as it was.
pub fn fewest_after<E: Feasible>(engine: &mut E, light: usize, index: usize) -> Option<usize>
    requires tried { IsTriedAt (E.state engine.old) light index }
    ensures fewest { result ≡ spec_fewest_after (E.state engine.old) light (slice_index_or (spellings_at (E.state engine.old) light) index []) }
    ensures unchanged { E.state engine.new ≡ E.state engine.old }
{
    let trial = Trial::place(engine, light, index);
    let fewest = fewest_words(engine);
    trial.take_back(engine);
    fewest
}

/// Returns whether another light passes through a cell of a light.
fn is_crossed<E: Feasible>(engine: &E, light: usize) -> bool
    requires { light < light_count (E.state engine.now) }
    ensures { result ≡ false → CrossesNone (board_of (E.state engine.now).grid) light }
{
    let board = board(engine);
    for position in 0..board.light(light).len() {
        if board.crossing(light, position).is_some() {
            return true;
        }
    }
    false
}

/// Returns the same number for all feasible words of a light that no other light crosses: they all leave the same.
/// Returns `None` if another light crosses it, or if it has no feasible word. Allocates no memory, and leaves the
/// engine's state as it was.
pub fn fewest_after_any<E: Feasible>(engine: &mut E, light: usize) -> Option<Option<usize>>
    requires light { light < light_count (E.state engine.old) }
    requires not_entered { is_entered (E.state engine.old) light ≡ false }
    ensures fewest { IfSome result (λ fewest. (index : ℕ) → IsTriedAt (E.state engine.old) light index
        → fewest ≡ spec_fewest_after (E.state engine.old) light (slice_index_or (spellings_at (E.state engine.old) light) index [])) }
    ensures unchanged { E.state engine.new ≡ E.state engine.old }
{
    if is_crossed(engine, light) {
        return None;
    }
    let index = next_word_index(engine, light, 0)?;
    Some(fewest_after(engine, light, index))
}
