//! Tests whether a position rules out a fill.
ghost use Rattle.std.specs.Prelude.{◌≡◌, ◌<◌, length, true, false, IfSome, IfNone};
ghost use Rattle.xw_feas.specs.Board.{board_of};
ghost use Rattle.xw_search.specs.OfState.{light_count, is_spelled_again, IsDead, AreAlive, repeats_with, IsRepeatedAt, IsApartAt};
ghost use Rattle.xw_search.specs.NamedFill.{flags};

use crate::lights::{board, is_entered, light_count, spell_same, word_count};
use xw_feas::feasible::Feasible;

/// The first watched light without a feasible word.
pub fn first_dead<E: Feasible>(engine: &E, watched: &[bool]) -> Option<usize>
    requires { length watched.now ≡ light_count (E.state engine.now) }
    ensures dead { IfSome result (IsDead (flags watched.now) (E.state engine.now)) }
    ensures alive { IfNone result (AreAlive (flags watched.now) (E.state engine.now)) }
{
    for light in 0..light_count(engine) {
        if watched[light] && word_count(engine, light) == 0 {
            return Some(light);
        }
    }
    None
}

/// Whether a light is wholly entered and spells the same as another one.
fn is_spelled_again<E: Feasible>(engine: &E, light: usize) -> bool
    requires { light < light_count (E.state engine.now) }
    ensures { result ≡ is_spelled_again (E.state engine.now) light }
{
    if !is_entered(engine, light) {
        return false;
    }
    for other in 0..light_count(engine) {
        if other != light && spell_same(engine, light, other) {
            return true;
        }
    }
    false
}

/// The light, if it is wholly entered and spells the same as another one.
fn repeated<E: Feasible>(engine: &E, light: Option<usize>) -> bool
    requires { IfSome light (λ light. light < light_count (E.state engine.now)) }
    ensures { result ≡ repeats_with (E.state engine.now) light }
{
    match light {
        Some(light) => is_spelled_again(engine, light),
        None => false,
    }
}

/// Whether a light through a cell is wholly entered and spells the same as another one.
pub fn has_repeat_at<E: Feasible>(engine: &E, cell: usize) -> bool
    requires { cell < length (board_of (E.state engine.now).grid).open_cells }
    ensures yes { result ≡ true → IsRepeatedAt (E.state engine.now) }
    ensures no { result ≡ false → IsApartAt (E.state engine.now) cell }
{
    let (across, down) = board(engine).lights_at(cell);
    repeated(engine, across) || repeated(engine, down)
}
