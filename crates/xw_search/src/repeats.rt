//! Finds whether the grid repeats a word. Each light is compared only with earlier lights of the same length.
ghost use Rattle.std.specs.Prelude.{◌≡◌, ◌<◌, ◌≤◌, length, IfOk};
ghost use Rattle.xw_search.specs.OfState.{is_repeat, light_count, size_of, last_of_size, AreLinked};
ghost use Rattle.xw_search.specs.Below.{any_below};

use crate::lights::{board, is_entered, light_count, spell_same};
use std::alloc::{AllocError, Global};
use xw_feas::feasible::Feasible;
use xw_words::word::LONGEST;

/// Returns the number of cells of a light.
fn size<E: Feasible>(engine: &E, light: usize) -> usize
    requires { light < light_count (E.state engine.now) }
    ensures size { result ≡ size_of (E.state engine.now) light }
    ensures short { result ≤ 255 }
{
    board(engine).light(light).len()
}

/// Returns whether a light spells the same as an earlier one. `last` is the previous wholly entered light of its
/// length; `earlier` links each of these to the previous one.
fn is_repeat<E: Feasible>(
    engine: &E,
    light: usize,
    last: Option<usize>,
    earlier: &[Option<usize>],
) -> bool
    requires light { light < light_count (E.state engine.now) }
    requires last { last ≡ last_of_size (E.state engine.now) (size_of (E.state engine.now) light) light }
    requires long { length earlier.now ≡ light_count (E.state engine.now) }
    requires linked { AreLinked (E.state engine.now) light earlier.now }
    ensures { result ≡ is_repeat (E.state engine.now) light }
{
    let mut next = last;
    while let Some(other) = next {
        if spell_same(engine, light, other) {
            return true;
        }
        next = earlier[other];
    }
    false
}

/// Returns whether two wholly entered lights spell the same. Fails only if the allocation fails.
pub fn has_repeat<E: Feasible>(alloc: Global, engine: &E) -> Result<bool, AllocError>
    ensures { IfOk result (λ repeats. repeats ≡ any_below (is_repeat (E.state engine.now)) (light_count (E.state engine.now))) }
{
    let mut earlier = vec![in alloc; None; light_count(engine)]?;
    let mut last = [None; LONGEST + 1];
    for light in 0..light_count(engine) {
        if is_entered(engine, light) {
            let size = size(engine, light);
            if is_repeat(engine, light, last[size], &earlier) {
                return Ok(true);
            }
            earlier[light] = last[size];
            last[size] = Some(light);
        }
    }
    Ok(false)
}
