//! Which lights are named: a flag for each light.
ghost use Rattle.std.specs.Prelude.{◌≡◌, length, replicate, true, IfOk, IfErr, OnOk, ◌<◌};
ghost use Rattle.xw_search.specs.OfState.{light_count};
ghost use Rattle.xw_search.specs.NamedFill.{AreFlags, IsNoLight, IsRefusal, AreFlagged};

use crate::lights::light_count;
use std::alloc::{AllocError, Global};
use xw_feas::edit::Refusal;
use xw_feas::feasible::Feasible;
use xw_grid::cell::LightName;

/// Sets the flag of each named light. Returns `NoLight` if one of the names belongs to no light.
fn flag_lights<E: Feasible>(
    engine: &E,
    names: &[LightName],
    named: &mut [bool],
) -> Result<(), Refusal>
    requires { length named.old ≡ light_count (E.state engine.now) }
    ensures ok { OnOk result (AreFlagged (E.state engine.now) names.now named.old named.new) }
    ensures refused { IfErr result (IsNoLight (E.state engine.now) names.now) }
{
    for index in 0..names.len() {
        match engine.lights().index(names[index]) {
            Some(light) => named[light] = true,
            None => return Err(Refusal::NoLight),
        }
    }
    Ok(())
}

/// A flag for each light: whether its name is in a list. Returns `NoLight` if one of the names belongs to no light,
/// and `Memory` if an allocation fails.
pub fn flags_of<E: Feasible>(
    alloc: Global,
    engine: &E,
    names: &[LightName],
) -> Result<Vec<bool>, Refusal>
    requires { 0 < length names.now }
    ensures ok { IfOk result (λ named. AreFlags (E.state engine.now) names.now named.items) }
    ensures refused { IfErr result (IsRefusal (E.state engine.now) names.now) }
{
    let mut named = vec![in alloc; false; light_count(engine)]?;
    flag_lights(engine, names, &mut named)?;
    Ok(named)
}

/// A set flag for each light.
pub fn all_lights<E: Feasible>(alloc: Global, engine: &E) -> Result<Vec<bool>, AllocError>
    ensures { IfOk result (λ named. named.items ≡ replicate (light_count (E.state engine.now)) true) }
{
    vec![in alloc; true; light_count(engine)]
}
