//! Finds the lights that command lines name.
ghost use Rattle.std.specs.Prelude.{◌≡◌, ◌≤◌, true, false, IfOk, IfErr, OnOk, IfSome, IfNone, is_some};
ghost use Rattle.xw_grid.specs.Light.{lights_of, index_named};
ghost use Rattle.xw_search.specs.NamedFill.{AreLights};
ghost use Rattle.xw_session.specs.Reply.{name_of_light};
ghost use Rattle.xw_session.specs.NamedSearch.{names_of as spec_names_of, IsUnsearched};

use std::alloc::Global;
use xw_commands::command::LightArg;
use xw_commands::lights::LightArgs;
use xw_feas::edit::Refusal;
use xw_feas::feasible::Feasible;
use xw_grid::{GridFault, LightName};

/// Converts a light's name from a command. Returns `None` if its number does not fit in 16 bits.
pub fn light_name(named: LightArg) -> Option<LightName>
    ensures some { IfSome result (λ name. name ≡ name_of_light named) }
    ensures none { IfNone result (65536 ≤ named.number) }
{
    match u16::try_from(named.number) {
        Ok(number) => Some(LightName {
            number,
            direction: named.direction,
        }),
        Err(_) => None,
    }
}

/// Returns the name of a light that a command names, or `None` if the grid has no such light.
pub(crate) fn known_name<E: Feasible>(engine: &E, named: LightArg) -> Option<LightName>
    ensures some { IfSome result (λ name. (name ≡ name_of_light named) × (is_some (index_named (lights_of (E.state engine.now).grid) (name_of_light named)) ≡ true)) }
    ensures none { IfNone result (is_some (index_named (lights_of (E.state engine.now).grid) (name_of_light named)) ≡ false) }
{
    engine.grid().well_formed();
    let name = light_name(named)?;
    if engine.lights().index(name).is_some() {
        Some(name)
    } else {
        None
    }
}

/// Returns whether the grid has each of these lights.
pub(crate) fn are_lights<E: Feasible>(engine: &E, lights: LightArgs<'_>) -> bool
    ensures yes { result ≡ true → AreLights (E.state engine.now) (spec_names_of lights.entry) }
    ensures no { result ≡ false → AreLights (E.state engine.now) (spec_names_of lights.entry) → ⊥ }
{
    for named in lights {
        if known_name(engine, named).is_none() {
            return false;
        }
    }
    true
}

/// Returns the names of lights. Returns `NoLight` if the grid lacks one of them, and otherwise `Memory` if an
/// allocation fails.
pub(crate) fn names_of<E: Feasible>(
    alloc: Global,
    engine: &E,
    lights: LightArgs<'_>,
) -> Result<Vec<LightName>, Refusal>
    ensures ok { IfOk result (λ names. names.items ≡ spec_names_of lights.entry) }
    ensures known { OnOk result (AreLights (E.state engine.now) (spec_names_of lights.entry)) }
    ensures refused { IfErr result (IsUnsearched (E.state engine.now) (spec_names_of lights.entry)) }
{
    let mut names = Vec::new(alloc);
    let mut is_short = false;
    for named in lights {
        let Some(name) = known_name(engine, named) else {
            return Err(Refusal::NoLight);
        };
        is_short |= names.push(name).is_err();
    }
    if is_short {
        return Err(Refusal::Grid(GridFault::Memory));
    }
    Ok(names)
}
