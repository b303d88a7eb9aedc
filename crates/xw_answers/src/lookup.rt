//! Finds lights by their names.
ghost use Rattle.std.specs.Prelude.{◌≡◌, slice_get};
ghost use Rattle.std.specs.Option.{option_and_then};
ghost use Rattle.xw_grid.specs.Light.{index_named};

use xw_grid::{Light, LightName, Lights};

/// Returns the light with this name, if the grid has one.
pub fn light_named(lights: &Lights, name: LightName) -> Option<Light>
    ensures { result ≡ option_and_then (slice_get lights.now) (index_named lights.now name) }
{
    lights.get(lights.index(name)?)
}
