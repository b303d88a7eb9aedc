//! How a search for a fill ends.

/// How a search for a fill ended.
/// - `Filled`: the grid holds a fill.
/// - `NoFill`: no fill exists.
/// - `Limit`: the search needs more placements than the limit.
#[derive(Clone, Copy, Debug, PartialEq, Eq)]
pub enum Filling {
    Filled,
    NoFill,
    Limit,
}
