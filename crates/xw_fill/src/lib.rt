//! Suggests words, says what the choice of a word leaves, fills grids or named lights, and says why a light has no feasible word. Works over any
//! engine that implements `Feasible`; filling needs one that implements `Searchable`.
#![tactic(auto)]

pub mod choices;
mod entered_since;
pub mod laws;
pub mod named_lights;
pub mod scan;
pub mod search;
pub mod suggesting;
mod trial;
mod tries;
pub mod why;

pub use choices::{fewest_after, fewest_words};
pub use named_lights::autofill;
pub use search::fill;
pub use suggesting::{Suggestion, suggest};
pub use why::{NoReason, reason};
pub use xw_search::filling::Filling;
pub use xw_search::listing::{Duplicate, duplicates, unlisted};
