//! What searches for fills share: the lights of an engine, repeated and unlisted words, the placements of a search, and the search that fills
//! the lights of a plan letter by letter. Works over any engine that implements `Feasible`; filling needs one that implements `Searchable`.
#![tactic(auto)]

pub mod allowance;
pub mod checks;
mod choice;
pub mod filling;
pub mod flags;
pub mod frame;
pub mod letters;
pub mod lights;
pub mod listing;
pub mod placement;
pub mod plan;
pub mod repeats;
pub mod run;
pub mod stack;
pub mod writing;
