//! Searches for the best fill of the named lights, over any engine that implements `Searchable`.
#![tactic(auto)]

pub mod best;
pub mod laws;
