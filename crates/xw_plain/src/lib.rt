//! The plain engine: a simple, slow engine that computes all answers from scratch after each
//! edit.
#![tactic(auto)]

mod flags;
pub mod plain;
mod rows;
pub mod searching;
mod standing;

pub use plain::Plain;
pub use searching::Saved;
