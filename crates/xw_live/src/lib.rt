//! The engine that updates the feasible words and letters of a grid after each edit.
#![tactic(auto)]

pub mod levels;
pub mod live;
pub mod searching;
mod settling;

pub use live::Live;
pub use searching::Saved;
pub use xw_net::Net;
