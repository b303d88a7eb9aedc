//! The net: the words and letters of a grid that support one another, and the algorithm that
//! updates them after each edit.
//!
//! An update has two phases. The revival puts back words and letters that may have become feasible,
//! along a chain of lights that starts where the edit touched the grid. Stripping then removes
//! words and letters without support, until none is left.
#![tactic(auto)]

mod base;
mod begin;
mod blank;
mod copy;
mod counts;
mod enter;
mod fill;
mod fit;
mod forget;
mod gone;
pub mod laws;
pub mod level;
mod light_position;
mod narrow;
pub mod net;
mod pass;
mod queries;
mod renumber;
mod reserve;
mod room;
mod seeds;
mod seen;
mod settle;
pub mod sizes;
mod spread;
mod support;
mod tally;
mod touch;
pub mod trying;
mod urgent;
mod worklist;

pub use net::Net;
pub use sizes::Sizes;
