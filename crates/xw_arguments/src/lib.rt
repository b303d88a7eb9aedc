//! The command line of the program: its options, and the call that the arguments describe.
#![tactic(auto)]

pub mod arguments;
mod tips;

pub use arguments::{Call, Clash, Misnaming, SessionFiles, Usage};
