//! The program behind its command line: what it does with its arguments, files and streams, over any engine.
#![tactic(auto)]

mod answer;
mod answer_journaled;
mod edit_session;
mod end;
mod input;
mod journal;
mod mark;
mod open;
mod perform;
mod progress;
mod saving;
mod session_files;
pub mod start;
mod unended;

pub use xw_arguments::{Call, SessionFiles, Usage};
