//! The files of the program's calls, but for what a session makes of them, and `xw convert`, which takes no session.
#![tactic(auto)]

pub mod before;
pub mod convert;
pub mod journal_file;
pub mod keeping;
mod lists;
mod lost;
pub mod put;
pub mod replay_reports;
pub mod saved;
pub mod word_list;
