//! Parses lines into commands.
#![tactic(auto)]

pub mod change;
pub mod command;
pub mod lights;
mod line;
pub mod names;
pub mod query;
pub mod search;
pub mod version;
mod words;

pub use change::Change;
pub use command::Command;
pub use query::Query;
pub use search::Search;
