//! A journal of a session: each change is written to it before the change is answered.
#![tactic(auto)]

mod cause;
mod entries;
pub mod file;
mod group;
mod journal;
mod session;

pub use cause::Cause;
pub use session::JournaledSession;
