//! What a call works with, but for a session: the disk, the streams, messages and exit statuses. It reads, writes and
//! checks puzzle files.
#![tactic(auto)]

pub mod apart;
pub mod checking;
pub mod desk;
pub mod explaining;
pub mod failure;
pub mod files;
pub mod location;
pub mod names;
pub mod outlet;
mod sentences;
pub mod shown;

pub use xw_arguments::{SessionFiles, Usage};
