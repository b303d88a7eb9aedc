//! The disk of the program: the files that it reads and replaces, and its journal.
#![tactic(auto)]

pub mod appended;
pub mod asked;
pub mod disk;
pub mod identity;
mod leaving;
pub mod locks;
pub mod log;
mod opening;
mod reading;
pub mod replacing;
pub mod system;

pub use disk::{CallFile, Disk, DiskFault, SameFile, Standing, Start, Unkept};
pub use system::SystemDisk;
