//! The `.puz` format: reading, writing, and its laws.
mod board;
mod circles;
mod fields;
mod header;
pub mod laws;
mod read;
mod rebus;
mod refusal;
mod sections;
mod spell;
mod sums;
mod text;
mod write;

pub use board::grid_of_puz;
pub(crate) use header::has_magic;
pub use read::read_puz;
pub use rebus::has_rebus;
pub use write::write_puz;
