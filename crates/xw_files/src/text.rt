//! The text format: reading, writing, and the line of a fault.
mod judging;
mod lines;
pub mod location;
mod reading;
mod tag;
mod writing;

pub use location::{TextLocation, text_location};
pub use reading::{read_text, text_has_one_first_fault, text_has_one_part};
pub use writing::write_text;
