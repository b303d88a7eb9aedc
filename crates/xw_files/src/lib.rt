//! Reads and writes puzzle files in two formats: `.puz` and text.
#![tactic(auto)]

pub mod fault;
mod finished;
pub mod formats;
pub mod kind;
pub mod puz;
pub mod text;

pub use fault::{ReadFault, WriteFault};
pub use formats::{read_as, write_as};
pub use kind::{Kind, kind_of};
pub use puz::{grid_of_puz, has_rebus, read_puz, write_puz};
pub use text::{
    TextLocation, read_text, text_has_one_first_fault, text_has_one_part, text_location, write_text,
};
pub use xw_grid::puzzle::{Puzzle, Texts};
