//! The dictionary, the loading of word lists, and counted reads of the dictionary.
#![tactic(auto)]

pub mod bank;
mod columns;
pub mod counted;
pub mod fault;
mod grade;
mod index;
mod loader;
mod marks;
pub mod matching;
mod row;
pub mod rows;
mod sieve;
mod table;
mod weights;
pub mod word;
pub mod word_list;

pub use bank::{Added, Bank};
pub use counted::Counted;
pub use fault::WordFault;
pub use matching::Matching;
pub use rows::Rows;
pub use word_list::Loaded;
pub use xw_bits::{BitRow, Ones};
pub use xw_letters::{Letter, LetterSet, Letters};
