//! Letters and sets of letters.
#![tactic(auto)]

pub mod letter;
pub mod letter_set;
pub mod letters;

pub use letter::Letter;
pub use letter_set::LetterSet;
pub use letters::Letters;
