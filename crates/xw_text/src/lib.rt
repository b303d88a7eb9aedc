//! The lines of a text and its numbers: what they are, how to split off the first line, and the value of digits.
#![tactic(auto)]

pub mod digits;
pub mod lines;
