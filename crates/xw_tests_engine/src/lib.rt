//! Worked examples of what only a call of a library shows: its outcome is no answer of the program.
#![tactic(auto)]

#[cfg(test)]
mod grid;
#[cfg(test)]
mod rows;
#[cfg(test)]
mod searching;
#[cfg(test)]
mod ticks;
#[cfg(test)]
mod words;
#[cfg(test)]
mod writing;
