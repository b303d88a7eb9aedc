//! The definition of the feasible words and letters of a grid and a dictionary, and the interface
//! of the engines that compute them.
#![tactic(auto)]

pub mod board;
pub mod changed;
pub mod count;
pub mod edit;
pub mod effect;
pub mod engine_state;
pub mod feasible;
pub mod laws;
pub mod notes;
pub mod observed;
pub mod pending;
pub mod place;
pub mod progress;
pub mod searchable;
mod turned;
pub mod word_iter;
pub mod write;
pub mod written;

pub use changed::Changed;
pub use edit::{Edit, Found, Refusal};
pub use feasible::{Feasible, run};
pub use searchable::Searchable;
pub use word_iter::{Spelled, WordIter, words};
