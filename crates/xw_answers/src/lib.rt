//! The lines of answers: values in, lines out. Nothing here knows the state of a session.
#![tactic(auto)]

pub mod answer_line;
mod copying;
pub mod escape;
pub mod fields;
mod lights;
pub mod lists;
pub mod lookup;
pub mod numbering;
pub mod record;
pub mod refusal;
pub mod show;
pub mod stats;
pub mod text;
