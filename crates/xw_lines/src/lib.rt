//! Reads lines from any reader, and writes their answers to any writer.
#![tactic(auto)]

pub mod device;
pub mod history;
pub mod line_buffer;
pub mod outcome;
pub mod run;
pub mod standard;
mod tries;

pub use device::{DeviceFault, Sink, Source, WriteFailed};
pub use outcome::{RunEnd, Step};
pub use standard::{FromRead, ToWrite};
