//! A session: the puzzle being edited, and the answer to each line of commands.
#![tactic(auto)]

mod lookup;
pub mod opening;
pub mod resuming;
pub mod saving;
pub mod session;
pub mod vec_sink;

pub use session::Session;
pub use vec_sink::VecSink;
pub use xw_lines::{DeviceFault, FromRead, RunEnd, Sink, Source, Step, ToWrite, WriteFailed};
