//! Why a session with a journal stops.

/// Why a session with a journal stops.
#[derive(Clone, Copy, Debug, PartialEq, Eq)]
pub enum Cause {
    /// The journal could not be written.
    Journal,
    /// The answer could not be kept in memory.
    Memory,
}
