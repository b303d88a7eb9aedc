//! The version of the program, and that of the protocol of its commands.

/// What `xw --version` prints, without the line feed. `docs/front-ends.md` describes the protocol.
pub const VERSION: &str = "xw 0.3.0 (protocol 1)";
