//! Rows of bits, with set operations that use SIMD.
#![tactic(auto)]

pub mod bit_row;
mod kernels;
pub mod ones;
mod summary;

pub use bit_row::BitRow;
pub use ones::Ones;
