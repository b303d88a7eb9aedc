//! Grids of cells, their numbered lights, clues and circles, and a puzzle with all of them.
#![tactic(auto)]

pub mod cell;
pub mod circles;
pub mod clues;
pub mod fault;
pub mod grid;
pub mod laws;
mod light_table;
pub mod lights;
pub mod orbit;
pub mod puzzle;

pub use cell::{Cell, Direction, Edge, LightName, Side, Square, Symmetry};
pub use circles::Circles;
pub use clues::Clues;
pub use fault::GridFault;
pub use grid::Grid;
pub use lights::{Light, Lights};
pub use orbit::Orbit;
pub use puzzle::{Puzzle, Texts};
