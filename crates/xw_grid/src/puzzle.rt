//! A puzzle: all that a file can hold, and also the symmetry, the clues of lights that no longer
//! exist, and circles on blocks.
use crate::circles::Circles;
use crate::clues::Clues;
use crate::grid::Grid;

/// The texts of a puzzle other than its clues. They are plain bytes in no particular character set.
#[derive(Drop)]
pub struct Texts {
    pub title: Vec<u8>,
    pub author: Vec<u8>,
    pub copyright: Vec<u8>,
    pub notes: Vec<u8>,
}

/// A grid with its texts, clues and circles.
#[derive(Drop)]
pub struct Puzzle {
    pub grid: Grid,
    pub texts: Texts,
    pub clues: Clues,
    pub circles: Circles,
}
