//! What a search for the best fill learns from grade to grade.

use crate::best::pace::{Direction, Pace};
use crate::best::parts::Parts;
use std::alloc::{AllocError, Global};
use xw_search::run::Effort;

/// The pace of a search, the parts that it empties, and what it learned.
/// - `efforts`: what it learned of the lights: other lights fail when it looks for fills, which is the first one, than
///   when it looks for bounds.
#[derive(Drop)]
pub struct Course {
    pub pace: Pace,
    pub parts: Parts,
    efforts: [Effort; 2],
}

impl Course {
    /// The course of a search that has not begun.
    pub fn new(
        alloc: Global,
        lights: usize,
        seed: u64,
        graded: bool,
    ) -> Result<Course, AllocError> {
        let up = Effort::new(alloc, lights, seed, graded)?;
        let down = Effort::new(alloc, lights, seed, graded)?;
        let parts = Parts::new(alloc, lights, seed, graded)?;
        Ok(Course {
            pace: Pace::new(),
            parts,
            efforts: [up, down],
        })
    }

    /// The seed of the search.
    pub fn seed(&self) -> u64 {
        self.efforts[0].seed
    }

    /// Begins a search with so many placements.
    pub fn begin(&mut self, left: u64) {
        self.pace.begin(left);
        self.parts.begin_search();
    }

    /// The effort for the grade that is tried now. Upwards, a new grade begins with the cut of a first run; downwards each
    /// grade takes longer than the one before.
    pub fn effort(&mut self) -> &mut Effort {
        let is_new = self.pace.spent == 0;
        let index = match self.pace.direction {
            Direction::Up => 0,
            Direction::Down => 1,
        };
        let effort = &mut self.efforts[index];
        if is_new && index == 0 {
            effort.restart();
        }
        effort
    }
}
