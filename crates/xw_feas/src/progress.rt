//! What a search tells while it goes on, and who is told.

/// What places words or letters.
#[derive(Clone, Copy, Debug, PartialEq, Eq)]
pub enum Task {
    Fill,
    Autofill,
    Best,
    Choices,
}

/// What a search tells its engine.
/// - `Begins`: it begins.
/// - `Placed`: how many placements it has made, and how many it may make.
/// - `Graded`: the grade of the worst new word of its best fill, and a bound as in `Progress`.
/// - `Ends`: it has ended.
#[derive(Clone, Copy, Debug, PartialEq, Eq)]
pub enum News {
    Begins(Task),
    Placed { made: u64, limit: u64 },
    Graded { worst: Option<u8>, bound: u8 },
    Ends,
}

/// How far a search is.
/// - `made`, `limit`: how many placements it has made, and how many it may make.
/// - `worst`: the grade of the worst new word of the best fill that it has found.
/// - `bound`: no fill has only words of this grade and better.
#[derive(Clone, Copy, Debug, PartialEq, Eq)]
pub struct Progress {
    pub task: Task,
    pub made: u64,
    pub limit: u64,
    pub worst: Option<u8>,
    pub bound: Option<u8>,
}

impl Progress {
    /// That of a search that begins.
    pub fn begun(task: Task) -> Progress {
        Progress {
            task,
            made: 0,
            limit: 0,
            worst: None,
            bound: None,
        }
    }
}

/// Is told how far a search is. It cannot change the search, and nothing is promised of it.
pub trait Observer: Drop {
    /// Is told how far the search is.
    fn observe(&self, progress: &Progress);

    /// Is told that the search has ended.
    fn end(&self);
}
