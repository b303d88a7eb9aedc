//! The weights of the words of a row, for the choices of a search. No contract depends on them.

/// The number of grades that double a weight.
const DOUBLING: u8 = 10;

/// The greatest weight of a word.
const GREATEST: u64 = 1024;

/// The weight of a word by the number of grades that it has above the least one: twice as much for each ten.
const WEIGHTS: [u64; 101] = [
    1, 1, 1, 1, 1, 1, 1, 1, 1, 1, // 0 to 9
    2, 2, 2, 2, 2, 2, 2, 2, 2, 2, // 10 to 19
    4, 4, 4, 4, 4, 4, 4, 4, 4, 4, // 20 to 29
    8, 8, 8, 8, 8, 8, 8, 8, 8, 8, // 30 to 39
    16, 16, 16, 16, 16, 16, 16, 16, 16, 16, // 40 to 49
    32, 32, 32, 32, 32, 32, 32, 32, 32, 32, // 50 to 59
    64, 64, 64, 64, 64, 64, 64, 64, 64, 64, // 60 to 69
    128, 128, 128, 128, 128, 128, 128, 128, 128, 128, // 70 to 79
    256, 256, 256, 256, 256, 256, 256, 256, 256, 256, // 80 to 89
    512, 512, 512, 512, 512, 512, 512, 512, 512, 512, // 90 to 99
    GREATEST, // 100
];

/// The least and the greatest grade that a word of a row had.
#[derive(Clone, Copy)]
pub struct Weights {
    least: u8,
    greatest: u8,
}

impl Weights {
    /// The weights of an empty row.
    pub fn new() -> Weights {
        Weights {
            least: u8::MAX,
            greatest: 0,
        }
    }

    /// The least grade; `u8::MAX` without words.
    pub fn least(self) -> u8 {
        self.least
    }

    /// The greatest grade; 0 without words.
    pub fn greatest(self) -> u8 {
        self.greatest
    }

    /// Notes the grade of a word.
    pub fn note(&mut self, grade: u8) {
        self.least = self.least.min(grade);
        self.greatest = self.greatest.max(grade);
    }

    /// Whether all words weigh the same: 1.
    pub fn are_equal(self) -> bool {
        self.greatest.saturating_sub(self.least) < DOUBLING
    }

    /// How much a word of this grade weighs: twice as much for each `DOUBLING` grades above the least grade, at most
    /// `GREATEST`.
    pub fn of_grade(self, grade: u8) -> u64 {
        match WEIGHTS.get(grade.saturating_sub(self.least) as usize) {
            Some(weight) => *weight,
            None => GREATEST,
        }
    }
}
