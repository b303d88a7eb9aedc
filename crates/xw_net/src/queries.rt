//! Queries of a net.
use crate::net::Net;
use crate::room::NOWHERE;
use xw_grid::lights::Lights;
use xw_letters::letter_set::LetterSet;

impl Net {
    ghost use Rattle.std.specs.Prelude.{◌≡◌, ◌<◌, length};
    ghost use Rattle.xw_feas.specs.Flags.{standing_count};
    ghost use Rattle.xw_net.specs.Net.{sets_of, flags_at, StandsFor, first_from};

    /// The number of words of a light.
    pub fn word_count(&self, lights: &Lights, light: usize) -> usize
        requires light { light < length lights.now }
        requires settled { StandsFor lights.now self.now }
        ensures { result ≡ standing_count (flags_at lights.now self.now light) }
    {
        let row = &self.rows[light];
        let _ = row.len();
        let listed = row.count();
        if self.entered[light] {
            listed + 1
        } else {
            listed
        }
    }

    /// The first word of a light whose number is at least `from`.
    pub fn next_word(&self, lights: &Lights, light: usize, from: usize) -> Option<usize>
        requires light { light < length lights.now }
        requires settled { StandsFor lights.now self.now }
        ensures { result ≡ first_from (flags_at lights.now self.now light) from }
    {
        let row = &self.rows[light];
        if let Some(index) = row.next_one(from) {
            return Some(index);
        }
        if from <= row.len() && self.entered[light] {
            Some(row.len())
        } else {
            None
        }
    }

    /// The first light whose words the last edit removed, if it removed all words of a light. A hint for searches; the
    /// contract promises nothing.
    pub fn emptied(&self) -> Option<usize> {
        if self.emptied == NOWHERE {
            None
        } else {
            Some(self.emptied)
        }
    }

    /// For each cell the set of its letters.
    #[tactic(auto, unfolding(crate::specs::Net::sets_of))]
    pub fn letters(&self) -> &[LetterSet]
        ensures { result.now ≡ sets_of self.now }
    {
        &self.letters
    }
}
