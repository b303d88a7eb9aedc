//! A number that only clauses read.
ghost use Rattle.std.specs.Prelude.{◌≡◌, ◌+◌, suc};

use crate::edit::Edit;
use std::snapshot::Snapshot;

/// A number as steps from none. It is only the value of a snapshot, which takes no memory.
#[derive(Drop)]
pub enum Steps {
    Start,
    After(Snapshot<Steps>),
}

/// A number that a program counts and never reads. It takes no memory: it tells the prover how often something happened.
#[derive(Drop)]
pub struct Count {
    steps: Snapshot<Steps>,
}

impl Count {
    ghost use Rattle.xw_feas.specs.Count.{number};
    ghost use Rattle.xw_feas.specs.State.{action_of};
    ghost use Rattle.xw_feas.specs.Placings.{placings};

    /// No steps.
    pub fn new() -> Count
        ensures { number result ≡ 0 }
    {
        Count {
            steps: Snapshot::of(&Steps::Start),
        }
    }

    /// Counts one more.
    pub fn raise(&mut self)
        ensures { number self.new ≡ suc (number self.old) }
    {
        let none = Snapshot::of(&Steps::Start);
        let before = std::mem::replace(&mut self.steps, none);
        self.steps = Snapshot::of(&Steps::After(before));
    }

    /// Counts the word or the letter that an edit places. An edit of another kind places none.
    pub fn note(&mut self, edit: &Edit<'_>)
        ensures { number self.new ≡ placings (action_of edit.now) + number self.old }
    {
        match edit {
            Edit::Set(..) | Edit::Place(..) => self.raise(),
            _ => {}
        }
    }
}
