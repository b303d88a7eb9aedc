//! Which calls of the system were interrupted, for clauses only.
ghost use Rattle.std.specs.Prelude.{◌≡◌, [], ◌∷◌};
ghost use Rattle.xw_lines.specs.Tries.{is_interrupted};

use std::io::{self, ErrorKind};
use std::snapshot::Snapshot;

/// Calls, and whether a signal interrupted each of them. It is only the value of a snapshot, which takes no memory.
#[derive(Drop)]
pub enum Calls {
    Start,
    After(Snapshot<Calls>, bool),
}

/// The calls that a program made, which it never reads. They take no memory: they tell the prover which were made again.
#[derive(Drop)]
pub struct Tries {
    made: Snapshot<Calls>,
}

impl Tries {
    ghost use Rattle.xw_lines.specs.Tries.{calls};

    /// No calls.
    pub fn new() -> Tries
        ensures { calls result ≡ [] }
    {
        Tries {
            made: Snapshot::of(&Calls::Start),
        }
    }

    /// Notes a call that returned this.
    pub fn note(&mut self, taken: &io::Result<usize>)
        ensures { calls self.new ≡ is_interrupted taken.now ∷ calls self.old }
    {
        let none = Snapshot::of(&Calls::Start);
        let before = std::mem::replace(&mut self.made, none);
        self.made = Snapshot::of(&Calls::After(before, is_interrupted(taken)));
    }
}

/// Returns whether a signal interrupted a call that returned this.
pub fn is_interrupted(taken: &io::Result<usize>) -> bool
    ensures { result ≡ is_interrupted taken.now }
{
    match taken {
        Ok(_) => false,
        Err(error) => error.kind() == ErrorKind::Interrupted,
    }
}
