//! A ghost record of what was asked of a disk.
ghost use Rattle.std.specs.Prelude.{◌≡◌, List, [], ◌∷◌, ◌++◌};
ghost use Rattle.std.specs.Borrow.{ftrue};
ghost use Rattle.xw_disk.specs.Disk.{Event, events_code};

use crate::asked::Asked;
use std::marker::{Model, PhantomData};

/// What was asked and answered, for proofs only. It allocates nothing, and its methods do nothing at run time.
#[derive(Drop)]
pub struct DiskLog {
    of: PhantomData<()>,
    pub ghost events: { List Event } by { events_code },
}

impl Model for DiskLog {
    ghost also_owns = { λ _. ftrue };
}

impl DiskLog {
    ghost use Rattle.xw_disk.specs.Asked.{seen};

    pub fn new() -> DiskLog
        ensures { result.events ≡ [] }
    {
        DiskLog { of: PhantomData }
    }

    /// Appends a call.
    pub fn note(&mut self, _asked: &Asked<'_>)
        ensures { self.new.events ≡ self.old.events ++ seen _asked.now ∷ [] }
    {}
}
