//! A ghost record of what passed through a reader or writer.
ghost use Rattle.std.specs.Prelude.{◌≡◌, ℕ, List, [], ◌∷◌, ◌++◌};
ghost use Rattle.std.specs.Borrow.{ftrue};
ghost use Rattle.xw_lines.specs.Device.{flushed};

use std::marker::{Model, PhantomData};

/// The bytes and flushes that passed through a device, for proofs only. It allocates nothing, and its methods do
/// nothing at run time.
#[derive(Drop)]
pub struct History {
    of: PhantomData<()>,
    pub ghost transcript: { List ℕ },
}

impl Model for History {
    ghost also_owns = { λ _. ftrue };
}

impl History {
    pub fn new() -> History
        ensures { result.transcript ≡ [] }
    {
        History { of: PhantomData }
    }

    /// Appends bytes.
    pub fn note(&mut self, _bytes: &[u8])
        ensures { self.new.transcript ≡ self.old.transcript ++ _bytes.now }
    {}

    /// Appends a flush.
    pub fn note_flush(&mut self)
        ensures { self.new.transcript ≡ self.old.transcript ++ flushed ∷ [] }
    {}
}
