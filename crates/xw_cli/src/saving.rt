//! Line handlers whose session can be saved.
ghost use Rattle.std.specs.Prelude.{◌≡◌, IfOk};
ghost use Rattle.xw_session.specs.State.{SessionState};
ghost use Rattle.xw_cli.specs.SessionFiles.{file_of};

use std::alloc::{AllocError, Global};
use xw_feas::searchable::Searchable;
use xw_journal::JournaledSession;
use xw_journal::file::saved;
use xw_lines::Sink;
use xw_lines::run::LineHandler;
use xw_session::Session;

/// A line handler whose session can be saved.
pub trait Saved: LineHandler {
    // the state of the session
    ghost state: { Self → SessionState };

    /// Returns the file of the session: the first line and the record.
    fn saved(&self, alloc: Global) -> Result<Vec<u8>, AllocError>
        ensures { IfOk result (λ bytes. bytes.items ≡ file_of (state self.now)) };
}

impl<E: Searchable> Saved for Session<E> {
    ghost state = { λ session. session };

    fn saved(&self, alloc: Global) -> Result<Vec<u8>, AllocError> {
        saved(alloc, self)
    }
}

impl<E: Searchable, J: Sink + Drop> Saved for JournaledSession<E, J> {
    ghost state = { λ journaled. journaled.state };

    fn saved(&self, alloc: Global) -> Result<Vec<u8>, AllocError> {
        saved(alloc, self.session())
    }
}
