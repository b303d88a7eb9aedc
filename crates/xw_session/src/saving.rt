//! Builds the record of a session for saving.
ghost use Rattle.std.specs.Prelude.{◌≡◌, IfOk};
ghost use Rattle.xw_session.specs.Record.{record_lines};

use crate::session::Session;
use crate::vec_sink::VecSink;
use std::alloc::{AllocError, Global};
use xw_feas::feasible::Feasible;

/// Returns the record of a session. Fails if an allocation fails.
pub fn record<F: Feasible>(alloc: Global, session: &Session<F>) -> Result<Vec<u8>, AllocError>
    ensures { IfOk result (λ bytes. bytes.items ≡ record_lines session.now) }
{
    let mut gathered = VecSink::new(alloc);
    match session.write_record(&mut gathered) {
        Ok(()) => Ok(gathered.into_bytes()),
        Err(_) => Err(AllocError),
    }
}
