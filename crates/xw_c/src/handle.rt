//! The handle by which C holds a session. `BoxAt` owns a box as an address and an allocator. `Held` is one such address, or none, and has no
//! allocator in its bytes. `Handle` adds the flag by which zero bytes are no session.
ghost use Rattle.std.specs.Prelude.{◌≡◌, Option, None, Some, IfOk, IfErr, IfSome, IsSome, is_some, option_map};
ghost use Rattle.xw_c.specs.OpenSession.{IsOpened, IsUnopened};

use crate::held::Held;
use crate::open_session::OpenSession;
use crate::status::Status;
use std::alloc::Global;
use std::mem::replace;

/// An open session or none: `struct xw` of `include/xw.h`. If all bytes are zero, it is none. Callers begin with zero
/// bytes and never change the fields.
#[repr(C)]
#[derive(Drop)]
pub struct Handle {
    pub held: Held,
    is_open: bool,
    ghost tied: { is_open ≡ is_some held.session },
}

impl Handle {
    /// No session.
    pub fn none() -> Handle
        ensures { result.held.session ≡ None }
    {
        Handle {
            held: Held::none(),
            is_open: false,
        }
    }

    /// A handle that owns a session.
    pub fn of(session: Box<OpenSession>) -> Handle
        ensures { result.held.session ≡ Some session.value }
    {
        Handle {
            held: Held::of(session),
            is_open: true,
        }
    }

    /// Whether there is a session.
    pub fn is_open(&mut self) -> bool
        ensures open { result ≡ is_some self.old.held.session }
        ensures same { self.new ≡ self.old }
    {
        self.is_open
    }

    /// Takes the session out, if there is one, and leaves none.
    pub fn take(&mut self, alloc: Global) -> Option<Box<OpenSession>>
        ensures taken { option_map (λ session. session.value) result ≡ self.old.held.session }
        ensures left { self.new.held.session ≡ None }
    {
        let Handle { held, is_open } = replace(self, Handle::none());
        if is_open {
            Some(held.into_box(alloc))
        } else {
            None
        }
    }
}

/// Opens a session and returns its handle. Returns what `OpenSession::open` returns, and `Memory` if the allocation of the
/// session fails.
pub fn open(alloc: Global, list: &[u8], puzzle: &[u8]) -> Result<Handle, Status>
    ensures ok { IfOk result (λ handle. IfSome handle.held.session (λ session. IsOpened list.now puzzle.now session)) }
    ensures some { IfOk result (λ handle. IsSome handle.held.session) }
    ensures err { IfErr result (λ status. IsUnopened list.now puzzle.now status) }
{
    let session = OpenSession::open(alloc, list, puzzle)?;
    match Box::new(alloc, session) {
        Ok(session) => Ok(Handle::of(session)),
        Err(_) => Err(Status::Memory),
    }
}
