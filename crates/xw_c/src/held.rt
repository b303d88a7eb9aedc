//! A session behind an address.
ghost use Rattle.std.specs.Prelude.{◌≡◌, Option, None, Some, IsSome};
ghost use Rattle.xw_c.specs.OpenSession.{Shown};

use crate::box_at::BoxAt;
use crate::open_session::OpenSession;
use std::alloc::Global;
use std::marker::Model;
use std::ptr::null_mut;

/// The address of a session, or nothing.
#[repr(C)]
#[derive(Drop)]
pub struct Held {
    at: *mut u8,
    pub ghost session: { Option Shown },
}

impl Model for Held {
    ghost use Rattle.xw_c.specs.Held.{held};
    ghost use Rattle.xw_c.specs.contracts.open_session.OpenSession.{the_row};

    ghost also_owns = { λ h. held the_row h.at h.session };
}

fn nowhere() -> *mut u8 {
    null_mut()
}

impl Held {
    fn hidden(boxed: BoxAt<OpenSession, Global>) -> Held
        ensures { result.session ≡ Some boxed.held }
    {
        let BoxAt { address, alloc: _ } = boxed;
        Held {
            at: address as *mut u8,
        }
    }

    fn shown(self, alloc: Global) -> BoxAt<OpenSession, Global>
        requires { IsSome self.session }
        ensures { self.session ≡ Some result.held }
    {
        let Held { at } = self;
        BoxAt {
            address: at as *mut OpenSession,
            alloc,
        }
    }

    fn blank(at: *mut u8) -> Held
        ensures { result.session ≡ None }
    {
        Held { at }
    }

    /// Holds the session of a box.
    pub fn of(session: Box<OpenSession>) -> Held
        ensures { result.session ≡ Some session.value }
    {
        Held::hidden(BoxAt::of(session))
    }

    /// Holds nothing.
    pub fn none() -> Held
        ensures { result.session ≡ None }
    {
        Held::blank(nowhere())
    }

    /// Returns the session in its box.
    pub fn into_box(self, alloc: Global) -> Box<OpenSession>
        requires { IsSome self.session }
        ensures { self.session ≡ Some result.value }
    {
        self.shown(alloc).into_box()
    }
}
