//! A box taken apart into its address and its allocator.
ghost use Rattle.std.specs.Prelude.{◌≡◌};
ghost use Rattle.std_alloc.specs.Box.Ownership.{box_owns};

use std::alloc::Allocator;
use std::marker::Model;

/// The address and the allocator of a box. Together they still own what the box holds.
pub struct BoxAt<T, A: Allocator> {
    pub address: *mut T,
    pub alloc: A,
    pub ghost held: { T },
}

impl<T, A: Allocator> Model for BoxAt<T, A> {
    ghost also_owns = { λ b. box_owns (A.dealloc_token b.alloc) T.row b.address b.held };
}

impl<T: Drop, A: Allocator> BoxAt<T, A> {
    /// Takes a box apart.
    pub fn of(boxed: Box<T, A>) -> BoxAt<T, A>
        ensures { result.held ≡ boxed.value }
    {
        let (address, alloc) = Box::into_raw_with_allocator(boxed);
        BoxAt { address, alloc }
    }

    /// Rebuilds the box.
    pub fn into_box(self) -> Box<T, A>
        ensures { result.value ≡ self.held }
    {
        let BoxAt { address, alloc } = self;
        unsafe { Box::from_raw(alloc, address) }
    }
}
