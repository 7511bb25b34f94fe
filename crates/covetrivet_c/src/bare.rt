//! A box as its pointer and its allocator, so that a handle can keep the pointer alone.
ghost use Rattle.std.specs.Prelude.{◌≡◌};
ghost use Rattle.std.specs.Box.Ownership.{box_owns};

use std::alloc::Allocator;
use std::marker::Model;

/// A box, taken apart.
pub(crate) struct Bare<T, A: Allocator> {
    pub(crate) at: *mut T,
    pub(crate) alloc: A,
    pub(crate) ghost value: { T },
}

impl<T, A: Allocator> Model for Bare<T, A> {
    ghost also_owns = { λ bare. box_owns (A.dealloc_token bare.alloc) T.row bare.at bare.value };
}

impl<T: Drop, A: Allocator> Bare<T, A> {
    /// Takes a box apart.
    pub(crate) fn of(whole: Box<T, A>) -> Bare<T, A>
        ensures { result.value ≡ whole.value }
    {
        let (at, alloc) = Box::into_raw_with_allocator(whole);
        Bare { at, alloc }
    }

    /// Puts it together again.
    pub(crate) fn whole(self) -> Box<T, A>
        ensures { result.value ≡ self.value }
    {
        let Bare { at, alloc } = self;
        unsafe { Box::from_raw(alloc, at) }
    }
}
