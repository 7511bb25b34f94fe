//! What C holds of a manager: a pointer that is null, or leads to what the library made.
ghost use Rattle.std.specs.Prelude.{◌≡◌, Option, Some, None, MatchOption};
ghost use Rattle.covetrivet_c.specs.declared.home.Home.{Home};

use crate::bare::Bare;
use crate::home::Home;
use std::alloc::Global;
use std::marker::Model;
use std::mem;
use std::ptr::null_mut;

#[repr(C)]
#[derive(Drop)]
pub struct HomeHandle {
    at: *mut u8,
    pub ghost held: { Option Home },
}

impl Model for HomeHandle {
    ghost use Rattle.covetrivet_c.specs.contracts.home.Home.{the_row};
    ghost use Rattle.covetrivet_c.specs.Held.{held_at};

    ghost also_owns = { λ h. held_at the_row h.at h.held };
}

impl HomeHandle {
    pub(crate) fn closed() -> HomeHandle
        ensures { result.held ≡ None }
    {
        HomeHandle { at: null_mut() }
    }

    fn seal(value: Bare<Home, Global>) -> HomeHandle
        ensures { result.held ≡ Some value.value }
    {
        let Bare { at, alloc: _ } = value;
        HomeHandle { at: at as *mut u8 }
    }

    fn open(self, alloc: Global) -> Option<Bare<Home, Global>>
        ensures { MatchOption result (self.held ≡ None) (λ l. self.held ≡ Some l.value) }
    {
        let HomeHandle { at } = self;
        if at.is_null() {
            return None;
        }
        Some(Bare {
            at: at as *mut Home,
            alloc,
        })
    }

    pub(crate) fn of(value: Box<Home, Global>) -> HomeHandle
        ensures { result.held ≡ Some value.value }
    {
        HomeHandle::seal(Bare::of(value))
    }

    pub(crate) fn take(self, alloc: Global) -> Option<Box<Home, Global>>
        ensures { MatchOption result (self.held ≡ None) (λ b. self.held ≡ Some b.value) }
    {
        match self.open(alloc) {
            None => None,
            Some(bare) => Some(bare.whole()),
        }
    }

    /// What the handle leads to, which it leads to no longer.
    pub(crate) fn lift(&mut self, alloc: Global) -> Option<Box<Home, Global>>
        ensures was { MatchOption result (self.old.held ≡ None) (λ b. self.old.held ≡ Some b.value) }
        ensures closed { self.new.held ≡ None }
    {
        mem::replace(self, HomeHandle::closed()).take(alloc)
    }

    /// The handle leads to this from now on.
    pub(crate) fn set(&mut self, value: Box<Home, Global>)
        ensures { self.new.held ≡ Some value.value }
    {
        *self = HomeHandle::of(value);
    }
}

/// It may go to another thread: what it leads to may.
unsafe impl Send for HomeHandle {}
