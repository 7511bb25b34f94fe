//! What C holds of a caller: a pointer that is null, or leads to what the library made.
ghost use Rattle.std.specs.Prelude.{◌≡◌, Option, Some, None, MatchOption};
ghost use Rattle.covetrivet_c.specs.declared.caller.Caller.{Caller};

use crate::bare::Bare;
use crate::caller::Caller;
use std::alloc::Global;
use std::marker::Model;
use std::mem;
use std::ptr::null_mut;

#[repr(C)]
#[derive(Drop)]
pub struct CallerHandle {
    at: *mut u8,
    pub ghost held: { Option Caller },
}

impl Model for CallerHandle {
    ghost use Rattle.covetrivet_c.specs.contracts.caller.Caller.{the_row};
    ghost use Rattle.covetrivet_c.specs.Held.{held_at};

    ghost also_owns = { λ h. held_at the_row h.at h.held };
}

impl CallerHandle {
    pub(crate) fn closed() -> CallerHandle
        ensures { result.held ≡ None }
    {
        CallerHandle { at: null_mut() }
    }

    fn seal(value: Bare<Caller, Global>) -> CallerHandle
        ensures { result.held ≡ Some value.value }
    {
        let Bare { at, alloc: _ } = value;
        CallerHandle { at: at as *mut u8 }
    }

    fn open(self, alloc: Global) -> Option<Bare<Caller, Global>>
        ensures { MatchOption result (self.held ≡ None) (λ l. self.held ≡ Some l.value) }
    {
        let CallerHandle { at } = self;
        if at.is_null() {
            return None;
        }
        Some(Bare {
            at: at as *mut Caller,
            alloc,
        })
    }

    pub(crate) fn of(value: Box<Caller, Global>) -> CallerHandle
        ensures { result.held ≡ Some value.value }
    {
        CallerHandle::seal(Bare::of(value))
    }

    pub(crate) fn take(self, alloc: Global) -> Option<Box<Caller, Global>>
        ensures { MatchOption result (self.held ≡ None) (λ b. self.held ≡ Some b.value) }
    {
        match self.open(alloc) {
            None => None,
            Some(bare) => Some(bare.whole()),
        }
    }

    /// What the handle leads to, which it leads to no longer.
    pub(crate) fn lift(&mut self, alloc: Global) -> Option<Box<Caller, Global>>
        ensures was { MatchOption result (self.old.held ≡ None) (λ b. self.old.held ≡ Some b.value) }
        ensures closed { self.new.held ≡ None }
    {
        mem::replace(self, CallerHandle::closed()).take(alloc)
    }

    /// The handle leads to this from now on.
    pub(crate) fn set(&mut self, value: Box<Caller, Global>)
        ensures { self.new.held ≡ Some value.value }
    {
        *self = CallerHandle::of(value);
    }
}

/// It may go to another thread: what it leads to may.
unsafe impl Send for CallerHandle {}
