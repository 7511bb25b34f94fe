//! What C calls to make, open, close and hand back.
ghost use Rattle.std.specs.Prelude.{◌≡◌, None, Some};
ghost use Rattle.covetrivet_c.specs.Makes.{Closes, HandsBack, IsOfHome, MakesHome, OpensCaller, OpensNumber};
ghost use Rattle.std.specs.Arc.{arc_value};
ghost use Rattle.covetrivet_c.specs.Makes.{ShowsHome, capacity_of};
ghost use Rattle.covetrivet_c.specs.Homes.{home_limits};
ghost use Rattle.covetrivet_c.specs.Shapes.{limits_in, limits_shape};

use crate::caller::Caller;
use crate::caller_handle::CallerHandle;
use crate::codes::{CLOSED, NO_MEMORY, OK, OPEN};
use crate::home::Home;
use crate::home_handle::HomeHandle;
use crate::shapes::{PlainLimits, limits_in, limits_out};
use std::alloc::Global;

/// Makes a manager with these limits. The handle leads to nothing before.
#[unsafe(no_mangle)]
pub extern "C" fn covetrivet_make(
    alloc: Global,
    limits: &PlainLimits,
    manager: &mut HomeHandle,
) -> u32
    ensures made { MakesHome (limits_in limits.now) manager.old.held manager.new.held result }
{
    if let Some(home) = manager.lift(alloc) {
        manager.set(home);
        return OPEN;
    }
    match Home::boxed(alloc, limits_in(limits)) {
        Ok(home) => {
            manager.set(home);
            OK
        }
        Err(fault) => fault.code(),
    }
}

/// Gives up a manager, with the passes that are at home. Its callers go on.
#[unsafe(no_mangle)]
pub extern "C" fn covetrivet_give_up(alloc: Global, manager: &mut HomeHandle) -> u32
    ensures closed { manager.new.held ≡ None }
    ensures code { result ≡ 0 }
{
    let _ = manager.lift(alloc);
    OK
}

/// Opens a caller with the first pass that is at home. Its handle leads to nothing before.
#[unsafe(no_mangle)]
pub extern "C" fn covetrivet_open(
    alloc: Global,
    manager: &mut HomeHandle,
    caller: &mut CallerHandle,
) -> u32
    ensures opened { OpensCaller manager.old.held manager.new.held caller.old.held caller.new.held result }
{
    if let Some(inner) = caller.lift(alloc) {
        caller.set(inner);
        return OPEN;
    }
    let Some(mut home) = manager.lift(alloc) else {
        return CLOSED;
    };
    let answer = home.lend(alloc);
    manager.set(home);
    match answer {
        Ok(inner) => {
            caller.set(inner);
            OK
        }
        Err(fault) => fault.code(),
    }
}

/// Opens the caller of this number, if it is at home. Its handle leads to nothing before.
#[unsafe(no_mangle)]
pub extern "C" fn covetrivet_open_number(
    alloc: Global,
    manager: &mut HomeHandle,
    number: u16,
    caller: &mut CallerHandle,
) -> u32
    ensures opened { OpensNumber number
        manager.old.held manager.new.held caller.old.held caller.new.held result }
{
    if let Some(inner) = caller.lift(alloc) {
        caller.set(inner);
        return OPEN;
    }
    let Some(mut home) = manager.lift(alloc) else {
        return CLOSED;
    };
    let answer = home.lend_number(alloc, number);
    manager.set(home);
    match answer {
        Ok(inner) => {
            caller.set(inner);
            OK
        }
        Err(fault) => fault.code(),
    }
}

/// A caller of this manager is at home, where there is room for it, which is so of one of its own.
fn bring_home(
    mut home: Box<Home, Global>,
    inner: Box<Caller, Global>,
    manager: &mut HomeHandle,
    caller: &mut CallerHandle,
) -> u32
    requires of { arc_value inner.value.manager ≡ arc_value home.value.manager }
    requires closed { caller.old.held ≡ None }
    ensures answer { HandsBack (Some home.value) manager.new.held (Some inner.value) caller.new.held result }
{
    match home.hand_back(inner) {
        Ok(()) => {
            manager.set(home);
            OK
        }
        Err(inner) => {
            caller.set(inner);
            manager.set(home);
            NO_MEMORY
        }
    }
}

/// Closes a caller, in any state of both handles. Where the manager's leads to its manager the pass is at home
/// again, with what it has in hand. Where that was given up, the pass is too.
#[unsafe(no_mangle)]
pub extern "C" fn covetrivet_close(
    alloc: Global,
    manager: &mut HomeHandle,
    caller: &mut CallerHandle,
) -> u32
    requires of { IsOfHome manager.old.held caller.old.held }
    ensures answer { Closes manager.old.held manager.new.held caller.old.held caller.new.held result }
{
    let Some(inner) = caller.lift(alloc) else {
        return OK;
    };
    match manager.lift(alloc) {
        Some(home) => bring_home(home, inner, manager, caller),
        None => OK,
    }
}

/// Hands a caller of this manager back: its pass is at home, and its handle leads to nothing.
#[unsafe(no_mangle)]
pub extern "C" fn covetrivet_hand_back(
    alloc: Global,
    manager: &mut HomeHandle,
    caller: &mut CallerHandle,
) -> u32
    requires of { IsOfHome manager.old.held caller.old.held }
    ensures answer { HandsBack manager.old.held manager.new.held caller.old.held caller.new.held result }
{
    let Some(home) = manager.lift(alloc) else {
        return CLOSED;
    };
    let Some(inner) = caller.lift(alloc) else {
        manager.set(home);
        return CLOSED;
    };
    bring_home(home, inner, manager, caller)
}

/// Writes the limits that the manager was made with.
#[unsafe(no_mangle)]
pub extern "C" fn covetrivet_get_limits(
    alloc: Global,
    manager: &mut HomeHandle,
    limits: &mut PlainLimits,
) -> u32
    ensures answer { ShowsHome (λ h. limits_shape (home_limits h))
        manager.old.held manager.new.held result limits.old limits.new }
{
    let Some(home) = manager.lift(alloc) else {
        return CLOSED;
    };
    let found = home.manager.limits();
    manager.set(home);
    *limits = limits_out(&found);
    OK
}

/// Writes how many elements the manager has room for.
#[unsafe(no_mangle)]
pub extern "C" fn covetrivet_capacity(
    alloc: Global,
    manager: &mut HomeHandle,
    capacity: &mut u32,
) -> u32
    ensures answer { ShowsHome capacity_of manager.old.held manager.new.held result capacity.old
        capacity.new }
{
    let Some(home) = manager.lift(alloc) else {
        return CLOSED;
    };
    let found = home.manager.capacity();
    manager.set(home);
    *capacity = found;
    OK
}
