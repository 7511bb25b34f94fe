//! What C asks of a caller alone, and of two.
ghost use Rattle.std.specs.Prelude.{◌≡◌};
ghost use Rattle.covetrivet_c.specs.Makes.{IsOneManager, IsRoom, Meeting, ShowsLow};
ghost use Rattle.covetrivet_c.specs.Callers.{open_code};
ghost use Rattle.covetrivet_c.specs.Told.{ShowsOfCaller};

use crate::caller_handle::CallerHandle;
use crate::codes::{BAD_STAGE, CLOSED, OK};
use crate::shapes::RoomOut;
use std::alloc::Global;
use tp_model::types::REPLY_STAGE;

/// Writes how many rows and units of work are left to the pass, spare blocks aside.
#[unsafe(no_mangle)]
pub extern "C" fn covetrivet_room(
    alloc: Global,
    caller: &mut CallerHandle,
    room: &mut RoomOut,
) -> u32
    ensures answer { ShowsOfCaller IsRoom caller.old.held caller.new.held result room.old room.new }
{
    let Some(inner) = caller.lift(alloc) else {
        return CLOSED;
    };
    let left = inner.room();
    caller.set(inner);
    *room = RoomOut {
        rows: left.rows,
        units: left.units,
    };
    OK
}

/// Writes the number of the pass, from 0 on.
#[unsafe(no_mangle)]
pub extern "C" fn covetrivet_number(
    alloc: Global,
    caller: &mut CallerHandle,
    number: &mut u16,
) -> u32
    ensures answer { ShowsOfCaller (λ c n. n ≡ c.pass.number)
        caller.old.held caller.new.held result number.old number.new }
{
    let Some(inner) = caller.lift(alloc) else {
        return CLOSED;
    };
    let found = inner.pass.number();
    caller.set(inner);
    *number = found;
    OK
}

/// Writes the mark of a part that is about a stage, 1 to 15, or with 0 about all, as the pass last loaded or
/// set it.
#[unsafe(no_mangle)]
pub extern "C" fn covetrivet_low(
    alloc: Global,
    caller: &mut CallerHandle,
    stage: u8,
    part: u16,
    low: &mut u16,
) -> u32
    ensures answer { ShowsLow stage part caller.old.held caller.new.held result low.old low.new }
{
    let Some(inner) = caller.lift(alloc) else {
        return CLOSED;
    };
    let found = inner.pass.low(stage, part);
    caller.set(inner);
    if stage > REPLY_STAGE {
        return BAD_STAGE;
    }
    *low = found;
    OK
}

/// Writes how many spare blocks were drawn, as the pass last found it.
#[unsafe(no_mangle)]
pub extern "C" fn covetrivet_seen_blocks(
    alloc: Global,
    caller: &mut CallerHandle,
    blocks: &mut u16,
) -> u32
    ensures answer { ShowsOfCaller (λ c n. n ≡ c.pass.seen_blocks)
        caller.old.held caller.new.held result blocks.old blocks.new }
{
    let Some(inner) = caller.lift(alloc) else {
        return CLOSED;
    };
    let found = inner.pass.seen_blocks();
    caller.set(inner);
    *blocks = found;
    OK
}

/// Writes 1 where the pass has a unit of work open, and else 0.
#[unsafe(no_mangle)]
pub extern "C" fn covetrivet_has_open(
    alloc: Global,
    caller: &mut CallerHandle,
    is_open: &mut u8,
) -> u32
    ensures answer { ShowsOfCaller (λ c n. n ≡ open_code c.pass.open_unit)
        caller.old.held caller.new.held result is_open.old is_open.new }
{
    let Some(inner) = caller.lift(alloc) else {
        return CLOSED;
    };
    let found = inner.open_code();
    caller.set(inner);
    *is_open = found;
    OK
}

/// Two callers of one manager show each other what they have seen.
#[unsafe(no_mangle)]
pub extern "C" fn covetrivet_meet(
    alloc: Global,
    first: &mut CallerHandle,
    second: &mut CallerHandle,
) -> u32
    requires same { IsOneManager first.old.held second.old.held }
    ensures answer { Meeting first.old.held second.old.held first.new.held second.new.held result }
{
    let Some(mut a) = first.lift(alloc) else {
        return CLOSED;
    };
    let Some(mut b) = second.lift(alloc) else {
        first.set(a);
        return CLOSED;
    };
    a.meet(&mut b);
    first.set(a);
    second.set(b);
    OK
}
