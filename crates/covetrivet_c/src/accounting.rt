//! What C asks of all passes of a manager, once they are at home.
ghost use Rattle.covetrivet_c.specs.Accounting.{CountSays, GatherSays, HomeAnswers, HomeEnds, MovedSays};
ghost use Rattle.covetrivet_c.specs.Accounting.{RollSays};
ghost use Rattle.covetrivet_c.specs.Shapes.{counts_shape, limits_in, moved_shape};

use crate::codes::CLOSED;
use crate::home_handle::HomeHandle;
use crate::shapes::{CountsOut, MovedOut, PlainLimits, limits_in};
use crate::telling::{tell, tell_counts, tell_end, tell_moved};
use std::alloc::Global;

/// Writes how many elements of a stage, 1 to 15, or with 0 of all stages, there are of each kind of status:
/// of one history, which all passes have seen then.
#[unsafe(no_mangle)]
pub extern "C" fn covetrivet_account(
    alloc: Global,
    manager: &mut HomeHandle,
    stage: u8,
    counts: &mut CountsOut,
) -> u32
    ensures answer { HomeAnswers counts_shape (CountSays stage)
        manager.old.held manager.new.held result counts.old counts.new }
{
    let Some(mut home) = manager.lift(alloc) else {
        return CLOSED;
    };
    let answer = home.count(stage);
    manager.set(home);
    tell_counts(answer, counts)
}

/// All passes look until all have seen one history.
#[unsafe(no_mangle)]
pub extern "C" fn covetrivet_gather(alloc: Global, manager: &mut HomeHandle) -> u32
    ensures answer { HomeEnds GatherSays manager.old.held manager.new.held result }
{
    let Some(mut home) = manager.lift(alloc) else {
        return CLOSED;
    };
    let answer = home.gather();
    manager.set(home);
    tell_end(answer)
}

/// What is alive goes on in a new manager with these limits, to which the handle leads then; and writes how
/// many elements that are.
#[unsafe(no_mangle)]
pub extern "C" fn covetrivet_roll_over(
    alloc: Global,
    manager: &mut HomeHandle,
    limits: &PlainLimits,
    count: &mut usize,
) -> u32
    ensures answer { HomeAnswers (λ n. n) (RollSays (limits_in limits.now))
        manager.old.held manager.new.held result count.old count.new }
{
    let Some(mut home) = manager.lift(alloc) else {
        return CLOSED;
    };
    let answer = home.roll_over(alloc, limits_in(limits));
    manager.set(home);
    tell(answer, count)
}

/// Writes the element that the last rollover carried over in this place, from 0 on.
#[unsafe(no_mangle)]
pub extern "C" fn covetrivet_moved_at(
    alloc: Global,
    manager: &mut HomeHandle,
    place: usize,
    moved: &mut MovedOut,
) -> u32
    ensures answer { HomeAnswers moved_shape (MovedSays place)
        manager.old.held manager.new.held result moved.old moved.new }
{
    let Some(home) = manager.lift(alloc) else {
        return CLOSED;
    };
    let answer = home.moved_at(place);
    manager.set(home);
    tell_moved(answer, moved)
}
