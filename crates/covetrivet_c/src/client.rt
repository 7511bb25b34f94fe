//! What C calls as a client.
ghost use Rattle.covetrivet_c.specs.Clients.{CancelSays, CollectSays, ErrorSays, FamilySays, KillSays};
ghost use Rattle.covetrivet_c.specs.Clients.{NextSays};
ghost use Rattle.covetrivet_c.specs.Clients.{ReadSays, ReleaseSays, ReplySays, RequeueSays, RoundsSays};
ghost use Rattle.covetrivet_c.specs.Clients.{SubmitSays};
ghost use Rattle.covetrivet_c.specs.Shapes.{element_shape, look_shape, released_shape};
ghost use Rattle.covetrivet_c.specs.Told.{AnswersByCode};

use crate::caller_handle::CallerHandle;
use crate::codes::CLOSED;
use crate::shapes::{ElementOut, LookOut, ReleasedOut};
use crate::telling::{tell, tell_element, tell_look, tell_released};
use std::alloc::Global;
use tp_model::types::Body;

/// Puts an element into the queue of a stage, 1 to 14, and writes its id.
#[unsafe(no_mangle)]
pub extern "C" fn covetrivet_submit(
    alloc: Global,
    caller: &mut CallerHandle,
    stage: u8,
    body: &Body,
    id: &mut u32,
) -> u32
    ensures answer { AnswersByCode (λ n. n) (SubmitSays stage body.now)
        caller.old.held caller.new.held result id.old id.new }
{
    let Some(mut inner) = caller.lift(alloc) else {
        return CLOSED;
    };
    let answer = inner.submit(stage, *body);
    caller.set(inner);
    tell(answer, id)
}

/// Writes the element with this id and its status.
#[unsafe(no_mangle)]
pub extern "C" fn covetrivet_read(
    alloc: Global,
    caller: &mut CallerHandle,
    id: u32,
    look: &mut LookOut,
) -> u32
    ensures answer { AnswersByCode look_shape (ReadSays id)
        caller.old.held caller.new.held result look.old look.new }
{
    let Some(mut inner) = caller.lift(alloc) else {
        return CLOSED;
    };
    let answer = inner.read(id);
    caller.set(inner);
    tell_look(answer, look)
}

/// Writes how many further rounds of attempts the element with this id was given, 0 to 3.
#[unsafe(no_mangle)]
pub extern "C" fn covetrivet_rounds(
    alloc: Global,
    caller: &mut CallerHandle,
    id: u32,
    rounds: &mut u8,
) -> u32
    ensures answer { AnswersByCode (λ n. n) (RoundsSays id)
        caller.old.held caller.new.held result rounds.old rounds.new }
{
    let Some(mut inner) = caller.lift(alloc) else {
        return CLOSED;
    };
    let answer = inner.rounds(id);
    caller.set(inner);
    tell(answer, rounds)
}

/// Writes the least id from this one on of a reply to the request with this root that waits.
#[unsafe(no_mangle)]
pub extern "C" fn covetrivet_reply(
    alloc: Global,
    caller: &mut CallerHandle,
    root: u32,
    from: u32,
    id: &mut u32,
) -> u32
    ensures answer { AnswersByCode (λ n. n) (ReplySays root from)
        caller.old.held caller.new.held result id.old id.new }
{
    let Some(mut inner) = caller.lift(alloc) else {
        return CLOSED;
    };
    let answer = inner.reply(root, from);
    caller.set(inner);
    tell(answer, id)
}

/// Writes the least id from this one on of an element that is parked.
#[unsafe(no_mangle)]
pub extern "C" fn covetrivet_next_error(
    alloc: Global,
    caller: &mut CallerHandle,
    from: u32,
    id: &mut u32,
) -> u32
    ensures answer { AnswersByCode (λ n. n) (ErrorSays from)
        caller.old.held caller.new.held result id.old id.new }
{
    let Some(mut inner) = caller.lift(alloc) else {
        return CLOSED;
    };
    let answer = inner.next_error(from);
    caller.set(inner);
    tell(answer, id)
}

/// Writes the member with the least id from this one on of the family of a request, with its status.
#[unsafe(no_mangle)]
pub extern "C" fn covetrivet_family(
    alloc: Global,
    caller: &mut CallerHandle,
    root: u32,
    from: u32,
    look: &mut LookOut,
) -> u32
    ensures answer { AnswersByCode look_shape (FamilySays root from)
        caller.old.held caller.new.held result look.old look.new }
{
    let Some(mut inner) = caller.lift(alloc) else {
        return CLOSED;
    };
    let answer = inner.family(root, from);
    caller.set(inner);
    tell_look(answer, look)
}

/// Gives a parked element another round of attempts, and writes which, 1 to 3.
#[unsafe(no_mangle)]
pub extern "C" fn covetrivet_requeue(
    alloc: Global,
    caller: &mut CallerHandle,
    id: u32,
    round: &mut u8,
) -> u32
    ensures answer { AnswersByCode (λ n. n) (RequeueSays id)
        caller.old.held caller.new.held result round.old round.new }
{
    let Some(mut inner) = caller.lift(alloc) else {
        return CLOSED;
    };
    let answer = inner.requeue(id);
    caller.set(inner);
    tell(answer, round)
}

/// Kills an element, and writes how many units of work that held it were aborted.
#[unsafe(no_mangle)]
pub extern "C" fn covetrivet_kill(
    alloc: Global,
    caller: &mut CallerHandle,
    id: u32,
    aborted: &mut u8,
) -> u32
    ensures answer { AnswersByCode (λ n. n) (KillSays id)
        caller.old.held caller.new.held result aborted.old aborted.new }
{
    let Some(mut inner) = caller.lift(alloc) else {
        return CLOSED;
    };
    let answer = inner.kill(id);
    caller.set(inner);
    tell(answer, aborted)
}

/// Kills each element of the family of a request that is not finished, and writes how many.
#[unsafe(no_mangle)]
pub extern "C" fn covetrivet_cancel(
    alloc: Global,
    caller: &mut CallerHandle,
    root: u32,
    killed: &mut u32,
) -> u32
    ensures answer { AnswersByCode (λ n. n) (CancelSays root)
        caller.old.held caller.new.held result killed.old killed.new }
{
    let Some(mut inner) = caller.lift(alloc) else {
        return CLOSED;
    };
    let answer = inner.cancel(root);
    caller.set(inner);
    tell(answer, killed)
}

/// Aborts the unit of work that holds an element, and writes which.
#[unsafe(no_mangle)]
pub extern "C" fn covetrivet_release(
    alloc: Global,
    caller: &mut CallerHandle,
    id: u32,
    released: &mut ReleasedOut,
) -> u32
    ensures answer { AnswersByCode released_shape (ReleaseSays id)
        caller.old.held caller.new.held result released.old released.new }
{
    let Some(mut inner) = caller.lift(alloc) else {
        return CLOSED;
    };
    let answer = inner.release(id);
    caller.set(inner);
    tell_released(answer, released)
}

/// Takes a reply, once, and writes it.
#[unsafe(no_mangle)]
pub extern "C" fn covetrivet_collect(
    alloc: Global,
    caller: &mut CallerHandle,
    id: u32,
    element: &mut ElementOut,
) -> u32
    ensures answer { AnswersByCode element_shape (CollectSays id)
        caller.old.held caller.new.held result element.old element.new }
{
    let Some(mut inner) = caller.lift(alloc) else {
        return CLOSED;
    };
    let answer = inner.collect(id);
    caller.set(inner);
    tell_element(answer, element)
}

/// Takes the least reply to a request that waits, once, and writes it.
#[unsafe(no_mangle)]
pub extern "C" fn covetrivet_collect_next(
    alloc: Global,
    caller: &mut CallerHandle,
    root: u32,
    element: &mut ElementOut,
) -> u32
    ensures answer { AnswersByCode element_shape (NextSays root)
        caller.old.held caller.new.held result element.old element.new }
{
    let Some(mut inner) = caller.lift(alloc) else {
        return CLOSED;
    };
    let answer = inner.collect_next(root);
    caller.set(inner);
    tell_element(answer, element)
}
