//! What C calls as a server.
ghost use Rattle.covetrivet_c.specs.Servers.{AbortSays, ClaimIdSays, ClaimNextSays, ClaimSays, CommitSays};
ghost use Rattle.covetrivet_c.specs.Shapes.{work_shape};
ghost use Rattle.covetrivet_c.specs.Told.{AnswersByCode, Ends};

use crate::caller_handle::CallerHandle;
use crate::codes::CLOSED;
use crate::shapes::{BornOut, DraftIn, WorkOut};
use crate::telling::{tell, tell_end, tell_work};
use std::alloc::Global;

/// Takes the first element of a stage, 1 to 14, that waits, and writes it.
#[unsafe(no_mangle)]
pub extern "C" fn covetrivet_claim(
    alloc: Global,
    caller: &mut CallerHandle,
    stage: u8,
    work: &mut WorkOut,
) -> u32
    ensures answer { AnswersByCode work_shape (ClaimSays stage)
        caller.old.held caller.new.held result work.old work.new }
{
    let Some(mut inner) = caller.lift(alloc) else {
        return CLOSED;
    };
    let answer = inner.claim(stage);
    caller.set(inner);
    tell_work(answer, work)
}

/// Takes the next element of a stage, 1 to 14, in turn, and writes it.
#[unsafe(no_mangle)]
pub extern "C" fn covetrivet_claim_next(
    alloc: Global,
    caller: &mut CallerHandle,
    stage: u8,
    work: &mut WorkOut,
) -> u32
    ensures answer { AnswersByCode work_shape (ClaimNextSays stage)
        caller.old.held caller.new.held result work.old work.new }
{
    let Some(mut inner) = caller.lift(alloc) else {
        return CLOSED;
    };
    let answer = inner.claim_next(stage);
    caller.set(inner);
    tell_work(answer, work)
}

/// Takes the element with this id, if it waits, and writes it.
#[unsafe(no_mangle)]
pub extern "C" fn covetrivet_claim_id(
    alloc: Global,
    caller: &mut CallerHandle,
    id: u32,
    work: &mut WorkOut,
) -> u32
    ensures answer { AnswersByCode work_shape (ClaimIdSays id)
        caller.old.held caller.new.held result work.old work.new }
{
    let Some(mut inner) = caller.lift(alloc) else {
        return CLOSED;
    };
    let answer = inner.claim_id(id);
    caller.set(inner);
    tell_work(answer, work)
}

/// Gives up the open unit of work.
#[unsafe(no_mangle)]
pub extern "C" fn covetrivet_abort(alloc: Global, caller: &mut CallerHandle) -> u32
    ensures answer { Ends AbortSays caller.old.held caller.new.held result }
{
    let Some(mut inner) = caller.lift(alloc) else {
        return CLOSED;
    };
    let answer = inner.abort();
    caller.set(inner);
    tell_end(answer)
}

/// Commits the open unit of work with these drafts, at most four, and writes which outputs are born.
#[unsafe(no_mangle)]
pub extern "C" fn covetrivet_commit(
    alloc: Global,
    caller: &mut CallerHandle,
    drafts: &[DraftIn],
    born: &mut BornOut,
) -> u32
    ensures answer { AnswersByCode (λ b. b) (CommitSays drafts.now)
        caller.old.held caller.new.held result born.old born.new }
{
    let Some(mut inner) = caller.lift(alloc) else {
        return CLOSED;
    };
    let answer = inner.commit(drafts);
    caller.set(inner);
    tell(answer, born)
}
