//! Tests as tables: calls of a manager's passes with the answers that they are to give, played one after
//! another.
ghost use Rattle.std.specs.Prelude.{All};
ghost use Rattle.tp_manager.specs.Shown.{IsOf};

use super::asking;
use crate::tests::fixture::{manager, two};
use std::process::Abort;
use tp_manager::{Manager, Pass};
use tp_model::types::{Body, Claimed, Element, Killed, Limits, Outcome, Refusal, Status};

/// The place of a client's pass among two, and that of a server's.
pub(super) const CLIENT: usize = 0;

pub(super) const SERVER: usize = 1;

/// A call, and after what it is given what it is to answer.
#[derive(Clone, Copy)]
pub(super) enum Call {
    /// A submit of a body to the stage.
    Submits(u8, Body, Result<u32, Refusal>),
    /// A claim in the stage.
    Claims(u8, Claimed),
    /// A claim in turn in the stage.
    ClaimsNext(u8, Claimed),
    /// The pass's own abort of what it has in hand.
    Aborts,
    /// A commit of what is in hand, with so many replies of this body.
    Commits(usize, Body, Outcome),
    /// A kill of the element.
    Kills(u32, Result<Killed, Refusal>),
    /// A read that finds this element, with this status.
    Finds(Element, Status),
    /// A read that finds no element with this id.
    Misses(u32),
    /// The request's first reply from this id on.
    Reply(u32, u32, Option<u32>),
    /// The first parked element from this id on.
    NextError(u32, Option<u32>),
    /// The mark about a stage of the first part.
    Low(u8, u16),
    /// How many blocks the pass has seen.
    SeenBlocks(u16),
}

/// Whether the call gives its answer.
fn answers(manager: &Manager, pass: &mut Pass, call: Call) -> bool
    requires { IsOf manager.now pass.old }
    ensures { IsOf manager.now pass.new }
{
    match call {
        Call::Submits(stage, body, answer) => manager.submit(pass, stage, body) == answer,
        Call::Claims(stage, answer) => asking::claims(manager, pass, stage, answer),
        Call::ClaimsNext(stage, answer) => asking::claims_next(manager, pass, stage, answer),
        Call::Aborts => asking::aborts(manager, pass),
        Call::Commits(replies, body, outcome) => {
            asking::commits(manager, pass, replies, body, outcome)
        }
        Call::Kills(id, answer) => asking::kills(manager, pass, id, answer),
        Call::Finds(element, status) => asking::finds(manager, pass, element, status),
        Call::Misses(id) => manager.read(pass, id) == Err(Refusal::NotThere),
        Call::Reply(root, from, answer) => manager.reply(pass, root, from) == answer,
        Call::NextError(from, answer) => manager.next_error(pass, from) == answer,
        Call::Low(stage, answer) => pass.low(stage, 0) == answer,
        Call::SeenBlocks(answer) => pass.seen_blocks() == answer,
    }
}

/// Whether the call of the pass at this place gives its answer.
#[tactic(auto, using(tp_manager::proofs::Accounts::Together::one_set))]
fn answers_at(manager: &Manager, passes: &mut [Pass], by: usize, call: Call) -> bool
    requires { All (IsOf manager.now) passes.old }
    ensures { All (IsOf manager.now) passes.new }
{
    by < passes.len() && answers(manager, &mut passes[by], call)
}

/// Plays calls, each by the pass at its place among these, and stops at the first that gives another answer.
fn play<R: Abort>(rt: &R, manager: &Manager, passes: &mut [Pass], calls: &[(usize, Call)])
    requires { All (IsOf manager.now) passes.old }
    ensures { All (IsOf manager.now) passes.new }
{
    for (i, (by, call)) in calls.iter().enumerate() {
        assert!(rt; answers_at(manager, passes, *by, *call), "at call {i}");
    }
}

/// Plays calls of a client's pass and a server's, over a manager with these limits.
pub(super) fn plays<R: Abort + AllocGlobal>(rt: &R, limits: Limits, calls: &[(usize, Call)]) {
    let (manager, mut keeper) = manager(rt, limits);
    let mut passes = two(rt, &mut keeper, &manager);
    play(rt, &manager, &mut passes, calls);
}
