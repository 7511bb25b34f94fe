//! Calls of a manager's passes with the answers that they are to give, played one after another.
ghost use Rattle.std.specs.Prelude.{All};
ghost use Rattle.tp_manager.specs.Shown.{IsOf};

use std::process::Abort;
use tp_manager::{Manager, Pass};
use tp_model::types::{Body, Draft, Ended, Outcome, Status};

/// How an element stands.
#[derive(Clone, Copy)]
pub(super) struct Stand {
    pub id: u32,
    pub stage: u8,
    pub root: u32,
    pub body: Body,
    pub status: Status,
    /// How many further rounds it was given.
    pub rounds: u8,
}

/// A call, and after what it is given what it is to answer.
#[derive(Clone, Copy)]
pub(super) enum Call {
    /// A submit of a body to the stage: the element's id.
    Submits(u8, Body, u32),
    /// A claim of the element with this id.
    Takes(u32),
    /// An abort of what is in hand.
    Aborts,
    /// An abort of what is in hand, which another pass had aborted.
    IsOver,
    /// Nothing is in hand.
    IsFree,
    /// A commit of what is in hand, with the first so many of these as its outputs.
    Commits([Draft; 4], usize, Outcome),
    /// A requeue of the element: how many further rounds it has then.
    Requeues(u32, u8),
    /// A read that finds the element so.
    Stands(Stand),
    /// A read that finds the element with this status.
    Shows(u32, Status),
}

/// Whether a claim takes the element with this id.
fn takes(manager: &Manager, pass: &mut Pass, id: u32) -> bool
    requires { IsOf manager.now pass.old }
    ensures { IsOf manager.now pass.new }
{
    !pass.has_open() && manager.claim_id(pass, id).is_ok()
}

/// Whether an abort ends the unit.
fn aborts(manager: &Manager, pass: &mut Pass) -> bool
    requires { IsOf manager.now pass.old }
    ensures { IsOf manager.now pass.new }
{
    pass.has_open() && manager.abort(pass) == Ended::Aborted
}

/// Whether an abort finds the unit aborted.
fn is_over(manager: &Manager, pass: &mut Pass) -> bool
    requires { IsOf manager.now pass.old }
    ensures { IsOf manager.now pass.new }
{
    pass.has_open() && manager.abort(pass) == Ended::AlreadyAborted
}

/// Whether a commit has this outcome.
fn commits(
    manager: &Manager,
    pass: &mut Pass,
    drafts: &[Draft; 4],
    count: usize,
    outcome: Outcome,
) -> bool
    requires { IsOf manager.now pass.old }
    ensures { IsOf manager.now pass.new }
{
    pass.has_open() && count <= 4 && manager.commit(pass, &drafts[..count]) == outcome
}

/// Whether a read finds the element so.
fn stands(manager: &Manager, pass: &mut Pass, stand: Stand) -> bool
    requires { IsOf manager.now pass.old }
    ensures { IsOf manager.now pass.new }
{
    let Ok(look) = manager.read(pass, stand.id) else {
        return false;
    };
    let element = look.element;
    (element.stage == stand.stage && element.root == stand.root && element.body == stand.body)
        && look.status == stand.status
        && manager.rounds(pass, stand.id) == Ok(stand.rounds)
}

/// Whether a read finds this status.
fn shows(manager: &Manager, pass: &mut Pass, id: u32, status: Status) -> bool
    requires { IsOf manager.now pass.old }
    ensures { IsOf manager.now pass.new }
{
    match manager.read(pass, id) {
        Ok(look) => look.status == status,
        Err(_) => false,
    }
}

/// Whether the call gives its answer.
fn answers(manager: &Manager, pass: &mut Pass, call: Call) -> bool
    requires { IsOf manager.now pass.old }
    ensures { IsOf manager.now pass.new }
{
    match call {
        Call::Submits(stage, body, id) => manager.submit(pass, stage, body) == Ok(id),
        Call::Takes(id) => takes(manager, pass, id),
        Call::Aborts => aborts(manager, pass),
        Call::IsOver => is_over(manager, pass),
        Call::IsFree => !pass.has_open(),
        Call::Commits(drafts, count, outcome) => commits(manager, pass, &drafts, count, outcome),
        Call::Requeues(id, rounds) => manager.requeue(pass, id) == Ok(rounds),
        Call::Stands(stand) => stands(manager, pass, stand),
        Call::Shows(id, status) => shows(manager, pass, id, status),
    }
}

/// Whether the call of the pass at this place gives its answer.
#[tactic(auto, using(tp_manager::proofs::Accounts::Together::one_set))]
fn answers_at(manager: &Manager, passes: &mut [Pass], by: usize, call: Call) -> bool
    requires { All (IsOf manager.now) passes.old }
    ensures { All (IsOf manager.now) passes.new }
{
    by < passes.len() && answers(manager, &mut passes[by], call)
}

/// Plays calls, each by the pass at its place among these, and stops at the first that gives another answer.
pub(super) fn play<R: Abort>(
    rt: &R,
    manager: &Manager,
    passes: &mut [Pass],
    calls: &[(usize, Call)],
)
    requires { All (IsOf manager.now) passes.old }
    ensures { All (IsOf manager.now) passes.new }
{
    for (i, (by, call)) in calls.iter().enumerate() {
        assert!(rt; answers_at(manager, passes, *by, *call), "at call {i}");
    }
}
