//! Calls of a manager with the answers that they are to give. A call that the pass may not make now isn't
//! made, and gives no answer.
ghost use Rattle.tp_manager.specs.Shown.{IsOf};

use tp_manager::{Manager, Pass};
use tp_model::types::{
    Body, Claimed, Draft, Element, Ended, Killed, Look, Outcome, Refusal, Status,
};

/// Whether a claim answers this.
pub(super) fn claims(manager: &Manager, pass: &mut Pass, stage: u8, answer: Claimed) -> bool
    requires { IsOf manager.now pass.old }
    ensures { IsOf manager.now pass.new }
{
    !pass.has_open() && stage >= 1 && stage <= 14 && manager.claim(pass, stage) == answer
}

/// Whether a claim in turn answers this.
pub(super) fn claims_next(manager: &Manager, pass: &mut Pass, stage: u8, answer: Claimed) -> bool
    requires { IsOf manager.now pass.old }
    ensures { IsOf manager.now pass.new }
{
    !pass.has_open() && stage >= 1 && stage <= 14 && manager.claim_next(pass, stage) == answer
}

/// Whether the pass's own abort ends its unit.
pub(super) fn aborts(manager: &Manager, pass: &mut Pass) -> bool
    requires { IsOf manager.now pass.old }
    ensures { IsOf manager.now pass.new }
{
    pass.has_open() && manager.abort(pass) == Ended::Aborted
}

/// Whether a commit with so many replies of this body has this outcome.
pub(super) fn commits(
    manager: &Manager,
    pass: &mut Pass,
    replies: usize,
    body: Body,
    outcome: Outcome,
) -> bool
    requires { IsOf manager.now pass.old }
    ensures { IsOf manager.now pass.new }
{
    let Some(draft) = Draft::new(15, body) else {
        return false;
    };
    let drafts = [draft; 4];
    pass.has_open() && replies <= 4 && manager.commit(pass, &drafts[..replies]) == outcome
}

/// Whether a kill answers this.
pub(super) fn kills(
    manager: &Manager,
    pass: &mut Pass,
    id: u32,
    answer: Result<Killed, Refusal>,
) -> bool
    requires { IsOf manager.now pass.old }
    ensures { IsOf manager.now pass.new }
{
    !pass.has_open() && manager.kill(pass, id) == answer
}

/// Whether a read finds this element, with this status.
pub(super) fn finds(manager: &Manager, pass: &mut Pass, element: Element, status: Status) -> bool
    requires { IsOf manager.now pass.old }
    ensures { IsOf manager.now pass.new }
{
    manager.read(pass, element.id) == Ok(Look { element, status })
}
