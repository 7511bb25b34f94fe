//! The calls of a server's pass to the manager of one thread, and what they leave of the client's.
ghost use Rattle.tp_model.specs.declared.types.TheConstants.{MAX_OUTPUTS};
ghost use Rattle.std.specs.Prelude.{◌≡◌, ◌<◌, ◌≤◌, None, length, IfOk, IsSome};
ghost use Rattle.tp_model.specs.History.{element_of};
ghost use Rattle.tp_model.specs.Steps.{IsServerStage};
ghost use Rattle.tp_plain.specs.Computed.{abort_of, commit_of};
ghost use Rattle.tp_plain.specs.OneThread.{held_after, pass_at};
ghost use Rattle.tp_reference.specs.PlainDesks.{claim_in_order, claim_given, is_of_other};

use std::alloc::AllocError;
use tp_model::types::{Claimed, Draft, Ended, Outcome, Refusal, Work};
use tp_plain::plain::Plain;
use tp_server::Order;

/// A claim in this order.
pub(crate) fn claim_by(
    plain: &mut Plain,
    order: Order,
    pass: u16,
    stage: u8,
) -> Result<Claimed, AllocError>
    requires pass { (1 ≤ pass) × (pass < plain.old.limits.parts) }
    requires stage { IsServerStage stage }
    requires free { (pass_at plain.old pass).holding ≡ None }
    ensures gives { IfOk result (λ a. claim_in_order order plain.old pass stage ≡ (a, plain.new)) }
    ensures hand { IfOk result (λ a. (pass_at plain.new pass).holding ≡ held_after a) }
    ensures client { IfOk result (λ _. (pass_at plain.new 0).holding ≡ (pass_at plain.old 0).holding) }
    ensures limits { plain.new.limits ≡ plain.old.limits }
{
    let claimed = match order {
        Order::LeastFirst => plain.claim(pass, stage),
        Order::InTurn => plain.claim_next(pass, stage),
    };
    match claimed {
        Ok(claimed) => Ok(claimed),
        Err(_) => Err(AllocError),
    }
}

/// A claim of the element with this id, if it is of this stage.
pub(crate) fn claim_given(plain: &mut Plain, stage: u8, pass: u16, id: u32) -> Result<Work, Refusal>
    requires pass { (1 ≤ pass) × (pass < plain.old.limits.parts) }
    requires free { (pass_at plain.old pass).holding ≡ None }
    ensures gives { claim_given stage pass id plain.old ≡ (result, plain.new) }
    ensures client { (pass_at plain.new 0).holding ≡ (pass_at plain.old 0).holding }
    ensures limits { plain.new.limits ≡ plain.old.limits }
{
    if plain.has_units(pass) && is_of_other(plain, stage, id) {
        return Err(Refusal::BadStage);
    }
    plain.claim_id(pass, id)
}

// Whether the element with this id is of another stage.
fn is_of_other(plain: &Plain, stage: u8, id: u32) -> bool
    ensures { result ≡ is_of_other stage (element_of plain.now.history id) }
{
    match plain.read(id) {
        Ok(look) => look.element.stage != stage,
        Err(_) => false,
    }
}

/// A commit of the unit in the pass's hand.
pub(crate) fn commit(plain: &mut Plain, pass: u16, drafts: &[Draft]) -> Result<Outcome, AllocError>
    requires pass { (1 ≤ pass) × (pass < plain.old.limits.parts) }
    requires holding { IsSome (pass_at plain.old pass).holding }
    requires few { length drafts.now ≤ MAX_OUTPUTS }
    ensures gives { IfOk result (λ a. commit_of plain.old pass drafts.now ≡ (a, plain.new)) }
    ensures client { IfOk result (λ _. (pass_at plain.new 0).holding ≡ (pass_at plain.old 0).holding) }
    ensures limits { plain.new.limits ≡ plain.old.limits }
{
    match plain.commit(pass, drafts) {
        Ok(outcome) => Ok(outcome),
        Err(_) => Err(AllocError),
    }
}

/// An abort of the unit in the pass's hand.
pub(crate) fn abort(plain: &mut Plain, pass: u16) -> Ended
    requires pass { (1 ≤ pass) × (pass < plain.old.limits.parts) }
    requires holding { IsSome (pass_at plain.old pass).holding }
    ensures gives { abort_of plain.old pass ≡ (result, plain.new) }
    ensures client { (pass_at plain.new 0).holding ≡ (pass_at plain.old 0).holding }
    ensures limits { plain.new.limits ≡ plain.old.limits }
{
    plain.abort(pass)
}
