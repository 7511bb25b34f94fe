//! What a server's desk does over the manager of one thread.
ghost use Rattle.std.specs.Prelude.{◌≡◌, ◌<◌, ◌≤◌, Ok, None, IfOk, IfSome, IsSome};
ghost use Rattle.tp_plain.specs.OneThread.{pass_at};
ghost use Rattle.tp_server.specs.Check.{check_of};
ghost use Rattle.tp_server.specs.Effect.{effect_of};
ghost use Rattle.tp_reference.specs.PlainDesks.{abort_step, claim_step, cleared, commit_step, does};
ghost use Rattle.tp_reference.specs.PlainDesks.{does_unless_dropped, drop_step, after_giving_up, has_open};
ghost use Rattle.tp_reference.specs.PlainDesks.{work_in_hand};
ghost use Rattle.tp_reference.specs.PlainDesks.{prepare_step, settle, take_step, turn_by, turn_step};
ghost use Rattle.tp_reference.specs.PlainDesks.{with_work};
ghost use Rattle.tp_report.specs.declared.answer.ServerAnswer.TheVariants as told;

use crate::calls;
use crate::plain_desk::PlainDesk;
use std::alloc::AllocError;
use tp_model::types::{Claimed, Ended, Outcome, Refusal, Work};
use tp_plain::plain::Plain;
use tp_report::ServerAnswer;
use tp_script::DeskAct;
use tp_server::{Order, Recipe, Turned};

// Nothing is in the desk's hand any more.
fn clear(desk: &mut PlainDesk)
    ensures { desk.new ≡ cleared desk.old.registers desk.old }
{
    desk.taken = None;
    desk.is_prepared = false;
}

// The work in the desk's hand.
fn in_hand(plain: &Plain, pass: u16, desk: &PlainDesk) -> Option<Work>
    requires { pass < plain.now.limits.parts }
    ensures work { result ≡ work_in_hand plain.now pass desk.now }
    ensures holding { IfSome result (λ _. IsSome (pass_at plain.now pass).holding) }
{
    if plain.has_open(pass) {
        desk.taken
    } else {
        None
    }
}

// Does the work, and commits it, or gives it up where the recipe declines.
fn settle(
    plain: &mut Plain,
    pass: u16,
    desk: &mut PlainDesk,
    recipe: &Recipe,
    work: &Work,
) -> Result<ServerAnswer, AllocError>
    requires checked { check_of recipe.now ≡ Ok tt }
    requires pass { (1 ≤ pass) × (pass < plain.old.limits.parts) }
    requires holding { IsSome (pass_at plain.old pass).holding }
    ensures gives { IfOk result (λ a. settle recipe.now work.now pass plain.old desk.old
        ≡ record { answer = a; manager = plain.new; desk = desk.new }) }
    ensures client { IfOk result (λ _. (pass_at plain.new 0).holding ≡ (pass_at plain.old 0).holding) }
    ensures limits { plain.new.limits ≡ plain.old.limits }
{
    let element = work.element.id;
    let prepared = match recipe.effect(&desk.registers, &work.element) {
        Ok(prepared) => prepared,
        Err(why) => {
            let _ended = calls::abort(plain, pass);
            clear(desk);
            return Ok(ServerAnswer::Turned(Turned::Refused { element, why }));
        }
    };
    let outcome = calls::commit(plain, pass, prepared.drafts.as_slice())?;
    clear(desk);
    if matches!(outcome, Outcome::Committed { .. }) {
        desk.registers.set(work.element.body[0], prepared.after);
    }
    Ok(ServerAnswer::Turned(Turned::settled(work, outcome)))
}

/// A turn of a desk with nothing in its hand, whose claim is in this order.
pub(crate) fn turn_by(
    plain: &mut Plain,
    pass: u16,
    desk: &mut PlainDesk,
    recipe: &Recipe,
    order: Order,
) -> Result<ServerAnswer, AllocError>
    requires checked { check_of recipe.now ≡ Ok tt }
    requires pass { (1 ≤ pass) × (pass < plain.old.limits.parts) }
    requires free { (pass_at plain.old pass).holding ≡ None }
    ensures gives { IfOk result (λ a. turn_by order recipe.now pass plain.old desk.old
        ≡ record { answer = a; manager = plain.new; desk = desk.new }) }
    ensures client { IfOk result (λ _. (pass_at plain.new 0).holding ≡ (pass_at plain.old 0).holding) }
    ensures limits { plain.new.limits ≡ plain.old.limits }
{
    match calls::claim_by(plain, order, pass, recipe.stage)? {
        Claimed::Work(work) => settle(plain, pass, desk, recipe, &work),
        Claimed::Idle => Ok(ServerAnswer::Turned(Turned::Idle)),
        Claimed::NoUnit => Ok(ServerAnswer::Turned(Turned::NoUnit)),
    }
}

/// `turn NAME`
fn turn(
    plain: &mut Plain,
    pass: u16,
    desk: &mut PlainDesk,
    recipe: &Recipe,
) -> Result<ServerAnswer, AllocError>
    requires checked { check_of recipe.now ≡ Ok tt }
    requires pass { (1 ≤ pass) × (pass < plain.old.limits.parts) }
    ensures gives { IfOk result (λ a. turn_step recipe.now pass plain.old desk.old
        ≡ record { answer = a; manager = plain.new; desk = desk.new }) }
    ensures client { IfOk result (λ _. (pass_at plain.new 0).holding ≡ (pass_at plain.old 0).holding) }
    ensures limits { plain.new.limits ≡ plain.old.limits }
{
    if plain.has_open(pass) {
        return Ok(ServerAnswer::Busy);
    }
    turn_by(plain, pass, desk, recipe, Order::LeastFirst)
}

// The desk took this work: the answer.
fn took(desk: &mut PlainDesk, work: Work) -> ServerAnswer
    ensures answer { result ≡ told.Work work.element.id work.unit work.attempt }
    ensures work { desk.new ≡ with_work work desk.old }
{
    desk.taken = Some(work);
    desk.is_prepared = false;
    ServerAnswer::Work {
        element: work.element.id,
        unit: work.unit,
        attempt: work.attempt,
    }
}

/// `claim NAME` or `next NAME`
fn claim(
    plain: &mut Plain,
    pass: u16,
    desk: &mut PlainDesk,
    recipe: &Recipe,
    order: Order,
) -> Result<ServerAnswer, AllocError>
    requires checked { check_of recipe.now ≡ Ok tt }
    requires pass { (1 ≤ pass) × (pass < plain.old.limits.parts) }
    ensures gives { IfOk result (λ a. claim_step order recipe.now pass plain.old desk.old
        ≡ record { answer = a; manager = plain.new; desk = desk.new }) }
    ensures client { IfOk result (λ _. (pass_at plain.new 0).holding ≡ (pass_at plain.old 0).holding) }
    ensures limits { plain.new.limits ≡ plain.old.limits }
{
    if plain.has_open(pass) {
        return Ok(ServerAnswer::Busy);
    }
    match calls::claim_by(plain, order, pass, recipe.stage)? {
        Claimed::Work(work) => Ok(took(desk, work)),
        Claimed::Idle => Ok(ServerAnswer::Turned(Turned::Idle)),
        Claimed::NoUnit => Ok(ServerAnswer::Turned(Turned::NoUnit)),
    }
}

/// `take NAME ID`
fn take(
    plain: &mut Plain,
    pass: u16,
    desk: &mut PlainDesk,
    recipe: &Recipe,
    id: u32,
) -> ServerAnswer
    requires pass { (1 ≤ pass) × (pass < plain.old.limits.parts) }
    ensures gives { take_step recipe.now id pass plain.old desk.old
        ≡ record { answer = result; manager = plain.new; desk = desk.new } }
    ensures client { (pass_at plain.new 0).holding ≡ (pass_at plain.old 0).holding }
    ensures limits { plain.new.limits ≡ plain.old.limits }
{
    if plain.has_open(pass) {
        return ServerAnswer::Busy;
    }
    match calls::claim_given(plain, recipe.stage, pass, id) {
        Ok(work) => took(desk, work),
        Err(Refusal::NoUnit) => ServerAnswer::Turned(Turned::NoUnit),
        Err(why) => ServerAnswer::NotTaken { element: id, why },
    }
}

/// `prepare NAME`
fn prepare(plain: &mut Plain, pass: u16, desk: &mut PlainDesk, recipe: &Recipe) -> ServerAnswer
    requires checked { check_of recipe.now ≡ Ok tt }
    requires pass { (1 ≤ pass) × (pass < plain.old.limits.parts) }
    ensures gives { prepare_step recipe.now pass plain.old desk.old
        ≡ record { answer = result; manager = plain.new; desk = desk.new } }
    ensures client { (pass_at plain.new 0).holding ≡ (pass_at plain.old 0).holding }
    ensures limits { plain.new.limits ≡ plain.old.limits }
{
    let Some(work) = in_hand(plain, pass, desk) else {
        return ServerAnswer::NoneOpen;
    };
    if desk.is_prepared {
        return ServerAnswer::Busy;
    }
    match recipe.effect(&desk.registers, &work.element) {
        Ok(_) => {
            desk.is_prepared = true;
            ServerAnswer::Ready
        }
        Err(why) => {
            let _ended = calls::abort(plain, pass);
            clear(desk);
            let element = work.element.id;
            ServerAnswer::Turned(Turned::Refused { element, why })
        }
    }
}

/// `commit NAME`
fn commit(
    plain: &mut Plain,
    pass: u16,
    desk: &mut PlainDesk,
    recipe: &Recipe,
) -> Result<ServerAnswer, AllocError>
    requires checked { check_of recipe.now ≡ Ok tt }
    requires pass { (1 ≤ pass) × (pass < plain.old.limits.parts) }
    ensures gives { IfOk result (λ a. commit_step recipe.now pass plain.old desk.old
        ≡ record { answer = a; manager = plain.new; desk = desk.new }) }
    ensures client { IfOk result (λ _. (pass_at plain.new 0).holding ≡ (pass_at plain.old 0).holding) }
    ensures limits { plain.new.limits ≡ plain.old.limits }
{
    match in_hand(plain, pass, desk) {
        Some(work) => settle(plain, pass, desk, recipe, &work),
        None => Ok(ServerAnswer::NoneOpen),
    }
}

/// `abort NAME`
fn abort(plain: &mut Plain, pass: u16, desk: &mut PlainDesk) -> ServerAnswer
    requires { (1 ≤ pass) × (pass < plain.old.limits.parts) }
    ensures gives { abort_step pass plain.old desk.old
        ≡ record { answer = result; manager = plain.new; desk = desk.new } }
    ensures client { (pass_at plain.new 0).holding ≡ (pass_at plain.old 0).holding }
    ensures limits { plain.new.limits ≡ plain.old.limits }
{
    let Some(work) = in_hand(plain, pass, desk) else {
        return ServerAnswer::NoneOpen;
    };
    clear(desk);
    let element = work.element.id;
    match calls::abort(plain, pass) {
        Ended::Aborted => ServerAnswer::Aborted { element },
        Ended::AlreadyAborted => ServerAnswer::AlreadyAborted { element },
    }
}

/// Gives up the unit in the pass's hand, if there is one.
pub(crate) fn give_up(plain: &mut Plain, pass: u16)
    requires { (1 ≤ pass) × (pass < plain.old.limits.parts) }
    ensures gives { plain.new ≡ after_giving_up plain.old pass }
    ensures client { (pass_at plain.new 0).holding ≡ (pass_at plain.old 0).holding }
    ensures limits { plain.new.limits ≡ plain.old.limits }
{
    if plain.has_open(pass) {
        let _ended = calls::abort(plain, pass);
    }
}

/// `drop NAME`
fn drop_desk(plain: &mut Plain, pass: u16, desk: &mut PlainDesk) -> ServerAnswer
    requires { (1 ≤ pass) × (pass < plain.old.limits.parts) }
    ensures gives { drop_step pass plain.old desk.old
        ≡ record { answer = result; manager = plain.new; desk = desk.new } }
    ensures client { (pass_at plain.new 0).holding ≡ (pass_at plain.old 0).holding }
    ensures limits { plain.new.limits ≡ plain.old.limits }
{
    give_up(plain, pass);
    clear(desk);
    desk.is_dropped = true;
    ServerAnswer::Dropped
}

/// Has a desk do what is asked, unless it was dropped.
pub(crate) fn act(
    plain: &mut Plain,
    pass: u16,
    desk: &mut PlainDesk,
    recipe: &Recipe,
    act: DeskAct,
) -> Result<ServerAnswer, AllocError>
    requires checked { check_of recipe.now ≡ Ok tt }
    requires pass { (1 ≤ pass) × (pass < plain.old.limits.parts) }
    ensures gives { IfOk result (λ a. does_unless_dropped recipe.now act pass plain.old desk.old
        ≡ record { answer = a; manager = plain.new; desk = desk.new }) }
    ensures client { IfOk result (λ _. (pass_at plain.new 0).holding ≡ (pass_at plain.old 0).holding) }
    ensures limits { plain.new.limits ≡ plain.old.limits }
{
    if desk.is_dropped {
        return Ok(ServerAnswer::Ended);
    }
    match act {
        DeskAct::Turn => turn(plain, pass, desk, recipe),
        DeskAct::Claim => claim(plain, pass, desk, recipe, Order::LeastFirst),
        DeskAct::Next => claim(plain, pass, desk, recipe, Order::InTurn),
        DeskAct::Take { id } => Ok(take(plain, pass, desk, recipe, id)),
        DeskAct::Prepare => Ok(prepare(plain, pass, desk, recipe)),
        DeskAct::Commit => commit(plain, pass, desk, recipe),
        DeskAct::Abort => Ok(abort(plain, pass, desk)),
        DeskAct::Drop => Ok(drop_desk(plain, pass, desk)),
    }
}
