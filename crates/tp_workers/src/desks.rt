//! Desks in a shift: each is made on its worker's own stack, of a pass and a server that are lent to it.
ghost use Rattle.tp_model.specs.declared.types.TheConstants.{MAX_OUTPUTS};
ghost use Rattle.std.specs.Prelude.{◌≡◌, ◌≤◌, None, Some};
ghost use Rattle.tp_manager.specs.Bounds.{commit_steps};
ghost use Rattle.tp_manager.specs.Calls.{Follows};
ghost use Rattle.tp_server.specs.Asked.{Asks};
ghost use Rattle.tp_desk.specs.Asking.{turn_asks};
ghost use Rattle.tp_desk.specs.Orders.{KeepsTurn};
ghost use Rattle.tp_desk.specs.Steady.{IsSameDesk, SteadyDesk, shown};
ghost use Rattle.tp_desk.specs.Turns.{Turns, WorksOff, turn_steps};
ghost use Rattle.tp_workers.specs.Asking.{AsksTurns};
ghost use Rattle.tp_workers.specs.Desks.{DeskRan, IsDeskOf, IsResting, TakesTurn, TakesTurns, desk_place};
ghost use Rattle.tp_workers.specs.Drained.{TookTurn};
ghost use Rattle.tp_workers.specs.Tally.{total};

use crate::gate::{Gate, Point};
use crate::plan::Plan;
use crate::tally::Shift;
use tp_desk::{Desk, Order, Turned};
use tp_manager::{Manager, Pass};
use tp_model::types::{Claimed, Work};
use tp_server::Server;

/// Has a desk take as many turns as planned, or fewer where its pass has no unit left.
pub(crate) fn run_desk<G: Gate>(
    manager: &Manager,
    pass: &mut Pass,
    server: &mut Box<dyn Server + Send>,
    plan: Plan,
    worker: u32,
    gate: &G,
) -> Shift
    requires ready { IsDeskOf behaviour registers pending manager.now (pass.old, server.old) }
    ensures ran { DeskRan behaviour registers pending manager.now plan (pass.old, server.old) result
        (pass.new, server.new) }
    ensures asked { AsksTurns behaviour registers pending asked manager.now plan.order
        (pass.old, server.old) result (pass.new, server.new) }
    ensures bound { total result ≤ plan.turns }
{
    let mut desk = Desk::new(manager, pass, server);
    let counts = take_turns(&mut desk, plan, worker, gate);
    desk.end();
    counts
}

/// Has a desk take one turn, whose claim is in this order.
pub(crate) fn take_turn(
    manager: &Manager,
    pass: &mut Pass,
    server: &mut Box<dyn Server + Send>,
    order: Order,
) -> Shift
    requires ready { IsDeskOf behaviour registers pending manager.now (pass.old, server.old) }
    ensures took { TookTurn behaviour registers pending manager.now order (pass.old, server.old) result
        (pass.new, server.new) }
    ensures asked { AsksTurns behaviour registers pending asked manager.now order
        (pass.old, server.old) result (pass.new, server.new) }
{
    let mut desk = Desk::new(manager, pass, server);
    let turned = desk.turn_by(order);
    desk.end();
    Shift::of_turn(turned)
}

fn take_turns<G: Gate>(desk: &mut Desk, plan: Plan, worker: u32, gate: &G) -> Shift
    requires resting { IsResting behaviour registers pending desk.old }
    ensures same { IsSameDesk desk.old desk.new }
    ensures turns { TakesTurns plan desk.old.manager.now.limits
        (desk_place behaviour registers pending desk.old) result
        (desk_place behaviour registers pending desk.new) }
    ensures asked { AsksTurns (shown behaviour) (shown registers) (shown pending) (shown asked)
        desk.old.manager.now
        plan.order (desk.old.pass.now, desk.old.server.now) result (desk.new.pass.now, desk.new.server.now) }
    ensures resting { IsResting behaviour registers pending desk.new }
    ensures bound { total result ≤ plan.turns }
{
    let mut counts = Shift::none();
    for _i in 0..plan.turns {
        let turned = turn_at(desk, plan.order, worker, gate);
        counts = counts.plus(Shift::of_turn(turned));
        if counts.nounit > 0 {
            return counts;
        }
    }
    counts
}

/// A turn with a pause at each of its points.
pub(crate) fn turn_at<G: Gate>(desk: &mut Desk, order: Order, worker: u32, gate: &G) -> Turned
    requires resting { IsResting behaviour registers pending desk.old }
    ensures same { IsSameDesk desk.old desk.new }
    ensures turn { TakesTurn order desk.old.manager.now.limits
        (desk_place behaviour registers pending desk.old) result
        (desk_place behaviour registers pending desk.new) }
    ensures asked { Asks (turn_asks result desk.new.pass.now.seen (shown registers desk.old.server.now)
        (shown registers desk.new.server.now)) (shown asked desk.old.server.now)
        (shown asked desk.new.server.now) }
    ensures resting { IsResting behaviour registers pending desk.new }
{
    gate.pause(worker, Point::Start);
    let turned = claim_at(desk, order, worker, gate);
    gate.pause(worker, Point::Settled);
    turned
}

fn claim_at<G: Gate>(desk: &mut Desk, order: Order, worker: u32, gate: &G) -> Turned
    requires steady { SteadyDesk (shown behaviour) (shown registers) (shown pending) desk.old }
    requires free { desk.old.work ≡ None }
    ensures same { IsSameDesk desk.old desk.new }
    ensures behaviour { shown behaviour desk.new.server.now ≡ shown behaviour desk.old.server.now }
    ensures free { desk.new.work ≡ None }
    ensures turn { KeepsTurn order desk.old.pass.now desk.new.pass.now }
    ensures follows { Follows (turn_steps order desk.old.manager.now.limits) desk.old.pass.now
        desk.new.pass.now }
    ensures answer { Turns order desk.old.manager.now.limits (shown behaviour desk.old.server.now)
        (shown registers desk.old.server.now) desk.old.pass.now desk.new.pass.now result
        (shown registers desk.new.server.now) }
    ensures asked { Asks (turn_asks result desk.new.pass.now.seen (shown registers desk.old.server.now)
        (shown registers desk.new.server.now)) (shown asked desk.old.server.now)
        (shown asked desk.new.server.now) }
    ensures steady { SteadyDesk (shown behaviour) (shown registers) (shown pending) desk.new }
{
    match desk.claim_by(order) {
        Claimed::Idle => Turned::Idle,
        Claimed::NoUnit => Turned::NoUnit,
        Claimed::Work(work) => work_at(desk, work, worker, gate),
    }
}

fn work_at<G: Gate>(desk: &mut Desk, work: Work, worker: u32, gate: &G) -> Turned
    requires steady { SteadyDesk (shown behaviour) (shown registers) (shown pending) desk.old }
    requires taken { desk.old.work ≡ Some work }
    requires unprepared { shown pending desk.old.server.now ≡ None }
    ensures same { IsSameDesk desk.old desk.new }
    ensures behaviour { shown behaviour desk.new.server.now ≡ shown behaviour desk.old.server.now }
    ensures free { desk.new.work ≡ None }
    ensures turn { desk.new.pass.now.from ≡ desk.old.pass.now.from }
    ensures follows { Follows (commit_steps desk.old.manager.now.limits MAX_OUTPUTS)
        desk.old.pass.now desk.new.pass.now }
    ensures answer { WorksOff (shown behaviour desk.old.server.now) (shown registers desk.old.server.now) work
        desk.old.pass.now desk.new.pass.now result (shown registers desk.new.server.now) }
    ensures asked { Asks (turn_asks result desk.new.pass.now.seen (shown registers desk.old.server.now)
        (shown registers desk.new.server.now)) (shown asked desk.old.server.now)
        (shown asked desk.new.server.now) }
    ensures steady { SteadyDesk (shown behaviour) (shown registers) (shown pending) desk.new }
{
    gate.pause(worker, Point::Claimed);
    if let Err(why) = desk.prepare() {
        return Turned::Refused {
            element: work.element.id,
            why,
        };
    }
    gate.pause(worker, Point::Prepared);
    Turned::settled(&work, desk.commit())
}
