//! Pictures that come late: two passes of a manager, and desks that are used one call or one turn at a time.
ghost use Rattle.std.specs.Prelude.{◌≡◌, None};
ghost use Rattle.tp_workers.specs.Free.{IsFreePass};

use crate::day::{Boxed, LIMITS};
use crate::delivery::deliver;
use crate::own_calls::resize;
use crate::servers::{Notifier, Resizer};
use tp_desk::Desk;
use tp_manager::{Keeper, Manager, Pass};
use tp_model::types::{Claimed, Outcome};
use tp_server::{OwnServer, Turned};
use tp_workers::ProgramFault;

/// A worker without a server resizes a picture, a notifier reports it, and a request is cancelled while
/// the resizer works on it.
pub fn work<R: AllocGlobal + Print>(rt: &R) -> Result<(), ProgramFault> {
    let (manager, mut keeper) = Keeper::new(rt.alloc(), LIMITS.with_parts(2))?;
    let mut front = keeper.pass(&manager)?;
    let mut worker = keeper.pass(&manager)?;
    manager.submit(&mut front, 2, [0, 8_000, 75, 5])?;
    manager.submit(&mut front, 3, [0, 77, 71, 6])?;
    let resized = resize(&manager, &mut worker, 8);
    let told = tell(rt, &manager, &mut worker)?;
    println!(rt; "late: {resized} resized, {told} notices")?;
    cancel_at_work(rt, &manager, &mut front, &mut worker)?;
    take_in_turn(rt)
}

/// Two pictures, of which the first is too large for the space that is left. In turn it is declined, and isn't
/// tried again before the other one.
fn take_in_turn<R: AllocGlobal + Print>(rt: &R) -> Result<(), ProgramFault> {
    let (manager, mut keeper) = Keeper::new(rt.alloc(), LIMITS.with_parts(2))?;
    let mut front = keeper.pass(&manager)?;
    let mut worker = keeper.pass(&manager)?;
    manager.submit(&mut front, 2, [1, 8_000, 76, 7])?;
    manager.submit(&mut front, 2, [1, 400, 76, 8])?;
    let (first, second) = two_turns(rt, &manager, &mut worker)?;
    tell_turn(rt, first)?;
    tell_turn(rt, second)
}

/// Two turns of a resizer with little space.
fn two_turns<R: AllocGlobal>(
    rt: &R,
    manager: &Manager,
    worker: &mut Pass,
) -> Result<(Turned, Turned), ProgramFault>
    requires worker { IsFreePass manager.now worker.old }
{
    let mut resizer: Boxed = Box::new(rt.alloc(), OwnServer::new(Resizer, [1_000]))?;
    let mut desk = Desk::new(manager, worker, &mut resizer);
    let first = desk.turn_next();
    let second = desk.turn_next();
    desk.end();
    Ok((first, second))
}

/// Tells what came of a turn.
fn tell_turn<R: Print>(rt: &R, turned: Turned) -> Result<(), ProgramFault> {
    match turned {
        Turned::Done { element, .. } => println!(rt; "in turn: {element} was resized")?,
        Turned::Refused { element, .. } => println!(rt; "in turn: {element} was declined")?,
        _ => println!(rt; "in turn: nothing")?,
    }
    Ok(())
}

/// Cancels a request while the resizer works on it: the work is lost.
fn cancel_at_work<R: AllocGlobal + Print>(
    rt: &R,
    manager: &Manager,
    front: &mut Pass,
    worker: &mut Pass,
) -> Result<(), ProgramFault>
    requires front { IsFreePass manager.now front.old }
    requires worker { IsFreePass manager.now worker.old }
{
    let mut resizer: Boxed = Box::new(rt.alloc(), OwnServer::new(Resizer, [50_000]))?;
    let root = manager.submit(front, 2, [1, 4_000, 74, 4])?;
    let mut desk = Desk::new(manager, worker, &mut resizer);
    if let Claimed::Work(work) = desk.claim() {
        if desk.prepare().is_ok() {
            let cancelled = manager.cancel(front, root)?;
            println!(rt; "cancelled: killed {}", cancelled.killed)?;
            match desk.commit() {
                Outcome::Lost => println!(rt; "the work at stage {} was lost", work.element.stage)?,
                _ => println!(rt; "too late")?,
            }
        }
    }
    desk.end();
    Ok(())
}

/// Tells what was resized, by a notifier of its own. Returns how many notices that were.
fn tell<R: AllocGlobal>(rt: &R, manager: &Manager, worker: &mut Pass) -> Result<u32, ProgramFault>
    requires free { IsFreePass manager.now worker.old }
    ensures free { IsFreePass manager.now worker.new }
{
    let mut notifier: Boxed = Box::new(rt.alloc(), OwnServer::new(Notifier, [0, 0]))?;
    Ok(deliver(manager, worker, &mut notifier, 8))
}
