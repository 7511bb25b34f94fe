//! Requests that are cancelled while a desk works on them, at each point of its turn.
ghost use denote.Param.Send.{IsSync};
ghost use Rattle.std.specs.Prelude.{◌≡◌, ◌*◌, ◌<◌, ◌^◌, None, All, length};
ghost use Rattle.tp_workers.specs.Free.{IsFreePass};

use crate::tests::fixture::{eager, manager, output, pass, recipe};
use crate::tests::workers::{hold, turns};
use std::process::Abort;
use std::sync::atomic::{AtomicU64, Ordering};
use std::thread::{Threads, join_mut};
use tp_manager::{Manager, Pass};
use tp_model::types::{Cancelled, Limits, Refusal};
use tp_server::{Act, AmountFrom, Server};
use tp_workers::{Gate, Point, Shift};

const LIMITS: Limits = Limits {
    parts: 3,
    rows: 4,
    units: 4,
    attempts: 3,
    spare: 0,
};

/// Holds the desk at one point until the request is cancelled.
#[derive(Drop)]
struct Stop {
    at: Point,
    reached: AtomicU64,
    cancelled: AtomicU64,
    failed: AtomicU64,
}

impl Gate for Stop {
    fn pause(&self, _worker: u32, point: Point) {
        if point == self.at {
            self.reached.store(1, Ordering::SeqCst);
            hold(&self.cancelled, 1, &self.failed);
        }
    }
}

/// Cancels request 0 once the desk is held.
fn cancel(manager: &Manager, pass: &mut Pass, gate: &Stop) -> Result<Cancelled, Refusal>
    requires { IsFreePass manager.now pass.old }
{
    hold(&gate.reached, 1, &gate.failed);
    let answer = manager.cancel(pass, 0);
    gate.cancelled.store(1, Ordering::SeqCst);
    answer
}

/// One turn of a desk, and beside it the cancel.
fn turn_and_cancel<R: Threads + Sync>(
    rt: &R,
    manager: &Manager,
    desks: &mut [Pass],
    servers: &mut [Box<dyn Server + Send>],
    canceller: &mut Pass,
    gate: &Stop,
) -> (Shift, Result<Cancelled, Refusal>)
    requires paired { length desks.old ≡ length servers.old }
    requires few { 1 * length desks.old < 2 ^ 32 }
    requires free { All (IsFreePass manager.now) desks.old }
    requires clear { All (λ server. pending server ≡ None) servers.old }
    requires canceller { IsFreePass manager.now canceller.old }
{
    let mut work = || -> Shift
        requires { IsSync R.row × (length desks.now ≡ length servers.now) × (1 * length desks.now < 2 ^ 32)
            × All (IsFreePass manager.now) desks.now × All (λ server. pending server ≡ None) servers.now }
    { turns(rt, manager, desks, servers, 1, &mut [], gate) };
    let mut cancels = || -> Result<Cancelled, Refusal>
        requires { IsFreePass manager.now canceller.now }
    { cancel(manager, canceller, gate) };
    join_mut(rt, &mut work, &mut cancels)
}

/// What a desk's turn on a request with one output comes to where the request is cancelled at this point of
/// it: the counts of the turn, how many elements the cancel killed, and the register.
fn cancelled_at<R: Abort + AllocGlobal + Threads + Sync>(
    rt: &R,
    at: Point,
) -> (Shift, u32, Option<u64>) {
    let (manager, mut keeper) = manager(rt, LIMITS);
    let mut client = pass(rt, &mut keeper, &manager);
    let mut desks = [pass(rt, &mut keeper, &manager)];
    let mut canceller = pass(rt, &mut keeper, &manager);
    assert!(rt; manager.submit(&mut client, 1, [0, 6, 0, 0]) == Ok(0));
    let mut servers = [eager(rt, 0, recipe(1, Act::Add, &[output(2, AmountFrom::Same)]))];
    let gate = Stop {
        at,
        reached: AtomicU64::new(0),
        cancelled: AtomicU64::new(0),
        failed: AtomicU64::new(0),
    };
    let (counts, answer) = turn_and_cancel(
        rt,
        &manager,
        &mut desks,
        &mut servers,
        &mut canceller,
        &gate,
    );
    let cancelled = answer.expect(rt, "no such request");
    assert!(rt;
        gate.failed.load(Ordering::SeqCst) == 0,
        "a point wasn't reached"
    );
    (counts, cancelled.killed, servers[0].balance(0))
}

/// At the last of the points the cancel comes too late for the request itself, and kills its output.
#[test]
fn cancelled_at_each_point(rt: HostRuntime) {
    let idle = Shift {
        idle: 1,
        ..Shift::default()
    };
    let lost = Shift {
        lost: 1,
        ..Shift::default()
    };
    let done = Shift {
        done: 1,
        ..Shift::default()
    };
    for (point, counts, register) in [
        (Point::Start, idle, 0),
        (Point::Claimed, lost, 0),
        (Point::Prepared, lost, 0),
        (Point::Settled, done, 6),
    ] {
        let came = cancelled_at(&rt, point);
        assert_eq!(rt; came, (counts, 1, Some(register)));
    }
}
