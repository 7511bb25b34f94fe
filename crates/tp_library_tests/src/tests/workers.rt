//! Workers side by side.
ghost use Rattle.std.specs.Prelude.{◌≡◌, ◌*◌, ◌<◌, ◌^◌, None, All, length};
ghost use Rattle.tp_workers.specs.Clients.{IsClientJob};
ghost use Rattle.tp_workers.specs.Free.{IsFreePass};
ghost use Rattle.tp_workers.specs.Sums.{calls_of};

mod cancels;
mod clients;
mod overlap;
mod race;
mod storm;
mod together;

use crate::tests::fixture::{eager, lazy, recipe};
use std::process::Abort;
use std::sync::atomic::{AtomicU64, Ordering};
use std::thread;
use std::thread::Threads;
use tp_manager::{Manager, Pass};
use tp_server::{Act, Server};
use tp_workers::{ClientJob, Gate, Plan, Shift, ShiftMeans, Workers, shift};

/// A client of stage 1, which submits this many bodies with the key 0, this amount, and their places after
/// it.
fn client<R: Abort + AllocGlobal>(rt: &R, amount: u64, count: u32) -> ClientJob
    ensures job { IsClientJob result }
    ensures count { calls_of result ≡ count }
{
    let mut bodies = Vec::new(rt.alloc());
    for i in 0..count {
        bodies
            .push([0, amount, u64::from(i), 0])
            .expect(rt, "no memory");
    }
    ClientJob { stage: 1, bodies }
}

/// Two servers with nothing prepared, side by side.
fn pair(one: Box<dyn Server + Send>, other: Box<dyn Server + Send>) -> [Box<dyn Server + Send>; 2]
    requires { (pending one ≡ None) × (pending other ≡ None) }
    ensures { All (λ server. pending server ≡ None) result }
{
    [one, other]
}

/// A server of each kind that adds what comes to stage 1 to its register.
fn adders<R: Abort + AllocGlobal>(rt: &R) -> [Box<dyn Server + Send>; 2]
    ensures { All (λ server. pending server ≡ None) result }
{
    let one = eager(rt, 0, recipe(1, Act::Add, &[]));
    let other = lazy(rt, 0, recipe(1, Act::Add, &[]));
    pair(one, other)
}

/// Turns of desks alone: so many each, by one gate. Where there is a place for each desk's counts they are
/// left there.
fn turns<R: Threads + Sync, G: Gate>(
    rt: &R,
    manager: &Manager,
    desks: &mut [Pass],
    servers: &mut [Box<dyn Server + Send>],
    turns: u32,
    each: &mut [Shift],
    gate: &G,
) -> Shift
    requires paired { length desks.old ≡ length servers.old }
    requires few { turns * length desks.old < 2 ^ 32 }
    requires free { All (IsFreePass manager.now) desks.old }
    requires clear { All (λ server. pending server ≡ None) servers.old }
    ensures kept { length servers.new ≡ length servers.old }
{
    let means = ShiftMeans {
        rt,
        manager,
        plan: Plan::least_first(turns),
        gate,
    };
    let desks = Workers {
        on: desks,
        by: servers,
    };
    let clients = Workers {
        on: &mut [],
        by: &mut [],
    };
    let killers = Workers {
        on: &mut [],
        by: &mut [],
    };
    shift(&means, desks, clients, killers, each)
}

/// Looks at most 1,000,000 times until the word has come to a number, and then notes a failure. Each look
/// yields the processor, so that others come to their points where there are few.
fn hold(word: &AtomicU64, wanted: u64, failed: &AtomicU64) {
    for _ in 0..1_000_000u32 {
        if word.load(Ordering::SeqCst) >= wanted {
            return;
        }
        thread::yield_now();
    }
    failed.fetch_add(1, Ordering::SeqCst);
}
