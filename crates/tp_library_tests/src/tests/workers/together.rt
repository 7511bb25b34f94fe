//! Six workers that are all under way at once.
ghost use Rattle.std.specs.Prelude.{◌≡◌, None, All, length};
ghost use Rattle.tp_workers.specs.Free.{IsFreePass};

use crate::tests::fixture::{manager, two};
use crate::tests::workers::{adders, client, hold};
use std::process::Abort;
use std::sync::atomic::{AtomicU64, Ordering};
use std::thread::Threads;
use tp_manager::{Manager, Pass};
use tp_model::types::Limits;
use tp_server::Server;
use tp_workers::{Gate, KillJob, Plan, Point, ShiftMeans, Workers, shift};

/// Holds each worker at its start until all have come there. Each has one turn or call.
#[derive(Drop)]
struct Together {
    workers: u64,
    came: AtomicU64,
    failed: AtomicU64,
}

impl Gate for Together {
    fn pause(&self, _worker: u32, point: Point) {
        if point == Point::Start {
            self.came.fetch_add(1, Ordering::SeqCst);
            hold(&self.came, self.workers, &self.failed);
        }
    }
}

/// Two desks, two clients and two killers start together, and both clients submit.
fn start_together<R: Threads + Sync + Abort + AllocGlobal>(
    rt: &R,
    manager: &Manager,
    desks: &mut [Pass],
    servers: &mut [Box<dyn Server + Send>],
    clients: &mut [Pass],
    killers: &mut [Pass],
)
    requires two { (length desks.old ≡ 2) × (length servers.old ≡ 2)
        × (length clients.old ≡ 2) × (length killers.old ≡ 2) }
    requires desks { All (IsFreePass manager.now) desks.old }
    requires servers { All (λ server. pending server ≡ None) servers.old }
    requires clients { All (IsFreePass manager.now) clients.old }
    requires killers { All (IsFreePass manager.now) killers.old }
{
    let gate = Together {
        workers: 6,
        came: AtomicU64::new(0),
        failed: AtomicU64::new(0),
    };
    let means = ShiftMeans {
        rt,
        manager,
        plan: Plan::least_first(1),
        gate: &gate,
    };
    let desks = Workers {
        on: desks,
        by: servers,
    };
    let clients = Workers {
        on: clients,
        by: &mut [client(rt, 1, 1), client(rt, 1, 1)],
    };
    let killers = Workers {
        on: killers,
        by: &mut [KillJob { first: 0, end: 1 }, KillJob { first: 1, end: 2 }],
    };
    let counts = shift(&means, desks, clients, killers, &mut []);
    assert!(rt; gate.failed.load(Ordering::SeqCst) == 0);
    assert_eq!(rt; counts.submitted, 2);
}

#[test]
fn six_start_together(rt: HostRuntime) {
    let limits = Limits {
        parts: 6,
        rows: 4,
        units: 4,
        attempts: 3,
        spare: 0,
    };
    let (manager, mut keeper) = manager(&rt, limits);
    let mut desks = two(&rt, &mut keeper, &manager);
    let mut clients = two(&rt, &mut keeper, &manager);
    let mut killers = two(&rt, &mut keeper, &manager);
    let mut servers = adders(&rt);
    start_together(
        &rt,
        &manager,
        &mut desks,
        &mut servers,
        &mut clients,
        &mut killers,
    );
}
