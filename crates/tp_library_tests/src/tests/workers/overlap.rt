//! Two desks whose turns overlap: in neither order could one take its turn after the other.
ghost use Rattle.std.specs.Prelude.{◌≡◌, None, All, length};
ghost use Rattle.tp_workers.specs.Free.{IsFreePass};

use crate::tests::fixture::{manager, pass, two};
use crate::tests::workers::{adders, hold, turns};
use std::process::Abort;
use std::sync::atomic::{AtomicU64, Ordering};
use std::thread::Threads;
use tp_manager::{Manager, Pass};
use tp_model::types::Limits;
use tp_server::Server;
use tp_workers::{Gate, Point, Shift};

/// Holds worker 1 at its start until worker 0 has claimed, and worker 0, once prepared, until worker 1 has
/// settled.
#[derive(Drop)]
struct Overlap {
    claimed: AtomicU64,
    settled: AtomicU64,
    failed: AtomicU64,
}

impl Gate for Overlap {
    fn pause(&self, worker: u32, point: Point) {
        match (worker, point) {
            (0, Point::Claimed) => self.claimed.store(1, Ordering::SeqCst),
            (1, Point::Settled) => self.settled.store(1, Ordering::SeqCst),
            (1, Point::Start) => hold(&self.claimed, 1, &self.failed),
            (0, Point::Prepared) => hold(&self.settled, 1, &self.failed),
            _ => {}
        }
    }
}

/// One turn of each of two desks, which overlap: each has done one element.
fn overlaps<R: Threads + Sync + Abort>(
    rt: &R,
    manager: &Manager,
    desks: &mut [Pass],
    servers: &mut [Box<dyn Server + Send>],
)
    requires two { (length desks.old ≡ 2) × (length servers.old ≡ 2) }
    requires free { All (IsFreePass manager.now) desks.old }
    requires clear { All (λ server. pending server ≡ None) servers.old }
{
    let gate = Overlap {
        claimed: AtomicU64::new(0),
        settled: AtomicU64::new(0),
        failed: AtomicU64::new(0),
    };
    let mut each = [Shift::default(); 2];
    let counts = turns(rt, manager, desks, servers, 1, &mut each, &gate);
    assert!(rt; gate.failed.load(Ordering::SeqCst) == 0);
    assert_eq!(rt; (counts.done, each[0].done, each[1].done), (2, 1, 1));
}

#[test]
fn two_desks_overlap(rt: HostRuntime) {
    let limits = Limits {
        parts: 3,
        rows: 4,
        units: 4,
        attempts: 3,
        spare: 0,
    };
    let (manager, mut keeper) = manager(&rt, limits);
    let mut client = pass(&rt, &mut keeper, &manager);
    let mut desks = two(&rt, &mut keeper, &manager);
    assert!(rt; manager.submit(&mut client, 1, [0, 5, 0, 0]) == Ok(0));
    assert!(rt; manager.submit(&mut client, 1, [0, 7, 0, 0]) == Ok(1));
    let mut servers = adders(&rt);
    overlaps(&rt, &manager, &mut desks, &mut servers);
}
