//! A desk that is dropped calls off its work, and a desk asks its server once for each element that it takes.

mod lender;

use crate::tests::desk::lender::prepare_and_drop;
use crate::tests::fixture::{manager, pass};
use crate::tests::server::told::from_zero;
use tp_model::types::{Limits, Status};
use tp_server::Server;
use tp_workers::{Plan, work_off};

/// Of two elements the first is prepared at a desk that is dropped, and then both are consumed in two turns.
/// The server is told of the two commits, each once, and not of what was called off.
#[test]
fn told_once_a_commit(rt: HostRuntime) {
    let limits = Limits {
        parts: 2,
        rows: 4,
        units: 8,
        attempts: 3,
        spare: 0,
    };
    let (manager, mut keeper) = manager(&rt, limits);
    let mut client = pass(&rt, &mut keeper, &manager);
    let mut worker = pass(&rt, &mut keeper, &manager);
    assert!(rt; manager.submit(&mut client, 1, [0, 5, 0, 0]) == Ok(0));
    assert!(rt; manager.submit(&mut client, 1, [0, 7, 0, 0]) == Ok(1));
    let mut server: Box<dyn Server + Send> = Box::new(rt.alloc(), from_zero()).expect(
        &rt,
        "no memory",
    );
    assert!(rt; prepare_and_drop(&manager, &mut worker, &mut server));
    assert!(rt; !worker.has_open() && !server.is_prepared());
    let look = manager.read(&mut client, 0).expect(&rt, "not born");
    assert!(rt; look.status == Status::Waiting { attempts: 1 });
    let counts = work_off(&manager, &mut worker, &mut server, Plan::least_first(2));
    assert!(rt; counts.done == 2);
    // Before the second turn it was asked twice and told once.
    assert!(rt; server.balance(0) == Some(2) && server.balance(1) == Some(1));
}
