//! A race of clients, servers and a killer, then a drain, and the closing account of it.
ghost use Rattle.std.specs.Prelude.{◌≡◌, None, All, length};
ghost use Rattle.tp_manager.specs.Shown.{IsKeptBy, IsOf};
ghost use Rattle.tp_workers.specs.Free.{IsFreePass};

use crate::tests::fixture::{manager, pass};
use crate::tests::workers::{adders, client};
use std::process::Abort;
use std::thread::Threads;
use tp_desk::Order;
use tp_manager::{Keeper, Manager, Pass};
use tp_model::types::{Account, Limits};
use tp_server::Server;
use tp_workers::{Drained, KillJob, NoGate, Plan, Shift, ShiftMeans, Workers, drain, shift};

/// The closing account, if these are all passes of the keeper.
fn accounted(manager: &Manager, keeper: &mut Keeper, passes: &mut [Pass]) -> Option<Account>
    requires kept { IsKeptBy manager.now keeper.old }
    requires own { All (IsOf manager.now) passes.old }
{
    if !keeper.has_all(passes) {
        return None;
    }
    Some(keeper.account(manager, passes))
}

/// Two clients, two desks and a killer race, then the desks drain, and then all that the passes saw is
/// counted.
fn raced<R: Threads + Sync + Abort + AllocGlobal>(
    rt: &R,
    manager: &Manager,
    keeper: &mut Keeper,
    passes: &mut [Pass],
    servers: &mut [Box<dyn Server + Send>],
) -> (Shift, Drained, Option<Account>)
    requires kept { IsKeptBy manager.now keeper.old }
    requires five { length passes.old ≡ 5 }
    requires free { All (IsFreePass manager.now) passes.old }
    requires two { length servers.old ≡ 2 }
    requires clear { All (λ server. pending server ≡ None) servers.old }
{
    let (clients, others) = passes.split_at_mut(2);
    let (desks, killers) = others.split_at_mut(2);
    let means = ShiftMeans {
        rt,
        manager,
        plan: Plan::least_first(100),
        gate: &NoGate,
    };
    let serving = Workers {
        on: &mut *desks,
        by: &mut *servers,
    };
    let submitting = Workers {
        on: clients,
        by: &mut [client(rt, 1, 50), client(rt, 1, 50)],
    };
    let killing = Workers {
        on: killers,
        by: &mut [KillJob { first: 0, end: 128 }],
    };
    let counts = shift(&means, serving, submitting, killing, &mut []);
    let drained = drain(manager, desks, servers, Order::LeastFirst);
    let account = accounted(manager, keeper, passes);
    (counts, drained, account)
}

/// The next five passes.
fn five<R: Abort>(rt: &R, keeper: &mut Keeper, manager: &Manager) -> [Pass; 5]
    requires { IsKeptBy manager.now keeper.old }
    ensures kept { IsKeptBy manager.now keeper.new }
    ensures free { All (IsFreePass manager.now) result }
{
    let first = pass(rt, keeper, manager);
    let second = pass(rt, keeper, manager);
    let third = pass(rt, keeper, manager);
    let fourth = pass(rt, keeper, manager);
    let fifth = pass(rt, keeper, manager);
    [first, second, third, fourth, fifth]
}

/// What a race came to: what was submitted, consumed and killed, the account, and the sum of the registers.
#[derive(Clone, Copy)]
struct Came {
    submitted: u32,
    consumed: u32,
    killed: u32,
    account: Account,
    sum: u64,
}

/// The register of a server.
fn balance<R: Abort>(rt: &R, server: &Box<dyn Server + Send>) -> u64 {
    server.balance(0).expect(rt, "no register")
}

/// A race over a manager of its own.
fn race<R: Threads + Sync + Abort + AllocGlobal>(rt: &R) -> Came {
    let limits = Limits {
        parts: 5,
        rows: 64,
        units: 256,
        attempts: 3,
        spare: 0,
    };
    let (manager, mut keeper) = manager(rt, limits);
    let mut passes = five(rt, &mut keeper, &manager);
    let mut servers = adders(rt);
    let (counts, drained, account) = raced(rt, &manager, &mut keeper, &mut passes, &mut servers);
    Came {
        submitted: counts.submitted,
        consumed: counts.done.wrapping_add(drained.done),
        killed: counts.killed,
        account: account.expect(rt, "not all passes"),
        sum: balance(rt, &servers[0]).wrapping_add(balance(rt, &servers[1])),
    }
}

#[test]
fn race_with_killer(rt: HostRuntime) {
    let came = race(&rt);
    assert_eq!(rt; came.submitted, 100);
    assert_eq!(rt; came.consumed.wrapping_add(came.killed), 100);
    assert_eq!(rt; came.sum, u64::from(came.consumed));
}

#[test]
fn account_after_race(rt: HostRuntime) {
    let came = race(&rt);
    let total = came.account.total;
    assert_eq!(rt;
        (total.consumed, total.killed),
        (came.consumed, came.killed)
    );
    assert_eq!(rt; (total.waiting, total.held, total.parked), (0, 0, 0));
    assert!(rt; came.account.stages[0] == total);
}
