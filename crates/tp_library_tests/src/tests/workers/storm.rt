//! Two threads that cancel requests while three servers in a tree of outputs work on them.
ghost use denote.Param.Send.{IsSync};
ghost use Rattle.std.specs.Prelude.{◌≡◌, ◌*◌, ◌<◌, ◌^◌, None, All, length};
ghost use Rattle.tp_manager.specs.Shown.{IsKeptBy, IsOf};
ghost use Rattle.tp_workers.specs.Free.{IsFreePass};

use crate::tests::fixture::{eager, lazy, manager, output, pass, recipe};
use crate::tests::workers::turns;
use std::process::Abort;
use std::thread::{Threads, join_mut};
use tp_desk::Order;
use tp_manager::{Keeper, Manager, Pass};
use tp_model::types::Limits;
use tp_server::{Act, AmountFrom, Server};
use tp_workers::{NoGate, Shift, drain};

/// How many requests there are.
const REQUESTS: u32 = 50;

/// Submits all requests, with the amount 1.
fn submit_all<R: Abort>(rt: &R, manager: &Manager, client: &mut Pass)
    requires { IsOf manager.now client.old }
{
    for root in 0..REQUESTS {
        assert!(rt; manager.submit(client, 1, [0, 1, 0, 0]) == Ok(root));
    }
}

/// Cancels each of the requests, and answers how many elements that killed.
fn cancel_all(manager: &Manager, pass: &mut Pass) -> u32
    requires { IsFreePass manager.now pass.old }
{
    let mut killed = 0u32;
    for root in 0..REQUESTS {
        if let Ok(cancelled) = manager.cancel(pass, root) {
            killed = killed.wrapping_add(cancelled.killed);
        }
    }
    killed
}

/// The two cancellers, each on a thread of its own.
fn both_cancel<R: Threads + Sync>(
    rt: &R,
    manager: &Manager,
    first: &mut Pass,
    second: &mut Pass,
) -> u32
    requires first { IsFreePass manager.now first.old }
    requires second { IsFreePass manager.now second.old }
{
    let mut one = || -> u32
        requires { IsFreePass manager.now first.now }
    { cancel_all(manager, first) };
    let mut other = || -> u32
        requires { IsFreePass manager.now second.now }
    { cancel_all(manager, second) };
    let (a, b) = join_mut(rt, &mut one, &mut other);
    a.wrapping_add(b)
}

/// The three servers' turns, and beside them the two cancellers. Answers what each desk did, and what the
/// cancellers killed.
fn turns_and_cancels<R: Threads + Sync>(
    rt: &R,
    manager: &Manager,
    desks: &mut [Pass],
    servers: &mut [Box<dyn Server + Send>],
    each: &mut [Shift],
    first: &mut Pass,
    second: &mut Pass,
) -> u32
    requires paired { length desks.old ≡ length servers.old }
    requires few { 200 * length desks.old < 2 ^ 32 }
    requires free { All (IsFreePass manager.now) desks.old }
    requires clear { All (λ server. pending server ≡ None) servers.old }
    requires first { IsFreePass manager.now first.old }
    requires second { IsFreePass manager.now second.old }
    ensures kept { length servers.new ≡ length servers.old }
{
    let mut work = || -> Shift
        requires { IsSync R.row × (length desks.now ≡ length servers.now) × (200 * length desks.now < 2 ^ 32)
            × All (IsFreePass manager.now) desks.now × All (λ server. pending server ≡ None) servers.now }
        ensures { length servers.exit.now ≡ length servers.entry.now }
    { turns(rt, manager, desks, servers, 200, each, &NoGate) };
    let mut cancels = || -> u32
        requires { IsSync R.row × IsFreePass manager.now first.now × IsFreePass manager.now second.now }
    { both_cancel(rt, manager, first, second) };
    let (_counts, killed) = join_mut(rt, &mut work, &mut cancels);
    killed
}

/// A storm. All that was born and is no reply was consumed or killed, once: the requests, and an output in
/// each branch for each that the root consumed. Each register is the sum of what its server consumed.
fn storms<R: Threads + Sync + Abort>(
    rt: &R,
    manager: &Manager,
    desks: &mut [Pass],
    servers: &mut [Box<dyn Server + Send>],
    first: &mut Pass,
    second: &mut Pass,
)
    requires three { (length desks.old ≡ 3) × (length servers.old ≡ 3) }
    requires free { All (IsFreePass manager.now) desks.old }
    requires clear { All (λ server. pending server ≡ None) servers.old }
    requires first { IsFreePass manager.now first.old }
    requires second { IsFreePass manager.now second.old }
{
    let mut each = [Shift::default(); 3];
    let killed = turns_and_cancels(rt, manager, desks, servers, &mut each, first, second);
    let done = [each[0].done, each[1].done, each[2].done];
    let consumed = done[0].wrapping_add(done[1]).wrapping_add(done[2]);
    let born = REQUESTS.wrapping_add(done[0]).wrapping_add(done[0]);
    assert_eq!(rt; consumed.wrapping_add(killed), born);
    assert!(rt; servers[0].balance(0) == Some(u64::from(done[0])));
    assert!(rt; servers[1].balance(0) == Some(u64::from(done[1])));
    assert!(rt; servers[2].balance(0) == Some(u64::from(done[2])));
}

/// The next three passes.
fn three_passes<R: Abort>(rt: &R, keeper: &mut Keeper, manager: &Manager) -> [Pass; 3]
    requires { IsKeptBy manager.now keeper.old }
    ensures kept { IsKeptBy manager.now keeper.new }
    ensures free { All (IsFreePass manager.now) result }
{
    let first = pass(rt, keeper, manager);
    let second = pass(rt, keeper, manager);
    let third = pass(rt, keeper, manager);
    [first, second, third]
}

/// Three servers with nothing prepared, side by side.
fn three(
    one: Box<dyn Server + Send>,
    other: Box<dyn Server + Send>,
    third: Box<dyn Server + Send>,
) -> [Box<dyn Server + Send>; 3]
    requires { (pending one ≡ None) × (pending other ≡ None) × (pending third ≡ None) }
    ensures { All (λ server. pending server ≡ None) result }
{
    [one, other, third]
}

/// A tree of servers: the root, of stage 1, makes an output for each of the branches, of the stages 2 and 3,
/// and each branch makes a reply.
fn tree_of_three<R: Abort + AllocGlobal>(rt: &R) -> [Box<dyn Server + Send>; 3]
    ensures { All (λ server. pending server ≡ None) result }
{
    let branches = [output(2, AmountFrom::Same), output(3, AmountFrom::Same)];
    let reply = [output(15, AmountFrom::Same)];
    let root = eager(rt, 0, recipe(1, Act::Add, &branches));
    let left = lazy(rt, 0, recipe(2, Act::Add, &reply));
    let right = eager(rt, 0, recipe(3, Act::Add, &reply));
    three(root, left, right)
}

#[test]
fn storm(rt: HostRuntime) {
    let limits = Limits {
        parts: 9,
        rows: 256,
        units: 1024,
        attempts: 3,
        spare: 0,
    };
    let (manager, mut keeper) = manager(&rt, limits);
    let mut client = pass(&rt, &mut keeper, &manager);
    submit_all(&rt, &manager, &mut client);
    let mut desks = three_passes(&rt, &mut keeper, &manager);
    let mut others = three_passes(&rt, &mut keeper, &manager);
    let mut first = pass(&rt, &mut keeper, &manager);
    let mut second = pass(&rt, &mut keeper, &manager);
    let mut servers = tree_of_three(&rt);
    storms(
        &rt,
        &manager,
        &mut desks,
        &mut servers,
        &mut first,
        &mut second,
    );

    // A drain finds nothing.
    let mut fresh = tree_of_three(&rt);
    assert!(rt; drain(&manager, &mut others, &mut fresh, Order::LeastFirst).done == 0);
}
