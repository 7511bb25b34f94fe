//! Clients and killers on threads of their own, and what they count. All counts that aren't named are 0.
ghost use Rattle.std.specs.Prelude.{◌≡◌, ◌<◌, ◌^◌, All, length};
ghost use Rattle.std.specs.List.{sum_by};
ghost use Rattle.tp_manager.specs.Shown.{IsKeptBy, IsOf};
ghost use Rattle.tp_workers.specs.Clients.{IsClientJob};
ghost use Rattle.tp_workers.specs.Free.{IsFreePass};
ghost use Rattle.tp_workers.specs.Sums.{calls_of};

use crate::tests::fixture::{eager, manager, output, pass, recipe, two};
use crate::tests::workers::client;
use std::process::Abort;
use std::thread::Threads;
use tp_manager::{Keeper, Manager, Pass};
use tp_model::types::Limits;
use tp_server::{Act, AmountFrom};
use tp_workers::{ClientJob, KillJob, NoGate, Plan, Shift, ShiftMeans, Workers, shift, work_off};

/// A shift of clients alone.
fn submits<R: Threads + Sync>(
    rt: &R,
    manager: &Manager,
    clients: &mut [Pass],
    jobs: &mut [ClientJob],
) -> Shift
    requires paired { length clients.old ≡ length jobs.old }
    requires free { All (IsFreePass manager.now) clients.old }
    requires jobs { All IsClientJob jobs.old }
    requires few { sum_by calls_of jobs.old < 2 ^ 32 }
    ensures free { All (IsFreePass manager.now) clients.new }
    ensures kept { length clients.new ≡ length clients.old }
{
    let means = ShiftMeans {
        rt,
        manager,
        plan: Plan::least_first(0),
        gate: &NoGate,
    };
    let desks = Workers {
        on: &mut [],
        by: &mut [],
    };
    let clients = Workers {
        on: clients,
        by: jobs,
    };
    let killers = Workers {
        on: &mut [],
        by: &mut [],
    };
    shift(&means, desks, clients, killers, &mut [])
}

/// What clients count of which so many calls were accepted, and so many found no row.
fn submitted(submitted: u32, submit_full: u32) -> Shift {
    Shift {
        submitted,
        submit_full,
        ..Shift::default()
    }
}

/// A shift of one killer alone, which kills the elements 0 to 3.
fn kills_four<R: Threads + Sync>(rt: &R, manager: &Manager, killers: &mut [Pass]) -> Shift
    requires one { length killers.old ≡ 1 }
    requires free { All (IsFreePass manager.now) killers.old }
    ensures one { length killers.new ≡ 1 }
    ensures free { All (IsFreePass manager.now) killers.new }
{
    let means = ShiftMeans {
        rt,
        manager,
        plan: Plan::least_first(0),
        gate: &NoGate,
    };
    let desks = Workers {
        on: &mut [],
        by: &mut [],
    };
    let clients = Workers {
        on: &mut [],
        by: &mut [],
    };
    let killers = Workers {
        on: killers,
        by: &mut [KillJob { first: 0, end: 4 }],
    };
    shift(&means, desks, clients, killers, &mut [])
}

#[test]
fn client_and_killer_counts(rt: HostRuntime) {
    let limits = Limits {
        parts: 2,
        rows: 64,
        units: 256,
        attempts: 3,
        spare: 0,
    };
    let (manager, mut keeper) = manager(&rt, limits);
    let mut clients = [pass(&rt, &mut keeper, &manager)];
    let mut killers = [pass(&rt, &mut keeper, &manager)];
    let counts = submits(&rt, &manager, &mut clients, &mut [client(&rt, 1, 3)]);
    assert_eq!(rt; counts, submitted(3, 0));
    let first = Shift {
        killed: 3,
        missing: 1,
        ..Shift::default()
    };
    assert_eq!(rt; kills_four(&rt, &manager, &mut killers), first);
    let second = Shift {
        already: 3,
        missing: 1,
        ..Shift::default()
    };
    assert_eq!(rt; kills_four(&rt, &manager, &mut killers), second);
}

/// Passes that have used up their one row and their one unit.
#[test]
fn full_then_no_unit(rt: HostRuntime) {
    let limits = Limits {
        parts: 2,
        rows: 1,
        units: 1,
        attempts: 1,
        spare: 0,
    };
    let (manager, mut keeper) = manager(&rt, limits);
    let mut clients = [pass(&rt, &mut keeper, &manager)];
    let counts = submits(&rt, &manager, &mut clients, &mut [client(&rt, 1, 3)]);
    assert_eq!(rt; counts, submitted(1, 2));
    let twice = [output(15, AmountFrom::Same), output(15, AmountFrom::Same)];
    let mut server = eager(&rt, 0, recipe(1, Act::Add, &twice));
    let mut desk = pass(&rt, &mut keeper, &manager);
    let counts = work_off(&manager, &mut desk, &mut server, Plan::least_first(2));
    let wanted = Shift {
        full: 1,
        nounit: 1,
        ..Shift::default()
    };
    assert_eq!(rt; counts, wanted);
}

/// How many of so many elements from this id on have the amount and the place that were submitted.
fn read_back(manager: &Manager, pass: &mut Pass, amount: u64, first: u32, count: u32) -> u32
    requires own { IsOf manager.now pass.old }
    ensures own { IsOf manager.now pass.new }
{
    let mut found = 0u32;
    for i in 0..count {
        if let Ok(look) = manager.read(pass, first.wrapping_add(i)) {
            if look.element.body == [0, amount, u64::from(i), 0] {
                found = found.wrapping_add(1);
            }
        }
    }
    found
}

/// Two threads with a pass each submit until there is no row: each of the 512 ids comes once.
#[test]
fn two_threads_submit(rt: HostRuntime) {
    let limits = Limits {
        parts: 3,
        rows: 256,
        units: 2,
        attempts: 2,
        spare: 0,
    };
    let (manager, mut keeper) = manager(&rt, limits);
    let mut clients = two(&rt, &mut keeper, &manager);
    let mut reader = pass(&rt, &mut keeper, &manager);
    let mut jobs = [client(&rt, 7, 257), client(&rt, 8, 257)];
    let counts = submits(&rt, &manager, &mut clients, &mut jobs);
    assert_eq!(rt; counts, submitted(512, 2));
    assert!(rt; read_back(&manager, &mut reader, 7, 0, 256) == 256);
    assert!(rt; read_back(&manager, &mut reader, 8, 256, 256) == 256);
}

/// The next four passes.
fn four<R: Abort>(rt: &R, keeper: &mut Keeper, manager: &Manager) -> [Pass; 4]
    requires { IsKeptBy manager.now keeper.old }
    ensures kept { IsKeptBy manager.now keeper.new }
    ensures free { All (IsFreePass manager.now) result }
{
    let first = pass(rt, keeper, manager);
    let second = pass(rt, keeper, manager);
    let third = pass(rt, keeper, manager);
    let fourth = pass(rt, keeper, manager);
    [first, second, third, fourth]
}

/// Each submits until its row and the three spare blocks are used up: 28 ids come, each once.
#[test]
fn four_passes_use_spares(rt: HostRuntime) {
    let limits = Limits {
        parts: 4,
        rows: 1,
        units: 1,
        attempts: 1,
        spare: 3,
    };
    let (manager, mut keeper) = manager(&rt, limits);
    let mut clients = four(&rt, &mut keeper, &manager);
    let mut jobs = [
        client(&rt, 1, 26),
        client(&rt, 1, 26),
        client(&rt, 1, 26),
        client(&rt, 1, 26),
    ];
    let counts = submits(&rt, &manager, &mut clients, &mut jobs);
    assert_eq!(rt; counts, submitted(28, 76));
}
