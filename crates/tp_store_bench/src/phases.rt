//! What is measured: one call so often, one after another.
use std::alloc::Global;
use std::io;
use std::time::Clock;
use tp_store::answers::Outcome;
use tp_store::draft::Draft;
use tp_store::group::Group;
use tp_store::store::{Limits, Store};

/// Each limit that isn't measured is as wide as can be.
const LIMITS: Limits = Limits {
    most: u64::MAX,
    keep: 1000,
    attempts: 3,
};

/// Nanoseconds since some start.
fn now(clock: &impl Clock) -> u64 {
    match clock.monotonic() {
        Ok(time) => time
            .as_secs()
            .wrapping_mul(1_000_000_000)
            .wrapping_add(time.subsec_nanos() as u64),
        Err(_) => 0,
    }
}

/// A number below `end` that looks like chance.
fn below(number: u64, end: u64) -> u64 {
    let mixed = (number ^ (number >> 31)).wrapping_mul(0x9e37_79b9_7f4a_7c15);
    let again = (mixed ^ (mixed >> 29)).wrapping_mul(0xbf58_476d_1ce4_e5b9);
    if end == 0 {
        0
    } else {
        (again ^ (again >> 32)) % end
    }
}

fn submits(store: &mut Store, stage: u16, count: u64) -> u64 {
    let mut accepted = 0u64;
    for i in 0..count {
        if store.submit(stage, [i, 1, 0, 0], None).is_ok() {
            accepted = accepted.wrapping_add(1);
        }
    }
    accepted
}

fn reads(store: &Store, end: u64, count: u64) -> u64 {
    let mut found = 0u64;
    for i in 0..count {
        if store.get(below(i, end)).is_some() {
            found = found.wrapping_add(1);
        }
    }
    found
}

/// Lists of the first 4,000 that wait in a stage; the answer is how many were listed.
fn lists(store: &Store, alloc: Global, stage: u16, count: u64) -> u64 {
    let mut listed = 0u64;
    for _ in 0..count {
        if let Ok(list) = store.list(alloc, Group::Queue(stage), 0, 4000) {
            listed = listed.wrapping_add(list.len() as u64);
        }
    }
    listed
}

/// Claims of one stage, and commits with one output to another.
fn turns(store: &mut Store, stage: u16, output: u16, count: u64) -> u64 {
    let mut done = 0u64;
    for i in 0..count {
        if let Some(draft) = Draft::new(output, [i, 2, 0, 0]) {
            if turn(store, stage, &draft) {
                done = done.wrapping_add(1);
            }
        }
    }
    done
}

fn turn(store: &mut Store, stage: u16, draft: &Draft) -> bool {
    match store.claim(stage) {
        Ok(Some(work)) => match store.commit(work.id, work.unit, &[*draft]) {
            Ok(Outcome::Committed { .. }) => true,
            Ok(Outcome::Lost) => false,
            Err(_) => false,
        },
        Ok(None) => false,
        Err(_) => false,
    }
}

/// Claims that are given up.
fn aborts(store: &mut Store, stage: u16, count: u64) -> u64 {
    let mut done = 0u64;
    for _ in 0..count {
        if let Ok(Some(work)) = store.claim(stage) {
            if store.abort(work.id, work.unit).is_ok() {
                done = done.wrapping_add(1);
            }
        }
    }
    done
}

/// The replies are taken, the first one first.
fn collects(store: &mut Store, count: u64) -> u64 {
    let mut taken = 0u64;
    for _ in 0..count {
        if let Some((id, _)) = store.first(Group::Queue(15), 0) {
            if store.collect(id).is_ok() {
                taken = taken.wrapping_add(1);
            }
        }
    }
    taken
}

fn kills(store: &mut Store, end: u64, count: u64) -> u64 {
    let mut killed = 0u64;
    for i in 0..count {
        if store.kill(below(i, end)).is_ok() {
            killed = killed.wrapping_add(1);
        }
    }
    killed
}

/// Tells what so many calls took, and since when.
fn tell(rt: &HostRuntime, name: &str, alive: u64, since: u64, calls: u64) -> io::Result<()> {
    let took = now(rt).wrapping_sub(since);
    println!(rt; "{name} {alive} {took} {calls}")
}

/// Measures a store in which so many requests wait.
pub fn measure(rt: &HostRuntime, alloc: Global, alive: u64) -> io::Result<()> {
    let Ok(mut store) = Store::new(alloc, LIMITS) else {
        return Ok(());
    };
    let few = if alive < 100_000 { alive / 2 } else { 50_000 };
    fill(rt, &mut store, alive)?;
    work(rt, &mut store, alive, few)?;
    end(rt, &mut store, alive, few)
}

fn fill(rt: &HostRuntime, store: &mut Store, alive: u64) -> io::Result<()> {
    let since = now(rt);
    let calls = submits(store, 1, alive);
    tell(rt, "submit_all", alive, since, calls)?;
    let since = now(rt);
    let calls = reads(store, alive, 200_000);
    tell(rt, "read", alive, since, calls)?;
    let since = now(rt);
    let calls = lists(store, rt.alloc(), 1, 50);
    tell(rt, "list", alive, since, calls)
}

fn work(rt: &HostRuntime, store: &mut Store, alive: u64, few: u64) -> io::Result<()> {
    let since = now(rt);
    let calls = aborts(store, 1, few / 4);
    tell(rt, "claim_abort", alive, since, calls)?;
    let since = now(rt);
    let calls = turns(store, 1, 2, few);
    tell(rt, "turn", alive, since, calls)?;
    let since = now(rt);
    let calls = turns(store, 2, 15, few);
    tell(rt, "turn_reply", alive, since, calls)
}

fn end(rt: &HostRuntime, store: &mut Store, alive: u64, few: u64) -> io::Result<()> {
    let since = now(rt);
    let calls = collects(store, few);
    tell(rt, "collect", alive, since, calls)?;
    let since = now(rt);
    let calls = submits(store, 1, few);
    tell(rt, "submit", alive, since, calls)?;
    let since = now(rt);
    let calls = kills(store, alive, few);
    tell(rt, "kill", alive, since, calls)
}
