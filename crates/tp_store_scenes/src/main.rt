//! Scenes of the store: each public call with each of its answers, as they must come. `stdout` has what is printed, worked out by
//! hand.
#![tactic(auto)]

mod restoring;

use std::fmt::Debug;
use std::io;
use tp_store::draft::Draft;
use tp_store::group::Group;
use tp_store::store::{Limits, Store};

/// Three elements may be alive, one request is kept, and there are two attempts.
const LIMITS: Limits = Limits {
    most: 3,
    keep: 1,
    attempts: 2,
};

fn main(rt: HostRuntime) -> io::Result<()> {
    let Ok(mut store) = Store::new(rt.alloc(), LIMITS) else {
        return Ok(());
    };
    requests(&rt, &mut store)?;
    workers(&rt, &mut store)?;
    attempts(&rt, &mut store)?;
    ends(&rt, &mut store)?;
    owners(&rt, &mut store)?;
    counts(&rt, &store)?;
    restoring::restores(&rt)
}

fn tell<T: Debug>(rt: &HostRuntime, call: &str, answer: &T) -> io::Result<()> {
    println!(rt; "{call}: {answer:?}")
}

fn requests(rt: &HostRuntime, store: &mut Store) -> io::Result<()> {
    tell(rt, "submit 0", &store.submit(0, [1, 2, 3, 4], None))?;
    tell(rt, "submit 15", &store.submit(15, [1, 2, 3, 4], None))?;
    tell(rt, "submit 1000", &store.submit(1000, [1, 2, 3, 4], None))?;
    tell(rt, "submit 1", &store.submit(1, [1, 2, 3, 4], None))?;
    tell(rt, "submit 1", &store.submit(1, [5, 6, 7, 8], None))?;
    tell(rt, "submit 999", &store.submit(999, [9, 0, 0, 0], None))?;
    tell(rt, "submit 1", &store.submit(1, [0, 0, 0, 0], None))
}

/// The outputs of a unit: a further request and a reply.
fn outputs() -> Option<[Draft; 2]> {
    let request = Draft::new(999, [1, 0, 0, 0])?;
    let reply = Draft::new(15, [2, 0, 0, 0])?;
    Some([request, reply])
}

fn workers(rt: &HostRuntime, store: &mut Store) -> io::Result<()> {
    let Some(outputs) = outputs() else {
        return Ok(());
    };
    tell(rt, "claim 15", &store.claim(15))?;
    tell(rt, "claim 2", &store.claim(2))?;
    tell(rt, "claim 1", &store.claim(1))?;
    tell(rt, "claim 1 from 2", &store.claim_from(1, 2))?;
    tell(rt, "claim 1", &store.claim(1))?;
    tell(rt, "commit 0 by 1", &store.commit(0, 1, &outputs))?;
    tell(rt, "commit 0 by 0", &store.commit(0, 0, &outputs))?;
    tell(rt, "commit 0 by 0", &store.commit(0, 0, &outputs))?;
    tell(rt, "commit 9 by 0", &store.commit(9, 0, &[]))?;
    tell(rt, "get 0", &store.get(0))?;
    tell(rt, "get 4", &store.get(4))
}

fn attempts(rt: &HostRuntime, store: &mut Store) -> io::Result<()> {
    tell(rt, "abort 1 by 1", &store.abort(1, 1))?;
    tell(rt, "abort 1 by 1", &store.abort(1, 1))?;
    tell(rt, "abort 9 by 1", &store.abort(9, 1))?;
    tell(rt, "take 9", &store.take(9))?;
    tell(rt, "take 4", &store.take(4))?;
    tell(rt, "take 1", &store.take(1))?;
    tell(rt, "take 1", &store.take(1))?;
    tell(rt, "requeue 1", &store.requeue(1))?;
    tell(rt, "release 1", &store.release(1))?;
    tell(rt, "release 1", &store.release(1))?;
    tell(rt, "release 9", &store.release(9))?;
    tell(rt, "parked", &id_of(store.first(Group::Queue(0), 0)))?;
    for _ in 0..3u8 {
        tell(rt, "requeue 1", &store.requeue(1))?;
        for _ in 0..2u8 {
            if let Ok(work) = store.take(1) {
                tell(rt, "abort 1", &store.abort(1, work.unit))?;
            }
        }
    }
    tell(rt, "requeue 1", &store.requeue(1))?;
    tell(rt, "requeue 9", &store.requeue(9))
}

/// The id of what was found.
fn id_of<T>(found: Option<(u64, T)>) -> Option<u64>
where
    T: Copy,
{
    let (id, _) = found?;
    Some(id)
}

fn ends(rt: &HostRuntime, store: &mut Store) -> io::Result<()> {
    tell(rt, "kill 1", &store.kill(1))?;
    tell(rt, "kill 1", &store.kill(1))?;
    tell(rt, "kill 0", &store.kill(0))?;
    tell(rt, "kill 9", &store.kill(9))?;
    tell(rt, "get 1", &store.get(1).is_some())?;
    tell(rt, "reply to 0", &id_of(store.first(Group::Replies(0), 0)))?;
    tell(rt, "collect 3", &store.collect(3))?;
    tell(rt, "collect 9", &store.collect(9))?;
    tell(rt, "collect 4", &store.collect(4).is_ok())?;
    tell(rt, "collect 4", &store.collect(4))?;
    tell(
        rt,
        "family of 0 from 1",
        &id_of(store.first(Group::Family(0), 1)),
    )?;
    tell(rt, "cancel 3", &store.cancel(3))?;
    tell(rt, "cancel 9", &store.cancel(9))?;
    tell(rt, "cancel 0", &store.cancel(0))?;
    tell(rt, "cancel 0", &store.cancel(0))?;
    // Two requests have ended, and one is kept.
    tell(rt, "get 1", &store.get(1).is_some())?;
    tell(rt, "get 0", &store.get(0).is_some())?;
    if let Ok(work) = store.take(2) {
        tell(rt, "kill 2", &store.kill(2))?;
        tell(rt, "commit 2", &store.commit(2, work.unit, &[]))?;
    }
    Ok(())
}

fn owners(rt: &HostRuntime, store: &mut Store) -> io::Result<()> {
    store.set_limits(Limits {
        most: 9,
        keep: 0,
        attempts: 1,
    });
    tell(rt, "limits", &store.limits())?;
    tell(
        rt,
        "submit 1 for 7",
        &store.submit(1, [0, 0, 0, 0], Some(7)),
    )?;
    tell(rt, "owned by 7", &id_of(store.first(Group::Owned(7), 0)))?;
    if let (Some(outputs), Ok(work)) = (outputs(), store.take(5)) {
        tell(rt, "commit 5", &store.commit(5, work.unit, &outputs))?;
    }
    tell(rt, "owned by 7", &id_of(store.first(Group::Owned(7), 0)))?;
    tell(rt, "owned by 8", &id_of(store.first(Group::Owned(8), 0)))?;
    // With one attempt what is given up is parked.
    if let Ok(work) = store.take(6) {
        tell(rt, "abort 6", &store.abort(6, work.unit))?;
    }
    tell(rt, "parked", &id_of(store.first(Group::Queue(0), 0)))?;
    tell(rt, "kill 6", &store.kill(6))?;
    tell(rt, "get 5", &store.get(5).is_some())?;
    tell(rt, "kill 7", &store.kill(7))?;
    // No request is kept now.
    tell(rt, "get 5", &store.get(5).is_some())
}

fn counts(rt: &HostRuntime, store: &Store) -> io::Result<()> {
    tell(rt, "total", &store.total())?;
    tell(rt, "stage 15", &store.stage_total(15))?;
    tell(rt, "stage 1000", &store.stage_total(1000))
}
