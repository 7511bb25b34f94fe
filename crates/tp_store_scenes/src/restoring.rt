//! A store is built again from what is told of it, and listed.
use crate::{LIMITS, tell};
use std::io;
use tp_store::element::{Element, Status};
use tp_store::group::Group;
use tp_store::store::Store;

/// What is told of an element.
fn told(root: u64, by: Option<u64>, stage: u16, status: Status) -> Element {
    Element {
        root,
        by,
        owner: Some(7),
        body: [0, 0, 0, 0],
        status,
        stage,
        rounds: 0,
        earlier: 0,
    }
}

/// Each call that takes back, with each of its answers.
pub(crate) fn restores(rt: &HostRuntime) -> io::Result<()> {
    let Ok(mut store) = Store::new(rt.alloc(), LIMITS) else {
        return Ok(());
    };
    tell(rt, "set numbers 6 3", &store.set_numbers(6, 3))?;
    tell(rt, "set numbers 5 3", &store.set_numbers(5, 3))?;
    tell(rt, "set numbers 6 2", &store.set_numbers(6, 2))?;
    elements(rt, &mut store)?;
    overs(rt, &mut store)?;
    settles(rt, &mut store)?;
    lists(rt, &store)?;
    // It works on from there.
    tell(rt, "commit 3 by 1", &store.commit(3, 1, &[]))?;
    tell(rt, "submit 1", &store.submit(1, [0, 0, 0, 0], None))?;
    tell(rt, "next", &store.next())?;
    tell(rt, "units", &store.units())
}

fn elements(rt: &HostRuntime, store: &mut Store) -> io::Result<()> {
    let consumed = told(0, None, 1, Status::Consumed { unit: 0 });
    let reply = told(0, Some(0), 15, Status::Waiting { attempts: 0 });
    let held = told(
        3,
        None,
        1,
        Status::Held {
            unit: 1,
            attempt: 1,
        },
    );
    let parked = told(4, None, 1, Status::Parked { attempts: 2 });
    tell(rt, "put back 0", &store.put_back(0, consumed))?;
    tell(rt, "put back 0", &store.put_back(0, consumed))?;
    tell(rt, "put back 2", &store.put_back(2, reply))?;
    tell(rt, "put back 1", &store.put_back(1, reply))?;
    tell(rt, "put back 6", &store.put_back(6, reply))?;
    impossible(rt, store)?;
    tell(rt, "put back 3", &store.put_back(3, held))?;
    tell(rt, "put back 4", &store.put_back(4, parked))
}

/// Elements to which no calls lead.
fn impossible(rt: &HostRuntime, store: &mut Store) -> io::Result<()> {
    let waiting = Status::Waiting { attempts: 0 };
    let held = Status::Held {
        unit: 1,
        attempt: 1,
    };
    let none = Status::Held {
        unit: 1,
        attempt: 0,
    };
    let later = Status::Consumed { unit: 3 };
    let mut rounds = told(3, None, 1, waiting);
    rounds.rounds = 4;
    tell(
        rt,
        "no stage",
        &store.put_back(3, told(3, None, 0, waiting)),
    )?;
    tell(
        rt,
        "no client",
        &store.put_back(3, told(0, None, 1, waiting)),
    )?;
    tell(
        rt,
        "no root",
        &store.put_back(3, told(3, Some(0), 1, waiting)),
    )?;
    tell(
        rt,
        "by nobody",
        &store.put_back(3, told(0, Some(3), 1, waiting)),
    )?;
    tell(
        rt,
        "in nobody's hands",
        &store.put_back(3, told(3, None, 1, later)),
    )?;
    tell(rt, "no attempt", &store.put_back(3, told(3, None, 1, none)))?;
    tell(
        rt,
        "a held reply",
        &store.put_back(3, told(0, Some(0), 15, held)),
    )?;
    tell(rt, "a fourth round", &store.put_back(3, rounds))
}

fn overs(rt: &HostRuntime, store: &mut Store) -> io::Result<()> {
    let waiting = told(5, None, 1, Status::Waiting { attempts: 0 });
    // A reply to 0 waits. Nothing is there of 5 any more.
    tell(rt, "put over 0", &store.put_over(0))?;
    tell(rt, "put over 6", &store.put_over(6))?;
    tell(rt, "put over 5", &store.put_over(5))?;
    tell(rt, "put back 5", &store.put_back(5, waiting))?;
    tell(rt, "over 0", &store.over(0))?;
    tell(rt, "over 1", &store.over(1))
}

fn settles(rt: &HostRuntime, store: &mut Store) -> io::Result<()> {
    tell(rt, "settled 1: 4 2", &store.set_settled(1, 4, 2))?;
    tell(rt, "settled 1: 3 2", &store.set_settled(1, 3, 2))?;
    tell(rt, "settled 1: 4 1", &store.set_settled(1, 4, 1))?;
    tell(rt, "settled 0: 0 0", &store.set_settled(0, 0, 0))?;
    tell(rt, "settled 2: all", &store.set_settled(2, u64::MAX, 0))?;
    tell(rt, "total", &store.total())?;
    tell(rt, "stage 1", &store.stage_total(1))
}

fn lists(rt: &HostRuntime, store: &Store) -> io::Result<()> {
    list(rt, store, "all", Group::All, 0, 9)?;
    list(rt, store, "two of all from 1", Group::All, 1, 2)?;
    list(rt, store, "none of all", Group::All, 0, 0)?;
    list(rt, store, "stage 1", Group::Queue(1), 0, 9)?;
    list(rt, store, "parked", Group::Queue(0), 0, 9)?;
    list(rt, store, "replies to 0", Group::Replies(0), 0, 9)?;
    list(rt, store, "owned by 7", Group::Owned(7), 0, 9)?;
    list(rt, store, "family of 0", Group::Family(0), 0, 9)?;
    list(rt, store, "family of 0 from 3", Group::Family(0), 3, 9)
}

/// The ids of what is listed.
fn list(
    rt: &HostRuntime,
    store: &Store,
    name: &str,
    group: Group,
    from: u64,
    most: usize,
) -> io::Result<()> {
    let Ok(list) = store.list(rt.alloc(), group, from, most) else {
        return Ok(());
    };
    println!(rt; "{name}: {} in all", list.len())?;
    for entry in &list {
        println!(rt; "{name}: {}", entry.0)?;
    }
    Ok(())
}
