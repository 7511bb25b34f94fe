//! Worked examples of the calls.

mod asking;
mod kills;
mod marks;
mod plays;
mod refusals;

use crate::tests::fixture::{manager, pass};
use crate::tests::manager::asking::{claims, commits, finds};
use tp_model::types::{Body, Claimed, Element, Limits, Outcome, Status, Work};

/// Two passes with four rows and two units each, and two attempts for each element.
const SMALL: Limits = Limits {
    parts: 2,
    rows: 4,
    units: 2,
    attempts: 2,
    spare: 0,
};

/// The status of a new element.
const NEW: Status = Status::Waiting { attempts: 0 };

/// A commit with no outputs.
const NOTHING: Outcome = Outcome::Committed { first: 0, count: 0 };

const BODY: Body = [0, 9, 0, 0];

/// The element that a client's submit makes.
fn request(id: u32, stage: u8, body: Body) -> Element {
    Element {
        id,
        stage,
        root: id,
        body,
        by: None,
    }
}

/// What a claim answers that takes this element for this time, by this unit.
fn work(unit: u16, attempt: u8, element: Element) -> Claimed {
    Claimed::Work(Work {
        unit,
        element,
        attempt,
    })
}

/// The reply to the request 0 that this unit's commit makes.
fn reply(id: u32, unit: u16) -> Element {
    Element {
        id,
        stage: 15,
        root: 0,
        body: BODY,
        by: Some(unit),
    }
}

/// Two passes meet once the first has submitted an element, and again once the second has consumed it.
#[test]
fn two_passes_meet(rt: HostRuntime) {
    let (manager, mut keeper) = manager(&rt, SMALL);
    let mut first = pass(&rt, &mut keeper, &manager);
    let mut second = pass(&rt, &mut keeper, &manager);
    let element = request(0, 1, BODY);
    assert!(rt; manager.submit(&mut first, 1, BODY) == Ok(0));
    assert!(rt; finds(&manager, &mut first, element, NEW));
    manager.meet(&mut first, &mut second);
    assert!(rt; claims(&manager, &mut second, 1, work(2, 1, element)));
    assert!(rt; commits(&manager, &mut second, 0, BODY, NOTHING));
    manager.meet(&mut second, &mut first);
    assert!(rt; finds(&manager, &mut first, element, Status::Consumed { unit: 2 }));
}
