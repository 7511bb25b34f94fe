//! Scenes of rollovers: what is carried over, how it stands in the new manager, and each fault.
mod crews;
mod held;
mod lent;
mod plays;
mod scenes;

use plays::Call::{Aborts, Commits, Requeues, Shows, Stands, Submits, Takes};
use plays::{Call, Stand};
use scenes::{Side, needs_passes, rolls};
use std::process::Abort;
use tp_model::types::{Body, Draft, Limits, Outcome, Status};
use tp_rollover::{Managed, Moved, RollFault};

/// Two passes with eight rows and sixteen units each, and two attempts for each element.
const LIMITS: Limits = Limits {
    parts: 2,
    rows: 8,
    units: 16,
    attempts: 2,
    spare: 0,
};

/// How a new element stands.
const NEW: Status = Status::Waiting { attempts: 0 };

/// A body with this first word.
fn body(word: u64) -> Body {
    [word, 1, 2, 3]
}

fn draft(rt: &impl Abort, stage: u8, word: u64) -> Draft {
    Draft::new(stage, body(word)).expect(rt, "a draft")
}

/// A commit with outputs of these stages and first words, at most four, and ids from `first` on.
fn bears(rt: &impl Abort, first: u32, outputs: &[(u8, u64)]) -> Call {
    let count = outputs.len().min(4);
    let mut drafts = [draft(rt, 1, 0); 4];
    for place in 0..count {
        let (stage, word) = outputs[place];
        drafts[place] = draft(rt, stage, word);
    }
    let outcome = Outcome::Committed {
        first,
        count: count as u8,
    };
    Commits(drafts, count, outcome)
}

fn moved(old: u32, new: u32, old_root: u32, new_root: u32) -> Moved {
    Moved {
        old,
        new,
        old_root,
        new_root,
        holder: None,
    }
}

/// The same, which this pass has in hand.
fn held_by(pass: u16, moved: Moved) -> Moved {
    Moved {
        holder: Some(pass),
        ..moved
    }
}

/// A read that finds the element with no attempt yet.
fn waits(id: u32, stage: u8, root: u32, word: u64) -> Call {
    stands(id, stage, root, word, NEW, 0)
}

fn stands(id: u32, stage: u8, root: u32, word: u64, status: Status, rounds: u8) -> Call {
    Stands(Stand {
        id,
        stage,
        root,
        body: body(word),
        status,
        rounds,
    })
}

fn side<'a>(before: &'a [(usize, Call)], after: &'a [(usize, Call)]) -> Side<'a> {
    Side {
        limits: LIMITS,
        before,
        after,
    }
}

/// A side with other limits.
fn within<'a>(limits: Limits, after: &'a [(usize, Call)]) -> Side<'a> {
    Side {
        limits,
        before: &[],
        after,
    }
}

/// A family of six, one of them parked in its second round and one a reply, beside another request. The
/// carriers, 0 and 4, are consumed by the first unit of either pass.
#[test]
fn six_of_a_family(rt: HostRuntime) {
    let before = [
        (0, Submits(1, body(70), 0)),
        (1, Submits(2, body(80), 8)),
        (1, Takes(0)),
        (1, bears(&rt, 9, &[(2, 71), (4, 72), (3, 73), (1, 74)])),
        (0, Takes(12)),
        (0, bears(&rt, 1, &[(2, 75), (15, 76), (2, 77)])),
        (0, Takes(10)),
        (0, Aborts),
        (0, Takes(10)),
        (0, Aborts),
        (0, Requeues(10, 1)),
        (0, Takes(10)),
        (0, Aborts),
        (0, Takes(10)),
        (0, Aborts),
        (1, Takes(11)),
        (1, Aborts),
    ];
    let after = [
        (0, Shows(0, Status::Consumed { unit: 16 })),
        (0, Shows(1, Status::Killed)),
        (0, Shows(10, Status::Killed)),
        (0, Shows(12, Status::Consumed { unit: 0 })),
    ];
    let new_after = [
        (0, Shows(0, Status::Consumed { unit: 0 })),
        (0, waits(1, 2, 0, 75)),
        (0, waits(2, 15, 0, 76)),
        (0, waits(3, 2, 0, 77)),
        (0, Shows(4, Status::Consumed { unit: 16 })),
        (0, waits(8, 2, 8, 80)),
        (0, waits(9, 2, 0, 71)),
        (0, stands(10, 4, 0, 72, Status::Parked { attempts: 2 }, 1)),
        (0, stands(11, 3, 0, 73, Status::Waiting { attempts: 1 }, 0)),
    ];
    let wanted = [
        moved(1, 1, 0, 0),
        moved(2, 2, 0, 0),
        moved(3, 3, 0, 0),
        moved(8, 8, 8, 8),
        moved(9, 9, 0, 0),
        moved(10, 10, 0, 0),
        moved(11, 11, 0, 0),
    ];
    rolls(
        &rt,
        &[side(&before, &after), side(&[], &new_after)],
        Ok(&wanted),
    );
}

/// Two parts of two rows: four elements fill them, the third in the second part, and a fifth has no room.
#[test]
fn until_it_is_full(rt: HostRuntime) {
    let small = Limits { rows: 2, ..LIMITS };
    let before = [
        (0, Submits(1, body(10), 0)),
        (0, Submits(1, body(20), 1)),
        (0, Submits(1, body(30), 2)),
        (1, Submits(1, body(40), 8)),
        (1, Submits(1, body(50), 9)),
    ];
    let new_after = [(0, waits(2, 1, 2, 30)), (0, waits(3, 1, 3, 40))];
    let wanted = [
        moved(0, 0, 0, 0),
        moved(1, 1, 1, 1),
        moved(2, 2, 2, 2),
        moved(8, 3, 8, 3),
    ];
    rolls(
        &rt,
        &[side(&before[..4], &[]), within(small, &new_after)],
        Ok(&wanted),
    );
    let after = [(0, waits(0, 1, 0, 10)), (1, Takes(9))];
    rolls(
        &rt,
        &[side(&before, &after), within(small, &[])],
        Err(RollFault::Full),
    );
}

/// With another attempt limit an element couldn't stand as it did.
#[test]
fn another_limit(rt: HostRuntime) {
    let three = Limits {
        attempts: 3,
        ..LIMITS
    };
    let before = [(0, Submits(1, body(10), 0))];
    let after = [(0, waits(0, 1, 0, 10))];
    let new_after = [(0, Submits(1, body(20), 0))];
    rolls(
        &rt,
        &[side(&before, &after), within(three, &new_after)],
        Err(RollFault::BadLimits),
    );
}

/// What was submitted to the new manager before is no element of the old one: there is no room beside it.
#[test]
fn not_a_new_one(rt: HostRuntime) {
    let before = [(0, Submits(1, body(10), 0))];
    let after = [(0, waits(0, 1, 0, 10)), (1, Takes(0))];
    let new = side(&before, &[]);
    rolls(&rt, &[side(&before, &after), new], Err(RollFault::Full));
}

#[test]
fn no_pass(rt: HostRuntime) {
    assert!(rt; needs_passes(&rt, LIMITS));
}

/// Limits outside their ranges.
#[test]
fn no_limits(rt: HostRuntime) {
    let limits = Limits { rows: 0, ..LIMITS };
    assert!(&rt; Managed::restored(rt.alloc(), limits, &[]).err() == Some(RollFault::BadLimits));
}
