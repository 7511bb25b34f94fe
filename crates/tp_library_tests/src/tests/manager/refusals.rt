//! Calls that find a limit reached: no row, no unit, no attempt left.

use super::plays::Call::{Aborts, Claims, Commits, Finds, Misses, NextError, Submits};
use super::plays::{CLIENT, SERVER, plays};
use super::{BODY, NEW, SMALL, reply, request, work};
use tp_model::types::{Claimed, Limits, Outcome, Refusal, Status};

#[test]
fn rows_used_up(rt: HostRuntime) {
    let limits = Limits { rows: 2, ..SMALL };
    let calls = [
        (CLIENT, Submits(1, BODY, Ok(0))),
        (CLIENT, Submits(14, [3, 4, 0, 0], Ok(1))),
        (CLIENT, Submits(1, BODY, Err(Refusal::Full))),
        (CLIENT, Submits(15, BODY, Err(Refusal::BadStage))),
        (CLIENT, Finds(request(1, 14, [3, 4, 0, 0]), NEW)),
        (CLIENT, Misses(2)),
        // The rows of another pass are its own.
        (SERVER, Submits(1, BODY, Ok(2))),
    ];
    plays(&rt, limits, &calls);
}

#[test]
fn attempts_and_units(rt: HostRuntime) {
    let element = request(0, 1, BODY);
    let calls = [
        (CLIENT, Submits(1, BODY, Ok(0))),
        (SERVER, Claims(1, work(2, 1, element))),
        (SERVER, Aborts),
        (SERVER, Finds(element, Status::Waiting { attempts: 1 })),
        (SERVER, Claims(1, work(3, 2, element))),
        (SERVER, Aborts),
        (SERVER, Finds(element, Status::Parked { attempts: 2 })),
        (SERVER, Claims(1, Claimed::NoUnit)),
        (CLIENT, Claims(1, Claimed::Idle)),
        (CLIENT, NextError(0, Some(0))),
        (CLIENT, NextError(1, None)),
    ];
    plays(&rt, SMALL, &calls);
}

#[test]
fn full_then_committed(rt: HostRuntime) {
    let limits = Limits { rows: 1, ..SMALL };
    let element = request(0, 1, BODY);
    let calls = [
        (CLIENT, Submits(1, BODY, Ok(0))),
        (SERVER, Claims(1, work(2, 1, element))),
        (SERVER, Commits(2, BODY, Outcome::Full)),
        (CLIENT, Finds(element, Status::Waiting { attempts: 1 })),
        (CLIENT, Misses(1)),
        (SERVER, Claims(1, work(3, 2, element))),
        (
            SERVER,
            Commits(1, BODY, Outcome::Committed { first: 1, count: 1 }),
        ),
        (CLIENT, Finds(element, Status::Consumed { unit: 3 })),
        (CLIENT, Finds(reply(1, 3), NEW)),
    ];
    plays(&rt, limits, &calls);
}
