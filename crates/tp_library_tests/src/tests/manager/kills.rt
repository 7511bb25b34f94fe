//! Kills of an element that is held, and of a reply.

use super::plays::Call::{Aborts, Claims, Commits, Finds, Kills, NextError, Reply, Submits};
use super::plays::{CLIENT, SERVER, plays};
use super::{BODY, SMALL, request, work};
use tp_model::types::{Killed, Outcome, Status};

#[test]
fn kill_held(rt: HostRuntime) {
    let element = request(0, 1, BODY);
    let calls = [
        (CLIENT, Submits(1, BODY, Ok(0))),
        (SERVER, Claims(1, work(2, 1, element))),
        (SERVER, Aborts),
        (SERVER, Claims(1, work(3, 2, element))),
        (CLIENT, Kills(0, Ok(Killed { units_aborted: 1 }))),
        (CLIENT, Finds(element, Status::Killed)),
        (SERVER, Commits(0, BODY, Outcome::Lost)),
        // Its last attempt was aborted, but it is killed, and so it isn't in the error queue.
        (CLIENT, NextError(0, None)),
    ];
    plays(&rt, SMALL, &calls);
}

#[test]
fn kill_reply(rt: HostRuntime) {
    let calls = [
        (CLIENT, Submits(1, BODY, Ok(0))),
        (SERVER, Claims(1, work(2, 1, request(0, 1, BODY)))),
        (
            SERVER,
            Commits(1, BODY, Outcome::Committed { first: 4, count: 1 }),
        ),
        (CLIENT, Reply(0, 0, Some(4))),
        (CLIENT, Reply(0, 5, None)),
        (CLIENT, Kills(4, Ok(Killed { units_aborted: 0 }))),
        (CLIENT, Reply(0, 0, None)),
    ];
    plays(&rt, SMALL, &calls);
}
