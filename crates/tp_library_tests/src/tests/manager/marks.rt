//! What passes remember: the marks behind which claims and listings begin, and drawn blocks.

use super::plays::Call::{
    Aborts, Claims, ClaimsNext, Commits, Low, NextError, SeenBlocks, Submits,
};
use super::plays::{CLIENT, SERVER, plays};
use super::{BODY, NOTHING, SMALL, request, work};
use tp_model::types::{Claimed, Limits, Refusal};

#[test]
fn mark_rises(rt: HostRuntime) {
    let limits = Limits { units: 8, ..SMALL };
    let calls = [
        (CLIENT, Submits(1, BODY, Ok(0))),
        (CLIENT, Submits(1, BODY, Ok(1))),
        (CLIENT, Submits(1, BODY, Ok(2))),
        (SERVER, Claims(1, work(8, 1, request(0, 1, BODY)))),
        (SERVER, Low(1, 0)),
        (SERVER, Commits(0, BODY, NOTHING)),
        (SERVER, Claims(1, work(9, 1, request(1, 1, BODY)))),
        (SERVER, Low(1, 1)),
        (SERVER, Commits(0, BODY, NOTHING)),
        (SERVER, Claims(1, work(10, 1, request(2, 1, BODY)))),
        (SERVER, Low(1, 2)),
        // The client hasn't looked at that mark. Units show that nothing is parked: a listing comes to no row.
        (CLIENT, NextError(0, None)),
        (CLIENT, Low(0, 0)),
        // Where one is aborted it walks, and raises the mark that is about all stages.
        (SERVER, Aborts),
        (CLIENT, NextError(0, None)),
        (CLIENT, Low(0, 2)),
        (CLIENT, Low(1, 0)),
        (CLIENT, Claims(1, work(0, 2, request(2, 1, BODY)))),
        (CLIENT, Low(1, 2)),
    ];
    plays(&rt, limits, &calls);
}

#[test]
fn parked_stays(rt: HostRuntime) {
    let limits = Limits {
        attempts: 1,
        units: 8,
        ..SMALL
    };
    let calls = [
        (CLIENT, Submits(1, BODY, Ok(0))),
        (CLIENT, Submits(1, BODY, Ok(1))),
        (SERVER, Claims(1, work(8, 1, request(0, 1, BODY)))),
        (SERVER, Aborts),
        (SERVER, Claims(1, work(9, 1, request(1, 1, BODY)))),
        (SERVER, Commits(0, BODY, NOTHING)),
        // The mark stays at the parked element.
        (CLIENT, Submits(1, BODY, Ok(2))),
        (SERVER, Claims(1, work(10, 1, request(2, 1, BODY)))),
        (SERVER, Low(1, 0)),
        (CLIENT, NextError(0, Some(0))),
        (CLIENT, Low(0, 0)),
        // To other stages it is of no use.
        (SERVER, Commits(0, BODY, NOTHING)),
        (SERVER, Claims(2, Claimed::Idle)),
        (SERVER, Low(2, 3)),
    ];
    plays(&rt, limits, &calls);
}

#[test]
fn mark_of_claims_in_turn(rt: HostRuntime) {
    let limits = Limits {
        rows: 2,
        units: 8,
        ..SMALL
    };
    let calls = [
        (CLIENT, Submits(1, BODY, Ok(0))),
        (CLIENT, Submits(1, BODY, Ok(1))),
        (SERVER, ClaimsNext(1, work(8, 1, request(0, 1, BODY)))),
        (SERVER, Aborts),
        (SERVER, ClaimsNext(1, work(9, 1, request(1, 1, BODY)))),
        (SERVER, Commits(0, BODY, NOTHING)),
        // Row 1 is finished, and nothing before it: no mark has risen.
        (SERVER, Low(1, 0)),
        (SERVER, ClaimsNext(1, work(10, 2, request(0, 1, BODY)))),
        (SERVER, Commits(0, BODY, NOTHING)),
        (SERVER, ClaimsNext(1, Claimed::Idle)),
        (SERVER, Low(1, 2)),
    ];
    plays(&rt, limits, &calls);
}

/// A row for each of two passes, and one spare block.
#[test]
fn part_then_block(rt: HostRuntime) {
    let limits = Limits {
        rows: 1,
        spare: 1,
        ..SMALL
    };
    let calls = [
        (CLIENT, Submits(1, BODY, Ok(0))),
        (CLIENT, SeenBlocks(0)),
        (CLIENT, Submits(1, BODY, Ok(2))),
        (CLIENT, SeenBlocks(1)),
        // The other pass has its row yet, and no block.
        (SERVER, SeenBlocks(0)),
        (SERVER, Submits(1, BODY, Ok(1))),
        (SERVER, Submits(1, BODY, Err(Refusal::Full))),
        (SERVER, SeenBlocks(1)),
    ];
    plays(&rt, limits, &calls);
}
