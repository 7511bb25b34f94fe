//! Rollovers while units are open: what a pass has in hand goes on in its hand.

use super::plays::Call::{IsFree, IsOver, Shows, Submits, Takes};
use super::scenes::rolls;
use super::{bears, body, held_by, moved, side, waits};
use tp_model::types::Status;

/// The pass that kills in the old manager gives up its own unit first. Another pass's unit is aborted by the
/// kill.
#[test]
fn in_both_hands(rt: HostRuntime) {
    let before = [
        (0, Submits(1, body(10), 0)),
        (1, Submits(2, body(20), 8)),
        (0, Takes(8)),
        (1, Takes(0)),
    ];
    let after = [
        (0, IsFree),
        (1, IsOver),
        (0, Shows(0, Status::Killed)),
        (0, Shows(8, Status::Killed)),
    ];
    let new_after = [
        (
            0,
            Shows(
                0,
                Status::Held {
                    unit: 16,
                    attempt: 1,
                },
            ),
        ),
        (
            0,
            Shows(
                8,
                Status::Held {
                    unit: 0,
                    attempt: 1,
                },
            ),
        ),
        (1, bears(&rt, 9, &[(3, 11)])),
        (0, bears(&rt, 1, &[(4, 21)])),
        (0, waits(9, 3, 0, 11)),
        (0, waits(1, 4, 8, 21)),
    ];
    rolls(
        &rt,
        &[side(&before, &after), side(&[], &new_after)],
        Ok(&[held_by(1, moved(0, 0, 0, 0)), held_by(0, moved(8, 8, 8, 8))]),
    );
}
