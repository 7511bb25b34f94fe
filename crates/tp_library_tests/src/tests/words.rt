//! Which values given numbers are as words, and that others are none. That a value packs to the number that
//! it is read from is proved, and not tried here.

use tp_rule::{Claim, FoundClaim, Head, UnitWord};

fn filled(stage: u8, root: u16, by: Option<u16>) -> Option<Head> {
    Some(Head::Filled { stage, root, by })
}

#[test]
fn heads(rt: HostRuntime) {
    for (word, head) in [
        (0, Some(Head::Empty)),
        (2, Some(Head::Void)),
        (3, filled(1, 0, None)),
        (167, filled(3, 5, None)),
        (538968095, filled(15, 0, Some(256))),
        // Present, but of stage 0.
        (1, None),
        // Not present, with other bits, of which bit 1 alone is a void one.
        (4, None),
        (34, None),
        // Bit 37.
        (137438953475, None),
    ] {
        assert!(rt; Head::unpack(word) == head, "{word}");
    }
}

fn taken(attempt: u8, unit: u16, round: u8) -> Option<Claim> {
    Some(Claim::Taken {
        attempt,
        unit,
        round,
    })
}

fn killed(attempt: u8, unit: u16, round: u8) -> Option<Claim> {
    Some(Claim::Killed {
        attempt,
        unit,
        round,
    })
}

#[test]
fn claims(rt: HostRuntime) {
    for (word, claim) in [
        (0, Some(Claim::Free)),
        (16389, taken(1, 256, 0)),
        (32777, taken(2, 512, 0)),
        (2097117, taken(7, 32767, 0)),
        (2, killed(0, 0, 0)),
        (16390, killed(1, 256, 0)),
        (4194307, Some(Claim::Again { round: 1 })),
        (12582915, Some(Claim::Again { round: 3 })),
        (4227081, taken(2, 512, 1)),
        (4194309, taken(1, 0, 1)),
        (4194306, killed(0, 0, 1)),
        (12582914, killed(0, 0, 3)),
    ] {
        assert!(rt; Claim::unpack(word) == claim, "{word}");
    }
}

#[test]
fn refused_claims(rt: HostRuntime) {
    for word in [
        // Taken for the 0th time.
        1,
        // Never taken, with other bits.
        4,
        // Taken for the 8th time.
        33,
        // Killed without ever being taken, with a unit.
        66,
        // Taken by unit 65535.
        4194245,
        // Another round, but of round 0.
        3,
        // Never taken, with a round.
        4194304,
        // Another round, with an attempt.
        4194311,
        // Bit 24.
        16777221,
    ] {
        assert!(rt; Claim::unpack(word).is_none(), "{word}");
    }
}

/// Which attempt was found is told of what a unit took, and of nothing else.
#[test]
fn attempts(rt: HostRuntime) {
    let taken = FoundClaim::of(Claim::Taken {
        attempt: 2,
        unit: 512,
        round: 1,
    });
    let killed = FoundClaim::of(Claim::Killed {
        attempt: 2,
        unit: 512,
        round: 1,
    });
    let again = FoundClaim::of(Claim::Again { round: 1 });
    let free = FoundClaim::of(Claim::Free);
    for attempt in 0..8u8 {
        assert!(rt; taken.is_attempt(attempt) == (attempt == 2), "{attempt}");
        assert!(rt; !killed.is_attempt(attempt), "{attempt}");
        assert!(rt; !again.is_attempt(attempt), "{attempt}");
        assert!(rt; !free.is_attempt(attempt), "{attempt}");
    }
}

#[test]
fn units(rt: HostRuntime) {
    for (word, unit) in [
        (0, Some(UnitWord::Undecided)),
        (1, Some(UnitWord::Committed { first: 0, count: 0 })),
        (261, Some(UnitWord::Committed { first: 8, count: 1 })),
        (
            262033,
            Some(UnitWord::Committed {
                first: 8188,
                count: 4,
            }),
        ),
        (2, Some(UnitWord::Aborted)),
        // No such kind.
        (3, None),
        // Five outputs.
        (21, None),
        // No outputs, of which the first is 1.
        (33, None),
        // Aborted with an output.
        (6, None),
    ] {
        assert!(rt; UnitWord::unpack(word) == unit, "{word}");
    }
}
