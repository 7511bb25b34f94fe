//! Rollovers and surveys in a space that is reserved once: each gives what it would in memory of its own.
ghost use Rattle.std.specs.Prelude.{◌≡◌};
ghost use Rattle.tp_rollover.specs.Managed.{IsManaged};

use super::{LIMITS, NEW, body, moved};
use std::process::Abort;
use tp_model::types::{Limits, Status};
use tp_rollover::{Managed, Moved, Space, Successor, Survivor};

/// A description of an element whose root has stage 1 and the first word 70.
fn described(id: u32, root: u32, stage: u8, word: u64, status: Status) -> Survivor {
    Survivor {
        id,
        root,
        stage,
        body: body(word),
        status,
        holder: None,
        rounds: 0,
        root_stage: 1,
        root_body: body(70),
    }
}

/// The manager goes on in a new one, in this space, and these are carried over.
fn goes_on<R: Abort + AllocGlobal>(
    rt: &R,
    managed: &mut Managed,
    space: &mut Space,
    limits: Limits,
    wanted: &[Moved],
)
    requires managed { IsManaged managed.old }
    requires limits { managed.old.manager.limits ≡ limits }
    ensures managed { IsManaged managed.new }
    ensures limits { managed.new.manager.limits ≡ limits }
{
    let next = Managed::new(rt.alloc(), limits).expect(rt, "no manager");
    assert!(rt; managed.roll_over_into(space, next).is_ok(), "the rollover");
    assert!(rt; space.moved() == wanted, "what was carried over");
}

/// A request that waits, and two of a family whose root is over, one of them parked.
#[test]
fn in_one_space(rt: HostRuntime) {
    let parked = Status::Parked { attempts: 2 };
    let alive = [
        described(0, 0, 1, 70, NEW),
        described(9, 8, 3, 71, parked),
        described(12, 8, 4, 72, NEW),
    ];
    let made = Managed::restored(rt.alloc(), LIMITS, &alive).expect(&rt, "not restored");
    let Successor {
        mut managed,
        moved: names,
    } = made;
    let first = [moved(0, 0, 0, 0), moved(9, 9, 8, 8), moved(12, 10, 8, 8)];
    assert!(&rt; names.as_slice() == first.as_slice(), "what was restored");
    let mut space = Space::new(rt.alloc(), LIMITS, LIMITS).expect(&rt, "no space");
    let wanted = [moved(0, 0, 0, 0), moved(9, 9, 8, 8), moved(10, 10, 8, 8)];
    goes_on(&rt, &mut managed, &mut space, LIMITS, &wanted);
    goes_on(&rt, &mut managed, &mut space, LIMITS, &wanted);
    assert!(&rt; managed.survey_in(&mut space.survey).is_ok(), "the survey");
    let found = [
        described(0, 0, 1, 70, NEW),
        described(9, 8, 3, 71, parked),
        described(10, 8, 4, 72, NEW),
    ];
    assert!(&rt;
        space.survey.found.as_slice() == found.as_slice(),
        "what was found"
    );
    drop(names);
    drop(managed);
    drop(space);
}
