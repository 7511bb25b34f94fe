//! Rollovers of crews: a parked element, a waiting one and replies go on, and a refusal leaves a crew of use.
ghost use Rattle.std.specs.Prelude.{◌≡◌, None, length};
ghost use Rattle.tp_desk.specs.Steady.{shown};
ghost use Rattle.tp_crew.specs.Crew.{IsSteadyCrew};

use arrayvec::ArrayVec;
use std::process::Abort;
use tp_crew::{Crew, CrewLimits};
use tp_desk::Order;
use tp_manager::{MakeFault, Room};
use tp_model::types::Status;
use tp_rollover::{Moved, RollFault};
use tp_server::{Act, AmountFrom, EagerServer, KeyFrom, Output, Recipe, Registers, Server};

/// A reply with the element's key and amount.
const REPLY: Output = Output {
    stage: 15,
    key: KeyFrom::Same,
    amount: AmountFrom::Same,
};

/// A box of stage 1, which adds up to its one register and replies three times.
fn server<R: Abort + AllocGlobal>(rt: &R) -> Box<dyn Server + Send>
    ensures { pending result ≡ None }
{
    let mut outputs = ArrayVec::new();
    outputs.push(REPLY);
    outputs.push(REPLY);
    outputs.push(REPLY);
    let recipe = Recipe {
        stage: 1,
        registers: 1,
        act: Act::Add,
        word: 1,
        outputs,
    };
    let registers = Registers::new(1).expect(rt, "no registers");
    let server = EagerServer::new(registers, recipe).expect(rt, "no server");
    Box::new(rt.alloc(), server).expect(rt, "no memory")
}

/// An element is parked after one attempt.
const LIMITS: CrewLimits = CrewLimits {
    rows: 3,
    units: 16,
    attempts: 1,
    spare: 0,
};

/// A crew of one box, whose pass and the caller's own have three rows each.
fn hired<R: Abort + AllocGlobal>(rt: &R) -> Crew
    ensures steady { IsSteadyCrew (shown behaviour) (shown registers) (shown pending) result }
{
    let mut boxes: Vec<Box<dyn Server + Send>> = Vec::new(rt.alloc());
    boxes.push(server(rt)).expect(rt, "no memory");
    Crew::new(rt.alloc(), LIMITS, boxes, 0).expect(rt, "no crew")
}

/// What the first box has added up to.
fn added<R: Abort>(rt: &R, crew: &Crew) -> u64 {
    let server = crew.server(0).expect(rt, "no box");
    server.balance(0).expect(rt, "no register")
}

/// Submits an element of this stage and key with the amount 10, which gets this id, and has the desks work
/// until nothing is left to claim.
fn works<R: Abort>(rt: &R, crew: &mut Crew, stage: u8, key: u64, id: u32)
    requires { IsSteadyCrew (shown behaviour) (shown registers) (shown pending) crew.old }
    ensures steady { IsSteadyCrew (shown behaviour) (shown registers) (shown pending) crew.new }
{
    assert!(rt; crew.submit(stage, [key, 10, 0, 0]) == Ok(id));
    crew.drain(Order::InTurn);
}

/// The element of this id stands so.
fn stands<R: Abort>(rt: &R, crew: &mut Crew, id: u32, status: Status)
    requires { IsSteadyCrew (shown behaviour) (shown registers) (shown pending) crew.old }
    ensures steady { IsSteadyCrew (shown behaviour) (shown registers) (shown pending) crew.new }
{
    let look = crew.read(id).expect(rt, "not born");
    assert!(rt; look.status == status, "at element {id}");
}

/// What was carried over stands: a parked element, a waiting one, and two replies to a request that is no
/// more.
fn all_stand<R: Abort>(rt: &R, crew: &mut Crew, moved: &[Moved])
    requires steady { IsSteadyCrew (shown behaviour) (shown registers) (shown pending) crew.old }
    requires four { length moved.now ≡ 4 }
    ensures steady { IsSteadyCrew (shown behaviour) (shown registers) (shown pending) crew.new }
{
    let [parked, waiting, reply] = [moved[0], moved[1], moved[2]];
    assert!(rt; parked.old == 1 && waiting.old == 2 && reply.old == 4);
    assert!(rt; parked.old_root == 1 && reply.old_root == 0 && reply.new_root == 3);
    stands(rt, crew, parked.new, Status::Parked { attempts: 1 });
    stands(rt, crew, waiting.new, Status::Waiting { attempts: 0 });
    assert!(rt; crew.reply(reply.new_root, 0) == Some(reply.new));
}

/// An element is consumed, one names no register and is parked, and one waits. In a new manager the two that
/// are no replies take two rows of the one pass, and a copy of the request one of the other. Then neither has
/// three for the replies: the first rollover is refused, and leaves a crew of use. With one of the replies
/// killed there is room.
#[test]
fn crew_rolls_over(rt: HostRuntime) {
    let mut crew = hired(&rt);
    works(&rt, &mut crew, 1, 0, 0);
    works(&rt, &mut crew, 1, 1, 1);
    works(&rt, &mut crew, 3, 0, 2);
    assert!(rt; crew.roll_over(rt.alloc()).err() == Some(RollFault::Full));
    // The caller's own pass made three elements, and the box's began two units.
    assert_eq!(rt; crew.room(), Room { rows: 0, units: 14 });
    assert_eq!(rt; crew.reply(0, 0), Some(3));
    assert!(rt; crew.kill(3).is_ok());
    let moved = crew.roll_over(rt.alloc()).expect(&rt, "no rollover");
    assert_eq!(rt; moved.len(), 4);
    all_stand(&rt, &mut crew, &moved);
    assert_eq!(rt; added(&rt, &crew), 10);
    drop(moved);
    drop(crew);
}

/// With the caller's own pass, those of the box and of 31 clients would be 33, one more than there can be.
#[test]
fn crew_too_large(rt: HostRuntime) {
    let mut boxes: Vec<Box<dyn Server + Send>> = Vec::new(rt.alloc());
    boxes.push(server(&rt)).expect(&rt, "no memory");
    let made = Crew::new(rt.alloc(), LIMITS, boxes, 31);
    assert!(rt; made.err() == Some(MakeFault::BadLimits));
}
