//! Pipelines of three stages whose servers make a reply beside the next element: stage 1 makes one of stage 2
//! and a reply, stage 2 one of stage 3 and a reply, stage 3 a reply. One thread. The lock's twin is
//! `pipelines` of `bench/rust/mutex.rs`.
ghost use Rattle.std.specs.Prelude.{◌≡◌, None, IfSome, IsSome};
ghost use Rattle.tp_model.specs.Steps.{IsServerStage};
ghost use Rattle.tp_manager.specs.Shown.{IsOf, IsKeptBy};
ghost use Rattle.tp_bench.specs.Pipelines.{AreRolesReady, IsFreeRole};

use crate::calls::{kept, now, pass};
use std::io;
use tp_manager::{Keeper, Manager, Pass};
use tp_model::types::{Body, Claimed, Draft, Limits, Outcome};

/// How many requests a pass can make, or turns of one output, and how many turns of two outputs, in its own
/// 256 rows.
const ROWS: u32 = 256;

const PAIRS: u32 = 128;

/// A pass, and how often it can still be used before the next one takes its place.
#[derive(Drop)]
struct Role {
    pass: Pass,
    left: u32,
    uses: u32,
}

/// The four roles of a pipeline: who submits, and a server of each stage.
#[derive(Drop)]
struct Roles {
    client: Role,
    first: Role,
    second: Role,
    third: Role,
}

/// What is measured: the passes of the manager, the elements that are parked before it, and the order of the
/// turns.
#[derive(Clone, Copy)]
struct Pipeline {
    name: &'static str,
    parts: u16,
    spare: u16,
    parked: u32,
    by_stage: bool,
}

/// A role whose pass is used so often before the next one takes its place.
fn next_role(manager: &Manager, keeper: &mut Keeper, uses: u32) -> Option<Role>
    requires kept { IsKeptBy manager.now keeper.old }
    ensures kept { IsKeptBy manager.now keeper.new }
    ensures ready { IfSome result (IsFreeRole manager.now) }
{
    let pass = pass(keeper, manager)?;
    Some(Role {
        pass,
        left: uses,
        uses,
    })
}

/// The pass of a role for one use more: the keeper's next one where its own was used as often as it can be.
fn use_once(manager: &Manager, keeper: &mut Keeper, role: &mut Role)
    requires kept { IsKeptBy manager.now keeper.old }
    requires ready { IsFreeRole manager.now role.old }
    ensures kept { IsKeptBy manager.now keeper.new }
    ensures ready { IsFreeRole manager.now role.new }
{
    if role.left == 0 {
        renew(manager, keeper, role);
    }
    role.left = role.left.saturating_sub(1);
}

/// The keeper's next pass takes the place of the role's, if there is one. It stands apart, since whoever may
/// move a pass clears room for one on its stack in each call.
#[inline(never)]
fn renew(manager: &Manager, keeper: &mut Keeper, role: &mut Role)
    requires kept { IsKeptBy manager.now keeper.old }
    requires ready { IsFreeRole manager.now role.old }
    ensures kept { IsKeptBy manager.now keeper.new }
    ensures ready { IsFreeRole manager.now role.new }
{
    if let Some(next) = pass(keeper, manager) {
        role.pass = next;
        role.left = role.uses;
    }
}

/// A request more, by a client; 1 if it was submitted.
fn submit_one(manager: &Manager, keeper: &mut Keeper, client: &mut Role, word: u32) -> u64
    requires kept { IsKeptBy manager.now keeper.old }
    requires ready { IsFreeRole manager.now client.old }
    ensures kept { IsKeptBy manager.now keeper.new }
    ensures ready { IsFreeRole manager.now client.new }
{
    use_once(manager, keeper, client);
    match manager.submit(&mut client.pass, 1, [0, u64::from(word), 0, 0]) {
        Ok(_) => 1,
        Err(_) => 0,
    }
}

/// A commit of a reply, and of an element of the next stage where there is one; 1 if it stands.
fn commit_on(manager: &Manager, pass: &mut Pass, next: u8, body: Body) -> u64
    requires own { IsOf manager.now pass.old }
    requires busy { IsSome pass.old.open_unit }
    ensures own { IsOf manager.now pass.new }
    ensures free { pass.new.open_unit ≡ None }
{
    let outcome = match (Draft::new(15, body), Draft::new(next, body)) {
        (Some(reply), Some(on)) => manager.commit(pass, &[on, reply]),
        (Some(reply), None) => manager.commit(pass, &[reply]),
        (None, _) => manager.commit(pass, &[]),
    };
    match outcome {
        Outcome::Committed { .. } => 1,
        Outcome::Lost | Outcome::Full => 0,
    }
}

/// A turn of a server of this stage, whose elements go on to the next one, or nowhere where that is 0; 1
/// if it was committed.
#[inline(never)]
fn turn(manager: &Manager, keeper: &mut Keeper, server: &mut Role, stage: u8, next: u8) -> u64
    requires kept { IsKeptBy manager.now keeper.old }
    requires ready { IsFreeRole manager.now server.old }
    requires stage { IsServerStage stage }
    ensures kept { IsKeptBy manager.now keeper.new }
    ensures ready { IsFreeRole manager.now server.new }
{
    use_once(manager, keeper, server);
    match manager.claim(&mut server.pass, stage) {
        Claimed::Work(work) => commit_on(manager, &mut server.pass, next, work.element.body),
        Claimed::Idle => 0,
        Claimed::NoUnit => 0,
    }
}

/// All roles; those of the first two stages make two outputs a turn.
fn all_roles(manager: &Manager, keeper: &mut Keeper, uses: u32, pairs: u32) -> Option<Roles>
    requires kept { IsKeptBy manager.now keeper.old }
    ensures kept { IsKeptBy manager.now keeper.new }
    ensures ready { IfSome result (AreRolesReady manager.now) }
{
    let client = next_role(manager, keeper, uses)?;
    let first = next_role(manager, keeper, pairs)?;
    let second = next_role(manager, keeper, pairs)?;
    let third = next_role(manager, keeper, uses)?;
    Some(Roles {
        client,
        first,
        second,
        third,
    })
}

/// So many requests, each of which goes through all stages before the next one is made; how many turns were
/// committed.
#[inline(never)]
fn one_by_one(manager: &Manager, keeper: &mut Keeper, roles: &mut Roles, count: u32) -> u64
    requires kept { IsKeptBy manager.now keeper.old }
    requires ready { AreRolesReady manager.now roles.old }
    ensures kept { IsKeptBy manager.now keeper.new }
    ensures ready { AreRolesReady manager.now roles.new }
{
    let mut done = 0u64;
    for i in 0..count {
        submit_one(manager, keeper, &mut roles.client, i);
        done = done
            .wrapping_add(turn(manager, keeper, &mut roles.first, 1, 2))
            .wrapping_add(turn(manager, keeper, &mut roles.second, 2, 3))
            .wrapping_add(turn(manager, keeper, &mut roles.third, 3, 0));
    }
    done
}

/// So many turns of one server.
#[inline(never)]
fn turns_of(
    manager: &Manager,
    keeper: &mut Keeper,
    server: &mut Role,
    stage: u8,
    next: u8,
    count: u32,
) -> u64
    requires kept { IsKeptBy manager.now keeper.old }
    requires ready { IsFreeRole manager.now server.old }
    requires stage { IsServerStage stage }
    ensures kept { IsKeptBy manager.now keeper.new }
    ensures ready { IsFreeRole manager.now server.new }
{
    let mut done = 0u64;
    for _i in 0..count {
        done = done.wrapping_add(turn(manager, keeper, server, stage, next));
    }
    done
}

/// So many requests, which all go through a stage before any of them goes through the next; how many turns
/// were committed.
fn stage_by_stage(manager: &Manager, keeper: &mut Keeper, roles: &mut Roles, count: u32) -> u64
    requires kept { IsKeptBy manager.now keeper.old }
    requires ready { AreRolesReady manager.now roles.old }
    ensures kept { IsKeptBy manager.now keeper.new }
    ensures ready { AreRolesReady manager.now roles.new }
{
    for i in 0..count {
        submit_one(manager, keeper, &mut roles.client, i);
    }
    let first = turns_of(manager, keeper, &mut roles.first, 1, 2, count);
    let second = turns_of(manager, keeper, &mut roles.second, 2, 3, count);
    let third = turns_of(manager, keeper, &mut roles.third, 3, 0, count);
    first.wrapping_add(second).wrapping_add(third)
}

/// So many elements of stage 1 are parked, in a manager of one attempt.
fn park(manager: &Manager, keeper: &mut Keeper, count: u32)
    requires kept { IsKeptBy manager.now keeper.old }
    ensures kept { IsKeptBy manager.now keeper.new }
{
    if let Some(mut own) = pass(keeper, manager) {
        for i in 0..count {
            let _ = manager.submit(&mut own, 1, [0, u64::from(i), 0, 0]);
            match manager.claim(&mut own, 1) {
                Claimed::Work(_) => {
                    manager.abort(&mut own);
                }
                Claimed::Idle => {}
                Claimed::NoUnit => {}
            }
        }
    }
}

impl Pipeline {
    fn limits(&self) -> Limits {
        Limits {
            parts: self.parts,
            rows: 256,
            units: 1024,
            attempts: 1,
            spare: self.spare,
        }
    }

    /// Prints what the turns of so many requests took together.
    fn measure(&self, rt: &HostRuntime, count: u32) -> io::Result<()> {
        let Some((manager, mut keeper)) = kept(rt.alloc(), self.limits()) else {
            return Ok(());
        };
        if self.parked > 0 {
            park(&manager, &mut keeper, self.parked);
        }
        let (uses, pairs) = if self.spare > 0 {
            (u32::MAX, u32::MAX)
        } else {
            (ROWS, PAIRS)
        };
        let Some(mut roles) = all_roles(&manager, &mut keeper, uses, pairs) else {
            return Ok(());
        };
        let before = now(rt);
        let done = if self.by_stage {
            stage_by_stage(&manager, &mut keeper, &mut roles, count)
        } else {
            one_by_one(&manager, &mut keeper, &mut roles, count)
        };
        let after = now(rt);
        println!(rt;
            "{} {count} {} {done}",
            self.name,
            after.wrapping_sub(before)
        )
    }
}

/// The same, where an element of stage 1 and one of stage 2 are held all along.
fn held(rt: &HostRuntime, count: u32) -> io::Result<()> {
    let limits = HELD.limits();
    let Some((manager, mut keeper)) = kept(rt.alloc(), limits) else {
        return Ok(());
    };
    let (Some(mut slow), Some(mut slower)) = (
        pass(&mut keeper, &manager),
        pass(&mut keeper, &manager),
    ) else {
        return Ok(());
    };
    let Some(mut roles) = all_roles(&manager, &mut keeper, ROWS, PAIRS) else {
        return Ok(());
    };
    submit_one(&manager, &mut keeper, &mut roles.client, 0);
    turn(&manager, &mut keeper, &mut roles.first, 1, 2);
    submit_one(&manager, &mut keeper, &mut roles.client, 0);
    let _ = manager.claim(&mut slow, 2);
    let _ = manager.claim(&mut slower, 1);
    let before = now(rt);
    let done = one_by_one(&manager, &mut keeper, &mut roles, count);
    let after = now(rt);
    println!(rt; "pipe_held {count} {} {done}", after.wrapping_sub(before))
}

/// The pipelines over 32 passes.
const ONE_BY_ONE: Pipeline = Pipeline {
    name: "pipe_each",
    parts: 32,
    spare: 0,
    parked: 0,
    by_stage: false,
};

const BY_STAGE: Pipeline = Pipeline {
    name: "pipe_by_stage",
    by_stage: true,
    ..ONE_BY_ONE
};

const BEHIND_PARKED: Pipeline = Pipeline {
    name: "pipe_parked",
    parked: 128,
    ..ONE_BY_ONE
};

const HELD: Pipeline = ONE_BY_ONE;

/// Over 16 passes, and over four with spare blocks.
const SIXTEEN: Pipeline = Pipeline {
    name: "pipe_16",
    parts: 16,
    ..ONE_BY_ONE
};

const SPARE: Pipeline = Pipeline {
    name: "pipe_spare",
    parts: 4,
    spare: 256,
    ..ONE_BY_ONE
};

/// Prints a line for each pipeline and number of requests.
pub fn round(rt: &HostRuntime) -> io::Result<()> {
    for count in [64u32, 256, 1024, 1280] {
        ONE_BY_ONE.measure(rt, count)?;
        BY_STAGE.measure(rt, count)?;
        BEHIND_PARKED.measure(rt, count)?;
        if count <= 1024 {
            held(rt, count)?;
        }
    }
    for count in [64u32, 256, 448] {
        SIXTEEN.measure(rt, count)?;
        SPARE.measure(rt, count)?;
    }
    Ok(())
}
