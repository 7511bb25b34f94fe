//! The largest manager: 32 passes with 256 rows and 1024 units each.
ghost use Rattle.std.specs.Prelude.{◌≡◌, None, IfSome};
ghost use Rattle.tp_model.specs.Steps.{IsServerStage};
ghost use Rattle.tp_manager.specs.Shown.{IsOf, IsKeptBy};

use crate::calls::{bare_turns, errors, idles, kept, now, pass, replies, submits};
use std::io;
use tp_manager::{Keeper, Manager, Pass};
use tp_model::types::Limits;

pub const LARGE: Limits = Limits {
    parts: 32,
    rows: 256,
    units: 1024,
    attempts: 3,
    spare: 0,
};

/// So many passes submit all that they can, and are dropped.
pub fn fill(manager: &Manager, keeper: &mut Keeper, count: u32)
    requires kept { IsKeptBy manager.now keeper.old }
    ensures kept { IsKeptBy manager.now keeper.new }
{
    for _i in 0..count {
        if let Some(mut client) = pass(keeper, manager) {
            submits(manager, &mut client, 1, 256);
        }
    }
}

/// Eight Idle claims more, behind eight others.
fn idle_again(
    rt: &HostRuntime,
    manager: &Manager,
    watcher: &mut Pass,
    name: &'static str,
    stage: u8,
) -> io::Result<()>
    requires own { IsOf manager.now watcher.old }
    requires free { watcher.old.open_unit ≡ None }
    requires stage { IsServerStage stage }
    ensures own { IsOf manager.now watcher.new }
    ensures free { watcher.new.open_unit ≡ None }
{
    let before = now(rt);
    let found = idles(manager, watcher, stage, 8);
    let after = now(rt);
    println!(rt; "{name} 8 {} {found}", after.wrapping_sub(before))
}

/// Eight looks for a parked element more, behind eight others.
fn errors_again(
    rt: &HostRuntime,
    manager: &Manager,
    watcher: &mut Pass,
    name: &'static str,
) -> io::Result<()>
    requires own { IsOf manager.now watcher.old }
    requires free { watcher.old.open_unit ≡ None }
    ensures own { IsOf manager.now watcher.new }
    ensures free { watcher.new.open_unit ≡ None }
{
    let before = now(rt);
    let found = errors(manager, watcher, 8);
    let after = now(rt);
    println!(rt; "{name} 8 {} 8 {found}", after.wrapping_sub(before))
}

/// Eight servers, one after another, each with 1024 turns; before each it submits 256 itself.
fn consume(rt: &HostRuntime, manager: &Manager, keeper: &mut Keeper) -> io::Result<()>
    requires kept { IsKeptBy manager.now keeper.old }
{
    for i in 0..8u32 {
        if let Some(mut server) = pass(keeper, manager) {
            submits(manager, &mut server, 1, 256);
            consume_some(rt, manager, &mut server, i.wrapping_mul(64))?;
        }
    }
    Ok(())
}

fn consume_some(
    rt: &HostRuntime,
    manager: &Manager,
    server: &mut Pass,
    first: u32,
) -> io::Result<()>
    requires own { IsOf manager.now server.old }
    requires free { server.old.open_unit ≡ None }
{
    for i in 0..64u32 {
        let batch = first.wrapping_add(i);
        let t0 = now(rt);
        let a = bare_turns(manager, server, 1, 16);
        let t1 = now(rt);
        if batch == 0 || batch == 4 || batch == 16 || batch == 64 || batch == 256 || batch == 500 {
            println!(rt;
                "turn_large {} {} {a}",
                batch.wrapping_mul(16),
                t1.wrapping_sub(t0)
            )?;
        }
    }
    Ok(())
}

pub fn round(rt: &HostRuntime) -> io::Result<()> {
    let start = now(rt);
    let Some((manager, mut keeper)) = kept(rt.alloc(), LARGE) else {
        return Ok(());
    };
    let made = now(rt);
    let Some(mut watcher) = pass(&mut keeper, &manager) else {
        return Ok(());
    };
    measured(
        rt,
        &manager,
        &mut keeper,
        &mut watcher,
        made.wrapping_sub(start),
    )
}

/// What the calls cost: of a manager that is empty, full of another stage's elements, and used up.
fn measured(
    rt: &HostRuntime,
    manager: &Manager,
    keeper: &mut Keeper,
    watcher: &mut Pass,
    making: u64,
) -> io::Result<()>
    requires kept { IsKeptBy manager.now keeper.old }
    requires own { IsOf manager.now watcher.old }
    requires free { watcher.old.open_unit ≡ None }
{
    println!(rt; "make_largest 0 {making} 1")?;
    let t0 = now(rt);
    let a = idles(manager, watcher, 1, 8);
    let t1 = now(rt);
    let b = errors(manager, watcher, 8);
    let t2 = now(rt);
    println!(rt; "idle_empty 0 {} {a}", t1.wrapping_sub(t0))?;
    idle_again(rt, manager, watcher, "idle_empty", 1)?;
    println!(rt; "next_error_empty 0 {} 8 {b}", t2.wrapping_sub(t1))?;
    errors_again(rt, manager, watcher, "next_error_empty")?;
    submits(manager, watcher, 1, 256);
    fill(manager, keeper, 23);
    let t3 = now(rt);
    let c = idles(manager, watcher, 2, 8);
    let t4 = now(rt);
    let d = errors(manager, watcher, 8);
    let t5 = now(rt);
    let e = replies(manager, watcher, 0, 8);
    let t6 = now(rt);
    println!(rt; "idle_other_stage_6144 0 {} {c}", t4.wrapping_sub(t3))?;
    idle_again(rt, manager, watcher, "idle_other_stage_6144", 2)?;
    println!(rt; "next_error_6144_waiting 0 {} 8 {d}", t5.wrapping_sub(t4))?;
    println!(rt; "reply_none_6144_waiting 0 {} 8 {e}", t6.wrapping_sub(t5))?;
    consume(rt, manager, keeper)?;
    let t7 = now(rt);
    let f = errors(manager, watcher, 8);
    let t8 = now(rt);
    let g = replies(manager, watcher, 0, 8);
    let t9 = now(rt);
    println!(rt; "next_error_8192_done 0 {} 8 {f}", t8.wrapping_sub(t7))?;
    errors_again(rt, manager, watcher, "next_error_8192_done")?;
    println!(rt; "reply_none_8192_done 0 {} 8 {g}", t9.wrapping_sub(t8))
}
