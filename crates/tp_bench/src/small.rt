//! Two passes with 256 rows each: all words lie in the nearest caches.
ghost use Rattle.std.specs.Prelude.{◌≡◌, None, IfSome};
ghost use Rattle.tp_manager.specs.Shown.{IsOf, IsKeptBy};

use crate::calls::{
    aborts, bare_turns, bare_turns_next, errors, gathers, kept, kills, now, pass, reads, replies,
    submits, submits_with, turns,
};
use std::alloc::Global;
use std::io;
use tp_manager::{Manager, Pass};
use tp_model::types::Limits;

const SMALL: Limits = Limits {
    parts: 2,
    rows: 256,
    units: 1024,
    attempts: 7,
    spare: 0,
};

/// A manager and its two passes.
fn two(alloc: Global) -> Option<(Manager, Pass, Pass)>
    ensures own { IfSome result (λ made. IsOf made.0 made.1 × IsOf made.0 made.2) }
    ensures free { IfSome result (λ made. (made.1.open_unit ≡ None) × (made.2.open_unit ≡ None)) }
{
    let (manager, mut keeper) = kept(alloc, SMALL)?;
    let first = pass(&mut keeper, &manager)?;
    let second = pass(&mut keeper, &manager)?;
    Some((manager, first, second))
}

/// Submits, reads, kills, and reads of what is killed.
fn of_clients(
    rt: &HostRuntime,
    manager: &Manager,
    client: &mut Pass,
    other: &mut Pass,
) -> io::Result<()>
    requires own { IsOf manager.now client.old × IsOf manager.now other.old }
    requires free { (client.old.open_unit ≡ None) × (other.old.open_unit ≡ None) }
{
    let t0 = now(rt);
    let a = submits(manager, client, 1, 256);
    let t1 = now(rt);
    let b = reads(manager, other, 0, 256);
    let t2 = now(rt);
    let c = kills(manager, other, 0, 256);
    let t3 = now(rt);
    let d = reads(manager, other, 0, 256);
    let t4 = now(rt);
    let e = submits_with(manager, other, 1, 256, 7);
    let t5 = now(rt);
    println!(rt; "submit 0 {} {a}", t1.wrapping_sub(t0))?;
    println!(rt; "submit_full 0 {} {e}", t5.wrapping_sub(t4))?;
    println!(rt; "read_waiting 0 {} 256 {b}", t2.wrapping_sub(t1))?;
    println!(rt; "kill_waiting 0 {} {c}", t3.wrapping_sub(t2))?;
    println!(rt; "read_killed 0 {} 256 {d}", t4.wrapping_sub(t3))
}

/// Sixteen turns at a time without drafts: before the first of them `k` rows are consumed.
fn of_bare_turns(
    rt: &HostRuntime,
    manager: &Manager,
    client: &mut Pass,
    server: &mut Pass,
) -> io::Result<()>
    requires own { IsOf manager.now client.old × IsOf manager.now server.old }
    requires free { (client.old.open_unit ≡ None) × (server.old.open_unit ≡ None) }
{
    submits(manager, client, 1, 256);
    bare_sixteen(rt, manager, server)?;
    let t0 = now(rt);
    let b = reads(manager, client, 0, 256);
    let t1 = now(rt);
    println!(rt; "read_consumed 0 {} 256 {b}", t1.wrapping_sub(t0))
}

fn bare_sixteen(rt: &HostRuntime, manager: &Manager, server: &mut Pass) -> io::Result<()>
    requires own { IsOf manager.now server.old }
    requires free { server.old.open_unit ≡ None }
{
    for k in 0..16u32 {
        let t0 = now(rt);
        let a = bare_turns(manager, server, 1, 16);
        let t1 = now(rt);
        println!(rt;
            "turn_bare {} {} {a}",
            k.wrapping_mul(16),
            t1.wrapping_sub(t0)
        )?;
    }
    Ok(())
}

/// The same by claims in turn.
fn of_next_turns(
    rt: &HostRuntime,
    manager: &Manager,
    client: &mut Pass,
    server: &mut Pass,
) -> io::Result<()>
    requires own { IsOf manager.now client.old × IsOf manager.now server.old }
    requires free { (client.old.open_unit ≡ None) × (server.old.open_unit ≡ None) }
{
    submits(manager, client, 1, 256);
    for k in 0..16u32 {
        let t0 = now(rt);
        let a = bare_turns_next(manager, server, 1, 16);
        let t1 = now(rt);
        println!(rt;
            "turn_next {} {} {a}",
            k.wrapping_mul(16),
            t1.wrapping_sub(t0)
        )?;
    }
    Ok(())
}

/// The same with one reply each; then the replies are asked for.
fn of_turns(
    rt: &HostRuntime,
    manager: &Manager,
    client: &mut Pass,
    server: &mut Pass,
) -> io::Result<()>
    requires own { IsOf manager.now client.old × IsOf manager.now server.old }
    requires free { (client.old.open_unit ≡ None) × (server.old.open_unit ≡ None) }
{
    submits(manager, client, 1, 256);
    sixteen(rt, manager, server)?;
    let t0 = now(rt);
    let a = replies(manager, client, 256, 256);
    let t1 = now(rt);
    let b = replies(manager, client, 0, 64);
    let t2 = now(rt);
    let c = errors(manager, client, 16);
    let t3 = now(rt);
    println!(rt; "reply_at_once 0 {} 256 {a}", t1.wrapping_sub(t0))?;
    println!(rt; "reply_after_256 0 {} 64 {b}", t2.wrapping_sub(t1))?;
    println!(rt; "next_error_512_done 0 {} 16 {c}", t3.wrapping_sub(t2))
}

fn sixteen(rt: &HostRuntime, manager: &Manager, server: &mut Pass) -> io::Result<()>
    requires own { IsOf manager.now server.old }
    requires free { server.old.open_unit ≡ None }
{
    for k in 0..16u32 {
        let t0 = now(rt);
        let a = turns(manager, server, 1, 16);
        let t1 = now(rt);
        println!(rt; "turn {} {} {a}", k.wrapping_mul(16), t1.wrapping_sub(t0))?;
    }
    Ok(())
}

/// Seven claims of one element that are given up.
fn of_aborts(rt: &HostRuntime) -> io::Result<()> {
    let Some((manager, mut client, mut server)) = two(rt.alloc()) else {
        return Ok(());
    };
    submits(&manager, &mut client, 1, 8);
    let t0 = now(rt);
    let a = aborts(&manager, &mut server, 1, 56);
    let t1 = now(rt);
    println!(rt; "claim_abort 0 {} {a}", t1.wrapping_sub(t0))
}

/// Both passes of a manager are gathered.
fn of_gathers(rt: &HostRuntime) -> io::Result<()> {
    let Some((manager, mut keeper)) = kept(rt.alloc(), SMALL) else {
        return Ok(());
    };
    let Some(first) = pass(&mut keeper, &manager) else {
        return Ok(());
    };
    let Some(second) = pass(&mut keeper, &manager) else {
        return Ok(());
    };
    let mut passes = [first, second];
    if !keeper.has_all(&passes) {
        return Ok(());
    }
    let t0 = now(rt);
    gathers(&manager, &mut keeper, &mut passes, 64);
    let t1 = now(rt);
    println!(rt; "gather_two 0 {} 64", t1.wrapping_sub(t0))
}

/// What is measured with two passes.
#[derive(Clone, Copy)]
enum Group {
    Clients,
    BareTurns,
    NextTurns,
    Turns,
}

/// One part over a manager of its own.
fn measured(rt: &HostRuntime, group: Group) -> io::Result<()> {
    let Some((manager, mut first, mut second)) = two(rt.alloc()) else {
        return Ok(());
    };
    match group {
        Group::Clients => of_clients(rt, &manager, &mut first, &mut second),
        Group::BareTurns => of_bare_turns(rt, &manager, &mut first, &mut second),
        Group::NextTurns => of_next_turns(rt, &manager, &mut first, &mut second),
        Group::Turns => of_turns(rt, &manager, &mut first, &mut second),
    }
}

pub fn round(rt: &HostRuntime) -> io::Result<()> {
    measured(rt, Group::Clients)?;
    measured(rt, Group::BareTurns)?;
    measured(rt, Group::NextTurns)?;
    measured(rt, Group::Turns)?;
    of_aborts(rt)?;
    of_gathers(rt)
}
