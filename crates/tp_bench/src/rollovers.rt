//! Rollovers of managers all of whose rows are used into others like them, which are made before.
ghost use Rattle.std.specs.Prelude.{◌≡◌, None, All, IfSome, length};
ghost use Rattle.tp_manager.specs.Accounts.{AreAll};
ghost use Rattle.tp_manager.specs.Shown.{IsKeptBy, IsOf};

use crate::calls::{bare_turns, kept, now, pass, submits};
use crate::large::LARGE;
use std::alloc::Global;
use std::io;
use tp_manager::{Keeper, Manager, Pass};
use tp_model::types::Limits;
use tp_rollover::roll_over;

/// A manager like a crew's of three boxes and a client.
const MIDDLE: Limits = Limits {
    parts: 5,
    rows: 256,
    units: 1024,
    attempts: 3,
    spare: 256,
};

/// All passes of a new keeper, or some of them where memory lacks.
fn all_passes(alloc: Global, manager: &Manager, keeper: &mut Keeper) -> Vec<Pass>
    requires kept { IsKeptBy manager.now keeper.old }
    ensures kept { IsKeptBy manager.now keeper.new }
    ensures own { All (IsOf manager.now) result.items }
{
    let mut passes = Vec::new(alloc);
    for _part in 0..manager.limits().parts {
        if let Some(one) = pass(keeper, manager) {
            let _ = passes.push(one);
        }
    }
    passes
}

/// A pass uses up its rows, and then consumes so many elements. It has no unit open, or does nothing.
fn use_up(manager: &Manager, pass: &mut Pass, turns: u32)
    requires own { IsOf manager.now pass.old }
    ensures own { IsOf manager.now pass.new }
{
    if pass.has_open() {
        return;
    }
    submits(manager, pass, 1, 256);
    bare_turns(manager, pass, 1, turns);
}

/// Where the manager is to be used, each pass uses up its rows and consumes as many, but for so many elements
/// that wait at the end.
fn use_up_all(manager: &Manager, passes: &mut [Pass], used: bool, alive: u32)
    requires own { All (IsOf manager.now) passes.old }
    ensures own { All (IsOf manager.now) passes.new }
    ensures length { length passes.new ≡ length passes.old }
{
    if !used {
        return;
    }
    let mut left = alive;
    for place in 0..passes.len() {
        let kept = left.min(256);
        left = left.wrapping_sub(kept);
        use_up(manager, &mut passes[place], 256u32.wrapping_sub(kept));
    }
}

/// Prints what one rollover took, behind how many elements were carried over.
fn measure(
    rt: &HostRuntime,
    name: &'static str,
    limits: Limits,
    used: bool,
    alive: u32,
) -> io::Result<()> {
    let Some((old, mut old_keeper)) = kept(rt.alloc(), limits) else {
        return Ok(());
    };
    let mut olds = all_passes(rt.alloc(), &old, &mut old_keeper);
    use_up_all(&old, &mut olds, used, alive);
    let Some((new, mut new_keeper)) = kept(rt.alloc(), limits) else {
        return Ok(());
    };
    let mut news = all_passes(rt.alloc(), &new, &mut new_keeper);
    if !old_keeper.has_all(&olds) || !new_keeper.has_all(&news) {
        return Ok(());
    }
    let before = now(rt);
    let answer = roll_over(
        rt.alloc(),
        &old,
        &mut old_keeper,
        &mut olds,
        &new,
        &mut new_keeper,
        &mut news,
    );
    let after = now(rt);
    match answer {
        Ok(moved) => println!(rt; "{name} {} {} 1", moved.len(), after.wrapping_sub(before)),
        Err(_) => Ok(()),
    }
}

/// What is made and dropped with a manager and its passes.
fn measure_making(rt: &HostRuntime, name: &'static str, limits: Limits) -> io::Result<()> {
    let before = now(rt);
    let Some((manager, mut keeper)) = kept(rt.alloc(), limits) else {
        return Ok(());
    };
    let passes = all_passes(rt.alloc(), &manager, &mut keeper);
    let made = now(rt);
    let count = passes.len();
    drop(passes);
    drop(keeper);
    drop(manager);
    let dropped = now(rt);
    println!(rt; "{name}_made {count} {} 1", made.wrapping_sub(before))?;
    println!(rt; "{name}_dropped {count} {} 1", dropped.wrapping_sub(made))
}

pub fn round(rt: &HostRuntime) -> io::Result<()> {
    measure_making(rt, "largest", LARGE)?;
    measure_making(rt, "crews", MIDDLE)?;
    measure(rt, "rollover_unused", LARGE, false, 0)?;
    measure(rt, "rollover_largest", LARGE, true, 0)?;
    measure(rt, "rollover_largest", LARGE, true, 1000)?;
    measure(rt, "rollover_largest", LARGE, true, 8000)?;
    measure(rt, "rollover_crews", MIDDLE, true, 0)?;
    measure(rt, "rollover_crews", MIDDLE, true, 1000)
}
