//! Four threads of clients, servers, supervisors, killers and cancellers at one manager. Each writes down its
//! calls and their answers, and what a shared counter said before and after each; all is printed, with how
//! each element stands at the end. Then what is alive goes on in a second manager, at which they do the same.
//! What the logs say is for another to judge, who trusts nothing here: `tools/witness`.
//!
//! `tp_witness SEED ROUNDS TURNS` makes this many pairs of managers, one after another, and each thread takes
//! this many turns at each.
#![tactic(auto)]

ghost use Rattle.std.specs.Prelude.{◌≡◌, All, None, OnOk};
ghost use Rattle.tp_manager.specs.Shown.{IsOf};
ghost use Rattle.tp_rollover.specs.Faults.{AreFree};
ghost use Rattle.tp_rollover.specs.Managed.{IsManaged};

mod calls;
mod diary;
mod dice;
mod playing;
mod program_fault;

use calls::{abort, read, release};
use diary::Diary;
use dice::Dice;
use playing::{Player, four};
use program_fault::ProgramFault;
use std::env;
use std::process::ExitCode;
use std::rt::Env;
use std::sync::atomic::AtomicU64;
use std::thread::Threads;
use tp_manager::{Manager, Pass};
use tp_model::types::Limits;
use tp_rollover::{Managed, RollFault, has_open};

/// Few rows and units, so that threads meet at the same elements and draw spare blocks, and run out of all
/// three.
const LIMITS: Limits = Limits {
    parts: 4,
    rows: 32,
    units: 48,
    attempts: 3,
    spare: 16,
};

fn main(rt: HostRuntime) -> ExitCode {
    match rounds(&rt) {
        Ok(()) => ExitCode::SUCCESS,
        Err(trouble) => {
            let _ = eprintln!(&rt; "{trouble:?}");
            ExitCode::FAILURE
        }
    }
}

fn rounds<R: AllocGlobal + Env + Print + Threads + Sync>(rt: &R) -> Result<(), ProgramFault> {
    let mut words = env::args(rt)?;
    let _program = words.next();
    let seed = number(words.next())?;
    let rounds = number(words.next())?;
    let turns = number(words.next())?;
    for round in 0..rounds {
        play(
            rt,
            round,
            u64::from(seed).wrapping_add(u64::from(round)),
            turns,
        )?;
    }
    Ok(())
}

fn number(word: Option<String>) -> Result<u32, ProgramFault> {
    match word {
        Some(word) => word.parse::<u32>().map_err(|_| ProgramFault::NoNumber),
        None => Err(ProgramFault::NoNumber),
    }
}

/// One round: a manager and its threads' turns, and the same of the one in which what is alive goes on.
fn play<R: AllocGlobal + Print + Threads + Sync>(
    rt: &R,
    round: u32,
    seed: u64,
    turns: u32,
) -> Result<(), ProgramFault> {
    let mut managed = Managed::new(rt.alloc(), LIMITS)?;
    play_in(rt, &mut managed, round, seed, turns)?;
    match managed.roll_over(rt.alloc()) {
        Ok(moved) => {
            let moved = moved.as_slice();
            println!(rt; "carried {moved:?}")?;
            if has_open(&managed.passes) {
                return Err(ProgramFault::NoRollover);
            }
            play_in(rt, &mut managed, round, !seed, turns)
        }
        Err(RollFault::Full) => Ok(()),
        Err(_) => Err(ProgramFault::NoRollover),
    }
}

/// The threads' turns at a manager, and its account. Each thread has ended its unit then.
fn play_in<R: AllocGlobal + Print + Threads + Sync>(
    rt: &R,
    managed: &mut Managed,
    round: u32,
    seed: u64,
    turns: u32,
) -> Result<(), ProgramFault>
    requires managed { IsManaged managed.old }
    requires free { AreFree managed.old.passes.items }
    ensures managed { OnOk result (IsManaged managed.new) }
{
    println!(rt; "round {round} {LIMITS:?}")?;
    play_with(
        rt,
        &managed.manager,
        managed.passes.as_mut_slice(),
        seed,
        turns,
    )?;
    if !managed.keeper.has_all(&managed.passes) {
        return Err(ProgramFault::NoPass);
    }
    let account = managed
        .keeper
        .account(&managed.manager, managed.passes.as_mut_slice());
    println!(rt; "account {account:?}")?;
    Ok(())
}

/// The turns of four threads, each with one of these passes.
fn play_with<R: AllocGlobal + Print + Threads + Sync>(
    rt: &R,
    manager: &Manager,
    passes: &mut [Pass],
    seed: u64,
    turns: u32,
) -> Result<(), ProgramFault>
    requires own { All (IsOf manager.now) passes.old }
    requires free { AreFree passes.old }
    ensures own { All (IsOf manager.now) passes.new }
{
    let Some((first, others)) = passes.split_first_mut() else {
        return Err(ProgramFault::NoPass);
    };
    let Some((second, others)) = others.split_first_mut() else {
        return Err(ProgramFault::NoPass);
    };
    let Some((third, others)) = others.split_first_mut() else {
        return Err(ProgramFault::NoPass);
    };
    let Some((fourth, _others)) = others.split_first_mut() else {
        return Err(ProgramFault::NoPass);
    };
    let plan = PlayPlan { seed, turns };
    play_four(rt, manager, first, second, third, fourth, plan)
}

/// What the threads' dice begin with, and how many turns each takes.
#[derive(Clone, Copy)]
struct PlayPlan {
    seed: u64,
    turns: u32,
}

/// The threads' turns, what is read then, and all that they wrote down.
fn play_four<R: AllocGlobal + Print + Threads + Sync>(
    rt: &R,
    manager: &Manager,
    first: &mut Pass,
    second: &mut Pass,
    third: &mut Pass,
    fourth: &mut Pass,
    plan: PlayPlan,
) -> Result<(), ProgramFault>
    requires own { IsOf manager.now first.old × IsOf manager.now second.old
        × IsOf manager.now third.old × IsOf manager.now fourth.old }
    requires free { (first.old.open_unit ≡ None) × (second.old.open_unit ≡ None)
        × (third.old.open_unit ≡ None) × (fourth.old.open_unit ≡ None) }
    ensures own { IsOf manager.now first.new × IsOf manager.now second.new
        × IsOf manager.now third.new × IsOf manager.now fourth.new }
{
    let clock = AtomicU64::new(0);
    let mut first_diary = Diary::new(rt.alloc(), &clock, Dice::new(plan.seed, 1));
    let mut second_diary = Diary::new(rt.alloc(), &clock, Dice::new(plan.seed, 2));
    let mut third_diary = Diary::new(rt.alloc(), &clock, Dice::new(plan.seed, 3));
    let mut fourth_diary = Diary::new(rt.alloc(), &clock, Dice::new(plan.seed, 4));
    four(
        rt,
        manager,
        Player {
            pass: &mut *first,
            diary: &mut first_diary,
        },
        Player {
            pass: &mut *second,
            diary: &mut second_diary,
        },
        Player {
            pass: &mut *third,
            diary: &mut third_diary,
        },
        Player {
            pass: &mut *fourth,
            diary: &mut fourth_diary,
        },
        plan.turns,
    )?;
    read_all(manager, first, &mut first_diary)?;
    end(manager, second, &mut second_diary)?;
    end(manager, third, &mut third_diary)?;
    end(manager, fourth, &mut fourth_diary)?;
    read_all(manager, first, &mut first_diary)?;
    first_diary.print(rt, 0)?;
    second_diary.print(rt, 1)?;
    third_diary.print(rt, 2)?;
    fourth_diary.print(rt, 3)
}

/// Aborts the unit that is open, if there is one.
fn end(manager: &Manager, pass: &mut Pass, diary: &mut Diary) -> Result<(), ProgramFault>
    requires own { IsOf manager.now pass.old }
    ensures own { IsOf manager.now pass.new }
    ensures free { pass.new.open_unit ≡ None }
{
    if pass.has_open() {
        return abort(manager, pass, diary);
    }
    Ok(())
}

/// The status of each element at the end, as the manager shows it. Of those that are held still about half
/// are released.
fn read_all(manager: &Manager, pass: &mut Pass, diary: &mut Diary) -> Result<(), ProgramFault>
    requires own { IsOf manager.now pass.old }
    ensures own { IsOf manager.now pass.new }
{
    end(manager, pass, diary)?;
    for id in 0..manager.capacity() {
        read(manager, pass, diary, id)?;
        if diary.last == id && diary.dice.below(2) == 0 {
            release(manager, pass, diary, id)?;
            read(manager, pass, diary, id)?;
        }
    }
    Ok(())
}
