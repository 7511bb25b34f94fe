//! The turns of the threads.
ghost use denote.Param.Send.{IsSync};
ghost use Rattle.std.specs.Prelude.{◌≡◌, None, IsSome, OnOk};
ghost use Rattle.tp_manager.specs.Shown.{IsOf};

use crate::calls::{
    abort, cancel, claim, claim_id, claim_next, collect, collect_next, commit, family, kill,
    next_error, read, release, reply, requeue, submit,
};
use crate::diary::Diary;
use crate::program_fault::ProgramFault;
use std::thread::{self, Threads, join_mut};
use tp_manager::{Manager, Pass};
use tp_model::types::Body;

/// The ids of each pass.
const ROWS: u32 = 32;

/// How far from an id of its own a thread looks for an element of another's.
const NEAR: u32 = 6;

/// A thread's pass and its diary.
#[derive(Drop)]
pub struct Player<'p, 'd, 'c> {
    pub pass: &'p mut Pass,
    pub diary: &'d mut Diary<'c>,
}

/// Four threads, each with a pass and a diary of its own.
pub fn four<R: Threads + Sync>(
    rt: &R,
    manager: &Manager,
    first: Player,
    second: Player,
    third: Player,
    fourth: Player,
    turns: u32,
) -> Result<(), ProgramFault>
    requires own { IsOf manager.now first.pass.now × IsOf manager.now second.pass.now
        × IsOf manager.now third.pass.now × IsOf manager.now fourth.pass.now }
    requires free { (first.pass.now.open_unit ≡ None) × (second.pass.now.open_unit ≡ None)
        × (third.pass.now.open_unit ≡ None) × (fourth.pass.now.open_unit ≡ None) }
    ensures own { IsOf manager.now first.exit.0.now × IsOf manager.now second.exit.0.now
        × IsOf manager.now third.exit.0.now × IsOf manager.now fourth.exit.0.now }
{
    let Player {
        pass: first,
        diary: first_diary,
    } = first;
    let Player {
        pass: second,
        diary: second_diary,
    } = second;
    let Player {
        pass: third,
        diary: third_diary,
    } = third;
    let Player {
        pass: fourth,
        diary: fourth_diary,
    } = fourth;
    let mut one = || -> Result<(), ProgramFault>
        requires { IsSync R.row × IsOf manager.now first.now × IsOf manager.now second.now
            × (first.now.open_unit ≡ None) × (second.now.open_unit ≡ None) }
        ensures { IsOf manager.entry.now first.exit.now × IsOf manager.entry.now second.exit.now }
    { pair(rt, manager, first, second, first_diary, second_diary, turns) };
    let mut other = || -> Result<(), ProgramFault>
        requires { IsSync R.row × IsOf manager.now third.now × IsOf manager.now fourth.now
            × (third.now.open_unit ≡ None) × (fourth.now.open_unit ≡ None) }
        ensures { IsOf manager.entry.now third.exit.now × IsOf manager.entry.now fourth.exit.now }
    { pair(rt, manager, third, fourth, third_diary, fourth_diary, turns) };
    let (left, right) = join_mut(rt, &mut one, &mut other);
    left.and(right)
}

/// Two threads, each with a pass and a diary of its own.
fn pair<R: Threads + Sync>(
    rt: &R,
    manager: &Manager,
    first: &mut Pass,
    second: &mut Pass,
    first_diary: &mut Diary,
    second_diary: &mut Diary,
    turns: u32,
) -> Result<(), ProgramFault>
    requires own { IsOf manager.now first.old × IsOf manager.now second.old }
    requires free { (first.old.open_unit ≡ None) × (second.old.open_unit ≡ None) }
    ensures own { IsOf manager.now first.new × IsOf manager.now second.new }
{
    let mut one = || -> Result<(), ProgramFault>
        requires { IsOf manager.now first.now × (first.now.open_unit ≡ None) }
        ensures { IsOf manager.entry.now first.exit.now }
    { take_turns(manager, first, first_diary, turns) };
    let mut other = || -> Result<(), ProgramFault>
        requires { IsOf manager.now second.now × (second.now.open_unit ≡ None) }
        ensures { IsOf manager.entry.now second.exit.now }
    { take_turns(manager, second, second_diary, turns) };
    let (a, b) = join_mut(rt, &mut one, &mut other);
    a.and(b)
}

/// One thread's turns, once all four threads are there, and a claim that nothing ends.
fn take_turns(
    manager: &Manager,
    pass: &mut Pass,
    diary: &mut Diary,
    turns: u32,
) -> Result<(), ProgramFault>
    requires own { IsOf manager.now pass.old }
    requires free { pass.old.open_unit ≡ None }
    ensures own { IsOf manager.now pass.new }
{
    meet(diary);
    for _past in 0..turns {
        take_turn(manager, pass, diary)?;
    }
    let _is_held = claim(manager, pass, diary, 1)?;
    Ok(())
}

/// Waits a while for the others.
fn meet(diary: &Diary) {
    let _here = diary.now();
    for _past in 0..100_000u32 {
        if diary.is_past(4) {
            return;
        }
        thread::yield_now();
    }
}

/// One or a few calls.
fn take_turn(manager: &Manager, pass: &mut Pass, diary: &mut Diary) -> Result<(), ProgramFault>
    requires own { IsOf manager.now pass.old }
    requires free { pass.old.open_unit ≡ None }
    ensures own { IsOf manager.now pass.new }
    ensures free { OnOk result (pass.new.open_unit ≡ None) }
{
    let id = some_id(diary);
    match diary.dice.below(24) {
        0..=4 => send(manager, pass, diary),
        5..=11 => serve(manager, pass, diary),
        12 => hunt(manager, pass, diary),
        13 => supervise(manager, pass, diary),
        14 => cancel(manager, pass, diary, id),
        15 => list_replies(manager, pass, diary, id),
        16 => take_reply(manager, pass, diary, id),
        17 => take_replies(manager, pass, diary),
        18 => list_errors(manager, pass, diary),
        19 => requeue(manager, pass, diary, id),
        20 => collect(manager, pass, diary, id),
        21 => follow(manager, pass, diary),
        _ => read(manager, pass, diary, id),
    }
}

/// A client's calls: the first reply to a request, the first from that one on, and the first after it.
fn list_replies(
    manager: &Manager,
    pass: &mut Pass,
    diary: &mut Diary,
    root: u32,
) -> Result<(), ProgramFault>
    requires own { IsOf manager.now pass.old }
    requires free { pass.old.open_unit ≡ None }
    ensures own { IsOf manager.now pass.new }
    ensures free { pass.new.open_unit ≡ None }
{
    if let Some(id) = reply(manager, pass, diary, root, 0)? {
        reply(manager, pass, diary, root, id)?;
        reply(manager, pass, diary, root, id.saturating_add(1))?;
    }
    Ok(())
}

/// The first reply to a request is collected or killed, and then collected once more.
fn take_reply(
    manager: &Manager,
    pass: &mut Pass,
    diary: &mut Diary,
    root: u32,
) -> Result<(), ProgramFault>
    requires own { IsOf manager.now pass.old }
    requires free { pass.old.open_unit ≡ None }
    ensures own { IsOf manager.now pass.new }
    ensures free { OnOk result (pass.new.open_unit ≡ None) }
{
    if let Some(id) = reply(manager, pass, diary, root, 0)? {
        if diary.dice.below(4) == 0 {
            kill(manager, pass, diary, id)?;
        } else {
            collect(manager, pass, diary, id)?;
        }
        collect(manager, pass, diary, id)?;
    }
    Ok(())
}

/// Two replies to the request that the thread was last at are collected.
fn take_replies(manager: &Manager, pass: &mut Pass, diary: &mut Diary) -> Result<(), ProgramFault>
    requires own { IsOf manager.now pass.old }
    requires free { pass.old.open_unit ≡ None }
    ensures own { IsOf manager.now pass.new }
    ensures free { OnOk result (pass.new.open_unit ≡ None) }
{
    let root = diary.root;
    collect_next(manager, pass, diary, root)?;
    collect_next(manager, pass, diary, root)
}

/// Some elements of the request that the thread was last at, one after another.
fn follow(manager: &Manager, pass: &mut Pass, diary: &mut Diary) -> Result<(), ProgramFault>
    requires own { IsOf manager.now pass.old }
    ensures own { IsOf manager.now pass.new }
    ensures open_unit { pass.new.open_unit ≡ pass.old.open_unit }
{
    let root = diary.root;
    let mut from = 0;
    for _past in 0..4u32 {
        match family(manager, pass, diary, root, from)? {
            Some(id) => from = id.saturating_add(1),
            None => return Ok(()),
        }
    }
    Ok(())
}

/// The first element that is parked, the first from that one on, and the first after it; and another round
/// for the first.
fn list_errors(manager: &Manager, pass: &mut Pass, diary: &mut Diary) -> Result<(), ProgramFault>
    requires own { IsOf manager.now pass.old }
    requires free { pass.old.open_unit ≡ None }
    ensures own { IsOf manager.now pass.new }
    ensures free { pass.new.open_unit ≡ None }
{
    if let Some(id) = next_error(manager, pass, diary, 0)? {
        next_error(manager, pass, diary, id)?;
        next_error(manager, pass, diary, id.saturating_add(1))?;
        requeue(manager, pass, diary, id)?;
    }
    Ok(())
}

/// A client's call.
fn send(manager: &Manager, pass: &mut Pass, diary: &mut Diary) -> Result<(), ProgramFault>
    requires own { IsOf manager.now pass.old }
    requires free { pass.old.open_unit ≡ None }
    ensures own { IsOf manager.now pass.new }
    ensures free { pass.new.open_unit ≡ None }
{
    let stage = if diary.dice.below(2) == 0 { 1 } else { 14 };
    let body = some_body(diary);
    diary.newest = diary.newest.saturating_add(1);
    submit(manager, pass, diary, stage, body)
}

/// A key, and three more words.
fn some_body(diary: &mut Diary) -> Body {
    let key = u64::from(diary.dice.below(100));
    let second = u64::from(diary.dice.below(1000));
    let third = u64::from(diary.dice.below(1000));
    let last = u64::from(diary.dice.below(1000));
    [key, second, third, last]
}

/// A server's calls: a claim, a few reads while it holds what it claimed, and an end.
fn serve(manager: &Manager, pass: &mut Pass, diary: &mut Diary) -> Result<(), ProgramFault>
    requires own { IsOf manager.now pass.old }
    requires free { pass.old.open_unit ≡ None }
    ensures own { IsOf manager.now pass.new }
    ensures free { OnOk result (pass.new.open_unit ≡ None) }
{
    let stage = match diary.dice.below(3) {
        0 => 1,
        1 => 14,
        _ => 3,
    };
    let id = some_id(diary);
    let is_busy = match diary.dice.below(4) {
        0 => claim_id(manager, pass, diary, id)?,
        1 => claim_next(manager, pass, diary, stage)?,
        _ => claim(manager, pass, diary, stage)?,
    };
    if is_busy {
        work(manager, pass, diary)
    } else {
        Ok(())
    }
}

fn work(manager: &Manager, pass: &mut Pass, diary: &mut Diary) -> Result<(), ProgramFault>
    requires own { IsOf manager.now pass.old }
    requires busy { IsSome pass.old.open_unit }
    ensures own { IsOf manager.now pass.new }
    ensures free { OnOk result (pass.new.open_unit ≡ None) }
{
    look_around(manager, pass, diary)?;
    linger(diary);
    if diary.dice.below(4) == 0 {
        return abort(manager, pass, diary);
    }
    let stage = match diary.dice.below(4) {
        0 => 14,
        1 => 3,
        _ => 15,
    };
    let drafts = match diary.dice.below(4) {
        0 => 0,
        1 => 2,
        _ => 1,
    };
    let body = some_body(diary);
    diary.newest = diary.newest.saturating_add(u32::from(drafts));
    commit(manager, pass, diary, drafts, stage, body)
}

/// Waits until others have made a few calls, or for a little while.
fn linger(diary: &mut Diary) {
    let wanted = diary.now().saturating_add(u64::from(diary.dice.below(24)));
    for _past in 0..50u32 {
        if diary.is_past(wanted) {
            return;
        }
        thread::yield_now();
    }
}

/// A killer's calls: a few reads, and a kill of what these may have shown to be held.
fn hunt(manager: &Manager, pass: &mut Pass, diary: &mut Diary) -> Result<(), ProgramFault>
    requires own { IsOf manager.now pass.old }
    requires free { pass.old.open_unit ≡ None }
    ensures own { IsOf manager.now pass.new }
    ensures free { OnOk result (pass.new.open_unit ≡ None) }
{
    look_around(manager, pass, diary)?;
    let id = diary.last;
    kill(manager, pass, diary, id)
}

/// A supervisor's calls: a few reads, and a release of what these may have shown to be held.
fn supervise(manager: &Manager, pass: &mut Pass, diary: &mut Diary) -> Result<(), ProgramFault>
    requires own { IsOf manager.now pass.old }
    requires free { pass.old.open_unit ≡ None }
    ensures own { IsOf manager.now pass.new }
    ensures free { OnOk result (pass.new.open_unit ≡ None) }
{
    look_around(manager, pass, diary)?;
    let id = diary.last;
    release(manager, pass, diary, id)
}

/// A few reads.
fn look_around(manager: &Manager, pass: &mut Pass, diary: &mut Diary) -> Result<(), ProgramFault>
    requires own { IsOf manager.now pass.old }
    ensures own { IsOf manager.now pass.new }
    ensures open_unit { pass.new.open_unit ≡ pass.old.open_unit }
{
    let times = diary.dice.below(6);
    for _past in 0..times {
        let id = some_id(diary);
        read(manager, pass, diary, id)?;
    }
    Ok(())
}

/// An id that others are likely to be at. It is one after the last that the thread has claimed, where they
/// claim next, or one near the newest of some pass, or of the spare blocks.
fn some_id(diary: &mut Diary) -> u32 {
    let pass = diary.dice.below(4);
    let back = diary.dice.below(NEAR);
    if diary.dice.below(2) == 0 {
        return diary.last.saturating_add(back);
    }
    let row = diary.newest.saturating_add(1).saturating_sub(back);
    if row > ROWS {
        // All passes have used about as many rows, and they are in spare blocks by now.
        let spare = row.saturating_sub(ROWS).wrapping_mul(4);
        return spare.wrapping_add(pass).wrapping_add(ROWS * 4);
    }
    pass.wrapping_mul(ROWS).wrapping_add(row)
}
