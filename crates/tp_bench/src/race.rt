//! Threads side by side, each with a pass of its own. A round's time is from the first start to the last end.
ghost use Rattle.std.specs.Prelude.{◌≡◌, None, IfSome};
ghost use Rattle.tp_manager.specs.Shown.{IsOf, IsKeptBy};
ghost use denote.Param.Send.{IsSync};

use crate::calls::{bare_turns, kept, now, pass, submits, turns};
use std::alloc::Global;
use std::io;
use std::sync::atomic::{AtomicU64, Ordering};
use std::thread::{Threads, join_mut};
use tp_manager::{Keeper, Manager, Pass};
use tp_model::types::Limits;

const LIMITS: Limits = Limits {
    parts: 16,
    rows: 256,
    units: 1024,
    attempts: 3,
    spare: 0,
};

/// When a thread began and ended its work, and how much of it was done.
#[derive(Clone, Copy)]
struct Span {
    begin: u64,
    end: u64,
    done: u64,
}

/// What each thread does 256 times.
#[derive(Clone, Copy)]
enum Kind {
    Submit,
    Bare,
    Turn,
}

/// What all threads of a race share.
#[derive(Drop)]
struct Race<'r, 'm> {
    rt: &'r HostRuntime,
    manager: &'m Manager,
    kind: Kind,
    /// Whether each thread has a stage of its own, or all have the first.
    own: bool,
    threads: u32,
    /// How many threads are at the start.
    here: AtomicU64,
}

impl Race<'_, '_> {
    /// Goes on once all threads have come.
    fn wait(&self) {
        self.here.fetch_add(1, Ordering::SeqCst);
        for _i in 0..1_000_000_000u32 {
            if self.here.load(Ordering::SeqCst) >= u64::from(self.threads) {
                break;
            }
        }
    }
}

/// The work of the thread of this number, from 1 on.
fn work(race: &Race, pass: &mut Pass, number: u8) -> Span
    requires own { IsOf race.now.manager.now pass.old }
    requires free { pass.old.open_unit ≡ None }
{
    let stage = stage_of(race.own, number);
    race.wait();
    let begin = now(race.rt);
    if stage == 0 || stage > 14 {
        return Span {
            begin,
            end: begin,
            done: 0,
        };
    }
    let done = match race.kind {
        Kind::Submit => submits(race.manager, pass, stage, 256),
        Kind::Bare => bare_turns(race.manager, pass, stage, 256),
        Kind::Turn => turns(race.manager, pass, stage, 256),
    };
    let end = now(race.rt);
    Span { begin, end, done }
}

/// From the first begin to the last end.
fn both(a: Span, b: Span) -> Span {
    Span {
        begin: if a.begin < b.begin { a.begin } else { b.begin },
        end: if a.end < b.end { b.end } else { a.end },
        done: a.done.wrapping_add(b.done),
    }
}

/// The threads of this number and the next one.
fn two<R: Threads + Sync>(th: &R, race: &Race, one: &mut Pass, other: &mut Pass, number: u8) -> Span
    requires own { IsOf race.now.manager.now one.old × IsOf race.now.manager.now other.old }
    requires free { (one.old.open_unit ≡ None) × (other.old.open_unit ≡ None) }
{
    let next = number.saturating_add(1);
    let (a, b) = join_mut(
        th,
        &mut || work(race, one, number),
        &mut || work(race, other, next),
    );
    both(a, b)
}

fn four<R: Threads + Sync>(
    th: &R,
    race: &Race,
    e: &mut Pass,
    f: &mut Pass,
    g: &mut Pass,
    h: &mut Pass,
) -> Span
    requires own { IsOf race.now.manager.now e.old × IsOf race.now.manager.now f.old
        × IsOf race.now.manager.now g.old × IsOf race.now.manager.now h.old }
    requires free { (e.old.open_unit ≡ None) × (f.old.open_unit ≡ None) × (g.old.open_unit ≡ None)
        × (h.old.open_unit ≡ None) }
{
    let mut first = || -> Span
        requires own { IsOf race.now.manager.now e.now × IsOf race.now.manager.now f.now }
        requires free { (e.now.open_unit ≡ None) × (f.now.open_unit ≡ None) }
        requires sync { IsSync R.row }
    { two(th, race, e, f, 1) };
    let mut last = || -> Span
        requires own { IsOf race.now.manager.now g.now × IsOf race.now.manager.now h.now }
        requires free { (g.now.open_unit ≡ None) × (h.now.open_unit ≡ None) }
        requires sync { IsSync R.row }
    { two(th, race, g, h, 3) };
    let (one, other) = join_mut(th, &mut first, &mut last);
    both(one, other)
}

fn stage_of(own: bool, stage: u8) -> u8 {
    if own { stage } else { 1 }
}

fn name_of(own: bool, kind: Kind) -> &'static str {
    match (own, kind) {
        (_, Kind::Submit) => "submit_threads",
        (true, Kind::Bare) => "turn_bare_own",
        (true, Kind::Turn) => "turn_own",
        (false, Kind::Bare) => "turn_bare_shared",
        (false, Kind::Turn) => "turn_shared",
    }
}

fn show(race: &Race, span: Span) -> io::Result<()> {
    println!(race.rt;
        "{} {} {} {}",
        name_of(race.own, race.kind),
        race.threads,
        span.end.wrapping_sub(span.begin),
        span.done
    )
}

/// The next pass submits all its rows to the stage.
fn fill(manager: &Manager, keeper: &mut Keeper, stage: u8)
    requires kept { IsKeptBy manager.now keeper.old }
    ensures kept { IsKeptBy manager.now keeper.new }
{
    let client = pass(keeper, manager);
    if let Some(client) = client {
        fill_from(manager, client, stage);
    }
}

/// A pass submits all its rows to the stage.
fn fill_from(manager: &Manager, mut client: Pass, stage: u8)
    requires own { IsOf manager.now client }
    requires free { client.open_unit ≡ None }
{
    submits(manager, &mut client, stage, 256);
}

/// As many clients as there are threads that serve fill their rows.
fn fill_all(manager: &Manager, keeper: &mut Keeper, own: bool, threads: u32)
    requires kept { IsKeptBy manager.now keeper.old }
    ensures kept { IsKeptBy manager.now keeper.new }
{
    fill(manager, keeper, 1);
    if threads >= 2 {
        fill(manager, keeper, stage_of(own, 2));
    }
    if threads >= 4 {
        fill(manager, keeper, stage_of(own, 3));
        fill(manager, keeper, stage_of(own, 4));
    }
}

/// Two passes of a manager.
fn pair(manager: &Manager, keeper: &mut Keeper) -> Option<(Pass, Pass)>
    requires kept { IsKeptBy manager.now keeper.old }
    ensures kept { IsKeptBy manager.now keeper.new }
    ensures own { IfSome result (λ made. IsOf manager.now made.0 × IsOf manager.now made.1) }
    ensures free { IfSome result (λ made. (made.0.open_unit ≡ None) × (made.1.open_unit ≡ None)) }
{
    let first = pass(keeper, manager)?;
    let second = pass(keeper, manager)?;
    Some((first, second))
}

/// The work of one, two or four threads.
fn spread<R: Threads + Sync>(
    th: &R,
    race: &Race,
    e: &mut Pass,
    f: &mut Pass,
    g: &mut Pass,
    h: &mut Pass,
) -> Span
    requires own { IsOf race.now.manager.now e.old × IsOf race.now.manager.now f.old
        × IsOf race.now.manager.now g.old × IsOf race.now.manager.now h.old }
    requires free { (e.old.open_unit ≡ None) × (f.old.open_unit ≡ None) × (g.old.open_unit ≡ None)
        × (h.old.open_unit ≡ None) }
{
    match race.threads {
        1 => work(race, e, 1),
        2 => two(th, race, e, f, 1),
        _ => four(th, race, e, f, g, h),
    }
}

/// One, two or four threads; where they serve, as many clients have filled their rows before.
fn run<R: Threads + Sync>(
    th: &R,
    rt: &HostRuntime,
    alloc: Global,
    own: bool,
    kind: Kind,
    threads: u32,
) -> io::Result<()> {
    let Some((manager, mut keeper)) = kept(alloc, LIMITS) else {
        return Ok(());
    };
    if !matches!(kind, Kind::Submit) {
        fill_all(&manager, &mut keeper, own, threads);
    }
    let Some((mut e, mut f)) = pair(&manager, &mut keeper) else {
        return Ok(());
    };
    let Some((mut g, mut h)) = pair(&manager, &mut keeper) else {
        return Ok(());
    };
    let race = Race {
        rt,
        manager: &manager,
        kind,
        own,
        threads,
        here: AtomicU64::new(0),
    };
    let span = spread(th, &race, &mut e, &mut f, &mut g, &mut h);
    show(&race, span)
}

pub fn round<R: Threads + Sync>(th: &R, rt: &HostRuntime, alloc: Global) -> io::Result<()> {
    run(th, rt, alloc, true, Kind::Submit, 1)?;
    run(th, rt, alloc, true, Kind::Submit, 2)?;
    run(th, rt, alloc, true, Kind::Submit, 4)?;
    run(th, rt, alloc, true, Kind::Bare, 1)?;
    run(th, rt, alloc, true, Kind::Bare, 2)?;
    run(th, rt, alloc, true, Kind::Bare, 4)?;
    run(th, rt, alloc, true, Kind::Turn, 1)?;
    run(th, rt, alloc, true, Kind::Turn, 2)?;
    run(th, rt, alloc, true, Kind::Turn, 4)?;
    run(th, rt, alloc, false, Kind::Bare, 2)?;
    run(th, rt, alloc, false, Kind::Bare, 4)?;
    run(th, rt, alloc, false, Kind::Turn, 2)?;
    run(th, rt, alloc, false, Kind::Turn, 4)
}
