//! Workers of one kind or three, each on a thread of its own. A worker is a place in two slices side by side:
//! a pass, and the server or the job that it works with.
ghost use Rattle.std.specs.Prelude.{◌≡◌, ◌+◌, ◌<◌, ◌^◌};
ghost use denote.Param.Send.{IsSync, IsSend};
ghost use Rattle.std.specs.Prelude.{[], ◌∷◌, length};
ghost use Rattle.tp_workers.specs.Ran.{Accepts, AreTold, MayRun, RanEach, Runs};
ghost use Rattle.tp_workers.specs.Lent.{on_left, by_left, told_left};

use crate::tally::Shift;
use std::thread::{Threads, join_mut};

/// Workers of one kind, numbered from `first` on, and a place for the counts of each, or none.
#[derive(Drop)]
pub(crate) struct Part<'o, 'b, 't, T, U> {
    pub(crate) on: &'o mut [T],
    pub(crate) by: &'b mut [U],
    pub(crate) told: &'t mut [Shift],
    pub(crate) first: u32,
}

/// Runs each worker on a thread of its own, numbered from `first` on. Where there is a place for each
/// worker's counts, they are given one by one, and else only their sum.
#[cycle(fork)]
pub(crate) fn fork<R: Threads + Sync, T: Send, U: Send, F: Fn(&mut T, &mut U, u32) -> Shift + Sync>(
    rt: &R,
    run: &F,
    first: u32,
    on: &mut [T],
    by: &mut [U],
    told: &mut [Shift],
) -> Shift
    requires may_run { MayRun F.Fn run.now on.old by.old }
    ensures ran { RanEach (Runs F.Fn run.now) on.old by.old result on.new by.new }
    ensures told { AreTold (Runs F.Fn run.now) on.old by.old told.old result on.new by.new told.new }
{
    if on.is_empty() {
        return Shift::none();
    }
    if on.len() == 1 {
        let counts = run_one(run, &mut on[0], &mut by[0], first);
        tell(told, counts);
        return counts;
    }
    let half = on.len() / 2;
    let (front, back) = on.split_at_mut(half);
    let (front_by, back_by) = by.split_at_mut(half);
    let (front_told, back_told) = told.split_at_mut(half.min(told.len()));
    let front = Part {
        first,
        on: front,
        by: front_by,
        told: front_told,
    };
    let back = Part {
        first: number_after(first, half),
        on: back,
        by: back_by,
        told: back_told,
    };
    let (a, b) = halves(rt, run, front, back);
    a.plus(b)
}

// A function of its own, so that what the closures require is what this function is given.
#[cycle(fork)]
fn halves<R: Threads + Sync, T: Send, U: Send, F: Fn(&mut T, &mut U, u32) -> Shift + Sync>(
    rt: &R,
    run: &F,
    front: Part<T, U>,
    back: Part<T, U>,
) -> (Shift, Shift)
    requires front_may { MayRun F.Fn run.now front.on.now front.by.now }
    requires back_may { MayRun F.Fn run.now back.on.now back.by.now }
    ensures front_ran { RanEach (Runs F.Fn run.now) front.entry.on.now front.entry.by.now result.0
        (on_left front.exit) (by_left front.exit) }
    ensures back_ran { RanEach (Runs F.Fn run.now) back.entry.on.now back.entry.by.now result.1
        (on_left back.exit) (by_left back.exit) }
    ensures front_told { AreTold (Runs F.Fn run.now) front.entry.on.now front.entry.by.now
        front.entry.told.now result.0 (on_left front.exit) (by_left front.exit) (told_left front.exit) }
    ensures back_told { AreTold (Runs F.Fn run.now) back.entry.on.now back.entry.by.now back.entry.told.now
        result.1 (on_left back.exit) (by_left back.exit) (told_left back.exit) }
{
    let Part {
        first: low,
        on: front,
        by: front_by,
        told: front_told,
    } = front;
    let Part {
        first: high,
        on: back,
        by: back_by,
        told: back_told,
    } = back;
    let mut one = || -> Shift
        requires { IsSync R.row × IsSync F.row × IsSend T.row × IsSend U.row
            × MayRun F.Fn run.now front.now front_by.now }
        ensures { RanEach (Runs F.Fn run.entry.now) front.entry.now front_by.entry.now result
            front.exit.now front_by.exit.now
            × AreTold (Runs F.Fn run.entry.now) front.entry.now front_by.entry.now front_told.entry.now result
            front.exit.now front_by.exit.now front_told.exit.now }
    { fork(rt, run, low, front, front_by, front_told) };
    let mut other = || -> Shift
        requires { IsSync R.row × IsSync F.row × IsSend T.row × IsSend U.row
            × MayRun F.Fn run.now back.now back_by.now }
        ensures { RanEach (Runs F.Fn run.entry.now) back.entry.now back_by.entry.now result
            back.exit.now back_by.exit.now
            × AreTold (Runs F.Fn run.entry.now) back.entry.now back_by.entry.now back_told.entry.now result
            back.exit.now back_by.exit.now back_told.exit.now }
    { fork(rt, run, high, back, back_by, back_told) };
    join_mut(rt, &mut one, &mut other)
}

fn run_one<T, U, F: Fn(&mut T, &mut U, u32) -> Shift>(
    run: &F,
    on: &mut T,
    by: &mut U,
    number: u32,
) -> Shift
    requires accepts { Accepts F.Fn run.now (on.old, by.old) }
    ensures ran { Runs F.Fn run.now (on.old, by.old) result (on.new, by.new) }
{
    run(on, by, number)
}

/// Leaves a worker's counts in the first place, if there is one.
fn tell(told: &mut [Shift], counts: Shift)
    ensures kept { length told.new ≡ length told.old }
    ensures told { length told.old ≡ 1 → told.new ≡ counts ∷ [] }
{
    if let Some(place) = told.first_mut() {
        *place = counts;
    }
}

/// Runs the workers of two kinds. A kind that has none is given no thread.
fn fork_two<
    R: Threads + Sync,
    T: Send,
    A: Send,
    U: Send,
    B: Send,
    F: Fn(&mut T, &mut A, u32) -> Shift + Sync,
    H: Fn(&mut U, &mut B, u32) -> Shift + Sync,
>(rt: &R, run_x: &F, run_y: &H, xs: Part<T, A>, ys: Part<U, B>) -> (Shift, Shift)
    requires xs_may { MayRun F.Fn run_x.now xs.on.now xs.by.now }
    requires ys_may { MayRun H.Fn run_y.now ys.on.now ys.by.now }
    ensures xs_ran { RanEach (Runs F.Fn run_x.now) xs.entry.on.now xs.entry.by.now result.0
        (on_left xs.exit) (by_left xs.exit) }
    ensures ys_ran { RanEach (Runs H.Fn run_y.now) ys.entry.on.now ys.entry.by.now result.1
        (on_left ys.exit) (by_left ys.exit) }
{
    let Part {
        on: xs,
        by: xs_by,
        told: xs_told,
        first: low,
    } = xs;
    let Part {
        on: ys,
        by: ys_by,
        told: ys_told,
        first: high,
    } = ys;
    if xs.is_empty() {
        let a = fork(rt, run_x, low, xs, xs_by, xs_told);
        let b = fork(rt, run_y, high, ys, ys_by, ys_told);
        return (a, b);
    }
    let mut one = || -> Shift
        requires { MayRun F.Fn run_x.now xs.now xs_by.now }
        ensures { RanEach (Runs F.Fn run_x.entry.now) xs.entry.now xs_by.entry.now result xs.exit.now
            xs_by.exit.now }
    { fork(rt, run_x, low, xs, xs_by, xs_told) };
    let mut other = || -> Shift
        requires { MayRun H.Fn run_y.now ys.now ys_by.now }
        ensures { RanEach (Runs H.Fn run_y.entry.now) ys.entry.now ys_by.entry.now result ys.exit.now
            ys_by.exit.now }
    { fork(rt, run_y, high, ys, ys_by, ys_told) };
    join_mut(rt, &mut one, &mut other)
}

/// Runs the workers of three kinds. Those of the first kind are given as by `fork`. Where there are no
/// others, they are given no thread.
pub(crate) fn fork_three<
    R: Threads + Sync,
    T: Send,
    A: Send,
    U: Send,
    B: Send,
    V: Send,
    C: Send,
    F: Fn(&mut T, &mut A, u32) -> Shift + Sync,
    H: Fn(&mut U, &mut B, u32) -> Shift + Sync,
    K: Fn(&mut V, &mut C, u32) -> Shift + Sync,
>(
    rt: &R,
    run_x: &F,
    run_y: &H,
    run_z: &K,
    xs: Part<T, A>,
    ys: Part<U, B>,
    zs: Part<V, C>,
) -> (Shift, (Shift, Shift))
    requires xs_may { MayRun F.Fn run_x.now xs.on.now xs.by.now }
    requires ys_may { MayRun H.Fn run_y.now ys.on.now ys.by.now }
    requires zs_may { MayRun K.Fn run_z.now zs.on.now zs.by.now }
    ensures xs_ran { RanEach (Runs F.Fn run_x.now) xs.entry.on.now xs.entry.by.now result.0
        (on_left xs.exit) (by_left xs.exit) }
    ensures ys_ran { RanEach (Runs H.Fn run_y.now) ys.entry.on.now ys.entry.by.now result.1.0
        (on_left ys.exit) (by_left ys.exit) }
    ensures zs_ran { RanEach (Runs K.Fn run_z.now) zs.entry.on.now zs.entry.by.now result.1.1
        (on_left zs.exit) (by_left zs.exit) }
    ensures xs_told { AreTold (Runs F.Fn run_x.now) xs.entry.on.now xs.entry.by.now xs.entry.told.now
        result.0 (on_left xs.exit) (by_left xs.exit) (told_left xs.exit) }
{
    let Part {
        on: xs,
        by: xs_by,
        told: xs_told,
        first,
    } = xs;
    let Part {
        on: ys,
        by: ys_by,
        told: ys_told,
        first: second,
    } = ys;
    let Part {
        on: zs,
        by: zs_by,
        told: zs_told,
        first: third,
    } = zs;
    if ys.is_empty() {
        if zs.is_empty() {
            let alone = fork(rt, run_x, first, xs, xs_by, xs_told);
            let ys = Part {
                on: ys,
                by: ys_by,
                told: ys_told,
                first: second,
            };
            let zs = Part {
                on: zs,
                by: zs_by,
                told: zs_told,
                first: third,
            };
            let others = fork_two(rt, run_y, run_z, ys, zs);
            return (alone, others);
        }
    }
    let mut one = || -> Shift
        requires { MayRun F.Fn run_x.now xs.now xs_by.now }
        ensures { RanEach (Runs F.Fn run_x.entry.now) xs.entry.now xs_by.entry.now result xs.exit.now
            xs_by.exit.now
            × AreTold (Runs F.Fn run_x.entry.now) xs.entry.now xs_by.entry.now xs_told.entry.now result
            xs.exit.now xs_by.exit.now xs_told.exit.now }
    { fork(rt, run_x, first, xs, xs_by, xs_told) };
    let mut other = || -> (Shift, Shift)
        requires { MayRun H.Fn run_y.now ys.now ys_by.now × MayRun K.Fn run_z.now zs.now zs_by.now }
        ensures { RanEach (Runs H.Fn run_y.entry.now) ys.entry.now ys_by.entry.now result.0 ys.exit.now
            ys_by.exit.now
            × RanEach (Runs K.Fn run_z.entry.now) zs.entry.now zs_by.entry.now result.1 zs.exit.now
            zs_by.exit.now }
    {
        let ys = Part {
            on: ys,
            by: ys_by,
            told: ys_told,
            first: second,
        };
        let zs = Part {
            on: zs,
            by: zs_by,
            told: zs_told,
            first: third,
        };
        fork_two(rt, run_y, run_z, ys, zs)
    };
    join_mut(rt, &mut one, &mut other)
}

/// Runs each worker on the caller's thread, one after another.
pub(crate) fn in_turn<T, U, F: Fn(&mut T, &mut U, u32) -> Shift>(
    run: &F,
    first: u32,
    on: &mut [T],
    by: &mut [U],
) -> Shift
    requires may_run { MayRun F.Fn run.now on.old by.old }
    ensures ran { RanEach (Runs F.Fn run.now) on.old by.old result on.new by.new }
{
    if on.is_empty() {
        return Shift::none();
    }
    if on.len() == 1 {
        return run_one(run, &mut on[0], &mut by[0], first);
    }
    let (front, back) = on.split_at_mut(1);
    let (front_by, back_by) = by.split_at_mut(1);
    let a = in_turn(run, first, front, front_by);
    let b = in_turn(run, number_after(first, 1), back, back_by);
    a.plus(b)
}

/// The number that comes this many after another, or the greatest one that there is.
pub(crate) fn number_after(first: u32, count: usize) -> u32
    ensures { first + count < 2 ^ 32 → result ≡ first + count }
{
    first.saturating_add(u32::try_from(count).unwrap_or(u32::MAX))
}
