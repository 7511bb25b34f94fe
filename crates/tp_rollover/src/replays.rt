//! Elements that are born anew are given the attempts and rounds that were described.
ghost use Rattle.std.specs.Prelude.{◌≡◌, ◌≢◌, ◌*◌, ◌≤◌, All, IfErr, OnOk, length};
ghost use Rattle.tp_model.specs.Steps.{IsKillable};
ghost use Rattle.tp_rollover.specs.Anew.{all_replayed, kept_for, renewed, replayed, attempts_made};
ghost use Rattle.tp_rollover.specs.Bounds.{AllMake, attempt_steps, attempts_had, most_replay_steps};
ghost use Rattle.tp_rollover.specs.Bounds.{IsWithinLimits, replay_of, replay_steps, replays_for};
ghost use Rattle.tp_rollover.specs.Lone.{Agrees, AreLone, lone};
ghost use Rattle.tp_rollover.specs.declared.stops.Stop.TheVariants as stops;

use crate::calls::{attempt_by, requeue_by};
use crate::moved::Moved;
use crate::places::{Kept, first_with, kept_for};
use crate::stops::Stop;
use crate::survivors::Survivor;
use tp_manager::{Keeper, Manager, Pass};
use tp_model::types::Status;

/// The element is claimed and given up so many times, by the passes from `from` on, which goes on.
fn attempts(
    manager: &Manager,
    keeper: &mut Keeper,
    passes: &mut [Pass],
    kept: &Kept,
    from: &mut usize,
    id: u32,
    times: u8,
) -> Result<(), Stop>
    requires lone { AreLone manager.now keeper.old passes.old }
    ensures lone { AreLone manager.now keeper.new passes.new × (keeper.new.given ≡ keeper.old.given) }
    ensures steps { AllMake (times * attempt_steps manager.now.limits keeper.old.given)
        keeper.old passes.old keeper.new passes.new }
    ensures gives { Agrees result (λ _. (from.new, lone manager.now keeper.new passes.new))
        (attempts_made (length passes.old) kept.now id times
        (from.old, lone manager.now keeper.old passes.old)) }
    ensures memory { IfErr result (λ stop. stop ≢ stops.NoMemory) }
{
    for _time in 0..times {
        let Some(at) = first_with(manager, passes, kept, *from, 0, 1) else {
            return Err(Stop::Full);
        };
        *from = at;
        attempt_by(manager, keeper, passes, at, id)?;
    }
    Ok(())
}

/// The element is given so many further rounds of all attempts.
fn rounds(
    manager: &Manager,
    keeper: &mut Keeper,
    passes: &mut [Pass],
    kept: &Kept,
    from: &mut usize,
    id: u32,
    times: u8,
) -> Result<(), Stop>
    requires lone { AreLone manager.now keeper.old passes.old }
    requires some { 1 ≤ length passes.old }
    ensures lone { AreLone manager.now keeper.new passes.new × (keeper.new.given ≡ keeper.old.given) }
    ensures steps { let l = manager.now.limits in
        AllMake (replay_steps l keeper.old.given (times * l.attempts) times)
        keeper.old passes.old keeper.new passes.new }
    ensures gives { Agrees result (λ _. (from.new, lone manager.now keeper.new passes.new))
        (renewed (length passes.old) kept.now id manager.now.limits.attempts times
        (from.old, lone manager.now keeper.old passes.old)) }
    ensures memory { IfErr result (λ stop. stop ≢ stops.NoMemory) }
{
    for _round in 0..times {
        attempts(
            manager,
            keeper,
            passes,
            kept,
            from,
            id,
            manager.limits().attempts,
        )?;
        requeue_by(manager, keeper, passes, 0, id)?;
    }
    Ok(())
}

/// How many attempts an element that waits or is parked has had in its round.
fn attempts_of(status: Status) -> u8
    requires alive { IsKillable status }
    ensures { result ≡ attempts_had status }
{
    match status {
        Status::Waiting { attempts } => attempts,
        Status::Held {
            unit: _,
            attempt: _,
        } => unreachable!(),
        Status::Consumed { unit: _ } => unreachable!(),
        Status::Parked { attempts } => attempts,
        Status::Killed => unreachable!(),
    }
}

/// The new element is given what was described, which an element can have had.
fn replay(
    manager: &Manager,
    keeper: &mut Keeper,
    passes: &mut [Pass],
    kept: &Kept,
    from: &mut usize,
    one: Survivor,
    id: u32,
) -> Result<(), Stop>
    requires lone { AreLone manager.now keeper.old passes.old }
    requires some { 1 ≤ length passes.old }
    requires alive { IsKillable one.status }
    requires within { IsWithinLimits manager.now.limits one }
    ensures lone { AreLone manager.now keeper.new passes.new × (keeper.new.given ≡ keeper.old.given) }
    ensures steps { AllMake (most_replay_steps manager.now.limits keeper.old.given)
        keeper.old passes.old keeper.new passes.new }
    ensures told { OnOk result (AllMake (replay_of manager.now.limits keeper.old.given one)
        keeper.old passes.old keeper.new passes.new) }
    ensures gives { Agrees result (λ _. (from.new, lone manager.now keeper.new passes.new))
        (replayed (length passes.old) kept.now manager.now.limits.attempts one id
        (from.old, lone manager.now keeper.old passes.old)) }
    ensures memory { IfErr result (λ stop. stop ≢ stops.NoMemory) }
{
    rounds(manager, keeper, passes, kept, from, id, one.rounds)?;
    let times = attempts_of(one.status);
    attempts(manager, keeper, passes, kept, from, id, times)
}

/// Each new element is given what was described.
pub(crate) fn replay_all(
    manager: &Manager,
    keeper: &mut Keeper,
    passes: &mut [Pass],
    survivors: &[Survivor],
    moved: &[Moved],
) -> Result<(), Stop>
    requires lone { AreLone manager.now keeper.old passes.old }
    requires some { 1 ≤ length passes.old }
    requires alive { All (λ s. IsKillable s.status) survivors.now }
    requires within { All (IsWithinLimits manager.now.limits) survivors.now }
    requires many { length moved.now ≡ length survivors.now }
    ensures lone { AreLone manager.now keeper.new passes.new × (keeper.new.given ≡ keeper.old.given) }
    ensures steps { let n = length survivors.now in
        AllMake (n * most_replay_steps manager.now.limits keeper.old.given)
        keeper.old passes.old keeper.new passes.new }
    ensures told { OnOk result (AllMake (replays_for manager.now.limits keeper.old.given survivors.now)
        keeper.old passes.old keeper.new passes.new) }
    ensures gives { Agrees result (λ _. lone manager.now keeper.new passes.new)
        (all_replayed (length passes.old) (kept_for survivors.now) manager.now.limits.attempts survivors.now
        moved.now (0, lone manager.now keeper.old passes.old)) }
    ensures memory { IfErr result (λ stop. stop ≢ stops.NoMemory) }
{
    let kept = kept_for(survivors);
    let mut from = 0;
    for place in 0..survivors.len() {
        replay(
            manager,
            keeper,
            passes,
            &kept,
            &mut from,
            survivors[place],
            moved[place].new,
        )?;
    }
    Ok(())
}
