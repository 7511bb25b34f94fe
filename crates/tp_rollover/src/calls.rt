//! The calls on the new manager, each by the pass with an index. After each of them, or each run of requests
//! by one pass, all passes look together, so that what it answers and leaves is what the manager of one
//! thread answers and is then.
ghost use Rattle.std.specs.Prelude.{◌≡◌, ◌+◌, ◌*◌, ◌<◌, ◌≤◌, ◌≢◌, IfErr, IfOk, IsSome, None, OnOk, Some};
ghost use Rattle.std.specs.Prelude.{length, vec_capacity};
ghost use Rattle.tp_model.specs.Steps.{rows_of};
ghost use Rattle.tp_plain.specs.Computed.{abort_of, claim_id_of, commit_of};
ghost use Rattle.tp_plain.specs.OneThread.{pass_at};
ghost use Rattle.tp_manager.specs.Bounds.{abort_steps, claim_id_steps, commit_steps, requeue_steps};
ghost use Rattle.tp_manager.specs.Bounds.{submit_steps};
ghost use Rattle.tp_manager.specs.Shown.{IsOf};
ghost use Rattle.tp_rollover.specs.Anew.{attempted, born_by, first_given, given, held_by, requeued};
ghost use Rattle.tp_rollover.specs.Anew.{submitted};
ghost use Rattle.tp_rollover.specs.Bounds.{AllMake, PassMakes, attempt_steps, commit_on_steps, gathered};
ghost use Rattle.tp_rollover.specs.Bounds.{give_up_steps, hold_steps};
ghost use Rattle.tp_rollover.specs.Closing.{hand_given_up};
ghost use Rattle.tp_rollover.specs.Lone.{Agrees, AreLone, lone};
ghost use Rattle.tp_rollover.specs.Runs.{SubmitsRun, roots_born};
ghost use Rattle.tp_rollover.specs.declared.stops.Stop.TheVariants as stops;

use crate::moved::Moved;
use crate::stops::Stop;
use crate::survivors::Survivor;
use tp_manager::{Keeper, Manager, Pass};
use tp_model::types::{Body, Draft, Outcome, Refusal, Work};

/// What a claim or another call was refused for.
fn stop_for(refusal: Refusal) -> Stop
    ensures { result ≢ stops.NoMemory }
{
    match refusal {
        Refusal::NoUnit => Stop::Full,
        Refusal::Full => Stop::Full,
        _ => Stop::Unequal,
    }
}

/// A new request. Its id.
pub(crate) fn submit_by(
    manager: &Manager,
    keeper: &mut Keeper,
    passes: &mut [Pass],
    at: usize,
    stage: u8,
    body: Body,
) -> Result<u32, Stop>
    requires lone { AreLone manager.now keeper.old passes.old }
    requires at { at < length passes.old }
    ensures lone { AreLone manager.now keeper.new passes.new × (keeper.new.given ≡ keeper.old.given) }
    ensures steps { let l = manager.now.limits in
        AllMake (gathered l keeper.old.given (submit_steps l))
        keeper.old passes.old keeper.new passes.new }
    ensures rows { IfOk result (λ id. id < rows_of manager.now.limits) }
    ensures gives { Agrees result (λ id. (id, lone manager.now keeper.new passes.new))
        (submitted at stage body (lone manager.now keeper.old passes.old)) }
    ensures memory { IfErr result (λ stop. stop ≢ stops.NoMemory) }
{
    let answer = manager.submit(&mut passes[at], stage, body);
    keeper.gather(manager, passes);
    match answer {
        Ok(id) => Ok(id),
        Err(refusal) => Err(stop_for(refusal)),
    }
}

/// Copies of these ones' roots are submitted, one after another, with no look together between them. Each is
/// named as its own root.
fn submit_each(
    manager: &Manager,
    pass: &mut Pass,
    roots: &[Survivor],
    moved: &mut Vec<Moved>,
) -> Result<(), Stop>
    requires own { IsOf manager.now pass.old }
    ensures own { IsOf manager.now pass.new × (pass.new.number ≡ pass.old.number) }
    ensures steps { PassMakes (length roots.now * submit_steps manager.now.limits) pass.old pass.new }
    ensures runs { let l = manager.now.limits in
        SubmitsRun l roots.now moved.old.items moved.new.items pass.old pass.new result }
    ensures memory { IfErr result (λ stop. stop ≡ stops.NoMemory
        → vec_capacity moved.old < length moved.old.items + length roots.now) }
    ensures space { vec_capacity moved.old ≤ vec_capacity moved.new }
{
    for place in 0..roots.len() {
        let one = roots[place];
        let id = match manager.submit(pass, one.root_stage, one.root_body) {
            Ok(id) => id,
            Err(refusal) => return Err(stop_for(refusal)),
        };
        let named = Moved {
            old: one.id,
            new: id,
            old_root: one.root,
            new_root: id,
            holder: one.holder,
        };
        if moved.push(named).is_err() {
            return Err(Stop::NoMemory);
        }
    }
    Ok(())
}

/// A run of new requests by one pass, copies of these ones' roots. After all of them all passes look
/// together.
pub(crate) fn submit_run(
    manager: &Manager,
    keeper: &mut Keeper,
    passes: &mut [Pass],
    at: usize,
    roots: &[Survivor],
    moved: &mut Vec<Moved>,
) -> Result<(), Stop>
    requires lone { AreLone manager.now keeper.old passes.old }
    requires at { at < length passes.old }
    ensures lone { AreLone manager.now keeper.new passes.new × (keeper.new.given ≡ keeper.old.given) }
    ensures steps { let l = manager.now.limits in
        AllMake (gathered l keeper.old.given (length roots.now * submit_steps l))
        keeper.old passes.old keeper.new passes.new }
    ensures gives { Agrees result (λ _. (moved.new.items, lone manager.now keeper.new passes.new))
        (roots_born at roots.now (moved.old.items, lone manager.now keeper.old passes.old)) }
    ensures memory { IfErr result (λ stop. stop ≡ stops.NoMemory
        → vec_capacity moved.old < length moved.old.items + length roots.now) }
    ensures space { vec_capacity moved.old ≤ vec_capacity moved.new }
{
    let result = submit_each(manager, &mut passes[at], roots, moved);
    keeper.gather(manager, passes);
    result
}

/// The element is claimed.
fn claim_by(
    manager: &Manager,
    keeper: &mut Keeper,
    passes: &mut [Pass],
    at: usize,
    id: u32,
) -> Result<Work, Stop>
    requires lone { AreLone manager.now keeper.old passes.old }
    requires at { at < length passes.old }
    requires free { (pass_at (lone manager.now keeper.old passes.old) at).holding ≡ None }
    ensures lone { AreLone manager.now keeper.new passes.new × (keeper.new.given ≡ keeper.old.given) }
    ensures busy { OnOk result (IsSome (pass_at (lone manager.now keeper.new passes.new) at).holding) }
    ensures steps { let l = manager.now.limits in
        AllMake (gathered l keeper.old.given claim_id_steps)
        keeper.old passes.old keeper.new passes.new }
    ensures gives { Agrees result (λ work. (work, lone manager.now keeper.new passes.new))
        (given (claim_id_of (lone manager.now keeper.old passes.old) at id)) }
    ensures memory { IfErr result (λ stop. stop ≢ stops.NoMemory) }
{
    let answer = manager.claim_id(&mut passes[at], id);
    keeper.gather(manager, passes);
    match answer {
        Ok(work) => Ok(work),
        Err(refusal) => Err(stop_for(refusal)),
    }
}

/// The unit in hand is committed with these drafts. The id of the first.
fn commit_by(
    manager: &Manager,
    keeper: &mut Keeper,
    passes: &mut [Pass],
    at: usize,
    drafts: &[Draft],
) -> Result<u32, Stop>
    requires lone { AreLone manager.now keeper.old passes.old }
    requires at { at < length passes.old }
    requires busy { IsSome (pass_at (lone manager.now keeper.old passes.old) at).holding }
    requires few { length drafts.now ≤ 4 }
    requires some { 1 ≤ length drafts.now }
    ensures lone { AreLone manager.now keeper.new passes.new × (keeper.new.given ≡ keeper.old.given) }
    ensures steps { let l = manager.now.limits in
        AllMake (gathered l keeper.old.given (commit_steps l (length drafts.now)))
        keeper.old passes.old keeper.new passes.new }
    ensures rows { let n = length drafts.now in IfOk result
        (λ first. first + n ≤ rows_of manager.now.limits) }
    ensures gives { Agrees result (λ first. (first, lone manager.now keeper.new passes.new))
        (first_given (commit_of (lone manager.now keeper.old passes.old) at drafts.now)) }
    ensures memory { IfErr result (λ stop. stop ≢ stops.NoMemory) }
{
    let outcome = manager.commit(&mut passes[at], drafts);
    keeper.gather(manager, passes);
    match outcome {
        Outcome::Committed { first, count: _ } => Ok(first),
        Outcome::Lost => Err(Stop::Unequal),
        Outcome::Full => Err(Stop::Full),
    }
}

/// The unit in hand is given up.
fn abort_by(
    manager: &Manager,
    keeper: &mut Keeper,
    passes: &mut [Pass],
    at: usize,
) -> Result<(), Stop>
    requires lone { AreLone manager.now keeper.old passes.old }
    requires at { at < length passes.old }
    requires busy { IsSome (pass_at (lone manager.now keeper.old passes.old) at).holding }
    ensures lone { AreLone manager.now keeper.new passes.new × (keeper.new.given ≡ keeper.old.given) }
    ensures steps { let l = manager.now.limits in
        AllMake (gathered l keeper.old.given abort_steps)
        keeper.old passes.old keeper.new passes.new }
    ensures gives { Agrees result (λ _. lone manager.now keeper.new passes.new)
        (Some (abort_of (lone manager.now keeper.old passes.old) at).1) }
    ensures memory { IfErr result (λ stop. stop ≢ stops.NoMemory) }
{
    let _ = manager.abort(&mut passes[at]);
    keeper.gather(manager, passes);
    Ok(())
}

/// The element is given another round.
pub(crate) fn requeue_by(
    manager: &Manager,
    keeper: &mut Keeper,
    passes: &mut [Pass],
    at: usize,
    id: u32,
) -> Result<(), Stop>
    requires lone { AreLone manager.now keeper.old passes.old }
    requires at { at < length passes.old }
    ensures lone { AreLone manager.now keeper.new passes.new × (keeper.new.given ≡ keeper.old.given) }
    ensures steps { let l = manager.now.limits in
        AllMake (gathered l keeper.old.given requeue_steps)
        keeper.old passes.old keeper.new passes.new }
    ensures gives { Agrees result (λ _. lone manager.now keeper.new passes.new)
        (requeued at id (lone manager.now keeper.old passes.old)) }
    ensures memory { IfErr result (λ stop. stop ≢ stops.NoMemory) }
{
    let answer = manager.requeue(&mut passes[at], id);
    keeper.gather(manager, passes);
    match answer {
        Ok(_round) => Ok(()),
        Err(refusal) => Err(stop_for(refusal)),
    }
}

/// The carrier is claimed, and committed with these drafts. The id of the first.
pub(crate) fn bear_by(
    manager: &Manager,
    keeper: &mut Keeper,
    passes: &mut [Pass],
    at: usize,
    carrier: u32,
    drafts: &[Draft],
) -> Result<u32, Stop>
    requires lone { AreLone manager.now keeper.old passes.old }
    requires at { at < length passes.old }
    requires few { length drafts.now ≤ 4 }
    requires some { 1 ≤ length drafts.now }
    ensures lone { AreLone manager.now keeper.new passes.new × (keeper.new.given ≡ keeper.old.given) }
    ensures rows { let n = length drafts.now in IfOk result
        (λ first. first + n ≤ rows_of manager.now.limits) }
    ensures steps { AllMake (commit_on_steps manager.now.limits keeper.old.given (length drafts.now))
        keeper.old passes.old keeper.new passes.new }
    ensures gives { Agrees result (λ first. (first, lone manager.now keeper.new passes.new))
        (born_by at carrier drafts.now (lone manager.now keeper.old passes.old)) }
    ensures memory { IfErr result (λ stop. stop ≢ stops.NoMemory) }
{
    if passes[at].has_open() {
        return Err(Stop::Unequal);
    }
    claim_by(manager, keeper, passes, at, carrier)?;
    commit_by(manager, keeper, passes, at, drafts)
}

/// The element is claimed, and given up.
pub(crate) fn attempt_by(
    manager: &Manager,
    keeper: &mut Keeper,
    passes: &mut [Pass],
    at: usize,
    id: u32,
) -> Result<(), Stop>
    requires lone { AreLone manager.now keeper.old passes.old }
    requires at { at < length passes.old }
    ensures lone { AreLone manager.now keeper.new passes.new × (keeper.new.given ≡ keeper.old.given) }
    ensures steps { AllMake (attempt_steps manager.now.limits keeper.old.given)
        keeper.old passes.old keeper.new passes.new }
    ensures gives { Agrees result (λ _. lone manager.now keeper.new passes.new)
        (attempted at id (lone manager.now keeper.old passes.old)) }
    ensures memory { IfErr result (λ stop. stop ≢ stops.NoMemory) }
{
    if passes[at].has_open() {
        return Err(Stop::Unequal);
    }
    claim_by(manager, keeper, passes, at, id)?;
    abort_by(manager, keeper, passes, at)
}

/// The element is claimed by the pass that is to hold it.
pub(crate) fn take_by(
    manager: &Manager,
    keeper: &mut Keeper,
    passes: &mut [Pass],
    at: usize,
    id: u32,
) -> Result<(), Stop>
    requires lone { AreLone manager.now keeper.old passes.old }
    requires at { at < length passes.old }
    ensures lone { AreLone manager.now keeper.new passes.new × (keeper.new.given ≡ keeper.old.given) }
    ensures steps { let l = manager.now.limits in
        AllMake (hold_steps l keeper.old.given) keeper.old passes.old keeper.new passes.new }
    ensures gives { Agrees result (λ _. lone manager.now keeper.new passes.new)
        (held_by (length passes.old) (Some at) id (lone manager.now keeper.old passes.old)) }
    ensures memory { IfErr result (λ stop. stop ≢ stops.NoMemory) }
{
    if passes[at].has_open() {
        return Err(Stop::Unequal);
    }
    claim_by(manager, keeper, passes, at, id)?;
    Ok(())
}

/// The unit in hand is given up, if there is one, by the first of the passes.
pub(crate) fn give_up(manager: &Manager, keeper: &mut Keeper, passes: &mut [Pass])
    requires lone { AreLone manager.now keeper.old passes.old }
    requires some { 1 ≤ length passes.old }
    ensures lone { AreLone manager.now keeper.new passes.new × (keeper.new.given ≡ keeper.old.given) }
    ensures steps { let l = manager.now.limits in
        AllMake (give_up_steps l keeper.old.given passes.old) keeper.old passes.old keeper.new passes.new }
    ensures gives { lone manager.now keeper.new passes.new
        ≡ hand_given_up 0 (lone manager.now keeper.old passes.old) }
    ensures free { (pass_at (lone manager.now keeper.new passes.new) 0).holding ≡ None }
{
    if !passes[0].has_open() {
        return;
    }
    let _ = manager.abort(&mut passes[0]);
    keeper.gather(manager, passes);
}
