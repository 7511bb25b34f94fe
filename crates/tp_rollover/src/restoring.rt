//! What was described is made alive in a manager in which nothing has happened.
ghost use Rattle.std.specs.Prelude.{◌≡◌, ◌↔◌, ◌+◌, ◌*◌, ◌≤◌, [], All, Err, IfErr, IfOk, OnOk, length};
ghost use Rattle.std.specs.Prelude.{vec_capacity};
ghost use Rattle.std.specs.List.{AllZip};
ghost use Rattle.tp_manager.specs.Accounts.{AreAll};
ghost use Rattle.tp_manager.specs.Shown.{IsKeptBy, IsOf};
ghost use Rattle.tp_plain.specs.OneThread.{start};
ghost use Rattle.tp_rollover.specs.Thread.{AreTogether, Stays};
ghost use Rattle.tp_rollover.specs.Alike.{StandAlike, StandUnheld};
ghost use Rattle.tp_rollover.specs.Anew.{made_anew, made_unheld};
ghost use Rattle.tp_rollover.specs.Finding.{StopsFirst, StopsLooking};
ghost use Rattle.tp_rollover.specs.Bounds.{AllMake, PassMakes, PassesMake, compare_steps, most_new_steps};
ghost use Rattle.tp_rollover.specs.Bounds.{IsWithinLimits, new_steps, unheld_steps};
ghost use Rattle.tp_rollover.specs.Carries.{AreFresh, DiffersAnew, IsAsComputed};
ghost use Rattle.tp_rollover.specs.Faults.{IsRestoreDue};
ghost use Rattle.tp_rollover.specs.Lone.{AgreesUnless, lone};
ghost use Rattle.tp_rollover.specs.Space.{AreWithin, HasRestoreSpace, KeepsRestoreSpace};
ghost use Rattle.tp_rollover.specs.Survivors.{Restores};
ghost use Rattle.tp_rollover.specs.Told.{HoldsAsSeen, ToldFirst};
ghost use Rattle.tp_rollover.specs.declared.moved.RollFault.TheVariants as faults;
ghost use Rattle.tp_rollover.specs.declared.stops.Stop.TheVariants as stops;

use crate::births::bear_all;
use crate::checking::{all_stand_again, are_within, ascend, counts_only};
use crate::families::are_families;
use crate::holds::hold_all;
use crate::moved::{Moved, RollFault};
use crate::passes::has_open;
use crate::replays::replay_all;
use crate::space::RestoreSpace;
use crate::stops::{Stop, fault_of};
use crate::survivors::Survivor;
use std::alloc::Global;
use tp_manager::{Keeper, Manager, Pass};

/// Whether all stand as they were described. `Unequal` where not.
fn hold_by(
    space: &mut RestoreSpace,
    survivors: &[Survivor],
    manager: &Manager,
    pass: &mut Pass,
) -> Result<(), Stop>
    requires own { IsOf manager.now pass.old }
    ensures own { IsOf manager.now pass.new }
    ensures stays { Stays pass.old pass.new }
    ensures steps { PassMakes (length survivors.now * compare_steps manager.now.limits) pass.old pass.new }
    ensures told { OnOk result (HoldsAsSeen pass.old pass.new
        (λ g. StandAlike manager.now.limits.attempts g survivors.now space.new.moved.items)) }
    ensures stops { IfErr result (StopsLooking pass.old pass.new
        (λ g. StandAlike manager.now.limits.attempts g survivors.now space.new.moved.items)) }
    ensures memory { IfErr result (λ stop. stop ≡ stops.NoMemory → ¬ AreWithin
        (vec_capacity space.old.new_roots) (vec_capacity space.old.old_roots) space.old.moved.items) }
    ensures space { KeepsRestoreSpace space.old space.new }
    ensures moved { space.new.moved.items ≡ space.old.moved.items }
{
    if !ascend(&space.moved) {
        return Err(Stop::Unequal);
    }
    let Ok(families) = are_families(&space.moved, &mut space.new_roots, &mut space.old_roots) else {
        return Err(Stop::NoMemory);
    };
    if !families {
        return Err(Stop::Unequal);
    }
    if !all_stand_again(manager, pass, survivors, &space.moved) {
        return Err(Stop::Unequal);
    }
    Ok(())
}

/// The same, by the first of the passes.
fn hold(
    space: &mut RestoreSpace,
    survivors: &[Survivor],
    manager: &Manager,
    passes: &mut [Pass],
) -> Result<(), Stop>
    requires own { All (IsOf manager.now) passes.old }
    requires some { 1 ≤ length passes.old }
    ensures own { All (IsOf manager.now) passes.new }
    ensures stays { AllZip Stays passes.old passes.new }
    ensures steps { let n = length survivors.now in
        PassesMake (n * compare_steps manager.now.limits) passes.old passes.new }
    ensures told { OnOk result (ToldFirst passes.old passes.new
        (λ g. StandAlike manager.now.limits.attempts g survivors.now space.new.moved.items)) }
    ensures stops { IfErr result (StopsFirst passes.old passes.new
        (λ g. StandAlike manager.now.limits.attempts g survivors.now space.new.moved.items)) }
    ensures memory { IfErr result (λ stop. stop ≡ stops.NoMemory → ¬ AreWithin
        (vec_capacity space.old.new_roots) (vec_capacity space.old.old_roots) space.old.moved.items) }
    ensures space { KeepsRestoreSpace space.old space.new }
    ensures moved { space.new.moved.items ≡ space.old.moved.items }
{
    let Some((first, _rest)) = passes.split_first_mut() else {
        unreachable!();
    };
    hold_by(space, survivors, manager, first)
}

/// All that was described, each element once, stands in this manager as it did in `of`, but that what was
/// held waits as it did before. `space.moved` is what each is there.
fn stand_unheld(
    space: &mut RestoreSpace,
    of: &Manager,
    survivors: &[Survivor],
    manager: &Manager,
    keeper: &mut Keeper,
    passes: &mut [Pass],
) -> Result<(), Stop>
    requires keeper { IsKeptBy manager.now keeper.old }
    requires own { All (IsOf manager.now) passes.old }
    requires all { AreAll keeper.old passes.old }
    requires some { 1 ≤ length passes.old }
    ensures keeper { IsKeptBy manager.now keeper.new × (keeper.new.given ≡ keeper.old.given) }
    ensures own { All (IsOf manager.now) passes.new }
    ensures all { AreAll keeper.new passes.new }
    ensures parts { length passes.old ≤ manager.now.limits.parts }
    ensures together { OnOk result (AreTogether manager.now.limits keeper.new passes.new keeper.new.seen) }
    ensures memory { IfErr result (λ stop. stop ≡ stops.NoMemory
        → ¬ HasRestoreSpace of.now.limits manager.now.limits (length survivors.now) space.old) }
    ensures space { KeepsRestoreSpace space.old space.new }
    ensures restored { OnOk result
        (StandUnheld manager.now.limits keeper.new.seen survivors.now space.new.moved.items) }
    ensures computed { AreFresh manager.now.limits passes.old → AgreesUnless
        (DiffersAnew of.now.limits (length passes.old) survivors.now (start manager.now.limits)) result
        (λ _. (space.new.moved.items, lone manager.now keeper.new passes.new))
        (made_unheld of.now.limits (length passes.old) survivors.now (start manager.now.limits)) }
    ensures within { OnOk result (All (IsWithinLimits manager.now.limits) survivors.now) }
    ensures steps { AllMake (most_new_steps manager.now.limits keeper.old.given (length survivors.now))
        keeper.old passes.old keeper.new passes.new }
    ensures replayed { OnOk result
        (AllMake (unheld_steps manager.now.limits keeper.old.given survivors.now)
        keeper.old passes.old keeper.new passes.new) }
{
    keeper.gather(manager, passes);
    bear_all(
        &mut space.moved,
        &mut space.families,
        of,
        survivors,
        manager,
        keeper,
        passes,
    )?;
    replay_all(manager, keeper, passes, survivors, &space.moved)?;
    let account = keeper.account(manager, passes);
    if !counts_only(&account, &space.moved) {
        return Err(Stop::Unequal);
    }
    if !are_within(of, manager, &space.moved) {
        return Err(Stop::Unequal);
    }
    let held = hold(space, survivors, manager, passes);
    keeper.gather(manager, passes);
    match held {
        Ok(()) => Ok(()),
        Err(stop) => Err(stop),
    }
}

/// All that was described, each element once, stands in this manager as it did in `of`, each that was held in
/// the hand of the pass of the same number. `space.moved` is what each is there.
pub(crate) fn stand_again(
    space: &mut RestoreSpace,
    of: &Manager,
    survivors: &[Survivor],
    manager: &Manager,
    keeper: &mut Keeper,
    passes: &mut [Pass],
) -> Result<(), Stop>
    requires keeper { IsKeptBy manager.now keeper.old }
    requires own { All (IsOf manager.now) passes.old }
    requires all { AreAll keeper.old passes.old }
    requires some { 1 ≤ length passes.old }
    ensures keeper { IsKeptBy manager.now keeper.new × (keeper.new.given ≡ keeper.old.given) }
    ensures own { All (IsOf manager.now) passes.new }
    ensures all { AreAll keeper.new passes.new }
    ensures parts { length passes.old ≤ manager.now.limits.parts }
    ensures memory { IfErr result (λ stop. stop ≡ stops.NoMemory
        → ¬ HasRestoreSpace of.now.limits manager.now.limits (length survivors.now) space.old) }
    ensures space { KeepsRestoreSpace space.old space.new }
    ensures restored { OnOk result
        (Restores manager.now.limits keeper.new passes.new survivors.now space.new.moved.items) }
    ensures computed { AreFresh manager.now.limits passes.old → AgreesUnless
        (DiffersAnew of.now.limits (length passes.old) survivors.now (start manager.now.limits)) result
        (λ _. (space.new.moved.items, lone manager.now keeper.new passes.new))
        (made_anew of.now.limits (length passes.old) survivors.now (start manager.now.limits)) }
    ensures steps { AllMake (most_new_steps manager.now.limits keeper.old.given (length survivors.now))
        keeper.old passes.old keeper.new passes.new }
    ensures replayed { OnOk result
        (AllMake (new_steps manager.now.limits keeper.old.given keeper.new.seen space.new.moved.items)
        keeper.old passes.old keeper.new passes.new) }
{
    stand_unheld(space, of, survivors, manager, keeper, passes)?;
    if has_open(passes) {
        return Err(Stop::Unequal);
    }
    hold_all(manager, keeper, passes, survivors, &space.moved)?;
    Ok(())
}

/// What was described (`survey`), each element once, is made alive in this manager, and nothing else is. What
/// each is there, in their order. Each goes on as an element of the pass in whose part it was, by the limits
/// of this manager. What a pass held, the pass of the same number has in hand, in the same attempt; no other
/// pass has a unit open. The slice holds every pass of the manager that was given out, in order of number,
/// and in it nothing has happened. Where it fails the manager is to be given up: `NoPass` exactly where no
/// pass was given out, `Full` where it has not the rows or the units, `Unequal` where the descriptions
/// contradict each other or these limits: they aren't fit, or what is computed of them isn't as they say;
/// `NoMemory`.
pub fn restore(
    alloc: Global,
    manager: &Manager,
    keeper: &mut Keeper,
    passes: &mut [Pass],
    survivors: &[Survivor],
) -> Result<Vec<Moved>, RollFault>
    requires keeper { IsKeptBy manager.now keeper.old }
    requires own { All (IsOf manager.now) passes.old }
    requires all { AreAll keeper.old passes.old }
    ensures keeper { IsKeptBy manager.now keeper.new × (keeper.new.given ≡ keeper.old.given) }
    ensures own { All (IsOf manager.now) passes.new }
    ensures all { AreAll keeper.new passes.new }
    ensures restored { IfOk result (λ moved.
        Restores manager.now.limits keeper.new passes.new survivors.now moved.items) }
    ensures computed { AreFresh manager.now.limits passes.old → IsAsComputed result
        (λ moved. (moved.items, lone manager.now keeper.new passes.new))
        (made_anew manager.now.limits (length passes.old) survivors.now (start manager.now.limits)) }
    ensures due { IfErr result (IsRestoreDue manager.now.limits survivors.now passes.old) }
    ensures no_pass { (result ≡ Err faults.NoPass) ↔ (passes.old ≡ []) }
    ensures steps { AllMake (most_new_steps manager.now.limits keeper.old.given (length survivors.now))
        keeper.old passes.old keeper.new passes.new }
    ensures replayed { IfOk result (λ moved.
        AllMake (new_steps manager.now.limits keeper.old.given keeper.new.seen moved.items)
        keeper.old passes.old keeper.new passes.new) }
{
    if passes.len() == 0 {
        return Err(RollFault::NoPass);
    }
    let mut space = RestoreSpace::empty(alloc);
    match stand_again(&mut space, manager, survivors, manager, keeper, passes) {
        Ok(()) => Ok(space.into_moved()),
        Err(stop) => Err(fault_of(stop)),
    }
}
