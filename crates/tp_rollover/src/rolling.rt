//! The rollover.
ghost use Rattle.std.specs.Prelude.{◌≤◌, ◌≡◌, ◌≢◌, ◌+◌, [], All, Err, IfErr, IfOk, OnOk, length, true, false};
ghost use Rattle.std.specs.List.{AllZip};
ghost use Rattle.tp_model.specs.Steps.{AreLimits};
ghost use Rattle.tp_manager.specs.Accounts.{AreAll};
ghost use Rattle.tp_manager.specs.Shown.{IsKeptBy, IsOf};
ghost use Rattle.tp_plain.specs.OneThread.{start};
ghost use Rattle.tp_rollover.specs.Thread.{Stays};
ghost use Rattle.tp_rollover.specs.Answers.{IsReadyToKill, Rolls};
ghost use Rattle.tp_rollover.specs.Bounds.{AllMake, alive_after, give_up_steps, most_new_steps};
ghost use Rattle.tp_rollover.specs.Bounds.{new_steps, old_steps, survey_steps};
ghost use Rattle.tp_rollover.specs.Carries.{AreFresh, Carries, WouldNotFit};
ghost use Rattle.tp_rollover.specs.declared.stops.Stop.TheVariants as stops;
ghost use Rattle.tp_rollover.specs.Lone.{AreLone, lone};
ghost use Rattle.tp_rollover.specs.declared.moved.RollFault.TheVariants as faults;
ghost use Rattle.tp_rollover.specs.Faults.{IsDue, LacksPass};
ghost use Rattle.tp_rollover.specs.Space.{HasSpace, KeepsSpace};

use crate::closing::bury;
use crate::moved::{Moved, RollFault};
use crate::passes::lacks_pass;
use crate::restoring::stand_again;
use crate::space::Space;
use crate::stops::{Stop, fault_anew};
use crate::surveying::find_all;
use std::alloc::Global;
use tp_manager::{Keeper, Manager, Pass};

/// Whether both managers have the same attempt limit.
fn are_alike(old: &Manager, new: &Manager) -> bool
    ensures alike { result ≡ true → new.now.limits.attempts ≡ old.now.limits.attempts }
    ensures other { result ≡ false → new.now.limits.attempts ≢ old.now.limits.attempts }
{
    new.limits().attempts == old.limits().attempts
}

/// All up to the kills: what is alive has been born in the new manager, and was found to stand there as it
/// does in the old one, in which nothing has happened.
fn prepare(
    space: &mut Space,
    old: &Manager,
    old_keeper: &mut Keeper,
    old_passes: &mut [Pass],
    new: &Manager,
    new_keeper: &mut Keeper,
    new_passes: &mut [Pass],
) -> Result<(), Stop>
    requires old_keeper { IsKeptBy old.now old_keeper.old }
    requires new_keeper { IsKeptBy new.now new_keeper.old }
    requires own { All (IsOf old.now) old_passes.old × All (IsOf new.now) new_passes.old }
    requires all { AreAll old_keeper.old old_passes.old × AreAll new_keeper.old new_passes.old }
    requires some { (1 ≤ length old_passes.old) × (1 ≤ length new_passes.old) }
    requires alike { new.now.limits.attempts ≡ old.now.limits.attempts }
    ensures old_keeper { IsKeptBy old.now old_keeper.new × (old_keeper.new.given ≡ old_keeper.old.given) }
    ensures new_keeper { IsKeptBy new.now new_keeper.new × (new_keeper.new.given ≡ new_keeper.old.given) }
    ensures own { All (IsOf old.now) old_passes.new }
    ensures new_own { All (IsOf new.now) new_passes.new }
    ensures all { AreAll old_keeper.new old_passes.new }
    ensures lone { OnOk result (AreLone old.now old_keeper.new old_passes.new) }
    ensures new_all { AreAll new_keeper.new new_passes.new }
    ensures stays { AllZip Stays old_passes.old old_passes.new }
    ensures steps { let n = alive_after old.now.limits.attempts old_keeper.new.seen in
        AllMake (survey_steps old.now.limits old_keeper.old.given n)
        old_keeper.old old_passes.old old_keeper.new old_passes.new
        × AllMake (most_new_steps new.now.limits new_keeper.old.given n)
        new_keeper.old new_passes.old new_keeper.new new_passes.new }
    ensures replayed { OnOk result (AllMake
        (new_steps new.now.limits new_keeper.old.given new_keeper.new.seen space.new.restore.moved.items)
        new_keeper.old new_passes.old new_keeper.new new_passes.new) }
    ensures computed { AreFresh new.now.limits new_passes.old → OnOk result
        (Carries old.now.limits old_passes.old (length new_passes.old) (start new.now.limits)
        space.new.restore.moved.items (lone new.now new_keeper.new new_passes.new)) }
    ensures memory { IfErr result (λ stop. stop ≡ stops.NoMemory
        → ¬ HasSpace old.now.limits new.now.limits space.old) }
    ensures space { KeepsSpace space.old space.new }
    ensures unfit { AreLimits new.now.limits → AreFresh new.now.limits new_passes.old
        → IfErr result (λ stop. stop ≢ stops.NoMemory
        → WouldNotFit old.now.limits old_passes.old (length new_passes.old) (start new.now.limits)) }
    ensures ready { OnOk result
        (IsReadyToKill old.now.limits new.now.limits old_keeper.new new_keeper.new
        old_passes.old old_passes.new new_passes.new space.new.restore.moved.items) }
{
    find_all(&mut space.survey, old, old_keeper, old_passes)?;
    stand_again(
        &mut space.restore,
        old,
        &space.survey.found,
        new,
        new_keeper,
        new_passes,
    )
}

/// What `roll_over` does, in a space that is lent: what was carried over stands there then, and nothing where it
/// is refused. `NoMemory` only where the space is too small for these two managers, and more couldn't be had.
/// It has no less memory then.
pub(crate) fn roll_over_in(
    space: &mut Space,
    old: &Manager,
    old_keeper: &mut Keeper,
    old_passes: &mut [Pass],
    new: &Manager,
    new_keeper: &mut Keeper,
    new_passes: &mut [Pass],
) -> Result<(), RollFault>
    requires old_keeper { IsKeptBy old.now old_keeper.old }
    requires new_keeper { IsKeptBy new.now new_keeper.old }
    requires own { All (IsOf old.now) old_passes.old × All (IsOf new.now) new_passes.old }
    requires all { AreAll old_keeper.old old_passes.old × AreAll new_keeper.old new_passes.old }
    ensures old_keeper { IsKeptBy old.now old_keeper.new × (old_keeper.new.given ≡ old_keeper.old.given) }
    ensures new_keeper { IsKeptBy new.now new_keeper.new × (new_keeper.new.given ≡ new_keeper.old.given) }
    ensures own { All (IsOf old.now) old_passes.new × All (IsOf new.now) new_passes.new }
    ensures all { AreAll old_keeper.new old_passes.new × AreAll new_keeper.new new_passes.new }
    ensures moved { OnOk result (Rolls old.now.limits new.now.limits old_keeper.new new_keeper.new
        old_passes.old old_passes.new new_passes.new space.new.restore.moved.items) }
    ensures computed { AreFresh new.now.limits new_passes.old → OnOk result
        (Carries old.now.limits old_passes.old (length new_passes.old) (start new.now.limits)
        space.new.restore.moved.items (lone new.now new_keeper.new new_passes.new)) }
    ensures refused { IfErr result (λ fault. AllZip Stays old_passes.old old_passes.new) }
    ensures due { IfErr result
        (IsDue old.now.limits new.now.limits old_passes.old new_passes.old) }
    ensures bad_limits { new.now.limits.attempts ≢ old.now.limits.attempts → result ≡ Err faults.BadLimits }
    ensures no_pass { new.now.limits.attempts ≡ old.now.limits.attempts
        → LacksPass old_passes.old new_passes.old
        → result ≡ Err faults.NoPass }
    ensures memory { result ≡ Err faults.NoMemory → ¬ HasSpace old.now.limits new.now.limits space.old }
    ensures space { KeepsSpace space.old space.new }
    ensures nothing { IfErr result (λ fault. space.new.restore.moved.items ≡ []) }
    ensures steps { OnOk result (let n = length space.new.restore.moved.items in
        AllMake (old_steps old.now.limits old_keeper.old.given n
        + give_up_steps old.now.limits old_keeper.old.given old_passes.old)
        old_keeper.old old_passes.old old_keeper.new old_passes.new
        × AllMake (most_new_steps new.now.limits new_keeper.old.given n)
        new_keeper.old new_passes.old new_keeper.new new_passes.new) }
    ensures replayed { OnOk result (AllMake
        (new_steps new.now.limits new_keeper.old.given new_keeper.new.seen space.new.restore.moved.items)
        new_keeper.old new_passes.old new_keeper.new new_passes.new) }
    ensures refused_steps { IfErr result (λ fault.
        let n = alive_after old.now.limits.attempts old_keeper.new.seen in
        AllMake (survey_steps old.now.limits old_keeper.old.given n)
        old_keeper.old old_passes.old old_keeper.new old_passes.new
        × AllMake (most_new_steps new.now.limits new_keeper.old.given n)
        new_keeper.old new_passes.old new_keeper.new new_passes.new) }
{
    if !are_alike(old, new) {
        space.restore.moved.clear();
        return Err(RollFault::BadLimits);
    }
    if lacks_pass(old_passes, new_passes) {
        space.restore.moved.clear();
        return Err(RollFault::NoPass);
    }
    match prepare(
        space, old, old_keeper, old_passes, new, new_keeper, new_passes,
    ) {
        Ok(()) => {
            bury(old, old_keeper, old_passes, &space.restore.moved);
            Ok(())
        }
        Err(stop) => {
            space.restore.moved.clear();
            Err(fault_anew(stop))
        }
    }
}

/// All that is alive in the old manager, each element once, goes on in the new one, and nothing else does.
/// What each is there, in the order of their ids, which is the same in both managers. What a pass of the old
/// one held, the pass of the same number has in hand in the new one, in the same attempt; no other pass there
/// has a unit open, so one whose unit was lost has none. In the old one all is consumed or killed then: its
/// first pass has given up what it had in hand, and the others have still to end their units, which were
/// aborted. The slices hold every pass of their manager that was given out, in order of number
/// (`Keeper::has_all` tests this), and in the new one nothing has happened. Where it fails, nothing has
/// changed in the old manager, and the new one is to be given up.
pub fn roll_over(
    alloc: Global,
    old: &Manager,
    old_keeper: &mut Keeper,
    old_passes: &mut [Pass],
    new: &Manager,
    new_keeper: &mut Keeper,
    new_passes: &mut [Pass],
) -> Result<Vec<Moved>, RollFault>
    requires old_keeper { IsKeptBy old.now old_keeper.old }
    requires new_keeper { IsKeptBy new.now new_keeper.old }
    requires own { All (IsOf old.now) old_passes.old × All (IsOf new.now) new_passes.old }
    requires all { AreAll old_keeper.old old_passes.old × AreAll new_keeper.old new_passes.old }
    ensures old_keeper { IsKeptBy old.now old_keeper.new × (old_keeper.new.given ≡ old_keeper.old.given) }
    ensures new_keeper { IsKeptBy new.now new_keeper.new × (new_keeper.new.given ≡ new_keeper.old.given) }
    ensures own { All (IsOf old.now) old_passes.new × All (IsOf new.now) new_passes.new }
    ensures all { AreAll old_keeper.new old_passes.new × AreAll new_keeper.new new_passes.new }
    ensures moved { IfOk result (λ moved. Rolls old.now.limits new.now.limits old_keeper.new new_keeper.new
        old_passes.old old_passes.new new_passes.new moved.items) }
    ensures computed { AreFresh new.now.limits new_passes.old → IfOk result (λ moved.
        Carries old.now.limits old_passes.old (length new_passes.old) (start new.now.limits) moved.items
        (lone new.now new_keeper.new new_passes.new)) }
    ensures refused { IfErr result (λ fault. AllZip Stays old_passes.old old_passes.new) }
    ensures due { IfErr result
        (IsDue old.now.limits new.now.limits old_passes.old new_passes.old) }
    ensures bad_limits { new.now.limits.attempts ≢ old.now.limits.attempts → result ≡ Err faults.BadLimits }
    ensures no_pass { new.now.limits.attempts ≡ old.now.limits.attempts
        → LacksPass old_passes.old new_passes.old
        → result ≡ Err faults.NoPass }
    ensures steps { IfOk result (λ moved. let n = length moved.items in
        AllMake (old_steps old.now.limits old_keeper.old.given n
        + give_up_steps old.now.limits old_keeper.old.given old_passes.old)
        old_keeper.old old_passes.old old_keeper.new old_passes.new
        × AllMake (most_new_steps new.now.limits new_keeper.old.given n)
        new_keeper.old new_passes.old new_keeper.new new_passes.new) }
    ensures replayed { IfOk result (λ moved.
        AllMake (new_steps new.now.limits new_keeper.old.given new_keeper.new.seen moved.items)
        new_keeper.old new_passes.old new_keeper.new new_passes.new) }
    ensures refused_steps { IfErr result (λ fault.
        let n = alive_after old.now.limits.attempts old_keeper.new.seen in
        AllMake (survey_steps old.now.limits old_keeper.old.given n)
        old_keeper.old old_passes.old old_keeper.new old_passes.new
        × AllMake (most_new_steps new.now.limits new_keeper.old.given n)
        new_keeper.old new_passes.old new_keeper.new new_passes.new) }
{
    let mut space = Space::empty(alloc);
    match roll_over_in(
        &mut space, old, old_keeper, old_passes, new, new_keeper, new_passes,
    ) {
        Ok(()) => Ok(space.into_moved()),
        Err(fault) => Err(fault),
    }
}
