//! A survey of a manager: what is alive there, described.
ghost use Rattle.std.specs.Prelude.{◌≡◌, ◌↔◌, ◌+◌, ◌*◌, ◌≤◌, [], All, Err, IfErr, IfOk, OnOk, length};
ghost use Rattle.std.specs.List.{AllZip};
ghost use Rattle.tp_model.specs.Steps.{IsLegal, rows_of};
ghost use Rattle.tp_manager.specs.Accounts.{AreAll};
ghost use Rattle.tp_manager.specs.Shown.{IsKeptBy, IsOf};
ghost use Rattle.tp_rollover.specs.Thread.{AreTogether, Stays};
ghost use Rattle.tp_rollover.specs.Answers.{IsHistoryOf};
ghost use Rattle.tp_rollover.specs.Bounds.{AllMake, PassMakes, PassesMake, alive_after, describe_steps};
ghost use Rattle.tp_rollover.specs.Bounds.{search_steps, survey_steps};
ghost use Rattle.tp_rollover.specs.Faults.{IsSurveyDue};
ghost use Rattle.tp_rollover.specs.Finding.{AreSurvivorsOf, StopsFirst, StopsLooking};
ghost use Rattle.tp_rollover.specs.Space.{HasSurveySpace, KeepsSurveySpace};
ghost use Rattle.tp_rollover.specs.Survivors.{AreInHand, AreSurvivors};
ghost use Rattle.tp_rollover.specs.Told.{HoldsAsSeen, ToldFirst};
ghost use Rattle.tp_rollover.specs.declared.moved.RollFault.TheVariants as faults;
ghost use Rattle.tp_rollover.specs.declared.stops.Stop.TheVariants as stops;

use crate::alive::{alive_in, find_alive};
use crate::moved::RollFault;
use crate::space::SurveySpace;
use crate::stops::Stop;
use crate::survivors::{Survivor, describe_all};
use std::alloc::Global;
use tp_manager::{Keeper, Manager, Pass};

/// All that is alive, described, where there are so many.
fn find_by(
    space: &mut SurveySpace,
    manager: &Manager,
    pass: &mut Pass,
    count: usize,
) -> Result<(), Stop>
    requires own { IsOf manager.now pass.old }
    ensures own { IsOf manager.now pass.new }
    ensures stays { Stays pass.old pass.new }
    ensures steps { let l = manager.now.limits in
        PassMakes (search_steps l count + count * describe_steps l) pass.old pass.new }
    ensures stops { IfErr result (StopsLooking pass.old pass.new (IsLegal manager.now.limits)) }
    ensures few { OnOk result (length space.new.found.items ≤ count) }
    ensures rows { OnOk result (length space.new.found.items ≤ rows_of manager.now.limits) }
    ensures memory { IfErr result (λ stop. stop ≡ stops.NoMemory
        → ¬ HasSurveySpace manager.now.limits space.old) }
    ensures space { KeepsSurveySpace space.old space.new }
    ensures told { OnOk result (HoldsAsSeen pass.old pass.new
        (λ h. AreSurvivorsOf manager.now.limits count h space.new.found.items)) }
{
    find_alive(&mut space.ids, manager, pass, count)?;
    describe_all(&mut space.found, manager, pass, &space.ids)
}

/// The same, by the first of the passes.
fn find(
    space: &mut SurveySpace,
    manager: &Manager,
    passes: &mut [Pass],
    count: usize,
) -> Result<(), Stop>
    requires own { All (IsOf manager.now) passes.old }
    requires some { 1 ≤ length passes.old }
    ensures own { All (IsOf manager.now) passes.new }
    ensures stays { AllZip Stays passes.old passes.new }
    ensures steps { let l = manager.now.limits in
        PassesMake (search_steps l count + count * describe_steps l) passes.old passes.new }
    ensures stops { IfErr result (StopsFirst passes.old passes.new (IsLegal manager.now.limits)) }
    ensures few { OnOk result (length space.new.found.items ≤ count) }
    ensures rows { OnOk result (length space.new.found.items ≤ rows_of manager.now.limits) }
    ensures memory { IfErr result (λ stop. stop ≡ stops.NoMemory
        → ¬ HasSurveySpace manager.now.limits space.old) }
    ensures space { KeepsSurveySpace space.old space.new }
    ensures told { OnOk result (ToldFirst passes.old passes.new
        (λ h. AreSurvivorsOf manager.now.limits count h space.new.found.items)) }
{
    let Some((first, _rest)) = passes.split_first_mut() else {
        unreachable!();
    };
    find_by(space, manager, first, count)
}

/// All that is alive, described, once all passes have gathered. Each pass that holds an element has a unit
/// open.
pub(crate) fn find_all(
    space: &mut SurveySpace,
    manager: &Manager,
    keeper: &mut Keeper,
    passes: &mut [Pass],
) -> Result<(), Stop>
    requires keeper { IsKeptBy manager.now keeper.old }
    requires own { All (IsOf manager.now) passes.old }
    requires all { AreAll keeper.old passes.old }
    requires some { 1 ≤ length passes.old }
    ensures keeper { IsKeptBy manager.now keeper.new × (keeper.new.given ≡ keeper.old.given) }
    ensures own { All (IsOf manager.now) passes.new }
    ensures all { AreAll keeper.new passes.new }
    ensures stays { AllZip Stays passes.old passes.new }
    ensures steps { let l = manager.now.limits in
        AllMake (survey_steps l keeper.old.given (alive_after l.attempts keeper.new.seen))
        keeper.old passes.old keeper.new passes.new }
    ensures alone { IfErr result (λ stop. stop ≡ stops.NoMemory) }
    ensures memory { IfErr result (λ stop. stop ≡ stops.NoMemory
        → ¬ HasSurveySpace manager.now.limits space.old) }
    ensures space { KeepsSurveySpace space.old space.new }
    ensures few { OnOk result
        (length space.new.found.items ≤ alive_after manager.now.limits.attempts keeper.new.seen) }
    ensures rows { OnOk result (length space.new.found.items ≤ rows_of manager.now.limits) }
    ensures found { OnOk result
        (AreSurvivors manager.now.limits keeper.new.seen space.new.found.items) }
    ensures in_hand { OnOk result (AreInHand passes.old space.new.found.items) }
    ensures history { IsHistoryOf keeper.new passes.old keeper.new.seen }
    ensures together { AreTogether manager.now.limits keeper.new passes.new keeper.new.seen }
    ensures some { 1 ≤ length passes.new }
{
    let account = keeper.account(manager, passes);
    let count = alive_in(&account);
    let found = find(space, manager, passes, count);
    keeper.gather(manager, passes);
    found
}

/// What `survey` finds, in a space that is lent: it stands in `space.found` then. `NoPass` exactly where no
/// pass was given out; `NoMemory` only where the space is too small for this manager, and more couldn't be
/// had. It has no less memory then.
pub(crate) fn survey_in(
    space: &mut SurveySpace,
    manager: &Manager,
    keeper: &mut Keeper,
    passes: &mut [Pass],
) -> Result<(), RollFault>
    requires keeper { IsKeptBy manager.now keeper.old }
    requires own { All (IsOf manager.now) passes.old }
    requires all { AreAll keeper.old passes.old }
    ensures keeper { IsKeptBy manager.now keeper.new × (keeper.new.given ≡ keeper.old.given) }
    ensures own { All (IsOf manager.now) passes.new }
    ensures all { AreAll keeper.new passes.new }
    ensures stays { AllZip Stays passes.old passes.new }
    ensures found { OnOk result (AreSurvivors manager.now.limits keeper.new.seen space.new.found.items) }
    ensures in_hand { OnOk result (AreInHand passes.old space.new.found.items) }
    ensures history { OnOk result (IsHistoryOf keeper.new passes.old keeper.new.seen) }
    ensures together { OnOk result (AreTogether manager.now.limits keeper.new passes.new keeper.new.seen) }
    ensures due { IfErr result (IsSurveyDue passes.old) }
    ensures no_pass { (result ≡ Err faults.NoPass) ↔ (passes.old ≡ []) }
    ensures memory { result ≡ Err faults.NoMemory → ¬ HasSurveySpace manager.now.limits space.old }
    ensures space { KeepsSurveySpace space.old space.new }
    ensures steps { let l = manager.now.limits in
        AllMake (survey_steps l keeper.old.given (alive_after l.attempts keeper.new.seen))
        keeper.old passes.old keeper.new passes.new }
{
    if passes.len() == 0 {
        return Err(RollFault::NoPass);
    }
    match find_all(space, manager, keeper, passes) {
        Ok(()) => Ok(()),
        Err(Stop::NoMemory) => Err(RollFault::NoMemory),
        Err(Stop::Full) => unreachable!(),
        Err(Stop::Unequal) => unreachable!(),
    }
}

/// All that is alive, each element once, by ascending ids, with all that another manager needs to go on with
/// it (`restore`), and with the number of the pass that has it in hand, if one has. The slice holds every
/// pass of the manager that was given out, in order of number (`Keeper::has_all` tests this). They have done
/// nothing but look, and have gathered. A pass whose unit was lost, since what it took was killed, cancelled
/// or released, holds none of these. `NoPass` exactly where no pass was given out; `NoMemory`.
pub fn survey(
    alloc: Global,
    manager: &Manager,
    keeper: &mut Keeper,
    passes: &mut [Pass],
) -> Result<Vec<Survivor>, RollFault>
    requires keeper { IsKeptBy manager.now keeper.old }
    requires own { All (IsOf manager.now) passes.old }
    requires all { AreAll keeper.old passes.old }
    ensures keeper { IsKeptBy manager.now keeper.new × (keeper.new.given ≡ keeper.old.given) }
    ensures own { All (IsOf manager.now) passes.new }
    ensures all { AreAll keeper.new passes.new }
    ensures stays { AllZip Stays passes.old passes.new }
    ensures found { IfOk result (λ found. AreSurvivors manager.now.limits keeper.new.seen found.items) }
    ensures in_hand { IfOk result (λ found. AreInHand passes.old found.items) }
    ensures history { OnOk result (IsHistoryOf keeper.new passes.old keeper.new.seen) }
    ensures together { OnOk result (AreTogether manager.now.limits keeper.new passes.new keeper.new.seen) }
    ensures due { IfErr result (IsSurveyDue passes.old) }
    ensures no_pass { (result ≡ Err faults.NoPass) ↔ (passes.old ≡ []) }
    ensures steps { let l = manager.now.limits in
        AllMake (survey_steps l keeper.old.given (alive_after l.attempts keeper.new.seen))
        keeper.old passes.old keeper.new passes.new }
{
    let mut space = SurveySpace::empty(alloc);
    match survey_in(&mut space, manager, keeper, passes) {
        Ok(()) => Ok(space.into_found()),
        Err(fault) => Err(fault),
    }
}
