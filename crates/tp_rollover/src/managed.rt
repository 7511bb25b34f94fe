//! A manager with its keeper and all its passes, which goes on in a new one by itself.
ghost use Rattle.std.specs.Prelude.{◌≡◌, ◌↔◌, ◌+◌, ◌≤◌, All, Err, IfErr, IfOk, IsOk, OnOk, [], length};
ghost use Rattle.std.specs.Prelude.{vec_capacity};
ghost use Rattle.std.specs.List.{AllZip};
ghost use Rattle.tp_model.specs.Steps.{AreLimits};
ghost use Rattle.tp_manager.specs.Accounts.{AreAll};
ghost use Rattle.tp_manager.specs.Shown.{IsKeptBy, IsOf};
ghost use Rattle.tp_manager.specs.declared.manager.MakeFault.TheVariants as faults;
ghost use Rattle.tp_plain.specs.OneThread.{start};
ghost use Rattle.tp_rollover.specs.Thread.{AreTogether, Stays, thread_of};
ghost use Rattle.tp_rollover.specs.declared.moved.RollFault.TheVariants as refusals;
ghost use Rattle.tp_rollover.specs.Anew.{made_anew};
ghost use Rattle.tp_rollover.specs.Answers.{IsHistoryOf, Rolls};
ghost use Rattle.tp_rollover.specs.Bounds.{AllMake, alive_after, give_up_steps, made_by_all};
ghost use Rattle.tp_rollover.specs.Bounds.{most_successor_steps, old_steps, survey_steps, successor_steps};
ghost use Rattle.tp_rollover.specs.Carries.{Carries, IsAsComputed, IsUnlike};
ghost use Rattle.tp_rollover.specs.Faults.{AreFree};
ghost use Rattle.tp_rollover.specs.Managed.{GoesOnAnew, IsManaged, IsNewManaged, IsNewPass, IsRefusedFor};
ghost use Rattle.tp_rollover.specs.Managed.{FindsRoom, IsUnrestored, IsUnsurveyed, StaysManaged};
ghost use Rattle.tp_rollover.specs.Space.{HasSpace, HasSurveySpace, KeepsSpace, KeepsSurveySpace};
ghost use Rattle.tp_rollover.specs.Survivors.{AreInHand, AreSurvivors, Restores};

use crate::moved::{Moved, RollFault};
use crate::restoring::restore;
use crate::rolling::roll_over_in;
use crate::space::{Space, SurveySpace};
use crate::surveying::{survey, survey_in};
use crate::survivors::Survivor;
use std::alloc::{AllocError, Global};
use tp_manager::{Keeper, MakeFault, Manager, Pass};
use tp_model::types::Limits;

/// A manager, its keeper, and all its passes, in order of number.
#[derive(Drop)]
pub struct Managed {
    pub manager: Manager,
    pub keeper: Keeper,
    pub passes: Vec<Pass>,
}

/// The manager that follows on one that is used up, and what was carried over.
#[derive(Drop)]
pub struct Successor {
    pub managed: Managed,
    pub moved: Vec<Moved>,
}

/// All passes of a new keeper.
fn all_passes(
    alloc: Global,
    manager: &Manager,
    keeper: &mut Keeper,
) -> Result<Vec<Pass>, AllocError>
    requires keeper { IsKeptBy manager.now keeper.old }
    requires fresh { (keeper.old.given ≡ 0) × (keeper.old.seen ≡ []) }
    ensures keeper { IsKeptBy manager.now keeper.new × (keeper.new.seen ≡ []) }
    ensures own { IfOk result (λ passes. All (IsOf manager.now) passes.items) }
    ensures given { IfOk result (λ passes. AreAll keeper.new passes.items) }
    ensures new { IfOk result (λ passes. All IsNewPass passes.items) }
    ensures all { IfOk result (λ passes. length passes.items ≡ manager.now.limits.parts) }
    ensures room { IfOk result (λ passes. manager.now.limits.parts ≤ vec_capacity passes) }
    ensures steps { IfOk result (λ passes.
        made_by_all keeper.new passes.items ≡ keeper.old.steps + manager.now.limits.parts) }
{
    let mut passes = Vec::with_capacity(alloc, usize::from(manager.limits().parts))?;
    while let Ok(pass) = keeper.pass(manager) {
        passes.push(pass)?;
    }
    Ok(passes)
}

/// What is alive in this manager goes on in `next`, a new one with the same limits, in a space that is lent.
fn succeed_in(
    space: &mut Space,
    old: &Manager,
    old_keeper: &mut Keeper,
    old_passes: &mut [Pass],
    next: Managed,
) -> Result<Managed, RollFault>
    requires keeper { IsKeptBy old.now old_keeper.old }
    requires limits { AreLimits old.now.limits }
    requires own { All (IsOf old.now) old_passes.old }
    requires all { AreAll old_keeper.old old_passes.old }
    requires parts { length old_passes.old ≡ old.now.limits.parts }
    requires next { IsNewManaged old.now.limits next }
    ensures keeper { IsKeptBy old.now old_keeper.new × (old_keeper.new.given ≡ old_keeper.old.given) }
    ensures own { All (IsOf old.now) old_passes.new }
    ensures all { AreAll old_keeper.new old_passes.new }
    ensures managed { IfOk result IsManaged }
    ensures limits { IfOk result (λ next. next.manager.limits ≡ old.now.limits) }
    ensures rolls { IfOk result (λ next. Rolls old.now.limits next.manager.limits old_keeper.new next.keeper
        old_passes.old old_passes.new next.passes.items space.new.restore.moved.items) }
    ensures carries { IfOk result (λ next. let l = old.now.limits in
        Carries l old_passes.old l.parts (start l) space.new.restore.moved.items
        (thread_of l next.passes.items next.keeper.seen)) }
    ensures stays { IfErr result (λ fault. AllZip Stays old_passes.old old_passes.new) }
    ensures fault { IfErr result (IsRefusedFor old.now.limits old_passes.old) }
    ensures memory { result ≡ Err refusals.NoMemory → ¬ HasSpace old.now.limits old.now.limits space.old }
    ensures space { KeepsSpace space.old space.new }
    ensures nothing { IfErr result (λ fault. space.new.restore.moved.items ≡ []) }
    ensures steps { IfOk result (λ next. let n = length space.new.restore.moved.items in
        let l = old.now.limits in
        AllMake (old_steps l l.parts n + give_up_steps l l.parts old_passes.old)
        old_keeper.old old_passes.old old_keeper.new old_passes.new
        × (made_by_all next.keeper next.passes.items ≤ most_successor_steps l n)) }
    ensures replayed { IfOk result (λ next. made_by_all next.keeper next.passes.items
        ≤ successor_steps old.now.limits next.keeper.seen space.new.restore.moved.items) }
    ensures refused_steps { IfErr result (λ fault. let l = old.now.limits in
        let n = alive_after l.attempts old_keeper.new.seen in
        AllMake (survey_steps l l.parts n) old_keeper.old old_passes.old old_keeper.new old_passes.new) }
{
    let mut new = next;
    match roll_over_in(
        space,
        old,
        old_keeper,
        old_passes,
        &new.manager,
        &mut new.keeper,
        &mut new.passes,
    ) {
        Ok(()) => Ok(new),
        Err(fault) => Err(fault),
    }
}

impl Managed {
    /// A manager with these limits, its keeper and all its passes. `BadLimits` where a limit is outside its
    /// range, `NoMemory` only where the allocator refused.
    pub fn new(alloc: Global, limits: Limits) -> Result<Managed, MakeFault>
        ensures managed { IfOk result IsManaged }
        ensures limits { IfOk result (λ made. made.manager.limits ≡ limits) }
        ensures seen { IfOk result (λ made. made.keeper.seen ≡ []) }
        ensures free { IfOk result (λ made. AreFree made.passes.items) }
        ensures new { IfOk result (λ made. All IsNewPass made.passes.items) }
        ensures room { IfOk result (λ made. limits.parts ≤ vec_capacity made.passes) }
        ensures steps { IfOk result (λ made. made_by_all made.keeper made.passes.items ≡ limits.parts) }
        ensures bad { (result ≡ Err faults.BadLimits) ↔ (¬ AreLimits limits) }
        ensures part { ¬ (result ≡ Err faults.NoPart) }
    {
        let (manager, mut keeper) = Keeper::new(alloc, limits)?;
        let Ok(passes) = all_passes(alloc, &manager, &mut keeper) else {
            return Err(MakeFault::NoMemory);
        };
        Ok(Managed {
            manager,
            keeper,
            passes,
        })
    }

    /// What is alive, each element once, goes on in a new manager with the same limits, and nothing else
    /// does. What each is there, in the order of their ids, which is the same in both managers, and what a
    /// pass has in hand goes on in its hand (`roll_over`). Where it is refused, the manager is the same, and
    /// its passes have done nothing but look.
    pub fn roll_over(&mut self, alloc: Global) -> Result<Vec<Moved>, RollFault>
        requires managed { IsManaged self.old }
        ensures managed { IsManaged self.new }
        ensures limits { self.new.manager.limits ≡ self.old.manager.limits }
        ensures moved { IfOk result (λ moved. GoesOnAnew self.old self.new moved.items) }
        ensures refused { IfErr result (λ fault. StaysManaged self.old self.new) }
        ensures fault { IfErr result (IsRefusedFor self.old.manager.limits self.old.passes.items) }
        ensures steps { IfOk result (λ moved. made_by_all self.new.keeper self.new.passes.items
            ≤ most_successor_steps self.old.manager.limits (length moved.items)) }
        ensures replayed { IfOk result (λ moved. made_by_all self.new.keeper self.new.passes.items
            ≤ successor_steps self.old.manager.limits self.new.keeper.seen moved.items) }
        ensures refused_steps { IfErr result (λ fault. let l = self.old.manager.limits in
            let n = alive_after l.attempts self.new.keeper.seen in
            AllMake (survey_steps l l.parts n)
            self.old.keeper self.old.passes.items self.new.keeper self.new.passes.items) }
    {
        let Ok(next) = Managed::new(alloc, self.manager.limits()) else {
            return Err(RollFault::NoMemory);
        };
        let mut space = Space::empty(alloc);
        match self.roll_over_into(&mut space, next) {
            Ok(()) => Ok(space.into_moved()),
            Err(fault) => Err(fault),
        }
    }

    /// What `roll_over` does, in a space that is lent, and into `next`, a new manager of the same limits,
    /// which is used up. `NoMemory` only where the space is too small, and more couldn't be had: never in one
    /// that `Space::new` made for these limits, however often it was lent. So it succeeds where what is alive
    /// finds room (`succeeds`). What was carried over stands in the space then, and nothing where it is refused.
    pub fn roll_over_into(&mut self, space: &mut Space, next: Managed) -> Result<(), RollFault>
        requires managed { IsManaged self.old }
        requires next { IsNewManaged self.old.manager.limits next }
        ensures managed { IsManaged self.new }
        ensures limits { self.new.manager.limits ≡ self.old.manager.limits }
        ensures moved { OnOk result (GoesOnAnew self.old self.new space.new.restore.moved.items) }
        ensures refused { IfErr result (λ fault. StaysManaged self.old self.new) }
        ensures fault { IfErr result (IsRefusedFor self.old.manager.limits self.old.passes.items) }
        ensures memory { result ≡ Err refusals.NoMemory → let l = self.old.manager.limits in
            ¬ HasSpace l l space.old }
        ensures succeeds { let l = self.old.manager.limits in
            HasSpace l l space.old → FindsRoom l self.old.passes.items → IsOk result }
        ensures space { KeepsSpace space.old space.new }
        ensures nothing { IfErr result (λ fault. space.new.restore.moved.items ≡ []) }
        ensures steps { OnOk result (made_by_all self.new.keeper self.new.passes.items
            ≤ most_successor_steps self.old.manager.limits (length space.new.restore.moved.items)) }
        ensures replayed { OnOk result (made_by_all self.new.keeper self.new.passes.items
            ≤ successor_steps self.old.manager.limits self.new.keeper.seen space.new.restore.moved.items) }
        ensures refused_steps { IfErr result (λ fault. let l = self.old.manager.limits in
            let n = alive_after l.attempts self.new.keeper.seen in
            AllMake (survey_steps l l.parts n)
            self.old.keeper self.old.passes.items self.new.keeper self.new.passes.items) }
    {
        let answer = succeed_in(
            space,
            &self.manager,
            &mut self.keeper,
            &mut self.passes,
            next,
        );
        match answer {
            Ok(next) => {
                *self = next;
                Ok(())
            }
            Err(fault) => Err(fault),
        }
    }

    /// What `survey` finds, in a space that is lent: it stands in `space.found` then.
    pub fn survey_in(&mut self, space: &mut SurveySpace) -> Result<(), RollFault>
        requires managed { IsManaged self.old }
        ensures managed { IsManaged self.new }
        ensures stays { StaysManaged self.old self.new }
        ensures found { OnOk result
            (AreSurvivors self.old.manager.limits self.new.keeper.seen space.new.found.items) }
        ensures in_hand { OnOk result (AreInHand self.old.passes.items space.new.found.items) }
        ensures history { OnOk result
            (IsHistoryOf self.new.keeper self.old.passes.items self.new.keeper.seen) }
        ensures together { OnOk result (AreTogether self.old.manager.limits
            self.new.keeper self.new.passes.items self.new.keeper.seen) }
        ensures fault { IfErr result IsUnsurveyed }
        ensures memory { IfErr result (λ fault. ¬ HasSurveySpace self.old.manager.limits space.old) }
        ensures space { KeepsSurveySpace space.old space.new }
        ensures steps { let l = self.old.manager.limits in
            AllMake (survey_steps l l.parts (alive_after l.attempts self.new.keeper.seen))
            self.old.keeper self.old.passes.items self.new.keeper self.new.passes.items }
    {
        survey_in(space, &self.manager, &mut self.keeper, &mut self.passes)
    }

    /// All that is alive, each element once, by ascending ids, with all that another manager needs to go on
    /// with it (`restored`), and with the number of the pass that has it in hand, if one has. The passes have
    /// done nothing but look, and have gathered. `NoMemory`.
    pub fn survey(&mut self, alloc: Global) -> Result<Vec<Survivor>, RollFault>
        requires managed { IsManaged self.old }
        ensures managed { IsManaged self.new }
        ensures stays { StaysManaged self.old self.new }
        ensures found { IfOk result (λ found.
            AreSurvivors self.old.manager.limits self.new.keeper.seen found.items) }
        ensures in_hand { IfOk result (λ found. AreInHand self.old.passes.items found.items) }
        ensures history { OnOk result
            (IsHistoryOf self.new.keeper self.old.passes.items self.new.keeper.seen) }
        ensures together { OnOk result (AreTogether self.old.manager.limits
            self.new.keeper self.new.passes.items self.new.keeper.seen) }
        ensures fault { IfErr result IsUnsurveyed }
        ensures steps { let l = self.old.manager.limits in
            AllMake (survey_steps l l.parts (alive_after l.attempts self.new.keeper.seen))
            self.old.keeper self.old.passes.items self.new.keeper self.new.passes.items }
    {
        survey(alloc, &self.manager, &mut self.keeper, &mut self.passes)
    }

    /// A manager with these limits, its keeper and all its passes, in which what was described (`survey`) is
    /// alive, each element once, and nothing else is; and what each is there, in their order (`restore`).
    /// `BadLimits` exactly where a limit is outside its range; `Full` where these limits have not the rows or
    /// the units; `Unequal` where the descriptions contradict each other or the limits (`restore`);
    /// `NoMemory`.
    pub fn restored(
        alloc: Global,
        limits: Limits,
        survivors: &[Survivor],
    ) -> Result<Successor, RollFault>
        ensures managed { IfOk result (λ next. IsManaged next.managed) }
        ensures limits { IfOk result (λ next. next.managed.manager.limits ≡ limits) }
        ensures restored { IfOk result (λ next. Restores limits next.managed.keeper
            next.managed.passes.items survivors.now next.moved.items) }
        ensures computed { IsAsComputed result
            (λ next. (next.moved.items, thread_of limits next.managed.passes.items next.managed.keeper.seen))
            (made_anew limits limits.parts survivors.now (start limits)) }
        ensures unlike { result ≡ Err refusals.Unequal
            → IsUnlike limits limits.parts survivors.now (start limits) }
        ensures fault { IfErr result (IsUnrestored limits) }
        ensures bad { (result ≡ Err refusals.BadLimits) ↔ (¬ AreLimits limits) }
        ensures steps { IfOk result (λ next. made_by_all next.managed.keeper next.managed.passes.items
            ≤ most_successor_steps limits (length survivors.now)) }
        ensures replayed { IfOk result (λ next. made_by_all next.managed.keeper next.managed.passes.items
            ≤ successor_steps limits next.managed.keeper.seen next.moved.items) }
    {
        let mut new = match Managed::new(alloc, limits) {
            Ok(new) => new,
            Err(MakeFault::NoMemory) => return Err(RollFault::NoMemory),
            Err(MakeFault::BadLimits) => return Err(RollFault::BadLimits),
            Err(MakeFault::NoPart) => unreachable!(),
        };
        match restore(
            alloc,
            &new.manager,
            &mut new.keeper,
            &mut new.passes,
            survivors,
        ) {
            Ok(moved) => Ok(Successor {
                managed: new,
                moved,
            }),
            Err(fault) => Err(fault),
        }
    }
}
