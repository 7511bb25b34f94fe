//! From one manager to the next.
ghost use Rattle.std.specs.Prelude.{◌≡◌, All, MatchResult, length};
ghost use Rattle.tp_manager.specs.Accounts.{AreAll};
ghost use Rattle.tp_manager.specs.Shown.{IsKeptBy, IsOf};
ghost use Rattle.covetrivet_c.specs.Homes.{CarriesOver, IsUncarried, StayPut, rollover_fault};

use crate::fault::Fault;
use std::alloc::Global;
use tp_manager::{Keeper, Manager, Pass};
use tp_model::types::Refusal;
use tp_rollover::{Moved, RollFault, roll_over};

/// Why a rollover was refused.
fn fault_of(fault: RollFault) -> Fault
    ensures { result ≡ rollover_fault fault }
{
    match fault {
        RollFault::NoMemory => Fault::Refused(Refusal::NoMemory),
        RollFault::BadLimits => Fault::Refused(Refusal::BadLimits),
        RollFault::NoPass => Fault::Nothing,
        RollFault::Busy => Fault::Busy,
        RollFault::Full => Fault::Refused(Refusal::Full),
        RollFault::Unequal => Fault::Unequal,
    }
}

/// The rollover between two managers whose passes are these.
pub(crate) fn carry(
    alloc: Global,
    old: &Manager,
    old_keeper: &mut Keeper,
    old_passes: &mut [Pass],
    new: &Manager,
    new_keeper: &mut Keeper,
    new_passes: &mut [Pass],
) -> Result<Vec<Moved>, Fault>
    requires old_keeper { IsKeptBy old.now old_keeper.old }
    requires new_keeper { IsKeptBy new.now new_keeper.old }
    requires own { All (IsOf old.now) old_passes.old × All (IsOf new.now) new_passes.old }
    requires all { AreAll old_keeper.old old_passes.old × AreAll new_keeper.old new_passes.old }
    ensures old_keeper { IsKeptBy old.now old_keeper.new }
    ensures new_keeper { IsKeptBy new.now new_keeper.new }
    ensures old_own { All (IsOf old.now) old_passes.new }
    ensures new_own { All (IsOf new.now) new_passes.new }
    ensures old_long { length old_passes.new ≡ length old_passes.old }
    ensures new_long { length new_passes.new ≡ length new_passes.old }
    ensures answer { MatchResult result
        (λ moved. CarriesOver old.now.limits new.now.limits old_keeper.old old_keeper.new new_keeper.new
        old_passes.old old_passes.new new_passes.old new_passes.new moved.items)
        (λ f. StayPut old_keeper.old old_keeper.new old_passes.old old_passes.new
        × IsUncarried old.now.limits new.now.limits old_passes.old new_passes.old f) }
{
    match roll_over(
        alloc, old, old_keeper, old_passes, new, new_keeper, new_passes,
    ) {
        Ok(moved) => Ok(moved),
        Err(fault) => Err(fault_of(fault)),
    }
}
