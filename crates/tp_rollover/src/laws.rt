//! The laws over the pair of managers. These functions do nothing: their contracts are the laws.

ghost use Rattle.std.specs.Prelude.{ℕ};
ghost use Rattle.tp_model.specs.declared.types.Limits.{Limits};
ghost use Rattle.tp_rollover.specs.Bounds.{PerElement};
ghost use Rattle.tp_rollover.specs.Laws.{CancelledStays, ComputedIsAlike, ComputedIsHeld, ComputedStands};
ghost use Rattle.tp_rollover.specs.Laws.{ConsumedInOne, FreeIsPlain, OldIsOver};
ghost use Rattle.tp_rollover.specs.Laws.{RestoredIsRolledOver, RolloverAddsUp, SettledNotCarried};
ghost use Rattle.tp_rollover.specs.Space.{SpaceLasts};
ghost use Rattle.tp_rollover.specs.Worked.{HeldPair, WorkedAlike, WorkedPair};

/// A family that was cancelled in the old manager is settled in the new one.
pub fn cancelled_stays()
    ensures { CancelledStays }
{}

/// What was carried over is never consumed in the old manager, and what was settled there isn't carried over.
pub fn consumed_in_one()
    ensures killed { ConsumedInOne }
    ensures settled { SettledNotCarried }
{}

/// In the old manager everything is consumed or killed.
pub fn old_is_over()
    ensures { OldIsOver }
{}

/// The accounts of both managers add up: as many wait, are parked and are held in the new one as in the old
/// one, all else there is consumed, and in the old one as many more are killed.
pub fn accounts_add_up()
    ensures { RolloverAddsUp }
{}

/// What was described in one manager and made alive in another is what a rollover carries over.
pub fn restored_is_rolled_over()
    ensures { RestoredIsRolledOver }
{}

/// A worked rollover, of a family of which one element waits and one is parked, with what is counted in both
/// managers, and how it is described in between. The laws are of such pairs. Where one that was alive is left
/// out, it is none. And one of two requests that passes have in hand. What is computed of either is as
/// described.
pub fn worked_pair()
    ensures worked { WorkedPair }
    ensures held { HeldPair }
    ensures alike { WorkedAlike }
{}

/// What is computed of what was found alive in one manager stands as it was in another one with the same
/// attempt limit, in which nothing had happened, and nothing else is alive there. Then each that was held can
/// be claimed by its pass.
pub fn computed_stands()
    ensures stands { ComputedStands }
    ensures alike { ComputedIsAlike }
    ensures held { ComputedIsHeld }
{}

/// How many steps a rollover makes for each element, in round numbers.
pub fn steps_of_one()
    ensures { (l : Limits) (q : ℕ) → PerElement l q }
{}

/// A space that was enough for a rollover is enough for the next one between managers with these limits.
pub fn space_lasts()
    ensures { SpaceLasts }
{}

/// Where no pass of the old manager has a unit open, what was carried over stands with the status that it
/// had, no pass of the new one has a unit open, and the old one goes on by the kills alone.
pub fn free_is_plain()
    ensures { FreeIsPlain }
{}
