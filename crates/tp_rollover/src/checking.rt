//! What was born is held against what was described.
ghost use Rattle.std.specs.Prelude.{◌≡◌, ◌*◌, false, true, length};
ghost use Rattle.tp_model.specs.Steps.{rows_of};
ghost use Rattle.tp_manager.specs.Shown.{IsOf};
ghost use Rattle.tp_rollover.specs.Thread.{Stays};
ghost use Rattle.tp_rollover.specs.Bounds.{PassMakes, compare_steps};
ghost use Rattle.tp_rollover.specs.Alike.{AllStandUnheld, IsAlike, IsRootAlike, StandsUnheld};
ghost use Rattle.tp_rollover.specs.Checks.{CountsOnly, MovedAscend};
ghost use Rattle.tp_rollover.specs.Space.{AreWithin};
ghost use Rattle.tp_rollover.specs.Told.{HoldsAsSeen};

use crate::looks::{is_alive, look, rounds_had};
use crate::moved::Moved;
use crate::survivors::Survivor;
use tp_manager::{Manager, Pass};
use tp_model::types::{Account, Look};

/// Whether the element that a look shows is as it was described, under these ids.
fn is_alike(one: Survivor, named: Moved, is: &Look) -> bool
    ensures alike { result ≡ true → IsAlike one named is.now }
    ensures other { result ≡ false → ¬ IsAlike one named is.now }
{
    if !is_alive(one.status) {
        return false;
    }
    if named.old != one.id || named.old_root != one.root {
        return false;
    }
    if named.holder != one.holder {
        return false;
    }
    if is.status != one.status {
        return false;
    }
    if is.element.stage != one.stage || is.element.body != one.body {
        return false;
    }
    if is.element.root != named.new_root {
        return false;
    }
    one.id != one.root || named.new == named.new_root
}

/// Whether the element that a look shows is a client's, and like the root that was described.
fn is_root_alike(one: Survivor, root: &Look) -> bool
    ensures alike { result ≡ true → IsRootAlike one root.now }
    ensures other { result ≡ false → ¬ IsRootAlike one root.now }
{
    root.element.by.is_none()
        && root.element.stage == one.root_stage
        && root.element.body == one.root_body
}

/// Whether the element stands again as it was described.
fn stands_again(manager: &Manager, pass: &mut Pass, one: Survivor, named: Moved) -> bool
    requires own { IsOf manager.now pass.old }
    ensures own { IsOf manager.now pass.new }
    ensures stays { Stays pass.old pass.new }
    ensures steps { PassMakes (compare_steps manager.now.limits) pass.old pass.new }
    ensures told { result ≡ true → HoldsAsSeen pass.old pass.new
        (λ g. StandsUnheld manager.now.limits.attempts g one named) }
    ensures other { result ≡ false → HoldsAsSeen pass.old pass.new
        (λ g. ¬ StandsUnheld manager.now.limits.attempts g one named) }
{
    let Some(stands) = look(manager, pass, named.new) else {
        return false;
    };
    let Some(rounds) = rounds_had(manager, pass, named.new) else {
        return false;
    };
    let Some(root) = look(manager, pass, named.new_root) else {
        return false;
    };
    if !is_alike(one, named, &stands) {
        return false;
    }
    if !is_root_alike(one, &root) {
        return false;
    }
    rounds == one.rounds
}

/// Whether each of them does, under the ids of the same place.
pub(crate) fn all_stand_again(
    manager: &Manager,
    pass: &mut Pass,
    survivors: &[Survivor],
    moved: &[Moved],
) -> bool
    requires own { IsOf manager.now pass.old }
    ensures own { IsOf manager.now pass.new }
    ensures stays { Stays pass.old pass.new }
    ensures steps { PassMakes (length survivors.now * compare_steps manager.now.limits) pass.old pass.new }
    ensures told { result ≡ true → HoldsAsSeen pass.old pass.new
        (λ g. AllStandUnheld manager.now.limits.attempts g survivors.now moved.now) }
    ensures other { result ≡ false → HoldsAsSeen pass.old pass.new
        (λ g. ¬ AllStandUnheld manager.now.limits.attempts g survivors.now moved.now) }
{
    if moved.len() != survivors.len() {
        return false;
    }
    for place in 0..survivors.len() {
        if !stands_again(manager, pass, survivors[place], moved[place]) {
            return false;
        }
    }
    true
}

/// Whether an account counts as many elements alive as these are, none held or killed, and so all others as
/// consumed.
pub(crate) fn counts_only(account: &Account, moved: &[Moved]) -> bool
    ensures only { result ≡ true → CountsOnly (length moved.now) account.now.total }
    ensures other { result ≡ false → ¬ CountsOnly (length moved.now) account.now.total }
{
    let total = account.total;
    let alive = total.waiting as usize + total.parked as usize;
    alive == moved.len() && total.held == 0 && total.killed == 0
}

/// Whether the roots of all these are among the rows of the two managers.
pub(crate) fn are_within(old: &Manager, new: &Manager, moved: &[Moved]) -> bool
    ensures within { result ≡ true → AreWithin (rows_of old.now.limits) (rows_of new.now.limits) moved.now }
    ensures other { result ≡ false → ¬ AreWithin (rows_of old.now.limits) (rows_of new.now.limits) moved.now }
{
    for place in 0..moved.len() {
        if moved[place].old_root >= old.capacity() {
            return false;
        }
        if moved[place].new_root >= new.capacity() {
            return false;
        }
    }
    true
}

/// Whether the ids ascend in both managers.
pub(crate) fn ascend(moved: &[Moved]) -> bool
    ensures ascend { result ≡ true → MovedAscend moved.now }
    ensures other { result ≡ false → ¬ MovedAscend moved.now }
{
    let mut old: u64 = 0;
    let mut new: u64 = 0;
    for place in 0..moved.len() {
        let next_old = u64::from(moved[place].old);
        if next_old < old {
            return false;
        }
        old = next_old + 1;
        let next_new = u64::from(moved[place].new);
        if next_new < new {
            return false;
        }
        new = next_new + 1;
    }
    true
}
