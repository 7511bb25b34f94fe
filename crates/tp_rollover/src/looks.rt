//! Looks at one element, by one pass. What a look finds holds of the history that the pass had seen, if it
//! has seen nothing new by the end.
ghost use Rattle.std.specs.Prelude.{◌≡◌, MatchOption, false, true};
ghost use Rattle.tp_model.specs.History.{IsUnborn};
ghost use Rattle.tp_model.specs.Steps.{IsKillable};
ghost use Rattle.tp_manager.specs.Bounds.{read_steps, rounds_steps};
ghost use Rattle.tp_manager.specs.Calls.{IsLook};
ghost use Rattle.tp_manager.specs.Requeues.{HasHadRounds};
ghost use Rattle.tp_manager.specs.Shown.{IsOf};
ghost use Rattle.tp_rollover.specs.Thread.{Stays};
ghost use Rattle.tp_rollover.specs.Bounds.{PassMakes};
ghost use Rattle.tp_rollover.specs.Told.{HoldsAsSeen};

use tp_manager::{Manager, Pass};
use tp_model::types::{Look, Status};

/// The element with this id and its status, or `None` where none is born.
pub(crate) fn look(manager: &Manager, pass: &mut Pass, id: u32) -> Option<Look>
    requires own { IsOf manager.now pass.old }
    ensures own { IsOf manager.now pass.new }
    ensures stays { Stays pass.old pass.new }
    ensures steps { PassMakes (read_steps manager.now.limits) pass.old pass.new }
    ensures told { HoldsAsSeen pass.old pass.new (λ h. MatchOption result
        (IsUnborn h id) (λ look. IsLook manager.now.limits id look h)) }
{
    match manager.read(pass, id) {
        Ok(look) => Some(look),
        Err(_) => None,
    }
}

/// How many further rounds the element was given, or `None` where none is born.
pub(crate) fn rounds_had(manager: &Manager, pass: &mut Pass, id: u32) -> Option<u8>
    requires own { IsOf manager.now pass.old }
    ensures own { IsOf manager.now pass.new }
    ensures stays { Stays pass.old pass.new }
    ensures steps { PassMakes rounds_steps pass.old pass.new }
    ensures told { HoldsAsSeen pass.old pass.new (λ h. MatchOption result (IsUnborn h id)
        (λ n. HasHadRounds id n h)) }
{
    match manager.rounds(pass, id) {
        Ok(rounds) => Some(rounds),
        Err(_) => None,
    }
}

/// Whether an element with this status is alive.
pub(crate) fn is_alive(status: Status) -> bool
    ensures alive { result ≡ true → IsKillable status }
    ensures over { result ≡ false → ¬ IsKillable status }
{
    match status {
        Status::Waiting { attempts: _ } => true,
        Status::Held {
            unit: _,
            attempt: _,
        } => false,
        Status::Consumed { unit: _ } => false,
        Status::Parked { attempts: _ } => true,
        Status::Killed => false,
    }
}
