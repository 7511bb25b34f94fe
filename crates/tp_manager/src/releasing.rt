//! The release of an element from the unit of work that holds it.
ghost use Rattle.std.specs.Prelude.{◌≡◌, ◌<◌, MatchResult, None};
ghost use Rattle.tp_model.specs.Steps.{rows_of};
ghost use Rattle.tp_rule.specs.Steps.{HasElement};
ghost use Rattle.tp_rule.specs.Views.{hand_of, seen_by, view_of, IsSameSeat};
ghost use Rattle.tp_rule.specs.Tables.{table_limits};
ghost use Rattle.tp_manager.specs.Shown.{IsOf};
ghost use Rattle.tp_manager.specs.Bounds.{free_steps, release_steps};
ghost use Rattle.tp_manager.specs.Calls.{Follows, HasLooked};
ghost use Rattle.tp_manager.specs.CallSteps.{IsSteady, Looked};
ghost use Rattle.tp_manager.specs.Releases.{Freeing, IsPastRelease, Releases, ReleaseFails};

use crate::manager::{Manager, Pass, Shared};
use tp_model::types::{Refusal, Released};
use tp_rule::{Claim, Seat, UnitWord};

impl Shared {
    /// Aborts the unit that holds the element that is born in the row. At most two steps.
    fn release_row(&self, seat: &mut Seat, row: u32) -> Result<Released, Refusal>
        requires steady { IsSteady self.now.words seat.old }
        requires row { (row < rows_of (table_limits self.now.words)) × HasElement (seen_by seat.old) row }
        requires free { (hand_of seat.old).open_unit ≡ None }
        ensures same { IsSameSeat seat.old seat.new }
        ensures told { let l = table_limits self.now.words in MatchResult result
            (λ r. Freeing l free_steps row r.unit r.attempt (view_of seat.old) (view_of seat.new))
            (λ refusal. Looked l free_steps (view_of seat.old) (view_of seat.new)
            × IsPastRelease l row (seen_by seat.old) (seen_by seat.new) refusal) }
    {
        let claim = self.words.load_claim(seat, row);
        match claim.tells {
            Claim::Free => Err(Refusal::NotHeld),
            Claim::Again { round: _ } => Err(Refusal::NotHeld),
            Claim::Killed {
                attempt: _,
                unit: _,
                round: _,
            } => Err(Refusal::NotHeld),
            Claim::Taken {
                attempt,
                unit,
                round: _,
            } => match self.words.abort_exchange(seat, unit) {
                Ok(()) => Ok(Released { unit, attempt }),
                Err(found) => match found {
                    UnitWord::Undecided => unreachable!(),
                    UnitWord::Committed { first: _, count: _ } => Err(Refusal::NotHeld),
                    UnitWord::Aborted => Err(Refusal::NotHeld),
                },
            },
        }
    }
}

impl Manager {
    /// Aborts the unit of work that holds the element with this id: the element waits again, or is parked
    /// where that was the last attempt of its round. The pass may have no unit open. `NotThere` where no such
    /// element is born, and `NotHeld` where no unit holds it.
    pub fn release(&self, pass: &mut Pass, id: u32) -> Result<Released, Refusal>
        requires own { IsOf self.now pass.old }
        requires free { pass.old.open_unit ≡ None }
        ensures own { IsOf self.now pass.new }
        ensures turn { pass.new.from ≡ pass.old.from }
        ensures follows { Follows release_steps pass.old pass.new }
        ensures open_unit { pass.new.open_unit ≡ None }
        ensures looks { id < rows_of self.now.limits → HasLooked pass.old pass.new }
        ensures answer { MatchResult result
            (λ r. Releases self.now.limits id r.unit r.attempt pass.old pass.new)
            (λ refusal. ReleaseFails self.now.limits id pass.old pass.new refusal) }
    {
        let shared = &self.shared;
        let seat = &mut pass.seat;
        if id >= shared.places.rows() {
            return Err(Refusal::NotThere);
        }
        let head = shared.head_at(seat, id);
        let Some(_) = shared.birth_from(seat, id, head) else {
            return Err(Refusal::NotThere);
        };
        match shared.release_row(seat, id) {
            Ok(released) => return Ok(released),
            Err(refusal) => return Err(refusal),
        }
    }
}
