//! Another round for a parked element.
ghost use Rattle.std.specs.Prelude.{◌≡◌, ◌<◌, MatchResult};
ghost use Rattle.tp_model.specs.Steps.{rows_of};
ghost use Rattle.tp_rule.specs.Steps.{HasElement};
ghost use Rattle.tp_rule.specs.Views.{seen_by, view_of, IsSameSeat};
ghost use Rattle.tp_rule.specs.Tables.{table_limits};
ghost use Rattle.tp_manager.specs.Shown.{IsOf};
ghost use Rattle.tp_manager.specs.Bounds.{renew_steps, requeue_steps};
ghost use Rattle.tp_manager.specs.Calls.{Follows, HasLooked};
ghost use Rattle.tp_manager.specs.CallSteps.{IsSteady, Looked};
ghost use Rattle.tp_manager.specs.Requeues.{Renewed, IsPastRequeue, Requeues, RequeueFails};

use crate::manager::{Manager, Pass, Shared};
use tp_model::types::{MAX_ROUNDS, Refusal};
use tp_rule::{Claim, Seat, UnitWord};

impl Shared {
    /// Gives the element that is born in the row another round, where it is parked. Which round. At most
    /// three steps.
    fn requeue_row(&self, seat: &mut Seat, row: u32) -> Result<u8, Refusal>
        requires steady { IsSteady self.now.words seat.old }
        requires row { (row < rows_of (table_limits self.now.words)) × HasElement (seen_by seat.old) row }
        ensures same { IsSameSeat seat.old seat.new }
        ensures told { let l = table_limits self.now.words in MatchResult result
            (λ round. Renewed l renew_steps row round (view_of seat.old) (view_of seat.new))
            (λ refusal. Looked l renew_steps (view_of seat.old) (view_of seat.new)
            × IsPastRequeue l row (seen_by seat.old) (seen_by seat.new) refusal) }
    {
        let claim = self.words.load_claim(seat, row);
        match claim.tells {
            Claim::Free => Err(Refusal::NotParked),
            Claim::Again { round: _ } => Err(Refusal::NotParked),
            Claim::Killed {
                attempt: _,
                unit: _,
                round: _,
            } => Err(Refusal::NotParked),
            Claim::Taken {
                attempt,
                unit,
                round,
            } => {
                if attempt < self.places.limits.attempts {
                    return Err(Refusal::NotParked);
                }
                match self.words.load_unit(seat, unit) {
                    UnitWord::Undecided => Err(Refusal::NotParked),
                    UnitWord::Committed { first: _, count: _ } => Err(Refusal::NotParked),
                    UnitWord::Aborted => {
                        if round >= MAX_ROUNDS {
                            return Err(Refusal::NoRound);
                        }
                        match self.words.requeue_exchange(seat, row, claim) {
                            Ok(()) => Ok(round + 1),
                            Err(_) => Err(Refusal::NotParked),
                        }
                    }
                }
            }
        }
    }
}

impl Manager {
    /// Gives the parked element with this id another round of attempts: it waits again, with none so far.
    /// Which round, 1 to 3. `NotThere` where no such element is born, `NotParked`, and `NoRound` where it is
    /// parked and has had all its rounds.
    pub fn requeue(&self, pass: &mut Pass, id: u32) -> Result<u8, Refusal>
        requires own { IsOf self.now pass.old }
        ensures own { IsOf self.now pass.new }
        ensures turn { pass.new.from ≡ pass.old.from }
        ensures follows { Follows requeue_steps pass.old pass.new }
        ensures open_unit { pass.new.open_unit ≡ pass.old.open_unit }
        ensures looks { id < rows_of self.now.limits → HasLooked pass.old pass.new }
        ensures answer { MatchResult result
            (λ round. Requeues id round pass.old pass.new)
            (λ refusal. RequeueFails self.now.limits id pass.old pass.new refusal) }
    {
        let shared = &self.shared;
        let seat = &mut pass.seat;
        if id >= shared.places.rows() {
            return Err(Refusal::NotThere);
        }
        let head = shared.head_at(seat, id);
        let Some(_) = shared.birth_from(seat, id, head) else {
            return Err(Refusal::NotThere);
        };
        match shared.requeue_row(seat, id) {
            Ok(round) => return Ok(round),
            Err(refusal) => return Err(refusal),
        }
    }
}
