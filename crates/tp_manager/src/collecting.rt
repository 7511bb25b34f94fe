//! The collection of a reply.
ghost use Rattle.tp_model.specs.declared.types.TheConstants.{REPLY_STAGE};
ghost use Rattle.std.specs.Prelude.{◌≡◌, ◌<◌, ℕ, [], MatchResult, None, Some, true, false};
ghost use Rattle.tp_model.specs.History.{element_of};
ghost use Rattle.tp_model.specs.Steps.{rows_of};
ghost use Rattle.tp_model.specs.Words.{KilledWord};
ghost use Rattle.tp_rule.specs.Words.{claim_value};
ghost use Rattle.tp_rule.specs.Views.{hand_of, seen_by, view_of, IsSameSeat};
ghost use Rattle.tp_rule.specs.Tables.{table_limits};
ghost use Rattle.tp_manager.specs.Shown.{IsOf};
ghost use Rattle.tp_manager.specs.Bounds.{collect_steps, take_steps};
ghost use Rattle.tp_manager.specs.Calls.{Follows, HasLooked};
ghost use Rattle.tp_manager.specs.Kills.{Slain};
ghost use Rattle.tp_manager.specs.Looks.{IsBornAs};
ghost use Rattle.tp_manager.specs.CallSteps.{IsSteady, Looked};
ghost use Rattle.tp_manager.specs.Releases.{Collects, CollectFails, IsPastCollect};

use crate::manager::{Manager, Pass, Shared};
use crate::row_reads::Birth;
use tp_model::types::{Element, REPLY_STAGE, Refusal};
use tp_rule::{Claim, Seat};

/// Whether the claim is that of a killed element.
#[inline(always)]
fn is_killed(claim: Claim) -> bool
    ensures yes { result ≡ true → (n : ℕ) × (u : ℕ) × (r : ℕ) × (claim_value claim ≡ KilledWord n u r) }
    ensures no { result ≡ false → (n u r : ℕ) → ¬ (claim_value claim ≡ KilledWord n u r) }
{
    match claim {
        Claim::Free => false,
        Claim::Taken {
            attempt: _,
            unit: _,
            round: _,
        } => false,
        Claim::Killed {
            attempt: _,
            unit: _,
            round: _,
        } => true,
        Claim::Again { round: _ } => false,
    }
}

impl Shared {
    /// Kills the reply that is born in the row, and hands it out. At most six steps.
    pub(crate) fn collect_row(
        &self,
        seat: &mut Seat,
        row: u32,
        birth: Birth,
    ) -> Result<Element, Refusal>
        requires steady { IsSteady self.now.words seat.old }
        requires row { row < rows_of (table_limits self.now.words) }
        requires there { IsBornAs (seen_by seat.old) row birth }
        requires reply { birth.stage ≡ REPLY_STAGE }
        ensures same { IsSameSeat seat.old seat.new }
        ensures told { let l = table_limits self.now.words in MatchResult result
            (λ x. Slain l take_steps row [] (view_of seat.old) (view_of seat.new)
            × (element_of (seen_by seat.new) row ≡ Some x) × (x.stage ≡ REPLY_STAGE))
            (λ refusal. Looked l take_steps (view_of seat.old) (view_of seat.new)
            × IsPastCollect l row (seen_by seat.old) (seen_by seat.new) refusal) }
    {
        let claim = self.words.load_claim(seat, row);
        if is_killed(claim.tells) {
            return Err(Refusal::AlreadyKilled);
        }
        let element = self.element_at(seat, row, birth);
        match self.words.kill_exchange(seat, row, claim) {
            Ok(()) => Ok(element),
            Err(_) => Err(Refusal::AlreadyKilled),
        }
    }
}

impl Manager {
    /// Takes the reply with this id. The reply is killed, so nobody else collects it. The pass may have no
    /// unit open. `NotThere` where no element with this id is born, `BadStage` where it is no reply, and
    /// `AlreadyKilled` where it was collected or killed before.
    pub fn collect(&self, pass: &mut Pass, id: u32) -> Result<Element, Refusal>
        requires own { IsOf self.now pass.old }
        requires free { pass.old.open_unit ≡ None }
        ensures own { IsOf self.now pass.new }
        ensures turn { pass.new.from ≡ pass.old.from }
        ensures follows { Follows collect_steps pass.old pass.new }
        ensures open_unit { pass.new.open_unit ≡ None }
        ensures looks { id < rows_of self.now.limits → HasLooked pass.old pass.new }
        ensures answer { MatchResult result
            (λ x. Collects id x pass.old pass.new)
            (λ refusal. CollectFails self.now.limits id pass.old pass.new refusal) }
    {
        let shared = &self.shared;
        let seat = &mut pass.seat;
        if id >= shared.places.rows() {
            return Err(Refusal::NotThere);
        }
        let head = shared.head_at(seat, id);
        let Some(birth) = shared.birth_from(seat, id, head) else {
            return Err(Refusal::NotThere);
        };
        if birth.stage != REPLY_STAGE {
            return Err(Refusal::BadStage);
        }
        match shared.collect_row(seat, id, birth) {
            Ok(element) => return Ok(element),
            Err(refusal) => return Err(refusal),
        }
    }
}
