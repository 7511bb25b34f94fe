//! The kill of an element.
ghost use Rattle.std.specs.Prelude.{◌≡◌, ◌-◌, ◌<◌, ◌≤◌, MatchResult, None};
ghost use Rattle.tp_model.specs.Steps.{rows_of, tries};
ghost use Rattle.tp_model.specs.Words.{claim_word};
ghost use Rattle.tp_rule.specs.Words.{claim_value, IsFitClaim};
ghost use Rattle.tp_rule.specs.Steps.{HasElement};
ghost use Rattle.tp_rule.specs.Views.{hand_of, seen_by, view_of, IsSameSeat};
ghost use Rattle.tp_rule.specs.Tables.{table_limits};
ghost use Rattle.tp_manager.specs.Shown.{IsOf};
ghost use Rattle.tp_manager.specs.Calls.{Follows, HasLooked, Kills, KillFails};
ghost use Rattle.tp_manager.specs.CallSteps.{IsSteady, Looked};
ghost use Rattle.tp_manager.specs.Bounds.{kill_steps, slay_from, slay_steps};
ghost use Rattle.tp_manager.specs.Looks.{IsEnough};
ghost use Rattle.tp_manager.specs.Kills.{takers, IsPastKill, Loosened, KillsIn, FailsIn};

use crate::manager::{Manager, Pass, Shared};
use tp_model::types::{Killed, Refusal};
use tp_rule::{Claim, FoundClaim, Seat, UnitWord};

/// How many units stand in the way of a kill where this claim was found: the one that has taken the element,
/// or none.
#[inline(always)]
fn takers_in(claim: Claim) -> u8
    ensures { result ≡ takers (claim_value claim) }
{
    match claim {
        Claim::Free => 0,
        Claim::Taken {
            attempt: _,
            unit: _,
            round: _,
        } => 1,
        Claim::Killed {
            attempt: _,
            unit: _,
            round: _,
        } => 0,
        Claim::Again { round: _ } => 0,
    }
}

impl Shared {
    /// Makes way for a kill of the element of the row, whose claim was just found: aborts the unit that took
    /// it, if it is open. How many units it aborted, none or one; `Consumed` where the unit was committed,
    /// and `AlreadyKilled`. One step where a unit took the element.
    #[inline(always)]
    fn loosen(&self, seat: &mut Seat, row: u32, claim: Claim) -> Result<u8, Refusal>
        requires steady { IsSteady self.now.words seat.old }
        requires row { row < rows_of (table_limits self.now.words) }
        requires found { claim_value claim ≡ claim_word (seen_by seat.old) row }
        requires free { (hand_of seat.old).open_unit ≡ None }
        ensures same { IsSameSeat seat.old seat.new }
        ensures told { let l = table_limits self.now.words in let word = claim_value claim in
            MatchResult result
            (λ count. Loosened l row word count (view_of seat.old) (view_of seat.new))
            (λ refusal. Looked l (takers word) (view_of seat.old) (view_of seat.new)
            × IsPastKill l (seen_by seat.new) row refusal) }
    {
        match claim {
            Claim::Free => Ok(0),
            Claim::Again { round: _ } => Ok(0),
            Claim::Killed {
                attempt: _,
                unit: _,
                round: _,
            } => Err(Refusal::AlreadyKilled),
            Claim::Taken {
                attempt: _,
                unit,
                round: _,
            } => match self.words.abort_exchange(seat, unit) {
                Ok(()) => Ok(1),
                Err(found) => match found {
                    UnitWord::Undecided => unreachable!(),
                    UnitWord::Committed { first: _, count: _ } => Err(Refusal::Consumed { unit }),
                    UnitWord::Aborted => Ok(0),
                },
            },
        }
    }

    /// Kills the element of the row, whose claim was just found, where units can take it at most this many
    /// times from now on. How many units it aborted. At most two steps for each of these times, and one for
    /// each round in which the element is found untaken.
    #[cycle(kill)]
    #[inline(always)]
    fn kill_from(
        &self,
        seat: &mut Seat,
        row: u32,
        claim: FoundClaim,
        left: u8,
    ) -> Result<u8, Refusal>
        requires steady { IsSteady self.now.words seat.old }
        requires row { (row < rows_of (table_limits self.now.words)) × HasElement (seen_by seat.old) row }
        requires found { (claim_value claim.tells ≡ claim_word (seen_by seat.old) row)
            × IsFitClaim (claim_value claim.tells) }
        requires free { (hand_of seat.old).open_unit ≡ None }
        requires enough { IsEnough (table_limits self.now.words) left (claim_value claim.tells) }
        ensures same { IsSameSeat seat.old seat.new }
        ensures told { let l = table_limits self.now.words in
            let n = slay_from left (claim_value claim.tells) in
            MatchResult result
            (λ count. KillsIn l n row left count (view_of seat.old) (view_of seat.new))
            (λ refusal. FailsIn l n row left refusal (view_of seat.old) (view_of seat.new)) }
    {
        match self.loosen(seat, row, claim.tells) {
            Err(refusal) => Err(refusal),
            Ok(count) => match self.words.kill_exchange(seat, row, claim) {
                Ok(()) => Ok(count),
                Err(now) => match self.kill_again(seat, row, now, left - takers_in(claim.tells)) {
                    Ok(more) => Ok(count + more),
                    Err(refusal) => Err(refusal),
                },
            },
        }
    }

    /// The same, where the claim had changed: apart from `kill_from`, which then has no recursion of its own.
    #[cycle(kill)]
    #[cold]
    fn kill_again(
        &self,
        seat: &mut Seat,
        row: u32,
        claim: FoundClaim,
        left: u8,
    ) -> Result<u8, Refusal>
        requires steady { IsSteady self.now.words seat.old }
        requires row { (row < rows_of (table_limits self.now.words)) × HasElement (seen_by seat.old) row }
        requires found { (claim_value claim.tells ≡ claim_word (seen_by seat.old) row)
            × IsFitClaim (claim_value claim.tells) }
        requires free { (hand_of seat.old).open_unit ≡ None }
        requires enough { IsEnough (table_limits self.now.words) left (claim_value claim.tells) }
        ensures same { IsSameSeat seat.old seat.new }
        ensures told { let l = table_limits self.now.words in
            let n = slay_from left (claim_value claim.tells) in
            MatchResult result
            (λ count. KillsIn l n row left count (view_of seat.old) (view_of seat.new))
            (λ refusal. FailsIn l n row left refusal (view_of seat.old) (view_of seat.new)) }
    {
        self.kill_from(seat, row, claim, left)
    }

    /// Kills the element that is born in the row. How many units it aborted, at most one for each attempt in
    /// all rounds.
    #[inline(always)]
    pub(crate) fn kill_row(&self, seat: &mut Seat, row: u32) -> Result<u8, Refusal>
        requires steady { IsSteady self.now.words seat.old }
        requires row { (row < rows_of (table_limits self.now.words)) × HasElement (seen_by seat.old) row }
        requires free { (hand_of seat.old).open_unit ≡ None }
        ensures same { IsSameSeat seat.old seat.new }
        ensures told { let l = table_limits self.now.words in let n = slay_steps l in MatchResult result
            (λ count. KillsIn l n row (tries l.attempts) count (view_of seat.old) (view_of seat.new))
            (λ refusal. FailsIn l n row (tries l.attempts) refusal (view_of seat.old) (view_of seat.new)) }
    {
        let claim = self.words.load_claim(seat, row);
        self.kill_from(seat, row, claim, self.places.limits.tries())
    }
}

impl Manager {
    /// Kills the element with this id, so that no unit of work takes it any more. A unit that holds it is
    /// aborted. The pass may have no unit open. `NotThere` where no such element is born, `Consumed` where a
    /// unit that took it has committed, and `AlreadyKilled` where it was killed before.
    pub fn kill(&self, pass: &mut Pass, id: u32) -> Result<Killed, Refusal>
        requires own { IsOf self.now pass.old }
        requires free { pass.old.open_unit ≡ None }
        ensures own { IsOf self.now pass.new }
        ensures turn { pass.new.from ≡ pass.old.from }
        ensures follows { Follows (kill_steps self.now.limits) pass.old pass.new }
        ensures open_unit { pass.new.open_unit ≡ None }
        ensures looks { id < rows_of self.now.limits → HasLooked pass.old pass.new }
        ensures answer { MatchResult result
            (λ killed. Kills self.now.limits id killed.units_aborted pass.old pass.new)
            (λ refusal. KillFails self.now.limits id pass.old pass.new refusal) }
    {
        let shared = &self.shared;
        let seat = &mut pass.seat;
        if id >= shared.places.rows() {
            return Err(Refusal::NotThere);
        }
        let head = shared.head_at(seat, id);
        let Some(_) = shared.birth_from(seat, id, head) else {
            return Err(Refusal::NotThere);
        };
        match shared.kill_row(seat, id) {
            Ok(units_aborted) => return Ok(Killed { units_aborted }),
            Err(refusal) => return Err(refusal),
        }
    }
}
