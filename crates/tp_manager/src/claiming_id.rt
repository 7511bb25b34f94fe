//! A claim of a given element.
ghost use Rattle.std.specs.Prelude.{◌≡◌, ◌<◌, None, MatchOption, MatchResult};
ghost use Rattle.tp_model.specs.History.{status_of};
ghost use Rattle.tp_model.specs.Steps.{AreLimits, IsServerStage, rows_of};
ghost use Rattle.tp_rule.specs.Views.{seen_by, view_of, IsSameSeat};
ghost use Rattle.tp_rule.specs.Tables.{table_limits};
ghost use Rattle.tp_manager.specs.Shown.{IsOf};
ghost use Rattle.tp_manager.specs.Bounds.{claim_id_steps, claim_row_steps};
ghost use Rattle.tp_manager.specs.Calls.{claims_in, Follows, HasLooked, IsWaiting};
ghost use Rattle.tp_manager.specs.Given.{ClaimIdFails, TakesId};
ghost use Rattle.tp_manager.specs.Looks.{IsBornAs};
ghost use Rattle.tp_manager.specs.Requeues.{IsBetween};
ghost use Rattle.tp_manager.specs.CallSteps.{IsSteady, Looked};
ghost use Rattle.tp_manager.specs.Scans.{IsSpare, Took};

use crate::manager::{Manager, Pass, Shared, Task};
use crate::row_reads::Birth;
use crate::scanning::Stand;
use crate::seeker::Taken;
use tp_model::types::{REPLY_STAGE, Refusal, Work};
use tp_rule::Seat;

impl Shared {
    /// The unit takes the element that is born in the row, if it waits. `None` where it didn't wait at a
    /// moment.
    fn claim_row(&self, seat: &mut Seat, row: u32, birth: Birth, unit: u16) -> Option<Taken>
        requires steady { IsSteady self.now.words seat.old }
        requires row { row < rows_of (table_limits self.now.words) }
        requires there { IsBornAs (seen_by seat.old) row birth }
        requires stage { IsServerStage birth.stage }
        requires spare { IsSpare unit (view_of seat.old) × (unit < 65535) }
        ensures same { IsSameSeat seat.old seat.new }
        ensures told { let l = table_limits self.now.words in let n = claim_row_steps in MatchOption result
            (Looked l n (view_of seat.old) (view_of seat.new)
            × IsBetween (seen_by seat.old) (seen_by seat.new) (λ h. ¬ IsWaiting (status_of l.attempts h row)))
            (λ t. Took l n row t.element.stage unit (view_of seat.old) (view_of seat.new) t.element t.attempt
            × (t.element.root ≡ t.root) × (t.element.id ≡ row) × (t.element.stage ≡ birth.stage)) }
    {
        let claim = self.words.load_claim(seat, row);
        let attempts = match self.stand_of(seat, row, claim, false) {
            Stand::Ready { attempts } => attempts,
            Stand::Over => return None,
            Stand::Busy => return None,
        };
        let element = self.element_at(seat, row, birth);
        let attempt = attempts + 1;
        match self.words.claim_exchange(seat, row, claim, attempt, unit) {
            Ok(()) => Some(Taken {
                element,
                root: birth.root,
                attempt,
            }),
            Err(_) => None,
        }
    }
}

impl Manager {
    /// Takes the element with this id, if it waits, into a new unit of work of the pass, which has none open.
    /// `NoUnit` where the pass has used its units; `NotThere` where no such element is born; `BadStage` where
    /// it is a reply; `NotWaiting` where it is held, parked, consumed or killed. A refusal uses no unit.
    pub fn claim_id(&self, pass: &mut Pass, id: u32) -> Result<Work, Refusal>
        requires own { IsOf self.now pass.old }
        requires free { pass.old.open_unit ≡ None }
        ensures own { IsOf self.now pass.new }
        ensures turn { pass.new.from ≡ pass.old.from }
        ensures limits { AreLimits self.now.limits }
        ensures follows { Follows claim_id_steps pass.old pass.new }
        ensures looks { claims_in pass.old.mine < self.now.limits.units → id < rows_of self.now.limits
            → HasLooked pass.old pass.new }
        ensures answer { MatchResult result
            (λ work. TakesId self.now.limits id work pass.old pass.new)
            (λ refusal. ClaimIdFails self.now.limits id pass.old pass.new refusal) }
    {
        let shared = &self.shared;
        let seat = &mut pass.seat;
        let units = shared.places.limits.units;
        if pass.used == units {
            return Err(Refusal::NoUnit);
        }
        if id >= shared.places.rows() {
            return Err(Refusal::NotThere);
        }
        let unit = pass.number * units + pass.used;
        shared.words.choose_unit(seat, unit);
        let head = shared.head_at(seat, id);
        let Some(birth) = shared.birth_from(seat, id, head) else {
            return Err(Refusal::NotThere);
        };
        if birth.stage == REPLY_STAGE {
            return Err(Refusal::BadStage);
        }
        let Some(taken) = shared.claim_row(seat, id, birth, unit) else {
            return Err(Refusal::NotWaiting);
        };
        pass.used += 1;
        pass.task = Some(Task {
            unit,
            root: taken.root,
            row: taken.element.id,
        });
        Ok(Work {
            unit,
            element: taken.element,
            attempt: taken.attempt,
        })
    }
}
