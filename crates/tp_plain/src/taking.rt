//! A claim of a given element.
ghost use Rattle.std.specs.Prelude.{◌≡◌, ◌<◌, None, IfOk, Some};
ghost use Rattle.tp_plain.specs.Computed.{claim_id_of};
ghost use Rattle.tp_plain.specs.OneThread.{Answers, CallClaimId, pass_at};

use crate::plain::Plain;
use tp_model::types::{REPLY_STAGE, Refusal, Status, Work};

impl Plain {
    /// A pass takes the element with this id, by its next unit.
    ///
    /// `NoUnit` where the pass has used its units, `NotThere` where no such element is born, `BadStage` where
    /// it is a reply, and `NotWaiting`.
    pub fn claim_id(&mut self, caller: u16, id: u32) -> Result<Work, Refusal>
        requires pass { caller < self.old.limits.parts }
        requires free { (pass_at self.old caller).holding ≡ None }
        ensures answer { Answers self.old (CallClaimId caller id result) self.new }
        ensures computed { (result ≡ (claim_id_of self.old caller id).0)
            × (self.new ≡ (claim_id_of self.old caller id).1) }
        ensures hand { IfOk result (λ work. (pass_at self.new caller).holding ≡ Some work.unit) }
        ensures limits { self.new.limits ≡ self.old.limits }
    {
        self.show_reached();
        let used = self.used_by(caller);
        if used.claimed >= self.limits.units {
            return Err(Refusal::NoUnit);
        }
        let Ok(look) = self.read(id) else {
            return Err(Refusal::NotThere);
        };
        if look.element.stage == REPLY_STAGE {
            return Err(Refusal::BadStage);
        }
        match look.status {
            Status::Waiting { attempts: _ } => Ok(self.take(caller, look, used.turns)),
            _ => Err(Refusal::NotWaiting),
        }
    }
}
