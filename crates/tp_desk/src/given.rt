//! The claim of a given element at a desk.
ghost use Rattle.std.specs.Prelude.{◌≡◌, MatchResult, None, Some};
ghost use Rattle.tp_model.specs.Steps.{IsServerStage};
ghost use Rattle.tp_manager.specs.Shown.{IsOf};
ghost use Rattle.tp_manager.specs.Calls.{Follows};
ghost use Rattle.tp_desk.specs.Given.{ClaimsGiven, given_steps};
ghost use Rattle.tp_desk.specs.Steady.{IsSameDesk, SteadyDesk};

use crate::desk::Desk;
use tp_manager::{Manager, Pass};
use tp_model::types::{Refusal, Work};
use tp_server::Server;

impl Desk<'_, '_, '_> {
    /// Takes the element with this id in hand, if it waits in the server's stage. Nothing is in hand yet.
    /// `NoUnit` where the pass has used its units; `NotThere` where no such element is born; `BadStage` where
    /// it is of another stage; `NotWaiting` where it is held, parked, consumed or killed. A refusal uses no
    /// unit.
    pub fn claim_id(&mut self, id: u32) -> Result<Work, Refusal>
        requires steady { SteadyDesk behaviour registers pending self.old }
        requires free { self.old.work ≡ None }
        ensures same { IsSameDesk self.old self.new }
        ensures server { self.new.server.now ≡ self.old.server.now }
        ensures turn { self.new.pass.now.from ≡ self.old.pass.now.from }
        ensures follows { Follows (given_steps self.old.manager.now.limits) self.old.pass.now
            self.new.pass.now }
        ensures answer { ClaimsGiven self.old.manager.now.limits (behaviour self.old.server.now).stage id
            self.old.pass.now self.new.pass.now result }
        ensures work { MatchResult result (λ work. self.new.work ≡ Some work) (λ _. self.new.work ≡ None) }
        ensures steady { SteadyDesk behaviour registers pending self.new }
    {
        let stage = self.server.stage();
        let work = claim_given(self.manager, self.pass, stage, id)?;
        self.work = Some(work);
        Ok(work)
    }
}

/// Takes the element with this id into a new unit of work of the pass, if it waits in this stage.
fn claim_given(manager: &Manager, pass: &mut Pass, stage: u8, id: u32) -> Result<Work, Refusal>
    requires own { IsOf manager.now pass.old }
    requires stage { IsServerStage stage }
    requires free { pass.old.open_unit ≡ None }
    ensures own { IsOf manager.now pass.new }
    ensures turn { pass.new.from ≡ pass.old.from }
    ensures follows { Follows (given_steps manager.now.limits) pass.old pass.new }
    ensures answer { ClaimsGiven manager.now.limits stage id pass.old pass.new result }
{
    // Without units the manager refuses it, and makes no step.
    if manager.room(pass).units == 0 {
        return manager.claim_id(pass, id);
    }
    let look = manager.read(pass, id)?;
    if look.element.stage != stage {
        return Err(Refusal::BadStage);
    }
    manager.claim_id(pass, id)
}
