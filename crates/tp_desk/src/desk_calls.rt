//! The making of a desk, the parts of its work (claim, prepare, commit or abort), and its end.
ghost use Rattle.tp_model.specs.declared.types.TheConstants.{MAX_OUTPUTS};
ghost use Rattle.std.specs.Prelude.{◌≡◌, [], ◌∷◌, None, Some, IsSome, IfErr, IfSome, OnOk, OnErr};
ghost use Rattle.tp_model.specs.Steps.{AreLimits, IsServerStage};
ghost use Rattle.tp_manager.specs.Shown.{IsOf};
ghost use Rattle.tp_manager.specs.Calls.{Claims, ClaimsNext, AnswersAbort, Follows};
ghost use Rattle.tp_server.specs.Asked.{Asks, Prepare};
ghost use Rattle.tp_server.specs.Behaviour.{IsMade};
ghost use Rattle.tp_desk.specs.Asking.{settling, undo_of};
ghost use Rattle.tp_desk.specs.InHand.{work_of};
ghost use Rattle.tp_desk.specs.Orders.{ClaimsBy, KeepsTurn, steps_by};
ghost use Rattle.tp_desk.specs.Serving.{Leaves};
ghost use Rattle.tp_desk.specs.Aside.{SteadyAside};
ghost use Rattle.tp_desk.specs.Steady.{IsSameDesk, SteadyDesk};
ghost use Rattle.tp_desk.specs.Turns.{Declines, EndsOpen, Finishes, registers_left};
ghost use Rattle.tp_manager.specs.Bounds.{abort_steps, claim_steps, claim_next_steps, commit_steps};

use crate::aside::Aside;
use crate::desk::Desk;
use crate::server_calls;
use tp_manager::{Manager, Pass};
use tp_model::types::{Claimed, Ended, Outcome, Work};
use tp_server::{Declined, Order, Server};

impl<'m, 'p, 's> Desk<'m, 'p, 's> {
    /// A desk for a pass of this manager that has no unit open, and a server that has nothing prepared.
    pub fn new(
        manager: &'m Manager,
        pass: &'p mut Pass,
        server: &'s mut Box<dyn Server + Send>,
    ) -> Desk<'m, 'p, 's>
        requires own { IsOf manager.now pass.old }
        requires free { pass.old.open_unit ≡ None }
        requires unprepared { pending server.old ≡ None }
        ensures manager { result.manager.now ≡ manager.now }
        ensures same_pass { result.pass.ghost_name ≡ pass.entry.ghost_name }
        ensures same_server { result.server.ghost_name ≡ server.entry.ghost_name }
        ensures pass { result.pass.now ≡ pass.old }
        ensures server { result.server.now ≡ server.old }
        ensures first_pass { result.first_pass.value ≡ pass.old }
        ensures first_server { result.first_server.value ≡ server.old }
        ensures free { result.work ≡ None }
        ensures steady { SteadyDesk behaviour registers pending result }
    {
        let nothing = Aside::nothing(pass, server);
        Desk::resume(manager, pass, server, nothing)
    }

    /// The desk of this pass and this server goes on with what it had laid aside. Its fold begins where it
    /// did before.
    pub fn resume(
        manager: &'m Manager,
        pass: &'p mut Pass,
        server: &'s mut Box<dyn Server + Send>,
        aside: Aside,
    ) -> Desk<'m, 'p, 's>
        requires own { IsOf manager.now pass.old }
        requires steady { SteadyAside behaviour registers pending aside pass.old server.old }
        ensures manager { result.manager.now ≡ manager.now }
        ensures same_pass { result.pass.ghost_name ≡ pass.entry.ghost_name }
        ensures same_server { result.server.ghost_name ≡ server.entry.ghost_name }
        ensures pass { result.pass.now ≡ pass.old }
        ensures server { result.server.now ≡ server.old }
        ensures work { result.work ≡ aside.work }
        ensures drafts { result.drafts.items ≡ aside.drafts.items }
        ensures same_first { (result.first_pass ≡ aside.first_pass)
            × (result.first_server ≡ aside.first_server) }
        ensures steady { SteadyDesk behaviour registers pending result }
    {
        Desk {
            manager,
            pass,
            server,
            work: aside.work,
            drafts: aside.drafts,
            first_pass: aside.first_pass,
            first_server: aside.first_server,
        }
    }

    /// Takes the element of the least id that waits in the server's stage in hand. Nothing is in hand yet.
    pub fn claim(&mut self) -> Claimed
        requires steady { SteadyDesk behaviour registers pending self.old }
        requires free { self.old.work ≡ None }
        ensures same { IsSameDesk self.old self.new }
        ensures server { self.new.server.now ≡ self.old.server.now }
        ensures limits { AreLimits self.old.manager.now.limits }
        ensures turn { self.new.pass.now.from ≡ self.old.pass.now.from }
        ensures follows { Follows (claim_steps self.old.manager.now.limits) self.old.pass.now
            self.new.pass.now }
        ensures answer { Claims self.old.manager.now.limits (behaviour self.old.server.now).stage
            self.old.pass.now self.new.pass.now result }
        ensures work { self.new.work ≡ work_of result }
        ensures steady { SteadyDesk behaviour registers pending self.new }
    {
        self.claim_by(Order::LeastFirst)
    }

    /// Takes in hand what waits in the server's stage and comes next in its turn. It is the first after the
    /// element that the pass took last by such a claim. After the last id comes the first. Nothing is in hand
    /// yet.
    pub fn claim_next(&mut self) -> Claimed
        requires steady { SteadyDesk behaviour registers pending self.old }
        requires free { self.old.work ≡ None }
        ensures same { IsSameDesk self.old self.new }
        ensures server { self.new.server.now ≡ self.old.server.now }
        ensures limits { AreLimits self.old.manager.now.limits }
        ensures follows { Follows (claim_next_steps self.old.manager.now.limits) self.old.pass.now
            self.new.pass.now }
        ensures answer { ClaimsNext self.old.manager.now.limits (behaviour self.old.server.now).stage
            self.old.pass.now self.new.pass.now result }
        ensures work { self.new.work ≡ work_of result }
        ensures steady { SteadyDesk behaviour registers pending self.new }
    {
        self.claim_by(Order::InTurn)
    }

    /// Claims in this order, as `claim` or as `claim_next`.
    pub fn claim_by(&mut self, order: Order) -> Claimed
        requires steady { SteadyDesk behaviour registers pending self.old }
        requires free { self.old.work ≡ None }
        ensures same { IsSameDesk self.old self.new }
        ensures server { self.new.server.now ≡ self.old.server.now }
        ensures limits { AreLimits self.old.manager.now.limits }
        ensures turn { KeepsTurn order self.old.pass.now self.new.pass.now }
        ensures pass_limits { self.new.pass.now.limits ≡ self.old.manager.now.limits }
        ensures follows { Follows (steps_by order self.old.manager.now.limits) self.old.pass.now
            self.new.pass.now }
        ensures answer { ClaimsBy order self.old.manager.now.limits (behaviour self.old.server.now).stage
            self.old.pass.now self.new.pass.now result }
        ensures work { self.new.work ≡ work_of result }
        ensures steady { SteadyDesk behaviour registers pending self.new }
    {
        let stage = self.server.stage();
        let answer = claim_in(self.manager, self.pass, order, stage);
        self.work = work_of(answer);
        answer
    }

    /// Has the server prepare the element in hand. Where it declines the element, the unit of work is
    /// aborted and nothing is in hand any more.
    pub fn prepare(&mut self) -> Result<(), Declined>
        requires steady { SteadyDesk behaviour registers pending self.old }
        requires busy { IsSome self.old.work }
        requires unprepared { pending self.old.server.now ≡ None }
        ensures same { IsSameDesk self.old self.new }
        ensures behaviour { behaviour self.new.server.now ≡ behaviour self.old.server.now }
        ensures registers { registers self.new.server.now ≡ registers self.old.server.now }
        ensures made { OnOk result (IfSome self.old.work (λ work. IsMade (behaviour self.old.server.now)
            (registers self.old.server.now) work.element (pending self.new.server.now)
            self.new.drafts.items)) }
        ensures ready { OnOk result ((self.new.pass.now ≡ self.old.pass.now) × (self.new.work ≡ self.old.work)
            × IsSome (pending self.new.server.now)) }
        ensures free { OnErr result (self.new.work ≡ None) }
        ensures clear { OnErr result (pending self.new.server.now ≡ None) }
        ensures asked { IfSome self.old.work
            (λ work. Asks (Prepare work.element (registers self.old.server.now) ∷ [])
            (asked self.old.server.now) (asked self.new.server.now)) }
        ensures turn { self.new.pass.now.from ≡ self.old.pass.now.from }
        ensures follows { OnErr result (Follows abort_steps self.old.pass.now self.new.pass.now) }
        ensures answer { IfErr result (λ why. IfSome self.old.work (λ work.
            Declines (behaviour self.old.server.now) (registers self.old.server.now) work why
            self.old.pass.now self.new.pass.now)) }
        ensures steady { SteadyDesk behaviour registers pending self.new }
    {
        let Some(work) = self.work else {
            unreachable!();
        };
        match server_calls::prepare(self.server, &work.element) {
            Ok(drafts) => {
                self.drafts = drafts;
                Ok(())
            }
            Err(why) => {
                let _ = self.manager.abort(self.pass);
                self.work = None;
                Err(why)
            }
        }
    }

    /// Commits the prepared work: the server keeps it exactly where the manager has committed its unit, and
    /// else calls it off. Nothing is in hand any more.
    pub fn commit(&mut self) -> Outcome
        requires steady { SteadyDesk behaviour registers pending self.old }
        requires prepared { IsSome (pending self.old.server.now) }
        ensures same { IsSameDesk self.old self.new }
        ensures behaviour { behaviour self.new.server.now ≡ behaviour self.old.server.now }
        ensures registers { Some (registers self.new.server.now)
            ≡ registers_left result (registers self.old.server.now) (pending self.old.server.now) }
        ensures asked { Asks (settling result (pending self.old.server.now)) (asked self.old.server.now)
            (asked self.new.server.now) }
        ensures clear { pending self.new.server.now ≡ None }
        ensures free { self.new.work ≡ None }
        ensures turn { self.new.pass.now.from ≡ self.old.pass.now.from }
        ensures follows { Follows (commit_steps self.old.manager.now.limits MAX_OUTPUTS)
            self.old.pass.now self.new.pass.now }
        ensures answer { IfSome self.old.work (λ work.
            Finishes (behaviour self.old.server.now) (registers self.old.server.now) work
            self.old.pass.now self.new.pass.now result (registers self.new.server.now)) }
        ensures steady { SteadyDesk behaviour registers pending self.new }
    {
        let outcome = self.manager.commit(self.pass, self.drafts.as_slice());
        self.work = None;
        server_calls::settle(self.server, outcome);
        outcome
    }

    /// Gives up the element in hand: prepared work is called off, and the unit of work is aborted.
    pub fn abort(&mut self) -> Ended
        requires steady { SteadyDesk behaviour registers pending self.old }
        requires busy { IsSome self.old.work }
        ensures same { IsSameDesk self.old self.new }
        ensures behaviour { behaviour self.new.server.now ≡ behaviour self.old.server.now }
        ensures registers { registers self.new.server.now ≡ registers self.old.server.now }
        ensures asked { Asks (undo_of (pending self.old.server.now)) (asked self.old.server.now)
            (asked self.new.server.now) }
        ensures clear { pending self.new.server.now ≡ None }
        ensures free { self.new.work ≡ None }
        ensures turn { self.new.pass.now.from ≡ self.old.pass.now.from }
        ensures follows { Follows abort_steps self.old.pass.now self.new.pass.now }
        ensures answer { AnswersAbort self.old.pass.now self.new.pass.now result }
        ensures steady { SteadyDesk behaviour registers pending self.new }
    {
        server_calls::clear(self.server);
        self.work = None;
        self.manager.abort(self.pass)
    }

    /// Ends the desk: prepared work is called off and an open unit of work aborted. So the lenders find a
    /// pass with no unit open, and a server with the registers of committed work. A drop does the same.
    pub fn end(self)
        ensures free { self.exit.1.0.now.open_unit ≡ None }
        ensures clear { pending self.exit.1.1.0.now ≡ None }
        ensures own { IsOf self.entry.manager.now self.exit.1.0.now }
        ensures behaviour { behaviour self.exit.1.1.0.now ≡ behaviour self.entry.server.now }
        ensures registers { registers self.exit.1.1.0.now ≡ registers self.entry.server.now }
        ensures asked { Asks (undo_of (pending self.entry.server.now)) (asked self.entry.server.now)
            (asked self.exit.1.1.0.now) }
        ensures adds { EndsOpen self.entry.pass.now.open_unit self.entry.pass.now self.exit.1.0.now }
        ensures turn { self.exit.1.0.now.from ≡ self.entry.pass.now.from }
        ensures follows { IfSome self.entry.pass.now.open_unit (λ _.
            Follows abort_steps self.entry.pass.now self.exit.1.0.now) }
        ensures leaves { SteadyDesk behaviour registers pending self.entry
            → Leaves (behaviour self.exit.1.1.0.now) (registers self.entry.first_server.value)
            (registers self.exit.1.1.0.now) self.entry.first_pass.value self.exit.1.0.now }
    {
        drop(self);
    }
}

/// The manager's claim in this order.
fn claim_in(manager: &Manager, pass: &mut Pass, order: Order, stage: u8) -> Claimed
    requires own { IsOf manager.now pass.old }
    requires stage { IsServerStage stage }
    requires free { pass.old.open_unit ≡ None }
    ensures own { IsOf manager.now pass.new }
    ensures limits { AreLimits manager.now.limits }
    ensures turn { KeepsTurn order pass.old pass.new }
    ensures follows { Follows (steps_by order manager.now.limits) pass.old pass.new }
    ensures answer { ClaimsBy order manager.now.limits stage pass.old pass.new result }
{
    match order {
        Order::LeastFirst => manager.claim(pass, stage),
        Order::InTurn => manager.claim_next(pass, stage),
    }
}

/// The work that a claim puts in hand.
fn work_of(answer: Claimed) -> Option<Work>
    ensures { result ≡ work_of answer }
{
    match answer {
        Claimed::Work(work) => Some(work),
        Claimed::Idle => None,
        Claimed::NoUnit => None,
    }
}
