//! A turn of a desk.
ghost use Rattle.tp_model.specs.declared.types.TheConstants.{MAX_OUTPUTS};
ghost use Rattle.std.specs.Prelude.{◌≡◌, None, Some};
ghost use Rattle.tp_model.specs.Steps.{AreLimits};
ghost use Rattle.tp_manager.specs.Bounds.{commit_steps};
ghost use Rattle.tp_manager.specs.Calls.{Follows};
ghost use Rattle.tp_server.specs.Asked.{Asks};
ghost use Rattle.tp_desk.specs.Asking.{turn_asks};
ghost use Rattle.tp_desk.specs.Orders.{KeepsTurn};
ghost use Rattle.tp_desk.specs.Steady.{IsSameDesk, SteadyDesk};
ghost use Rattle.tp_desk.specs.Turns.{Turns, WorksOff, turn_steps};

use crate::desk::Desk;
use tp_model::types::{Claimed, Work};
use tp_server::{Order, Turned};

impl Desk<'_, '_, '_> {
    /// Takes an element in hand, does its work and commits it: one claim, and where it took an element, one
    /// commit, or one abort where the server declines it.
    pub fn turn(&mut self) -> Turned
        requires steady { SteadyDesk behaviour registers pending self.old }
        requires free { self.old.work ≡ None }
        ensures same { IsSameDesk self.old self.new }
        ensures behaviour { behaviour self.new.server.now ≡ behaviour self.old.server.now }
        ensures free { self.new.work ≡ None }
        ensures limits { AreLimits self.old.manager.now.limits }
        ensures turn { self.new.pass.now.from ≡ self.old.pass.now.from }
        ensures follows { Follows (turn_steps Order.LeastFirst self.old.manager.now.limits) self.old.pass.now
            self.new.pass.now }
        ensures answer { Turns Order.LeastFirst self.old.manager.now.limits (behaviour self.old.server.now)
            (registers self.old.server.now)
            self.old.pass.now self.new.pass.now result (registers self.new.server.now) }
        ensures asked { Asks (turn_asks result self.new.pass.now.seen (registers self.old.server.now)
            (registers self.new.server.now)) (asked self.old.server.now) (asked self.new.server.now) }
        ensures steady { SteadyDesk behaviour registers pending self.new }
    {
        self.turn_by(Order::LeastFirst)
    }

    /// A turn whose claim is in turn: an element that is declined isn't tried again before each other one had
    /// its turn.
    pub fn turn_next(&mut self) -> Turned
        requires steady { SteadyDesk behaviour registers pending self.old }
        requires free { self.old.work ≡ None }
        ensures same { IsSameDesk self.old self.new }
        ensures behaviour { behaviour self.new.server.now ≡ behaviour self.old.server.now }
        ensures free { self.new.work ≡ None }
        ensures limits { AreLimits self.old.manager.now.limits }
        ensures follows { Follows (turn_steps Order.InTurn self.old.manager.now.limits) self.old.pass.now
            self.new.pass.now }
        ensures answer { Turns Order.InTurn self.old.manager.now.limits (behaviour self.old.server.now)
            (registers self.old.server.now)
            self.old.pass.now self.new.pass.now result (registers self.new.server.now) }
        ensures asked { Asks (turn_asks result self.new.pass.now.seen (registers self.old.server.now)
            (registers self.new.server.now)) (asked self.old.server.now) (asked self.new.server.now) }
        ensures steady { SteadyDesk behaviour registers pending self.new }
    {
        self.turn_by(Order::InTurn)
    }

    /// A turn whose claim is in this order, as `turn` or as `turn_next`.
    pub fn turn_by(&mut self, order: Order) -> Turned
        requires steady { SteadyDesk behaviour registers pending self.old }
        requires free { self.old.work ≡ None }
        ensures same { IsSameDesk self.old self.new }
        ensures behaviour { behaviour self.new.server.now ≡ behaviour self.old.server.now }
        ensures free { self.new.work ≡ None }
        ensures limits { AreLimits self.old.manager.now.limits }
        ensures turn { KeepsTurn order self.old.pass.now self.new.pass.now }
        ensures follows { Follows (turn_steps order self.old.manager.now.limits) self.old.pass.now
            self.new.pass.now }
        ensures answer { Turns order self.old.manager.now.limits (behaviour self.old.server.now)
            (registers self.old.server.now)
            self.old.pass.now self.new.pass.now result (registers self.new.server.now) }
        ensures asked { Asks (turn_asks result self.new.pass.now.seen (registers self.old.server.now)
            (registers self.new.server.now)) (asked self.old.server.now) (asked self.new.server.now) }
        ensures steady { SteadyDesk behaviour registers pending self.new }
    {
        match self.claim_by(order) {
            Claimed::Idle => Turned::Idle,
            Claimed::NoUnit => Turned::NoUnit,
            Claimed::Work(work) => self.work_off(work),
        }
    }

    /// Does the work in hand and commits it.
    fn work_off(&mut self, work: Work) -> Turned
        requires steady { SteadyDesk behaviour registers pending self.old }
        requires taken { self.old.work ≡ Some work }
        requires unprepared { pending self.old.server.now ≡ None }
        ensures same { IsSameDesk self.old self.new }
        ensures behaviour { behaviour self.new.server.now ≡ behaviour self.old.server.now }
        ensures free { self.new.work ≡ None }
        ensures turn { self.new.pass.now.from ≡ self.old.pass.now.from }
        ensures follows { Follows (commit_steps self.old.manager.now.limits MAX_OUTPUTS)
            self.old.pass.now self.new.pass.now }
        ensures answer { WorksOff (behaviour self.old.server.now) (registers self.old.server.now) work
            self.old.pass.now self.new.pass.now result (registers self.new.server.now) }
        ensures asked { Asks (turn_asks result self.new.pass.now.seen (registers self.old.server.now)
            (registers self.new.server.now)) (asked self.old.server.now) (asked self.new.server.now) }
        ensures steady { SteadyDesk behaviour registers pending self.new }
    {
        match self.prepare() {
            Err(why) => Turned::Refused {
                element: work.element.id,
                why,
            },
            Ok(()) => Turned::settled(&work, self.commit()),
        }
    }
}
