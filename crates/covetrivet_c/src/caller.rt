//! A pass with its manager: what one caller acts through.
ghost use Rattle.std.specs.Prelude.{◌≡◌};
ghost use Rattle.std.specs.Arc.{arc_value};
ghost use Rattle.tp_manager.specs.Shown.{IsOf};

use std::alloc::Global;
use std::sync::Arc;
use tp_manager::{Manager, Pass, Room};

/// A pass, and an owner of its manager.
#[derive(Drop)]
pub struct Caller {
    pub manager: Arc<Manager, Global>,
    pub pass: Pass,
    pub ghost own: { IsOf (arc_value manager) pass },
}

impl Caller {
    ghost use Rattle.std.specs.Prelude.{◌≡◌, ◌+◌};
    ghost use Rattle.tp_manager.specs.Calls.{Follows, HasLooked, IsQuiet, claims_in};
    ghost use Rattle.tp_manager.specs.Bounds.{meet_steps, met_steps};
    ghost use Rattle.tp_manager.specs.Meetings.{Meets};
    ghost use Rattle.covetrivet_c.specs.Callers.{caller_limits, open_code};

    /// What is left to the pass.
    pub fn room(&self) -> Room
        ensures rows { result.rows ≡ self.now.pass.left }
        ensures units { claims_in self.now.pass.mine + result.units ≡ (caller_limits self.now).units }
    {
        self.manager.room(&self.pass)
    }

    /// 1 where the pass has a unit of work open, and else 0.
    pub fn open_code(&self) -> u8
        ensures { result ≡ open_code self.now.pass.open_unit }
    {
        if self.pass.has_open() {
            return 1;
        }
        0
    }

    /// Two passes of one manager show each other what they have seen.
    pub fn meet(&mut self, other: &mut Caller)
        requires same { arc_value self.old.manager ≡ arc_value other.old.manager }
        ensures manager { (self.new.manager ≡ self.old.manager) × (other.new.manager ≡ other.old.manager) }
        ensures steps { Follows meet_steps self.old.pass self.new.pass
            × Follows met_steps other.old.pass other.new.pass }
        ensures quiet { IsQuiet self.old.pass self.new.pass × IsQuiet other.old.pass other.new.pass }
        ensures looks { HasLooked self.old.pass self.new.pass × HasLooked other.old.pass other.new.pass }
        ensures turn { (self.new.pass.from ≡ self.old.pass.from)
            × (other.new.pass.from ≡ other.old.pass.from) }
        ensures meets { Meets self.old.pass other.old.pass self.new.pass other.new.pass }
    {
        self.manager.meet(&mut self.pass, &mut other.pass);
    }
}

/// The pass of a caller that is given up.
pub(crate) fn pass_of(caller: Caller) -> Pass
    ensures { result ≡ caller.pass }
{
    let Caller { manager: _, pass } = caller;
    pass
}
