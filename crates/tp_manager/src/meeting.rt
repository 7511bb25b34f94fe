//! The meeting of two passes.
ghost use Rattle.std.specs.Prelude.{◌≡◌};
ghost use Rattle.tp_manager.specs.Shown.{IsOf};
ghost use Rattle.tp_manager.specs.Bounds.{meet_steps, met_steps};
ghost use Rattle.tp_manager.specs.Calls.{Follows, HasLooked, IsQuiet};
ghost use Rattle.tp_manager.specs.Meetings.{Meets};

use crate::manager::{Manager, Pass};

impl Manager {
    /// Two passes of the manager show each other what they have seen: both have then seen the same history,
    /// with all that either had seen. The first makes three steps, of which the one in the middle is the
    /// second's too.
    pub fn meet(&self, first: &mut Pass, second: &mut Pass)
        requires own { IsOf self.now first.old × IsOf self.now second.old }
        ensures own { IsOf self.now first.new × IsOf self.now second.new }
        ensures first { Follows meet_steps first.old first.new }
        ensures second { Follows met_steps second.old second.new }
        ensures quiet { IsQuiet first.old first.new × IsQuiet second.old second.new }
        ensures looks { HasLooked first.old first.new × HasLooked second.old second.new }
        ensures turn { (first.new.from ≡ first.old.from) × (second.new.from ≡ second.old.from) }
        ensures meets { Meets first.old second.old first.new second.new }
    {
        self.shared.words.meet(&mut first.seat, &mut second.seat);
    }
}
