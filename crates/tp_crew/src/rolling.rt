//! A crew goes on in a new manager.
ghost use Rattle.std.specs.Prelude.{◌≡◌, ◌≤◌, IfErr, IfOk, length};
ghost use Rattle.tp_rollover.specs.Bounds.{made_by_all, most_successor_steps, successor_steps};
ghost use Rattle.tp_rollover.specs.Managed.{IsRefusedFor};

use crate::crew::Crew;
use crate::fold_start::FoldStart;
use std::alloc::Global;
use tp_rollover::{Moved, RollFault};

impl Crew {
    ghost use Rattle.tp_crew.specs.Crew.{IsSteadyCrew};
    ghost use Rattle.tp_crew.specs.Rolling.{CrewRolls, CrewStays, RefusedWithin};

    /// What is alive, each element once, goes on in a new manager with the same limits, and the crew with it.
    /// Its boxes go on with their registers, and the folds of their work begin anew. The answer is what was
    /// carried over, in the order of the ids (`tp_rollover::roll_over`). Refused with `NoMemory` or `Full`
    /// alone: then the crew is as it was, but that its passes have looked.
    pub fn roll_over(&mut self, alloc: Global) -> Result<Vec<Moved>, RollFault>
        requires steady { IsSteadyCrew behaviour registers pending self.old }
        ensures steady { IsSteadyCrew behaviour registers pending self.new }
        ensures boxes { self.new.boxes ≡ self.old.boxes }
        ensures clients { self.new.clients ≡ self.old.clients }
        ensures limits { self.new.managed.manager.limits ≡ self.old.managed.manager.limits }
        ensures moved { IfOk result (λ moved. CrewRolls self.old self.new moved.items) }
        ensures refused { IfErr result (λ fault. CrewStays self.old self.new) }
        ensures fault { IfErr result
            (IsRefusedFor self.old.managed.manager.limits self.old.managed.passes.items) }
        ensures steps { let new = self.new.managed in IfOk result (λ moved.
            made_by_all new.keeper new.passes.items
            ≤ most_successor_steps self.old.managed.manager.limits (length moved.items)) }
        ensures replayed { let new = self.new.managed in IfOk result (λ moved.
            made_by_all new.keeper new.passes.items
            ≤ successor_steps self.old.managed.manager.limits new.keeper.seen moved.items) }
        ensures refused_steps { IfErr result (λ fault. RefusedWithin self.old self.new) }
    {
        match self.managed.roll_over(alloc) {
            Ok(moved) => {
                FoldStart::begin_all(&mut self.starts, &self.managed.passes, &self.boxes);
                Ok(moved)
            }
            Err(fault) => {
                let managed = &mut self.managed;
                managed.keeper.gather(&managed.manager, &mut managed.passes);
                Err(fault)
            }
        }
    }
}
