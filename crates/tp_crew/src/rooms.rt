//! How much is left to a crew.
ghost use Rattle.std.specs.Prelude.{◌≡◌, ◌≤◌, All, IfErr, IfOk, IfSome, None, Ok, length};
ghost use Rattle.tp_manager.specs.Shown.{IsOf};
ghost use Rattle.tp_rollover.specs.Bounds.{made_by_all, most_successor_steps, successor_steps};
ghost use Rattle.tp_rollover.specs.Managed.{IsRefusedFor};
ghost use Rattle.tp_crew.specs.Rooms.{IsLeastOfAll, part_rows_left, units_left};

use crate::crew::Crew;
use std::alloc::Global;
use tp_manager::{Manager, Pass, Room};
use tp_rollover::{Moved, RollFault};

/// The fewest rows, and the fewest units, that are left to one of these passes.
fn least_room(manager: &Manager, passes: &[Pass]) -> Room
    requires own { All (IsOf manager.now) passes.now }
    requires some { 1 ≤ length passes.now }
    ensures rows { IsLeastOfAll part_rows_left passes.now result.rows }
    ensures units { IsLeastOfAll (units_left manager.now.limits) passes.now result.units }
{
    let mut least = manager.room(&passes[0]);
    for place in 1..passes.len() {
        let room = manager.room(&passes[place]);
        least.rows = least.rows.min(room.rows);
        least.units = least.units.min(room.units);
    }
    least
}

impl Crew {
    ghost use Rattle.tp_crew.specs.Crew.{IsSteadyCrew};
    ghost use Rattle.tp_crew.specs.Rolling.{CrewRolls, CrewStays, RefusedWithin};
    ghost use Rattle.tp_crew.specs.Rooms.{CrewHasRoom, HasLeft, LacksRoom};

    /// The fewest rows, and the fewest units, that are left to one of the crew's passes. Spare blocks, which
    /// any pass may draw, aren't counted.
    pub fn room(&self) -> Room
        requires steady { IsSteadyCrew behaviour registers pending self.now }
        ensures left { HasLeft result.rows result.units self.now }
    {
        least_room(&self.managed.manager, &self.managed.passes)
    }

    /// Rolls over, as `roll_over` does, where one of the crew's passes has fewer rows or units left than
    /// these. The answer is `None` where all have enough, and then nothing has happened.
    pub fn roll_when(
        &mut self,
        alloc: Global,
        rows: u16,
        units: u16,
    ) -> Result<Option<Vec<Moved>>, RollFault>
        requires steady { IsSteadyCrew behaviour registers pending self.old }
        ensures steady { IsSteadyCrew behaviour registers pending self.new }
        ensures boxes { self.new.boxes ≡ self.old.boxes }
        ensures clients { self.new.clients ≡ self.old.clients }
        ensures limits { self.new.managed.manager.limits ≡ self.old.managed.manager.limits }
        ensures enough { result ≡ Ok None → (self.new ≡ self.old) × CrewHasRoom rows units self.old }
        ensures moved { IfOk result (λ answer. IfSome answer (λ moved. LacksRoom rows units self.old
            × CrewRolls self.old self.new moved.items)) }
        ensures refused { IfErr result (λ fault. LacksRoom rows units self.old
            × CrewStays self.old self.new) }
        ensures fault { IfErr result
            (IsRefusedFor self.old.managed.manager.limits self.old.managed.passes.items) }
        ensures steps { IfOk result (λ answer. IfSome answer (λ moved.
            made_by_all self.new.managed.keeper self.new.managed.passes.items
            ≤ most_successor_steps self.old.managed.manager.limits (length moved.items))) }
        ensures replayed { IfOk result (λ answer. IfSome answer (λ moved.
            made_by_all self.new.managed.keeper self.new.managed.passes.items
            ≤ successor_steps self.old.managed.manager.limits self.new.managed.keeper.seen moved.items)) }
        ensures refused_steps { IfErr result (λ fault. RefusedWithin self.old self.new) }
    {
        let room = self.room();
        if room.rows >= rows && room.units >= units {
            return Ok(None);
        }
        match self.roll_over(alloc) {
            Ok(moved) => Ok(Some(moved)),
            Err(fault) => Err(fault),
        }
    }
}
