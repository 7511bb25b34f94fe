//! Races, performed, and the lines of their answers.
ghost use Rattle.std.specs.Prelude.{◌≡◌, ◌+◌, ◌≤◌, IfOk, length, string_bytes};
ghost use Rattle.tp_script.specs.Passes.{racers};
ghost use Rattle.tp_script.specs.Ranges.{IsRaceInRange};
ghost use Rattle.tp_script.specs.Script.{head_view};
ghost use Rattle.tp_script.specs.declared.head.Act.TheVariants as act;
ghost use Rattle.tp_perform.specs.Left.{began_in};
ghost use Rattle.tp_perform.specs.Standing.{IsHeld, Leads, RaceTold};

use crate::held::Held;
use std::alloc::{AllocError, Global};
use std::string::String;
use std::thread::Threads;
use tp_commands::{Racing, race_next};
use tp_script::{Head, Race};
use tp_server::Server;

/// Performs a race by the passes behind those of the races before it, which took so many. All gather.
pub(crate) fn race_told<T: Threads + Sync>(
    rt: &T,
    alloc: Global,
    head: &Head,
    held: &mut Held,
    raced: usize,
    plan: Race,
) -> Result<String, AllocError>
    requires held { IsHeld behaviour registers pending head.now held.old }
    requires in_range { IsRaceInRange plan }
    requires room { 1 + length held.old.servers.items + (raced + racers (act.Race plan))
        ≤ length held.old.managed.passes.items }
    ensures held { IsHeld behaviour registers pending head.now held.new }
    ensures limits { held.new.managed.manager.limits ≡ held.old.managed.manager.limits }
    ensures began { began_in registers held.new ≡ began_in registers held.old }
    ensures tells { IfOk result (λ text. Leads behaviour registers pending (λ old new.
        RaceTold (head_view head.now) plan raced old (string_bytes text) new) held.old held.new) }
{
    let racing = Racing {
        rt,
        alloc,
        head,
        manager: &held.managed.manager,
        plan,
        behind: raced,
    };
    race_next(
        &racing,
        &mut held.managed.keeper,
        held.managed.passes.as_mut_slice(),
        held.servers.as_mut_slice(),
        held.places.as_mut_slice(),
    )
}
