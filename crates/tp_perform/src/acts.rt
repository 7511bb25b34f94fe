//! What a line of a script asks for, performed, and the line of its answer. All passes gather behind it.
ghost use Rattle.std.specs.Prelude.{◌≡◌, ◌+◌, ◌≤◌, IfOk, length, string_bytes, vec_len};
ghost use Rattle.tp_script.specs.Passes.{racers};
ghost use Rattle.tp_script.specs.Ranges.{IsActInRange};
ghost use Rattle.tp_perform.specs.Left.{ActDone, Reaches};
ghost use Rattle.tp_perform.specs.Standing.{ActTold, IsHeld, Leads};

use crate::commands::{command_told, drain_told};
use crate::held::Held;
use crate::racing::race_told;
use crate::rolling::rollover_told;
use std::alloc::{AllocError, Global};
use std::string::String;
use std::thread::Threads;
use tp_desk::Order;
use tp_script::{Act, Head};
use tp_server::Server;

/// Has done what a line of a script asks for, behind races that took so many passes, after which all passes
/// gather, and answers the line of its answer.
pub fn act_told<T: Threads + Sync>(
    rt: &T,
    alloc: Global,
    head: &Head,
    held: &mut Held,
    raced: usize,
    act: &Act,
) -> Result<String, AllocError>
    requires held { IsHeld behaviour registers pending head.now held.old }
    requires in_range { IsActInRange (vec_len head.now.servers) act.now }
    requires room { 1 + length held.old.servers.items + (raced + racers act.now)
        ≤ length held.old.managed.passes.items }
    ensures held { IsHeld behaviour registers pending head.now held.new }
    ensures limits { held.new.managed.manager.limits ≡ held.old.managed.manager.limits }
    ensures went { Reaches behaviour registers pending (ActDone head.now raced act.now) held.old held.new }
    ensures tells { IfOk result (λ text. Leads behaviour registers pending (λ old new.
        ActTold head.now raced act.now old (string_bytes text) new) held.old held.new) }
{
    match act {
        Act::Command(command) => command_told(alloc, head, held, *command),
        Act::Race(plan) => race_told(rt, alloc, head, held, raced, *plan),
        Act::Drain => drain_told(alloc, head, held, Order::LeastFirst),
        Act::DrainNext => drain_told(alloc, head, held, Order::InTurn),
        Act::Rollover => rollover_told(alloc, head, held),
    }
}
