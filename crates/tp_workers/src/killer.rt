//! Killers in a shift.
ghost use Rattle.std.specs.Prelude.{◌≡◌, ◌≤◌, ◌-◌, None};
ghost use Rattle.tp_manager.specs.Shown.{IsOf};
ghost use Rattle.tp_workers.specs.Killers.{IsKillerOf, KillerRan, KillsOnce};
ghost use Rattle.tp_workers.specs.Tally.{total};

use crate::gate::{Gate, Point};
use crate::tally::Shift;
use tp_manager::{Manager, Pass};
use tp_model::types::{Killed, Refusal};

/// To kill each id from `first` up to and without `end` once, in ascending order.
#[derive(Clone, Copy, Debug, PartialEq, Eq)]
pub struct KillJob {
    pub first: u32,
    pub end: u32,
}

/// Makes all calls of a killer.
pub(crate) fn run_killer<G: Gate>(
    manager: &Manager,
    pass: &mut Pass,
    job: &KillJob,
    worker: u32,
    gate: &G,
) -> Shift
    requires ready { IsKillerOf manager.now (pass.old, job.now) }
    ensures ran { KillerRan manager.now (pass.old, job.now) result (pass.new, job.now) }
    ensures bound { total result ≤ job.now.end - job.now.first }
{
    let mut counts = Shift::none();
    for id in job.first..job.end {
        let answer = kill_at(manager, pass, id, worker, gate);
        counts = counts.plus(Shift::of_kill(answer));
    }
    counts
}

/// A kill with a pause before and after it.
fn kill_at<G: Gate>(
    manager: &Manager,
    pass: &mut Pass,
    id: u32,
    worker: u32,
    gate: &G,
) -> Result<Killed, Refusal>
    requires own { IsOf manager.now pass.old }
    requires free { pass.old.open_unit ≡ None }
    ensures own { IsOf manager.now pass.new }
    ensures call { KillsOnce manager.now.limits id pass.old result pass.new }
{
    gate.pause(worker, Point::Start);
    let answer = manager.kill(pass, id);
    gate.pause(worker, Point::Settled);
    answer
}
