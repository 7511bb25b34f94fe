//! Clients in a shift.
ghost use Rattle.std.specs.Prelude.{◌≡◌, ◌<◌, ◌≤◌, ◌^◌, [], get_or, length};
ghost use Rattle.tp_manager.specs.Shown.{IsOf};
ghost use Rattle.tp_workers.specs.Clients.{ClientRan, IsClientOf, SubmitsOnce};
ghost use Rattle.tp_workers.specs.Sums.{calls_of};
ghost use Rattle.tp_workers.specs.Tally.{total};

use crate::gate::{Gate, Point};
use crate::tally::Shift;
use std::marker::Model;
use tp_manager::{Manager, Pass};
use tp_model::types::{Body, Refusal};

/// To submit each of these bodies once, in their order, to a stage of a server's.
#[derive(Debug, Drop)]
pub struct ClientJob {
    pub stage: u8,
    pub bodies: Vec<Body>,
}

impl Model for ClientJob {
    ghost use Rattle.tp_workers.specs.Clients.{JobShown};

    ghost Value = { JobShown };

    ghost view = { λ j. record { stage = j.stage; bodies = j.bodies.items } };
}

/// Has a client submit each of its bodies.
pub(crate) fn run_client<G: Gate>(
    manager: &Manager,
    pass: &mut Pass,
    job: &ClientJob,
    worker: u32,
    gate: &G,
) -> Shift
    requires ready { IsClientOf manager.now (pass.old, job.now) }
    requires fits { calls_of job.now < 2 ^ 32 }
    ensures ran { ClientRan manager.now (pass.old, job.now) result (pass.new, job.now) }
    ensures bound { total result ≤ calls_of job.now }
{
    let mut counts = Shift::none();
    for at in 0..job.bodies.len() {
        let answer = submit_at(manager, pass, job, at, worker, gate);
        counts = counts.plus(Shift::of_submit(answer));
    }
    counts
}

/// A submit of the body at this place, with a pause before and after it.
fn submit_at<G: Gate>(
    manager: &Manager,
    pass: &mut Pass,
    job: &ClientJob,
    at: usize,
    worker: u32,
    gate: &G,
) -> Result<u32, Refusal>
    requires within { at < length job.now.bodies }
    requires own { IsOf manager.now pass.old }
    ensures own { IsOf manager.now pass.new }
    ensures call { SubmitsOnce manager.now.limits job.now.stage (get_or job.now.bodies at []) pass.old result
        pass.new }
{
    gate.pause(worker, Point::Start);
    let answer = manager.submit(pass, job.stage, job.bodies[at]);
    gate.pause(worker, Point::Settled);
    answer
}
