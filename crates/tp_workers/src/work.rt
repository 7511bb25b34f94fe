//! A shift of desks, clients and killers.
ghost use Rattle.std.specs.Prelude.{◌≡◌, ◌+◌, ◌-◌, ◌*◌, ◌<◌, ◌≤◌, ◌^◌, None, All, sum_by, length, zip};
ghost use Rattle.tp_workers.specs.Asking.{AsksTurns};
ghost use Rattle.tp_workers.specs.Clients.{ClientRan, IsClientJob, IsClientOf};
ghost use Rattle.tp_workers.specs.Desks.{DeskRan, IsDeskOf};
ghost use Rattle.tp_workers.specs.Free.{IsFreePass};
ghost use Rattle.tp_manager.specs.Shown.{numbers};
ghost use Rattle.tp_workers.specs.Gains.{commits_in, enqueues_in, kills_in};
ghost use Rattle.tp_workers.specs.Lent.{by_left, on_left};
ghost use Rattle.tp_workers.specs.Killers.{IsKillJob, IsKillerOf, KillerRan};
ghost use Rattle.tp_workers.specs.Ran.{AreTold, RanEach};
ghost use Rattle.tp_workers.specs.Sums.{calls_of, client_part, desk_part, killer_part, size_of_range};
ghost use Rattle.tp_workers.specs.Tally.{total};

use crate::client::{ClientJob, run_client};
use crate::desks::run_desk;
use crate::fork::{Part, fork_three, number_after};
use crate::gate::Gate;
use crate::killer::{KillJob, run_killer};
use crate::plan::Plan;
use crate::tally::Shift;
use std::thread::Threads;
use tp_manager::{Manager, Pass};
use tp_server::Server;

/// What a shift is run with: its threads, the manager, what each desk is to do, and what holds workers at
/// their points.
#[derive(Drop)]
pub struct ShiftMeans<'r, 'm, 'g, R: Threads + Sync, G: Gate> {
    pub rt: &'r R,
    pub manager: &'m Manager,
    pub plan: Plan,
    pub gate: &'g G,
}

/// Workers of one kind, side by side: the passes that they work on, and beside each what it is worked by, a
/// server or a job.
#[derive(Drop)]
pub struct Workers<'p, 'w, W> {
    pub on: &'p mut [Pass],
    pub by: &'w mut [W],
}

/// Runs a desk of each of the desks' passes with the server beside it, and a client or a killer of each of
/// theirs with the job beside it, each on a thread of its own. It returns when all are through. A desk takes
/// as many turns as planned, claiming in the planned order, or fewer where its pass has no unit left. The
/// answer is what all did together; where `counts` has a place for each desk, what each desk did is left
/// there.
///
/// All passes come from this manager's keeper and have no unit open, and the servers have nothing prepared;
/// so it is afterwards. The jobs stay as they are.
pub fn shift<R: Threads + Sync, G: Gate>(
    means: &ShiftMeans<R, G>,
    desks: Workers<Box<dyn Server + Send>>,
    clients: Workers<ClientJob>,
    killers: Workers<KillJob>,
    counts: &mut [Shift],
) -> Shift
    requires servers_paired { length desks.on.now ≡ length desks.by.now }
    requires clients_paired { length clients.on.now ≡ length clients.by.now }
    requires killers_paired { length killers.on.now ≡ length killers.by.now }
    requires desks_free { All (IsFreePass means.now.manager.now) desks.on.now }
    requires servers_clear { All (λ server. pending server ≡ None) desks.by.now }
    requires clients_free { All (IsFreePass means.now.manager.now) clients.on.now }
    requires client_jobs { All IsClientJob clients.by.now }
    requires killers_free { All (IsFreePass means.now.manager.now) killers.on.now }
    requires kill_jobs { All IsKillJob killers.by.now }
    requires turns_fit { means.now.plan.turns * length desks.on.now < 2 ^ 32 }
    requires counts_fit { sum_by calls_of clients.by.now < 2 ^ 32 }
    requires ranges_fit { sum_by size_of_range killers.by.now < 2 ^ 32 }

    // Each worker did what its own counts say, and the answer adds them up.
    ensures desks { RanEach (DeskRan behaviour registers pending means.now.manager.now means.now.plan)
        desks.entry.on.now desks.entry.by.now (desk_part result) (on_left desks.exit) (by_left desks.exit) }
    ensures clients { RanEach (ClientRan means.now.manager.now) clients.entry.on.now clients.entry.by.now
        (client_part result) (on_left clients.exit) (by_left clients.exit) }
    ensures killers { RanEach (KillerRan means.now.manager.now) killers.entry.on.now killers.entry.by.now
        (killer_part result) (on_left killers.exit) (by_left killers.exit) }
    ensures each_desk { AreTold (DeskRan behaviour registers pending means.now.manager.now means.now.plan)
        desks.entry.on.now desks.entry.by.now counts.old (desk_part result)
        (on_left desks.exit) (by_left desks.exit) counts.new }
    ensures asked { let means = means.now in
        RanEach (AsksTurns behaviour registers pending asked means.manager.now means.plan.order)
        desks.entry.on.now desks.entry.by.now (desk_part result) (on_left desks.exit) (by_left desks.exit) }

    // All of them can be put to work again.
    ensures desks_free { All (IsFreePass means.now.manager.now) (on_left desks.exit) }
    ensures servers_clear { All (λ server. pending server ≡ None) (by_left desks.exit) }
    ensures clients_free { All (IsFreePass means.now.manager.now) (on_left clients.exit) }
    ensures killers_free { All (IsFreePass means.now.manager.now) (on_left killers.exit) }
    ensures desks_numbered { numbers (on_left desks.exit) ≡ numbers desks.entry.on.now }
    ensures clients_numbered { numbers (on_left clients.exit) ≡ numbers clients.entry.on.now }
    ensures killers_numbered { numbers (on_left killers.exit) ≡ numbers killers.entry.on.now }
    ensures clients_same { by_left clients.exit ≡ clients.entry.by.now }
    ensures killers_same { by_left killers.exit ≡ killers.entry.by.now }
    ensures desks_kept { (length (on_left desks.exit) ≡ length desks.entry.on.now)
        × (length (by_left desks.exit) ≡ length desks.entry.by.now) }
    ensures clients_kept { length (on_left clients.exit) ≡ length clients.entry.on.now }
    ensures killers_kept { length (on_left killers.exit) ≡ length killers.entry.on.now }

    // The counts are sums of what the passes gained, and of what was asked.
    ensures done { result.done + sum_by commits_in desks.entry.on.now
        ≡ sum_by commits_in (on_left desks.exit) }
    ensures submitted { result.submitted + sum_by enqueues_in clients.entry.on.now
        ≡ sum_by enqueues_in (on_left clients.exit) }
    ensures killed { result.killed + sum_by kills_in killers.entry.on.now
        ≡ sum_by kills_in (on_left killers.exit) }
    ensures all_turns { result.nounit ≡ 0
        → result.done + result.refused + result.lost + result.full + result.idle
        ≡ means.now.plan.turns * length desks.entry.on.now }
    ensures all_calls { result.submitted + result.submit_full ≡ sum_by calls_of clients.entry.by.now }
    ensures all_ids { result.killed + result.late + result.already + result.missing
        ≡ sum_by size_of_range killers.entry.by.now }
{
    let manager = means.manager;
    let plan = means.plan;
    let gate = means.gate;
    let desk = |pass: &mut Pass, server: &mut Box<dyn Server + Send>, worker: u32| -> Shift
        requires { IsDeskOf behaviour registers pending manager.now (pass.now, server.now) }
        ensures { DeskRan behaviour registers pending manager.entry.now plan
            (pass.entry.now, server.entry.now) result (pass.exit.now, server.exit.now)
            × AsksTurns behaviour registers pending asked manager.entry.now plan.order
            (pass.entry.now, server.entry.now) result (pass.exit.now, server.exit.now)
            × (total result ≤ plan.turns) }
    { run_desk(manager, pass, server, plan, worker, gate) };
    let client = |pass: &mut Pass, job: &mut ClientJob, worker: u32| -> Shift
        requires { IsClientOf manager.now (pass.now, job.now) × (calls_of job.now < 2 ^ 32) }
        ensures { ClientRan manager.entry.now (pass.entry.now, job.entry.now) result
            (pass.exit.now, job.exit.now)
            × (total result ≤ calls_of job.entry.now) }
    { run_client(manager, pass, job, worker, gate) };
    let killer = |pass: &mut Pass, job: &mut KillJob, worker: u32| -> Shift
        requires { IsKillerOf manager.now (pass.now, job.now) }
        ensures { KillerRan manager.entry.now (pass.entry.now, job.entry.now) result
            (pass.exit.now, job.exit.now)
            × (total result ≤ job.entry.now.end - job.entry.now.first) }
    { run_killer(manager, pass, job, worker, gate) };
    let Workers { on, by } = desks;
    let first_client = number_after(0, on.len());
    let desks = Part {
        on,
        by,
        told: counts,
        first: 0,
    };
    let Workers { on, by } = clients;
    let first_killer = number_after(first_client, on.len());
    let clients = Part {
        on,
        by,
        told: &mut [],
        first: first_client,
    };
    let Workers { on, by } = killers;
    let killers = Part {
        on,
        by,
        told: &mut [],
        first: first_killer,
    };
    let (d, (c, k)) = fork_three(means.rt, &desk, &client, &killer, desks, clients, killers);
    Shift::of_kinds(d, c, k)
}
