//! The command `race`: all free servers work, each on a thread of its own, beside clients and killers.
ghost use Rattle.tp_model.specs.declared.types.TheConstants.{MAX_PART_ROWS};
ghost use Rattle.std.specs.List.{swap};
ghost use Rattle.std.specs.Prelude.{◌≡◌, ◌+◌, ◌-◌, ◌*◌, ◌≤◌, ◌<◌, ◌^◌, None, All, IfOk, length, replicate};
ghost use Rattle.std.specs.Prelude.{sum_by, take, true};
ghost use Rattle.tp_model.specs.Steps.{IsServerStage};
ghost use Rattle.tp_manager.specs.Shown.{IsOf};
ghost use Rattle.tp_workers.specs.Clients.{IsClientJob};
ghost use Rattle.tp_workers.specs.Killers.{IsKillJob};
ghost use Rattle.tp_workers.specs.Plans.{least_first};
ghost use Rattle.tp_workers.specs.Sums.{calls_of, size_of_range};
ghost use Rattle.tp_commands.specs.Acting.{places_shown};
ghost use Rattle.tp_commands.specs.Places.{AllLie, firsts};
ghost use Rattle.tp_commands.specs.Together.{AreStillFree, ArePassed, MayRace, Races, client_job};
ghost use Rattle.tp_commands.specs.Together.{kill_job};
ghost use Rattle.tp_commands.specs.Places.{is_free_at};
ghost use Rattle.tp_script.specs.declared.script.TheConstants.{MAX_SERVERS};

use crate::place::Place;
use std::alloc::{AllocError, Global};
use std::thread::Threads;
use tp_desk::Order;
use tp_manager::{Manager, Pass};
use tp_script::{Head, MAX_SERVERS, Race};
use tp_server::Server;
use tp_workers::{ClientJob, KillJob, NoGate, Plan, ShiftMeans, Workers, shift};

/// A race, and what it is run with.
#[derive(Drop)]
pub struct Racing<'r, 'h, 'm, R: Threads + Sync> {
    /// Runs its threads.
    pub rt: &'r R,
    /// Gives memory for the jobs and the line.
    pub alloc: Global,
    /// Says how many rows each pass has.
    pub head: &'h Head,
    /// Has the elements.
    pub manager: &'m Manager,
    /// What is to be done.
    pub plan: Race,
    /// How many passes of other races stand before its own.
    pub behind: usize,
}

/// What each client of a race is to do.
fn client_job(alloc: Global, plan: Race) -> Result<ClientJob, AllocError>
    ensures job { IfOk result (λ job. job ≡ client_job plan) }
    ensures calls { IfOk result (λ job. calls_of job ≡ plan.submits) }
{
    let body = [plan.key, plan.amount, 0, 0];
    let mut bodies = Vec::new(alloc);
    for _i in 0..plan.submits {
        bodies.push(body)?;
    }
    Ok(ClientJob {
        stage: plan.stage,
        bodies,
    })
}

/// What each killer of a race is to do: to kill the elements of all rows in the parts of these clients.
fn kill_job(plan: Race, clients: &[Pass], rows: u16) -> KillJob
    requires { rows ≤ MAX_PART_ROWS }
    ensures job { result ≡ kill_job rows plan clients.now }
    ensures few { result.first + plan.clients * rows < 2 ^ 25 }
{
    let first = match clients.split_first() {
        Some((pass, _others)) => u32::from(pass.number()) * u32::from(rows),
        None => 0,
    };
    let end = first + u32::from(plan.clients) * u32::from(rows);
    KillJob { first, end }
}

/// The jobs of this many clients of a race, all alike.
fn client_jobs(alloc: Global, many: usize, plan: Race) -> Result<Vec<ClientJob>, AllocError>
    requires stage { IsServerStage plan.stage }
    requires few { many ≤ 510 }
    ensures jobs { IfOk result (λ jobs. All IsClientJob jobs.items) }
    ensures all { IfOk result (λ jobs. jobs.items ≡ replicate many (client_job plan)) }
    ensures many { IfOk result (λ jobs. length jobs.items ≡ many) }
    ensures fits { IfOk result (λ jobs. sum_by calls_of jobs.items < 2 ^ 32) }
{
    let mut jobs = Vec::new(alloc);
    for _i in 0..many {
        jobs.push(client_job(alloc, plan)?)?;
    }
    Ok(jobs)
}

/// A list of this many jobs, all alike.
fn kill_jobs(alloc: Global, many: usize, job: KillJob) -> Result<Vec<KillJob>, AllocError>
    requires { IsKillJob job }
    ensures jobs { IfOk result (λ jobs. All IsKillJob jobs.items) }
    ensures all { IfOk result (λ jobs. jobs.items ≡ replicate many job) }
    ensures many { IfOk result (λ jobs. length jobs.items ≡ many) }
    ensures ids { IfOk result (λ jobs. sum_by size_of_range jobs.items ≡ many * (job.end - job.first)) }
{
    let mut jobs = Vec::new(alloc);
    for _i in 0..many {
        jobs.push(job)?;
    }
    Ok(jobs)
}

/// What each desk of a race is to do.
fn plan_of(plan: Race) -> Plan
    ensures plan { result ≡ least_first plan.turns }
    ensures few { result.turns < 2 ^ 16 }
{
    Plan {
        turns: u32::from(plan.turns),
        order: Order::LeastFirst,
    }
}

/// Has each free server take at most as many turns as planned, while clients submit and killers kill, each on
/// a thread of its own; answers how many submits were accepted. The passes of the race are the clients' and
/// then the killers'. Each killer kills each id of the clients' rows once.
pub(crate) fn run_race<R: Threads + Sync>(
    racing: &Racing<R>,
    passes: &mut [Pass],
    servers: &mut [Box<dyn Server + Send>],
    places: &mut [Place],
    racers: &mut [Pass],
) -> Result<u32, AllocError>
    requires own { All (IsOf racing.now.manager.now) passes.old }
    requires lie { AllLie behaviour registers pending passes.old servers.old places.old }
    requires few { length places.old ≤ MAX_SERVERS }
    requires racers { MayRace racing.now.manager.now racing.now.head.now.settings.rows racing.now.plan
        racers.old }
    ensures own { All (IsOf racing.now.manager.now) passes.new }
    ensures lie { AllLie behaviour registers pending passes.new servers.new places.new }
    ensures racers { AreStillFree racing.now.manager.now racers.old racers.new }
    ensures began { firsts places.new ≡ firsts places.old }
    ensures as_many { length places.new ≡ length places.old }
    ensures raced { IfOk result (λ submitted.
        Races racing.now.manager.now racing.now.head.now.settings.rows racing.now.plan
        racers.old submitted racers.new
        (places_shown behaviour registers pending passes.old servers.old places.old)
        (places_shown behaviour registers pending passes.new servers.new places.new)) }
{
    race_free(racing, passes, servers, places, racers, 0, 0)
}

/// Races the free servers among those from `at` on, and the ones before `front`, which are free: for that
/// time the free ones come first, each with its pass.
fn race_free<R: Threads + Sync>(
    racing: &Racing<R>,
    passes: &mut [Pass],
    servers: &mut [Box<dyn Server + Send>],
    places: &mut [Place],
    racers: &mut [Pass],
    front: usize,
    at: usize,
) -> Result<u32, AllocError>
    requires own { All (IsOf racing.now.manager.now) passes.old }
    requires lie { AllLie behaviour registers pending passes.old servers.old places.old }
    requires few { length places.old ≤ MAX_SERVERS }
    requires free { All (λ place. is_free_at place ≡ true) (take front places.old) }
    requires within { (front ≤ at) × (at ≤ length places.old) }
    requires passed { ArePassed front at places.old }
    requires racers { MayRace racing.now.manager.now racing.now.head.now.settings.rows racing.now.plan
        racers.old }
    ensures own { All (IsOf racing.now.manager.now) passes.new }
    ensures lie { AllLie behaviour registers pending passes.new servers.new places.new }
    ensures racers { AreStillFree racing.now.manager.now racers.old racers.new }
    ensures began { firsts places.new ≡ firsts places.old }
    ensures as_many { length places.new ≡ length places.old }
    ensures raced { IfOk result (λ submitted.
        Races racing.now.manager.now racing.now.head.now.settings.rows racing.now.plan
        racers.old submitted racers.new
        (places_shown behaviour registers pending passes.old servers.old places.old)
        (places_shown behaviour registers pending passes.new servers.new places.new)) }
{
    if at == places.len() {
        return race_front(racing, passes, servers, places, racers, front);
    }
    if !places[at].is_free() {
        return race_free(racing, passes, servers, places, racers, front, at + 1);
    }
    swap_places(racing.manager, passes, servers, places, front, at);
    let submitted = race_free(racing, passes, servers, places, racers, front + 1, at + 1);
    swap_places(racing.manager, passes, servers, places, front, at);
    submitted
}

/// Races the first servers, which are free.
fn race_front<R: Threads + Sync>(
    racing: &Racing<R>,
    passes: &mut [Pass],
    servers: &mut [Box<dyn Server + Send>],
    places: &[Place],
    racers: &mut [Pass],
    front: usize,
) -> Result<u32, AllocError>
    requires own { All (IsOf racing.now.manager.now) passes.old }
    requires lie { AllLie behaviour registers pending passes.old servers.old places.now }
    requires few { length places.now ≤ MAX_SERVERS }
    requires free { All (λ place. is_free_at place ≡ true) (take front places.now) }
    requires within { front ≤ length places.now }
    requires passed { ArePassed front (length places.now) places.now }
    requires racers { MayRace racing.now.manager.now racing.now.head.now.settings.rows racing.now.plan
        racers.old }
    ensures own { All (IsOf racing.now.manager.now) passes.new }
    ensures lie { AllLie behaviour registers pending passes.new servers.new places.now }
    ensures racers { AreStillFree racing.now.manager.now racers.old racers.new }
    ensures raced { IfOk result (λ submitted.
        Races racing.now.manager.now racing.now.head.now.settings.rows racing.now.plan
        racers.old submitted racers.new
        (places_shown behaviour registers pending passes.old servers.old places.now)
        (places_shown behaviour registers pending passes.new servers.new places.now)) }
{
    let alloc = racing.alloc;
    let plan = racing.plan;
    let (clients, killers) = racers.split_at_mut(usize::from(plan.clients));
    let mut jobs = client_jobs(alloc, clients.len(), plan)?;
    let kill = kill_job(plan, clients, racing.head.settings.rows);
    let mut kills = kill_jobs(alloc, killers.len(), kill)?;
    let (desks, _others) = passes.split_at_mut(front);
    let (boxes, _rest) = servers.split_at_mut(front);
    let means = ShiftMeans {
        rt: racing.rt,
        manager: racing.manager,
        plan: plan_of(plan),
        gate: &NoGate,
    };
    let desks = Workers {
        on: desks,
        by: boxes,
    };
    let clients = Workers {
        on: clients,
        by: jobs.as_mut_slice(),
    };
    let killers = Workers {
        on: killers,
        by: kills.as_mut_slice(),
    };
    let counts = shift(&means, desks, clients, killers, &mut []);
    Ok(counts.submitted)
}

/// Puts one server, with its pass and its desk, in another's place, and that one in its own.
fn swap_places(
    manager: &Manager,
    passes: &mut [Pass],
    servers: &mut [Box<dyn Server + Send>],
    places: &mut [Place],
    a: usize,
    b: usize,
)
    requires own { All (IsOf manager.now) passes.old }
    requires lie { AllLie behaviour registers pending passes.old servers.old places.old }
    requires within { (a ≤ b) × (b < length places.old) }
    ensures own { All (IsOf manager.now) passes.new }
    ensures lie { AllLie behaviour registers pending passes.new servers.new places.new }
    ensures swapped { places.new ≡ swap places.old a b }
    ensures shown { places_shown behaviour registers pending passes.new servers.new places.new
        ≡ swap (places_shown behaviour registers pending passes.old servers.old places.old) a b }
    ensures as_many { length places.new ≡ length places.old }
{
    passes.swap(a, b);
    servers.swap(a, b);
    places.swap(a, b);
}
