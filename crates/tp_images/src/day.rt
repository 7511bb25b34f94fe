//! A day of the pipeline: a crew of three servers, each on a thread of its own.
ghost use Rattle.std.specs.Prelude.{◌≡◌, ◌<◌, ◌^◌, None, OnOk, length};
ghost use Rattle.tp_desk.specs.Steady.{shown};
ghost use Rattle.tp_workers.specs.Clients.{IsClientJob};
ghost use Rattle.tp_crew.specs.Crew.{IsSteadyCrew};
ghost use Rattle.tp_workers.specs.Sums.{calls_of};

use crate::servers::{Notifier, Resizer, Validator};
use std::thread::Threads;
use tp_crew::{Crew, CrewLimits};
use tp_desk::Order;
use tp_server::{OwnServer, Server, three};
use tp_workers::{ClientJob, NoGate, Plan, ProgramFault};

pub type Boxed = Box<dyn Server + Send>;

pub const LIMITS: CrewLimits = CrewLimits {
    rows: 64,
    units: 256,
    attempts: 2,
    spare: 4,
};

/// Hires three servers and one client, and has a newer validator ready.
pub fn work<R: AllocGlobal + Print + Threads + Sync>(rt: &R) -> Result<(), ProgramFault> {
    let validator: Boxed = Box::new(rt.alloc(), OwnServer::new(Validator { formats: 3 }, []))?;
    let resizer: Boxed = Box::new(rt.alloc(), OwnServer::new(Resizer, [50_000]))?;
    let notifier: Boxed = Box::new(rt.alloc(), OwnServer::new(Notifier, [0, 0]))?;
    let mut newer: Boxed = Box::new(rt.alloc(), OwnServer::new(Validator { formats: 4 }, []))?;
    let boxes = Vec::from_array(rt.alloc(), three(validator, resizer, notifier))?;
    let mut crew = Crew::new(rt.alloc(), LIMITS, boxes, 1)?;
    let bodies = Vec::from_array(rt.alloc(), [[1, 300, 80, 0]; 20])?;
    run(rt, &mut crew, &mut newer, ClientJob { stage: 1, bodies })
}

/// Pictures are uploaded and worked off by threads, and what was declined is given another round with a
/// newer validator.
fn run<R: Print + Threads + Sync>(
    rt: &R,
    crew: &mut Crew,
    newer: &mut Boxed,
    job: ClientJob,
) -> Result<(), ProgramFault>
    requires steady { IsSteadyCrew behaviour registers pending crew.old }
    requires hired { (length crew.old.boxes.items ≡ 3) × (crew.old.clients ≡ 1) }
    requires newer { pending newer.old ≡ None }
    requires job { IsClientJob job × (calls_of job < 2 ^ 32) }
{
    // Format, bytes, customer, job. The second one's format isn't known yet, and the third one is too
    // large for the disk.
    let first = crew.submit(1, [0, 4_000, 71, 1])?;
    let second = crew.submit(1, [3, 8_000, 72, 2])?;
    let third = crew.submit(1, [2, 500_000, 73, 3])?;
    let counts = crew.shift(rt, Plan::in_turn(50), &mut [job], &mut [], &NoGate);
    crew.drain(Order::InTurn);
    println!(rt; "uploaded {}", counts.submitted)?;
    tell(rt, crew, first)?;
    tell(rt, crew, second)?;
    tell(rt, crew, third)?;
    parked(rt, crew)?;

    // A validator that knows one format more.
    crew.swap(0, newer);
    let round = crew.requeue(second)?;
    let drained = crew.drain(Order::InTurn);
    println!(rt;
        "round {round}: {} more, {} without a unit",
        drained.done, drained.nounit
    )?;
    tell(rt, crew, second)?;
    parked(rt, crew)?;
    close(rt, crew)
}

/// What became of a request.
fn tell<R: Print>(rt: &R, crew: &mut Crew, request: u32) -> Result<(), ProgramFault>
    requires { IsSteadyCrew (shown behaviour) (shown registers) (shown pending) crew.old }
    ensures steady { OnOk result (IsSteadyCrew (shown behaviour) (shown registers) (shown pending) crew.new) }
    ensures boxes { OnOk result (length crew.new.boxes.items ≡ length crew.old.boxes.items) }
{
    match crew.reply(request, 0) {
        Some(id) => {
            let [_format, bytes, customer, job] = crew.read(id)?.element.body;
            println!(rt; "job {job} of customer {customer}: {bytes} bytes")?;
        }
        None => println!(rt; "request {request}: no reply")?,
    }
    Ok(())
}

/// The requests of which an element is parked.
fn parked<R: Print>(rt: &R, crew: &mut Crew) -> Result<(), ProgramFault>
    requires { IsSteadyCrew (shown behaviour) (shown registers) (shown pending) crew.old }
    ensures steady { OnOk result (IsSteadyCrew (shown behaviour) (shown registers) (shown pending) crew.new) }
    ensures boxes { OnOk result (length crew.new.boxes.items ≡ length crew.old.boxes.items) }
{
    let mut from = 0;
    for _past in 0..u32::MAX {
        let Some(id) = crew.next_error(from) else {
            break;
        };
        let element = crew.read(id)?.element;
        println!(rt;
            "parked: request {} at stage {}",
            element.root, element.stage
        )?;
        from = id.saturating_add(1);
    }
    Ok(())
}

/// The notifier's books, and the account of the day.
fn close<R: Print>(rt: &R, crew: &mut Crew) -> Result<(), ProgramFault>
    requires { IsSteadyCrew (shown behaviour) (shown registers) (shown pending) crew.old }
{
    if let Some(notifier) = crew.server(2) {
        if let (Some(count), Some(bytes)) = (notifier.balance(0), notifier.balance(1)) {
            println!(rt; "{count} notices of {bytes} bytes")?;
        }
    }
    let account = crew.account();
    let total = account.total;
    println!(rt;
        "waiting {} held {} consumed {} parked {} killed {}",
        total.waiting, total.held, total.consumed, total.parked, total.killed
    )?;
    println!(rt; "{} customers notified", account.stages[2].consumed)?;
    Ok(())
}
