//! The service: a crew works off payments, batch after batch, and goes on in a new manager whenever its own
//! is used up.
ghost use Rattle.std.specs.Prelude.{◌≡◌, ◌+◌, ◌<◌, ◌≤◌, ◌^◌, ℕ, All, IfErr, IfOk, None, OnOk};
ghost use Rattle.std.specs.Prelude.{length};
ghost use Rattle.tp_desk.specs.Steady.{shown};
ghost use Rattle.tp_server.specs.Books.{Raises};
ghost use Rattle.tp_crew.specs.Crew.{IsSteadyCrew};
ghost use Rattle.tp_pipeline.specs.Books.{CrewGoesOn, HaveWorked, IsStaffed, charges_in, count_in};
ghost use Rattle.tp_pipeline.specs.Books.{one_payment, takings_in};
ghost use Rattle.tp_pipeline.specs.Audits.{Agree, payment};
ghost use Rattle.tp_pipeline.specs.Ends.{AddUp, AreClosed};
ghost use Rattle.tp_pipeline.specs.Payments.{payment_amount, charger, shipper, payment_validator};
ghost use Rattle.tp_pipeline.specs.Stops.{IsBatchFault, IsServiceFault, StopsAt, StopsBehind};
ghost use Rattle.tp_pipeline.specs.Submitting.{SubmitsPayments, SubmitsPayment};

use crate::audit::agree;
use crate::books::Books;
use crate::faults::PipelineFault;
use std::alloc::Global;
use std::thread::Threads;
use std::time::Clock;
use tp_crew::{Crew, CrewLimits};
use tp_desk::Order;
use tp_model::types::Body;
use tp_server::Server;
use tp_workers::{NoGate, Plan};

pub type Boxed = Box<dyn Server + Send>;

/// How many payments a batch has at most: a row of the caller's own for each.
pub const BATCH: u16 = 256;

/// The limits of each of the crew's managers. A desk begins a unit for each payment of a batch, and some for
/// what is given another round or was carried over. Units that are never begun cost too: each has a word.
const LIMITS: CrewLimits = CrewLimits {
    rows: BATCH,
    units: 384,
    attempts: 1,
    spare: 0,
};

/// With fewer rows left, or with fewer than twice as many units, the crew rolls over.
const WANTED: u16 = 32;

/// What is asked of the pipeline: how many payments, up to which amount the validator lets them through, and
/// how many turns each desk takes on a thread of its own before what is left is drained on one. With none all
/// is done on one.
#[derive(Clone, Copy, Debug)]
pub struct Task {
    pub payments: u64,
    pub ceiling: u64,
    pub turns: u16,
}

/// The boxes as they are when all payments have their end, and the books.
#[derive(Drop)]
pub struct Served {
    pub boxes: Vec<Boxed>,
    pub books: Books,
}

/// The body of the payment with this number: its amount, 1 to 100, and the number.
pub fn body_of(number: u64) -> Body
    ensures { result ≡ payment number }
{
    [number % 100 + 1, number, 0, 0]
}

/// Nanoseconds since some start.
fn now(clock: &impl Clock) -> u64 {
    match clock.monotonic() {
        Ok(time) => time
            .as_secs()
            .wrapping_mul(1_000_000_000)
            .wrapping_add(u64::from(time.subsec_nanos())),
        Err(_) => 0,
    }
}

/// The crew goes on in a new manager where too little is left of its own.
fn make_room(
    clock: &impl Clock,
    alloc: Global,
    crew: &mut Crew,
    books: &mut Books,
) -> Result<(), PipelineFault>
    requires steady { IsSteadyCrew (shown behaviour) (shown registers) (shown pending) crew.old }
    requires staffed { IsStaffed crew.old }
    requires add_up { AddUp books.old }
    ensures steady { OnOk result (IsSteadyCrew (shown behaviour) (shown registers) (shown pending) crew.new) }
    ensures staffed { OnOk result (IsStaffed crew.new) }
    ensures goes_on { OnOk result (CrewGoesOn (shown behaviour) (shown registers) crew.old crew.new) }
    ensures add_up { OnOk result (AddUp books.new) }
    ensures submitted { OnOk result (books.new.submitted ≡ books.old.submitted) }
    ensures told { IfErr result IsBatchFault }
{
    let before = now(clock);
    let Some(moved) = crew.roll_when(alloc, WANTED, 2 * WANTED)? else {
        return Ok(());
    };
    let spent = now(clock).saturating_sub(before);
    books.rolling = books.rolling.saturating_add(spent);
    if !books.roll(&moved) {
        return Err(PipelineFault::BadBooks);
    }
    Ok(())
}

/// A payment that is parked: where the validator has declined it, it is cancelled, and where the bank was
/// closed it is given another round.
fn answer(crew: &mut Crew, books: &mut Books, id: u32) -> Result<(), PipelineFault>
    requires steady { IsSteadyCrew (shown behaviour) (shown registers) (shown pending) crew.old }
    requires staffed { IsStaffed crew.old }
    requires add_up { AddUp books.old }
    ensures steady { OnOk result (IsSteadyCrew (shown behaviour) (shown registers) (shown pending) crew.new) }
    ensures staffed { OnOk result (IsStaffed crew.new) }
    ensures goes_on { OnOk result (CrewGoesOn (shown behaviour) (shown registers) crew.old crew.new) }
    ensures add_up { OnOk result (AddUp books.new) }
    ensures submitted { OnOk result (books.new.submitted ≡ books.old.submitted) }
    ensures told { IfErr result IsBatchFault }
{
    let element = crew.read(id)?.element;
    if element.stage == 1 {
        crew.cancel(element.root)?;
        if !books.cancel(element.root) {
            return Err(PipelineFault::BadBooks);
        }
    } else {
        crew.requeue(id)?;
        books.requeued = books.requeued.saturating_add(1);
    }
    Ok(())
}

/// All payments that are parked.
fn answer_all(crew: &mut Crew, books: &mut Books) -> Result<(), PipelineFault>
    requires steady { IsSteadyCrew (shown behaviour) (shown registers) (shown pending) crew.old }
    requires staffed { IsStaffed crew.old }
    requires add_up { AddUp books.old }
    ensures steady { OnOk result (IsSteadyCrew (shown behaviour) (shown registers) (shown pending) crew.new) }
    ensures staffed { OnOk result (IsStaffed crew.new) }
    ensures goes_on { OnOk result (CrewGoesOn (shown behaviour) (shown registers) crew.old crew.new) }
    ensures add_up { OnOk result (AddUp books.new) }
    ensures submitted { OnOk result (books.new.submitted ≡ books.old.submitted) }
    ensures told { IfErr result IsBatchFault }
{
    let mut from = 0;
    for _past in 0..u32::MAX {
        let Some(id) = crew.next_error(from) else {
            break;
        };
        answer(crew, books, id)?;
        from = id.saturating_add(1);
    }
    Ok(())
}

/// The next payment.
fn submit_one(crew: &mut Crew, books: &mut Books) -> Result<(), PipelineFault>
    requires steady { IsSteadyCrew (shown behaviour) (shown registers) (shown pending) crew.old }
    requires staffed { IsStaffed crew.old }
    requires add_up { AddUp books.old }
    requires few { books.old.submitted + 1 < 2 ^ 64 }
    ensures steady { OnOk result (IsSteadyCrew (shown behaviour) (shown registers) (shown pending) crew.new) }
    ensures staffed { OnOk result (IsStaffed crew.new) }
    ensures goes_on { OnOk result (CrewGoesOn (shown behaviour) (shown registers) crew.old crew.new) }
    ensures add_up { OnOk result (AddUp books.new) }
    ensures submitted { OnOk result (books.new.submitted ≡ books.old.submitted + 1) }
    ensures submits { OnOk result (SubmitsPayment crew.old books.old.submitted crew.new) }
    ensures stops { IfErr result (StopsAt crew.old books.old.submitted crew.new) }
{
    let root = crew.submit(1, body_of(books.submitted))?;
    books.submit(root)?;
    Ok(())
}

/// The next payments, as many as there is room for: each with its number, in order. A refusal is told as it
/// is, and `NoMemory` only of a payment that is submitted and can't be noted.
pub fn submit_next(crew: &mut Crew, books: &mut Books, payments: u64) -> Result<(), PipelineFault>
    requires steady { IsSteadyCrew (shown behaviour) (shown registers) (shown pending) crew.old }
    requires staffed { IsStaffed crew.old }
    requires add_up { AddUp books.old }
    requires few { books.old.submitted ≤ payments }
    ensures steady { OnOk result (IsSteadyCrew (shown behaviour) (shown registers) (shown pending) crew.new) }
    ensures staffed { OnOk result (IsStaffed crew.new) }
    ensures goes_on { OnOk result (CrewGoesOn (shown behaviour) (shown registers) crew.old crew.new) }
    ensures add_up { OnOk result (AddUp books.new) }
    ensures few { OnOk result (books.new.submitted ≤ payments) }
    ensures submits { OnOk result
        (SubmitsPayments books.old.submitted books.new.submitted crew.old crew.new) }
    ensures stops { IfErr result (StopsBehind books.old.submitted crew.old crew.new) }
{
    for _one in 0..crew.room().rows {
        if books.submitted >= payments {
            break;
        }
        submit_one(crew, books)?;
    }
    Ok(())
}

/// The desks work, each on a thread of its own for so many turns, if that is any.
fn work_on_threads<R: Threads + Sync>(rt: &R, crew: &mut Crew, turns: u16)
    requires steady { IsSteadyCrew (shown behaviour) (shown registers) (shown pending) crew.old }
    requires staffed { IsStaffed crew.old }
    ensures steady { IsSteadyCrew (shown behaviour) (shown registers) (shown pending) crew.new }
    ensures staffed { IsStaffed crew.new }
    ensures goes_on { CrewGoesOn (shown behaviour) (shown registers) crew.old crew.new }
{
    if turns == 0 {
        return;
    }
    let plan = Plan::in_turn(u32::from(turns));
    crew.shift(rt, plan, &mut [], &mut [], &NoGate);
}

/// The desks work so, and then on one thread until nothing waits.
fn work<R: Threads + Sync>(rt: &R, crew: &mut Crew, turns: u16)
    requires steady { IsSteadyCrew (shown behaviour) (shown registers) (shown pending) crew.old }
    requires staffed { IsStaffed crew.old }
    ensures steady { IsSteadyCrew (shown behaviour) (shown registers) (shown pending) crew.new }
    ensures staffed { IsStaffed crew.new }
    ensures goes_on { CrewGoesOn (shown behaviour) (shown registers) crew.old crew.new }
{
    work_on_threads(rt, crew, turns);
    crew.drain(Order::InTurn);
}

/// The reply to the open payment at this place is collected, if there is one; else the payment is open as
/// before.
fn collect_one(crew: &mut Crew, books: &mut Books, place: usize)
    requires steady { IsSteadyCrew (shown behaviour) (shown registers) (shown pending) crew.old }
    requires staffed { IsStaffed crew.old }
    requires add_up { AddUp books.old }
    requires within { place < length books.old.roots.items }
    ensures steady { IsSteadyCrew (shown behaviour) (shown registers) (shown pending) crew.new }
    ensures staffed { IsStaffed crew.new }
    ensures goes_on { CrewGoesOn (shown behaviour) (shown registers) crew.old crew.new }
    ensures add_up { AddUp books.new }
    ensures submitted { books.new.submitted ≡ books.old.submitted }
    ensures left { length books.old.roots.items ≤ length books.new.roots.items + 1 }
{
    let Some(reply) = crew.collect_next(books.roots[place]) else {
        return;
    };
    books.pay(place, reply.body[0]);
}

/// The replies are collected, of each open payment that has one. The last one is asked for first, so that
/// each that is taken out leaves those before it where they are.
fn collect_all(crew: &mut Crew, books: &mut Books)
    requires steady { IsSteadyCrew (shown behaviour) (shown registers) (shown pending) crew.old }
    requires staffed { IsStaffed crew.old }
    requires add_up { AddUp books.old }
    ensures steady { IsSteadyCrew (shown behaviour) (shown registers) (shown pending) crew.new }
    ensures staffed { IsStaffed crew.new }
    ensures goes_on { CrewGoesOn (shown behaviour) (shown registers) crew.old crew.new }
    ensures add_up { AddUp books.new }
    ensures submitted { books.new.submitted ≡ books.old.submitted }
{
    let count = books.roots.len();
    for past in 0..count {
        collect_one(crew, books, count - 1 - past);
    }
}

/// One batch: room, the next payments, what is parked, and the replies.
fn batch<R: Clock + Threads + Sync + AllocGlobal>(
    rt: &R,
    crew: &mut Crew,
    books: &mut Books,
    task: Task,
) -> Result<(), PipelineFault>
    requires steady { IsSteadyCrew (shown behaviour) (shown registers) (shown pending) crew.old }
    requires staffed { IsStaffed crew.old }
    requires add_up { AddUp books.old }
    requires few { books.old.submitted ≤ task.payments }
    ensures steady { OnOk result (IsSteadyCrew (shown behaviour) (shown registers) (shown pending) crew.new) }
    ensures staffed { OnOk result (IsStaffed crew.new) }
    ensures goes_on { OnOk result (CrewGoesOn (shown behaviour) (shown registers) crew.old crew.new) }
    ensures add_up { OnOk result (AddUp books.new) }
    ensures few { OnOk result (books.new.submitted ≤ task.payments) }
    ensures told { IfErr result IsBatchFault }
{
    make_room(rt, rt.alloc(), crew, books)?;
    submit_next(crew, books, task.payments)?;
    work(rt, crew, task.turns);
    answer_all(crew, books)?;
    crew.drain(Order::InTurn);
    collect_all(crew, books);
    Ok(())
}

/// Batches, until each payment has its end.
fn run<R: Clock + Threads + Sync + AllocGlobal>(
    rt: &R,
    crew: &mut Crew,
    books: &mut Books,
    task: Task,
) -> Result<(), PipelineFault>
    requires steady { IsSteadyCrew (shown behaviour) (shown registers) (shown pending) crew.old }
    requires staffed { IsStaffed crew.old }
    requires add_up { AddUp books.old }
    requires few { books.old.submitted ≤ task.payments }
    ensures steady { OnOk result (IsSteadyCrew (shown behaviour) (shown registers) (shown pending) crew.new) }
    ensures staffed { OnOk result (IsStaffed crew.new) }
    ensures goes_on { OnOk result (CrewGoesOn (shown behaviour) (shown registers) crew.old crew.new) }
    ensures closed { OnOk result (AreClosed task.payments books.new) }
    ensures told { IfErr result IsBatchFault }
{
    for _batch in 0..u32::MAX {
        if books.submitted >= task.payments && books.roots.is_empty() {
            return Ok(());
        }
        batch(rt, crew, books, task)?;
    }
    Err(PipelineFault::TooLong)
}

/// Works off so many payments with these boxes, whose registers are 0: a validator, a charger and two
/// shippers. Over however many managers that goes, each box's registers are what its own effects made of the
/// payments that it consumed, each once. They are what was due, and so are the books: all those payments were
/// submitted, and each has its end.
pub fn serve<R: Clock + Threads + Sync + AllocGlobal>(
    rt: &R,
    boxes: Vec<Boxed>,
    task: Task,
) -> Result<Served, PipelineFault>
    requires clear { All (λ server. pending server ≡ None) boxes.items }
    requires four { length boxes.items ≡ 4 }
    ensures worked { IfOk result (λ served. HaveWorked behaviour registers boxes.items served.boxes.items) }
    ensures kept { IfOk result (λ served. length served.boxes.items ≡ 4) }
    ensures agree { IfOk result (λ served. Agree registers task.payments task.ceiling
        served.boxes.items served.books) }
    ensures told { IfErr result IsServiceFault }
{
    each_payment();
    let mut books = Books::new(rt.alloc());
    let mut crew = Crew::new(rt.alloc(), LIMITS, boxes, 0)?;
    run(rt, &mut crew, &mut books, task)?;
    let boxes = crew.end();
    agree(&boxes, &books, task)?;
    Ok(Served { boxes, books })
}

/// What each payment adds to the servers' registers.
fn each_payment()
    ensures validated { (ceiling : ℕ) → Raises (payment_validator ceiling) count_in one_payment }
    ensures takings { Raises charger takings_in payment_amount }
    ensures charges { Raises charger charges_in one_payment }
    ensures shipped { Raises shipper count_in one_payment }
{}
