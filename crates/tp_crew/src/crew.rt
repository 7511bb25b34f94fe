//! A crew: a manager, boxed servers, and all passes that they and their clients need.
ghost use Rattle.std.specs.Prelude.{◌≡◌, ◌+◌, ◌*◌, ◌<◌, ◌≤◌, ◌^◌, ◌↔◌, None, Some, Err, All, IfOk, []};
ghost use Rattle.std.specs.Prelude.{length, option_copied, sum_by, slice_get, slice_index_or, slice_set, zip};
ghost use Rattle.tp_model.specs.Steps.{AreLimits};
ghost use Rattle.tp_manager.specs.declared.manager.MakeFault.TheVariants as faults;
ghost use Rattle.tp_rollover.specs.Managed.{IsNewPass};
ghost use Rattle.tp_workers.specs.Clients.{ClientRan, IsClientJob};
ghost use Rattle.tp_crew.specs.CrewPasses.{clients_in, crew_limits, crew_passes, desks_in, limits_with};
ghost use Rattle.tp_crew.specs.CrewPasses.{own_in};
ghost use Rattle.tp_workers.specs.Asking.{AsksTurns};
ghost use Rattle.tp_workers.specs.Desks.{DeskRan};
ghost use Rattle.tp_workers.specs.Drained.{DeskDrained, LastTurn};
ghost use Rattle.tp_crew.specs.Folds.{BeginsFold};
ghost use Rattle.tp_workers.specs.Free.{IsFreePass};
ghost use Rattle.tp_manager.specs.Shown.{numbers};
ghost use Rattle.tp_workers.specs.Gains.{commits_in, enqueues_in};
ghost use Rattle.tp_workers.specs.Ran.{AreTold, RanEach};
ghost use Rattle.tp_workers.specs.Sums.{calls_of, client_part, desk_part};
ghost use Rattle.tp_workers.specs.declared.tally.Shift.{Shift};

use crate::fold_start::FoldStart;
use std::alloc::Global;
use std::mem::swap;
use std::thread::Threads;
use tp_desk::Order;
use tp_manager::{MakeFault, Manager, Pass};
use tp_model::types::{Account, Limits};
use tp_rollover::Managed;
use tp_server::Server;
use tp_workers::{ClientJob, Drained, Gate, Plan, Shift, ShiftMeans, Workers, drain, shift};

/// The limits of a crew's manager. How many passes it has follows from the crew.
#[derive(Clone, Copy, Debug, PartialEq, Eq)]
pub struct CrewLimits {
    /// How many elements each pass may make in its own part, 1 to 256.
    pub rows: u16,
    /// How many units of work each pass may begin, 1 to 1024.
    pub units: u16,
    /// How many attempts an element has in a round before it is parked, 1 to 7.
    pub attempts: u8,
    /// How many spare blocks of rows there are, 0 to 256.
    pub spare: u16,
}

impl CrewLimits {
    /// The limits of a manager with so many parts.
    pub fn with_parts(self, parts: u16) -> Limits
        ensures { result ≡ limits_with self parts }
    {
        Limits {
            parts,
            rows: self.rows,
            units: self.units,
            attempts: self.attempts,
            spare: self.spare,
        }
    }
}

/// A manager and boxed servers, with a pass for each of them, for each of so many clients, and one of the
/// caller's own. The passes stand in order of number: the caller's own, the boxes', the clients'.
#[derive(Drop)]
pub struct Crew {
    pub(crate) managed: Managed,
    pub(crate) boxes: Vec<Box<dyn Server + Send>>,
    pub(crate) clients: u8,
    pub(crate) starts: Vec<FoldStart>,
}

/// How many passes a crew of so many boxes and clients has, or at least more than there can be.
fn passes_for(boxes: usize, clients: u8) -> u16
    ensures few { crew_passes boxes clients ≤ 32 → result ≡ crew_passes boxes clients }
    ensures many { 32 < crew_passes boxes clients → 32 < result }
{
    let all = boxes.saturating_add(usize::from(clients)).saturating_add(1);
    u16::try_from(all).unwrap_or(u16::MAX)
}

/// Drains the desks of a crew with these passes.
fn drain_desks(
    manager: &Manager,
    passes: &mut [Pass],
    boxes: &mut [Box<dyn Server + Send>],
    order: Order,
) -> Drained
    requires enough { 1 + length boxes.old ≤ length passes.old }
    requires few { length passes.old ≤ 32 }
    requires free { All (IsFreePass manager.now) passes.old }
    requires clear { All (λ server. pending server ≡ None) boxes.old }
    ensures desks { (counts : Shift) × (result.done ≡ counts.done)
        × RanEach (DeskDrained behaviour registers pending manager.now order)
        (desks_in (length boxes.old) passes.old) boxes.old counts
        (desks_in (length boxes.old) passes.new) boxes.new }
    ensures last_turns { (counts : Shift) × (result.nounit ≡ counts.nounit)
        × RanEach (LastTurn behaviour registers pending manager.now order)
        (desks_in (length boxes.old) passes.old) boxes.old counts
        (desks_in (length boxes.old) passes.new) boxes.new }
    ensures asked { (counts : Shift) × (result.done ≡ counts.done)
        × RanEach (AsksTurns behaviour registers pending asked manager.now order)
        (desks_in (length boxes.old) passes.old) boxes.old counts
        (desks_in (length boxes.old) passes.new) boxes.new }
    ensures done { result.done + sum_by commits_in (desks_in (length boxes.old) passes.old)
        ≡ sum_by commits_in (desks_in (length boxes.old) passes.new) }
    ensures own { own_in passes.new ≡ own_in passes.old }
    ensures clients { clients_in (length boxes.old) passes.new
        ≡ clients_in (length boxes.old) passes.old }
    ensures free { All (IsFreePass manager.now) passes.new }
    ensures numbered { numbers passes.new ≡ numbers passes.old }
    ensures clear { All (λ server. pending server ≡ None) boxes.new }
    ensures kept { length boxes.new ≡ length boxes.old }
{
    let (_own, others) = passes.split_at_mut(1);
    let (desks, _clients) = others.split_at_mut(boxes.len());
    drain(manager, desks, boxes, order)
}

/// Has the desks and the clients of a crew with these passes work, each on a thread of its own.
fn shift_all<R: Threads + Sync, G: Gate>(
    with: &ShiftMeans<R, G>,
    passes: &mut [Pass],
    boxes: &mut [Box<dyn Server + Send>],
    jobs: &mut [ClientJob],
    counts: &mut [Shift],
) -> Shift
    requires enough { 1 + length boxes.old + length jobs.old ≡ length passes.old }
    requires free { All (IsFreePass with.now.manager.now) passes.old }
    requires clear { All (λ server. pending server ≡ None) boxes.old }
    requires jobs { All IsClientJob jobs.old }
    requires turns_fit { with.now.plan.turns * length boxes.old < 2 ^ 32 }
    requires counts_fit { sum_by calls_of jobs.old < 2 ^ 32 }
    ensures desks { RanEach (DeskRan behaviour registers pending with.now.manager.now with.now.plan)
        (desks_in (length boxes.old) passes.old) boxes.old (desk_part result)
        (desks_in (length boxes.old) passes.new) boxes.new }
    ensures clients { RanEach (ClientRan with.now.manager.now)
        (clients_in (length boxes.old) passes.old) jobs.old (client_part result)
        (clients_in (length boxes.old) passes.new) jobs.new }
    ensures each_desk { AreTold (DeskRan behaviour registers pending with.now.manager.now with.now.plan)
        (desks_in (length boxes.old) passes.old) boxes.old counts.old (desk_part result)
        (desks_in (length boxes.old) passes.new) boxes.new counts.new }
    ensures asked { let with = with.now in
        RanEach (AsksTurns behaviour registers pending asked with.manager.now with.plan.order)
        (desks_in (length boxes.old) passes.old) boxes.old (desk_part result)
        (desks_in (length boxes.old) passes.new) boxes.new }
    ensures own { own_in passes.new ≡ own_in passes.old }
    ensures free { All (IsFreePass with.now.manager.now) passes.new }
    ensures numbered { numbers passes.new ≡ numbers passes.old }
    ensures clear { All (λ server. pending server ≡ None) boxes.new }
    ensures kept { length boxes.new ≡ length boxes.old }
    ensures jobs_same { jobs.new ≡ jobs.old }
    ensures done { result.done + sum_by commits_in (desks_in (length boxes.old) passes.old)
        ≡ sum_by commits_in (desks_in (length boxes.old) passes.new) }
    ensures submitted { result.submitted + sum_by enqueues_in (clients_in (length boxes.old) passes.old)
        ≡ sum_by enqueues_in (clients_in (length boxes.old) passes.new) }
    ensures all_turns { result.nounit ≡ 0
        → result.done + result.refused + result.lost + result.full + result.idle
        ≡ with.now.plan.turns * length boxes.old }
    ensures all_calls { result.submitted + result.submit_full ≡ sum_by calls_of jobs.old }
{
    let (_own, others) = passes.split_at_mut(1);
    let (desks, clients) = others.split_at_mut(boxes.len());
    let desks = Workers {
        on: desks,
        by: boxes,
    };
    let clients = Workers {
        on: clients,
        by: jobs,
    };
    let killers = Workers {
        on: &mut [],
        by: &mut [],
    };
    shift(with, desks, clients, killers, counts)
}

impl Crew {
    ghost use Rattle.tp_crew.specs.Crew.{CountsAll, EachDesk, IsSteadyCrew, IsSameCrew, committed_by};
    ghost use Rattle.tp_crew.specs.Crew.{folds, submitted_by};

    /// A crew of these boxes and of so many clients. `BadLimits` where a limit is outside its range, or where
    /// that would be more passes than a manager can have; `NoMemory` only where the allocator refused.
    pub fn new(
        alloc: Global,
        limits: CrewLimits,
        boxes: Vec<Box<dyn Server + Send>>,
        clients: u8,
    ) -> Result<Crew, MakeFault>
        requires clear { All (λ server. pending server ≡ None) boxes.items }
        ensures steady { IfOk result (λ crew. IsSteadyCrew behaviour registers pending crew) }
        ensures boxes { IfOk result (λ crew. (crew.boxes ≡ boxes) × (crew.clients ≡ clients)) }
        ensures folds { IfOk result (λ crew.
            folds crew ≡ zip (desks_in (length boxes.items) crew.managed.passes.items) boxes.items) }
        ensures new { IfOk result (λ crew. All IsNewPass crew.managed.passes.items) }
        ensures limits { IfOk result (λ crew.
            crew.managed.manager.limits ≡ crew_limits limits (length boxes.items) clients) }
        ensures bad { (result ≡ Err faults.BadLimits)
            ↔ (¬ AreLimits (crew_limits limits (length boxes.items) clients)) }
        ensures part { ¬ (result ≡ Err faults.NoPart) }
    {
        let parts = passes_for(boxes.len(), clients);
        let managed = Managed::new(alloc, limits.with_parts(parts))?;
        let Ok(starts) = FoldStart::each(alloc, &managed.passes, &boxes) else {
            return Err(MakeFault::NoMemory);
        };
        Ok(Crew {
            managed,
            boxes,
            clients,
            starts,
        })
    }

    /// Has the boxes' desks take as many turns as planned, or fewer where a pass has no unit left, and the
    /// clients do these jobs, each on a thread of its own, until all are through. The answer is what all did
    /// together; where `counts` has a place for each box, what each box's desk did is left there.
    pub fn shift<R: Threads + Sync, G: Gate>(
        &mut self,
        rt: &R,
        plan: Plan,
        jobs: &mut [ClientJob],
        counts: &mut [Shift],
        gate: &G,
    ) -> Shift
        requires steady { IsSteadyCrew behaviour registers pending self.old }
        requires paired { length jobs.old ≡ self.old.clients }
        requires jobs { All IsClientJob jobs.old }
        requires turns_fit { plan.turns * length self.old.boxes.items < 2 ^ 32 }
        requires counts_fit { sum_by calls_of jobs.old < 2 ^ 32 }
        ensures steady { IsSteadyCrew behaviour registers pending self.new }
        ensures same { IsSameCrew self.old self.new }
        ensures desks { EachDesk (DeskRan behaviour registers pending self.old.managed.manager plan)
            (desk_part result) self.old self.new }
        ensures clients { let n = length self.old.boxes.items in
            RanEach (ClientRan self.old.managed.manager)
            (clients_in n self.old.managed.passes.items) jobs.old (client_part result)
            (clients_in n self.new.managed.passes.items) jobs.new }
        ensures each_desk { let n = length self.old.boxes.items in
            AreTold (DeskRan behaviour registers pending self.old.managed.manager plan)
            (desks_in n self.old.managed.passes.items) self.old.boxes.items counts.old (desk_part result)
            (desks_in n self.new.managed.passes.items) self.new.boxes.items counts.new }
        ensures asked { let m = self.old.managed.manager in
            EachDesk (AsksTurns behaviour registers pending asked m plan.order)
            (desk_part result) self.old self.new }
        ensures own { own_in self.new.managed.passes.items ≡ own_in self.old.managed.passes.items }
        ensures keeper { self.new.managed.keeper ≡ self.old.managed.keeper }
        ensures jobs_same { jobs.new ≡ jobs.old }
        ensures done { let n = length self.old.boxes.items in
            result.done + committed_by n self.old ≡ committed_by n self.new }
        ensures submitted { let n = length self.old.boxes.items in
            result.submitted + submitted_by n self.old ≡ submitted_by n self.new }
        ensures all_turns { result.nounit ≡ 0
            → result.done + result.refused + result.lost + result.full + result.idle
            ≡ plan.turns * length self.old.boxes.items }
        ensures all_calls { result.submitted + result.submit_full ≡ sum_by calls_of jobs.old }
    {
        let with = ShiftMeans {
            rt,
            manager: &self.managed.manager,
            plan,
            gate,
        };
        shift_all(
            &with,
            &mut self.managed.passes,
            &mut self.boxes,
            jobs,
            counts,
        )
    }

    /// Has the boxes' desks take turns on the caller's thread, one turn each in a round, whose claims are in
    /// this order, until a whole round claims nothing.
    pub fn drain(&mut self, order: Order) -> Drained
        requires steady { IsSteadyCrew behaviour registers pending self.old }
        ensures steady { IsSteadyCrew behaviour registers pending self.new }
        ensures same { IsSameCrew self.old self.new }
        ensures desks { (counts : Shift) × (result.done ≡ counts.done)
            × EachDesk (DeskDrained behaviour registers pending self.old.managed.manager order)
            counts self.old self.new }
        ensures last_turns { (counts : Shift) × (result.nounit ≡ counts.nounit)
            × EachDesk (LastTurn behaviour registers pending self.old.managed.manager order)
            counts self.old self.new }
        ensures asked { (counts : Shift) × (result.done ≡ counts.done)
            × EachDesk (AsksTurns behaviour registers pending asked self.old.managed.manager order)
            counts self.old self.new }
        ensures done { let n = length self.old.boxes.items in
            result.done + committed_by n self.old ≡ committed_by n self.new }
        ensures own { own_in self.new.managed.passes.items ≡ own_in self.old.managed.passes.items }
        ensures clients { let n = length self.old.boxes.items in
            clients_in n self.new.managed.passes.items ≡ clients_in n self.old.managed.passes.items }
        ensures keeper { self.new.managed.keeper ≡ self.old.managed.keeper }
    {
        drain_desks(
            &self.managed.manager,
            &mut self.managed.passes,
            &mut self.boxes,
            order,
        )
    }

    /// How many elements there are of each kind of status, in all and by stage.
    pub fn account(&mut self) -> Account
        requires steady { IsSteadyCrew behaviour registers pending self.old }
        ensures steady { IsSteadyCrew behaviour registers pending self.new }
        ensures same { IsSameCrew self.old self.new }
        ensures boxes { self.new.boxes ≡ self.old.boxes }
        ensures account { CountsAll result self.old self.new }
    {
        self.managed
            .keeper
            .account(&self.managed.manager, &mut self.managed.passes)
    }

    /// Puts another box in the place of the one with this number, counted from 0, and gives that one back.
    /// The fold of the new one's work begins here, and those of the other boxes go on.
    pub fn swap(&mut self, k: usize, other: &mut Box<dyn Server + Send>)
        requires steady { IsSteadyCrew behaviour registers pending self.old }
        requires within { k < length self.old.boxes.items }
        requires clear { pending other.old ≡ None }
        ensures steady { IsSteadyCrew behaviour registers pending self.new }
        ensures boxes { self.new.boxes.items ≡ slice_set self.old.boxes.items k other.old }
        ensures other { other.new ≡ slice_index_or self.old.boxes.items k other.old }
        ensures others { (self.new.managed ≡ self.old.managed) × (self.new.clients ≡ self.old.clients) }
        ensures folds { let passes = self.old.managed.passes.items in
            BeginsFold k other.old passes (folds self.old) (folds self.new) }
    {
        FoldStart::begin(&mut self.starts, k, &self.managed.passes, other);
        swap(&mut self.boxes[k], other);
    }

    /// The box with this number, counted from 0, or `None` past the last one.
    pub fn server(&self, k: usize) -> Option<&Box<dyn Server + Send>>
        ensures { option_copied result ≡ slice_get self.now.boxes.items k }
    {
        self.boxes.get(k)
    }

    /// Gives the boxes back, in their order.
    pub fn end(self) -> Vec<Box<dyn Server + Send>>
        ensures boxes { result ≡ self.boxes }
    {
        let Crew { boxes, .. } = self;
        boxes
    }
}
