//! How many elements of each kind there are, in all and by stage.
ghost use Rattle.std.specs.Prelude.{◌≡◌, IfOk, slice_get, true, ◌+◌, ◌-◌};
ghost use Rattle.tp_store.specs.Counting.{counted, less, more, no_counts, no_tally, tallied, tallied_births};
ghost use Rattle.tp_store.specs.Restoring.{counts_of, is_rise, is_settling, settled, with_settled};

use crate::draft::Draft;
use crate::element::{LAST_STAGE, Status};
use std::alloc::{AllocError, Global};
use std::marker::Model;

/// How many elements there are of each kind of status. Each number stops at the largest of 64 bits.
#[derive(Clone, Copy, Debug, PartialEq, Eq)]
pub struct Counts {
    pub waiting: u64,
    pub held: u64,
    pub consumed: u64,
    pub parked: u64,
    pub killed: u64,
}

const NO_COUNTS: Counts = Counts {
    waiting: 0,
    held: 0,
    consumed: 0,
    parked: 0,
    killed: 0,
};

impl Counts {
    /// One more of this kind.
    #[inline(always)]
    fn more(&mut self, status: &Status)
        ensures { self.new ≡ more status.now self.old }
    {
        match status {
            Status::Waiting { .. } => self.waiting = self.waiting.saturating_add(1),
            Status::Held { .. } => self.held = self.held.saturating_add(1),
            Status::Consumed { .. } => self.consumed = self.consumed.saturating_add(1),
            Status::Parked { .. } => self.parked = self.parked.saturating_add(1),
            Status::Killed => self.killed = self.killed.saturating_add(1),
        }
    }

    /// One less of this kind.
    #[inline(always)]
    fn less(&mut self, status: &Status)
        ensures { self.new ≡ less status.now self.old }
    {
        match status {
            Status::Waiting { .. } => self.waiting = self.waiting.saturating_sub(1),
            Status::Held { .. } => self.held = self.held.saturating_sub(1),
            Status::Consumed { .. } => self.consumed = self.consumed.saturating_sub(1),
            Status::Parked { .. } => self.parked = self.parked.saturating_sub(1),
            Status::Killed => self.killed = self.killed.saturating_sub(1),
        }
    }

    /// The same, where so many were ever consumed and killed.
    fn settled(&self, consumed: u64, killed: u64) -> Counts
        ensures { result ≡ settled consumed killed self.now }
    {
        let mut counts = *self;
        counts.consumed = consumed;
        counts.killed = killed;
        counts
    }

    /// One that had the first status, if it was there, has the second.
    fn count(&mut self, from: &Option<Status>, to: &Status)
        ensures { self.new ≡ counted from.now to.now self.old }
    {
        if let Some(status) = from {
            self.less(status);
        }
        self.more(to);
    }
}

/// The counts of all, and those of each stage at its index.
#[derive(Drop)]
pub(crate) struct Tally {
    total: Counts,
    stages: Vec<Counts>,
}

impl Model for Tally {
    ghost use Rattle.tp_store.specs.Counting.{TallyView};

    ghost Value = { TallyView };

    ghost view = { λ t. record { total = t.total; stages = t.stages.items } };
}

impl Tally {
    /// Nothing is counted yet.
    pub(crate) fn new(alloc: Global) -> Result<Tally, AllocError>
        ensures { IfOk result (λ t. t ≡ no_tally) }
    {
        let stages = vec![in alloc; NO_COUNTS; usize::from(LAST_STAGE) + 1]?;
        Ok(Tally {
            total: NO_COUNTS,
            stages,
        })
    }

    /// The counts of all.
    pub(crate) fn total(&self) -> Counts
        ensures { result ≡ self.now.total }
    {
        self.total
    }

    /// The counts of a stage, if there is such a stage.
    pub(crate) fn stage(&self, stage: u16) -> Option<Counts>
        ensures { result ≡ slice_get self.now.stages stage }
    {
        self.stages.get(usize::from(stage)).copied()
    }

    /// An element of this stage that had the first status, if it was there, has the second.
    pub(crate) fn count(&mut self, stage: u16, from: &Option<Status>, to: &Status)
        ensures { self.new ≡ tallied stage from.now to.now self.old }
    {
        self.total.count(from, to);
        let at = usize::from(stage);
        if at < self.stages.len() {
            let mut counts = self.stages[at];
            counts.count(from, to);
            self.stages[at] = counts;
        }
    }

    /// The counts of a stage, and none where there is no such stage.
    fn counts_of(&self, stage: u16) -> Counts
        ensures { result ≡ counts_of stage self.now }
    {
        match self.stage(stage) {
            Some(counts) => counts,
            None => NO_COUNTS,
        }
    }

    /// Whether so many of a stage may ever have been consumed and killed.
    pub(crate) fn is_settling(&self, stage: u16, consumed: u64, killed: u64) -> bool
        ensures { result ≡ is_settling stage consumed killed self.now }
    {
        let counts = self.counts_of(stage);
        is_rise(counts.consumed, consumed, self.total.consumed)
            && is_rise(counts.killed, killed, self.total.killed)
    }

    /// So many of a stage were ever consumed and killed, and as many more of all.
    pub(crate) fn settle(&mut self, stage: u16, consumed: u64, killed: u64)
        requires settling { is_settling stage consumed killed self.old ≡ true }
        ensures { self.new ≡ with_settled stage consumed killed self.old }
    {
        let before = self.counts_of(stage);
        self.total = self.total.settled(
            risen(before.consumed, consumed, self.total.consumed),
            risen(before.killed, killed, self.total.killed),
        );
        let at = usize::from(stage);
        if at < self.stages.len() {
            self.stages[at] = before.settled(consumed, killed);
        }
    }

    /// These are born, and wait.
    pub(crate) fn count_births(&mut self, drafts: &[Draft])
        ensures { self.new ≡ tallied_births drafts.now self.old }
    {
        let Some((draft, others)) = drafts.split_first() else {
            return;
        };
        self.count(draft.stage(), &None, &Status::Waiting { attempts: 0 });
        self.count_births(others);
    }
}

/// Whether a count may go up to this one, and the count of all by as much.
fn is_rise(from: u64, to: u64, all: u64) -> bool
    ensures { result ≡ is_rise from to all }
{
    match to.checked_sub(from) {
        Some(more) => all.checked_add(more).is_some(),
        None => false,
    }
}

/// The count of all, where one goes up to this.
fn risen(from: u64, to: u64, all: u64) -> u64
    requires rise { is_rise from to all ≡ true }
    ensures { result ≡ all + (to - from) }
{
    all + (to - from)
}
