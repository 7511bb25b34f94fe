//! The queues: which ids wait in which stage. Each is a set of its own, so that its first id is found
//! at once.
ghost use Rattle.std.specs.Prelude.{◌≡◌, ◌<◌, ◌≤◌, ℕ, [], ◌&&◌, ◌||◌, ◌==◌, not, true, false, OnOk, OnErr};
ghost use Rattle.std.specs.Prelude.{IfNone, IfSome, None, length};
ghost use Rattle.tp_store.specs.Elements.{is_group};
ghost use Rattle.tp_store.specs.Indexes.{gains, has, is_place, IsFirstFrom};
ghost use Rattle.tp_store.specs.Queues.{AreIdsFrom, IsLeastFrom, places_from};

use std::alloc::{AllocError, Global};
use std::collections::BTreeSet;
use std::collections::btree_set::Range;
use std::marker::Model;

/// Which ids stand in which queue: the set of each queue at its index.
#[derive(Drop)]
pub(crate) struct Queues {
    alloc: Global,
    sets: Vec<BTreeSet<u64>>,
}

impl Model for Queues {
    ghost use Rattle.std.specs.Prelude.{ℕ, List};
    ghost use Rattle.tp_store.specs.Queues.{places_from};

    ghost Value = { List (ℕ × ℕ) };

    ghost view = { λ q. places_from 0 q.sets.items };
}

impl Queues {
    /// Queues of nothing.
    pub(crate) fn new(alloc: Global) -> Queues
        ensures { result ≡ [] }
    {
        Queues {
            alloc,
            sets: Vec::new(alloc),
        }
    }

    /// The id stands in the queue from now on.
    fn add(&mut self, queue: u64, id: u64) -> Result<(), AllocError>
        ensures ok { OnOk result ((g i : ℕ) → has self.new g i ≡ (has self.old g i || is_place queue id g i)) }
        ensures err { OnErr result (self.new ≡ self.old) }
        ensures absent { OnErr result (has self.old queue id ≡ false) }
    {
        add(&mut self.sets, self.alloc, queue, id)
    }

    /// The id stands in the queue no more.
    fn remove(&mut self, queue: u64, id: u64)
        ensures { (g i : ℕ) → has self.new g i ≡ (has self.old g i && not (is_place queue id g i)) }
    {
        remove(self.sets.as_mut_slice(), queue, id);
    }

    /// The id goes over into this queue, and stands in the one that it was in too.
    #[inline(always)]
    pub(crate) fn enter(
        &mut self,
        id: u64,
        from: Option<u64>,
        to: Option<u64>,
    ) -> Result<(), AllocError>
        requires known { (g : ℕ) → is_group g from ≡ true → has self.old g id ≡ true }
        ensures ok { OnOk result ((g i : ℕ) → has self.new g i ≡ (has self.old g i || (id == i && is_group g to))) }
        ensures err { OnErr result (self.new ≡ self.old) }
        ensures absent { OnErr result (gains from to ≡ true) }
    {
        let Some(queue) = to else { return Ok(()) };
        if let Some(before) = from {
            if before == queue {
                return Ok(());
            }
        }
        self.add(queue, id)
    }

    /// The id leaves the queue that it was in, unless it goes over into that.
    #[inline(always)]
    pub(crate) fn leave(&mut self, id: u64, from: Option<u64>, to: Option<u64>)
        ensures { (g i : ℕ) → has self.new g i
            ≡ (has self.old g i && not (id == i && (is_group g from && not (is_group g to)))) }
    {
        let Some(queue) = from else { return };
        if let Some(after) = to {
            if after == queue {
                return;
            }
        }
        self.remove(queue, id);
    }

    /// The least id from this one on that stands in the queue.
    pub(crate) fn first(&self, queue: u64, from: u64) -> Option<u64>
        ensures { IsFirstFrom self.now queue from result }
    {
        first(self.sets.as_slice(), queue, from)
    }

    /// The ids from this one on that stand in the queue, in order, if any ever stood there.
    pub(crate) fn ids(&self, queue: u64, from: u64) -> Option<Range<'_, u64>>
        ensures some { IfSome result (λ r. AreIdsFrom self.now queue from r) }
        ensures none { IfNone result (IsFirstFrom self.now queue from None) }
    {
        ids(self.sets.as_slice(), queue, from)
    }
}

/// Makes sets until there is one for this queue.
fn reach(sets: &mut Vec<BTreeSet<u64>>, alloc: Global, queue: u64) -> Result<(), AllocError>
    ensures same { places_from 0 sets.new.items ≡ places_from 0 sets.old.items }
    ensures long { OnOk result (queue < length sets.new.items) }
    ensures short { OnErr result (length sets.old.items ≤ queue) }
{
    while sets.len() as u64 <= queue {
        match sets.push(BTreeSet::new(alloc)) {
            Ok(()) => {}
            Err(_) => return Err(AllocError),
        }
    }
    Ok(())
}

/// The id stands in the queue from now on.
fn add(sets: &mut Vec<BTreeSet<u64>>, alloc: Global, queue: u64, id: u64) -> Result<(), AllocError>
    ensures ok { OnOk result ((g i : ℕ) → has (places_from 0 sets.new.items) g i
        ≡ (has (places_from 0 sets.old.items) g i || is_place queue id g i)) }
    ensures err { OnErr result (places_from 0 sets.new.items ≡ places_from 0 sets.old.items) }
    ensures absent { OnErr result (has (places_from 0 sets.old.items) queue id ≡ false) }
{
    match reach(sets, alloc, queue) {
        Ok(()) => {}
        Err(refused) => return Err(refused),
    }
    match sets[queue as usize].insert(id) {
        Ok(_) => Ok(()),
        Err(_) => Err(AllocError),
    }
}

/// The id stands in the queue no more.
fn remove(sets: &mut [BTreeSet<u64>], queue: u64, id: u64)
    ensures { (g i : ℕ) → has (places_from 0 sets.new) g i
        ≡ (has (places_from 0 sets.old) g i && not (is_place queue id g i)) }
{
    let at = queue as usize;
    if at < sets.len() {
        let _ = sets[at].remove(&id);
    }
}

/// The least id from this one on that stands in the queue.
fn first(sets: &[BTreeSet<u64>], queue: u64, from: u64) -> Option<u64>
    ensures { IsFirstFrom (places_from 0 sets.now) queue from result }
{
    let at = queue as usize;
    if at >= sets.len() {
        return None;
    }
    least(&sets[at], from)
}

/// The least of these ids from this one on. (The first of all is found without a comparison.)
#[inline(always)]
fn least(ids: &BTreeSet<u64>, from: u64) -> Option<u64>
    ensures { IsLeastFrom ids.now.keys from result }
{
    if from == 0 {
        return match ids.first() {
            Some(id) => Some(*id),
            None => None,
        };
    }
    match ids.range(from..).next() {
        Some(id) => Some(*id),
        None => None,
    }
}

/// The ids from this one on that stand in the queue, in order, if there is a set for it.
fn ids(sets: &[BTreeSet<u64>], queue: u64, from: u64) -> Option<Range<'_, u64>>
    ensures some { IfSome result (λ r. AreIdsFrom (places_from 0 sets.now) queue from r) }
    ensures none { IfNone result (IsFirstFrom (places_from 0 sets.now) queue from None) }
{
    let at = queue as usize;
    if at >= sets.len() {
        return None;
    }
    Some(sets[at].range(from..))
}
