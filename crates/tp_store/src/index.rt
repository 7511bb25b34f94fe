//! An index of elements: which ids stand in which group.
ghost use Rattle.std.specs.Prelude.{◌≡◌, ℕ, List, [], ◌&&◌, ◌||◌, ◌==◌, not, true, false, OnOk, OnErr};
ghost use Rattle.tp_store.specs.Elements.{is_group};
ghost use Rattle.tp_store.specs.Indexes.{gains, has, is_place, IsFirstFrom};
ghost use Rattle.tp_store.specs.Queues.{ArePlacesFrom};

use std::alloc::{AllocError, Global};
use std::collections::BTreeSet;
use std::collections::btree_set::Range;
use std::marker::Model;

/// Which ids stand in which group: a group and an id for each.
#[derive(Drop)]
pub(crate) struct Index {
    places: BTreeSet<(u64, u64)>,
}

impl Model for Index {
    ghost Value = { List (ℕ × ℕ) };

    ghost view = { λ i. i.places.keys };
}

impl Index {
    /// An index of nothing.
    pub(crate) fn new(alloc: Global) -> Index
        ensures { result ≡ [] }
    {
        Index {
            places: BTreeSet::new(alloc),
        }
    }

    /// The id stands in the group from now on.
    pub(crate) fn add(&mut self, group: u64, id: u64) -> Result<(), AllocError>
        ensures ok { OnOk result ((g i : ℕ) → has self.new g i ≡ (has self.old g i || is_place group id g i)) }
        ensures err { OnErr result (self.new ≡ self.old) }
        ensures absent { OnErr result (has self.old group id ≡ false) }
    {
        match self.places.insert((group, id)) {
            Ok(_) => Ok(()),
            Err(_) => Err(AllocError),
        }
    }

    /// The id stands in the group no more.
    pub(crate) fn remove(&mut self, group: u64, id: u64)
        ensures { (g i : ℕ) → has self.new g i ≡ (has self.old g i && not (is_place group id g i)) }
    {
        let _ = self.places.remove(&(group, id));
    }

    /// The id goes over into this group, and stands in the one that it was in too.
    #[inline(always)]
    pub(crate) fn enter(
        &mut self,
        id: u64,
        from: Option<u64>,
        to: Option<u64>,
    ) -> Result<(), AllocError>
        requires known { (g : ℕ) → is_group g from ≡ true → has self.old g id ≡ true }
        ensures ok { OnOk result ((g i : ℕ) → has self.new g i ≡ (has self.old g i || (id == i && is_group g to))) }
        ensures err { OnErr result (self.new ≡ self.old) }
        ensures absent { OnErr result (gains from to ≡ true) }
    {
        let Some(group) = to else { return Ok(()) };
        if let Some(before) = from {
            if before == group {
                return Ok(());
            }
        }
        self.add(group, id)
    }

    /// The id leaves the group that it was in, unless it goes over into that.
    #[inline(always)]
    pub(crate) fn leave(&mut self, id: u64, from: Option<u64>, to: Option<u64>)
        ensures { (g i : ℕ) → has self.new g i
            ≡ (has self.old g i && not (id == i && (is_group g from && not (is_group g to)))) }
    {
        let Some(group) = from else { return };
        if let Some(after) = to {
            if after == group {
                return;
            }
        }
        self.remove(group, id);
    }

    /// The least id from this one on that stands in the group.
    #[inline(always)]
    pub(crate) fn first(&self, group: u64, from: u64) -> Option<u64>
        ensures { IsFirstFrom self.now group from result }
    {
        let Some(&(at, id)) = self.places.range((group, from)..).next() else {
            return None;
        };
        if at == group { Some(id) } else { None }
    }
    /// The places from this one on, of later groups too, in order.
    pub(crate) fn places(&self, group: u64, from: u64) -> Range<'_, (u64, u64)>
        ensures { ArePlacesFrom self.now group from result }
    {
        self.places.range((group, from)..)
    }
}
