//! The elements of a store, by their ids, with all indexes.
ghost use Rattle.std.specs.Prelude.{◌≡◌, ◌≤◌, ◌<◌, ◌^◌, ◌++◌, ℕ, [], true, Some};
ghost use Rattle.std.specs.Prelude.{None, IfOk, IfSome, OnOk, OnErr};
ghost use Rattle.tp_store.specs.Elements.{alive_of, element_at, family_of, first_in};
ghost use Rattle.tp_store.specs.Elements.{groups_of, put, queue_of};
ghost use Rattle.tp_store.specs.Elements.{unless_own, without};
ghost use Rattle.tp_store.specs.Ends.{is_over};
ghost use Rattle.tp_store.specs.Listing.{first_of, listed};
ghost use Rattle.tp_store.specs.declared.group.Group.TheVariants.{All, Family, Queue};
ghost use Rattle.tp_store.specs.Indexing.{gains_any};
ghost use Rattle.tp_store.specs.Shelves.{earlier, groups_at, own_of, AreSorted};
ghost use Rattle.tp_store.specs.Shelves.{IsFoundBy, IsIndexOf, IsPutAt};
ghost use Rattle.tp_store.specs.Shelves.{IsThere};

use crate::element::{Element, Groups, NO_GROUPS};
use crate::group::Group;
use crate::index::Index;
use crate::indexes::Indexes;
use crate::kept::Kept;
use crate::queues::Queues;
use std::alloc::{AllocError, Global};
use std::collections::BTreeMap;
use std::marker::Model;

/// The elements by their ids. What stands in a group is found without a walk over the others.
#[derive(Drop)]
pub(crate) struct Shelf {
    elements: BTreeMap<u64, Kept>,
    indexes: Indexes,
}

impl Model for Shelf {
    ghost use Rattle.tp_store.specs.Elements.{Entry};
    ghost use Rattle.std.specs.Prelude.{List};
    ghost use Rattle.tp_store.specs.Shelves.{AreIndexed};

    ghost Value = { List Entry };

    ghost view = { λ s. s.elements.entries };

    ghost invariant = { λ s. AreIndexed s.elements.entries s.indexes };
}

impl Shelf {
    /// A shelf with nothing on it.
    pub(crate) fn new(alloc: Global) -> Shelf
        ensures { result ≡ [] }
    {
        Shelf {
            elements: BTreeMap::new(alloc),
            indexes: Indexes::new(alloc),
        }
    }

    /// The element with this id.
    #[inline(always)]
    pub(crate) fn get(&self, id: u64) -> Option<Element>
        ensures { result ≡ element_at id self.now }
    {
        match self.elements.get(&id) {
            Some(kept) => Some(kept.element()),
            None => None,
        }
    }

    /// An element more, at an id that had none.
    pub(crate) fn insert(&mut self, id: u64, element: Element) -> Result<(), AllocError>
        requires unborn { element_at id self.old ≡ None }
        ensures ok { OnOk result (self.new ≡ put id element self.old) }
        ensures at { OnOk result (IsPutAt id (Some element) self.old self.new) }
        ensures err { OnErr result (self.new ≡ self.old) }
    {
        let to = element.groups(id);
        match self.indexes.enter(id, &NO_GROUPS, &to) {
            Ok(()) => {}
            Err(refused) => return Err(refused),
        }
        let kept = Kept::of(&element);
        match self.elements.insert(id, kept) {
            Ok(_) => {
                self.indexes.leave(id, &NO_GROUPS, &to);
                Ok(())
            }
            Err(_) => {
                self.indexes.leave(id, &to, &NO_GROUPS);
                Err(AllocError)
            }
        }
    }

    /// The element with this id, which was the first one, is the second from now on. Memory is wanted only
    /// where it comes into a group that it wasn't in.
    pub(crate) fn replace(
        &mut self,
        id: u64,
        before: &Element,
        after: Element,
    ) -> Result<(), AllocError>
        requires there { element_at id self.old ≡ Some before.now }
        ensures ok { OnOk result (self.new ≡ put id after self.old) }
        ensures at { OnOk result (IsPutAt id (Some after) self.old self.new) }
        ensures err { OnErr result (self.new ≡ self.old) }
        ensures needed { OnErr result (gains_any (groups_of id before.now) (groups_of id after) ≡ true) }
    {
        let from = before.groups(id);
        let to = after.groups(id);
        match self.indexes.enter(id, &from, &to) {
            Ok(()) => {}
            Err(refused) => return Err(refused),
        }
        let kept = Kept::of(&after);
        if let Some(place) = self.elements.get_mut(&id) {
            *place = kept;
        }
        self.indexes.leave(id, &from, &to);
        Ok(())
    }

    /// The element with this id is forgotten.
    pub(crate) fn remove(&mut self, id: u64)
        ensures without { self.new ≡ without id self.old }
        ensures at { IsPutAt id None self.old self.new }
    {
        let removed = self.elements.remove(&id);
        let before = groups_at(id, &removed);
        self.indexes.leave(id, &before, &NO_GROUPS);
    }

    /// The first element of a group from this id on.
    pub(crate) fn first(&self, group: Group, from: u64) -> Option<(u64, Element)>
        ensures first { result ≡ first_of group from self.now }
        ensures there { IfSome result (IsThere self.now) }
        ensures sorted { AreSorted self.now }
    {
        match group {
            Group::Queue(queue) => first_waiting(&self.elements, &self.indexes.queues, queue, from),
            Group::Replies(root) => found(&self.elements, &self.indexes.replies, root, from),
            Group::Owned(owner) => found(&self.elements, &self.indexes.owned, owner, from),
            Group::Family(root) => self.first_member(root, from),
            Group::All => first_from(&self.elements, from),
        }
    }

    /// The elements that stand in a queue from this id on, at most so many.
    pub(crate) fn waiting(
        &self,
        alloc: Global,
        queue: u16,
        from: u64,
        most: usize,
    ) -> Result<Vec<(u64, Element)>, AllocError>
        ensures { IfOk result (λ v. v.items ≡ listed (Queue queue) from most self.now) }
    {
        all_waiting(
            alloc,
            &self.elements,
            &self.indexes.queues,
            queue,
            from,
            most,
        )
    }

    /// Adds the elements of a request from this id on, which is above its own one, at most so many.
    pub(crate) fn add_members(
        &self,
        list: &mut Vec<(u64, Element)>,
        root: u64,
        from: u64,
        most: usize,
    ) -> Result<(), AllocError>
        requires above { root < from }
        ensures { OnOk result (list.new.items ≡ list.old.items ++ listed (Family root) from most self.now) }
    {
        add_members(
            list,
            &self.elements,
            &self.indexes.families,
            root,
            from,
            most,
        )
    }

    /// The first element of a request from this id on: its own one, or by the index.
    fn first_member(&self, root: u64, from: u64) -> Option<(u64, Element)>
        ensures first { result ≡ first_in family_of root from self.now }
        ensures there { IfSome result (IsThere self.now) }
    {
        let own = own_member(&self.elements, root, from);
        let other = found(&self.elements, &self.indexes.families, root, from);
        earlier(own, other)
    }

    /// The first element of this request from this id on, on which work may go on.
    pub(crate) fn first_alive(&self, root: u64, from: u64) -> Option<(u64, Element)>
        ensures first { result ≡ first_in alive_of root from self.now }
        ensures there { IfSome result (IsThere self.now) }
        ensures sorted { AreSorted self.now }
    {
        let own = own_alive(&self.elements, root, from);
        let other = found(&self.elements, &self.indexes.alive, root, from);
        earlier(own, other)
    }

    /// Whether no work on this request goes on.
    pub(crate) fn is_over(&self, root: u64) -> bool
        ensures { result ≡ is_over root self.now }
    {
        match own_alive(&self.elements, root, 0) {
            Some(_) => false,
            None => self.indexes.alive.first(root, 0).is_none(),
        }
    }
}

/// A request's own element, if its id isn't below this one.
#[inline(always)]
fn own_member(elements: &BTreeMap<u64, Kept>, root: u64, from: u64) -> Option<(u64, Element)>
    ensures { result ≡ own_of family_of root from (element_at root elements.now.entries) }
{
    if from > root {
        return None;
    }
    let Some(kept) = elements.get(&root) else {
        return None;
    };
    let element = kept.element();
    if element.root == root {
        Some((root, element))
    } else {
        None
    }
}

/// The same, if work on it may go on.
#[inline(always)]
fn own_alive(elements: &BTreeMap<u64, Kept>, root: u64, from: u64) -> Option<(u64, Element)>
    ensures { result ≡ own_of alive_of root from (element_at root elements.now.entries) }
{
    if from > root {
        return None;
    }
    let Some(kept) = elements.get(&root) else {
        return None;
    };
    let element = kept.element();
    let Some(request) = element.alive() else {
        return None;
    };
    if request == root {
        Some((root, element))
    } else {
        None
    }
}

/// The one of two that has the lesser id.
#[inline(always)]
fn earlier(one: Option<(u64, Element)>, other: Option<(u64, Element)>) -> Option<(u64, Element)>
    ensures { result ≡ earlier one other }
{
    let Some(first) = one else { return other };
    let Some(second) = other else {
        return Some(first);
    };
    if second.0 < first.0 {
        Some(second)
    } else {
        Some(first)
    }
}

/// The groups that an element with this id stands in, and none where there is none.
#[inline(always)]
fn groups_at(id: u64, kept: &Option<Kept>) -> Groups
    ensures { result ≡ groups_at id kept.now }
{
    match kept {
        Some(kept) => kept.element().groups(id),
        None => NO_GROUPS,
    }
}

/// The first of all elements from this id on.
fn first_from(elements: &BTreeMap<u64, Kept>, from: u64) -> Option<(u64, Element)>
    ensures first { result ≡ first_of All from elements.now.entries }
    ensures there { IfSome result (IsThere elements.now.entries) }
{
    match elements.range(from..).next() {
        Some((id, kept)) => {
            let element = kept.element();
            Some((*id, element))
        }
        None => None,
    }
}

/// The first element of a queue from this id on.
fn first_waiting(
    elements: &BTreeMap<u64, Kept>,
    queues: &Queues,
    queue: u16,
    from: u64,
) -> Option<(u64, Element)>
    ensures first { IsFoundBy elements.now.entries queues.now queue from result }
    ensures there { IfSome result (IsThere elements.now.entries) }
{
    let Some(id) = queues.first(u64::from(queue), from) else {
        return None;
    };
    match elements.get(&id) {
        Some(kept) => Some((id, kept.element())),
        None => None,
    }
}

/// The elements that stand in a queue from this id on, at most so many, by one walk over its ids.
fn all_waiting(
    alloc: Global,
    elements: &BTreeMap<u64, Kept>,
    queues: &Queues,
    queue: u16,
    from: u64,
    most: usize,
) -> Result<Vec<(u64, Element)>, AllocError>
    requires sorted { AreSorted elements.now.entries }
    requires fits { (id : ℕ) → 2 ^ 64 ≤ id → element_at id elements.now.entries ≡ None }
    requires index { IsIndexOf (λ j. queue_of) elements.now.entries queues.now }
    ensures { IfOk result (λ v. v.items ≡ listed (Queue queue) from most elements.now.entries) }
{
    let mut list = Vec::new(alloc);
    let Some(ids) = queues.ids(u64::from(queue), from) else {
        return Ok(list);
    };
    let mut ids = ids;
    for _step in 0..most {
        let Some(id) = ids.next() else {
            return Ok(list);
        };
        let Some(kept) = elements.get(id) else {
            unreachable!();
        };
        list.push((*id, kept.element()))?;
    }
    Ok(list)
}

/// Adds the elements of a request from an id on that is above its own one, at most so many, by one walk.
fn add_members(
    list: &mut Vec<(u64, Element)>,
    elements: &BTreeMap<u64, Kept>,
    families: &Index,
    root: u64,
    from: u64,
    most: usize,
) -> Result<(), AllocError>
    requires sorted { AreSorted elements.now.entries }
    requires fits { (id : ℕ) → 2 ^ 64 ≤ id → element_at id elements.now.entries ≡ None }
    requires index { IsIndexOf (unless_own family_of) elements.now.entries families.now }
    requires above { root < from }
    ensures { OnOk result (list.new.items
        ≡ list.old.items ++ listed (Family root) from most elements.now.entries) }
{
    let mut places = families.places(root, from);
    for _step in 0..most {
        let Some(place) = places.next() else {
            return Ok(());
        };
        let (group, id) = *place;
        if group != root {
            return Ok(());
        }
        let Some(kept) = elements.get(&id) else {
            unreachable!();
        };
        list.push((id, kept.element()))?;
    }
    Ok(())
}

/// The first element of a group from this id on, by an index.
#[inline(always)]
fn found(
    elements: &BTreeMap<u64, Kept>,
    index: &Index,
    group: u64,
    from: u64,
) -> Option<(u64, Element)>
    ensures first { IsFoundBy elements.now.entries index.now group from result }
    ensures there { IfSome result (IsThere elements.now.entries) }
{
    let Some(id) = index.first(group, from) else {
        return None;
    };
    match elements.get(&id) {
        Some(kept) => Some((id, kept.element())),
        None => None,
    }
}
