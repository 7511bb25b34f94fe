//! What can be seen of a store.
ghost use Rattle.std.specs.Prelude.{◌≡◌, IfOk, slice_get};
ghost use Rattle.tp_store.specs.Elements.{element_at};
ghost use Rattle.tp_store.specs.Listing.{first_of, listed};
ghost use Rattle.tp_store.specs.declared.group.Group.TheVariants.{Family};

use crate::counts::Counts;
use crate::element::Element;
use crate::group::Group;
use crate::store::{Limits, Store};
use std::alloc::{AllocError, Global};

impl Store {
    /// The element with this id.
    pub fn get(&self, id: u64) -> Option<Element>
        ensures { result ≡ element_at id self.now.elements }
    {
        self.shelf.get(id)
    }

    /// The first element of a group from this id on, with its id.
    pub fn first(&self, group: Group, from: u64) -> Option<(u64, Element)>
        ensures { result ≡ first_of group from self.now.elements }
    {
        self.shelf.first(group, from)
    }

    /// The elements of a group from this id on, in the order of their ids, at most so many.
    pub fn list(
        &self,
        alloc: Global,
        group: Group,
        from: u64,
        most: usize,
    ) -> Result<Vec<(u64, Element)>, AllocError>
        ensures { IfOk result (λ v. v.items ≡ listed group from most self.now.elements) }
    {
        match group {
            Group::Queue(queue) => self.shelf.waiting(alloc, queue, from, most),
            Group::Replies(_) => self.list_by_steps(alloc, group, from, most),
            Group::Owned(_) => self.list_by_steps(alloc, group, from, most),
            Group::Family(root) => self.list_family(alloc, root, from, most),
            Group::All => self.list_by_steps(alloc, group, from, most),
        }
    }

    /// The elements of a request from this id on, at most so many.
    fn list_family(
        &self,
        alloc: Global,
        root: u64,
        from: u64,
        most: usize,
    ) -> Result<Vec<(u64, Element)>, AllocError>
        ensures { IfOk result (λ v. v.items ≡ listed (Family root) from most self.now.elements) }
    {
        let _end = self.next;
        let mut list = Vec::new(alloc);
        let Some((id, element)) = self.shelf.first(Group::Family(root), from) else {
            return Ok(list);
        };
        if most == 0 || id < root {
            return self.list_by_steps(alloc, Group::Family(root), from, most);
        }
        list.push((id, element))?;
        self.shelf.add_members(&mut list, root, id + 1, most - 1)?;
        Ok(list)
    }

    /// The same of any group, where the first of those that are left is looked for at each step.
    fn list_by_steps(
        &self,
        alloc: Global,
        group: Group,
        from: u64,
        most: usize,
    ) -> Result<Vec<(u64, Element)>, AllocError>
        ensures { IfOk result (λ v. v.items ≡ listed group from most self.now.elements) }
    {
        let _end = self.next;
        let mut list = Vec::new(alloc);
        let mut next = from;
        for _step in 0..most {
            let Some((id, element)) = self.shelf.first(group, next) else {
                return Ok(list);
            };
            list.push((id, element))?;
            next = id + 1;
        }
        Ok(list)
    }

    /// The id that the next element has.
    pub fn next(&self) -> u64
        ensures { result ≡ self.now.next }
    {
        self.next
    }

    /// The number that the next unit of work has.
    pub fn units(&self) -> u64
        ensures { result ≡ self.now.units }
    {
        self.units
    }

    /// The k-th, from 0 on, of the requests that are over and not forgotten, in the order of their ends.
    pub fn over(&self, k: usize) -> Option<u64>
        ensures { result ≡ slice_get self.now.ended k }
    {
        self.ended.get(k).copied()
    }

    /// How many elements there were of each kind since the store was made, forgotten ones too.
    pub fn total(&self) -> Counts
        ensures { result ≡ self.now.tally.total }
    {
        self.tally.total()
    }

    /// The same of one stage; `None` where it isn't 0 to 999.
    pub fn stage_total(&self, stage: u16) -> Option<Counts>
        ensures { result ≡ slice_get self.now.tally.stages stage }
    {
        self.tally.stage(stage)
    }

    /// The limits.
    pub fn limits(&self) -> Limits
        ensures { result ≡ self.now.limits }
    {
        self.limits
    }
}
