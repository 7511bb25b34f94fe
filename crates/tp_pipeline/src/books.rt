//! What the pipeline notes of its payments. The servers' registers are held against it at the end.
ghost use Rattle.std.specs.Prelude.{◌≡◌, ◌+◌, ◌<◌, ◌^◌, IfSome, OnOk, length};
ghost use Rattle.tp_pipeline.specs.Ends.{AddUp};

use std::alloc::{AllocError, Global};
use tp_rollover::Moved;

/// How many payments were submitted and what became of them, with the roots of those that are open.
#[derive(Debug, Drop)]
pub struct Books {
    /// How many were submitted.
    pub submitted: u64,
    /// To how many a reply was collected, and what their amounts come to.
    pub collected: u64,
    pub paid: u64,
    /// How many were cancelled, since the validator had declined them.
    pub cancelled: u64,
    /// How often one was given another round, since the bank had been closed.
    pub requeued: u64,
    /// How many managers there were, and how many elements were carried from one to the next.
    pub managers: u64,
    pub carried: u64,
    /// How many nanoseconds the rollovers took.
    pub rolling: u64,
    /// The roots of those without an end yet.
    pub roots: Vec<u32>,
}

impl Books {
    pub fn new(alloc: Global) -> Books
        ensures none { result.submitted ≡ 0 }
        ensures add_up { AddUp result }
    {
        Books {
            submitted: 0,
            collected: 0,
            paid: 0,
            cancelled: 0,
            requeued: 0,
            managers: 1,
            carried: 0,
            rolling: 0,
            roots: Vec::new(alloc),
        }
    }

    /// A payment was submitted, whose root this is.
    pub fn submit(&mut self, root: u32) -> Result<(), AllocError>
        requires add_up { AddUp self.old }
        requires few { self.old.submitted + 1 < 2 ^ 64 }
        ensures add_up { OnOk result (AddUp self.new) }
        ensures submitted { OnOk result (self.new.submitted ≡ self.old.submitted + 1) }
    {
        self.roots.push(root)?;
        self.submitted += 1;
        Ok(())
    }

    /// The reply to the open payment at this place was collected: it told of this amount.
    pub fn pay(&mut self, place: usize, amount: u64)
        requires add_up { AddUp self.old }
        requires within { place < length self.old.roots.items }
        ensures add_up { AddUp self.new }
        ensures submitted { self.new.submitted ≡ self.old.submitted }
        ensures left { length self.new.roots.items + 1 ≡ length self.old.roots.items }
    {
        self.roots.swap_remove(place);
        self.collected += 1;
        self.paid = self.paid.saturating_add(amount);
    }

    /// The place of this root among those of open payments, if it is there.
    fn place_of(&self, root: u32) -> Option<usize>
        ensures within { IfSome result (λ place. place < length self.now.roots.items) }
    {
        for place in 0..self.roots.len() {
            if self.roots[place] == root {
                return Some(place);
            }
        }
        None
    }

    /// The payment with this root was cancelled. Whether it was open.
    pub fn cancel(&mut self, root: u32) -> bool
        requires add_up { AddUp self.old }
        ensures add_up { AddUp self.new }
        ensures submitted { self.new.submitted ≡ self.old.submitted }
    {
        let Some(place) = self.place_of(root) else {
            return false;
        };
        self.roots.swap_remove(place);
        self.cancelled += 1;
        true
    }

    /// What was open goes on in a new manager: of each open payment one element, and of no other. Whether
    /// there are as many.
    pub fn roll(&mut self, moved: &[Moved]) -> bool
        requires add_up { AddUp self.old }
        ensures add_up { AddUp self.new }
        ensures submitted { self.new.submitted ≡ self.old.submitted }
    {
        if moved.len() != self.roots.len() {
            return false;
        }
        take_over(&mut self.roots, moved);
        self.managers = self.managers.saturating_add(1);
        self.carried = self.carried.saturating_add(moved.len() as u64);
        true
    }
}

/// Puts the new roots in the places of the old ones.
fn take_over(roots: &mut [u32], moved: &[Moved])
    requires paired { length roots.old ≡ length moved.now }
    ensures kept { length roots.new ≡ length roots.old }
{
    for place in 0..moved.len() {
        roots[place] = moved[place].new_root;
    }
}
