//! The walk through a request's family.
ghost use Rattle.std.specs.Prelude.{◌≡◌, ◌==◌};
ghost use Rattle.std.specs.List.{list_any};
ghost use Rattle.tp_model.specs.History.{element_of, status_of};
ghost use Rattle.tp_plain.specs.Looks.{is_consumed_by};
ghost use Rattle.tp_plain.specs.Walks.{comes_from, consumed_one, is_ahead, is_reached, next_of_walk, walk_of};

use crate::plain::Plain;
use arrayvec::ArrayVec;
use tp_model::types::Status;

/// As many ids as there can be.
pub(crate) const MAX_ROWS: usize = 10_240;

// Whether the id is one of these.
fn has_gone(gone: &[u32], id: u32) -> bool
    ensures { result ≡ list_any (λ i. i == id) gone.now }
{
    gone.iter().any(|past| *past == id)
}

impl Plain {
    /// The ids from which a walk through the family of a request goes on, one after another: always the least
    /// that it has come to and not gone on from.
    pub(crate) fn walk(&self, root: u32) -> ArrayVec<u32, MAX_ROWS>
        ensures { result.items ≡ walk_of self.now root }
    {
        self.show_reached();
        let mut gone = ArrayVec::new();
        for _past in 0..self.capacity() {
            let Some(id) = self.next_of_walk(root, &gone) else {
                return gone;
            };
            gone.push(id);
        }
        gone
    }

    // The least id that the walk has come to and not gone on from.
    fn next_of_walk(&self, root: u32, gone: &[u32]) -> Option<u32>
        ensures { result ≡ next_of_walk self.now root gone.now }
    {
        (0..self.capacity()).find(|id| self.is_ahead(root, gone, *id))
    }

    // Whether the walk has come to the element with this id, and not gone on from it.
    fn is_ahead(&self, root: u32, gone: &[u32], id: u32) -> bool
        ensures { result ≡ is_ahead self.now root gone.now id }
    {
        self.is_reached(root, gone, id) && !has_gone(gone, id)
    }

    // Whether the walk has come to the element with this id.
    fn is_reached(&self, root: u32, gone: &[u32], id: u32) -> bool
        ensures { result ≡ is_reached self.now root gone.now id }
    {
        if id == root {
            return true;
        }
        self.comes_from(gone, id)
    }

    // Whether the element with this id was made by a unit that consumed one of these.
    fn comes_from(&self, gone: &[u32], id: u32) -> bool
        ensures { result ≡ comes_from self.now gone.now (element_of self.now.history id) }
    {
        match self.read(id) {
            Ok(look) => match look.element.by {
                Some(unit) => self.consumed_one(gone, unit),
                None => false,
            },
            Err(_) => false,
        }
    }

    // Whether the unit consumed one of these elements.
    fn consumed_one(&self, gone: &[u32], unit: u16) -> bool
        ensures { result ≡ consumed_one self.now gone.now unit }
    {
        gone.iter().any(|id| self.is_consumed_by(*id, unit))
    }

    // Whether the unit consumed the element with this id.
    fn is_consumed_by(&self, id: u32, unit: u16) -> bool
        ensures { result ≡ is_consumed_by unit (status_of self.now.limits.attempts self.now.history id) }
    {
        self.show_reached();
        match self.read(id) {
            Ok(look) => matches!(look.status, Status::Consumed { unit: by } if unit == by),
            Err(_) => false,
        }
    }
}
