//! The next element of a request, in whatever stage it is.
ghost use Rattle.std.specs.Prelude.{◌≡◌};
ghost use Rattle.tp_model.specs.History.{element_of};
ghost use Rattle.tp_plain.specs.Computed.{family_of};
ghost use Rattle.tp_plain.specs.Listings.{member_found, next_member_of};

use crate::plain::Plain;
use tp_model::types::Look;

impl Plain {
    /// The element of the request with this root that has the least id from this one on, and its status.
    /// `None` where there is none.
    pub fn family(&self, root: u32, from: u32) -> Option<Look>
        ensures computed { result ≡ family_of self.now root from }
    {
        let Some(id) = self.next_member(root, from) else {
            return None;
        };
        match self.read(id) {
            Ok(look) => Some(look),
            Err(_) => None,
        }
    }

    // The least id from this one on of an element of the request.
    fn next_member(&self, root: u32, from: u32) -> Option<u32>
        ensures { result ≡ next_member_of self.now root from }
    {
        (from..self.capacity()).find(|id| self.is_member(root, *id))
    }

    // Whether the element with this id is one of the request.
    fn is_member(&self, root: u32, id: u32) -> bool
        ensures { result ≡ member_found root (element_of self.now.history id) }
    {
        match self.read(id) {
            Ok(look) => look.element.root == root,
            Err(_) => false,
        }
    }
}
