//! The collection of replies.
ghost use Rattle.std.specs.Prelude.{◌≡◌, ◌<◌, None, Ok, MatchOption};
ghost use Rattle.tp_model.specs.History.{element_of, status_of};
ghost use Rattle.tp_plain.specs.Computed.{collect_next_of, collect_of};
ghost use Rattle.tp_plain.specs.Listings.{next_reply_of, reply_found};
ghost use Rattle.tp_plain.specs.OneThread.{Answers, CallCollect, pass_at};

use crate::history::Note;
use crate::looks::is_reply_in;
use crate::plain::Plain;
use tp_model::types::{Element, REPLY_STAGE, Refusal, Status};

impl Plain {
    /// A pass takes a reply, once: it is killed.
    ///
    /// `NotThere` where no element with this id is born, `BadStage` where it is no reply, and `AlreadyKilled`
    /// where it was collected or killed before.
    pub fn collect(&mut self, caller: u16, id: u32) -> Result<Element, Refusal>
        requires pass { caller < self.old.limits.parts }
        requires free { (pass_at self.old caller).holding ≡ None }
        ensures answer { Answers self.old (CallCollect caller id result) self.new }
        ensures computed { (result ≡ (collect_of self.old caller id).0)
            × (self.new ≡ (collect_of self.old caller id).1) }
        ensures limits { self.new.limits ≡ self.old.limits }
        ensures passes { self.new.passes ≡ self.old.passes }
    {
        self.show_reached();
        let Ok(look) = self.read(id) else {
            return Err(Refusal::NotThere);
        };
        if look.element.stage != REPLY_STAGE {
            return Err(Refusal::BadStage);
        }
        match look.status {
            Status::Killed => Err(Refusal::AlreadyKilled),
            _ => {
                self.mark(&Note::Kill(caller, id));
                Ok(look.element)
            }
        }
    }

    /// A pass takes the least reply to the request with this root that waits, once: it is killed. `None`
    /// where none waits.
    pub fn collect_next(&mut self, caller: u16, root: u32) -> Option<Element>
        requires pass { caller < self.old.limits.parts }
        requires free { (pass_at self.old caller).holding ≡ None }
        ensures answer { MatchOption result (self.new ≡ self.old)
            (λ e. Answers self.old (CallCollect caller e.id (Ok e)) self.new) }
        ensures computed { let computed = collect_next_of self.old caller root in
            (result ≡ computed.0) × (self.new ≡ computed.1) }
        ensures limits { self.new.limits ≡ self.old.limits }
        ensures passes { self.new.passes ≡ self.old.passes }
    {
        let Some(id) = self.next_reply(root) else {
            return None;
        };
        match self.collect(caller, id) {
            Ok(reply) => Some(reply),
            Err(_) => None,
        }
    }

    // The least id of a reply to the request that waits.
    fn next_reply(&self, root: u32) -> Option<u32>
        ensures { result ≡ next_reply_of self.now root 0 }
    {
        (0..self.capacity()).find(|id| self.is_reply(root, *id))
    }

    // Whether the element with this id is a reply to the request, and waits.
    fn is_reply(&self, root: u32, id: u32) -> bool
        ensures { let s = self.now in
            result ≡ reply_found root (status_of s.limits.attempts s.history id) (element_of s.history id) }
    {
        match self.read(id) {
            Ok(look) => is_reply_in(root, look),
            Err(_) => false,
        }
    }
}
