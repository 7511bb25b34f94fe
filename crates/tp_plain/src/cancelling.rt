//! The cancel of a whole request.
ghost use Rattle.std.specs.Prelude.{◌≡◌, ◌<◌, length};
ghost use Rattle.tp_plain.specs.Computed.{cancel_of, is_unsettled, unsettled_ids, with_kills};
ghost use Rattle.tp_plain.specs.OneThread.{Answers, CallCancel, pass_at};

use crate::looks::is_unsettled_in;
use crate::plain::Plain;
use tp_model::types::{Cancelled, Refusal};

impl Plain {
    /// Cancels the request of a client whose element has this id. It kills each element of its family that is
    /// no reply, and neither consumed nor killed, in the order of a walk through the family. A unit that
    /// holds one is aborted first. From then on no element of the family is claimed or committed, and none is
    /// born. Replies are left alone.
    ///
    /// `NotThere` where no client's element with this id is born.
    pub fn cancel(&mut self, caller: u16, root: u32) -> Result<Cancelled, Refusal>
        requires pass { caller < self.old.limits.parts }
        requires free { (pass_at self.old caller).holding ≡ None }
        ensures answer { Answers self.old (CallCancel caller root result) self.new }
        ensures computed { let computed = cancel_of self.old caller root in
            (result ≡ computed.0) × (self.new ≡ computed.1) }
        ensures limits { self.new.limits ≡ self.old.limits }
        ensures passes { self.new.passes ≡ self.old.passes }
    {
        self.show_reached();
        let Ok(look) = self.read(root) else {
            return Err(Refusal::NotThere);
        };
        if look.element.by.is_some() {
            return Err(Refusal::NotThere);
        }
        let killed = self.kill_family(caller, root);
        Ok(Cancelled { killed })
    }

    // Kills what is unsettled of a family, and no reply. How many elements that were.
    fn kill_family(&mut self, caller: u16, root: u32) -> u32
        requires pass { caller < self.old.limits.parts }
        requires free { (pass_at self.old caller).holding ≡ None }
        ensures killed { result ≡ length (unsettled_ids self.old root) }
        ensures state { self.new ≡ with_kills self.old caller (unsettled_ids self.old root) }
        ensures limits { self.new.limits ≡ self.old.limits }
        ensures passes { self.new.passes ≡ self.old.passes }
    {
        self.show_reached();
        let ids = self.walk(root);
        let mut killed = 0;
        for id in ids.iter() {
            if self.is_left(root, *id) {
                let _killed = self.kill(caller, *id);
                killed += 1;
            }
        }
        killed
    }

    // Whether the element with this id is of the family, no reply, and neither consumed nor killed.
    fn is_left(&self, root: u32, id: u32) -> bool
        ensures { result ≡ is_unsettled self.now root id }
    {
        match self.read(id) {
            Ok(look) => is_unsettled_in(root, look),
            Err(_) => false,
        }
    }
}
