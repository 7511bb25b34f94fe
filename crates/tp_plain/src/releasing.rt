//! The release of an element from the unit of work that holds it.
ghost use Rattle.std.specs.Prelude.{◌≡◌, ◌<◌, None};
ghost use Rattle.tp_plain.specs.Computed.{release_of};
ghost use Rattle.tp_plain.specs.OneThread.{Answers, CallRelease, pass_at};

use crate::history::Note;
use crate::plain::Plain;
use tp_model::types::{Refusal, Released, Status};

impl Plain {
    /// A pass aborts the unit of work that holds an element: it waits again, or is parked where that was the
    /// last attempt of its round.
    ///
    /// `NotThere` where no element with this id is born, and `NotHeld`.
    pub fn release(&mut self, caller: u16, id: u32) -> Result<Released, Refusal>
        requires pass { caller < self.old.limits.parts }
        requires free { (pass_at self.old caller).holding ≡ None }
        ensures answer { Answers self.old (CallRelease caller id result) self.new }
        ensures computed { (result ≡ (release_of self.old caller id).0)
            × (self.new ≡ (release_of self.old caller id).1) }
        ensures limits { self.new.limits ≡ self.old.limits }
        ensures passes { self.new.passes ≡ self.old.passes }
    {
        self.show_reached();
        let Ok(look) = self.read(id) else {
            return Err(Refusal::NotThere);
        };
        match look.status {
            Status::Held { unit, attempt } => {
                self.mark(&Note::Abort(caller, unit));
                Ok(Released { unit, attempt })
            }
            _ => Err(Refusal::NotHeld),
        }
    }
}
