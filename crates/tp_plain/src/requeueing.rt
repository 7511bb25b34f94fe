//! Another round for a parked element.
ghost use Rattle.std.specs.Prelude.{◌≡◌, ◌<◌};
ghost use Rattle.tp_plain.specs.Computed.{requeue_of};
ghost use Rattle.tp_plain.specs.OneThread.{Answers, CallRequeue};

use crate::history::Note;
use crate::looks::apply;
use crate::plain::Plain;
use tp_model::types::{MAX_ROUNDS, Refusal, Status};

impl Plain {
    /// Gives a parked element another round of attempts: it waits again, with none so far. Which round, 1 to
    /// 3.
    ///
    /// `NotThere` where no element with this id is born, `NotParked`, and `NoRound` where it is parked and
    /// has had all its rounds.
    pub fn requeue(&mut self, caller: u16, id: u32) -> Result<u8, Refusal>
        requires { caller < self.old.limits.parts }
        ensures answer { Answers self.old (CallRequeue caller id result) self.new }
        ensures computed { (result ≡ (requeue_of self.old caller id).0)
            × (self.new ≡ (requeue_of self.old caller id).1) }
        ensures limits { self.new.limits ≡ self.old.limits }
        ensures passes { self.new.passes ≡ self.old.passes }
    {
        self.show_reached();
        let Ok(look) = self.read(id) else {
            return Err(Refusal::NotThere);
        };
        let Status::Parked { attempts: _ } = look.status else {
            return Err(Refusal::NotParked);
        };
        let round = self.rounds[id as usize];
        if round >= MAX_ROUNDS {
            return Err(Refusal::NoRound);
        }
        let note = Note::Requeue(caller, id, round + 1);
        apply(self.limits.attempts, &mut self.looks, &note);
        self.rounds[id as usize] = round + 1;
        self.history = self.history.then(&note);
        Ok(round + 1)
    }
}
