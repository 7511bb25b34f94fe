//! A journal is made short: the session's own dump takes the place of its lines.
ghost use Rattle.std.specs.Prelude.{◌≡◌, ◌++◌, IfOk, None, OnErr, OnOk, string_bytes, true};
ghost use Rattle.std.specs.Option.{is_some};
ghost use Rattle.tp_kept.specs.Kept.{IsReady, KeepsLife, life, talk};
ghost use Rattle.tp_kept.specs.Lives.{short};
ghost use Rattle.tp_session.specs.Session.{has_begun};

use crate::cause::Cause;
use crate::kept::Kept;
use crate::numbers::marking;
use std::alloc::{AllocError, Global};
use std::string::String;
use tp_journal::{AppendError, Device};
use tp_session::Session;

/// How many bytes of lines a journal may have behind a small dump before it is made short.
pub(crate) const LEAST_ROOM: usize = 1_048_576;

/// A session in as many lines as it takes, which stand for so many of clients.
fn short(alloc: Global, session: &Session, counted: u64) -> Result<String, AllocError>
    ensures { IfOk result (λ text. string_bytes text
        ≡ short (record { lines = counted; session = session.now })) }
{
    let dump = session.dumped(alloc)?;
    let mut text = marking(alloc, dump.lines, counted)?;
    text.push_str(dump.text.as_str())?;
    Ok(text)
}

impl<D: Device + Drop> Kept<D> {
    /// Makes the journal short where its lines behind the last dump are longer than that and than a
    /// mebibyte: the dump of the session takes their place. Answers nothing, and changes nothing of the
    /// session. Where memory for it can't be had the journal stays as it is.
    pub fn shorten(&mut self) -> Result<(), Cause>
        requires ready { IsReady D.seen D.may_leave self.old }
        ensures ready { IsReady D.seen D.may_leave self.new }
        ensures same { (life self.new ≡ life self.old) × (talk self.new ≡ talk self.old)
            × (self.new.line ≡ self.old.line) }
        ensures fine { OnOk result (self.new.cause ≡ None) }
        ensures keeps { self.old.cause ≡ None
            → KeepsLife (D.may_leave self.new.journal.device) (life self.old) }
        ensures cause { OnErr result (is_some self.new.cause ≡ true) }
    {
        if let Some(cause) = self.cause {
            return Err(cause);
        }
        if self.behind <= self.room || !self.session.has_begun() {
            return Ok(());
        }
        match short(self.alloc, &self.session, self.counted) {
            Ok(text) => self.replace(text.as_bytes()),
            Err(_) => {
                self.room = self.room.saturating_mul(2);
                Ok(())
            }
        }
    }

    /// Puts the lines of a dump of the session into the place of all.
    fn replace(&mut self, text: &[u8]) -> Result<(), Cause>
        requires ready { IsReady D.seen D.may_leave self.old }
        requires fine { self.old.cause ≡ None }
        requires begun { has_begun self.old.session.phase ≡ true }
        requires short { text.now ≡ short (life self.old) }
        ensures ready { IsReady D.seen D.may_leave self.new }
        ensures same { (life self.new ≡ life self.old) × (talk self.new ≡ talk self.old)
            × (self.new.line ≡ self.old.line) }
        ensures fine { OnOk result (self.new.cause ≡ None) }
        ensures keeps { KeepsLife (D.may_leave self.new.journal.device) (life self.old) }
        ensures cause { OnErr result (is_some self.new.cause ≡ true) }
    {
        match self.journal.replace(self.alloc, text) {
            Ok(()) => {
                self.behind = 0;
                self.room = text.len().max(LEAST_ROOM);
                Ok(())
            }
            Err(AppendError::Failed) => {
                self.cause = Some(Cause::Journal);
                Err(Cause::Journal)
            }
            Err(AppendError::Memory) => {
                self.room = self.room.saturating_mul(2);
                Ok(())
            }
            Err(AppendError::Refused(_)) => {
                // No line of a dump has such a byte.
                self.room = self.room.saturating_mul(2);
                Ok(())
            }
            Err(AppendError::Full) => unreachable!(),
            Err(AppendError::Poisoned) => unreachable!(),
        }
    }
}
