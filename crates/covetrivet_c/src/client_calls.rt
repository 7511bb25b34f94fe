//! The calls of a client.
use crate::caller::Caller;
use crate::fault::Fault;
use tp_model::types::{Body, Element, Look, Released};

impl Caller {
    ghost use Rattle.std.specs.Prelude.{◌≡◌};
    ghost use Rattle.covetrivet_c.specs.Callers.{caller_limits};
    ghost use Rattle.covetrivet_c.specs.Clients.{CancelSays, CollectSays, ErrorSays, FamilySays, KillSays};
    ghost use Rattle.covetrivet_c.specs.Clients.{NextSays};
    ghost use Rattle.covetrivet_c.specs.Clients.{ReadSays, ReleaseSays, ReplySays, RequeueSays, RoundsSays};
    ghost use Rattle.covetrivet_c.specs.Clients.{SubmitSays};

    /// Puts an element into the queue of a stage, 1 to 14. Its id.
    pub fn submit(&mut self, stage: u8, body: Body) -> Result<u32, Fault>
        ensures manager { self.new.manager ≡ self.old.manager }
        ensures answer { SubmitSays stage body (caller_limits self.old) self.old.pass self.new.pass result }
    {
        match self.manager.submit(&mut self.pass, stage, body) {
            Ok(it) => Ok(it),
            Err(refusal) => Err(Fault::Refused(refusal)),
        }
    }

    /// The element with this id, and its status.
    pub fn read(&mut self, id: u32) -> Result<Look, Fault>
        ensures manager { self.new.manager ≡ self.old.manager }
        ensures answer { ReadSays id (caller_limits self.old) self.old.pass self.new.pass result }
    {
        match self.manager.read(&mut self.pass, id) {
            Ok(it) => Ok(it),
            Err(refusal) => Err(Fault::Refused(refusal)),
        }
    }

    /// How many further rounds of attempts the element with this id was given.
    pub fn rounds(&mut self, id: u32) -> Result<u8, Fault>
        ensures manager { self.new.manager ≡ self.old.manager }
        ensures answer { RoundsSays id (caller_limits self.old) self.old.pass self.new.pass result }
    {
        match self.manager.rounds(&mut self.pass, id) {
            Ok(it) => Ok(it),
            Err(refusal) => Err(Fault::Refused(refusal)),
        }
    }

    /// Gives a parked element another round of attempts. Which, 1 to 3.
    pub fn requeue(&mut self, id: u32) -> Result<u8, Fault>
        ensures manager { self.new.manager ≡ self.old.manager }
        ensures answer { RequeueSays id (caller_limits self.old) self.old.pass self.new.pass result }
    {
        match self.manager.requeue(&mut self.pass, id) {
            Ok(it) => Ok(it),
            Err(refusal) => Err(Fault::Refused(refusal)),
        }
    }

    /// The least id from this one on of a reply to the request with this root that waits.
    pub fn reply(&mut self, root: u32, from: u32) -> Result<u32, Fault>
        ensures manager { self.new.manager ≡ self.old.manager }
        ensures answer { ReplySays root from (caller_limits self.old) self.old.pass self.new.pass result }
    {
        match self.manager.reply(&mut self.pass, root, from) {
            Some(it) => Ok(it),
            None => Err(Fault::Nothing),
        }
    }

    /// The least id from this one on of an element that is parked.
    pub fn next_error(&mut self, from: u32) -> Result<u32, Fault>
        ensures manager { self.new.manager ≡ self.old.manager }
        ensures answer { ErrorSays from (caller_limits self.old) self.old.pass self.new.pass result }
    {
        match self.manager.next_error(&mut self.pass, from) {
            Some(it) => Ok(it),
            None => Err(Fault::Nothing),
        }
    }

    /// The member with the least id from this one on of the family of a request, with its status.
    pub fn family(&mut self, root: u32, from: u32) -> Result<Look, Fault>
        ensures manager { self.new.manager ≡ self.old.manager }
        ensures answer { FamilySays root from (caller_limits self.old) self.old.pass self.new.pass result }
    {
        match self.manager.family(&mut self.pass, root, from) {
            Some(it) => Ok(it),
            None => Err(Fault::Nothing),
        }
    }

    /// Kills an element. How many units of work that held it were aborted.
    pub fn kill(&mut self, id: u32) -> Result<u8, Fault>
        ensures manager { self.new.manager ≡ self.old.manager }
        ensures answer { KillSays id (caller_limits self.old) self.old.pass self.new.pass result }
    {
        if self.pass.has_open() {
            return Err(Fault::Busy);
        }
        match self.manager.kill(&mut self.pass, id) {
            Ok(killed) => Ok(killed.units_aborted),
            Err(refusal) => Err(Fault::Refused(refusal)),
        }
    }

    /// Kills each element of the family of a request that is not finished. How many.
    pub fn cancel(&mut self, root: u32) -> Result<u32, Fault>
        ensures manager { self.new.manager ≡ self.old.manager }
        ensures answer { CancelSays root (caller_limits self.old) self.old.pass self.new.pass result }
    {
        if self.pass.has_open() {
            return Err(Fault::Busy);
        }
        match self.manager.cancel(&mut self.pass, root) {
            Ok(cancelled) => Ok(cancelled.killed),
            Err(refusal) => Err(Fault::Refused(refusal)),
        }
    }

    /// Aborts the unit of work that holds an element. Which.
    pub fn release(&mut self, id: u32) -> Result<Released, Fault>
        ensures manager { self.new.manager ≡ self.old.manager }
        ensures answer { ReleaseSays id (caller_limits self.old) self.old.pass self.new.pass result }
    {
        if self.pass.has_open() {
            return Err(Fault::Busy);
        }
        match self.manager.release(&mut self.pass, id) {
            Ok(released) => Ok(released),
            Err(refusal) => Err(Fault::Refused(refusal)),
        }
    }

    /// Takes a reply, once.
    pub fn collect(&mut self, id: u32) -> Result<Element, Fault>
        ensures manager { self.new.manager ≡ self.old.manager }
        ensures answer { CollectSays id (caller_limits self.old) self.old.pass self.new.pass result }
    {
        if self.pass.has_open() {
            return Err(Fault::Busy);
        }
        match self.manager.collect(&mut self.pass, id) {
            Ok(reply) => Ok(reply),
            Err(refusal) => Err(Fault::Refused(refusal)),
        }
    }

    /// Takes the least reply to a request that waits, once.
    pub fn collect_next(&mut self, root: u32) -> Result<Element, Fault>
        ensures manager { self.new.manager ≡ self.old.manager }
        ensures answer { NextSays root (caller_limits self.old) self.old.pass self.new.pass result }
    {
        if self.pass.has_open() {
            return Err(Fault::Busy);
        }
        match self.manager.collect_next(&mut self.pass, root) {
            Some(reply) => Ok(reply),
            None => Err(Fault::Nothing),
        }
    }
}
