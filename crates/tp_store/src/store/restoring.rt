//! A store is built again from what was told of it: numbers first, elements in the order of their ids, then
//! requests that are over in the order of their ends, and how many of each stage are settled.
ghost use Rattle.std.specs.Prelude.{◌≡◌, Err};
ghost use Rattle.tp_store.specs.Calls.{Does};
ghost use Rattle.tp_store.specs.Restoring.{is_attempt, is_drawn, is_next, is_possible, is_root, is_stage};
ghost use Rattle.tp_store.specs.Restoring.{is_standing, put_back_of, put_over_of, set_numbers_of};
ghost use Rattle.tp_store.specs.Restoring.{set_settled_of};
ghost use Rattle.tp_store.specs.Soundness.{is_for_reply, unit_in};
ghost use Rattle.tp_store.specs.declared.answers.Refusal.TheVariants.{NoMemory, NoNumber};

use crate::answers::Refusal;
use crate::element::{Element, LAST_STAGE, MAX_ROUNDS, REPLY_STAGE, Status};
use crate::group::Group;
use crate::store::Store;

impl Store {
    /// So many ids and units of work were drawn. Refused as Unsound where that is less than were drawn here.
    pub fn set_numbers(&mut self, next: u64, units: u64) -> Result<(), Refusal>
        ensures answer { Does result self.new (set_numbers_of next units self.old) self.old }
        ensures sure { result ≡ Err NoMemory → ⊥ }
        ensures short { result ≡ Err NoNumber → ⊥ }
    {
        if next < self.next || units < self.units {
            return Err(Refusal::Unsound);
        }
        self.next = next;
        self.units = units;
        Ok(())
    }

    /// An element that was told is there again, with its status and rounds, and is counted. Refused as
    /// Unsound where its id wasn't drawn, an element from that id on is there or a request that is over was
    /// put back, or where no calls lead to such an element; or as NoMemory.
    pub fn put_back(&mut self, id: u64, element: Element) -> Result<(), Refusal>
        ensures answer { Does result self.new (put_back_of id element self.old) self.old }
        ensures short { result ≡ Err NoNumber → ⊥ }
    {
        if !self.is_next(id) || !is_possible(self.units, id, &element) {
            return Err(Refusal::Unsound);
        }
        match self.shelf.insert(id, element) {
            Ok(()) => {}
            Err(_) => return Err(Refusal::NoMemory),
        }
        self.tally.count(element.stage, &None, &element.status);
        Ok(())
    }

    /// Whether this id was drawn and may be that of the next element that is put back.
    fn is_next(&self, id: u64) -> bool
        ensures { result ≡ is_next id self.now }
    {
        id < self.next && self.shelf.first(Group::All, id).is_none() && self.ended.len() == 0
    }

    /// The next one of the requests that are over. Refused as Unsound where its id wasn't drawn or work on it
    /// goes on, or as NoMemory.
    pub fn put_over(&mut self, root: u64) -> Result<(), Refusal>
        ensures answer { Does result self.new (put_over_of root self.old) self.old }
        ensures short { result ≡ Err NoNumber → ⊥ }
    {
        if root >= self.next || !self.shelf.is_over(root) {
            return Err(Refusal::Unsound);
        }
        match self.ended.reserve(1) {
            Ok(()) => {}
            Err(_) => return Err(Refusal::NoMemory),
        }
        let _ = self.ended.push_back(root);
        Ok(())
    }

    /// So many elements of a stage were ever consumed and killed, forgotten ones too; the counts of all rise
    /// by as much. Refused as Unsound where the stage isn't 1 to 999, where there are more now, or where the
    /// counts of all would pass 64 bits.
    pub fn set_settled(&mut self, stage: u16, consumed: u64, killed: u64) -> Result<(), Refusal>
        ensures answer { Does result self.new (set_settled_of stage consumed killed self.old) self.old }
        ensures sure { result ≡ Err NoMemory → ⊥ }
        ensures short { result ≡ Err NoNumber → ⊥ }
    {
        if !is_stage(stage) || !self.tally.is_settling(stage, consumed, killed) {
            return Err(Refusal::Unsound);
        }
        self.tally.settle(stage, consumed, killed);
        Ok(())
    }
}

/// Whether there is such a stage.
fn is_stage(stage: u16) -> bool
    ensures { result ≡ is_stage stage }
{
    stage >= 1 && stage <= LAST_STAGE
}

/// Whether an element may be as it is, where so many units were drawn.
fn is_possible(units: u64, id: u64, element: &Element) -> bool
    ensures { result ≡ is_possible units id element.now }
{
    is_stage(element.stage)
        && element.rounds <= MAX_ROUNDS
        && is_root(id, element.by, element.root)
        && is_drawn(units, element.by)
        && is_drawn(units, unit_in(&element.status))
        && is_standing(element.stage, &element.status)
}

/// Whether this may be the request of an element with this id, which this unit made, or a client.
fn is_root(id: u64, by: Option<u64>, root: u64) -> bool
    ensures { result ≡ is_root id by root }
{
    match by {
        None => root == id,
        Some(_) => root < id,
    }
}

/// Whether this unit, if it is one, was drawn.
fn is_drawn(units: u64, unit: Option<u64>) -> bool
    ensures { result ≡ is_drawn units unit }
{
    match unit {
        None => true,
        Some(unit) => unit < units,
    }
}

/// The unit that holds or consumed an element.
fn unit_in(status: &Status) -> Option<u64>
    ensures { result ≡ unit_in status.now }
{
    match status {
        Status::Held { unit, .. } => Some(*unit),
        Status::Consumed { unit } => Some(*unit),
        Status::Waiting { .. } => None,
        Status::Parked { .. } => None,
        Status::Killed => None,
    }
}

/// Whether an element of this stage may stand so.
fn is_standing(stage: u16, status: &Status) -> bool
    ensures { result ≡ is_standing stage status.now }
{
    is_attempt(status) && (stage != REPLY_STAGE || is_for_reply(status))
}

/// Whether a unit that holds it is at least the first to do so.
fn is_attempt(status: &Status) -> bool
    ensures { result ≡ is_attempt status.now }
{
    match status {
        Status::Held { attempt, .. } => *attempt >= 1,
        Status::Waiting { .. } => true,
        Status::Consumed { .. } => true,
        Status::Parked { .. } => true,
        Status::Killed => true,
    }
}

/// Whether a reply may stand so.
fn is_for_reply(status: &Status) -> bool
    ensures { result ≡ is_for_reply status.now }
{
    match status {
        Status::Held { .. } => false,
        Status::Parked { .. } => false,
        Status::Waiting { .. } => true,
        Status::Consumed { .. } => true,
        Status::Killed => true,
    }
}
