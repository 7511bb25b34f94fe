//! The store: elements by ids that last, and what its callers may do with them.
ghost use Rattle.std.specs.Prelude.{length, ◌≤◌, false, IfErr, IfSome, nat_lt, not, ◌≡◌, ◌+◌, ◌^◌, ◌⊎◌, []};
ghost use Rattle.std.specs.Prelude.{true, IfOk, Some, Err, OnOk, OnErr, slice_get};
ghost use Rattle.tp_store.specs.Calls.{Does, IsShort, IsSpent, IsTried, alive_in, claim_first, claim_from_of};
ghost use Rattle.tp_store.specs.Calls.{claim_of};
ghost use Rattle.tp_store.specs.Calls.{abort_of, cancel_of, collect_of, commit_of, consumed, give_up};
ghost use Rattle.tp_store.specs.Calls.{given_up, hand_out};
ghost use Rattle.tp_store.specs.Calls.{is_server_stage, kill_of, release_of, requeue_of, submit_of, take_of};
ghost use Rattle.tp_store.specs.Calls.{with_ended};
ghost use Rattle.tp_store.specs.Elements.{element_at, groups_of, family_of, first_in, is_alive, owned_of};
ghost use Rattle.tp_store.specs.Elements.{queue_of, reply_of};
ghost use Rattle.tp_store.specs.Shelves.{IsThere};
ghost use Rattle.tp_store.specs.Indexing.{gains_any};
ghost use Rattle.tp_store.specs.State.{start, swept, with_births, with_change, with_limits};
ghost use Rattle.tp_store.specs.declared.answers.Refusal.TheVariants.{NoMemory, NoNumber};

mod looks;
mod restoring;

use crate::answers::{Cancelled, Ended, Killed, Outcome, Refusal, Released, Work};
use crate::births::{Origin, bear};
use crate::cancels::kill_open;
use crate::counts::{Counts, Tally};
use crate::draft::Draft;
use crate::element::{Element, LAST_STAGE, MAX_ROUNDS, REPLY_STAGE, Status};
use crate::ends::{forget, note_end};
use crate::group::Group;
use crate::shelf::Shelf;
use std::alloc::{AllocError, Global};
use std::collections::VecDeque;
use std::marker::Model;
use tp_model::types::Body;

/// The limits of a store.
#[derive(Clone, Copy, Debug, PartialEq, Eq)]
pub struct Limits {
    /// How many elements may be alive so that a client may submit one more.
    pub most: u64,
    /// How many requests are kept behind their ends, so that they can be read.
    pub keep: u64,
    /// How many attempts an element has in a round before it is parked.
    pub attempts: u8,
}

/// Requests that wait, are worked on and are answered.
#[derive(Drop)]
pub struct Store {
    limits: Limits,
    next: u64,
    units: u64,
    shelf: Shelf,
    tally: Tally,
    ended: VecDeque<u64>,
}

impl Model for Store {
    ghost use Rattle.std.specs.Prelude.{◌≡◌, ◌≤◌, ℕ, None};
    ghost use Rattle.tp_store.specs.Elements.{element_at};
    ghost use Rattle.tp_store.specs.State.{State};

    ghost Value = { State };

    ghost view = { λ s. record {
      limits = s.limits;
      next = s.next;
      units = s.units;
      elements = s.shelf;
      tally = s.tally;
      ended = s.ended.items;
    } };

    ghost invariant = { λ s. (i : ℕ) → s.next ≤ i → element_at i s.shelf ≡ None };
}

impl Store {
    /// A store of nothing.
    pub fn new(alloc: Global, limits: Limits) -> Result<Store, AllocError>
        ensures { IfOk result (λ s. s ≡ start limits) }
    {
        let tally = Tally::new(alloc)?;
        Ok(Store {
            limits,
            next: 0,
            units: 0,
            shelf: Shelf::new(alloc),
            tally,
            ended: VecDeque::new(alloc),
        })
    }

    /// A client's request waits in a stage from now on; the answer is its id. Whose it is decides who may
    /// receive its replies. Refused as BadStage where the stage isn't 1 to 999 or is that of replies, then
    /// as Full, then as NoMemory or NoNumber.
    pub fn submit(&mut self, stage: u16, body: Body, owner: Option<u64>) -> Result<u64, Refusal>
        ensures answer { Does result self.new (submit_of stage body owner self.old) self.old }
        ensures short { result ≡ Err NoNumber → 2 ^ 64 ≤ self.old.next + 1 }
    {
        if !is_server_stage(stage) {
            return Err(Refusal::BadStage);
        }
        let Some(draft) = Draft::new(stage, body) else {
            return Err(Refusal::BadStage);
        };
        if self.is_full() {
            return Err(Refusal::Full);
        }
        let id = self.next;
        let origin = Origin {
            root: id,
            by: None,
            owner,
        };
        match self.give_birth(&origin, &[draft]) {
            Ok(()) => Ok(id),
            Err(why) => Err(why),
        }
    }

    /// These are born.
    fn give_birth(&mut self, from: &Origin, drafts: &[Draft]) -> Result<(), Refusal>
        ensures ok { OnOk result (self.new ≡ swept (with_births from.now drafts.now self.old)) }
        ensures err { IfErr result (λ why. IsShort why × (self.new ≡ self.old)) }
        ensures short { result ≡ Err NoNumber → 2 ^ 64 ≤ self.old.next + length drafts.now }
    {
        let Some(next) = self.next.checked_add(drafts.len() as u64) else {
            return Err(Refusal::NoNumber);
        };
        match bear(&mut self.shelf, self.next, from, drafts) {
            Ok(()) => {}
            Err(_) => return Err(Refusal::NoMemory),
        }
        self.next = next;
        self.tally.count_births(drafts);
        forget(&mut self.shelf, &mut self.ended, self.limits.keep);
        Ok(())
    }

    /// Takes the waiting element of a stage that has the least id. Refused as BadStage where the stage is
    /// none that workers take from.
    pub fn claim(&mut self, stage: u16) -> Result<Option<Work>, Refusal>
        ensures answer { Does result self.new (claim_of stage self.old) self.old }
        ensures short { result ≡ Err NoNumber → IsSpent self.old }
        ensures sure { result ≡ Err NoMemory → ⊥ }
    {
        if !is_server_stage(stage) {
            return Err(Refusal::BadStage);
        }
        let found = self.shelf.first(Group::Queue(stage), 0);
        self.claim_first(&found)
    }

    /// As `claim`, but takes the first one from this id on, and where there is none the first of all.
    pub fn claim_from(&mut self, stage: u16, from: u64) -> Result<Option<Work>, Refusal>
        ensures answer { Does result self.new (claim_from_of stage from self.old) self.old }
        ensures short { result ≡ Err NoNumber → IsSpent self.old }
        ensures sure { result ≡ Err NoMemory → ⊥ }
    {
        if !is_server_stage(stage) {
            return Err(Refusal::BadStage);
        }
        let found = match self.shelf.first(Group::Queue(stage), from) {
            Some(found) => Some(found),
            None => self.shelf.first(Group::Queue(stage), 0),
        };
        self.claim_first(&found)
    }

    /// Takes the element with this id. Refused as NotThere, as BadStage where it is a reply, or as NotWaiting.
    pub fn take(&mut self, id: u64) -> Result<Work, Refusal>
        ensures answer { Does result self.new (take_of id self.old) self.old }
        ensures short { result ≡ Err NoNumber → IsSpent self.old }
        ensures sure { result ≡ Err NoMemory → ⊥ }
    {
        let Some(element) = self.shelf.get(id) else {
            return Err(Refusal::NotThere);
        };
        if element.stage == REPLY_STAGE {
            return Err(Refusal::BadStage);
        }
        self.hand_out(id, &element)
    }

    /// Takes what was found, if anything was.
    fn claim_first(&mut self, found: &Option<(u64, Element)>) -> Result<Option<Work>, Refusal>
        requires there { IfSome found.now (IsThere self.old.elements) }
        ensures answer { Does result self.new (claim_first found.now self.old) self.old }
        ensures short { result ≡ Err NoNumber → IsSpent self.old }
        ensures sure { result ≡ Err NoMemory → ⊥ }
    {
        let Some((id, element)) = found else {
            return Ok(None);
        };
        match self.hand_out(*id, element) {
            Ok(work) => Ok(Some(work)),
            Err(why) => Err(why),
        }
    }

    /// The unit of work consumes the element with this id, and its outputs are born under ids one after
    /// another. Lost where the unit holds it no more. Refused as NoMemory or NoNumber alone.
    pub fn commit(&mut self, id: u64, unit: u64, outputs: &[Draft]) -> Result<Outcome, Refusal>
        ensures answer { Does result self.new (commit_of id unit outputs.now self.old) self.old }
        ensures short { result ≡ Err NoNumber → 2 ^ 64 ≤ self.old.next + length outputs.now }
    {
        let Some(element) = self.shelf.get(id) else {
            return Ok(Outcome::Lost);
        };
        if !element.is_held_by(unit) {
            return Ok(Outcome::Lost);
        }
        let first = self.next;
        match self.consume(id, unit, &element, outputs) {
            Ok(()) => Ok(Outcome::Committed {
                first,
                count: outputs.len() as u64,
            }),
            Err(why) => Err(why),
        }
    }

    /// The outputs are born and the element is consumed.
    fn consume(
        &mut self,
        id: u64,
        unit: u64,
        element: &Element,
        outputs: &[Draft],
    ) -> Result<(), Refusal>
        requires there { element_at id self.old.elements ≡ Some element.now }
        ensures ok { OnOk result (self.new ≡ consumed id unit element.now outputs.now self.old) }
        ensures err { IfErr result (λ why. IsShort why × (self.new ≡ self.old)) }
        ensures short { result ≡ Err NoNumber → 2 ^ 64 ≤ self.old.next + length outputs.now }
    {
        let Some(next) = self.next.checked_add(outputs.len() as u64) else {
            return Err(Refusal::NoNumber);
        };
        match self.ended.reserve(1) {
            Ok(()) => {}
            Err(_) => return Err(Refusal::NoMemory),
        }
        let origin = Origin {
            root: element.root,
            by: Some(unit),
            owner: element.owner,
        };
        match bear(&mut self.shelf, self.next, &origin, outputs) {
            Ok(()) => {}
            Err(_) => return Err(Refusal::NoMemory),
        }
        self.next = next;
        self.tally.count_births(outputs);
        let after = element.standing(Status::Consumed { unit });
        match self.shelf.replace(id, element, after) {
            Ok(()) => {}
            Err(_) => return Err(Refusal::NoMemory),
        }
        self.tally
            .count(element.stage, &Some(element.status), &after.status);
        let goes_on = !outputs.is_empty();
        note_end(&self.shelf, &mut self.ended, element.root, goes_on);
        forget(&mut self.shelf, &mut self.ended, self.limits.keep);
        Ok(())
    }

    /// The unit of work gives up the element with this id, which waits again, or is parked behind its last
    /// attempt. Refused as NoMemory alone.
    pub fn abort(&mut self, id: u64, unit: u64) -> Result<Ended, Refusal>
        ensures answer { Does result self.new (abort_of id unit self.old) self.old }
        ensures short { result ≡ Err NoNumber → ⊥ }
    {
        let Some(element) = self.shelf.get(id) else {
            return Ok(Ended::AlreadyAborted);
        };
        let Status::Held {
            unit: holder,
            attempt,
        } = element.status
        else {
            return Ok(Ended::AlreadyAborted);
        };
        if holder != unit {
            return Ok(Ended::AlreadyAborted);
        }
        match self.give_up(id, &element, attempt) {
            Ok(()) => Ok(Ended::Aborted),
            Err(_) => Err(Refusal::NoMemory),
        }
    }

    /// Whoever holds the element with this id loses it: it stands as behind an abort. Refused as NotThere,
    /// NotHeld or NoMemory.
    pub fn release(&mut self, id: u64) -> Result<Released, Refusal>
        ensures answer { Does result self.new (release_of id self.old) self.old }
        ensures short { result ≡ Err NoNumber → ⊥ }
    {
        let Some(element) = self.shelf.get(id) else {
            return Err(Refusal::NotThere);
        };
        let Status::Held { unit, attempt } = element.status else {
            return Err(Refusal::NotHeld);
        };
        match self.give_up(id, &element, attempt) {
            Ok(()) => Ok(Released { unit, attempt }),
            Err(_) => Err(Refusal::NoMemory),
        }
    }

    /// This attempt at the element is given up.
    fn give_up(&mut self, id: u64, element: &Element, attempt: u8) -> Result<(), AllocError>
        requires there { element_at id self.old.elements ≡ Some element.now }
        ensures ok { OnOk result (self.new ≡ give_up id element.now attempt self.old) }
        ensures err { OnErr result (self.new ≡ self.old) }
    {
        let after = element.standing(given_up(self.limits.attempts, attempt));
        self.change(id, element, after)
    }

    /// The element with this id is killed, whoever holds it. Refused as NotThere, Consumed, AlreadyKilled or
    /// NoMemory.
    pub fn kill(&mut self, id: u64) -> Result<Killed, Refusal>
        ensures answer { Does result self.new (kill_of id self.old) self.old }
        ensures short { result ≡ Err NoNumber → ⊥ }
    {
        let Some(element) = self.shelf.get(id) else {
            return Err(Refusal::NotThere);
        };
        let units_aborted = match element.status {
            Status::Consumed { unit } => return Err(Refusal::Consumed { unit }),
            Status::Killed => return Err(Refusal::AlreadyKilled),
            Status::Held { .. } => 1,
            Status::Waiting { .. } => 0,
            Status::Parked { .. } => 0,
        };
        match self.end(id, &element, Status::Killed) {
            Ok(()) => Ok(Killed { units_aborted }),
            Err(why) => Err(why),
        }
    }

    /// Work on the element with this id has ended so.
    fn end(&mut self, id: u64, element: &Element, status: Status) -> Result<(), Refusal>
        requires there { element_at id self.old.elements ≡ Some element.now }
        requires over { is_alive status ≡ false }
        ensures ok { OnOk result (self.new ≡ with_ended id element.now status self.old) }
        ensures err { IfErr result (λ why. (why ≡ NoMemory) × (self.new ≡ self.old)) }
    {
        match self.ended.reserve(1) {
            Ok(()) => {}
            Err(_) => return Err(Refusal::NoMemory),
        }
        let after = element.standing(status);
        match self.shelf.replace(id, element, after) {
            Ok(()) => {}
            Err(_) => return Err(Refusal::NoMemory),
        }
        self.tally
            .count(element.stage, &Some(element.status), &after.status);
        note_end(&self.shelf, &mut self.ended, element.root, false);
        forget(&mut self.shelf, &mut self.ended, self.limits.keep);
        Ok(())
    }

    /// All that is open of a client's request is killed, whoever holds it; replies are left alone. Refused
    /// as NotThere where this is no client's element, or as NoMemory.
    pub fn cancel(&mut self, root: u64) -> Result<Cancelled, Refusal>
        ensures answer { Does result self.new (cancel_of root self.old) self.old }
        ensures short { result ≡ Err NoNumber → ⊥ }
    {
        let Some(element) = self.shelf.get(root) else {
            return Err(Refusal::NotThere);
        };
        match element.by {
            None => {}
            Some(_) => return Err(Refusal::NotThere),
        }
        if self.shelf.is_over(root) {
            return Ok(Cancelled { killed: 0 });
        }
        match self.ended.reserve(1) {
            Ok(()) => {}
            Err(_) => return Err(Refusal::NoMemory),
        }
        let killed = kill_open(&mut self.shelf, &mut self.tally, root, self.next);
        note_end(&self.shelf, &mut self.ended, root, false);
        forget(&mut self.shelf, &mut self.ended, self.limits.keep);
        Ok(Cancelled { killed })
    }

    /// The parked element with this id waits again, with all attempts of a further round; the answer is
    /// which round that is. Refused as NotThere, NotParked, NoRound, NoMemory or NoNumber.
    pub fn requeue(&mut self, id: u64) -> Result<u8, Refusal>
        ensures answer { Does result self.new (requeue_of id self.old) self.old }
        ensures short { result ≡ Err NoNumber → IsTried id self.old }
    {
        let Some(element) = self.shelf.get(id) else {
            return Err(Refusal::NotThere);
        };
        let Status::Parked { attempts } = element.status else {
            return Err(Refusal::NotParked);
        };
        if element.rounds >= MAX_ROUNDS {
            return Err(Refusal::NoRound);
        }
        let rounds = element.rounds + 1;
        let Some(earlier) = element.earlier.checked_add(attempts) else {
            return Err(Refusal::NoNumber);
        };
        let mut after = element.standing(Status::Waiting { attempts: 0 });
        after.rounds = rounds;
        after.earlier = earlier;
        match self.change(id, &element, after) {
            Ok(()) => Ok(rounds),
            Err(_) => Err(Refusal::NoMemory),
        }
    }

    /// The reply with this id is taken, once. Refused as NotThere, as BadStage where it is no reply, as
    /// NotWaiting, NoMemory or NoNumber.
    pub fn collect(&mut self, id: u64) -> Result<Element, Refusal>
        ensures answer { Does result self.new (collect_of id self.old) self.old }
        ensures short { result ≡ Err NoNumber → 2 ^ 64 ≤ self.old.units + 1 }
    {
        let Some(element) = self.shelf.get(id) else {
            return Err(Refusal::NotThere);
        };
        if element.stage != REPLY_STAGE {
            return Err(Refusal::BadStage);
        }
        let Status::Waiting { .. } = element.status else {
            return Err(Refusal::NotWaiting);
        };
        let unit = self.units;
        let Some(units) = unit.checked_add(1) else {
            return Err(Refusal::NoNumber);
        };
        match self.end(id, &element, Status::Consumed { unit }) {
            Ok(()) => {}
            Err(why) => return Err(why),
        }
        self.units = units;
        Ok(element)
    }

    /// The element with this id is handed out, where it waits.
    fn hand_out(&mut self, id: u64, element: &Element) -> Result<Work, Refusal>
        requires there { element_at id self.old.elements ≡ Some element.now }
        ensures answer { Does result self.new (hand_out id element.now self.old) self.old }
        ensures short { result ≡ Err NoNumber → IsSpent self.old }
        ensures sure { result ≡ Err NoMemory → ⊥ }
    {
        let Status::Waiting { attempts } = element.status else {
            return Err(Refusal::NotWaiting);
        };
        let unit = self.units;
        let Some(units) = unit.checked_add(1) else {
            return Err(Refusal::NoNumber);
        };
        let Some(attempt) = attempts.checked_add(1) else {
            return Err(Refusal::NoNumber);
        };
        let held = element.standing(Status::Held { unit, attempt });
        match self.change(id, element, held) {
            Ok(()) => {}
            Err(_) => return Err(Refusal::NoMemory),
        }
        self.units = units;
        Ok(Work {
            id,
            unit,
            attempt,
            element: held,
        })
    }

    /// Other limits hold from now on. What waits, is held or is parked stands as it did.
    pub fn set_limits(&mut self, limits: Limits)
        ensures { self.new ≡ with_limits limits self.old }
    {
        self.limits = limits;
    }

    /// The element with this id, which was the first one, is the second.
    fn change(&mut self, id: u64, before: &Element, after: Element) -> Result<(), AllocError>
        requires there { element_at id self.old.elements ≡ Some before.now }
        ensures ok { OnOk result (self.new ≡ with_change id before.now after self.old) }
        ensures err { OnErr result (self.new ≡ self.old) }
        ensures needed { OnErr result (gains_any (groups_of id before.now) (groups_of id after) ≡ true) }
    {
        self.shelf.replace(id, before, after)?;
        self.tally
            .count(before.stage, &Some(before.status), &after.status);
        Ok(())
    }

    /// Whether as many elements are alive as the limits allow.
    fn is_full(&self) -> bool
        ensures { result ≡ not (nat_lt (alive_in self.now) self.now.limits.most) }
    {
        let total = self.tally.total();
        let alive = u128::from(total.waiting) + u128::from(total.held) + u128::from(total.parked);
        alive >= u128::from(self.limits.most)
    }
}

/// Whether workers take from this stage.
fn is_server_stage(stage: u16) -> bool
    ensures { result ≡ is_server_stage stage }
{
    stage >= 1 && stage <= LAST_STAGE && stage != REPLY_STAGE
}

/// How an element stands whose attempt was given up.
fn given_up(limit: u8, attempt: u8) -> Status
    ensures { result ≡ given_up limit attempt }
{
    if attempt < limit {
        Status::Waiting { attempts: attempt }
    } else {
        Status::Parked { attempts: attempt }
    }
}
