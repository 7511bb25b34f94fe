//! Workers outside of the program: what they have in hand, and how their last units ended.
ghost use Rattle.std.specs.Prelude.{◌≡◌, false};
ghost use Rattle.tp_session.specs.Workers.{aborts, claims, claims_next, commits, if_idle, is_of_server, takes_id};
ghost use Rattle.tp_session.specs.Workers.{took, worker_does};
ghost use Rattle.tp_session.specs.Acted.{Works};

use crate::hand::{Hand, tries_in};
use std::alloc::AllocError;
use tp_answers::Told;
use tp_lines::{Act, UnitEnd};
use tp_store::answers::{Ended, Outcome, Refusal, Work};
use tp_store::draft::Draft;
use tp_store::element::Element;
use tp_store::store::Store;

/// A worker: which stage it takes from, and how it stands.
#[derive(Clone, Copy)]
pub struct Worker {
    /// The stage that `claim` and `next` take from.
    pub stage: u16,
    /// What it has taken, until its commit or abort is answered.
    pub hand: Option<Hand>,
    /// Where `next` goes on: the first id that it may take.
    pub from: u64,
    /// How its last unit ended.
    pub end: Option<UnitEnd>,
}

/// What a worker is told that took this.
fn took(work: &Work) -> Told
    ensures { result ≡ took work.now }
{
    let Element { root, body, .. } = work.element;
    Told::Took {
        id: work.id,
        unit: work.unit,
        attempt: work.attempt,
        root,
        body,
        tries: tries_in(work),
    }
}

impl Worker {
    /// Has it do this, unless it is a server's alone, and answers what it is told. Fails where memory or
    /// numbers run out.
    pub(crate) fn act(&mut self, store: &mut Store, act: &Act) -> Result<Told, AllocError>
        requires { is_of_server act.now ≡ false }
        ensures { Works result self.new store.new (worker_does act.now self.old store.old) }
    {
        match act {
            Act::Claim => self.claim(store),
            Act::Next => self.next(store),
            Act::Take { id } => self.take(store, *id),
            Act::Commit { drafts } => self.commit(store, drafts.as_slice()),
            Act::Abort => self.abort(store),
            Act::Turn => unreachable!(),
            Act::Prepare => unreachable!(),
            Act::Drop => unreachable!(),
        }
    }

    /// `claim`
    fn claim(&mut self, store: &mut Store) -> Result<Told, AllocError>
        ensures { Works result self.new store.new (if_idle claims self.old store.old) }
    {
        if self.hand.is_some() {
            return Ok(Told::Busy);
        }
        match store.claim(self.stage) {
            Ok(Some(work)) => {
                self.hand = Some(Hand::of(&work));
                Ok(took(&work))
            }
            Ok(None) => Ok(Told::Idle),
            Err(Refusal::NoMemory) => Err(AllocError),
            Err(Refusal::NoNumber) => Err(AllocError),
            Err(_) => Ok(Told::Idle),
        }
    }

    /// `next`
    fn next(&mut self, store: &mut Store) -> Result<Told, AllocError>
        ensures { Works result self.new store.new (if_idle claims_next self.old store.old) }
    {
        if self.hand.is_some() {
            return Ok(Told::Busy);
        }
        match store.claim_from(self.stage, self.from) {
            Ok(Some(work)) => {
                let Some(from) = work.id.checked_add(1) else {
                    return Err(AllocError);
                };
                self.from = from;
                self.hand = Some(Hand::of(&work));
                Ok(took(&work))
            }
            Ok(None) => Ok(Told::Idle),
            Err(Refusal::NoMemory) => Err(AllocError),
            Err(Refusal::NoNumber) => Err(AllocError),
            Err(_) => Ok(Told::Idle),
        }
    }

    /// `take`
    fn take(&mut self, store: &mut Store, id: u64) -> Result<Told, AllocError>
        ensures { Works result self.new store.new (if_idle (takes_id id) self.old store.old) }
    {
        if self.hand.is_some() {
            return Ok(Told::Busy);
        }
        match store.take(id) {
            Ok(work) => {
                self.hand = Some(Hand::of(&work));
                Ok(took(&work))
            }
            Err(Refusal::NoMemory) => Err(AllocError),
            Err(Refusal::NoNumber) => Err(AllocError),
            Err(why) => Ok(Told::NotTaken { id, why }),
        }
    }

    /// `commit`
    fn commit(&mut self, store: &mut Store, drafts: &[Draft]) -> Result<Told, AllocError>
        ensures { Works result self.new store.new (commits drafts.now self.old.hand self.old store.old) }
    {
        let Some(hand) = self.hand else {
            return Ok(Told::NoneOpen);
        };
        let Hand { id, unit, .. } = hand;
        match store.commit(id, unit, drafts) {
            Ok(Outcome::Committed { first, count }) => {
                self.hand = None;
                self.end = Some(UnitEnd::Done {
                    id,
                    unit,
                    first,
                    count,
                });
                Ok(Told::Done {
                    id,
                    unit,
                    first,
                    count,
                })
            }
            Ok(Outcome::Lost) => {
                self.hand = None;
                self.end = Some(UnitEnd::Lost { id });
                Ok(Told::Lost { id })
            }
            Err(_) => Err(AllocError),
        }
    }

    /// `abort`
    fn abort(&mut self, store: &mut Store) -> Result<Told, AllocError>
        ensures { Works result self.new store.new (aborts self.old.hand self.old store.old) }
    {
        let Some(hand) = self.hand else {
            return Ok(Told::NoneOpen);
        };
        let Hand { id, unit, .. } = hand;
        match store.abort(id, unit) {
            Ok(Ended::Aborted) => {
                self.hand = None;
                self.end = Some(UnitEnd::Aborted { id });
                Ok(Told::Aborted { id })
            }
            Ok(Ended::AlreadyAborted) => {
                self.hand = None;
                self.end = Some(UnitEnd::Lost { id });
                Ok(Told::Already { id })
            }
            Err(_) => Err(AllocError),
        }
    }
}
