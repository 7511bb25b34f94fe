//! Elements: requests, what workers made of them, and replies; and how each of them stands.
ghost use Rattle.std.specs.Prelude.{◌≡◌, ◌≤◌, ◌↔◌, IsSome, IfSome};
ghost use Rattle.tp_store.specs.Elements.{alive_of, groups_of, is_held_by, is_reply, queue_of, standing};

use std::marker::Model;
use tp_model::types::{BODY_WORDS, Body};

/// The last stage; the first is 1.
pub const LAST_STAGE: u16 = 999;

/// The stage of replies, which no worker takes from.
pub const REPLY_STAGE: u16 = 15;

/// How often a parked element can be given another round of attempts.
pub const MAX_ROUNDS: u8 = 3;

/// A request, or a further request or reply that a worker made of one.
#[derive(Clone, Copy, Debug, PartialEq, Eq)]
pub struct Element {
    /// The id of the client's element that it goes back to; its own id where a client submitted it.
    pub root: u64,
    /// The unit of work that made it, or `None` where a client submitted it.
    pub by: Option<u64>,
    /// Whose request it is of, where somebody's.
    pub owner: Option<u64>,
    /// Its body, which no call changes.
    pub body: Body,
    /// How it stands.
    pub status: Status,
    /// The stage whose workers take it, 1 to 999; 15 for a reply.
    pub stage: u16,
    /// How many rounds of attempts it was given beside the first, at most 3.
    pub rounds: u8,
    /// How many units of work took it in the rounds before this one, at most 255.
    pub earlier: u8,
}

/// How an element stands.
#[derive(Clone, Copy, Debug, PartialEq, Eq)]
pub enum Status {
    /// It may be taken. This many units of work took it in its round and gave it up.
    Waiting { attempts: u8 },
    /// A unit of work holds it, and is the `attempt`-th to do so in its round.
    Held { unit: u64, attempt: u8 },
    /// A unit of work took it and committed.
    Consumed { unit: u64 },
    /// All attempts of its round were given up: it is in the error queue.
    Parked { attempts: u8 },
    /// It was killed, and is never taken again.
    Killed,
}

/// In which group an element stands in each index.
#[derive(Clone, Copy, Debug, PartialEq, Eq)]
pub(crate) struct Groups {
    pub(crate) queue: Option<u64>,
    pub(crate) reply: Option<u64>,
    pub(crate) owned: Option<u64>,
    pub(crate) family: Option<u64>,
    pub(crate) alive: Option<u64>,
}

/// No group at all: those of an element that isn't there.
pub(crate) const NO_GROUPS: Groups = Groups {
    queue: None,
    reply: None,
    owned: None,
    family: None,
    alive: None,
};

impl Element {
    /// The same element, where it stands so.
    #[inline(always)]
    pub(crate) fn standing(&self, status: Status) -> Element
        ensures { result ≡ standing status self.now }
    {
        let mut element = *self;
        element.status = status;
        element
    }

    /// Whether this unit of work holds it.
    #[inline(always)]
    pub fn is_held_by(&self, unit: u64) -> bool
        ensures { result ≡ is_held_by unit self.now.status }
    {
        match self.status {
            Status::Held { unit: holder, .. } => holder == unit,
            Status::Waiting { .. } => false,
            Status::Consumed { .. } => false,
            Status::Parked { .. } => false,
            Status::Killed => false,
        }
    }

    /// Its request, where work on it may go on.
    #[inline(always)]
    pub(crate) fn alive(&self) -> Option<u64>
        ensures { result ≡ alive_of self.now }
    {
        match self.status {
            Status::Waiting { .. } => Some(self.root),
            Status::Held { .. } => Some(self.root),
            Status::Parked { .. } => Some(self.root),
            Status::Consumed { .. } => None,
            Status::Killed => None,
        }
    }

    /// The queue that it waits in.
    #[inline(always)]
    fn queue(&self) -> Option<u64>
        ensures { result ≡ queue_of self.now }
    {
        match self.status {
            Status::Waiting { .. } => Some(u64::from(self.stage)),
            Status::Held { .. } => None,
            Status::Parked { .. } => Some(0),
            Status::Consumed { .. } => None,
            Status::Killed => None,
        }
    }

    /// Whether it is a reply that waits.
    #[inline(always)]
    fn is_reply(&self) -> bool
        ensures { result ≡ is_reply self.now }
    {
        match self.status {
            Status::Waiting { .. } => self.stage == REPLY_STAGE,
            Status::Held { .. } => false,
            Status::Parked { .. } => false,
            Status::Consumed { .. } => false,
            Status::Killed => false,
        }
    }

    /// The groups in which the indexes have it, where this is its id.
    #[inline(always)]
    pub(crate) fn groups(&self, id: u64) -> Groups
        ensures { result ≡ groups_of id self.now }
    {
        let is_own = self.root == id;
        let is_reply = self.is_reply();
        Groups {
            queue: self.queue(),
            reply: if is_reply { Some(self.root) } else { None },
            owned: if is_reply { self.owner } else { None },
            family: if is_own { None } else { Some(self.root) },
            alive: if is_own { None } else { self.alive() },
        }
    }
}
