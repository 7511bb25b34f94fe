//! What a server or a worker has in hand.
ghost use Rattle.std.specs.Prelude.{◌≡◌};
ghost use Rattle.tp_session.specs.Hands.{attempt_in, hand_of, held_of, hand_told, is_in_hand, tries_in};

use tp_answers::HandTold;
use tp_lines::Fence;
use tp_store::answers::Work;
use tp_store::element::{Element, Status};
use tp_store::store::Store;

/// What was taken: an element, and the unit of work that took it.
#[derive(Clone, Copy, Debug, PartialEq, Eq)]
pub struct Hand {
    /// The element.
    pub id: u64,
    /// The unit of work. It may hold the element no more.
    pub unit: u64,
    /// Which try at the element that is, of all its rounds; 0 where a dump didn't say so.
    pub tries: u16,
}

/// Which try at its element work is, of all its rounds.
pub(crate) fn tries_in(work: &Work) -> u16
    ensures { result ≡ tries_in work.now }
{
    u16::from(work.element.earlier) + u16::from(work.attempt)
}

impl Hand {
    /// What was handed out.
    pub(crate) fn of(work: &Work) -> Hand
        ensures { result ≡ hand_of work.now }
    {
        Hand {
            id: work.id,
            unit: work.unit,
            tries: tries_in(work),
        }
    }

    /// The element, where its unit holds it still.
    pub(crate) fn held(self, store: &Store) -> Option<Element>
        ensures { result ≡ held_of self store.now }
    {
        match store.get(self.id) {
            None => None,
            Some(element) => {
                if element.is_held_by(self.unit) {
                    Some(element)
                } else {
                    None
                }
            }
        }
    }
}

/// Whether just this is in hand.
pub(crate) fn is_in_hand(fence: Fence, hand: Option<Hand>) -> bool
    ensures { result ≡ is_in_hand fence hand }
{
    match hand {
        None => false,
        Some(hand) => hand.id == fence.id && hand.tries == fence.tries,
    }
}

/// In which attempt an element is held.
pub(crate) fn attempt_in(status: Status) -> u8
    ensures { result ≡ attempt_in status }
{
    match status {
        Status::Held { attempt, .. } => attempt,
        Status::Waiting { .. } => 0,
        Status::Consumed { .. } => 0,
        Status::Parked { .. } => 0,
        Status::Killed => 0,
    }
}

/// What is told of a hand.
pub(crate) fn hand_told(hand: Option<Hand>, store: &Store) -> HandTold
    ensures { result ≡ hand_told hand store.now }
{
    let Some(hand) = hand else {
        return HandTold::Nothing;
    };
    match hand.held(store) {
        None => HandTold::Lost {
            id: hand.id,
            tries: hand.tries,
        },
        Some(element) => {
            let body = element.body;
            HandTold::Open {
                id: hand.id,
                unit: hand.unit,
                attempt: attempt_in(element.status),
                root: element.root,
                body,
                tries: hand.tries,
            }
        }
    }
}
