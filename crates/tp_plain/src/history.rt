//! A history that only proofs read. It takes no memory, and its methods do nothing when the program runs.
ghost use Rattle.std.specs.Prelude.{◌≡◌, List, [], ◌∷◌, ◌++◌};
ghost use Rattle.std.specs.Borrow.{ftrue};
ghost use Rattle.tp_model.specs.declared.event.Event.{Event};

use std::marker::Model;
use tp_model::types::Element;

/// The events so far.
#[derive(Drop)]
pub struct History {
    pub ghost events: { List Event },
}

impl Model for History {
    ghost also_owns = { λ _. ftrue };
}

/// What happened, as far as it is said to a history.
#[derive(Clone, Copy, Drop)]
pub(crate) enum Note<'a> {
    Enqueue(u16, Element),
    Claim(u16, u16, u32, u8),
    Commit(u16, u16, &'a [Element]),
    Abort(u16, u16),
    Kill(u16, u32),
    Requeue(u16, u32, u8),
}

impl History {
    ghost use Rattle.tp_plain.specs.Noted.{noted_event};

    /// The history in which nothing happened.
    pub(crate) fn new() -> History
        ensures { result.events ≡ [] }
    {
        History {}
    }

    /// The history with one event more.
    pub(crate) fn then(&self, _note: &Note<'_>) -> History
        ensures { result.events ≡ self.now.events ++ noted_event _note.now ∷ [] }
    {
        History {}
    }
}
