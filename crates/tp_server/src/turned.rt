//! The answer of a turn.
ghost use Rattle.std.specs.Prelude.{◌≡◌};

use crate::recipe::Declined;
use tp_model::types::{Outcome, Work};

/// What a turn of a server came to. Elements are given by their ids.
#[derive(Clone, Copy, Debug, PartialEq, Eq)]
pub enum Turned {
    /// Nothing waited in the server's stage.
    Idle,
    /// The pass has used up its units of work.
    NoUnit,
    /// The element was consumed by this unit, with `count` outputs from the id `first` on (0 where there is
    /// none).
    Done {
        unit: u16,
        element: u32,
        first: u32,
        count: u8,
    },
    /// The server declined the element, and its unit was aborted.
    Refused {
        element: u32,
        why: Declined,
    },
    /// Another caller had aborted the unit: none of the work is seen.
    Lost {
        element: u32,
    },
    /// The pass has too few rows left for the outputs, and no spare block is left: the unit was aborted.
    Full {
        element: u32,
    },
}

impl Turned {
    ghost use Rattle.tp_server.specs.Settled.{settled, settled_as};

    /// The answer of a turn whose work was committed with this answer.
    pub fn settled(work: &Work, outcome: Outcome) -> Turned
        ensures { result ≡ settled work.now outcome }
    {
        Turned::settled_as(work.unit, work.element.id, outcome)
    }

    /// The answer of a turn whose unit, which had taken this element, was committed with this answer.
    pub fn settled_as(unit: u16, element: u32, outcome: Outcome) -> Turned
        ensures { result ≡ settled_as unit element outcome }
    {
        match outcome {
            Outcome::Committed { first, count } => Turned::Done {
                unit,
                element,
                first,
                count,
            },
            Outcome::Lost => Turned::Lost { element },
            Outcome::Full => Turned::Full { element },
        }
    }
}
