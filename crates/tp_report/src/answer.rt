//! The answers that commands come to. Each is one line of the report; `display.rt` has their texts.
ghost use Rattle.std.specs.Prelude.{◌≡◌, IfOk, string_bytes};
ghost use Rattle.tp_script.specs.Fault.{refused_text};
ghost use Rattle.tp_report.specs.Answer.{answer_text, line};
ghost use Rattle.tp_report.specs.Lines.{IsLine};

use std::alloc::{AllocError, Global};
use std::string::String;
use tp_model::types::{Counts, Element, Look, Refusal};
use tp_script::Refused;
use tp_server::Turned;

/// What a command on a server came to. Elements are given by their ids.
#[derive(Clone, Copy)]
pub enum ServerAnswer {
    /// A turn, or the part of it that was asked for, came to this.
    Turned(Turned),
    /// A new unit of work took the element, as the `attempt`-th to do so in its round.
    Work {
        element: u32,
        unit: u16,
        attempt: u8,
    },
    /// The element was not taken, for this reason.
    NotTaken {
        element: u32,
        why: Refusal,
    },
    /// A unit of work is open, or is prepared already.
    Busy,
    /// No unit of work is open.
    NoneOpen,
    /// The work is prepared.
    Ready,
    /// The unit that held the element is aborted.
    Aborted {
        element: u32,
    },
    /// Another caller had aborted the unit that held the element.
    AlreadyAborted {
        element: u32,
    },
    /// The desk is dropped.
    Dropped,
    /// The desk had been dropped before, and nothing was done.
    Ended,
}

/// An element that a rollover carried over: its id in the old manager, and in the new one.
#[derive(Clone, Copy)]
pub struct Renamed {
    pub old: u32,
    pub new: u32,
}

/// What a command came to.
#[derive(Clone, Copy)]
pub enum Answer<'a> {
    /// The submitted element has this id.
    Submitted {
        id: u32,
    },
    /// The manager refused the call.
    Refused(Refusal),
    /// The answer of the server of this name.
    Server {
        name: &'a str,
        answer: ServerAnswer,
    },
    /// The replies to the request of this root.
    Replies {
        root: u32,
        replies: &'a [Element],
    },
    /// The element is killed, and this many units that held it were aborted.
    Killed {
        id: u32,
        aborted: u8,
    },
    /// The request of this root is cancelled, and this many elements were killed.
    Cancelled {
        root: u32,
        killed: u32,
    },
    /// The parked element was given this round.
    Requeued {
        id: u32,
        round: u8,
    },
    /// The unit of work that held the element in this attempt is aborted.
    Released {
        id: u32,
        unit: u16,
        attempt: u8,
    },
    /// The replies to the request of this root that were taken.
    Collected {
        root: u32,
        replies: &'a [Element],
    },
    /// The elements of the request of this root, as they were read.
    Family {
        root: u32,
        looks: &'a [Look],
    },
    /// An element as it was read.
    Read(Look),
    /// The ids of the parked elements.
    Errors(&'a [u32]),
    /// Register `k` of the server of this name, if it has one.
    Balance {
        name: &'a str,
        k: u64,
        value: Option<u64>,
    },
    /// The sum of register `k` over the servers.
    Sum {
        k: u64,
        sum: u128,
    },
    /// How many elements have each status.
    Count(Counts),
    /// How many elements are born at the end, and how many have each status.
    Account(Counts),
    /// How many submits of a race's clients were accepted.
    Raced {
        submitted: u32,
    },
    /// Nothing is left for the servers.
    Drained,
    /// The manager has gone on in a new one, into which these elements were carried over.
    RolledOver(&'a [Renamed]),
    /// A unit of work is open, and nothing was done.
    Busy,
    /// What a rollover found in the new manager wasn't what was alive in the old one, and nothing was done.
    Unequal,
    /// What the registers of the server of this name hold at the end.
    Final {
        name: &'a str,
        registers: &'a [u64],
    },
}

/// The line of an answer.
pub fn line(alloc: Global, answer: Answer<'_>) -> Result<String, AllocError>
    ensures text { IfOk result (λ s. string_bytes s ≡ line (answer_text answer.entry)) }
    ensures line { IfOk result (λ s. IsLine (string_bytes s)) }
{
    format!(in alloc; "{answer}\n")
}

/// The line of a refused script.
pub fn refused_line(alloc: Global, refused: Refused) -> Result<String, AllocError>
    ensures { IfOk result (λ s. string_bytes s ≡ line (refused_text refused)) }
{
    format!(in alloc; "{refused}\n")
}
