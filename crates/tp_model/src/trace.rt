//! The atomic steps of a pass, for contracts alone: no value of them is made when the program runs.

use crate::event::Event;
use std::collections::LinkedList;

/// The kinds of atomic step on a shared word.
pub enum StepKind {
    /// The store of a word of an element that isn't born.
    DraftStore,
    /// The store of the head of a client's element, which is its birth.
    Publish,
    /// The load of a word.
    Load,
    /// The load by which what a thread steps with is cut in two, or joined with another's. It shows nothing
    /// of the table.
    SeatLoad,
    /// The look at the word of an own unit that was never claimed, which is thereby chosen for the next
    /// claim.
    UnitChoice,
    /// The compare-exchange of an element's claim word by which a unit takes it.
    ClaimExchange,
    /// The compare-exchange of an own unit's word from undecided to committed.
    CommitExchange,
    /// The compare-exchange of a unit's word from undecided to aborted.
    AbortExchange,
    /// The compare-exchange of an element's claim word by which it is killed.
    KillExchange,
    /// The compare-exchange of a parked element's claim word by which it is given another round.
    RequeueExchange,
    /// The compare-exchange of a part's mark, by which it is raised. It shows nothing but the mark.
    Raise,
    /// The compare-exchange of the counter of drawn blocks, by which a spare block is drawn. It shows nothing
    /// but of the counter.
    Draw,
    /// The compare-exchange of the head of a row that the pass has left behind, by which it is marked as one
    /// that is never used. It shows nothing but that head.
    Void,
}

/// An atomic step of a pass, and the history that the pass has seen after it.
pub struct TraceEntry {
    /// Which kind of step it was.
    pub kind: StepKind,
    /// The history that the pass has seen after it.
    pub seen: LinkedList<Event>,
}
