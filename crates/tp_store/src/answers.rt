//! What the calls of a store answer.
use crate::element::Element;

/// Why a call was refused. A refused call changes nothing.
#[derive(Clone, Copy, Debug, PartialEq, Eq)]
pub enum Refusal {
    /// Memory could not be had.
    NoMemory,
    /// All 2^64 numbers of elements or of units of work are used, or all 255 of an element's attempts.
    NoNumber,
    /// The stage is none that workers take from, or the element is of a stage that is not asked for.
    BadStage,
    /// There is no element with this id: none was born, or its request is over and forgotten.
    NotThere,
    /// The element was consumed by a unit of work that committed.
    Consumed { unit: u64 },
    /// The element was killed before.
    AlreadyKilled,
    /// As many elements are alive as the limits allow.
    Full,
    /// The element isn't parked.
    NotParked,
    /// The element is parked, and has had all its rounds.
    NoRound,
    /// No unit of work holds the element.
    NotHeld,
    /// The element doesn't wait: it is held, parked, consumed or killed.
    NotWaiting,
    /// What is told contradicts what is there, or itself.
    Unsound,
}

/// What a claim hands out: an element, and the unit of work that holds it from now on.
#[derive(Clone, Copy, Debug, PartialEq, Eq)]
pub struct Work {
    /// The id of the element.
    pub id: u64,
    /// The unit of work.
    pub unit: u64,
    /// How many units have taken the element in its round, this one included.
    pub attempt: u8,
    /// The element that it holds.
    pub element: Element,
}

/// The answer of a commit.
#[derive(Clone, Copy, Debug, PartialEq, Eq)]
pub enum Outcome {
    /// The element is consumed, and the outputs are born: `count` of them, with the ids from `first` on.
    Committed { first: u64, count: u64 },
    /// The unit of work holds the element no more: another caller has aborted it.
    Lost,
}

/// The answer of an abort.
#[derive(Clone, Copy, Debug, PartialEq, Eq)]
pub enum Ended {
    /// The unit of work is aborted, by this call.
    Aborted,
    /// Another caller had aborted it.
    AlreadyAborted,
}

/// The answer of a kill.
#[derive(Clone, Copy, Debug, PartialEq, Eq)]
pub struct Killed {
    /// How many units of work that held the element this call aborted: one or none.
    pub units_aborted: u8,
}

/// The answer of a cancel.
#[derive(Clone, Copy, Debug, PartialEq, Eq)]
pub struct Cancelled {
    /// How many elements this call killed.
    pub killed: u64,
}

/// The answer of a release.
#[derive(Clone, Copy, Debug, PartialEq, Eq)]
pub struct Released {
    /// The unit of work that held the element, which this call aborted.
    pub unit: u64,
    /// How many units had taken the element in its round, that one included.
    pub attempt: u8,
}
