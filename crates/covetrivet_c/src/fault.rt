//! Why a call did not do what was asked.
ghost use Rattle.std.specs.Prelude.{◌≡◌};
ghost use Rattle.covetrivet_c.specs.Codes.{code_of, refusal_code};

use crate::codes::{
    ALREADY_KILLED, BAD_DRAFT, BAD_LIMITS, BAD_STAGE, BUSY, CONSUMED, FULL, FULL_LOST, IDLE, LOST,
    NO_MEMORY, NO_OPEN, NO_PART, NO_ROUND, NO_UNIT, NONE, NOT_ALL, NOT_HELD, NOT_PARKED, NOT_THERE,
    NOT_WAITING, TOO_MANY, UNEQUAL,
};
use tp_model::types::Refusal;

/// Why a call of C was not answered with what it asked for.
#[derive(Clone, Copy, Debug, PartialEq, Eq)]
pub enum Fault {
    /// The manager refused it.
    Refused(Refusal),
    /// The stage is not one that the call may be about.
    BadStage,
    /// The pass has a unit of work open.
    Busy,
    /// The pass has no unit of work open.
    NoOpen,
    /// There are more than four drafts.
    TooMany,
    /// A draft's stage is not 1 to 15.
    BadDraft,
    /// Nothing was found to wait.
    Idle,
    /// Another caller had aborted the unit of work.
    Lost,
    /// There is none.
    Nothing,
    /// No pass is at home.
    NoPart,
    /// Not all passes are at home.
    NotAll,
    /// What stands in the new manager isn't what is alive in the old one.
    Unequal,
    /// There is no row left for the drafts, and another caller had aborted the unit of work.
    FullLost,
}

/// The number of a refusal.
fn refusal_code(refusal: Refusal) -> u32
    ensures { result ≡ refusal_code refusal }
{
    match refusal {
        Refusal::NoMemory => NO_MEMORY,
        Refusal::BadLimits => BAD_LIMITS,
        Refusal::BadStage => BAD_STAGE,
        Refusal::NotThere => NOT_THERE,
        Refusal::Consumed { .. } => CONSUMED,
        Refusal::AlreadyKilled => ALREADY_KILLED,
        Refusal::Full => FULL,
        Refusal::NotParked => NOT_PARKED,
        Refusal::NoRound => NO_ROUND,
        Refusal::NotHeld => NOT_HELD,
        Refusal::NotWaiting => NOT_WAITING,
        Refusal::NoUnit => NO_UNIT,
    }
}

impl Fault {
    /// Its number, which C gets.
    pub(crate) fn code(self) -> u32
        ensures { result ≡ code_of self }
    {
        match self {
            Fault::Refused(refusal) => refusal_code(refusal),
            Fault::BadStage => BAD_STAGE,
            Fault::Busy => BUSY,
            Fault::NoOpen => NO_OPEN,
            Fault::TooMany => TOO_MANY,
            Fault::BadDraft => BAD_DRAFT,
            Fault::Idle => IDLE,
            Fault::Lost => LOST,
            Fault::Nothing => NONE,
            Fault::NoPart => NO_PART,
            Fault::NotAll => NOT_ALL,
            Fault::Unequal => UNEQUAL,
            Fault::FullLost => FULL_LOST,
        }
    }
}
