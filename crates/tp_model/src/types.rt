//! The values that callers hand in and get back.

ghost use Rattle.std.specs.Prelude.{◌≡◌, ◌≤◌, ◌↔◌, IsSome, IfSome};

use std::marker::Model;

/// How many words the body of an element has.
pub const BODY_WORDS: usize = 4;

/// The body of an element, which no call changes. Word 0 is its key: which register of a server it concerns.
pub type Body = [u64; BODY_WORDS];

/// A request, or a further request or reply that a server's unit of work made of one.
#[derive(Clone, Copy, Debug, PartialEq, Eq)]
pub struct Element {
    /// The stage whose servers take it, 1 to 14, or 15 for a reply.
    pub stage: u8,
    /// The unit of work that made it, or `None` where a client submitted it.
    pub by: Option<u16>,
    /// Its identifier: the number of its row, below the manager's capacity.
    pub id: u32,
    /// The id of the client's element that it goes back to; its own id where a client submitted it.
    pub root: u32,
    /// Its body.
    pub body: Body,
}

/// The status of an element.
#[derive(Clone, Copy, Debug, PartialEq, Eq)]
pub enum Status {
    /// It may be claimed. This many units of work took it in its round and were aborted: fewer than the
    /// attempt limit.
    Waiting { attempts: u8 },
    /// An undecided unit of work holds it, and is the `attempt`-th to do so in its round.
    Held { unit: u16, attempt: u8 },
    /// A unit of work took it and committed.
    Consumed { unit: u16 },
    /// All attempts of its round, as many as the limit, were aborted: it is in the error queue.
    Parked { attempts: u8 },
    /// It was killed, and is never taken again.
    Killed,
}

/// An element as a read shows it.
#[derive(Clone, Copy, Debug, PartialEq, Eq)]
pub struct Look {
    /// The element itself, whose contents never change.
    pub element: Element,
    /// How it stood at a point of the read.
    pub status: Status,
}

/// What a claim hands out: an element, and the unit of work that holds it from now on.
#[derive(Clone, Copy, Debug, PartialEq, Eq)]
pub struct Work {
    /// How many units have taken the element in its round, this one included: 1 to the attempt limit.
    pub attempt: u8,
    /// The unit of work, one of the pass's own.
    pub unit: u16,
    /// The element that it holds.
    pub element: Element,
}

/// The limits that a manager is made with.
#[derive(Clone, Copy, Debug, PartialEq, Eq)]
pub struct Limits {
    /// How many passes there are, 1 to 32.
    pub parts: u16,
    /// How many elements each pass may make in its own part, 1 to 256.
    pub rows: u16,
    /// How many units of work each pass may begin, 1 to 1024.
    pub units: u16,
    /// How many attempts an element has in a round before it is parked, 1 to 7.
    pub attempts: u8,
    /// How many spare blocks of rows there are, 0 to 256. Each pass that needs more rows than its own may
    /// draw them.
    pub spare: u16,
}

/// The stage of replies, which no server takes from.
pub const REPLY_STAGE: u8 = 15;

/// The last stage that a server may have; the first is 1.
pub const MAX_STAGE: u8 = 14;

/// How many stages there are: those of servers and that of replies.
pub const STAGES: usize = 15;

/// How many drafts a commit has at most.
pub const MAX_OUTPUTS: usize = 4;

/// How many passes a manager has at most.
pub const MAX_PASSES: u16 = 32;

/// How many rows a pass has of its own at most.
pub const MAX_PART_ROWS: u16 = 256;

/// How many units of work a pass may begin at most.
pub const MAX_UNITS: u16 = 1024;

/// How many attempts a round has at most.
pub const MAX_ATTEMPTS: u8 = 7;

/// How many spare blocks there are at most.
pub const MAX_BLOCKS: u16 = 256;

/// How many rows a spare block has.
pub const BLOCK_ROWS: u16 = 8;

/// How often a parked element can be given another round of attempts.
pub const MAX_ROUNDS: u8 = 3;

impl Limits {
    ghost use Rattle.std.specs.Prelude.{◌≡◌, ◌↔◌, ◌≤◌, IsTrue};
    ghost use Rattle.tp_model.specs.Steps.{AreLimits, tries};

    /// Whether each limit is in its range.
    pub fn is_valid(&self) -> bool
        ensures { IsTrue result ↔ AreLimits self.now }
    {
        self.parts >= 1
            && self.parts <= MAX_PASSES
            && self.rows >= 1
            && self.rows <= MAX_PART_ROWS
            && self.units >= 1
            && self.units <= MAX_UNITS
            && self.attempts >= 1
            && self.attempts <= MAX_ATTEMPTS
            && self.spare <= MAX_BLOCKS
    }

    /// How many attempts an element has in all its rounds.
    pub fn tries(&self) -> u8
        requires { self.now.attempts ≤ 7 }
        ensures { result ≡ tries self.now.attempts }
    {
        (MAX_ROUNDS + 1) * self.attempts
    }
}

/// The answer of a claim.
#[derive(Clone, Copy, Debug, PartialEq, Eq)]
pub enum Claimed {
    /// An element, in the hand of a new unit of work.
    Work(Work),
    /// None was found to wait: each element of the stage that was born when the call began had a moment in
    /// the call at which it didn't.
    Idle,
    /// The pass has used up its units of work.
    NoUnit,
}

/// The answer of a commit.
#[derive(Clone, Copy, Debug, PartialEq, Eq)]
pub enum Outcome {
    /// The element is consumed and the outputs are born: `count` of them, with the ids from `first` on (0
    /// where there is none).
    Committed { first: u32, count: u8 },
    /// Another caller had aborted the unit of work: none of it is seen. The rows of its drafts stay unused.
    Lost,
    /// The pass has too few rows left for the outputs, and no spare block is left: the unit of work is over.
    /// This commit aborted it, or another caller had before, by a release, a kill or a cancel.
    Full,
}

/// The answer of an abort.
#[derive(Clone, Copy, Debug, PartialEq, Eq)]
pub enum Ended {
    /// The unit of work is aborted, by this call.
    Aborted,
    /// Another caller had aborted the unit of work.
    AlreadyAborted,
}

/// The answer of a kill.
#[derive(Clone, Copy, Debug, PartialEq, Eq)]
pub struct Killed {
    /// How many units of work that held the element this call aborted, at most the attempt limit in each of
    /// its rounds.
    pub units_aborted: u8,
}

/// The answer of a release.
#[derive(Clone, Copy, Debug, PartialEq, Eq)]
pub struct Released {
    /// The unit of work that held the element, which this call aborted.
    pub unit: u16,
    /// How many units had taken the element in its round, that one included.
    pub attempt: u8,
}

/// The answer of a cancel.
#[derive(Clone, Copy, Debug, PartialEq, Eq)]
pub struct Cancelled {
    /// How many elements this call killed.
    pub killed: u32,
}

/// How many elements there are of each kind of status.
#[derive(Clone, Copy, Debug, PartialEq, Eq)]
pub struct Counts {
    pub waiting: u32,
    pub held: u32,
    pub consumed: u32,
    pub parked: u32,
    pub killed: u32,
}

/// The closing account: how many elements there are of each kind of status, in all and by stage.
#[derive(Clone, Copy, Debug, PartialEq, Eq)]
pub struct Account {
    pub total: Counts,
    /// Those of stage s are at index s - 1.
    pub stages: [Counts; STAGES],
}

/// Why a call was refused. A refused call changes nothing, but that a refused kill may have aborted units of
/// work.
#[derive(Clone, Copy, Debug, PartialEq, Eq)]
pub enum Refusal {
    /// Memory could not be had.
    NoMemory,
    /// A limit is outside its range.
    BadLimits,
    /// The stage is not one that a client may submit to, or the element is not of the stage that is asked
    /// for.
    BadStage,
    /// No element with this id was born.
    NotThere,
    /// The element was consumed by a unit of work that committed.
    Consumed { unit: u16 },
    /// The element was killed before.
    AlreadyKilled,
    /// The pass has no row left, and no spare block is left.
    Full,
    /// The element isn't parked.
    NotParked,
    /// The element is parked, and has had all its rounds.
    NoRound,
    /// No unit of work holds the element.
    NotHeld,
    /// The element doesn't wait: it is held, parked, consumed or killed.
    NotWaiting,
    /// The pass has used its units of work.
    NoUnit,
}

/// An output of a unit of work before it is born. Its stage is 1 to 15.
#[derive(Clone, Copy, Debug, PartialEq, Eq)]
pub struct Draft {
    body: Body,
    stage: u8,
}

impl Model for Draft {
    ghost use Rattle.tp_model.specs.declared.types.TheConstants.{REPLY_STAGE};
    ghost use Rattle.std.specs.Prelude.{◌≤◌};
    ghost use Rattle.tp_model.specs.Drafts.{DraftView};
    ghost use Rattle.tp_model.specs.Steps.{IsBody};

    ghost Value = { DraftView };

    ghost view = { λ d. record { stage = d.stage; body = d.body } };

    ghost invariant = { λ d. (1 ≤ d.stage) × (d.stage ≤ REPLY_STAGE) × IsBody d.body };

    ghost inverse = { λ d. record { stage = d.stage; body = d.body } };
}

impl Draft {
    ghost use Rattle.tp_model.specs.declared.types.TheConstants.{REPLY_STAGE};
    ghost use Rattle.tp_model.specs.Steps.{IsBody};

    /// A draft for a stage, or `None` unless the stage is 1 to 15.
    pub fn new(stage: u8, body: Body) -> Option<Draft>
        ensures some { IsSome result ↔ ((1 ≤ stage) × (stage ≤ REPLY_STAGE)) }
        ensures value { IfSome result (λ d. d ≡ record { stage = stage; body = body }) }
    {
        if stage >= 1 && stage <= REPLY_STAGE {
            Some(Draft { stage, body })
        } else {
            None
        }
    }

    /// The stage of the output, 1 to 15.
    pub fn stage(&self) -> u8
        ensures value { result ≡ self.now.stage }
        ensures low { 1 ≤ result }
        ensures high { result ≤ REPLY_STAGE }
    {
        self.stage
    }

    /// The body of the output.
    pub fn body(&self) -> Body
        ensures value { result ≡ self.now.body }
        ensures whole { IsBody result }
    {
        self.body
    }
}

/// The draft that fills unused places: a reply with a body of zeros.
impl Default for Draft {
    ghost use Rattle.tp_model.specs.declared.types.TheConstants.{REPLY_STAGE};
    ghost use Rattle.std.specs.Prelude.{[], ◌∷◌};

    ghost is_default = { λ d. d ≡ record { stage = REPLY_STAGE; body = 0 ∷ 0 ∷ 0 ∷ 0 ∷ [] } };

    fn default() -> Draft {
        Draft {
            stage: REPLY_STAGE,
            body: [0; BODY_WORDS],
        }
    }
}
