//! The numbers that C gets for answers.

/// The call did what was asked.
pub const OK: u32 = 0;

/// The handle leads to nothing.
pub const CLOSED: u32 = 1;

/// The handle that is to be opened leads to something already.
pub const OPEN: u32 = 2;

/// Memory could not be had.
pub const NO_MEMORY: u32 = 3;

/// A limit is outside its range.
pub const BAD_LIMITS: u32 = 4;

/// No pass is at home.
pub const NO_PART: u32 = 5;

/// The stage is not one that the call may be about.
pub const BAD_STAGE: u32 = 6;

/// No such element was born.
pub const NOT_THERE: u32 = 7;

/// The element was consumed.
pub const CONSUMED: u32 = 8;

/// The element was killed before.
pub const ALREADY_KILLED: u32 = 9;

/// There is no row left.
pub const FULL: u32 = 10;

/// The element is not parked.
pub const NOT_PARKED: u32 = 11;

/// The element has had all its rounds.
pub const NO_ROUND: u32 = 12;

/// No unit of work holds the element.
pub const NOT_HELD: u32 = 13;

/// The element does not wait.
pub const NOT_WAITING: u32 = 14;

/// The pass has used its units of work.
pub const NO_UNIT: u32 = 15;

/// Nothing was found to wait.
pub const IDLE: u32 = 16;

/// Another caller had aborted the unit of work.
pub const LOST: u32 = 17;

/// There is none.
pub const NONE: u32 = 18;

/// The pass has a unit of work open.
pub const BUSY: u32 = 19;

/// The pass has no unit of work open.
pub const NO_OPEN: u32 = 20;

/// There are more than four drafts.
pub const TOO_MANY: u32 = 21;

/// A draft's stage is not 1 to 15.
pub const BAD_DRAFT: u32 = 22;

/// Not all passes are at home.
pub const NOT_ALL: u32 = 23;

/// What stands in the new manager isn't what is alive in the old one.
pub const UNEQUAL: u32 = 24;

/// There is no row left for the drafts, and another caller had aborted the unit of work.
pub const FULL_LOST: u32 = 26;
