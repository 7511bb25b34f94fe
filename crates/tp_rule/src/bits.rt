//! The bits of the words, each said once. Bits are counted from the least.
//!
//! A field's constant is what a value of 1 in that field counts in the word. So a word is the sum of its
//! fields, each times its constant. A field is read by `word % NEXT / OWN`, where `NEXT` is the constant of
//! the field above it.

/// The head of a row that has neither an element nor a draft.
pub const HEAD_EMPTY: u64 = 0;

/// Head, bit 0: the row has an element or a draft.
pub const HEAD_PRESENT: u64 = 1;

/// The head of a row that was left behind empty, without bit 0: it never has an element.
pub const HEAD_VOID: u64 = 2;

/// Head, above bits 0 and 1, which tell an empty head and a void one from each other and from all others.
pub const HEAD_KINDS: u64 = 1 << 2;

/// Head, bits 1 to 4: the stage, 1 to 15.
pub const HEAD_STAGE: u64 = 1 << 1;

/// Head, bits 5 to 20: the id of the client's element that it goes back to.
pub const HEAD_ROOT: u64 = 1 << 5;

/// Head, bits 21 to 36: 0 where a client made it, else the number of the unit that did, plus 1.
pub const HEAD_BY: u64 = 1 << 21;

/// Head, bits 37 to 52: how many rows right before it have heads of its stage, as far as its pass tells.
pub const HEAD_TAIL: u64 = 1 << 37;

/// The claim of an element that was never taken or killed, and of a row without an element.
pub const CLAIM_FREE: u64 = 0;

/// Claim, bits 0 and 1: a unit took the element.
pub const CLAIM_TAKEN: u64 = 1;

/// Claim, bits 0 and 1: the element was killed. The attempt, the unit and the round stay as they were.
pub const CLAIM_KILLED: u64 = 2;

/// Claim, bits 0 and 1: the element was given another round, and not taken since. The attempt and the unit
/// are 0.
pub const CLAIM_AGAIN: u64 = 3;

/// Claim, bits 2 to 5: how many units have taken the element in its round, at most 7.
pub const CLAIM_ATTEMPT: u64 = 1 << 2;

/// Claim, bits 6 to 21: the unit that took it last.
pub const CLAIM_UNIT: u64 = 1 << 6;

/// Claim, bits 22 and 23: the round, 0 for the first.
pub const CLAIM_ROUND: u64 = 1 << 22;

/// The word of a unit that was neither committed nor aborted.
pub const UNIT_UNDECIDED: u64 = 0;

/// Unit, bits 0 and 1: it was committed.
pub const UNIT_COMMITTED: u64 = 1;

/// Unit, bits 0 and 1: it was aborted. The other bits are 0.
pub const UNIT_ABORTED: u64 = 2;

/// Unit, bits 2 to 4: how many outputs a committed unit has, at most 4.
pub const UNIT_COUNT: u64 = 1 << 2;

/// Unit, bits 5 to 20: the id of its first output, and 0 where there is none.
pub const UNIT_FIRST: u64 = 1 << 5;

/// Unit, bits 21 to 36: how many units right before a committed one are committed, as far as its pass tells.
pub const UNIT_TAIL: u64 = 1 << 21;

/// The greatest number of a unit: a head has room for the number plus 1.
pub const MAX_UNIT: u64 = 65534;

/// The greatest id of an element.
pub const MAX_ID: u64 = 65535;
