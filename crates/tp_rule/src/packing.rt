//! The words as typed values, and as numbers.
//!
//! `Head`, `Claim` and `UnitWord` can each hold more than the words can; `pack` asks for a value that a word
//! can hold, and `unpack` answers such values alone. `unpack` undoes `pack`, and `pack` undoes `unpack`.
//! `read` is the same for a number of which it is proved that it is such a word. The tails of a head and of a
//! unit's word, their bits from 37 and from 21 on, are apart from all this.
ghost use Rattle.std.specs.Prelude.{◌≡◌, ◌↔◌, ℕ, IfSome, IsSome, Option, Some};
ghost use Rattle.std.specs.Option.{option_map};
ghost use Rattle.tp_model.specs.History.{UnitEnd};
ghost use Rattle.tp_model.specs.Words.{ClaimWord, TakenWord, kill_word, round_in};
ghost use Rattle.tp_rule.specs.Words.{pack_claim, claim_value, IsFitClaim};

use crate::bits::{
    CLAIM_AGAIN, CLAIM_ATTEMPT, CLAIM_FREE, CLAIM_KILLED, CLAIM_ROUND, CLAIM_TAKEN, CLAIM_UNIT,
    HEAD_BY, HEAD_EMPTY, HEAD_KINDS, HEAD_PRESENT, HEAD_ROOT, HEAD_STAGE, HEAD_VOID, MAX_ID,
    MAX_UNIT, UNIT_ABORTED, UNIT_COMMITTED, UNIT_COUNT, UNIT_FIRST, UNIT_UNDECIDED,
};
use tp_model::types::{MAX_ATTEMPTS, MAX_OUTPUTS, MAX_ROUNDS};

/// What the head word of a row says.
#[derive(Clone, Copy, Debug, PartialEq, Eq)]
pub enum Head {
    /// The row has neither an element nor a draft.
    Empty,
    /// The row was left behind empty, and never has either.
    Void,
    /// The row has an element, or the draft of one.
    Filled {
        /// The stage whose servers take it, 1 to 15.
        stage: u8,
        /// The id of the client's element that it goes back to.
        root: u16,
        /// The unit that makes it, at most 65534, or `None` for a client. What names a unit is born when that
        /// unit commits.
        by: Option<u16>,
    },
}

/// What the claim word of a row says.
#[derive(Clone, Copy, Debug, PartialEq, Eq)]
pub enum Claim {
    /// The element was never taken, or the row has none.
    Free,
    /// The unit was the `attempt`-th to take the element in its round. `attempt` is 1 to 7, `unit` at most
    /// 65534, `round` at most 3.
    Taken { attempt: u8, unit: u16, round: u8 },
    /// The element was killed after that; attempt and unit are 0 where it was not taken in its round.
    /// `attempt` is at most 7, `unit` at most 65534, `round` at most 3.
    Killed { attempt: u8, unit: u16, round: u8 },
    /// The element was given another round, 1 to 3, and was not taken since.
    Again { round: u8 },
}

/// What the word of a unit says.
#[derive(Clone, Copy, Debug, PartialEq, Eq)]
pub enum UnitWord {
    /// The unit was never used, or it is open.
    Undecided,
    /// The unit was committed with `count` outputs, at most 4, with the ids from `first` on. `first` is 0
    /// where there is none.
    Committed { first: u16, count: u8 },
    /// The unit was aborted.
    Aborted,
}

impl Head {
    ghost use Rattle.tp_rule.specs.Words.{pack_head, IsFitHead, IsHeadWord};
    ghost use Rattle.tp_rule.specs.declared.packing.Head.{Head};
    ghost use Rattle.tp_rule.specs.declared.packing.Head.TheVariants.{Filled};

    /// The word that is packed from this.
    #[inline(always)]
    pub fn pack(self) -> u64
        requires { IsFitHead self }
        ensures { result ≡ pack_head self }
    {
        match self {
            Head::Empty => HEAD_EMPTY,
            Head::Void => HEAD_VOID,
            Head::Filled { stage, root, by } => {
                let by = match by {
                    None => 0,
                    Some(unit) => unit as u64 + 1,
                };
                HEAD_PRESENT + HEAD_STAGE * stage as u64 + HEAD_ROOT * root as u64 + HEAD_BY * by
            }
        }
    }

    /// What a head word says.
    #[inline(always)]
    pub fn read(word: u64) -> Head
        requires { (h : Head) × IsFitHead h × (word ≡ pack_head h) }
        ensures of_pack { (h : Head) → IsFitHead h → word ≡ pack_head h → result ≡ h }
        ensures to_pack { IsFitHead result × (word ≡ pack_head result) }
    {
        // Two bits tell which it is, so a look that asks no more takes no mask of the others.
        let kind = word % HEAD_KINDS;
        if kind == HEAD_EMPTY {
            return Head::Empty;
        }
        if kind == HEAD_VOID {
            return Head::Void;
        }
        let by = word / HEAD_BY;
        Head::Filled {
            stage: (word % HEAD_ROOT / HEAD_STAGE) as u8,
            root: (word % HEAD_BY / HEAD_ROOT) as u16,
            by: if by == 0 { None } else { Some((by - 1) as u16) },
        }
    }

    /// The stage in the head word of an element or a draft, without the rest.
    #[inline(always)]
    pub fn stage(word: u64) -> u8
        requires { (h : Head) × IsFitHead h × (word ≡ pack_head h) }
        ensures { (stage root : ℕ) (by : Option ℕ) → IsFitHead (Filled stage root by)
            → word ≡ pack_head (Filled stage root by)
            → result ≡ stage }
    {
        (word % HEAD_ROOT / HEAD_STAGE) as u8
    }

    /// What the word says, or `None` for a number that is no head word.
    #[inline(always)]
    pub fn unpack(word: u64) -> Option<Head>
        ensures of_pack { (h : Head) → IsFitHead h → word ≡ pack_head h → result ≡ Some h }
        ensures to_pack { IfSome result (λ h. IsFitHead h × (word ≡ pack_head h)) }
        ensures accepted { IsSome result ↔ IsHeadWord word }
    {
        if word == HEAD_EMPTY {
            return Some(Head::Empty);
        }
        if word == HEAD_VOID {
            return Some(Head::Void);
        }
        let stage = word % HEAD_ROOT / HEAD_STAGE;
        let root = word % HEAD_BY / HEAD_ROOT;
        let by = word / HEAD_BY;
        if word % HEAD_STAGE != HEAD_PRESENT || stage == 0 || by > MAX_UNIT + 1 {
            return None;
        }
        let by = if by == 0 { None } else { Some((by - 1) as u16) };
        Some(Head::Filled {
            stage: stage as u8,
            root: root as u16,
            by,
        })
    }
}

impl Claim {
    ghost use Rattle.tp_rule.specs.Words.{IsClaimWord};

    /// The word that is packed from this.
    #[inline(always)]
    pub fn pack(self) -> u64
        requires { IsFitClaim (claim_value self) }
        ensures { result ≡ pack_claim (claim_value self) }
    {
        match self {
            Claim::Free => CLAIM_FREE,
            Claim::Taken {
                attempt,
                unit,
                round,
            } => {
                CLAIM_TAKEN
                    + CLAIM_ATTEMPT * attempt as u64
                    + CLAIM_UNIT * unit as u64
                    + CLAIM_ROUND * round as u64
            }
            Claim::Killed {
                attempt,
                unit,
                round,
            } => {
                CLAIM_KILLED
                    + CLAIM_ATTEMPT * attempt as u64
                    + CLAIM_UNIT * unit as u64
                    + CLAIM_ROUND * round as u64
            }
            Claim::Again { round } => CLAIM_AGAIN + CLAIM_ROUND * round as u64,
        }
    }

    /// The round of the claim: 0 is the first.
    #[inline(always)]
    pub fn round(self) -> u8
        ensures { result ≡ round_in (claim_value self) }
    {
        match self {
            Claim::Free => 0,
            Claim::Taken {
                attempt: _,
                unit: _,
                round,
            } => round,
            Claim::Killed {
                attempt: _,
                unit: _,
                round,
            } => round,
            Claim::Again { round } => round,
        }
    }

    /// What a claim word says.
    #[inline(always)]
    pub fn read(word: u64) -> Claim
        requires { (w : ClaimWord) × IsFitClaim w × (word ≡ pack_claim w) }
        ensures of_pack { (w : ClaimWord) → IsFitClaim w → word ≡ pack_claim w → claim_value result ≡ w }
    {
        if word == CLAIM_FREE {
            return Claim::Free;
        }
        let kind = word % CLAIM_ATTEMPT;
        let attempt = (word % CLAIM_UNIT / CLAIM_ATTEMPT) as u8;
        let unit = (word % CLAIM_ROUND / CLAIM_UNIT) as u16;
        let round = (word / CLAIM_ROUND) as u8;
        if kind == CLAIM_TAKEN {
            Claim::Taken {
                attempt,
                unit,
                round,
            }
        } else if kind == CLAIM_KILLED {
            Claim::Killed {
                attempt,
                unit,
                round,
            }
        } else {
            Claim::Again { round }
        }
    }

    /// What the word says, or `None` for a number that is no claim word.
    #[inline(always)]
    pub fn unpack(word: u64) -> Option<Claim>
        ensures of_pack { (w : ClaimWord) → IsFitClaim w → word ≡ pack_claim w
            → option_map claim_value result ≡ Some w }
        ensures to_pack { IfSome result (λ c. IsFitClaim (claim_value c)
            × (word ≡ pack_claim (claim_value c))) }
        ensures accepted { IsSome result ↔ IsClaimWord word }
    {
        let kind = word % CLAIM_ATTEMPT;
        let attempt = word % CLAIM_UNIT / CLAIM_ATTEMPT;
        let unit = word % CLAIM_ROUND / CLAIM_UNIT;
        let round = word / CLAIM_ROUND;
        if attempt > u64::from(MAX_ATTEMPTS) || unit > MAX_UNIT || round > u64::from(MAX_ROUNDS) {
            return None;
        }
        let attempt = attempt as u8;
        let unit = unit as u16;
        let round = round as u8;
        if word == CLAIM_FREE {
            Some(Claim::Free)
        } else if kind == CLAIM_TAKEN && attempt > 0 {
            Some(Claim::Taken {
                attempt,
                unit,
                round,
            })
        } else if kind == CLAIM_KILLED && (attempt > 0 || unit == 0) {
            Some(Claim::Killed {
                attempt,
                unit,
                round,
            })
        } else if kind == CLAIM_AGAIN && attempt == 0 && unit == 0 && round > 0 {
            Some(Claim::Again { round })
        } else {
            None
        }
    }
}

impl UnitWord {
    ghost use Rattle.tp_rule.specs.Words.{pack_unit, unit_value, IsFitUnit, IsUnitWord};

    /// The word that is packed from this.
    #[inline(always)]
    pub fn pack(self) -> u64
        requires { IsFitUnit (unit_value self) }
        ensures { result ≡ pack_unit (unit_value self) }
    {
        match self {
            UnitWord::Undecided => UNIT_UNDECIDED,
            UnitWord::Committed { first, count } => {
                UNIT_COMMITTED + UNIT_COUNT * count as u64 + UNIT_FIRST * first as u64
            }
            UnitWord::Aborted => UNIT_ABORTED,
        }
    }

    /// What a unit's word says.
    #[inline(always)]
    pub fn read(word: u64) -> UnitWord
        requires { (w : Option UnitEnd) × IsFitUnit w × (word ≡ pack_unit w) }
        ensures of_pack { (w : Option UnitEnd) → IsFitUnit w → word ≡ pack_unit w → unit_value result ≡ w }
    {
        if word == UNIT_UNDECIDED {
            UnitWord::Undecided
        } else if word == UNIT_ABORTED {
            UnitWord::Aborted
        } else {
            UnitWord::Committed {
                first: (word / UNIT_FIRST) as u16,
                count: (word % UNIT_FIRST / UNIT_COUNT) as u8,
            }
        }
    }

    /// What the word says, or `None` for a number that is no word of a unit.
    #[inline(always)]
    pub fn unpack(word: u64) -> Option<UnitWord>
        ensures of_pack { (w : Option UnitEnd) → IsFitUnit w → word ≡ pack_unit w
            → option_map unit_value result ≡ Some w }
        ensures to_pack { IfSome result (λ u. IsFitUnit (unit_value u) × (word ≡ pack_unit (unit_value u))) }
        ensures accepted { IsSome result ↔ IsUnitWord word }
    {
        let kind = word % UNIT_COUNT;
        let count = word % UNIT_FIRST / UNIT_COUNT;
        let first = word / UNIT_FIRST;
        if count > MAX_OUTPUTS as u64 || first > MAX_ID {
            return None;
        }
        let count = count as u8;
        let first = first as u16;
        if word == UNIT_UNDECIDED {
            Some(UnitWord::Undecided)
        } else if kind == UNIT_COMMITTED && (count > 0 || first == 0) {
            Some(UnitWord::Committed { first, count })
        } else if word == UNIT_ABORTED {
            Some(UnitWord::Aborted)
        } else {
            None
        }
    }
}
