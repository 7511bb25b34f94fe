//! Words as they were found: what they say, and what else is in them.
ghost use Rattle.std.specs.Prelude.{◌≡◌, ℕ, true};
ghost use Rattle.tp_model.specs.Words.{ClaimWord, TakenWord, kill_word, round_in};
ghost use Rattle.tp_rule.specs.Words.{pack_claim, claim_value, IsFitClaim};

use crate::bits::{CLAIM_ATTEMPT, CLAIM_KILLED, CLAIM_ROUND, CLAIM_TAKEN, CLAIM_UNIT};
use crate::packing::{Claim, Head, UnitWord};

/// A claim as it was found: the word, which an exchange compares, and what it says.
#[derive(Clone, Copy, Debug, PartialEq, Eq)]
pub struct FoundClaim {
    word: u64,
    /// What the word says.
    pub tells: Claim,
    pub ghost same: { word ≡ pack_claim (claim_value tells) },
}

/// A head as it was found.
#[derive(Clone, Copy, Debug, PartialEq, Eq)]
pub struct FoundHead {
    /// What the word says of the row.
    pub tells: Head,
    /// Where the row has an element or a draft, so many rows right before it have heads of its stage.
    pub tail: u32,
}

/// The word of a unit as it was found.
#[derive(Clone, Copy, Debug, PartialEq, Eq)]
pub struct FoundUnit {
    /// How the unit ended.
    pub tells: UnitWord,
    /// Where the unit is committed, so many units right before it are.
    pub tail: u64,
}

impl FoundClaim {
    /// What was found, of which it is proved that it is a claim word.
    #[inline(always)]
    pub fn read(word: u64) -> FoundClaim
        requires { (w : ClaimWord) × IsFitClaim w × (word ≡ pack_claim w) }
        ensures of_pack { (w : ClaimWord) → IsFitClaim w → word ≡ pack_claim w
            → claim_value result.tells ≡ w }
    {
        FoundClaim {
            word,
            tells: Claim::read(word),
        }
    }

    /// As if this claim had been found.
    pub fn of(tells: Claim) -> FoundClaim
        requires { IsFitClaim (claim_value tells) }
        ensures { result.tells ≡ tells }
    {
        FoundClaim {
            word: tells.pack(),
            tells,
        }
    }

    /// The word that was found.
    #[inline(always)]
    pub fn word(self) -> u64
        ensures { result ≡ pack_claim (claim_value self.tells) }
    {
        self.word
    }

    /// Whether a unit took the element for this attempt in its round. `attempt` is at most 7.
    #[inline(always)]
    pub fn is_attempt(self, attempt: u8) -> bool
        requires found { IsFitClaim (claim_value self.tells) }
        ensures { result ≡ true → (u : ℕ) × (r : ℕ) × (claim_value self.tells ≡ TakenWord attempt u r) }
    {
        self.word % CLAIM_UNIT == CLAIM_TAKEN + CLAIM_ATTEMPT * attempt as u64
    }

    /// The word after a unit has taken the element: the round stays. `attempt` is 1 to 7, `unit` at most
    /// 65534.
    #[inline(always)]
    pub fn taken(self, attempt: u8, unit: u16) -> u64
        requires found { IsFitClaim (claim_value self.tells) }
        requires fits { IsFitClaim (TakenWord attempt unit 0) }
        ensures { result ≡ pack_claim (TakenWord attempt unit (round_in (claim_value self.tells))) }
    {
        let round = self.word / CLAIM_ROUND * CLAIM_ROUND;
        round + CLAIM_UNIT * unit as u64 + CLAIM_ATTEMPT * attempt as u64 + CLAIM_TAKEN
    }

    /// The word after a kill: the attempt, the unit and the round stay.
    #[inline(always)]
    pub fn killed(self) -> u64
        requires { IsFitClaim (claim_value self.tells) }
        ensures { result ≡ pack_claim (kill_word (claim_value self.tells)) }
    {
        self.word / CLAIM_ATTEMPT * CLAIM_ATTEMPT + CLAIM_KILLED
    }
}
