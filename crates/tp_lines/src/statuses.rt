//! How an element stands, as its line says it.
ghost use Rattle.std.specs.Prelude.{◌≡◌, map};
ghost use Rattle.tp_script.specs.Reading.{Gives};
ghost use Rattle.tp_lines.specs.Statuses.{attempts_at, held_at, standing_at, standing_numbers, standing_with};
ghost use Rattle.tp_lines.specs.Statuses.{status_of};

use crate::words::{byte_at, is, long_at, none, one, one_number, two};
use tp_script::{LineError, LineFault};
use tp_store::element::Status;

/// How an element stands, by its word.
#[derive(Clone, Copy)]
pub(crate) enum Standing {
    Waiting,
    Held,
    Consumed,
    Parked,
    Killed,
}

// How it stands.
#[tactic(auto, unfolding(crate::specs::Statuses::standing_at))]
fn standing_at(word: &[u8]) -> Result<Standing, LineError>
    ensures { Gives (λ x. x) result (standing_at word.now) }
{
    if is(word, "waiting") {
        Ok(Standing::Waiting)
    } else if is(word, "held") {
        Ok(Standing::Held)
    } else if is(word, "consumed") {
        Ok(Standing::Consumed)
    } else if is(word, "parked") {
        Ok(Standing::Parked)
    } else if is(word, "killed") {
        Ok(Standing::Killed)
    } else {
        Err(LineFault::Syntax.into())
    }
}

impl Standing {
    // How many numbers stand behind its word.
    fn numbers(self) -> usize
        ensures { result ≡ standing_numbers self }
    {
        match self {
            Standing::Waiting => 1,
            Standing::Held => 2,
            Standing::Consumed => 1,
            Standing::Parked => 1,
            Standing::Killed => 0,
        }
    }

    /// The status, by the numbers behind.
    pub(crate) fn status(self, numbers: &[&[u8]]) -> Result<Status, LineError>
        ensures { Gives (λ x. x) result (status_of self (map (λ x. x.now) numbers.now)) }
    {
        match self {
            Standing::Waiting => {
                let attempts = attempts_at(numbers)?;
                Ok(Status::Waiting { attempts })
            }
            Standing::Held => held_at(numbers),
            Standing::Consumed => {
                let unit = one_number(numbers)?;
                Ok(Status::Consumed { unit })
            }
            Standing::Parked => {
                let attempts = attempts_at(numbers)?;
                Ok(Status::Parked { attempts })
            }
            Standing::Killed => {
                none(numbers)?;
                Ok(Status::Killed)
            }
        }
    }
}

/// How it stands, with as many numbers behind as that has.
#[tactic(auto, unfolding(crate::specs::Statuses::standing_with))]
pub(crate) fn standing_with(word: &[u8], numbers: &[&[u8]]) -> Result<Standing, LineError>
    ensures { Gives (λ x. x) result (standing_with word.now (map (λ x. x.now) numbers.now)) }
{
    let standing = standing_at(word)?;
    if numbers.len() != standing.numbers() {
        return Err(LineFault::Syntax.into());
    }
    Ok(standing)
}

// How many attempts there were.
fn attempts_at(numbers: &[&[u8]]) -> Result<u8, LineError>
    ensures { Gives (λ x. x) result (attempts_at (map (λ x. x.now) numbers.now)) }
{
    byte_at(one(numbers)?)
}

// Which unit holds it, and which attempt that is.
#[tactic(auto, unfolding(crate::specs::Statuses::held_at))]
fn held_at(numbers: &[&[u8]]) -> Result<Status, LineError>
    ensures { Gives (λ x. x) result (held_at (map (λ x. x.now) numbers.now)) }
{
    let words = two(numbers)?;
    let unit = long_at(words.0)?;
    let attempt = byte_at(words.1)?;
    Ok(Status::Held { unit, attempt })
}
