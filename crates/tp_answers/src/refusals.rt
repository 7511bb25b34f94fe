//! Why a call was refused, by number and by name.
ghost use Rattle.std.specs.Prelude.{◌≡◌};
ghost use Rattle.std.specs.Fmt.{WritesOnOk};
ghost use Rattle.tp_answers.specs.Refusals.{refusal_name, refusal_number, refusal_text};

use std::fmt;
use tp_store::answers::Refusal;

/// The name of the reason.
pub(crate) fn refusal_name<W: fmt::Write>(f: &mut fmt::Formatter<W>, why: Refusal) -> fmt::Result
    ensures { WritesOnOk W.write_str_gives f.old result (refusal_name why) f.new }
{
    match why {
        Refusal::NoMemory => write!(f, "NoMemory"),
        Refusal::NoNumber => write!(f, "NoNumber"),
        Refusal::BadStage => write!(f, "BadStage"),
        Refusal::NotThere => write!(f, "NotThere"),
        Refusal::Consumed { unit } => write!(f, "Consumed {unit}"),
        Refusal::AlreadyKilled => write!(f, "AlreadyKilled"),
        Refusal::Full => write!(f, "Full"),
        Refusal::NotParked => write!(f, "NotParked"),
        Refusal::NoRound => write!(f, "NoRound"),
        Refusal::NotHeld => write!(f, "NotHeld"),
        Refusal::NotWaiting => write!(f, "NotWaiting"),
        Refusal::Unsound => write!(f, "Unsound"),
    }
}

// The number of that reason.
fn refusal_number(why: Refusal) -> u8
    ensures { result ≡ refusal_number why }
{
    match why {
        Refusal::NoMemory => 1,
        Refusal::NoNumber => 2,
        Refusal::BadStage => 3,
        Refusal::NotThere => 4,
        Refusal::Consumed { .. } => 5,
        Refusal::AlreadyKilled => 6,
        Refusal::Full => 7,
        Refusal::NotParked => 8,
        Refusal::NoRound => 9,
        Refusal::NotWaiting => 10,
        Refusal::NotHeld => 12,
        Refusal::Unsound => 14,
    }
}

/// A refused call.
pub(crate) fn refusal<W: fmt::Write>(f: &mut fmt::Formatter<W>, why: Refusal) -> fmt::Result
    ensures { WritesOnOk W.write_str_gives f.old result (refusal_text why) f.new }
{
    let number = refusal_number(why);
    write!(f, "refused {number} ")?;
    refusal_name(f, why)
}
