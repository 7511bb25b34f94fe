//! What the words of a line say: names and numbers.
ghost use Rattle.std.specs.Prelude.{◌≡◌, ◌≤◌, map, IfOk};
ghost use Rattle.std.specs.Str.{bytes_eq};
ghost use Rattle.tp_script.specs.LineWords.{four, no_word, number_at, one_word, ordinal_at, three, two};
ghost use Rattle.tp_script.specs.Reading.{Gives};
ghost use Rattle.tp_store.specs.declared.element.TheConstants.{LAST_STAGE};
ghost use Rattle.tp_lines.specs.Words.{five, long_at, name_and_number, name_and_two, name_at, number_unless};
ghost use Rattle.tp_lines.specs.Words.{one_name, one_number, short_at, stage_at, three_numbers};
ghost use Rattle.tp_lines.specs.Words.{worker_stage_at};

use crate::name::Name;
use crate::text::number;
use tp_script::{LineError, LineFault};
use tp_store::element::{LAST_STAGE, REPLY_STAGE};

// ---- how many words there are

/// No word of a line after the first.
pub(crate) fn none(words: &[&[u8]]) -> Result<(), LineError>
    ensures { Gives (λ x. x) result (no_word (map (λ x. x.now) words.now)) }
{
    match words {
        [] => Ok(()),
        _ => Err(LineFault::Syntax.into()),
    }
}

/// One word.
pub(crate) fn one<'a>(words: &[&'a [u8]]) -> Result<&'a [u8], LineError>
    ensures { Gives (λ x. x.now) result (one_word (map (λ x. x.now) words.now)) }
{
    match words {
        [a] => Ok(*a),
        _ => Err(LineFault::Syntax.into()),
    }
}

/// Two words.
pub(crate) fn two<'a>(words: &[&'a [u8]]) -> Result<(&'a [u8], &'a [u8]), LineError>
    ensures { Gives (λ x. (x.0.now, x.1.now)) result (two (map (λ x. x.now) words.now)) }
{
    match words {
        [a, b] => Ok((*a, *b)),
        _ => Err(LineFault::Syntax.into()),
    }
}

/// Three words.
pub(crate) fn three<'a>(words: &[&'a [u8]]) -> Result<(&'a [u8], &'a [u8], &'a [u8]), LineError>
    ensures { Gives (λ x. (x.0.now, x.1.now, x.2.now)) result (three (map (λ x. x.now) words.now)) }
{
    match words {
        [a, b, c] => Ok((*a, *b, *c)),
        _ => Err(LineFault::Syntax.into()),
    }
}

/// Four words, one after the other.
pub(crate) type Four<'a> = (&'a [u8], &'a [u8], &'a [u8], &'a [u8]);

/// Four words.
pub(crate) fn four<'a>(words: &[&'a [u8]]) -> Result<Four<'a>, LineError>
    ensures { Gives (λ x. (x.0.now, x.1.now, x.2.now, x.3.now)) result (four (map (λ x. x.now) words.now)) }
{
    match words {
        [a, b, c, d] => Ok((*a, *b, *c, *d)),
        _ => Err(LineFault::Syntax.into()),
    }
}

/// Five words, one after the other.
pub(crate) type Five<'a> = (&'a [u8], &'a [u8], &'a [u8], &'a [u8], &'a [u8]);

/// Five words.
pub(crate) fn five<'a>(words: &[&'a [u8]]) -> Result<Five<'a>, LineError>
    ensures { Gives (λ x. (x.0.now, x.1.now, x.2.now, x.3.now, x.4.now)) result
        (five (map (λ x. x.now) words.now)) }
{
    match words {
        [a, b, c, d, e] => Ok((*a, *b, *c, *d, *e)),
        _ => Err(LineFault::Syntax.into()),
    }
}

// ---- what a word says

/// Whether a word is this text.
pub(crate) fn is(word: &[u8], text: &str) -> bool
    ensures { result ≡ bytes_eq word.now text.now }
{
    word == text.as_bytes()
}

/// A name.
pub(crate) fn name_at(word: &[u8]) -> Result<Name, LineError>
    ensures { Gives (λ n. n) result (name_at word.now) }
{
    match Name::of(word) {
        Some(name) => Ok(name),
        None => Err(LineFault::BadName.into()),
    }
}

/// A number, up to a bound.
pub(crate) fn number_at(word: &[u8], most: u64) -> Result<u64, LineError>
    ensures gives { Gives (λ n. n) result (number_at most word.now) }
    ensures bound { IfOk result (λ n. n ≤ most) }
{
    match number(word, most) {
        Some(n) => Ok(n),
        None => Err(LineFault::BadNumber.into()),
    }
}

/// A number of 64 bits.
pub(crate) fn long_at(word: &[u8]) -> Result<u64, LineError>
    ensures { Gives (λ n. n) result (long_at word.now) }
{
    number_at(word, u64::MAX)
}

/// A number of 16 bits.
pub(crate) fn short_at(word: &[u8]) -> Result<u16, LineError>
    ensures { Gives (λ n. n) result (short_at word.now) }
{
    let n = number_at(word, u64::from(u16::MAX))?;
    Ok(n as u16)
}

/// A number of 8 bits.
pub(crate) fn byte_at(word: &[u8]) -> Result<u8, LineError>
    ensures { Gives (λ n. n) result (number_at 255 word.now) }
{
    let n = number_at(word, 255)?;
    Ok(n as u8)
}

/// A number that counts from 1.
#[tactic(auto, unfolding(tp_script::specs::LineWords::ordinal_at))]
pub(crate) fn ordinal_at(word: &[u8]) -> Result<u64, LineError>
    ensures { Gives (λ n. n) result (ordinal_at word.now) }
{
    let n = long_at(word)?;
    if n < 1 {
        return Err(LineFault::BadNumber.into());
    }
    Ok(n)
}

/// A stage, 1 to 999.
#[tactic(auto, unfolding(crate::specs::Words::stage_at))]
pub(crate) fn stage_at(word: &[u8]) -> Result<u16, LineError>
    ensures gives { Gives (λ n. n) result (stage_at word.now) }
    ensures bounds { IfOk result (λ n. (1 ≤ n) × (n ≤ LAST_STAGE)) }
{
    let stage = number_at(word, u64::from(LAST_STAGE))?;
    if stage < 1 {
        return Err(LineFault::BadNumber.into());
    }
    Ok(stage as u16)
}

/// A stage that workers take from.
#[tactic(auto, unfolding(crate::specs::Words::worker_stage_at))]
pub(crate) fn worker_stage_at(word: &[u8]) -> Result<u16, LineError>
    ensures { Gives (λ n. n) result (worker_stage_at word.now) }
{
    let stage = stage_at(word)?;
    if stage == REPLY_STAGE {
        return Err(LineFault::BadNumber.into());
    }
    Ok(stage)
}

/// A number, or this word where there is none.
#[tactic(auto, unfolding(crate::specs::Words::number_unless))]
pub(crate) fn number_unless(none: &str, word: &[u8]) -> Result<Option<u64>, LineError>
    ensures { Gives (λ n. n) result (number_unless none.now word.now) }
{
    if is(word, none) {
        return Ok(None);
    }
    let n = long_at(word)?;
    Ok(Some(n))
}

// ---- all the words after the first

/// A name.
pub(crate) fn one_name(words: &[&[u8]]) -> Result<Name, LineError>
    ensures { Gives (λ n. n) result (one_name (map (λ x. x.now) words.now)) }
{
    name_at(one(words)?)
}

/// A number.
pub(crate) fn one_number(words: &[&[u8]]) -> Result<u64, LineError>
    ensures { Gives (λ n. n) result (one_number (map (λ x. x.now) words.now)) }
{
    long_at(one(words)?)
}

/// Three numbers.
#[tactic(auto, unfolding(crate::specs::Words::three_numbers))]
pub(crate) fn three_numbers(words: &[&[u8]]) -> Result<(u64, u64, u64), LineError>
    ensures { Gives (λ n. n) result (three_numbers (map (λ x. x.now) words.now)) }
{
    let words = three(words)?;
    let a = long_at(words.0)?;
    let b = long_at(words.1)?;
    let c = long_at(words.2)?;
    Ok((a, b, c))
}

/// A name and a number.
#[tactic(auto, unfolding(crate::specs::Words::name_and_number))]
pub(crate) fn name_and_number(words: &[&[u8]]) -> Result<(Name, u64), LineError>
    ensures { Gives (λ x. x) result (name_and_number (map (λ x. x.now) words.now)) }
{
    let words = two(words)?;
    let name = name_at(words.0)?;
    let n = long_at(words.1)?;
    Ok((name, n))
}

/// A name and two numbers.
#[tactic(auto, unfolding(crate::specs::Words::name_and_two))]
pub(crate) fn name_and_two(words: &[&[u8]]) -> Result<(Name, u64, u64), LineError>
    ensures { Gives (λ x. x) result (name_and_two (map (λ x. x.now) words.now)) }
{
    let words = three(words)?;
    let name = name_at(words.0)?;
    let a = long_at(words.1)?;
    let b = long_at(words.2)?;
    Ok((name, a, b))
}
