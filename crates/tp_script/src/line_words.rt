//! What the words of a line say.
ghost use Rattle.tp_model.specs.declared.types.TheConstants.{MAX_OUTPUTS};
ghost use Rattle.std.specs.Prelude.{◌≡◌, ◌≤◌, ◌-◌, ◌^◌, ◌&&◌, map, length, IfOk, IsTrue, nat_le};
ghost use Rattle.std.specs.List.{list_all};
ghost use Rattle.std.specs.Str.{bytes_eq};
ghost use Rattle.tp_script.specs.Reading.{Gives};
ghost use Rattle.tp_script.specs.LineWords.{no_word, one_word, two, three, number_at, is_name, kind_at};
ghost use Rattle.tp_script.specs.LineWords.{act_named};
ghost use Rattle.tp_script.specs.LineWords.{place_at, act_words, act_and_place, key_at, amount_at};
ghost use Rattle.tp_script.specs.LineWords.{has_two_colons};
ghost use Rattle.tp_script.specs.LineWords.{body_numbers};
ghost use Rattle.tp_script.specs.LineWords.{output_at, outputs_at};

use crate::fault::{LineError, LineFault};
use crate::script::Kind;
use crate::text::{number, parts};
use arrayvec::ArrayVec;
use std::alloc::Global;
use tp_model::types::Body;
use tp_server::{Act, AmountFrom, KeyFrom, Output};

/// No word of a line after the first.
pub(crate) fn none(words: &[&[u8]]) -> Result<(), LineError>
    ensures { Gives (λ x. x) result (no_word (map (λ x. x.now) words.now)) }
{
    match words {
        [] => Ok(()),
        _ => Err(LineFault::Syntax.into()),
    }
}

/// The one word of a line after the first.
pub(crate) fn one<'a>(words: &[&'a [u8]]) -> Result<&'a [u8], LineError>
    ensures { Gives (λ x. x.now) result (one_word (map (λ x. x.now) words.now)) }
{
    match words {
        [a] => Ok(*a),
        _ => Err(LineFault::Syntax.into()),
    }
}

/// The two words of a line after the first.
pub(crate) fn two<'a>(words: &[&'a [u8]]) -> Result<(&'a [u8], &'a [u8]), LineError>
    ensures { Gives (λ x. (x.0.now, x.1.now)) result (two (map (λ x. x.now) words.now)) }
{
    match words {
        [a, b] => Ok((*a, *b)),
        _ => Err(LineFault::Syntax.into()),
    }
}

/// The three words of a line after the first.
pub(crate) fn three<'a>(words: &[&'a [u8]]) -> Result<(&'a [u8], &'a [u8], &'a [u8]), LineError>
    ensures { Gives (λ x. (x.0.now, x.1.now, x.2.now)) result (three (map (λ x. x.now) words.now)) }
{
    match words {
        [a, b, c] => Ok((*a, *b, *c)),
        _ => Err(LineFault::Syntax.into()),
    }
}

/// The number of a word, up to a bound.
pub(crate) fn number_at(word: &[u8], most: u64) -> Result<u64, LineError>
    ensures gives { Gives (λ n. n) result (number_at most word.now) }
    ensures bound { IfOk result (λ n. n ≤ most) }
{
    match number(word, most) {
        Some(n) => Ok(n),
        None => Err(LineFault::BadNumber.into()),
    }
}

/// The four words of a body.
#[tactic(auto, unfolding(crate::specs::LineWords::body_numbers))]
pub(crate) fn body_of(words: (&[u8], &[u8], &[u8], &[u8])) -> Result<Body, LineError>
    ensures { Gives (λ body. body) result (body_numbers
        (words.entry.0.now, words.entry.1.now, words.entry.2.now, words.entry.3.now)) }
{
    Ok([
        number_at(words.0, u64::MAX)?,
        number_at(words.1, u64::MAX)?,
        number_at(words.2, u64::MAX)?,
        number_at(words.3, u64::MAX)?,
    ])
}

/// A name as text.
pub(crate) fn name_text(name: &[u8]) -> &str
    requires { IsTrue (is_name name.now) }
    ensures { result.now ≡ name.now }
{
    str::from_utf8(name).unwrap()
}

/// Whether a word is this text.
pub(crate) fn is(word: &[u8], text: &str) -> bool
    ensures { result ≡ bytes_eq word.now text.now }
{
    word == text.as_bytes()
}

/// Whether a word is 1 to 8 small letters.
pub(crate) fn is_name(word: &[u8]) -> bool
    ensures { result ≡ is_name word.now }
{
    !word.is_empty() && word.len() <= 8 && all_letters(word)
}

// Whether all bytes are small letters.
fn all_letters(word: &[u8]) -> bool
    ensures { result ≡ list_all (λ b. nat_le 97 b && nat_le b 122) word.now }
{
    word.iter().all(|byte| (b'a'..=b'z').contains(byte))
}

/// `eager` or `lazy`.
#[tactic(auto, unfolding(crate::specs::LineWords::kind_at))]
pub(crate) fn kind_at(word: &[u8]) -> Result<Kind, LineError>
    ensures { Gives (λ x. x) result (kind_at word.now) }
{
    if is(word, "eager") {
        Ok(Kind::Eager)
    } else if is(word, "lazy") {
        Ok(Kind::Lazy)
    } else {
        Err(LineFault::Syntax.into())
    }
}

// `add`, `take` or `pass`.
#[tactic(auto, unfolding(crate::specs::LineWords::act_named))]
fn act_named(word: &[u8]) -> Result<Act, LineError>
    ensures { Gives (λ x. x) result (act_named word.now) }
{
    if is(word, "add") {
        Ok(Act::Add)
    } else if is(word, "take") {
        Ok(Act::Take)
    } else if is(word, "pass") {
        Ok(Act::Pass)
    } else {
        Err(LineFault::Syntax.into())
    }
}

// The place of the amount in a body: `1`, `2` or `3`.
#[tactic(auto, unfolding(crate::specs::LineWords::place_at))]
fn place_at(word: &[u8]) -> Result<u8, LineError>
    ensures { Gives (λ x. x) result (place_at word.now) }
{
    if is(word, "1") {
        Ok(1)
    } else if is(word, "2") {
        Ok(2)
    } else if is(word, "3") {
        Ok(3)
    } else {
        Err(LineFault::Syntax.into())
    }
}

// An act, and the place of its amount: 1 where none is said.
fn act_words<'a>(parts: &[&'a [u8]]) -> Result<(&'a [u8], &'a [u8]), LineError>
    ensures { Gives (λ x. (x.0.now, x.1.now)) result (act_words (map (λ x. x.now) parts.now)) }
{
    match parts {
        [act] => Ok((*act, b"1".as_slice())),
        [act, place] => Ok((*act, *place)),
        _ => Err(LineFault::Syntax.into()),
    }
}

/// `ACT` or `ACT:PLACE`.
#[tactic(auto, unfolding(crate::specs::LineWords::act_and_place))]
pub(crate) fn act_at(alloc: Global, word: &[u8]) -> Result<(Act, u8), LineError>
    ensures { Gives (λ x. x) result (act_and_place word.now) }
{
    let parts = parts(alloc, word, b':')?;
    let (act, place) = act_words(parts.as_slice())?;
    Ok((act_named(act)?, place_at(place)?))
}

// The key of an output: `same` or a number.
#[tactic(auto, unfolding(crate::specs::LineWords::key_at))]
fn key_at(word: &[u8]) -> Result<KeyFrom, LineError>
    ensures { Gives (λ x. x) result (key_at word.now) }
{
    if is(word, "same") {
        Ok(KeyFrom::Same)
    } else {
        Ok(KeyFrom::Fixed(number_at(word, u64::MAX)?))
    }
}

// The amount of an output: `same`, `after` or a number.
#[tactic(auto, unfolding(crate::specs::LineWords::amount_at))]
fn amount_at(word: &[u8]) -> Result<AmountFrom, LineError>
    ensures { Gives (λ x. x) result (amount_at word.now) }
{
    if is(word, "same") {
        Ok(AmountFrom::Same)
    } else if is(word, "after") {
        Ok(AmountFrom::After)
    } else {
        Ok(AmountFrom::Fixed(number_at(word, u64::MAX)?))
    }
}

// Whether a word has exactly two colons.
fn is_output(word: &[u8]) -> bool
    ensures { result ≡ has_two_colons word.now }
{
    word.iter().filter(|byte| **byte == b':').count() == 2
}

// `STAGE:KEY:AMOUNT`.
#[tactic(auto, unfolding(crate::specs::LineWords::output_at))]
fn output_at(alloc: Global, word: &[u8]) -> Result<Output, LineError>
    ensures { Gives (λ x. x) result (output_at word.now) }
{
    let parts = parts(alloc, word, b':')?;
    let (stage, key, amount) = three(parts.as_slice())?;
    let stage = number_at(stage, 255)? as u8;
    let key = key_at(key)?;
    let amount = amount_at(amount)?;
    Ok(Output { stage, key, amount })
}

/// Whether each word has exactly two colons.
pub(crate) fn all_outputs(words: &[&[u8]]) -> bool
    ensures { result ≡ list_all has_two_colons (map (λ x. x.now) words.now) }
{
    words.iter().all(|word| is_output(word))
}

/// The outputs that words say.
pub(crate) fn outputs_at(alloc: Global, words: &[&[u8]]) -> Result<ArrayVec<Output, 4>, LineError>
    requires { length words.now ≤ MAX_OUTPUTS }
    ensures { Gives (λ v. v.items) result (outputs_at (map (λ x. x.now) words.now)) }
{
    let mut outputs = ArrayVec::new();
    for word in words {
        outputs.push(output_at(alloc, word)?);
    }
    Ok(outputs)
}
