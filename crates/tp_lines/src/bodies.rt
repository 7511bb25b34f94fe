//! Bodies: with a stage, in a word or in words of their own.
ghost use Rattle.std.specs.Prelude.{◌≡◌, map};
ghost use Rattle.tp_script.specs.Commands.{submit_body, submit_words};
ghost use Rattle.tp_script.specs.Drafts.{colons};
ghost use Rattle.tp_script.specs.LineWords.{body_at, body_numbers};
ghost use Rattle.tp_script.specs.Reading.{Gives};
ghost use Rattle.tp_lines.specs.Reading.{submit_view};
ghost use Rattle.tp_lines.specs.Words.{place_at, place_numbers};

use crate::text::parts;
use crate::words::{Five, Four, five, four, long_at, short_at};
use std::alloc::Global;
use tp_model::types::Body;
use tp_script::{LineError, LineFault};

/// The words of a submit line, each in its place.
#[derive(Clone, Copy)]
pub(crate) struct SubmitWords<'a> {
    pub stage: &'a [u8],
    pub key: &'a [u8],
    pub amount: &'a [u8],
    pub word_two: &'a [u8],
    pub word_three: &'a [u8],
}

/// How many colons a word has.
pub(crate) fn colons(word: &[u8]) -> usize
    ensures { result ≡ colons word.now }
{
    word.iter().filter(|byte| **byte == b':').count()
}

/// The four words of a body.
#[tactic(auto, unfolding(tp_script::specs::LineWords::body_numbers))]
fn body_of(words: Four<'_>) -> Result<Body, LineError>
    ensures { Gives (λ body. body) result (body_numbers
        (words.entry.0.now, words.entry.1.now, words.entry.2.now, words.entry.3.now)) }
{
    Ok([
        long_at(words.0)?,
        long_at(words.1)?,
        long_at(words.2)?,
        long_at(words.3)?,
    ])
}

/// `W0:W1:W2:W3`, a whole body.
#[tactic(auto, unfolding(tp_script::specs::LineWords::body_at))]
pub(crate) fn body_at(alloc: Global, word: &[u8]) -> Result<Body, LineError>
    ensures { Gives (λ body. body) result (body_at word.now) }
{
    let parts = parts(alloc, word, b':')?;
    body_of(four(parts.as_slice())?)
}

// The number of a stage, and a body.
#[tactic(auto, unfolding(crate::specs::Words::place_numbers))]
fn place_of(words: Five<'_>) -> Result<(u16, Body), LineError>
    ensures { Gives (λ x. x) result (place_numbers (
      words.entry.0.now,
      words.entry.1.now,
      words.entry.2.now,
      words.entry.3.now,
      words.entry.4.now,
    )) }
{
    let stage = short_at(words.0)?;
    let body = body_of((words.1, words.2, words.3, words.4))?;
    Ok((stage, body))
}

/// `STAGE:W0:W1:W2:W3`
#[tactic(auto, unfolding(crate::specs::Words::place_at))]
pub(crate) fn place_at(alloc: Global, word: &[u8]) -> Result<(u16, Body), LineError>
    ensures { Gives (λ x. x) result (place_at word.now) }
{
    let parts = parts(alloc, word, b':')?;
    place_of(five(parts.as_slice())?)
}

/// STAGE KEY AMOUNT, with words 2 and 3 of the body after; missing ones are 0.
pub(crate) fn submit_words<'a>(words: &[&'a [u8]]) -> Result<SubmitWords<'a>, LineError>
    ensures { Gives submit_view result (submit_words (map (λ x. x.now) words.now)) }
{
    let (stage, key, amount, word_two, word_three) = match words {
        [stage, key, amount] => (stage, key, amount, b"0".as_slice(), b"0".as_slice()),
        [stage, key, amount, two] => (stage, key, amount, *two, b"0".as_slice()),
        [stage, key, amount, two, three] => (stage, key, amount, *two, *three),
        _ => return Err(LineFault::Syntax.into()),
    };
    Ok(SubmitWords {
        stage,
        key,
        amount,
        word_two,
        word_three,
    })
}

impl SubmitWords<'_> {
    /// The body that they say.
    pub(crate) fn body(self) -> Result<Body, LineError>
        ensures { Gives (λ body. body) result (submit_body (submit_view self.entry)) }
    {
        body_of((self.key, self.amount, self.word_two, self.word_three))
    }
}
