//! What a line names so that only the one who is meant does it: a worker's work, and a client's epoch.
ghost use Rattle.std.specs.Prelude.{◌≡◌, map};
ghost use Rattle.tp_script.specs.Reading.{Gives};
ghost use Rattle.tp_lines.specs.Fences.{fence_numbers, fence_words, is_fence, long_if, name_if, name_unless};
ghost use Rattle.tp_lines.specs.Fences.{who_of, who_words};
ghost use Rattle.tp_lines.specs.Reading.{word_if};

use crate::line::Fence;
use crate::name::Name;
use crate::text::parts;
use crate::words::{is, long_at, name_at, short_at, two};
use std::alloc::Global;
use tp_script::{LineError, LineFault};

// ---- `=ID:TRY`

/// Whether a word names work.
pub(crate) fn is_fence(word: &[u8]) -> bool
    ensures { result ≡ is_fence word.now }
{
    match word {
        [] => false,
        [first, ..] => *first == b'=',
    }
}

/// The words of its numbers.
pub(crate) fn fence_words(alloc: Global, word: &[u8]) -> Result<(&[u8], &[u8]), LineError>
    ensures { Gives (λ x. (x.0.now, x.1.now)) result (fence_words word.now) }
{
    let Some((first, rest)) = word.split_first() else {
        return Err(LineFault::Syntax.into());
    };
    if *first != b'=' {
        return Err(LineFault::Syntax.into());
    }
    let parts = parts(alloc, rest, b':')?;
    two(parts.as_slice())
}

/// Its numbers.
#[tactic(auto, unfolding(crate::specs::Fences::fence_numbers))]
pub(crate) fn fence_numbers(words: (&[u8], &[u8])) -> Result<Fence, LineError>
    ensures { Gives (λ x. x) result (fence_numbers (words.entry.0.now, words.entry.1.now)) }
{
    let id = long_at(words.0)?;
    let tries = short_at(words.1)?;
    Ok(Fence { id, tries })
}

// ---- `NAME/EPOCH`

/// The words of a name and of an epoch, which may be missing.
pub(crate) type Who<'a> = (&'a [u8], Option<&'a [u8]>);

// The words between the strokes.
fn who_of<'a>(words: &[&'a [u8]]) -> Result<Who<'a>, LineError>
    ensures { Gives (λ x. (x.0.now, word_if x.1)) result (who_of (map (λ x. x.now) words.now)) }
{
    match words {
        [name] => Ok((*name, None)),
        [name, epoch] => Ok((*name, Some(*epoch))),
        _ => Err(LineFault::Syntax.into()),
    }
}

/// The words of a name and of an epoch.
pub(crate) fn who_words(alloc: Global, word: &[u8]) -> Result<Who<'_>, LineError>
    ensures { Gives (λ x. (x.0.now, word_if x.1)) result (who_words word.now) }
{
    let parts = parts(alloc, word, b'/')?;
    who_of(parts.as_slice())
}

// ---- words that may be missing

/// A number of 64 bits.
pub(crate) fn long_if(word: Option<&[u8]>) -> Result<Option<u64>, LineError>
    ensures { Gives (λ x. x) result (long_if (word_if word.entry)) }
{
    match word {
        None => Ok(None),
        Some(word) => Ok(Some(long_at(word)?)),
    }
}

/// A name.
pub(crate) fn name_if(word: Option<&[u8]>) -> Result<Option<Name>, LineError>
    ensures { Gives (λ x. x) result (name_if (word_if word.entry)) }
{
    match word {
        None => Ok(None),
        Some(word) => Ok(Some(name_at(word)?)),
    }
}

/// A name, or `-` where there is none.
pub(crate) fn name_unless(word: &[u8]) -> Result<Option<Name>, LineError>
    ensures { Gives (λ x. x) result (name_unless word.now) }
{
    if is(word, "-") {
        return Ok(None);
    }
    Ok(Some(name_at(word)?))
}
