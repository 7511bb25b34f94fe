//! The outputs of a worker's commit, as its line says them.
ghost use Rattle.std.specs.Prelude.{◌≡◌, ◌≤◌, ◌&&◌, map, length, IfOk, nat_le};
ghost use Rattle.std.specs.List.{list_all};
ghost use Rattle.tp_model.specs.declared.types.TheConstants.{MAX_OUTPUTS};
ghost use Rattle.tp_script.specs.Drafts.{is_draft};
ghost use Rattle.tp_script.specs.Reading.{Gives};
ghost use Rattle.tp_lines.specs.Commands.{draft_words};
ghost use Rattle.tp_lines.specs.Drafts.{draft_at, draft_numbers, drafts_at};
ghost use Rattle.tp_lines.specs.Reading.{submit_view};

use crate::bodies::{SubmitWords, colons, submit_words};
use crate::text::parts;
use crate::words::stage_at;
use arrayvec::ArrayVec;
use std::alloc::Global;
use tp_model::types::MAX_OUTPUTS;
use tp_script::{LineError, LineFault};
use tp_store::draft::Draft;

// Whether a word has two to four colons.
fn is_draft(word: &[u8]) -> bool
    ensures { result ≡ is_draft word.now }
{
    let colons = colons(word);
    colons >= 2 && colons <= 4
}

// Whether each word has two to four colons.
fn all_drafts(words: &[&[u8]]) -> bool
    ensures { result ≡ list_all is_draft (map (λ x. x.now) words.now) }
{
    words.iter().all(|word| is_draft(word))
}

/// The words of drafts: at most four.
pub(crate) fn draft_words<'a>(words: &'a [&'a [u8]]) -> Result<&'a [&'a [u8]], LineError>
    ensures gives { Gives (λ w. map (λ x. x.now) w.now) result (draft_words (map (λ x. x.now) words.now)) }
    ensures few { IfOk result (λ w. length w.now ≤ MAX_OUTPUTS) }
{
    if words.len() > MAX_OUTPUTS || !all_drafts(words) {
        return Err(LineFault::Syntax.into());
    }
    Ok(words)
}

// The numbers of a draft.
#[tactic(auto, unfolding(crate::specs::Drafts::draft_numbers))]
fn draft_of(words: SubmitWords<'_>) -> Result<Draft, LineError>
    ensures { Gives (λ d. d) result (draft_numbers (submit_view words.entry)) }
{
    let stage = stage_at(words.stage)?;
    let body = words.body()?;
    match Draft::new(stage, body) {
        Some(draft) => Ok(draft),
        None => unreachable!(),
    }
}

// `STAGE:W0:W1`, with words 2 and 3 after.
#[tactic(auto, unfolding(crate::specs::Drafts::draft_at))]
fn draft_at(alloc: Global, word: &[u8]) -> Result<Draft, LineError>
    ensures { Gives (λ d. d) result (draft_at word.now) }
{
    let parts = parts(alloc, word, b':')?;
    draft_of(submit_words(parts.as_slice())?)
}

/// The drafts that words say.
pub(crate) fn drafts_at(alloc: Global, words: &[&[u8]]) -> Result<ArrayVec<Draft, 4>, LineError>
    requires { length words.now ≤ MAX_OUTPUTS }
    ensures { Gives (λ v. v.items) result (drafts_at (map (λ x. x.now) words.now)) }
{
    let mut drafts = ArrayVec::new();
    for word in words {
        drafts.push(draft_at(alloc, word)?);
    }
    Ok(drafts)
}
