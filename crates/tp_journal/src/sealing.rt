//! The line that ends a text, and the longest front of a text that has its end.
ghost use Rattle.std.specs.Prelude.{◌≡◌, ◌⊎◌, ◌+◌, ◌<◌, ◌≤◌, ◌^◌, ◌++◌, ℕ, List, decimal, drop, get_or, length};
ghost use Rattle.std.specs.Prelude.{IfOk, IsErrOf, OnOk, take};
ghost use Rattle.tp_journal.specs.declared.batch.Refusal.{Refusal};
ghost use Rattle.sha2.specs.Hashers.{Holds256};
ghost use Rattle.tp_journal.specs.Text.{HasSealed, IsBatch, IsFrontOf, end_line, first_line, sealed_batch};
ghost use Rattle.tp_journal.specs.Text.{with_batch};
ghost use Rattle.tp_journal.specs.Reading.{IsEnd};

use crate::AppendError;
use crate::batch::check;
use crate::ends::{end_at, first_words, last_words};
use sha2::{Digest, Sha256};
use std::alloc::{AllocError, Global};

/// The first line of a journal.
pub const FIRST_LINE: &[u8] = b"# covetrivet journal 4\n";

/// The line that ends a text of so many bytes, which the hasher has been given. Its last batch begins behind
/// so many.
#[tactic(auto, unfolding(crate::specs::Text::end_line))]
fn end_line(
    alloc: Global,
    hasher: &Sha256,
    begin: usize,
    count: usize,
) -> Result<Vec<u8>, AllocError>
    ensures { (text : List ℕ) → Holds256 hasher.now text → length text ≡ count
        → IfOk result (λ line. line.items ≡ end_line (decimal begin) text) }
{
    let mut line = first_words(alloc, count)?;
    let begin = format!(in alloc; "{begin} ")?;
    line.extend_from_slice(begin.as_bytes())?;
    let last = last_words(alloc, hasher, &line)?;
    line.extend_from_slice(&last)?;
    Ok(line)
}

/// A hasher that was given these bytes.
pub(crate) fn hasher_of(bytes: &[u8]) -> Sha256
    ensures { Holds256 result bytes.now }
{
    let mut hasher = Sha256::new();
    hasher.update(bytes);
    hasher
}

/// A batch with its end, and a hasher that was given the text up to there.
#[derive(Drop)]
pub(crate) struct Ready {
    pub(crate) bytes: Vec<u8>,
    pub(crate) hasher: Sha256,
}

/// Ends a batch behind a text of so many bytes, which the hasher has been given.
pub(crate) fn seal(
    alloc: Global,
    hasher: &Sha256,
    end: usize,
    batch: &[u8],
) -> Result<Ready, AppendError>
    requires { end + length batch.now < 2 ^ 64 }
    ensures accepted { OnOk result (IsBatch batch.now) }
    ensures refused { (why : Refusal) → IsErrOf result (AppendError.Refused why) → IsBatch batch.now → ⊥ }
    ensures bytes { (text : List ℕ) → Holds256 hasher.now text → length text ≡ end
        → IfOk result (λ ready. ready.bytes.items ≡ sealed_batch text batch.now) }
    ensures hasher { (text : List ℕ) → Holds256 hasher.now text → length text ≡ end
        → IfOk result (λ ready. Holds256 ready.hasher (with_batch text batch.now)) }
    ensures not_failed { IsErrOf result AppendError.Failed → ⊥ }
    ensures not_poisoned { IsErrOf result AppendError.Poisoned → ⊥ }
    ensures not_full { IsErrOf result AppendError.Full → ⊥ }
{
    if let Err(refusal) = check(batch) {
        return Err(AppendError::Refused(refusal));
    }
    let mut hasher = hasher.clone()?;
    hasher.update(batch);
    let line = end_line(alloc, &hasher, end, end + batch.len())?;
    hasher.update(&line);
    let mut bytes = batch.to_vec(alloc)?;
    bytes.extend_from_slice(&line)?;
    Ok(Ready { bytes, hasher })
}

/// How long the longest sealed front of a text is that has the first line.
pub(crate) fn sealed_len(alloc: Global, text: &[u8]) -> Result<usize, AllocError>
    requires { IsFrontOf text.now first_line }
    ensures inside { IfOk result (λ count. count ≤ length text.now) }
    ensures sealed { IfOk result (λ count. HasSealed text.now (take count text.now)) }
{
    let mut count = FIRST_LINE.len();
    let mut at = next_mark(text, FIRST_LINE.len());
    let mut hasher = hasher_of(&text[..at]);
    while at < text.len() {
        count = longer(alloc, &hasher, text, at, count)?;
        let next = next_mark(text, at + 1);
        hasher.update(&text[at..next]);
        at = next;
    }
    Ok(count)
}

/// Where the next `#` stands, at this place or behind it, or where the text is over.
fn next_mark(text: &[u8], from: usize) -> usize
    requires { from ≤ length text.now }
    ensures from { from ≤ result }
    ensures inside { result ≤ length text.now }
    ensures none { (k : ℕ) → from ≤ k → k < result → get_or text.now k 0 ≡ 35 → ⊥ }
{
    let mut at = from;
    while at < text.len() && text[at] != b'#' {
        at += 1;
    }
    at
}

/// How long the longer front is: this many bytes, or up to the end of a line that ends what is before this
/// place, if that stands there.
fn longer(
    alloc: Global,
    hasher: &Sha256,
    text: &[u8],
    at: usize,
    count: usize,
) -> Result<usize, AllocError>
    requires at { at ≤ length text.now }
    requires count { count ≤ length text.now }
    requires hashed { Holds256 hasher.now (take at text.now) }
    ensures inside { IfOk result (λ n. n ≤ length text.now) }
    ensures no_less { IfOk result (λ n. count ≤ n) }
    ensures which { IfOk result (λ n. (n ≡ count) ⊎ IsEnd text.now at n) }
    ensures end { IfOk result (λ n. (m : ℕ) → IsEnd text.now at m → m ≤ n) }
{
    match end_at(alloc, hasher, text, at)? {
        Some(end) => Ok(count.max(end)),
        None => Ok(count),
    }
}
