//! The line that ends a text, as it is read.
ghost use Rattle.std.specs.Prelude.{◌≡◌, ◌+◌, ◌-◌, ◌<◌, ◌≤◌, ℕ, List, All, drop, get_or, length, take, IfOk, IfSome};
ghost use Rattle.std.specs.Prelude.{IfNone, None, false, true};
ghost use Rattle.sha2.specs.Hashers.{Holds256};
ghost use Rattle.tp_journal.specs.Text.{BeginsElsewhere, IsDigit, end_first, end_last};
ghost use Rattle.tp_journal.specs.Reading.{AreWords, IsEnd};

use sha2::{Digest, Sha256};
use std::alloc::{AllocError, Global};

/// How many bytes stand between the number that tells where a batch begins and the byte that ends it: a
/// space and a digest.
const DIGEST: usize = 65;

/// How many digits bytes begin with.
pub(crate) fn digits(bytes: &[u8]) -> usize
    ensures inside { result ≤ length bytes.now }
    ensures digits { All IsDigit (take result bytes.now) }
    ensures next { result < length bytes.now → IsDigit (get_or bytes.now result 0) → ⊥ }
{
    let mut count = 0;
    while count < bytes.len() && bytes[count].is_ascii_digit() {
        count += 1;
    }
    count
}

/// Where the digits begin with which bytes end.
fn last_digits(bytes: &[u8]) -> usize
    ensures inside { result ≤ length bytes.now }
    ensures digits { All IsDigit (drop result bytes.now) }
    ensures before { 0 < result → IsDigit (get_or bytes.now (result - 1) 0) → ⊥ }
{
    let mut at = bytes.len();
    while at > 0 && bytes[at - 1].is_ascii_digit() {
        at -= 1;
    }
    at
}

/// How the line begins that ends a text of so many bytes.
pub(crate) fn first_words(alloc: Global, count: usize) -> Result<Vec<u8>, AllocError>
    ensures { IfOk result (λ v. v.items ≡ end_first count) }
{
    let words = format!(in alloc; "# {count} ")?;
    Ok(words.into_bytes())
}

/// How it ends behind its words. The hasher was given the text.
pub(crate) fn last_words(
    alloc: Global,
    hasher: &Sha256,
    words: &[u8],
) -> Result<Vec<u8>, AllocError>
    ensures { (text : List ℕ) → Holds256 hasher.now text → IfOk result (λ v. v.items ≡ end_last text words.now) }
{
    let mut hasher = hasher.clone()?;
    hasher.update(words);
    let hex = hex::encode(alloc, &hasher.finalize())?;
    let last = format!(in alloc; "{hex}\u{17}\n")?;
    Ok(last.into_bytes())
}

/// How long the words are with which a line begins: these bytes, digits, and a space.
fn words_len(line: &[u8], first: &[u8]) -> Option<usize>
    ensures some { IfSome result (λ n. AreWords line.now first.now n) }
    ensures none { result ≡ None → (n : ℕ) → AreWords line.now first.now n → ⊥ }
{
    if !line.starts_with(first) {
        return None;
    }
    let rest = &line[first.len()..];
    let count = digits(rest);
    if count >= rest.len() {
        return None;
    }
    if rest[count] != b' ' {
        return None;
    }
    Some(first.len() + count + 1)
}

/// Where the line ends that stands at a place of a text and ends what is before it, if one does. The hasher
/// was given what is before.
pub(crate) fn end_at(
    alloc: Global,
    hasher: &Sha256,
    text: &[u8],
    at: usize,
) -> Result<Option<usize>, AllocError>
    requires at { at ≤ length text.now }
    requires hashed { Holds256 hasher.now (take at text.now) }
    ensures some { IfOk result (λ found. IfSome found (λ end. IsEnd text.now at end)) }
    ensures none { IfOk result (λ found. IfNone found ((end : ℕ) → IsEnd text.now at end → ⊥)) }
    ensures one { IfOk result (λ found. IfSome found (λ end. (m : ℕ) → IsEnd text.now at m → m ≡ end)) }
{
    let first = first_words(alloc, at)?;
    let line = &text[at..];
    let Some(words) = words_len(line, &first) else {
        return Ok(None);
    };
    let last = last_words(alloc, hasher, &line[..words])?;
    if line[words..].starts_with(&last) {
        Ok(Some(at + words + last.len()))
    } else {
        Ok(None)
    }
}

/// Whether an end, up to its last two bytes, says that its batch begins elsewhere than at this place.
pub(crate) fn begins_elsewhere(front: &[u8], begin: &[u8]) -> bool
    ensures told { result ≡ true → BeginsElsewhere begin.now front.now }
    ensures untold { result ≡ false → BeginsElsewhere begin.now front.now → ⊥ }
{
    if front.len() < DIGEST {
        return false;
    }
    let words = &front[..front.len() - DIGEST];
    let at = last_digits(words);
    if at == 0 {
        return false;
    }
    if words[at - 1] != b' ' {
        return false;
    }
    &words[at..] != begin
}
