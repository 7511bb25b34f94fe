//! The words of a line, and numbers.
ghost use Rattle.std.specs.Prelude.{◌≡◌, ◌^◌, map, ◌==◌, IfOk, length};
ghost use Rattle.std.specs.List.{slice_split, list_all};
ghost use Rattle.std.specs.Char.{is_ascii_digit};
ghost use Rattle.tp_script.specs.Text.{words, is_numeral, number};

use std::alloc::{AllocError, Global};

/// The parts of a text between the places of a separator.
pub(crate) fn parts(alloc: Global, text: &[u8], separator: u8) -> Result<Vec<&[u8]>, AllocError>
    ensures { IfOk result (λ v. map (λ x. x.now) v.items ≡ slice_split (λ b. b == separator) text.now) }
{
    text.split(|byte| *byte == separator).collect(alloc)
}

/// The words of a line.
pub(crate) fn words(alloc: Global, line: &[u8]) -> Result<Vec<&[u8]>, AllocError>
    ensures { IfOk result (λ v. map (λ x. x.now) v.items ≡ words line.now) }
{
    let mut words = parts(alloc, line, b' ')?;
    words.retain(|word| !word.is_empty());
    Ok(words)
}

// Whether all bytes are digits.
fn all_digits(word: &[u8]) -> bool
    ensures { result ≡ list_all is_ascii_digit word.now }
{
    word.iter().all(|byte| byte.is_ascii_digit())
}

// Whether a word is 1 to 20 digits.
fn is_numeral(word: &[u8]) -> bool
    ensures { result ≡ is_numeral word.now }
{
    !word.is_empty() && word.len() <= 20 && all_digits(word)
}

/// The number of a word of 1 to 20 digits, up to a bound.
pub(crate) fn number(word: &[u8], most: u64) -> Option<u64>
    ensures { result ≡ number most word.now }
{
    if !is_numeral(word) {
        return None;
    }
    let text = str::from_utf8(word).ok()?;
    let n = text.parse::<u64>().ok()?;
    (n <= most).then_some(n)
}
