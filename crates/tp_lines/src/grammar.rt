//! What a line says.
ghost use Rattle.std.specs.Prelude.{◌≡◌, ◌&&◌, map, nat_le};
ghost use Rattle.std.specs.List.{list_all};
ghost use Rattle.tp_script.specs.declared.fault.LineFault.TheVariants.{Syntax};
ghost use Rattle.tp_script.specs.Grammar.{is_comment};
ghost use Rattle.tp_script.specs.LineWords.{known};
ghost use Rattle.tp_script.specs.Reading.{Gives};
ghost use Rattle.tp_lines.specs.Grammar.{keyword_said, line_said, line_words, words_said};
ghost use Rattle.tp_lines.specs.Keyword.{keyword};

use crate::commands::command_said;
use crate::heads::head_said;
use crate::keyword::Keyword;
use crate::line::Line;
use crate::text::words;
use crate::words::none;
use std::alloc::Global;
use tp_script::{LineError, LineFault};

/// How many bytes a line has at most.
pub const MAX_LINE: usize = 1_023;

// Whether a line begins with `#`.
fn is_comment(line: &[u8]) -> bool
    ensures { result ≡ is_comment line.now }
{
    line.first() == Some(&b'#')
}

// Whether each byte of a line is a space or visible.
fn all_allowed(line: &[u8]) -> bool
    ensures { result ≡ list_all (λ b. nat_le 32 b && nat_le b 126) line.now }
{
    line.iter().all(|byte| (32..=126).contains(byte))
}

// The words of a line; a comment has none.
#[tactic(auto, unfolding(crate::specs::Grammar::line_words))]
fn line_words(alloc: Global, bytes: &[u8]) -> Result<Vec<&[u8]>, LineError>
    ensures { Gives (λ v. map (λ x. x.now) v.items) result (line_words bytes.now) }
{
    if bytes.len() > MAX_LINE {
        return Err(LineFault::TooLong.into());
    }
    if !all_allowed(bytes) {
        return Err(LineFault::Syntax.into());
    }
    if is_comment(bytes) {
        return Ok(Vec::new(alloc));
    }
    Ok(words(alloc, bytes)?)
}

// What a word is as the first of a line.
fn first_word(word: &[u8]) -> Result<Keyword, LineError>
    ensures { Gives (λ k. k) result (known (keyword word.now) Syntax) }
{
    match Keyword::of(word) {
        Some(keyword) => Ok(keyword),
        None => Err(LineFault::Syntax.into()),
    }
}

// What a line of this first word says, by the words after it.
fn keyword_said(alloc: Global, keyword: Keyword, words: &[&[u8]]) -> Result<Line, LineError>
    ensures { Gives (λ l. l) result (keyword_said keyword (map (λ x. x.now) words.now)) }
{
    match keyword {
        Keyword::Head(verb) => Ok(Line::Head(head_said(alloc, verb, words)?)),
        Keyword::Do(verb) => Ok(Line::Do(command_said(alloc, verb, words)?)),
        Keyword::Version => {
            none(words)?;
            Ok(Line::Version)
        }
    }
}

// What these words say.
#[tactic(auto, unfolding(crate::specs::Grammar::words_said))]
fn words_said(alloc: Global, words: &[&[u8]]) -> Result<Line, LineError>
    ensures { Gives (λ l. l) result (words_said (map (λ x. x.now) words.now)) }
{
    match words {
        [] => Ok(Line::Nothing),
        [first, others @ ..] => {
            let keyword = first_word(first)?;
            keyword_said(alloc, keyword, others)
        }
    }
}

/// What a line says, without its end: at most 1,023 bytes. Fails with its first fault, or where there is no
/// memory for its words.
pub fn read_line(alloc: Global, bytes: &[u8]) -> Result<Line, LineError>
    ensures { Gives (λ l. l) result (line_said bytes.now) }
{
    let words = line_words(alloc, bytes)?;
    words_said(alloc, words.as_slice())
}
