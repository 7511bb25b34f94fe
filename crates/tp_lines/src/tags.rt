//! Tags in front of lines.
ghost use Rattle.std.specs.Prelude.{◌≡◌, ◌==◌, ◌+◌, ◌<◌, IfSome, length, position, take};
ghost use Rattle.tp_script.specs.Reading.{Gives};
ghost use Rattle.tp_lines.specs.declared.tags.TheConstants.{MAX_TAG};
ghost use Rattle.tp_lines.specs.Tags.{is_tag, said_behind, tag_in, tag_of, word_in};
ghost use Rattle.tp_lines.specs.Reading.{word_if};

use crate::grammar::{MAX_LINE, read_line};
use crate::line::Line;
use crate::name::all_in_name;
use std::alloc::Global;
use tp_script::{LineError, LineFault};

/// How many bytes a tag has at most.
pub const MAX_TAG: usize = 20;

// Whether a word is a tag: 1 to 20 of the bytes that names have.
fn is_tag(word: &[u8]) -> bool
    ensures { result ≡ is_tag word.now }
{
    word.len() >= 1 && word.len() <= MAX_TAG && all_in_name(word)
}

// Where the first space is.
fn space_in(bytes: &[u8]) -> Option<usize>
    ensures place { result ≡ position (λ b. b == 32) bytes.now }
    ensures within { IfSome result (λ i. i < length bytes.now) }
{
    bytes.iter().position(|byte| *byte == b' ')
}

// The bytes before the first space.
fn word_in(bytes: &[u8]) -> &[u8]
    ensures { result.now ≡ word_in bytes.now }
{
    match space_in(bytes) {
        Some(end) => &bytes[..end],
        None => bytes,
    }
}

// The tag that a word is.
fn tag_of(word: &[u8]) -> Option<&[u8]>
    ensures { word_if result ≡ tag_of word.now }
{
    if is_tag(word) { Some(word) } else { None }
}

// No more of these bytes than tells what tag there is.
#[tactic(auto, using(crate::proofs::TagLemmas::no_more))]
fn front(bytes: &[u8]) -> &[u8]
    ensures { result.now ≡ take (MAX_TAG + 1) bytes.now }
{
    if bytes.len() > MAX_TAG + 1 {
        &bytes[..MAX_TAG + 1]
    } else {
        bytes
    }
}

/// The tag of a line, where it begins with `@TAG`. Each line of its answer begins so too.
pub fn tag_in(line: &[u8]) -> Option<&[u8]>
    ensures { word_if result ≡ tag_in line.now }
{
    let Some((first, rest)) = line.split_first() else {
        return None;
    };
    if *first != b'@' {
        return None;
    }
    tag_of(word_in(front(rest)))
}

/// What a line says behind its tag, as `read_line`; the tag counts among its bytes.
#[tactic(auto, using(crate::proofs::TagLemmas::none_past))]
pub fn read_behind(alloc: Global, tag: Option<&[u8]>, line: &[u8]) -> Result<Line, LineError>
    ensures { Gives (λ l. l) result (said_behind (word_if tag.entry) line.now) }
{
    let Some(tag) = tag else {
        return read_line(alloc, line);
    };
    if line.len() > MAX_LINE {
        return Err(LineFault::TooLong.into());
    }
    let place = tag.len() + 2;
    if place < line.len() {
        read_line(alloc, &line[place..])
    } else {
        read_line(alloc, b"".as_slice())
    }
}
