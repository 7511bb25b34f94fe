//! The lines that say how workers' last units of work ended.
ghost use Rattle.std.specs.Prelude.{◌≡◌, map};
ghost use Rattle.tp_script.specs.Reading.{Gives};
ghost use Rattle.tp_lines.specs.Ends.{done_at, end_of, ended_said, ended_words, ending_at, ending_numbers};
ghost use Rattle.tp_lines.specs.Ends.{ending_with};

use crate::line::{HeadLine, UnitEnd};
use crate::words::{four, is, long_at, name_at, one_number};
use tp_script::{LineError, LineFault};

/// How a unit of work ended, by its word.
#[derive(Clone, Copy)]
pub(crate) enum Ending {
    Done,
    Aborted,
    Lost,
}

// How it ended.
#[tactic(auto, unfolding(crate::specs::Ends::ending_at))]
fn ending_at(word: &[u8]) -> Result<Ending, LineError>
    ensures { Gives (λ x. x) result (ending_at word.now) }
{
    if is(word, "done") {
        Ok(Ending::Done)
    } else if is(word, "aborted") {
        Ok(Ending::Aborted)
    } else if is(word, "lost") {
        Ok(Ending::Lost)
    } else {
        Err(LineFault::Syntax.into())
    }
}

impl Ending {
    // How many numbers stand behind its word.
    fn numbers(self) -> usize
        ensures { result ≡ ending_numbers self }
    {
        match self {
            Ending::Done => 4,
            Ending::Aborted => 1,
            Ending::Lost => 1,
        }
    }

    // The end, by the numbers behind.
    fn end(self, numbers: &[&[u8]]) -> Result<UnitEnd, LineError>
        ensures { Gives (λ x. x) result (end_of self (map (λ x. x.now) numbers.now)) }
    {
        match self {
            Ending::Done => done_at(numbers),
            Ending::Aborted => {
                let id = one_number(numbers)?;
                Ok(UnitEnd::Aborted { id })
            }
            Ending::Lost => {
                let id = one_number(numbers)?;
                Ok(UnitEnd::Lost { id })
            }
        }
    }
}

// How it ended, with as many numbers behind as that has.
#[tactic(auto, unfolding(crate::specs::Ends::ending_with))]
fn ending_with(word: &[u8], numbers: &[&[u8]]) -> Result<Ending, LineError>
    ensures { Gives (λ x. x) result (ending_with word.now (map (λ x. x.now) numbers.now)) }
{
    let ending = ending_at(word)?;
    if numbers.len() != ending.numbers() {
        return Err(LineFault::Syntax.into());
    }
    Ok(ending)
}

/// The words of an `ended` line: a name, how a unit ended, and the numbers behind.
type EndWords<'a> = (&'a [u8], Ending, &'a [&'a [u8]]);

// NAME, how a unit ended, and the numbers behind.
fn ended_words<'a>(words: &'a [&'a [u8]]) -> Result<EndWords<'a>, LineError>
    ensures { Gives (λ w. (w.0.now, w.1, map (λ x. x.now) w.2.now)) result
        (ended_words (map (λ x. x.now) words.now)) }
{
    let [name, how, numbers @ ..] = words else {
        return Err(LineFault::Syntax.into());
    };
    let ending = ending_with(how, numbers)?;
    Ok((*name, ending, numbers))
}

// ID UNIT FIRST COUNT
#[tactic(auto, unfolding(crate::specs::Ends::done_at))]
fn done_at(numbers: &[&[u8]]) -> Result<UnitEnd, LineError>
    ensures { Gives (λ x. x) result (done_at (map (λ x. x.now) numbers.now)) }
{
    let words = four(numbers)?;
    let id = long_at(words.0)?;
    let unit = long_at(words.1)?;
    let first = long_at(words.2)?;
    let count = long_at(words.3)?;
    Ok(UnitEnd::Done {
        id,
        unit,
        first,
        count,
    })
}

/// `ended NAME ..`
#[tactic(auto, unfolding(crate::specs::Ends::ended_said))]
pub(crate) fn ended_said(words: &[&[u8]]) -> Result<HeadLine, LineError>
    ensures { Gives (λ x. x) result (ended_said (map (λ x. x.now) words.now)) }
{
    let (name, ending, numbers) = ended_words(words)?;
    let name = name_at(name)?;
    let end = ending.end(numbers)?;
    Ok(HeadLine::Ended { name, end })
}
