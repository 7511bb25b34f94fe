//! The lines that say what there is.
ghost use Rattle.std.specs.Prelude.{◌≡◌, map};
ghost use Rattle.tp_script.specs.Reading.{Gives};
ghost use Rattle.tp_lines.specs.Heads.{hand_of, hand_said, head_said, keep_said, limit_said};
ghost use Rattle.tp_lines.specs.Heads.{register_said, settled_said, worker_said};

use crate::clients::client_said;
use crate::elements::element_words;
use crate::ends::ended_said;
use crate::keyword::HeadVerb;
use crate::line::HeadLine;
use crate::servers::server_said;
use crate::words::{
    Four, is, long_at, name_and_number, name_and_two, name_at, one_name, one_number, short_at,
    three, three_numbers, two, worker_stage_at,
};
use std::alloc::Global;
use tp_model::types::MAX_ATTEMPTS;
use tp_script::{LineError, LineFault};

// `limit N`
#[tactic(auto, unfolding(crate::specs::Heads::limit_said))]
fn limit_said(words: &[&[u8]]) -> Result<HeadLine, LineError>
    ensures { Gives (λ x. x) result (limit_said (map (λ x. x.now) words.now)) }
{
    let n = one_number(words)?;
    if n < 1 || n > u64::from(MAX_ATTEMPTS) {
        return Err(LineFault::BadLimits.into());
    }
    Ok(HeadLine::Limit { attempts: n as u8 })
}

// `keep N`
#[tactic(auto, unfolding(crate::specs::Heads::keep_said))]
fn keep_said(words: &[&[u8]]) -> Result<HeadLine, LineError>
    ensures { Gives (λ x. x) result (keep_said (map (λ x. x.now) words.now)) }
{
    let requests = one_number(words)?;
    if requests < 1 {
        return Err(LineFault::BadLimits.into());
    }
    Ok(HeadLine::Keep { requests })
}

// `worker NAME STAGE`
#[tactic(auto, unfolding(crate::specs::Heads::worker_said))]
fn worker_said(words: &[&[u8]]) -> Result<HeadLine, LineError>
    ensures { Gives (λ x. x) result (worker_said (map (λ x. x.now) words.now)) }
{
    let words = two(words)?;
    let name = name_at(words.0)?;
    let stage = worker_stage_at(words.1)?;
    Ok(HeadLine::Worker { name, stage })
}

// `settled STAGE CONSUMED KILLED`
#[tactic(auto, unfolding(crate::specs::Heads::settled_said))]
fn settled_said(words: &[&[u8]]) -> Result<HeadLine, LineError>
    ensures { Gives (λ x. x) result (settled_said (map (λ x. x.now) words.now)) }
{
    let words = three(words)?;
    let stage = short_at(words.0)?;
    let consumed = long_at(words.1)?;
    let killed = long_at(words.2)?;
    Ok(HeadLine::Settled {
        stage,
        consumed,
        killed,
    })
}

// `register NAME`, or `register NAME new`
fn register_said(words: &[&[u8]]) -> Result<HeadLine, LineError>
    ensures { Gives (λ x. x) result (register_said (map (λ x. x.now) words.now)) }
{
    match words {
        [name] => {
            let name = name_at(name)?;
            Ok(HeadLine::Register { name })
        }
        [name, how] => {
            if !is(how, "new") {
                return Err(LineFault::Syntax.into());
            }
            let name = name_at(name)?;
            Ok(HeadLine::Renew { name })
        }
        _ => Err(LineFault::Syntax.into()),
    }
}

// `hand NAME ID UNIT TRY`
#[tactic(auto, unfolding(crate::specs::Heads::hand_of))]
fn hand_of(words: Four<'_>) -> Result<HeadLine, LineError>
    ensures { Gives (λ x. x) result (hand_of (
      words.entry.0.now,
      words.entry.1.now,
      words.entry.2.now,
      words.entry.3.now,
    )) }
{
    let name = name_at(words.0)?;
    let id = long_at(words.1)?;
    let unit = long_at(words.2)?;
    let tries = short_at(words.3)?;
    Ok(HeadLine::Hand {
        name,
        id,
        unit,
        tries,
    })
}

// The same; TRY is 0 where it is missing.
fn hand_said(words: &[&[u8]]) -> Result<HeadLine, LineError>
    ensures { Gives (λ x. x) result (hand_said (map (λ x. x.now) words.now)) }
{
    match words {
        [name, id, unit] => hand_of((*name, *id, *unit, b"0".as_slice())),
        [name, id, unit, tries] => hand_of((*name, *id, *unit, *tries)),
        _ => Err(LineFault::Syntax.into()),
    }
}

/// What a line of this first word says, by the words after it.
pub(crate) fn head_said(
    alloc: Global,
    verb: HeadVerb,
    words: &[&[u8]],
) -> Result<HeadLine, LineError>
    ensures { Gives (λ x. x) result (head_said verb (map (λ x. x.now) words.now)) }
{
    match verb {
        HeadVerb::Limit => limit_said(words),
        HeadVerb::Max => {
            let elements = one_number(words)?;
            Ok(HeadLine::Max { elements })
        }
        HeadVerb::Keep => keep_said(words),
        HeadVerb::Server => Ok(HeadLine::Server(server_said(alloc, words)?)),
        HeadVerb::Start => {
            let (name, k, value) = name_and_two(words)?;
            Ok(HeadLine::Start { name, k, value })
        }
        HeadVerb::Worker => worker_said(words),
        HeadVerb::Register => register_said(words),
        HeadVerb::Numbers => {
            let (next, units, owners) = three_numbers(words)?;
            Ok(HeadLine::Numbers {
                next,
                units,
                owners,
            })
        }
        HeadVerb::Element => element_words(words)?.element(alloc),
        HeadVerb::Over => {
            let root = one_number(words)?;
            Ok(HeadLine::Over { root })
        }
        HeadVerb::Settled => settled_said(words),
        HeadVerb::Hand => hand_said(words),
        HeadVerb::Prepared => {
            let name = one_name(words)?;
            Ok(HeadLine::Prepared { name })
        }
        HeadVerb::Dropped => {
            let name = one_name(words)?;
            Ok(HeadLine::Dropped { name })
        }
        HeadVerb::From => {
            let (name, id) = name_and_number(words)?;
            Ok(HeadLine::From { name, id })
        }
        HeadVerb::Ended => ended_said(words),
        HeadVerb::Client => client_said(alloc, words),
    }
}
