//! The lines that ask for something.
ghost use Rattle.std.specs.Prelude.{◌≡◌, map};
ghost use Rattle.tp_script.specs.Commands.{list_words};
ghost use Rattle.tp_script.specs.Reading.{Gives};
ghost use Rattle.tp_lines.specs.Commands.{abort_fenced, abort_said, command_said, commit_fenced, commit_of};
ghost use Rattle.tp_lines.specs.Commands.{commit_said, deed_of, drain_said, list_of, of_id, receive_of};
ghost use Rattle.tp_lines.specs.Commands.{receive_rest, receive_words, send_of, send_words, standing_alone};
ghost use Rattle.tp_lines.specs.Commands.{submit_of};
ghost use Rattle.tp_lines.specs.Reading.{receive_view, submit_view, word_if};

use crate::bodies::{SubmitWords, submit_words};
use crate::drafts::{draft_words, drafts_at};
use crate::fences::{Who, fence_numbers, fence_words, is_fence, long_if, name_if, who_words};
use crate::keyword::{Alone, Deed, OfId, Verb};
use crate::line::{Act, Command};
use crate::words::{
    is, long_at, name_and_number, name_at, none, one_name, one_number, ordinal_at, short_at,
    stage_at,
};
use std::alloc::Global;
use tp_script::{LineError, LineFault};
use tp_server::Order;

impl OfId {
    // The command of the element or the request with this id.
    fn command(self, id: u64) -> Command
        ensures { result ≡ of_id self id }
    {
        match self {
            OfId::Kill => Command::Kill { id },
            OfId::Cancel => Command::Cancel { root: id },
            OfId::Requeue => Command::Requeue { id },
            OfId::Release => Command::Release { id },
            OfId::Read => Command::Read { id },
            OfId::Reply => Command::Reply { root: id },
            OfId::Collect => Command::Collect { root: id },
            OfId::Family => Command::Family { root: id },
        }
    }
}

impl Alone {
    // The command of one word.
    fn command(self) -> Command
        ensures { result ≡ standing_alone self }
    {
        match self {
            Alone::Errors => Command::Errors,
            Alone::Count => Command::Count,
            Alone::Depth => Command::Depth,
            Alone::Account => Command::Account,
            Alone::Holds => Command::Holds,
            Alone::Dump => Command::Dump,
            Alone::Restore => Command::Restore,
        }
    }
}

impl Deed {
    // What a server or a worker does.
    fn act(self) -> Act
        ensures { result ≡ deed_of self }
    {
        match self {
            Deed::Claim => Act::Claim,
            Deed::Next => Act::Next,
            Deed::Turn => Act::Turn,
            Deed::Prepare => Act::Prepare,
            Deed::Drop => Act::Drop,
        }
    }
}

// `submit STAGE KEY AMOUNT W2 W3`
#[tactic(auto, unfolding(crate::specs::Commands::submit_of))]
fn submit_of(words: SubmitWords<'_>) -> Result<Command, LineError>
    ensures { Gives (λ x. x) result (submit_of (submit_view words.entry)) }
{
    let stage = short_at(words.stage)?;
    let body = words.body()?;
    Ok(Command::Submit { stage, body })
}

// STAGE, and FROM after it; it is 0 where it is missing.
fn list_words<'a>(words: &[&'a [u8]]) -> Result<(&'a [u8], &'a [u8]), LineError>
    ensures { Gives (λ w. (w.0.now, w.1.now)) result (list_words (map (λ x. x.now) words.now)) }
{
    match words {
        [stage] => Ok((*stage, b"0".as_slice())),
        [stage, from] => Ok((*stage, *from)),
        _ => Err(LineFault::Syntax.into()),
    }
}

// `list STAGE FROM`
#[tactic(auto, unfolding(crate::specs::Commands::list_of))]
fn list_of(words: (&[u8], &[u8])) -> Result<Command, LineError>
    ensures { Gives (λ x. x) result (list_of (words.entry.0.now, words.entry.1.now)) }
{
    let stage = stage_at(words.0)?;
    let from = long_at(words.1)?;
    Ok(Command::List { stage, from })
}

// `drain` or `drain next`
fn drain_said(words: &[&[u8]]) -> Result<Command, LineError>
    ensures { Gives (λ x. x) result (drain_said (map (λ x. x.now) words.now)) }
{
    match words {
        [] => Ok(Command::Drain(Order::LeastFirst)),
        [word] => {
            if is(word, "next") {
                Ok(Command::Drain(Order::InTurn))
            } else {
                Err(LineFault::Syntax.into())
            }
        }
        _ => Err(LineFault::Syntax.into()),
    }
}

// `commit NAME OUT..`
#[tactic(auto, unfolding(crate::specs::Commands::commit_of))]
fn commit_of(alloc: Global, name: &[u8], drafts: &[&[u8]]) -> Result<Command, LineError>
    ensures { Gives (λ x. x) result (commit_of name.now (map (λ x. x.now) drafts.now)) }
{
    let drafts = draft_words(drafts)?;
    let name = name_at(name)?;
    let drafts = drafts_at(alloc, drafts)?;
    let act = Act::Commit { drafts };
    Ok(Command::Act { name, act })
}

// `commit NAME =ID:TRY OUT..`
#[tactic(auto, unfolding(crate::specs::Commands::commit_fenced))]
fn commit_fenced(
    alloc: Global,
    name: &[u8],
    fence: &[u8],
    drafts: &[&[u8]],
) -> Result<Command, LineError>
    ensures { Gives (λ x. x) result (commit_fenced name.now fence.now (map (λ x. x.now) drafts.now)) }
{
    let words = fence_words(alloc, fence)?;
    let drafts = draft_words(drafts)?;
    let name = name_at(name)?;
    let fence = fence_numbers(words)?;
    let act = Act::Commit {
        drafts: drafts_at(alloc, drafts)?,
    };
    Ok(Command::Fenced { name, fence, act })
}

// Either of them.
fn commit_said(alloc: Global, words: &[&[u8]]) -> Result<Command, LineError>
    ensures { Gives (λ x. x) result (commit_said (map (λ x. x.now) words.now)) }
{
    let [name, others @ ..] = words else {
        return Err(LineFault::Syntax.into());
    };
    match others {
        [] => commit_of(alloc, name, others),
        [fence, drafts @ ..] => {
            if is_fence(fence) {
                commit_fenced(alloc, name, fence, drafts)
            } else {
                commit_of(alloc, name, others)
            }
        }
    }
}

// `abort NAME =ID:TRY`
#[tactic(auto, unfolding(crate::specs::Commands::abort_fenced))]
fn abort_fenced(alloc: Global, name: &[u8], fence: &[u8]) -> Result<Command, LineError>
    ensures { Gives (λ x. x) result (abort_fenced name.now fence.now) }
{
    let words = fence_words(alloc, fence)?;
    let name = name_at(name)?;
    let fence = fence_numbers(words)?;
    let act = Act::Abort;
    Ok(Command::Fenced { name, fence, act })
}

// `abort NAME`, or that
fn abort_said(alloc: Global, words: &[&[u8]]) -> Result<Command, LineError>
    ensures { Gives (λ x. x) result (abort_said (map (λ x. x.now) words.now)) }
{
    if let [name, fence] = words {
        return abort_fenced(alloc, name, fence);
    }
    let name = one_name(words)?;
    let act = Act::Abort;
    Ok(Command::Act { name, act })
}

// ---- clients that may crash

/// The words of a `send` line: a name and an epoch, a number, and those of a `submit` line.
type SendWords<'a> = (Who<'a>, &'a [u8], SubmitWords<'a>);

// NAME/EPOCH N, and the words of a `submit` line.
#[tactic(auto, unfolding(crate::specs::Commands::send_words))]
fn send_words<'a>(alloc: Global, words: &[&'a [u8]]) -> Result<SendWords<'a>, LineError>
    ensures { Gives (λ w. ((w.0.0.now, word_if w.0.1), w.1.now, submit_view w.2)) result
        (send_words (map (λ x. x.now) words.now)) }
{
    let [name, number, others @ ..] = words else {
        return Err(LineFault::Syntax.into());
    };
    let who = who_words(alloc, name)?;
    let others = submit_words(others)?;
    Ok((who, *number, others))
}

// `send NAME/EPOCH N STAGE KEY AMOUNT W2 W3`
#[tactic(auto, unfolding(crate::specs::Commands::send_of))]
fn send_of(words: SendWords<'_>) -> Result<Command, LineError>
    ensures { Gives (λ x. x) result (send_of (
      (words.entry.0.0.now, word_if words.entry.0.1),
      words.entry.1.now,
      submit_view words.entry.2,
    )) }
{
    let name = name_at(words.0.0)?;
    let epoch = long_if(words.0.1)?;
    let number = ordinal_at(words.1)?;
    let stage = short_at(words.2.stage)?;
    let body = words.2.body()?;
    Ok(Command::Send {
        name,
        epoch,
        number,
        stage,
        body,
    })
}

/// The words of a `receive` line, each in its place.
#[derive(Clone, Copy)]
pub(crate) struct ReceiveWords<'a> {
    name: &'a [u8],
    epoch: Option<&'a [u8]>,
    number: &'a [u8],
    root: Option<&'a [u8]>,
    note: Option<&'a [u8]>,
}

/// The words of a root and of a note, where they are there.
type ReceiveRest<'a> = (Option<&'a [u8]>, Option<&'a [u8]>);

// ROOT note WORD
fn receive_rest<'a>(words: &[&'a [u8]]) -> Result<ReceiveRest<'a>, LineError>
    ensures { Gives (λ w. (word_if w.0, word_if w.1)) result (receive_rest (map (λ x. x.now) words.now)) }
{
    match words {
        [] => Ok((None, None)),
        [root] => Ok((Some(*root), None)),
        [mark, note] => {
            if is(mark, "note") {
                Ok((None, Some(*note)))
            } else {
                Err(LineFault::Syntax.into())
            }
        }
        [root, mark, note] => {
            if is(mark, "note") {
                Ok((Some(*root), Some(*note)))
            } else {
                Err(LineFault::Syntax.into())
            }
        }
        _ => Err(LineFault::Syntax.into()),
    }
}

// NAME/EPOCH N ROOT note WORD
#[tactic(auto, unfolding(crate::specs::Commands::receive_words))]
fn receive_words<'a>(alloc: Global, words: &[&'a [u8]]) -> Result<ReceiveWords<'a>, LineError>
    ensures { Gives receive_view result (receive_words (map (λ x. x.now) words.now)) }
{
    let [name, number, others @ ..] = words else {
        return Err(LineFault::Syntax.into());
    };
    let (name, epoch) = who_words(alloc, name)?;
    let (root, note) = receive_rest(others)?;
    Ok(ReceiveWords {
        name,
        epoch,
        number,
        root,
        note,
    })
}

// `receive NAME/EPOCH N ROOT note WORD`
#[tactic(auto, unfolding(crate::specs::Commands::receive_of))]
fn receive_of(words: ReceiveWords<'_>) -> Result<Command, LineError>
    ensures { Gives (λ x. x) result (receive_of (receive_view words.entry)) }
{
    let name = name_at(words.name)?;
    let note = name_if(words.note)?;
    let epoch = long_if(words.epoch)?;
    let number = ordinal_at(words.number)?;
    let root = long_if(words.root)?;
    Ok(Command::Receive {
        name,
        epoch,
        number,
        root,
        note,
    })
}

// ---- all of them

/// What a line of this first word asks for, by the words after it.
pub(crate) fn command_said(alloc: Global, verb: Verb, words: &[&[u8]]) -> Result<Command, LineError>
    ensures { Gives (λ x. x) result (command_said verb (map (λ x. x.now) words.now)) }
{
    match verb {
        Verb::OfId(what) => Ok(what.command(one_number(words)?)),
        Verb::Alone(what) => {
            none(words)?;
            Ok(what.command())
        }
        Verb::Deed(what) => {
            let name = one_name(words)?;
            let act = what.act();
            Ok(Command::Act { name, act })
        }
        Verb::Submit => submit_of(submit_words(words)?),
        Verb::List => list_of(list_words(words)?),
        Verb::Drain => drain_said(words),
        Verb::Sum => {
            let k = one_number(words)?;
            Ok(Command::Sum { k })
        }
        Verb::Balance => {
            let (name, k) = name_and_number(words)?;
            Ok(Command::Balance { name, k })
        }
        Verb::Take => {
            let (name, id) = name_and_number(words)?;
            let act = Act::Take { id };
            Ok(Command::Act { name, act })
        }
        Verb::Commit => commit_said(alloc, words),
        Verb::Abort => abort_said(alloc, words),
        Verb::Leave => {
            let name = one_name(words)?;
            Ok(Command::Leave { name })
        }
        Verb::Send => send_of(send_words(alloc, words)?),
        Verb::Receive => receive_of(receive_words(alloc, words)?),
        Verb::Last => {
            let name = one_name(words)?;
            Ok(Command::Last { name })
        }
        Verb::Forget => {
            let name = one_name(words)?;
            Ok(Command::Forget { name })
        }
    }
}
