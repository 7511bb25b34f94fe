//! Elements as they are read: one by one, the replies to a request, and those of a whole request.
ghost use Rattle.std.specs.Prelude.{◌≡◌};
ghost use Rattle.std.specs.Fmt.{WritesOnOk};
ghost use Rattle.std.specs.List.{flat_map};
ghost use Rattle.tp_answers.specs.ElementTexts.{collected_text, element_text, errors_text, family_text};
ghost use Rattle.tp_answers.specs.ElementTexts.{ids_text, is_short, list_text, maker_text, member_text};
ghost use Rattle.tp_answers.specs.ElementTexts.{more_words_text, read_text, replies_text, reply_text};
ghost use Rattle.tp_answers.specs.ElementTexts.{state_text, status_text};

use std::fmt;
use tp_model::types::Body;
use tp_store::element::{Element, Status};

// Who made an element.
fn maker<W: fmt::Write>(f: &mut fmt::Formatter<W>, by: Option<u64>) -> fmt::Result
    ensures { WritesOnOk W.write_str_gives f.old result (maker_text by) f.new }
{
    match by {
        None => write!(f, "client"),
        Some(unit) => write!(f, "{unit}"),
    }
}

// How an element stands.
fn status<W: fmt::Write>(f: &mut fmt::Formatter<W>, status: Status) -> fmt::Result
    ensures { WritesOnOk W.write_str_gives f.old result (status_text status) f.new }
{
    match status {
        Status::Waiting { attempts } => write!(f, "waiting {attempts}"),
        Status::Held { unit, attempt } => write!(f, "held {unit} {attempt}"),
        Status::Consumed { unit } => write!(f, "consumed {unit}"),
        Status::Parked { attempts } => write!(f, "parked {attempts}"),
        Status::Killed => write!(f, "killed"),
    }
}

// Whether words 2 and 3 of a body are 0: then they aren't told.
fn is_short(body: &Body) -> bool
    ensures { result ≡ is_short body.now }
{
    body[2] == 0 && body[3] == 0
}

// Words 2 and 3 of an element that is read.
fn more_words<W: fmt::Write>(f: &mut fmt::Formatter<W>, body: &Body) -> fmt::Result
    ensures { WritesOnOk W.write_str_gives f.old result (more_words_text body.now) f.new }
{
    if is_short(body) {
        return Ok(());
    }
    let [_, _, word_two, word_three] = *body;
    write!(f, " more {word_two} {word_three}")
}

// An element that is read, up to who made it.
#[tactic(auto, unfolding(crate::specs::ElementTexts::element_text))]
fn element<W: fmt::Write>(f: &mut fmt::Formatter<W>, id: u64, element: &Element) -> fmt::Result
    ensures { WritesOnOk W.write_str_gives f.old result (element_text id element.now) f.new }
{
    let Element { stage, root, .. } = *element;
    let [key, amount, ..] = element.body;
    write!(
        f,
        "{id} stage {stage} root {root} key {key} amount {amount}"
    )?;
    more_words(f, &element.body)?;
    write!(f, " by ")
}

/// An element that is read.
pub(crate) fn read<W: fmt::Write>(
    f: &mut fmt::Formatter<W>,
    id: u64,
    shown: &Element,
) -> fmt::Result
    ensures { WritesOnOk W.write_str_gives f.old result (read_text id shown.now) f.new }
{
    element(f, id, shown)?;
    maker(f, shown.by)?;
    write!(f, " ")?;
    status(f, shown.status)
}

// A reply: its id, and its words.
fn reply<W: fmt::Write>(f: &mut fmt::Formatter<W>, reply: &(u64, Element)) -> fmt::Result
    ensures { WritesOnOk W.write_str_gives f.old result (reply_text reply.now) f.new }
{
    let id = reply.0;
    let [key, amount, word_two, word_three] = reply.1.body;
    write!(f, " {id}:{key}:{amount}")?;
    if is_short(&reply.1.body) {
        return Ok(());
    }
    write!(f, ":{word_two}:{word_three}")
}

// Replies one after the other.
fn each_reply<W: fmt::Write>(f: &mut fmt::Formatter<W>, replies: &[(u64, Element)]) -> fmt::Result
    ensures { WritesOnOk W.write_str_gives f.old result (flat_map reply_text replies.now) f.new }
{
    for element in replies {
        reply(f, element)?;
    }
    Ok(())
}

/// The replies to a request.
pub(crate) fn replies<W: fmt::Write>(
    f: &mut fmt::Formatter<W>,
    root: u64,
    replies: &[(u64, Element)],
) -> fmt::Result
    ensures { WritesOnOk W.write_str_gives f.old result (replies_text root replies.now) f.new }
{
    write!(f, "replies {root}")?;
    each_reply(f, replies)
}

/// The replies to a request that were taken.
pub(crate) fn collected<W: fmt::Write>(
    f: &mut fmt::Formatter<W>,
    root: u64,
    replies: &[(u64, Element)],
) -> fmt::Result
    ensures { WritesOnOk W.write_str_gives f.old result (collected_text root replies.now) f.new }
{
    write!(f, "collected {root}")?;
    each_reply(f, replies)
}

// How an element stands, in one word.
fn state(status: Status) -> &'static str
    ensures { result.now ≡ state_text status }
{
    match status {
        Status::Waiting { .. } => "waiting",
        Status::Held { .. } => "held",
        Status::Consumed { .. } => "consumed",
        Status::Parked { .. } => "parked",
        Status::Killed => "killed",
    }
}

// An element of a request: its id, its stage, and how it stands.
fn member<W: fmt::Write>(f: &mut fmt::Formatter<W>, member: &(u64, Element)) -> fmt::Result
    ensures { WritesOnOk W.write_str_gives f.old result (member_text member.now) f.new }
{
    let id = member.0;
    let stage = member.1.stage;
    let state = state(member.1.status);
    write!(f, " {id}:{stage}:{state}")
}

/// The elements of a request.
pub(crate) fn family<W: fmt::Write>(
    f: &mut fmt::Formatter<W>,
    root: u64,
    members: &[(u64, Element)],
) -> fmt::Result
    ensures { WritesOnOk W.write_str_gives f.old result (family_text root members.now) f.new }
{
    write!(f, "family {root}")?;
    for element in members {
        member(f, element)?;
    }
    Ok(())
}

// Their ids one after the other.
fn each_id<W: fmt::Write>(f: &mut fmt::Formatter<W>, elements: &[(u64, Element)]) -> fmt::Result
    ensures { WritesOnOk W.write_str_gives f.old result (ids_text elements.now) f.new }
{
    for element in elements {
        let id = element.0;
        write!(f, " {id}")?;
    }
    Ok(())
}

/// The parked elements.
pub(crate) fn errors<W: fmt::Write>(
    f: &mut fmt::Formatter<W>,
    parked: &[(u64, Element)],
) -> fmt::Result
    ensures { WritesOnOk W.write_str_gives f.old result (errors_text parked.now) f.new }
{
    write!(f, "errors")?;
    each_id(f, parked)
}

/// The elements that wait in a stage.
pub(crate) fn list<W: fmt::Write>(
    f: &mut fmt::Formatter<W>,
    stage: u16,
    waiting: &[(u64, Element)],
) -> fmt::Result
    ensures { WritesOnOk W.write_str_gives f.old result (list_text stage waiting.now) f.new }
{
    write!(f, "list {stage}")?;
    each_id(f, waiting)
}
