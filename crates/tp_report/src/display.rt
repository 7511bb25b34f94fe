//! The texts of answers: the one place where the texts of a report's lines are.
ghost use Rattle.std.specs.Prelude.{◌≡◌, Some};
ghost use Rattle.std.specs.Fmt.{WritesOnOk};
ghost use Rattle.std.specs.List.{flat_map};
ghost use Rattle.tp_report.specs.Answer.{turned_text, server_text, refusal_name, refusal_number};
ghost use Rattle.tp_report.specs.Answer.{refusal_text, maker_text, status_text, is_short, more_words_text};
ghost use Rattle.tp_report.specs.Answer.{element_text, look_text, replies_text, collected_text};
ghost use Rattle.tp_report.specs.Answer.{state_text, member_text, family_text, errors_text, counts_text};
ghost use Rattle.tp_report.specs.Answer.{account_text, balance_text, final_text, answer_text};
ghost use Rattle.tp_report.specs.Answer.{ids_text, renamed_text, reply_text, rolled_text};

use crate::answer::{Answer, Renamed, ServerAnswer};
use std::fmt;
use tp_model::types::{Body, Counts, Element, Look, Refusal, Status};
use tp_server::Turned;

// What a turn came to.
fn turned<W: fmt::Write>(f: &mut fmt::Formatter<W>, turned: Turned) -> fmt::Result
    ensures { WritesOnOk W.write_str_gives f.old result (turned_text turned) f.new }
{
    match turned {
        Turned::Idle => write!(f, "idle"),
        Turned::NoUnit => write!(f, "nounit"),
        Turned::Done {
            unit,
            element,
            first,
            count,
        } => write!(f, "done {element} unit {unit} outputs {first} {count}"),
        Turned::Refused { element, why } => write!(f, "refused {element} {why}"),
        Turned::Lost { element } => write!(f, "lost {element}"),
        Turned::Full { element } => write!(f, "full {element}"),
    }
}

impl fmt::Display for ServerAnswer {
    ghost output = { λ answer. Some (server_text answer) };

    fn fmt<W: fmt::Write>(&self, f: &mut fmt::Formatter<W>) -> fmt::Result {
        match *self {
            ServerAnswer::Turned(answer) => turned(f, answer),
            ServerAnswer::Work {
                element,
                unit,
                attempt,
            } => write!(f, "work {element} unit {unit} attempt {attempt}"),
            ServerAnswer::NotTaken { element, why } => {
                write!(f, "refused {element} ")?;
                refusal_name(f, why)
            }
            ServerAnswer::Busy => write!(f, "busy"),
            ServerAnswer::NoneOpen => write!(f, "none"),
            ServerAnswer::Ready => write!(f, "ready"),
            ServerAnswer::Aborted { element } => write!(f, "aborted {element}"),
            ServerAnswer::AlreadyAborted { element } => write!(f, "already {element}"),
            ServerAnswer::Dropped => write!(f, "dropped"),
            ServerAnswer::Ended => write!(f, "ended"),
        }
    }
}

// Why a call was refused.
fn refusal_name<W: fmt::Write>(f: &mut fmt::Formatter<W>, why: Refusal) -> fmt::Result
    ensures { WritesOnOk W.write_str_gives f.old result (refusal_name why) f.new }
{
    match why {
        Refusal::NoMemory => write!(f, "NoMemory"),
        Refusal::BadLimits => write!(f, "BadLimits"),
        Refusal::BadStage => write!(f, "BadStage"),
        Refusal::NotThere => write!(f, "NotThere"),
        Refusal::Consumed { unit } => write!(f, "Consumed {unit}"),
        Refusal::AlreadyKilled => write!(f, "AlreadyKilled"),
        Refusal::Full => write!(f, "Full"),
        Refusal::NotParked => write!(f, "NotParked"),
        Refusal::NoRound => write!(f, "NoRound"),
        Refusal::NotHeld => write!(f, "NotHeld"),
        Refusal::NotWaiting => write!(f, "NotWaiting"),
        Refusal::NoUnit => write!(f, "NoUnit"),
    }
}

// The number of that reason.
fn refusal_number(why: Refusal) -> u8
    ensures { result ≡ refusal_number why }
{
    match why {
        Refusal::NoMemory => 1,
        Refusal::BadLimits => 2,
        Refusal::BadStage => 3,
        Refusal::NotThere => 4,
        Refusal::Consumed { .. } => 5,
        Refusal::AlreadyKilled => 6,
        Refusal::Full => 7,
        Refusal::NotParked => 8,
        Refusal::NoRound => 9,
        Refusal::NotWaiting => 10,
        Refusal::NotHeld => 12,
        Refusal::NoUnit => 13,
    }
}

// A refused call.
fn refusal<W: fmt::Write>(f: &mut fmt::Formatter<W>, why: Refusal) -> fmt::Result
    ensures { WritesOnOk W.write_str_gives f.old result (refusal_text why) f.new }
{
    let number = refusal_number(why);
    write!(f, "refused {number} ")?;
    refusal_name(f, why)
}

// Who made an element.
fn maker<W: fmt::Write>(f: &mut fmt::Formatter<W>, by: Option<u16>) -> fmt::Result
    ensures { WritesOnOk W.write_str_gives f.old result (maker_text by) f.new }
{
    match by {
        None => write!(f, "client"),
        Some(unit) => write!(f, "{unit}"),
    }
}

// The status of an element.
fn status<W: fmt::Write>(f: &mut fmt::Formatter<W>, status: Status) -> fmt::Result
    ensures { WritesOnOk W.write_str_gives f.old result (status_text status) f.new }
{
    match status {
        Status::Waiting { attempts } => write!(f, "waiting {attempts}"),
        Status::Held { unit, attempt } => write!(f, "held {unit} {attempt}"),
        Status::Consumed { unit } => write!(f, "consumed {unit}"),
        Status::Parked { attempts } => write!(f, "parked {attempts}"),
        Status::Killed => write!(f, "killed"),
    }
}

// Whether words 2 and 3 of a body are 0: then they aren't printed.
fn is_short(body: &Body) -> bool
    ensures { result ≡ is_short body.now }
{
    body[2] == 0 && body[3] == 0
}

// Words 2 and 3 of a body as it was read.
fn more_words<W: fmt::Write>(f: &mut fmt::Formatter<W>, body: &Body) -> fmt::Result
    ensures { WritesOnOk W.write_str_gives f.old result (more_words_text body.now) f.new }
{
    if is_short(body) {
        return Ok(());
    }
    let [_, _, word_two, word_three] = *body;
    write!(f, " more {word_two} {word_three}")
}

// An element as it was read, up to who made it.
#[tactic(auto, unfolding(crate::specs::Answer::element_text))]
fn element<W: fmt::Write>(f: &mut fmt::Formatter<W>, element: &Element) -> fmt::Result
    ensures { WritesOnOk W.write_str_gives f.old result (element_text element.now) f.new }
{
    let Element {
        id,
        stage,
        root,
        ..
    } = *element;
    let [key, amount, ..] = element.body;
    write!(
        f,
        "{id} stage {stage} root {root} key {key} amount {amount}"
    )?;
    more_words(f, &element.body)?;
    write!(f, " by ")
}

// An element as it was read.
fn look<W: fmt::Write>(f: &mut fmt::Formatter<W>, look: Look) -> fmt::Result
    ensures { WritesOnOk W.write_str_gives f.old result (look_text look) f.new }
{
    element(f, &look.element)?;
    maker(f, look.element.by)?;
    write!(f, " ")?;
    status(f, look.status)
}

// A reply: its id, and its body.
fn reply<W: fmt::Write>(f: &mut fmt::Formatter<W>, reply: &Element) -> fmt::Result
    ensures { WritesOnOk W.write_str_gives f.old result (reply_text reply.now) f.new }
{
    let id = reply.id;
    let [key, amount, word_two, word_three] = reply.body;
    write!(f, " {id}:{key}:{amount}")?;
    if is_short(&reply.body) {
        return Ok(());
    }
    write!(f, ":{word_two}:{word_three}")
}

// Replies one after the other.
fn each_reply<W: fmt::Write>(f: &mut fmt::Formatter<W>, replies: &[Element]) -> fmt::Result
    ensures { WritesOnOk W.write_str_gives f.old result (flat_map reply_text replies.now) f.new }
{
    for element in replies {
        reply(f, element)?;
    }
    Ok(())
}

// The replies to a request.
fn replies<W: fmt::Write>(f: &mut fmt::Formatter<W>, root: u32, replies: &[Element]) -> fmt::Result
    ensures { WritesOnOk W.write_str_gives f.old result (replies_text root replies.now) f.new }
{
    write!(f, "replies {root}")?;
    each_reply(f, replies)
}

// The replies to a request that were taken.
fn collected<W: fmt::Write>(
    f: &mut fmt::Formatter<W>,
    root: u32,
    replies: &[Element],
) -> fmt::Result
    ensures { WritesOnOk W.write_str_gives f.old result (collected_text root replies.now) f.new }
{
    write!(f, "collected {root}")?;
    each_reply(f, replies)
}

// The status of an element, in one word.
fn state(status: Status) -> &'static str
    ensures { result.now ≡ state_text status }
{
    match status {
        Status::Waiting { attempts: _ } => "waiting",
        Status::Held {
            unit: _,
            attempt: _,
        } => "held",
        Status::Consumed { unit: _ } => "consumed",
        Status::Parked { attempts: _ } => "parked",
        Status::Killed => "killed",
    }
}

// An element of a request: its id, its stage, and its status.
fn member<W: fmt::Write>(f: &mut fmt::Formatter<W>, look: &Look) -> fmt::Result
    ensures { WritesOnOk W.write_str_gives f.old result (member_text look.now) f.new }
{
    let id = look.element.id;
    let stage = look.element.stage;
    let state = state(look.status);
    write!(f, " {id}:{stage}:{state}")
}

// The elements of a request.
fn family<W: fmt::Write>(f: &mut fmt::Formatter<W>, root: u32, looks: &[Look]) -> fmt::Result
    ensures { WritesOnOk W.write_str_gives f.old result (family_text root looks.now) f.new }
{
    write!(f, "family {root}")?;
    for look in looks {
        member(f, look)?;
    }
    Ok(())
}

// Ids one after the other.
fn each_id<W: fmt::Write>(f: &mut fmt::Formatter<W>, ids: &[u32]) -> fmt::Result
    ensures { WritesOnOk W.write_str_gives f.old result (ids_text ids.now) f.new }
{
    for id in ids {
        write!(f, " {id}")?;
    }
    Ok(())
}

// The parked elements.
fn errors<W: fmt::Write>(f: &mut fmt::Formatter<W>, ids: &[u32]) -> fmt::Result
    ensures { WritesOnOk W.write_str_gives f.old result (errors_text ids.now) f.new }
{
    write!(f, "errors")?;
    each_id(f, ids)
}

// A register of a server.
fn balance<W: fmt::Write>(
    f: &mut fmt::Formatter<W>,
    name: &str,
    k: u64,
    value: Option<u64>,
) -> fmt::Result
    ensures { WritesOnOk W.write_str_gives f.old result (balance_text name.now k value) f.new }
{
    match value {
        Some(value) => write!(f, "balance {name} {k} {value}"),
        None => write!(f, "balance {name} {k} none"),
    }
}

// The registers of a server at the end.
fn last<W: fmt::Write>(f: &mut fmt::Formatter<W>, name: &str, registers: &[u64]) -> fmt::Result
    ensures { WritesOnOk W.write_str_gives f.old result (final_text name.now registers.now) f.new }
{
    write!(f, "final {name}")?;
    for value in registers {
        write!(f, " {value}")?;
    }
    Ok(())
}

// An element that was carried over: its id in the old manager, and in the new one.
fn renamed<W: fmt::Write>(f: &mut fmt::Formatter<W>, element: &Renamed) -> fmt::Result
    ensures { WritesOnOk W.write_str_gives f.old result (renamed_text element.now) f.new }
{
    let Renamed { old, new } = *element;
    write!(f, " {old}:{new}")
}

// All that a rollover carried over.
fn rolled_over<W: fmt::Write>(f: &mut fmt::Formatter<W>, elements: &[Renamed]) -> fmt::Result
    ensures { WritesOnOk W.write_str_gives f.old result (rolled_text elements.now) f.new }
{
    let many = elements.len();
    write!(f, "rolled over {many}")?;
    for element in elements {
        renamed(f, element)?;
    }
    Ok(())
}

// How many elements have each status.
fn counts<W: fmt::Write>(f: &mut fmt::Formatter<W>, all: Counts) -> fmt::Result
    ensures { WritesOnOk W.write_str_gives f.old result (counts_text all) f.new }
{
    let Counts {
        waiting,
        held,
        consumed,
        parked,
        killed,
    } = all;
    write!(
        f,
        "waiting {waiting} held {held} consumed {consumed} parked {parked} killed {killed}"
    )
}

// The closing account.
fn account<W: fmt::Write>(f: &mut fmt::Formatter<W>, all: Counts) -> fmt::Result
    ensures { WritesOnOk W.write_str_gives f.old result (account_text all) f.new }
{
    let unsettled = u64::from(all.waiting) + u64::from(all.held);
    let others = u64::from(all.consumed) + u64::from(all.parked) + u64::from(all.killed);
    let born = unsettled + others;
    write!(f, "account born {born} ")?;
    counts(f, all)
}

impl fmt::Display for Answer<'_> {
    ghost output = { λ answer. Some (answer_text answer) };

    fn fmt<W: fmt::Write>(&self, f: &mut fmt::Formatter<W>) -> fmt::Result {
        match *self {
            Answer::Submitted { id } => write!(f, "submitted {id}"),
            Answer::Refused(why) => refusal(f, why),
            Answer::Server { name, answer } => write!(f, "{name} {answer}"),
            Answer::Replies { root, replies: all } => replies(f, root, all),
            Answer::Killed { id, aborted } => write!(f, "killed {id} aborted {aborted}"),
            Answer::Cancelled { root, killed } => write!(f, "cancelled {root} killed {killed}"),
            Answer::Requeued { id, round } => write!(f, "requeued {id} round {round}"),
            Answer::Released { id, unit, attempt } => write!(
                f,
                "released {id} unit {unit} attempt {attempt}"
            ),
            Answer::Collected { root, replies } => collected(f, root, replies),
            Answer::Family { root, looks } => family(f, root, looks),
            Answer::Read(shown) => look(f, shown),
            Answer::Errors(ids) => errors(f, ids),
            Answer::Balance { name, k, value } => balance(f, name, k, value),
            Answer::Sum { k, sum } => write!(f, "sum {k} {sum}"),
            Answer::Count(all) => counts(f, all),
            Answer::Account(all) => account(f, all),
            Answer::Raced { submitted } => write!(f, "race submitted {submitted}"),
            Answer::Drained => write!(f, "drained"),
            Answer::RolledOver(elements) => rolled_over(f, elements),
            Answer::Busy => write!(f, "refused 11 Busy"),
            Answer::Unequal => write!(f, "refused 14 Unequal"),
            Answer::Final { name, registers } => last(f, name, registers),
        }
    }
}
