//! What the lines of a session are answered. Each answer is one line.
ghost use Rattle.std.specs.Prelude.{◌≡◌, IfOk, Some, string_bytes};
ghost use Rattle.tp_answers.specs.Answer.{IsLine, answer_text, line};

use crate::elements::{collected, errors, family, list, read, replies};
use crate::notes::{
    ReceivedAs, SentAs, forgotten, last_client, last_worker, received, registered, sent,
};
use crate::overviews::{Depth, Holder, account, balance, counts, depths, holds, last};
use crate::refusals::refusal;
use crate::told::{HandTold, Told, joined, left, named};
use crate::version::version;
use std::alloc::{AllocError, Global};
use std::fmt;
use std::string::String;
use tp_lines::{ClientNote, Name, UnitEnd};
use tp_script::LineFault;
use tp_store::answers::Refusal;
use tp_store::counts::Counts;
use tp_store::element::Element;

/// What a line is answered. Elements are given by their ids.
#[derive(Clone, Copy)]
pub enum Answer<'a> {
    /// The submitted element has this id.
    Submitted {
        id: u64,
    },
    /// The store refused the call.
    Refused(Refusal),
    /// What the server or the worker of this name is told.
    Named {
        name: &'a Name,
        told: Told,
    },
    /// The replies to the request of this root.
    Replies {
        root: u64,
        replies: &'a [(u64, Element)],
    },
    /// The replies to the request of this root that were taken.
    Collected {
        root: u64,
        replies: &'a [(u64, Element)],
    },
    /// The element is killed, and this many units that held it were aborted.
    Killed {
        id: u64,
        aborted: u8,
    },
    /// The request of this root is cancelled, and this many elements were killed.
    Cancelled {
        root: u64,
        killed: u64,
    },
    /// The parked element was given this round.
    Requeued {
        id: u64,
        round: u8,
    },
    /// The unit of work that held the element in this attempt is aborted.
    Released {
        id: u64,
        unit: u64,
        attempt: u8,
    },
    /// The elements of the request of this root.
    Family {
        root: u64,
        members: &'a [(u64, Element)],
    },
    /// The element with this id.
    Read {
        id: u64,
        element: Element,
    },
    /// The parked elements.
    Errors(&'a [(u64, Element)]),
    /// Elements that wait in this stage.
    List {
        stage: u16,
        waiting: &'a [(u64, Element)],
    },
    /// Register `k` of the server of this name, if it has one.
    Balance {
        name: &'a Name,
        k: u64,
        value: Option<u64>,
    },
    /// The sum of register `k` over the servers.
    Sum {
        k: u64,
        sum: u128,
    },
    /// How many elements have each status.
    Count(Counts),
    /// How many elements of each stage wait, are held and are parked.
    Depth(&'a [Depth]),
    /// How many elements were born, and how many have each status.
    Account(Counts),
    /// Something is in hand that has to be given back first, and nothing was done.
    Busy,
    /// The number of a send or a receive isn't the next one, and nothing was done.
    Gap,
    /// Another epoch of the client has begun, and nothing was done.
    Fenced,
    /// The last send had other words, and nothing was done.
    Differs,
    /// Nothing is left for the servers.
    Drained,
    /// Something may be left for the servers, and another `drain` goes on with it.
    DrainedSoFar,
    /// What the registers of the server of this name hold at the end.
    Final {
        name: &'a Name,
        registers: &'a [u64],
    },
    /// A worker of this name has come.
    Joined {
        name: &'a Name,
    },
    /// The worker of this name has left, and is told this of what it had in hand.
    Left {
        name: &'a Name,
        told: Told,
    },
    /// Notes are kept of the client of this name.
    Registered {
        name: &'a Name,
        epoch: u64,
    },
    /// What became of the client's send of this number.
    Sent {
        name: &'a Name,
        number: u64,
        sent: SentAs,
    },
    /// What became of the client's receive of this number.
    Received {
        name: &'a Name,
        number: u64,
        received: ReceivedAs,
    },
    /// What is noted of a client.
    LastClient {
        name: &'a Name,
        note: &'a ClientNote,
    },
    /// What a worker has in hand, and how its last unit of work ended.
    LastWorker {
        name: &'a Name,
        hand: HandTold,
        end: Option<UnitEnd>,
    },
    /// Nothing is noted of the client of this name any more.
    Forgotten {
        name: &'a Name,
    },
    /// Who has taken what.
    Holds(&'a [Holder<'a>]),
    /// So many elements are alive again.
    Restored {
        many: u64,
    },
    /// The line of this number has this fault, and nothing was done.
    RefusedLine {
        line: u64,
        fault: LineFault,
    },
    /// Which program this is.
    Version,
}

impl fmt::Display for Answer<'_> {
    ghost output = { λ answer. Some (answer_text answer) };

    fn fmt<W: fmt::Write>(&self, f: &mut fmt::Formatter<W>) -> fmt::Result {
        match *self {
            Answer::Submitted { id } => write!(f, "submitted {id}"),
            Answer::Refused(why) => refusal(f, why),
            Answer::Named { name, told } => named(f, name, told),
            Answer::Replies { root, replies: all } => replies(f, root, all),
            Answer::Collected { root, replies } => collected(f, root, replies),
            Answer::Killed { id, aborted } => write!(f, "killed {id} aborted {aborted}"),
            Answer::Cancelled { root, killed } => write!(f, "cancelled {root} killed {killed}"),
            Answer::Requeued { id, round } => write!(f, "requeued {id} round {round}"),
            Answer::Released { id, unit, attempt } => write!(
                f,
                "released {id} unit {unit} attempt {attempt}"
            ),
            Answer::Family { root, members } => family(f, root, members),
            Answer::Read { id, element } => read(f, id, &element),
            Answer::Errors(parked) => errors(f, parked),
            Answer::List { stage, waiting } => list(f, stage, waiting),
            Answer::Balance { name, k, value } => balance(f, name, k, value),
            Answer::Sum { k, sum } => write!(f, "sum {k} {sum}"),
            Answer::Count(all) => counts(f, all),
            Answer::Depth(all) => depths(f, all),
            Answer::Account(all) => account(f, all),
            Answer::Busy => write!(f, "refused 11 Busy"),
            Answer::Gap => write!(f, "refused 15 Gap"),
            Answer::Fenced => write!(f, "refused 16 Fenced"),
            Answer::Differs => write!(f, "refused 17 Differs"),
            Answer::Drained => write!(f, "drained"),
            Answer::DrainedSoFar => write!(f, "drained so far"),
            Answer::Final { name, registers } => last(f, name, registers),
            Answer::Joined { name } => joined(f, name),
            Answer::Left { name, told } => left(f, name, told),
            Answer::Registered { name, epoch } => registered(f, name, epoch),
            Answer::Sent {
                name,
                number,
                sent: how,
            } => sent(f, name, number, how),
            Answer::Received {
                name,
                number,
                received: how,
            } => received(f, name, number, how),
            Answer::LastClient { name, note } => last_client(f, name, note),
            Answer::LastWorker { name, hand, end } => last_worker(f, name, hand, end),
            Answer::Forgotten { name } => forgotten(f, name),
            Answer::Holds(all) => holds(f, all),
            Answer::Restored { many } => write!(f, "restored {many}"),
            Answer::RefusedLine { line, fault } => write!(f, "refused line {line}: {fault}"),
            Answer::Version => version(f),
        }
    }
}

/// How many bytes there is room for in a line before it grows.
const ROOM: usize = 96;

/// The line of an answer.
pub fn line(alloc: Global, answer: Answer<'_>) -> Result<String, AllocError>
    ensures text { IfOk result (λ s. string_bytes s ≡ line (answer_text answer.entry)) }
    ensures line { IfOk result (λ s. IsLine (string_bytes s)) }
{
    let mut text = String::with_capacity(alloc, ROOM)?;
    write!(text, "{answer}\n")?;
    Ok(text)
}
