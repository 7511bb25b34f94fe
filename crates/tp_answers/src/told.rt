//! What a server or a worker is told.
ghost use Rattle.std.specs.Prelude.{◌≡◌, Some};
ghost use Rattle.std.specs.Fmt.{WritesOnOk};
ghost use Rattle.tp_answers.specs.ToldTexts.{hand_text, joined_text, left_text, named_text, taken_text, told_text};
ghost use Rattle.tp_answers.specs.ToldTexts.{words_text};

use crate::refusals::refusal_name;
use std::fmt;
use tp_lines::Name;
use tp_model::types::Body;
use tp_server::Declined;
use tp_store::answers::Refusal;

/// What a command of a server or a worker came to. Elements and units are given by their numbers.
#[derive(Clone, Copy)]
pub enum Told {
    /// Nothing waits for it.
    Idle,
    /// It has taken something already, or its work is prepared already.
    Busy,
    /// It has taken nothing.
    NoneOpen,
    /// It has not in hand what was named, and nothing was done.
    Other,
    /// A new unit of work of a server took the element, as the `attempt`-th to do so in its round.
    Work {
        id: u64,
        unit: u64,
        attempt: u8,
    },
    /// The same of a worker, with the element's root and its words, and which try at it this is, of all its
    /// rounds.
    Took {
        id: u64,
        unit: u64,
        attempt: u8,
        root: u64,
        body: Body,
        tries: u16,
    },
    /// The element was not taken, for this reason.
    NotTaken {
        id: u64,
        why: Refusal,
    },
    /// The unit of work committed, and so many outputs were born, with ids from `first` on.
    Done {
        id: u64,
        unit: u64,
        first: u64,
        count: u64,
    },
    /// Another caller had aborted the unit of work.
    Lost {
        id: u64,
    },
    /// The server declined the element, for this reason, and its unit is aborted.
    Declined {
        id: u64,
        why: Declined,
    },
    /// The unit that held the element is aborted.
    Aborted {
        id: u64,
    },
    /// Another caller had aborted the unit that is to be aborted.
    Already {
        id: u64,
    },
    /// The work is prepared.
    Ready,
    /// The server's desk is dropped.
    Dropped,
    /// It had been dropped before, and nothing was done.
    Ended,
}

// An element that a unit took, in which attempt of its round, and its root.
fn taken<W: fmt::Write>(
    f: &mut fmt::Formatter<W>,
    id: u64,
    unit: u64,
    attempt: u8,
    root: u64,
) -> fmt::Result
    ensures { WritesOnOk W.write_str_gives f.old result (taken_text id unit attempt root) f.new }
{
    write!(f, "{id} unit {unit} attempt {attempt} root {root}")
}

// Its words, and which try at it this is, behind a space.
fn words<W: fmt::Write>(f: &mut fmt::Formatter<W>, body: Body, tries: u16) -> fmt::Result
    ensures { WritesOnOk W.write_str_gives f.old result (words_text body tries) f.new }
{
    let [w0, w1, w2, w3] = body;
    write!(f, " body {w0}:{w1}:{w2}:{w3}")?;
    write!(f, " try {tries}")
}

impl fmt::Display for Told {
    ghost output = { λ told. Some (told_text told) };

    fn fmt<W: fmt::Write>(&self, f: &mut fmt::Formatter<W>) -> fmt::Result {
        match *self {
            Told::Idle => write!(f, "idle"),
            Told::Busy => write!(f, "busy"),
            Told::NoneOpen => write!(f, "none"),
            Told::Other => write!(f, "other"),
            Told::Work { id, unit, attempt } => write!(
                f,
                "work {id} unit {unit} attempt {attempt}"
            ),
            Told::Took {
                id,
                unit,
                attempt,
                root,
                body,
                tries,
            } => {
                write!(f, "work ")?;
                taken(f, id, unit, attempt, root)?;
                words(f, body, tries)
            }
            Told::NotTaken { id, why } => {
                write!(f, "refused {id} ")?;
                refusal_name(f, why)
            }
            Told::Done {
                id,
                unit,
                first,
                count,
            } => write!(f, "done {id} unit {unit} outputs {first} {count}"),
            Told::Lost { id } => write!(f, "lost {id}"),
            Told::Declined { id, why } => write!(f, "refused {id} {why}"),
            Told::Aborted { id } => write!(f, "aborted {id}"),
            Told::Already { id } => write!(f, "already {id}"),
            Told::Ready => write!(f, "ready"),
            Told::Dropped => write!(f, "dropped"),
            Told::Ended => write!(f, "ended"),
        }
    }
}

/// What a worker has in hand.
#[derive(Clone, Copy)]
pub enum HandTold {
    /// Nothing.
    Nothing,
    /// This element, in this try of all its rounds, but another caller has aborted the unit that took it.
    Lost {
        id: u64,
        tries: u16,
    },
    /// This element, which its unit of work took as the `attempt`-th of its round, in this try.
    Open {
        id: u64,
        unit: u64,
        attempt: u8,
        root: u64,
        body: Body,
        tries: u16,
    },
}

impl fmt::Display for HandTold {
    ghost output = { λ hand. Some (hand_text hand) };

    fn fmt<W: fmt::Write>(&self, f: &mut fmt::Formatter<W>) -> fmt::Result {
        match *self {
            HandTold::Nothing => write!(f, "none"),
            HandTold::Lost { id, tries } => write!(f, "lost {id} try {tries}"),
            HandTold::Open {
                id,
                unit,
                attempt,
                root,
                body,
                tries,
            } => {
                taken(f, id, unit, attempt, root)?;
                words(f, body, tries)
            }
        }
    }
}

/// What the server or the worker of this name is told.
pub(crate) fn named<W: fmt::Write>(
    f: &mut fmt::Formatter<W>,
    name: &Name,
    told: Told,
) -> fmt::Result
    ensures { WritesOnOk W.write_str_gives f.old result (named_text name.now told) f.new }
{
    let letters = name.as_str();
    write!(f, "{letters} {told}")
}

/// A worker of this name has come.
pub(crate) fn joined<W: fmt::Write>(f: &mut fmt::Formatter<W>, name: &Name) -> fmt::Result
    ensures { WritesOnOk W.write_str_gives f.old result (joined_text name.now) f.new }
{
    let letters = name.as_str();
    write!(f, "joined {letters}")
}

/// The worker of this name has left, and is told this.
pub(crate) fn left<W: fmt::Write>(f: &mut fmt::Formatter<W>, name: &Name, told: Told) -> fmt::Result
    ensures { WritesOnOk W.write_str_gives f.old result (left_text name.now told) f.new }
{
    let letters = name.as_str();
    write!(f, "left {letters} {told}")
}
