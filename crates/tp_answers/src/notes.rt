//! What clients and workers that may crash are told: their sends and receives, and what is noted of them.
ghost use Rattle.std.specs.Prelude.{◌≡◌, Some};
ghost use Rattle.std.specs.Fmt.{WritesOnOk};
ghost use Rattle.tp_answers.specs.NoteTexts.{end_text, forgotten_text, last_client_text};
ghost use Rattle.tp_answers.specs.NoteTexts.{last_note_text, last_received_text, last_sent_text, last_worker_text};
ghost use Rattle.tp_answers.specs.NoteTexts.{received_as_text, received_text, registered_text};
ghost use Rattle.tp_answers.specs.NoteTexts.{sent_as_text, sent_text};

use crate::told::HandTold;
use std::fmt;
use tp_lines::{ClientNote, Name, UnitEnd};
use tp_model::types::Body;

/// What became of a client's receive.
#[derive(Clone, Copy)]
pub enum ReceivedAs {
    /// It took this reply.
    Reply { id: u64, root: u64, body: Body },
    /// There is no reply to take.
    Nothing,
    /// It was done before the last one, of which alone notes are kept.
    Before,
}

impl fmt::Display for ReceivedAs {
    ghost output = { λ received. Some (received_as_text received) };

    fn fmt<W: fmt::Write>(&self, f: &mut fmt::Formatter<W>) -> fmt::Result {
        match *self {
            ReceivedAs::Reply { id, root, body } => {
                let [w0, w1, w2, w3] = body;
                write!(f, "{id} {root} {w0}:{w1}:{w2}:{w3}")
            }
            ReceivedAs::Nothing => write!(f, "none"),
            ReceivedAs::Before => write!(f, "done"),
        }
    }
}

/// What became of a client's send.
#[derive(Clone, Copy)]
pub enum SentAs {
    /// It submitted this element.
    Element { id: u64 },
    /// It was done before the last one, of which alone notes are kept.
    Before,
}

impl fmt::Display for SentAs {
    ghost output = { λ sent. Some (sent_as_text sent) };

    fn fmt<W: fmt::Write>(&self, f: &mut fmt::Formatter<W>) -> fmt::Result {
        match *self {
            SentAs::Element { id } => write!(f, "{id}"),
            SentAs::Before => write!(f, "done"),
        }
    }
}

// How many sends were done, and what the last of them submitted, where there was one.
fn last_sent<W: fmt::Write>(f: &mut fmt::Formatter<W>, note: &ClientNote) -> fmt::Result
    ensures { WritesOnOk W.write_str_gives f.old result (last_sent_text note.now) f.new }
{
    let (sent, element) = (note.sent, note.element);
    if sent == 0 {
        write!(f, "sent {sent}")
    } else {
        write!(f, "sent {sent} {element}")
    }
}

// How many receives took a reply, and which one the last of them took, where there was one.
fn last_received<W: fmt::Write>(f: &mut fmt::Formatter<W>, note: &ClientNote) -> fmt::Result
    ensures { WritesOnOk W.write_str_gives f.old result (last_received_text note.now) f.new }
{
    let (received, reply, root) = (note.received, note.reply, note.root);
    let [w0, w1, w2, w3] = note.body;
    if received == 0 {
        write!(f, "received {received}")
    } else {
        write!(f, "received {received} {reply} {root} {w0}:{w1}:{w2}:{w3}")
    }
}

// What it noted with the last of them, where it did.
fn last_note<W: fmt::Write>(f: &mut fmt::Formatter<W>, note: &Option<Name>) -> fmt::Result
    ensures { WritesOnOk W.write_str_gives f.old result (last_note_text note.now) f.new }
{
    match note {
        None => Ok(()),
        Some(word) => {
            let word = word.as_str();
            write!(f, " note {word}")
        }
    }
}

/// What is noted of a client.
pub(crate) fn last_client<W: fmt::Write>(
    f: &mut fmt::Formatter<W>,
    name: &Name,
    note: &ClientNote,
) -> fmt::Result
    ensures { WritesOnOk W.write_str_gives f.old result (last_client_text name.now note.now) f.new }
{
    let client = name.as_str();
    write!(f, "last {client} ")?;
    last_sent(f, note)?;
    write!(f, " ")?;
    last_received(f, note)?;
    last_note(f, &note.note)
}

// How a worker's last unit of work ended.
fn unit_end<W: fmt::Write>(f: &mut fmt::Formatter<W>, end: Option<UnitEnd>) -> fmt::Result
    ensures { WritesOnOk W.write_str_gives f.old result (end_text end) f.new }
{
    let Some(end) = end else {
        return write!(f, "none");
    };
    match end {
        UnitEnd::Done {
            id,
            unit,
            first,
            count,
        } => write!(f, "done {id} unit {unit} outputs {first} {count}"),
        UnitEnd::Aborted { id } => write!(f, "aborted {id}"),
        UnitEnd::Lost { id } => write!(f, "lost {id}"),
    }
}

/// What a worker has in hand, and how its last unit of work ended.
pub(crate) fn last_worker<W: fmt::Write>(
    f: &mut fmt::Formatter<W>,
    name: &Name,
    hand: HandTold,
    end: Option<UnitEnd>,
) -> fmt::Result
    ensures { WritesOnOk W.write_str_gives f.old result (last_worker_text name.now hand end) f.new }
{
    let worker = name.as_str();
    write!(f, "last {worker} hand {hand} ")?;
    unit_end(f, end)
}

/// Notes are kept of the client of this name, in this epoch.
pub(crate) fn registered<W: fmt::Write>(
    f: &mut fmt::Formatter<W>,
    name: &Name,
    epoch: u64,
) -> fmt::Result
    ensures { WritesOnOk W.write_str_gives f.old result (registered_text name.now epoch) f.new }
{
    let client = name.as_str();
    write!(f, "registered {client} {epoch}")
}

/// Nothing is noted any more of the client of this name.
pub(crate) fn forgotten<W: fmt::Write>(f: &mut fmt::Formatter<W>, name: &Name) -> fmt::Result
    ensures { WritesOnOk W.write_str_gives f.old result (forgotten_text name.now) f.new }
{
    let client = name.as_str();
    write!(f, "forgotten {client}")
}

/// What became of the client's send of this number.
pub(crate) fn sent<W: fmt::Write>(
    f: &mut fmt::Formatter<W>,
    name: &Name,
    number: u64,
    how: SentAs,
) -> fmt::Result
    ensures { WritesOnOk W.write_str_gives f.old result (sent_text name.now number how) f.new }
{
    let client = name.as_str();
    write!(f, "sent {client} {number} {how}")
}

/// What became of the client's receive of this number.
pub(crate) fn received<W: fmt::Write>(
    f: &mut fmt::Formatter<W>,
    name: &Name,
    number: u64,
    how: ReceivedAs,
) -> fmt::Result
    ensures { WritesOnOk W.write_str_gives f.old result (received_text name.now number how) f.new }
{
    let client = name.as_str();
    write!(f, "received {client} {number} {how}")
}
