//! The lines that say what is noted of clients.
ghost use Rattle.std.specs.Prelude.{◌≡◌, map};
ghost use Rattle.tp_script.specs.Reading.{Gives};
ghost use Rattle.tp_lines.specs.Heads.{client_said, client_words, later_of, later_words, note_of};
ghost use Rattle.tp_lines.specs.Heads.{receives_of, sends_of};
ghost use Rattle.tp_lines.specs.Reading.{client_view};

use crate::bodies::{body_at, colons, place_at};
use crate::fences::name_unless;
use crate::line::{ClientNote, HeadLine};
use crate::name::Name;
use crate::words::{long_at, name_at};
use std::alloc::Global;
use tp_model::types::Body;
use tp_script::{LineError, LineFault};

/// The words of a `client` line, each in its place.
#[derive(Clone, Copy)]
pub(crate) struct ClientWords<'a> {
    name: &'a [u8],
    owner: &'a [u8],
    sent: &'a [u8],
    element: &'a [u8],
    received: &'a [u8],
    reply: &'a [u8],
    root: &'a [u8],
    body: &'a [u8],
    epoch: &'a [u8],
    said: &'a [u8],
    note: &'a [u8],
}

/// The words of an epoch, of a stage and a body, and of a name or `-`.
type LaterWords<'a> = (&'a [u8], &'a [u8], &'a [u8]);

// EPOCH STAGE:W0:W1:W2:W3 NOTE
fn later_words<'a>(words: &[&'a [u8]]) -> Result<LaterWords<'a>, LineError>
    ensures { Gives (λ x. (x.0.now, x.1.now, x.2.now)) result (later_words (map (λ x. x.now) words.now)) }
{
    match words {
        [] => Ok((b"1".as_slice(), b"0:0:0:0:0".as_slice(), b"-".as_slice())),
        [epoch, said, note] => {
            if colons(said) != 4 {
                return Err(LineFault::Syntax.into());
            }
            Ok((*epoch, *said, *note))
        }
        _ => Err(LineFault::Syntax.into()),
    }
}

// NAME OWNER SENT ELEMENT RECEIVED REPLY ROOT W0:W1:W2:W3 EPOCH STAGE:W0:W1:W2:W3 NOTE
#[tactic(auto, unfolding(crate::specs::Heads::client_words))]
fn client_words<'a>(words: &[&'a [u8]]) -> Result<ClientWords<'a>, LineError>
    ensures { Gives client_view result (client_words (map (λ x. x.now) words.now)) }
{
    let [
        name,
        owner,
        sent,
        element,
        received,
        reply,
        root,
        body,
        others @ ..,
    ] = words
    else {
        return Err(LineFault::Syntax.into());
    };
    if colons(body) != 3 {
        return Err(LineFault::Syntax.into());
    }
    let (epoch, said, note) = later_words(others)?;
    Ok(ClientWords {
        name,
        owner,
        sent,
        element,
        received,
        reply,
        root,
        body,
        epoch,
        said,
        note,
    })
}

/// An epoch, the stage and the words of a send, and a note.
type Later = (u64, (u16, Body), Option<Name>);

impl ClientWords<'_> {
    // Its number, and what it sent.
    #[tactic(auto, unfolding(crate::specs::Heads::sends_of))]
    fn sends(self) -> Result<(u64, u64, u64), LineError>
        ensures { Gives (λ x. x) result (sends_of (client_view self.entry)) }
    {
        let owner = long_at(self.owner)?;
        let sent = long_at(self.sent)?;
        let element = long_at(self.element)?;
        Ok((owner, sent, element))
    }

    // What it received.
    #[tactic(auto, unfolding(crate::specs::Heads::receives_of))]
    fn receives(self) -> Result<(u64, u64, u64), LineError>
        ensures { Gives (λ x. x) result (receives_of (client_view self.entry)) }
    {
        let received = long_at(self.received)?;
        let reply = long_at(self.reply)?;
        let root = long_at(self.root)?;
        Ok((received, reply, root))
    }

    // Its epoch, the words of its last send, and what it noted.
    #[tactic(auto, unfolding(crate::specs::Heads::later_of))]
    fn later(self, alloc: Global) -> Result<Later, LineError>
        ensures { Gives (λ x. x) result (later_of (client_view self.entry)) }
    {
        let note = name_unless(self.note)?;
        let epoch = long_at(self.epoch)?;
        let said = place_at(alloc, self.said)?;
        Ok((epoch, said, note))
    }

    // What is noted of it.
    #[tactic(auto, unfolding(crate::specs::Heads::note_of))]
    fn note(self, alloc: Global) -> Result<ClientNote, LineError>
        ensures { Gives (λ x. x) result (note_of (client_view self.entry)) }
    {
        let (owner, sent, element) = self.sends()?;
        let (received, reply, root) = self.receives()?;
        let body = body_at(alloc, self.body)?;
        let (epoch, (sent_stage, sent_body), note) = self.later(alloc)?;
        Ok(ClientNote {
            owner,
            sent,
            element,
            received,
            reply,
            root,
            body,
            epoch,
            sent_stage,
            sent_body,
            note,
        })
    }
}

/// `client NAME ..`
#[tactic(auto, unfolding(crate::specs::Heads::client_said))]
pub(crate) fn client_said(alloc: Global, words: &[&[u8]]) -> Result<HeadLine, LineError>
    ensures { Gives (λ x. x) result (client_said (map (λ x. x.now) words.now)) }
{
    let words = client_words(words)?;
    let name = name_at(words.name)?;
    let note = words.note(alloc)?;
    Ok(HeadLine::Client { name, note })
}
