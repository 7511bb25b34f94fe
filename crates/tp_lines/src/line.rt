//! What a line says: something of the head, or a command.
ghost use Rattle.std.specs.Prelude.{◌≡◌};

use crate::name::Name;
use arrayvec::ArrayVec;
use std::marker::Model;
use tp_model::types::Body;
use tp_script::Kind;
use tp_server::{Order, Recipe};
use tp_store::draft::Draft;
use tp_store::element::Element;

/// A `server` line: what it is called, its kind, and what it does with an element.
#[derive(Drop)]
pub struct ServerLine {
    pub name: Name,
    pub kind: Kind,
    pub recipe: Recipe,
}

/// The recipe has no fault.
impl Model for ServerLine {
    ghost use Rattle.std.specs.Prelude.{◌≡◌, Ok};
    ghost use Rattle.tp_server.specs.Check.{check_of};
    ghost use Rattle.tp_lines.specs.Lines.{ServerLineView};

    ghost Value = { ServerLineView };

    ghost view = { λ s. record { name = s.name; kind = s.kind; recipe = s.recipe } };

    ghost invariant = { λ s. check_of s.recipe ≡ Ok tt };
}

/// What is noted of a client that may crash. Without a send or a receive its numbers are 0.
#[derive(Drop)]
pub struct ClientNote {
    /// Its number among all clients that ever were, by which the store knows its requests.
    pub owner: u64,
    /// How many of its sends were done.
    pub sent: u64,
    /// The element that the last of them submitted.
    pub element: u64,
    /// How many of its receives took a reply.
    pub received: u64,
    /// The reply that the last of them took.
    pub reply: u64,
    /// The root of that reply.
    pub root: u64,
    /// The words of that reply.
    pub body: Body,
    /// Which of those who have had its name it is: those of the ones before are refused.
    pub epoch: u64,
    /// The stage of the last send, or 0 where it isn't known.
    pub sent_stage: u16,
    /// The words of the last send.
    pub sent_body: Body,
    /// What it noted with the last receive.
    pub note: Option<Name>,
}

impl ClientNote {
    /// The same once more.
    pub fn copy(&self) -> ClientNote
        ensures { result ≡ self.now }
    {
        ClientNote {
            owner: self.owner,
            sent: self.sent,
            element: self.element,
            received: self.received,
            reply: self.reply,
            root: self.root,
            body: self.body,
            epoch: self.epoch,
            sent_stage: self.sent_stage,
            sent_body: self.sent_body,
            note: match &self.note {
                Some(note) => Some(note.copy()),
                None => None,
            },
        }
    }
}

/// Which work a worker must have in hand so that its commit or its abort is done.
#[derive(Clone, Copy)]
pub struct Fence {
    /// The element.
    pub id: u64,
    /// Which try at it that is, of all its rounds.
    pub tries: u16,
}

/// How a worker's last unit of work ended.
#[derive(Clone, Copy)]
pub enum UnitEnd {
    /// It committed, and so many outputs were born, with ids from `first` on.
    Done {
        id: u64,
        unit: u64,
        first: u64,
        count: u64,
    },
    /// It was aborted by its worker.
    Aborted {
        id: u64,
    },
    /// Another caller had aborted it.
    Lost {
        id: u64,
    },
}

/// A line that says what there is. Those of a dump say all that there is.
#[derive(Drop)]
pub enum HeadLine {
    /// `limit N`: how many attempts an element has in a round, 1 to 7.
    Limit {
        attempts: u8,
    },
    /// `max N`: how many elements may be alive so that a client may submit one more.
    Max {
        elements: u64,
    },
    /// `keep N`: how many requests are kept behind their ends.
    Keep {
        requests: u64,
    },
    /// `server NAME KIND STAGE REGISTERS ACT OUT..`
    Server(ServerLine),
    /// `start NAME K V`: register K of a server holds V.
    Start {
        name: Name,
        k: u64,
        value: u64,
    },
    /// `worker NAME STAGE`: a worker of this stage, 1 to 999 and not 15.
    Worker {
        name: Name,
        stage: u16,
    },
    /// `register NAME`: notes are kept of a client.
    Register {
        name: Name,
    },
    /// `register NAME new`: the same, and those who had the name before are fenced off.
    Renew {
        name: Name,
    },
    /// `numbers NEXT UNITS OWNERS`: the next id, the next unit, and the number of the next client.
    Numbers {
        next: u64,
        units: u64,
        owners: u64,
    },
    /// `element ID STAGE:W0:W1:W2:W3 ROOT MAKER OWNER ROUNDS:EARLIER STATUS ..`: an element, and how it stands.
    Element {
        id: u64,
        element: Element,
    },
    /// `over ROOT`: the next one of the requests that are over.
    Over {
        root: u64,
    },
    /// `settled STAGE CONSUMED KILLED`: how many of a stage were consumed and killed, forgotten ones too.
    Settled {
        stage: u16,
        consumed: u64,
        killed: u64,
    },
    /// `hand NAME ID UNIT TRY`: what a server or a worker has taken.
    Hand {
        name: Name,
        id: u64,
        unit: u64,
        tries: u16,
    },
    /// `prepared NAME`: the work of a server is prepared.
    Prepared {
        name: Name,
    },
    /// `dropped NAME`: a server's desk was dropped.
    Dropped {
        name: Name,
    },
    /// `from NAME ID`: where `next` of a server or a worker goes on.
    From {
        name: Name,
        id: u64,
    },
    /// `ended NAME ..`: how a worker's last unit of work ended.
    Ended {
        name: Name,
        end: UnitEnd,
    },
    /// `client NAME OWNER SENT ELEMENT RECEIVED REPLY ROOT W0:W1:W2:W3 EPOCH STAGE:W0:W1:W2:W3 NOTE`: what is
    /// noted of a client.
    Client {
        name: Name,
        note: ClientNote,
    },
}

/// What a server or a worker does.
#[derive(Drop)]
pub enum Act {
    /// `claim NAME`: it takes the element with the least id.
    Claim,
    /// `next NAME`: it takes the element whose turn it is.
    Next,
    /// `take NAME ID`: it takes the element with this id.
    Take { id: u64 },
    /// `turn NAME`: it takes the element with the least id, does its work and commits.
    Turn,
    /// `prepare NAME`: it does its work.
    Prepare,
    /// `commit NAME OUT..`: it commits, a worker with these outputs.
    Commit { drafts: ArrayVec<Draft, 4> },
    /// `abort NAME`: it gives up what it took.
    Abort,
    /// `drop NAME`: it gives up what it took, and does nothing more.
    Drop,
}

/// A line that asks for something.
#[derive(Drop)]
pub enum Command {
    /// `submit STAGE KEY AMOUNT W2 W3`
    Submit {
        stage: u16,
        body: Body,
    },
    /// `kill ID`
    Kill {
        id: u64,
    },
    /// `cancel ROOT`
    Cancel {
        root: u64,
    },
    /// `requeue ID`
    Requeue {
        id: u64,
    },
    /// `release ID`
    Release {
        id: u64,
    },
    /// `read ID`
    Read {
        id: u64,
    },
    /// `reply ROOT`
    Reply {
        root: u64,
    },
    /// `collect ROOT`
    Collect {
        root: u64,
    },
    /// `family ROOT`
    Family {
        root: u64,
    },
    /// `errors`
    Errors,
    /// `count`
    Count,
    /// `depth`
    Depth,
    /// `list STAGE FROM`: the stage is 1 to 999.
    List {
        stage: u16,
        from: u64,
    },
    /// `account`
    Account,
    /// `holds`
    Holds,
    /// `dump`
    Dump,
    /// `restore`
    Restore,
    /// `drain` or `drain next`
    Drain(Order),
    /// `sum K`
    Sum {
        k: u64,
    },
    /// `balance NAME K`
    Balance {
        name: Name,
        k: u64,
    },
    /// A command of a server or a worker.
    Act {
        name: Name,
        act: Act,
    },
    /// `commit NAME =ID:TRY OUT..`, `abort NAME =ID:TRY`: a worker's, where it has just that in hand.
    Fenced {
        name: Name,
        fence: Fence,
        act: Act,
    },
    /// `leave NAME`
    Leave {
        name: Name,
    },
    /// `send NAME/EPOCH N STAGE KEY AMOUNT W2 W3`: N counts from 1.
    Send {
        name: Name,
        epoch: Option<u64>,
        number: u64,
        stage: u16,
        body: Body,
    },
    /// `receive NAME/EPOCH N ROOT note WORD`
    Receive {
        name: Name,
        epoch: Option<u64>,
        number: u64,
        root: Option<u64>,
        note: Option<Name>,
    },
    /// `last NAME`
    Last {
        name: Name,
    },
    /// `forget NAME`
    Forget {
        name: Name,
    },
}

/// What a line says.
#[derive(Drop)]
pub enum Line {
    /// Nothing: it is empty, or a comment.
    Nothing,
    /// Something of what there is.
    Head(HeadLine),
    /// It asks for this.
    Do(Command),
    /// `version`: it asks which program this is.
    Version,
}
