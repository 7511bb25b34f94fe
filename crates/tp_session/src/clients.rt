//! Clients that may crash: their sends and receives are counted.
ghost use Rattle.std.specs.Prelude.{◌≡◌, ◌<◌, IfSome, OnOk, length, string_bytes};
ghost use Rattle.tp_store.specs.Elements.{element_at};
ghost use Rattle.tp_session.specs.Clients.{forget_step, is_own_at, last_by, of_client, receive_found, receive_next};
ghost use Rattle.tp_session.specs.Clients.{differs, is_of_epoch, is_same, receive_step, register_step, registered};
ghost use Rattle.tp_session.specs.Clients.{renew_step, renewed, send_again, send_by, send_step};
ghost use Rattle.tp_session.specs.Roles.{client_at, is_of_worker, is_taken, server_at, with_client, worker_at};
ghost use Rattle.tp_session.specs.Said.{Says};
ghost use Rattle.tp_session.specs.declared.standing.Standing.TheVariants as standing;

use crate::requests::told;
use crate::session::Session;
use crate::standing::Standing;
use crate::worker::Worker;
use std::alloc::{AllocError, Global};
use std::string::String;
use tp_answers::{Answer, ReceivedAs, SentAs};
use tp_lines::{ClientNote, Name};
use tp_model::types::Body;
use tp_script::{LineError, LineFault};
use tp_store::answers::Refusal;
use tp_store::element::Element;
use tp_store::group::Group;

/// Whether a line is of a client's epoch: one that names none is.
fn is_of_epoch(epoch: Option<u64>, note: &ClientNote) -> bool
    ensures { result ≡ is_of_epoch epoch note.now }
{
    match epoch {
        None => true,
        Some(epoch) => epoch == note.epoch,
    }
}

/// Whether the words of two bodies are the same.
fn is_same(a: &Body, b: &Body) -> bool
    ensures { result ≡ is_same a.now b.now }
{
    a[0] == b[0] && a[1] == b[1] && a[2] == b[2] && a[3] == b[3]
}

/// Whether a client's last send had other words, where it is known which ones.
fn differs(stage: u16, body: &Body, note: &ClientNote) -> bool
    ensures { result ≡ differs stage body.now note.now }
{
    note.sent_stage != 0 && !(stage == note.sent_stage && is_same(body, &note.sent_body))
}

/// A word once more, if there is one.
fn copied(word: &Option<Name>) -> Option<Name>
    ensures { result ≡ word.now }
{
    match word {
        None => None,
        Some(word) => Some(word.copy()),
    }
}

impl Session {
    /// The place of the server of this name.
    pub(crate) fn server_at(&self, name: &Name) -> Option<usize>
        ensures place { result ≡ server_at name.now self.now }
        ensures within { IfSome result (λ i. i < length self.now.servers) }
    {
        self.servers
            .iter()
            .position(|server| server.name().as_str() == name.as_str())
    }

    /// The worker of this name.
    pub(crate) fn worker_at(&self, name: &Name) -> Option<Worker>
        ensures { result ≡ worker_at name.now self.now }
    {
        match self.workers.get(name) {
            Some(worker) => Some(*worker),
            None => None,
        }
    }

    /// What is noted of the client of this name.
    pub(crate) fn client_at(&self, name: &Name) -> Option<ClientNote>
        ensures { result ≡ client_at name.now self.now }
    {
        match self.clients.get(name) {
            Some(note) => Some(note.copy()),
            None => None,
        }
    }

    /// Whether a server or a worker has this name.
    pub(crate) fn is_of_worker(&self, name: &Name) -> bool
        ensures { result ≡ is_of_worker name.now self.now }
    {
        self.server_at(name).is_some() || self.worker_at(name).is_some()
    }

    /// Whether anybody has it.
    pub(crate) fn is_taken(&self, name: &Name) -> bool
        ensures { result ≡ is_taken name.now self.now }
    {
        self.is_of_worker(name) || self.client_at(name).is_some()
    }

    /// Notes this of the client of this name.
    pub(crate) fn note(&mut self, name: &Name, note: ClientNote) -> Result<(), AllocError>
        ensures { OnOk result (self.new ≡ with_client name.now note self.old) }
    {
        match self.clients.insert(name.copy(), note) {
            Ok(_) => Ok(()),
            Err(_) => Err(AllocError),
        }
    }

    /// A client of this name is known from now on.
    pub(crate) fn register(&mut self, name: &Name) -> Result<(), AllocError>
        ensures { OnOk result (self.new ≡ registered name.now self.old) }
    {
        if self.client_at(name).is_some() {
            return Ok(());
        }
        let Some(owners) = self.owners.checked_add(1) else {
            return Err(AllocError);
        };
        let note = ClientNote {
            owner: self.owners,
            sent: 0,
            element: 0,
            received: 0,
            reply: 0,
            root: 0,
            body: [0; 4],
            epoch: 1,
            sent_stage: 0,
            sent_body: [0; 4],
            note: None,
        };
        self.note(name, note)?;
        self.owners = owners;
        Ok(())
    }

    /// The next epoch of the client of this name begins; the first one where it comes only now.
    pub(crate) fn renew(&mut self, name: &Name) -> Result<(), AllocError>
        ensures { OnOk result (self.new ≡ renewed name.now self.old) }
    {
        let Some(mut note) = self.client_at(name) else {
            return self.register(name);
        };
        let Some(epoch) = note.epoch.checked_add(1) else {
            return Err(AllocError);
        };
        note.epoch = epoch;
        self.note(name, note)
    }

    /// `register NAME` behind the head.
    pub(crate) fn register_line(&mut self, alloc: Global, name: &Name) -> Result<String, LineError>
        ensures { Says string_bytes result self.new self.old (register_step name.now self.old) }
    {
        if self.is_of_worker(name) {
            return Err(LineError::Fault(LineFault::BadName));
        }
        let epoch = match self.client_at(name) {
            Some(note) => note.epoch,
            None => 1,
        };
        let text = told(alloc, Answer::Registered { name, epoch })?;
        match self.register(name) {
            Ok(()) => Ok(text),
            Err(_) => Err(LineError::NoMemory),
        }
    }

    /// `register NAME new` behind the head.
    pub(crate) fn renew_line(&mut self, alloc: Global, name: &Name) -> Result<String, LineError>
        ensures { Says string_bytes result self.new self.old (renew_step name.now self.old) }
    {
        if self.is_of_worker(name) {
            return Err(LineError::Fault(LineFault::BadName));
        }
        let epoch = match self.client_at(name) {
            Some(note) => match note.epoch.checked_add(1) {
                Some(epoch) => epoch,
                None => return Err(LineError::NoMemory),
            },
            None => 1,
        };
        let text = told(alloc, Answer::Registered { name, epoch })?;
        match self.renew(name) {
            Ok(()) => Ok(text),
            Err(_) => Err(LineError::NoMemory),
        }
    }

    /// `send NAME/EPOCH N STAGE KEY AMOUNT W2 W3`
    pub(crate) fn send(
        &mut self,
        alloc: Global,
        name: &Name,
        epoch: Option<u64>,
        number: u64,
        stage: u16,
        body: Body,
    ) -> Result<String, LineError>
        ensures { Says string_bytes result self.new self.old
            (send_step name.now epoch number stage body self.old) }
    {
        if self.is_of_worker(name) {
            return Err(LineError::Fault(LineFault::BadName));
        }
        let Some(note) = self.client_at(name) else {
            return told(alloc, Answer::Refused(Refusal::NotThere));
        };
        if !is_of_epoch(epoch, &note) {
            return told(alloc, Answer::Fenced);
        }
        match Standing::of(number, note.sent) {
            Standing::Next => self.send_next(alloc, name, number, note, stage, body),
            Standing::Again => {
                let differs = differs(stage, &body, &note);
                self.send_again(alloc, name, number, differs, &note)
            }
            Standing::Before => {
                let sent = SentAs::Before;
                told(alloc, Answer::Sent { name, number, sent })
            }
            Standing::Behind => told(alloc, Answer::Gap),
        }
    }

    /// What a client is told that sends its last send again.
    fn send_again(
        &self,
        alloc: Global,
        name: &Name,
        number: u64,
        differs: bool,
        note: &ClientNote,
    ) -> Result<String, LineError>
        ensures { Says string_bytes result self.now self.now
            (send_again name.now number differs note.now self.now) }
    {
        if differs {
            return told(alloc, Answer::Differs);
        }
        let sent = SentAs::Element { id: note.element };
        told(alloc, Answer::Sent { name, number, sent })
    }

    /// Submits what a client's next send says.
    fn send_next(
        &mut self,
        alloc: Global,
        name: &Name,
        number: u64,
        note: ClientNote,
        stage: u16,
        body: Body,
    ) -> Result<String, LineError>
        ensures { Says string_bytes result self.new self.old
            (send_by name.now number stage body standing.Next note self.old) }
    {
        let mut note = note;
        match self.store.submit(stage, body, Some(note.owner)) {
            Ok(id) => {
                let sent = SentAs::Element { id };
                let text = told(alloc, Answer::Sent { name, number, sent })?;
                note.sent = number;
                note.element = id;
                note.sent_stage = stage;
                note.sent_body = body;
                match self.note(name, note) {
                    Ok(()) => Ok(text),
                    Err(_) => Err(LineError::NoMemory),
                }
            }
            Err(Refusal::NoMemory) => Err(LineError::NoMemory),
            Err(Refusal::NoNumber) => Err(LineError::NoMemory),
            Err(why) => told(alloc, Answer::Refused(why)),
        }
    }

    /// `receive NAME/EPOCH N ROOT note WORD`
    pub(crate) fn receive(
        &mut self,
        alloc: Global,
        name: &Name,
        epoch: Option<u64>,
        number: u64,
        root: Option<u64>,
        word: &Option<Name>,
    ) -> Result<String, LineError>
        ensures { Says string_bytes result self.new self.old
            (receive_step name.now epoch number root word.now self.old) }
    {
        if self.is_of_worker(name) {
            return Err(LineError::Fault(LineFault::BadName));
        }
        let Some(note) = self.client_at(name) else {
            return told(alloc, Answer::Refused(Refusal::NotThere));
        };
        if !is_of_epoch(epoch, &note) {
            return told(alloc, Answer::Fenced);
        }
        let received = match Standing::of(number, note.received) {
            Standing::Next => {
                let mut note = note;
                note.note = copied(word);
                return self.receive_next(alloc, name, number, root, note);
            }
            Standing::Again => ReceivedAs::Reply {
                id: note.reply,
                root: note.root,
                body: note.body,
            },
            Standing::Before => ReceivedAs::Before,
            Standing::Behind => return told(alloc, Answer::Gap),
        };
        told(
            alloc,
            Answer::Received {
                name,
                number,
                received,
            },
        )
    }

    /// Whether the element with this id is a request of a client.
    fn is_own(&self, owner: u64, root: u64) -> bool
        ensures { result ≡ is_own_at owner root (element_at root self.now.store.elements) }
    {
        match self.store.get(root) {
            None => false,
            Some(element) => element.root == root && element.owner == Some(owner),
        }
    }

    /// Takes what a client's next receive asks for.
    fn receive_next(
        &mut self,
        alloc: Global,
        name: &Name,
        number: u64,
        root: Option<u64>,
        note: ClientNote,
    ) -> Result<String, LineError>
        ensures { Says string_bytes result self.new self.old
            (receive_next name.now number root note self.old) }
    {
        match root {
            None => {
                let found = self.store.first(Group::Owned(note.owner), 0);
                self.receive_found(alloc, name, number, note, found)
            }
            Some(root) => {
                if !self.is_own(note.owner, root) {
                    return told(alloc, Answer::Refused(Refusal::NotThere));
                }
                let found = self.store.first(Group::Replies(root), 0);
                self.receive_found(alloc, name, number, note, found)
            }
        }
    }

    /// Takes the reply that was found, if there is one.
    fn receive_found(
        &mut self,
        alloc: Global,
        name: &Name,
        number: u64,
        note: ClientNote,
        found: Option<(u64, Element)>,
    ) -> Result<String, LineError>
        ensures { Says string_bytes result self.new self.old
            (receive_found name.now number note found self.old) }
    {
        let Some((id, _)) = found else {
            let received = ReceivedAs::Nothing;
            return told(
                alloc,
                Answer::Received {
                    name,
                    number,
                    received,
                },
            );
        };
        match self.store.collect(id) {
            Ok(element) => {
                let root = element.root;
                let body = element.body;
                let received = ReceivedAs::Reply { id, root, body };
                let text = told(
                    alloc,
                    Answer::Received {
                        name,
                        number,
                        received,
                    },
                )?;
                let mut note = note;
                note.received = number;
                note.reply = id;
                note.root = root;
                note.body = body;
                match self.note(name, note) {
                    Ok(()) => Ok(text),
                    Err(_) => Err(LineError::NoMemory),
                }
            }
            Err(Refusal::NoMemory) => Err(LineError::NoMemory),
            Err(Refusal::NoNumber) => Err(LineError::NoMemory),
            Err(_) => {
                let received = ReceivedAs::Nothing;
                told(
                    alloc,
                    Answer::Received {
                        name,
                        number,
                        received,
                    },
                )
            }
        }
    }

    /// `last NAME` of a client.
    pub(crate) fn last_of_client(&self, alloc: Global, name: &Name) -> Result<String, LineError>
        ensures { Says string_bytes result self.now self.now (of_client name.now (last_by name.now) self.now) }
    {
        if self.is_of_worker(name) {
            return Err(LineError::Fault(LineFault::BadName));
        }
        let Some(note) = self.client_at(name) else {
            return told(alloc, Answer::Refused(Refusal::NotThere));
        };
        let note = &note;
        told(alloc, Answer::LastClient { name, note })
    }

    /// `forget NAME`
    pub(crate) fn forget(&mut self, alloc: Global, name: &Name) -> Result<String, LineError>
        ensures { Says string_bytes result self.new self.old (forget_step name.now self.old) }
    {
        if self.is_of_worker(name) {
            return Err(LineError::Fault(LineFault::BadName));
        }
        if self.client_at(name).is_none() {
            return told(alloc, Answer::Refused(Refusal::NotThere));
        }
        let text = told(alloc, Answer::Forgotten { name })?;
        let _ = self.clients.remove(name);
        Ok(text)
    }
}
