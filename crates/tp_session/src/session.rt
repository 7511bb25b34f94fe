//! A session: what there is between two lines, and what a line does.
ghost use Rattle.std.specs.Prelude.{◌≡◌, IfOk, string_bytes};
ghost use Rattle.tp_lines.specs.Reading.{word_if};
ghost use Rattle.tp_lines.specs.Tags.{said_behind};
ghost use Rattle.tp_session.specs.Heads.{head_set};
ghost use Rattle.tp_session.specs.Said.{Says};
ghost use Rattle.tp_session.specs.Session.{command_step, does, finals, head_step, is_in_order, late_step, line_step};
ghost use Rattle.tp_session.specs.Session.{has_begun, or_refused, quietly, read_step_of, said_step, tagged};
ghost use Rattle.tp_session.specs.State.{begin};

use crate::dumps::line_told;
use crate::phase::Phase;
use crate::requests::told;
use crate::server::Server;
use crate::worker::Worker;
use std::alloc::{AllocError, Global};
use std::collections::BTreeMap;
use std::marker::Model;
use std::string::String;
use tp_answers::{Answer, line};
use tp_lines::{ClientNote, Command, HeadLine, Line, Name, read_behind, tag_in};
use tp_script::{LineError, LineFault};
use tp_store::store::{Limits, Store};

/// Elements, servers, workers and clients.
#[derive(Drop)]
pub struct Session {
    pub(crate) store: Store,
    pub(crate) servers: Vec<Server>,
    pub(crate) workers: BTreeMap<Name, Worker>,
    pub(crate) clients: BTreeMap<Name, ClientNote>,
    pub(crate) owners: u64,
    pub(crate) phase: Phase,
}

impl Model for Session {
    ghost use Rattle.tp_session.specs.State.{SessionState};

    ghost Value = { SessionState };

    ghost view = { λ s. record {
      store = s.store;
      servers = s.servers.items;
      workers = s.workers.entries;
      clients = s.clients.entries;
      owners = s.owners;
      phase = s.phase;
    } };
}

impl Session {
    /// A session before its first line.
    pub fn new(alloc: Global) -> Result<Session, AllocError>
        ensures { IfOk result (λ s. s ≡ begin) }
    {
        let limits = Limits {
            most: u64::MAX,
            keep: 1_000,
            attempts: 3,
        };
        let store = Store::new(alloc, limits)?;
        Ok(Session {
            store,
            servers: Vec::new(alloc),
            workers: BTreeMap::new(alloc),
            clients: BTreeMap::new(alloc),
            owners: 0,
            phase: Phase::InHead,
        })
    }
}

/// Each line of an answer behind its tag. Without an answer the tag is one.
fn tagged(alloc: Global, tag: &[u8], text: &[u8]) -> Result<Vec<u8>, AllocError>
    ensures { IfOk result (λ lines. lines.items ≡ tagged tag.now text.now) }
{
    let mut lines = Vec::new(alloc);
    if text.is_empty() {
        lines.push(b'@')?;
        lines.extend_from_slice(tag)?;
        lines.push(b'\n')?;
        return Ok(lines);
    }
    let mut begins = true;
    for byte in text {
        if begins {
            lines.push(b'@')?;
            lines.extend_from_slice(tag)?;
            lines.push(b' ')?;
        }
        lines.push(*byte)?;
        begins = *byte == b'\n';
    }
    Ok(lines)
}

impl Session {
    /// Has done what a line asks for.
    fn perform(&mut self, alloc: Global, command: &Command) -> Result<String, LineError>
        ensures { Says string_bytes result self.new self.old (does command.now self.old) }
    {
        match command {
            Command::Submit { stage, body } => self.submit(alloc, *stage, *body),
            Command::Kill { id } => self.kill(alloc, *id),
            Command::Cancel { root } => self.cancel(alloc, *root),
            Command::Requeue { id } => self.requeue(alloc, *id),
            Command::Release { id } => self.release(alloc, *id),
            Command::Read { id } => self.read(alloc, *id),
            Command::Reply { root } => self.replies(alloc, *root),
            Command::Collect { root } => self.collect(alloc, *root),
            Command::Family { root } => self.family(alloc, *root),
            Command::Errors => self.errors(alloc),
            Command::Count => self.count(alloc),
            Command::Depth => self.depth(alloc),
            Command::List { stage, from } => self.list(alloc, *stage, *from),
            Command::Account => self.account(alloc),
            Command::Holds => self.holds(alloc),
            Command::Dump => self.dump(alloc),
            Command::Restore => self.restored(alloc),
            Command::Drain(order) => self.drain(alloc, *order),
            Command::Sum { k } => self.sum(alloc, *k),
            Command::Balance { name, k } => self.balance(alloc, name, *k),
            Command::Act { name, act } => self.act(alloc, name, act),
            Command::Fenced { name, fence, act } => self.fenced(alloc, name, *fence, act),
            Command::Leave { name } => self.leave(alloc, name),
            Command::Send {
                name,
                epoch,
                number,
                stage,
                body,
            } => self.send(alloc, name, *epoch, *number, *stage, *body),
            Command::Receive {
                name,
                epoch,
                number,
                root,
                note,
            } => self.receive(alloc, name, *epoch, *number, *root, note),
            Command::Last { name } => self.last(alloc, name),
            Command::Forget { name } => self.forget(alloc, name),
        }
    }

    /// Whether a command may come now.
    fn is_in_order(&self, command: &Command) -> bool
        ensures { result ≡ is_in_order self.now.phase command.now }
    {
        let is_restore = matches!(command, Command::Restore);
        match self.phase {
            Phase::InHead => true,
            Phase::Restoring => is_restore,
            Phase::Begun => !is_restore,
        }
    }

    /// Has a command done, which ends the head.
    fn command(&mut self, alloc: Global, command: &Command) -> Result<String, LineError>
        ensures { Says string_bytes result self.new self.old (command_step command.now self.old) }
    {
        if !self.is_in_order(command) {
            return Err(LineError::Fault(LineFault::Order));
        }
        let text = self.perform(alloc, command)?;
        self.phase = Phase::Begun;
        Ok(text)
    }

    /// Has done what a line of a head says behind it: workers and clients alone come there, and settings change.
    fn late(&mut self, alloc: Global, line: HeadLine) -> Result<String, LineError>
        ensures { Says string_bytes result self.new self.old (late_step line self.old) }
    {
        match line {
            HeadLine::Limit { attempts } => {
                self.set_attempts(attempts)?;
                line_told(alloc, &HeadLine::Limit { attempts })
            }
            HeadLine::Max { elements } => {
                self.set_most(elements)?;
                line_told(alloc, &HeadLine::Max { elements })
            }
            HeadLine::Keep { requests } => {
                self.set_keep(requests)?;
                line_told(alloc, &HeadLine::Keep { requests })
            }
            HeadLine::Worker { name, stage } => self.join(alloc, &name, stage),
            HeadLine::Register { name } => self.register_line(alloc, &name),
            HeadLine::Renew { name } => self.renew_line(alloc, &name),
            _ => Err(LineError::Fault(LineFault::Order)),
        }
    }

    /// Has done what a line of a head says.
    fn head(&mut self, alloc: Global, line: HeadLine) -> Result<String, LineError>
        ensures { Says string_bytes result self.new self.old (head_step self.old.phase line self.old) }
    {
        match self.phase {
            Phase::Begun => self.late(alloc, line),
            Phase::InHead => self.set_quietly(alloc, line),
            Phase::Restoring => self.set_quietly(alloc, line),
        }
    }

    /// Sets what a line of the head says, which has no answer.
    fn set_quietly(&mut self, alloc: Global, line: HeadLine) -> Result<String, LineError>
        ensures { Says string_bytes result self.new self.old (quietly (head_set line self.old)) }
    {
        self.set_in_head(alloc, line)?;
        Ok(String::new(alloc))
    }

    /// Has done what a line says.
    fn say(&mut self, alloc: Global, line: Line) -> Result<String, LineError>
        ensures { Says string_bytes result self.new self.old (said_step line self.old) }
    {
        match line {
            Line::Nothing => Ok(String::new(alloc)),
            Line::Head(line) => self.head(alloc, line),
            Line::Do(command) => self.command(alloc, &command),
            Line::Version => told(alloc, Answer::Version),
        }
    }

    /// Reads what stands behind the tag of a line, and has done what it says.
    fn read_and_say(
        &mut self,
        alloc: Global,
        tag: Option<&[u8]>,
        bytes: &[u8],
    ) -> Result<String, LineError>
        ensures { Says string_bytes result self.new self.old
            (read_step_of (said_behind (word_if tag.entry) bytes.now) self.old) }
    {
        let line = read_behind(alloc, tag, bytes)?;
        self.say(alloc, line)
    }

    /// Answers a line, the `number`-th of all, with no more than the line's end behind it; an empty text where
    /// it has no answer. Behind a tag each line of the answer has that tag, and there is one line at least. It
    /// fails where memory or numbers run out.
    pub fn answer(
        &mut self,
        alloc: Global,
        number: u64,
        bytes: &[u8],
    ) -> Result<Vec<u8>, AllocError>
        ensures { IfOk result (λ text. (text.items, self.new) ≡ line_step number bytes.now self.old) }
    {
        let tag = tag_in(bytes);
        let text = self.answer_behind(alloc, number, tag, bytes)?;
        match tag {
            None => Ok(text.into_bytes()),
            Some(tag) => tagged(alloc, tag, text.as_bytes()),
        }
    }

    /// Answers what stands behind the tag of a line, without the tag.
    fn answer_behind(
        &mut self,
        alloc: Global,
        number: u64,
        tag: Option<&[u8]>,
        bytes: &[u8],
    ) -> Result<String, AllocError>
        ensures { IfOk result (λ text. (string_bytes text, self.new) ≡ or_refused number self.old
            (read_step_of (said_behind (word_if tag.entry) bytes.now) self.old)) }
    {
        match self.read_and_say(alloc, tag, bytes) {
            Ok(text) => Ok(text),
            Err(LineError::NoMemory) => Err(AllocError),
            Err(LineError::Fault(fault)) => line(
                alloc,
                Answer::RefusedLine {
                    line: number,
                    fault,
                },
            ),
        }
    }

    /// Whether its head is over, by a first command.
    pub fn has_begun(&self) -> bool
        ensures { result ≡ has_begun self.now.phase }
    {
        self.phase == Phase::Begun
    }

    /// The final lines: the registers of each server.
    pub fn finals(&self, alloc: Global) -> Result<String, AllocError>
        ensures { IfOk result (λ text. string_bytes text ≡ finals self.now) }
    {
        let mut text = String::new(alloc);
        for server in &self.servers {
            let name = server.name();
            let registers = server.registers();
            let one = line(alloc, Answer::Final { name, registers })?;
            text.push_str(one.as_str())?;
        }
        Ok(text)
    }
}
