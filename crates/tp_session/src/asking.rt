//! Lines that only ask: they change nothing, whatever they are answered. Who keeps lines need not keep them.
ghost use Rattle.std.specs.Prelude.{◌≡◌, ℕ, IfOk, true};
ghost use Rattle.tp_session.specs.Asking.{act_asks, asks, gets_none, line_asks, only_asks};
ghost use Rattle.tp_session.specs.Roles.{worker_at};
ghost use Rattle.tp_session.specs.Session.{line_step};

use crate::session::Session;
use std::alloc::{AllocError, Global};
use tp_lines::{Act, Command, Line, Name, read_behind, tag_in};
use tp_script::LineError;
use tp_store::group::Group;

impl Session {
    /// Whether a line only asks: the head is over, and it reads, is empty or a comment, is refused as faulty,
    /// or claims what it doesn't get. It fails where memory runs out.
    pub fn only_asks(&self, alloc: Global, bytes: &[u8]) -> Result<bool, AllocError>
        ensures is { IfOk result (λ only. only ≡ only_asks bytes.now self.now) }
        ensures stays { IfOk result (λ only. only ≡ true
            → (n : ℕ) → (line_step n bytes.now self.now).1 ≡ self.now) }
    {
        // (an iterator's contract says that the names are in order)
        let _in_order = self.workers.iter();
        let only = self.is_only_asking(alloc, bytes)?;
        Ok(only)
    }

    /// The same.
    fn is_only_asking(&self, alloc: Global, bytes: &[u8]) -> Result<bool, AllocError>
        ensures { IfOk result (λ only. only ≡ only_asks bytes.now self.now) }
    {
        if !self.has_begun() {
            return Ok(false);
        }
        match read_behind(alloc, tag_in(bytes), bytes) {
            Ok(line) => Ok(self.line_asks(&line)),
            Err(LineError::NoMemory) => Err(AllocError),
            Err(LineError::Fault(_)) => Ok(true),
        }
    }

    /// Whether this changes nothing behind the head.
    fn line_asks(&self, line: &Line) -> bool
        ensures { result ≡ line_asks line.now self.now }
    {
        match line {
            Line::Nothing => true,
            Line::Version => true,
            Line::Head(_) => false,
            Line::Do(command) => self.asks(command),
        }
    }

    /// Whether a command changes nothing.
    fn asks(&self, command: &Command) -> bool
        ensures { result ≡ asks command.now self.now }
    {
        match command {
            Command::Act { name, act } => self.act_asks(name, act),
            Command::Read { .. } => true,
            Command::Reply { .. } => true,
            Command::Family { .. } => true,
            Command::Errors => true,
            Command::Count => true,
            Command::Depth => true,
            Command::List { .. } => true,
            Command::Account => true,
            Command::Holds => true,
            Command::Dump => true,
            Command::Sum { .. } => true,
            Command::Balance { .. } => true,
            Command::Last { .. } => true,
            Command::Submit { .. } => false,
            Command::Kill { .. } => false,
            Command::Cancel { .. } => false,
            Command::Requeue { .. } => false,
            Command::Release { .. } => false,
            Command::Collect { .. } => false,
            Command::Restore => false,
            Command::Drain(_) => false,
            Command::Fenced { .. } => false,
            Command::Leave { .. } => false,
            Command::Send { .. } => false,
            Command::Receive { .. } => false,
            Command::Forget { .. } => false,
        }
    }

    /// Whether this claims what it doesn't get.
    fn act_asks(&self, name: &Name, act: &Act) -> bool
        ensures { result ≡ act_asks name.now act.now self.now }
    {
        match act {
            Act::Claim => self.gets_none(name),
            Act::Next => self.gets_none(name),
            Act::Take { .. } => false,
            Act::Turn => false,
            Act::Prepare => false,
            Act::Commit { .. } => false,
            Act::Abort => false,
            Act::Drop => false,
        }
    }

    /// Whether this is a worker that has something in hand, or in whose stage nothing waits.
    fn gets_none(&self, name: &Name) -> bool
        ensures { result ≡ gets_none (worker_at name.now self.now) self.now.store }
    {
        let Some(worker) = self.worker_at(name) else {
            return false;
        };
        if worker.hand.is_some() {
            return true;
        }
        self.store.first(Group::Queue(worker.stage), 0).is_none()
    }
}
