//! What the lines of a head set.
ghost use Rattle.std.specs.Prelude.{◌≡◌, Ok, Some, string_bytes};
ghost use Rattle.tp_store.specs.Restoring.{put_back_of, put_over_of, set_settled_of};
ghost use Rattle.tp_session.specs.Heads.{attempts_set, awaits_restore, client_set, ended_as, from_set, hand_set};
ghost use Rattle.tp_session.specs.Heads.{has_hand, head_set, keep_set, most_set, numbers_set, register_set};
ghost use Rattle.tp_session.specs.Heads.{renew_set};
ghost use Rattle.tp_session.specs.Heads.{server_changed, server_from, server_has, server_set, set, told_back};
ghost use Rattle.tp_session.specs.Heads.{with_drop, with_prepared, with_start, worker_set};
ghost use Rattle.tp_session.specs.Roles.{with_worker, worker_at};
ghost use Rattle.tp_session.specs.Said.{Says, Sets};
ghost use Rattle.tp_session.specs.Session.{join_by};

use crate::hand::Hand;
use crate::phase::Phase;
use crate::requests::told;
use crate::server::Server;
use crate::session::Session;
use crate::worker::Worker;
use std::alloc::Global;
use std::string::String;
use tp_answers::Answer;
use tp_lines::{ClientNote, HeadLine, Name, ServerLine, UnitEnd};
use tp_script::{LineError, LineFault, MAX_SERVERS};
use tp_store::answers::Refusal;
use tp_store::element::Element;

/// A name that isn't there, or is there already.
const BAD_NAME: LineError = LineError::Fault(LineFault::BadName);

/// What was told contradicts what is there.
const BAD_NUMBER: LineError = LineError::Fault(LineFault::BadNumber);

/// Whether `restore` alone may come behind such a line.
fn awaits_restore(line: &HeadLine) -> bool
    ensures { result ≡ awaits_restore line.now }
{
    match line {
        HeadLine::Limit { .. } => false,
        HeadLine::Max { .. } => false,
        HeadLine::Keep { .. } => false,
        HeadLine::Server(_) => false,
        HeadLine::Start { .. } => false,
        HeadLine::Worker { .. } => false,
        HeadLine::Register { .. } => false,
        HeadLine::Renew { .. } => false,
        _ => true,
    }
}

impl Session {
    /// Sets what a line of the head says.
    pub(crate) fn set_in_head(&mut self, alloc: Global, line: HeadLine) -> Result<(), LineError>
        ensures { Sets result self.new self.old (head_set line self.old) }
    {
        let waits = awaits_restore(&line);
        self.set(alloc, line)?;
        if waits {
            self.phase = Phase::Restoring;
        }
        Ok(())
    }

    /// The same, but for the phase.
    fn set(&mut self, alloc: Global, line: HeadLine) -> Result<(), LineError>
        ensures { Sets result self.new self.old (set line self.old) }
    {
        match line {
            HeadLine::Limit { attempts } => self.set_attempts(attempts),
            HeadLine::Max { elements } => self.set_most(elements),
            HeadLine::Keep { requests } => self.set_keep(requests),
            HeadLine::Server(line) => self.set_server(line),
            HeadLine::Start { name, k, value } => self.set_start(&name, k, value),
            HeadLine::Worker { name, stage } => self.set_worker(&name, stage),
            HeadLine::Register { name } => self.set_registered(&name),
            HeadLine::Renew { name } => self.set_renewed(&name),
            HeadLine::Numbers {
                next,
                units,
                owners,
            } => self.set_numbers(next, units, owners),
            HeadLine::Element { id, element } => self.set_element(id, element),
            HeadLine::Over { root } => self.set_over(root),
            HeadLine::Settled {
                stage,
                consumed,
                killed,
            } => self.set_settled(stage, consumed, killed),
            HeadLine::Hand {
                name,
                id,
                unit,
                tries,
            } => self.set_hand(&name, Hand { id, unit, tries }),
            HeadLine::Prepared { name } => self.set_prepared(&name),
            HeadLine::Dropped { name } => self.set_dropped(&name),
            HeadLine::From { name, id } => self.set_from(&name, id),
            HeadLine::Ended { name, end } => self.set_end(&name, end),
            HeadLine::Client { name, note } => self.set_client(&name, note),
        }
    }
}

impl Session {
    /// `limit N`
    pub(crate) fn set_attempts(&mut self, attempts: u8) -> Result<(), LineError>
        ensures { Sets result self.new self.old (attempts_set attempts self.old) }
    {
        let mut limits = self.store.limits();
        limits.attempts = attempts;
        self.store.set_limits(limits);
        Ok(())
    }

    /// `max N`
    pub(crate) fn set_most(&mut self, most: u64) -> Result<(), LineError>
        ensures { Sets result self.new self.old (most_set most self.old) }
    {
        let mut limits = self.store.limits();
        limits.most = most;
        self.store.set_limits(limits);
        Ok(())
    }

    /// `keep N`
    pub(crate) fn set_keep(&mut self, keep: u64) -> Result<(), LineError>
        ensures { Sets result self.new self.old (keep_set keep self.old) }
    {
        let mut limits = self.store.limits();
        limits.keep = keep;
        self.store.set_limits(limits);
        Ok(())
    }

    /// `server NAME KIND STAGE REGISTERS ACT OUT..`
    fn set_server(&mut self, line: ServerLine) -> Result<(), LineError>
        ensures { Sets result self.new self.old (server_set line self.old) }
    {
        if self.is_taken(&line.name) {
            return Err(BAD_NAME);
        }
        if self.servers.len() >= MAX_SERVERS {
            return Err(LineError::Fault(LineFault::BadLimits));
        }
        match self.servers.push(Server::new(line)) {
            Ok(()) => Ok(()),
            Err(_) => Err(LineError::NoMemory),
        }
    }

    /// `start NAME K V`
    fn set_start(&mut self, name: &Name, k: u64, value: u64) -> Result<(), LineError>
        ensures { Sets result self.new self.old (server_changed name.now (with_start k value) self.old) }
    {
        let Some(place) = self.server_at(name) else {
            return Err(BAD_NAME);
        };
        if !self.servers[place].has_register(k) {
            return Err(LineError::Fault(LineFault::BadRecipe));
        }
        self.servers[place].begin(k, value);
        Ok(())
    }

    /// `prepared NAME`
    fn set_prepared(&mut self, name: &Name) -> Result<(), LineError>
        ensures { Sets result self.new self.old (server_changed name.now with_prepared self.old) }
    {
        let Some(place) = self.server_at(name) else {
            return Err(BAD_NAME);
        };
        if self.servers[place].hand().is_none() {
            return Err(BAD_NAME);
        }
        self.servers[place].mark_prepared();
        Ok(())
    }

    /// `dropped NAME`
    fn set_dropped(&mut self, name: &Name) -> Result<(), LineError>
        ensures { Sets result self.new self.old (server_changed name.now with_drop self.old) }
    {
        let Some(place) = self.server_at(name) else {
            return Err(BAD_NAME);
        };
        if self.servers[place].hand().is_some() {
            return Err(BAD_NAME);
        }
        self.servers[place].mark_dropped();
        Ok(())
    }

    /// `worker NAME STAGE`
    fn set_worker(&mut self, name: &Name, stage: u16) -> Result<(), LineError>
        ensures { Sets result self.new self.old (worker_set name.now stage self.old) }
    {
        if self.is_taken(name) {
            return Err(BAD_NAME);
        }
        let worker = Worker {
            stage,
            hand: None,
            from: 0,
            end: None,
        };
        self.keep_or_fail(name, worker)
    }

    /// The worker of this name stands so.
    fn keep_or_fail(&mut self, name: &Name, worker: Worker) -> Result<(), LineError>
        ensures { Sets result self.new self.old (Ok (with_worker name.now worker self.old)) }
    {
        match self.keep_worker(name, worker) {
            Ok(()) => Ok(()),
            Err(_) => Err(LineError::NoMemory),
        }
    }

    /// `worker NAME STAGE` behind the head.
    pub(crate) fn join(
        &mut self,
        alloc: Global,
        name: &Name,
        stage: u16,
    ) -> Result<String, LineError>
        ensures { Says string_bytes result self.new self.old (join_by name.now (worker_set name.now stage self.old)) }
    {
        self.set_worker(name, stage)?;
        told(alloc, Answer::Joined { name })
    }

    /// `ended NAME ..`
    fn set_end(&mut self, name: &Name, end: UnitEnd) -> Result<(), LineError>
        ensures { Sets result self.new self.old (ended_as name.now end (worker_at name.now self.old) self.old) }
    {
        let Some(worker) = self.worker_at(name) else {
            return Err(BAD_NAME);
        };
        if worker.end.is_some() {
            return Err(BAD_NAME);
        }
        let mut worker = worker;
        worker.end = Some(end);
        self.keep_or_fail(name, worker)
    }

    /// `hand NAME ID UNIT`
    fn set_hand(&mut self, name: &Name, hand: Hand) -> Result<(), LineError>
        ensures { Sets result self.new self.old (hand_set name.now hand self.old) }
    {
        if hand.id >= self.store.next() || hand.unit >= self.store.units() {
            return Err(BAD_NUMBER);
        }
        match self.worker_at(name) {
            Some(worker) => self.set_hand_of_worker(name, worker, hand),
            None => self.set_hand_of_server(name, hand),
        }
    }

    /// The same of a worker.
    fn set_hand_of_worker(
        &mut self,
        name: &Name,
        worker: Worker,
        hand: Hand,
    ) -> Result<(), LineError>
        ensures { Sets result self.new self.old (has_hand name.now hand (Some worker) self.old) }
    {
        if worker.hand.is_some() {
            return Err(BAD_NAME);
        }
        let mut worker = worker;
        worker.hand = Some(hand);
        self.keep_or_fail(name, worker)
    }

    /// The same of a server.
    fn set_hand_of_server(&mut self, name: &Name, hand: Hand) -> Result<(), LineError>
        ensures { Sets result self.new self.old (server_changed name.now (server_has hand) self.old) }
    {
        let Some(place) = self.server_at(name) else {
            return Err(BAD_NAME);
        };
        if self.servers[place].hand().is_some() {
            return Err(BAD_NAME);
        }
        self.servers[place].put_in_hand(hand);
        Ok(())
    }

    /// `from NAME ID`
    fn set_from(&mut self, name: &Name, id: u64) -> Result<(), LineError>
        ensures { Sets result self.new self.old (from_set name.now id (worker_at name.now self.old) self.old) }
    {
        match self.worker_at(name) {
            Some(worker) => {
                let mut worker = worker;
                worker.from = id;
                self.keep_or_fail(name, worker)
            }
            None => self.set_from_of_server(name, id),
        }
    }

    /// The same of a server.
    fn set_from_of_server(&mut self, name: &Name, id: u64) -> Result<(), LineError>
        ensures { Sets result self.new self.old (server_changed name.now (server_from id) self.old) }
    {
        let Some(place) = self.server_at(name) else {
            return Err(BAD_NAME);
        };
        self.servers[place].go_from(id);
        Ok(())
    }

    /// `register NAME`
    fn set_registered(&mut self, name: &Name) -> Result<(), LineError>
        ensures { Sets result self.new self.old (register_set name.now self.old) }
    {
        if self.is_of_worker(name) {
            return Err(BAD_NAME);
        }
        match self.register(name) {
            Ok(()) => Ok(()),
            Err(_) => Err(LineError::NoMemory),
        }
    }

    /// `register NAME new`
    fn set_renewed(&mut self, name: &Name) -> Result<(), LineError>
        ensures { Sets result self.new self.old (renew_set name.now self.old) }
    {
        if self.is_of_worker(name) {
            return Err(BAD_NAME);
        }
        match self.renew(name) {
            Ok(()) => Ok(()),
            Err(_) => Err(LineError::NoMemory),
        }
    }

    /// `client NAME ..`
    fn set_client(&mut self, name: &Name, note: ClientNote) -> Result<(), LineError>
        ensures { Sets result self.new self.old (client_set name.now note self.old) }
    {
        if self.is_taken(name) {
            return Err(BAD_NAME);
        }
        if note.owner >= self.owners {
            return Err(BAD_NUMBER);
        }
        match self.note(name, note) {
            Ok(()) => Ok(()),
            Err(_) => Err(LineError::NoMemory),
        }
    }

    /// `numbers NEXT UNITS OWNERS`
    fn set_numbers(&mut self, next: u64, units: u64, owners: u64) -> Result<(), LineError>
        ensures { Sets result self.new self.old (numbers_set next units owners self.old) }
    {
        if owners < self.owners {
            return Err(BAD_NUMBER);
        }
        match self.store.set_numbers(next, units) {
            Ok(()) => {
                self.owners = owners;
                Ok(())
            }
            Err(Refusal::Unsound) => Err(BAD_NUMBER),
            Err(_) => Err(LineError::NoMemory),
        }
    }

    /// `element ID ..`
    fn set_element(&mut self, id: u64, element: Element) -> Result<(), LineError>
        ensures { Sets result self.new self.old (told_back (put_back_of id element self.old.store) self.old) }
    {
        match self.store.put_back(id, element) {
            Ok(()) => {}
            Err(Refusal::Unsound) => return Err(BAD_NUMBER),
            Err(_) => return Err(LineError::NoMemory),
        }
        Ok(())
    }

    /// `over ROOT`
    fn set_over(&mut self, root: u64) -> Result<(), LineError>
        ensures { Sets result self.new self.old (told_back (put_over_of root self.old.store) self.old) }
    {
        match self.store.put_over(root) {
            Ok(()) => Ok(()),
            Err(Refusal::Unsound) => Err(BAD_NUMBER),
            Err(_) => Err(LineError::NoMemory),
        }
    }

    /// `settled STAGE CONSUMED KILLED`
    fn set_settled(&mut self, stage: u16, consumed: u64, killed: u64) -> Result<(), LineError>
        ensures { Sets result self.new self.old
            (told_back (set_settled_of stage consumed killed self.old.store) self.old) }
    {
        match self.store.set_settled(stage, consumed, killed) {
            Ok(()) => Ok(()),
            Err(Refusal::Unsound) => Err(BAD_NUMBER),
            Err(_) => Err(LineError::NoMemory),
        }
    }
}
