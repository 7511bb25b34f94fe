//! What servers and workers do, and what is told of them.
ghost use Rattle.std.specs.Prelude.{◌≡◌, ◌++◌, IfSome, OnOk, Some, map, string_bytes};
ghost use Rattle.std.specs.List.{flat_map, sum_by};
ghost use Rattle.tp_answers.specs.OverviewTexts.{holder_view};
ghost use Rattle.tp_session.specs.Roles.{server_at, with_worker, worker_at};
ghost use Rattle.tp_session.specs.Said.{Says};
ghost use Rattle.tp_session.specs.Session.{act_by, act_step, at_server, balance_at, drain_step, holds_step};
ghost use Rattle.tp_session.specs.Session.{fenced_by};
ghost use Rattle.tp_session.specs.Session.{hand_holders, last_as, leave_by, register_or_zero, server_holders, sum_step};
ghost use Rattle.tp_session.specs.Session.{worker_holders};
ghost use Rattle.tp_session.specs.Servers.{gives_outputs};
ghost use Rattle.tp_session.specs.Workers.{is_of_server};

use crate::drains::{MAX_ROUNDS_OF_DRAIN, drain};
use crate::hand::{Hand, attempt_in, hand_told, is_in_hand};
use crate::requests::told;
use crate::server::Server;
use crate::session::Session;
use crate::worker::Worker;
use std::alloc::{AllocError, Global};
use std::collections::BTreeMap;
use std::string::String;
use tp_answers::{Answer, Holder, Told};
use tp_lines::{Act, Fence, Name};
use tp_script::{LineError, LineFault};
use tp_server::Order;
use tp_store::store::Store;

/// Whether a server alone does it.
fn is_of_server(act: &Act) -> bool
    ensures { result ≡ is_of_server act.now }
{
    match act {
        Act::Turn => true,
        Act::Prepare => true,
        Act::Drop => true,
        Act::Claim => false,
        Act::Next => false,
        Act::Take { .. } => false,
        Act::Commit { .. } => false,
        Act::Abort => false,
    }
}

/// Whether it is a commit with outputs.
fn gives_outputs(act: &Act) -> bool
    ensures { result ≡ gives_outputs act.now }
{
    match act {
        Act::Commit { drafts } => !drafts.is_empty(),
        Act::Turn => false,
        Act::Prepare => false,
        Act::Drop => false,
        Act::Claim => false,
        Act::Next => false,
        Act::Take { .. } => false,
        Act::Abort => false,
    }
}

impl Session {
    /// The worker of this name stands so.
    pub(crate) fn keep_worker(&mut self, name: &Name, worker: Worker) -> Result<(), AllocError>
        ensures { OnOk result (self.new ≡ with_worker name.now worker self.old) }
    {
        match self.workers.insert(name.copy(), worker) {
            Ok(_) => Ok(()),
            Err(_) => Err(AllocError),
        }
    }

    /// Has a server or a worker do this.
    pub(crate) fn act(&mut self, alloc: Global, name: &Name, act: &Act) -> Result<String, LineError>
        ensures { Says string_bytes result self.new self.old (act_step name.now act.now self.old) }
    {
        match self.worker_at(name) {
            Some(worker) => self.act_of_worker(alloc, name, worker, act),
            None => self.act_of_server(alloc, name, act),
        }
    }

    /// Has a worker do this where it has just that in hand.
    pub(crate) fn fenced(
        &mut self,
        alloc: Global,
        name: &Name,
        fence: Fence,
        act: &Act,
    ) -> Result<String, LineError>
        ensures { Says string_bytes result self.new self.old
            (fenced_by name.now fence act.now (worker_at name.now self.old) self.old) }
    {
        let Some(worker) = self.worker_at(name) else {
            return Err(LineError::Fault(LineFault::BadName));
        };
        if !is_in_hand(fence, worker.hand) {
            let answer = Told::Other;
            return told(alloc, Answer::Named { name, told: answer });
        }
        self.act_of_worker(alloc, name, worker, act)
    }

    /// Has a worker do this.
    fn act_of_worker(
        &mut self,
        alloc: Global,
        name: &Name,
        worker: Worker,
        act: &Act,
    ) -> Result<String, LineError>
        ensures { Says string_bytes result self.new self.old
            (act_by name.now act.now (Some worker) self.old) }
    {
        if is_of_server(act) {
            return Err(LineError::Fault(LineFault::BadName));
        }
        let mut worker = worker;
        let answer = match worker.act(&mut self.store, act) {
            Ok(answer) => answer,
            Err(_) => return Err(LineError::NoMemory),
        };
        match self.keep_worker(name, worker) {
            Ok(()) => {}
            Err(_) => return Err(LineError::NoMemory),
        }
        told(alloc, Answer::Named { name, told: answer })
    }

    /// Has a server do this.
    fn act_of_server(&mut self, alloc: Global, name: &Name, act: &Act) -> Result<String, LineError>
        ensures { Says string_bytes result self.new self.old
            (at_server (server_at name.now self.old) act.now self.old) }
    {
        let Some(place) = self.server_at(name) else {
            return Err(LineError::Fault(LineFault::BadName));
        };
        if gives_outputs(act) {
            return Err(LineError::Fault(LineFault::Syntax));
        }
        let answer = match self.servers[place].act(&mut self.store, act) {
            Ok(answer) => answer,
            Err(_) => return Err(LineError::NoMemory),
        };
        told(
            alloc,
            Answer::Named {
                name: self.servers[place].name(),
                told: answer,
            },
        )
    }

    /// `leave NAME`
    pub(crate) fn leave(&mut self, alloc: Global, name: &Name) -> Result<String, LineError>
        ensures { Says string_bytes result self.new self.old
            (leave_by name.now (worker_at name.now self.old) self.old) }
    {
        let Some(worker) = self.worker_at(name) else {
            return Err(LineError::Fault(LineFault::BadName));
        };
        let mut worker = worker;
        let answer = match worker.act(&mut self.store, &Act::Abort) {
            Ok(answer) => answer,
            Err(_) => return Err(LineError::NoMemory),
        };
        let _ = self.workers.remove(name);
        told(alloc, Answer::Left { name, told: answer })
    }

    /// `last NAME`
    pub(crate) fn last(&self, alloc: Global, name: &Name) -> Result<String, LineError>
        ensures { Says string_bytes result self.now self.now
            (last_as name.now (worker_at name.now self.now) self.now) }
    {
        match self.worker_at(name) {
            Some(worker) => told(
                alloc,
                Answer::LastWorker {
                    name,
                    hand: hand_told(worker.hand, &self.store),
                    end: worker.end,
                },
            ),
            None => self.last_of_client(alloc, name),
        }
    }

    /// `balance NAME K`
    pub(crate) fn balance(&self, alloc: Global, name: &Name, k: u64) -> Result<String, LineError>
        ensures { Says string_bytes result self.now self.now
            (balance_at k (server_at name.now self.now) self.now) }
    {
        let Some(place) = self.server_at(name) else {
            return Err(LineError::Fault(LineFault::BadName));
        };
        let server = &self.servers[place];
        told(
            alloc,
            Answer::Balance {
                name: server.name(),
                k,
                value: server.register(k),
            },
        )
    }

    /// `sum K`
    pub(crate) fn sum(&self, alloc: Global, k: u64) -> Result<String, LineError>
        ensures { Says string_bytes result self.now self.now (sum_step k self.now) }
    {
        match sum_of(self.servers.as_slice(), k) {
            Some(sum) => told(alloc, Answer::Sum { k, sum }),
            None => Err(LineError::NoMemory),
        }
    }

    /// `drain`, `drain next`
    pub(crate) fn drain(&mut self, alloc: Global, order: Order) -> Result<String, LineError>
        ensures { Says string_bytes result self.new self.old (drain_step order self.old) }
    {
        match drain(
            self.servers.as_mut_slice(),
            &mut self.store,
            order,
            MAX_ROUNDS_OF_DRAIN,
        ) {
            Ok(true) => told(alloc, Answer::DrainedSoFar),
            Ok(false) => told(alloc, Answer::Drained),
            Err(_) => Err(LineError::NoMemory),
        }
    }

    /// `holds`
    pub(crate) fn holds(&self, alloc: Global) -> Result<String, LineError>
        ensures { Says string_bytes result self.now self.now (holds_step self.now) }
    {
        let mut holders = Vec::new(alloc);
        match add_servers(&mut holders, self.servers.as_slice(), &self.store) {
            Ok(()) => {}
            Err(_) => return Err(LineError::NoMemory),
        }
        match add_workers(&mut holders, &self.workers, &self.store) {
            Ok(()) => {}
            Err(_) => return Err(LineError::NoMemory),
        }
        told(alloc, Answer::Holds(holders.as_slice()))
    }
}

/// Adds what one has in hand, if it is something.
fn add_holder<'a>(
    holders: &mut Vec<Holder<'a>>,
    name: &'a Name,
    hand: Option<Hand>,
    store: &Store,
) -> Result<(), AllocError>
    ensures { OnOk result (map holder_view holders.new.items
        ≡ map holder_view holders.old.items ++ hand_holders name.now hand store.now) }
{
    let Some(hand) = hand else {
        return Ok(());
    };
    let attempt = match hand.held(store) {
        Some(element) => Some(attempt_in(element.status)),
        None => None,
    };
    let holder = Holder {
        name,
        id: hand.id,
        unit: hand.unit,
        attempt,
    };
    match holders.push(holder) {
        Ok(()) => Ok(()),
        Err(_) => Err(AllocError),
    }
}

/// Adds what servers have in hand.
fn add_servers<'a>(
    holders: &mut Vec<Holder<'a>>,
    servers: &'a [Server],
    store: &Store,
) -> Result<(), AllocError>
    ensures { OnOk result (map holder_view holders.new.items
        ≡ map holder_view holders.old.items ++ flat_map (server_holders store.now) servers.now) }
{
    for server in servers {
        match add_holder(holders, server.name(), server.hand(), store) {
            Ok(()) => {}
            Err(_) => return Err(AllocError),
        }
    }
    Ok(())
}

/// Adds what workers have in hand.
fn add_workers<'a>(
    holders: &mut Vec<Holder<'a>>,
    workers: &'a BTreeMap<Name, Worker>,
    store: &Store,
) -> Result<(), AllocError>
    ensures { OnOk result (map holder_view holders.new.items
        ≡ map holder_view holders.old.items ++ flat_map (worker_holders store.now) workers.now.entries) }
{
    for (name, worker) in workers {
        match add_holder(holders, name, worker.hand, store) {
            Ok(()) => {}
            Err(_) => return Err(AllocError),
        }
    }
    Ok(())
}

/// Register k of a server; 0 where it has no such register.
fn register_or_zero(server: &Server, k: u64) -> u64
    ensures { result ≡ register_or_zero k server.now }
{
    match server.register(k) {
        Some(value) => value,
        None => 0,
    }
}

/// The sum of register k over servers, if 128 bits have it.
fn sum_of(servers: &[Server], k: u64) -> Option<u128>
    ensures { IfSome result (λ sum. sum ≡ sum_by (register_or_zero k) servers.now) }
{
    let Some((first, others)) = servers.split_first() else {
        return Some(0);
    };
    match sum_of(others, k) {
        Some(sum) => u128::from(register_or_zero(first, k)).checked_add(sum),
        None => None,
    }
}
