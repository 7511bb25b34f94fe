//! A script over the manager of one thread.
ghost use Rattle.std.specs.Prelude.{◌≡◌, ◌+◌, ◌<◌, ◌≤◌, map, length, string_bytes, vec_len, IfOk, slice_get};
ghost use Rattle.tp_script.specs.Ranges.{IsActInRange, IsInRange};
ghost use Rattle.tp_script.specs.declared.script.TheConstants.{MAX_SERVERS};
ghost use Rattle.tp_script.specs.Script.{head_view, server_view};
ghost use Rattle.tp_reference.specs.PlainReport.{act_step, balance_answer, begin, command_step};
ghost use Rattle.tp_reference.specs.PlainReport.{counted_at_desk};
ghost use Rattle.tp_reference.specs.PlainReport.{desk_step, new_desk, sum_over_desks, worker};
ghost use Rattle.tp_reference.specs.PlainRunning.{state, IsSetUp};

use crate::client_acts::client_line;
use crate::desk_acts;
use crate::plain_desk::PlainDesk;
use std::alloc::{AllocError, Global};
use std::string::String;
use tp_model::types::Limits;
use tp_plain::plain::Plain;
use tp_report::{Answer, ServerAnswer, line};
use tp_script::{Act, Command, DeskAct, Head, Script, ScriptServer};
use tp_server::Order;

/// A script that runs: the manager of one thread, and a desk for each server.
#[derive(Drop)]
pub struct PlainRun {
    pub(crate) plain: Plain,
    pub(crate) desks: Vec<PlainDesk>,
    // How many units of work each pass may begin.
    pub(crate) units: u16,
}

// The pass of the server at a place.
pub(crate) fn worker(at: usize) -> u16
    requires { at ≤ MAX_SERVERS }
    ensures { result ≡ worker at }
{
    at as u16 + 1
}

// A desk for each server.
fn new_desks(alloc: Global, servers: &[ScriptServer]) -> Result<Vec<PlainDesk>, AllocError>
    ensures { IfOk result (λ desks. desks.items ≡ map new_desk (map server_view servers.now)) }
{
    let mut desks = Vec::new(alloc);
    for server in servers {
        let registers = server.registers.clone()?;
        desks.push(PlainDesk {
            registers,
            taken: None,
            is_prepared: false,
            is_dropped: false,
        })?;
    }
    Ok(desks)
}

impl PlainRun {
    /// The run of a script with this head before its first command.
    pub fn new(alloc: Global, head: &Head) -> Result<PlainRun, AllocError>
        ensures begins { IfOk result (λ run. state run ≡ begin (head_view head.now)) }
        ensures ready { IfOk result (λ run. IsSetUp (map server_view head.now.servers.items) run) }
    {
        let settings = head.settings;
        let limits = Limits {
            parts: 1 + head.servers.len() as u16,
            rows: settings.rows,
            units: settings.units,
            attempts: settings.attempts,
            spare: settings.spare,
        };
        let desks = new_desks(alloc, head.servers.as_slice())?;
        match Plain::new(alloc, limits) {
            Ok(plain) => Ok(PlainRun {
                plain,
                desks,
                units: settings.units,
            }),
            Err(_) => Err(AllocError),
        }
    }

    // Has the desk of a server do what is asked, and answers the line of its answer.
    fn desk_line(
        &mut self,
        alloc: Global,
        servers: &[ScriptServer],
        at: usize,
        act: DeskAct,
    ) -> Result<String, AllocError>
        requires ready { IsSetUp (map server_view servers.now) self.old }
        requires within { at < length servers.now }
        ensures step { IfOk result (λ text. desk_step (map server_view servers.now) at act (state self.old)
            ≡ (string_bytes text, state self.new)) }
        ensures ready { IfOk result (λ _. IsSetUp (map server_view servers.now) self.new) }
    {
        let server = &servers[at];
        let desk = &mut self.desks[at];
        let answer = desk_acts::act(&mut self.plain, worker(at), desk, &server.recipe, act)?;
        let name = server.name.as_str();
        line(alloc, Answer::Server { name, answer })
    }

    // The line of a register of a server.
    fn balance_line(
        &self,
        alloc: Global,
        servers: &[ScriptServer],
        at: usize,
        k: u64,
    ) -> Result<String, AllocError>
        requires ready { IsSetUp (map server_view servers.now) self.now }
        requires within { at < length servers.now }
        ensures { IfOk result
            (λ text. string_bytes text ≡ balance_answer (slice_get (map server_view servers.now) at)
            (slice_get self.now.desks.items at) k) }
    {
        let name = servers[at].name.as_str();
        let desk = &self.desks[at];
        if desk.is_dropped {
            let answer = ServerAnswer::Ended;
            return line(alloc, Answer::Server { name, answer });
        }
        let value = desk.registers.get(k);
        line(alloc, Answer::Balance { name, k, value })
    }

    // The sum of a register over all desks.
    fn sum(&self, k: u64) -> u128
        ensures { result ≡ sum_over_desks k (state self.now) }
    {
        let mut sum = 0;
        for desk in &self.desks {
            sum += u128::from(counted_value(desk, k));
        }
        sum
    }

    /// Performs a command and answers its line.
    pub fn command(
        &mut self,
        alloc: Global,
        servers: &[ScriptServer],
        command: Command,
    ) -> Result<String, AllocError>
        requires ready { IsSetUp (map server_view servers.now) self.old }
        requires in_range { IsInRange (length servers.now) command }
        ensures step { IfOk result (λ text.
            command_step (map server_view servers.now) command (state self.old)
            ≡ (string_bytes text, state self.new)) }
        ensures ready { IfOk result (λ _. IsSetUp (map server_view servers.now) self.new) }
    {
        match command {
            Command::Client(act) => client_line(&mut self.plain, alloc, act),
            Command::Desk { server, act } => self.desk_line(alloc, servers, server, act),
            Command::Balance { server, k } => self.balance_line(alloc, servers, server, k),
            Command::Sum { k } => {
                let sum = self.sum(k);
                line(alloc, Answer::Sum { k, sum })
            }
        }
    }

    /// Does what is asked for, and answers its line.
    pub(crate) fn act(
        &mut self,
        alloc: Global,
        script: &Script,
        act: &Act,
    ) -> Result<String, AllocError>
        requires ready { IsSetUp (map server_view script.now.head.servers.items) self.old }
        requires in_range { IsActInRange (vec_len script.now.head.servers) act.now }
        ensures step { IfOk result (λ text.
            act_step (map server_view script.now.head.servers.items) act.now (state self.old)
            ≡ (string_bytes text, state self.new)) }
        ensures ready { IfOk result (λ _. IsSetUp (map server_view script.now.head.servers.items) self.new) }
    {
        let servers = script.head.servers.as_slice();
        match act {
            Act::Command(command) => self.command(alloc, servers, *command),
            Act::Drain => {
                self.drain(servers, Order::LeastFirst)?;
                line(alloc, Answer::Drained)
            }
            Act::DrainNext => {
                self.drain(servers, Order::InTurn)?;
                line(alloc, Answer::Drained)
            }
            // A script with something else isn't run.
            _ => Ok(String::new(alloc)),
        }
    }
}

// What a desk adds to the sum of a register.
fn counted_value(desk: &PlainDesk, k: u64) -> u64
    ensures { result ≡ counted_at_desk k desk.now }
{
    if desk.is_dropped {
        return 0;
    }
    match desk.registers.get(k) {
        Some(value) => value,
        None => 0,
    }
}
