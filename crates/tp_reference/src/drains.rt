//! Drains over the manager of one thread.
ghost use Rattle.std.specs.Prelude.{◌≡◌, ◌+◌, ◌*◌, ◌<◌, ◌≤◌, map, length, IfOk, slice_get};
ghost use Rattle.tp_script.specs.declared.script.TheConstants.{MAX_SERVERS};
ghost use Rattle.tp_script.specs.Script.{server_view};
ghost use Rattle.tp_reference.specs.PlainReport.{drain_of, has_claimed, round_of, round_turn};
ghost use Rattle.tp_reference.specs.PlainRunning.{state, IsSetUp};

use crate::desk_acts::turn_by;
use crate::plain_run::{PlainRun, worker};
use std::alloc::AllocError;
use tp_report::ServerAnswer;
use tp_script::ScriptServer;
use tp_server::{Order, Turned};

/// Whether a turn claimed an element.
fn has_claimed(answer: ServerAnswer) -> bool
    ensures { result ≡ has_claimed answer }
{
    match answer {
        ServerAnswer::Turned(Turned::Idle) => false,
        ServerAnswer::Turned(Turned::NoUnit) => false,
        _ => true,
    }
}

/// How many rounds a drain has at most, with this many servers whose passes may each begin this many units.
fn most_rounds(servers: usize, units: u16) -> u32
    requires { servers ≤ MAX_SERVERS }
    ensures { result ≡ (1 + servers) * units + 1 }
{
    (1 + servers as u32) * u32::from(units) + 1
}

impl PlainRun {
    // The turn of a desk in a round, if it is free. Whether it claimed an element.
    fn round_turn(
        &mut self,
        servers: &[ScriptServer],
        order: Order,
        at: usize,
    ) -> Result<bool, AllocError>
        requires ready { IsSetUp (map server_view servers.now) self.old }
        requires within { at < length servers.now }
        ensures gives { IfOk result (λ claimed. round_turn order (slice_get (map server_view servers.now) at)
            (slice_get self.old.desks.items at) at (state self.old) ≡ (claimed, state self.new)) }
        ensures ready { IfOk result (λ _. IsSetUp (map server_view servers.now) self.new) }
    {
        let desk = &mut self.desks[at];
        if desk.is_dropped || self.plain.has_open(worker(at)) {
            return Ok(false);
        }
        let recipe = &servers[at].recipe;
        let answer = turn_by(&mut self.plain, worker(at), desk, recipe, order)?;
        Ok(has_claimed(answer))
    }

    // A round: each free desk takes one turn. Whether any of them claimed an element.
    fn round(&mut self, servers: &[ScriptServer], order: Order) -> Result<bool, AllocError>
        requires ready { IsSetUp (map server_view servers.now) self.old }
        ensures gives { IfOk result (λ claimed.
            round_of order (map server_view servers.now) (state self.old) ≡ (claimed, state self.new)) }
        ensures ready { IfOk result (λ _. IsSetUp (map server_view servers.now) self.new) }
    {
        let mut claimed = false;
        for at in 0..servers.len() {
            claimed |= self.round_turn(servers, order, at)?;
        }
        Ok(claimed)
    }

    /// Has the free desks take turns, whose claims are in this order, until a whole round claims nothing.
    pub(crate) fn drain(&mut self, servers: &[ScriptServer], order: Order) -> Result<(), AllocError>
        requires ready { IsSetUp (map server_view servers.now) self.old }
        ensures gives { IfOk result (λ _. state self.new
            ≡ drain_of order (map server_view servers.now) (state self.old)) }
        ensures ready { IfOk result (λ _. IsSetUp (map server_view servers.now) self.new) }
    {
        let mut left = most_rounds(servers.len(), self.units);
        while left > 0 {
            left -= 1;
            if !self.round(servers, order)? {
                return Ok(());
            }
        }
        Ok(())
    }
}
