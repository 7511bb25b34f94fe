//! Rounds of turns until a whole round claims nothing.
ghost use Rattle.std.specs.Prelude.{◌≡◌, ◌+◌, ◌*◌, ◌<◌, ◌^◌, None, All, sum_by, length};
ghost use Rattle.tp_workers.specs.Asking.{AsksTurns};
ghost use Rattle.tp_workers.specs.Desks.{DeskWorked, IsDeskOf};
ghost use Rattle.tp_workers.specs.Drained.{DeskDrained, LastTurn, TookTurn};
ghost use Rattle.tp_workers.specs.Free.{IsFreePass};
ghost use Rattle.tp_manager.specs.Shown.{numbers};
ghost use Rattle.tp_workers.specs.Gains.{commits_in};
ghost use Rattle.tp_workers.specs.declared.tally.Shift.{Shift};
ghost use Rattle.tp_workers.specs.Ran.{RanEach};

use crate::alone::work_off;
use crate::desks::take_turn;
use crate::fork::in_turn;
use crate::plan::Plan;
use crate::tally::Shift;
use tp_desk::Order;
use tp_manager::{Manager, Pass};
use tp_model::types::MAX_UNITS;
use tp_server::Server;

/// What a drain did.
#[derive(Clone, Copy, Debug, PartialEq, Eq)]
pub struct Drained {
    /// How many units were committed.
    pub done: u32,
    /// How many desks found no unit left in their last turn. The others found nothing to wait.
    pub nounit: u32,
}

/// Has a desk of each pass with the server at its place take turns on the caller's thread, whose claims are
/// in this order. After a round of one turn each, one desk after another goes on until it finds nothing; then
/// comes the next round. It ends after a whole round that claims nothing: each desk's last turn found nothing
/// to wait, or no unit left. All passes come from this manager's keeper and have no unit open, and the
/// servers have nothing prepared; so it is afterwards.
pub fn drain(
    manager: &Manager,
    passes: &mut [Pass],
    servers: &mut [Box<dyn Server + Send>],
    order: Order,
) -> Drained
    requires paired { length passes.old ≡ length servers.old }
    requires free { All (IsFreePass manager.now) passes.old }
    requires clear { All (λ server. pending server ≡ None) servers.old }
    requires fit { length passes.old * 1024 < 2 ^ 32 }
    ensures desks { (counts : Shift) × (result.done ≡ counts.done)
        × RanEach (DeskDrained behaviour registers pending manager.now order) passes.old servers.old counts
        passes.new servers.new }
    ensures last_turns { (counts : Shift) × (result.nounit ≡ counts.nounit)
        × RanEach (LastTurn behaviour registers pending manager.now order) passes.old servers.old counts
        passes.new servers.new }
    ensures asked { (counts : Shift) × (result.done ≡ counts.done)
        × RanEach (AsksTurns behaviour registers pending asked manager.now order) passes.old servers.old
        counts passes.new servers.new }
    ensures free { All (IsFreePass manager.now) passes.new }
    ensures clear { All (λ server. pending server ≡ None) servers.new }
    ensures numbered { numbers passes.new ≡ numbers passes.old }
    ensures kept { (length passes.new ≡ length passes.old) × (length servers.new ≡ length servers.old) }
    ensures done { result.done + sum_by commits_in passes.old ≡ sum_by commits_in passes.new }
{
    let plan = Plan {
        turns: MAX_UNITS as u32,
        order,
    };
    let mut done = 0u32;
    'rounds: loop {
        let counts = round(manager, passes, servers, order);
        done += counts.done;
        if !counts.has_claimed() {
            return Drained {
                done,
                nounit: counts.nounit,
            };
        }
        let more = work_off_each(manager, passes, servers, plan);
        done += more.done;
    }
}

/// One turn of each desk.
fn round(
    manager: &Manager,
    passes: &mut [Pass],
    servers: &mut [Box<dyn Server + Send>],
    order: Order,
) -> Shift
    requires paired { length passes.old ≡ length servers.old }
    requires free { All (IsFreePass manager.now) passes.old }
    requires clear { All (λ server. pending server ≡ None) servers.old }
    requires fit { length passes.old < 2 ^ 32 }
    ensures ran { RanEach (TookTurn behaviour registers pending manager.now order)
        passes.old servers.old result passes.new servers.new }
    ensures asked { RanEach (AsksTurns behaviour registers pending asked manager.now order)
        passes.old servers.old result passes.new servers.new }
{
    let run = |pass: &mut Pass, server: &mut Box<dyn Server + Send>, _worker: u32| -> Shift
        requires { IsDeskOf behaviour registers pending manager.now (pass.now, server.now) }
        ensures { TookTurn behaviour registers pending manager.entry.now order
            (pass.entry.now, server.entry.now) result (pass.exit.now, server.exit.now)
            × AsksTurns behaviour registers pending asked manager.entry.now order
            (pass.entry.now, server.entry.now) result (pass.exit.now, server.exit.now) }
    { take_turn(manager, pass, server, order) };
    in_turn(&run, 0, passes, servers)
}

/// Each desk in its turn works on until it finds nothing to wait, or no unit left, in as many turns as
/// planned at most.
fn work_off_each(
    manager: &Manager,
    passes: &mut [Pass],
    servers: &mut [Box<dyn Server + Send>],
    plan: Plan,
) -> Shift
    requires paired { length passes.old ≡ length servers.old }
    requires free { All (IsFreePass manager.now) passes.old }
    requires clear { All (λ server. pending server ≡ None) servers.old }
    requires fit { length passes.old * plan.turns < 2 ^ 32 }
    ensures ran { RanEach (DeskWorked behaviour registers pending manager.now plan)
        passes.old servers.old result passes.new servers.new }
    ensures asked { RanEach (AsksTurns behaviour registers pending asked manager.now plan.order)
        passes.old servers.old result passes.new servers.new }
{
    let run = |pass: &mut Pass, server: &mut Box<dyn Server + Send>, _worker: u32| -> Shift
        requires { IsDeskOf behaviour registers pending manager.now (pass.now, server.now) }
        ensures { DeskWorked behaviour registers pending manager.entry.now plan
            (pass.entry.now, server.entry.now) result (pass.exit.now, server.exit.now)
            × AsksTurns behaviour registers pending asked manager.entry.now plan.order
            (pass.entry.now, server.entry.now) result (pass.exit.now, server.exit.now) }
    { work_off(manager, pass, server, plan) };
    in_turn(&run, 0, passes, servers)
}
