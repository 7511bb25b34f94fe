//! The command `rollover`: what is alive goes on in a new manager, and the desks begin anew in it.
ghost use Rattle.std.specs.Prelude.{◌≡◌, ◌+◌, ◌≤◌, None, IfErr, IfOk, OnErr, OnOk, All, length, map};
ghost use Rattle.std.specs.Prelude.{string_bytes, take};
ghost use Rattle.tp_manager.specs.Accounts.{Gathers};
ghost use Rattle.tp_manager.specs.Bounds.{gather_steps};
ghost use Rattle.tp_report.specs.Answer.{line};
ghost use Rattle.tp_rollover.specs.Faults.{AreFree};
ghost use Rattle.tp_rollover.specs.Managed.{GoesOnAnew, IsManaged, StaysManaged};
ghost use Rattle.tp_commands.specs.Places.{AllLie, all_firsts, firsts, workers};
ghost use Rattle.tp_commands.specs.Rollover.{IsUnrolled, IsUnrolledFor, RollRefused, RolledOver, renamed};
ghost use Rattle.tp_commands.specs.Rollover.{roll_refused_text, stand};
ghost use Rattle.tp_commands.specs.Scenes.{Scene};
ghost use Rattle.tp_commands.specs.Told.{AreReady, IsScene, units_held};

use crate::place::{Place, begin_again};
use std::alloc::{AllocError, Global};
use std::string::String;
use tp_manager::Pass;
use tp_model::types::Refusal;
use tp_report::{Answer, Renamed, line};
use tp_rollover::{Managed, Moved, RollFault, has_open};
use tp_server::Server;

/// What the elements that were carried over are called.
pub fn all_renamed(alloc: Global, moved: &[Moved]) -> Result<Vec<Renamed>, AllocError>
    ensures { IfOk result (λ all. all.items ≡ map renamed moved.now) }
{
    let mut all = Vec::new(alloc);
    for element in moved {
        all.push(Renamed {
            old: element.old,
            new: element.new,
        })?;
    }
    Ok(all)
}

/// The line of a rollover that was refused.
pub fn refused_line(alloc: Global, why: RollFault) -> Result<String, AllocError>
    ensures text { IfOk result (λ text. string_bytes text ≡ line (roll_refused_text why)) }
{
    match why {
        RollFault::NoMemory => line(alloc, Answer::Refused(Refusal::NoMemory)),
        RollFault::Full => line(alloc, Answer::Refused(Refusal::Full)),
        RollFault::Busy => line(alloc, Answer::Busy),
        RollFault::BadLimits => line(alloc, Answer::Unequal),
        RollFault::NoPass => line(alloc, Answer::Unequal),
        RollFault::Unequal => line(alloc, Answer::Unequal),
    }
}

/// All passes gather.
pub fn gather_all(managed: &mut Managed)
    requires managed { IsManaged managed.old }
    ensures managed { IsManaged managed.new }
    ensures manager { managed.new.manager ≡ managed.old.manager }
    ensures given { managed.new.keeper.given ≡ managed.old.keeper.given }
    ensures gathers { let l = managed.old.manager.limits in
        Gathers l (gather_steps l (length managed.old.passes.items)) managed.old.keeper managed.new.keeper
        managed.old.passes.items managed.new.passes.items }
{
    managed
        .keeper
        .gather(&managed.manager, managed.passes.as_mut_slice());
}

/// Has the desks begin anew. The passes are all, from the client's on, and no desk's has a unit open.
pub(crate) fn begin_all_again(
    passes: &[Pass],
    servers: &[Box<dyn Server + Send>],
    places: &mut [Place],
)
    requires free { AreFree (workers (length servers.now) passes.now) }
    requires clear { All (λ server. pending server ≡ None) servers.now }
    requires enough { 1 + length servers.now ≤ length passes.now }
    requires as_many { length servers.now ≡ length places.old }
    ensures lie { AllLie behaviour registers pending
        (workers (length servers.now) passes.now) servers.now places.new }
    ensures began { firsts places.new ≡ all_firsts (workers (length servers.now) passes.now) servers.now }
    ensures dropped { map (λ place. place.is_dropped) places.new
        ≡ map (λ place. place.is_dropped) places.old }
{
    begin_again(&passes[1..1 + servers.len()], servers, places);
}

/// What is alive goes on in a new manager. `Busy` where one of the first so many passes has a unit of work
/// open: they are the program's own, the client's and the desks'.
fn go_on(alloc: Global, managed: &mut Managed, own: usize) -> Result<Vec<Moved>, RollFault>
    requires managed { IsManaged managed.old }
    requires own { own ≤ length managed.old.passes.items }
    ensures managed { IsManaged managed.new }
    ensures moved { IfOk result (λ moved. GoesOnAnew managed.old managed.new moved.items) }
    ensures idle { OnOk result (AreFree (take own managed.old.passes.items)) }
    ensures free { OnOk result (AreFree (take own managed.new.passes.items)) }
    ensures refused { OnErr result (StaysManaged managed.old managed.new) }
    ensures fault { IfErr result (IsUnrolledFor managed.old.manager.limits
        (take own managed.old.passes.items) managed.old.passes.items) }
{
    let passes = managed.passes.as_slice();
    if has_open(&passes[..own]) {
        return Err(RollFault::Busy);
    }
    match managed.roll_over(alloc) {
        Ok(moved) => Ok(moved),
        Err(fault) => Err(fault),
    }
}

/// Has what is alive, each element once, go on in a new manager with the same limits, in which the desks
/// begin anew with the same registers. Answers what was carried over, by ascending ids. What a pass behind
/// those of the servers has in hand, it has in hand there. It is refused with `Busy` where a desk has a unit
/// of work open, `Full` where the new manager has not the rows or the units, and `NoMemory`. Nothing has
/// changed then, and all passes gather. The passes are the client's, then one for each server, then others.
pub fn roll_over(
    alloc: Global,
    managed: &mut Managed,
    servers: &[Box<dyn Server + Send>],
    places: &mut [Place],
) -> Result<Vec<Moved>, RollFault>
    requires managed { IsManaged managed.old }
    requires ready { AreReady behaviour registers pending managed.old.manager managed.old.passes.items
        servers.now places.old }
    requires enough { 1 + length servers.now ≤ length managed.old.passes.items }
    ensures managed { IsManaged managed.new }
    ensures limits { managed.new.manager.limits ≡ managed.old.manager.limits }
    ensures ready { AreReady behaviour registers pending managed.new.manager managed.new.passes.items
        servers.now places.new }
    ensures as_many { length places.new ≡ length places.old }
    ensures held { OnErr result (units_held (length servers.now) managed.new.passes.items
        ≡ units_held (length servers.now) managed.old.passes.items) }
    ensures moved { IfOk result (λ moved. GoesOnAnew managed.old managed.new moved.items) }
    ensures rolled { IfOk result (λ moved. (old : Scene) × (new : Scene)
        × IsScene behaviour registers pending managed.old.passes.items servers.now places.old old
        × RolledOver (stand managed.old old) moved.items (stand managed.new new)
        × IsScene behaviour registers pending managed.new.passes.items servers.now places.new new) }
    ensures refused { IfErr result (λ why. (old : Scene) × (new : Scene)
        × IsScene behaviour registers pending managed.old.passes.items servers.now places.old old
        × RollRefused (IsUnrolled managed.old.manager.limits)
        (stand managed.old old) (line (roll_refused_text why)) (stand managed.new new)
        × IsScene behaviour registers pending managed.new.passes.items servers.now places.new new) }
{
    match go_on(alloc, managed, 1 + servers.len()) {
        Ok(moved) => {
            begin_all_again(&managed.passes, servers, places);
            Ok(moved)
        }
        Err(why) => {
            gather_all(managed);
            Err(why)
        }
    }
}
