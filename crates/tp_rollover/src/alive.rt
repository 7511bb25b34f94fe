//! What is alive in a manager.
ghost use Rattle.std.specs.Prelude.{◌≡◌, ◌<◌, ◌≤◌, ◌++◌, IfErr, IfSome, OnErr, OnOk, length};
ghost use Rattle.std.specs.Prelude.{vec_capacity, vec_len};
ghost use Rattle.tp_model.specs.Steps.{rows_of};
ghost use Rattle.tp_rollover.specs.declared.stops.Stop.TheVariants as stops;
ghost use Rattle.tp_manager.specs.Bounds.{read_steps};
ghost use Rattle.tp_manager.specs.Shown.{IsOf};
ghost use Rattle.tp_rollover.specs.Thread.{Stays};
ghost use Rattle.tp_rollover.specs.Bounds.{PassMakes, search_steps};
ghost use Rattle.tp_rollover.specs.Finding.{AreAliveOf, AreLiving, CountsAlive, IsAliveAt, listed};
ghost use Rattle.tp_rollover.specs.Survivors.{Ascending};
ghost use Rattle.tp_rollover.specs.Told.{HoldsAsSeen};

use crate::looks::look;
use crate::stops::Stop;
use tp_manager::{Manager, Pass};
use tp_model::types::{Account, Status};

/// The row where its element waits, is parked or is held, and `None` where it is over or none is born.
fn alive_at(manager: &Manager, pass: &mut Pass, row: u32) -> Option<u32>
    requires own { IsOf manager.now pass.old }
    ensures own { IsOf manager.now pass.new }
    ensures stays { Stays pass.old pass.new }
    ensures steps { PassMakes (read_steps manager.now.limits) pass.old pass.new }
    ensures told { HoldsAsSeen pass.old pass.new (IsAliveAt manager.now.limits.attempts row result) }
    ensures itself { IfSome result (λ id. id ≡ row) }
{
    let Some(found) = look(manager, pass, row) else {
        return None;
    };
    match found.status {
        Status::Waiting { attempts: _ } => Some(row),
        Status::Parked { attempts: _ } => Some(row),
        Status::Held {
            unit: _,
            attempt: _,
        } => Some(row),
        Status::Consumed { unit: _ } => None,
        Status::Killed => None,
    }
}

/// Puts the id that was found behind the others.
fn keep(found: &mut Vec<u32>, one: Option<u32>) -> Result<(), Stop>
    ensures kept { OnOk result (found.new.items ≡ found.old.items ++ listed one) }
    ensures memory { IfErr result (λ stop. stop ≡ stops.NoMemory) }
    ensures full { OnErr result (vec_capacity found.old ≤ vec_len found.old) }
    ensures space { vec_capacity found.old ≤ vec_capacity found.new }
{
    match one {
        None => Ok(()),
        Some(one) => match found.push(one) {
            Ok(()) => Ok(()),
            Err(_) => Err(Stop::NoMemory),
        },
    }
}

/// How many elements an account counts as waiting, parked or held.
pub(crate) fn alive_in(account: &Account) -> usize
    ensures { CountsAlive result account.now.total }
{
    let total = account.total;
    total.waiting as usize + total.parked as usize + total.held as usize
}

/// The ids of all elements that are alive, ascending, where there are so many, and no others. The search ends
/// with the last one.
pub(crate) fn find_alive(
    found: &mut Vec<u32>,
    manager: &Manager,
    pass: &mut Pass,
    count: usize,
) -> Result<(), Stop>
    requires own { IsOf manager.now pass.old }
    ensures own { IsOf manager.now pass.new }
    ensures stays { Stays pass.old pass.new }
    ensures steps { PassMakes (search_steps manager.now.limits count) pass.old pass.new }
    ensures few { OnOk result (length found.new.items ≤ count) }
    ensures rows { OnOk result (length found.new.items ≤ rows_of manager.now.limits) }
    ensures memory { IfErr result (λ stop. stop ≡ stops.NoMemory) }
    ensures full { OnErr result (vec_capacity found.old < rows_of manager.now.limits) }
    ensures space { vec_capacity found.old ≤ vec_capacity found.new }
    ensures once { OnOk result (Ascending 0 found.new.items) }
    ensures told { OnOk result
        (HoldsAsSeen pass.old pass.new (AreAliveOf manager.now.limits count found.new.items)) }
    ensures living { OnOk result
        (HoldsAsSeen pass.old pass.new (AreLiving manager.now.limits.attempts found.new.items)) }
{
    found.clear();
    for row in 0..manager.capacity() {
        if found.len() >= count {
            return Ok(());
        }
        let one = alive_at(manager, pass, row);
        keep(found, one)?;
    }
    Ok(())
}
