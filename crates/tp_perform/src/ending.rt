//! The end of a script: the desks are ended, and the final lines told.
ghost use Rattle.std.specs.Prelude.{◌≡◌, ◌+◌, ◌<◌, ◌≤◌, ◌++◌, None, All, IsErrOf, OnOk, length, map};
ghost use Rattle.std.specs.Prelude.{slice_get};
ghost use Rattle.tp_script.specs.Script.{head_view};
ghost use Rattle.tp_commands.specs.Acting.{AllEnded, places_shown};
ghost use Rattle.tp_commands.specs.Ending.{final_line, final_lines};
ghost use Rattle.tp_commands.specs.Places.{AllLeft, firsts, workers};
ghost use Rattle.tp_commands.specs.Scenes.{Stand};
ghost use Rattle.tp_commands.specs.Told.{AllLeftAt, AreReady, units_held};
ghost use Rattle.tp_workers.specs.Free.{IsFreePass};
ghost use Rattle.tp_perform.specs.Left.{began_at, began_in};
ghost use Rattle.tp_perform.specs.Performed.{DesksEnd};
ghost use Rattle.tp_perform.specs.Standing.{IsHeld, IsStand};

use crate::held::Held;
use std::alloc::Global;
use tp_commands::finals::line_of;
use tp_commands::{Place, end_all};
use tp_manager::{Manager, Pass};
use tp_report::Fault;
use tp_script::Head;
use tp_server::Server;

/// Ends all desks. The passes are all, from the client's on, and those behind the desks' are free.
fn end_passes(
    manager: &Manager,
    passes: &mut [Pass],
    servers: &mut [Box<dyn Server + Send>],
    places: &mut [Place],
)
    requires ready { AreReady behaviour registers pending manager.now passes.old servers.old places.old }
    requires enough { 1 + length servers.old ≤ length passes.old }
    requires racers { All (λ unit. unit ≡ None) (units_held (length servers.old) passes.old) }
    ensures free { All (IsFreePass manager.now) passes.new }
    ensures clear { All (λ server. pending server ≡ None) servers.new }
    ensures each_server { length servers.new ≡ length servers.old }
    ensures left { let many = length servers.old in
        AllLeft behaviour registers (firsts places.old) (workers many passes.new) servers.new }
    ensures ended { let many = length servers.old in AllEnded
        (places_shown behaviour registers pending (workers many passes.old) servers.old places.old)
        (workers many passes.new) (map (λ server. registers server) servers.new) }
{
    let Some((_client, others)) = passes.split_first_mut() else {
        unreachable!();
    };
    let (desks, _racers) = others.split_at_mut(servers.len());
    end_all(manager, desks, servers, places);
}

/// Ends all desks.
pub(crate) fn end_held(head: &Head, held: &mut Held)
    requires held { IsHeld behaviour registers pending head.now held.old }
    ensures free { All (IsFreePass held.new.managed.manager) held.new.managed.passes.items }
    ensures clear { All (λ server. pending server ≡ None) held.new.servers.items }
    ensures each_server { length held.new.servers.items ≡ length held.old.servers.items }
    ensures left { (last : Stand) → began_at last ≡ began_in registers held.old
        → AllLeftAt behaviour registers last.scene.places
        (workers (length held.old.servers.items) held.new.managed.passes.items) held.new.servers.items }
    ensures ends { (last : Stand) → IsStand behaviour registers pending held.old last
        → DesksEnd last (map (λ server. registers server) held.new.servers.items) }
{
    end_passes(
        &held.managed.manager,
        held.managed.passes.as_mut_slice(),
        held.servers.as_mut_slice(),
        held.places.as_mut_slice(),
    );
}

/// Adds the final line of the server at a place.
fn add_final(
    alloc: Global,
    head: &Head,
    servers: &[Box<dyn Server + Send>],
    i: usize,
    told: &mut Vec<u8>,
) -> Result<(), Fault>
    requires within { i < length servers.now }
    requires all { length servers.now ≡ length head.now.servers.items }
    ensures told { OnOk result (told.new.items
        ≡ told.old.items ++ final_line (slice_get (head_view head.now).servers i)
        (slice_get (map (λ server. registers server) servers.now) i)) }
    ensures no_write { ¬ (IsErrOf result Fault.Write) }
    ensures no_read { ¬ (IsErrOf result Fault.Read) }
{
    let text = line_of(alloc, head, servers, i)?;
    told.extend_from_slice(text.as_bytes())?;
    Ok(())
}

/// Adds the final line of each server.
pub(crate) fn add_finals(
    alloc: Global,
    head: &Head,
    servers: &[Box<dyn Server + Send>],
    told: &mut Vec<u8>,
) -> Result<(), Fault>
    requires all { length servers.now ≡ length head.now.servers.items }
    ensures told { OnOk result (told.new.items ≡ told.old.items ++ final_lines (head_view head.now).servers
        (map (λ server. registers server) servers.now) (length servers.now)) }
    ensures no_write { ¬ (IsErrOf result Fault.Write) }
    ensures no_read { ¬ (IsErrOf result Fault.Read) }
{
    for i in 0..servers.len() {
        add_final(alloc, head, servers, i, told)?;
    }
    Ok(())
}
