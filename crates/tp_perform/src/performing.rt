//! A script performed: what its lines ask for is done one after another, and told as it is done.
ghost use Rattle.std.specs.Prelude.{◌≡◌, ◌+◌, ◌≤◌, None, List, ℕ, All, IfOk, IsErrOf, IsTrue, OnErr, OnOk};
ghost use Rattle.std.specs.Prelude.{length, map};
ghost use Rattle.std.specs.Io.KnownBytes.{Appends};
ghost use Rattle.tp_commands.specs.Places.{workers};
ghost use Rattle.tp_commands.specs.Scenes.{Stand};
ghost use Rattle.tp_commands.specs.Told.{AllLeftAt};
ghost use Rattle.tp_report.specs.Written.{AppendsFront};
ghost use Rattle.tp_script.specs.Passes.{racing};
ghost use Rattle.tp_perform.specs.Left.{Reaches};
ghost use Rattle.tp_perform.specs.Standing.{Begins, IsHeld, IsStand, Leads};
ghost use Rattle.tp_perform.specs.Performed.{ActsDone, ActsTold, Ended};
ghost use Rattle.tp_workers.specs.Free.{IsFreePass};

use crate::acts::act_told;
use crate::closing::{close_desks, take_account};
use crate::ending::end_held;
use crate::held::Held;
use std::alloc::Global;
use std::thread::Threads;
use tp_model::types::Account;
use tp_report::{Fault, Sink, write_all};
use tp_script::{Failed, Script};
use tp_server::Server;

/// Has done what a script asks for, one act after another, and writes the line of each as it comes.
fn perform_all<T: Threads + Sync, W: Sink>(
    rt: &T,
    alloc: Global,
    script: &Script,
    held: &mut Held,
    writer: &mut W,
) -> Result<(), Fault>
    requires held { IsHeld behaviour registers pending script.now.head held.old }
    requires room { 1 + length script.now.head.servers.items + racing script.now.acts.items
        ≤ length held.old.managed.passes.items }
    ensures held { IsHeld behaviour registers pending script.now.head held.new }
    ensures went { Reaches behaviour registers pending (λ old new.
        ActsDone script.now old new (λ text. Unit {0})) held.old held.new }
    ensures told { OnOk result (Leads behaviour registers pending (λ old new. (text : List ℕ)
        × ActsTold script.now.head 0 script.now.acts.items old text new
        × Appends (W.contents writer.old) (W.contents writer.new) text) held.old held.new) }
    ensures front { OnErr result (Begins behaviour registers pending (λ old last.
        ActsDone script.now old last (AppendsFront (W.contents writer.old) (W.contents writer.new)))
        held.old) }
    ensures write { IsErrOf result Fault.Write → IsTrue (W.has_failed writer.new) }
    ensures no_read { ¬ (IsErrOf result Fault.Read) }
{
    let mut raced = 0usize;
    for act in &script.acts {
        let line = act_told(rt, alloc, &script.head, held, raced, act)?;
        raced += usize::from(act.racers());
        match write_all(writer, line.as_bytes()) {
            Ok(()) => {}
            Err(Failed) => return Err(Fault::Write),
        }
    }
    Ok(())
}

/// Performs a script, and writes a line for each act as it comes. Of all passes those of races come last.
/// When all is done, and after a fault, what is in hand is given up, the account is taken, where the script
/// asks for it, and all desks are ended: each server's registers are then what its behaviour makes of what
/// its pass has committed since its desk began, at the beginning or at the last rollover, where the registers
/// stay the same. What was done before a fault stands.
pub fn perform<T: Threads + Sync, W: Sink>(
    rt: &T,
    alloc: Global,
    script: &Script,
    held: &mut Held,
    writer: &mut W,
) -> Result<Option<Account>, Fault>
    requires held { IsHeld behaviour registers pending script.now.head held.old }
    requires room { 1 + length script.now.head.servers.items + racing script.now.acts.items
        ≤ length held.old.managed.passes.items }
    ensures free { All (IsFreePass held.new.managed.manager) held.new.managed.passes.items }
    ensures clear { All (λ server. pending server ≡ None) held.new.servers.items }
    ensures each_server { length held.new.servers.items ≡ length held.old.servers.items }
    ensures left { (before : Stand) × (last : Stand) × IsStand behaviour registers pending held.old before
        × ActsDone script.now before last (λ text. Unit {0})
        × AllLeftAt behaviour registers last.scene.places
        (workers (length held.old.servers.items) held.new.managed.passes.items) held.new.servers.items }
    ensures told { IfOk result (λ account. Begins behaviour registers pending (λ old last. (text : List ℕ)
        × ActsTold script.now.head 0 script.now.acts.items old text last
        × Appends (W.contents writer.old) (W.contents writer.new) text
        × Ended script.now account last (map (λ server. registers server) held.new.servers.items))
        held.old) }
    ensures front { OnErr result (Begins behaviour registers pending (λ old last.
        ActsDone script.now old last (AppendsFront (W.contents writer.old) (W.contents writer.new)))
        held.old) }
    ensures write { IsErrOf result Fault.Write → IsTrue (W.has_failed writer.new) }
    ensures no_read { ¬ (IsErrOf result Fault.Read) }
{
    let done = perform_all(rt, alloc, script, held, writer);
    close_desks(&script.head, held);
    let account = take_account(script.account, &script.head, held);
    end_held(&script.head, held);
    match done {
        Ok(()) => Ok(account),
        Err(fault) => Err(fault),
    }
}
