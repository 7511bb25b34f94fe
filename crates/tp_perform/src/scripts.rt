//! The whole run of a script, from the reader's bytes to the writer's.
ghost use Rattle.std.specs.Prelude.{◌≡◌, ◌+◌, ◌++◌, ◌^◌, ◌<◌, ◌≤◌, Result, IfSome, IsErrOf};
ghost use Rattle.std.specs.Prelude.{All, IsTrue, None, OnErr, OnOk, length, map};
ghost use Rattle.std.specs.Io.KnownBytes.{Appends};
ghost use Rattle.tp_commands.specs.Acting.{new_places, places_shown};
ghost use Rattle.tp_commands.specs.Places.{AllLie, workers};
ghost use Rattle.tp_model.specs.declared.types.TheConstants.{MAX_PASSES};
ghost use Rattle.tp_report.specs.Faults.{TellsFault, exit_status};
ghost use Rattle.tp_report.specs.Written.{AppendsFront};
ghost use Rattle.tp_report.specs.declared.fault.Exit.{Exit};
ghost use Rattle.tp_report.specs.declared.fault.Fault.{Fault};
ghost use Rattle.tp_script.specs.Script.{head_view};
ghost use Rattle.tp_script.specs.Whole.{script};
ghost use Rattle.tp_script.specs.declared.script.TheConstants.{MAX_SERVERS};
ghost use Rattle.tp_script.specs.declared.source.TheConstants.{MAX_READS};
ghost use Rattle.tp_perform.specs.Performed.{Ran, Report, ReportFront, closing_text, finals_text, limits_of};

use crate::ending::add_finals;
use crate::held::Held;
use crate::performing::perform;
use arrayvec::ArrayVec;
use std::alloc::Global;
use std::thread::Threads;
use tp_commands::boxes::{eager, lazy, put};
use tp_commands::{Place, places_for};
use tp_manager::{MakeFault, Pass};
use tp_model::types::{Account, Limits};
use tp_report::{
    Answer, Exit, Fault, Sink, exit_status, fault_of, line, write_all, write_fault, write_refusal,
};
use tp_rollover::Managed;
use tp_script::{Failed, Head, Kind, MAX_SERVERS, ReadFault, Script, Source, read_script};
use tp_server::Server;

/// Reads a script, performs it over the shared manager with a desk for each server, and writes its report: a
/// line for each act, the final lines, and the closing account. The reader is asked at most 100,000 times.
pub fn run<T: Threads + Sync, R: Source, W: Sink>(
    rt: &T,
    alloc: Global,
    reader: &mut R,
    writer: &mut W,
) -> Result<Exit, Fault>
    requires { R.asked reader.old + MAX_READS < 2 ^ 64 }
    ensures asked { R.asked reader.new ≤ R.asked reader.old + MAX_READS }
    ensures ran { IfSome (R.rest reader.old)
        (λ bytes. Ran result (script bytes) (W.contents writer.old) (W.contents writer.new)) }
    ensures read { IsErrOf result Fault.Read → IsTrue (R.has_failed reader.new) }
    ensures write { IsErrOf result Fault.Write → IsTrue (W.has_failed writer.new) }
{
    match read_script(alloc, reader) {
        Ok(script) => match serve(rt, alloc, &script, writer) {
            Ok(()) => Ok(Exit::Done),
            Err(fault) => Err(fault),
        },
        Err(ReadFault::Script(refused)) => match write_refusal(alloc, refused, writer) {
            Ok(()) => Ok(Exit::Refused),
            Err(fault) => Err(fault_of(fault)),
        },
        Err(ReadFault::NoMemory) => Err(Fault::NoMemory),
        Err(ReadFault::Read) => Err(Fault::Read),
    }
}

/// Runs a script as `run` does, writes the line of a fault to the second writer, and answers the exit status.
pub fn run_to_end<T: Threads + Sync, R: Source, W: Sink, E: Sink>(
    rt: &T,
    alloc: Global,
    reader: &mut R,
    writer: &mut W,
    faults: &mut E,
) -> u8
    requires { R.asked reader.old + MAX_READS < 2 ^ 64 }
    ensures asked { R.asked reader.new ≤ R.asked reader.old + MAX_READS }
    ensures ended { (outcome : Result Exit Fault)
        × IfSome (R.rest reader.old)
        (λ bytes. Ran outcome (script bytes) (W.contents writer.old) (W.contents writer.new))
        × (IsErrOf outcome Fault.Read → IsTrue (R.has_failed reader.new))
        × (IsErrOf outcome Fault.Write → IsTrue (W.has_failed writer.new))
        × (result ≡ exit_status outcome)
        × TellsFault outcome (E.has_failed faults.new) (E.contents faults.old) (E.contents faults.new) }
{
    let outcome = run(rt, alloc, reader, writer);
    write_fault(outcome, faults);
    exit_status(outcome)
}

/// Makes the manager that a script needs and the boxed servers, performs it, and writes its report.
pub fn serve<T: Threads + Sync, W: Sink>(
    rt: &T,
    alloc: Global,
    script: &Script,
    writer: &mut W,
) -> Result<(), Fault>
    ensures told { OnOk result (Report script.now (Appends (W.contents writer.old) (W.contents writer.new))) }
    ensures front { OnErr result
        (ReportFront script.now (AppendsFront (W.contents writer.old) (W.contents writer.new))) }
    ensures write { IsErrOf result Fault.Write → IsTrue (W.has_failed writer.new) }
    ensures no_read { ¬ (IsErrOf result Fault.Read) }
{
    let racers = script.racers();
    let managed = match Managed::new(alloc, limits_of(&script.head, racers)) {
        Ok(managed) => managed,
        Err(MakeFault::NoMemory) => return Err(Fault::NoMemory),
        Err(MakeFault::BadLimits) => unreachable!(),
        Err(MakeFault::NoPart) => unreachable!(),
    };
    let mut servers: Vec<Box<dyn Server + Send>> = Vec::new(alloc);
    for server in &script.head.servers {
        match server.kind {
            Kind::Eager => put(&mut servers, Box::new(alloc, eager(server)?)?)?,
            Kind::Lazy => put(&mut servers, Box::new(alloc, lazy(server)?)?)?,
        }
    }
    let places = first_places(managed.passes.as_slice(), servers.as_slice());
    let mut held = Held {
        managed,
        servers,
        places,
    };
    let account = perform(rt, alloc, script, &mut held, writer)?;
    write_end(alloc, script, held.servers.as_slice(), account, writer)
}

/// The limits of the manager that a head needs, with so many passes for races.
fn limits_of(head: &Head, racers: u16) -> Limits
    requires { racers ≤ MAX_PASSES }
    ensures { result ≡ limits_of (head_view head.now) racers }
{
    let servers = head.servers.len() as u16;
    Limits {
        parts: 1 + servers + racers,
        rows: head.settings.rows,
        units: head.settings.units,
        attempts: head.settings.attempts,
        spare: head.settings.spare,
    }
}

/// A place for the desk of each server. The passes are all, from the client's on.
fn first_places(passes: &[Pass], servers: &[Box<dyn Server + Send>]) -> ArrayVec<Place, MAX_SERVERS>
    requires free { All (λ pass. pass.open_unit ≡ None) passes.now }
    requires clear { All (λ server. pending server ≡ None) servers.now }
    requires enough { 1 + length servers.now ≤ length passes.now }
    requires few { length servers.now ≤ MAX_SERVERS }
    ensures lie { AllLie behaviour registers pending
        (workers (length servers.now) passes.now) servers.now result.items }
    ensures shown { places_shown behaviour registers pending
        (workers (length servers.now) passes.now) servers.now result.items
        ≡ new_places behaviour registers pending (workers (length servers.now) passes.now) servers.now }
{
    places_for(&passes[1..1 + servers.len()], servers)
}

/// Adds the account's line, where it was taken.
fn add_account(alloc: Global, account: Option<Account>, told: &mut Vec<u8>) -> Result<(), Fault>
    ensures told { OnOk result (told.new.items ≡ told.old.items ++ closing_text account) }
    ensures no_write { ¬ (IsErrOf result Fault.Write) }
    ensures no_read { ¬ (IsErrOf result Fault.Read) }
{
    let Some(account) = account else {
        return Ok(());
    };
    let text = line(alloc, Answer::Account(account.total))?;
    told.extend_from_slice(text.as_bytes())?;
    Ok(())
}

/// Adds the final lines, unless there was a race, and then the account's.
fn add_end(
    alloc: Global,
    script: &Script,
    servers: &[Box<dyn Server + Send>],
    account: Option<Account>,
    told: &mut Vec<u8>,
) -> Result<(), Fault>
    requires all { length servers.now ≡ length script.now.head.servers.items }
    ensures told { OnOk result (told.new.items ≡ told.old.items
        ++ (finals_text script.now (map (λ server. registers server) servers.now) ++ closing_text account)) }
    ensures no_write { ¬ (IsErrOf result Fault.Write) }
    ensures no_read { ¬ (IsErrOf result Fault.Read) }
{
    if script.has_race() {
        return add_account(alloc, account, told);
    }
    add_finals(alloc, &script.head, servers, told)?;
    add_account(alloc, account, told)
}

/// Writes them.
fn write_end<W: Sink>(
    alloc: Global,
    script: &Script,
    servers: &[Box<dyn Server + Send>],
    account: Option<Account>,
    writer: &mut W,
) -> Result<(), Fault>
    requires all { length servers.now ≡ length script.now.head.servers.items }
    ensures told { OnOk result (Appends (W.contents writer.old) (W.contents writer.new)
        (finals_text script.now (map (λ server. registers server) servers.now) ++ closing_text account)) }
    ensures front { OnErr result (AppendsFront (W.contents writer.old) (W.contents writer.new)
        (finals_text script.now (map (λ server. registers server) servers.now) ++ closing_text account)) }
    ensures write { IsErrOf result Fault.Write → IsTrue (W.has_failed writer.new) }
    ensures no_read { ¬ (IsErrOf result Fault.Read) }
{
    let mut told = Vec::new(alloc);
    add_end(alloc, script, servers, account, &mut told)?;
    match write_all(writer, told.as_slice()) {
        Ok(()) => Ok(()),
        Err(Failed) => Err(Fault::Write),
    }
}
