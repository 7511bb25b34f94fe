//! A script run over the manager of one thread: what the tests hold the program against.
ghost use Rattle.std.specs.Prelude.{◌≡◌, ◌+◌, ◌^◌, ◌<◌, ◌≤◌, Ok, IfSome, IsErrOf, IsTrue};
ghost use Rattle.tp_script.specs.declared.source.TheConstants.{MAX_READS};
ghost use Rattle.tp_script.specs.Whole.{script};
ghost use Rattle.tp_script.specs.Script.{script_view};
ghost use Rattle.std.specs.List.{list_any};
ghost use Rattle.tp_reference.specs.Whole.{Reports, is_beyond, is_other};

use crate::plain_report::write_plain_report;
use std::alloc::Global;
use tp_report::{Fault, Sink, fault_of, write_refusal};
use tp_script::{Act, ReadFault, Script, Source, read_script};

/// How a run over the manager of one thread ends without a fault.
#[derive(Clone, Copy, Debug, PartialEq, Eq)]
pub enum PlainExit {
    /// The script was run, and its report written.
    Done,
    /// The script was refused, and the refusal written.
    Refused,
    /// There is a race among its commands, which takes several threads, or a rollover, which takes two
    /// managers. Nothing was run, and nothing written.
    NotRun,
}

/// Reads a script, runs it over the manager of one thread, and writes its report and nothing else. A script
/// with a race or a rollover isn't run. The reader is asked at most 100,000 times.
pub fn run_plain<R: Source, W: Sink>(
    alloc: Global,
    reader: &mut R,
    writer: &mut W,
) -> Result<PlainExit, Fault>
    requires { R.asked reader.old + MAX_READS < 2 ^ 64 }
    ensures asked { R.asked reader.new ≤ R.asked reader.old + MAX_READS }
    ensures report { IfSome (R.rest reader.old) (λ bytes. Reports result (script bytes)
        (W.contents writer.old) (W.contents writer.new)) }
    ensures read { IsErrOf result Fault.Read → IsTrue (R.has_failed reader.new) }
    ensures write { IsErrOf result Fault.Write → IsTrue (W.has_failed writer.new) }
{
    match read_script(alloc, reader) {
        Ok(script) => {
            if is_beyond(&script) {
                return Ok(PlainExit::NotRun);
            }
            match write_plain_report(alloc, &script, writer) {
                Ok(()) => Ok(PlainExit::Done),
                Err(fault) => Err(fault_of(fault)),
            }
        }
        Err(ReadFault::Script(refused)) => match write_refusal(alloc, refused, writer) {
            Ok(()) => Ok(PlainExit::Refused),
            Err(fault) => Err(fault_of(fault)),
        },
        Err(ReadFault::NoMemory) => Err(Fault::NoMemory),
        Err(ReadFault::Read) => Err(Fault::Read),
    }
}

/// Whether this is something that one thread over one manager doesn't do.
fn is_other(act: &Act) -> bool
    ensures { result ≡ is_other act.now }
{
    match act {
        Act::Command(_) => false,
        Act::Drain => false,
        Act::DrainNext => false,
        Act::Race(_) => true,
        Act::Rollover => true,
    }
}

/// Whether there is such among these.
fn has_other(acts: &[Act]) -> bool
    ensures { result ≡ list_any is_other acts.now }
{
    acts.iter().any(|act| is_other(act))
}

/// Whether a script has such.
fn is_beyond(script: &Script) -> bool
    ensures { result ≡ is_beyond (Ok (script_view script.now)) }
{
    has_other(script.acts.as_slice())
}
