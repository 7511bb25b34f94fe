//! What can go wrong with a report, and how a run ends.
ghost use Rattle.std.specs.Prelude.{◌≡◌};
ghost use Rattle.tp_report.specs.Answer.{line};
ghost use Rattle.tp_report.specs.Faults.{TellsFault, exit_status, fault_of, fault_text};

use crate::sink::{Sink, write_all};
use std::alloc::{AllocError, AllocFailed};
use thiserror::Error;
use tp_script::Failed;

/// Why a report isn't whole.
#[derive(Clone, Copy, Debug, PartialEq, Eq, Error)]
pub enum RunFault {
    /// Memory could not be had.
    #[error("out of memory")]
    NoMemory,
    /// The writer failed, or took no byte of some.
    #[error("the report could not be written")]
    Write,
}

impl<T: Drop> From<AllocFailed<T>> for RunFault {
    ghost use Rattle.tp_report.specs.declared.fault.RunFault.TheVariants.{NoMemory};

    ghost from_gives = { λ _ e. e ≡ NoMemory };

    fn from(_: AllocFailed<T>) -> RunFault {
        RunFault::NoMemory
    }
}

impl From<AllocError> for RunFault {
    ghost use Rattle.tp_report.specs.declared.fault.RunFault.TheVariants.{NoMemory};

    ghost from_gives = { λ _ e. e ≡ NoMemory };

    fn from(_: AllocError) -> RunFault {
        RunFault::NoMemory
    }
}

impl From<Failed> for RunFault {
    ghost use Rattle.tp_report.specs.declared.fault.RunFault.TheVariants.{Write};

    ghost from_gives = { λ _ e. e ≡ Write };

    fn from(_: Failed) -> RunFault {
        RunFault::Write
    }
}

/// Why the program ends early.
#[derive(Clone, Copy, Debug, PartialEq, Eq)]
pub enum Fault {
    /// Memory could not be had.
    NoMemory,
    /// The reader failed: nothing of a script was run, and a session ended there.
    Read,
    /// The report could not be written: what was written is a prefix of it.
    Write,
}

impl<T: Drop> From<AllocFailed<T>> for Fault {
    ghost use Rattle.tp_report.specs.declared.fault.Fault.TheVariants.{NoMemory};

    ghost from_gives = { λ _ e. e ≡ NoMemory };

    fn from(_: AllocFailed<T>) -> Fault {
        Fault::NoMemory
    }
}

impl From<AllocError> for Fault {
    ghost use Rattle.tp_report.specs.declared.fault.Fault.TheVariants.{NoMemory};

    ghost from_gives = { λ _ e. e ≡ NoMemory };

    fn from(_: AllocError) -> Fault {
        Fault::NoMemory
    }
}

impl Fault {
    /// The one line on standard error. It takes no memory.
    pub fn line(self) -> &'static str
        ensures { result.now ≡ line (fault_text self) }
    {
        match self {
            Fault::NoMemory => "fault 1 NoMemory\n",
            Fault::Read => "fault 2 Read\n",
            Fault::Write => "fault 3 Write\n",
        }
    }
}

/// How the program ends without a fault.
#[derive(Clone, Copy, Debug, PartialEq, Eq)]
pub enum Exit {
    /// The script was run, and its report written.
    Done,
    /// The script was refused, and the refusal written.
    Refused,
}

/// The fault of the program that a fault of its run is.
pub fn fault_of(fault: RunFault) -> Fault
    ensures { result ≡ fault_of fault }
{
    match fault {
        RunFault::NoMemory => Fault::NoMemory,
        RunFault::Write => Fault::Write,
    }
}

/// The exit status of the program, by how it ended.
pub fn exit_status(outcome: Result<Exit, Fault>) -> u8
    ensures { result ≡ exit_status outcome }
{
    match outcome {
        Ok(Exit::Done) => 0,
        Ok(Exit::Refused) => 2,
        Err(_) => 1,
    }
}

/// Writes the line of the fault with which the program ended, if it did. Where the writer fails, a prefix of
/// it is written.
pub fn write_fault<W: Sink>(outcome: Result<Exit, Fault>, writer: &mut W)
    ensures { TellsFault outcome (W.has_failed writer.new) (W.contents writer.old) (W.contents writer.new) }
{
    if let Err(fault) = outcome {
        let _ = write_all(writer, fault.line().as_bytes());
    }
}
