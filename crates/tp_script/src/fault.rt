//! What can go wrong with a script, and with reading it.
ghost use Rattle.std.specs.Prelude.{◌≡◌, Some};
ghost use Rattle.tp_script.specs.Fault.{fault_name, line_fault_text, number_of, refused_text};

use crate::source::Failed;
use std::alloc::{AllocError, AllocFailed};
use std::fmt;
use thiserror::Error;

/// Why there is no script.
#[derive(Clone, Copy, Debug, PartialEq, Eq, Error)]
pub enum ReadFault {
    /// Memory could not be had.
    #[error("out of memory")]
    NoMemory,
    /// The reader failed, or had not ended after all the requests that it may be asked.
    #[error("the script could not be read")]
    Read,
    /// The script is refused.
    #[error("{0}")]
    Script(Refused),
}

/// What is wrong with a line. Of several faults the first in this order counts: 6, 1, 7, 5, 2, 3, 4.
#[derive(Clone, Copy, Debug, PartialEq, Eq)]
pub enum LineFault {
    /// 1: an unknown first word, kind or act, a wrong number of words, a byte that isn't allowed, or an output
    /// without exactly two colons.
    Syntax,
    /// 2: a number word that isn't 1 to 20 digits, or outside its bounds.
    BadNumber,
    /// 3: a setting outside its range, too many servers, or a race with which too many passes are needed.
    BadLimits,
    /// 4: a recipe that is refused, or a `start` of a register that the server doesn't have.
    BadRecipe,
    /// 5: a name that isn't 1 to 8 small letters, that another server has, or that none has.
    BadName,
    /// 6: a line above 200 bytes, or a script above 65,536 bytes.
    TooLong,
    /// 7: a setting after a server, a line of the head after a command, or a line of any kind after
    /// `account`.
    Order,
}

impl LineFault {
    /// The number of the fault, 1 to 7.
    pub fn number(self) -> u8
        ensures { result ≡ number_of self }
    {
        match self {
            LineFault::Syntax => 1,
            LineFault::BadNumber => 2,
            LineFault::BadLimits => 3,
            LineFault::BadRecipe => 4,
            LineFault::BadName => 5,
            LineFault::TooLong => 6,
            LineFault::Order => 7,
        }
    }

    /// The name of the fault.
    fn name(self) -> &'static str
        ensures { result.now ≡ fault_name self }
    {
        match self {
            LineFault::Syntax => "Syntax",
            LineFault::BadNumber => "BadNumber",
            LineFault::BadLimits => "BadLimits",
            LineFault::BadRecipe => "BadRecipe",
            LineFault::BadName => "BadName",
            LineFault::TooLong => "TooLong",
            LineFault::Order => "Order",
        }
    }
}

impl fmt::Display for LineFault {
    ghost output = { λ fault. Some (line_fault_text fault) };

    fn fmt<W: fmt::Write>(&self, f: &mut fmt::Formatter<W>) -> fmt::Result {
        let number = self.number();
        let name = self.name();
        write!(f, "{number} {name}")
    }
}

/// Where a script is refused, and why.
#[derive(Clone, Copy, Debug, PartialEq, Eq)]
pub struct Refused {
    /// The number of its first faulty line, from 1 on; 0 where the script is too long as a whole.
    pub line: u32,
    /// The first fault of that line.
    pub fault: LineFault,
}

impl fmt::Display for Refused {
    ghost output = { λ refused. Some (refused_text refused) };

    fn fmt<W: fmt::Write>(&self, f: &mut fmt::Formatter<W>) -> fmt::Result {
        let line = self.line;
        let fault = self.fault;
        write!(f, "refused line {line}: {fault}")
    }
}

/// Why a line isn't read.
#[derive(Clone, Copy, Debug, PartialEq, Eq)]
pub enum LineError {
    /// Memory could not be had.
    NoMemory,
    /// The line has this fault.
    Fault(LineFault),
}

impl From<LineFault> for LineError {
    ghost use Rattle.tp_script.specs.declared.fault.LineError.TheVariants.{Fault};

    ghost from_gives = { λ fault e. e ≡ Fault fault };

    fn from(fault: LineFault) -> LineError {
        LineError::Fault(fault)
    }
}

impl From<AllocError> for LineError {
    ghost use Rattle.tp_script.specs.declared.fault.LineError.TheVariants.{NoMemory};

    ghost from_gives = { λ _ e. e ≡ NoMemory };

    fn from(_: AllocError) -> LineError {
        LineError::NoMemory
    }
}

impl<T: Drop> From<AllocFailed<T>> for LineError {
    ghost use Rattle.tp_script.specs.declared.fault.LineError.TheVariants.{NoMemory};

    ghost from_gives = { λ _ e. e ≡ NoMemory };

    fn from(_: AllocFailed<T>) -> LineError {
        LineError::NoMemory
    }
}

impl From<AllocError> for ReadFault {
    ghost use Rattle.tp_script.specs.declared.fault.ReadFault.TheVariants.{NoMemory};

    ghost from_gives = { λ _ e. e ≡ NoMemory };

    fn from(_: AllocError) -> ReadFault {
        ReadFault::NoMemory
    }
}

impl From<Failed> for ReadFault {
    ghost use Rattle.tp_script.specs.declared.fault.ReadFault.TheVariants.{Read};

    ghost from_gives = { λ _ e. e ≡ Read };

    fn from(_: Failed) -> ReadFault {
        ReadFault::Read
    }
}
