//! What can keep a program on the library from going on.
ghost use Rattle.std.specs.Prelude.{◌≡◌};

use std::alloc::{AllocError, AllocFailed};
use std::io;
use tp_manager::MakeFault;
use tp_model::types::Refusal;

/// Why a program on the library couldn't go on. A `?` makes it of what the calls answer.
#[derive(Debug, Drop)]
pub enum ProgramFault {
    /// No manager could be made, or no pass.
    NoManager(MakeFault),
    /// The allocator refused.
    NoMemory,
    /// Nothing could be printed.
    NoOutput,
    /// A call was refused.
    Refused(Refusal),
}

impl From<MakeFault> for ProgramFault {
    ghost use Rattle.tp_workers.specs.declared.program_fault.ProgramFault.TheVariants.{NoManager};

    ghost from_gives = { λ fault e. e ≡ NoManager fault };

    fn from(fault: MakeFault) -> ProgramFault {
        ProgramFault::NoManager(fault)
    }
}

impl From<AllocError> for ProgramFault {
    ghost use Rattle.tp_workers.specs.declared.program_fault.ProgramFault.TheVariants.{NoMemory};

    ghost from_gives = { λ _ e. e ≡ NoMemory };

    fn from(_: AllocError) -> ProgramFault {
        ProgramFault::NoMemory
    }
}

impl<T: Drop> From<AllocFailed<T>> for ProgramFault {
    ghost use Rattle.tp_workers.specs.declared.program_fault.ProgramFault.TheVariants.{NoMemory};

    ghost from_gives = { λ _ e. e ≡ NoMemory };

    fn from(_: AllocFailed<T>) -> ProgramFault {
        ProgramFault::NoMemory
    }
}

impl From<io::Error> for ProgramFault {
    ghost use Rattle.tp_workers.specs.declared.program_fault.ProgramFault.TheVariants.{NoOutput};

    ghost from_gives = { λ _ e. e ≡ NoOutput };

    fn from(_: io::Error) -> ProgramFault {
        ProgramFault::NoOutput
    }
}

impl From<Refusal> for ProgramFault {
    ghost use Rattle.tp_workers.specs.declared.program_fault.ProgramFault.TheVariants.{Refused};

    ghost from_gives = { λ refusal e. e ≡ Refused refusal };

    fn from(refusal: Refusal) -> ProgramFault {
        ProgramFault::Refused(refusal)
    }
}
