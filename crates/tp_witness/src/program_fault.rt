//! Why a run could not go on.
ghost use Rattle.std.specs.Prelude.{◌≡◌};

use std::alloc::AllocFailed;
use std::io;
use tp_manager::MakeFault;

#[derive(Debug, Drop)]
pub enum ProgramFault {
    NoManager(MakeFault),
    NoMemory,
    NoPass,
    NoRollover,
    NoNumber,
    NoOutput,
}

impl From<MakeFault> for ProgramFault {
    ghost use Rattle.tp_witness.specs.declared.program_fault.ProgramFault.TheVariants.{NoManager};

    ghost from_gives = { λ fault e. e ≡ NoManager fault };

    fn from(fault: MakeFault) -> ProgramFault {
        ProgramFault::NoManager(fault)
    }
}

impl<T: Drop> From<AllocFailed<T>> for ProgramFault {
    ghost use Rattle.tp_witness.specs.declared.program_fault.ProgramFault.TheVariants.{NoMemory};

    ghost from_gives = { λ _ e. e ≡ NoMemory };

    fn from(_: AllocFailed<T>) -> ProgramFault {
        ProgramFault::NoMemory
    }
}

impl From<io::Error> for ProgramFault {
    ghost use Rattle.tp_witness.specs.declared.program_fault.ProgramFault.TheVariants.{NoOutput};

    ghost from_gives = { λ _ e. e ≡ NoOutput };

    fn from(_: io::Error) -> ProgramFault {
        ProgramFault::NoOutput
    }
}
