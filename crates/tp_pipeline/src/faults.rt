//! What can keep the pipeline from going on.
ghost use Rattle.std.specs.Prelude.{◌≡◌};

use std::alloc::{AllocError, AllocFailed};
use std::io;
use tp_manager::MakeFault;
use tp_model::types::Refusal;
use tp_rollover::RollFault;

/// Why the pipeline couldn't go on. A `?` makes it of what the calls answer.
#[derive(Debug, Drop)]
pub enum PipelineFault {
    /// No manager could be made.
    NoManager(MakeFault),
    /// The allocator refused.
    NoMemory,
    /// Nothing could be read or printed.
    NoOutput,
    /// A call was refused.
    Refused(Refusal),
    /// The crew couldn't go on in a new manager.
    NoRollover(RollFault),
    /// A new manager has no room for a payment.
    NoRoom,
    /// The books don't agree with one another.
    BadBooks,
    /// So many batches that their number has more than 32 bits were not enough.
    TooLong,
}

impl From<MakeFault> for PipelineFault {
    ghost use Rattle.tp_pipeline.specs.declared.faults.PipelineFault.TheVariants.{NoManager};

    ghost from_gives = { λ fault e. e ≡ NoManager fault };

    fn from(fault: MakeFault) -> PipelineFault {
        PipelineFault::NoManager(fault)
    }
}

impl From<AllocError> for PipelineFault {
    ghost use Rattle.tp_pipeline.specs.declared.faults.PipelineFault.TheVariants.{NoMemory};

    ghost from_gives = { λ _ e. e ≡ NoMemory };

    fn from(_: AllocError) -> PipelineFault {
        PipelineFault::NoMemory
    }
}

impl<T: Drop> From<AllocFailed<T>> for PipelineFault {
    ghost use Rattle.tp_pipeline.specs.declared.faults.PipelineFault.TheVariants.{NoMemory};

    ghost from_gives = { λ _ e. e ≡ NoMemory };

    fn from(_: AllocFailed<T>) -> PipelineFault {
        PipelineFault::NoMemory
    }
}

impl From<io::Error> for PipelineFault {
    ghost use Rattle.tp_pipeline.specs.declared.faults.PipelineFault.TheVariants.{NoOutput};

    ghost from_gives = { λ _ e. e ≡ NoOutput };

    fn from(_: io::Error) -> PipelineFault {
        PipelineFault::NoOutput
    }
}

impl From<Refusal> for PipelineFault {
    ghost use Rattle.tp_pipeline.specs.declared.faults.PipelineFault.TheVariants.{Refused};

    ghost from_gives = { λ refusal e. e ≡ Refused refusal };

    fn from(refusal: Refusal) -> PipelineFault {
        PipelineFault::Refused(refusal)
    }
}

impl From<RollFault> for PipelineFault {
    ghost use Rattle.tp_pipeline.specs.declared.faults.PipelineFault.TheVariants.{NoRollover};

    ghost from_gives = { λ fault e. e ≡ NoRollover fault };

    fn from(fault: RollFault) -> PipelineFault {
        PipelineFault::NoRollover(fault)
    }
}
