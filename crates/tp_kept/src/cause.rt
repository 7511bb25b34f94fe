//! Why a kept session takes no more.
ghost use Rattle.std.specs.Prelude.{◌≡◌, ◌⊎◌};
ghost use Rattle.tp_journal.specs.declared.batch.Refusal.{Refusal};

use tp_journal::AppendError;

/// Why nothing more is taken.
#[derive(Clone, Copy, Debug, PartialEq, Eq)]
pub enum Cause {
    /// Memory could not be had.
    NoMemory,
    /// The journal didn't take a line: its disk has failed, or it is as long as it may be.
    Journal,
}

/// Why a session ends whose journal didn't take a line.
pub(crate) fn cause_of(error: AppendError) -> Cause
    ensures memory { error ≡ AppendError.Memory → result ≡ Cause.NoMemory }
    ensures journal { result ≡ Cause.Journal → (error ≡ AppendError.Full) ⊎ (error ≡ AppendError.Failed)
        ⊎ (error ≡ AppendError.Poisoned) ⊎ ((why : Refusal) × (error ≡ AppendError.Refused why)) }
    ensures only_memory { result ≡ Cause.NoMemory → error ≡ AppendError.Memory }
    ensures one { (result ≡ Cause.NoMemory) ⊎ (result ≡ Cause.Journal) }
{
    match error {
        AppendError::Memory => Cause::NoMemory,
        AppendError::Refused(_) => Cause::Journal,
        AppendError::Full => Cause::Journal,
        AppendError::Failed => Cause::Journal,
        AppendError::Poisoned => Cause::Journal,
    }
}
