//! The journal, and why it doesn't go on.
ghost use Rattle.std.specs.Prelude.{◌≡◌, false, length};
ghost use Rattle.tp_journal.specs.Journal.{IsJournalSettled, Stands};
ghost use Rattle.tp_journal.specs.declared.journal.AppendError.TheVariants.{Memory};

use crate::recovery::Found;
use crate::sealing::hasher_of;
use crate::{Device, Refusal};
use sha2::Sha256;
use std::alloc::AllocError;

/// Why a journal didn't take a batch.
#[derive(Clone, Copy, Debug, PartialEq, Eq)]
pub enum AppendError {
    /// It is no batch. Nothing was written.
    Refused(Refusal),
    /// There was no memory. Nothing was written.
    Memory,
    /// The file is as long as it may be. Nothing was written.
    Full,
    /// The disk has failed, and the journal is poisoned.
    Failed,
    /// The disk had failed before. Nothing was written.
    Poisoned,
}

impl From<AllocError> for AppendError {
    ghost from_gives = { λ _ e. e ≡ Memory };

    fn from(_: AllocError) -> Self {
        AppendError::Memory
    }
}

/// A file of batches, each with its end, and of bytes 0 behind them.
#[derive(Drop)]
pub struct Journal<D: Device> {
    pub(crate) device: D,
    /// How many bytes the text has.
    pub(crate) end: usize,
    /// How many bytes the file has.
    pub(crate) len: usize,
    /// It was given the text.
    pub(crate) hasher: Sha256,
    /// The disk has failed: nothing is believed any more.
    pub(crate) poisoned: bool,
}

impl<D: Device> Journal<D> {
    /// A journal of what was recovered from a device.
    pub fn new(device: D, found: &Found) -> Self
        requires stands { Stands D.seen D.may_leave found.now.text.items found.now.len device }
        ensures settled { IsJournalSettled D.seen D.may_leave result }
        ensures device { result.device ≡ device }
        ensures fine { result.poisoned ≡ false }
    {
        Journal {
            device,
            end: found.text.len(),
            len: found.len,
            hasher: hasher_of(&found.text),
            poisoned: false,
        }
    }

    /// Its device.
    pub fn device(&self) -> &D
        ensures { result.now ≡ self.now.device }
    {
        &self.device
    }
}
