//! Batches that are appended, and a text that takes the place of all of them.
ghost use Rattle.std.specs.Prelude.{◌≡◌, ◌⊎◌, ◌+◌, ◌<◌, ◌≤◌, ◌^◌, ◌++◌, true, false, length, OnOk, IsErrOf};
ghost use Rattle.tp_journal.specs.declared.append.TheConstants.{MAX_LEN};
ghost use Rattle.tp_journal.specs.declared.recovery.TheConstants.{STEP};
ghost use Rattle.tp_journal.specs.declared.batch.Refusal.{Refusal};
ghost use Rattle.tp_journal.specs.Device.{HasCause, LeavesOnly, Only};
ghost use Rattle.tp_journal.specs.Journal.{IsJournalOpen, IsJournalSettled};
ghost use Rattle.tp_journal.specs.Text.{HasTorn, IsAtRest, IsBatch, IsText};
ghost use Rattle.tp_journal.specs.Text.{first_line, sealed_batch, text_of, with_batch};

use crate::recovery::STEP;
use crate::sealing::{FIRST_LINE, hasher_of, seal};
use crate::writing::{make_room, put, renew};
use crate::zeros::with_zeros;
use crate::{AppendError, Device, Failed, Journal};
use std::alloc::Global;

/// The longest file to which bytes are added, in bytes: 2 ^ 61.
pub const MAX_LEN: usize = 2_305_843_009_213_693_952;

impl<D: Device> Journal<D> {
    /// Adds a batch and its end. At `Ok` it is acknowledged: it is on the disk.
    pub fn append(&mut self, alloc: Global, batch: &[u8]) -> Result<(), AppendError>
        requires open { IsJournalOpen D.seen D.may_leave self.old }
        ensures open { IsJournalOpen D.seen D.may_leave self.new }
        ensures acknowledged { OnOk result ((self.new.poisoned ≡ false)
            × (text_of (D.seen self.new.device) ≡ with_batch (text_of (D.seen self.old.device)) batch.now)) }
        ensures accepted { OnOk result (IsBatch batch.now) }
        ensures refused { (why : Refusal) → IsErrOf result (AppendError.Refused why)
            → (self.new ≡ self.old) × (IsBatch batch.now → ⊥) }
        ensures any_moment { self.old.poisoned ≡ false
            → LeavesOnly D.moment D.left_since self.old.device self.new.device
            (HasTorn (text_of (D.seen self.old.device))
            (sealed_batch (text_of (D.seen self.old.device)) batch.now)) }
        ensures within { self.old.poisoned ≡ false → (self.new.device ≡ self.old.device)
            ⊎ (length (with_batch (text_of (D.seen self.old.device)) batch.now) < 2 ^ 64) }
        ensures poisoned { self.old.poisoned ≡ true
            → (self.new ≡ self.old) × IsErrOf result AppendError.Poisoned }
        ensures later { D.faults self.old.device ≤ D.faults self.new.device }
        ensures failed { IsErrOf result AppendError.Failed
            → (self.new.poisoned ≡ true) × (D.faults self.old.device < D.faults self.new.device) }
        ensures memory { IsErrOf result AppendError.Memory → self.new ≡ self.old }
        ensures full { IsErrOf result AppendError.Full
            → (self.new ≡ self.old) × (MAX_LEN < self.old.len) }
        ensures had_failed { IsErrOf result AppendError.Poisoned → self.old.poisoned ≡ true }
        ensures grows { self.old.poisoned ≡ false → self.new.len ≤ self.old.len + STEP
            + length (sealed_batch (text_of (D.seen self.old.device)) batch.now) }
    {
        if self.poisoned {
            return Err(AppendError::Poisoned);
        }
        if self.len > MAX_LEN {
            return Err(AppendError::Full);
        }
        let ready = seal(alloc, &self.hasher, self.end, batch)?;
        match self.write(&ready.bytes) {
            Ok(()) => {
                self.end += ready.bytes.len();
                self.hasher = ready.hasher;
                Ok(())
            }
            Err(Failed) => {
                self.poisoned = true;
                Err(AppendError::Failed)
            }
        }
    }

    /// Puts the first line and one batch with its end in the place of the text: a crash leaves either text.
    pub fn replace(&mut self, alloc: Global, batch: &[u8]) -> Result<(), AppendError>
        requires open { IsJournalOpen D.seen D.may_leave self.old }
        ensures open { IsJournalOpen D.seen D.may_leave self.new }
        ensures acknowledged { OnOk result ((self.new.poisoned ≡ false)
            × (text_of (D.seen self.new.device) ≡ with_batch first_line batch.now)) }
        ensures accepted { OnOk result (IsBatch batch.now) }
        ensures refused { (why : Refusal) → IsErrOf result (AppendError.Refused why)
            → (self.new ≡ self.old) × (IsBatch batch.now → ⊥) }
        ensures any_moment { self.old.poisoned ≡ false
            → LeavesOnly D.moment D.left_since self.old.device self.new.device
            (λ c. IsAtRest (text_of (D.seen self.old.device)) c
            ⊎ IsAtRest (with_batch first_line batch.now) c) }
        ensures poisoned { self.old.poisoned ≡ true
            → (self.new ≡ self.old) × IsErrOf result AppendError.Poisoned }
        ensures later { D.faults self.old.device ≤ D.faults self.new.device }
        ensures failed { IsErrOf result AppendError.Failed
            → (self.new.poisoned ≡ true) × (D.faults self.old.device < D.faults self.new.device) }
        ensures tried { IsErrOf result AppendError.Failed → IsBatch batch.now }
        ensures memory { IsErrOf result AppendError.Memory → self.new ≡ self.old }
        ensures not_full { IsErrOf result AppendError.Full → ⊥ }
        ensures had_failed { IsErrOf result AppendError.Poisoned → self.old.poisoned ≡ true }
        ensures grows { OnOk result
            (self.new.len ≤ STEP + length (with_batch first_line batch.now)) }
    {
        if self.poisoned {
            return Err(AppendError::Poisoned);
        }
        let ready = seal(alloc, &hasher_of(FIRST_LINE), FIRST_LINE.len(), batch)?;
        let mut text = FIRST_LINE.to_vec(alloc)?;
        text.extend_from_slice(&ready.bytes)?;
        let file = with_zeros(alloc, &text, STEP)?;
        match renew(&mut self.device, &file) {
            Ok(()) => {
                self.end = text.len();
                self.len = file.len();
                self.hasher = ready.hasher;
                Ok(())
            }
            Err(Failed) => {
                self.poisoned = true;
                Err(AppendError::Failed)
            }
        }
    }

    /// Writes bytes behind the text, where there is room for them.
    fn write(&mut self, bytes: &[u8]) -> Result<(), Failed>
        requires settled { IsJournalSettled D.seen D.may_leave self.old }
        requires text { IsText bytes.now }
        requires short { self.old.len ≤ MAX_LEN }
        ensures rest { OnOk result (IsAtRest (text_of (D.seen self.old.device) ++ bytes.now)
            (D.seen self.new.device)) }
        ensures durable { OnOk result (Only (D.seen self.new.device) (D.may_leave self.new.device)) }
        ensures len { OnOk result (self.new.len ≡ length (D.seen self.new.device)) }
        ensures grows { self.new.len ≤ self.old.len + STEP + length bytes.now }
        ensures any_moment { LeavesOnly D.moment D.left_since self.old.device self.new.device
            (HasTorn (text_of (D.seen self.old.device)) bytes.now) }
        ensures cause { HasCause (D.faults self.old.device) (D.faults self.new.device) result }
        ensures same { (self.new.end ≡ self.old.end) × (self.new.hasher ≡ self.old.hasher)
            × (self.new.poisoned ≡ self.old.poisoned) }
    {
        if self.len - self.end >= bytes.len() {
            put(&mut self.device, self.end, bytes)?;
            return Ok(());
        }
        let count = bytes.len() + STEP;
        make_room(&mut self.device, count)?;
        self.len += count;
        put(&mut self.device, self.end, bytes)?;
        Ok(())
    }
}
