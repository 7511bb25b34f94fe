//! What is recovered of a file that a crash may have left.
ghost use Rattle.std.specs.Prelude.{◌≡◌, ◌⊎◌, ◌<◌, ◌≤◌, List, ℕ, All, decimal, drop, length, take, IfOk};
ghost use Rattle.std.specs.Prelude.{◌+◌, ◌-◌, IsErrOf, OnOk, get_or};
ghost use Rattle.tp_journal.specs.Device.{LeavesOnly};
ghost use Rattle.tp_journal.specs.Journal.{LeavesRecovered, Stands};
ghost use Rattle.tp_journal.specs.Text.{HasDamage, HasSealed, IsAtRest, IsDamage, IsFrontOf, IsRecovered};
ghost use Rattle.tp_journal.specs.Text.{IsSealed, IsSet, IsText, first_line, text_of};
ghost use Rattle.tp_journal.specs.declared.recovery.OpenError.TheVariants.{Memory};
ghost use Rattle.tp_journal.specs.declared.recovery.TheConstants.{STEP};

use crate::damage::is_damaged;
use crate::sealing::{FIRST_LINE, sealed_len};
use crate::writing::renew;
use crate::zeros::{text_len, used_len, with_zeros};
use crate::{Device, Failed};
use std::alloc::{AllocError, Global};

/// How many bytes 0 a file has behind its text when it is made.
pub(crate) const STEP: usize = 1_048_576;

/// How a journal of any version begins.
const NAME: &[u8] = b"# covetrivet journal ";

/// Why no journal is opened. But for `Failed` the file was not touched.
#[derive(Clone, Copy, Debug, PartialEq, Eq)]
pub enum OpenError {
    /// There was no memory.
    Memory,
    /// The disk has failed.
    Failed,
    /// The file doesn't begin as a journal.
    Foreign,
    /// The file is a journal of another version.
    Version,
    /// What was acknowledged isn't there as it was written. Of so many bytes from the first on it is.
    Damaged(usize),
}

impl From<AllocError> for OpenError {
    ghost from_gives = { λ _ e. e ≡ Memory };

    fn from(_: AllocError) -> Self {
        OpenError::Memory
    }
}

/// What a file was found to have.
#[derive(Drop)]
pub struct Found {
    /// Its batches, each with its end, behind the first line.
    pub text: Vec<u8>,
    /// How long the file is now.
    pub len: usize,
    /// How many bytes stood behind the text, of a batch that a crash cut short.
    pub cut: usize,
}

/// Recovers the batches of a file of these bytes, and makes the file anew of them.
pub fn recover<D: Device>(alloc: Global, device: &mut D, bytes: &[u8]) -> Result<Found, OpenError>
    requires seen { bytes.now ≡ D.seen device.old }
    ensures found { IfOk result (λ found. IsRecovered (D.seen device.old) found.text.items) }
    ensures cut { IfOk result (λ found.
        All (λ b. b ≡ 0) (drop found.cut (drop (length found.text.items) (D.seen device.old)))) }
    ensures least { IfOk result (λ found. 0 < found.cut
        → IsSet (get_or (drop (length found.text.items) (D.seen device.old)) (found.cut - 1) 0)) }
    ensures len { IfOk result (λ found. found.len ≡ STEP + length found.text.items) }
    ensures stands { IfOk result (λ found. Stands D.seen D.may_leave found.text.items found.len device.new) }
    ensures any_moment { LeavesOnly D.moment D.left_since device.old device.new
        (LeavesRecovered (D.seen device.old) (D.may_leave device.old)) }
    ensures foreign { IsErrOf result OpenError.Foreign
        → (IsFrontOf (text_of (D.seen device.old)) first_line → ⊥) × (device.new ≡ device.old) }
    ensures version { IsErrOf result OpenError.Version
        → (IsFrontOf (text_of (D.seen device.old)) first_line → ⊥) × (device.new ≡ device.old) }
    ensures damaged { (count : ℕ) → IsErrOf result (OpenError.Damaged count)
        → HasDamage (D.seen device.old) count × (device.new ≡ device.old) }
    ensures later { D.faults device.old ≤ D.faults device.new }
    ensures failed { IsErrOf result OpenError.Failed → D.faults device.old < D.faults device.new }
{
    if bytes.is_empty() {
        let found = make(alloc, device, FIRST_LINE, 0)?;
        return Ok(found);
    }
    let count = examine(alloc, bytes)?;
    let found = make(alloc, device, &bytes[..count], used_len(&bytes[count..]))?;
    Ok(found)
}

/// How many bytes of a file that isn't empty are recovered.
fn examine(alloc: Global, bytes: &[u8]) -> Result<usize, OpenError>
    ensures inside { IfOk result (λ count. count ≤ length bytes.now) }
    ensures sealed { IfOk result (λ count. HasSealed (text_of bytes.now) (take count bytes.now)) }
    ensures whole { IfOk result (λ count. IsDamage (decimal count) (drop count bytes.now) → ⊥) }
    ensures foreign { IsErrOf result OpenError.Foreign → IsFrontOf (text_of bytes.now) first_line → ⊥ }
    ensures version { IsErrOf result OpenError.Version → IsFrontOf (text_of bytes.now) first_line → ⊥ }
    ensures damaged { (count : ℕ) → IsErrOf result (OpenError.Damaged count) → HasDamage bytes.now count }
    ensures not_failed { IsErrOf result OpenError.Failed → ⊥ }
{
    let text = &bytes[..text_len(bytes)];
    if !text.starts_with(FIRST_LINE) {
        return Err(other_kind(text));
    }
    let count = sealed_len(alloc, text)?;
    let begin = format!(in alloc; "{count}")?;
    if is_damaged(&bytes[count..], begin.as_bytes()) {
        return Err(OpenError::Damaged(count));
    }
    Ok(count)
}

/// What a file is that doesn't have the first line.
fn other_kind(text: &[u8]) -> OpenError
    ensures { (result ≡ OpenError.Foreign) ⊎ (result ≡ OpenError.Version) }
{
    if text.starts_with(NAME) {
        OpenError::Version
    } else {
        OpenError::Foreign
    }
}

/// Makes the file anew of a text and of bytes 0.
fn make<D: Device>(
    alloc: Global,
    device: &mut D,
    text: &[u8],
    cut: usize,
) -> Result<Found, OpenError>
    requires text { IsText text.now }
    requires sealed { IsSealed text.now }
    ensures found { IfOk result (λ found. (found.text.items ≡ text.now) × (found.cut ≡ cut)) }
    ensures len { IfOk result (λ found. found.len ≡ STEP + length text.now) }
    ensures stands { IfOk result (λ found. Stands D.seen D.may_leave found.text.items found.len device.new) }
    ensures any_moment { LeavesOnly D.moment D.left_since device.old device.new
        (λ c. D.may_leave device.old c ⊎ IsAtRest text.now c) }
    ensures foreign { IsErrOf result OpenError.Foreign → ⊥ }
    ensures version { IsErrOf result OpenError.Version → ⊥ }
    ensures damaged { (count : ℕ) → IsErrOf result (OpenError.Damaged count) → ⊥ }
    ensures later { D.faults device.old ≤ D.faults device.new }
    ensures failed { IsErrOf result OpenError.Failed → D.faults device.old < D.faults device.new }
{
    let file = with_zeros(alloc, text, STEP)?;
    let text = text.to_vec(alloc)?;
    match renew(device, &file) {
        Ok(()) => Ok(Found {
            text,
            len: file.len(),
            cut,
        }),
        Err(Failed) => Err(OpenError::Failed),
    }
}
