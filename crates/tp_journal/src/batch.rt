//! What a batch may be.
ghost use Rattle.std.specs.Prelude.{◌≡◌, ◌<◌, ◌≤◌, All, get_or, length, take, IsErrOf, OnOk, OnErr};
ghost use Rattle.tp_journal.specs.Text.{IsBatch, IsPlain};
ghost use Rattle.tp_journal.specs.declared.batch.Refusal.TheVariants.{Byte, Unended};

/// The byte before the end of the line that ends a batch: ETB, the end of a transmission block.
pub(crate) const END: u8 = 23;

/// Why a batch is refused.
#[derive(Clone, Copy, Debug, PartialEq, Eq)]
pub enum Refusal {
    /// A byte of it is 0, or 23, which ends batches.
    Byte,
    /// It doesn't end with the end of a line.
    Unended,
}

/// Refuses what is no batch.
pub(crate) fn check(batch: &[u8]) -> Result<(), Refusal>
    ensures accepted { OnOk result (IsBatch batch.now) }
    ensures byte { IsErrOf result Byte → All IsPlain batch.now → ⊥ }
    ensures refused { OnErr result (IsBatch batch.now → ⊥) }
{
    if plain_len(batch) < batch.len() {
        return Err(Refusal::Byte);
    }
    if batch.is_empty() || batch[batch.len() - 1] != b'\n' {
        return Err(Refusal::Unended);
    }
    Ok(())
}

/// How many bytes stand before the first one that no batch has.
fn plain_len(batch: &[u8]) -> usize
    ensures inside { result ≤ length batch.now }
    ensures plain { All IsPlain (take result batch.now) }
    ensures next { result < length batch.now → IsPlain (get_or batch.now result 0) → ⊥ }
{
    let mut len = 0;
    while len < batch.len() && batch[len] != 0 && batch[len] != END {
        len += 1;
    }
    len
}
