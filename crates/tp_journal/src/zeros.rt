//! Bytes that are 0, and bytes up to the first or behind the last of others.
ghost use Rattle.std.specs.Prelude.{◌≡◌, ◌<◌, ◌≤◌, ◌-◌, ◌++◌, All, ℕ, length, replicate, take, drop, get_or};
ghost use Rattle.std.specs.Prelude.{IfOk};
ghost use Rattle.tp_journal.specs.Text.{IsSet, IsText};

use std::alloc::{AllocError, Global};

/// A text, and so many bytes 0 behind it.
pub(crate) fn with_zeros(alloc: Global, text: &[u8], count: usize) -> Result<Vec<u8>, AllocError>
    ensures { IfOk result (λ v. v.items ≡ text.now ++ replicate count 0) }
{
    let mut file = text.to_vec(alloc)?;
    let mut none = Vec::new(alloc);
    none.resize(count, 0)?;
    file.extend_from_slice(&none)?;
    Ok(file)
}

/// How many bytes stand before the first 0.
pub(crate) fn text_len(bytes: &[u8]) -> usize
    ensures inside { result ≤ length bytes.now }
    ensures set { IsText (take result bytes.now) }
    ensures next { result < length bytes.now → get_or bytes.now result 0 ≡ 0 }
{
    let mut len = 0;
    while len < bytes.len() && bytes[len] != 0 {
        len += 1;
    }
    len
}

/// How many bytes there are without the bytes 0 at the end.
pub(crate) fn used_len(bytes: &[u8]) -> usize
    ensures inside { result ≤ length bytes.now }
    ensures zeros { All (λ b. b ≡ 0) (drop result bytes.now) }
    ensures last { 0 < result → IsSet (get_or bytes.now (result - 1) 0) }
{
    let mut count = bytes.len();
    while count > 0 && bytes[count - 1] == 0 {
        count -= 1;
    }
    count
}
