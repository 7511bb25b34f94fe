//! What no crash leaves behind the last end of a batch.
ghost use Rattle.std.specs.Prelude.{◌≡◌, ◌+◌, ◌<◌, ◌≤◌, length, true, false};
ghost use Rattle.tp_journal.specs.Text.{IsDamage};

use crate::batch::END;
use crate::ends::begins_elsewhere;
use crate::zeros::{text_len, used_len};

/// Whether the bytes behind the last good end, which stands before this place, are no torn batch.
pub(crate) fn is_damaged(rest: &[u8], begin: &[u8]) -> bool
    ensures damaged { result ≡ true → IsDamage begin.now rest.now }
    ensures whole { result ≡ false → IsDamage begin.now rest.now → ⊥ }
{
    let mut at = 1;
    while at < rest.len() {
        if is_told_at(rest, begin, at) {
            return true;
        }
        at += 1;
    }
    false
}

/// Whether the end of a line at this place tells of damage.
fn is_told_at(rest: &[u8], begin: &[u8], at: usize) -> bool
    requires { (1 ≤ at) × (at < length rest.now) }
    ensures damaged { result ≡ true → IsDamage begin.now rest.now }
    ensures whole { result ≡ false → (d : IsDamage begin.now rest.now) → at ≡ length d.front + 1 → ⊥ }
{
    if rest[at - 1] != END || rest[at] != b'\n' {
        return false;
    }
    if used_len(&rest[at + 1..]) > 0 {
        return true;
    }
    let front = &rest[..at - 1];
    if text_len(front) == front.len() {
        return true;
    }
    begins_elsewhere(front, begin)
}
