//! Bytes that are written behind a text, and a text that takes the place of another.
ghost use Rattle.std.specs.Prelude.{◌≡◌, ◌⊎◌, ◌+◌, ◌≤◌, ◌++◌, List, ℕ, length, replicate, OnOk};
ghost use Rattle.tp_journal.specs.Device.{HasCause, LeavesOnly, Only};
ghost use Rattle.tp_journal.specs.Text.{HasTorn, IsAtRest, IsText, text_of};

use crate::{Device, Failed};

/// Writes bytes over bytes 0 behind the text, which is on the disk.
pub(crate) fn put<D: Device>(device: &mut D, end: usize, bytes: &[u8]) -> Result<(), Failed>
    requires rest { IsAtRest (text_of (D.seen device.old)) (D.seen device.old) }
    requires durable { Only (D.seen device.old) (D.may_leave device.old) }
    requires end { end ≡ length (text_of (D.seen device.old)) }
    requires text { IsText bytes.now }
    requires room { end + length bytes.now ≤ length (D.seen device.old) }
    ensures rest { OnOk result (IsAtRest (text_of (D.seen device.old) ++ bytes.now) (D.seen device.new)) }
    ensures durable { OnOk result (Only (D.seen device.new) (D.may_leave device.new)) }
    ensures same { OnOk result (length (D.seen device.new) ≡ length (D.seen device.old)) }
    ensures any_moment { LeavesOnly D.moment D.left_since device.old device.new
        (HasTorn (text_of (D.seen device.old)) bytes.now) }
    ensures cause { HasCause (D.faults device.old) (D.faults device.new) result }
{
    device.write_at(end, bytes)?;
    device.sync()?;
    Ok(())
}

/// Adds bytes 0 behind a text, which is on the disk.
pub(crate) fn make_room<D: Device>(device: &mut D, count: usize) -> Result<(), Failed>
    requires rest { IsAtRest (text_of (D.seen device.old)) (D.seen device.old) }
    requires durable { Only (D.seen device.old) (D.may_leave device.old) }
    ensures rest { OnOk result (IsAtRest (text_of (D.seen device.old)) (D.seen device.new)) }
    ensures durable { OnOk result (Only (D.seen device.new) (D.may_leave device.new)) }
    ensures longer { OnOk result (length (D.seen device.new) ≡ length (D.seen device.old) + count) }
    ensures any_moment { LeavesOnly D.moment D.left_since device.old device.new
        (IsAtRest (text_of (D.seen device.old))) }
    ensures cause { HasCause (D.faults device.old) (D.faults device.new) result }
{
    device.grow(count)?;
    device.sync()?;
    Ok(())
}

/// Puts a file of its own, which is on the disk, in the place of the file. A crash leaves the one or the
/// other.
pub(crate) fn renew<D: Device>(device: &mut D, file: &[u8]) -> Result<(), Failed>
    ensures seen { OnOk result (D.seen device.new ≡ file.now) }
    ensures durable { OnOk result (Only file.now (D.may_leave device.new)) }
    ensures any_moment { LeavesOnly D.moment D.left_since device.old device.new
        (λ c. D.may_leave device.old c ⊎ (c ≡ file.now)) }
    ensures cause { HasCause (D.faults device.old) (D.faults device.new) result }
{
    device.write_spare(file)?;
    device.sync_spare()?;
    device.swap()?;
    Ok(())
}
