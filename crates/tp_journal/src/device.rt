//! A file as the journal sees it: what it has, and what a crash may leave of it.
ghost use Rattle.std.specs.Prelude.{◌≡◌, ◌≤◌, ◌⊎◌, ◌+◌, ◌++◌, List, ℕ, length, replicate, OnOk};
ghost use Rattle.tp_journal.specs.Device.{Only, FollowsStep, Mixed, Grown, HoldsBytes, Elapses, HasCause};

/// The disk has failed.
#[derive(Clone, Copy, Debug, PartialEq, Eq)]
pub struct Failed;

/// A file, and a spare one that can take its place.
pub trait Device {
    /// The bytes of the file.
    ghost seen: { Self → List ℕ };

    /// What a crash at this moment may leave of it.
    ghost may_leave: { Self → List ℕ → Type 0 };

    /// The bytes of the spare file.
    ghost spare: { Self → List ℕ };

    /// What a crash at this moment may leave of the spare file.
    ghost spare_leaves: { Self → List ℕ → Type 0 };

    /// The moment, as a number that doesn't fall.
    ghost moment: { Self → ℕ };

    /// What a crash at some moment from that one on might have left, during a call or between two.
    ghost left_since: { Self → ℕ → List ℕ → Type 0 };

    /// How often the disk has failed.
    ghost faults: { Self → ℕ };

    /// Writes over what is there. Until a sync, a crash leaves each byte as it was or as it was written.
    fn write_at(&mut self, at: usize, bytes: &[u8]) -> Result<(), Failed>
        requires inside { at + length bytes.now ≤ length (seen self.old) }
        ensures written { OnOk result (HoldsBytes (seen self.old) at bytes.now (seen self.new)) }
        ensures crash { FollowsStep (Mixed at bytes.now) (may_leave self.old) (may_leave self.new) }
        ensures time { Elapses (moment self.old) (moment self.new) (left_since self.old) (left_since self.new)
            (may_leave self.new) }
        ensures cause { HasCause (faults self.old) (faults self.new) result };

    /// Adds bytes 0 at the end. Until a sync, a crash leaves any number of them.
    fn grow(&mut self, count: usize) -> Result<(), Failed>
        ensures grown { OnOk result (seen self.new ≡ seen self.old ++ replicate count 0) }
        ensures crash { FollowsStep (Grown count) (may_leave self.old) (may_leave self.new) }
        ensures time { Elapses (moment self.old) (moment self.new) (left_since self.old) (left_since self.new)
            (may_leave self.new) }
        ensures cause { HasCause (faults self.old) (faults self.new) result };

    /// After it, a crash leaves the bytes of the file.
    fn sync(&mut self) -> Result<(), Failed>
        ensures durable { OnOk result (Only (seen self.old) (may_leave self.new)) }
        ensures seen { seen self.new ≡ seen self.old }
        ensures crash { (c : List ℕ) → may_leave self.new c → may_leave self.old c }
        ensures time { Elapses (moment self.old) (moment self.new) (left_since self.old) (left_since self.new)
            (may_leave self.new) }
        ensures cause { HasCause (faults self.old) (faults self.new) result };

    /// Makes the spare file anew, of these bytes. A crash may leave anything of it, and the file as it is.
    fn write_spare(&mut self, bytes: &[u8]) -> Result<(), Failed>
        ensures written { OnOk result (spare self.new ≡ bytes.now) }
        ensures seen { seen self.new ≡ seen self.old }
        ensures crash { (c : List ℕ) → may_leave self.new c → may_leave self.old c }
        ensures time { Elapses (moment self.old) (moment self.new) (left_since self.old) (left_since self.new)
            (may_leave self.new) }
        ensures cause { HasCause (faults self.old) (faults self.new) result };

    /// After it, a crash leaves the bytes of the spare file.
    fn sync_spare(&mut self) -> Result<(), Failed>
        ensures durable { OnOk result (Only (spare self.old) (spare_leaves self.new)) }
        ensures spare { spare self.new ≡ spare self.old }
        ensures seen { seen self.new ≡ seen self.old }
        ensures crash { (c : List ℕ) → may_leave self.new c → may_leave self.old c }
        ensures time { Elapses (moment self.old) (moment self.new) (left_since self.old) (left_since self.new)
            (may_leave self.new) }
        ensures cause { HasCause (faults self.old) (faults self.new) result };

    /// Puts the spare file in the place of the file, on the disk too. A crash meanwhile leaves either.
    fn swap(&mut self) -> Result<(), Failed>
        ensures swapped { OnOk result (seen self.new ≡ spare self.old) }
        ensures durable { OnOk result ((c : List ℕ) → may_leave self.new c → spare_leaves self.old c) }
        ensures crash { (c : List ℕ) → may_leave self.new c → may_leave self.old c ⊎ spare_leaves self.old c }
        ensures time { Elapses (moment self.old) (moment self.new) (left_since self.old) (left_since self.new)
            (may_leave self.new) }
        ensures cause { HasCause (faults self.old) (faults self.new) result };

    /// This moment is one of those since an earlier one.
    ghost counts_now: { (file : Self) (t : ℕ) (c : List ℕ) → t ≤ moment file → may_leave file c
        → left_since file t c };

    /// Since this moment there is no other.
    ghost only_now: { (file : Self) (c : List ℕ) → left_since file (moment file) c → may_leave file c };
}
