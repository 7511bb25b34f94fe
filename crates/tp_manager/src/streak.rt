//! The units that a pass has committed one after another.
ghost use Rattle.std.specs.Prelude.{◌≡◌, ◌⊎◌, ◌+◌, ◌<◌, ◌≤◌};

/// So many units right before the unit `end` are committed. Each commit of a pass goes on from the one before;
/// behind a unit that was given up it begins anew.
#[derive(Clone, Copy)]
pub(crate) struct Streak {
    pub end: u16,
    pub length: u16,
}

impl Streak {
    /// How many units right before this one are known to be committed.
    #[inline(always)]
    pub(crate) fn before(&self, unit: u16) -> u16
        ensures { (result ≡ 0) ⊎ ((result ≡ self.now.length) × (unit ≡ self.now.end)) }
    {
        if unit == self.end { self.length } else { 0 }
    }

    /// The streak behind a unit that was committed, with so many right before it.
    #[inline(always)]
    pub(crate) fn behind(unit: u16, before: u16) -> Streak
        requires { unit < 65535 }
        ensures end { result.end ≡ unit + 1 }
        ensures length { result.length ≤ before + 1 }
    {
        Streak {
            end: unit + 1,
            length: before.saturating_add(1),
        }
    }
}
