//! What a rollover returns.

/// One element that was carried over: its id and its root's in the old manager, and in the new one.
#[derive(Clone, Copy, Debug, PartialEq, Eq)]
pub struct Moved {
    pub old: u32,
    pub new: u32,
    pub old_root: u32,
    pub new_root: u32,
    /// The number of the pass that has it in hand in either manager, if one has.
    pub holder: Option<u16>,
}

/// Why nothing was carried over or restored. The old manager stands as it did; the new one is to be given up.
/// `BadLimits` and `NoPass` are told before any call, the first of them in this order that applies.
#[derive(Clone, Copy, Debug, PartialEq, Eq)]
pub enum RollFault {
    /// Memory could not be had.
    NoMemory,
    /// The new manager has another attempt limit, or would have limits outside their ranges.
    BadLimits,
    /// No pass of one of the managers was given out.
    NoPass,
    /// A pass of the old manager has a unit of work open. No call of this crate tells it: what a pass has in
    /// hand is carried over. It is for callers who can't go on with it.
    Busy,
    /// The new manager has not the rows or the units for what is alive, beside what stands there.
    Full,
    /// What stands in the manager isn't what was described: something had happened there before, or
    /// descriptions contradict each other or its limits. A rollover never answers it.
    Unequal,
}
