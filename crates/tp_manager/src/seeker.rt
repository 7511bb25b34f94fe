//! What a claim looks for, and what it takes.
ghost use Rattle.std.specs.Prelude.{◌<◌};
ghost use Rattle.tp_model.specs.Steps.{IsServerStage};

use tp_model::types::Element;

/// A claim that looks for an element.
#[derive(Clone, Copy)]
pub(crate) struct Seeker {
    /// Of which stage it may be, 1 to 14.
    pub stage: u8,
    /// The unit that is to take it, at most 65534.
    pub unit: u16,
    /// The row whose element the pass consumed last: no look at it is needed.
    pub done: Option<u32>,
    pub ghost valid: { IsServerStage stage × (unit < 65535) },
}

/// An element that a unit took.
#[derive(Clone, Copy)]
pub(crate) struct Taken {
    pub attempt: u8,
    pub root: u16,
    pub element: Element,
}
