//! The points at which workers can be held.

/// Where a worker is.
#[derive(Clone, Copy, Debug, PartialEq, Eq)]
pub enum Point {
    /// A turn or a call begins.
    Start,
    /// A desk has claimed an element.
    Claimed,
    /// A desk's server has prepared the work of an element.
    Prepared,
    /// A turn or a call has ended.
    Settled,
}

/// What each worker calls at its points. Workers are numbered from 0: desks first, then clients, then
/// killers.
pub trait Gate: Sync {
    /// Holds the worker with this number at this point, and returns when it may go on.
    fn pause(&self, worker: u32, point: Point);
}

/// A gate that holds nobody.
#[derive(Clone, Copy, Debug)]
pub struct NoGate;

impl Gate for NoGate {
    fn pause(&self, _worker: u32, _point: Point) {}
}
