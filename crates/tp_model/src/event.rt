//! The events of a history, for contracts alone: no value of them is made when the program runs.

use crate::types::Element;
use std::collections::LinkedList;

/// One change that the shared state went through. The first number is that of the pass that made it.
pub enum Event {
    /// A client submitted an element.
    Enqueue(u16, Element),
    /// A unit of work took an element, for the n-th time that one did in its round: pass, unit, element, n.
    Claim(u16, u16, u32, u8),
    /// A unit of work was committed, and these outputs were born: pass, unit, outputs.
    Commit(u16, u16, LinkedList<Element>),
    /// A unit of work was aborted: pass, unit.
    Abort(u16, u16),
    /// An element was killed: pass, element.
    Kill(u16, u32),
    /// A parked element was given another round of attempts: pass, element, which round, from 1 on.
    Requeue(u16, u32, u8),
}
