//! Groups of elements that can be looked through without a walk over the others.

/// Some of the elements of a store.
#[derive(Clone, Copy, Debug, PartialEq, Eq)]
pub enum Group {
    /// Those that wait in this stage; of queue 0, the error queue, those that are parked.
    Queue(u16),
    /// The replies to this request that wait.
    Replies(u64),
    /// The replies to requests of this owner that wait.
    Owned(u64),
    /// All that is of this request.
    Family(u64),
    /// All elements.
    All,
}
