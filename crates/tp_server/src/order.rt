//! The order in which a desk claims.

/// Which of the elements that wait in its server's stage a desk claims.
#[derive(Clone, Copy, Debug, PartialEq, Eq)]
pub enum Order {
    /// The one with the least id. An element that was declined is claimed again before any other.
    LeastFirst,
    /// The first after the element that the pass took last in its turn, where after the last id comes the
    /// first. An element that was declined is claimed again when each other one has had its turn.
    InTurn,
}
