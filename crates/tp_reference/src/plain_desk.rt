//! A server's desk over the manager of one thread.

use tp_model::types::Work;
use tp_server::Registers;

/// A server's desk.
#[derive(Drop)]
pub struct PlainDesk {
    /// The registers of the work that is committed.
    pub registers: Registers,
    /// The work that it took. It is in hand as long as its pass has a unit in its hand.
    pub taken: Option<Work>,
    /// Whether that work is prepared.
    pub is_prepared: bool,
    /// Whether the desk was dropped.
    pub is_dropped: bool,
}
