//! What a script holds between two acts.

use arrayvec::ArrayVec;
use tp_commands::Place;
use tp_rollover::Managed;
use tp_script::MAX_SERVERS;
use tp_server::Server;

/// The manager with all passes, and the servers and their desks.
#[derive(Drop)]
pub struct Held {
    /// The manager, its keeper and all its passes: the client's, one for each server, those of races.
    pub managed: Managed,
    /// The servers, in the order of their lines.
    pub servers: Vec<Box<dyn Server + Send>>,
    /// Where the desk of each server is.
    pub places: ArrayVec<Place, MAX_SERVERS>,
}
