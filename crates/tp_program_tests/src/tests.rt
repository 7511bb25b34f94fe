//! What tools/sweeps can't say of the built program: readers and writers that fail at each of their calls,
//! over either manager.

mod devices;
mod faults;

use tp_reference::PlainExit;
use tp_report::{Exit, Fault};

/// How a run over the manager of one thread ends where one over the shared manager ends so.
fn plain_of(answer: Result<Exit, Fault>) -> Result<PlainExit, Fault> {
    match answer {
        Ok(Exit::Done) => Ok(PlainExit::Done),
        Ok(Exit::Refused) => Ok(PlainExit::Refused),
        Err(fault) => Err(fault),
    }
}
