//! Scripts run over the manager of one thread: what the tests hold the program against.
#![tactic(auto)]

mod calls;
mod client_acts;
mod closing;
mod desk_acts;
mod drains;
pub mod laws;
mod plain;
mod plain_desk;
mod plain_report;
mod plain_run;

pub use plain::{PlainExit, run_plain};
