//! Desks, clients and killers at work together, each on a thread of its own, and desks at work in rounds
//! until a whole round claims nothing.
#![tactic(auto)]

mod alone;
mod client;
mod desks;
mod fork;
mod gate;
mod killer;
mod plan;
mod program_fault;
mod rounds;
mod tally;
mod work;

pub use alone::work_off;
pub use client::ClientJob;
pub use gate::{Gate, NoGate, Point};
pub use killer::KillJob;
pub use plan::Plan;
pub use program_fault::ProgramFault;
pub use rounds::{Drained, drain};
pub use tally::Shift;
pub use work::{ShiftMeans, Workers, shift};
