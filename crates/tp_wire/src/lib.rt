//! Lines of text that come one by one, and the answers that are written before the next one is asked for.
#![tactic(auto)]

mod reading;
mod wire;

pub use reading::{Lines, MAX_ASKED, MAX_KEPT};
pub use wire::{Pipes, Wire};
