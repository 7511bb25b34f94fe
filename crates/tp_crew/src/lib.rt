//! A crew: a manager with all its passes, and boxed servers, in one value. It goes on in a new manager where
//! the old one is used up.
#![tactic(auto)]

mod crew;
mod crew_calls;
mod fold_start;
pub mod laws;
mod rolling;
mod rooms;

pub use crew::{Crew, CrewLimits};
