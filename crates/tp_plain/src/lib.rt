//! The manager of one thread: what its calls may answer, the same computed, and the manager itself.
#![tactic(auto)]

pub mod cancelling;
mod claiming;
mod collecting;
mod following;
pub mod history;
pub mod laws;
mod looks;
pub mod pass_state;
pub mod plain;
mod releasing;
mod requeueing;
mod room;
mod taking;
mod walking;
