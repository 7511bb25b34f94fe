//! A store of one thread: requests that wait, are worked on and are answered, by ids that last.
#![tactic(auto)]

pub mod answers;
mod births;
mod cancels;
pub mod counts;
pub mod draft;
pub mod element;
mod ends;
pub mod group;
mod index;
mod indexes;
mod kept;
pub mod laws;
mod queues;
mod shelf;
pub mod store;
