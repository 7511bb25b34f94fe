//! A session: lines of text, each answered by a line of text, over a store of one thread.
#![tactic(auto)]

mod acts;
mod asking;
mod clients;
mod conversing;
mod drains;
mod dumps;
mod hand;
mod heads;
pub mod laws;
mod phase;
mod requests;
mod server;
mod server_acts;
mod session;
mod standing;
mod worker;

pub use conversing::{attend, converse, converse_to_end};
pub use dumps::DumpText;
pub use session::Session;
