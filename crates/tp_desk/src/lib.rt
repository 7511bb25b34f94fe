//! Desks: where a pass of the manager and a server come together, so that a server's work is kept exactly
//! where its unit of work was committed.
#![tactic(auto)]

mod aside;
mod closing;
mod desk;
mod desk_calls;
mod given;
pub mod laws;
mod server_calls;
mod turning;

pub use aside::Aside;
pub use desk::Desk;
pub use tp_server::{Order, Turned};
