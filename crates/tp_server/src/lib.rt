//! Servers of a request manager. A server says what it does with an element as a function of its registers
//! (`Behaviour`), and does it in two steps, so that the work can still be called off. Two kinds are built in,
//! which follow a recipe. Nothing here takes memory.
#![tactic(auto)]

mod boxes;
mod eager;
mod effect;
mod entry;
mod handler;
pub mod laws;
mod lazy;
mod order;
mod own;
mod prepared;
mod recipe;
mod registers;
mod server;
mod turned;

pub use crate::boxes::three;
pub use crate::eager::EagerServer;
pub use crate::handler::{Effect, Handler};
pub use crate::lazy::LazyServer;
pub use crate::order::Order;
pub use crate::own::OwnServer;
pub use crate::prepared::Prepared;
pub use crate::recipe::{Act, AmountFrom, BadRecipe, Declined, KeyFrom, Output, Recipe};
pub use crate::registers::Registers;
pub use crate::server::Server;
pub use crate::turned::Turned;
