//! What each command does, and the line of its answer: the client's calls, what a server's desk does, what
//! registers hold; and what is done to all that a script or a session has, the manager with its passes, the
//! servers and the desks.
#![tactic(auto)]

pub mod boxes;
mod client;
mod closing;
mod desks;
mod drains;
pub mod finals;
mod giving_up;
mod lines;
mod means;
mod one_desk;
mod place;
mod race_lines;
mod racing;
pub mod rollover;

pub use client::{client_line, count, read, submit};
pub use closing::give_up_all;
pub use desks::{desk_line, turn_in};
pub use drains::drain_line;
pub use giving_up::give_up_in;
pub use lines::{balance_line, sum};
pub use means::Means;
pub use one_desk::desk_in;
pub use place::{Place, begin_again, end_all, places_for};
pub use race_lines::race_next;
pub use racing::Racing;
pub use rollover::{gather_all, roll_over};
