//! Sessions whose lines are in a journal before they are answered.
#![tactic(auto)]

mod cause;
mod kept;
mod laws;
mod leading;
mod lines;
mod numbers;
mod program;
mod shortening;
mod taking;

pub use cause::Cause;
pub use kept::Kept;
pub use laws::answers_as_sent;
pub use leading::Unled;
pub use program::{Ended, keep, keep_session, keep_to_end};
