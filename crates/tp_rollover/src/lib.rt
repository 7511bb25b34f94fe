//! What is alive in a manager that is used up goes into a new one, at once or from a description. And the law of
//! one thread, on which that rests.
#![tactic(auto)]

mod alive;
mod births;
mod calls;
mod checking;
mod closing;
mod families;
mod fitting;
mod groups;
mod holds;
pub mod laws;
mod looks;
pub mod managed;
pub mod moved;
pub mod one_thread;
mod passes;
mod places;
mod replays;
mod restoring;
mod rolling;
pub mod space;
mod stops;
mod surveying;
pub mod survivors;

pub use managed::{Managed, Successor};
pub use moved::{Moved, RollFault};
pub use passes::has_open;
pub use restoring::restore;
pub use rolling::roll_over;
pub use space::{RestoreSpace, Space, SurveySpace};
pub use surveying::survey;
pub use survivors::Survivor;
