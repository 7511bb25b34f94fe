//! A script over the shared manager: it is read and checked whole, and then performed.
#![tactic(auto)]

mod acts;
mod closing;
mod commands;
mod ending;
mod held;
mod performing;
mod racing;
mod rolling;
mod roots;
mod scripts;

pub use acts::act_told;
pub use held::Held;
pub use performing::perform;
pub use scripts::{run, run_to_end, serve};
