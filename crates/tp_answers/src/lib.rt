//! The texts of a session's answers, each of them one line.
#![tactic(auto)]

mod answer;
mod elements;
mod notes;
mod overviews;
mod refusals;
mod told;
mod version;

pub use answer::{Answer, line};
pub use notes::{ReceivedAs, SentAs};
pub use overviews::{Depth, Holder};
pub use told::{HandTold, Told};
