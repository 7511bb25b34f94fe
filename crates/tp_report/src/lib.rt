//! Reports: the answers that commands come to, their texts, and the writers that take their lines.
#![tactic(auto)]

mod account;
mod answer;
mod display;
mod fault;
mod refusal;
mod sink;

pub use account::account_line;
pub use answer::{Answer, Renamed, ServerAnswer, line, refused_line};
pub use fault::{Exit, Fault, RunFault, exit_status, fault_of, write_fault};
pub use refusal::write_refusal;
pub use sink::{Sink, StdSink, write_all};
