//! A journal: batches of lines in a file, each on the disk before it is acknowledged.
//!
//! Its file has a text, and behind it bytes 0 that are on the disk before anything is written over them. So
//! what a crash leaves of a write is a front of what was written, up to the first 0. Each batch ends with a
//! line that says how many bytes stand before it, where the batch begins, and the digest of all before. So
//! what is recovered is the acknowledged batches, or these and the one that was being appended; and where
//! something is missing before a batch that was, that is told.
#![tactic(auto)]

mod append;
mod batch;
mod damage;
mod device;
mod ends;
mod file;
mod journal;
mod laws;
mod record;
mod recovery;
mod sealing;
mod writing;
mod zeros;

pub use append::MAX_LEN;
pub use batch::Refusal;
pub use device::{Device, Failed};
pub use file::{FileDevice, Paths};
pub use journal::{AppendError, Journal};
pub use laws::{kept_batches, kept_text, no_crash_told};
pub use record::{GROWN, OPENED, Record, SPARE_SYNCED, SPARE_WRITTEN, SWAPPED, SYNCED, WRITTEN};
pub use recovery::{Found, OpenError, recover};
pub use sealing::FIRST_LINE;
