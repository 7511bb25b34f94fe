//! What the lines of a session say: their grammar, and the texts of those that a dump has.
#![tactic(auto)]

mod bodies;
mod clients;
mod commands;
mod drafts;
mod elements;
mod ends;
mod fences;
mod grammar;
mod heads;
mod keyword;
mod laws;
mod line;
mod name;
mod servers;
mod statuses;
mod tags;
mod text;
mod texts;
mod words;

pub use grammar::{MAX_LINE, read_line};
pub use laws::told_and_read;
pub use line::{Act, ClientNote, Command, Fence, HeadLine, Line, ServerLine, UnitEnd};
pub use name::{MAX_NAME, Name};
pub use tags::{MAX_TAG, read_behind, tag_in};
