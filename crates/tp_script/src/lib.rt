//! What the lines of scripts say, or their first fault.
#![tactic(auto)]

mod commands;
mod fault;
mod grammar;
mod head;
mod keyword;
mod line_words;
mod parse;
mod script;
mod servers;
mod setting_lines;
mod source;
mod text;
mod whole;

pub use fault::{LineError, LineFault, ReadFault, Refused};
pub use head::{Act, Head, Said};
pub use parse::read_script;
pub use script::{ClientAct, Command, DeskAct, Kind, MAX_SERVERS, Race, ScriptServer, Settings};
pub use source::{BytesSource, Failed, MAX_READS, MAX_SCRIPT_BYTES, Source, StdSource, read_all};
pub use whole::Script;
