//! Answers a live session: its lines on standard input, one by one, the answer of each on standard output.
//!
//! `tp_live --journal FILE` has each line in the journal FILE, on the disk, before it is answered, and goes
//! on where the last one stood.
//!
//! Exit status 0: done, at the end of the input. 1: a fault, with its line on standard error. 64: other
//! words.
#![tactic(auto)]

use std::env;
use std::io::{self, ErrorKind};
use std::process::ExitCode;
use tp_kept::keep_session;
use tp_report::{Fault, StdSink, write_fault};
use tp_script::StdSource;
use tp_session::converse_to_end;
use tp_wire::Pipes;

fn main(rt: HostRuntime) -> ExitCode {
    let mut words = match env::args(&rt) {
        Ok(words) => words,
        Err(error) => {
            if error.kind() == ErrorKind::OutOfMemory {
                write_fault(Err(Fault::NoMemory), &mut StdSink::new(rt.stderr()));
                return ExitCode::from(1);
            }
            return ExitCode::from(64);
        }
    };
    let _program = words.next();
    let (option, path, other) = (words.next(), words.next(), words.next());
    if let (Some(option), Some(path), None) = (&option, &path, &other) {
        if option.as_str() == "--journal" {
            return ExitCode::from(keep_session(&rt, path.as_str()));
        }
    }
    if option.is_some() {
        return ExitCode::from(64);
    }
    let mut wire = Pipes {
        reader: StdSource::new(rt.reader()),
        writer: StdSink::new(io::writer(&rt)),
    };
    ExitCode::from(converse_to_end(rt.alloc(), &mut wire, &mut StdSink::new(rt.stderr())))
}
