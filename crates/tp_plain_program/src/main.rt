//! Runs a script of requests over the manager of one thread: the script on standard input, its report on
//! standard output. What the tests hold the program against.
//!
//! Exit status 0: done. 1: a fault, with its line on standard error. 2: the script was refused, and the
//! report is the line that says so. 3: there is a worker, a race, a rollover, a dump or a restore in the
//! script, so that it wasn't run.
#![tactic(auto)]

use std::io;
use std::process::ExitCode;
use tp_reference::{PlainExit, run_plain};
use tp_report::{StdSink, write_all};
use tp_script::StdSource;

fn main(rt: HostRuntime) -> ExitCode {
    let mut source = StdSource::new(rt.reader());
    let mut sink = StdSink::new(io::writer(&rt));
    match run_plain(rt.alloc(), &mut source, &mut sink) {
        Ok(PlainExit::Done) => ExitCode::from(0),
        Ok(PlainExit::Refused) => ExitCode::from(2),
        Ok(PlainExit::NotRun) => ExitCode::from(3),
        Err(fault) => {
            let _ = write_all(&mut StdSink::new(rt.stderr()), fault.line().as_bytes());
            ExitCode::from(1)
        }
    }
}
