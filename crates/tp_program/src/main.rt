//! Runs a script of requests: the script on standard input, its report on standard output.
//!
//! Exit status 0: done. 1: a fault, with its line on standard error. 2: the script was refused, and the
//! report is the line that says so.
#![tactic(auto)]

use std::io;
use std::process::ExitCode;
use tp_perform::run_to_end;
use tp_report::StdSink;
use tp_script::StdSource;

fn main(rt: HostRuntime) -> ExitCode {
    ExitCode::from(run_to_end(
        &rt,
        rt.alloc(),
        &mut StdSource::new(rt.reader()),
        &mut StdSink::new(io::writer(&rt)),
        &mut StdSink::new(rt.stderr()),
    ))
}
