//! What the calls of the store cost. Each line of the output is one measurement: NAME ALIVE NANOSECONDS CALLS.
//!
//! Each argument is how many requests wait; with 0 nothing is measured.
#![tactic(auto)]

mod phases;

use std::{env, io};

fn main(rt: HostRuntime) -> io::Result<()> {
    for word in env::args(&rt)? {
        if let Ok(alive) = word.parse::<u64>() {
            if alive > 0 {
                phases::measure(&rt, rt.alloc(), alive)?;
            }
        }
    }
    Ok(())
}
