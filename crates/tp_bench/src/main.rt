//! What the calls of the manager cost. Each line of the output is one measurement: NAME K NANOSECONDS CALLS.
//!
//! The argument is how many rounds to make. The smallest of many rounds is what counts.
#![tactic(auto)]

ghost use Rattle.std.specs.Prelude.{◌≡◌, None, IfSome, IfOk};
ghost use Rattle.tp_model.specs.Steps.{IsServerStage};
ghost use Rattle.tp_manager.specs.Shown.{IsOf, IsKeptBy};

mod calls;
mod families;
mod large;
mod pipeline;
mod race;
mod rollovers;
mod small;

use std::{env, io};

fn main(rt: HostRuntime) -> io::Result<()> {
    let mut rounds = 1u64;
    for word in env::args(&rt)? {
        if let Ok(number) = word.parse::<u64>() {
            rounds = number;
        }
    }
    for _ in 0..rounds {
        for _ in 0..4u32 {
            small::round(&rt)?;
        }
        large::round(&rt)?;
        families::round(&rt)?;
        pipeline::round(&rt)?;
        rollovers::round(&rt)?;
        race::round(&rt, &rt, rt.alloc())?;
    }
    Ok(())
}
