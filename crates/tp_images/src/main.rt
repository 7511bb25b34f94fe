//! Pictures that customers upload: each is validated, resized, and its customer notified.
#![tactic(auto)]

mod day;
mod delivery;
mod larger;
mod late;
mod own_calls;
mod servers;

use tp_workers::ProgramFault;

fn main(rt: HostRuntime) -> Result<(), ProgramFault> {
    day::work(&rt)?;
    late::work(&rt)?;
    larger::work(&rt)
}
