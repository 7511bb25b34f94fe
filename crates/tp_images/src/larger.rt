//! Pictures that were written down stand in a manager again, and go on in a larger one.
ghost use Rattle.std.specs.Prelude.{IfOk};
ghost use Rattle.tp_rollover.specs.Managed.{IsManaged, StaysManaged};
ghost use Rattle.tp_images.specs.Larger.{GoesOnLarger};

use crate::day::LIMITS;
use std::alloc::Global;
use tp_model::types::{Limits, Status};
use tp_rollover::{Managed, RollFault, Successor, Survivor};
use tp_workers::ProgramFault;

/// A picture that waited for the resizer, with this id and so many bytes, as a survey describes it.
fn picture(id: u32, bytes: u64) -> Survivor {
    Survivor {
        id,
        root: id,
        stage: 2,
        body: [1, bytes, 77, id as u64],
        status: Status::Waiting { attempts: 0 },
        holder: None,
        rounds: 0,
        root_stage: 2,
        root_body: [1, bytes, 77, id as u64],
    }
}

/// What is alive in a manager is alive in one with these limits too. The first one is as it was.
fn enlarged(alloc: Global, small: &mut Managed, limits: Limits) -> Result<Successor, RollFault>
    requires managed { IsManaged small.old }
    ensures stays { StaysManaged small.old small.new }
    ensures goes_on { IfOk result (GoesOnLarger limits small.new) }
{
    let alive = small.survey(alloc)?;
    Managed::restored(alloc, limits, &alive)
}

/// Makes a manager for two pictures that were written down, and then one for more.
pub fn work<R: AllocGlobal + Print>(rt: &R) -> Result<(), ProgramFault> {
    let limits = LIMITS.with_parts(1);
    let narrow = Limits {
        rows: 2,
        spare: 0,
        ..limits
    };
    let written = [picture(0, 4_000), picture(1, 8_000)];
    match Managed::restored(rt.alloc(), narrow, &written) {
        Ok(first) => {
            let mut small = first.managed;
            match enlarged(rt.alloc(), &mut small, limits) {
                Ok(next) => println!(rt; "enlarged: {} pictures go on", next.moved.len())?,
                Err(fault) => println!(rt; "not enlarged: {fault:?}")?,
            }
        }
        Err(fault) => println!(rt; "not restored: {fault:?}")?,
    }
    Ok(())
}
