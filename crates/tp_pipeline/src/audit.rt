//! The servers' registers, the pipeline's books and what was asked for are held against one another.
ghost use Rattle.std.specs.Prelude.{◌≡◌, IfErr, IfOk, IfSome, OnOk, option_copied, slice_get};
ghost use Rattle.tp_pipeline.specs.Audits.{Agree, BoxShows, passed, takings_due};
ghost use Rattle.tp_pipeline.specs.Ends.{AreClosed};

use crate::books::Books;
use crate::faults::PipelineFault;
use crate::service::{Boxed, Task, body_of};
use tp_server::Server;

/// What is to come of so many payments where this is the ceiling: how many are let through, and their
/// amounts together. `None` where that is more than a register holds.
fn expected(payments: u64, ceiling: u64) -> Option<(u64, u64)>
    ensures due { IfSome result (λ due. (due.0 ≡ passed ceiling payments)
        × (due.1 ≡ takings_due ceiling payments)) }
{
    let mut count = 0u64;
    let mut amounts = 0u64;
    for number in 0..payments {
        let [amount, ..] = body_of(number);
        if amount <= ceiling {
            count = count.checked_add(1)?;
            amounts = amounts.checked_add(amount)?;
        }
    }
    Some((count, amounts))
}

/// The box at this place.
fn box_at(boxes: &[Boxed], place: usize) -> Option<&Boxed>
    ensures { option_copied result ≡ slice_get boxes.now place }
{
    boxes.get(place)
}

/// The register with this number of a box.
fn value_of(server: &Boxed, k: u64) -> Option<u64>
    ensures { result ≡ slice_get (registers server.now) k }
{
    server.balance(k)
}

/// The register with this number of the box at this place.
fn register(boxes: &[Boxed], place: usize, k: u64) -> Result<u64, PipelineFault>
    ensures shows { IfOk result (BoxShows registers boxes.now place k) }
    ensures told { IfErr result (λ fault. fault ≡ PipelineFault.BadBooks) }
{
    let Some(server) = box_at(boxes, place) else {
        return Err(PipelineFault::BadBooks);
    };
    let Some(value) = value_of(server, k) else {
        return Err(PipelineFault::BadBooks);
    };
    Ok(value)
}

/// Nothing, if both are alike.
fn same(found: u64, due: u64) -> Result<(), PipelineFault>
    ensures same { OnOk result (found ≡ due) }
    ensures told { IfErr result (λ fault. fault ≡ PipelineFault.BadBooks) }
{
    if found != due {
        return Err(PipelineFault::BadBooks);
    }
    Ok(())
}

/// Nothing, if the registers of these boxes and the books are what was due.
pub fn agree(boxes: &[Boxed], books: &Books, task: Task) -> Result<(), PipelineFault>
    requires closed { AreClosed task.payments books.now }
    ensures agree { OnOk result (Agree registers task.payments task.ceiling boxes.now books.now) }
    ensures told { IfErr result (λ fault. fault ≡ PipelineFault.BadBooks) }
{
    let Some((count, amounts)) = expected(task.payments, task.ceiling) else {
        return Err(PipelineFault::BadBooks);
    };
    same(register(boxes, 0, 0)?, count)?;
    same(register(boxes, 1, 0)?, amounts)?;
    same(register(boxes, 1, 1)?, count)?;
    let first = register(boxes, 2, 0)?;
    let second = register(boxes, 3, 0)?;
    let Some(shipped) = first.checked_add(second) else {
        return Err(PipelineFault::BadBooks);
    };
    same(shipped, count)?;
    same(books.collected, count)?;
    same(books.paid, amounts)?;
    Ok(())
}
