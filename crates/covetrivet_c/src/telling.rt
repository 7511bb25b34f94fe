//! Answers as C gets them: a code, and what is written where it is 0.
ghost use Rattle.std.specs.Prelude.{◌≡◌};
ghost use Rattle.covetrivet_c.specs.Shapes.{counts_shape, element_shape, look_shape, moved_shape};
ghost use Rattle.covetrivet_c.specs.Shapes.{released_shape, work_shape};
ghost use Rattle.covetrivet_c.specs.Told.{TellsByCode, TellsEnd};

use crate::codes::OK;
use crate::fault::Fault;
use crate::shapes::{
    CountsOut, ElementOut, LookOut, MovedOut, ReleasedOut, WorkOut, counts_out, element_out,
    look_out, moved_out, released_out, work_out,
};
use tp_model::types::{Counts, Element, Look, Released, Work};
use tp_rollover::Moved;

/// Writes an answer that crosses as it is.
pub(crate) fn tell<T: Copy>(answer: Result<T, Fault>, out: &mut T) -> u32
    ensures { TellsByCode (λ x. x) answer result out.old out.new }
{
    match answer {
        Ok(it) => {
            *out = it;
            OK
        }
        Err(fault) => fault.code(),
    }
}

/// Writes an element with its status.
pub(crate) fn tell_look(answer: Result<Look, Fault>, out: &mut LookOut) -> u32
    ensures { TellsByCode look_shape answer result out.old out.new }
{
    match answer {
        Ok(look) => {
            *out = look_out(&look);
            OK
        }
        Err(fault) => fault.code(),
    }
}

/// Writes an element.
pub(crate) fn tell_element(answer: Result<Element, Fault>, out: &mut ElementOut) -> u32
    ensures { TellsByCode element_shape answer result out.old out.new }
{
    match answer {
        Ok(element) => {
            *out = element_out(&element);
            OK
        }
        Err(fault) => fault.code(),
    }
}

/// Writes the unit of work that was released.
pub(crate) fn tell_released(answer: Result<Released, Fault>, out: &mut ReleasedOut) -> u32
    ensures { TellsByCode released_shape answer result out.old out.new }
{
    match answer {
        Ok(released) => {
            *out = released_out(&released);
            OK
        }
        Err(fault) => fault.code(),
    }
}

/// Writes what was claimed.
pub(crate) fn tell_work(answer: Result<Work, Fault>, out: &mut WorkOut) -> u32
    ensures { TellsByCode work_shape answer result out.old out.new }
{
    match answer {
        Ok(work) => {
            *out = work_out(&work);
            OK
        }
        Err(fault) => fault.code(),
    }
}

/// Writes how many elements there are.
pub(crate) fn tell_counts(answer: Result<Counts, Fault>, out: &mut CountsOut) -> u32
    ensures { TellsByCode counts_shape answer result out.old out.new }
{
    match answer {
        Ok(counts) => {
            *out = counts_out(&counts);
            OK
        }
        Err(fault) => fault.code(),
    }
}

/// Writes what was carried over.
pub(crate) fn tell_moved(answer: Result<Moved, Fault>, out: &mut MovedOut) -> u32
    ensures { TellsByCode moved_shape answer result out.old out.new }
{
    match answer {
        Ok(moved) => {
            *out = moved_out(&moved);
            OK
        }
        Err(fault) => fault.code(),
    }
}

/// The code alone.
pub(crate) fn tell_end(answer: Result<(), Fault>) -> u32
    ensures { TellsEnd answer result }
{
    match answer {
        Ok(()) => OK,
        Err(fault) => fault.code(),
    }
}
