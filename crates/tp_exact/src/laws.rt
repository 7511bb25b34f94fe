//! The laws of what a script is told. These functions do nothing: their contracts are the laws.

ghost use Rattle.tp_exact.specs.Client.{ExactClient};
ghost use Rattle.tp_exact.specs.Commands.{ExactCommand, ExactDrain};
ghost use Rattle.tp_exact.specs.Desks.{ExactDesk};
ghost use Rattle.tp_exact.specs.Finals.{ExactAccount, ExactFinals};
ghost use Rattle.tp_exact.specs.Programs.{ExactProgram};

/// The line of a client's command where nobody else acts, and what the command leaves.
pub fn exact_client()
    ensures { ExactClient }
{}

/// A command or a drain, performed between two gatherings: its line, and what it leaves. In a drain all
/// passes gather after each turn.
pub fn exact_command()
    ensures command { ExactCommand }
    ensures drain { ExactDrain }
{}

/// The lines at the end: the final ones, and the counts of a closing account.
pub fn exact_end()
    ensures finals { ExactFinals }
    ensures account { ExactAccount }
{}

/// A command on a desk: a turn or one of its parts, a claim in turn or of a given element, an abort or a
/// drop.
pub fn exact_desk()
    ensures { ExactDesk }
{}

/// What `tp_perform::run` leaves of the bytes of a script without a race and a rollover, by its clause `ran`:
/// the computed report, or the line of the refusal, and after a fault a prefix of it. So `run` and
/// `tp_reference::run_plain` write the same.
pub fn exact_program()
    ensures { ExactProgram }
{}
