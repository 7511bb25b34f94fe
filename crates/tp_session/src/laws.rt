//! The laws of sessions. These functions do nothing: their contracts are the laws.

ghost use Rattle.tp_session.specs.Lasting.{AskingChangesNothing, GoesOnFromLines};
ghost use Rattle.tp_session.specs.Retold.{DumpMakesTheSame, SessionsAreFit};

/// What the first lines of a session leave, given to the other ones, is what all of them leave; so a log of
/// the lines leads where they led.
pub fn goes_on_from_lines()
    ensures { GoesOnFromLines }
{}

/// Lines that only ask change nothing, so a log need not have them.
pub fn asking_changes_nothing()
    ensures { AskingChangesNothing }
{}

/// The lines of a dump, given to a session that has heard nothing, make the session that was dumped, where
/// that one was fit.
pub fn dump_makes_the_same()
    ensures { DumpMakesTheSame }
{}

/// Each session is fit whose head tells neither of elements nor of hands.
pub fn sessions_are_fit()
    ensures { SessionsAreFit }
{}
