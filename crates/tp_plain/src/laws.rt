//! The laws of runs. These functions do nothing: their contracts are the laws.

ghost use Rattle.tp_plain.specs.Cancelled.{CancelledForGood};
ghost use Rattle.tp_plain.specs.Computed.{ComputedAreAllowed};
ghost use Rattle.tp_plain.specs.OneThread.{RunsAreLegal, RunsGrow};

/// Runs of a manager of one thread leave legal histories, which only grow.
pub fn runs()
    ensures legal { RunsAreLegal }
    ensures grow { RunsGrow }
{}

/// What is computed as the answer of a call is an answer that a manager of one thread may give.
pub fn computed_answers()
    ensures { ComputedAreAllowed }
{}

/// Once a cancel went through, its family stays settled whatever calls come next: no element of it is claimed
/// or committed any more, and none is born.
pub fn cancelled_for_good()
    ensures { CancelledForGood }
{}
