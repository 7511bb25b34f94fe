//! The order in which calls were made, as far as a program can tell, and what it says of their answers.
ghost use Rattle.tp_model.specs.declared.types.Limits.{Limits};
ghost use Rattle.tp_manager.specs.Observed.{EachInOrder, Linearizable, SaidAtPoints};
ghost use Rattle.tp_manager.specs.Observed.{IdleIfTaken, WaitsAtFirst, WaitsTillTaken};

/// Linearizability, as far as a program can observe time. What a call says is so at a point of it, as of a
/// manager of one thread. Whichever calls are looked at, of whichever passes, and whatever they say: they
/// stand in one order in which the points ascend in the one history, and in which each call comes after those
/// that had returned before it was made, by its pass's own calls, by receipts and by meetings. The function
/// does nothing: its contract is the law.
pub fn linearizable()
    ensures said { (l : Limits) → SaidAtPoints l }
    ensures calls { (l : Limits) → Linearizable l }
    ensures pairs { EachInOrder }
{}

/// What was submitted waits until it is claimed or killed. So a claim of its stage by a pass that has seen it
/// wait, by a call of its own or by a receipt, is `Idle` only where it was claimed or killed since. The
/// function does nothing: its contract is the law.
pub fn waits_till_taken()
    ensures first { (l : Limits) → WaitsAtFirst l }
    ensures waits { (l : Limits) → WaitsTillTaken l }
    ensures idle { (l : Limits) → IdleIfTaken l }
{}
