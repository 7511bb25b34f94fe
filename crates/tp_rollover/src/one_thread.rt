//! The laws of one thread. These functions do nothing: their contracts are the laws.

ghost use Rattle.tp_rollover.specs.AloneLaws.{AloneAbort, AloneCancel, AloneClaim, AloneClaimId, AloneClaimNext};
ghost use Rattle.tp_rollover.specs.AloneLaws.{AloneCollect, AloneCollectNext, AloneCommit, AloneError, AloneFamily};
ghost use Rattle.tp_rollover.specs.AloneLaws.{AloneIdle, AloneKill, AloneNone, AloneRead, AloneRelease, AloneReply};
ghost use Rattle.tp_rollover.specs.AloneLaws.{AloneRequeue, AloneRounds, AloneStart, AloneSubmit, AttendsStays};
ghost use Rattle.tp_rollover.specs.AloneLaws.{GatheredTogether};
ghost use Rattle.tp_rollover.specs.Middle.{AloneMiddle, AloneTurn};

/// A submit where nobody else acts.
pub fn alone_submit()
    ensures { AloneSubmit }
{}

/// A claim where nobody else acts, a claim in turn, and a claim of a given element.
pub fn alone_claim()
    ensures least { AloneClaim }
    ensures next { AloneClaimNext }
    ensures given { AloneClaimId }
{}

/// An abort where nobody else acts.
pub fn alone_abort()
    ensures { AloneAbort }
{}

/// A commit where nobody else acts.
pub fn alone_commit()
    ensures { AloneCommit }
{}

/// A read where nobody else acts.
pub fn alone_read()
    ensures { AloneRead }
{}

/// The question after an element's rounds where nobody else acts.
pub fn alone_rounds()
    ensures { AloneRounds }
{}

/// A kill where nobody else acts.
pub fn alone_kill()
    ensures { AloneKill }
{}

/// A cancel where nobody else acts.
pub fn alone_cancel()
    ensures { AloneCancel }
{}

/// A requeue where nobody else acts.
pub fn alone_requeue()
    ensures { AloneRequeue }
{}

/// A release where nobody else acts.
pub fn alone_release()
    ensures { AloneRelease }
{}

/// A collect where nobody else acts.
pub fn alone_collect()
    ensures { AloneCollect }
{}

/// Where nothing was done yet.
pub fn alone_start()
    ensures none { AloneNone }
    ensures start { AloneStart }
{}

/// What a gathering leaves: all passes are together, and each has done nothing but look.
pub fn gathered_together()
    ensures stays { AttendsStays }
    ensures together { GatheredTogether }
{}

/// The listings where nobody else acts.
pub fn alone_lists()
    ensures reply { AloneReply }
    ensures error { AloneError }
{}

/// The next element of a request where nobody else acts.
pub fn alone_family()
    ensures { AloneFamily }
{}

/// A collect of the next reply where nobody else acts.
pub fn alone_collect_next()
    ensures { AloneCollectNext }
{}

/// Looks alone change nothing.
pub fn alone_idle()
    ensures { AloneIdle }
{}

/// After each call of the one pass that acts, all could have looked together.
pub fn alone_middle()
    ensures { AloneMiddle }
{}

/// A claim and then a commit, where nobody else acts.
pub fn alone_turn()
    ensures { AloneTurn }
{}
