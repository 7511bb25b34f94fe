//! What is recovered of what a crash leaves. These functions do nothing: their contracts are the laws.
ghost use Rattle.tp_journal.specs.Laws.{KeepsBatches, KeepsText, TellsNoCrash};

/// Of what a crash leaves as a batch is appended, the text is recovered as it was acknowledged, or with the
/// batch.
pub fn kept_batches()
    ensures { KeepsBatches }
{}

/// Of a file at rest the text is recovered.
pub fn kept_text()
    ensures { KeepsText }
{}

/// What a crash leaves as a batch is appended is never told to be damaged.
pub fn no_crash_told()
    ensures { TellsNoCrash }
{}
