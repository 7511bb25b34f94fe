//! The law of what is put down. The function does nothing: its contract is the law.
ghost use Rattle.tp_kept.specs.Laws.{AnswersAsSent};

/// With a journal a session answers what it is sent exactly as one without that stands where it does.
pub fn answers_as_sent()
    ensures { AnswersAsSent }
{}
