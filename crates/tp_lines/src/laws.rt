//! The law of a dump's lines. The function does nothing: its contract is the law.
ghost use Rattle.tp_lines.specs.Told.{ToldAndRead};

/// What is told of what there is, is read again as just that: the text of a line, its numbers within their
/// bounds, its names names and its recipe without a fault, says that line.
pub fn told_and_read()
    ensures { ToldAndRead }
{}
