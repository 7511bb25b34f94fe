//! The first words of lines.
ghost use Rattle.std.specs.Prelude.{◌≡◌};
ghost use Rattle.tp_script.specs.Keyword.{keyword};

use crate::script::DeskAct;

/// What a line is, by its first word.
#[derive(Clone, Copy)]
pub enum Keyword {
    Rows,
    Units,
    Limit,
    Spare,
    Server,
    Start,
    /// The line is a command.
    Do(Verb),
    /// The line asks for a race.
    Race,
    /// The line asks for a drain.
    Drain,
    /// The line asks for a rollover.
    Rollover,
    /// The line asks for the account.
    Account,
}

/// What a command is, by its first word.
#[derive(Clone, Copy)]
pub enum Verb {
    Submit,
    Kill,
    Cancel,
    Requeue,
    Release,
    Read,
    Reply,
    Collect,
    Family,
    Errors,
    Count,
    /// A server's desk does this.
    Desk(DeskAct),
    Take,
    Balance,
    Sum,
}

/// The first words that lines may have: how each is written, and what the line is.
const FIRST_WORDS: [(&str, Keyword); 31] = [
    ("rows", Keyword::Rows),
    ("units", Keyword::Units),
    ("limit", Keyword::Limit),
    ("spare", Keyword::Spare),
    ("server", Keyword::Server),
    ("start", Keyword::Start),
    ("submit", Keyword::Do(Verb::Submit)),
    ("turn", Keyword::Do(Verb::Desk(DeskAct::Turn))),
    ("reply", Keyword::Do(Verb::Reply)),
    ("claim", Keyword::Do(Verb::Desk(DeskAct::Claim))),
    ("next", Keyword::Do(Verb::Desk(DeskAct::Next))),
    ("take", Keyword::Do(Verb::Take)),
    ("prepare", Keyword::Do(Verb::Desk(DeskAct::Prepare))),
    ("commit", Keyword::Do(Verb::Desk(DeskAct::Commit))),
    ("abort", Keyword::Do(Verb::Desk(DeskAct::Abort))),
    ("drop", Keyword::Do(Verb::Desk(DeskAct::Drop))),
    ("kill", Keyword::Do(Verb::Kill)),
    ("cancel", Keyword::Do(Verb::Cancel)),
    ("requeue", Keyword::Do(Verb::Requeue)),
    ("release", Keyword::Do(Verb::Release)),
    ("collect", Keyword::Do(Verb::Collect)),
    ("family", Keyword::Do(Verb::Family)),
    ("read", Keyword::Do(Verb::Read)),
    ("errors", Keyword::Do(Verb::Errors)),
    ("balance", Keyword::Do(Verb::Balance)),
    ("sum", Keyword::Do(Verb::Sum)),
    ("count", Keyword::Do(Verb::Count)),
    ("race", Keyword::Race),
    ("drain", Keyword::Drain),
    ("rollover", Keyword::Rollover),
    ("account", Keyword::Account),
];

impl Keyword {
    /// What a line of this first word is.
    pub fn of(word: &[u8]) -> Option<Keyword>
        ensures { result ≡ keyword word.now }
    {
        let row = FIRST_WORDS
            .iter()
            .find(|row| row.0.as_bytes() == word)
            .copied()?;
        Some(row.1)
    }
}
