//! The first words of lines.
ghost use Rattle.std.specs.Prelude.{◌≡◌};
ghost use Rattle.tp_lines.specs.Keyword.{keyword};

/// What a line is, by its first word.
#[derive(Clone, Copy)]
pub(crate) enum Keyword {
    /// It says what there is.
    Head(HeadVerb),
    /// It asks for something.
    Do(Verb),
    /// It asks which program this is.
    Version,
}

/// What a line says of what there is, by its first word.
#[derive(Clone, Copy)]
pub(crate) enum HeadVerb {
    Limit,
    Max,
    Keep,
    Server,
    Start,
    Worker,
    Register,
    Numbers,
    Element,
    Over,
    Settled,
    Hand,
    Prepared,
    Dropped,
    From,
    Ended,
    Client,
}

/// What a line asks for, by its first word.
#[derive(Clone, Copy)]
pub(crate) enum Verb {
    /// It is about one element or one request.
    OfId(OfId),
    /// There is no word behind.
    Alone(Alone),
    /// A server or a worker does it, whose name is the one word behind.
    Deed(Deed),
    Submit,
    List,
    Drain,
    Sum,
    Balance,
    Take,
    Commit,
    Abort,
    Leave,
    Send,
    Receive,
    Last,
    Forget,
}

/// What is done with one element or one request.
#[derive(Clone, Copy)]
pub(crate) enum OfId {
    Kill,
    Cancel,
    Requeue,
    Release,
    Read,
    Reply,
    Collect,
    Family,
}

/// What is asked for by one word.
#[derive(Clone, Copy)]
pub(crate) enum Alone {
    Errors,
    Count,
    Depth,
    Account,
    Holds,
    Dump,
    Restore,
}

/// What a server or a worker does.
#[derive(Clone, Copy)]
pub(crate) enum Deed {
    Claim,
    Next,
    Turn,
    Prepare,
    Drop,
}

/// The first words that lines may have: how each is written, and what the line is.
const FIRST_WORDS: [(&str, Keyword); 51] = [
    ("limit", Keyword::Head(HeadVerb::Limit)),
    ("max", Keyword::Head(HeadVerb::Max)),
    ("keep", Keyword::Head(HeadVerb::Keep)),
    ("server", Keyword::Head(HeadVerb::Server)),
    ("start", Keyword::Head(HeadVerb::Start)),
    ("worker", Keyword::Head(HeadVerb::Worker)),
    ("register", Keyword::Head(HeadVerb::Register)),
    ("numbers", Keyword::Head(HeadVerb::Numbers)),
    ("element", Keyword::Head(HeadVerb::Element)),
    ("over", Keyword::Head(HeadVerb::Over)),
    ("settled", Keyword::Head(HeadVerb::Settled)),
    ("hand", Keyword::Head(HeadVerb::Hand)),
    ("prepared", Keyword::Head(HeadVerb::Prepared)),
    ("dropped", Keyword::Head(HeadVerb::Dropped)),
    ("from", Keyword::Head(HeadVerb::From)),
    ("ended", Keyword::Head(HeadVerb::Ended)),
    ("client", Keyword::Head(HeadVerb::Client)),
    ("submit", Keyword::Do(Verb::Submit)),
    ("kill", Keyword::Do(Verb::OfId(OfId::Kill))),
    ("cancel", Keyword::Do(Verb::OfId(OfId::Cancel))),
    ("requeue", Keyword::Do(Verb::OfId(OfId::Requeue))),
    ("release", Keyword::Do(Verb::OfId(OfId::Release))),
    ("read", Keyword::Do(Verb::OfId(OfId::Read))),
    ("reply", Keyword::Do(Verb::OfId(OfId::Reply))),
    ("collect", Keyword::Do(Verb::OfId(OfId::Collect))),
    ("family", Keyword::Do(Verb::OfId(OfId::Family))),
    ("errors", Keyword::Do(Verb::Alone(Alone::Errors))),
    ("count", Keyword::Do(Verb::Alone(Alone::Count))),
    ("depth", Keyword::Do(Verb::Alone(Alone::Depth))),
    ("account", Keyword::Do(Verb::Alone(Alone::Account))),
    ("holds", Keyword::Do(Verb::Alone(Alone::Holds))),
    ("dump", Keyword::Do(Verb::Alone(Alone::Dump))),
    ("restore", Keyword::Do(Verb::Alone(Alone::Restore))),
    ("claim", Keyword::Do(Verb::Deed(Deed::Claim))),
    ("next", Keyword::Do(Verb::Deed(Deed::Next))),
    ("turn", Keyword::Do(Verb::Deed(Deed::Turn))),
    ("prepare", Keyword::Do(Verb::Deed(Deed::Prepare))),
    ("abort", Keyword::Do(Verb::Abort)),
    ("drop", Keyword::Do(Verb::Deed(Deed::Drop))),
    ("list", Keyword::Do(Verb::List)),
    ("drain", Keyword::Do(Verb::Drain)),
    ("sum", Keyword::Do(Verb::Sum)),
    ("balance", Keyword::Do(Verb::Balance)),
    ("take", Keyword::Do(Verb::Take)),
    ("commit", Keyword::Do(Verb::Commit)),
    ("leave", Keyword::Do(Verb::Leave)),
    ("send", Keyword::Do(Verb::Send)),
    ("receive", Keyword::Do(Verb::Receive)),
    ("last", Keyword::Do(Verb::Last)),
    ("forget", Keyword::Do(Verb::Forget)),
    ("version", Keyword::Version),
];

impl Keyword {
    /// What a line of this first word is.
    pub(crate) fn of(word: &[u8]) -> Option<Keyword>
        ensures { result ≡ keyword word.now }
    {
        let row = FIRST_WORDS
            .iter()
            .find(|row| row.0.as_bytes() == word)
            .copied()?;
        Some(row.1)
    }
}
