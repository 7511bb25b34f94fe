//! How the number of a send or a receive stands to how many were made.
ghost use Rattle.std.specs.Prelude.{◌≡◌};
ghost use Rattle.tp_session.specs.Clients.{standing_of};

/// Which one a number names, of those that were made.
#[derive(Clone, Copy, Debug, PartialEq, Eq)]
pub enum Standing {
    /// The next one.
    Next,
    /// The last one.
    Again,
    /// One before.
    Before,
    /// One behind the next.
    Behind,
}

impl Standing {
    /// That of a number, where so many were made.
    pub(crate) fn of(number: u64, made: u64) -> Standing
        ensures { result ≡ standing_of number made }
    {
        if number > made {
            if number - made == 1 {
                Standing::Next
            } else {
                Standing::Behind
            }
        } else if number == made {
            Standing::Again
        } else {
            Standing::Before
        }
    }
}
