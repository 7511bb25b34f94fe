//! The lines that say what elements there are.
ghost use Rattle.std.specs.Prelude.{◌≡◌, map};
ghost use Rattle.tp_script.specs.Reading.{Gives};
ghost use Rattle.tp_lines.specs.Heads.{element_of, element_words, origin_of, rounds_at, rounds_of};
ghost use Rattle.tp_lines.specs.Reading.{element_view};

use crate::bodies::{colons, place_at};
use crate::line::HeadLine;
use crate::statuses::{Standing, standing_with};
use crate::text::parts;
use crate::words::{byte_at, long_at, number_unless};
use std::alloc::Global;
use tp_script::{LineError, LineFault};
use tp_store::element::Element;

/// The words of an `element` line, each in its place.
#[derive(Clone, Copy)]
pub(crate) struct ElementWords<'a> {
    id: &'a [u8],
    place: &'a [u8],
    root: &'a [u8],
    maker: &'a [u8],
    owner: &'a [u8],
    rounds: &'a [u8],
    standing: Standing,
    numbers: &'a [&'a [u8]],
}

/// ID STAGE:W0:W1:W2:W3 ROOT MAKER OWNER ROUNDS:EARLIER STATUS ..
#[tactic(auto, unfolding(crate::specs::Heads::element_words))]
pub(crate) fn element_words<'a>(words: &'a [&'a [u8]]) -> Result<ElementWords<'a>, LineError>
    ensures { Gives element_view result (element_words (map (λ x. x.now) words.now)) }
{
    let [id, place, root, maker, owner, rounds, how, numbers @ ..] = words else {
        return Err(LineFault::Syntax.into());
    };
    if colons(place) != 4 || colons(rounds) > 1 {
        return Err(LineFault::Syntax.into());
    }
    let standing = standing_with(how, numbers)?;
    Ok(ElementWords {
        id,
        place,
        root,
        maker,
        owner,
        rounds,
        standing,
        numbers,
    })
}

// The words of ROUNDS:EARLIER.
fn rounds_of(words: &[&[u8]]) -> Result<(u8, u8), LineError>
    ensures { Gives (λ x. x) result (rounds_of (map (λ x. x.now) words.now)) }
{
    match words {
        [rounds] => Ok((byte_at(rounds)?, 0)),
        [rounds, earlier] => {
            let rounds = byte_at(rounds)?;
            let earlier = byte_at(earlier)?;
            Ok((rounds, earlier))
        }
        _ => Err(LineFault::Syntax.into()),
    }
}

// ROUNDS or ROUNDS:EARLIER
fn rounds_at(alloc: Global, word: &[u8]) -> Result<(u8, u8), LineError>
    ensures { Gives (λ x. x) result (rounds_at word.now) }
{
    let parts = parts(alloc, word, b':')?;
    rounds_of(parts.as_slice())
}

/// The root of an element, the unit that made it, and its owner.
type Origin = (u64, Option<u64>, Option<u64>);

impl ElementWords<'_> {
    // Its root, the unit that made it unless a client did, and its owner unless it is nobody's.
    #[tactic(auto, unfolding(crate::specs::Heads::origin_of))]
    fn origin(self) -> Result<Origin, LineError>
        ensures { Gives (λ x. x) result (origin_of (element_view self.entry)) }
    {
        let root = long_at(self.root)?;
        let maker = number_unless("client", self.maker)?;
        let owner = number_unless("nobody", self.owner)?;
        Ok((root, maker, owner))
    }

    /// The element, and how it stands.
    #[tactic(auto, unfolding(crate::specs::Heads::element_of))]
    pub(crate) fn element(self, alloc: Global) -> Result<HeadLine, LineError>
        ensures { Gives (λ x. x) result (element_of (element_view self.entry)) }
    {
        let id = long_at(self.id)?;
        let (stage, body) = place_at(alloc, self.place)?;
        let (root, by, owner) = self.origin()?;
        let (rounds, earlier) = rounds_at(alloc, self.rounds)?;
        let status = self.standing.status(self.numbers)?;
        let element = Element {
            root,
            by,
            owner,
            body,
            status,
            stage,
            rounds,
            earlier,
        };
        Ok(HeadLine::Element { id, element })
    }
}
