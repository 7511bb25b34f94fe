//! Where the lines of a journal lead to.
ghost use Rattle.std.specs.Prelude.{◌≡◌, ◌≤◌, ◌+◌, ◌++◌, ◌∷◌, [], IfOk, IfSome, None, OnOk, Some, length};
ghost use Rattle.std.specs.Prelude.{take, true};
ghost use Rattle.tp_kept.specs.Lines.{IsWhole};
ghost use Rattle.tp_kept.specs.Lives.{is_restored_from, is_restored_in, life_behind, life_of};
ghost use Rattle.tp_session.specs.Session.{lines_step};
ghost use Rattle.tp_session.specs.State.{begin};
ghost use Rattle.tp_wire.specs.Heard.{heard};

use crate::lines::line_end;
use crate::numbers::{dumped_in, for_in, is_marking};
use std::alloc::{AllocError, Global};
use tp_session::Session;

/// Why a journal leads to no session.
#[derive(Clone, Copy, Debug, PartialEq, Eq)]
pub enum Unled {
    /// Memory could not be had.
    NoMemory,
    /// What the dump at the front of the journal says couldn't be restored.
    Unrestored,
}

impl From<AllocError> for Unled {
    ghost use Rattle.tp_kept.specs.declared.leading.Unled.TheVariants.{NoMemory};

    ghost from_gives = { λ _ e. e ≡ NoMemory };

    fn from(_: AllocError) -> Self {
        Unled::NoMemory
    }
}

/// A session, and how many lines of clients have led to it.
#[derive(Drop)]
pub(crate) struct Led {
    pub(crate) counted: u64,
    pub(crate) session: Session,
    /// How many bytes of lines stand behind the dump.
    pub(crate) behind: usize,
}

/// The first line of these, without its end, and the others.
pub(crate) fn first_line(lines: &[u8]) -> Option<(&[u8], &[u8])>
    requires whole { IsWhole lines.now }
    ensures some { IfSome result (λ parts. (heard lines.now ≡ parts.0.now ∷ heard parts.1.now)
        × IsWhole parts.1.now × (length parts.1.now + 1 ≤ length lines.now)) }
    ensures none { result ≡ None → heard lines.now ≡ [] }
{
    let place = line_end(lines)?;
    let (line, others) = lines.split_at(place);
    Some((line, &others[1..]))
}

/// Performs these lines: how many they are.
fn perform(alloc: Global, session: &mut Session, lines: &[u8]) -> Result<u64, AllocError>
    requires whole { IsWhole lines.now }
    ensures many { IfOk result (λ many. many ≡ length (heard lines.now)) }
    ensures performed { OnOk result (session.new ≡ (lines_step 0 (heard lines.now) session.old).1) }
{
    let mut rest = lines;
    let mut many: u64 = 0;
    while let Some((line, others)) = first_line(rest) {
        many += 1;
        session.answer(alloc, many, line)?;
        rest = others;
    }
    Ok(many)
}

/// Performs so many of these lines, and answers the others, if there are so many.
fn restore<'a>(
    alloc: Global,
    session: &mut Session,
    lines: &'a [u8],
    dumped: u64,
    told: &mut Vec<u8>,
) -> Result<&'a [u8], Unled>
    requires whole { IsWhole lines.now }
    requires untold { told.old.items ≡ [] }
    ensures parts { IfOk result (λ rest. (heard lines.now ≡ take dumped (heard lines.now) ++ heard rest.now)
        × (dumped ≤ length (heard lines.now)) × IsWhole rest.now) }
    ensures restored { OnOk result
        (session.new ≡ (lines_step 0 (take dumped (heard lines.now)) session.old).1) }
    ensures told { OnOk result
        (told.new.items ≡ (lines_step 0 (take dumped (heard lines.now)) session.old).0) }
{
    let mut rest = lines;
    for number in 0..dumped {
        let Some((line, others)) = first_line(rest) else {
            return Err(Unled::Unrestored);
        };
        let text = session.answer(alloc, number + 1, line)?;
        told.extend_from_slice(text.as_slice())?;
        rest = others;
    }
    Ok(rest)
}

/// The session of a dump, and of the lines behind it.
fn led_behind(alloc: Global, dumped: u64, counted: u64, lines: &[u8]) -> Result<Led, Unled>
    requires whole { IsWhole lines.now }
    ensures leads { IfOk result (λ led. life_behind dumped counted (heard lines.now)
        ≡ Some (record { lines = led.counted; session = led.session })) }
    ensures restored { OnOk result (is_restored_from (take dumped (heard lines.now)) ≡ true) }
{
    let mut session = Session::new(alloc)?;
    let mut told = Vec::new(alloc);
    let rest = restore(alloc, &mut session, lines, dumped, &mut told)?;
    if !told.starts_with(b"restored ") {
        return Err(Unled::Unrestored);
    }
    let many = perform(alloc, &mut session, rest)?;
    match counted.checked_add(many) {
        Some(counted) => Ok(Led {
            counted,
            session,
            behind: rest.len(),
        }),
        None => Err(Unled::Unrestored),
    }
}

/// The session to which the lines of a journal lead.
pub(crate) fn lead(alloc: Global, lines: &[u8]) -> Result<Led, Unled>
    requires whole { IsWhole lines.now }
    ensures leads { IfOk result (λ led. life_of lines.now
        ≡ Some (record { lines = led.counted; session = led.session })) }
    ensures restored { OnOk result (is_restored_in (heard lines.now) ≡ true) }
{
    if let Some((line, others)) = first_line(lines) {
        if is_marking(line) {
            return led_behind(alloc, dumped_in(line), for_in(line), others);
        }
    }
    let mut session = Session::new(alloc)?;
    let counted = perform(alloc, &mut session, lines)?;
    Ok(Led {
        counted,
        session,
        behind: lines.len(),
    })
}
