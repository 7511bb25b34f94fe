//! What is told of all together: how many elements there are, registers, and who holds what.
ghost use Rattle.std.specs.Prelude.{◌≡◌, map};
ghost use Rattle.std.specs.Fmt.{WritesOnOk};
ghost use Rattle.tp_answers.specs.OverviewTexts.{account_text, balance_text, counts_text, depth_text};
ghost use Rattle.tp_answers.specs.OverviewTexts.{depths_text, final_text, holder_text, holder_view};
ghost use Rattle.tp_answers.specs.OverviewTexts.{holds_text};

use std::fmt;
use tp_lines::Name;
use tp_store::counts::Counts;

/// How many elements of a stage wait, are held and are parked.
#[derive(Clone, Copy)]
pub struct Depth {
    pub stage: u16,
    pub waiting: u64,
    pub held: u64,
    pub parked: u64,
}

/// Who has taken an element.
#[derive(Clone, Copy)]
pub struct Holder<'a> {
    /// The name of the server or the worker.
    pub name: &'a Name,
    /// The element.
    pub id: u64,
    /// The unit of work that took it.
    pub unit: u64,
    /// In which attempt that unit holds it, or `None` where another caller has aborted the unit.
    pub attempt: Option<u8>,
}

/// How many elements have each status.
pub(crate) fn counts<W: fmt::Write>(f: &mut fmt::Formatter<W>, all: Counts) -> fmt::Result
    ensures { WritesOnOk W.write_str_gives f.old result (counts_text all) f.new }
{
    let Counts {
        waiting,
        held,
        consumed,
        parked,
        killed,
    } = all;
    write!(
        f,
        "waiting {waiting} held {held} consumed {consumed} parked {parked} killed {killed}"
    )
}

/// How many were born, and how many have each status.
pub(crate) fn account<W: fmt::Write>(f: &mut fmt::Formatter<W>, all: Counts) -> fmt::Result
    ensures { WritesOnOk W.write_str_gives f.old result (account_text all) f.new }
{
    let unsettled = u128::from(all.waiting) + u128::from(all.held);
    let others = u128::from(all.consumed) + u128::from(all.parked) + u128::from(all.killed);
    let born = unsettled + others;
    write!(f, "account born {born} ")?;
    counts(f, all)
}

// A stage, where anything waits in it, is held or is parked.
fn stage_depth<W: fmt::Write>(f: &mut fmt::Formatter<W>, depth: &Depth) -> fmt::Result
    ensures { WritesOnOk W.write_str_gives f.old result (depth_text depth.now) f.new }
{
    let Depth {
        stage,
        waiting,
        held,
        parked,
    } = *depth;
    if waiting == 0 && held == 0 && parked == 0 {
        return Ok(());
    }
    write!(f, " {stage}:{waiting}:{held}:{parked}")
}

/// The stages in which there is anything.
pub(crate) fn depths<W: fmt::Write>(f: &mut fmt::Formatter<W>, depths: &[Depth]) -> fmt::Result
    ensures { WritesOnOk W.write_str_gives f.old result (depths_text depths.now) f.new }
{
    write!(f, "depth")?;
    for stage in depths {
        stage_depth(f, stage)?;
    }
    Ok(())
}

/// A register of a server.
pub(crate) fn balance<W: fmt::Write>(
    f: &mut fmt::Formatter<W>,
    name: &Name,
    k: u64,
    value: Option<u64>,
) -> fmt::Result
    ensures { WritesOnOk W.write_str_gives f.old result (balance_text name.now k value) f.new }
{
    let server = name.as_str();
    match value {
        Some(value) => write!(f, "balance {server} {k} {value}"),
        None => write!(f, "balance {server} {k} none"),
    }
}

/// The registers of a server at the end.
pub(crate) fn last<W: fmt::Write>(
    f: &mut fmt::Formatter<W>,
    name: &Name,
    registers: &[u64],
) -> fmt::Result
    ensures { WritesOnOk W.write_str_gives f.old result (final_text name.now registers.now) f.new }
{
    let server = name.as_str();
    write!(f, "final {server}")?;
    for value in registers {
        write!(f, " {value}")?;
    }
    Ok(())
}

// Who has taken an element, the element, the unit, and in which attempt it holds it.
fn one_holder<W: fmt::Write>(f: &mut fmt::Formatter<W>, holder: &Holder<'_>) -> fmt::Result
    ensures { WritesOnOk W.write_str_gives f.old result (holder_text (holder_view holder.now)) f.new }
{
    let Holder {
        name,
        id,
        unit,
        attempt,
    } = *holder;
    let letters = name.as_str();
    match attempt {
        Some(attempt) => write!(f, " {letters}:{id}:{unit}:{attempt}"),
        None => write!(f, " {letters}:{id}:{unit}:lost"),
    }
}

/// Who has taken what.
pub(crate) fn holds<W: fmt::Write>(f: &mut fmt::Formatter<W>, holders: &[Holder<'_>]) -> fmt::Result
    ensures { WritesOnOk W.write_str_gives f.old result (holds_text (map holder_view holders.now)) f.new }
{
    write!(f, "holds")?;
    for one in holders {
        one_holder(f, one)?;
    }
    Ok(())
}
