//! Scenes: what is done in two managers, what the rollover from the one to the other answers, and what they
//! show then.
ghost use Rattle.std.specs.Prelude.{All};
ghost use Rattle.tp_manager.specs.Shown.{IsKeptBy, IsOf};

use super::plays::{Call, play};
use std::alloc::Global;
use std::process::Abort;
use tp_manager::Keeper;
use tp_model::types::Limits;
use tp_rollover::{Managed, Moved, RollFault, roll_over};

/// One manager of a scene: its limits, and the calls of its passes before the rollover and after it.
#[derive(Clone, Copy)]
pub(super) struct Side<'a> {
    pub limits: Limits,
    pub before: &'a [(usize, Call)],
    pub after: &'a [(usize, Call)],
}

/// A manager with these limits, its keeper, and this many of its passes.
fn kept<R: Abort + AllocGlobal>(rt: &R, limits: Limits, given: u32) -> Managed
    ensures keeper { IsKeptBy result.manager result.keeper }
    ensures own { All (IsOf result.manager) result.passes.items }
{
    let (manager, mut keeper) = Keeper::new(rt.alloc(), limits).expect(rt, "no manager");
    let mut passes = Vec::new(rt.alloc());
    for _i in 0..given {
        let Ok(pass) = keeper.pass(&manager) else {
            panic!(rt; "no pass");
        };
        let Ok(()) = passes.push(pass) else {
            panic!(rt; "no memory");
        };
    }
    Managed {
        manager,
        keeper,
        passes,
    }
}

/// Whether what was found is what was wanted.
fn is_answer(found: Result<Vec<Moved>, RollFault>, wanted: Result<&[Moved], RollFault>) -> bool {
    match found {
        Ok(moved) => wanted == Ok(moved.as_slice()),
        Err(fault) => wanted == Err(fault),
    }
}

/// Whether a rollover answers this, if the passes are all of their keepers.
fn answers(
    alloc: Global,
    old: &mut Managed,
    new: &mut Managed,
    answer: Result<&[Moved], RollFault>,
) -> bool
    requires kept { IsKeptBy old.old.manager old.old.keeper × IsKeptBy new.old.manager new.old.keeper }
    requires old { All (IsOf old.old.manager) old.old.passes.items }
    requires new { All (IsOf new.old.manager) new.old.passes.items }
    ensures old { All (IsOf old.new.manager) old.new.passes.items }
    ensures new { All (IsOf new.new.manager) new.new.passes.items }
{
    if !old.keeper.has_all(&old.passes) {
        return false;
    }
    if !new.keeper.has_all(&new.passes) {
        return false;
    }
    let found = roll_over(
        alloc,
        &old.manager,
        &mut old.keeper,
        &mut old.passes,
        &new.manager,
        &mut new.keeper,
        &mut new.passes,
    );
    is_answer(found, answer)
}

/// Plays a scene over these managers.
fn between<R: Abort + AllocGlobal>(
    rt: &R,
    old: &mut Managed,
    new: &mut Managed,
    sides: &[Side<'_>; 2],
    answer: Result<&[Moved], RollFault>,
)
    requires kept { IsKeptBy old.old.manager old.old.keeper × IsKeptBy new.old.manager new.old.keeper }
    requires old { All (IsOf old.old.manager) old.old.passes.items }
    requires new { All (IsOf new.old.manager) new.old.passes.items }
{
    play(rt, &old.manager, &mut old.passes, sides[0].before);
    play(rt, &new.manager, &mut new.passes, sides[1].before);
    assert!(rt; answers(rt.alloc(), old, new, answer), "the rollover");
    play(rt, &old.manager, &mut old.passes, sides[0].after);
    play(rt, &new.manager, &mut new.passes, sides[1].after);
}

/// Plays a scene between an old manager and a new one, between which the rollover answers this.
pub(super) fn rolls<R: Abort + AllocGlobal>(
    rt: &R,
    sides: &[Side<'_>; 2],
    answer: Result<&[Moved], RollFault>,
) {
    let mut old = kept(rt, sides[0].limits, 2);
    let mut new = kept(rt, sides[1].limits, 2);
    between(rt, &mut old, &mut new, sides, answer);
}

/// Whether a rollover between managers with these limits, neither of which gave out a pass, is refused for
/// that.
pub(super) fn needs_passes<R: Abort + AllocGlobal>(rt: &R, limits: Limits) -> bool {
    let mut old = kept(rt, limits, 0);
    let mut new = kept(rt, limits, 0);
    answers(rt.alloc(), &mut old, &mut new, Err(RollFault::NoPass))
}
