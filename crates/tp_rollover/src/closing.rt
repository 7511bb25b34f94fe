//! The end of the old manager: what was carried over is killed there.
ghost use Rattle.std.specs.Prelude.{◌≡◌, ◌+◌, ◌*◌, ◌≤◌, ◌++◌, None, false, length, true};
ghost use Rattle.tp_plain.specs.OneThread.{pass_at};
ghost use Rattle.tp_manager.specs.Bounds.{gather_steps, kill_steps};
ghost use Rattle.tp_manager.specs.Shown.{IsOf};
ghost use Rattle.tp_rollover.specs.Bounds.{AllMake, PassMakes, gathered, give_up_steps};
ghost use Rattle.tp_rollover.specs.Closing.{AreMovedLiving, Buries, KillsAllMoved, KillsShort};
ghost use Rattle.tp_rollover.specs.Lone.{AreLone, lone};
ghost use Rattle.tp_rollover.specs.Rolls.{kills};

use crate::calls::give_up;
use crate::moved::Moved;
use tp_manager::{Keeper, Manager, Pass};

/// Kills these elements, in their order. Whether it did.
fn kill_each(manager: &Manager, pass: &mut Pass, moved: &[Moved]) -> bool
    requires own { IsOf manager.now pass.old }
    requires free { pass.old.open_unit ≡ None }
    ensures own { IsOf manager.now pass.new × (pass.new.number ≡ pass.old.number) }
    ensures steps { PassMakes (length moved.now * kill_steps manager.now.limits) pass.old pass.new }
    ensures done { result ≡ true → KillsAllMoved manager.now.limits moved.now pass.old pass.new }
    ensures stops { result ≡ false → KillsShort manager.now.limits moved.now pass.old pass.new }
{
    for place in 0..moved.len() {
        match manager.kill(pass, moved[place].old) {
            Ok(_killed) => {}
            Err(_refusal) => return false,
        }
    }
    true
}

/// The first of the passes kills these elements, with the units that hold them. After all of them all passes
/// look together.
fn kill_all(manager: &Manager, keeper: &mut Keeper, passes: &mut [Pass], moved: &[Moved])
    requires lone { AreLone manager.now keeper.old passes.old }
    requires some { 1 ≤ length passes.old }
    requires free { (pass_at (lone manager.now keeper.old passes.old) 0).holding ≡ None }
    requires living { AreMovedLiving manager.now.limits.attempts keeper.old.seen moved.now }
    ensures lone { AreLone manager.now keeper.new passes.new × (keeper.new.given ≡ keeper.old.given) }
    ensures steps { let l = manager.now.limits in
        AllMake (gathered l keeper.old.given (length moved.now * kill_steps l))
        keeper.old passes.old keeper.new passes.new }
    ensures killed { keeper.new.seen ≡ keeper.old.seen
        ++ kills manager.now.limits.attempts keeper.old.seen 0 moved.now }
{
    let done = kill_each(manager, &mut passes[0], moved);
    keeper.gather(manager, passes);
    if !done {
        unreachable!();
    }
}

/// The first of the passes gives up what it has in hand, and then kills these elements, with the units that
/// hold them.
pub(crate) fn bury(manager: &Manager, keeper: &mut Keeper, passes: &mut [Pass], moved: &[Moved])
    requires lone { AreLone manager.now keeper.old passes.old }
    requires some { 1 ≤ length passes.old }
    requires living { AreMovedLiving manager.now.limits.attempts keeper.old.seen moved.now }
    ensures lone { AreLone manager.now keeper.new passes.new × (keeper.new.given ≡ keeper.old.given) }
    ensures steps { let l = manager.now.limits in
        AllMake (give_up_steps l keeper.old.given passes.old
        + gathered l keeper.old.given (length moved.now * kill_steps l))
        keeper.old passes.old keeper.new passes.new }
    ensures buries { Buries manager.now.limits.attempts 0 keeper.old.seen keeper.new.seen moved.now }
{
    give_up(manager, keeper, passes);
    kill_all(manager, keeper, passes, moved);
}
