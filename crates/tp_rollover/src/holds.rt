//! Elements that stand anew are claimed by the passes that are to hold them.
ghost use Rattle.std.specs.Prelude.{◌≡◌, ◌≢◌, IfErr, length};
ghost use Rattle.tp_rollover.specs.Anew.{all_held, held_by};
ghost use Rattle.tp_rollover.specs.Bounds.{AllMake, hold_of, holds_for};
ghost use Rattle.tp_rollover.specs.Lone.{Agrees, AreLone, lone};
ghost use Rattle.tp_rollover.specs.declared.stops.Stop.TheVariants as stops;

use crate::calls::take_by;
use crate::moved::Moved;
use crate::stops::Stop;
use crate::survivors::Survivor;
use tp_manager::{Keeper, Manager, Pass};

/// The element is claimed by the pass that is to hold it, if one is.
fn hold_one(
    manager: &Manager,
    keeper: &mut Keeper,
    passes: &mut [Pass],
    one: Survivor,
    id: u32,
) -> Result<(), Stop>
    requires lone { AreLone manager.now keeper.old passes.old }
    ensures lone { AreLone manager.now keeper.new passes.new × (keeper.new.given ≡ keeper.old.given) }
    ensures steps { let l = manager.now.limits in
        AllMake (hold_of l keeper.old.given one) keeper.old passes.old keeper.new passes.new }
    ensures gives { Agrees result (λ _. lone manager.now keeper.new passes.new)
        (held_by (length passes.old) one.holder id (lone manager.now keeper.old passes.old)) }
    ensures memory { IfErr result (λ stop. stop ≢ stops.NoMemory) }
{
    let Some(holder) = one.holder else {
        return Ok(());
    };
    let at = usize::from(holder);
    if at >= passes.len() {
        return Err(Stop::Unequal);
    }
    take_by(manager, keeper, passes, at, id)
}

/// Each new element is claimed by the pass that is to hold it.
pub(crate) fn hold_all(
    manager: &Manager,
    keeper: &mut Keeper,
    passes: &mut [Pass],
    survivors: &[Survivor],
    moved: &[Moved],
) -> Result<(), Stop>
    requires lone { AreLone manager.now keeper.old passes.old }
    requires many { length moved.now ≡ length survivors.now }
    ensures lone { AreLone manager.now keeper.new passes.new × (keeper.new.given ≡ keeper.old.given) }
    ensures steps { let l = manager.now.limits in
        AllMake (holds_for l keeper.old.given survivors.now) keeper.old passes.old keeper.new passes.new }
    ensures gives { Agrees result (λ _. lone manager.now keeper.new passes.new)
        (all_held (length passes.old) survivors.now moved.now (lone manager.now keeper.old passes.old)) }
    ensures memory { IfErr result (λ stop. stop ≢ stops.NoMemory) }
{
    for place in 0..survivors.len() {
        hold_one(manager, keeper, passes, survivors[place], moved[place].new)?;
    }
    Ok(())
}
