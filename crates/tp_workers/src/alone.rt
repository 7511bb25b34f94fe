//! A desk at work on the caller's own thread.
ghost use Rattle.std.specs.Prelude.{◌≤◌};
ghost use Rattle.tp_desk.specs.Steady.{IsSameDesk, shown};
ghost use Rattle.tp_workers.specs.Asking.{AsksTurns};
ghost use Rattle.tp_workers.specs.Desks.{DeskWorked, IsDeskOf, IsResting, DeskWorksOn, desk_place};

use crate::desks::turn_at;
use crate::gate::NoGate;
use crate::plan::Plan;
use crate::tally::Shift;
use tp_desk::Desk;
use tp_manager::{Manager, Pass};
use tp_server::Server;

/// Has a desk of this pass and this server take turns on the caller's thread: as many as planned, or fewer
/// where one finds nothing to wait, or no unit left. The pass comes from this manager's keeper and has no
/// unit open, and the server has nothing prepared; so it is afterwards.
pub fn work_off(
    manager: &Manager,
    pass: &mut Pass,
    server: &mut Box<dyn Server + Send>,
    plan: Plan,
) -> Shift
    requires ready { IsDeskOf behaviour registers pending manager.now (pass.old, server.old) }
    ensures worked { DeskWorked behaviour registers pending manager.now plan (pass.old, server.old) result
        (pass.new, server.new) }
    ensures asked { AsksTurns behaviour registers pending asked manager.now plan.order
        (pass.old, server.old) result (pass.new, server.new) }
{
    let mut desk = Desk::new(manager, pass, server);
    let counts = turns_until_idle(&mut desk, plan);
    desk.end();
    counts
}

fn turns_until_idle(desk: &mut Desk, plan: Plan) -> Shift
    requires resting { IsResting behaviour registers pending desk.old }
    ensures same { IsSameDesk desk.old desk.new }
    ensures turns { DeskWorksOn plan desk.old.manager.now.limits
        (desk_place behaviour registers pending desk.old) result
        (desk_place behaviour registers pending desk.new) }
    ensures asked { AsksTurns (shown behaviour) (shown registers) (shown pending) (shown asked)
        desk.old.manager.now
        plan.order (desk.old.pass.now, desk.old.server.now) result (desk.new.pass.now, desk.new.server.now) }
    ensures resting { IsResting behaviour registers pending desk.new }
{
    let mut counts = Shift::none();
    for _i in 0..plan.turns {
        let turned = turn_at(desk, plan.order, 0, &NoGate);
        counts = counts.plus(Shift::of_turn(turned));
        if counts.idle > 0 {
            return counts;
        }
        if counts.nounit > 0 {
            return counts;
        }
    }
    counts
}
