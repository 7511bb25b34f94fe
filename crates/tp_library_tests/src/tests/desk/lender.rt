//! What a lender can prove of its pass and its server from the contracts of a desk alone.
ghost use Rattle.std.specs.Prelude.{◌≡◌, None};
ghost use Rattle.tp_manager.specs.Shown.{IsOf};
ghost use Rattle.tp_desk.specs.Serving.{Leaves};

use tp_desk::Desk;
use tp_manager::{Manager, Pass};
use tp_model::types::Claimed;
use tp_server::Server;

/// Lends a pass and a server to a desk that takes an element in hand, prepares its work, and is dropped.
/// Whether it came so far.
pub(super) fn prepare_and_drop(
    manager: &Manager,
    pass: &mut Pass,
    server: &mut Box<dyn Server + Send>,
) -> bool
    requires own { IsOf manager.now pass.old }
    requires free { pass.old.open_unit ≡ None }
    requires unprepared { pending server.old ≡ None }
    ensures own { IsOf manager.now pass.new }
    ensures free { pass.new.open_unit ≡ None }
    ensures clear { pending server.new ≡ None }
    ensures leaves { Leaves (behaviour server.new) (registers server.old) (registers server.new)
        pass.old pass.new }
{
    let mut desk = Desk::new(manager, pass, server);
    match desk.claim() {
        Claimed::Work(_) => desk.prepare().is_ok(),
        _ => false,
    }
}
