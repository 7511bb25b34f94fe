//! The end of a unit of work that a desk leaves open.
ghost use Rattle.std.specs.Prelude.{◌≡◌, None, IfSome};
ghost use Rattle.tp_model.specs.Passes.{IsPassView};
ghost use Rattle.tp_manager.specs.Bounds.{abort_steps};
ghost use Rattle.tp_manager.specs.Calls.{Follows, HasEnded};
ghost use Rattle.tp_manager.specs.Shown.{IsOf, view_in};
ghost use Rattle.tp_desk.specs.Turns.{EndsOpen};

use tp_manager::{Manager, Pass};

/// Gives the open unit up, if there is one.
pub(crate) fn close(manager: &Manager, pass: &mut Pass)
    requires own { IsOf manager.now pass.old }
    ensures own { IsOf manager.now pass.new }
    ensures shows { IsPassView pass.new.limits (view_in pass.new) }
    ensures free { pass.new.open_unit ≡ None }
    ensures ended { IfSome pass.old.open_unit (HasEnded pass.new.seen) }
    ensures adds { EndsOpen pass.old.open_unit pass.old pass.new }
    ensures turn { pass.new.from ≡ pass.old.from }
    ensures follows { IfSome pass.old.open_unit (λ _. Follows abort_steps pass.old pass.new) }
{
    if pass.has_open() {
        let _ = manager.abort(pass);
    }
}
