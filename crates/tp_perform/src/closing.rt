//! The end of a script: what is in hand is given up, and the elements are counted.
ghost use Rattle.std.specs.Prelude.{◌≡◌};
ghost use Rattle.tp_perform.specs.Left.{began_in};
ghost use Rattle.tp_perform.specs.Performed.{CountsAtEnd, DesksClose};
ghost use Rattle.tp_perform.specs.Standing.{IsHeld, Leads};

use crate::held::Held;
use tp_commands::give_up_all;
use tp_model::types::Account;
use tp_script::Head;
use tp_server::Server;

/// Has each desk give up what it has in hand, in the order of the servers. All gather behind each, so that
/// what is counted afterwards is what a manager of one thread counts.
pub(crate) fn close_desks(head: &Head, held: &mut Held)
    requires held { IsHeld behaviour registers pending head.now held.old }
    ensures held { IsHeld behaviour registers pending head.now held.new }
    ensures began { began_in registers held.new ≡ began_in registers held.old }
    ensures closes { Leads behaviour registers pending DesksClose held.old held.new }
{
    give_up_all(
        &held.managed.manager,
        &mut held.managed.keeper,
        held.managed.passes.as_mut_slice(),
        held.servers.as_mut_slice(),
        held.places.as_mut_slice(),
    );
}

/// Takes the account, where it is asked for.
pub(crate) fn take_account(is_asked: bool, head: &Head, held: &mut Held) -> Option<Account>
    requires held { IsHeld behaviour registers pending head.now held.old }
    ensures held { IsHeld behaviour registers pending head.now held.new }
    ensures began { began_in registers held.new ≡ began_in registers held.old }
    ensures counts { Leads behaviour registers pending (λ old new. CountsAtEnd is_asked old result new)
        held.old held.new }
{
    if !is_asked {
        return None;
    }
    let managed = &mut held.managed;
    Some(
        managed
            .keeper
            .account(&managed.manager, managed.passes.as_mut_slice()),
    )
}
