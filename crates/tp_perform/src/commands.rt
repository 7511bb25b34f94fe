//! Commands and drains, performed, and the lines of their answers. All passes gather behind them.
ghost use Rattle.std.specs.Prelude.{◌≡◌, IfOk, string_bytes, vec_len};
ghost use Rattle.tp_script.specs.Ranges.{IsInRange};
ghost use Rattle.tp_script.specs.Script.{head_view};
ghost use Rattle.tp_perform.specs.Left.{began_in};
ghost use Rattle.tp_perform.specs.Standing.{CommandDid, CommandTold, DrainTold, Gathers, IsHeld, Leads};

use crate::held::Held;
use std::alloc::{AllocError, Global};
use std::string::String;
use tp_commands::{Means, balance_line, client_line, desk_in, drain_line, sum};
use tp_desk::Order;
use tp_report::{Answer, line};
use tp_script::{Command, Head};
use tp_server::Server;

/// All passes gather.
fn gather(head: &Head, held: &mut Held)
    requires held { IsHeld behaviour registers pending head.now held.old }
    ensures held { IsHeld behaviour registers pending head.now held.new }
    ensures limits { held.new.managed.manager.limits ≡ held.old.managed.manager.limits }
    ensures began { began_in registers held.new ≡ began_in registers held.old }
    ensures gathers { Leads behaviour registers pending Gathers held.old held.new }
{
    let managed = &mut held.managed;
    managed
        .keeper
        .gather(&managed.manager, managed.passes.as_mut_slice());
}

/// Has a command done: by the client's pass or at a desk, or registers are told. Answers its line.
fn command_line(
    alloc: Global,
    head: &Head,
    held: &mut Held,
    command: Command,
) -> Result<String, AllocError>
    requires held { IsHeld behaviour registers pending head.now held.old }
    requires in_range { IsInRange (vec_len head.now.servers) command }
    ensures held { IsHeld behaviour registers pending head.now held.new }
    ensures limits { held.new.managed.manager.limits ≡ held.old.managed.manager.limits }
    ensures began { began_in registers held.new ≡ began_in registers held.old }
    ensures does { IfOk result (λ text. Leads behaviour registers pending (λ old done.
        CommandDid (head_view head.now) command old (string_bytes text) done) held.old held.new) }
{
    match command {
        Command::Client(act) => client_line(
            alloc,
            &held.managed.manager,
            &mut held.managed.passes[0],
            act,
        ),
        Command::Desk { server, act } => {
            let means = Means {
                alloc,
                head,
                manager: &held.managed.manager,
            };
            desk_in(
                &means,
                held.managed.passes.as_mut_slice(),
                held.servers.as_mut_slice(),
                held.places.as_mut_slice(),
                server,
                act,
            )
        }
        Command::Balance { server, k } => balance_line(
            alloc,
            &head.servers[server],
            &held.servers[server],
            held.places[server].is_dropped,
            k,
        ),
        Command::Sum { k } => {
            let sum = sum(held.servers.as_slice(), held.places.as_slice(), k);
            line(alloc, Answer::Sum { k, sum })
        }
    }
}

/// The same, after which all gather.
pub(crate) fn command_told(
    alloc: Global,
    head: &Head,
    held: &mut Held,
    command: Command,
) -> Result<String, AllocError>
    requires held { IsHeld behaviour registers pending head.now held.old }
    requires in_range { IsInRange (vec_len head.now.servers) command }
    ensures held { IsHeld behaviour registers pending head.now held.new }
    ensures limits { held.new.managed.manager.limits ≡ held.old.managed.manager.limits }
    ensures began { began_in registers held.new ≡ began_in registers held.old }
    ensures tells { IfOk result (λ text. Leads behaviour registers pending (λ old new.
        CommandTold (head_view head.now) command old (string_bytes text) new) held.old held.new) }
{
    let text = command_line(alloc, head, held, command)?;
    gather(head, held);
    Ok(text)
}

/// Has the free desks take turns in rounds, whose claims are in this order, until a whole round claims
/// nothing. All gather after each turn.
pub(crate) fn drain_told(
    alloc: Global,
    head: &Head,
    held: &mut Held,
    order: Order,
) -> Result<String, AllocError>
    requires held { IsHeld behaviour registers pending head.now held.old }
    ensures held { IsHeld behaviour registers pending head.now held.new }
    ensures limits { held.new.managed.manager.limits ≡ held.old.managed.manager.limits }
    ensures began { began_in registers held.new ≡ began_in registers held.old }
    ensures tells { IfOk result (λ text. Leads behaviour registers pending (λ old new.
        DrainTold order old (string_bytes text) new) held.old held.new) }
{
    drain_line(
        alloc,
        &held.managed.manager,
        &mut held.managed.keeper,
        held.managed.passes.as_mut_slice(),
        held.servers.as_mut_slice(),
        held.places.as_mut_slice(),
        order,
    )
}
