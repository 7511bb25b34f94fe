//! The command `rollover`: what is alive goes on in a new manager, and the desks begin anew in it.
ghost use Rattle.std.specs.Prelude.{◌≡◌, List, ℕ, IfErr, IfOk, map, string_bytes};
ghost use Rattle.tp_report.specs.Answer.{line, rolled_text};
ghost use Rattle.tp_commands.specs.Rollover.{IsUnrolled, RollRefused, RolledOver, renamed, roll_refused_text};
ghost use Rattle.tp_script.specs.Fault.{◌<>◌};
ghost use Rattle.tp_perform.specs.Left.{Reaches};
ghost use Rattle.tp_perform.specs.Roots.{roots_of, roots_text};
ghost use Rattle.tp_perform.specs.Standing.{IsHeld, Leads, RolloverTold};

use crate::held::Held;
use crate::roots::{AllRoots, roots_of};
use std::alloc::{AllocError, Global};
use std::string::String;
use tp_commands::roll_over;
use tp_commands::rollover::{all_renamed, refused_line};
use tp_report::Answer;
use tp_rollover::{Moved, RollFault};
use tp_script::Head;
use tp_server::Server;

/// A line of this text.
fn as_line(alloc: Global, text: &str) -> Result<String, AllocError>
    ensures { IfOk result (λ s. string_bytes s ≡ line text.now) }
{
    format!(in alloc; "{text}\n")
}

/// The line of a rollover that carried these over.
fn rolled_line(alloc: Global, moved: &[Moved]) -> Result<String, AllocError>
    ensures { IfOk result (λ s. string_bytes s
        ≡ line (rolled_text (map renamed moved.now) <> roots_text (roots_of moved.now))) }
{
    let elements = all_renamed(alloc, moved)?;
    let found = roots_of(alloc, moved)?;
    let roots = AllRoots {
        roots: found.as_slice(),
    };
    let answer = Answer::RolledOver(&elements);
    let text = format!(in alloc; "{answer}{roots}")?;
    as_line(alloc, text.as_str())
}

/// What is alive goes on in a new manager, in which the desks begin anew. Answers what was carried over.
fn roll_over_held(alloc: Global, head: &Head, held: &mut Held) -> Result<Vec<Moved>, RollFault>
    requires held { IsHeld behaviour registers pending head.now held.old }
    ensures held { IsHeld behaviour registers pending head.now held.new }
    ensures limits { held.new.managed.manager.limits ≡ held.old.managed.manager.limits }
    ensures rolled { IfOk result (λ moved. Leads behaviour registers pending (λ old new.
        RolledOver old moved.items new) held.old held.new) }
    ensures refused { IfErr result (λ why. Leads behaviour registers pending (λ old new.
        RollRefused (IsUnrolled old.manager.limits) old (line (roll_refused_text why)) new)
        held.old held.new) }
{
    roll_over(
        alloc,
        &mut held.managed,
        held.servers.as_slice(),
        held.places.as_mut_slice(),
    )
}

/// Has what is alive, each element once, go on in a new manager. Answers `rolled over N OLD:NEW ..`, or why
/// it was refused: then nothing has changed.
pub(crate) fn rollover_told(
    alloc: Global,
    head: &Head,
    held: &mut Held,
) -> Result<String, AllocError>
    requires held { IsHeld behaviour registers pending head.now held.old }
    ensures held { IsHeld behaviour registers pending head.now held.new }
    ensures limits { held.new.managed.manager.limits ≡ held.old.managed.manager.limits }
    ensures went { Reaches behaviour registers pending (λ old new. (text : List ℕ)
        × RolloverTold old text new) held.old held.new }
    ensures tells { IfOk result (λ text. Leads behaviour registers pending (λ old new.
        RolloverTold old (string_bytes text) new) held.old held.new) }
{
    match roll_over_held(alloc, head, held) {
        Ok(moved) => rolled_line(alloc, moved.as_slice()),
        Err(why) => refused_line(alloc, why),
    }
}
