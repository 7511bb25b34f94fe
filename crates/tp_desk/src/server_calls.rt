//! The calls of a boxed server that change it, each with clauses of its own on the box.
ghost use Rattle.std.specs.Prelude.{◌≡◌, [], ◌∷◌, None, Some, Err, IsSome, IfOk, IfErr, OnOk, OnErr};
ghost use Rattle.tp_server.specs.Asked.{Asks, Prepare, commit_asked};
ghost use Rattle.tp_server.specs.Behaviour.{Allows, IsMade};
ghost use Rattle.tp_server.specs.Pending.{registers_of};
ghost use Rattle.tp_desk.specs.Asking.{settling, undo_of};
ghost use Rattle.tp_desk.specs.Turns.{registers_left};

use arrayvec::ArrayVec;
use tp_model::types::{Draft, Element, Outcome};
use tp_server::{Declined, Server};

/// Prepares the work of an element, or declines it.
pub(crate) fn prepare(
    server: &mut Box<dyn Server + Send>,
    element: &Element,
) -> Result<ArrayVec<Draft, 4>, Declined>
    requires { pending server.old ≡ None }
    ensures behaviour { behaviour server.new ≡ behaviour server.old }
    ensures registers { registers server.new ≡ registers server.old }
    ensures ok { IfOk result (λ drafts.
        IsMade (behaviour server.old) (registers server.old) element.now (pending server.new) drafts.items) }
    ensures err { IfErr result (λ why. Allows (behaviour server.old)
        (registers server.old) element.now (Err why)) }
    ensures prepared { OnOk result (IsSome (pending server.new)) }
    ensures unprepared { OnErr result (pending server.new ≡ None) }
    ensures asked { Asks (Prepare element.now (registers server.old) ∷ []) (asked server.old)
        (asked server.new) }
{
    server.prepare(element)
}

/// Keeps the prepared work where its unit of work was committed, and else calls it off.
pub(crate) fn settle(server: &mut Box<dyn Server + Send>, outcome: Outcome)
    requires prepared { IsSome (pending server.old) }
    ensures behaviour { behaviour server.new ≡ behaviour server.old }
    ensures registers { Some (registers server.new)
        ≡ registers_left outcome (registers server.old) (pending server.old) }
    ensures clear { pending server.new ≡ None }
    ensures asked { Asks (settling outcome (pending server.old)) (asked server.old) (asked server.new) }
{
    match outcome {
        Outcome::Committed { .. } => commit(server),
        Outcome::Lost => clear(server),
        Outcome::Full => clear(server),
    }
}

/// Makes the prepared work committed work.
fn commit(server: &mut Box<dyn Server + Send>)
    requires { IsSome (pending server.old) }
    ensures behaviour { behaviour server.new ≡ behaviour server.old }
    ensures registers { Some (registers server.new) ≡ registers_of (pending server.old) }
    ensures clear { pending server.new ≡ None }
    ensures asked { Asks (commit_asked (pending server.old)) (asked server.old) (asked server.new) }
{
    server.commit()
}

/// Calls prepared work off, if there is any.
pub(crate) fn clear(server: &mut Box<dyn Server + Send>)
    ensures behaviour { behaviour server.new ≡ behaviour server.old }
    ensures registers { registers server.new ≡ registers server.old }
    ensures clear { pending server.new ≡ None }
    ensures asked { Asks (undo_of (pending server.old)) (asked server.old) (asked server.new) }
{
    if server.is_prepared() {
        server.undo();
    }
}
