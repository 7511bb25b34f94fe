//! What a server is to those who use one.
ghost use Rattle.std.specs.Prelude.{◌≡◌, ◌≤◌, List, [], ◌∷◌, ℕ, Bool, true, Option, None, Some, length};
ghost use Rattle.std.specs.Prelude.{IsSome, is_some, IfOk};
ghost use Rattle.std.specs.Prelude.{IfErr, OnOk, OnErr, Err, slice_get};

use crate::recipe::Declined;
use arrayvec::ArrayVec;
use tp_model::types::{Draft, Element};

/// A server does the work of elements one at a time, each in two steps: it prepares the work, and then
/// commits it or undoes it.
///
/// You may write servers of your own. By three ghost members a server says what it is: its behaviour,
/// which is the stage whose elements it takes and the effect that one has, as a function of your own; the
/// registers of its committed work, a list of any length; and its prepared work, if there is any: the element
/// that it was prepared for, and the registers that a commit would leave. They may be read off its fields in
/// any way, so it is free to change its registers early or late. A fourth, `asked`, is there for those who
/// call a server: leave it out. What it owes is this:
///
/// - No call changes the behaviour.
/// - `prepare` is called only while nothing is prepared. It does as its behaviour says, for some numbers that
/// it heard from   outside: it answers the effect's drafts, in order, and from then on the work is prepared;
/// or it declines the element, for   the effect's reason, and changes nothing. In either case the registers
/// of committed work stay as they were.
/// - `balance` shows the registers of committed work alone. Prepared work doesn't count.
/// - `commit` and `undo` are called only while work is prepared, and afterwards none is. After `commit` the
/// registers of   committed work are those that the effect gave for the element, and after `undo` they are as
/// they were. Neither can   fail.
/// - No call takes memory. This is the one point that the contracts below can't say: keep no allocator in a
/// server.
pub trait Server: Drop {
    ghost use Rattle.tp_server.specs.Asked.{Asked, Asks, Prepare, Undo, commit_asked};
    ghost use Rattle.tp_server.specs.Behaviour.{Allows, Behaviour, IsMade};
    ghost use Rattle.tp_server.specs.Pending.{Pending, registers_of};

    /// What it does with an element.
    ghost behaviour: { Self → Behaviour };

    /// The registers of committed work.
    ghost registers: { Self → List ℕ };

    /// The prepared work, if there is any: the element that it is for, and the registers that a commit would
    /// leave.
    ghost pending: { Self → Option Pending };

    /// What it may have been asked so far, the last call first: a test of lists of calls, which each call
    /// extends by itself. Who calls a server that it doesn't know can't pass the test by other calls, and so
    /// promises which ones it made. A server of your own leaves this out.
    ghost asked: { Self → List Asked → Bool } = { λ _ _. true };

    /// The stage whose elements it takes, 1 to 14.
    fn stage(&self) -> u8
        ensures value { result ≡ (behaviour self.now).stage }
        ensures low { 1 ≤ result }
        ensures high { result ≤ 14 };

    /// How many registers it has.
    fn count(&self) -> u64
        ensures { result ≡ length (registers self.now) };

    /// The register of committed work with this number, counted from 0, or `None` past the last one. Prepared
    /// work isn't counted.
    fn balance(&self, k: u64) -> Option<u64>
        ensures { result ≡ slice_get (registers self.now) k };

    /// Whether work is prepared, and neither committed nor undone yet.
    fn is_prepared(&self) -> bool
        ensures { result ≡ is_some (pending self.now) };

    /// Prepares the work of an element and answers the outputs that it makes, or declines it.
    ///
    /// What the answer is, and why an element is declined, is what its behaviour says. Nothing has changed
    /// where it is declined.
    fn prepare(&mut self, element: &Element) -> Result<ArrayVec<Draft, 4>, Declined>
        requires { pending self.old ≡ None }
        ensures behaviour { behaviour self.new ≡ behaviour self.old }
        ensures registers { registers self.new ≡ registers self.old }
        ensures ok { IfOk result (λ drafts.
            IsMade (behaviour self.old) (registers self.old) element.now (pending self.new) drafts.items) }
        ensures err { IfErr result (λ why. Allows (behaviour self.old)
            (registers self.old) element.now (Err why)) }
        ensures prepared { OnOk result (IsSome (pending self.new)) }
        ensures unprepared { OnErr result (pending self.new ≡ None) }
        ensures asked { Asks (Prepare element.now (registers self.old) ∷ []) (asked self.old)
            (asked self.new) };

    /// Makes the prepared work committed work.
    fn commit(&mut self)
        requires { IsSome (pending self.old) }
        ensures behaviour { behaviour self.new ≡ behaviour self.old }
        ensures registers { Some (registers self.new) ≡ registers_of (pending self.old) }
        ensures pending { pending self.new ≡ None }
        ensures asked { Asks (commit_asked (pending self.old)) (asked self.old) (asked self.new) };

    /// Calls the prepared work off.
    fn undo(&mut self)
        requires { IsSome (pending self.old) }
        ensures behaviour { behaviour self.new ≡ behaviour self.old }
        ensures registers { registers self.new ≡ registers self.old }
        ensures pending { pending self.new ≡ None }
        ensures asked { Asks (Undo ∷ []) (asked self.old) (asked self.new) };
}
