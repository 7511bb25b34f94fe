//! The desk, and what it shows.
ghost use Rattle.std.specs.Prelude.{◌≡◌, None, IfSome, is_some, slice_get};
ghost use Rattle.tp_manager.specs.Bounds.{abort_steps};
ghost use Rattle.tp_manager.specs.Calls.{Follows};
ghost use Rattle.tp_manager.specs.Shown.{IsOf};
ghost use Rattle.tp_server.specs.Asked.{Asks};
ghost use Rattle.tp_desk.specs.Asking.{undo_of};
ghost use Rattle.tp_desk.specs.Serving.{Leaves};
ghost use Rattle.tp_desk.specs.Turns.{EndsOpen};
ghost use Rattle.tp_desk.specs.Aside.{SteadyAside};

use crate::aside::Aside;
use crate::{closing, server_calls};
use arrayvec::ArrayVec;
use tp_manager::{Manager, Pass};
use tp_model::remembered::Remembered;
use tp_model::types::{Draft, Work};
use tp_server::Server;

/// Where a pass and a boxed server are at work, for as long as it borrows them.
pub struct Desk<'m, 'p, 's> {
    pub(crate) manager: &'m Manager,
    pub(crate) pass: &'p mut Pass,
    pub(crate) server: &'s mut Box<dyn Server + Send>,
    pub(crate) work: Option<Work>,
    pub(crate) drafts: ArrayVec<Draft, 4>,
    pub(crate) first_pass: Remembered<Pass>,
    pub(crate) first_server: Remembered<Box<dyn Server + Send>>,
    ghost own: { IsOf manager.now pass.now },
}

impl Desk<'_, '_, '_> {
    /// Whether an element is in hand: claimed, and neither committed nor aborted by the desk's own calls.
    pub fn has_open(&self) -> bool
        ensures { result ≡ is_some self.now.work }
    {
        self.work.is_some()
    }

    /// The element in hand, with the unit of work that holds it.
    pub fn in_hand(&self) -> Option<Work>
        ensures { result ≡ self.now.work }
    {
        self.work
    }

    /// Whether the server has prepared the work in hand.
    pub fn is_prepared(&self) -> bool
        ensures { result ≡ is_some (pending self.now.server.now) }
    {
        self.server.is_prepared()
    }

    /// The stage whose elements the server takes, 1 to 14.
    pub fn stage(&self) -> u8
        ensures { result ≡ (behaviour self.now.server.now).stage }
    {
        self.server.stage()
    }

    /// The server's register of committed work with this number, counted from 0, or `None` past the last one.
    /// Prepared work isn't counted.
    pub fn balance(&self, k: u64) -> Option<u64>
        ensures { result ≡ slice_get (registers self.now.server.now) k }
    {
        self.server.balance(k)
    }
}

impl Desk<'_, '_, '_> {
    ghost use Rattle.tp_desk.specs.Steady.{SteadyDesk};

    /// Lays aside what is in hand, so that the lenders have their pass and their server for a while. The unit
    /// of work stays open and the server stays prepared, and the desk goes on by `resume`.
    pub fn lay_aside(self) -> Aside
        ensures own { IsOf self.entry.manager.now self.exit.1.0.now }
        ensures pass { self.exit.1.0.now ≡ self.entry.pass.now }
        ensures server { self.exit.1.1.0.now ≡ self.entry.server.now }
        ensures work { result.work ≡ self.entry.work }
        ensures drafts { result.drafts.items ≡ self.entry.drafts.items }
        ensures same_first { (result.first_pass ≡ self.entry.first_pass)
            × (result.first_server ≡ self.entry.first_server) }
        ensures steady { SteadyDesk behaviour registers pending self.entry
            → SteadyAside behaviour registers pending result self.exit.1.0.now self.exit.1.1.0.now }
    {
        let Desk {
            manager: _,
            pass: _,
            server: _,
            work,
            drafts,
            first_pass,
            first_server,
        } = self;
        Aside {
            work,
            drafts,
            first_pass,
            first_server,
        }
    }
}

impl Drop for Desk<'_, '_, '_> {
    ghost use Rattle.tp_desk.specs.Steady.{SteadyDesk};

    fn drop(self)
        ensures free { self.exit.1.0.now.open_unit ≡ None }
        ensures clear { pending self.exit.1.1.0.now ≡ None }
        ensures own { IsOf self.entry.manager.now self.exit.1.0.now }
        ensures behaviour { behaviour self.exit.1.1.0.now ≡ behaviour self.entry.server.now }
        ensures registers { registers self.exit.1.1.0.now ≡ registers self.entry.server.now }
        ensures asked { Asks (undo_of (pending self.entry.server.now)) (asked self.entry.server.now)
            (asked self.exit.1.1.0.now) }
        ensures adds { EndsOpen self.entry.pass.now.open_unit self.entry.pass.now self.exit.1.0.now }
        ensures turn { self.exit.1.0.now.from ≡ self.entry.pass.now.from }
        ensures follows { IfSome self.entry.pass.now.open_unit (λ _.
            Follows abort_steps self.entry.pass.now self.exit.1.0.now) }
        ensures leaves { SteadyDesk behaviour registers pending self.entry
            → Leaves (behaviour self.exit.1.1.0.now) (registers self.entry.first_server.value)
            (registers self.exit.1.1.0.now) self.entry.first_pass.value self.exit.1.0.now }
    {
        let Desk {
            manager,
            pass,
            server,
            work: _,
            drafts: _,
            first_pass: _,
            first_server: _,
        } = self;
        server_calls::clear(server);
        closing::close(manager, pass);
    }
}
