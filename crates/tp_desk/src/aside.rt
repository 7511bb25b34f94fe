//! What a desk has in hand, laid aside.
ghost use Rattle.std.specs.Prelude.{◌≡◌, None, is_some};
ghost use Rattle.tp_desk.specs.Aside.{SteadyAside};

use arrayvec::ArrayVec;
use tp_manager::Pass;
use tp_model::remembered::Remembered;
use tp_model::types::{Draft, Work};
use tp_server::Server;

/// What a desk had in hand, as a plain value that borrows nothing, until the desk goes on: meanwhile the
/// lenders have their pass and their server. The unit of work stays open and the server stays prepared. One
/// that is let go leaves them so: take it up again, and end the desk.
#[derive(Drop)]
pub struct Aside {
    pub(crate) work: Option<Work>,
    pub(crate) drafts: ArrayVec<Draft, 4>,
    pub(crate) first_pass: Remembered<Pass>,
    pub(crate) first_server: Remembered<Box<dyn Server + Send>>,
}

impl Aside {
    /// What a new desk of this pass and this server has in hand, which is nothing: no unit is open, and
    /// nothing is prepared.
    pub fn nothing(pass: &Pass, server: &Box<dyn Server + Send>) -> Aside
        requires free { pass.now.open_unit ≡ None }
        requires unprepared { pending server.now ≡ None }
        ensures work { result.work ≡ None }
        ensures first_pass { result.first_pass.value ≡ pass.now }
        ensures first_server { result.first_server.value ≡ server.now }
        ensures steady { SteadyAside behaviour registers pending result pass.now server.now }
    {
        let first_pass = Remembered::of(pass);
        let first_server = Remembered::of(server);
        Aside {
            work: None,
            drafts: ArrayVec::new(),
            first_pass,
            first_server,
        }
    }

    /// Whether an element is in hand.
    pub fn has_open(&self) -> bool
        ensures { result ≡ is_some self.now.work }
    {
        self.work.is_some()
    }

    /// The element in hand, with the unit of work that holds it.
    pub fn in_hand(&self) -> Option<Work>
        ensures { result ≡ self.now.work }
    {
        self.work
    }
}
