//! The next reply to a request.
ghost use Rattle.std.specs.Prelude.{◌≡◌, ◌≤◌, ◌<◌, length, IfSome, MatchOption};
ghost use Rattle.tp_model.specs.Families.{family};
ghost use Rattle.tp_model.specs.Steps.{rows_of};
ghost use Rattle.tp_manager.specs.Shown.{IsOf};
ghost use Rattle.tp_manager.specs.Bounds.{family_reply_steps, reply_steps};
ghost use Rattle.tp_manager.specs.Calls.{Follows, HasLooked, IsQuiet};
ghost use Rattle.tp_manager.specs.Lists.{AllKilled, NextReply};

use crate::manager::{Manager, Pass};

impl Manager {
    /// The least id from `from` on under which a reply to the request with this root was found to wait. Each
    /// reply with a lesser id from there on, that was born when the call began to look, was found to be
    /// killed. `None` where that is so of each reply from there on.
    ///
    /// It walks the request's family and looks at nothing else: it makes at most 2 steps for each element of
    /// the family, and 1 more (`few`).
    pub fn reply(&self, pass: &mut Pass, root: u32, from: u32) -> Option<u32>
        requires own { IsOf self.now pass.old }
        ensures own { IsOf self.now pass.new }
        ensures turn { pass.new.from ≡ pass.old.from }
        ensures follows { Follows (reply_steps self.now.limits) pass.old pass.new }
        ensures few { Follows (family_reply_steps (length (family pass.new.seen root))) pass.old pass.new }
        ensures quiet { IsQuiet pass.old pass.new }
        ensures looks { from < rows_of self.now.limits → HasLooked pass.old pass.new }
        ensures inside { IfSome result (λ id. id < rows_of self.now.limits) }
        ensures answer { MatchOption result
            (AllKilled self.now.limits root (λ i. from ≤ i) pass.old pass.new)
            (λ id. NextReply self.now.limits root from id pass.old pass.new) }
    {
        let shared = &self.shared;
        let seat = &mut pass.seat;
        let capacity = shared.places.rows();
        if from >= capacity {
            return None;
        }
        if root >= capacity {
            // It is asked about a row that there is, and so it looks.
            let _ = shared.head_at(seat, from);
            return None;
        }
        if !shared.is_request(seat, root) {
            return None;
        }
        shared.list_family(seat, &mut pass.walk.rows, root, from)
    }
}
