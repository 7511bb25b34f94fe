//! The next element of a request, in whatever stage it is.
ghost use Rattle.std.specs.Prelude.{◌≡◌, ◌<◌, ◌≤◌, length, MatchOption};
ghost use Rattle.tp_model.specs.Families.{family};
ghost use Rattle.tp_model.specs.Steps.{rows_of};
ghost use Rattle.tp_rule.specs.Steps.{HasElement};
ghost use Rattle.tp_rule.specs.Views.{seen_by, view_of, IsSameSeat};
ghost use Rattle.tp_rule.specs.Tables.{table_limits};
ghost use Rattle.tp_manager.specs.Shown.{IsOf};
ghost use Rattle.tp_manager.specs.Bounds.{family_look_steps, family_steps, read_steps};
ghost use Rattle.tp_manager.specs.Calls.{Follows, HasLooked, IsLook, IsQuiet};
ghost use Rattle.tp_manager.specs.Lists.{NextOfFamily, NoneOfFamily};
ghost use Rattle.tp_manager.specs.CallSteps.{IsSteady, Looked};

use crate::manager::{Manager, Pass, Shared};
use tp_model::types::Look;
use tp_rule::Seat;

impl Shared {
    /// The element that is born in the row, and its status.
    fn look_at(&self, seat: &mut Seat, row: u32) -> Look
        requires steady { IsSteady self.now.words seat.old }
        requires row { (row < rows_of (table_limits self.now.words)) × HasElement (seen_by seat.old) row }
        ensures same { IsSameSeat seat.old seat.new }
        ensures looked { let l = table_limits self.now.words in Looked l (read_steps l) (view_of seat.old)
            (view_of seat.new) }
        ensures told { IsLook (table_limits self.now.words) row result (seen_by seat.new) }
    {
        let head = self.head_at(seat, row);
        let Some(birth) = self.birth_from(seat, row, head) else {
            unreachable!();
        };
        let element = self.element_at(seat, row, birth);
        let status = self.status_at(seat, row);
        Look { element, status }
    }
}

impl Manager {
    /// The element of the request with this root that has the least id from `from` on, whatever its stage,
    /// and its status: so a client sees where its order is. `None` where there is no such element.
    pub fn family(&self, pass: &mut Pass, root: u32, from: u32) -> Option<Look>
        requires own { IsOf self.now pass.old }
        ensures own { IsOf self.now pass.new }
        ensures turn { pass.new.from ≡ pass.old.from }
        ensures follows { Follows (family_steps self.now.limits) pass.old pass.new }
        ensures few { Follows (family_look_steps self.now.limits (length (family pass.new.seen root)))
            pass.old pass.new }
        ensures quiet { IsQuiet pass.old pass.new }
        ensures looks { from < rows_of self.now.limits → HasLooked pass.old pass.new }
        ensures answer { MatchOption result
            (NoneOfFamily root from pass.old pass.new)
            (λ look. NextOfFamily self.now.limits root from look pass.old pass.new) }
    {
        let shared = &self.shared;
        let seat = &mut pass.seat;
        let capacity = shared.places.rows();
        if from >= capacity {
            return None;
        }
        if root >= capacity {
            // It is asked about a row that there is, and so it looks.
            let _ = shared.head_at(seat, from);
            return None;
        }
        if !shared.is_request(seat, root) {
            return None;
        }
        let Some(id) = shared.first_of_family(seat, &mut pass.walk.rows, root, from) else {
            return None;
        };
        Some(shared.look_at(seat, id))
    }
}
