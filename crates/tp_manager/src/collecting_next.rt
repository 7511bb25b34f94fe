//! The collection of the next reply to a request.
ghost use Rattle.tp_model.specs.declared.types.TheConstants.{REPLY_STAGE};
ghost use Rattle.std.specs.Prelude.{◌≡◌, ◌*◌, ◌<◌, [], length, MatchOption, None, Some};
ghost use Rattle.tp_model.specs.declared.types.Element.{Element as element};
ghost use Rattle.tp_model.specs.declared.types.Status.TheVariants.{Killed};
ghost use Rattle.tp_model.specs.Families.{IsRequest, family};
ghost use Rattle.tp_model.specs.History.{element_of, status_of};
ghost use Rattle.tp_model.specs.Steps.{rows_of};
ghost use Rattle.tp_rule.specs.Views.{hand_of, seen_by, view_of, IsSameSeat};
ghost use Rattle.tp_rule.specs.Tables.{table_limits};
ghost use Rattle.tp_manager.specs.Shown.{IsOf};
ghost use Rattle.tp_manager.specs.Bounds.{collect_next_steps, collect_steps, family_collect_steps};
ghost use Rattle.tp_manager.specs.Bounds.{lean_collect_steps, one_take_steps};
ghost use Rattle.tp_manager.specs.Calls.{Follows, HasLooked};
ghost use Rattle.tp_manager.specs.Lists.{CollectsNext, NoneCollected, killed_between, walks_of};
ghost use Rattle.tp_manager.specs.Families.{TakenReply};
ghost use Rattle.tp_manager.specs.Kills.{Slain};
ghost use Rattle.tp_manager.specs.Requeues.{IsBetween};
ghost use Rattle.tp_manager.specs.RowSets.{IsEmpty};
ghost use Rattle.tp_manager.specs.CallSteps.{IsSteady, Looked};

use crate::manager::{Manager, Pass, Shared};
use crate::row_set::RowSet;
use tp_model::types::Element;
use tp_rule::Seat;

impl Shared {
    /// Kills the reply that is born in the row, and hands it out; `None` where another was quicker.
    fn take_row(&self, seat: &mut Seat, row: u32) -> Option<Element>
        requires steady { IsSteady self.now.words seat.old }
        requires row { row < rows_of (table_limits self.now.words) }
        requires reply { (x : element) × (element_of (seen_by seat.old) row ≡ Some x)
            × (x.stage ≡ REPLY_STAGE) }
        requires free { (hand_of seat.old).open_unit ≡ None }
        ensures same { IsSameSeat seat.old seat.new }
        ensures told { let l = table_limits self.now.words in MatchOption result
            (Looked l collect_steps (view_of seat.old) (view_of seat.new)
            × IsBetween (seen_by seat.old) (seen_by seat.new) (λ h. status_of l.attempts h row ≡ Killed))
            (λ x. Slain l collect_steps row [] (view_of seat.old) (view_of seat.new)
            × (element_of (seen_by seat.new) row ≡ Some x)) }
    {
        let head = self.head_at(seat, row);
        let Some(birth) = self.birth_from(seat, row, head) else {
            unreachable!();
        };
        match self.collect_row(seat, row, birth) {
            Ok(element) => Some(element),
            Err(_) => None,
        }
    }

    /// Collects the least reply of the family that it finds waiting, and where another is quicker the next
    /// one. The set is empty before and after.
    pub(crate) fn take_of_family(
        &self,
        seat: &mut Seat,
        rows: &mut RowSet,
        root: u32,
    ) -> Option<Element>
        requires steady { IsSteady self.now.words seat.old }
        requires request { (root < rows_of (table_limits self.now.words))
            × IsRequest (seen_by seat.old) root }
        requires free { (hand_of seat.old).open_unit ≡ None }
        requires none { IsEmpty rows.old }
        ensures same { IsSameSeat seat.old seat.new }
        ensures none { IsEmpty rows.new }
        ensures told { let l = table_limits self.now.words in
            let killed = killed_between l root (seen_by seat.old) (seen_by seat.new) in
            TakenReply l (walks_of result killed * one_take_steps (length (family (seen_by seat.new) root)))
            root
            (view_of seat.old) (view_of seat.new) result }
    {
        let mut from = 0;
        for _past in 0..self.places.rows() + 1 {
            let Some(id) = self.list_family(seat, rows, root, from) else {
                return None;
            };
            if let Some(taken) = self.take_row(seat, id) {
                return Some(taken);
            }
            from = id + 1;
        }
        unreachable!()
    }
}

impl Manager {
    /// Takes the reply to the request with this root that has the least id of those that it finds waiting.
    /// The reply is killed, so nobody else collects it. Where another caller was quicker, it walks again and
    /// takes the next one (`lean`). The pass may have no unit open. `None` where no reply waits.
    pub fn collect_next(&self, pass: &mut Pass, root: u32) -> Option<Element>
        requires own { IsOf self.now pass.old }
        requires free { pass.old.open_unit ≡ None }
        ensures own { IsOf self.now pass.new }
        ensures turn { pass.new.from ≡ pass.old.from }
        ensures follows { Follows (collect_next_steps self.now.limits) pass.old pass.new }
        ensures few { Follows (family_collect_steps (length (family pass.new.seen root))) pass.old pass.new }
        ensures lean { let killed = killed_between self.now.limits root pass.old.seen pass.new.seen in
            Follows (lean_collect_steps (length (family pass.new.seen root)) (walks_of result killed))
            pass.old pass.new }
        ensures open_unit { pass.new.open_unit ≡ None }
        ensures looks { root < rows_of self.now.limits → HasLooked pass.old pass.new }
        ensures answer { MatchOption result
            (NoneCollected self.now.limits root pass.old pass.new)
            (λ x. CollectsNext self.now.limits root x pass.old pass.new) }
    {
        let shared = &self.shared;
        let seat = &mut pass.seat;
        if root >= shared.places.rows() {
            return None;
        }
        if !shared.is_request(seat, root) {
            return None;
        }
        shared.take_of_family(seat, &mut pass.walk.rows, root)
    }
}
