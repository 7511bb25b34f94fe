//! The cancel of a whole request.
//!
//! A walk through the family, from the root on. Of each element that it comes to it kills what is no reply.
//! It goes on to the outputs of the unit that consumed it, if one did. Nothing is born after it: see
//! docs/CANCEL.md.
ghost use Rattle.std.specs.Prelude.{◌≡◌, ◌<◌, ℕ, [], length, MatchResult, None};
ghost use Rattle.tp_model.specs.declared.types.Status.TheVariants.{Consumed};
ghost use Rattle.tp_model.specs.Families.{IsOfFamily, IsRequest, family};
ghost use Rattle.tp_model.specs.History.{status_of};
ghost use Rattle.tp_model.specs.Steps.{rows_of};
ghost use Rattle.tp_rule.specs.Steps.{HasElement};
ghost use Rattle.tp_rule.specs.Views.{hand_of, seen_by, view_of, IsSameSeat};
ghost use Rattle.tp_rule.specs.Tables.{table_limits};
ghost use Rattle.tp_manager.specs.Shown.{IsOf};
ghost use Rattle.tp_manager.specs.Bounds.{cancel_steps, each_end_steps, end_steps_at, family_cancel_steps};
ghost use Rattle.tp_manager.specs.Bounds.{lean_cancel_steps};
ghost use Rattle.tp_manager.specs.Calls.{Follows, HasLooked};
ghost use Rattle.tp_manager.specs.Cancels.{Cancels, CancelFails};
ghost use Rattle.tp_manager.specs.Endings.{killed_there, CancelsIn, EndsAt, IsEnded};
ghost use Rattle.tp_manager.specs.Kills.{IsPastKill};
ghost use Rattle.tp_manager.specs.RowSets.{IsEmpty};
ghost use Rattle.tp_manager.specs.CallSteps.{IsSteady, Looked};

use crate::ahead::Ahead;
use crate::manager::{Manager, Pass, Shared};
use crate::row_set::RowSet;
use crate::walking::{MAX_ROWS, is_reply};
use tp_model::types::{Cancelled, Refusal};
use tp_rule::{Seat, UnitWord};

/// What a cancel came to at an element.
#[derive(Clone, Copy)]
pub(crate) enum CancelEnd {
    /// The cancel has killed it.
    Killed,
    /// A unit had consumed it, and has made this many elements, with the ids from `first` on.
    Outputs { first: u16, count: u8 },
    /// It is a reply, or was killed before.
    Before,
}

impl Shared {
    /// The outputs of the unit that consumed the element of the row. One step.
    fn outputs_of(&self, seat: &mut Seat, row: u32, unit: u16) -> CancelEnd
        requires steady { IsSteady self.now.words seat.old }
        requires consumed { status_of (table_limits self.now.words).attempts (seen_by seat.old) row
            ≡ Consumed unit }
        ensures same { IsSameSeat seat.old seat.new }
        ensures looked { Looked (table_limits self.now.words) 1 (view_of seat.old) (view_of seat.new) }
        ensures told { IsEnded (table_limits self.now.words) row (seen_by seat.new) result }
        ensures none { killed_there row result ≡ [] }
    {
        match self.words.load_unit(seat, unit) {
            UnitWord::Committed { first, count } => CancelEnd::Outputs { first, count },
            UnitWord::Undecided => unreachable!(),
            UnitWord::Aborted => unreachable!(),
        }
    }

    /// What the cancel has come to, where its kill of the row's element was refused. At most one step.
    fn left_by(&self, seat: &mut Seat, row: u32, refusal: Refusal) -> CancelEnd
        requires steady { IsSteady self.now.words seat.old }
        requires past { IsPastKill (table_limits self.now.words) (seen_by seat.old) row refusal }
        ensures same { IsSameSeat seat.old seat.new }
        ensures looked { Looked (table_limits self.now.words) 1 (view_of seat.old) (view_of seat.new) }
        ensures told { IsEnded (table_limits self.now.words) row (seen_by seat.new) result }
        ensures none { killed_there row result ≡ [] }
    {
        match refusal {
            Refusal::Consumed { unit } => self.outputs_of(seat, row, unit),
            _ => CancelEnd::Before,
        }
    }

    /// Kills the element that is born in the row, unless it is a reply, or is consumed or killed.
    #[inline(always)]
    fn end_row(&self, seat: &mut Seat, row: u32) -> CancelEnd
        requires steady { IsSteady self.now.words seat.old }
        requires row { (row < rows_of (table_limits self.now.words)) × HasElement (seen_by seat.old) row }
        requires free { (hand_of seat.old).open_unit ≡ None }
        ensures same { IsSameSeat seat.old seat.new }
        ensures told { let l = table_limits self.now.words in (root : ℕ)
            → (of : IsOfFamily (seen_by seat.old) root row)
            → EndsAt l (end_steps_at l of.0) root row result (view_of seat.old) (view_of seat.new) }
    {
        let head = self.head_at(seat, row);
        if is_reply(head) {
            return CancelEnd::Before;
        }
        match self.kill_row(seat, row) {
            Ok(_) => CancelEnd::Killed,
            Err(refusal) => self.left_by(seat, row, refusal),
        }
    }

    /// Goes through the family, and ends the work on each element that it comes to. Tells how many elements
    /// it killed. The set is empty before and after.
    fn cancel_family(&self, seat: &mut Seat, rows: &mut RowSet, root: u32) -> u32
        requires steady { IsSteady self.now.words seat.old }
        requires request { (root < rows_of (table_limits self.now.words))
            × IsRequest (seen_by seat.old) root }
        requires free { (hand_of seat.old).open_unit ≡ None }
        requires none { IsEmpty rows.old }
        ensures same { IsSameSeat seat.old seat.new }
        ensures none { IsEmpty rows.new }
        ensures told { let l = table_limits self.now.words in
            CancelsIn l (each_end_steps l (family (seen_by seat.new) root)) root result
            (view_of seat.old) (view_of seat.new) }
    {
        let mut killed = 0;
        let mut ahead = Ahead::of(root);
        for _past in 0..MAX_ROWS + 1 {
            let Some(row) = ahead.take_least(rows) else {
                return killed;
            };
            match self.end_row(seat, row) {
                CancelEnd::Outputs { first, count } => ahead.insert_rows(rows, first, count),
                CancelEnd::Killed => killed += 1,
                CancelEnd::Before => (),
            }
        }
        unreachable!()
    }
}

impl Manager {
    /// Cancels the request of a client whose element has this id. It kills each element of the request's
    /// family that is neither consumed nor a reply, and aborts the units of work that hold such elements.
    /// When it returns, each element of the family but replies is consumed or killed, and none is born,
    /// claimed or committed any more. Replies are left as they are. The pass may have no unit open.
    ///
    /// It walks the family, and looks at nothing else: from the root to the outputs of the unit that consumed
    /// it, and so on, always from the least id that it has come to and not gone on from. Its steps are
    /// bounded by the number of elements in the family (`few`).
    ///
    /// `NotThere` where no client's element with this id is born.
    pub fn cancel(&self, pass: &mut Pass, root: u32) -> Result<Cancelled, Refusal>
        requires own { IsOf self.now pass.old }
        requires free { pass.old.open_unit ≡ None }
        ensures own { IsOf self.now pass.new }
        ensures turn { pass.new.from ≡ pass.old.from }
        ensures follows { Follows (cancel_steps self.now.limits) pass.old pass.new }
        ensures few { Follows (family_cancel_steps self.now.limits (length (family pass.new.seen root)))
            pass.old pass.new }
        ensures lean { Follows (lean_cancel_steps self.now.limits (family pass.new.seen root)) pass.old
            pass.new }
        ensures open_unit { pass.new.open_unit ≡ None }
        ensures looks { root < rows_of self.now.limits → HasLooked pass.old pass.new }
        ensures answer { MatchResult result
            (λ cancelled. Cancels self.now.limits root cancelled.killed pass.old pass.new)
            (λ refusal. CancelFails root pass.old pass.new refusal) }
    {
        let shared = &self.shared;
        let seat = &mut pass.seat;
        if root >= shared.places.rows() {
            return Err(Refusal::NotThere);
        }
        if !shared.is_request(seat, root) {
            return Err(Refusal::NotThere);
        }
        let killed = shared.cancel_family(seat, &mut pass.walk.rows, root);
        Ok(Cancelled { killed })
    }
}
