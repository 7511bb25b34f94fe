//! Rows of which a pass knows that an element of a stage is born in each.
ghost use Rattle.std.specs.Prelude.{true, ℕ, ◌≡◌, ◌+◌, ◌-◌, ◌*◌, ◌<◌, ◌≤◌, ◌⊎◌, IfSome, MatchOption};
ghost use Rattle.tp_model.specs.declared.types.Element.{Element as element};
ghost use Rattle.tp_model.specs.Steps.{rows_of, IsServerStage};
ghost use Rattle.tp_rule.specs.Words.{head_of};
ghost use Rattle.tp_rule.specs.declared.packing.Head.TheVariants.{Filled};
ghost use Rattle.tp_rule.specs.Views.{seen_by, view_of, IsSameSeat};
ghost use Rattle.tp_rule.specs.Tables.{table_limits};
ghost use Rattle.tp_manager.specs.CallSteps.{IsSteady};
ghost use Rattle.tp_manager.specs.Bounds.{try_steps};
ghost use Rattle.tp_manager.specs.Leans.{scan_end, IsLean, IsLeanAt};
ghost use Rattle.tp_manager.specs.RowSteps.{try_steps_at};
ghost use Rattle.tp_manager.specs.Marks.{AreOfStage, IsOfStage};
ghost use Rattle.tp_manager.specs.Scans.{Begun, EachRow, IsSpare, PassedBy, Sought, Took};

use crate::manager::Shared;
use crate::row_reads::Birth;
use crate::scanning::Stand;
use crate::seeker::Taken;
use tp_rule::{Head, Seat};

/// What the head of a born element says.
#[inline(always)]
fn birth_of(head: Head) -> Birth
    ensures { (e : element) → head ≡ head_of e → head_of e ≡ Filled result.stage result.root result.by }
{
    match head {
        Head::Filled { stage, root, by } => Birth { stage, root, by },
        // No element has this head.
        Head::Empty => Birth {
            stage: 0,
            root: 0,
            by: None,
        },
        Head::Void => Birth {
            stage: 0,
            root: 0,
            by: None,
        },
    }
}

impl Shared {
    /// The unit takes the element of a row, if that waits: it is known that one of the stage is born there.
    /// This makes a step less than other rows allow, and stands apart, since no parked row comes to it.
    #[inline(never)]
    fn take_born(&self, seat: &mut Seat, row: u32, stage: u8, unit: u16) -> Option<Taken>
        requires steady { IsSteady self.now.words seat.old }
        requires row { row < rows_of (table_limits self.now.words) }
        requires born { IsOfStage stage (seen_by seat.old) row }
        requires stage { IsServerStage stage }
        requires spare { IsSpare unit (view_of seat.old) × (unit < 65535) }
        ensures same { IsSameSeat seat.old seat.new }
        ensures inside { IfSome result (λ t. t.element.id ≡ row) }
        ensures lean { let l = table_limits self.now.words in
            IsLean l (λ a h. try_steps_at stage a h row - 1) (view_of seat.old) (view_of seat.new) }
        ensures told { let l = table_limits self.now.words in let n = try_steps - 1 in MatchOption result
            (Sought l n (EachRow (PassedBy l stage) row (row + 1)) (view_of seat.old) (view_of seat.new))
            (λ t. Took l n row stage unit (view_of seat.old) (view_of seat.new) t.element t.attempt
            × (t.element.root ≡ t.root)) }
    {
        let claim = self.words.load_claim(seat, row);
        let attempts = match self.stand_of(seat, row, claim, false) {
            Stand::Ready { attempts } => attempts,
            Stand::Over => return None,
            Stand::Busy => return None,
        };
        let head = self.head_at(seat, row);
        let birth = birth_of(head);
        let element = self.element_at(seat, row, birth);
        let attempt = attempts + 1;
        match self.words.claim_exchange(seat, row, claim, attempt, unit) {
            Ok(()) => Some(Taken {
                element,
                root: birth.root,
                attempt,
            }),
            Err(_) => None,
        }
    }

    /// The first of these rows whose claim isn't found to be for the last attempt, or else their end. One
    /// look at each row before it, and at it. What is parked is passed by here, so the loop holds no more.
    #[inline(always)]
    fn past_parked(&self, seat: &mut Seat, from: u32, to: u32, stage: u8) -> u32
        requires steady { IsSteady self.now.words seat.old }
        requires rows { (from ≤ to) × (to ≤ rows_of (table_limits self.now.words)) }
        ensures same { IsSameSeat seat.old seat.new }
        ensures row { (from ≤ result) × (result ≤ to) }
        ensures lean { let l = table_limits self.now.words in
            IsLeanAt l stage 0 from (result - from) (view_of seat.old) (view_of seat.new)
            ⊎ ((result < to)
            × IsLeanAt l stage 1 from (result - from) (view_of seat.old) (view_of seat.new)) }
        ensures told { let l = table_limits self.now.words in
            Begun l (PassedBy l stage) (result - from + 1) from result (view_of seat.old) (view_of seat.new) }
    {
        let last = self.places.limits.attempts;
        for row in from..to {
            if !self.words.load_claim(seat, row).is_attempt(last) {
                return row;
            }
        }
        to
    }

    /// The unit takes the first element of these rows that waits, where it is known that one of the stage is
    /// born in each.
    pub(crate) fn scan_born(
        &self,
        seat: &mut Seat,
        from: u32,
        to: u32,
        stage: u8,
        unit: u16,
    ) -> Option<Taken>
        requires steady { IsSteady self.now.words seat.old }
        requires rows { (from ≤ to) × (to ≤ rows_of (table_limits self.now.words)) }
        requires born { AreOfStage stage (seen_by seat.old) from to }
        requires stage { IsServerStage stage }
        requires spare { IsSpare unit (view_of seat.old) × (unit < 65535) }
        ensures same { IsSameSeat seat.old seat.new }
        ensures inside { IfSome result (λ t. t.element.id < to) }
        ensures lean { let l = table_limits self.now.words in
            IsLeanAt l stage 0 from (scan_end to result - from) (view_of seat.old) (view_of seat.new) }
        ensures told { let l = table_limits self.now.words in let n = (to - from) * try_steps in
            MatchOption result
            (Begun l (PassedBy l stage) n from to (view_of seat.old) (view_of seat.new))
            (λ t. Took l n from stage unit (view_of seat.old) (view_of seat.new) t.element t.attempt
            × (t.element.root ≡ t.root)) }
    {
        let mut row = from;
        while row < to {
            row = self.past_parked(seat, row, to, stage);
            if row == to {
                return None;
            }
            if let Some(taken) = self.take_born(seat, row, stage, unit) {
                return Some(taken);
            }
            row += 1;
        }
        None
    }
}
