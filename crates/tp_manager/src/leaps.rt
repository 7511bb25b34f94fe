//! Leaps over rows of other stages: each head tells how many rows right before it are of its stage.
ghost use Rattle.std.specs.Prelude.{◌≡◌, ◌+◌, ◌-◌, ◌<◌, ◌≤◌, ℕ, Option, true};
ghost use Rattle.tp_model.specs.Steps.{rows_of, IsServerStage};
ghost use Rattle.tp_rule.specs.Views.{view_of, IsSameSeat};
ghost use Rattle.tp_rule.specs.Tables.{table_limits};
ghost use Rattle.tp_rule.specs.declared.packing.Head.TheVariants.{Filled};
ghost use Rattle.tp_manager.specs.CallSteps.{Acted, IsSteady, Looked};
ghost use Rattle.tp_manager.specs.Bounds.{looks_if};
ghost use Rattle.tp_manager.specs.Marks.{Rose};

use crate::manager::Shared;
use tp_rule::{FoundHead, Head, Seat};

/// How many looks there are at most in the leaps over a part: twice as often as its rows can be halved.
const MOST_LOOKS: u32 = 24;

/// The last of `span` rows from this one on and before the end.
#[inline(always)]
fn last_of(row: u32, span: u32, end: u32) -> u32
    requires span { (0 < span) × (row < end) }
    ensures { (row ≤ result) × (result < end) }
{
    if end - row < span {
        end - 1
    } else {
        row + span - 1
    }
}

/// How far to look from this row on, after a leap over so many: up to the target, a row at the target, and
/// behind it twice as far.
#[inline(always)]
fn span_after(row: u32, gone: u32, target: u32) -> u32
    requires few { gone < 65536 }
{
    if row < target {
        target - row
    } else if row == target {
        1
    } else {
        2 * gone
    }
}

/// Whether this head, and those of so many rows right before it, are of another stage.
#[inline(always)]
fn is_tail_aside(found: FoundHead, rows: u32, stage: u8) -> bool
    ensures { result ≡ true → (of : ℕ) × (root : ℕ) × (by : Option ℕ) × (found.tells ≡ Filled of root by)
        × ¬ (of ≡ stage) × (rows ≤ found.tail) }
{
    match found.tells {
        Head::Empty => false,
        Head::Void => false,
        Head::Filled {
            stage: of,
            root: _,
            by: _,
        } => of != stage && rows <= found.tail,
    }
}

impl Shared {
    /// Whether the head of row `at` tells that it and all rows from `row` on before it are of other stages.
    /// One step.
    #[inline(always)]
    pub(crate) fn tells_of_tail(&self, seat: &mut Seat, row: u32, at: u32, stage: u8) -> bool
        requires steady { IsSteady self.now.words seat.old }
        requires rows { (row ≤ at) × (at < rows_of (table_limits self.now.words)) }
        requires stage { IsServerStage stage }
        ensures same { IsSameSeat seat.old seat.new }
        ensures acted { Acted (table_limits self.now.words) 1 (view_of seat.old) (view_of seat.new) }
        ensures aside { result ≡ true → Rose stage (view_of seat.new) row (at + 1) }
    {
        let found = self.words.load_tail(seat, at);
        is_tail_aside(found, at - row, stage)
    }

    /// A row up to which all from `first` on are known of no use to the stage, where this one is. It looks
    /// ahead, as far as row `target` where that comes later, and else twice as far each time, and less far
    /// again where that tells nothing. No more looks tell nothing than there are rows that no look was made
    /// at.
    #[inline(never)]
    fn leap_ahead(&self, seat: &mut Seat, first: u32, end: u32, stage: u8, target: u32) -> u32
        requires steady { IsSteady self.now.words seat.old }
        requires rows { (first < end) × (end ≤ rows_of (table_limits self.now.words)) }
        requires known { Rose stage (view_of seat.old) first (first + 1) }
        requires stage { IsServerStage stage }
        ensures same { IsSameSeat seat.old seat.new }
        ensures end { (first < result) × (result ≤ end) }
        ensures rose { Rose stage (view_of seat.new) first result }
        ensures few { Looked (table_limits self.now.words) (result - first) (view_of seat.old)
            (view_of seat.new) }
    {
        let mut row = first + 1;
        let mut spare = 1;
        let mut span = 2;
        let mut grows = true;
        for _look in 0..MOST_LOOKS {
            if spare == 0 || span == 0 || row == end {
                return row;
            }
            let at = last_of(row, span, end);
            let gone = at - row + 1;
            if self.tells_of_tail(seat, row, at, stage) {
                row += gone;
                spare += gone - 1;
                span = if grows {
                    span_after(row, gone, target)
                } else {
                    gone / 2
                };
                continue;
            }
            spare -= 1;
            grows = false;
            span = gone / 2;
        }
        row
    }

    /// The same, and this row where it isn't known to be of no use.
    #[inline(always)]
    pub(crate) fn leap(
        &self,
        seat: &mut Seat,
        first: u32,
        end: u32,
        stage: u8,
        aside: bool,
        target: u32,
    ) -> u32
        requires steady { IsSteady self.now.words seat.old }
        requires rows { (first ≤ end) × (end ≤ rows_of (table_limits self.now.words)) }
        requires known { aside ≡ true → (first < end) × Rose stage (view_of seat.old) first (first + 1) }
        requires stage { IsServerStage stage }
        ensures same { IsSameSeat seat.old seat.new }
        ensures end { (first + looks_if aside ≤ result) × (result ≤ end) }
        ensures rose { Rose stage (view_of seat.new) first result }
        ensures few { Looked (table_limits self.now.words) (result - first) (view_of seat.old)
            (view_of seat.new) }
    {
        if aside {
            self.leap_ahead(seat, first, end, stage, target)
        } else {
            first
        }
    }
}
