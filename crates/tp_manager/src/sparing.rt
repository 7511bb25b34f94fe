//! Looks at the rows of the spare blocks, from their mark on.
ghost use Rattle.std.specs.Prelude.{◌≡◌, ◌+◌, ◌-◌, ◌*◌, ◌<◌, ◌≤◌, slice_index, MatchOption};
ghost use Rattle.tp_model.specs.declared.types.TheConstants.{BLOCK_ROWS};
ghost use Rattle.tp_model.specs.Steps.{part_rows, rows_of, IsServerStage};
ghost use Rattle.tp_rule.specs.Views.{seen_by, view_of, IsSameSeat};
ghost use Rattle.tp_rule.specs.Tables.{table_limits};
ghost use Rattle.tp_manager.specs.CallSteps.{IsSteady};
ghost use Rattle.tp_manager.specs.Bounds.{error_steps, try_steps};
ghost use Rattle.tp_manager.specs.Finds.{Hits, PassedOver};
ghost use Rattle.tp_manager.specs.Leans.{scan_end, IsLeanAt};
ghost use Rattle.tp_manager.specs.Spares.{Passed, SpareRests};
ghost use Rattle.tp_manager.specs.Marks.{Remembers, RemembersGaps, RisesAt};
ghost use Rattle.tp_manager.specs.Scans.{IsSpare, NoneBehind, PassedBy, Took};

use crate::error_queue::later;
use crate::gaps::Gaps;
use crate::manager::Shared;
use crate::marking::Lows;
use crate::seeker::{Seeker, Taken};
use tp_rule::Seat;

impl Shared {
    /// The unit takes the first element of the spare blocks that waits in the stage, where nothing was born
    /// from row `end` on. The scan starts at the mark of the spare rows, and raises it. Behind a row that may
    /// be of use it goes on past their gap.
    pub(crate) fn scan_spare(
        &self,
        seat: &mut Seat,
        lows: &mut Lows,
        gaps: &mut Gaps,
        end: u32,
        stage: u8,
        unit: u16,
    ) -> Option<Taken>
        requires steady { IsSteady self.now.words seat.old }
        requires remembers { Remembers stage (view_of seat.old) lows.old }
        requires gaps { RemembersGaps stage (view_of seat.old) gaps.old }
        requires end { let l = table_limits self.now.words in
            (part_rows l ≤ end) × (end ≤ rows_of l) × NoneBehind l end (view_of seat.old) }
        requires stage { IsServerStage stage }
        requires spare { IsSpare unit (view_of seat.old) × (unit < 65535) }
        ensures same { IsSameSeat seat.old seat.new }
        ensures remembers { Remembers stage (view_of seat.new) lows.new }
        ensures gaps { RemembersGaps stage (view_of seat.new) gaps.new }
        ensures lows { RisesAt (table_limits self.now.words).parts lows.old lows.new }
        ensures rests { let l = table_limits self.now.words in
            SpareRests l stage end (slice_index lows.new l.parts) (view_of seat.old) (view_of seat.new) }
        ensures lean { let l = table_limits self.now.words in
            let n = part_rows l + slice_index lows.old l.parts in
            IsLeanAt l stage 2 n (scan_end end result - n) (view_of seat.old) (view_of seat.new) }
        ensures told { let l = table_limits self.now.words in
            let n = 2 + (BLOCK_ROWS * l.spare - slice_index lows.old l.parts) * try_steps in
            MatchOption result
            (Passed l n (PassedBy l stage) (part_rows l) (rows_of l) (view_of seat.old) (view_of seat.new))
            (λ t. Took l n (part_rows l) stage unit (view_of seat.old) (view_of seat.new) t.element t.attempt
            × (t.element.root ≡ t.root)) }
    {
        let part = self.places.limits.parts;
        let mark = self.low_at(seat, lows, stage, part);
        let begin = self.places.part_rows() + lows[part as usize] as u32;
        let mut low = begin;
        let mut row = begin;
        while row < end {
            let mut born = row;
            if let Some(taken) = self.try_row(seat, &mut row, &mut low, &mut born, stage, unit) {
                self.raise_low(seat, lows, stage, part, mark, low);
                return Some(taken);
            }
            if low < row && row < end {
                self.raise_low(seat, lows, stage, part, mark, low);
                let at = 3 * part as usize;
                let mut gap = (gaps[at], gaps[at + 1], gaps[at + 2]);
                let who = Seeker {
                    stage,
                    unit,
                    done: None,
                };
                let found = self.scan_behind(seat, &mut gap, row, end, who);
                gaps[at] = gap.0;
                gaps[at + 1] = gap.1;
                gaps[at + 2] = gap.2;
                return found;
            }
        }
        self.raise_low(seat, lows, stage, part, mark, low);
        None
    }

    /// The first row of the spare blocks, from one of their rows on, whose element is looked for, where
    /// nothing was born from row `end` on. The scan starts at the mark of the spare rows, if that is further
    /// on, and raises it.
    pub(crate) fn find_spare(
        &self,
        seat: &mut Seat,
        lows: &mut Lows,
        end: u32,
        from: u32,
    ) -> Option<u32>
        requires steady { IsSteady self.now.words seat.old }
        requires remembers { Remembers 0 (view_of seat.old) lows.old }
        requires end { let l = table_limits self.now.words in
            (part_rows l ≤ end) × (end ≤ rows_of l) × NoneBehind l end (view_of seat.old) }
        requires from { let l = table_limits self.now.words in (part_rows l ≤ from) × (from ≤ rows_of l) }
        ensures same { IsSameSeat seat.old seat.new }
        ensures remembers { Remembers 0 (view_of seat.new) lows.new }
        ensures lows { RisesAt (table_limits self.now.words).parts lows.old lows.new }
        ensures told { let l = table_limits self.now.words in let P = PassedOver l in
            let n = 2 + (BLOCK_ROWS * l.spare - slice_index lows.old l.parts) * error_steps in
            MatchOption result
            (Passed l n P from (rows_of l) (view_of seat.old) (view_of seat.new))
            (λ id. (from ≤ id) × (id < rows_of l) × Hits l id (seen_by seat.new)
            × Passed l n P from id (view_of seat.old) (view_of seat.new)) }
    {
        let kind = 0;
        let part = self.places.limits.parts;
        let mark = self.mark_at(seat, lows, kind, part);
        let begin = self.places.part_rows() + mark as u32;
        let mut low = begin;
        let start = later(from, begin);
        let mut row = start;
        while row < end {
            let here = row;
            if self.is_parked_at(seat, &mut row, &mut low) {
                self.raise_to(seat, lows, kind, part, mark, low);
                return Some(here);
            }
        }
        self.raise_to(seat, lows, kind, part, mark, low);
        None
    }
}
