//! What is parked in the parts, from their marks on.
ghost use Rattle.std.specs.Prelude.{◌≡◌, ◌+◌, ◌-◌, ◌*◌, slice_index};
ghost use Rattle.tp_model.specs.Steps.{part_rows, IsRowOf};
ghost use Rattle.tp_rule.specs.Views.{view_of, IsSameSeat};
ghost use Rattle.tp_rule.specs.Tables.{table_limits};
ghost use Rattle.tp_manager.specs.Bounds.{error_steps, listed_steps};
ghost use Rattle.tp_manager.specs.CallSteps.{IsSteady};
ghost use Rattle.tp_manager.specs.Finds.{Finds, parts_walk};
ghost use Rattle.tp_manager.specs.Marks.{Remembers, RisesAt};
ghost use Rattle.tp_manager.specs.Shown.{NoneFalls};

use crate::error_queue::later;
use crate::manager::Shared;
use crate::marking::Lows;
use tp_rule::Seat;

impl Shared {
    /// The first row of a part, from one of its rows on, whose element is looked for. The scan starts at the
    /// part's mark, if that is further on, and raises the mark.
    #[inline(never)]
    fn find_from_mark(&self, seat: &mut Seat, lows: &mut Lows, part: u16, from: u32) -> Option<u32>
        requires steady { IsSteady self.now.words seat.old }
        requires from { IsRowOf (table_limits self.now.words) part from }
        requires remembers { Remembers 0 (view_of seat.old) lows.old }
        ensures same { IsSameSeat seat.old seat.new }
        ensures remembers { Remembers 0 (view_of seat.new) lows.new }
        ensures lows { RisesAt part lows.old lows.new }
        ensures told { let l = table_limits self.now.words in
            Finds l (2 + (l.rows - slice_index lows.old part) * error_steps) from (part * l.rows + l.rows)
            (view_of seat.old) (view_of seat.new) result }
    {
        let kind = 0;
        let mark = self.mark_at(seat, lows, kind, part);
        let rows = self.places.limits.rows as u32;
        let first = part as u32 * rows;
        let end = first + rows;
        let mut low = first + mark as u32;
        let start = later(from, low);
        let mut row = start;
        while row < end {
            let here = row;
            if self.is_parked_at(seat, &mut row, &mut low) {
                self.raise_to(seat, lows, kind, part, mark, low);
                return Some(here);
            }
        }
        self.raise_to(seat, lows, kind, part, mark, low);
        None
    }

    /// The first row of a part, from one of its rows on, whose element is looked for. One look where no row
    /// has a head from there on, or from the mark on that the pass remembers. Where the part begins, and how
    /// long it is, is handed down, since a listing that finds nothing does little more than this.
    #[inline(always)]
    fn find_in_part(
        &self,
        seat: &mut Seat,
        lows: &mut Lows,
        part: u16,
        first: u32,
        end: u32,
        from: u32,
    ) -> Option<u32>
        requires steady { IsSteady self.now.words seat.old }
        requires first { let l = table_limits self.now.words in
            (first ≡ part * l.rows) × (end ≡ part * l.rows + l.rows) }
        requires from { IsRowOf (table_limits self.now.words) part from }
        requires remembers { Remembers 0 (view_of seat.old) lows.old }
        ensures same { IsSameSeat seat.old seat.new }
        ensures remembers { Remembers 0 (view_of seat.new) lows.new }
        ensures lows { RisesAt part lows.old lows.new }
        ensures told { let l = table_limits self.now.words in
            Finds l (2 + (l.rows - slice_index lows.old part) * listed_steps) from (part * l.rows + l.rows)
            (view_of seat.old) (view_of seat.new) result }
    {
        let start = later(from, first + lows[part as usize] as u32);
        if start == end {
            return self.find_from_mark(seat, lows, part, from);
        }
        if self.is_bare_to(seat, part, start, end) {
            return None;
        }
        self.find_from_mark(seat, lows, part, from)
    }

    /// The first row from this one of a part on, and of the parts behind it, whose element is looked for.
    /// What the pass knows finished behind this part isn't looked at again, but for the last part.
    pub(crate) fn find_in_parts(
        &self,
        seat: &mut Seat,
        lows: &mut Lows,
        begin: u16,
        from: u32,
    ) -> Option<u32>
        requires steady { IsSteady self.now.words seat.old }
        requires from { IsRowOf (table_limits self.now.words) begin from }
        requires remembers { Remembers 0 (view_of seat.old) lows.old }
        ensures same { IsSameSeat seat.old seat.new }
        ensures remembers { Remembers 0 (view_of seat.new) lows.new }
        ensures lows { NoneFalls lows.old lows.new }
        ensures told { let l = table_limits self.now.words in
            Finds l (parts_walk l lows.old begin) from (part_rows l)
            (view_of seat.old) (view_of seat.new) result }
    {
        if let Some(id) = self.find_from_mark(seat, lows, begin, from) {
            return Some(id);
        }
        let rows = self.places.limits.rows as u32;
        let last = self.places.limits.parts - 1;
        let mut first = begin as u32 * rows + rows;
        for part in begin + 1..self.places.limits.parts {
            let end = first + rows;
            if lows[part as usize] != self.places.limits.rows || part == last {
                if let Some(id) = self.find_in_part(seat, lows, part, first, end, first) {
                    return Some(id);
                }
            }
            first = end;
        }
        None
    }
}
