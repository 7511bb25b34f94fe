//! Parts whose rows are all of other stages: the last head of each tells it.
ghost use Rattle.std.specs.Prelude.{◌≡◌, ◌⊎◌, ℕ, ◌+◌, ◌-◌, ◌*◌, ◌<◌, ◌≤◌, slice_index, true};
ghost use Rattle.tp_model.specs.Steps.{IsServerStage};
ghost use Rattle.tp_rule.specs.Views.{view_of, IsSameSeat};
ghost use Rattle.tp_rule.specs.Tables.{table_limits};
ghost use Rattle.tp_manager.specs.Shown.{NoneFalls};
ghost use Rattle.tp_manager.specs.Bounds.{looks_if};
ghost use Rattle.tp_manager.specs.CallSteps.{Acted, IsSteady, Looked};
ghost use Rattle.tp_manager.specs.Marks.{Remembers, Rose};
ghost use Rattle.tp_manager.specs.PastParts.{GoesBy};

use crate::manager::Shared;
use crate::marking::Lows;
use crate::passed_parts::NextPart;
use tp_rule::Seat;

impl Shared {
    /// The first part from `from` on that the pass knows finished, or whose last head doesn't tell that all
    /// rows from the mark on that it remembers are of other stages, or else the number of parts. One look at
    /// each part before that one, and at it where it isn't known finished.
    fn past_aside(&self, seat: &mut Seat, lows: &Lows, from: u16, stage: u8) -> u16
        requires steady { IsSteady self.now.words seat.old }
        requires remembers { Remembers stage (view_of seat.old) lows.now }
        requires from { from ≤ (table_limits self.now.words).parts }
        requires stage { IsServerStage stage }
        ensures same { IsSameSeat seat.old seat.new }
        ensures part { (from ≤ result) × (result ≤ (table_limits self.now.words).parts) }
        ensures left { (q : ℕ) → from ≤ q → q < result
            → ¬ (slice_index lows.now q ≡ (table_limits self.now.words).rows) }
        ensures rose { (q : ℕ) → from ≤ q → q < result → let l = table_limits self.now.words in
            Rose stage (view_of seat.new) (q * l.rows + slice_index lows.now q) (q * l.rows + l.rows) }
        ensures few { let l = table_limits self.now.words in
            Looked l (result - from + 1) (view_of seat.old) (view_of seat.new) }
        ensures acted { ((result ≡ from) × (seat.new ≡ seat.old)) ⊎ Acted (table_limits self.now.words)
            (result - from + 1) (view_of seat.old) (view_of seat.new) }
    {
        let limits = self.places.limits;
        let rows = limits.rows as u32;
        let mut first = from as u32 * rows;
        for part in from..limits.parts {
            let low = lows[part as usize];
            if low == limits.rows {
                return part;
            }
            let last = first + rows - 1;
            if !self.tells_of_tail(seat, first + low as u32, last, stage) {
                return part;
            }
            first += rows;
        }
        limits.parts
    }

    /// Raises the marks of these parts to their ends: all their rows are known of no use. At most two steps
    /// a part.
    fn finish_parts(&self, seat: &mut Seat, lows: &mut Lows, from: u16, to: u16, stage: u8)
        requires steady { IsSteady self.now.words seat.old }
        requires stage { IsServerStage stage }
        requires remembers { Remembers stage (view_of seat.old) lows.old }
        requires parts { (from ≤ to) × (to ≤ (table_limits self.now.words).parts) }
        requires rose { (q : ℕ) → from ≤ q → q < to → let l = table_limits self.now.words in
            Rose stage (view_of seat.old) (q * l.rows + slice_index lows.old q) (q * l.rows + l.rows) }
        ensures same { IsSameSeat seat.old seat.new }
        ensures remembers { Remembers stage (view_of seat.new) lows.new }
        ensures finished { (q : ℕ) → from ≤ q → q < to
            → slice_index lows.new q ≡ (table_limits self.now.words).rows }
        ensures others { (q : ℕ) → (q < from) ⊎ (to ≤ q) → slice_index lows.new q ≡ slice_index lows.old q }
        ensures rises { NoneFalls lows.old lows.new }
        ensures none { to ≡ from → seat.new ≡ seat.old }
        ensures few { let l = table_limits self.now.words in
            Looked l (2 * (to - from)) (view_of seat.old) (view_of seat.new) }
    {
        let rows = self.places.limits.rows as u32;
        for part in from..to {
            let mark = self.low_at(seat, lows, stage, part);
            let end = part as u32 * rows + rows;
            self.raise_low(seat, lows, stage, part, mark, end);
        }
    }

    /// The first part from `from` on that isn't full of elements of other stages, or that the pass knows
    /// finished, or else the number of parts; and `from` where that was `tried` before. The marks of those
    /// before it are raised to their ends. All looks at heads come before all raises, since a processor makes
    /// no look beside an exchange.
    #[cold]
    #[inline(never)]
    fn past_full(
        &self,
        seat: &mut Seat,
        lows: &mut Lows,
        from: u16,
        stage: u8,
        tried: &mut bool,
    ) -> u16
        requires steady { IsSteady self.now.words seat.old }
        requires remembers { Remembers stage (view_of seat.old) lows.old }
        requires from { from ≤ (table_limits self.now.words).parts }
        requires stage { IsServerStage stage }
        ensures same { IsSameSeat seat.old seat.new }
        ensures remembers { Remembers stage (view_of seat.new) lows.new }
        ensures once { tried.new ≡ true }
        ensures goes { let n = 3 * (result - from) + (looks_if tried.new - looks_if tried.old) in
            GoesBy (table_limits self.now.words) stage from result n lows.old lows.new
            (view_of seat.old) (view_of seat.new) }
    {
        if *tried {
            return from;
        }
        *tried = true;
        let end = self.past_aside(seat, lows, from, stage);
        self.finish_parts(seat, lows, from, end, stage);
        end
    }

    /// The first part from this one on that isn't full of elements of other stages, if its first row was found
    /// to be of no use by its head and this is the first `tried`: else this part itself.
    #[inline(always)]
    pub(crate) fn past_full_once(
        &self,
        seat: &mut Seat,
        lows: &mut Lows,
        from: NextPart,
        stage: u8,
        tried: &mut bool,
    ) -> u16
        requires steady { IsSteady self.now.words seat.old }
        requires remembers { Remembers stage (view_of seat.old) lows.old }
        requires from { from.part ≤ (table_limits self.now.words).parts }
        requires stage { IsServerStage stage }
        ensures same { IsSameSeat seat.old seat.new }
        ensures remembers { Remembers stage (view_of seat.new) lows.new }
        ensures once { (looks_if tried.old ≤ looks_if tried.new)
            × (looks_if tried.new ≤ looks_if tried.old + looks_if from.aside) }
        ensures goes { let n = 3 * (result - from.part) + (looks_if tried.new - looks_if tried.old) in
            GoesBy (table_limits self.now.words) stage from.part result n lows.old lows.new
            (view_of seat.old) (view_of seat.new) }
    {
        if from.aside {
            self.past_full(seat, lows, from.part, stage, tried)
        } else {
            from.part
        }
    }
}
