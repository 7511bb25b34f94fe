//! Gaps: runs of rows of no use to a stage that lie behind a row which may be of use.
ghost use Rattle.std.specs.Prelude.{◌≡◌, ◌⊎◌, ◌+◌, ◌-◌, ◌*◌, ◌<◌, ◌≤◌, slice_index, true};
ghost use Rattle.std.specs.Prelude.{IfSome, MatchOption};
ghost use Rattle.tp_model.specs.Steps.{rows_of, IsServerStage};
ghost use Rattle.tp_rule.specs.Views.{seen_by, view_of, IsSameSeat};
ghost use Rattle.tp_rule.specs.Tables.{table_limits};
ghost use Rattle.tp_manager.specs.CallSteps.{IsSteady};
ghost use Rattle.tp_manager.specs.BetweenCalls.{RemembersDone};
ghost use Rattle.tp_manager.specs.Bounds.{looks_if, try_steps};
ghost use Rattle.tp_manager.specs.Leans.{scan_end, IsLeanAt};
ghost use Rattle.tp_manager.specs.Marks.{AreOfStage, IsGap, Remembers, RemembersGaps};
ghost use Rattle.tp_manager.specs.Marks.{RestsAt, RisesAt, Rose};
ghost use Rattle.tp_manager.specs.Scans.{Begun, IsSpare, OfPart, PassedBy, Sought, Took};
ghost use Rattle.tp_manager.specs.Spares.{Passed};

use crate::error_queue::later;
use crate::manager::Shared;
use crate::marking::{Lows, MARKED_PARTS};
use crate::scanning::past_done;
use crate::seeker::{Seeker, Taken};
use tp_rule::Seat;

/// Two runs of rows beside each other: from the first of these rows on, and below the second, an element of a
/// stage is born in each; from there on, and below the third, a pass knows each of no use to the stage.
pub(crate) type Gap = (u16, u16, u16);

/// The gaps of one stage that a pass remembers, by part: the three rows of each beside each other.
pub(crate) type Gaps = [u16; 3 * MARKED_PARTS];

/// The longer one of a gap and this run of rows of no use, which is taken where they are as long, behind rows
/// of the stage from `born` on.
#[inline(always)]
fn longer(gap: Gap, born: u32, from: u32, to: u32) -> Gap
    requires few { (born < 65536) × (to < 65536) }
    requires run { from ≤ to }
    ensures { (result ≡ gap) ⊎ (result ≡ (born, from, to)) }
{
    if gap.2 as u32 + from <= gap.1 as u32 + to {
        (born as u16, from as u16, to as u16)
    } else {
        gap
    }
}

/// The gap without the rows before this one, or an empty one at this row where none of it is left.
#[inline(always)]
fn left_of(gap: Gap, from: u32) -> Gap
    requires few { from < 65536 }
    ensures { ((result ≡ gap) × (from ≤ gap.1))
        ⊎ ((result ≡ (from, from, gap.2)) × (gap.1 ≤ from) × (from < gap.2))
        ⊎ (result ≡ (from, from, from)) }
{
    if gap.2 as u32 <= from {
        (from as u16, from as u16, from as u16)
    } else if (gap.1 as u32) < from {
        (from as u16, from as u16, gap.2)
    } else {
        gap
    }
}

/// The gap with the rows of the stage from `born` on, where those that it has begin at `first`.
#[inline(always)]
fn from_born(gap: Gap, first: u32, born: u32) -> Gap
    requires few { born < 65536 }
    ensures { ((result ≡ (born, gap.1, gap.2)) × (first ≡ gap.0)) ⊎ (result ≡ gap) }
{
    if first == gap.0 as u32 {
        (born as u16, gap.1, gap.2)
    } else {
        gap
    }
}

/// The later of two rows, but no row after the end.
#[inline(always)]
fn later_to(a: u32, b: u32, end: u32) -> u32
    requires end { b ≤ end }
    ensures { ((result ≡ a) × (b ≤ a) × (a ≤ end)) ⊎ ((result ≡ b) × (a < b))
        ⊎ ((result ≡ end) × (end < a)) }
{
    if a < b {
        b
    } else if end < a {
        end
    } else {
        a
    }
}

impl Shared {
    /// The unit takes the first element of these rows that waits in the stage. What is found of no use isn't
    /// remembered, but `born` becomes the first of the last rows in each of which an element of the stage is
    /// born.
    fn scan_to(
        &self,
        seat: &mut Seat,
        born: &mut u32,
        from: u32,
        to: u32,
        stage: u8,
        unit: u16,
    ) -> Option<Taken>
        requires steady { IsSteady self.now.words seat.old }
        requires rows { (from ≤ to) × (to ≤ rows_of (table_limits self.now.words)) }
        requires born { born.old ≡ from }
        requires stage { IsServerStage stage }
        requires spare { IsSpare unit (view_of seat.old) × (unit < 65535) }
        ensures same { IsSameSeat seat.old seat.new }
        ensures ends { MatchOption result
            ((born.new ≤ rows_of (table_limits self.now.words))
            × AreOfStage stage (seen_by seat.new) born.new to)
            (λ t. t.element.id < to) }
        ensures lean { let l = table_limits self.now.words in
            IsLeanAt l stage 0 from (scan_end to result - from) (view_of seat.old) (view_of seat.new) }
        ensures told { let l = table_limits self.now.words in let n = (to - from) * try_steps in
            MatchOption result
            (Begun l (PassedBy l stage) n from to (view_of seat.old) (view_of seat.new))
            (λ t. Took l n from stage unit (view_of seat.old) (view_of seat.new) t.element t.attempt
            × (t.element.root ≡ t.root)) }
    {
        // Where no row is looked at for what it is to later scans: this one is before all of them.
        let mut low = 0;
        let mut row = from;
        while row < to {
            if let Some(taken) = self.try_row(seat, &mut row, &mut low, born, stage, unit) {
                return Some(taken);
            }
        }
        None
    }

    /// The unit takes the first element of these rows that waits in the stage. The rows from `first` on and
    /// before them are known of no use, and so are those of the gap. The longest such run that the scan comes
    /// to takes the gap's place, unless that is longer, and the rows of the stage before it are remembered
    /// with it.
    fn scan_run(
        &self,
        seat: &mut Seat,
        gap: &mut Gap,
        first: u32,
        from: u32,
        to: u32,
        who: Seeker,
    ) -> Option<Taken>
        requires steady { IsSteady self.now.words seat.old }
        requires rows { (from ≤ to) × (to ≤ rows_of (table_limits self.now.words)) }
        requires gap { IsGap who.stage (view_of seat.old) gap.old }
        requires run { Rose who.stage (view_of seat.old) first from × (first ≤ gap.old.1) }
        requires spare { IsSpare who.unit (view_of seat.old) }
        ensures same { IsSameSeat seat.old seat.new }
        ensures gap { IsGap who.stage (view_of seat.new) gap.new }
        ensures inside { IfSome result (λ t. t.element.id < to) }
        ensures lean { let l = table_limits self.now.words in
            IsLeanAt l who.stage 0 from (scan_end to result - from) (view_of seat.old) (view_of seat.new) }
        ensures told { let l = table_limits self.now.words in let n = (to - from) * try_steps in
            MatchOption result
            (Begun l (PassedBy l who.stage) n from to (view_of seat.old) (view_of seat.new))
            (λ t. Took l n from who.stage who.unit (view_of seat.old) (view_of seat.new) t.element t.attempt
            × (t.element.root ≡ t.root)) }
    {
        let stage = who.stage;
        let unit = who.unit;
        let mut start = gap.0 as u32;
        let mut begin = first;
        let mut low = from;
        let mut born = from;
        let mut row = from;
        while row < to {
            if let Some(taken) = self.try_row(seat, &mut row, &mut low, &mut born, stage, unit) {
                *gap = longer(*gap, start, begin, low);
                return Some(taken);
            }
            if low < row && row < to {
                *gap = longer(*gap, start, begin, low);
                start = born;
                begin = row;
                low = row;
            }
        }
        *gap = longer(*gap, start, begin, low);
        None
    }

    /// The unit takes the first element of these rows that waits in the stage, where a row before them may be
    /// of use. No row of the gap is looked at, nor after it the one that the pass has consumed last. It
    /// stands apart, since most claims come to no such row, and are slower with this among their own code.
    #[inline(never)]
    pub(crate) fn scan_behind(
        &self,
        seat: &mut Seat,
        gap: &mut Gap,
        from: u32,
        to: u32,
        who: Seeker,
    ) -> Option<Taken>
        requires steady { IsSteady self.now.words seat.old }
        requires rows { (from ≤ to) × (to ≤ rows_of (table_limits self.now.words)) }
        requires gap { IsGap who.stage (view_of seat.old) gap.old }
        requires done { RemembersDone (view_of seat.old) who.done }
        requires spare { IsSpare who.unit (view_of seat.old) }
        ensures same { IsSameSeat seat.old seat.new }
        ensures gap { IsGap who.stage (view_of seat.new) gap.new }
        ensures inside { IfSome result (λ t. t.element.id < to) }
        ensures lean { let l = table_limits self.now.words in
            IsLeanAt l who.stage 0 from (scan_end to result - from) (view_of seat.old) (view_of seat.new) }
        ensures told { let l = table_limits self.now.words in let n = (to - from) * try_steps in
            MatchOption result
            (Passed l n (PassedBy l who.stage) from to (view_of seat.old) (view_of seat.new))
            (λ t. Took l n from who.stage who.unit (view_of seat.old) (view_of seat.new) t.element t.attempt
            × (t.element.root ≡ t.root)) }
    {
        let left = left_of(*gap, from);
        *gap = left;
        let begin = later_to(left.1 as u32, from, to);
        let known = later_to(left.2 as u32, from, to);
        let first = later_to(left.0 as u32, from, begin);
        let mut born = from;
        if let Some(taken) = self.scan_to(seat, &mut born, from, first, who.stage, who.unit) {
            return Some(taken);
        }
        *gap = from_born(left, first, born);
        if let Some(taken) = self.scan_born(seat, first, begin, who.stage, who.unit) {
            return Some(taken);
        }
        let next = past_done(known, to, who.done);
        self.scan_run(seat, gap, begin, next, to, who)
    }

    /// The unit takes the first element of a part that waits in the stage. The scan starts at the part's
    /// mark, or at row `next` where that comes later and those between are known of no use; after the row
    /// that the pass has consumed last where that comes first; and it raises the mark. Behind a row that may
    /// be of use it goes on past the part's gap.
    pub(crate) fn scan_from_mark(
        &self,
        seat: &mut Seat,
        lows: &mut Lows,
        gaps: &mut Gaps,
        part: u16,
        next: u32,
        who: Seeker,
    ) -> Option<Taken>
        requires steady { IsSteady self.now.words seat.old }
        requires remembers { Remembers who.stage (view_of seat.old) lows.old }
        requires gaps { RemembersGaps who.stage (view_of seat.old) gaps.old }
        requires part { part < (table_limits self.now.words).parts }
        requires next { let l = table_limits self.now.words in (next ≤ part * l.rows + l.rows)
            × Rose who.stage (view_of seat.old) (part * l.rows + slice_index lows.old part) next }
        requires done { RemembersDone (view_of seat.old) who.done }
        requires spare { IsSpare who.unit (view_of seat.old) }
        ensures same { IsSameSeat seat.old seat.new }
        ensures remembers { Remembers who.stage (view_of seat.new) lows.new }
        ensures gaps { RemembersGaps who.stage (view_of seat.new) gaps.new }
        ensures lows { RisesAt part lows.old lows.new }
        ensures rests { let l = table_limits self.now.words in
            RestsAt l who.stage part (slice_index lows.new part) (view_of seat.old) (view_of seat.new) }
        ensures inside { let l = table_limits self.now.words in
            IfSome result (λ t. t.element.id < part * l.rows + l.rows) }
        ensures behind { IfSome result (λ t. next ≤ t.element.id) }
        ensures lean { let l = table_limits self.now.words in
            let end = scan_end (part * l.rows + l.rows) result in
            IsLeanAt l who.stage 2 next (end - next) (view_of seat.old) (view_of seat.new) }
        ensures told { let l = table_limits self.now.words in
            let n = 2 + (part * l.rows + l.rows - next) * try_steps in MatchOption result
            (Sought l n (OfPart l (PassedBy l who.stage) part) (view_of seat.old) (view_of seat.new))
            (λ t. Took l n (part * l.rows) who.stage who.unit (view_of seat.old)
            (view_of seat.new) t.element t.attempt
            × (t.element.root ≡ t.root)) }
    {
        let stage = who.stage;
        let unit = who.unit;
        let mark = self.low_at(seat, lows, stage, part);
        let rows = self.places.limits.rows as u32;
        let first = part as u32 * rows;
        let end = first + rows;
        let known = later(first + lows[part as usize] as u32, next);
        let begin = past_done(known, end, who.done);
        let mut low = begin;
        let mut row = begin;
        while row < end {
            let mut born = row;
            if let Some(taken) = self.try_row(seat, &mut row, &mut low, &mut born, stage, unit) {
                self.raise_low(seat, lows, stage, part, mark, low);
                return Some(taken);
            }
            if low < row && row < end {
                self.raise_low(seat, lows, stage, part, mark, low);
                let at = 3 * part as usize;
                let mut gap = (gaps[at], gaps[at + 1], gaps[at + 2]);
                let found = self.scan_behind(seat, &mut gap, row, end, who);
                gaps[at] = gap.0;
                gaps[at + 1] = gap.1;
                gaps[at + 2] = gap.2;
                return found;
            }
        }
        self.raise_low(seat, lows, stage, part, mark, low);
        None
    }

    /// The unit takes the first element of a part that waits in the stage. Where the first row that the pass
    /// doesn't know of no use was found to be so by its head (`aside`), the scan leaps over the rows behind
    /// it that tell of other stages.
    #[inline(always)]
    pub(crate) fn scan_part(
        &self,
        seat: &mut Seat,
        lows: &mut Lows,
        gaps: &mut Gaps,
        part: u16,
        aside: bool,
        who: Seeker,
    ) -> Option<Taken>
        requires steady { IsSteady self.now.words seat.old }
        requires remembers { Remembers who.stage (view_of seat.old) lows.old }
        requires gaps { RemembersGaps who.stage (view_of seat.old) gaps.old }
        requires part { part < (table_limits self.now.words).parts }
        requires aside { aside ≡ true → let l = table_limits self.now.words in
            let n = slice_index lows.old part in
            (n < l.rows) × Rose who.stage (view_of seat.old) (part * l.rows + n) (part * l.rows + n + 1) }
        requires done { RemembersDone (view_of seat.old) who.done }
        requires spare { IsSpare who.unit (view_of seat.old) }
        ensures same { IsSameSeat seat.old seat.new }
        ensures remembers { Remembers who.stage (view_of seat.new) lows.new }
        ensures gaps { RemembersGaps who.stage (view_of seat.new) gaps.new }
        ensures lows { RisesAt part lows.old lows.new }
        ensures rests { let l = table_limits self.now.words in
            RestsAt l who.stage part (slice_index lows.new part) (view_of seat.old) (view_of seat.new) }
        ensures inside { let l = table_limits self.now.words in
            IfSome result (λ t. t.element.id < part * l.rows + l.rows) }
        ensures lean { let l = table_limits self.now.words in
            let end = scan_end (part * l.rows + l.rows) result in
            let n = part * l.rows + slice_index lows.old part in
            IsLeanAt l who.stage 2 n (end - n) (view_of seat.old) (view_of seat.new) }
        ensures told { let l = table_limits self.now.words in
            let n = 2 + (l.rows - slice_index lows.old part) * try_steps - looks_if aside in MatchOption result
            (Sought l n (OfPart l (PassedBy l who.stage) part) (view_of seat.old) (view_of seat.new))
            (λ t. Took l n (part * l.rows) who.stage who.unit (view_of seat.old)
            (view_of seat.new) t.element t.attempt
            × (t.element.root ≡ t.root)) }
    {
        let rows = self.places.limits.rows as u32;
        let begin = part as u32 * rows;
        let first = begin + lows[part as usize] as u32;
        // Parts are often as full as the one before.
        let filled = if part == 0 {
            0
        } else {
            lows[part as usize - 1]
        };
        let target = begin + filled as u32;
        let next = self.leap(seat, first, begin + rows, who.stage, aside, target);
        self.scan_from_mark(seat, lows, gaps, part, next, who)
    }
}
