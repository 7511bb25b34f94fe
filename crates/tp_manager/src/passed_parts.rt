//! Parts that a scan passes by: those that its pass knows finished, and those in which no row has a head.
ghost use Rattle.std.specs.Prelude.{◌≡◌, ◌⊎◌, ℕ, ◌+◌, ◌-◌, ◌*◌, ◌<◌, ◌≤◌, slice_index, true};
ghost use Rattle.std.specs.Prelude.{MatchOption, Option};
ghost use Rattle.tp_model.specs.Steps.{part_rows, IsRowOf, IsServerStage};
ghost use Rattle.tp_rule.specs.Views.{view_of, IsSameSeat};
ghost use Rattle.tp_rule.specs.Tables.{table_limits};
ghost use Rattle.tp_rule.specs.declared.packing.Head.TheVariants.{Filled};
ghost use Rattle.tp_manager.specs.CallSteps.{IsSteady, Looked};
ghost use Rattle.tp_manager.specs.Finds.{HasListed, PassedOver};
ghost use Rattle.tp_manager.specs.Marks.{AreFinished, IsBehind, Remembers, RestsAt, Rose};
ghost use Rattle.tp_manager.specs.Scans.{Begun, EachRow, OfPart, PassedBy, Sought};

use crate::error_queue::later;
use crate::manager::Shared;
use crate::marking::Lows;
use crate::scanning::is_of_stage;
use tp_rule::{Head, Seat};

/// The part at which a scan goes on.
#[derive(Clone, Copy)]
pub(crate) struct NextPart {
    pub part: u16,
    /// Whether its first row was found to be of no use by its head, and more such ones are likely behind it.
    pub aside: bool,
}

/// Whether the head of a row, which has so many before it in its part, is of another stage, and more such
/// ones are likely behind it: it is the part's first. Elsewhere few were mostly added since the last look.
#[inline(always)]
fn begins_leap(low: u16, found: Head, stage: u8) -> bool
    ensures { result ≡ true → (of root : ℕ) (by : Option ℕ) → found ≡ Filled of root by → ¬ (of ≡ stage) }
{
    low == 0 && !is_of_stage(found, stage)
}

impl Shared {
    /// The first part from `from` on that the pass knows finished, or in which a row has a head from the mark
    /// on that it remembers, or else the number of parts. One look at each part before that one, and at it
    /// where it isn't known finished. An Idle claim does little more than this.
    #[inline(always)]
    pub(crate) fn past_bare(&self, seat: &mut Seat, lows: &Lows, from: u16, stage: u8) -> NextPart
        requires steady { IsSteady self.now.words seat.old }
        requires remembers { Remembers stage (view_of seat.old) lows.now }
        requires from { from ≤ (table_limits self.now.words).parts }
        requires stage { IsServerStage stage }
        ensures same { IsSameSeat seat.old seat.new }
        ensures part { (from ≤ result.part) × (result.part ≤ (table_limits self.now.words).parts) }
        ensures left { (q : ℕ) → from ≤ q → q < result.part
            → ¬ (slice_index lows.now q ≡ (table_limits self.now.words).rows) }
        ensures rests { (q : ℕ) → from ≤ q → q < result.part → let l = table_limits self.now.words in
            RestsAt l stage q (slice_index lows.now q) (view_of seat.old) (view_of seat.new) }
        ensures few { let l = table_limits self.now.words in
            Looked l (result.part - from) (view_of seat.old) (view_of seat.new)
            ⊎ ((result.part < l.parts) × ¬ (slice_index lows.now result.part ≡ l.rows)
            × Looked l (result.part - from + 1) (view_of seat.old) (view_of seat.new)) }
        ensures told { let l = table_limits self.now.words in
            Begun l (OfPart l (PassedBy l stage)) (result.part - from + 1) from result.part
            (view_of seat.old) (view_of seat.new) }
        ensures aside { result.aside ≡ true → let l = table_limits self.now.words in
            let n = slice_index lows.now result.part in
            let row = result.part * l.rows + n in
            (n < l.rows) × Rose stage (view_of seat.new) row (row + 1) }
    {
        let limits = self.places.limits;
        let rows = limits.rows as u32;
        let mut first = from as u32 * rows;
        for part in from..limits.parts {
            let low = lows[part as usize];
            if low == limits.rows {
                return NextPart { part, aside: false };
            }
            let found = self.first_head(seat, part, first + low as u32, first + rows);
            if found != Head::Empty {
                return NextPart {
                    part,
                    aside: begins_leap(low, found, stage),
                };
            }
            first += rows;
        }
        NextPart {
            part: limits.parts,
            aside: false,
        }
    }

    /// The first part that has a row which the pass doesn't know finished, or else the last part, where all
    /// before `from` are finished. No step.
    #[inline(always)]
    pub(crate) fn first_open(&self, lows: &Lows, from: u16) -> u16
        requires from { IsBehind (table_limits self.now.words) lows.now from }
        ensures part { result < (table_limits self.now.words).parts }
        ensures finished { AreFinished (table_limits self.now.words) lows.now result }
        ensures open { result + 1 < (table_limits self.now.words).parts
            → ¬ (slice_index lows.now result ≡ (table_limits self.now.words).rows) }
    {
        let limits = self.places.limits;
        let last = limits.parts - 1;
        for part in from..last {
            if lows[part as usize] != limits.rows {
                return part;
            }
        }
        last
    }

    /// The first part from row `from` on in which a row has a head, from the mark on that the pass remembers,
    /// and which it doesn't know finished; and the first of its rows from `from` on. The last part is one
    /// also where it is finished, so that each listing looks. One look at each part up to that one.
    #[inline(always)]
    pub(crate) fn first_headed(&self, seat: &mut Seat, lows: &Lows, from: u32) -> Option<(u16, u32)>
        requires steady { IsSteady self.now.words seat.old }
        requires from { from < part_rows (table_limits self.now.words) }
        requires remembers { Remembers 0 (view_of seat.old) lows.now }
        ensures same { IsSameSeat seat.old seat.new }
        ensures told { let l = table_limits self.now.words in MatchOption result
            (Sought l l.parts (EachRow (PassedOver l) from (part_rows l))
            (view_of seat.old) (view_of seat.new))
            (λ t. IsRowOf l t.0 t.1 × (from ≤ t.1)
            × HasListed l (t.0 + (l.rows - slice_index lows.now t.0)) from t.1 lows.now
            (view_of seat.old) (view_of seat.new)) }
    {
        let limits = self.places.limits;
        let rows = limits.rows as u32;
        let last = limits.parts - 1;
        let mut first = 0;
        for part in 0..self.places.limits.parts {
            let end = first + rows;
            if from < end {
                let low = lows[part as usize];
                if low == limits.rows {
                    if part == last {
                        return Some((part, later(from, first)));
                    }
                } else if !self.is_bare_to(seat, part, first + low as u32, end) {
                    return Some((part, later(from, first)));
                }
            }
            first = end;
        }
        None
    }
}
