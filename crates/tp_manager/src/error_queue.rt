//! The next element of the error queue.
ghost use Rattle.std.specs.Prelude.{◌≡◌, ◌⊎◌, ◌+◌, ◌-◌, ◌*◌, ◌<◌, ◌≤◌, ℕ, slice_index, IfSome, MatchOption};
ghost use Rattle.std.specs.Prelude.{Option, true, false};
ghost use Rattle.tp_model.specs.declared.types.Element.{Element as element};
ghost use Rattle.tp_model.specs.Steps.{part_rows, rows_of, IsRowOf};
ghost use Rattle.tp_rule.specs.Views.{seen_by, view_of, IsSameSeat};
ghost use Rattle.tp_rule.specs.Tables.{table_limits};
ghost use Rattle.tp_rule.specs.Words.{head_of};
ghost use Rattle.tp_rule.specs.declared.packing.Head.TheVariants.{Filled};
ghost use Rattle.tp_rule.specs.declared.places.TheConstants.{MARK_KINDS};
ghost use Rattle.tp_rule.specs.Rule.{Concerns};
ghost use Rattle.tp_manager.specs.Shown.{marks_of, IsOf, NoneFalls};
ghost use Rattle.tp_manager.specs.Bounds.{error_steps, listing_steps_left, marked_steps};
ghost use Rattle.tp_manager.specs.Bounds.{next_error_steps, seek_steps, scan_steps, spare_left, unit_looks};
ghost use Rattle.tp_manager.specs.Calls.{Follows, HasLooked, IsQuiet};
ghost use Rattle.tp_manager.specs.Lists.{NoneParked, NextError};
ghost use Rattle.tp_manager.specs.Looks.{GoesOn};
ghost use Rattle.tp_manager.specs.CallSteps.{Acted, IsSteady};
ghost use Rattle.tp_manager.specs.BetweenCalls.{RemembersDrawn};
ghost use Rattle.tp_manager.specs.Marks.{Remembers, Rose};
ghost use Rattle.tp_manager.specs.Scans.{Begun, EachRow};
ghost use Rattle.tp_manager.specs.Scans.{Sought};
ghost use Rattle.tp_manager.specs.UnitsSeen.{RemembersUnits};
ghost use Rattle.tp_manager.specs.Finds.{Finds, HasFate, Hits, PassedOver, parts_walk};
ghost use Rattle.tp_manager.specs.declared.error_queue.Fate.TheVariants as fates;

use crate::error_units::UnitsSeen;
use crate::manager::{Manager, Pass, Shared};
use crate::marking::{Lows, past, past_other};
use crate::row_reads::Contents;
use tp_model::types::REPLY_STAGE;
use tp_rule::{Claim, Head, Seat, UnitWord};

/// How a listing finds an element.
#[derive(Clone, Copy)]
pub(crate) enum Fate {
    /// It is parked.
    Error,
    /// It is consumed or killed.
    Over,
    /// At some moment of the look it wasn't parked.
    Other,
}

#[inline(always)]
fn is_error(fate: Fate) -> bool
    ensures yes { result ≡ true → fate ≡ fates.Error }
    ensures no { result ≡ false → ¬ (fate ≡ fates.Error) }
{
    matches!(fate, Fate::Error)
}

/// The first row that isn't known of no use: this one's element was found so.
#[inline(always)]
fn past_over(low: u32, row: u32, fate: Fate) -> u32
    requires few { row < 65536 }
    ensures moves { (result ≡ low) ⊎ ((result ≡ low + 1) × (low ≡ row) × (fate ≡ fates.Over)) }
{
    match fate {
        Fate::Error => low,
        Fate::Over => past(low, row),
        Fate::Other => low,
    }
}

/// Whether the marks at which a listing starts are about an element with this head.
#[inline(always)]
fn is_listed(head: Head) -> bool
    ensures aside { result ≡ false → (found root : ℕ) (by : Option ℕ) → head ≡ Filled found root by
        → ¬ Concerns 0 found }
    ensures about { result ≡ true → (found root : ℕ) (by : Option ℕ) → head ≡ Filled found root by
        → Concerns 0 found }
{
    match head {
        Head::Empty => false,
        Head::Void => false,
        Head::Filled {
            stage,
            root: _,
            by: _,
        } => stage != REPLY_STAGE,
    }
}

/// The later of two rows.
#[inline(always)]
pub(crate) fn later(row: u32, other: u32) -> u32
    ensures most { (row ≤ result) × (other ≤ result) }
    ensures one { (result ≡ row) ⊎ (result ≡ other) }
{
    if row < other { other } else { row }
}

impl Shared {
    /// How the element of a row is found. At most three steps: where its claim has changed by the third, it
    /// wasn't parked right after the change.
    #[inline(always)]
    fn fate_of(&self, seat: &mut Seat, row: u32) -> Fate
        requires steady { IsSteady self.now.words seat.old }
        requires row { row < rows_of (table_limits self.now.words) }
        ensures same { IsSameSeat seat.old seat.new }
        ensures acted { Acted (table_limits self.now.words) 3 (view_of seat.old) (view_of seat.new) }
        ensures fate { let l = table_limits self.now.words in
            HasFate l row (seen_by seat.old) (seen_by seat.new) result }
    {
        let claim = self.words.load_claim(seat, row);
        match claim.tells {
            Claim::Free => Fate::Other,
            Claim::Again { round: _ } => Fate::Other,
            Claim::Killed {
                attempt: _,
                unit: _,
                round: _,
            } => Fate::Over,
            Claim::Taken {
                attempt,
                unit,
                round: _,
            } => match self.words.load_unit(seat, unit) {
                UnitWord::Undecided => Fate::Other,
                UnitWord::Committed { first: _, count: _ } => Fate::Over,
                UnitWord::Aborted => {
                    if attempt < self.places.limits.attempts {
                        return Fate::Other;
                    }
                    let again = self.words.load_claim(seat, row);
                    if again.tells != claim.tells {
                        return Fate::Other;
                    }
                    Fate::Error
                }
            },
        }
    }

    /// Whether the element of a row is parked; `row` goes on, and so does `low`, the first row that isn't
    /// known of no use, where that is this one. One step where the head says that it isn't.
    #[inline(always)]
    pub(crate) fn is_parked_at(&self, seat: &mut Seat, row: &mut u32, low: &mut u32) -> bool
        requires steady { IsSteady self.now.words seat.old }
        requires row { row.old < rows_of (table_limits self.now.words) }
        requires low { low.old ≤ row.old }
        ensures same { IsSameSeat seat.old seat.new }
        ensures on { GoesOn (table_limits self.now.words) row.old row.new }
        ensures low { (low.new ≤ row.new) × Rose 0 (view_of seat.new) low.old low.new }
        ensures acted { let l = table_limits self.now.words in
            Acted l error_steps (view_of seat.old) (view_of seat.new) }
        ensures yes { result ≡ true → Hits (table_limits self.now.words) row.old (seen_by seat.new) }
        ensures no { result ≡ false → let l = table_limits self.now.words in
            Sought l error_steps (EachRow (PassedOver l) row.old row.new)
            (view_of seat.old) (view_of seat.new) }
    {
        let here = *row;
        let head = self.head_on(seat, row);
        if !is_listed(head) {
            *low = past_other(*low, here, head);
            return false;
        }
        let birth = match self.contents_from(seat, here, head) {
            Contents::Holds(birth) => birth,
            Contents::DeadDraft => {
                *low = past(*low, here);
                return false;
            }
            Contents::Nothing => return false,
        };
        let fate = self.fate_of(seat, here);
        *low = past_over(*low, here, fate);
        is_error(fate)
    }

    /// The first row of the spare blocks, from this one on, whose element is looked for.
    fn find_in_blocks(
        &self,
        seat: &mut Seat,
        lows: &mut Lows,
        drawn: &mut u16,
        from: u32,
    ) -> Option<u32>
        requires steady { IsSteady self.now.words seat.old }
        requires remembers { Remembers 0 (view_of seat.old) lows.old }
        requires drawn { RemembersDrawn (view_of seat.old) drawn.old }
        requires from { let l = table_limits self.now.words in (part_rows l ≤ from) × (from ≤ rows_of l) }
        ensures same { IsSameSeat seat.old seat.new }
        ensures drawn { RemembersDrawn (view_of seat.new) drawn.new }
        ensures risen { drawn.old ≤ drawn.new }
        ensures remembers { Remembers 0 (view_of seat.new) lows.new }
        ensures lows { NoneFalls lows.old lows.new }
        ensures told { let l = table_limits self.now.words in
            let n = spare_left l error_steps (slice_index lows.old l.parts) in let P = PassedOver l in
            MatchOption result
            (Begun l P n from (rows_of l) (view_of seat.old) (view_of seat.new))
            (λ id. (from ≤ id) × (id < rows_of l) × Hits l id (seen_by seat.new)
            × Sought l n (EachRow P from id) (view_of seat.old) (view_of seat.new)) }
    {
        let Some(end) = self.blocks_end(seat, drawn) else {
            return None;
        };
        self.find_spare(seat, lows, end, from)
    }

    /// The first row from this one of a part on whose element is looked for.
    fn find_walking(
        &self,
        seat: &mut Seat,
        lows: &mut Lows,
        drawn: &mut u16,
        part: u16,
        from: u32,
    ) -> Option<u32>
        requires steady { IsSteady self.now.words seat.old }
        requires from { IsRowOf (table_limits self.now.words) part from }
        requires remembers { Remembers 0 (view_of seat.old) lows.old }
        requires drawn { RemembersDrawn (view_of seat.old) drawn.old }
        ensures same { IsSameSeat seat.old seat.new }
        ensures remembers { Remembers 0 (view_of seat.new) lows.new }
        ensures drawn { RemembersDrawn (view_of seat.new) drawn.new }
        ensures risen { drawn.old ≤ drawn.new }
        ensures lows { NoneFalls lows.old lows.new }
        ensures inside { IfSome result (λ id. id < rows_of (table_limits self.now.words)) }
        ensures told { let l = table_limits self.now.words in
            let n = parts_walk l lows.old part + spare_left l error_steps (slice_index lows.old l.parts) in
            Finds l n from (rows_of l) (view_of seat.old) (view_of seat.new) result }
    {
        if let Some(id) = self.find_in_parts(seat, lows, part, from) {
            return Some(id);
        }
        let parts = self.places.part_rows();
        self.find_in_blocks(seat, lows, drawn, parts)
    }

    /// The first row of the spare blocks, from this one on, whose element is looked for. None where none of
    /// them is drawn, or looks at units show it, and else it walks.
    fn find_past_parts(
        &self,
        seat: &mut Seat,
        lows: &mut Lows,
        drawn: &mut u16,
        units: &mut UnitsSeen,
        from: u32,
    ) -> Option<u32>
        requires steady { IsSteady self.now.words seat.old }
        requires remembers { Remembers 0 (view_of seat.old) lows.old }
        requires drawn { RemembersDrawn (view_of seat.old) drawn.old }
        requires units { RemembersUnits (view_of seat.old) units.old.committed }
        requires from { let l = table_limits self.now.words in (part_rows l ≤ from) × (from ≤ rows_of l) }
        ensures same { IsSameSeat seat.old seat.new }
        ensures remembers { Remembers 0 (view_of seat.new) lows.new }
        ensures drawn { RemembersDrawn (view_of seat.new) drawn.new }
        ensures units { RemembersUnits (view_of seat.new) units.new.committed }
        ensures risen { drawn.old ≤ drawn.new }
        ensures lows { NoneFalls lows.old lows.new }
        ensures told { let l = table_limits self.now.words in let P = PassedOver l in
            let n = 1 + (scan_steps l unit_looks 1 lows.old l.parts
            + spare_left l error_steps (slice_index lows.old l.parts)) in MatchOption result
            (Begun l P n from (rows_of l) (view_of seat.old) (view_of seat.new))
            (λ id. (from ≤ id) × (id < rows_of l) × Hits l id (seen_by seat.new)
            × Sought l n (EachRow P from id) (view_of seat.old) (view_of seat.new)) }
    {
        let Some(end) = self.blocks_end(seat, drawn) else {
            return None;
        };
        if end <= from {
            return None;
        }
        if self.none_parked(seat, units, lows) {
            return None;
        }
        self.find_in_blocks(seat, lows, drawn, from)
    }

    /// The first row from this one on whose element is looked for. None where looks at heads or at units show
    /// it, and else it walks. Where only finished rows are left, it walks at once: that is one look.
    fn find(
        &self,
        seat: &mut Seat,
        lows: &mut Lows,
        drawn: &mut u16,
        units: &mut UnitsSeen,
        from: u32,
    ) -> Option<u32>
        requires steady { IsSteady self.now.words seat.old }
        requires from { from < rows_of (table_limits self.now.words) }
        requires remembers { Remembers 0 (view_of seat.old) lows.old }
        requires drawn { RemembersDrawn (view_of seat.old) drawn.old }
        requires units { RemembersUnits (view_of seat.old) units.old.committed }
        ensures same { IsSameSeat seat.old seat.new }
        ensures remembers { Remembers 0 (view_of seat.new) lows.new }
        ensures drawn { RemembersDrawn (view_of seat.new) drawn.new }
        ensures units { RemembersUnits (view_of seat.new) units.new.committed }
        ensures risen { drawn.old ≤ drawn.new }
        ensures lows { NoneFalls lows.old lows.new }
        ensures inside { IfSome result (λ id. id < rows_of (table_limits self.now.words)) }
        ensures told { let l = table_limits self.now.words in
            Finds l (marked_steps l seek_steps lows.old) from (rows_of l)
            (view_of seat.old) (view_of seat.new) result }
    {
        let parts = self.places.part_rows();
        if from >= parts {
            return self.find_past_parts(seat, lows, drawn, units, from);
        }
        let Some((part, row)) = self.first_headed(seat, lows, from) else {
            return self.find_past_parts(seat, lows, drawn, units, parts);
        };
        if self.places.limits.spare == 0 && lows[part as usize] == self.places.limits.rows {
            return self.find_walking(seat, lows, drawn, part, row);
        }
        if self.none_parked(seat, units, lows) {
            return None;
        }
        self.find_walking(seat, lows, drawn, part, row)
    }
}

impl Manager {
    /// The least id from `from` on of an element that was found to be parked, in whatever stage. `None` where
    /// none was found. Each element with a lesser id from there on that was born when the call began to look
    /// wasn't parked at some moment of the call.
    pub fn next_error(&self, pass: &mut Pass, from: u32) -> Option<u32>
        requires own { IsOf self.now pass.old }
        ensures own { IsOf self.now pass.new }
        ensures turn { pass.new.from ≡ pass.old.from }
        ensures follows { Follows (next_error_steps self.now.limits) pass.old pass.new }
        ensures few { Follows (listing_steps_left self.now.limits (marks_of pass.old.lows 0)) pass.old
            pass.new }
        ensures quiet { IsQuiet pass.old pass.new }
        ensures looks { from < rows_of self.now.limits → HasLooked pass.old pass.new }
        ensures inside { IfSome result (λ id. id < rows_of self.now.limits) }
        ensures answer { MatchOption result
            (NoneParked self.now.limits (λ i. from ≤ i) pass.old pass.new)
            (λ id. NextError self.now.limits from id pass.old pass.new) }
    {
        let seat = &mut pass.seat;
        if from >= self.shared.places.rows() {
            return None;
        }
        self.shared.find(
            seat,
            &mut pass.lows[0],
            &mut pass.run.drawn,
            &mut pass.units,
            from,
        )
    }
}
