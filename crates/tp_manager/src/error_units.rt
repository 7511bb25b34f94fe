//! What a pass has seen of units. An element is parked where the last unit that took it is aborted. So where
//! no unit is, a listing of what is parked need not walk over what waits.
ghost use Rattle.std.specs.Prelude.{◌≡◌, ◌⊎◌, ◌+◌, ◌<◌, ◌≤◌, true};
ghost use Rattle.tp_model.specs.Steps.{rows_of};
ghost use Rattle.tp_rule.specs.Tables.{table_limits};
ghost use Rattle.tp_rule.specs.Views.{view_of, IsSameSeat};
ghost use Rattle.tp_manager.specs.Bounds.{scan_steps, unit_looks};
ghost use Rattle.tp_manager.specs.CallSteps.{IsSteady, Looked};
ghost use Rattle.tp_manager.specs.Finds.{PassedOver};
ghost use Rattle.tp_manager.specs.Marks.{Remembers};
ghost use Rattle.tp_manager.specs.Scans.{EachRow, Sought};
ghost use Rattle.tp_manager.specs.UnitsSeen.{NoneAborted, RemembersUnits};

use crate::manager::Shared;
use crate::marking::{Lows, MARKED_PARTS};
use tp_rule::{Seat, UnitWord};

/// The most units that a pass has.
const MOST_UNITS: u16 = 1024;

/// What a pass remembers of units.
#[derive(Clone, Copy)]
pub(crate) struct UnitsSeen {
    /// So many units of each part, from its first one on, are committed. The last one isn't counted, so that
    /// one look at it is left.
    pub committed: [u16; MARKED_PARTS],
    /// Whether a unit is aborted: it stays so.
    pub aborted: bool,
}

/// How far behind the first unknown unit of a part with `all` units the last one was that was found committed,
/// where so many were known `before` and so many are `now`. Of all but the last one it counts that one too.
#[inline(always)]
fn ran(before: u16, now: u16, all: u16) -> u16 {
    let newly = now.saturating_sub(before);
    if now.saturating_add(1) < all {
        newly.saturating_sub(1)
    } else {
        newly
    }
}

/// The earlier of two units.
#[inline(always)]
fn earlier(a: u16, b: u16) -> u16
    ensures { (result ≤ a) × (result ≤ b) × ((result ≡ a) ⊎ (result ≡ b)) }
{
    if b < a { b } else { a }
}

impl Shared {
    /// Whether a look at one unit of a part shows that none of the part is aborted: the one that is `ahead`
    /// behind the first which isn't known to be committed. A pass takes its units in order: so where one is
    /// undecided, no later one was taken. And a committed one tells how many right before it are: at the last
    /// one that shows it too, and the next look at the part needs to be at no other. At most one step.
    #[inline(always)]
    fn shows_none_aborted(
        &self,
        seat: &mut Seat,
        units: &mut UnitsSeen,
        part: u16,
        ahead: u16,
    ) -> bool
        requires steady { IsSteady self.now.words seat.old }
        requires part { part < (table_limits self.now.words).parts }
        requires few { ahead ≤ 1024 }
        requires remembers { RemembersUnits (view_of seat.old) units.old.committed }
        ensures same { IsSameSeat seat.old seat.new }
        ensures remembers { RemembersUnits (view_of seat.new) units.new.committed }
        ensures looked { Looked (table_limits self.now.words) 1 (view_of seat.old) (view_of seat.new) }
        ensures none { result ≡ true → let l = table_limits self.now.words in
            Sought l 1 (EachRow (NoneAborted l) part (part + 1)) (view_of seat.old) (view_of seat.new) }
    {
        let all = self.places.limits.units;
        let count = units.committed[part as usize];
        if count >= all {
            return false;
        }
        let at = earlier(count + ahead, all - 1);
        let found = self.words.load_unit_tail(seat, part * all + at);
        match found.tells {
            UnitWord::Undecided => at <= count,
            UnitWord::Aborted => {
                units.aborted = true;
                false
            }
            UnitWord::Committed { first: _, count: _ } => {
                if found.tail < (at - count) as u64 {
                    return false;
                }
                if at + 1 == all {
                    // So many are known already where the look is at the first unknown one.
                    if at != count {
                        units.committed[part as usize] = at;
                    }
                    return true;
                }
                units.committed[part as usize] = at + 1;
                false
            }
        }
    }

    /// Whether the pass knows the rows of all parts but the last one finished: then a walk has little to do.
    fn is_walked(&self, lows: &Lows) -> bool {
        for part in 1..self.places.limits.parts {
            if lows[part as usize - 1] != self.places.limits.rows {
                return false;
            }
        }
        true
    }

    /// Whether at most so many looks show that none of the part is aborted. The first one is so far `ahead`;
    /// the next ones are four times as far each time, and half as far again where one tells nothing.
    #[inline(never)]
    fn none_aborted(
        &self,
        seat: &mut Seat,
        units: &mut UnitsSeen,
        part: u16,
        most: u16,
        first: u16,
    ) -> bool
        requires steady { IsSteady self.now.words seat.old }
        requires part { part < (table_limits self.now.words).parts }
        requires remembers { RemembersUnits (view_of seat.old) units.old.committed }
        ensures same { IsSameSeat seat.old seat.new }
        ensures remembers { RemembersUnits (view_of seat.new) units.new.committed }
        ensures looked { Looked (table_limits self.now.words) most (view_of seat.old) (view_of seat.new) }
        ensures none { result ≡ true → let l = table_limits self.now.words in
            Sought l most (EachRow (NoneAborted l) part (part + 1)) (view_of seat.old) (view_of seat.new) }
    {
        let mut ahead = earlier(first, MOST_UNITS);
        let mut next = if first == 0 { 1 } else { 0 };
        let mut grows = true;
        for _look in 0..most {
            let before = units.committed[part as usize];
            if self.shows_none_aborted(seat, units, part, ahead) {
                return true;
            }
            if units.aborted {
                return false;
            }
            grows = grows && units.committed[part as usize] != before;
            ahead = if grows { next } else { ahead / 2 };
            next = earlier(4 * next + 3, MOST_UNITS);
        }
        false
    }

    /// Whether looks at units show that nothing was parked when the first of them was made. In each part one,
    /// and one more for each row that a walk would come to, as far as the pass knows: where more units were
    /// committed since the last listing, a walk finds as many rows finished, and raises the marks over them.
    pub(crate) fn none_parked(&self, seat: &mut Seat, units: &mut UnitsSeen, lows: &Lows) -> bool
        requires steady { IsSteady self.now.words seat.old }
        requires remembers { RemembersUnits (view_of seat.old) units.old.committed }
        requires marks { Remembers 0 (view_of seat.old) lows.now }
        ensures same { IsSameSeat seat.old seat.new }
        ensures remembers { RemembersUnits (view_of seat.new) units.new.committed }
        ensures looked { let l = table_limits self.now.words in
            Looked l (scan_steps l unit_looks 1 lows.now l.parts) (view_of seat.old) (view_of seat.new) }
        ensures none { result ≡ true → let l = table_limits self.now.words in
            Sought l (scan_steps l unit_looks 1 lows.now l.parts) (EachRow (PassedOver l) 0 (rows_of l))
            (view_of seat.old) (view_of seat.new) }
    {
        if units.aborted || self.is_walked(lows) {
            return false;
        }
        let rows = self.places.limits.rows;
        let all = self.places.limits.units;
        let mut ahead = 0;
        for part in 0..self.places.limits.parts {
            if self.shows_none_aborted(seat, units, part, 0) {
                continue;
            }
            let left = rows - lows[part as usize];
            let before = units.committed[part as usize];
            if !self.none_aborted(seat, units, part, left, ahead) {
                return false;
            }
            ahead = ran(before, units.committed[part as usize], all);
        }
        true
    }
}
