//! A server's look for work.
ghost use Rattle.std.specs.Prelude.{◌≡◌, ◌≢◌, ◌⊎◌, ℕ, ◌+◌, ◌-◌, ◌*◌, ◌<◌, ◌≤◌, slice_index, IfSome};
ghost use Rattle.std.specs.Prelude.{MatchOption, Option, true, false};
ghost use Rattle.tp_model.specs.declared.types.Element.{Element as element};
ghost use Rattle.tp_model.specs.Steps.{block_first, part_rows, rows_of, IsServerStage};
ghost use Rattle.tp_rule.specs.Words.{claim_value, head_of, IsFitClaim};
ghost use Rattle.tp_model.specs.Words.{claim_word, TakenWord};
ghost use Rattle.tp_rule.specs.declared.packing.Head.TheVariants.{Empty, Filled, Void};
ghost use Rattle.tp_rule.specs.declared.places.TheConstants.{MARK_KINDS};
ghost use Rattle.tp_rule.specs.Views.{seen_by, view_of, IsSameSeat};
ghost use Rattle.tp_rule.specs.Steps.{Knows};
ghost use Rattle.tp_rule.specs.declared.view.Known.TheVariants.{PartMark};
ghost use Rattle.tp_rule.specs.Tables.{table_limits};
ghost use Rattle.tp_manager.specs.Bounds.{marked_steps, scan_steps, spare_left, try_steps, drawn_steps};
ghost use Rattle.tp_manager.specs.RowSteps.{lean_scan_steps, parts_left};
ghost use Rattle.tp_manager.specs.Shown.{NoneFalls};
ghost use Rattle.tp_manager.specs.declared.scanning.Stand.TheVariants as stands;
ghost use Rattle.tp_manager.specs.Looks.{GoesOn, HasStand};
ghost use Rattle.tp_manager.specs.Leans.{scan_end, IsLean, IsLeanAt, IsLeanIn};
ghost use Rattle.tp_manager.specs.Spares.{SpareRests};
ghost use Rattle.tp_manager.specs.Marks.{AreOfStage, CameTo, IsBehind, RestInParts};
ghost use Rattle.tp_manager.specs.Marks.{Remembers, RemembersGaps, RisesAt, Rose, WasOfUse, WasUnsettled};
ghost use Rattle.tp_manager.specs.Scans.{Begun, Sought, EachRow, PassedBy, IsSpare, Took};
ghost use Rattle.tp_manager.specs.CallSteps.{IsSteady, Looked};
ghost use Rattle.tp_manager.specs.BetweenCalls.{RemembersDone, RemembersDrawn};

use crate::gaps::Gaps;
use crate::manager::Shared;
use crate::marking::{Lows, past, past_other};
use crate::row_reads::Contents;
use crate::seeker::{Seeker, Taken};
use tp_rule::{Claim, FoundClaim, Head, Seat, UnitWord};

/// How a claim finds an element.
#[derive(Clone, Copy)]
pub(crate) enum Stand {
    /// It was taken so often in its round, and the next attempt may begin while its claim is the one that was
    /// found.
    Ready { attempts: u8 },
    /// It is consumed or killed.
    Over,
    /// It was found not to wait.
    Busy,
}

#[inline(always)]
pub(crate) fn is_of_stage(head: Head, stage: u8) -> bool
    ensures yes { result ≡ true → (e : element) → head ≡ head_of e → e.stage ≡ stage }
    ensures no { result ≡ false → (e : element) → head ≡ head_of e → ¬ (e.stage ≡ stage) }
    ensures full { result ≡ true → (head ≢ Empty) × (head ≢ Void) }
    ensures aside { result ≡ false → (found root : ℕ) (by : Option ℕ) → head ≡ Filled found root by
        → ¬ (found ≡ stage) }
{
    match head {
        Head::Empty => false,
        Head::Void => false,
        Head::Filled {
            stage: found,
            root: _,
            by: _,
        } => found == stage,
    }
}

/// The row after this one, where this is the row that is done and not the end.
#[inline(always)]
pub(crate) fn past_done(row: u32, end: u32, done: Option<u32>) -> u32
    requires { row ≤ end }
    ensures { (result ≡ row) ⊎ ((result ≡ row + 1) × (row < end) × (done ≡ Some row)) }
{
    match done {
        Some(known) if row < end && known == row => row + 1,
        _ => row,
    }
}

impl Shared {
    /// How the element of a row stands, whose claim was just found. At most one step: the word of its unit.
    /// None where the claim is for the last attempt, unless all is to be known of the element: as long as
    /// that claim stands, it doesn't wait.
    #[inline(always)]
    pub(crate) fn stand_of(
        &self,
        seat: &mut Seat,
        row: u32,
        claim: FoundClaim,
        whole: bool,
    ) -> Stand
        requires steady { IsSteady self.now.words seat.old }
        requires row { row < rows_of (table_limits self.now.words) }
        requires found { (claim_value claim.tells ≡ claim_word (seen_by seat.old) row)
            × IsFitClaim (claim_value claim.tells) }
        ensures same { IsSameSeat seat.old seat.new }
        ensures looked { Looked (table_limits self.now.words) 1 (view_of seat.old) (view_of seat.new) }
        ensures stands { HasStand (table_limits self.now.words) row (seen_by seat.old) (seen_by seat.new)
            (claim_value claim.tells) result }
        ensures unsettled { whole ≡ true → ¬ (result ≡ stands.Over) → let l = table_limits self.now.words in
            WasUnsettled l row (seen_by seat.old) (seen_by seat.new) }
        ensures last { whole ≡ false → (n u r : ℕ) → claim_value claim.tells ≡ TakenWord n u r
            → (table_limits self.now.words).attempts ≤ n → seat.new ≡ seat.old }
    {
        match claim.tells {
            Claim::Free => Stand::Ready { attempts: 0 },
            Claim::Again { round: _ } => Stand::Ready { attempts: 0 },
            Claim::Killed {
                attempt: _,
                unit: _,
                round: _,
            } => Stand::Over,
            Claim::Taken {
                attempt,
                unit,
                round: _,
            } => {
                let is_last = attempt >= self.places.limits.attempts;
                if is_last && !whole {
                    return Stand::Busy;
                }
                match self.words.load_unit(seat, unit) {
                    UnitWord::Undecided => Stand::Busy,
                    UnitWord::Committed { first: _, count: _ } => Stand::Over,
                    UnitWord::Aborted => {
                        if is_last {
                            return Stand::Busy;
                        }
                        Stand::Ready { attempts: attempt }
                    }
                }
            }
        }
    }

    /// The unit takes the element of a row, if that waits in the stage; `row` goes on, and so does `low`, the
    /// first row that isn't known finished, where that is this one. `born` is before rows in each of which an
    /// element of the stage is born, and goes on where none is in this row. One step where the head is not of
    /// the stage and the row isn't `low`.
    #[inline(always)]
    pub(crate) fn try_row(
        &self,
        seat: &mut Seat,
        row: &mut u32,
        low: &mut u32,
        born: &mut u32,
        stage: u8,
        unit: u16,
    ) -> Option<Taken>
        requires steady { IsSteady self.now.words seat.old }
        requires row { row.old < rows_of (table_limits self.now.words) }
        requires low { low.old ≤ row.old }
        requires born { (born.old ≤ row.old) × AreOfStage stage (seen_by seat.old) born.old row.old }
        requires stage { IsServerStage stage }
        requires spare { IsSpare unit (view_of seat.old) × (unit < 65535) }
        ensures same { IsSameSeat seat.old seat.new }
        ensures on { GoesOn (table_limits self.now.words) row.old row.new }
        ensures low { (low.new ≤ row.new) × Rose stage (view_of seat.new) low.old low.new }
        ensures born { (born.new ≤ row.new) × AreOfStage stage (seen_by seat.new) born.new row.new }
        ensures stays { low.new < row.new → let l = table_limits self.now.words in
            ((low.old < row.old) × (low.new ≡ low.old))
            ⊎ WasOfUse l stage low.new (seen_by seat.old) (seen_by seat.new) }
        ensures behind { IfSome result (λ t. (low.new < row.new) × (t.element.id ≡ row.old)) }
        ensures lean { let l = table_limits self.now.words in
            IsLeanAt l stage 0 row.old 1 (view_of seat.old) (view_of seat.new) }
        ensures told { let l = table_limits self.now.words in let n = try_steps in MatchOption result
            (Sought l n (EachRow (PassedBy l stage) row.old row.new) (view_of seat.old) (view_of seat.new))
            (λ t. Took l n row.old stage unit (view_of seat.old) (view_of seat.new) t.element t.attempt
            × (t.element.root ≡ t.root)) }
    {
        let here = *row;
        let head = self.head_on(seat, row);
        if !is_of_stage(head, stage) {
            *low = past_other(*low, here, head);
            *born = *row;
            return None;
        }
        let birth = match self.contents_from(seat, here, head) {
            Contents::Holds(birth) => birth,
            Contents::DeadDraft => {
                *low = past(*low, here);
                *born = *row;
                return None;
            }
            Contents::Nothing => {
                *born = *row;
                return None;
            }
        };
        let claim = self.words.load_claim(seat, here);
        let attempts = match self.stand_of(seat, here, claim, here == *low) {
            Stand::Ready { attempts } => attempts,
            Stand::Over => {
                *low = past(*low, here);
                return None;
            }
            Stand::Busy => return None,
        };
        let element = self.element_at(seat, here, birth);
        let attempt = attempts + 1;
        match self.words.claim_exchange(seat, here, claim, attempt, unit) {
            Ok(()) => Some(Taken {
                element,
                root: birth.root,
                attempt,
            }),
            Err(_) => None,
        }
    }

    /// The unit takes the first element of a part that waits in the stage. What the pass knows finished isn't
    /// looked at again, but for the last part, so that each call looks. `begins` goes on to the first part
    /// that isn't known finished.
    fn scan_parts(
        &self,
        seat: &mut Seat,
        lows: &mut Lows,
        gaps: &mut Gaps,
        begins: &mut u16,
        who: Seeker,
    ) -> Option<Taken>
        requires steady { IsSteady self.now.words seat.old }
        requires remembers { Remembers who.stage (view_of seat.old) lows.old }
        requires gaps { RemembersGaps who.stage (view_of seat.old) gaps.old }
        requires begins { IsBehind (table_limits self.now.words) lows.old begins.old }
        requires done { RemembersDone (view_of seat.old) who.done }
        requires spare { IsSpare who.unit (view_of seat.old) }
        ensures same { IsSameSeat seat.old seat.new }
        ensures remembers { Remembers who.stage (view_of seat.new) lows.new }
        ensures gaps { RemembersGaps who.stage (view_of seat.new) gaps.new }
        ensures begins { IsBehind (table_limits self.now.words) lows.new begins.new }
        ensures lows { NoneFalls lows.old lows.new }
        ensures rests { let l = table_limits self.now.words in
            RestInParts l who.stage lows.new (view_of seat.old) (view_of seat.new) result }
        ensures inside { IfSome result (λ t. t.element.id < part_rows (table_limits self.now.words)) }
        ensures lean { let l = table_limits self.now.words in let end = scan_end (part_rows l) result in
            let k = 3 * (parts_left l lows.old l.parts + 1) in
            IsLeanIn l who.stage k lows.old l.parts end (view_of seat.old) (view_of seat.new) }
        ensures told { let l = table_limits self.now.words in
            let n = scan_steps l try_steps 3 lows.old l.parts in MatchOption result
            (Sought l n (EachRow (PassedBy l who.stage) 0 (part_rows l))
            (view_of seat.old) (view_of seat.new))
            (λ t. Took l n 0 who.stage who.unit (view_of seat.old) (view_of seat.new) t.element t.attempt
            × (t.element.root ≡ t.root)) }
    {
        let stage = who.stage;
        let limits = self.places.limits;
        let begin = self.first_open(lows, *begins);
        *begins = begin;
        let last = limits.parts - 1;
        let mut part = begin;
        let mut tried = false;
        while part < limits.parts {
            if lows[part as usize] == limits.rows && part != last {
                part += 1;
                continue;
            }
            let next = self.past_bare(seat, lows, part, stage);
            part = next.part;
            if part == limits.parts {
                return None;
            }
            if lows[part as usize] == limits.rows && part != last {
                part += 1;
                continue;
            }
            let end = self.past_full_once(seat, lows, next, stage, &mut tried);
            if end != part {
                part = end;
                continue;
            }
            if let Some(taken) = self.scan_part(seat, lows, gaps, part, next.aside, who) {
                return Some(taken);
            }
            part += 1;
        }
        None
    }

    /// The unit takes the first element of the spare blocks that waits in the stage.
    fn scan_blocks(
        &self,
        seat: &mut Seat,
        lows: &mut Lows,
        gaps: &mut Gaps,
        drawn: &mut u16,
        stage: u8,
        unit: u16,
    ) -> Option<Taken>
        requires steady { IsSteady self.now.words seat.old }
        requires remembers { Remembers stage (view_of seat.old) lows.old }
        requires gaps { RemembersGaps stage (view_of seat.old) gaps.old }
        requires drawn { RemembersDrawn (view_of seat.old) drawn.old }
        requires stage { IsServerStage stage }
        requires spare { IsSpare unit (view_of seat.old) × (unit < 65535) }
        ensures same { IsSameSeat seat.old seat.new }
        ensures drawn { RemembersDrawn (view_of seat.new) drawn.new }
        ensures risen { drawn.old ≤ drawn.new }
        ensures remembers { Remembers stage (view_of seat.new) lows.new }
        ensures gaps { RemembersGaps stage (view_of seat.new) gaps.new }
        ensures lows { RisesAt (table_limits self.now.words).parts lows.old lows.new }
        ensures rests { let l = table_limits self.now.words in let end = block_first l drawn.new in
            SpareRests l stage end (slice_index lows.new l.parts) (view_of seat.old) (view_of seat.new) }
        ensures lean { let l = table_limits self.now.words in
            let end = scan_end (block_first l drawn.new) result in
            let n = part_rows l + slice_index lows.old l.parts in
            IsLeanAt l stage (3 * drawn_steps l.spare) n (end - n) (view_of seat.old) (view_of seat.new) }
        ensures told { let l = table_limits self.now.words in
            let n = spare_left l try_steps (slice_index lows.old l.parts) in MatchOption result
            (Begun l (PassedBy l stage) n (part_rows l) (rows_of l) (view_of seat.old) (view_of seat.new))
            (λ t. Took l n (part_rows l) stage unit (view_of seat.old) (view_of seat.new) t.element t.attempt
            × (t.element.root ≡ t.root)) }
    {
        let Some(end) = self.blocks_end(seat, drawn) else {
            return None;
        };
        self.scan_spare(seat, lows, gaps, end, stage, unit)
    }

    /// The unit takes the first element that waits in the stage.
    pub(crate) fn scan(
        &self,
        seat: &mut Seat,
        lows: &mut Lows,
        gaps: &mut Gaps,
        begins: &mut u16,
        drawn: &mut u16,
        who: Seeker,
    ) -> Option<Taken>
        requires steady { IsSteady self.now.words seat.old }
        requires remembers { Remembers who.stage (view_of seat.old) lows.old }
        requires gaps { RemembersGaps who.stage (view_of seat.old) gaps.old }
        requires drawn { RemembersDrawn (view_of seat.old) drawn.old }
        requires begins { IsBehind (table_limits self.now.words) lows.old begins.old }
        requires done { RemembersDone (view_of seat.old) who.done }
        requires spare { IsSpare who.unit (view_of seat.old) }
        ensures same { IsSameSeat seat.old seat.new }
        ensures remembers { Remembers who.stage (view_of seat.new) lows.new }
        ensures gaps { RemembersGaps who.stage (view_of seat.new) gaps.new }
        ensures drawn { RemembersDrawn (view_of seat.new) drawn.new }
        ensures risen { drawn.old ≤ drawn.new }
        ensures begins { IsBehind (table_limits self.now.words) lows.new begins.new }
        ensures lows { NoneFalls lows.old lows.new }
        ensures rests { let l = table_limits self.now.words in
            RestInParts l who.stage lows.new (view_of seat.old) (view_of seat.new) result }
        ensures spare { let l = table_limits self.now.words in CameTo (part_rows l) result
            → SpareRests l who.stage
            (block_first l drawn.new) (slice_index lows.new l.parts) (view_of seat.old) (view_of seat.new) }
        ensures lean { let l = table_limits self.now.words in
            let n = lean_scan_steps l who.stage lows.old (scan_end (block_first l drawn.new) result) in
            IsLean l n (view_of seat.old) (view_of seat.new) }
        ensures told { let l = table_limits self.now.words in let t = try_steps in
            let n = marked_steps l t lows.old in MatchOption result
            (Sought l n (EachRow (PassedBy l who.stage) 0 (rows_of l)) (view_of seat.old) (view_of seat.new))
            (λ t. Took l n 0 who.stage who.unit (view_of seat.old) (view_of seat.new) t.element t.attempt
            × (t.element.root ≡ t.root)) }
    {
        if let Some(taken) = self.scan_parts(seat, lows, gaps, begins, who) {
            return Some(taken);
        }
        self.scan_blocks(seat, lows, gaps, drawn, who.stage, who.unit)
    }
}
