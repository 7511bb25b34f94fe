//! A server's look for work in turn: the rows are a circle.
ghost use Rattle.std.specs.Prelude.{◌≡◌, ◌⊎◌, ◌+◌, ◌-◌, ◌*◌, ◌<◌, ◌≤◌, MatchOption, None, ℕ, slice_index};
ghost use Rattle.tp_model.specs.Steps.{part_rows, rows_of, AreLimits, IsServerStage};
ghost use Rattle.tp_rule.specs.Views.{view_of, IsSameSeat};
ghost use Rattle.tp_rule.specs.Tables.{table_limits};
ghost use Rattle.tp_manager.specs.Bounds.{drawn_steps, claim_next_steps, claim_next_steps_left};
ghost use Rattle.tp_manager.specs.Bounds.{scan_steps, try_steps, circle_steps};
ghost use Rattle.tp_model.specs.declared.types.TheConstants.{BLOCK_ROWS};
ghost use Rattle.tp_manager.specs.Calls.{ClaimsNext, Follows};
ghost use Rattle.tp_manager.specs.Shown.{marks_of, IsOf, NoneFalls};
ghost use Rattle.tp_manager.specs.CallSteps.{IsSteady, StepsTo};
ghost use Rattle.tp_manager.specs.RowSteps.{lean_claim_next_steps, lean_turn_steps};
ghost use Rattle.tp_manager.specs.Leans.{span_steps, IsLean, IsLeanAmong, IsLeanWithin};
ghost use Rattle.tp_manager.specs.Marks.{Remembers};
ghost use Rattle.tp_manager.specs.Scans.{Begun, EachRow, IsSpare, PassedBy};
ghost use Rattle.tp_manager.specs.BetweenCalls.{RemembersDone};
ghost use Rattle.tp_manager.specs.BetweenCalls.{RemembersDrawn};
ghost use Rattle.tp_manager.specs.Marks.{RisesAt};
ghost use Rattle.tp_manager.specs.Scans.{Sought, Took, TookNext};
ghost use Rattle.tp_model.specs.declared.types.Limits.{Limits};
ghost use Rattle.tp_manager.specs.Turns.{EachHasItsTurn};

use crate::manager::{Manager, Pass, Shared, Task};
use crate::marking::Lows;
use crate::scanning::past_done;
use crate::seeker::{Seeker, Taken};
use tp_model::types::{Claimed, Work};
use tp_rule::Seat;

/// The later of two rows.
#[inline(always)]
fn later(a: u32, b: u32) -> u32
    ensures { ((result ≡ a) × (b ≤ a)) ⊎ ((result ≡ b) × (a < b)) }
{
    if a < b { b } else { a }
}

/// The earlier of two rows.
#[inline(always)]
fn earlier(a: u32, b: u32) -> u32
    ensures { ((result ≡ a) × (a ≤ b)) ⊎ ((result ≡ b) × (b < a)) }
{
    if b < a { b } else { a }
}

/// Where a stage's next claim in turn begins.
#[inline(always)]
fn turn_in(places: &[u32; 16], stage: u8) -> u32
    requires stage { IsServerStage stage }
    ensures { result ≡ slice_index places.now stage }
{
    places[stage as usize]
}

/// A stage's next claim in turn begins after this row, and those of other stages where they did.
#[inline(always)]
fn go_on_behind(turns: &mut [u32; 16], stage: u8, row: u32)
    requires stage { IsServerStage stage }
    requires few { row < 65536 }
    ensures turn { slice_index turns.new stage ≡ row + 1 }
    ensures others { (other : ℕ) → ¬ (other ≡ stage)
        → slice_index turns.new other ≡ slice_index turns.old other }
{
    turns[stage as usize] = row + 1;
}

impl Shared {
    /// The unit takes the first element of these rows of a part that waits in the stage. No row below the
    /// part's mark is looked at, and the mark is raised where each row from it on was.
    fn scan_span_from_mark(
        &self,
        seat: &mut Seat,
        lows: &mut Lows,
        part: u16,
        from: u32,
        to: u32,
        who: Seeker,
    ) -> Option<Taken>
        requires steady { IsSteady self.now.words seat.old }
        requires remembers { Remembers who.stage (view_of seat.old) lows.old }
        requires part { part < (table_limits self.now.words).parts }
        requires span { let l = table_limits self.now.words in (part * l.rows ≤ from) × (from ≤ to)
            × (to ≤ part * l.rows + l.rows) }
        requires done { RemembersDone (view_of seat.old) who.done }
        requires spare { IsSpare who.unit (view_of seat.old) }
        ensures same { IsSameSeat seat.old seat.new }
        ensures remembers { Remembers who.stage (view_of seat.new) lows.new }
        ensures lows { RisesAt part lows.old lows.new }
        ensures few { let l = table_limits self.now.words in
            StepsTo (2 + (l.rows - slice_index lows.old part) * try_steps) (view_of seat.old)
            (view_of seat.new) }
        ensures lean { let l = table_limits self.now.words in let n = slice_index lows.old part in
            IsLeanWithin l who.stage 2 (part * l.rows + n) (l.rows - n) from to
            (view_of seat.old) (view_of seat.new) }
        ensures told { let l = table_limits self.now.words in let n = 2 + (to - from) * try_steps in
            MatchOption result
            (Sought l n (EachRow (PassedBy l who.stage) from to) (view_of seat.old) (view_of seat.new))
            (λ t. Took l n from who.stage who.unit (view_of seat.old) (view_of seat.new) t.element t.attempt
            × (t.element.root ≡ t.root)) }
    {
        let stage = who.stage;
        let unit = who.unit;
        let mark = self.low_at(seat, lows, stage, part);
        let rows = self.places.limits.rows as u32;
        let first = part as u32 * rows;
        let known = past_done(first + lows[part as usize] as u32, first + rows, who.done);
        let begin = later(known, from);
        let mut low = known;
        let mut row = begin;
        while row < to {
            let mut born = row;
            if let Some(taken) = self.try_row(seat, &mut row, &mut low, &mut born, stage, unit) {
                self.raise_low(seat, lows, stage, part, mark, low);
                return Some(taken);
            }
        }
        self.raise_low(seat, lows, stage, part, mark, low);
        None
    }

    /// The unit takes the first element of these rows of a part that waits in the stage. One look where no
    /// row has a head from the first of them on, or from the mark on that the pass remembers.
    #[inline(always)]
    fn scan_span(
        &self,
        seat: &mut Seat,
        lows: &mut Lows,
        part: u16,
        from: u32,
        to: u32,
        who: Seeker,
    ) -> Option<Taken>
        requires steady { IsSteady self.now.words seat.old }
        requires remembers { Remembers who.stage (view_of seat.old) lows.old }
        requires part { part < (table_limits self.now.words).parts }
        requires span { let l = table_limits self.now.words in (part * l.rows ≤ from) × (from ≤ to)
            × (to ≤ part * l.rows + l.rows) }
        requires done { RemembersDone (view_of seat.old) who.done }
        requires spare { IsSpare who.unit (view_of seat.old) }
        ensures same { IsSameSeat seat.old seat.new }
        ensures remembers { Remembers who.stage (view_of seat.new) lows.new }
        ensures lows { RisesAt part lows.old lows.new }
        ensures few { let l = table_limits self.now.words in
            StepsTo (3 + (l.rows - slice_index lows.old part) * try_steps) (view_of seat.old)
            (view_of seat.new) }
        ensures lean { let l = table_limits self.now.words in let n = slice_index lows.old part in
            IsLeanWithin l who.stage 3 (part * l.rows + n) (l.rows - n) from to
            (view_of seat.old) (view_of seat.new) }
        ensures told { let l = table_limits self.now.words in let n = 3 + (to - from) * try_steps in
            MatchOption result
            (Sought l n (EachRow (PassedBy l who.stage) from to) (view_of seat.old) (view_of seat.new))
            (λ t. Took l n from who.stage who.unit (view_of seat.old) (view_of seat.new) t.element t.attempt
            × (t.element.root ≡ t.root)) }
    {
        let known = part as u32 * self.places.limits.rows as u32 + lows[part as usize] as u32;
        let begin = later(known, from);
        if self.is_bare(seat, part, begin) {
            return None;
        }
        self.scan_span_from_mark(seat, lows, part, from, to, who)
    }

    /// The unit takes the first element of these rows of the parts that waits in the stage.
    fn scan_spans(
        &self,
        seat: &mut Seat,
        lows: &mut Lows,
        from: u32,
        to: u32,
        who: Seeker,
    ) -> Option<Taken>
        requires steady { IsSteady self.now.words seat.old }
        requires remembers { Remembers who.stage (view_of seat.old) lows.old }
        requires span { (from ≤ to) × (to ≤ part_rows (table_limits self.now.words)) }
        requires done { RemembersDone (view_of seat.old) who.done }
        requires spare { IsSpare who.unit (view_of seat.old) }
        ensures same { IsSameSeat seat.old seat.new }
        ensures remembers { Remembers who.stage (view_of seat.new) lows.new }
        ensures lows { NoneFalls lows.old lows.new }
        ensures few { let l = table_limits self.now.words in
            StepsTo (scan_steps l try_steps 3 lows.old l.parts) (view_of seat.old) (view_of seat.new) }
        ensures lean { let l = table_limits self.now.words in
            IsLeanAmong l who.stage (3 * l.parts) lows.old l.parts from to
            (view_of seat.old) (view_of seat.new) }
        ensures told { let l = table_limits self.now.words in let n = 3 * l.parts + (to - from) * try_steps in
            MatchOption result
            (Begun l (PassedBy l who.stage) n from to (view_of seat.old) (view_of seat.new))
            (λ t. Took l n from who.stage who.unit (view_of seat.old) (view_of seat.new) t.element t.attempt
            × (t.element.root ≡ t.root)) }
    {
        let rows = self.places.limits.rows as u32;
        let mut row = from;
        for part in 0..self.places.limits.parts {
            let end = earlier(part as u32 * rows + rows, to);
            if row < end {
                if let Some(taken) = self.scan_span(seat, lows, part, row, end, who) {
                    return Some(taken);
                }
                row = end;
            }
        }
        None
    }

    /// The unit takes the first element of these rows of the spare blocks that waits in the stage.
    fn scan_block_span(
        &self,
        seat: &mut Seat,
        drawn: &mut u16,
        from: u32,
        to: u32,
        stage: u8,
        unit: u16,
    ) -> Option<Taken>
        requires steady { IsSteady self.now.words seat.old }
        requires drawn { RemembersDrawn (view_of seat.old) drawn.old }
        requires span { let l = table_limits self.now.words in (part_rows l ≤ from) × (from ≤ to)
            × (to ≤ rows_of l) }
        requires stage { IsServerStage stage }
        requires spare { IsSpare unit (view_of seat.old) × (unit < 65535) }
        ensures same { IsSameSeat seat.old seat.new }
        ensures drawn { RemembersDrawn (view_of seat.new) drawn.new }
        ensures risen { drawn.old ≤ drawn.new }
        ensures lean { let l = table_limits self.now.words in
            IsLeanWithin l stage (drawn_steps l.spare) (part_rows l) (BLOCK_ROWS * drawn.new) from to
            (view_of seat.old) (view_of seat.new) }
        ensures told { let l = table_limits self.now.words in
            let n = drawn_steps l.spare + (to - from) * try_steps in MatchOption result
            (Begun l (PassedBy l stage) n from to (view_of seat.old) (view_of seat.new))
            (λ t. Took l n from stage unit (view_of seat.old) (view_of seat.new) t.element t.attempt
            × (t.element.root ≡ t.root)) }
    {
        let Some(drawn_end) = self.blocks_end(seat, drawn) else {
            return None;
        };
        let end = earlier(drawn_end, to);
        // No mark is raised: this row is before all of them.
        let mut low = 0;
        let mut row = from;
        while row < end {
            let mut born = row;
            if let Some(taken) = self.try_row(seat, &mut row, &mut low, &mut born, stage, unit) {
                return Some(taken);
            }
        }
        None
    }

    /// The unit takes the first element of these rows that waits in the stage.
    fn scan_rows(
        &self,
        seat: &mut Seat,
        lows: &mut Lows,
        drawn: &mut u16,
        from: u32,
        to: u32,
        who: Seeker,
    ) -> Option<Taken>
        requires steady { IsSteady self.now.words seat.old }
        requires remembers { Remembers who.stage (view_of seat.old) lows.old }
        requires drawn { RemembersDrawn (view_of seat.old) drawn.old }
        requires span { (from ≤ to) × (to ≤ rows_of (table_limits self.now.words)) }
        requires done { RemembersDone (view_of seat.old) who.done }
        requires spare { IsSpare who.unit (view_of seat.old) }
        ensures same { IsSameSeat seat.old seat.new }
        ensures remembers { Remembers who.stage (view_of seat.new) lows.new }
        ensures drawn { RemembersDrawn (view_of seat.new) drawn.new }
        ensures risen { drawn.old ≤ drawn.new }
        ensures lows { NoneFalls lows.old lows.new }
        ensures few { let l = table_limits self.now.words in let p = part_rows l in
            let n = drawn_steps l.spare + (to - p - (from - p)) * try_steps in
            StepsTo (scan_steps l try_steps 3 lows.old l.parts + n) (view_of seat.old) (view_of seat.new) }
        ensures lean { let l = table_limits self.now.words in
            IsLean l (span_steps l who.stage lows.old drawn.new from to)
            (view_of seat.old) (view_of seat.new) }
        ensures told { let l = table_limits self.now.words in let n = circle_steps l (to - from) in
            MatchOption result
            (Begun l (PassedBy l who.stage) n from to (view_of seat.old) (view_of seat.new))
            (λ t. Took l n from who.stage who.unit (view_of seat.old) (view_of seat.new) t.element t.attempt
            × (t.element.root ≡ t.root)) }
    {
        let parts = self.places.part_rows();
        if from >= parts {
            return self.scan_block_span(seat, drawn, from, to, who.stage, who.unit);
        }
        if to <= parts {
            return self.scan_spans(seat, lows, from, to, who);
        }
        if let Some(taken) = self.scan_spans(seat, lows, from, parts, who) {
            return Some(taken);
        }
        self.scan_block_span(seat, drawn, parts, to, who.stage, who.unit)
    }

    /// The unit takes the first element from row `turn` on that waits in the stage, where the rows are a
    /// circle.
    pub(crate) fn scan_turn(
        &self,
        seat: &mut Seat,
        lows: &mut Lows,
        drawn: &mut u16,
        turn: u32,
        who: Seeker,
    ) -> Option<Taken>
        requires steady { IsSteady self.now.words seat.old }
        requires remembers { Remembers who.stage (view_of seat.old) lows.old }
        requires drawn { RemembersDrawn (view_of seat.old) drawn.old }
        requires done { RemembersDone (view_of seat.old) who.done }
        requires spare { IsSpare who.unit (view_of seat.old) }
        ensures same { IsSameSeat seat.old seat.new }
        ensures remembers { Remembers who.stage (view_of seat.new) lows.new }
        ensures drawn { RemembersDrawn (view_of seat.new) drawn.new }
        ensures risen { drawn.old ≤ drawn.new }
        ensures lows { NoneFalls lows.old lows.new }
        ensures few { let l = table_limits self.now.words in
            let n = 2 * drawn_steps l.spare + BLOCK_ROWS * l.spare * try_steps in
            StepsTo (2 * scan_steps l try_steps 3 lows.old l.parts + n) (view_of seat.old)
            (view_of seat.new) }
        ensures lean { let l = table_limits self.now.words in
            IsLean l (lean_turn_steps l who.stage lows.old drawn.new) (view_of seat.old) (view_of seat.new) }
        ensures told { let l = table_limits self.now.words in
            let n = 6 * l.parts + 2 * drawn_steps l.spare + rows_of l * try_steps in MatchOption result
            (Sought l n (EachRow (PassedBy l who.stage) 0 (rows_of l)) (view_of seat.old) (view_of seat.new))
            (λ t. TookNext l n turn who.stage who.unit (view_of seat.old) (view_of seat.new)
            t.element t.attempt × (t.element.root ≡ t.root)) }
    {
        let rows = self.places.rows();
        let from = earlier(turn, rows);
        if let Some(taken) = self.scan_rows(seat, lows, drawn, from, rows, who) {
            return Some(taken);
        }
        self.scan_rows(seat, lows, drawn, 0, from, who)
    }
}

impl Manager {
    /// Takes an element that waits in the stage, 1 to 14, as `claim` does, but the next one in turn: the
    /// first that is found to wait behind the element which the pass's last `claim_next` of this stage took.
    /// Behind the last id comes the first again.
    pub fn claim_next(&self, pass: &mut Pass, stage: u8) -> Claimed
        requires own { IsOf self.now pass.old }
        requires stage { IsServerStage stage }
        requires free { pass.old.open_unit ≡ None }
        ensures own { IsOf self.now pass.new }
        ensures limits { AreLimits self.now.limits }
        ensures follows { Follows (claim_next_steps self.now.limits) pass.old pass.new }
        ensures few { let n = claim_next_steps_left self.now.limits (marks_of pass.old.lows stage) in
            Follows n pass.old pass.new }
        ensures lean { let lows = marks_of pass.old.lows stage in
            let n = lean_claim_next_steps self.now.limits stage lows pass.new.seen_blocks in
            Follows (n pass.old.seen pass.new.seen) pass.old pass.new }
        ensures answer { ClaimsNext self.now.limits stage pass.old pass.new result }
    {
        let seat = &mut pass.seat;
        let units = self.shared.places.limits.units;
        if pass.used == units {
            return Claimed::NoUnit;
        }
        let unit = pass.number * units + pass.used;
        let turn = turn_in(&pass.from, stage);
        self.shared.words.choose_unit(seat, unit);
        let Some(taken) = self.shared.scan_turn(
            seat,
            &mut pass.lows[stage as usize],
            &mut pass.run.drawn,
            turn,
            Seeker {
                stage,
                unit,
                done: pass.run.done,
            },
        )
        else {
            return Claimed::Idle;
        };
        pass.used += 1;
        go_on_behind(&mut pass.from, stage, taken.element.id);
        pass.task = Some(Task {
            unit,
            root: taken.root,
            row: taken.element.id,
        });
        Claimed::Work(Work {
            unit,
            element: taken.element,
            attempt: taken.attempt,
        })
    }
}

/// Between two takings of one element by a pass's claims in turn each other element of its stage has its
/// turn, whatever stages are claimed between. The function does nothing: its contract is the law.
pub fn turns_come()
    ensures come { (l : Limits) → EachHasItsTurn l }
{}
