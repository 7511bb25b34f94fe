//! The marks: rows that are of no use to any further look of a kind.
ghost use Rattle.std.specs.Prelude.{◌≡◌, ◌⊎◌, ℕ, ◌+◌, ◌-◌, ◌*◌, ◌<◌, ◌≤◌, slice_index, true, false};
ghost use Rattle.tp_model.specs.History.{IsUnborn};
ghost use Rattle.tp_model.specs.Steps.{IsServerStage};
ghost use Rattle.tp_rule.specs.declared.packing.Head.TheVariants.{Empty};
ghost use Rattle.tp_rule.specs.declared.places.TheConstants.{MARK_KINDS};
ghost use Rattle.tp_rule.specs.Views.{seen_by, view_of, IsSameSeat};
ghost use Rattle.tp_rule.specs.Rule.{IsInside};
ghost use Rattle.tp_rule.specs.Steps.{IsLow, Knows, MayBeBorn};
ghost use Rattle.tp_rule.specs.declared.view.Known.TheVariants.{MarkAbove, PartMark, RowHead};
ghost use Rattle.tp_rule.specs.Tables.{table_limits};
ghost use Rattle.tp_manager.specs.CallSteps.{Acted, IsSteady, Looked};
ghost use Rattle.tp_manager.specs.Marks.{Remembers, RisesAt, Rose};

use crate::manager::Shared;
use tp_rule::{Head, Seat};

/// The parts that have a mark of each kind: those of at most 32 passes, and the spare rows as one more.
pub(crate) const MARKED_PARTS: usize = 33;

/// The marks of one kind that a pass remembers, by part.
pub(crate) type Lows = [u16; MARKED_PARTS];

/// The first row that isn't known of no use, where this one's head is of a stage that the marks aren't about,
/// void, or empty.
#[inline(always)]
pub(crate) fn past_other(low: u32, row: u32, head: Head) -> u32
    requires few { row < 65536 }
    ensures moves { (result ≡ low) ⊎ ((result ≡ low + 1) × (low ≡ row) × ¬ (head ≡ Empty)) }
    ensures exact { low ≡ row → ¬ (head ≡ Empty) → result ≡ low + 1 }
{
    match head {
        Head::Empty => low,
        Head::Void => past(low, row),
        Head::Filled {
            stage: _,
            root: _,
            by: _,
        } => past(low, row),
    }
}

/// The first row that isn't known of no use, where this one is.
#[inline(always)]
pub(crate) fn past(low: u32, row: u32) -> u32
    requires few { row < 65536 }
    ensures moves { (result ≡ low) ⊎ ((result ≡ low + 1) × (low ≡ row)) }
    ensures exact { low ≡ row → result ≡ low + 1 }
{
    if low == row { low + 1 } else { low }
}

impl Shared {
    /// The mark of a kind of a part, or of the spare rows where `part` is the number of parts. The pass
    /// remembers it. No row of the part below it has an element of a stage that the kind is about and that
    /// isn't consumed or killed. One step.
    #[inline(always)]
    pub(crate) fn mark_at(&self, seat: &mut Seat, lows: &mut Lows, kind: u8, part: u16) -> u16
        requires steady { IsSteady self.now.words seat.old }
        requires kind { kind < MARK_KINDS }
        requires listed { ¬ IsServerStage kind }
        requires part { part ≤ (table_limits self.now.words).parts }
        requires remembers { Remembers kind (view_of seat.old) lows.old }
        ensures same { IsSameSeat seat.old seat.new }
        ensures acted { Acted (table_limits self.now.words) 1 (view_of seat.old) (view_of seat.new) }
        ensures knows { Knows (view_of seat.new) (PartMark kind part result) }
        ensures remembers { Remembers kind (view_of seat.new) lows.new }
        ensures lows { (slice_index lows.new part ≡ result) × RisesAt part lows.old lows.new }
        ensures low { IsLow (table_limits self.now.words) kind (seen_by seat.new) part result }
    {
        let mark = self.words.load_mark(seat, kind, part);
        lows[part as usize] = mark;
        mark
    }

    /// Raises the mark of a part, or of the spare rows, where the first row that isn't known of no use is
    /// after it. The pass remembers it, but where another pass has raised it meanwhile. At most one step.
    pub(crate) fn raise_to(
        &self,
        seat: &mut Seat,
        lows: &mut Lows,
        kind: u8,
        part: u16,
        mark: u16,
        low: u32,
    )
        requires steady { IsSteady self.now.words seat.old }
        requires kind { kind < MARK_KINDS }
        requires part { part ≤ (table_limits self.now.words).parts }
        requires mark { Knows (view_of seat.old) (PartMark kind part mark)
            × (slice_index lows.old part ≡ mark) }
        requires remembers { Remembers kind (view_of seat.old) lows.old }
        requires low { let l = table_limits self.now.words in IsInside l part (low - part * l.rows)
            × Rose kind (view_of seat.old) (part * l.rows + mark) low }
        ensures same { IsSameSeat seat.old seat.new }
        ensures looked { Looked (table_limits self.now.words) 1 (view_of seat.old) (view_of seat.new) }
        ensures seen { seen_by seat.new ≡ seen_by seat.old }
        ensures remembers { Remembers kind (view_of seat.new) lows.new }
        ensures lows { RisesAt part lows.old lows.new }
        ensures raised { let l = table_limits self.now.words in
            (part * l.rows + slice_index lows.new part ≡ low)
            ⊎ ((slice_index lows.new part ≡ mark) × Knows (view_of seat.new) (MarkAbove kind part mark)) }
    {
        let first = part as u32 * self.places.limits.rows as u32;
        let to = (low - first) as u16;
        if to <= mark {
            return;
        }
        if !self.words.raise(seat, kind, part, mark, to) {
            return;
        }
        lows[part as usize] = to;
    }

    /// The mark of a stage of a part, or of the spare rows where `part` is the number of parts, as it is
    /// in the table. What the pass remembers is that, or what it remembered where that is more: no row of the
    /// part below it has an element of the stage that isn't consumed or killed. One step.
    #[inline(always)]
    pub(crate) fn low_at(&self, seat: &mut Seat, lows: &mut Lows, stage: u8, part: u16) -> u16
        requires steady { IsSteady self.now.words seat.old }
        requires stage { IsServerStage stage }
        requires part { part ≤ (table_limits self.now.words).parts }
        requires remembers { Remembers stage (view_of seat.old) lows.old }
        ensures same { IsSameSeat seat.old seat.new }
        ensures acted { Acted (table_limits self.now.words) 1 (view_of seat.old) (view_of seat.new) }
        ensures knows { Knows (view_of seat.new) (PartMark stage part result) }
        ensures remembers { Remembers stage (view_of seat.new) lows.new }
        ensures lows { RisesAt part lows.old lows.new }
        ensures low { IsLow (table_limits self.now.words) stage (seen_by seat.new) part
            (slice_index lows.new part) }
        ensures rose { let l = table_limits self.now.words in
            Rose stage (view_of seat.new) (part * l.rows + result)
            (part * l.rows + slice_index lows.new part) }
    {
        let mark = self.words.load_mark(seat, stage, part);
        if lows[part as usize] < mark {
            lows[part as usize] = mark;
        }
        mark
    }

    /// Raises the mark of a stage of a part, or of the spare rows, where the first row that isn't known of no
    /// use is after it. The pass remembers that row, also where another pass has raised the mark meanwhile.
    /// At most one step.
    pub(crate) fn raise_low(
        &self,
        seat: &mut Seat,
        lows: &mut Lows,
        stage: u8,
        part: u16,
        mark: u16,
        low: u32,
    )
        requires steady { IsSteady self.now.words seat.old }
        requires stage { IsServerStage stage }
        requires part { part ≤ (table_limits self.now.words).parts }
        requires mark { Knows (view_of seat.old) (PartMark stage part mark)
            × (mark ≤ slice_index lows.old part) }
        requires remembers { Remembers stage (view_of seat.old) lows.old }
        requires low { let l = table_limits self.now.words in IsInside l part (low - part * l.rows)
            × (part * l.rows + slice_index lows.old part ≤ low)
            × Rose stage (view_of seat.old) (part * l.rows + mark) low }
        ensures same { IsSameSeat seat.old seat.new }
        ensures looked { Looked (table_limits self.now.words) 1 (view_of seat.old) (view_of seat.new) }
        ensures seen { seen_by seat.new ≡ seen_by seat.old }
        ensures remembers { Remembers stage (view_of seat.new) lows.new }
        ensures lows { RisesAt part lows.old lows.new }
        ensures rests { part * (table_limits self.now.words).rows + slice_index lows.new part ≡ low }
    {
        let first = part as u32 * self.places.limits.rows as u32;
        let to = (low - first) as u16;
        if to <= mark {
            return;
        }
        let _raised = self.words.raise(seat, stage, part, mark, to);
        lows[part as usize] = to;
    }

    /// Whether this row of a part has no head: then nothing is born in the part from there on. One step; none
    /// where the row is the end of the part.
    #[inline(always)]
    pub(crate) fn is_bare(&self, seat: &mut Seat, part: u16, row: u32) -> bool
        requires steady { IsSteady self.now.words seat.old }
        requires part { part < (table_limits self.now.words).parts }
        requires row { let l = table_limits self.now.words in
            (part * l.rows ≤ row) × (row ≤ part * l.rows + l.rows) }
        ensures same { IsSameSeat seat.old seat.new }
        ensures bare { result ≡ true → let l = table_limits self.now.words in
            Acted l 1 (view_of seat.old) (view_of seat.new)
            × ((i : ℕ) → row ≤ i → i < part * l.rows + l.rows → IsUnborn (seen_by seat.new) i) }
        ensures more { result ≡ false → Looked (table_limits self.now.words) 1 (view_of seat.old)
            (view_of seat.new) }
    {
        let rows = self.places.limits.rows as u32;
        self.is_bare_to(seat, part, row, part as u32 * rows + rows)
    }

    /// The head of this row of a part, whose end is known: where it is empty nothing is born in the part from
    /// there on. One step.
    #[inline(always)]
    pub(crate) fn first_head(&self, seat: &mut Seat, part: u16, row: u32, end: u32) -> Head
        requires steady { IsSteady self.now.words seat.old }
        requires part { part < (table_limits self.now.words).parts }
        requires row { let l = table_limits self.now.words in
            (part * l.rows ≤ row) × (row < end) × (end ≡ part * l.rows + l.rows) }
        ensures same { IsSameSeat seat.old seat.new }
        ensures acted { Acted (table_limits self.now.words) 1 (view_of seat.old) (view_of seat.new) }
        ensures bare { result ≡ Empty → (i : ℕ) → row ≤ i → i < end → IsUnborn (seen_by seat.new) i }
        ensures ahead { result ≡ Empty → MayBeBorn (table_limits self.now.words) (seen_by seat.new) row }
        ensures knows { Knows (view_of seat.new) (RowHead row result) }
    {
        self.words.load_head(seat, row)
    }

    /// The same where the end of the part is known.
    #[inline(always)]
    pub(crate) fn is_bare_to(&self, seat: &mut Seat, part: u16, row: u32, end: u32) -> bool
        requires steady { IsSteady self.now.words seat.old }
        requires part { part < (table_limits self.now.words).parts }
        requires row { let l = table_limits self.now.words in
            (part * l.rows ≤ row) × (row ≤ end) × (end ≡ part * l.rows + l.rows) }
        ensures same { IsSameSeat seat.old seat.new }
        ensures bare { result ≡ true → let l = table_limits self.now.words in
            Acted l 1 (view_of seat.old) (view_of seat.new)
            × ((i : ℕ) → row ≤ i → i < part * l.rows + l.rows → IsUnborn (seen_by seat.new) i) }
        ensures ahead { result ≡ true → MayBeBorn (table_limits self.now.words) (seen_by seat.new) row }
        ensures acted { ¬ (row ≡ end) → Acted (table_limits self.now.words) 1 (view_of seat.old)
            (view_of seat.new) }
        ensures more { result ≡ false → Looked (table_limits self.now.words) 1 (view_of seat.old)
            (view_of seat.new) }
    {
        if row == end {
            return false;
        }
        self.head_at(seat, row) == Head::Empty
    }
}
