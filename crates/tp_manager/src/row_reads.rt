//! What a pass finds at a row.
ghost use Rattle.std.specs.Prelude.{◌≡◌, ◌+◌, ◌<◌, ◌≤◌, ℕ, slice_index, Some, IfSome, MatchOption};
ghost use Rattle.std.specs.Prelude.{true, false};
ghost use Rattle.tp_rule.specs.declared.packing.Head.TheVariants.{Empty, Filled};
ghost use Rattle.tp_model.specs.History.{IsUnborn, element_of, status_of};
ghost use Rattle.tp_model.specs.declared.types.Element.{Element};
ghost use Rattle.tp_model.specs.Steps.{block_first, part_rows, rows_of, units_of};
ghost use Rattle.tp_model.specs.Words.{claim_word};
ghost use Rattle.tp_rule.specs.Words.{claim_value, IsFitClaim};
ghost use Rattle.tp_rule.specs.Views.{seen_by, view_of, IsSameSeat};
ghost use Rattle.tp_rule.specs.declared.view.Known.TheVariants.{PartMark};
ghost use Rattle.tp_rule.specs.Tables.{table_limits};
ghost use Rattle.tp_rule.specs.Steps.{IsLow, Knows, MayBeBorn};
ghost use Rattle.tp_rule.specs.declared.places.TheConstants.{MARK_KINDS};
ghost use Rattle.tp_manager.specs.CallSteps.{Acted, IsSteady, Looked};
ghost use Rattle.tp_manager.specs.BetweenCalls.{RemembersDrawn};
ghost use Rattle.tp_manager.specs.Marks.{Remembers, RisesAt};
ghost use Rattle.tp_manager.specs.Scans.{NoneBehind};
ghost use Rattle.tp_manager.specs.Bounds.{body_steps, retry_steps, status_steps};
ghost use Rattle.tp_manager.specs.Looks.{Contains, GoesOn, HeadFound, IsBornAs, IsEnough};

use crate::manager::Shared;
use tp_model::types::{Body, Element, Status};
use tp_rule::{Claim, FoundClaim, Head, Seat, UnitWord};

/// What the head of a born element says.
#[derive(Clone, Copy)]
pub(crate) struct Birth {
    pub stage: u8,
    pub root: u16,
    pub by: Option<u16>,
}

/// What a row holds.
#[derive(Clone, Copy)]
pub(crate) enum Contents {
    /// An element that is born.
    Holds(Birth),
    /// A draft of a unit that was aborted: it is never born.
    DeadDraft,
    /// Nothing that is born by now.
    Nothing,
}

impl Shared {
    /// What the head of a row says. One step.
    #[inline(always)]
    pub(crate) fn head_at(&self, seat: &mut Seat, row: u32) -> Head
        requires steady { IsSteady self.now.words seat.old }
        requires row { row < rows_of (table_limits self.now.words) }
        ensures same { IsSameSeat seat.old seat.new }
        ensures acted { Acted (table_limits self.now.words) 1 (view_of seat.old) (view_of seat.new) }
        ensures told { HeadFound (view_of seat.new) row result }
        ensures none { result ≡ Empty → MayBeBorn (table_limits self.now.words) (seen_by seat.new) row }
    {
        self.words.load_head(seat, row)
    }

    /// What the head of a row says, as a scan goes through the rows: `row` goes on to the next row, or where
    /// the head is empty to the next part or spare block, since nothing is born in between. One step.
    #[inline(always)]
    pub(crate) fn head_on(&self, seat: &mut Seat, row: &mut u32) -> Head
        requires steady { IsSteady self.now.words seat.old }
        requires row { row.old < rows_of (table_limits self.now.words) }
        ensures same { IsSameSeat seat.old seat.new }
        ensures acted { Acted (table_limits self.now.words) 1 (view_of seat.old) (view_of seat.new) }
        ensures told { HeadFound (view_of seat.new) row.old result }
        ensures on { GoesOn (table_limits self.now.words) row.old row.new }
        ensures next { ¬ (result ≡ Empty) → row.new ≡ row.old + 1 }
        ensures none { (i : ℕ) → row.old < i → i < row.new → IsUnborn (seen_by seat.new) i }
        ensures ahead { (i : ℕ) → row.old ≤ i → i < row.new → (i ≡ row.old → result ≡ Empty)
            → MayBeBorn (table_limits self.now.words) (seen_by seat.new) i }
    {
        let here = *row;
        let head = self.head_at(seat, here);
        *row = if head == Head::Empty {
            self.places.area_end(here)
        } else {
            here + 1
        };
        head
    }

    /// The row after the spare blocks that are drawn: nothing is born from there on. One step; none, and
    /// `None`, where there are no spare blocks.
    pub(crate) fn blocks_end(&self, seat: &mut Seat, drawn: &mut u16) -> Option<u32>
        requires steady { IsSteady self.now.words seat.old }
        requires drawn { RemembersDrawn (view_of seat.old) drawn.old }
        ensures same { IsSameSeat seat.old seat.new }
        ensures drawn { RemembersDrawn (view_of seat.new) drawn.new }
        ensures risen { drawn.old ≤ drawn.new }
        ensures end { IfSome result (λ end. end ≡ block_first (table_limits self.now.words) drawn.new) }
        ensures told { let l = table_limits self.now.words in MatchOption result
            ((l.spare ≡ 0) × (seat.new ≡ seat.old))
            (λ end. (0 < l.spare) × Acted l 1 (view_of seat.old) (view_of seat.new)
            × (part_rows l ≤ end) × (end ≤ rows_of l) × NoneBehind l end (view_of seat.new)) }
    {
        if self.places.limits.spare == 0 {
            return None;
        }
        let found = self.words.load_drawn(seat);
        *drawn = found;
        Some(self.places.block_first(found))
    }

    /// What the row holds whose head was just found. At most one more step.
    #[inline(always)]
    pub(crate) fn contents_from(&self, seat: &mut Seat, row: u32, head: Head) -> Contents
        requires steady { IsSteady self.now.words seat.old }
        requires row { row < rows_of (table_limits self.now.words) }
        requires told { HeadFound (view_of seat.old) row head }
        ensures same { IsSameSeat seat.old seat.new }
        ensures looked { Looked (table_limits self.now.words) 1 (view_of seat.old) (view_of seat.new) }
        ensures told { Contains (view_of seat.new) row head result }
    {
        let Head::Filled { stage, root, by } = head else {
            return Contents::Nothing;
        };
        let birth = Birth { stage, root, by };
        let Some(unit) = by else {
            return Contents::Holds(birth);
        };
        if !self.is_unit(unit) {
            return Contents::Nothing;
        }
        match self.words.load_unit(seat, unit) {
            UnitWord::Undecided => Contents::Nothing,
            UnitWord::Aborted => Contents::DeadDraft,
            UnitWord::Committed { first: _, count: _ } => Contents::Holds(birth),
        }
    }

    /// Whether the row whose head was just found has a born element, and what its head says. At most one more
    /// step.
    #[inline(always)]
    pub(crate) fn birth_from(&self, seat: &mut Seat, row: u32, head: Head) -> Option<Birth>
        requires steady { IsSteady self.now.words seat.old }
        requires row { row < rows_of (table_limits self.now.words) }
        requires told { HeadFound (view_of seat.old) row head }
        ensures same { IsSameSeat seat.old seat.new }
        ensures looked { Looked (table_limits self.now.words) 1 (view_of seat.old) (view_of seat.new) }
        ensures told { MatchOption result
            (IsUnborn (seen_by seat.new) row)
            (λ birth. IsBornAs (seen_by seat.new) row birth
            × (head ≡ Filled birth.stage birth.root birth.by)) }
    {
        match self.contents_from(seat, row, head) {
            Contents::Holds(birth) => Some(birth),
            Contents::DeadDraft => None,
            Contents::Nothing => None,
        }
    }

    /// Whether there is a unit with this number.
    #[inline(always)]
    fn is_unit(&self, unit: u16) -> bool
        ensures yes { result ≡ true → unit < units_of (table_limits self.now.words) }
        ensures no { result ≡ false → ¬ (unit < units_of (table_limits self.now.words)) }
    {
        let limits = self.places.limits;
        (unit as u32) < limits.parts as u32 * limits.units as u32
    }

    /// The body of the element of a row, where one is born: a step for each word.
    #[inline(always)]
    fn body_at(&self, seat: &mut Seat, row: u32) -> Body
        requires steady { IsSteady self.now.words seat.old }
        requires row { row < rows_of (table_limits self.now.words) }
        ensures same { IsSameSeat seat.old seat.new }
        ensures looked { Looked (table_limits self.now.words) body_steps (view_of seat.old)
            (view_of seat.new) }
        ensures body { (e : Element) → element_of (seen_by seat.old) row ≡ Some e → result ≡ e.body }
    {
        let key = self.words.load_word(seat, row, 0);
        let second = self.words.load_word(seat, row, 1);
        let third = self.words.load_word(seat, row, 2);
        let last = self.words.load_word(seat, row, 3);
        [key, second, third, last]
    }

    /// The element that is born in the row with this head, with its body.
    #[inline(always)]
    pub(crate) fn element_at(&self, seat: &mut Seat, row: u32, birth: Birth) -> Element
        requires steady { IsSteady self.now.words seat.old }
        requires row { row < rows_of (table_limits self.now.words) }
        requires there { IsBornAs (seen_by seat.old) row birth }
        ensures same { IsSameSeat seat.old seat.new }
        ensures looked { Looked (table_limits self.now.words) body_steps (view_of seat.old)
            (view_of seat.new) }
        ensures born { element_of (seen_by seat.new) row ≡ Some result }
        ensures head { (result.stage ≡ birth.stage) × (result.root ≡ birth.root) × (result.id ≡ row) }
    {
        let body = self.body_at(seat, row);
        Element {
            id: row,
            stage: birth.stage,
            root: birth.root as u32,
            body,
            by: birth.by,
        }
    }

    /// The status of the element of a row, whose claim was just found; there are at most so many further
    /// attempts. At most twice as many steps.
    #[cycle(status)]
    #[inline(always)]
    pub(crate) fn status_from(
        &self,
        seat: &mut Seat,
        row: u32,
        claim: FoundClaim,
        left: u8,
    ) -> Status
        requires steady { IsSteady self.now.words seat.old }
        requires row { row < rows_of (table_limits self.now.words) }
        requires found { (claim_value claim.tells ≡ claim_word (seen_by seat.old) row)
            × IsFitClaim (claim_value claim.tells) }
        requires enough { IsEnough (table_limits self.now.words) left (claim_value claim.tells) }
        ensures same { IsSameSeat seat.old seat.new }
        ensures looked { Looked (table_limits self.now.words) (retry_steps left) (view_of seat.old)
            (view_of seat.new) }
        ensures status { result ≡ status_of (table_limits self.now.words).attempts (seen_by seat.new) row }
    {
        match claim.tells {
            Claim::Free => Status::Waiting { attempts: 0 },
            Claim::Again { round: _ } => Status::Waiting { attempts: 0 },
            Claim::Killed {
                attempt: _,
                unit: _,
                round: _,
            } => Status::Killed,
            Claim::Taken {
                attempt,
                unit,
                round: _,
            } => match self.words.load_unit(seat, unit) {
                UnitWord::Undecided => Status::Held { unit, attempt },
                UnitWord::Committed { first: _, count: _ } => Status::Consumed { unit },
                UnitWord::Aborted => {
                    let again = self.words.load_claim(seat, row);
                    if again.tells != claim.tells {
                        return self.status_again(seat, row, again, left - 1);
                    }
                    if attempt < self.places.limits.attempts {
                        Status::Waiting { attempts: attempt }
                    } else {
                        Status::Parked { attempts: attempt }
                    }
                }
            },
        }
    }

    /// The same, where the claim had changed: apart from `status_from`, which then has no recursion of its
    /// own.
    #[cycle(status)]
    #[cold]
    fn status_again(&self, seat: &mut Seat, row: u32, claim: FoundClaim, left: u8) -> Status
        requires steady { IsSteady self.now.words seat.old }
        requires row { row < rows_of (table_limits self.now.words) }
        requires found { (claim_value claim.tells ≡ claim_word (seen_by seat.old) row)
            × IsFitClaim (claim_value claim.tells) }
        requires enough { IsEnough (table_limits self.now.words) left (claim_value claim.tells) }
        ensures same { IsSameSeat seat.old seat.new }
        ensures looked { Looked (table_limits self.now.words) (retry_steps left) (view_of seat.old)
            (view_of seat.new) }
        ensures status { result ≡ status_of (table_limits self.now.words).attempts (seen_by seat.new) row }
    {
        self.status_from(seat, row, claim, left)
    }

    /// The status of the element of a row. At most one step, and two for each attempt that is allowed in all
    /// rounds.
    #[inline(always)]
    pub(crate) fn status_at(&self, seat: &mut Seat, row: u32) -> Status
        requires steady { IsSteady self.now.words seat.old }
        requires row { row < rows_of (table_limits self.now.words) }
        ensures same { IsSameSeat seat.old seat.new }
        ensures acted { let l = table_limits self.now.words in
            Acted l (status_steps l) (view_of seat.old) (view_of seat.new) }
        ensures status { result ≡ status_of (table_limits self.now.words).attempts (seen_by seat.new) row }
    {
        let claim = self.words.load_claim(seat, row);
        self.status_from(seat, row, claim, self.places.limits.tries())
    }
}
