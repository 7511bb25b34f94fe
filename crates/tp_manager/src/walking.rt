//! The walk through a family: from an element to the outputs of the unit that consumed it, and on.
//!
//! It holds the rows that it has come to and not gone on from, takes the least of them, and looks at its
//! element. See docs/CANCEL.md.
ghost use Rattle.tp_model.specs.declared.types.TheConstants.{REPLY_STAGE};
ghost use Rattle.std.specs.Prelude.{◌≡◌, ◌⊎◌, ◌<◌, ◌≤◌, ℕ, None, Some, true, false};
ghost use Rattle.tp_model.specs.declared.types.Element.{Element as element};
ghost use Rattle.tp_model.specs.Families.{IsRequest};
ghost use Rattle.tp_model.specs.History.{status_of};
ghost use Rattle.tp_model.specs.declared.types.Status.TheVariants.{Waiting};
ghost use Rattle.tp_model.specs.Steps.{rows_of};
ghost use Rattle.tp_rule.specs.Steps.{HasElement};
ghost use Rattle.tp_rule.specs.Views.{seen_by, view_of, IsSameSeat};
ghost use Rattle.tp_rule.specs.Tables.{table_limits};
ghost use Rattle.tp_manager.specs.Bounds.{root_steps, stride_steps};
ghost use Rattle.tp_rule.specs.Words.{head_of};
ghost use Rattle.tp_manager.specs.Families.{IsAsked, IsFound, Followed, Listed};
ghost use Rattle.tp_manager.specs.RowSets.{IsEmpty};
ghost use Rattle.tp_manager.specs.CallSteps.{Acted, IsSteady, Looked};

use crate::ahead::Ahead;
use crate::manager::Shared;
use crate::row_set::RowSet;
use std::marker::Model;
use tp_model::types::REPLY_STAGE;
use tp_rule::{Claim, Head, Seat, UnitWord};

/// How many rows a manager has at most: no walk comes to more.
pub(crate) const MAX_ROWS: u32 = 10_240;

/// What a walk finds at an element that it has come to.
#[derive(Clone, Copy)]
pub(crate) enum Found {
    /// A unit consumed it, and has made this many elements, with the ids from `first` on.
    Outputs { first: u16, count: u8 },
    /// It is a reply, and waited.
    Reply,
    /// Neither.
    Nothing,
}

/// Whether an element with this head is a reply.
#[inline(always)]
pub(crate) fn is_reply(head: Head) -> bool
    ensures yes { result ≡ true → (e : element) → head ≡ head_of e → e.stage ≡ REPLY_STAGE }
    ensures no { result ≡ false → (e : element) → head ≡ head_of e → ¬ (e.stage ≡ REPLY_STAGE) }
{
    match head {
        Head::Empty => false,
        Head::Void => false,
        Head::Filled {
            stage,
            root: _,
            by: _,
        } => stage == REPLY_STAGE,
    }
}

/// The least of the ids that were found, or none. It is one number, which a processor keeps at hand.
#[derive(Drop)]
struct Least {
    id: u32,
}

impl Model for Least {
    ghost use Rattle.std.specs.Prelude.{ℕ, Option};
    ghost use Rattle.tp_manager.specs.Aheads.{id_if_any};

    ghost Value = { Option ℕ };

    ghost view = { λ l. id_if_any l.id };
}

impl Least {
    /// None.
    #[inline(always)]
    fn none() -> Least
        ensures { result ≡ None }
    {
        Least { id: u32::MAX }
    }

    /// The id, if there is one.
    #[inline(always)]
    fn id(&self) -> Option<u32>
        ensures { result ≡ self.now }
    {
        if self.id == u32::MAX {
            return None;
        }
        Some(self.id)
    }

    /// With one more: one before `from` doesn't count.
    #[inline(always)]
    fn add(&mut self, from: u32, row: u32)
        requires { row < 12288 }
        ensures fewer { (i : ℕ) → IsAsked from self.new i → IsAsked from self.old i }
        ensures row { ¬ IsAsked from self.new row }
        ensures one { (self.new ≡ self.old) ⊎ ((self.new ≡ Some row) × (from ≤ row)) }
    {
        if from <= row && row < self.id {
            self.id = row;
        }
    }
}

impl Shared {
    /// Whether a client's element is born in the row. One step.
    #[inline(always)]
    pub(crate) fn is_request(&self, seat: &mut Seat, row: u32) -> bool
        requires steady { IsSteady self.now.words seat.old }
        requires row { row < rows_of (table_limits self.now.words) }
        ensures same { IsSameSeat seat.old seat.new }
        ensures acted { Acted (table_limits self.now.words) root_steps (view_of seat.old) (view_of seat.new) }
        ensures yes { result ≡ true → IsRequest (seen_by seat.new) row }
        ensures no { result ≡ false → ¬ IsRequest (seen_by seat.new) row }
    {
        match self.head_at(seat, row) {
            Head::Empty => false,
            Head::Void => false,
            Head::Filled {
                stage: _,
                root: _,
                by,
            } => match by {
                None => true,
                Some(_) => false,
            },
        }
    }

    /// What a walk finds at the element of a row that was found untaken: whether it is a reply. One step.
    #[inline(always)]
    fn look_untaken(&self, seat: &mut Seat, row: u32) -> Found
        requires steady { IsSteady self.now.words seat.old }
        requires row { (row < rows_of (table_limits self.now.words)) × HasElement (seen_by seat.old) row }
        requires waits { status_of (table_limits self.now.words).attempts (seen_by seat.old) row ≡ Waiting 0 }
        ensures same { IsSameSeat seat.old seat.new }
        ensures looked { Looked (table_limits self.now.words) 1 (view_of seat.old) (view_of seat.new) }
        ensures told { IsFound (table_limits self.now.words) row (seen_by seat.old)
            (seen_by seat.new) result }
    {
        let stage = self.words.load_stage(seat, row);
        if stage == REPLY_STAGE {
            Found::Reply
        } else {
            Found::Nothing
        }
    }

    /// What a walk finds at the element that is born in the row. At most two steps.
    #[inline(always)]
    fn look_on(&self, seat: &mut Seat, row: u32) -> Found
        requires steady { IsSteady self.now.words seat.old }
        requires row { (row < rows_of (table_limits self.now.words)) × HasElement (seen_by seat.old) row }
        ensures same { IsSameSeat seat.old seat.new }
        ensures looked { Looked (table_limits self.now.words) stride_steps (view_of seat.old)
            (view_of seat.new) }
        ensures told { IsFound (table_limits self.now.words) row (seen_by seat.old)
            (seen_by seat.new) result }
    {
        let claim = self.words.load_claim(seat, row);
        match claim.tells {
            Claim::Free => self.look_untaken(seat, row),
            Claim::Again { round: _ } => self.look_untaken(seat, row),
            Claim::Killed {
                attempt: _,
                unit: _,
                round: _,
            } => Found::Nothing,
            Claim::Taken {
                attempt: _,
                unit,
                round: _,
            } => match self.words.load_unit(seat, unit) {
                UnitWord::Undecided => Found::Nothing,
                UnitWord::Aborted => Found::Nothing,
                UnitWord::Committed { first, count } => Found::Outputs { first, count },
            },
        }
    }

    /// The least id from this one on of a reply in the family that was found to wait. The set is empty before
    /// and after.
    pub(crate) fn list_family(
        &self,
        seat: &mut Seat,
        rows: &mut RowSet,
        root: u32,
        from: u32,
    ) -> Option<u32>
        requires steady { IsSteady self.now.words seat.old }
        requires request { (root < rows_of (table_limits self.now.words))
            × IsRequest (seen_by seat.old) root }
        requires none { IsEmpty rows.old }
        ensures same { IsSameSeat seat.old seat.new }
        ensures none { IsEmpty rows.new }
        ensures told { Listed (table_limits self.now.words) root from result (view_of seat.old)
            (view_of seat.new) }
    {
        let mut least = Least::none();
        let mut ahead = Ahead::of(root);
        for _past in 0..MAX_ROWS + 1 {
            let Some(row) = ahead.take_least(rows) else {
                return least.id();
            };
            match self.look_on(seat, row) {
                Found::Outputs { first, count } => ahead.insert_rows(rows, first, count),
                Found::Reply => least.add(from, row),
                Found::Nothing => (),
            }
        }
        unreachable!()
    }

    /// The least id from this one on in the family. The set is empty before and after.
    pub(crate) fn first_of_family(
        &self,
        seat: &mut Seat,
        rows: &mut RowSet,
        root: u32,
        from: u32,
    ) -> Option<u32>
        requires steady { IsSteady self.now.words seat.old }
        requires request { (root < rows_of (table_limits self.now.words))
            × IsRequest (seen_by seat.old) root }
        requires none { IsEmpty rows.old }
        ensures same { IsSameSeat seat.old seat.new }
        ensures none { IsEmpty rows.new }
        ensures told { Followed (table_limits self.now.words) root from result (view_of seat.old)
            (view_of seat.new) }
    {
        let mut least = Least::none();
        let mut ahead = Ahead::of(root);
        for _past in 0..MAX_ROWS + 1 {
            let Some(row) = ahead.take_least(rows) else {
                return least.id();
            };
            match self.look_on(seat, row) {
                Found::Outputs { first, count } => ahead.insert_rows(rows, first, count),
                Found::Reply => (),
                Found::Nothing => (),
            }
            least.add(from, row);
        }
        unreachable!()
    }
}
