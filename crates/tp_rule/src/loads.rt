//! Loads. Each shows the seat the history so far.
ghost use Rattle.std.specs.Prelude.{ℕ, ◌≡◌, ◌<◌, ◌≤◌, [], Option, Some, slice_index};
ghost use Rattle.tp_model.specs.declared.types.TheConstants.{BODY_WORDS};
ghost use Rattle.tp_model.specs.declared.types.Element.{Element};
ghost use Rattle.tp_model.specs.declared.trace.StepKind.TheVariants as kinds;
ghost use Rattle.tp_model.specs.History.{IsUnborn, element_of, end_of};
ghost use Rattle.tp_model.specs.Words.{claim_word};
ghost use Rattle.tp_model.specs.Steps.{rows_of, units_of};
ghost use Rattle.tp_rule.specs.Words.{claim_value, unit_value, head_of, IsFitClaim};
ghost use Rattle.tp_rule.specs.Places.{size_of};
ghost use Rattle.tp_rule.specs.declared.places.TheConstants.{MARK_KINDS};
ghost use Rattle.tp_rule.specs.declared.packing.Head.TheVariants.{Empty, Filled};
ghost use Rattle.tp_rule.specs.Rule.{AreCommitted, IsDraft};
ghost use Rattle.tp_rule.specs.Views.{seen_by, view_of, HasPass, IsSameSeat};
ghost use Rattle.tp_rule.specs.Steps.{AreInOrder, IsLow, Loads, Grew, Knows, MayBeBorn, NoneDrawn, Shares};
ghost use Rattle.tp_rule.specs.Steps.{unchanged};
ghost use Rattle.tp_rule.specs.declared.view.Known.TheVariants.{RowHead, RowTail, PartMark, BlocksDrawn};

use crate::bits::{HEAD_TAIL, UNIT_TAIL};
use crate::found::{FoundClaim, FoundHead, FoundUnit};
use crate::packing::{Head, UnitWord};
use crate::plays::{Load, LoadDrawn, LoadHead, LoadMark, LoadUnit};
use crate::seat::Seat;
use crate::words::Words;

impl Words {
    ghost use Rattle.tp_rule.specs.Tables.{table_limits, IsSeatOf, IsPassOf};

    /// Reads the word at a place. The seat may stand for several passes: each has one more entry in its
    /// trace.
    #[inline(always)]
    pub fn load(&self, seat: &mut Seat, word: usize) -> u64
        requires own { IsSeatOf self.now seat.old }
        requires inside { word < size_of (table_limits self.now) }
        requires pass { HasPass (view_of seat.old) }
        ensures same { IsSameSeat seat.old seat.new }
        ensures looks { Loads (view_of seat.old) word result (view_of seat.new) }
    {
        self.table.load::<Load>(seat, word)
    }

    /// Reads the head of a row. Where an element is born in what is then seen, it is that element's head.
    /// Where none is, it is empty or names a unit: a draft is no element before its unit commits. The seat
    /// remembers what it found: a head that isn't empty stays. Where it is empty, no element is born in the
    /// later rows of its part, or of its spare block, nor did its pass make one in a block behind that.
    #[inline(always)]
    pub fn load_head(&self, seat: &mut Seat, row: u32) -> Head
        requires own { IsSeatOf self.now seat.old }
        requires one { IsPassOf self.now seat.old }
        requires row { row < rows_of (table_limits self.now) }
        ensures same { IsSameSeat seat.old seat.new }
        ensures grew { Grew kinds.Load unchanged [] (view_of seat.old) (view_of seat.new) }
        ensures born { (e : Element) → element_of (seen_by seat.new) row ≡ Some e → result ≡ head_of e }
        ensures draft { IsUnborn (seen_by seat.new) row → IsDraft result }
        ensures knows { Knows (view_of seat.new) (RowHead row result) }
        ensures none { result ≡ Empty → MayBeBorn (table_limits self.now) (seen_by seat.new) row }
    {
        self.load_tail(seat, row).tells
    }

    /// The same, and the tail of the head where the row has one: so many rows right before it have heads of
    /// its stage, and the seat remembers that too.
    #[inline(always)]
    pub fn load_tail(&self, seat: &mut Seat, row: u32) -> FoundHead
        requires own { IsSeatOf self.now seat.old }
        requires one { IsPassOf self.now seat.old }
        requires row { row < rows_of (table_limits self.now) }
        ensures same { IsSameSeat seat.old seat.new }
        ensures grew { Grew kinds.Load unchanged [] (view_of seat.old) (view_of seat.new) }
        ensures born { (e : Element) → element_of (seen_by seat.new) row ≡ Some e → result.tells ≡ head_of e }
        ensures draft { IsUnborn (seen_by seat.new) row → IsDraft result.tells }
        ensures knows { Knows (view_of seat.new) (RowHead row result.tells) }
        ensures none { result.tells ≡ Empty → MayBeBorn (table_limits self.now) (seen_by seat.new) row }
        ensures tail { (stage root : ℕ) (by : Option ℕ) → result.tells ≡ Filled stage root by
            → Knows (view_of seat.new) (RowTail row stage result.tail) }
    {
        let word = self.places.head(row);
        let found = self.table.load::<LoadHead>(seat, word);
        FoundHead {
            tells: Head::read(found % HEAD_TAIL),
            tail: (found / HEAD_TAIL) as u32,
        }
    }

    /// Reads the stage in the head of a row: that of its element, where one is born.
    #[inline(always)]
    pub fn load_stage(&self, seat: &mut Seat, row: u32) -> u8
        requires own { IsSeatOf self.now seat.old }
        requires one { IsPassOf self.now seat.old }
        requires row { row < rows_of (table_limits self.now) }
        ensures same { IsSameSeat seat.old seat.new }
        ensures grew { Grew kinds.Load unchanged [] (view_of seat.old) (view_of seat.new) }
        ensures born { (e : Element) → element_of (seen_by seat.new) row ≡ Some e → result ≡ e.stage }
    {
        let word = self.places.head(row);
        let found = self.table.load::<LoadHead>(seat, word);
        Head::stage(found % HEAD_TAIL)
    }

    /// Reads a word of the body of a row: that of its element, where one is born.
    #[inline(always)]
    pub fn load_word(&self, seat: &mut Seat, row: u32, word: usize) -> u64
        requires own { IsSeatOf self.now seat.old }
        requires one { IsPassOf self.now seat.old }
        requires row { row < rows_of (table_limits self.now) }
        requires word { word < BODY_WORDS }
        ensures same { IsSameSeat seat.old seat.new }
        ensures grew { Grew kinds.Load unchanged [] (view_of seat.old) (view_of seat.new) }
        ensures born { (e : Element) → element_of (seen_by seat.new) row ≡ Some e
            → result ≡ slice_index e.body word }
    {
        let place = self.places.body(row, word);
        self.load(seat, place)
    }

    /// Reads the claim of a row: which unit took its element last, for which time, and whether it was killed.
    #[inline(always)]
    pub fn load_claim(&self, seat: &mut Seat, row: u32) -> FoundClaim
        requires own { IsSeatOf self.now seat.old }
        requires one { IsPassOf self.now seat.old }
        requires row { row < rows_of (table_limits self.now) }
        ensures same { IsSameSeat seat.old seat.new }
        ensures grew { Grew kinds.Load unchanged [] (view_of seat.old) (view_of seat.new) }
        ensures claim { claim_value result.tells ≡ claim_word (seen_by seat.new) row }
        ensures fits { IsFitClaim (claim_value result.tells) }
    {
        let word = self.places.claim(row);
        let found = self.load(seat, word);
        FoundClaim::read(found)
    }

    /// Reads the word of a unit: how it ended, or that it is undecided. Each pass takes its units in order:
    /// so where one is undecided, no later one was taken.
    #[inline(always)]
    pub fn load_unit(&self, seat: &mut Seat, unit: u16) -> UnitWord
        requires own { IsSeatOf self.now seat.old }
        requires one { IsPassOf self.now seat.old }
        requires unit { unit < units_of (table_limits self.now) }
        ensures same { IsSameSeat seat.old seat.new }
        ensures grew { Grew kinds.Load unchanged [] (view_of seat.old) (view_of seat.new) }
        ensures end { unit_value result ≡ end_of (seen_by seat.new) unit }
        ensures order { AreInOrder (table_limits self.now) (seen_by seat.new) }
    {
        self.load_unit_tail(seat, unit).tells
    }

    /// The same, and the tail of a committed unit: so many units right before it are committed.
    #[inline(always)]
    pub fn load_unit_tail(&self, seat: &mut Seat, unit: u16) -> FoundUnit
        requires own { IsSeatOf self.now seat.old }
        requires one { IsPassOf self.now seat.old }
        requires unit { unit < units_of (table_limits self.now) }
        ensures same { IsSameSeat seat.old seat.new }
        ensures grew { Grew kinds.Load unchanged [] (view_of seat.old) (view_of seat.new) }
        ensures end { unit_value result.tells ≡ end_of (seen_by seat.new) unit }
        ensures order { AreInOrder (table_limits self.now) (seen_by seat.new) }
        ensures before { AreCommitted (seen_by seat.new) unit result.tail }
    {
        let word = self.places.unit(unit);
        let found = self.table.load::<LoadUnit>(seat, word);
        FoundUnit {
            tells: UnitWord::read(found % UNIT_TAIL),
            tail: found / UNIT_TAIL,
        }
    }

    /// Reads the mark of a kind of a part, or of the spare rows where `part` is the number of parts. The seat
    /// remembers it. No row of the part below it has an element of a stage that this kind is about and that
    /// isn't consumed or killed, neither now nor at any later time.
    #[inline(always)]
    pub fn load_mark(&self, seat: &mut Seat, kind: u8, part: u16) -> u16
        requires own { IsSeatOf self.now seat.old }
        requires one { IsPassOf self.now seat.old }
        requires kind { kind < MARK_KINDS }
        requires part { part ≤ (table_limits self.now).parts }
        ensures same { IsSameSeat seat.old seat.new }
        ensures grew { Grew kinds.Load unchanged [] (view_of seat.old) (view_of seat.new) }
        ensures knows { Knows (view_of seat.new) (PartMark kind part result) }
        ensures low { IsLow (table_limits self.now) kind (seen_by seat.new) part result }
        ensures rises { (n : ℕ) → Knows (view_of seat.old) (PartMark kind part n) → n ≤ result }
    {
        let word = self.places.mark(kind, part);
        let found = self.table.load::<LoadMark>(seat, word);
        found as u16
    }

    /// Reads how many spare blocks are drawn, and the seat remembers it: they never get fewer. In the blocks
    /// from that one on no element is born.
    #[inline(always)]
    pub fn load_drawn(&self, seat: &mut Seat) -> u16
        requires own { IsSeatOf self.now seat.old }
        requires one { IsPassOf self.now seat.old }
        ensures same { IsSameSeat seat.old seat.new }
        ensures grew { Grew kinds.Load unchanged [] (view_of seat.old) (view_of seat.new) }
        ensures knows { Knows (view_of seat.new) (BlocksDrawn result) }
        ensures inside { result ≤ (table_limits self.now).spare }
        ensures none { NoneDrawn (table_limits self.now) (seen_by seat.new) result }
        ensures rises { (n : ℕ) → Knows (view_of seat.old) (BlocksDrawn n) → n ≤ result }
    {
        self.load_drawn_together(seat)
    }

    /// Reads that number by a seat that may stand for several passes, each of which has one more entry in its
    /// trace. Each block that one of them has drawn is below it, and no other pass's. Where the seat stands
    /// for every pass, each block below it is one that a pass has drawn.
    #[inline(always)]
    pub fn load_drawn_together(&self, seat: &mut Seat) -> u16
        requires own { IsSeatOf self.now seat.old }
        requires pass { HasPass (view_of seat.old) }
        requires limits { (view_of seat.old).limits ≡ table_limits self.now }
        ensures same { IsSameSeat seat.old seat.new }
        ensures grew { Grew kinds.Load unchanged [] (view_of seat.old) (view_of seat.new) }
        ensures knows { Knows (view_of seat.new) (BlocksDrawn result) }
        ensures inside { result ≤ (table_limits self.now).spare }
        ensures none { NoneDrawn (table_limits self.now) (seen_by seat.new) result }
        ensures rises { (n : ℕ) → Knows (view_of seat.old) (BlocksDrawn n) → n ≤ result }
        ensures shares { Shares result (view_of seat.new) }
    {
        let word = self.places.drawn();
        let drawn = self.table.load::<LoadDrawn>(seat, word);
        drawn as u16
    }
}
