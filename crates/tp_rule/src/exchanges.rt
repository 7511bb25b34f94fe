//! The choice of a unit, and the exchanges. An exchange compares a whole word with what was found there
//! before, and changes it only if it is still the same; so it acts on the state that its caller read. One
//! that fails changes no word, and returns the word that it found.
ghost use Rattle.std.specs.Prelude.{◌≡◌, ◌+◌, ◌*◌, ◌<◌, ◌≤◌, ◌⊎◌, ℕ, [], IfErr, IfOk, length, true, false};
ghost use Rattle.std.specs.Prelude.{Some, None};
ghost use Rattle.tp_model.specs.declared.trace.StepKind.TheVariants as kinds;
ghost use Rattle.tp_model.specs.History.{first_id};
ghost use Rattle.tp_model.specs.Steps.{rows_of, units_of};
ghost use Rattle.tp_model.specs.Words.{round_in};
ghost use Rattle.tp_rule.specs.Words.{claim_value, unit_value, IsFitClaim};
ghost use Rattle.tp_rule.specs.Rule.{AreCommitted, IsInside};
ghost use Rattle.tp_rule.specs.Views.{hand_of, seen_by, view_of, IsNextUnit, IsSameSeat};
ghost use Rattle.tp_rule.specs.declared.view.Known.TheVariants.{MarkAbove, PartMark};
ghost use Rattle.tp_rule.specs.declared.places.TheConstants.{MARK_KINDS};
ghost use Rattle.tp_rule.specs.Steps.{RaisesMark, Draws, DrawsNone, IsLeftBehind, Voids, Knows, KnowsUseless};
ghost use Rattle.tp_rule.specs.Steps.{Chooses, MakesClaim, MakesCommit, MakesAbort, MakesKill, MakesRequeue};
ghost use Rattle.tp_rule.specs.Steps.{LosesUnit, FindsOther, FindsEnded, AllowsClaim, AllowsKill};
ghost use Rattle.tp_rule.specs.Steps.{AllowsRequeue, HasCleared, HasElement, HasWork, IsOwnWork, IsClaimed};

use crate::bits::{HEAD_EMPTY, HEAD_VOID, UNIT_ABORTED, UNIT_TAIL, UNIT_UNDECIDED};
use crate::found::FoundClaim;
use crate::packing::{Claim, UnitWord};
use crate::plays::{
    AbortExchange, ClaimExchange, CommitExchange, Draw, KillExchange, Raise, RequeueExchange,
    UnitChoice, Void,
};
use crate::seat::Seat;
use crate::words::Words;

impl Words {
    ghost use Rattle.tp_model.specs.declared.types.TheConstants.{MAX_OUTPUTS};
    ghost use Rattle.tp_rule.specs.Tables.{table_limits, IsSeatOf, IsPassOf};

    /// Looks at the word of the pass's next unit, which is thereby the spare one: the next claim is made with
    /// it. The history does not change.
    #[inline(always)]
    pub fn choose_unit(&self, seat: &mut Seat, unit: u16)
        requires own { IsSeatOf self.now seat.old }
        requires one { IsPassOf self.now seat.old }
        requires next { IsNextUnit (table_limits self.now) (view_of seat.old) unit }
        ensures same { IsSameSeat seat.old seat.new }
        ensures chooses { Chooses (view_of seat.old) unit (view_of seat.new) }
    {
        let word = self.places.unit(unit);
        self.table.load::<UnitChoice>(seat, word);
    }

    /// The spare unit takes the element of a row, for the `attempt`-th time that a unit does, if the
    /// element's claim is still the one that was found. That was free, or of a unit that was aborted with
    /// attempts left, or it was given another round. `Ok` adds the claim to the history, and the unit is the
    /// pass's open one. `Err` has the claim as it is by now.
    #[inline(always)]
    pub fn claim_exchange(
        &self,
        seat: &mut Seat,
        row: u32,
        found: FoundClaim,
        attempt: u8,
        unit: u16,
    ) -> Result<(), FoundClaim>
        requires own { IsSeatOf self.now seat.old }
        requires one { IsPassOf self.now seat.old }
        requires row { (row < rows_of (table_limits self.now)) × HasWork (seen_by seat.old) row }
        requires spare { ((hand_of seat.old).spare_unit ≡ Some unit) × (unit < 65535) }
        requires none_open { (hand_of seat.old).open_unit ≡ None }
        requires fits { IsFitClaim (claim_value found.tells) }
        requires found { AllowsClaim (table_limits self.now) (seen_by seat.old)
            (claim_value found.tells) attempt }
        ensures same { IsSameSeat seat.old seat.new }
        ensures hit { IfOk result (λ done.
            MakesClaim (view_of seat.old) unit row attempt (view_of seat.new)) }
        ensures miss { IfErr result (λ now. FindsOther kinds.ClaimExchange (view_of seat.old) row
            (claim_value found.tells) (claim_value now.tells) (view_of seat.new)) }
    {
        let word = self.places.claim(row);
        let free = found.word();
        let taken = found.taken(attempt, unit);
        let was = self
            .table
            .compare_exchange::<ClaimExchange>(seat, word, free, taken);
        if was == free {
            return Ok(());
        }
        Err(FoundClaim::read(was))
    }

    /// The open unit is committed with its drafts, if it is undecided. `true` adds the commit to the history:
    /// in this one step the element that the unit took is consumed and all drafts are born. `false`: another
    /// pass had aborted the unit, and its drafts are never born. `tail` is how many units right before this
    /// one were seen to be committed, or fewer.
    #[inline(always)]
    pub fn commit_exchange(
        &self,
        seat: &mut Seat,
        unit: u16,
        first: u16,
        count: u8,
        tail: u16,
    ) -> bool
        requires own { IsSeatOf self.now seat.old }
        requires one { IsPassOf self.now seat.old }
        requires unit { ((hand_of seat.old).open_unit ≡ Some unit)
            × (unit < units_of (table_limits self.now)) }
        requires work { IsOwnWork (view_of seat.old) unit }
        requires count { (count ≡ length (hand_of seat.old).drafts) × (count ≤ MAX_OUTPUTS) }
        requires first { first ≡ first_id (hand_of seat.old).drafts }
        requires tail { AreCommitted (seen_by seat.old) unit tail }
        requires cleared { HasCleared (view_of seat.old) }
        ensures same { IsSameSeat seat.old seat.new }
        ensures hit { result ≡ true → MakesCommit (view_of seat.old) unit (view_of seat.new) }
        ensures miss { result ≡ false → LosesUnit kinds.CommitExchange (view_of seat.old) unit
            (view_of seat.new) }
    {
        let word = self.places.unit(unit);
        let committed = UnitWord::Committed { first, count }.pack() + UNIT_TAIL * tail as u64;
        let was = self
            .table
            .compare_exchange::<CommitExchange>(seat, word, UNIT_UNDECIDED, committed);
        was == UNIT_UNDECIDED
    }

    /// A unit that was seen claimed is aborted, if it is undecided: the pass's own open unit, or any unit
    /// where the pass has none open. `Ok` adds the abort to the history: the element waits again, or is
    /// parked. `Err` has the word of the unit, which had ended; one's own can only have been aborted by
    /// another pass. Either way an own unit is open no more.
    #[inline(always)]
    pub fn abort_exchange(&self, seat: &mut Seat, unit: u16) -> Result<(), UnitWord>
        requires own { IsSeatOf self.now seat.old }
        requires one { IsPassOf self.now seat.old }
        requires unit { IsClaimed (seen_by seat.old) unit × (unit < units_of (table_limits self.now)) }
        requires open_unit { ((hand_of seat.old).open_unit ≡ None)
            ⊎ ((hand_of seat.old).open_unit ≡ Some unit) }
        ensures same { IsSameSeat seat.old seat.new }
        ensures hit { IfOk result (λ done. MakesAbort (view_of seat.old) unit (view_of seat.new)) }
        ensures miss { IfErr result (λ found. FindsEnded (view_of seat.old) unit (unit_value found)
            (view_of seat.new)) }
    {
        let word = self.places.unit(unit);
        let was = self
            .table
            .compare_exchange::<AbortExchange>(seat, word, UNIT_UNDECIDED, UNIT_ABORTED);
        if was == UNIT_UNDECIDED {
            return Ok(());
        }
        Err(UnitWord::read(was % UNIT_TAIL))
    }

    /// The element of a row is killed, if its claim is still the one that was found: it was free, or its unit
    /// was aborted, or it was given another round. `Ok` adds the kill to the history, and no unit takes the
    /// element any more. `Err` has the claim as it is by now.
    #[inline(always)]
    pub fn kill_exchange(
        &self,
        seat: &mut Seat,
        row: u32,
        found: FoundClaim,
    ) -> Result<(), FoundClaim>
        requires own { IsSeatOf self.now seat.old }
        requires one { IsPassOf self.now seat.old }
        requires row { (row < rows_of (table_limits self.now)) × HasElement (seen_by seat.old) row }
        requires fits { IsFitClaim (claim_value found.tells) }
        requires found { AllowsKill (table_limits self.now) (seen_by seat.old) (claim_value found.tells) }
        ensures same { IsSameSeat seat.old seat.new }
        ensures hit { IfOk result (λ done. MakesKill (view_of seat.old) row (view_of seat.new)) }
        ensures miss { IfErr result (λ now. FindsOther kinds.KillExchange (view_of seat.old) row
            (claim_value found.tells) (claim_value now.tells) (view_of seat.new)) }
    {
        let word = self.places.claim(row);
        let alive = found.word();
        let killed = found.killed();
        let was = self
            .table
            .compare_exchange::<KillExchange>(seat, word, alive, killed);
        if was == alive {
            return Ok(());
        }
        Err(FoundClaim::read(was))
    }

    /// The parked element of a row is given its next round, if its claim is still the one that was found. Its
    /// unit was aborted, the attempts are used up, and there is a round left. `Ok` adds the requeue to the
    /// history, and the element waits again. `Err` has the claim as it is by now.
    pub fn requeue_exchange(
        &self,
        seat: &mut Seat,
        row: u32,
        found: FoundClaim,
    ) -> Result<(), FoundClaim>
        requires own { IsSeatOf self.now seat.old }
        requires one { IsPassOf self.now seat.old }
        requires row { (row < rows_of (table_limits self.now)) × HasElement (seen_by seat.old) row }
        requires fits { IsFitClaim (claim_value found.tells) }
        requires found { AllowsRequeue (table_limits self.now) (seen_by seat.old) (claim_value found.tells) }
        ensures same { IsSameSeat seat.old seat.new }
        ensures hit { IfOk result (λ done. MakesRequeue (view_of seat.old) row
            (round_in (claim_value found.tells) + 1) (view_of seat.new)) }
        ensures miss { IfErr result (λ now. FindsOther kinds.RequeueExchange (view_of seat.old) row
            (claim_value found.tells) (claim_value now.tells) (view_of seat.new)) }
    {
        let word = self.places.claim(row);
        let parked = found.word();
        let round = found.tells.round() + 1;
        let again = Claim::Again { round }.pack();
        let was = self
            .table
            .compare_exchange::<RequeueExchange>(seat, word, parked, again);
        if was == parked {
            return Ok(());
        }
        Err(FoundClaim::read(was))
    }

    /// The mark of a kind of a part, or of the spare rows where `part` is the number of parts, is raised if
    /// it is still the one that was found. It is raised over rows that the seat knows of no use to it.
    /// `true`: it is so high now, and the seat remembers it. `false`: it is above what was found. Nothing
    /// more is seen by it, nor has the history changed.
    pub fn raise(&self, seat: &mut Seat, kind: u8, part: u16, from: u16, to: u16) -> bool
        requires own { IsSeatOf self.now seat.old }
        requires one { IsPassOf self.now seat.old }
        requires kind { kind < MARK_KINDS }
        requires part { part ≤ (table_limits self.now).parts }
        requires up { (from ≤ to) × IsInside (table_limits self.now) part to }
        requires done { let l = table_limits self.now in (i : ℕ) → part * l.rows + from ≤ i
            → i < part * l.rows + to
            → KnowsUseless (view_of seat.old) kind i }
        ensures same { IsSameSeat seat.old seat.new }
        ensures raises { RaisesMark (view_of seat.old) kind part from to (view_of seat.new) }
        ensures hit { result ≡ true → Knows (view_of seat.new) (PartMark kind part to) }
        ensures miss { result ≡ false → Knows (view_of seat.old) (PartMark kind part from)
            → Knows (view_of seat.new) (MarkAbove kind part from) }
    {
        let word = self.places.mark(kind, part);
        let was = self
            .table
            .compare_exchange::<Raise>(seat, word, from as u64, to as u64);
        was == from as u64
    }

    /// Draws the next spare block, if this many are drawn as the caller believes. `Ok`: the block with that
    /// number is the pass's, and its 8 rows are the run; what was left of the old run stays unused. `Err` has
    /// how many are drawn by now. Nothing more is seen by it, nor has the history changed.
    #[tactic(auto, using(crate::proofs::Drawing::draws_go))]
    pub fn draw(&self, seat: &mut Seat, drawn: u16) -> Result<(), u16>
        requires own { IsSeatOf self.now seat.old }
        requires one { IsPassOf self.now seat.old }
        requires no_drafts { (hand_of seat.old).drafts ≡ [] }
        requires cleared { HasCleared (view_of seat.old) }
        requires room { drawn < (table_limits self.now).spare }
        ensures same { IsSameSeat seat.old seat.new }
        ensures hit { IfOk result (λ done. Draws (view_of seat.old) drawn (view_of seat.new)) }
        ensures miss { IfErr result (λ now. DrawsNone (view_of seat.old) drawn now (view_of seat.new)) }
    {
        let word = self.places.drawn();
        let was = self
            .table
            .compare_exchange::<Draw>(seat, word, drawn as u64, drawn as u64 + 1);
        if was == drawn as u64 {
            Ok(())
        } else {
            Err(was as u16)
        }
    }

    /// Marks a row as one that is never used, if its head is empty. It is in the pass's part or in a block
    /// that the pass has drawn, and the pass has left that for another block. The head isn't empty by then,
    /// and the seat remembers it. Nothing more is seen by it, nor has the history changed.
    pub fn void(&self, seat: &mut Seat, row: u32)
        requires own { IsSeatOf self.now seat.old }
        requires one { IsPassOf self.now seat.old }
        requires row { row < rows_of (table_limits self.now) }
        requires left { IsLeftBehind (table_limits self.now) (hand_of seat.old) row }
        ensures same { IsSameSeat seat.old seat.new }
        ensures voids { Voids (view_of seat.old) row (view_of seat.new) }
    {
        let word = self.places.head(row);
        self.table
            .compare_exchange::<Void>(seat, word, HEAD_EMPTY, HEAD_VOID);
    }
}
