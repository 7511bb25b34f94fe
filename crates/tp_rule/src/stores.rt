//! Stores to a pass's own rows: draft stores, which nobody sees, and publish.
ghost use Rattle.std.specs.Prelude.{◌≡◌, ◌<◌, ◌≤◌, [], Some};
ghost use Rattle.tp_model.specs.declared.types.TheConstants.{BODY_WORDS};
ghost use Rattle.tp_model.specs.Steps.{IsBody, IsServerStage, IsStage};
ghost use Rattle.tp_rule.specs.Views.{blank_body, hand_of, view_of, IsNextRow, IsOnePass, IsSameSeat};
ghost use Rattle.tp_rule.specs.Steps.{drafted, with_word, Bodied, Drafts, Fills};
ghost use Rattle.tp_rule.specs.Steps.{tail_before, HasBodyStored, HasCleared, Publishes};

use crate::bits::HEAD_TAIL;
use crate::packing::Head;
use crate::plays::{DraftHead, DraftWord, Publish};
use crate::seat::Seat;
use crate::words::Words;
use tp_model::types::Body;

impl Words {
    ghost use Rattle.tp_rule.specs.Tables.{table_limits, IsPassOf, IsSeatOf};

    /// Stores a word of the body of the row that the pass draws next. The row is not born, so the history
    /// does not change, and the seat sees nothing new.
    fn store_draft_word(&self, seat: &mut Seat, row: u32, word: usize, number: u64)
        requires own { IsSeatOf self.now seat.old }
        requires one { IsOnePass (view_of seat.old) }
        requires next { IsNextRow (table_limits self.now) (view_of seat.old) row }
        requires word { word < BODY_WORDS }
        ensures same { IsSameSeat seat.old seat.new }
        ensures view { view_of seat.new ≡ drafted (with_word word number) (view_of seat.old) }
    {
        let place = self.places.body(row, word);
        self.table.store::<DraftWord>(seat, place, number);
    }

    /// The same, unless the word is 0: a row is used once, and its words are 0 before.
    #[inline(always)]
    fn fill_draft_word(&self, seat: &mut Seat, row: u32, word: usize, number: u64)
        requires own { IsSeatOf self.now seat.old }
        requires one { IsOnePass (view_of seat.old) }
        requires next { IsNextRow (table_limits self.now) (view_of seat.old) row }
        requires word { word < BODY_WORDS }
        ensures same { IsSameSeat seat.old seat.new }
        ensures one { IsOnePass (view_of seat.new) }
        ensures next { IsNextRow (table_limits self.now) (view_of seat.new) row }
        ensures view { Fills (view_of seat.old) word number (view_of seat.new) }
    {
        if number != 0 {
            self.store_draft_word(seat, row, word, number);
        }
    }

    /// Stores the body of the row that the pass draws next, of which no word is stored: each word that isn't
    /// 0. At most four steps.
    pub fn store_draft_body(&self, seat: &mut Seat, row: u32, body: Body)
        requires own { IsSeatOf self.now seat.old }
        requires one { IsOnePass (view_of seat.old) }
        requires next { IsNextRow (table_limits self.now) (view_of seat.old) row }
        requires blank { (hand_of seat.old).next_body ≡ blank_body }
        ensures same { IsSameSeat seat.old seat.new }
        ensures view { Bodied body (view_of seat.old) (view_of seat.new) }
        ensures whole { IsBody body }
    {
        self.fill_draft_word(seat, row, 3, body[3]);
        self.fill_draft_word(seat, row, 2, body[2]);
        self.fill_draft_word(seat, row, 1, body[1]);
        self.fill_draft_word(seat, row, 0, body[0]);
    }

    /// Stores the head of the row that the pass draws next, whose body is stored. It names the pass's open
    /// unit, so the row is a draft from now on: an output that is born when the unit commits, and never if it
    /// does not.
    pub fn store_draft_head(&self, seat: &mut Seat, row: u32, stage: u8, root: u16, unit: u16)
        requires own { IsSeatOf self.now seat.old }
        requires ready { HasBodyStored (view_of seat.old) }
        requires next { IsNextRow (table_limits self.now) (view_of seat.old) row }
        requires fits { IsStage stage × (unit < 65535) }
        requires open_unit { (hand_of seat.old).open_unit ≡ Some unit }
        ensures same { IsSameSeat seat.old seat.new }
        ensures view { Drafts (view_of seat.old) stage root unit (view_of seat.new) }
    {
        let word = self.places.head(row);
        let head = Head::Filled {
            stage,
            root,
            by: Some(unit),
        }
        .pack();
        self.table.store::<DraftHead>(seat, word, head);
    }

    /// Stores the head of the row that the pass draws next, whose body is stored. It names no unit, so the
    /// store is the birth of a client's element, and the history has its event: it is its own root. `tail` is
    /// how many rows right before it the pass has published in this stage, or fewer.
    pub fn publish(&self, seat: &mut Seat, row: u32, stage: u8, tail: u16)
        requires own { IsSeatOf self.now seat.old }
        requires one { IsPassOf self.now seat.old }
        requires ready { HasBodyStored (view_of seat.old) }
        requires no_drafts { (hand_of seat.old).drafts ≡ [] }
        requires next { IsNextRow (table_limits self.now) (view_of seat.old) row }
        requires cleared { HasCleared (view_of seat.old) }
        requires fits { IsServerStage stage }
        requires tail { tail ≤ tail_before stage (hand_of seat.old) }
        ensures same { IsSameSeat seat.old seat.new }
        ensures grew { Publishes (view_of seat.old) stage tail (view_of seat.new) }
    {
        let word = self.places.head(row);
        let head = Head::Filled {
            stage,
            root: row as u16,
            by: None,
        }
        .pack();
        self.table
            .store::<Publish>(seat, word, head + HEAD_TAIL * tail as u64);
    }
}
