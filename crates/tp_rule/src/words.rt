//! The shared words: their making, and how seats are cut in two and joined.
ghost use Rattle.std.specs.Prelude.{◌≡◌, IfOk, replicate};
ghost use Rattle.tp_rule.specs.Places.{size_of};
ghost use Rattle.tp_rule.specs.declared.words.TheConstants.{MOST_WORDS};
ghost use Rattle.tp_rule.specs.Views.{first_view, no_seat, view_of, HasPass, IsSameSeat};
ghost use Rattle.tp_rule.specs.Receipts.{IsReceipt, SeatFollows, SeatLeaves};
ghost use Rattle.tp_rule.specs.Doors.{id_of, key_of};
ghost use Rattle.tp_rule.specs.Steps.{handed_on, handed_out, kept, parted, joined, SeatsMeet};

use crate::places::{MARK_KINDS, MARK_LINE, Places, ROW_WORDS};
use crate::plays::{HandOut, Part, Together};
use crate::seat::{Seat, SharedTable};
use std::alloc::{AllocError, Global};
use tp_model::types::{BLOCK_ROWS, MAX_BLOCKS, MAX_PART_ROWS, MAX_PASSES, MAX_UNITS};

/// How many rows a table has at most: 10,240.
const MOST_ROWS: usize = MAX_PASSES as usize * MAX_PART_ROWS as usize
    + BLOCK_ROWS as usize * MAX_BLOCKS as usize;

/// How many words it has at most: those of its rows and units, the marks, and the counter of drawn blocks.
const MOST_WORDS: usize = ROW_WORDS * MOST_ROWS
    + MAX_PASSES as usize * MAX_UNITS as usize
    + MARK_LINE * MARK_KINDS
    + 1;

/// So many words, all 0: a table begins as a copy of the first of them. LLVM clears the table instead, and
/// leaves them out of the program.
const NO_WORDS: [u64; MOST_WORDS] = [0; MOST_WORDS];

/// Those words.
#[inline(always)]
fn no_words() -> &'static [u64]
    ensures { result.now ≡ replicate MOST_WORDS 0 }
{
    &NO_WORDS
}

/// The words that all passes share. Every step is a method that takes `&self` and the seat that makes it, so
/// the words can lie behind a shared reference while many threads step.
///
/// Each method that makes a step changes the view of that one seat, and adds one entry to its trace. A view
/// can be changed in no other way, since the table lies behind its one door.
#[derive(Drop)]
pub struct Words {
    pub(crate) table: SharedTable,
    pub(crate) places: Places,
    ghost keyed: { key_of table ≡ places.limits },
    ghost wide: { (id_of table).words ≡ size_of places.limits },
}

impl Words {
    ghost use Rattle.tp_rule.specs.Tables.{table_limits, table_of, IsSeatOf, IsPassOf};

    /// The words of a table in which nothing has happened, all 0, and the keeper's seat, which stands for all
    /// passes. The one error is out of memory.
    pub fn new(alloc: Global, places: Places) -> Result<(Words, Seat), AllocError>
        ensures limits { IfOk result (λ made. table_limits made.0 ≡ places.limits) }
        ensures seat { IfOk result (λ made. IsSeatOf made.0 made.1) }
        ensures view { IfOk result (λ made. view_of made.1 ≡ first_view places.limits) }
    {
        let limits = places.limits;
        let (table, seat) = SharedTable::new(alloc, &no_words()[..places.size()], &limits)?;
        Ok((Words { table, places }, seat))
    }

    /// The first of the passes that the keeper's seat stands for, in a seat of its own. The keeper keeps the
    /// others. The load that this costs is the first entry in the trace of the pass.
    pub fn hand_out(&self, keeper: &mut Seat) -> Seat
        requires own { IsSeatOf self.now keeper.old }
        ensures same { IsSameSeat keeper.old keeper.new }
        ensures at_table { IsSeatOf self.now result }
        ensures keeps { view_of keeper.new ≡ handed_on (view_of keeper.old) }
        ensures hands_out { view_of result ≡ handed_out (view_of keeper.old) }
    {
        self.table.split::<HandOut>(keeper)
    }

    /// Cuts a seat that stands for several passes: the first stays, and the others are in the new seat. This
    /// costs a load by the one that stays.
    pub fn part(&self, seat: &mut Seat) -> Seat
        requires own { IsSeatOf self.now seat.old }
        ensures same { IsSameSeat seat.old seat.new }
        ensures at_table { IsSeatOf self.now result }
        ensures keeps { view_of seat.new ≡ kept (view_of seat.old) }
        ensures parts { view_of result ≡ parted (view_of seat.old) }
    {
        self.table.split::<Part>(seat)
    }

    /// One seat takes in the passes of another, which is empty afterwards. This costs a load by the one that
    /// remains. What the other had seen is remembered apart: which of the two saw more comes out at the next
    /// load alone.
    pub fn join(&self, seat: &mut Seat, other: &mut Seat)
        requires own { IsSeatOf self.now seat.old × IsSeatOf self.now other.old }
        requires pass { HasPass (view_of seat.old) }
        ensures same { IsSameSeat seat.old seat.new }
        ensures joins { view_of seat.new ≡ joined (view_of seat.old) (view_of other.old) }
        ensures leaves { other.new ≡ no_seat }
    {
        self.table.join::<Together>(seat, other);
    }

    /// Two passes meet, by a join, a load and a split: both have then seen one legal history, which begins
    /// with what each had seen.
    pub fn meet(&self, seat: &mut Seat, other: &mut Seat)
        requires own { IsSeatOf self.now seat.old × IsSeatOf self.now other.old }
        requires one { IsPassOf self.now seat.old × IsPassOf self.now other.old }
        ensures same { IsSameSeat seat.old seat.new }
        ensures other_same { IsSameSeat other.old other.new }
        ensures meets { SeatsMeet (view_of seat.old) (view_of other.old) (view_of seat.new)
            (view_of other.new) }
    {
        self.join(seat, other);
        self.load(seat, 0);
        *other = self.part(seat);
    }

    /// The pass leaves a receipt: a seat that stands for no pass, and has seen what the pass has. This costs
    /// a load by the pass.
    pub fn leave(&self, seat: &mut Seat) -> Seat
        requires own { IsSeatOf self.now seat.old }
        requires one { IsPassOf self.now seat.old }
        ensures same { IsSameSeat seat.old seat.new }
        ensures at_table { IsSeatOf self.now result }
        ensures leaves { SeatLeaves (view_of seat.old) (view_of seat.new) (view_of result) }
    {
        self.part(seat)
    }

    /// The pass follows a receipt, by a join and a load: it has then seen a legal history, which begins with
    /// what the pass that left the receipt had seen by then.
    pub fn follow(&self, seat: &mut Seat, receipt: Seat)
        requires own { IsSeatOf self.now seat.old × IsSeatOf self.now receipt }
        requires one { IsPassOf self.now seat.old }
        requires receipt { IsReceipt (view_of receipt) }
        ensures same { IsSameSeat seat.old seat.new }
        ensures follows { SeatFollows (view_of seat.old) (view_of receipt) (view_of seat.new) }
    {
        let mut left = receipt;
        self.join(seat, &mut left);
        self.load(seat, 0);
    }
}
