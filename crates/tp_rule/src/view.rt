//! What a seat knows, for contracts alone: no value of these types is made when the program runs.

use crate::packing::Head;
use std::collections::LinkedList;
use tp_model::event::Event;
use tp_model::trace::TraceEntry;
use tp_model::types::{Element, Limits};

/// What a seat knows as one of the passes that it stands for.
///
/// Its rows are used one after another: the next is `next`, and `left` of the run that begins there are
/// unused. A run lies in the pass's part, or in the spare block that it drew last. The units of a pass are
/// numbered from 0 here: unit `u` of pass `number` is the unit `number * limits.units + u` of the table.
pub struct Hand {
    /// The number of the pass, below `limits.parts`.
    pub number: u16,
    /// The events that the pass made, oldest first.
    pub mine: LinkedList<Event>,
    /// The atomic steps that the pass made, oldest first. Every step adds one entry, and nothing else adds
    /// any.
    pub trace: LinkedList<TraceEntry>,
    /// The rows of the run below this are born, or given up with a unit that was aborted.
    pub first_draft: u32,
    /// The row of the run that is used next: those from `first_draft` up to it hold the drafts, and the heads
    /// of the `left` rows from it on are empty.
    pub next: u32,
    /// How many rows of the run are unused.
    pub left: u16,
    /// The rows from this one up to `passed_to` were left unused when the pass drew its last block.
    pub passed_from: u32,
    /// The end of those rows.
    pub passed_to: u32,
    /// The spare blocks that the pass has drawn, in ascending order.
    pub blocks: LinkedList<u16>,
    /// The rows of the run right before the next one that were published as elements of `tail_stage`: so many
    /// of them.
    pub tail: u16,
    /// Of which stage these are.
    pub tail_stage: u8,
    /// The words that are in the body of the next row: 0 where none is stored yet.
    pub next_body: LinkedList<u64>,
    /// The outputs that are written for the open unit, and are born when it commits.
    pub drafts: LinkedList<Element>,
    /// The own units below this, at most `limits.units`, were claimed.
    pub claimed: u16,
    /// The unit that was chosen for the next claim.
    pub spare_unit: Option<u16>,
    /// The unit that the pass has claimed, and neither committed nor aborted itself. Another may have aborted
    /// it.
    pub open_unit: Option<u16>,
}

/// What a seat has found in a word that stays, or changes in one direction alone. So it says something of
/// the word at any later time too.
pub enum Known {
    /// The head of a row: once it isn't empty, it stays as it is.
    RowHead(u32, Head),
    /// The head of a row is of this stage, and so are those of so many rows right before it.
    RowTail(u32, u8, u16),
    /// The mark of a kind of a part, or of the spare rows: it never falls.
    PartMark(u8, u16, u16),
    /// The mark of a kind of a part, or of the spare rows, is above this number.
    MarkAbove(u8, u16, u16),
    /// The counter of drawn blocks: it never falls.
    BlocksDrawn(u16),
}

/// What a seat knows.
pub struct View {
    /// The limits of the table.
    pub limits: Limits,
    /// The history as the seat saw it last.
    pub seen: LinkedList<Event>,
    /// What a seat that was joined to this one had seen, until the next load.
    pub also_seen: LinkedList<Event>,
    /// What the seat has found in words that stay.
    pub known: LinkedList<Known>,
    /// The passes that the seat stands for. The keeper's seat stands for all that were not handed out.
    pub hands: LinkedList<Hand>,
}
