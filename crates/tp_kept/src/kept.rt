//! A session and its journal.
ghost use Rattle.std.specs.Prelude.{◌≡◌, ◌≤◌, ◌||◌, Some, nat_lt, true, vec_len};
ghost use Rattle.tp_journal.specs.declared.append.TheConstants.{MAX_LEN};
ghost use Rattle.tp_kept.specs.declared.cause.Cause.TheVariants as Cause;
ghost use Rattle.tp_wire.specs.declared.reading.TheConstants.{MAX_KEPT};

use crate::cause::Cause;
use std::alloc::Global;
use tp_journal::{Device, Journal};
use tp_session::Session;

/// A session and its journal. What it takes is on the disk before the session has it: so whoever has an
/// answer knows that its line is kept.
#[derive(Drop)]
pub struct Kept<D: Device + Drop> {
    pub(crate) alloc: Global,
    pub(crate) journal: Journal<D>,
    pub(crate) session: Session,
    /// How many lines of clients the journal stands for.
    pub(crate) counted: u64,
    /// How many have come since, each of which only asked.
    pub(crate) asked: u64,
    /// What was taken of a line that hasn't ended.
    pub(crate) line: Vec<u8>,
    /// How many bytes of lines the journal has behind its dump.
    pub(crate) behind: usize,
    /// How many it may have before it is made short.
    pub(crate) room: usize,
    /// Why nothing more is done.
    pub(crate) cause: Option<Cause>,
    ghost short: { vec_len line ≤ MAX_KEPT },
    ghost journal_fault: { cause ≡ Some Cause.Journal
        → (journal.poisoned || nat_lt MAX_LEN journal.len) ≡ true },
}
