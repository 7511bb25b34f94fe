//! What a thread writes down.

use crate::dice::Dice;
use crate::program_fault::ProgramFault;
use std::alloc::Global;
use std::sync::atomic::{AtomicU64, Ordering};
use tp_model::types::{
    Body, Cancelled, Claimed, Element, Ended, Killed, Look, Outcome, Refusal, Released, Status,
    Work,
};

/// A call, with all that it was given, and its answer.
#[derive(Clone, Copy, Debug)]
pub enum Made {
    Submit {
        stage: u8,
        body: Body,
        answer: Result<u32, Refusal>,
    },
    Claim {
        stage: u8,
        answer: Claimed,
    },
    ClaimNext {
        stage: u8,
        answer: Claimed,
    },
    ClaimId {
        id: u32,
        answer: Result<Work, Refusal>,
    },
    /// This many drafts: they go to one stage, the first with this body, and each further one with a body in
    /// which each word but the key is one more.
    Commit {
        drafts: u8,
        stage: u8,
        body: Body,
        answer: Outcome,
    },
    Abort {
        answer: Ended,
    },
    Release {
        id: u32,
        answer: Result<Released, Refusal>,
    },
    Kill {
        id: u32,
        answer: Result<Killed, Refusal>,
    },
    Cancel {
        root: u32,
        answer: Result<Cancelled, Refusal>,
    },
    Requeue {
        id: u32,
        answer: Result<u8, Refusal>,
    },
    Read {
        id: u32,
        answer: Result<Look, Refusal>,
    },
    Reply {
        root: u32,
        from: u32,
        answer: Option<u32>,
    },
    Collect {
        id: u32,
        answer: Result<Element, Refusal>,
    },
    CollectNext {
        root: u32,
        answer: Option<Element>,
    },
    Family {
        root: u32,
        from: u32,
        answer: Option<Look>,
    },
    NextError {
        from: u32,
        answer: Option<u32>,
    },
}

/// A call, and what the counter said before and after it.
#[derive(Clone, Copy, Debug)]
struct Entry {
    before: u64,
    after: u64,
    made: Made,
}

/// The calls of one thread, in their order.
#[derive(Drop)]
pub struct Diary<'a> {
    clock: &'a AtomicU64,
    entries: Vec<Entry>,
    pub dice: Dice,
    /// About how many rows its pass has used.
    pub newest: u32,
    /// The last element that it has claimed, or read as held.
    pub last: u32,
    /// The root of the last element that it has claimed.
    pub root: u32,
}

impl<'a> Diary<'a> {
    pub fn new(alloc: Global, clock: &'a AtomicU64, dice: Dice) -> Diary<'a> {
        Diary {
            clock,
            entries: Vec::new(alloc),
            dice,
            newest: 0,
            last: 0,
            root: 0,
        }
    }

    /// What the counter says, which says more from then on.
    pub fn now(&self) -> u64 {
        self.clock.fetch_add(1, Ordering::SeqCst)
    }

    /// Whether the counter was read so often, by whatever thread.
    pub fn is_past(&self, count: u64) -> bool {
        self.clock.load(Ordering::SeqCst) >= count
    }

    /// Remembers an element that it has claimed.
    pub fn take(&mut self, element: Element) {
        self.last = element.id;
        self.root = element.root;
    }

    /// Remembers an element that was read as held.
    pub fn see(&mut self, id: u32, status: Status) {
        if let Status::Held { .. } = status {
            self.last = id;
        }
    }

    /// Writes down a call that has just come back.
    pub fn note(&mut self, before: u64, made: Made) -> Result<(), ProgramFault> {
        let after = self.now();
        self.entries.push(Entry {
            before,
            after,
            made,
        })?;
        Ok(())
    }

    pub fn print<R: Print>(&self, rt: &R, thread: u8) -> Result<(), ProgramFault> {
        for entry in self.entries.iter() {
            let Entry {
                before,
                after,
                made,
            } = *entry;
            println!(rt; "{thread} {before} {after} {made:?}")?;
        }
        Ok(())
    }
}
