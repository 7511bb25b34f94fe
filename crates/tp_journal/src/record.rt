//! A history of calls that only clauses read: no memory holds it.
ghost use Rattle.std.specs.Prelude.{◌≡◌, List, [], ◌∷◌, true, false, IsOk, is_ok};
ghost use Rattle.std.specs.Borrow.{ftrue};
ghost use Rattle.tp_journal.specs.Event.{FileCall, told_event};

use crate::Failed;
use std::io;
use std::marker::{Model, PhantomData};

/// A file was opened that has these bytes.
pub const OPENED: u64 = 0;

/// Bytes were written over those at an offset.
pub const WRITTEN: u64 = 1;

/// A number of bytes 0 were added.
pub const GROWN: u64 = 2;

/// The file was synced.
pub const SYNCED: u64 = 3;

/// The spare file was made anew, of these bytes.
pub const SPARE_WRITTEN: u64 = 4;

/// The spare file was synced.
pub const SPARE_SYNCED: u64 = 5;

/// The spare file took the place of the file.
pub const SWAPPED: u64 = 6;

/// What has happened, the last first.
#[derive(Drop)]
pub struct Record {
    marker: PhantomData<u8>,
    pub ghost events: { List FileCall },
}

impl Model for Record {
    ghost also_owns = { λ _. ftrue };
}

impl Record {
    /// Nothing has happened yet.
    pub fn new() -> Record
        ensures { result.events ≡ [] }
    {
        Record {
            marker: PhantomData,
        }
    }

    /// The numbers are those of a `FileCall`: which call, what it was given, and 1 for success.
    pub fn note(&mut self, _numbers: &[u64], _bytes: &[u8])
        ensures { self.new.events ≡ told_event _numbers.now _bytes.now ∷ self.old.events }
    {}

    /// Notes a call with its answer, and passes that on.
    pub fn tell(
        &mut self,
        call: u64,
        number: u64,
        bytes: &[u8],
        answer: io::Result<()>,
    ) -> Result<(), Failed>
        ensures { self.new.events ≡ (call, number, is_ok result, bytes.now) ∷ self.old.events }
    {
        match answer {
            Ok(()) => {
                self.note(&[call, number, 1], bytes);
                Ok(())
            }
            Err(_) => {
                self.note(&[call, number, 0], bytes);
                Err(Failed)
            }
        }
    }
}
