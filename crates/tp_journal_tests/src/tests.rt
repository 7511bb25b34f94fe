//! A device that fails, or is torn, at one of its calls, for each of them.
ghost use Rattle.std.specs.Prelude.{◌≡◌, length};
ghost use Rattle.tp_journal.specs.Journal.{IsJournalOpen};
ghost use Rattle.tp_journal.specs.History.{counts_after, faults_after, leaves_after, left_after, only_after};
ghost use Rattle.tp_journal.specs.History.{seen_after, spare_after, spare_leaves_after};

use anyhow::Result;
use std::alloc::Global;
use std::io;
use tp_journal::{
    AppendError, Device, Failed, GROWN, Journal, OPENED, OpenError, Record, SPARE_SYNCED,
    SPARE_WRITTEN, SWAPPED, SYNCED, WRITTEN, recover,
};

/// A disk in memory, which fails at one call: that does the half of what it was to do.
#[derive(Drop)]
struct Fake {
    alloc: Global,
    disk: Vec<u8>,
    spare: Vec<u8>,
    calls_left: usize,
    calls: Record,
}

impl Fake {
    fn new(alloc: Global, disk: Vec<u8>, calls_left: usize) -> Self
        ensures { seen_after result.calls.events ≡ disk.items }
    {
        let mut calls = Record::new();
        calls.note(&[OPENED, 0, 1], &disk);
        Fake {
            alloc,
            disk,
            spare: Vec::new(alloc),
            calls_left,
            calls,
        }
    }

    /// Whether this call is the one that fails.
    fn fails(&mut self) -> bool
        ensures { self.new.calls ≡ self.old.calls }
    {
        if self.calls_left == 0 {
            return true;
        }
        self.calls_left -= 1;
        false
    }
}

/// Writes bytes over some, or each second one of them.
fn write_over(disk: &mut Vec<u8>, at: usize, bytes: &[u8], fails: bool) {
    if at > disk.len() {
        return;
    }
    let places = &mut disk[at..];
    if !fails && bytes.len() <= places.len() {
        places[..bytes.len()].copy_from_slice(bytes);
        return;
    }
    for (place, byte) in places.iter_mut().zip(bytes.iter()).step_by(2) {
        *place = *byte;
    }
}

fn answer(fails: bool, done: bool) -> io::Result<()> {
    if fails || !done {
        return Err(io::ErrorKind::StorageFull.into());
    }
    Ok(())
}

impl Device for Fake {
    ghost seen = { λ d. seen_after d.calls.events };

    ghost may_leave = { λ d. leaves_after d.calls.events };

    ghost spare = { λ d. spare_after d.calls.events };

    ghost spare_leaves = { λ d. spare_leaves_after d.calls.events };

    ghost moment = { λ d. length d.calls.events };

    ghost left_since = { λ d. left_after d.calls.events };

    ghost faults = { λ d. faults_after d.calls.events };

    ghost counts_now = { λ d t c le now. counts_after d.calls.events t c le now };

    ghost only_now = { λ d c left. only_after d.calls.events c left };

    fn write_at(&mut self, at: usize, bytes: &[u8]) -> Result<(), Failed> {
        let fails = self.fails();
        write_over(&mut self.disk, at, bytes, fails);
        self.calls
            .tell(WRITTEN, at as u64, bytes, answer(fails, true))
    }

    fn grow(&mut self, count: usize) -> Result<(), Failed> {
        let fails = self.fails();
        let more = if fails { count / 2 } else { count };
        let len = self.disk.len().saturating_add(more);
        let done = self.disk.resize(len, 0).is_ok();
        self.calls
            .tell(GROWN, count as u64, &[], answer(fails, done))
    }

    fn sync(&mut self) -> Result<(), Failed> {
        let fails = self.fails();
        self.calls.tell(SYNCED, 0, &[], answer(fails, true))
    }

    fn write_spare(&mut self, bytes: &[u8]) -> Result<(), Failed> {
        let fails = self.fails();
        let count = if fails { bytes.len() / 2 } else { bytes.len() };
        self.spare.clear();
        let done = self.spare.extend_from_slice(&bytes[..count]).is_ok();
        self.calls
            .tell(SPARE_WRITTEN, 0, bytes, answer(fails, done))
    }

    fn sync_spare(&mut self) -> Result<(), Failed> {
        let fails = self.fails();
        self.calls.tell(SPARE_SYNCED, 0, &[], answer(fails, true))
    }

    fn swap(&mut self) -> Result<(), Failed> {
        let fails = self.fails();
        let done = match self.spare.to_vec(self.alloc) {
            Ok(next) => {
                self.disk = next;
                true
            }
            Err(_) => false,
        };
        self.calls.tell(SWAPPED, 0, &[], answer(fails, done))
    }
}

/// What a run of appends has left: the text after each one that was acknowledged, and the disk.
#[derive(Drop)]
struct Left {
    texts: Vec<Vec<u8>>,
    disk: Vec<u8>,
    last: Option<AppendError>,
}

/// Appends three batches and puts another in their place, until the disk fails.
fn run(alloc: Global, calls_left: usize) -> Result<Left> {
    let mut left = Left {
        texts: Vec::new(alloc),
        disk: Vec::new(alloc),
        last: None,
    };
    let mut device = Fake::new(alloc, Vec::new(alloc), calls_left);
    let found = match recover(alloc, &mut device, &[]) {
        Ok(found) => found,
        Err(_) => {
            left.disk = device.disk.to_vec(alloc)?;
            return Ok(left);
        }
    };
    let mut journal = Journal::new(device, &found);
    left.texts.push(text_of(alloc, &journal)?)?;
    let mut long = vec![in alloc; b'x'; 1_048_560]?;
    long.extend_from_slice(b"two\nthree\n")?;
    step(alloc, &mut left, &mut journal, b"one\n", false)?;
    step(alloc, &mut left, &mut journal, &long, false)?;
    step(alloc, &mut left, &mut journal, b"four\n", true)?;
    step(alloc, &mut left, &mut journal, b"five\n", false)?;
    left.disk = journal.device().disk.to_vec(alloc)?;
    Ok(left)
}

/// Appends a batch or puts it in the place of all, and one more where the disk fails, unless it had failed.
fn step(
    alloc: Global,
    left: &mut Left,
    journal: &mut Journal<Fake>,
    batch: &[u8],
    replaces: bool,
) -> Result<()>
    requires { IsJournalOpen (λ d. seen_after d.calls.events) (λ d. leaves_after d.calls.events) journal.old }
    ensures { IsJournalOpen (λ d. seen_after d.calls.events) (λ d. leaves_after d.calls.events) journal.new }
{
    if left.last.is_some() {
        return Ok(());
    }
    if put(alloc, journal, batch, replaces).is_ok() {
        left.texts.push(text_of(alloc, journal)?)?;
        return Ok(());
    }
    left.last = journal.append(alloc, b"six\n").err();
    Ok(())
}

/// Appends a batch or puts it in the place of all.
fn put(
    alloc: Global,
    journal: &mut Journal<Fake>,
    batch: &[u8],
    replaces: bool,
) -> std::result::Result<(), AppendError>
    requires { IsJournalOpen (λ d. seen_after d.calls.events) (λ d. leaves_after d.calls.events) journal.old }
    ensures { IsJournalOpen (λ d. seen_after d.calls.events) (λ d. leaves_after d.calls.events) journal.new }
{
    if replaces {
        return journal.replace(alloc, batch);
    }
    journal.append(alloc, batch)
}

/// The text on a journal's disk.
fn text_of(alloc: Global, journal: &Journal<Fake>) -> Result<Vec<u8>> {
    let disk = &journal.device().disk;
    let len = disk.iter().take_while(|byte| **byte != 0).count();
    Ok(disk[..len].to_vec(alloc)?)
}

/// Whether a text is the one that was there after so many acknowledged batches.
fn is_text(texts: &[Vec<u8>], count: usize, text: &[u8]) -> bool {
    match texts.get(count) {
        Some(it) => it.as_slice() == text,
        None => false,
    }
}

#[test]
fn each_failure_keeps_what_was_acknowledged(rt: HostRuntime) -> Result<()> {
    let alloc = rt.alloc();
    let whole = run(alloc, 1000)?;
    assert_eq!(rt; whole.texts.len(), 5);
    for calls_left in 0..16 {
        let left = run(alloc, calls_left)?;
        let count = left.texts.len();
        if count == 5 {
            assert!(rt; left.last.is_none());
            continue;
        }
        if count > 0 {
            assert_eq!(rt; left.last, Some(AppendError::Poisoned), "at {calls_left}");
        }
        let mut device = Fake::new(alloc, left.disk.to_vec(alloc)?, 1000);
        match recover(alloc, &mut device, &left.disk) {
            Ok(found) => {
                let is_next = is_text(&whole.texts, count, &found.text);
                let is_kept = count > 0 && is_text(&whole.texts, count - 1, &found.text);
                assert!(rt; is_next || is_kept, "at {calls_left}");
            }
            Err(_) => assert!(rt; false, "at {calls_left}"),
        }
    }
    Ok(())
}

#[test]
fn a_changed_byte_is_told(rt: HostRuntime) -> Result<()> {
    let alloc = rt.alloc();
    let mut disk = run(alloc, 1000)?.disk;
    write_over(&mut disk, 30, b"x", false);
    let mut device = Fake::new(alloc, disk.to_vec(alloc)?, 1000);
    match recover(alloc, &mut device, &disk) {
        Ok(_) => assert!(rt; false),
        Err(error) => assert_eq!(rt; error, OpenError::Damaged(23)),
    }
    Ok(())
}
