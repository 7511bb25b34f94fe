//! A file of the system as a device, with a spare one beside it. Each method makes its call and notes it.
ghost use Rattle.std.specs.Prelude.{◌≡◌, length, IfOk};
ghost use Rattle.tp_journal.specs.History.{counts_after, faults_after, leaves_after, left_after, only_after};
ghost use Rattle.tp_journal.specs.History.{seen_after, spare_after, spare_leaves_after};

use crate::record::{GROWN, OPENED, Record, SPARE_SYNCED, SPARE_WRITTEN, SWAPPED, SYNCED, WRITTEN};
use crate::{Device, Failed};
use std::alloc::Global;
use std::fs::{File, OpenOptions};
use std::io::Read;
use std::os::unix::fs::{FileExt, OpenOptionsExt};
use std::{fs, io};

/// The journal's file, its lock, the spare file if there is one, and the folder of all.
#[derive(Drop)]
pub struct FileDevice<'a> {
    rt: &'a HostRuntime,
    file: File,
    len: u64,
    spare: Option<File>,
    spare_len: u64,
    folder: File,
    path: &'a str,
    spare_path: &'a str,
    lock: File,
    calls: Record,
}

/// Where the files of a journal are.
#[derive(Clone, Copy)]
pub struct Paths<'a> {
    pub file: &'a str,
    pub spare: &'a str,
    pub lock: &'a str,
    pub folder: &'a str,
}

impl<'a> FileDevice<'a> {
    /// Opens a file, or makes an empty one, with its bytes. `ResourceBusy` where another has it open.
    pub fn open(
        rt: &'a HostRuntime,
        alloc: Global,
        paths: Paths<'a>,
    ) -> io::Result<(FileDevice<'a>, Vec<u8>)>
        ensures { IfOk result (λ opened. seen_after opened.0.calls.events ≡ opened.1.items) }
    {
        let lock = open_own(rt, paths.lock)?;
        if lock.try_lock().is_err() {
            return Err(io::ErrorKind::ResourceBusy.into());
        }
        let mut file = open_own(rt, paths.file)?;
        let folder = File::open(rt, paths.folder)?;
        file.sync_all()?;
        folder.sync_all()?;
        let mut bytes = Vec::new(alloc);
        file.read_to_end(&mut bytes)?;
        let mut calls = Record::new();
        calls.note(&[OPENED, 0, 1], &bytes);
        let len = bytes.len() as u64;
        Ok((
            FileDevice {
                rt,
                file,
                len,
                spare: None,
                spare_len: 0,
                folder,
                path: paths.file,
                spare_path: paths.spare,
                lock,
                calls,
            },
            bytes,
        ))
    }
}

/// Opens a file to read and write, or makes one that only its owner may open.
fn open_own(rt: &HostRuntime, path: &str) -> io::Result<File> {
    OpenOptions::new()
        .read(true)
        .write(true)
        .create(true)
        .mode(0o600)
        .open(rt, path)
}

/// Adds bytes 0 at the end of a file of this length.
fn add_zeros(file: &File, len: u64, count: usize) -> io::Result<()> {
    let none = [0u8; 4096];
    let mut at = len;
    let mut left = count;
    while left > 0 {
        let n = left.min(none.len());
        file.write_all_at(&none[..n], at)?;
        at = at.wrapping_add(n as u64);
        left -= n;
    }
    Ok(())
}

/// Makes a file anew, of these bytes.
fn write_new(rt: &HostRuntime, path: &str, bytes: &[u8]) -> io::Result<File> {
    let file = OpenOptions::new()
        .read(true)
        .write(true)
        .create(true)
        .truncate(true)
        .mode(0o600)
        .open(rt, path)?;
    file.write_all_at(bytes, 0)?;
    Ok(file)
}

impl Device for FileDevice<'_> {
    ghost seen = { λ d. seen_after d.calls.events };

    ghost may_leave = { λ d. leaves_after d.calls.events };

    ghost spare = { λ d. spare_after d.calls.events };

    ghost spare_leaves = { λ d. spare_leaves_after d.calls.events };

    ghost moment = { λ d. length d.calls.events };

    ghost left_since = { λ d. left_after d.calls.events };

    ghost faults = { λ d. faults_after d.calls.events };

    ghost counts_now = { λ d t c le now. counts_after d.calls.events t c le now };

    ghost only_now = { λ d c left. only_after d.calls.events c left };

    fn write_at(&mut self, at: usize, bytes: &[u8]) -> Result<(), Failed> {
        let answer = self.file.write_all_at(bytes, at as u64);
        self.calls.tell(WRITTEN, at as u64, bytes, answer)
    }

    fn grow(&mut self, count: usize) -> Result<(), Failed> {
        let answer = add_zeros(&self.file, self.len, count);
        self.len = self.len.wrapping_add(count as u64);
        self.calls.tell(GROWN, count as u64, &[], answer)
    }

    fn sync(&mut self) -> Result<(), Failed> {
        let answer = self.file.sync_data();
        self.calls.tell(SYNCED, 0, &[], answer)
    }

    fn write_spare(&mut self, bytes: &[u8]) -> Result<(), Failed> {
        let answer = renew_spare(self.rt, self.spare_path, bytes, &mut self.spare);
        self.spare_len = bytes.len() as u64;
        self.calls.tell(SPARE_WRITTEN, 0, bytes, answer)
    }

    fn sync_spare(&mut self) -> Result<(), Failed> {
        let answer = sync_all(&self.spare);
        self.calls.tell(SPARE_SYNCED, 0, &[], answer)
    }

    fn swap(&mut self) -> Result<(), Failed> {
        let spare = self.spare.take();
        let answer = put_in_place(self.rt, self.spare_path, self.path, &self.folder);
        let answer = keep(&mut self.file, spare, answer);
        self.len = self.spare_len;
        self.calls.tell(SWAPPED, 0, &[], answer)
    }
}

/// Makes the spare file anew, of these bytes.
fn renew_spare(
    rt: &HostRuntime,
    path: &str,
    bytes: &[u8],
    spare: &mut Option<File>,
) -> io::Result<()> {
    *spare = None;
    *spare = Some(write_new(rt, path, bytes)?);
    Ok(())
}

/// Syncs the spare file, if there is one.
fn sync_all(spare: &Option<File>) -> io::Result<()> {
    match spare {
        Some(file) => file.sync_all(),
        None => Err(io::ErrorKind::NotFound.into()),
    }
}

/// Takes the spare file for the file, once it has its name.
fn keep(file: &mut File, spare: Option<File>, answer: io::Result<()>) -> io::Result<()> {
    answer?;
    match spare {
        Some(spare) => {
            *file = spare;
            Ok(())
        }
        None => Err(io::ErrorKind::NotFound.into()),
    }
}

/// Gives a file another's name, on the disk too.
fn put_in_place(rt: &HostRuntime, from: &str, to: &str, folder: &File) -> io::Result<()> {
    fs::rename(rt, from, to)?;
    folder.sync_all()
}
