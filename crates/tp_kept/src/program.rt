//! The program of kept sessions: its journal is opened, what it has is recovered, and the session goes on.
ghost use Rattle.std.specs.Prelude.{◌≡◌, ◌⊎◌, ◌+◌, ◌<◌, ◌≤◌, ◌^◌, IfOk, IfSome, IsErrOf, IsTrue, OnErr, OnOk};
ghost use Rattle.std.specs.Prelude.{string_bytes};
ghost use Rattle.std.specs.Io.KnownBytes.{Appends};
ghost use Rattle.tp_kept.specs.Kept.{IsReady, coming, recovered_text, talk, written_to};
ghost use Rattle.tp_kept.specs.declared.program.Ended.TheVariants as Ended;
ghost use Rattle.tp_report.specs.Written.{AppendsFront};
ghost use Rattle.tp_wire.specs.declared.reading.TheConstants.{MAX_ASKED};

use crate::cause::Cause;
use crate::kept::Kept;
use crate::leading::Unled;
use std::alloc::{AllocError, Global};
use std::io;
use std::string::String;
use tp_journal::{Device, FileDevice, Journal, OpenError, Paths, recover};
use tp_report::{Fault, Sink, StdSink, write_all, write_fault};
use tp_script::{Failed, Source, StdSource};
use tp_wire::MAX_ASKED;

/// The bytes that are read at once.
const CHUNK: usize = 4096;

/// Why a kept session ends early.
#[derive(Clone, Copy, Debug, PartialEq, Eq)]
pub enum Ended {
    /// The reader failed, or was asked 2 ^ 51 times.
    Read,
    /// The answers could not be written.
    Write,
    /// Nothing more is taken.
    Kept(Cause),
}

impl From<Cause> for Ended {
    ghost use Rattle.tp_kept.specs.declared.program.Ended.TheVariants.{Kept};

    ghost from_gives = { λ cause e. e ≡ Kept cause };

    fn from(cause: Cause) -> Self {
        Ended::Kept(cause)
    }
}

/// Writes what was answered.
fn write<W: Sink>(writer: &mut W, answers: &[u8]) -> Result<(), Ended>
    ensures told { OnOk result (Appends (W.contents writer.old) (W.contents writer.new) answers.now) }
    ensures front { OnErr result (AppendsFront (W.contents writer.old) (W.contents writer.new) answers.now) }
    ensures failed { OnErr result (IsTrue (W.has_failed writer.new)) }
    ensures cause { OnErr result (IsErrOf result Ended.Write) }
{
    match write_all(writer, answers) {
        Ok(()) => Ok(()),
        Err(Failed) => Err(Ended::Write),
    }
}

/// How many lines were recovered, and how many bytes were cut off behind them, if any were.
fn greeting(alloc: Global, recovered: u64, cut: usize) -> Result<String, AllocError>
    ensures { IfOk result (λ text. string_bytes text ≡ recovered_text cut recovered) }
{
    if cut == 0 {
        format!(in alloc; "recovered {recovered}\n")
    } else {
        format!(in alloc; "recovered {recovered} cut {cut}\n")
    }
}

/// Writes how many lines were recovered.
fn greet<W: Sink>(alloc: Global, recovered: u64, cut: usize, writer: &mut W) -> Result<(), Ended>
    ensures told { OnOk result
        (Appends (W.contents writer.old) (W.contents writer.new) (recovered_text cut recovered)) }
    ensures front { OnErr result
        (AppendsFront (W.contents writer.old) (W.contents writer.new) (recovered_text cut recovered)) }
    ensures failed { IsErrOf result Ended.Write → IsTrue (W.has_failed writer.new) }
    ensures no_read { ¬ (IsErrOf result Ended.Read) }
{
    match greeting(alloc, recovered, cut) {
        Ok(text) => write(writer, text.as_bytes()),
        Err(_) => Err(Ended::Kept(Cause::NoMemory)),
    }
}

/// Tells for how many lines the journal stands, and how many bytes were cut off, if any were. Then it answers line
/// after line to the end of the input, and tells what is told there.
pub fn keep<R: Source, W: Sink, D: Device + Drop>(
    alloc: Global,
    kept: &mut Kept<D>,
    cut: usize,
    reader: &mut R,
    writer: &mut W,
) -> Result<(), Ended>
    requires ready { IsReady D.seen D.may_leave kept.old }
    requires asked { R.asked reader.old + MAX_ASKED < 2 ^ 64 }
    ensures ready { IsReady D.seen D.may_leave kept.new }
    ensures whole { OnOk result (IfSome (coming kept.old.line.items (R.rest reader.old)) (λ bytes.
        Appends (W.contents writer.old) (W.contents writer.new) (written_to cut kept.old.counted bytes (talk kept.old)))) }
    ensures front { OnErr result (IfSome (coming kept.old.line.items (R.rest reader.old)) (λ bytes.
        AppendsFront (W.contents writer.old) (W.contents writer.new) (written_to cut kept.old.counted bytes (talk kept.old)))) }
    ensures read { IsErrOf result Ended.Read → IsTrue (R.has_failed reader.new)
        ⊎ (R.asked reader.old + MAX_ASKED ≤ R.asked reader.new) }
    ensures write { IsErrOf result Ended.Write → IsTrue (W.has_failed writer.new) }
{
    greet(alloc, kept.recovered(), cut, writer)?;
    let mut buffer = [0; CHUNK];
    for read in 0..MAX_ASKED {
        let n = match reader.read(&mut buffer) {
            Ok(n) => n,
            Err(Failed) => return Err(Ended::Read),
        };
        if n == 0 {
            let text = kept.finish()?;
            return write(writer, &text);
        }
        let text = kept.take(&buffer[..n])?;
        write(writer, &text)?;
        kept.shorten()?;
    }
    Err(Ended::Read)
}

/// Answers a kept session, writes the line of a fault to the other writer, and answers the exit status: 0
/// done, 1 a fault.
pub fn keep_to_end<R: Source, W: Sink, D: Device + Drop, E: Sink>(
    alloc: Global,
    kept: &mut Kept<D>,
    cut: usize,
    reader: &mut R,
    writer: &mut W,
    faults: &mut E,
) -> u8
    requires ready { IsReady D.seen D.may_leave kept.old }
    requires asked { R.asked reader.old + MAX_ASKED < 2 ^ 64 }
    ensures ready { IsReady D.seen D.may_leave kept.new }
    ensures whole { result ≡ 0 → IfSome (coming kept.old.line.items (R.rest reader.old)) (λ bytes.
        Appends (W.contents writer.old) (W.contents writer.new) (written_to cut kept.old.counted bytes (talk kept.old))) }
    ensures front { result ≡ 1 → IfSome (coming kept.old.line.items (R.rest reader.old)) (λ bytes.
        AppendsFront (W.contents writer.old) (W.contents writer.new) (written_to cut kept.old.counted bytes (talk kept.old))) }
    ensures status { result ≤ 1 }
{
    match keep(alloc, kept, cut, reader, writer) {
        Ok(()) => 0,
        Err(why) => {
            tell_end(why, faults);
            1
        }
    }
}

/// Writes the line of why it ended early.
fn tell_end<E: Sink>(why: Ended, faults: &mut E) {
    let fault = match why {
        Ended::Read => Fault::Read,
        Ended::Write => Fault::Write,
        Ended::Kept(Cause::NoMemory) => Fault::NoMemory,
        Ended::Kept(Cause::Journal) => {
            let _ = write_all(faults, b"fault 4 Journal\n");
            return;
        }
    };
    write_fault(Err(fault), faults);
}

/// Why a journal isn't opened.
#[derive(Drop)]
enum Unopened {
    /// The files can't be opened, or another process has them.
    Io(io::Error),
    /// It isn't recovered.
    Journal(OpenError),
    /// What its dump says couldn't be restored.
    Unrestored,
    /// Memory could not be had.
    NoMemory,
}

impl From<AllocError> for Unopened {
    ghost use Rattle.tp_kept.specs.declared.program.Unopened.TheVariants.{NoMemory};

    ghost from_gives = { λ _ e. e ≡ NoMemory };

    fn from(_: AllocError) -> Self {
        Unopened::NoMemory
    }
}

impl From<io::Error> for Unopened {
    ghost use Rattle.std.specs.IoError.{error_kind};
    ghost use Rattle.std.specs.declared.io.ErrorKind.TheVariants.{OutOfMemory};
    ghost use Rattle.tp_kept.specs.declared.program.Unopened.TheVariants.{Io, NoMemory};

    ghost from_gives = { λ error e. (error_kind error ≡ OutOfMemory → e ≡ NoMemory)
        × (¬ (error_kind error ≡ OutOfMemory) → e ≡ Io error) };

    fn from(error: io::Error) -> Self {
        match error.kind() {
            io::ErrorKind::OutOfMemory => Unopened::NoMemory,
            _ => Unopened::Io(error),
        }
    }
}

/// Answers a session whose lines are in a journal in this file: what the file has is recovered first. Beside
/// the file it makes `FILE.new` and `FILE.lock`. Answers the exit status: 0 done, 1 a fault.
pub fn keep_session(rt: &HostRuntime, path: &str) -> u8 {
    let alloc = rt.alloc();
    let mut faults = StdSink::new(rt.stderr());
    match keep_file(rt, alloc, path, &mut faults) {
        Ok(status) => status,
        Err(why) => {
            match line_of(alloc, &why) {
                Ok(text) => {
                    let _ = write_all(&mut faults, text.as_bytes());
                }
                Err(_) => write_fault(Err(Fault::NoMemory), &mut faults),
            }
            1
        }
    }
}

/// The line of why a journal isn't opened.
fn line_of(alloc: Global, why: &Unopened) -> Result<String, AllocError> {
    match why {
        Unopened::Io(error) => format!(in alloc; "fault 4 Journal: {error}\n"),
        Unopened::Journal(OpenError::Foreign) => format!(in alloc; "fault 4 Journal: no journal\n"),
        Unopened::Journal(OpenError::Version) => format!(in alloc;
            "fault 4 Journal: of another version\n"
        ),
        Unopened::Journal(OpenError::Damaged(line)) => format!(in alloc;
            "fault 4 Journal: damaged from line {line} on\n"
        ),
        Unopened::Journal(OpenError::Failed) => format!(in alloc;
            "fault 4 Journal: the disk has failed\n"
        ),
        Unopened::Journal(OpenError::Memory) => format!(in alloc; "fault 1 NoMemory\n"),
        Unopened::Unrestored => format!(in alloc; "fault 4 Journal: not restored\n"),
        Unopened::NoMemory => format!(in alloc; "fault 1 NoMemory\n"),
    }
}

/// Opens the journal, and answers the session.
fn keep_file<E: Sink>(
    rt: &HostRuntime,
    alloc: Global,
    path: &str,
    faults: &mut E,
) -> Result<u8, Unopened> {
    let Ok(spare) = format!(in alloc; "{path}.new") else {
        return Err(Unopened::NoMemory)
    };
    let Ok(lock) = format!(in alloc; "{path}.lock") else {
        return Err(Unopened::NoMemory)
    };
    let folder = match path.rfind('/') {
        Some(0) => "/",
        Some(place) => &path[..place],
        None => ".",
    };
    let paths = Paths {
        file: path,
        spare: spare.as_str(),
        lock: lock.as_str(),
        folder,
    };
    let (mut device, bytes) = FileDevice::open(rt, alloc, paths)?;
    let found = match recover(alloc, &mut device, &bytes) {
        Ok(found) => found,
        Err(OpenError::Damaged(count)) => {
            return Err(Unopened::Journal(OpenError::Damaged(line_behind(&bytes, count))));
        }
        Err(error) => return Err(Unopened::Journal(error)),
    };
    let journal = Journal::new(device, &found);
    let mut kept = match Kept::new(alloc, journal, &found.text) {
        Ok(kept) => kept,
        Err(Unled::Unrestored) => return Err(Unopened::Unrestored),
        Err(Unled::NoMemory) => return Err(Unopened::NoMemory),
    };
    if found.cut > 0 {
        tell_cut(alloc, found.cut, faults);
    }
    let mut reader = StdSource::new(rt.reader());
    let mut writer = StdSink::new(io::writer(rt));
    Ok(keep_to_end(
        alloc,
        &mut kept,
        found.cut,
        &mut reader,
        &mut writer,
        faults,
    ))
}

/// Writes the line of how many bytes were cut off: a crash had left them of lines that weren't answered.
fn tell_cut<E: Sink>(alloc: Global, cut: usize, faults: &mut E) {
    if let Ok(text) = format!(in alloc; "warning 4 Journal: {cut} bytes cut off\n") {
        let _ = write_all(faults, text.as_bytes());
    }
}

/// Which line begins behind so many bytes.
fn line_behind(bytes: &[u8], count: usize) -> usize {
    let good = bytes.get(..count).unwrap_or(&[]);
    good.iter()
        .filter(|byte| **byte == b'\n')
        .count()
        .saturating_add(1)
}
