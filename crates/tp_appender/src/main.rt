//! Appends the lines on standard input to a journal, those of a read as a batch, and tells which are kept.
//!
//! `tp_appender FILE` writes what it recovered, then `ready` with how many bytes were cut off behind that.
//! For each batch it writes `acknowledged` with the number of lines, or `refused`. A batch that begins with
//! `!` takes the place of all. Beside the file it makes `FILE.new` and `FILE.lock`.
//!
//! Exit status 0: done. 1: a fault, with its line on standard error. 64: not one word.
#![tactic(auto)]

ghost use Rattle.std.specs.Prelude.{◌≤◌, length};
ghost use Rattle.tp_journal.specs.Journal.{IsJournalOpen};

use anyhow::Result;
use std::alloc::Global;
use std::io::{Read, Write};
use std::process::ExitCode;
use std::{env, io};
use tp_journal::{AppendError, Device, FileDevice, Journal, OpenError, Paths, recover};

/// How many bytes are read at once.
const CHUNK: usize = 65_536;

fn main(rt: HostRuntime) -> Result<ExitCode> {
    let alloc = rt.alloc();
    let mut words = env::args(&rt)?;
    let _program = words.next();
    let (Some(path), None) = (words.next(), words.next()) else {
        return Ok(ExitCode::from(64));
    };
    let spare = format!(in alloc; "{path}.new")?;
    let lock = format!(in alloc; "{path}.lock")?;
    let folder = match path.rfind('/') {
        Some(0) => "/",
        Some(place) => &path[..place],
        None => ".",
    };
    let paths = Paths {
        file: path.as_str(),
        spare: spare.as_str(),
        lock: lock.as_str(),
        folder,
    };
    let (mut device, bytes) = match FileDevice::open(&rt, alloc, paths) {
        Ok(opened) => opened,
        Err(error) => {
            eprintln!(rt; "{error}")?;
            return Ok(ExitCode::from(1));
        }
    };
    let found = match recover(alloc, &mut device, &bytes) {
        Ok(found) => found,
        Err(OpenError::Damaged(count)) => {
            eprintln!(rt; "Damaged from line {} on", line_behind(&bytes, count))?;
            return Ok(ExitCode::from(1));
        }
        Err(error) => {
            eprintln!(rt; "{error:?}")?;
            return Ok(ExitCode::from(1));
        }
    };
    io::writer(&rt).write_all(&found.text)?;
    println!(rt; "ready {}", found.cut)?;
    let mut journal = Journal::new(device, &found);
    take_batches(&rt, alloc, &mut journal)
}

/// Which line begins behind so many bytes.
fn line_behind(bytes: &[u8], count: usize) -> usize {
    let good = bytes.get(..count).unwrap_or(&[]);
    good.iter()
        .filter(|byte| **byte == b'\n')
        .count()
        .saturating_add(1)
}

/// Appends what is read, up to the last end of a line, until all is read or the journal takes no more.
fn take_batches<D: Device>(
    rt: &HostRuntime,
    alloc: Global,
    journal: &mut Journal<D>,
) -> Result<ExitCode>
    requires { IsJournalOpen D.seen D.may_leave journal.old }
{
    let mut input = rt.reader();
    let mut chunk = Vec::new(alloc);
    let mut buffer = [0; CHUNK];
    for _ in 0..u64::MAX {
        let count = input.read(&mut buffer)?;
        if count == 0 {
            break;
        }
        chunk.extend_from_slice(buffer.get(..count).unwrap_or(&[]))?;
        if !take_lines(rt, alloc, journal, &mut chunk)? {
            return Ok(ExitCode::from(1));
        }
    }
    Ok(ExitCode::from(0))
}

/// Takes the whole lines out of what was read, and says whether the journal goes on.
fn take_lines<D: Device>(
    rt: &HostRuntime,
    alloc: Global,
    journal: &mut Journal<D>,
    chunk: &mut Vec<u8>,
) -> Result<bool>
    requires { IsJournalOpen D.seen D.may_leave journal.old }
    ensures { IsJournalOpen D.seen D.may_leave journal.new }
{
    let count = lines_len(chunk);
    if count == 0 {
        return Ok(true);
    }
    let rest = chunk[count..].to_vec(alloc)?;
    let answer = take(alloc, journal, &chunk[..count]);
    let goes_on = tell(rt, &chunk[..count], answer)?;
    *chunk = rest;
    Ok(goes_on)
}

/// How many bytes the whole lines have.
fn lines_len(bytes: &[u8]) -> usize
    ensures { result ≤ length bytes.now }
{
    match bytes.iter().rposition(|byte| *byte == b'\n') {
        Some(place) => place + 1,
        None => 0,
    }
}

/// Appends lines, or puts them in the place of all that was appended.
fn take<D: Device>(
    alloc: Global,
    journal: &mut Journal<D>,
    lines: &[u8],
) -> std::result::Result<(), AppendError>
    requires { IsJournalOpen D.seen D.may_leave journal.old }
    ensures { IsJournalOpen D.seen D.may_leave journal.new }
{
    if lines.first() == Some(&b'!') {
        return journal.replace(alloc, lines);
    }
    journal.append(alloc, lines)
}

/// Tells what became of lines, and whether the journal goes on.
fn tell(
    rt: &HostRuntime,
    lines: &[u8],
    answer: std::result::Result<(), AppendError>,
) -> Result<bool> {
    match answer {
        Ok(()) => {
            let count = lines.iter().filter(|byte| **byte == b'\n').count();
            println!(rt; "acknowledged {count}")?;
        }
        Err(AppendError::Refused(_)) => println!(rt; "refused")?,
        Err(error) => {
            eprintln!(rt; "{error:?}")?;
            return Ok(false);
        }
    }
    Ok(true)
}
