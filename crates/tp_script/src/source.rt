//! Where a script comes from.
ghost use Rattle.std.specs.Prelude.{◌≡◌, false, ◌+◌, ◌^◌, ◌<◌, ◌≤◌, ℕ, List, Bool, Option, length, take, min};
ghost use Rattle.std.specs.Prelude.{vec_len, IfOk, IfSome, OnErr, IsTrue, IsErrOf};
ghost use Rattle.std.specs.Io.KnownBytes.{ReadConsumes};
ghost use Rattle.tp_script.specs.declared.source.TheConstants.{MAX_SCRIPT_BYTES, MAX_READS};
ghost use Rattle.tp_script.specs.Devices.{HasNoScript};

use crate::fault::ReadFault;
use std::alloc::{AllocError, Global};
use std::io::{ErrorKind, Read};

/// A reader or a writer has failed.
#[derive(Clone, Copy, Debug, PartialEq, Eq)]
pub struct Failed;

/// A reader of bytes. Contracts see the bytes that it has left, where these are known, how often it was
/// asked, and whether it has failed.
pub trait Source {
    ghost rest: { Self → Option (List ℕ) };

    ghost asked: { Self → ℕ };

    ghost has_failed: { Self → Bool };

    /// Puts the next bytes into the beginning of the buffer, and answers how many: 0 at the end of the bytes,
    /// or where the buffer is empty. `Failed` where the reader failed.
    fn read(&mut self, buffer: &mut [u8]) -> Result<usize, Failed>
        requires { asked self.old + 1 < 2 ^ 64 }
        ensures count { IfOk result (λ n. n ≤ length buffer.new) }
        ensures bytes { ReadConsumes (rest self.old) (rest self.new) result buffer.new }
        ensures once { asked self.new ≡ asked self.old + 1 }
        ensures failed { OnErr result (IsTrue (has_failed self.new)) };
}

/// A reader of std as a source.
#[derive(Drop)]
pub struct StdSource<R: Read> {
    reader: R,
    asked: u64,
    failed: bool,
}

impl<R: Read> StdSource<R> {
    /// The reader as a source that wasn't asked yet, and hasn't failed.
    pub fn new(reader: R) -> Self
        ensures reader { result.reader ≡ reader }
        ensures asked { result.asked ≡ 0 }
        ensures failed { result.failed ≡ false }
    {
        StdSource {
            reader,
            asked: 0,
            failed: false,
        }
    }
}

impl<R: Read> Source for StdSource<R> {
    ghost rest = { λ s. R.remaining s.reader };

    ghost asked = { λ s. s.asked };

    ghost has_failed = { λ s. s.failed };

    fn read(&mut self, buffer: &mut [u8]) -> Result<usize, Failed> {
        self.asked += 1;
        match read_again(&mut self.reader, buffer) {
            Ok(n) => Ok(n),
            Err(Failed) => {
                self.failed = true;
                Err(Failed)
            }
        }
    }
}

/// Bytes in memory as a source, which never fails.
#[derive(Drop)]
pub struct BytesSource<'a> {
    bytes: &'a [u8],
    asked: u64,
}

impl<'a> BytesSource<'a> {
    /// The bytes as a source that wasn't asked yet.
    pub fn new(bytes: &'a [u8]) -> BytesSource<'a>
        ensures bytes { result.bytes.now ≡ bytes.now }
        ensures asked { result.asked ≡ 0 }
    {
        BytesSource { bytes, asked: 0 }
    }
}

impl Source for BytesSource<'_> {
    ghost use Rattle.std.specs.Prelude.{Some};

    ghost rest = { λ s. Some s.bytes.now };

    ghost asked = { λ s. s.asked };

    ghost has_failed = { λ _. false };

    fn read(&mut self, buffer: &mut [u8]) -> Result<usize, Failed> {
        self.asked += 1;
        let n = buffer.len().min(self.bytes.len());
        let (front, rest) = self.bytes.split_at(n);
        buffer[..n].copy_from_slice(front);
        self.bytes = rest;
        Ok(n)
    }
}

/// How often at most a read is tried that a signal interrupts each time.
const TRIES: u32 = 1_000;

/// One read, which is tried again where a signal interrupts it.
fn read_again<R: Read>(reader: &mut R, buffer: &mut [u8]) -> Result<usize, Failed>
    ensures count { IfOk result (λ n. n ≤ length buffer.new) }
    ensures bytes { ReadConsumes (R.remaining reader.old) (R.remaining reader.new) result buffer.new }
{
    for _try in 0..TRIES {
        match reader.read(buffer) {
            Ok(n) => return Ok(n),
            Err(fault) => {
                if fault.kind() != ErrorKind::Interrupted {
                    return Err(Failed);
                }
            }
        }
    }
    Err(Failed)
}

/// The longest script.
pub const MAX_SCRIPT_BYTES: usize = 65_536;

/// How often a reader is asked at most.
pub const MAX_READS: u32 = 100_000;

/// What the source gives up to its end, or the bytes past which a script is too long. Memory for these is had
/// before the source is asked: `NoMemory` is never told of what it gives.
pub fn read_all<S: Source>(alloc: Global, source: &mut S) -> Result<Vec<u8>, ReadFault>
    requires { S.asked source.old + MAX_READS < 2 ^ 64 }
    ensures bytes { IfOk result (λ read. IfSome (S.rest source.old)
        (λ all. read.items ≡ take (MAX_SCRIPT_BYTES + 1) all)) }
    ensures no_script { HasNoScript result }
    ensures asked { S.asked source.new ≤ S.asked source.old + MAX_READS }
    ensures fault { IsErrOf result ReadFault.Read → IsTrue (S.has_failed source.new) }
    ensures unread { IsErrOf result ReadFault.NoMemory → source.new ≡ source.old }
{
    let mut read = Vec::with_capacity(alloc, MAX_SCRIPT_BYTES + 1)?;
    for _ in 0..MAX_READS {
        let mut buffer = [0; 4096];
        let room = buffer.len().min(MAX_SCRIPT_BYTES + 1 - read.len());
        let n = source.read(&mut buffer[..room])?;
        if n == 0 {
            return Ok(read);
        }
        read.extend_from_slice(&buffer[..n])?;
        if read.len() > MAX_SCRIPT_BYTES {
            return Ok(read);
        }
    }
    // Each request but the last gave a byte at least, so that there are fewer.
    unreachable!();
}
