//! Where a report goes to.
ghost use Rattle.std.specs.Prelude.{◌≡◌, false, ◌<◌, ◌≤◌, ℕ, List, Bool, Option, Ok, length, take, IfOk};
ghost use Rattle.std.specs.Prelude.{OnErr, OnOk, IsTrue, IsErrOf};
ghost use Rattle.std.specs.Io.KnownBytes.{WriteAppends, Appends};
ghost use Rattle.tp_report.specs.Written.{AppendsFront};

use std::io::{ErrorKind, Write};
use tp_script::Failed;

/// A writer of bytes. Contracts see the bytes that it holds, where these are known, and whether it has
/// failed. To take none of some bytes is a failure.
pub trait Sink {
    ghost contents: { Self → Option (List ℕ) };

    ghost has_failed: { Self → Bool };

    /// Takes a prefix of the bytes, and answers how many. To take none of some is a failure; `Failed` where
    /// the writer failed and took none.
    fn write(&mut self, bytes: &[u8]) -> Result<usize, Failed>
        ensures count { IfOk result (λ n. n ≤ length bytes.now) }
        ensures bytes { WriteAppends (contents self.old) (contents self.new) result bytes.now }
        ensures none { result ≡ Ok 0 → 0 < length bytes.now → IsTrue (has_failed self.new) }
        ensures failed { OnErr result (IsTrue (has_failed self.new)) };
}

/// A writer of std as a sink.
#[derive(Drop)]
pub struct StdSink<W: Write> {
    writer: W,
    failed: bool,
}

impl<W: Write> StdSink<W> {
    /// The writer as a sink that hasn't failed.
    pub fn new(writer: W) -> Self
        ensures writer { result.writer ≡ writer }
        ensures failed { result.failed ≡ false }
    {
        StdSink {
            writer,
            failed: false,
        }
    }
}

impl<W: Write> Sink for StdSink<W> {
    ghost contents = { λ s. W.contents s.writer };

    ghost has_failed = { λ s. s.failed };

    fn write(&mut self, bytes: &[u8]) -> Result<usize, Failed> {
        match write_again(&mut self.writer, bytes) {
            Ok(n) => {
                if n == 0 && !bytes.is_empty() {
                    self.failed = true;
                }
                Ok(n)
            }
            Err(Failed) => {
                self.failed = true;
                Err(Failed)
            }
        }
    }
}

/// How often at most a write is tried that a signal interrupts each time.
const TRIES: u32 = 1_000;

/// One write, which is tried again where a signal interrupts it.
fn write_again<W: Write>(writer: &mut W, bytes: &[u8]) -> Result<usize, Failed>
    ensures count { IfOk result (λ n. n ≤ length bytes.now) }
    ensures bytes { WriteAppends (W.contents writer.old) (W.contents writer.new) result bytes.now }
{
    for _try in 0..TRIES {
        match writer.write(bytes) {
            Ok(n) => return Ok(n),
            Err(fault) => {
                if fault.kind() != ErrorKind::Interrupted {
                    return Err(Failed);
                }
            }
        }
    }
    Err(Failed)
}

/// Writes all the bytes, or a prefix of them.
pub fn write_all<S: Sink>(sink: &mut S, bytes: &[u8]) -> Result<(), Failed>
    ensures ok { OnOk result (Appends (S.contents sink.old) (S.contents sink.new) bytes.now) }
    ensures err { OnErr result (AppendsFront (S.contents sink.old) (S.contents sink.new) bytes.now) }
    ensures failed { OnErr result (IsTrue (S.has_failed sink.new)) }
{
    let mut rest = bytes;
    while !rest.is_empty() {
        let n = sink.write(rest)?;
        if n == 0 {
            return Err(Failed);
        }
        rest = &rest[n..];
    }
    Ok(())
}
