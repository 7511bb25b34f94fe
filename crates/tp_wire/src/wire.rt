//! Where a session's lines come from, and where its answers go.
ghost use Rattle.std.specs.Prelude.{◌≡◌, ◌+◌, ◌^◌, ◌<◌, ◌≤◌, [], ℕ, List, Bool, Option, length, IfOk, IsTrue};
ghost use Rattle.std.specs.Prelude.{OnErr, OnOk, take};
ghost use Rattle.std.specs.Io.KnownBytes.{Appends, Consumes, IsAtEnd};
ghost use Rattle.tp_report.specs.Written.{AppendsFront};

use tp_report::{Sink, write_all};
use tp_script::{Failed, Source};

/// A reader of lines and a writer of answers in one, so that it knows which answers were written before which
/// bytes were read. Contracts see the bytes that it has left and what it has written, where these are known,
/// how often it was asked, and whether reading or writing has failed.
pub trait Wire {
    ghost rest: { Self → Option (List ℕ) };

    ghost contents: { Self → Option (List ℕ) };

    ghost asked: { Self → ℕ };

    ghost read_failed: { Self → Bool };

    ghost write_failed: { Self → Bool };

    /// What holds between two calls.
    ghost ready: { Self → Type 0 };

    /// Puts the next bytes into the beginning of the buffer, and answers how many: 0 at the end of the bytes,
    /// or where the buffer is empty. `Failed` where reading failed.
    fn read(&mut self, buffer: &mut [u8]) -> Result<usize, Failed>
        requires asked { asked self.old + 1 < 2 ^ 64 }
        requires ready { ready self.old }
        ensures ready { ready self.new }
        ensures count { IfOk result (λ n. n ≤ length buffer.new) }
        ensures bytes { IfOk result (λ n. Consumes (rest self.old) (rest self.new) (take n buffer.new)
            × (n ≡ 0 → 0 < length buffer.new → IsAtEnd (rest self.new))) }
        ensures once { asked self.new ≡ asked self.old + 1 }
        ensures same { Appends (contents self.old) (contents self.new) [] }
        ensures failed { OnErr result (IsTrue (read_failed self.new)) };

    /// Writes answers. `Failed` where a front of them is written and writing failed.
    fn tell(&mut self, answers: &[u8]) -> Result<(), Failed>
        requires ready { ready self.old }
        ensures ready { ready self.new }
        ensures told { OnOk result (Appends (contents self.old) (contents self.new) answers.now) }
        ensures front { OnErr result (AppendsFront (contents self.old) (contents self.new) answers.now) }
        ensures rest { rest self.new ≡ rest self.old }
        ensures asked { asked self.new ≡ asked self.old }
        ensures failed { OnErr result (IsTrue (write_failed self.new)) };
}

/// A reader and a writer beside each other.
#[derive(Drop)]
pub struct Pipes<R: Source, W: Sink> {
    /// Where the lines come from.
    pub reader: R,
    /// Where the answers go.
    pub writer: W,
}

impl<R: Source, W: Sink> Wire for Pipes<R, W> {
    ghost rest = { λ p. R.rest p.reader };

    ghost contents = { λ p. W.contents p.writer };

    ghost asked = { λ p. R.asked p.reader };

    ghost read_failed = { λ p. R.has_failed p.reader };

    ghost write_failed = { λ p. W.has_failed p.writer };

    ghost ready = { λ _. Unit {0} };

    fn read(&mut self, buffer: &mut [u8]) -> Result<usize, Failed> {
        self.reader.read(buffer)
    }

    fn tell(&mut self, answers: &[u8]) -> Result<(), Failed> {
        write_all(&mut self.writer, answers)
    }
}
