//! Readers and writers that fail, and a reader that hands out one byte a call.

use tp_report::Sink;
use tp_script::{Failed, Source};

/// A reader of these bytes that hands out at most this many a call, and fails at a call.
#[derive(Drop)]
pub struct Reader<'a> {
    pub bytes: &'a [u8],
    /// The most bytes of one call.
    pub most: usize,
    /// The call that fails, from 1 on; 0: none.
    pub fails_at: u64,
    pub calls: u64,
}

impl Source for Reader<'_> {
    ghost use Rattle.std.specs.Prelude.{None, false, true};

    ghost rest = { λ _. None };

    ghost asked = { λ r. r.calls };

    ghost has_failed = { λ _. true };

    fn read(&mut self, buffer: &mut [u8]) -> Result<usize, Failed> {
        self.calls += 1;
        if self.calls == self.fails_at {
            return Err(Failed);
        }
        let n = buffer.len().min(self.bytes.len()).min(self.most);
        let (front, rest) = self.bytes.split_at(n);
        buffer[..n].copy_from_slice(front);
        self.bytes = rest;
        Ok(n)
    }
}

/// A writer that takes at most this many bytes a call, and fails at a call.
#[derive(Drop)]
pub struct Writer {
    pub taken: Vec<u8>,
    /// The most bytes of one call.
    pub most: usize,
    /// The call that fails, from 1 on; 0: none.
    pub fails_at: u64,
    pub calls: u64,
}

impl Sink for Writer {
    ghost use Rattle.std.specs.Prelude.{None, true};

    ghost contents = { λ _. None };

    ghost has_failed = { λ _. true };

    fn write(&mut self, bytes: &[u8]) -> Result<usize, Failed> {
        self.calls = self.calls.saturating_add(1);
        if self.calls == self.fails_at {
            return Err(Failed);
        }
        let n = bytes.len().min(self.most);
        match self.taken.extend_from_slice(&bytes[..n]) {
            Ok(()) => Ok(n),
            Err(_) => Err(Failed),
        }
    }
}
