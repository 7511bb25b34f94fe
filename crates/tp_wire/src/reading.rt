//! The lines of a wire, one by one, and the answers that are not written yet.
ghost use Rattle.std.specs.Prelude.{◌≡◌, ◌≤◌, ◌<◌, ◌+◌, ◌^◌, ◌==◌, ◌++◌, ◌⊎◌, [], false, true, IfOk, IsErrOf};
ghost use Rattle.std.specs.Prelude.{IsTrue, OnErr, OnOk, length, position, take, vec_capacity, vec_len};
ghost use Rattle.tp_wire.specs.declared.reading.TheConstants.{MAX_ASKED, MAX_KEPT};

use crate::wire::Wire;
use std::alloc::{AllocError, Global};
use tp_report::Fault;
use tp_script::Failed;

/// The bytes of a line that are kept: one more than a line may have, so that a longer one is known by it.
pub const MAX_KEPT: usize = 1_024;

/// How often a wire is asked in a session at most: a million times a second for 71 years. The lines that
/// come meanwhile have numbers below 2 ^ 64.
pub const MAX_ASKED: u64 = 2_251_799_813_685_248;

/// What was read last and not used yet, the line so far, and the answers that are not written yet.
#[derive(Drop)]
pub struct Lines {
    chunk: Vec<u8>,
    at: usize,
    line: Vec<u8>,
    answers: Vec<u8>,
    /// How often the wire may still be asked.
    pub left: u64,
    ghost short: { vec_len line ≤ MAX_KEPT },
    ghost inside: { at ≤ vec_len chunk },
    ghost few: { left ≤ MAX_ASKED },
}

/// Where the first line of these bytes ends, if it does.
fn line_end(bytes: &[u8]) -> Option<usize>
    ensures { result ≡ position (λ b. b == 10) bytes.now }
{
    bytes.iter().position(|byte| *byte == b'\n')
}

/// Adds bytes to a line, of which no more are kept than tell that it is too long.
fn keep(line: &mut Vec<u8>, bytes: &[u8]) -> Result<(), AllocError>
    requires short { vec_len line.old ≤ MAX_KEPT }
    ensures short { vec_len line.new ≤ MAX_KEPT }
    ensures kept { OnOk result (line.new.items ≡ take MAX_KEPT (line.old.items ++ bytes.now)) }
{
    let room = MAX_KEPT - line.len();
    line.extend_from_slice(&bytes[..bytes.len().min(room)])
}

impl Lines {
    ghost use Rattle.std.specs.Io.KnownBytes.{Appends, Consumes, IsAtEnd};
    ghost use Rattle.tp_report.specs.Written.{AppendsFront};
    ghost use Rattle.tp_wire.specs.Heard.{Next, Tells};
    ghost use Rattle.tp_wire.specs.Reading.{IsLong, IsOver, Spends, TakesLine, besides, room, to_come};
    ghost use Rattle.tp_wire.specs.Reading.{unused};

    /// Nothing was read yet.
    pub fn new(alloc: Global) -> Lines
        ensures left { result.left ≡ MAX_ASKED }
        ensures unused { unused result ≡ [] }
        ensures untold { result.answers.items ≡ [] }
    {
        Lines {
            chunk: Vec::new(alloc),
            at: 0,
            line: Vec::new(alloc),
            answers: Vec::new(alloc),
            left: MAX_ASKED,
        }
    }

    /// The line that `next` has come to, or the first bytes of one that is too long.
    pub fn line(&self) -> &[u8]
        ensures { result.now ≡ self.now.line.items }
    {
        self.line.as_slice()
    }

    /// What was told and isn't written yet.
    pub fn answers(&self) -> &[u8]
        ensures { result.now ≡ self.now.answers.items }
    {
        self.answers.as_slice()
    }

    /// Adds an answer, which is written before the wire is asked again. It fails only where there is no room
    /// for it yet.
    pub fn tell(&mut self, text: &[u8]) -> Result<(), AllocError>
        ensures told { OnOk result (self.new.answers.items ≡ self.old.answers.items ++ text.now) }
        ensures full { OnErr result
            (vec_capacity self.old.answers < vec_len self.old.answers + length text.now) }
        ensures left { self.new.left ≡ self.old.left }
        ensures unused { unused self.new ≡ unused self.old }
        ensures line { self.new.line ≡ self.old.line }
    {
        self.answers.extend_from_slice(text)
    }

    /// Writes the answers.
    pub fn flush<W: Wire>(&mut self, wire: &mut W) -> Result<(), Fault>
        requires ready { W.ready wire.old }
        ensures ready { W.ready wire.new }
        ensures left { self.new.left ≡ self.old.left }
        ensures unused { unused self.new ≡ unused self.old }
        ensures line { self.new.line ≡ self.old.line }
        ensures rest { W.rest wire.new ≡ W.rest wire.old }
        ensures asked { W.asked wire.new ≡ W.asked wire.old }
        ensures none { OnOk result (self.new.answers.items ≡ []) }
        ensures told { OnOk result
            (Appends (W.contents wire.old) (W.contents wire.new) self.old.answers.items) }
        ensures front { OnErr result
            (AppendsFront (W.contents wire.old) (W.contents wire.new) self.old.answers.items) }
        ensures write { IsErrOf result Fault.Write → IsTrue (W.write_failed wire.new) }
        ensures no_read { ¬ (IsErrOf result Fault.Read) }
    {
        match wire.tell(self.answers.as_slice()) {
            Ok(()) => {
                self.answers.clear();
                Ok(())
            }
            Err(Failed) => Err(Fault::Write),
        }
    }

    /// Takes the rest of the line from what was read: whether its end was there.
    fn take_line(&mut self) -> Result<bool, AllocError>
        ensures left { self.new.left ≡ self.old.left }
        ensures same { self.new.answers ≡ self.old.answers }
        ensures takes { IfOk result (λ ended. TakesLine ended self.old self.new) }
    {
        let rest = &self.chunk[self.at..];
        match line_end(rest) {
            Some(place) => {
                keep(&mut self.line, &rest[..place])?;
                self.at += place + 1;
                Ok(true)
            }
            None => {
                keep(&mut self.line, rest)?;
                self.at = self.chunk.len();
                Ok(false)
            }
        }
    }

    /// Reads more, once the answers are written: whether there was more. All that was read before is used.
    fn read_more<W: Wire>(&mut self, wire: &mut W) -> Result<bool, Fault>
        requires ready { W.ready wire.old }
        requires asked { W.asked wire.old + self.old.left < 2 ^ 64 }
        requires used { unused self.old ≡ [] }
        ensures ready { W.ready wire.new }
        ensures asked { W.asked wire.new + self.new.left ≡ W.asked wire.old + self.old.left }
        ensures once { OnOk result (self.new.left + 1 ≡ self.old.left) }
        ensures room { OnOk result (room self.new + 1 ≤ room self.old) }
        ensures line { self.new.line ≡ self.old.line }
        ensures consumes { OnOk result
            (Consumes (to_come self.old (W.rest wire.old)) (to_come self.new (W.rest wire.new)) []) }
        ensures end { IfOk result (λ some. some ≡ false → IsAtEnd (to_come self.new (W.rest wire.new))) }
        ensures told { OnOk result (Tells (W.contents wire.old) (W.contents wire.new)
            self.new.answers.items self.old.answers.items) }
        ensures front { OnErr result
            (AppendsFront (W.contents wire.old) (W.contents wire.new) self.old.answers.items) }
        ensures write { IsErrOf result Fault.Write → IsTrue (W.write_failed wire.new) }
        ensures read { IsErrOf result Fault.Read
            → IsOver (W.read_failed wire.new) (W.asked wire.old + self.old.left) (W.asked wire.new) }
        ensures some { IfOk result (λ some. some ≡ true → 1 ≤ length (unused self.new)) }
        ensures over { IsErrOf result Fault.Read → IsTrue (W.read_failed wire.new) ⊎ (self.old.left ≡ 0) }
    {
        self.flush(wire)?;
        if self.left == 0 {
            return Err(Fault::Read);
        }
        self.left -= 1;
        let mut buffer = [0; 4096];
        let n = match wire.read(&mut buffer) {
            Ok(n) => n,
            Err(Failed) => return Err(Fault::Read),
        };
        self.at = 0;
        self.chunk.clear();
        match self.chunk.extend_from_slice(&buffer[..n]) {
            Ok(()) => Ok(n > 0),
            Err(_) => Err(Fault::NoMemory),
        }
    }

    /// Goes on to the next line: whether there is one. All answers are written before the wire is asked.
    /// Bytes without a line's end at the end of the input are a line too.
    pub fn next<W: Wire>(&mut self, wire: &mut W) -> Result<bool, Fault>
        requires ready { W.ready wire.old }
        requires asked { W.asked wire.old + self.old.left < 2 ^ 64 }
        ensures ready { W.ready wire.new }
        ensures asked { W.asked wire.new + self.new.left ≡ W.asked wire.old + self.old.left }
        ensures room { OnOk result (room self.new + 1 ≤ room self.old) }
        ensures next { IfOk result (λ more. Next more (to_come self.old (W.rest wire.old))
            self.new.line.items (to_come self.new (W.rest wire.new))) }
        ensures told { OnOk result (Tells (W.contents wire.old) (W.contents wire.new)
            self.new.answers.items self.old.answers.items) }
        ensures front { OnErr result
            (AppendsFront (W.contents wire.old) (W.contents wire.new) self.old.answers.items) }
        ensures write { IsErrOf result Fault.Write → IsTrue (W.write_failed wire.new) }
        ensures read { IsErrOf result Fault.Read
            → IsOver (W.read_failed wire.new) (W.asked wire.old + self.old.left) (W.asked wire.new) }
        ensures spends { IfOk result (λ more.
            Spends (besides more) self.old (W.rest wire.old) self.new (W.rest wire.new)) }
        ensures long { IsErrOf result Fault.Read
            → IsTrue (W.read_failed wire.new) ⊎ IsLong self.old (W.rest wire.old) }
    {
        self.line.clear();
        for _read in 0..MAX_ASKED {
            match self.take_line() {
                Ok(true) => return Ok(true),
                Ok(false) => {}
                Err(_) => return Err(Fault::NoMemory),
            }
            if !self.read_more(wire)? {
                return Ok(!self.line.is_empty());
            }
        }
        Err(Fault::Read)
    }
}
