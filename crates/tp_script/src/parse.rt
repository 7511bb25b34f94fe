//! A script from its bytes.
ghost use Rattle.std.specs.Prelude.{◌≡◌, ◌+◌, ◌^◌, ◌<◌, ◌≤◌, IfSome, IsErrOf, IsTrue};
ghost use Rattle.tp_script.specs.declared.source.TheConstants.{MAX_READS};
ghost use Rattle.tp_script.specs.Whole.{script};
ghost use Rattle.tp_script.specs.Reading.{ReadsAs, fault_at};

use crate::fault::{LineError, LineFault, ReadFault, Refused};
use crate::source::{MAX_SCRIPT_BYTES, Source, read_all};
use crate::text::lines;
use crate::whole::Script;
use std::alloc::Global;

/// The fault of a line.
pub(crate) fn at_line(line: u32, error: LineError) -> ReadFault
    ensures { result ≡ fault_at line error }
{
    match error {
        LineError::NoMemory => ReadFault::NoMemory,
        LineError::Fault(fault) => ReadFault::Script(Refused { line, fault }),
    }
}

/// The script that bytes say.
pub fn parse(alloc: Global, bytes: &[u8]) -> Result<Script, ReadFault>
    ensures script { ReadsAs result (script bytes.now) }
    ensures no_read { ¬ (IsErrOf result ReadFault.Read) }
{
    if bytes.len() > MAX_SCRIPT_BYTES {
        return Err(at_line(0, LineError::Fault(LineFault::TooLong)));
    }
    let lines = lines(alloc, bytes)?;
    let mut script = Script::new(alloc);
    let mut line = 1;
    for text in &lines {
        match script.line(alloc, text) {
            Ok(()) => line += 1,
            Err(error) => return Err(at_line(line, error)),
        }
    }
    Ok(script)
}

/// The script that a source gives.
pub fn read_script<S: Source>(alloc: Global, source: &mut S) -> Result<Script, ReadFault>
    requires { S.asked source.old + MAX_READS < 2 ^ 64 }
    ensures script { IfSome (S.rest source.old) (λ bytes. ReadsAs result (script bytes)) }
    ensures asked { S.asked source.new ≤ S.asked source.old + MAX_READS }
    ensures fault { IsErrOf result ReadFault.Read → IsTrue (S.has_failed source.new) }
{
    let bytes = read_all(alloc, source)?;
    parse(alloc, bytes.as_slice())
}
