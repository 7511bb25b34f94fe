//! Lines as they are put down in a journal, and as they are taken out of it.
ghost use Rattle.std.specs.Prelude.{◌≡◌, ◌==◌, ◌≤◌, ◌∷◌, ◌++◌, [], All, OnOk, IfOk, position, vec_len};
ghost use Rattle.tp_kept.specs.Lines.{IsTheirs, Puts, given_in, is_own, put_down, shut};
ghost use Rattle.tp_wire.specs.declared.reading.TheConstants.{MAX_KEPT};

use std::alloc::{AllocError, Global};
use tp_wire::MAX_KEPT;

/// The byte that ends a batch of a journal: a line that has it is the journal's own.
const END: u8 = 23;

/// The byte that marks the line in front of a dump.
pub(crate) const MARK: u8 = 2;

/// What stands for a byte that no line of a client has in a journal.
const STANDS_FOR: u8 = 1;

/// A byte of a line as it is put down.
fn put_down(byte: u8) -> u8
    ensures { result ≡ put_down byte }
{
    if byte == 0 || byte == END || byte == MARK {
        STANDS_FOR
    } else {
        byte
    }
}

/// Puts a line down, with its end.
fn shut(line: &[u8], ready: &mut Vec<u8>) -> Result<(), AllocError>
    ensures { OnOk result (ready.new.items ≡ ready.old.items ++ shut line.now) }
{
    ready.extend_from_slice(line)?;
    ready.push(b'\n')?;
    Ok(())
}

/// Takes a byte, behind what is there of a line.
fn put_byte(line: &mut Vec<u8>, byte: u8, ready: &mut Vec<u8>) -> Result<(), AllocError>
    requires short { vec_len line.old ≤ MAX_KEPT }
    requires plain { All IsTheirs line.old.items }
    ensures short { vec_len line.new ≤ MAX_KEPT }
    ensures plain { All IsTheirs line.new.items }
    ensures put { OnOk result
        (Puts (byte ∷ []) line.old.items ready.old.items line.new.items ready.new.items) }
{
    if byte == b'\n' {
        shut(line.as_slice(), ready)?;
        line.clear();
    } else if line.len() < MAX_KEPT {
        line.push(put_down(byte))?;
    }
    Ok(())
}

/// Takes what is there of a line as a whole one.
pub(crate) fn end(line: &mut Vec<u8>, ready: &mut Vec<u8>) -> Result<(), AllocError>
    requires plain { All IsTheirs line.old.items }
    ensures short { vec_len line.new ≤ vec_len line.old }
    ensures plain { All IsTheirs line.new.items }
    ensures ended { OnOk result ((ready.new.items ≡ ready.old.items ++ shut line.old.items)
        × (line.new.items ≡ [])) }
{
    shut(line.as_slice(), ready)?;
    line.clear();
    Ok(())
}

/// Takes bytes, behind what is there of a line: those lines that have ended, and what is there of the next.
pub(crate) fn put(line: &mut Vec<u8>, bytes: &[u8], ready: &mut Vec<u8>) -> Result<(), AllocError>
    requires short { vec_len line.old ≤ MAX_KEPT }
    requires plain { All IsTheirs line.old.items }
    ensures short { vec_len line.new ≤ MAX_KEPT }
    ensures plain { All IsTheirs line.new.items }
    ensures put { OnOk result (Puts bytes.now line.old.items ready.old.items line.new.items ready.new.items) }
{
    for byte in bytes {
        put_byte(line, *byte, ready)?;
    }
    Ok(())
}

/// Where the first line of these bytes ends, if it does.
pub(crate) fn line_end(bytes: &[u8]) -> Option<usize>
    ensures { result ≡ position (λ b. b == 10) bytes.now }
{
    bytes.iter().position(|byte| *byte == b'\n')
}

/// Whether a line is the journal's own.
fn is_own(line: &[u8]) -> bool
    ensures { result ≡ is_own line.now }
{
    line.iter().any(|byte| *byte == END)
}

/// The lines of a text, each with its end, but for a journal's own.
pub(crate) fn given(alloc: Global, text: &[u8]) -> Result<Vec<u8>, AllocError>
    ensures { IfOk result (λ lines. lines.items ≡ given_in text.now) }
{
    let mut lines = Vec::new(alloc);
    let mut rest = text;
    while let Some(place) = line_end(rest) {
        let (line, others) = rest.split_at(place);
        if !is_own(line) {
            lines.extend_from_slice(line)?;
            lines.push(b'\n')?;
        }
        rest = &others[1..];
    }
    Ok(lines)
}
