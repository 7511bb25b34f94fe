//! The line in front of a dump, and its numbers.
ghost use Rattle.std.specs.Prelude.{◌≡◌, IfOk, drop, string_bytes};
ghost use Rattle.tp_kept.specs.Lives.{dumped_in, for_in, is_marking, marking};
ghost use Rattle.tp_kept.specs.Numbers.{behind_number, is_digit, number_from};

use crate::lines::MARK;
use std::alloc::{AllocError, Global};
use std::string::String;

/// Whether a byte is a digit.
fn is_digit(byte: u8) -> bool
    ensures { result ≡ is_digit byte }
{
    48 <= byte && byte <= 57
}

/// The number at the front of these bytes.
fn number(bytes: &[u8]) -> u64
    ensures { result ≡ number_from 0 bytes.now }
{
    let mut number: u64 = 0;
    for byte in bytes {
        if !is_digit(*byte) {
            return number;
        }
        number = number
            .saturating_mul(10)
            .saturating_add(u64::from(*byte - 48));
    }
    number
}

/// What stands behind it.
fn behind_number(bytes: &[u8]) -> &[u8]
    ensures { result.now ≡ behind_number bytes.now }
{
    for at in 0..bytes.len() {
        if !is_digit(bytes[at]) {
            return &bytes[at..];
        }
    }
    &[]
}

/// What stands behind so many bytes.
fn behind(bytes: &[u8], many: usize) -> &[u8]
    ensures { result.now ≡ drop many bytes.now }
{
    if many <= bytes.len() {
        return &bytes[many..];
    }
    &[]
}

/// Whether a line stands in front of a dump.
pub(crate) fn is_marking(line: &[u8]) -> bool
    ensures { result ≡ is_marking line.now }
{
    line.iter().any(|byte| *byte == MARK)
}

/// How many lines the dump behind this line has.
pub(crate) fn dumped_in(line: &[u8]) -> u64
    ensures { result ≡ dumped_in line.now }
{
    number(behind(line, 14))
}

/// For how many lines of clients it stands.
pub(crate) fn for_in(line: &[u8]) -> u64
    ensures { result ≡ for_in line.now }
{
    number(behind(behind_number(behind(line, 14)), 11))
}

/// The line in front of a dump of so many lines, which stands for so many of clients.
pub(crate) fn marking(alloc: Global, dumped: u64, counted: u64) -> Result<String, AllocError>
    ensures { IfOk result (λ text. string_bytes text ≡ marking dumped counted) }
{
    format!(in alloc; "# covetrivet: {dumped} lines for {counted}\u{2}\n")
}
