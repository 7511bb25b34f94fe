//! The line of the closing account.
ghost use Rattle.std.specs.Prelude.{IsErrOf, IsTrue, OnErr, OnOk};
ghost use Rattle.std.specs.Io.KnownBytes.{Appends};
ghost use Rattle.tp_report.specs.Answer.{account_text, line};
ghost use Rattle.tp_report.specs.Lines.{Writes, WritesFront};
ghost use Rattle.tp_report.specs.Written.{AppendsFront};

use crate::answer::{Answer, line};
use crate::fault::RunFault;
use crate::sink::{Sink, write_all};
use std::alloc::Global;
use tp_model::types::Account;

/// Writes the line of the closing account: how many elements are born, and how many of them have each
/// way.
pub fn account_line<W: Sink>(
    alloc: Global,
    account: &Account,
    writer: &mut W,
) -> Result<(), RunFault>
    ensures done { OnOk result (Appends (W.contents writer.old) (W.contents writer.new)
        (line (account_text account.now.total))) }
    ensures front { OnErr result (AppendsFront (W.contents writer.old) (W.contents writer.new)
        (line (account_text account.now.total))) }
    ensures line { OnOk result (Writes 1 (W.contents writer.old) (W.contents writer.new)) }
    ensures line_front { OnErr result (WritesFront 1 (W.contents writer.old) (W.contents writer.new)) }
    ensures write { IsErrOf result RunFault.Write → IsTrue (W.has_failed writer.new) }
{
    let text = line(alloc, Answer::Account(account.total))?;
    write_all(writer, text.as_bytes())?;
    Ok(())
}
