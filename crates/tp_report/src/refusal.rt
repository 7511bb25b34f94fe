//! The report of a refused script.
ghost use Rattle.std.specs.Prelude.{OnOk, OnErr, IsErrOf, IsTrue};
ghost use Rattle.std.specs.Io.KnownBytes.{Appends};
ghost use Rattle.tp_script.specs.Fault.{refused_text};
ghost use Rattle.tp_report.specs.Answer.{line};
ghost use Rattle.tp_report.specs.Written.{AppendsFront};

use crate::answer::refused_line;
use crate::fault::RunFault;
use crate::sink::{Sink, write_all};
use std::alloc::Global;
use tp_script::Refused;

/// Writes the one line of a refused script.
pub fn write_refusal<W: Sink>(
    alloc: Global,
    refused: Refused,
    writer: &mut W,
) -> Result<(), RunFault>
    ensures done { OnOk result (Appends (W.contents writer.old) (W.contents writer.new)
        (line (refused_text refused))) }
    ensures front { OnErr result (AppendsFront (W.contents writer.old) (W.contents writer.new)
        (line (refused_text refused))) }
    ensures write { IsErrOf result RunFault.Write → IsTrue (W.has_failed writer.new) }
{
    let text = refused_line(alloc, refused)?;
    write_all(writer, text.as_bytes())?;
    Ok(())
}
