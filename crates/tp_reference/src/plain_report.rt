//! The report of a script of one thread.
ghost use Rattle.std.specs.Prelude.{◌≡◌, OnOk, OnErr, IsTrue, IsErrOf};
ghost use Rattle.std.specs.Io.KnownBytes.{Appends};
ghost use Rattle.tp_report.specs.Written.{AppendsFront};
ghost use Rattle.tp_reference.specs.PlainReport.{report_of};
ghost use Rattle.tp_script.specs.Script.{script_view};

use crate::plain_run::PlainRun;
use std::alloc::Global;
use tp_report::{RunFault, Sink, write_all};
use tp_script::Script;

/// Performs the commands of a script, and writes its report.
pub fn write_plain_report<W: Sink>(
    alloc: Global,
    script: &Script,
    sink: &mut W,
) -> Result<(), RunFault>
    ensures done { OnOk result (Appends (W.contents sink.old) (W.contents sink.new)
        (report_of (script_view script.now))) }
    ensures front { OnErr result (AppendsFront (W.contents sink.old) (W.contents sink.new)
        (report_of (script_view script.now))) }
    ensures write { IsErrOf result RunFault.Write → IsTrue (W.has_failed sink.new) }
{
    let mut run = PlainRun::new(alloc, &script.head)?;
    for act in &script.acts {
        let line = run.act(alloc, script, act)?;
        write_all(sink, line.as_bytes())?;
    }
    let last = run.closing(alloc, script.head.servers.as_slice(), script.account)?;
    write_all(sink, last.as_bytes())?;
    Ok(())
}
