//! A session on a wire: each line is answered before the next one is asked for.
ghost use Rattle.std.specs.Prelude.{◌≡◌, ◌+◌, ◌*◌, ◌<◌, ◌≤◌, ◌^◌, ◌++◌, ◌⊎◌, IfSome, IsErrOf, IsTrue, OnErr, OnOk};
ghost use Rattle.std.specs.Prelude.{Result, length};
ghost use Rattle.std.specs.Io.KnownBytes.{Appends};
ghost use Rattle.tp_report.specs.Faults.{TellsFault, exit_status};
ghost use Rattle.tp_report.specs.Written.{AppendsFront};
ghost use Rattle.tp_report.specs.declared.fault.Exit.{Exit};
ghost use Rattle.tp_report.specs.declared.fault.Fault.{Fault};
ghost use Rattle.tp_session.specs.Conversed.{Attends, AttendsFront, Conversed, ConversedAs, ConversedFront};
ghost use Rattle.tp_session.specs.Session.{finals, line_step};
ghost use Rattle.tp_wire.specs.Heard.{Tells};
ghost use Rattle.tp_wire.specs.Reading.{IsLong, IsOver, room, to_come, unused};
ghost use Rattle.tp_wire.specs.declared.reading.TheConstants.{MAX_ASKED};

use crate::session::Session;
use std::alloc::Global;
use tp_report::{Exit, Fault, Sink, exit_status, write_fault};
use tp_wire::{Lines, MAX_ASKED, Wire};

/// Answers a whole session: each line, in order, before the next one is asked for, and at the end of the
/// input the registers of each server. It fails where memory runs out, and where reading or writing does.
pub fn converse<W: Wire>(alloc: Global, wire: &mut W) -> Result<(), Fault>
    requires ready { W.ready wire.old }
    requires asked { W.asked wire.old + MAX_ASKED < 2 ^ 64 }
    ensures ready { W.ready wire.new }
    ensures conversed { OnOk result (IfSome (W.rest wire.old)
        (λ bytes. Conversed bytes (W.contents wire.old) (W.contents wire.new))) }
    ensures front { OnErr result (IfSome (W.rest wire.old)
        (λ bytes. ConversedFront bytes (W.contents wire.old) (W.contents wire.new))) }
    ensures write { IsErrOf result Fault.Write → IsTrue (W.write_failed wire.new) }
    ensures read { IsErrOf result Fault.Read
        → IsOver (W.read_failed wire.new) (W.asked wire.old + MAX_ASKED) (W.asked wire.new) }
    ensures long { IsErrOf result Fault.Read → IsTrue (W.read_failed wire.new)
        ⊎ IfSome (W.rest wire.old) (λ bytes. MAX_ASKED ≤ 2 * length bytes + 2) }
{
    let mut lines = Lines::new(alloc);
    let mut session = match Session::new(alloc) {
        Ok(session) => session,
        Err(_) => return Err(Fault::NoMemory),
    };
    attend(alloc, &mut session, 0, &mut lines, wire)?;
    finish(alloc, &session, &mut lines, wire)
}

/// Answers a session as `converse` does, writes the line of a fault to the second writer, and answers the
/// exit status.
pub fn converse_to_end<W: Wire, E: Sink>(alloc: Global, wire: &mut W, faults: &mut E) -> u8
    requires ready { W.ready wire.old }
    requires asked { W.asked wire.old + MAX_ASKED < 2 ^ 64 }
    ensures ready { W.ready wire.new }
    ensures ended { (outcome : Result Exit Fault)
        × IfSome (W.rest wire.old) (λ bytes. ConversedAs outcome bytes
        (W.contents wire.old) (W.contents wire.new))
        × (IsErrOf outcome Fault.Write → IsTrue (W.write_failed wire.new))
        × (IsErrOf outcome Fault.Read
        → IsOver (W.read_failed wire.new) (W.asked wire.old + MAX_ASKED) (W.asked wire.new))
        × (result ≡ exit_status outcome)
        × TellsFault outcome (E.has_failed faults.new) (E.contents faults.old) (E.contents faults.new) }
{
    let outcome = match converse(alloc, wire) {
        Ok(()) => Ok(Exit::Done),
        Err(fault) => Err(fault),
    };
    write_fault(outcome, faults);
    exit_status(outcome)
}

/// Answers the line that was read last, the `number`-th of all.
fn answer_line(
    alloc: Global,
    session: &mut Session,
    number: u64,
    lines: &mut Lines,
) -> Result<(), Fault>
    ensures answered { OnOk result (session.new
        ≡ (line_step number lines.old.line.items session.old).1) }
    ensures told { OnOk result (lines.new.answers.items ≡ lines.old.answers.items
        ++ (line_step number lines.old.line.items session.old).0) }
    ensures left { lines.new.left ≡ lines.old.left }
    ensures unused { unused lines.new ≡ unused lines.old }
    ensures no_write { ¬ (IsErrOf result Fault.Write) }
    ensures no_read { ¬ (IsErrOf result Fault.Read) }
{
    match session.answer(alloc, number, lines.line()) {
        Ok(text) => match lines.tell(text.as_slice()) {
            Ok(()) => Ok(()),
            Err(_) => Err(Fault::NoMemory),
        },
        Err(_) => Err(Fault::NoMemory),
    }
}

/// Answers line after line to the end of the input, behind so many that were read before.
pub fn attend<W: Wire>(
    alloc: Global,
    session: &mut Session,
    past: u64,
    lines: &mut Lines,
    wire: &mut W,
) -> Result<(), Fault>
    requires ready { W.ready wire.old }
    requires asked { W.asked wire.old + lines.old.left < 2 ^ 64 }
    requires few { past + room lines.old + 1 < 2 ^ 64 }
    ensures ready { W.ready wire.new }
    ensures attends { OnOk result (Attends past (to_come lines.old (W.rest wire.old)) session.old session.new
        (λ text. Tells (W.contents wire.old) (W.contents wire.new)
        lines.new.answers.items (lines.old.answers.items ++ text))) }
    ensures front { OnErr result (AttendsFront past (to_come lines.old (W.rest wire.old)) session.old
        (λ text. AppendsFront (W.contents wire.old) (W.contents wire.new)
        (lines.old.answers.items ++ text))) }
    ensures write { IsErrOf result Fault.Write → IsTrue (W.write_failed wire.new) }
    ensures read { IsErrOf result Fault.Read
        → IsOver (W.read_failed wire.new) (W.asked wire.old + lines.old.left) (W.asked wire.new) }
    ensures long { IsErrOf result Fault.Read
        → IsTrue (W.read_failed wire.new) ⊎ IsLong lines.old (W.rest wire.old) }
{
    for number in past..u64::MAX {
        if !lines.next(wire)? {
            return Ok(());
        }
        answer_line(alloc, session, number + 1, lines)?;
    }
    // A line takes a byte, or asks once more, so that there are fewer lines.
    unreachable!();
}

/// Tells the final lines, and writes what isn't written yet.
fn finish<W: Wire>(
    alloc: Global,
    session: &Session,
    lines: &mut Lines,
    wire: &mut W,
) -> Result<(), Fault>
    requires ready { W.ready wire.old }
    ensures ready { W.ready wire.new }
    ensures told { OnOk result (Appends (W.contents wire.old) (W.contents wire.new)
        (lines.old.answers.items ++ finals session.now)) }
    ensures front { OnErr result (AppendsFront (W.contents wire.old) (W.contents wire.new)
        (lines.old.answers.items ++ finals session.now)) }
    ensures write { IsErrOf result Fault.Write → IsTrue (W.write_failed wire.new) }
    ensures no_read { ¬ (IsErrOf result Fault.Read) }
{
    let text = match session.finals(alloc) {
        Ok(text) => text,
        Err(_) => return Err(Fault::NoMemory),
    };
    match lines.tell(text.as_bytes()) {
        Ok(()) => lines.flush(wire),
        Err(_) => Err(Fault::NoMemory),
    }
}
