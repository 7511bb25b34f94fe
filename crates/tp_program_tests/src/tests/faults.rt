//! Failing readers and writers, at each of their calls.

ghost use Rattle.std.specs.Prelude.{◌≡◌};

use super::devices::{Reader, Writer};
use super::plain_of;
use std::thread::Threads;
use tp_perform::run;
use tp_reference::{PlainExit, run_plain};
use tp_report::Fault;

const SCRIPT: &str =
    "rows 8\nserver a eager 1 1 add 15:same:after\nsubmit 1 0 10\nturn a\nreply 0\n";

const REPORT: &str = "submitted 0\na done 0 unit 256 outputs 8 1\nreplies 0 8:0:10\nfinal a 10\n";

fn reader(most: usize, fails_at: u64) -> Reader<'static>
    ensures { result.calls ≡ 0 }
{
    Reader {
        bytes: SCRIPT.as_bytes(),
        most,
        fails_at,
        calls: 0,
    }
}

fn writer(rt: &HostRuntime, most: usize, fails_at: u64) -> Writer {
    Writer {
        taken: Vec::new(rt.alloc()),
        most,
        fails_at,
        calls: 0,
    }
}

/// The script over the manager of one thread, or over the shared one.
fn run_over<R: AllocGlobal + Threads + Sync>(
    rt: &R,
    shared: bool,
    reader: &mut Reader<'_>,
    writer: &mut Writer,
) -> Result<PlainExit, Fault>
    requires { reader.old.calls ≡ 0 }
{
    if shared {
        plain_of(run(rt, rt.alloc(), reader, writer))
    } else {
        run_plain(rt.alloc(), reader, writer)
    }
}

#[test]
fn one_byte_a_call(rt: HostRuntime) {
    for shared in [false, true] {
        let mut writer = writer(&rt, 1, 0);
        let answer = run_over(&rt, shared, &mut reader(1, 0), &mut writer);
        assert_eq!(rt; answer, Ok(PlainExit::Done));
        assert_eq!(rt; writer.taken.as_slice(), REPORT.as_bytes());
    }
}

#[test]
fn a_reader_that_fails_at_each_call(rt: HostRuntime) {
    // 73 bytes one at a time, and the call that finds the end.
    for shared in [false, true] {
        for fails_at in 1..75u64 {
            let mut writer = writer(&rt, 100, 0);
            let answer = run_over(&rt, shared, &mut reader(1, fails_at), &mut writer);
            assert_eq!(rt; answer, Err(Fault::Read), "at call {fails_at}");
            assert!(rt; writer.taken.is_empty());
        }
    }
}

#[test]
fn a_writer_that_fails_at_each_call(rt: HostRuntime) {
    for (shared, calls, most) in [
        (false, 4, 100),
        (false, 70, 1),
        (true, 4, 100),
        (true, 70, 1),
    ] {
        for fails_at in 1..=calls {
            let mut writer = writer(&rt, most, fails_at);
            let answer = run_over(&rt, shared, &mut reader(100, 0), &mut writer);
            assert_eq!(rt; answer, Err(Fault::Write), "at call {fails_at}");
            assert!(rt; REPORT.as_bytes().starts_with(writer.taken.as_slice()));
        }
    }
}

#[test]
fn a_writer_that_takes_nothing(rt: HostRuntime) {
    for shared in [false, true] {
        let mut writer = writer(&rt, 0, 0);
        let answer = run_over(&rt, shared, &mut reader(100, 0), &mut writer);
        assert_eq!(rt; answer, Err(Fault::Write));
        assert!(rt; writer.taken.is_empty());
    }
}

#[test]
fn the_lines_of_faults(rt: HostRuntime) -> Result<(), std::test::Fail> {
    for (fault, want) in [
        (Fault::NoMemory, "fault 1 NoMemory\n"),
        (Fault::Read, "fault 2 Read\n"),
        (Fault::Write, "fault 3 Write\n"),
    ] {
        assert_eq!(rt; fault.line(), want);
    }
    Ok(())
}
