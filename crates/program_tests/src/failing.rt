//! Runs whose reader or writer fails, at each of its calls in turn, and that give or take few bytes a call.
use crate::case::Case;
use crate::each_mode::{EACH_MODE, case_of};
use crate::streams::{Failure, Plan, TestReader, TestWriter};
use aud_app::{Options, RunFault, Status, Watched, run};
use std::alloc::Global;
use std::hash::RandomState;
use std::io::ErrorKind;
use std::process::Abort;
use std::sync::Wait;
use std::test::Fail;
use std::thread::Threads;
use std::time::Clock;

/// What is seen of a run.
#[derive(Clone, Copy, PartialEq, Drop)]
struct Seen {
    outcome: Result<Status, RunFault>,
    reads: u64,
    read_failed: bool,
    writes: u64,
    write_failed: bool,
    calls_after_failure: u64,
    os_error: Option<i32>,
    /// Whether a prefix of the output was written, and of how many bytes.
    is_prefix: bool,
    written: usize,
}

/// A run whose streams fail as planned.
fn watched_run<H: Threads + Wait + Clock + Sync>(
    rt: &H,
    alloc: Global,
    keys: RandomState,
    case: &Case<'_>,
    reads: Plan,
    writes: Plan,
) -> Seen {
    let mut reader = Watched::new(TestReader::new(case.input.as_bytes(), reads));
    let mut writer = Watched::new(TestWriter::new(alloc, writes));
    let options = Options {
        workers: 4,
        ..case.options
    };
    let outcome = run(rt, alloc, keys, &mut reader, &mut writer, options);
    let seen = Seen {
        outcome,
        reads: reader.calls(),
        read_failed: reader.failed(),
        writes: writer.calls(),
        write_failed: writer.failed(),
        calls_after_failure: 0,
        os_error: reader.os_error().or(writer.os_error()),
        is_prefix: false,
        written: 0,
    };
    let reader = reader.into_inner();
    let writer = writer.into_inner();
    Seen {
        calls_after_failure: reader
            .calls_after_failure()
            .saturating_add(writer.calls_after_failure()),
        is_prefix: case.text.as_bytes().starts_with(writer.written()),
        written: writer.written().len(),
        ..seen
    }
}

/// What is seen where nothing fails, in so many calls.
fn without_fault(case: &Case<'_>, reads: u64, writes: u64) -> Seen {
    Seen {
        outcome: Ok(case.status),
        reads,
        read_failed: false,
        writes,
        write_failed: false,
        calls_after_failure: 0,
        os_error: None,
        is_prefix: true,
        written: case.text.len(),
    }
}

/// How a read fails: at the system's `EINTR`, `EAGAIN` and `EIO`, and otherwise.
static READ_FAILURES: [Failure; 4] = [
    Failure::System(4),
    Failure::System(11),
    Failure::System(5),
    Failure::Own(ErrorKind::Interrupted),
];

/// Has each read of a run fail in turn.
fn fail_each_read<H: Abort + Threads + Wait + Clock + Sync>(
    rt: &H,
    alloc: Global,
    keys: RandomState,
    case: &Case<'_>,
    most: usize,
) {
    let all = Plan::unfailing(usize::MAX);
    let unfailed = watched_run(rt, alloc, keys, case, Plan::unfailing(most), all);
    assert!(rt;
        unfailed == without_fault(case, unfailed.reads, 1),
        "{}",
        case.name
    );
    for k in 1..=unfailed.reads {
        for failure in READ_FAILURES {
            let plan = Plan::failing(most, k, failure);
            let failed = watched_run(rt, alloc, keys, case, plan, all);
            let wanted = Seen {
                outcome: Err(RunFault::Read),
                reads: k,
                read_failed: true,
                writes: 0,
                os_error: failure.os_error(),
                written: 0,
                ..unfailed
            };
            assert!(rt;
                failed == wanted,
                "{}: read {k}, {most} bytes a call",
                case.name
            );
        }
    }
}

/// How a write fails: at the system's `EINTR`, `EAGAIN` and `ENOSPC`, otherwise, and by taking nothing.
static WRITE_FAILURES: [Failure; 5] = [
    Failure::System(4),
    Failure::System(11),
    Failure::System(28),
    Failure::Own(ErrorKind::Interrupted),
    Failure::TakesNone,
];

/// Has each write of a run fail in turn.
fn fail_each_write<H: Abort + Threads + Wait + Clock + Sync>(
    rt: &H,
    alloc: Global,
    keys: RandomState,
    case: &Case<'_>,
    most: usize,
) {
    let all = Plan::unfailing(65_536);
    let unfailed = watched_run(rt, alloc, keys, case, all, Plan::unfailing(most));
    assert!(rt;
        unfailed == without_fault(case, unfailed.reads, unfailed.writes),
        "{}",
        case.name
    );
    for k in 1..=unfailed.writes {
        let before = (k as usize).saturating_sub(1).saturating_mul(most);
        for failure in WRITE_FAILURES {
            let plan = Plan::failing(most, k, failure);
            let failed = watched_run(rt, alloc, keys, case, all, plan);
            let wanted = Seen {
                outcome: Err(RunFault::Write),
                writes: k,
                write_failed: true,
                os_error: failure.os_error(),
                written: before,
                ..unfailed
            };
            assert!(rt;
                failed == wanted,
                "{}: write {k}, {most} bytes a call",
                case.name
            );
        }
    }
}

/// How many bytes a stream gives or takes a call.
static PIECES: [usize; 3] = [1, 100, 65_536];

#[test]
fn a_reader_fails_at_each_call(rt: HostRuntime) -> Result<(), Fail> {
    let keys = RandomState::new(&rt)?;
    for row in &EACH_MODE {
        let case = case_of(rt.alloc(), row)?;
        for most in PIECES {
            fail_each_read(&rt, rt.alloc(), keys, &case, most);
        }
    }
    Ok(())
}

#[test]
fn a_writer_fails_at_each_call(rt: HostRuntime) -> Result<(), Fail> {
    let keys = RandomState::new(&rt)?;
    for row in &EACH_MODE {
        let case = case_of(rt.alloc(), row)?;
        for most in PIECES {
            fail_each_write(&rt, rt.alloc(), keys, &case, most);
        }
    }
    Ok(())
}
