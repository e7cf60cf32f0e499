//! What comes of an input, in whichever pieces it is read, by any number of workers.
use crate::case::{AUDIT, Case, run_over};
use crate::each_mode::{EACH_MODE, case_of};
use crate::streams::{Plan, TestReader};
use aud_app::{Options, Status};
use std::alloc::{AllocError, Global};
use std::hash::RandomState;
use std::process::Abort;
use std::sync::Wait;
use std::test::Fail;
use std::thread::Threads;
use std::time::Clock;

/// How many bytes are read a call, and how many workers there are.
type Way = (usize, u8);

static WAYS: [Way; 6] = [
    (1, 4),
    (7, 4),
    (65_536, 4),
    (65_536, 1),
    (65_536, 2),
    (65_536, 64),
];

/// The ways for large inputs.
static FEW_WAYS: [Way; 3] = [(1, 1), (7, 2), (65_536, 64)];

/// Looks at what comes of a case in each of these ways.
fn look_at<H: Abort + Threads + Wait + Clock + Sync>(
    rt: &H,
    alloc: Global,
    keys: RandomState,
    ways: &[Way],
    case: &Case<'_>,
) {
    for &(most, workers) in ways {
        assert!(rt; 0 < workers && workers <= 64);
        let options = Options {
            workers,
            ..case.options
        };
        let reader = TestReader::new(case.input.as_bytes(), Plan::unfailing(most));
        let ran = run_over(rt, alloc, keys, options, reader);
        assert!(rt;
            ran.outcome == Ok(case.status) && ran.written.as_slice() == case.text.as_bytes(),
            "{}: {most} bytes a call, {workers} workers",
            case.name
        );
    }
}

#[test]
fn each_mode(rt: HostRuntime) -> Result<(), Fail> {
    let keys = RandomState::new(&rt)?;
    for row in &EACH_MODE {
        look_at(&rt, rt.alloc(), keys, &WAYS, &case_of(rt.alloc(), row)?);
    }
    Ok(())
}

/// How many blanks stand after the header of a stream, which has 34 bytes, without an end of the line; how the run ends,
/// and what is written.
static LONG_LINES: [(usize, Status, &str); 2] = [
    (4_194_270, Status::NoSession, "sessions=0 yes=0 no=0\n"),
    (4_194_271, Status::Refused, "line 1: LineTooLong\n"),
];

/// The case of such a line.
fn long_line(
    alloc: Global,
    row: &(usize, Status, &'static str),
) -> Result<Case<'static>, AllocError> {
    let &(blanks, status, text) = row;
    let mut input = String::from_str(alloc, r#"st {"k":"tap","v":1,"of":"stream"}"#)?;
    for _ in 0..blanks {
        input.push(' ')?;
    }
    Ok(Case {
        name: "a long line",
        options: AUDIT,
        input,
        text,
        status,
    })
}

#[test]
fn long_lines(rt: HostRuntime) -> Result<(), Fail> {
    let keys = RandomState::new(&rt)?;
    for row in &LONG_LINES {
        look_at(
            &rt,
            rt.alloc(),
            keys,
            &FEW_WAYS,
            &long_line(rt.alloc(), row)?,
        );
    }
    Ok(())
}
