//! A reader and a writer over memory that give and take few bytes a call, and fail at a call that is given.
ghost use Rattle.std.specs.Prelude.{Some, None};

use std::alloc::Global;
use std::io::{self, ErrorKind, Read, Write};

/// What a call does that fails.
#[derive(Clone, Copy, Drop)]
pub enum Failure {
    /// It gives the system's error of this number.
    System(i32),
    /// It gives an error that isn't the system's.
    Own(ErrorKind),
    /// It takes no bytes.
    TakesNone,
}

impl Failure {
    /// The error that is given, if one is.
    fn error(self) -> Option<io::Error> {
        match self {
            Failure::System(number) => Some(io::Error::from_raw_os_error(number)),
            Failure::Own(kind) => Some(io::Error::from(kind)),
            Failure::TakesNone => None,
        }
    }

    /// The system's number of the error, if it has one.
    pub fn os_error(self) -> Option<i32> {
        match self {
            Failure::System(number) => Some(number),
            Failure::Own(_) | Failure::TakesNone => None,
        }
    }
}

/// How many bytes a stream gives or takes a call, and at which of its calls it fails.
#[derive(Clone, Copy, Drop)]
pub struct Plan {
    pub most: usize,
    /// Counted from 1; a stream that never fails has none.
    pub fails_at: Option<u64>,
    pub failure: Failure,
}

impl Plan {
    /// Never to fail.
    pub fn unfailing(most: usize) -> Plan {
        Plan {
            most,
            fails_at: None,
            failure: Failure::TakesNone,
        }
    }

    /// To fail at one call.
    pub fn failing(most: usize, fails_at: u64, failure: Failure) -> Plan {
        Plan {
            most,
            fails_at: Some(fails_at),
            failure,
        }
    }
}

/// The calls of a stream.
#[derive(Clone, Copy, Drop)]
struct Calls {
    plan: Plan,
    count: u64,
    after_failure: u64,
}

impl Calls {
    fn new(plan: Plan) -> Calls {
        Calls {
            plan,
            count: 0,
            after_failure: 0,
        }
    }

    /// Counts a call: how it fails, if it does. The calls after it are answered again.
    fn next(&mut self) -> Option<Failure> {
        self.count = self.count.saturating_add(1);
        match self.plan.fails_at {
            Some(at) if at == self.count => Some(self.plan.failure),
            Some(at) if at < self.count => {
                self.after_failure = self.after_failure.saturating_add(1);
                None
            }
            _ => None,
        }
    }
}

/// Reads from memory as planned.
#[derive(Drop)]
pub struct TestReader<'a> {
    bytes: &'a [u8],
    calls: Calls,
}

impl<'a> TestReader<'a> {
    pub fn new(bytes: &'a [u8], plan: Plan) -> TestReader<'a> {
        TestReader {
            bytes,
            calls: Calls::new(plan),
        }
    }

    /// How many calls there were after the one that failed.
    pub fn calls_after_failure(&self) -> u64 {
        self.calls.after_failure
    }
}

impl Read for TestReader<'_> {
    ghost remaining = { λ _. None };

    fn read(&mut self, buf: &mut [u8]) -> io::Result<usize> {
        if let Some(failure) = self.calls.next() {
            return match failure.error() {
                Some(error) => Err(error),
                None => Ok(0),
            };
        }
        let given = buf.len().min(self.calls.plan.most);
        self.bytes.read(&mut buf[..given])
    }
}

/// Keeps what is written, as planned.
#[derive(Drop)]
pub struct TestWriter {
    written: Vec<u8>,
    calls: Calls,
}

impl TestWriter {
    pub fn new(alloc: Global, plan: Plan) -> TestWriter {
        TestWriter {
            written: Vec::new(alloc),
            calls: Calls::new(plan),
        }
    }

    pub fn written(&self) -> &[u8] {
        self.written.as_slice()
    }

    /// How many calls there were after the one that failed.
    pub fn calls_after_failure(&self) -> u64 {
        self.calls.after_failure
    }
}

impl Write for TestWriter {
    ghost contents = { λ w. Some w.written.items };

    fn write(&mut self, buf: &[u8]) -> io::Result<usize> {
        if let Some(failure) = self.calls.next() {
            return match failure.error() {
                Some(error) => Err(error),
                None => Ok(0),
            };
        }
        let taken = buf.len().min(self.calls.plan.most);
        self.written.write(&buf[..taken])
    }

    fn flush(&mut self) -> io::Result<()> {
        Ok(())
    }
}
