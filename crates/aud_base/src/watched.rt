//! A reader or writer whose calls are counted.
ghost use Rattle.std.specs.Prelude.{◌≡◌, ◌+◌, ◌-◌, ◌^◌, ◌||◌, min, is_err, false, Ok};
ghost use Rattle.std.specs.Io.{ReadsAtMost, WritesAtMost};
ghost use Rattle.std.specs.Io.KnownBytes.{ReadConsumes, WriteAppends, Keeps};

use std::io::{self, Read, Write};

/// Hands calls on, counts them, and keeps whether one failed, and the system's reason.
#[derive(Drop)]
pub struct Watched<T> {
    inner: T,
    calls: u64,
    failed: bool,
    os_error: Option<i32>,
}

impl<T> Watched<T> {
    ghost use Rattle.aud_base.specs.Watched.{inner_of, calls_of, has_failed};

    pub fn new(inner: T) -> Watched<T>
        ensures inner { inner_of result ≡ inner }
        ensures calls { calls_of result ≡ 0 }
        ensures failed { has_failed result ≡ false }
    {
        Watched {
            inner,
            calls: 0,
            failed: false,
            os_error: None,
        }
    }

    /// The reader or writer itself.
    pub fn into_inner(self) -> T
        ensures { result ≡ inner_of self }
    {
        let Watched {
            inner,
            calls: _,
            failed: _,
            os_error: _,
        } = self;
        inner
    }

    /// How many calls were handed on, up to the greatest `u64`.
    pub fn calls(&self) -> u64
        ensures { result ≡ calls_of self.now }
    {
        self.calls
    }

    /// Counts a call, and keeps whether it failed.
    fn note(&mut self, failed: bool)
        ensures inner { inner_of self.new ≡ inner_of self.old }
        ensures calls { calls_of self.new ≡ min (calls_of self.old + 1) (2 ^ 64 - 1) }
        ensures failed { has_failed self.new ≡ (has_failed self.old || failed) }
    {
        self.calls = self.calls.saturating_add(1);
        self.failed = self.failed || failed;
    }

    /// Keeps the system's number of the error of a call that failed, if it has one.
    fn note_error(&mut self, error: &io::Error)
        ensures inner { inner_of self.new ≡ inner_of self.old }
        ensures calls { calls_of self.new ≡ calls_of self.old }
        ensures failed { has_failed self.new ≡ has_failed self.old }
    {
        self.os_error = error.raw_os_error();
    }

    /// Whether a call failed, or a write took no bytes.
    pub fn failed(&self) -> bool
        ensures { result ≡ has_failed self.now }
    {
        self.failed
    }

    /// The system's number (`errno`) of the error of the last read or write that failed; none where none did, or for an
    /// error that isn't the system's.
    pub fn os_error(&self) -> Option<i32> {
        self.os_error
    }
}

impl<T: Read> Read for Watched<T> {
    ghost use Rattle.aud_base.specs.Watched.{inner_of, calls_of, has_failed};

    ghost remaining = { λ w. T.remaining (inner_of w) };

    fn read(&mut self, buf: &mut [u8]) -> io::Result<usize>
        ensures bound { ReadsAtMost result buf.new }
        ensures bytes { ReadConsumes (T.remaining (inner_of self.old))
            (T.remaining (inner_of self.new)) result buf.new }
        ensures calls { calls_of self.new ≡ min (calls_of self.old + 1) (2 ^ 64 - 1) }
        ensures failed { has_failed self.new ≡ (has_failed self.old || is_err result) }
    {
        let outcome = self.inner.read(buf);
        self.note(outcome.is_err());
        if let Err(error) = &outcome {
            self.note_error(error);
        }
        outcome
    }
}

impl<T: Write> Write for Watched<T> {
    ghost use Rattle.aud_base.specs.Watched.{inner_of, calls_of, has_failed, took_none};

    ghost contents = { λ w. T.contents (inner_of w) };

    fn write(&mut self, buf: &[u8]) -> io::Result<usize>
        ensures bound { WritesAtMost result buf.now }
        ensures bytes { WriteAppends (T.contents (inner_of self.old))
            (T.contents (inner_of self.new)) result buf.now }
        ensures calls { calls_of self.new ≡ min (calls_of self.old + 1) (2 ^ 64 - 1) }
        ensures failed { has_failed self.new
            ≡ (has_failed self.old || is_err result || took_none result) }
    {
        let outcome = self.inner.write(buf);
        self.note(!matches!(&outcome, Ok(1..)));
        if let Err(error) = &outcome {
            self.note_error(error);
        }
        outcome
    }

    fn flush(&mut self) -> io::Result<()>
        ensures bytes { Keeps (T.contents (inner_of self.old)) (T.contents (inner_of self.new)) }
        ensures calls { calls_of self.new ≡ min (calls_of self.old + 1) (2 ^ 64 - 1) }
        ensures failed { has_failed self.new ≡ (has_failed self.old || is_err result) }
    {
        let outcome = self.inner.flush();
        self.note(outcome.is_err());
        outcome
    }
}
