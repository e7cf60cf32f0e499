//! A reader that tells how much was read.
use crate::tally::Tally;
use std::io::{self, Read, Write};

/// Hands reads on, and where `is_shown` tells after each 64 MiB how much was read. The line is taken away at the end of
/// the input. What is told and whether it could be written changes nothing in what is read.
#[derive(Drop)]
pub struct Progress<N, R> {
    inner: R,
    tally: Tally<N>,
}

impl<N: Write, R: Read> Progress<N, R> {
    /// Before the first byte.
    pub fn new(inner: R, notes: N, is_shown: bool) -> Progress<N, R> {
        Progress {
            inner,
            tally: Tally::new(notes, is_shown),
        }
    }
}

impl<N: Drop, R> Progress<N, R> {
    /// The reader itself.
    pub fn into_inner(self) -> R {
        let Progress { inner, .. } = self;
        inner
    }
}

impl<N: Write, R: Read> Read for Progress<N, R> {
    ghost use Rattle.std.specs.Io.{ReadsAtMost};

    fn read(&mut self, buf: &mut [u8]) -> io::Result<usize>
        ensures { ReadsAtMost result buf.new }
    {
        let outcome = self.inner.read(buf);
        match &outcome {
            Ok(0) => self.tally.clear(),
            Ok(count) => self.tally.add(*count),
            Err(_) => {}
        }
        outcome
    }
}
