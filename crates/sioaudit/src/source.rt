//! A file of the bundle, which is opened when it is first read and closed at its end.
ghost use Rattle.std.specs.Prelude.{None};

use crate::failure::{Failure, unread};
use aud_base::{RunFault, Text};
use aud_input::Sources;
use aud_tap::Bytes;
use std::alloc::{AllocError, Global};
use std::collections::VecDeque;
use std::fs::{self, File};
use std::hash::RandomState;
use std::io::{self, IsTerminal, Read, Stdin};

/// How far a source was read.
#[derive(Drop)]
enum State {
    Unopened,
    Stdin(Stdin),
    File(File),
    Ended,
}

/// The file of this name, or standard input for `-`.
#[derive(Drop)]
pub struct Source<'a> {
    host: &'a HostRuntime,
    name: &'a str,
    quiet: bool,
    state: State,
}

impl<'a> Source<'a> {
    ghost use Rattle.std.specs.Io.{ReadsAtMost};

    /// Before the first read. Where standard input is a terminal that is told, unless `quiet`.
    pub fn new(host: &'a HostRuntime, name: &'a str, quiet: bool) -> Source<'a> {
        Source {
            host,
            name,
            quiet,
            state: State::Unopened,
        }
    }

    pub fn name(&self) -> &'a str {
        self.name
    }

    fn open(&self) -> io::Result<State> {
        let host = self.host;
        if self.name != "-" {
            return Ok(State::File(fs::open(host, self.name)?));
        }
        let input = host.stdin();
        if !self.quiet && input.is_terminal() {
            let _ = eprintln!(host;
                "sioaudit: the bundle is read from the terminal; Ctrl-D ends it"
            );
        }
        Ok(State::Stdin(input))
    }

    fn read_open(&mut self, buf: &mut [u8]) -> io::Result<usize>
        ensures { ReadsAtMost result buf.new }
    {
        match &mut self.state {
            State::Stdin(input) => input.read(buf),
            State::File(input) => input.read(buf),
            State::Unopened | State::Ended => Ok(0),
        }
    }
}

impl Read for Source<'_> {
    ghost remaining = { λ _. None };

    fn read(&mut self, buf: &mut [u8]) -> io::Result<usize> {
        if matches!(&self.state, State::Unopened) {
            self.state = self.open()?;
        }
        let count = self.read_open(buf)?;
        if count == 0 && !buf.is_empty() {
            self.state = State::Ended;
        }
        Ok(count)
    }
}

/// The keys with which names are hashed: whoever picked the names of the input is not to know them.
pub fn keys_of(host: &HostRuntime) -> Result<RandomState, RunFault> {
    match RandomState::new(host) {
        Ok(keys) => Ok(keys),
        Err(_) => Err(RunFault::Read),
    }
}

/// The first of these names, and the others; standard input where there is none.
pub fn first_and_others(names: &[Text]) -> (&str, &[Text]) {
    match names.split_first() {
        Some((first, others)) => (first.as_str(), others),
        None => ("-", names),
    }
}

/// The files of these names as one input; standard input where there is none.
pub fn sources<'a>(
    host: &'a HostRuntime,
    alloc: Global,
    names: &'a [Text],
    quiet: bool,
) -> Result<Sources<Source<'a>>, AllocError> {
    let (first, others) = first_and_others(names);
    let mut waiting = VecDeque::new(alloc);
    for name in others {
        waiting.push_back(Source::new(host, name.as_str(), quiet))?;
    }
    Ok(Sources::new(Source::new(host, first, quiet), waiting))
}

/// The bytes of the file of this name, or of standard input for `-`.
pub fn bytes_in(host: &HostRuntime, alloc: Global, name: &str) -> Result<Bytes, Failure> {
    let mut bytes = Vec::new(alloc);
    let mut source = Source::new(host, name, true);
    match source.read_to_end(&mut bytes) {
        Ok(_) => Ok(Bytes::new(bytes)),
        Err(error) => Err(unread(alloc, name, error.raw_os_error())?),
    }
}
