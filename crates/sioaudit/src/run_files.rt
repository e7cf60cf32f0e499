//! The files of a bundle that are read more than once.
ghost use Rattle.std.specs.Prelude.{◌≤◌, IfOk, length};

use crate::failure::{Failure, failed_at, refused_for, unread};
use crate::tally::Tally;
use aud_app::RunFault;
use aud_input::InputFiles;
use aud_parts::{Run, RunSource, TapIndex};
use aud_tap::Text;
use std::alloc::{AllocError, Global};
use std::fs::{self, File};
use std::hash::RandomState;
use std::io::{self, IsTerminal, Read, Stderr};
use std::os::unix::fs::FileExt;

/// The most bytes that one read of the first pass is asked for.
const PIECE: usize = 1_048_576;

/// The file that was read last, which stays open.
#[derive(Drop)]
struct Opened {
    number: usize,
    file: File,
}

/// Files by their names, in their order.
#[derive(Drop)]
pub struct RunFiles<'a> {
    host: &'a HostRuntime,
    alloc: Global,
    names: &'a [Text],
    tally: Tally<Stderr>,
    opened: Option<Opened>,
    /// How many lines each file has, once all are in the index.
    counts: Vec<u64>,
    /// The file whose read failed last, and the system's reason.
    failed: usize,
    os_error: Option<i32>,
}

impl<'a> RunFiles<'a> {
    /// The files of these names, of which none is opened yet.
    pub fn new(
        host: &'a HostRuntime,
        alloc: Global,
        names: &'a [Text],
        quiet: bool,
    ) -> RunFiles<'a> {
        let notes = host.stderr();
        let is_shown = !quiet && notes.is_terminal();
        RunFiles {
            host,
            alloc,
            names,
            tally: Tally::new(notes, is_shown),
            opened: None,
            counts: Vec::new(alloc),
            failed: 0,
            os_error: None,
        }
    }

    /// The name of the file with this number.
    fn name(&self, number: usize) -> &'a str {
        match self.names.get(number) {
            Some(name) => name.as_str(),
            None => "",
        }
    }

    /// Keeps why the file could not be read.
    fn note(&mut self, number: usize, error: &io::Error) -> RunFault {
        self.failed = number;
        self.os_error = error.raw_os_error();
        RunFault::Read
    }

    /// Takes the line of how much was read away.
    pub fn clear(&mut self) {
        self.tally.clear();
    }

    /// Why there is no split, after a read or an allocation that failed.
    pub fn fault(&mut self, fault: RunFault) -> Result<Failure, AllocError> {
        self.clear();
        match fault {
            RunFault::Read => {
                let failed = self.failed;
                let name = self.name(failed);
                failed_at(self.alloc, fault, name, self.os_error)
            }
            RunFault::Memory | RunFault::Write | RunFault::Spawn => Ok(Failure::from(fault)),
        }
    }

    /// Sees that each file can be read more than once, and named on a line; the failure is of the first that can't.
    pub fn check(&self) -> Result<(), Failure> {
        for name in self.names {
            let name = name.as_str();
            if name.as_bytes().contains(&b'\n') {
                let words = "has a newline in its name, so no line could name it";
                return Err(refused_for(self.alloc, name, words)?);
            }
            match fs::metadata(self.host, name) {
                Ok(metadata) if metadata.is_file() => {}
                Ok(_) => {
                    let words = "is read more than once, so it has to be a file, and no pipe";
                    return Err(refused_for(self.alloc, name, words)?);
                }
                Err(error) => return Err(unread(self.alloc, name, error.raw_os_error())?),
            }
        }
        Ok(())
    }

    /// Opens the file with this number.
    fn open(&mut self, number: usize) -> Result<File, RunFault> {
        match fs::open(self.host, self.name(number)) {
            Ok(file) => Ok(file),
            Err(error) => Err(self.note(number, &error)),
        }
    }

    /// Puts the next piece of a file, which has this number, into the buffer; none at its end.
    fn read_piece(
        &mut self,
        number: usize,
        file: &mut File,
        buffer: &mut [u8],
    ) -> Result<usize, RunFault>
        ensures { IfOk result (λ count. count ≤ length buffer.new) }
    {
        match file.read(buffer) {
            Ok(count) => {
                self.tally.add(count);
                Ok(count)
            }
            Err(error) => Err(self.note(number, &error)),
        }
    }

    /// Takes the file with this number into the index.
    fn index_file(
        &mut self,
        number: usize,
        index: &mut TapIndex,
        buffer: &mut [u8],
    ) -> Result<(), RunFault> {
        let mut file = self.open(number)?;
        for _piece in 0..u64::MAX {
            let count = self.read_piece(number, &mut file, buffer)?;
            if count == 0 {
                break;
            }
            index.feed(&buffer[..count])?;
        }
        index.end_file()?;
        Ok(())
    }

    /// The index of the taps of all files, whose lines are counted. Names are hashed with these keys.
    pub fn index(&mut self, keys: RandomState) -> Result<TapIndex, RunFault> {
        let mut index = TapIndex::new(self.alloc, keys);
        let mut buffer = vec![in self.alloc; 0u8; PIECE]?;
        for number in 0..self.names.len() {
            let before = index.lines();
            self.index_file(number, &mut index, &mut buffer)?;
            self.count(index.lines().saturating_sub(before))?;
        }
        Ok(index)
    }

    /// Notes how many lines the next file has.
    fn count(&mut self, lines: u64) -> Result<(), AllocError> {
        self.counts.push(lines)?;
        Ok(())
    }

    /// The files, with how many lines each has, once they are in the index.
    pub fn input_files(&self) -> Result<InputFiles, AllocError> {
        InputFiles::of(self.alloc, self.names, &self.counts)
    }

    /// Opens the file with this number, unless it is open.
    fn hold(&mut self, number: usize) -> Result<(), RunFault> {
        if let Some(opened) = &self.opened {
            if opened.number == number {
                return Ok(());
            }
        }
        let file = self.open(number)?;
        self.opened = Some(Opened { number, file });
        Ok(())
    }

    /// Fills the buffer with the bytes of the open file from here on.
    fn read_at(&mut self, from: u64, buffer: &mut [u8]) -> io::Result<()> {
        match &self.opened {
            Some(opened) => opened.file.read_exact_at(buffer, from),
            None => Ok(()),
        }
    }
}

impl RunSource for RunFiles<'_> {
    fn read_run(&mut self, run: &Run, bytes: &mut Vec<u8>) -> Result<(), RunFault> {
        let count = run.to.saturating_sub(run.from) as usize;
        bytes.resize(count, 0)?;
        self.hold(run.file)?;
        match self.read_at(run.from, bytes.as_mut_slice()) {
            Ok(()) => {
                self.tally.add(count);
                Ok(())
            }
            Err(error) => Err(self.note(run.file, &error)),
        }
    }
}
