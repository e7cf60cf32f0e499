//! Where the lines of each tap stand in the files of an input.
pub mod first_refusal;
pub mod run_lines;
pub mod tap_lines;
pub mod tap_reading;
pub mod tap_runs;

ghost use Rattle.std.specs.Prelude.{◌≡◌, ◌+◌, ◌^◌, ◌<◌, ◌++◌, ◌∷◌, [], List, ℕ, length, OnOk};
ghost use Rattle.std.specs.List.{All};
ghost use Rattle.aud_parts.specs.TapRuns.{MayBeRead};
ghost use Rattle.aud_parts.specs.FileLines.{AreTapsOf, file_lines, front_refusal};
ghost use Rattle.aud_parts.specs.IndexSoFar.{HasRead, IsBegun, IsCounted, KeepsPlaces, line_count, so_far, with_line};
ghost use Rattle.aud_parts.specs.Private.IndexSteps.{HasEnded, Looks, MayEnd, placed_at};

use crate::tap_index::tap_runs::{Run, RunsByTap, TapRuns};
use aud_input::{first_bytes, name_of};
use aud_reader::{InputCode, ReadFault, next_line};
use aud_tap::limits::MAX_LINE;
use std::alloc::{AllocError, Global};
use std::hash::RandomState;

/// So many bytes have a tap's name and the blank after it.
const FRONT: usize = 33;

/// A line that has begun.
#[derive(Drop)]
struct Begun {
    /// Where it begins in its file.
    from: u64,
    /// How many bytes it has so far.
    size: u64,
    /// The first of them, up to 33.
    front: Vec<u8>,
    /// Whether the last of them is a carriage return.
    returns: bool,
}

impl Begun {
    /// More bytes of the line.
    fn add(&mut self, bytes: &[u8]) -> Result<(), AllocError>
        ensures { (from : ℕ) (text : List ℕ) → length text + length bytes.now < 2 ^ 64
            → IsBegun self.old from text
            → OnOk result (IsBegun self.new from (text ++ bytes.now)) }
    {
        let Some(last) = bytes.last() else {
            return Ok(());
        };
        self.returns = *last == b'\r';
        self.size = self.size.saturating_add(bytes.len() as u64);
        let room = FRONT.saturating_sub(self.front.len());
        self.front.extend_from_slice(first_bytes(room, bytes))
    }

    /// The next line begins here.
    fn begin(&mut self, from: u64)
        ensures { IsBegun self.new from [] }
    {
        self.from = from;
        self.size = 0;
        self.front.clear();
        self.returns = false;
    }
}

/// The index of the taps of files that are read one after the other as one input, each file's end ending its last line.
///
/// It goes by the names that lines begin with, and looks at nothing more of a line. It keeps 40 bytes for each run of
/// lines, and for each tap its name.
#[derive(Drop)]
pub struct TapIndex {
    runs: RunsByTap,
    fault: Option<ReadFault>,
    file: usize,
    number: u64,
    begun: Begun,
}

impl TapIndex {
    /// An index before the first byte of the first file. Names are hashed with these keys.
    pub fn new(alloc: Global, keys: RandomState) -> TapIndex
        ensures { HasRead result [] [] }
    {
        TapIndex {
            runs: RunsByTap::new(alloc, keys),
            fault: None,
            file: 0,
            number: 1,
            begun: Begun {
                from: 0,
                size: 0,
                front: Vec::new(alloc),
                returns: false,
            },
        }
    }

    /// Takes in the next piece of the file, which is borrowed for the call alone. After a line that is refused nothing
    /// more is noted.
    pub fn feed(&mut self, piece: &[u8]) -> Result<(), AllocError>
        ensures { (files : List (List ℕ)) (bytes : List ℕ) → HasRead self.old files bytes
            → OnOk result (HasRead self.new files (bytes ++ piece.now)) }
    {
        let mut left = piece;
        'lines: while let Some((front, others)) = next_line(left) {
            self.begun.add(front)?;
            self.end_line()?;
            left = others;
        }
        self.begun.add(left)
    }

    /// Ends the file, and with it the line that has begun, if it has bytes.
    pub fn end_file(&mut self) -> Result<(), AllocError>
        ensures { (files : List (List ℕ)) (bytes : List ℕ) → HasRead self.old files bytes
            → OnOk result (HasRead self.new (files ++ bytes ∷ []) []) }
    {
        if self.begun.size > 0 {
            self.end_line()?;
        }
        self.begun.begin(0);
        self.file = self.file.saturating_add(1);
        Ok(())
    }

    /// Ends the line that has begun.
    fn end_line(&mut self) -> Result<(), AllocError>
        ensures { (text : List ℕ) → MayEnd self.old text
            → OnOk result (HasEnded self.old self.new text) }
    {
        let line = Run {
            file: self.file,
            from: self.begun.from,
            to: self.begun.from.saturating_add(self.begun.size),
            number: self.number,
        };
        self.note(line)?;
        self.number = self.number.saturating_add(1);
        self.begun.begin(line.to.saturating_add(1));
        Ok(())
    }

    /// Notes the line that has begun, and that stands here, as one of its tap, or refuses it; unless it has no bytes, or a
    /// line before it was refused.
    fn note(&mut self, line: Run) -> Result<(), AllocError>
        ensures { (text : List ℕ) → IsBegun self.old.begun self.old.begun.from text
            → line.to ≡ line.from + length text → KeepsPlaces self.old.runs
            → OnOk result (Looks self.old self.new
            (with_line (so_far self.old) (placed_at line text))) }
    {
        // (its length without the carriage return at its end)
        let ending = u64::from(self.begun.returns);
        let measured = self.begun.size.saturating_sub(ending);
        if self.fault.is_some() {
            return Ok(());
        }
        if measured == 0 {
            return Ok(());
        }
        if measured > MAX_LINE as u64 {
            self.fault = Some(ReadFault::Input(line.number, InputCode::LineTooLong));
            return Ok(());
        }
        match name_of(&self.begun.front) {
            Some(name) => self.runs.note(name, line),
            None => {
                self.fault = Some(ReadFault::Input(line.number, InputCode::NoTapName));
                Ok(())
            }
        }
    }

    /// The taps in the order of their first lines, with the runs of their lines, borrowed.
    pub fn taps(&self) -> &[TapRuns]
        ensures taps { (files : List (List ℕ)) → HasRead self.now files [] → IsCounted files []
            → AreTapsOf files result.now }
        ensures runs { (files : List (List ℕ)) → HasRead self.now files [] → IsCounted files []
            → All (MayBeRead files) result.now }
    {
        &self.runs.taps
    }

    /// The first line that is too long, or that begins with no tap's name, where there is one; lines count from 1 over
    /// all files. Other lines before it may have to be refused too.
    pub fn fault(&self) -> Option<ReadFault>
        ensures { (files : List (List ℕ)) → HasRead self.now files [] → IsCounted files []
            → result ≡ front_refusal (file_lines files) }
    {
        self.fault
    }

    /// How many lines there were.
    pub fn lines(&self) -> u64
        ensures { (files : List (List ℕ)) → HasRead self.now files [] → IsCounted files []
            → result ≡ line_count files }
    {
        self.number.saturating_sub(1)
    }
}
