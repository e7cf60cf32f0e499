//! A tap, read by itself.
ghost use Rattle.std.specs.Prelude.{◌≡◌, ◌++◌, [], ℕ, List, map, IfOk, OnOk, Some};
ghost use Rattle.std.specs.List.{AllByRecursion};
ghost use Rattle.aud_input.specs.LineRuns.{lines_of_runs};
ghost use Rattle.aud_reader.specs.declared.line.Line.{Line};
ghost use Rattle.std.specs.Option.{option_copied};
ghost use Rattle.aud_reader.specs.Bundle.{tap_named, taps_of, taps_to_come};
ghost use Rattle.aud_reader.specs.OwnLines.{HaveTheirOwnLines};
ghost use Rattle.aud_parts.specs.TapRuns.{IsReadable, runs_lines};
ghost use Rattle.aud_parts.specs.Private.TapsRead.{HoldsLines, IsReadOf};

use crate::tap_index::run_lines::RunLines;
use crate::tap_index::tap_lines::{push_lines, push_numbers};
use crate::tap_index::tap_runs::{Run, RunSource, TapRuns};
use aud_base::RunFault;
use aud_input::LineRuns;
use aud_reader::{BundleReader, Line, ReadFault};
use aud_tap::{Tap, Taps};
use std::alloc::Global;
use std::hash::RandomState;

/// What is read of a tap.
#[derive(Drop)]
pub struct TapRead {
    /// The tap, alone; or its first refused line.
    pub read: Result<Taps, ReadFault>,
    /// How many bytes its first line has, without the carriage return at its end, and with a newline.
    pub first: u64,
    /// How many bytes all of its lines have.
    pub bytes: u64,
    /// The numbers of its lines.
    pub lines: LineRuns,
}

/// A tap that is being read.
#[derive(Drop)]
struct TapReading {
    reader: BundleReader,
    first: u64,
    bytes: u64,
    lines: LineRuns,
}

impl TapReading {
    /// A tap before its first line.
    fn new(alloc: Global, keys: RandomState) -> TapReading
        ensures taps { (lines : List Line) → taps_to_come result.reader lines ≡ taps_of lines }
        ensures lines { lines_of_runs result.lines ≡ [] }
    {
        TapReading {
            reader: BundleReader::new(alloc, keys),
            first: 0,
            bytes: 0,
            lines: LineRuns::new(Vec::new(alloc)),
        }
    }

    /// Reads the next lines.
    fn read(&mut self, lines: &[Line]) -> Result<(), RunFault>
        ensures taps { (more : List Line) → OnOk result (taps_to_come self.new.reader more
            ≡ taps_to_come self.old.reader (lines.now ++ more)) }
        ensures lines { OnOk result (lines_of_runs self.new.lines
            ≡ lines_of_runs self.old.lines ++ map (λ (line : Line). line.number) lines.now) }
    {
        push_numbers(&mut self.lines, lines)?;
        for line in lines {
            let bytes = (line.bytes.as_slice().len() as u64).saturating_add(1);
            self.first = if self.bytes == 0 { bytes } else { self.first };
            self.bytes = self.bytes.saturating_add(bytes);
            // (the reader keeps a refusal until it ends)
            match self.reader.line(&line.lent()) {
                Err(ReadFault::Memory) => return Err(RunFault::Memory),
                Ok(()) | Err(ReadFault::Input(_, _)) => {}
            }
        }
        Ok(())
    }

    /// What was read.
    fn finish(self) -> Result<TapRead, RunFault>
        ensures taps { IfOk result (λ tap. tap.read ≡ taps_to_come self.reader []) }
        ensures own { (lines : List Line) → taps_to_come self.reader [] ≡ taps_of lines
            → IfOk result (λ tap. IfOk tap.read (HaveTheirOwnLines lines)) }
        ensures lines { IfOk result (λ tap. tap.lines ≡ self.lines) }
    {
        let TapReading {
            reader,
            first,
            bytes,
            lines,
        } = self;
        match reader.finish() {
            Err(ReadFault::Memory) => Err(RunFault::Memory),
            read => Ok(TapRead {
                read,
                first,
                bytes,
                lines,
            }),
        }
    }
}

/// Reads a tap. Each line is dropped once it was read.
pub fn read_tap<S: RunSource>(
    alloc: Global,
    keys: RandomState,
    tap: &TapRuns,
    source: &mut S,
    buffer: &mut Vec<u8>,
) -> Result<TapRead, RunFault>
    ensures tap { (files : List (List ℕ)) → S.files source.old ≡ Some files
        → AllByRecursion (IsReadable files) tap.now.runs
        → IfOk result (IsReadOf (runs_lines files tap.now.runs)) }
    ensures source { S.files source.new ≡ S.files source.old }
{
    let mut reading = TapReading::new(alloc, keys);
    let mut left = RunLines::of(None, tap.runs());
    'pieces: while let Some(lines) = left.next_lines(alloc, source, buffer)? {
        reading.read(&lines)?;
    }
    reading.finish()
}

/// The bytes of a run, and the number of its first line.
#[derive(Drop)]
pub struct HeldRun {
    pub number: u64,
    pub bytes: Vec<u8>,
}

/// Reads the bytes of runs.
pub fn hold<S: RunSource>(
    alloc: Global,
    source: &mut S,
    runs: &[Run],
) -> Result<Vec<HeldRun>, RunFault>
    ensures runs { (files : List (List ℕ)) → S.files source.old ≡ Some files
        → AllByRecursion (IsReadable files) runs.now
        → IfOk result (λ held. HoldsLines (runs_lines files runs.now) held.items) }
    ensures source { S.files source.new ≡ S.files source.old }
{
    let mut held = Vec::new(alloc);
    for run in runs {
        let mut bytes = Vec::new(alloc);
        source.read_run(run, &mut bytes)?;
        let number = run.number;
        let Ok(()) = held.push(HeldRun { number, bytes }) else {
            return Err(RunFault::Memory);
        };
    }
    Ok(held)
}

/// Reads a tap of which these are the runs, in their order.
pub fn read_held(alloc: Global, keys: RandomState, held: &[HeldRun]) -> Result<TapRead, RunFault>
    ensures { (lines : List Line) → HoldsLines lines held.now → IfOk result (IsReadOf lines) }
{
    let mut reading = TapReading::new(alloc, keys);
    for run in held {
        let mut lines = Vec::new(alloc);
        push_lines(alloc, run.number, &run.bytes, &mut lines)?;
        reading.read(&lines)?;
    }
    reading.finish()
}

/// The tap of this name among those that were read.
pub fn tap_named<'t>(taps: &'t [Tap], name: &str) -> Option<&'t Tap>
    ensures { option_copied result ≡ tap_named name.now taps.now }
{
    taps.iter().find(|tap| name == tap.name.as_str())
}
