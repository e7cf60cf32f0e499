//! The taps and the certificates of an input that comes in pieces.
ghost use Rattle.std.specs.Prelude.{◌≡◌, ◌≢◌, ◌+◌, ◌-◌, ◌^◌, ◌<◌, ◌≤◌, ◌++◌, [], ℕ, List, length, is_none, option_map, None, Ok, Err, IfOk, IfErr, IfSome, OnOk};
ghost use Rattle.aud_tap.specs.Names.{AreNamedOnce};
ghost use Rattle.aud_reader.specs.Lines.{lines_to_come, result_of};
ghost use Rattle.aud_input.specs.Files.{header_told, line_told};
ghost use Rattle.aud_input.specs.Input.{input_of};
ghost use Rattle.std.specs.Thread.{IsSync};
ghost use Rattle.aud_input.specs.Private.Going.{AreGoing, Cuts, Notes, ReadsWaiting, fault_of, reader_of};
ghost use Rattle.aud_input.specs.Private.Kept.{KeepsPlaces, so_far};
ghost use Rattle.aud_input.specs.Reader.{AreAmong, HasLines, Holds, input_over, input_to_come, line_numbered, parts_to_come};
ghost use Rattle.aud_input.specs.TapLines.{lines_noted, noted, taps_noted};

use crate::index::LineIndex;
use crate::input::{Input, Layout};
use crate::parts::PartsReader;
use crate::refusal::header_of;
use crate::tap_lines::RecordLines;
use aud_reader::{InputCode, Line, Lines, ReadFault, Splitter};
use aud_tap::Bytes;
use std::alloc::{AllocError, Global};
use std::hash::RandomState;
use std::marker::Model;
use std::thread::{Threads, join_mut};

/// Reads an input that comes in pieces: for one thread the lines that a piece ends; for several the lines of the bundle
/// wait until there are 32,768 of them, or 4 MiB, and are read together, while one more thread cuts the next piece.
///
/// It keeps the line that has begun, the lines that wait, the certificates, and what the records of the other lines
/// tell. After a refusal, also when out of memory, it gives that refusal from then on, and looks at no more bytes.
#[derive(Drop)]
pub struct InputReader {
    splitter: Splitter,
    parts: PartsReader,
    index: Option<LineIndex>,
    fault: Option<ReadFault>,
}

impl Model for InputReader {
    ghost use Rattle.std.specs.Prelude.{◌≡◌, None, IfSome, option_map};
    ghost use Rattle.aud_input.specs.Reader.{InputSoFar};
    ghost use Rattle.aud_input.specs.Private.Going.{AreGoing};
    ghost use Rattle.aud_input.specs.Private.Kept.{KeepsPlaces, so_far};

    ghost Value = { InputSoFar };

    ghost view = { λ s. record { cut = s.splitter; parts = s.parts; index = option_map so_far s.index; fault = s.fault } };

    ghost invariant = { λ s. s.fault ≡ None → AreGoing s.splitter s.parts × IfSome s.index KeepsPlaces };
}

/// Notes the next lines, where an index is kept.
fn note_lines(index: &mut Option<LineIndex>, lines: &Lines) -> Result<(), AllocError>
    requires { IfSome index.old KeepsPlaces }
    ensures noted { OnOk result (option_map so_far index.new
        ≡ option_map (λ s. noted s lines.now) (option_map so_far index.old)) }
    ensures keeps { OnOk result (IfSome index.new KeepsPlaces) }
{
    match index {
        Some(index) => index.note_lines(&lines.lent()?),
        None => Ok(()),
    }
}

/// Cuts the next piece into lines, and notes those that are whole. Gives the refusal of the one that is too long.
fn cut_piece(
    splitter: &mut Splitter,
    index: &mut Option<LineIndex>,
    piece: &[u8],
) -> Result<Option<ReadFault>, AllocError>
    requires number { splitter.old.number + length piece.now < 2 ^ 64 }
    requires keeps { IfSome index.old KeepsPlaces }
    ensures cut { IfOk result (Cuts splitter.old splitter.new piece.now) }
    ensures noted { OnOk result (Notes index.old index.new splitter.new.waiting) }
    ensures number { splitter.new.number ≤ splitter.old.number + length piece.now }
{
    let cut = splitter.feed(piece);
    note_lines(index, splitter.waiting())?;
    match cut {
        Ok(()) => Ok(None),
        Err(ReadFault::Memory) => Err(AllocError),
        Err(refused) => Ok(Some(refused)),
    }
}

/// Cuts the next piece into lines and notes those that are whole, while the lines that wait are read, if they are enough
/// for so many threads. Gives the refusal of the line that is too long, and what comes of the lines that waited.
fn cut_and_read<H: Threads + Sync>(
    rt: &H,
    threads: usize,
    splitter: &mut Splitter,
    parts: &mut PartsReader,
    index: &mut Option<LineIndex>,
    piece: &[u8],
) -> (Result<Option<ReadFault>, AllocError>, Result<(), ReadFault>)
    requires number { splitter.old.number + length piece.now < 2 ^ 64 }
    requires going { parts.old.taps.fault ≡ None }
    requires keeps { IfSome index.old KeepsPlaces }
    ensures cut { IfOk result.0 (Cuts splitter.old splitter.new piece.now) }
    ensures noted { OnOk result.0 (Notes index.old index.new splitter.new.waiting) }
    ensures number { splitter.new.number ≤ splitter.old.number + length piece.now }
    ensures read { ReadsWaiting parts.old parts.new result.1 }
{
    if threads < 2 || !parts.has_enough() {
        return (cut_piece(splitter, index, piece), Ok(()));
    }
    let mut cutting = || -> Result<Option<ReadFault>, AllocError>
        requires { (splitter.now.number + length piece.now < 2 ^ 64) × IfSome index.now KeepsPlaces }
        ensures { IfOk result (Cuts splitter.entry.now splitter.exit.now piece.entry.now)
            × OnOk result (Notes index.entry.now index.exit.now splitter.exit.now.waiting)
            × (splitter.exit.now.number ≤ splitter.entry.now.number + length piece.entry.now) }
    { cut_piece(splitter, index, piece) };
    let mut reading = || -> Result<(), ReadFault>
        requires { IsSync H.row × (parts.now.taps.fault ≡ None) }
        ensures { ReadsWaiting parts.entry.now parts.exit.now result }
    { parts.read_waiting(rt, threads) };
    join_mut(rt, &mut cutting, &mut reading)
}

/// Cuts the next piece into lines, notes those that are whole, and reads them, now or once there are enough.
fn read_piece<H: Threads + Sync>(
    rt: &H,
    threads: usize,
    splitter: &mut Splitter,
    parts: &mut PartsReader,
    index: &mut Option<LineIndex>,
    piece: &[u8],
) -> Result<(), ReadFault>
    requires number { splitter.old.number + length piece.now < 2 ^ 64 }
    requires going { AreGoing splitter.old parts.old }
    requires keeps { IfSome index.old KeepsPlaces }
    ensures going { OnOk result (AreGoing splitter.new parts.new) }
    ensures keeps { OnOk result (IfSome index.new KeepsPlaces) }
    ensures input { OnOk result ((more : List ℕ)
        → input_over parts.new (lines_to_come splitter.new more)
        ≡ input_over parts.old (lines_to_come splitter.old (piece.now ++ more))) }
    ensures lines { result ≢ Err ReadFault.Memory → (bytes : List ℕ)
        → HasLines bytes (reader_of splitter.old parts.old index.old None)
        → HasLines (bytes ++ piece.now)
        (reader_of splitter.new parts.new index.new (fault_of result)) }
    ensures refused { IfErr result (λ e. e ≢ ReadFault.Memory → (more : List ℕ)
        → input_over parts.old (lines_to_come splitter.old (piece.now ++ more)) ≡ Err e) }
    ensures number { splitter.new.number ≤ splitter.old.number + length piece.now }
{
    let (cut, read) = cut_and_read(rt, threads, splitter, parts, index, piece);
    let too_long = cut?;
    // A line that waited stands before those of the piece.
    match read {
        Ok(()) => {}
        Err(fault) => return Err(fault),
    }
    match parts.take_lines(rt, threads, splitter, piece.len()) {
        Ok(()) => {}
        Err(fault) => return Err(fault),
    }
    match too_long {
        None => Ok(()),
        // A line that waits stands before the one that is too long, and may be refused too.
        Some(fault) => match parts.read_waiting(rt, threads) {
            Ok(()) => Err(fault),
            Err(earlier) => Err(earlier),
        },
    }
}

/// The line of each record, where an index is kept.
fn record_lines(alloc: Global, index: Option<LineIndex>) -> RecordLines
    ensures { result ≡ taps_noted (option_map so_far index) }
{
    match index {
        Some(index) => index.close(),
        None => RecordLines::new(Vec::new(alloc)),
    }
}

/// The bytes of a line, where there is one.
fn line_told(alloc: Global, line: Option<Line>) -> Bytes
    ensures { result ≡ line_told line }
{
    match line {
        Some(line) => line.bytes,
        None => Bytes::new(Vec::new(alloc)),
    }
}

impl InputReader {
    /// A reader before the first byte. Texts are found again by their hashes under these keys.
    pub fn new(alloc: Global, keys: RandomState, layout: Layout) -> InputReader
        ensures number { result.cut.number ≡ 1 }
        ensures going { result.fault ≡ None }
        ensures input { (bytes : List ℕ) → input_to_come result bytes ≡ input_of layout bytes }
    {
        InputReader {
            splitter: Splitter::new(alloc),
            parts: PartsReader::new(alloc, keys, layout),
            index: None,
            fault: None,
        }
    }

    /// A reader of a bundle that keeps the line of each record too.
    pub(crate) fn indexed(alloc: Global, keys: RandomState) -> InputReader
        ensures number { result.cut.number ≡ 1 }
        ensures going { result.fault ≡ None }
        ensures input { (bytes : List ℕ) → input_to_come result bytes
            ≡ input_of Layout.Bundle bytes }
        ensures lines { HasLines [] result }
    {
        InputReader {
            splitter: Splitter::new(alloc),
            parts: PartsReader::new(alloc, keys, Layout::Bundle),
            index: Some(LineIndex::new(alloc, keys)),
            fault: None,
        }
    }

    /// Reads the next piece of the input, which is borrowed for the call alone.
    ///
    /// The first refused line is refused once it was read, at most `threads` threads sharing the work beside the one that
    /// cuts this piece, or once its bytes are too many. The numbers of lines are below 2 to the 64th.
    pub fn feed<H: Threads + Sync>(
        &mut self,
        rt: &H,
        threads: usize,
        piece: &[u8],
    ) -> Result<(), ReadFault>
        requires { self.old.cut.number + length piece.now < 2 ^ 64 }
        ensures value { result ≡ result_of self.new.fault }
        ensures input { (more : List ℕ) → result ≢ Err ReadFault.Memory
            → input_to_come self.new more ≡ input_to_come self.old (piece.now ++ more) }
        ensures lines { result ≢ Err ReadFault.Memory → (bytes : List ℕ)
            → HasLines bytes self.old → HasLines (bytes ++ piece.now) self.new }
        ensures refused { IfSome self.old.fault (λ fault. (result ≡ Err fault)
            × (self.new ≡ self.old)) }
        ensures number { self.new.cut.number ≤ self.old.cut.number + length piece.now }
    {
        if let Some(fault) = self.fault {
            return Err(fault);
        }
        match read_piece(
            rt,
            threads,
            &mut self.splitter,
            &mut self.parts,
            &mut self.index,
            piece,
        ) {
            Ok(()) => Ok(()),
            Err(fault) => {
                self.fault = Some(fault);
                Err(fault)
            }
        }
    }

    /// Ends the input: its taps and its certificates, or its first refused line. What comes after the last newline is a
    /// line too. No two taps have one name.
    pub fn finish<H: Threads + Sync>(self, rt: &H, threads: usize) -> Result<Input, ReadFault>
        requires { self.cut.number < 2 ^ 64 - 1 }
        ensures read { IfOk result (λ input. input_to_come self [] ≡ Ok input) }
        ensures names { IfOk result (λ input. AreNamedOnce input.taps) }
        ensures refused { IfErr result (λ e. e ≢ ReadFault.Memory → input_to_come self [] ≡ Err e) }
        ensures kept { IfSome self.fault (λ fault. result ≡ Err fault) }
    {
        let mut this = self;
        if let Some(fault) = this.fault {
            return Err(fault);
        }
        let lines = this.splitter.finish()?;
        note_lines(&mut this.index, &lines)?;
        this.parts.keep_lines(&lines, 0)?;
        this.parts.finish(rt, threads)
    }

    /// How many lines were noted: all that are whole, unless one is refused. None are where no index is kept.
    pub(crate) fn lines(&self) -> u64
        ensures { result ≡ lines_noted self.now.index }
    {
        match &self.index {
            Some(index) => index.lines(),
            None => 0,
        }
    }

    /// Whether no line is refused.
    pub(crate) fn goes_on(&self) -> bool
        ensures { result ≡ is_none self.now.fault }
    {
        self.fault.is_none()
    }

    /// Reads the lines that wait.
    pub(crate) fn read_waiting<H: Threads + Sync>(
        &mut self,
        rt: &H,
        threads: usize,
    ) -> Result<(), ReadFault>
        ensures value { result ≡ result_of self.new.fault }
        ensures none { OnOk result (self.new.parts.waiting ≡ []) }
        ensures input { (more : List ℕ) → result ≢ Err ReadFault.Memory
            → input_to_come self.new more ≡ input_to_come self.old more }
        ensures lines { result ≢ Err ReadFault.Memory → (bytes : List ℕ)
            → HasLines bytes self.old → HasLines bytes self.new }
    {
        if let Some(fault) = self.fault {
            return Err(fault);
        }
        match self.parts.read_waiting(rt, threads) {
            Ok(()) => Ok(()),
            Err(fault) => {
                self.fault = Some(fault);
                Err(fault)
            }
        }
    }

    /// The taps of the lines that were read, where all were, and the line of each record. No two taps have one name.
    pub(crate) fn close(self, alloc: Global) -> Result<(Input, RecordLines), ReadFault>
        requires going { self.fault ≡ None }
        requires none { self.parts.waiting ≡ [] }
        ensures read { IfOk result (λ read. parts_to_come self.parts [] ≡ Ok read.0) }
        ensures names { IfOk result (λ read. AreNamedOnce read.0.taps) }
        ensures lines { IfOk result (λ read. read.1 ≡ taps_noted self.index) }
        ensures err { IfErr result (λ e. e ≡ ReadFault.Memory) }
    {
        let InputReader {
            splitter: _,
            parts,
            index,
            fault: _,
        } = self;
        let input = parts.close()?;
        Ok((input, record_lines(alloc, index)))
    }

    /// What is told of the line of this number, which is refused: its bytes, and the line of the header that stands
    /// already.
    pub(crate) fn refused(
        self,
        alloc: Global,
        number: u64,
        code: InputCode,
    ) -> Result<(Bytes, Option<u64>), AllocError>
        ensures line { IfOk result (λ told.
            told.0 ≡ line_told (line_numbered number self.parts.waiting)) }
        ensures header { IfOk result (λ told.
            told.1 ≡ header_told code (taps_noted self.index) told.0) }
    {
        let InputReader {
            splitter: _,
            parts,
            index,
            fault: _,
        } = self;
        let line = line_told(alloc, parts.waiting_line(number)?);
        let lines = record_lines(alloc, index);
        let header = header_of(&lines, code, line.as_slice());
        Ok((line, header))
    }
}
