//! The taps of the lines.
mod client_log;
mod counts;
mod node_log;
mod offsets;
mod open_tap;
mod open_taps;
mod own_records;
mod packed;
mod pids;
mod stream_log;

ghost use Rattle.std.specs.Prelude.{◌≡◌, ◌≢◌, ◌++◌, ◌∷◌, [], List, IfOk, IfErr, IfSome, Ok, Err, Some, None};
ghost use Rattle.std.specs.List.{AllZip, flat_map};
ghost use Rattle.aud_tap.specs.Names.{AreNamedOnce};
ghost use Rattle.aud_reader.specs.declared.bundle.own_records.OwnRecord.TheVariants.{Placed};
ghost use Rattle.aud_reader.specs.declared.line.Line.{Line};
ghost use Rattle.aud_reader.specs.Lines.{result_of};
ghost use Rattle.aud_reader.specs.Bundle.{taps_of};
ghost use Rattle.aud_reader.specs.TapLaws.{HasOneStreamAtMost, HasEachOffsetOnce};
ghost use Rattle.aud_reader.specs.OwnLines.{HaveTheirOwnLines, EachLineIsOfOneTap};
ghost use Rattle.aud_reader.specs.Private.OwnRecords.{AreOfLines, IsOfLine};

use crate::fault::{LineFault, ReadFault, refuse};
use crate::line::LentLine;
use crate::lines::Lines;
use aud_base::TextPool;
use aud_json::Scratch;
use aud_tap::Taps;
use open_taps::OpenTaps;
use own_records::{OwnRecord, own_records_of, parts_of};
use packed::PackedRec;
use std::alloc::Global;
use std::hash::RandomState;
use std::marker::Model;
use std::thread::Threads;

/// So few lines are read by one thread: to start others takes as long.
const FEW: usize = 12_288;

/// Reads the taps of the lines that it is given, one line at a time, and copies what it keeps. A text that stands in
/// many records is shared by them, through a pool that is dropped with the reader. A line is read through memory that
/// is kept from line to line, and that grows to the longest record.
///
/// After a refusal, also when out of memory, it gives that refusal from then on.
#[derive(Drop)]
pub struct BundleReader {
    alloc: Global,
    keys: RandomState,
    taps: OpenTaps,
    pool: TextPool,
    scratch: Scratch,
    fault: Option<ReadFault>,
}

impl Model for BundleReader {
    ghost use Rattle.std.specs.Prelude.{◌≡◌, None};
    ghost use Rattle.aud_reader.specs.Bundle.{Reading};
    ghost use Rattle.aud_reader.specs.Private.Kept.{KeepsTaps};
    ghost use Rattle.aud_reader.specs.SoFar.{taps_so_far};
    ghost use Rattle.aud_reader.specs.Sound.{AreSoundTaps};

    ghost Value = { Reading };

    ghost view = { λ s. record { taps = taps_so_far s.taps; fault = s.fault } };

    ghost invariant = { λ s. s.fault ≡ None → KeepsTaps s.taps × AreSoundTaps (taps_so_far s.taps) };
}

impl BundleReader {
    ghost use Rattle.aud_reader.specs.Bundle.{taps_to_come};

    /// A reader before the first line. Texts are found again by their hashes under these keys.
    pub fn new(alloc: Global, keys: RandomState) -> BundleReader
        ensures state { result ≡ record { taps = []; fault = None } }
        ensures taps { (lines : List Line) → taps_to_come result lines ≡ taps_of lines }
    {
        BundleReader {
            alloc,
            keys,
            taps: OpenTaps::new(alloc, keys),
            pool: TextPool::new(alloc, keys),
            scratch: Scratch::new(alloc),
            fault: None,
        }
    }

    /// Reads the next line. A line without bytes is passed over. A line is refused by its own number, and the first of
    /// the reasons that docs/FORMAT.md lists, in the light of the lines before it.
    pub fn line(&mut self, line: &LentLine<'_>) -> Result<(), ReadFault>
        ensures value { result ≡ result_of self.new.fault }
        ensures taps { (more : List Line) → result ≢ Err ReadFault.Memory
            → taps_to_come self.new more ≡ taps_to_come self.old (line.now ∷ more) }
        ensures refused { IfSome self.old.fault (λ fault. (result ≡ Err fault)
            × (self.new ≡ self.old)) }
    {
        if let Some(fault) = self.fault {
            return Err(fault);
        }
        if line.bytes.is_empty() {
            return Ok(());
        }
        match self
            .taps
            .read_line(&mut self.pool, &mut self.scratch, line.bytes)
        {
            Ok(()) => Ok(()),
            Err(LineFault::Code(code)) => {
                refuse(&mut self.fault, ReadFault::Input(line.number, code))
            }
            Err(LineFault::Memory) => refuse(&mut self.fault, ReadFault::Memory),
        }
    }

    /// Reads the next lines, up to the first that is refused: what [`line`](BundleReader::line) gives, line after line.
    ///
    /// With 2 threads or more, 12,288 lines or more are parsed in parts, which are shared out among at most so many
    /// threads, as [`try_map`](aud_base::try_map) says; then their records are added in the lines' order. How many
    /// threads there are changes nothing in what is given. Texts that stand in many records are then shared within a part
    /// alone.
    pub fn lines<H: Threads + Sync>(
        &mut self,
        rt: &H,
        threads: usize,
        lines: &Lines,
    ) -> Result<(), ReadFault>
        ensures value { result ≡ result_of self.new.fault }
        ensures taps { (more : List Line) → result ≢ Err ReadFault.Memory
            → taps_to_come self.new more ≡ taps_to_come self.old (lines.now ++ more) }
        ensures refused { IfSome self.old.fault (λ fault. (result ≡ Err fault)
            × (self.new ≡ self.old)) }
    {
        if let Some(fault) = self.fault {
            return Err(fault);
        }
        let Ok(lines) = lines.lent() else {
            return refuse(&mut self.fault, ReadFault::Memory);
        };
        if threads < 2 || lines.len() < FEW {
            return self.each_line(&lines);
        }
        self.lines_in_parts(rt, threads, &lines)
    }

    /// Reads the next lines, one after the other.
    fn each_line(&mut self, lines: &[LentLine<'_>]) -> Result<(), ReadFault>
        requires { self.old.fault ≡ None }
        ensures value { result ≡ result_of self.new.fault }
        ensures taps { (more : List Line) → result ≢ Err ReadFault.Memory
            → taps_to_come self.new more ≡ taps_to_come self.old (lines.now ++ more) }
    {
        for line in lines {
            self.line(line)?;
        }
        Ok(())
    }

    /// Reads the next lines, which are parsed in parts.
    fn lines_in_parts<H: Threads + Sync>(
        &mut self,
        rt: &H,
        threads: usize,
        lines: &[LentLine<'_>],
    ) -> Result<(), ReadFault>
        requires { self.old.fault ≡ None }
        ensures value { result ≡ result_of self.new.fault }
        ensures taps { (more : List Line) → result ≢ Err ReadFault.Memory
            → taps_to_come self.new more ≡ taps_to_come self.old (lines.now ++ more) }
    {
        let Ok(parts) = parts_of(self.alloc, lines) else {
            return refuse(&mut self.fault, ReadFault::Memory);
        };
        let parts = parts.as_slice();
        match own_records_of(rt, self.alloc, self.keys, threads, &self.taps, parts) {
            Ok(own) => self.join(parts, own),
            Err(_) => refuse(&mut self.fault, ReadFault::Memory),
        }
    }

    /// Adds the records of all parts, in their order.
    fn join(&mut self, parts: &[&[LentLine<'_>]], own: Vec<Vec<OwnRecord>>) -> Result<(), ReadFault>
        requires open { self.old.fault ≡ None }
        requires own { AllZip (λ part records.
            AreOfLines self.old.taps part.now records.items) parts.now own.items }
        ensures value { result ≡ result_of self.new.fault }
        ensures taps { (more : List Line) → result ≢ Err ReadFault.Memory
            → taps_to_come self.new more
            ≡ taps_to_come self.old (flat_map (λ part. part.now) parts.now ++ more) }
    {
        let mut number = 0;
        for records in own {
            self.join_part(parts[number], records)?;
            number += 1;
        }
        Ok(())
    }

    /// Adds the records of a part's lines, in their order.
    fn join_part(&mut self, lines: &[LentLine<'_>], own: Vec<OwnRecord>) -> Result<(), ReadFault>
        requires open { self.old.fault ≡ None }
        requires own { AreOfLines self.old.taps lines.now own.items }
        ensures value { result ≡ result_of self.new.fault }
        ensures taps { (more : List Line) → result ≢ Err ReadFault.Memory
            → taps_to_come self.new more ≡ taps_to_come self.old (lines.now ++ more) }
    {
        let mut number = 0;
        for record in own {
            self.parsed_line(&lines[number], record)?;
            number += 1;
        }
        Ok(())
    }

    /// Reads the next line, whose record is added where it is known and the tap is there.
    fn parsed_line(&mut self, line: &LentLine<'_>, own: OwnRecord) -> Result<(), ReadFault>
        requires open { self.old.fault ≡ None }
        requires own { IsOfLine self.old.taps line.now own }
        ensures value { result ≡ result_of self.new.fault }
        ensures taps { (more : List Line) → result ≢ Err ReadFault.Memory
            → taps_to_come self.new more ≡ taps_to_come self.old (line.now ∷ more) }
    {
        match own {
            OwnRecord::Placed { place, rec } => self.add_record(line, place as usize, rec),
            OwnRecord::Unplaced { rec } => match self.taps.known_line(line.bytes) {
                Some((place, _)) => self.add_record(line, place, rec),
                None => self.line(line),
            },
            OwnRecord::NoRecord => self.line(line),
        }
    }

    /// Adds the record of the next line to the tap at this place, which is the line's.
    fn add_record(
        &mut self,
        line: &LentLine<'_>,
        place: usize,
        rec: PackedRec,
    ) -> Result<(), ReadFault>
        requires open { self.old.fault ≡ None }
        requires own { IsOfLine self.old.taps line.now (Placed place rec) }
        ensures value { result ≡ result_of self.new.fault }
        ensures taps { (more : List Line) → result ≢ Err ReadFault.Memory
            → taps_to_come self.new more ≡ taps_to_come self.old (line.now ∷ more) }
    {
        match self.taps.push_record(place, rec) {
            Ok(()) => Ok(()),
            Err(LineFault::Code(code)) => {
                refuse(&mut self.fault, ReadFault::Input(line.number, code))
            }
            Err(LineFault::Memory) => refuse(&mut self.fault, ReadFault::Memory),
        }
    }

    /// The taps of the lines, in the order of their headers: each name once, one stream at most, in it each offset
    /// once, and in each tap the records of its own lines. It refuses where a line was refused, and when out of memory.
    pub fn finish(self) -> Result<Taps, ReadFault>
        ensures ok { IfOk result (λ taps. taps_to_come self [] ≡ Ok taps) }
        ensures names { IfOk result (λ taps. AreNamedOnce taps) }
        ensures stream { IfOk result (λ taps. HasOneStreamAtMost taps) }
        ensures offsets { IfOk result (λ taps. HasEachOffsetOnce taps) }
        ensures own_lines { (lines : List Line) → taps_to_come self [] ≡ taps_of lines
            → IfOk result (λ taps. HaveTheirOwnLines lines taps) }
        ensures each_line { (lines : List Line) → taps_to_come self [] ≡ taps_of lines
            → IfOk result (λ taps. EachLineIsOfOneTap lines taps) }
        ensures err { IfErr result (λ e. e ≢ ReadFault.Memory → self.fault ≡ Some e) }
        ensures refused { IfSome self.fault (λ fault. result ≡ Err fault) }
    {
        if let Some(fault) = self.fault {
            return Err(fault);
        }
        Ok(self.taps.close()?)
    }
}

/// The taps of the lines, in the order of their headers; or the first refused line, by its number
/// and the first of the reasons that docs/FORMAT.md lists.
///
/// Each line is judged by the taps of the lines before it. Lines without bytes are passed over. The lines are borrowed
/// for the call alone. Texts are found again by their hashes under these keys.
pub fn read_bundle(alloc: Global, keys: RandomState, lines: &Lines) -> Result<Taps, ReadFault>
    ensures read { IfOk result (λ taps. taps_of lines.now ≡ Ok taps) }
    ensures names { IfOk result (λ taps. AreNamedOnce taps) }
    ensures stream { IfOk result (λ taps. HasOneStreamAtMost taps) }
    ensures offsets { IfOk result (λ taps. HasEachOffsetOnce taps) }
    ensures own_lines { IfOk result (λ taps. HaveTheirOwnLines lines.now taps) }
    ensures each_line { IfOk result (λ taps. EachLineIsOfOneTap lines.now taps) }
    ensures refused { IfErr result (λ e. e ≢ ReadFault.Memory → taps_of lines.now ≡ Err e) }
{
    let mut reader = BundleReader::new(alloc, keys);
    for line in &lines.lent()? {
        reader.line(line)?;
    }
    reader.finish()
}
