//! The taps of the stream and of the nodes, and what each tap was put on.
ghost use Rattle.std.specs.Prelude.{◌≡◌, ◌++◌, ◌∷◌, [], ℕ, List, IfOk, IfSome, None, OnOk, Some, map};
ghost use Rattle.std.specs.List.{All};
ghost use Rattle.std.specs.Option.{option_map};
ghost use Rattle.aud_node.specs.Cluster.{node_recs};
ghost use Rattle.aud_reader.specs.declared.line.Line.{Line};
ghost use Rattle.aud_reader.specs.Bundle.{tap_named};
ghost use Rattle.aud_reader.specs.OwnLines.{HaveTheirOwnLines, records_for};
ghost use Rattle.aud_tap.specs.declared.records.Rec.TheVariants as rec;
ghost use Rattle.aud_tap.specs.declared.records.TapKind.TheVariants as kind;
ghost use Rattle.aud_tap.specs.declared.records.Version.{Version};
ghost use Rattle.aud_parts.specs.ServersRead.{AreServers, header_for, kind_told};
ghost use Rattle.aud_parts.specs.TapRuns.{MayBeRead, TapRuns};
ghost use Rattle.aud_parts.specs.Private.ServerSteps.{AddsServer, IsHeaderOf, stream_recs};

use crate::tap_index::first_refusal::{FirstRefusal, RefusedLine};
use crate::tap_index::run_lines::{RunLines, first_line};
use crate::tap_index::tap_lines::{lines_past, push_numbers};
use crate::tap_index::tap_reading::{TapRead, read_tap, tap_named};
use crate::tap_index::tap_runs::{RunSource, TapRuns};
use aud_base::RunFault;
use aud_input::LineRuns;
use aud_reader::{BundleReader, InputCode, Line, ReadFault, parse_line};
use aud_tap::{NodeRecs, Rec, Records, StreamRecs, Tap, TapKind, Taps, Text, Version};
use aud_upgrade::{copied_entry, copied_record};
use std::alloc::{AllocError, Global};
use std::hash::RandomState;

/// What is read of the taps of an index before those of the clients.
#[derive(Drop)]
pub struct Servers {
    /// The taps of the stream and of the nodes, in the order of the index.
    pub taps: Taps,
    /// The lines of each of them.
    pub lines: Vec<LineRuns>,
    /// Of each tap of the index what its first line says that it was put on; none where that is no header.
    pub kinds: Vec<Option<TapKind>>,
}

/// The most lines of a node's tap that are read as one bundle: so many name no more sessions than one may have.
const MOST_LINES: usize = 65_536;

/// The first line of a tap, where it is a header, and what it says.
#[derive(Drop)]
struct Header {
    line: Line,
    of: TapKind,
    version: Version,
}

/// What this line says, where it is a header of the tap of this name.
fn header_in(
    alloc: Global,
    keys: RandomState,
    name: &str,
    line: &Line,
) -> Result<Option<(TapKind, Version)>, AllocError>
    ensures { IfOk result (λ header. header ≡ header_for name.now line.now) }
{
    match parse_line(alloc, keys, line) {
        Ok((own, rec)) => {
            let Rec::Header { of, v } = rec else {
                return Ok(None);
            };
            if name != own.as_str() {
                return Ok(None);
            }
            Ok(Some((of, v)))
        }
        Err(ReadFault::Input(_, _)) => Ok(None),
        Err(ReadFault::Memory) => Err(AllocError),
    }
}

/// The header that the first line of the tap is.
fn first_header<S: RunSource>(
    alloc: Global,
    keys: RandomState,
    tap: &TapRuns,
    source: &mut S,
    buffer: &mut Vec<u8>,
) -> Result<Option<Header>, RunFault>
    ensures kind { (files : List (List ℕ)) → S.files source.old ≡ Some files
        → MayBeRead files tap.now
        → IfOk result (λ header. option_map (λ h. h.of) header ≡ kind_told files tap.now) }
    ensures header { (files : List (List ℕ)) → S.files source.old ≡ Some files
        → MayBeRead files tap.now
        → IfOk result (λ header. IfSome header (IsHeaderOf files tap.now)) }
    ensures source { S.files source.new ≡ S.files source.old }
{
    match first_line(alloc, source, buffer, tap.runs())? {
        Some(line) => match header_in(alloc, keys, tap.name(), &line)? {
            Some((of, version)) => Ok(Some(Header { line, of, version })),
            None => Ok(None),
        },
        None => Ok(None),
    }
}

/// Reads the header of a tap and lines after it as a bundle of this tap alone.
fn read_piece(
    alloc: Global,
    keys: RandomState,
    header: &Line,
    lines: &[Line],
) -> Result<Taps, ReadFault>
    ensures { IfOk result (HaveTheirOwnLines (header.now ∷ lines.now)) }
{
    let mut reader = BundleReader::new(alloc, keys);
    reader.line(&header.lent())?;
    for line in lines {
        reader.line(&line.lent())?;
    }
    reader.finish()
}

/// Adds copies of the records of the tap of this name, if it is a node's. Their texts are shared.
fn push_named(log: &mut NodeRecs, taps: &[Tap], name: &str) -> Result<(), AllocError>
    ensures { OnOk result (log.new ≡ log.old
        ++ node_recs (option_map (λ tap. tap.records) (tap_named name.now taps.now))) }
{
    let Some(tap) = tap_named(taps, name) else {
        return Ok(());
    };
    match &tap.records {
        Records::Node(records) => {
            for number in 0..records.len() {
                log.push(copied_record(&records[number])?)?;
            }
            Ok(())
        }
        Records::Stream(_) | Records::Client(_) => Ok(()),
    }
}

/// Copies of the entries of the tap of this name, if it is a stream's. Their texts are shared.
fn stream_named(alloc: Global, taps: &[Tap], name: &str) -> Result<StreamRecs, AllocError>
    ensures { IfOk result (λ entries. entries
        ≡ stream_recs (option_map (λ tap. tap.records) (tap_named name.now taps.now))) }
{
    let Some(tap) = tap_named(taps, name) else {
        return Ok(StreamRecs::new(alloc));
    };
    match &tap.records {
        Records::Stream(entries) => {
            let mut copy = StreamRecs::new(alloc);
            for number in 0..entries.len() {
                copy.push(copied_entry(alloc, &entries[number])?)?;
            }
            Ok(copy)
        }
        Records::Node(_) | Records::Client(_) => Ok(StreamRecs::new(alloc)),
    }
}

/// Reads lines of the node's tap of this name after its header, and adds their records to its log; tells which line is
/// refused.
fn read_lines(
    alloc: Global,
    keys: RandomState,
    name: &str,
    header: &Line,
    lines: &[Line],
    log: &mut NodeRecs,
) -> Result<Option<RefusedLine>, RunFault>
    ensures { (v : Version) → header_for name.now header.now ≡ Some (kind.Node, v)
        → IfOk result (λ refused. refused ≡ None → map rec.Node log.new
        ≡ map rec.Node log.old ++ records_for name.now lines.now) }
{
    for piece in lines.chunks(MOST_LINES) {
        match read_piece(alloc, keys, header, piece) {
            Ok(read) => push_named(log, read.as_slice(), name)?,
            Err(ReadFault::Input(number, code)) => return Ok(Some(RefusedLine { number, code })),
            Err(ReadFault::Memory) => return Err(RunFault::Memory),
        }
    }
    Ok(None)
}

/// What is read so far.
#[derive(Drop)]
struct Reading {
    alloc: Global,
    keys: RandomState,
    taps: Vec<Tap>,
    lines: Vec<LineRuns>,
    kinds: Vec<Option<TapKind>>,
    has_stream: bool,
}

impl Reading {
    /// Adds a tap of the stream or of a node, with the numbers of its lines.
    fn add(&mut self, tap: Tap, lines: LineRuns) -> Result<(), AllocError>
        ensures taps { OnOk result (self.new.taps.items ≡ self.old.taps.items ++ tap ∷ []) }
        ensures lines { OnOk result (self.new.lines.items ≡ self.old.lines.items ++ lines ∷ []) }
        ensures kinds { self.new.kinds.items ≡ self.old.kinds.items }
    {
        self.taps.push(tap)?;
        self.lines.push(lines)?;
        Ok(())
    }

    /// Reads the stream's tap, whose header this is; tells which line is refused.
    fn read_stream<S: RunSource>(
        &mut self,
        source: &mut S,
        buffer: &mut Vec<u8>,
        tap: &TapRuns,
        header: &Header,
    ) -> Result<Option<RefusedLine>, RunFault>
        ensures read { (files : List (List ℕ)) → S.files source.old ≡ Some files
            → MayBeRead files tap.now → IsHeaderOf files tap.now header.now
            → header.now.of ≡ kind.Stream → IfOk result (λ refused. refused ≡ None
            → AddsServer files tap.now self.old self.new) }
        ensures source { S.files source.new ≡ S.files source.old }
    {
        let TapRead { read, lines, .. } = read_tap(self.alloc, self.keys, tap, source, buffer)?;
        match read {
            Ok(read) => {
                let name = Text::new(self.alloc, tap.name())?;
                let entries = stream_named(self.alloc, read.as_slice(), tap.name())?;
                let version = header.version;
                let records = Records::Stream(entries);
                let tap = Tap {
                    name,
                    version,
                    records,
                };
                self.add(tap, lines)?;
                Ok(None)
            }
            Err(ReadFault::Input(number, code)) => Ok(Some(RefusedLine { number, code })),
            Err(ReadFault::Memory) => Err(RunFault::Memory),
        }
    }

    /// Reads a node's tap, whose header this is; tells which line is refused.
    fn read_node<S: RunSource>(
        &mut self,
        source: &mut S,
        buffer: &mut Vec<u8>,
        tap: &TapRuns,
        header: &Header,
    ) -> Result<Option<RefusedLine>, RunFault>
        ensures read { (files : List (List ℕ)) → S.files source.old ≡ Some files
            → MayBeRead files tap.now → IsHeaderOf files tap.now header.now
            → header.now.of ≡ kind.Node → IfOk result (λ refused. refused ≡ None
            → AddsServer files tap.now self.old self.new) }
        ensures source { S.files source.new ≡ S.files source.old }
    {
        let (alloc, keys) = (self.alloc, self.keys);
        let mut log = NodeRecs::new(alloc);
        let mut runs = LineRuns::new(Vec::new(alloc));
        // (the first line is the header)
        let mut skipped = 1usize;
        let mut left = RunLines::of(None, tap.runs());
        'pieces: while let Some(lines) = left.next_lines(alloc, source, buffer)? {
            push_numbers(&mut runs, &lines)?;
            let others = lines_past(&lines, skipped);
            let refused = read_lines(alloc, keys, tap.name(), &header.line, others, &mut log)?;
            if let Some(line) = refused {
                return Ok(Some(line));
            }
            skipped = skipped.saturating_sub(lines.len());
        }
        let name = Text::new(alloc, tap.name())?;
        let version = header.version;
        let records = Records::Node(log);
        let tap = Tap {
            name,
            version,
            records,
        };
        self.add(tap, runs)?;
        Ok(None)
    }

    /// Reads the first line of a tap, and the others unless it is a client's; tells which line is refused.
    fn read_tap<S: RunSource>(
        &mut self,
        source: &mut S,
        buffer: &mut Vec<u8>,
        tap: &TapRuns,
    ) -> Result<Option<RefusedLine>, RunFault>
        ensures read { (files : List (List ℕ)) (done : List TapRuns)
            → S.files source.old ≡ Some files → MayBeRead files tap.now
            → AreServers files done self.old.kinds.items self.old.taps.items self.old.lines.items
            → IfOk result (λ refused. refused ≡ None
            → AreServers files (done ++ tap.now ∷ []) self.new.kinds.items self.new.taps.items
            self.new.lines.items) }
        ensures source { S.files source.new ≡ S.files source.old }
    {
        let Some(header) = first_header(self.alloc, self.keys, tap, source, buffer)? else {
            return match self.kinds.push(None) {
                Ok(()) => Ok(None),
                Err(_) => Err(RunFault::Memory),
            };
        };
        let Ok(()) = self.kinds.push(Some(header.of)) else {
            return Err(RunFault::Memory);
        };
        match header.of {
            TapKind::Stream if self.has_stream => Ok(Some(RefusedLine {
                number: header.line.number,
                code: InputCode::SecondStream,
            })),
            TapKind::Stream => {
                self.has_stream = true;
                Ok(self.read_stream(source, buffer, tap, &header)?)
            }
            TapKind::Node => Ok(self.read_node(source, buffer, tap, &header)?),
            TapKind::Client => Ok(None),
        }
    }
}

/// Reads the first line of each tap, and all lines of those of the stream and of the nodes; tells which line is refused,
/// the first of them where several are. Each tap is read by itself, and that of a node in pieces, so the limits of a bundle
/// on how many taps and sessions it has aren't looked at.
pub fn read_servers<S: RunSource>(
    alloc: Global,
    keys: RandomState,
    source: &mut S,
    taps: &[TapRuns],
    refusal: &mut FirstRefusal,
) -> Result<Servers, RunFault>
    // Where no line is refused, the taps are those of their own lines.
    ensures read { (files : List (List ℕ)) → S.files source.old ≡ Some files
        → All (MayBeRead files) taps.now → IfOk result (λ servers. refusal.new ≡ None
        → AreServers files taps.now servers.kinds.items servers.taps servers.lines.items) }
    // A refusal that was told before is still told, or an earlier one.
    ensures kept { refusal.new ≡ None → refusal.old ≡ None }
    ensures source { S.files source.new ≡ S.files source.old }
{
    let mut reading = Reading {
        alloc,
        keys,
        taps: Vec::new(alloc),
        lines: Vec::new(alloc),
        kinds: Vec::with_capacity(alloc, taps.len())?,
        has_stream: false,
    };
    let mut buffer = Vec::new(alloc);
    for tap in taps {
        if let Some(line) = reading.read_tap(source, &mut buffer, tap)? {
            refusal.add(line.number, line.code);
        }
    }
    Ok(Servers {
        taps: Taps::new(reading.taps),
        lines: reading.lines,
        kinds: reading.kinds,
    })
}
