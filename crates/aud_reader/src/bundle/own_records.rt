//! What lines say by themselves, read in many threads.
ghost use Rattle.std.specs.Prelude.{◌≡◌, ℕ, List, IfOk, MatchResult, Some, Result, Ok};
ghost use Rattle.std.specs.List.{AllZip, flat_map};
ghost use Rattle.aud_json.specs.View.{view};
ghost use Rattle.aud_reader.specs.Record.{line_record, value_record};
ghost use Rattle.aud_reader.specs.Steps.{Fails};
ghost use Rattle.aud_reader.specs.declared.fault.InputCode.{InputCode};
ghost use Rattle.aud_tap.specs.declared.records.Rec.{Rec};
ghost use Rattle.aud_tap.specs.declared.taps.Tap.{Tap};
ghost use Rattle.aud_tap.specs.Names.{place_of};
ghost use Rattle.aud_reader.specs.Private.Kept.{KeepsTaps};
ghost use Rattle.aud_reader.specs.Private.KnownLine.{IsOfTapAt};
ghost use Rattle.aud_reader.specs.Private.OwnRecords.{AreOfLines, IsOfLine, IsOwnOf, with_name};
ghost use Rattle.aud_reader.specs.Private.Packed.{rec_of};
ghost use Rattle.aud_reader.specs.SoFar.{taps_so_far};

use super::open_taps::OpenTaps;
use super::packed::PackedRec;
use crate::fault::LineFault;
use crate::line::LentLine;
use crate::read::line::{json, opened_line};
use crate::read::record::value_record;
use aud_base::{TextPool, make_room, try_map};
use aud_json::{Fields, Scratch};
use std::alloc::{AllocError, Global};
use std::hash::RandomState;
use std::mem::size_of;
use std::thread::Threads;

/// How many lines are read in one piece of work.
const PART: usize = 1_024;

/// The bytes by which a thread's heap is to grow before a part: those of the records of several.
const ROOM: usize = 8_388_608;

/// What a line says by itself, in 48 bytes: one thread takes them all, and waits for each that others have written.
#[derive(Drop)]
pub enum OwnRecord {
    /// The record of a line whose tap stands at this place.
    Placed { place: u32, rec: PackedRec },
    /// The record of a line whose tap was not there when the lines were parsed, or stands at a place of more than 32
    /// bits: the line names it.
    Unplaced { rec: PackedRec },
    /// The line has no bytes, or is refused for what it says by itself.
    NoRecord,
}

const _: () = prove!(size_of::<OwnRecord>() == 48);

impl OwnRecord {
    /// The record of a line whose tap stands at a place.
    fn at_place(place: usize, rec: PackedRec) -> OwnRecord
        ensures { (taps : List Tap) (reading : Result (List ℕ × Rec) InputCode) (name : List ℕ)
            → reading ≡ Ok (name, rec_of rec) → place_of taps name ≡ Some place
            → IsOwnOf taps reading result }
    {
        match u32::try_from(place) {
            Ok(place) => OwnRecord::Placed { place, rec },
            Err(_) => OwnRecord::Unplaced { rec },
        }
    }
}

/// The record of the fields after a tap's name, of which the texts are shared with the pool.
fn placed_record(
    alloc: Global,
    taps: &OpenTaps,
    pool: &mut TextPool,
    name: &str,
    d: &Fields<'_>,
) -> Result<OwnRecord, LineFault>
    requires { KeepsTaps taps.now }
    ensures { MatchResult result
        (IsOwnOf (taps_so_far taps.now) (with_name name.now (value_record (view d.now))))
        (λ e. Fails e (value_record (view d.now))) }
{
    let rec = PackedRec::new(alloc, value_record(alloc, pool, d)?)?;
    match taps.place(name) {
        Some(place) => Ok(OwnRecord::at_place(place, rec)),
        None => Ok(OwnRecord::Unplaced { rec }),
    }
}

/// The record of a line of the tap at a place, from what stands after the name. Its texts are shared with the pool.
fn known_record(
    alloc: Global,
    pool: &mut TextPool,
    scratch: &mut Scratch,
    place: usize,
    text: &[u8],
) -> Result<OwnRecord, LineFault>
    ensures { (taps : List Tap) (line : List ℕ) → IsOfTapAt taps line place text.now
        → MatchResult result (IsOwnOf taps (line_record line)) (λ e. Fails e (line_record line)) }
{
    let d = json(alloc, scratch, text)?;
    let rec = PackedRec::new(alloc, value_record(alloc, pool, &d)?)?;
    Ok(OwnRecord::at_place(place, rec))
}

/// The record of a line that is not refused for what it says by itself. Its texts are shared with the pool.
#[tactic(auto, unfolding(crate::specs::Record::line_record))]
fn opened_record(
    alloc: Global,
    taps: &OpenTaps,
    pool: &mut TextPool,
    scratch: &mut Scratch,
    line: &[u8],
) -> Result<OwnRecord, LineFault>
    requires { KeepsTaps taps.now }
    ensures { MatchResult result
        (IsOwnOf (taps_so_far taps.now) (line_record line.now))
        (λ e. Fails e (line_record line.now)) }
{
    if let Some((place, text)) = taps.known_line(line) {
        return known_record(alloc, pool, scratch, place, text);
    }
    let (name, d) = opened_line(alloc, scratch, line)?;
    placed_record(alloc, taps, pool, name, &d)
}

/// What a line says by itself. Its texts are shared with the pool.
fn own_record(
    alloc: Global,
    taps: &OpenTaps,
    pool: &mut TextPool,
    scratch: &mut Scratch,
    line: &LentLine<'_>,
) -> Result<OwnRecord, AllocError>
    requires { KeepsTaps taps.now }
    ensures { IfOk result (IsOfLine (taps_so_far taps.now) line.now) }
{
    match opened_record(alloc, taps, pool, scratch, line.bytes) {
        Ok(own) => Ok(own),
        Err(LineFault::Code(_)) => Ok(OwnRecord::NoRecord),
        Err(LineFault::Memory) => Err(AllocError),
    }
}

/// What each line says by itself. They share their texts.
fn own_records(
    alloc: Global,
    keys: RandomState,
    taps: &OpenTaps,
    lines: &[LentLine<'_>],
) -> Result<Vec<OwnRecord>, AllocError>
    requires { KeepsTaps taps.now }
    ensures { IfOk result (λ own. AreOfLines (taps_so_far taps.now) lines.now own.items) }
{
    make_room(alloc, ROOM);
    let mut pool = TextPool::new(alloc, keys);
    let mut scratch = Scratch::new(alloc);
    let mut own = Vec::with_capacity(alloc, lines.len())?;
    for line in lines {
        let record = own_record(alloc, taps, &mut pool, &mut scratch, line)?;
        own.push(record)?;
    }
    Ok(own)
}

/// The lines in parts, in their order.
pub fn parts_of<'p, 'a>(
    alloc: Global,
    lines: &'p [LentLine<'a>],
) -> Result<Vec<&'p [LentLine<'a>]>, AllocError>
    ensures { IfOk result (λ parts. flat_map (λ part. part.now) parts.items ≡ lines.now) }
{
    let mut parts = Vec::new(alloc);
    for part in lines.chunks(PART) {
        parts.push(part)?;
    }
    Ok(parts)
}

/// What the lines of each part say by themselves, in at most so many threads, which look these taps up by their names.
pub fn own_records_of<H: Threads + Sync>(
    rt: &H,
    alloc: Global,
    keys: RandomState,
    threads: usize,
    taps: &OpenTaps,
    parts: &[&[LentLine<'_>]],
) -> Result<Vec<Vec<OwnRecord>>, AllocError>
    requires { KeepsTaps taps.now }
    ensures { IfOk result (λ own. AllZip
        (λ part records. AreOfLines
        (taps_so_far taps.now) part.now records.items) parts.now own.items) }
{
    try_map(
        rt,
        alloc,
        threads,
        parts,
        |part: &&[LentLine<'_>]| -> Result<Vec<OwnRecord>, AllocError>
            requires { KeepsTaps taps.now }
            ensures { IfOk result (λ own. AreOfLines
                (taps_so_far taps.entry.now) part.now.now own.items) }
        { own_records(alloc, keys, taps, *part) },
    )
}
