//! From which lines of the recording the lines of a part's taps come.
ghost use Rattle.std.specs.Prelude.{◌≡◌, ◌+◌, ◌++◌, [], List, ℕ, suc, IfOk, OnOk, length, map, slice_index, get_or, option_map};
ghost use Rattle.aud_base.specs.Lists.{numbers_from};
ghost use Rattle.aud_base.specs.OneForEach.{OneForEach};
ghost use Rattle.aud_tap.specs.declared.records.StreamRec.{StreamRec};
ghost use Rattle.aud_input.specs.LineRuns.{capped, lines_of_runs};
ghost use Rattle.aud_reader.specs.OwnLines.{recs_in};
ghost use Rattle.aud_upgrade.specs.declared.joins.Joins.TheVariants.{TakeAndTakes};
ghost use Rattle.aud_upgrade.specs.Upgraded.{upgraded_log};
ghost use Rattle.aud_parts.specs.ServerLines.{AreLeft, HasLinesOf, NamesLines, own_records, place_named, places_left, record_places};
ghost use Rattle.aud_parts.specs.Private.FoundRecords.{comes_next, taken};

use aud_input::LineRuns;
use aud_tap::{NodeRec, NodeRecs, Records, Tap, Text};
use std::alloc::{AllocError, Global};

/// The offset of the entry up to which the record takes, if it does.
fn taken(rec: &NodeRec) -> Option<&Text>
    ensures { option_map (λ off. off.now) result ≡ taken rec.now }
{
    match rec {
        NodeRec::Take { off } | NodeRec::Takes { off } => Some(off),
        NodeRec::Start { .. }
        | NodeRec::Opened { .. }
        | NodeRec::Join { .. }
        | NodeRec::Leave { .. }
        | NodeRec::Broke { .. }
        | NodeRec::Back { .. }
        | NodeRec::Gone { .. } => None,
    }
}

/// Whether the part's record with this number can come from this one, if there is such a record: it takes up to the same
/// entry, or is of the same session, or both say how the log begins.
fn comes_next(part: &NodeRecs, number: usize, rec: &NodeRec) -> bool
    ensures { result ≡ comes_next part.now number rec.now }
{
    match part.get(number) {
        Some(own) => taken(own) == taken(rec) && own.pid() == rec.pid(),
        None => false,
    }
}

/// The line with this number, which counts from 0; 0 where there is none.
fn line_at(lines: &[u64], number: usize) -> u64
    ensures { result ≡ slice_index lines.now number }
{
    match lines.get(number) {
        Some(line) => *line,
        None => 0,
    }
}

/// How many records there are.
pub fn record_count(records: &Records) -> usize
    ensures { result ≡ length (recs_in records.now) }
{
    match records {
        Records::Stream(entries) => entries.len(),
        Records::Node(recs) => recs.len(),
        Records::Client(recs) => recs.as_slice().len(),
    }
}

/// Adds so many of these lines, from the second on; 0 for each that isn't there.
fn push_next(runs: &mut LineRuns, lines: &[u64], count: usize) -> Result<(), AllocError>
    ensures count { OnOk result (length (lines_of_runs runs.new)
        ≡ length (lines_of_runs runs.old) + count) }
    ensures lines { OnOk result (lines_of_runs runs.new ≡ lines_of_runs runs.old
        ++ map (slice_index lines.now) (map suc (numbers_from 0 count))) }
{
    for number in 0..count {
        runs.push(line_at(lines, number + 1))?;
    }
    Ok(())
}

/// Adds the lines that the records of the part's log come from, where these are the node's records and the lines of its
/// tap: that of the first record that the part's can come from, after those of the records before it. A take for which
/// one of the part's stands is the last of those that it stands for, since these are of entries one after the other.
fn push_log(
    runs: &mut LineRuns,
    lines: &[u64],
    recs: &NodeRecs,
    part: &NodeRecs,
) -> Result<(), AllocError>
    ensures count { OnOk result (length (lines_of_runs runs.new)
        ≡ length (lines_of_runs runs.old) + length part.now) }
    ensures lines { (pids : List (List ℕ)) (stream : List StreamRec)
        → part.now ≡ upgraded_log TakeAndTakes stream (own_records pids recs.now)
        → OnOk result (lines_of_runs runs.new ≡ lines_of_runs runs.old
        ++ map (slice_index lines.now) (map suc (places_left pids stream recs.now))) }
{
    let mut found = 0usize;
    for place in 0..recs.len() {
        if comes_next(part, found, &recs[place]) {
            runs.push(line_at(lines, place + 1))?;
            found += 1;
        }
    }
    push_next(runs, &[], part.len().saturating_sub(found))
}

/// Adds the lines that the part's records come from, where these are the whole's records and the lines of their tap.
fn push_records(
    runs: &mut LineRuns,
    lines: &[u64],
    records: &Records,
    part: &Records,
) -> Result<(), AllocError>
    ensures count { OnOk result (length (lines_of_runs runs.new)
        ≡ length (lines_of_runs runs.old) + length (recs_in part.now)) }
    ensures lines { (pids : List (List ℕ)) (stream : List StreamRec)
        → AreLeft pids stream records.now part.now
        → OnOk result (lines_of_runs runs.new ≡ lines_of_runs runs.old
        ++ map (slice_index lines.now) (map suc (record_places pids stream records.now))) }
{
    match (records, part) {
        (Records::Node(recs), Records::Node(part)) => push_log(runs, lines, recs, part),
        (_, part) => push_next(runs, lines, record_count(part)),
    }
}

/// The lines of the tap at this place, one after the other; none where there is no such tap.
fn lines_at(alloc: Global, lines: &[LineRuns], place: usize) -> Result<Vec<u64>, AllocError>
    ensures { IfOk result (λ own. own.items
        ≡ map capped (lines_of_runs (get_or lines.now place []))) }
{
    match lines.get(place) {
        Some(runs) => runs.lines(alloc),
        None => Ok(Vec::new(alloc)),
    }
}

/// The place of the first tap of this name.
fn place_named(taps: &[Tap], name: &Text) -> Option<usize>
    ensures { result ≡ place_named name.now taps.now }
{
    taps.iter().position(|tap| tap.name == *name)
}

/// The lines that those of the part's tap come from: those of the tap of its name.
fn tap_lines(
    alloc: Global,
    taps: &[Tap],
    lines: &[LineRuns],
    part: &Tap,
) -> Result<LineRuns, AllocError>
    ensures count { IfOk result (HasLinesOf part.now) }
    ensures named { IfOk result (NamesLines taps.now lines.now part.now) }
{
    let mut runs = LineRuns::new(Vec::new(alloc));
    let Some(place) = place_named(taps, &part.name) else {
        runs.push(0)?;
        push_next(&mut runs, &[], record_count(&part.records))?;
        return Ok(runs);
    };
    let own = lines_at(alloc, lines, place)?;
    runs.push(line_at(&own, 0))?;
    push_records(&mut runs, &own, &taps[place].records, &part.records)?;
    Ok(runs)
}

/// The lines that those of each of the part's taps come from, where these are the taps of the stream and of the nodes,
/// and the lines of each. Of a part's tap that is what is left of the tap of its name they are the lines that have its
/// header and its records, and of takes that were joined to one record that of the last. Lines that aren't known are 0:
/// those of a tap of which there is none of this name, or fewer lines.
pub fn server_lines(
    alloc: Global,
    taps: &[Tap],
    lines: &[LineRuns],
    part: &[Tap],
) -> Result<Vec<LineRuns>, AllocError>
    ensures count { IfOk result (λ all. OneForEach HasLinesOf part.now all.items) }
    ensures named { IfOk result (λ all. OneForEach (NamesLines taps.now lines.now) part.now
        all.items) }
{
    let mut all = Vec::new(alloc);
    for tap in part {
        all.push(tap_lines(alloc, taps, lines, tap)?)?;
    }
    Ok(all)
}
