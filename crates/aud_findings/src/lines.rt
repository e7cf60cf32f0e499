//! Other entries with a fault in ranges, and the lines that show them.
ghost use Rattle.std.specs.Prelude.{◌≡◌, ◌++◌, IfOk, IfSome, OnOk, map, option_map};
ghost use Rattle.aud_rows.specs.ClientPlaces.{AreOf};
ghost use Rattle.aud_rows.specs.Seen.{row_seen};
ghost use Rattle.aud_rows.specs.TrueRow.{IsTrueRow};
ghost use Rattle.aud_findings.specs.Also.{also_seen, entry_lines, frame_row_at, is_shown, line_of, lines_of, others_seen, range_shown, told_of};

use crate::also::LinesOf;
use crate::outcome::{AlsoShown, OthersShown};
use crate::ranges::{Range, ranges_of};
use aud_client::{Frame, is_entry};
use aud_node::Stream;
use aud_rows::{ClientPlaces, Role, Row, Sheet};
use aud_session_facts::frame_at;
use std::alloc::{AllocError, Global};

/// The entries at these positions, which ascend and count from 1, each by these lines. The frames are those of the stays
/// with these numbers, from 0, of the client's tap, stay after stay.
pub(crate) fn told(
    alloc: Global,
    sheet: &Sheet<'_, '_>,
    tap: &ClientPlaces,
    numbers: &[usize],
    frames: &[&Frame<'_>],
    by: LinesOf,
    positions: &[u64],
) -> Result<OthersShown, AllocError>
    requires { AreOf sheet.now.recording.now tap.now }
    ensures { IfOk result (λ also. others_seen also
        ≡ told_of (lines_of by sheet.now.recording.now sheet.now.lines.now tap.now.place
        numbers.now (map (λ frame. frame.now) frames.now)) positions.now) }
{
    let entries = ranges_of(alloc, positions, 100)?;
    let mut ranges = Vec::new(alloc);
    for range in &entries.found {
        let first = lines_of(alloc, sheet, tap, numbers, frames, by, range.first)?;
        let last = lines_of(alloc, sheet, tap, numbers, frames, by, range.last)?;
        ranges.push(range_shown(*range, first, &last)?)?;
    }
    Ok(OthersShown {
        ranges,
        left: entries.left,
    })
}

/// The range, where these are the lines of its first entry and of its last one.
fn range_shown(range: Range, first: Vec<u64>, last: &[u64]) -> Result<AlsoShown, AllocError>
    ensures { IfOk result (λ also. also_seen also
        ≡ range_shown range first.items last.now) }
{
    let mut lines = first;
    if range.first != range.last {
        lines.truncate(1);
        if let Some(line) = last.last() {
            lines.push(*line)?;
        }
    }
    Ok(AlsoShown {
        position: range.first,
        to: range.last,
        lines,
    })
}

/// The lines by which the entry at the position is shown, those of frames in the order in which they came.
fn lines_of(
    alloc: Global,
    sheet: &Sheet<'_, '_>,
    tap: &ClientPlaces,
    numbers: &[usize],
    frames: &[&Frame<'_>],
    by: LinesOf,
    position: u64,
) -> Result<Vec<u64>, AllocError>
    requires { AreOf sheet.now.recording.now tap.now }
    ensures { IfOk result (λ lines. lines.items
        ≡ lines_of by sheet.now.recording.now sheet.now.lines.now tap.now.place numbers.now
        (map (λ frame. frame.now) frames.now) position) }
{
    let mut lines = entry_lines(alloc, sheet, by, position)?;
    if let LinesOf::Entry = by {
        return Ok(lines);
    }
    for (number, frame) in frames.iter().enumerate() {
        if is_shown(sheet.recording.logs().stream(), by, position, *frame) {
            push_line(
                &mut lines,
                frame_row(sheet, tap, numbers, number, Role::Later),
            )?;
        }
    }
    Ok(lines)
}

/// The line of the entry, but where its frames alone show it.
fn entry_lines(
    alloc: Global,
    sheet: &Sheet<'_, '_>,
    by: LinesOf,
    position: u64,
) -> Result<Vec<u64>, AllocError>
    ensures { IfOk result (λ lines. lines.items
        ≡ entry_lines by sheet.now.recording.now sheet.now.lines.now position) }
{
    let mut lines = Vec::new(alloc);
    if !matches!(by, LinesOf::Frames) {
        push_line(&mut lines, sheet.stream_row(position, Role::Entry))?;
    }
    Ok(lines)
}

/// Whether the frame is one of those that show the entry at the position.
fn is_shown(stream: &Stream<'_>, by: LinesOf, position: u64, frame: &Frame<'_>) -> bool
    ensures { result ≡ is_shown by stream.now position frame.now }
{
    match by {
        LinesOf::Entry => false,
        LinesOf::Frames => frame.position == position,
        LinesOf::Altered => frame.position == position && !is_entry(stream, frame),
    }
}

/// Adds the line of the row, if there is one.
fn push_line(lines: &mut Vec<u64>, row: Option<Row<'_>>) -> Result<(), AllocError>
    ensures { OnOk result (lines.new.items
        ≡ lines.old.items ++ line_of (option_map row_seen row.entry)) }
{
    if let Some(row) = row {
        lines.push(row.line)?;
    }
    Ok(())
}

/// The row of the frame with this number over these stays.
#[tactic(auto, using(crate::proofs::Told::told_some, aud_session_facts::proofs::NoClient::no_frame))]
pub(crate) fn frame_row<'r>(
    sheet: &Sheet<'r, '_>,
    tap: &ClientPlaces,
    numbers: &[usize],
    frame: usize,
    role: Role,
) -> Option<Row<'r>>
    requires { AreOf sheet.now.recording.now tap.now }
    ensures row { option_map row_seen result
        ≡ frame_row_at sheet.now.recording.now sheet.now.lines.now tap.now.place numbers.now frame
        role }
    ensures truth { IfSome result (IsTrueRow sheet.now.recording.now sheet.now.lines.now) }
{
    let client = sheet.recording.client(tap.place)?;
    let at = frame_at(&client.transcript().stays, numbers, frame)?;
    sheet.frame_row(tap, at.stay, at.frame, role)
}
