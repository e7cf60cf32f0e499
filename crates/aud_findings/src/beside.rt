//! What tells of a difference how it comes to be one.
ghost use Rattle.std.specs.Prelude.{◌≡◌, ◌≤◌, [], IfSome, map, option_map};
ghost use Rattle.aud_maker.specs.Made.{IsMade};
ghost use Rattle.aud_rows.specs.Seen.{row_seen};
ghost use Rattle.aud_rows.specs.TrueRow.{IsTrueRow};
ghost use Rattle.aud_session_facts.specs.RowLists.{row_and};
ghost use Rattle.aud_findings.specs.BesideRows.{behind_rows, beside_rows, change_row, first_behind, is_behind_at};

use crate::rooms::{left_change, not_due_change, room_change};
use aud_cert::{Certificate, Turn, turn_place};
use aud_check::Difference;
use aud_client::Stay;
use aud_rows::{Role, Row, Sheet};
use aud_session_facts::{RoomChange, ahead_of, stay_of_frame, stays_match};

/// The rows that tell how the difference comes to be one, two at most, where these are the session's stays.
pub(crate) fn beside<'r>(
    sheet: &Sheet<'r, '_>,
    cert: &Certificate<'_>,
    stays: &[&Stay<'_>],
    difference: Difference,
) -> (Option<Row<'r>>, Option<Row<'r>>)
    requires { IsMade sheet.now.recording.now cert.now.pid cert.now }
    ensures rows { (made : IsMade sheet.now.recording.now cert.now.pid cert.now)
        → row_and (option_map row_seen result.0) (row_and (option_map row_seen result.1) [])
        ≡ beside_rows sheet.now.recording.now sheet.now.lines.now cert.now made
        (map (λ stay. stay.now) stays.now) difference }
    ensures first { IfSome result.0 (IsTrueRow sheet.now.recording.now sheet.now.lines.now) }
    ensures second { IfSome result.1 (IsTrueRow sheet.now.recording.now sheet.now.lines.now) }
{
    let logs = sheet.recording.logs();
    match difference {
        Difference::Extra { position, .. } => {
            let change = not_due_change(logs, cert, position);
            (change_row(sheet, change, Role::Room), None)
        }
        Difference::Doubled {
            again,
            position,
            ..
        } => behind(sheet, cert.turns.as_slice(), stays, again, position),
        Difference::Swapped { due, .. } => {
            let change = room_change(logs, cert, true, due);
            (change_row(sheet, change, Role::Room), None)
        }
        Difference::Lost { due, .. } => {
            let change = room_change(logs, cert, true, due);
            let left = left_change(logs, cert, due);
            (
                change_row(sheet, change, Role::Room),
                change_row(sheet, left, Role::Left),
            )
        }
    }
}

/// The row of the change, if there is one.
fn change_row<'r>(sheet: &Sheet<'r, '_>, change: Option<RoomChange>, role: Role) -> Option<Row<'r>>
    ensures row { option_map row_seen result
        ≡ change_row sheet.now.recording.now sheet.now.lines.now role change }
    ensures truth { IfSome result (IsTrueRow sheet.now.recording.now sheet.now.lines.now) }
{
    let change = change?;
    sheet.node_row(change.node, change.number, role)
}

/// The rows of the `back` of the turn in which this frame came, and of the `break` of the last turn before it that had
/// reached the position, where that turn began before the position; none where it didn't. Where the stays don't match the
/// turns, that is the first turn that began behind the one before it, with the position between.
fn behind<'r>(
    sheet: &Sheet<'r, '_>,
    turns: &[Turn<'_>],
    stays: &[&Stay<'_>],
    frame: usize,
    position: u64,
) -> (Option<Row<'r>>, Option<Row<'r>>)
    ensures rows { row_and (option_map row_seen result.0)
        (row_and (option_map row_seen result.1) [])
        ≡ behind_rows sheet.now.recording.now sheet.now.lines.now turns.now
        (map (λ stay. stay.now) stays.now) frame position }
    ensures first { IfSome result.0 (IsTrueRow sheet.now.recording.now sheet.now.lines.now) }
    ensures second { IfSome result.1 (IsTrueRow sheet.now.recording.now sheet.now.lines.now) }
{
    let logs = sheet.recording.logs();
    let looked_at = if stays_match(logs.stream(), turns, stays) {
        Some(stay_of_frame(stays, frame))
    } else {
        first_behind(turns, position)
    };
    let Some(number) = looked_at else {
        return (None, None);
    };
    match (ahead_of(turns, position, number), turns.get(number)) {
        (Some(before), Some(turn)) => (
            sheet.break_row(turn_place(logs, before)),
            sheet.begin_row(turn_place(logs, turn)),
        ),
        _ => (None, None),
    }
}

/// The number of the first turn that began behind the one before it, with the position between.
fn first_behind(turns: &[Turn<'_>], position: u64) -> Option<usize>
    ensures { result ≡ first_behind position turns.now }
{
    for number in 1..turns.len() {
        if is_behind_at(turns, position, number) {
            return Some(number);
        }
    }
    None
}

/// Whether the turn with this number is such a one.
fn is_behind_at(turns: &[Turn<'_>], position: u64, number: usize) -> bool
    requires { 1 ≤ number }
    ensures { result ≡ is_behind_at position turns.now number }
{
    match (turns.get(number - 1), turns.get(number)) {
        (Some(before), Some(next)) => position <= before.high && next.low < position,
        _ => false,
    }
}
