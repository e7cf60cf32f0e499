//! What shows a session's tail: what was due to it past all that its client received.
ghost use Rattle.std.specs.Prelude.{◌≡◌, IfOk, IfSome, map, option_map};
ghost use Rattle.aud_node.specs.Stream.{Text};
ghost use Rattle.aud_cert.specs.Certificate.{turn_at};
ghost use Rattle.aud_rows.specs.Seen.{row_seen};
ghost use Rattle.aud_rows.specs.ClientPlaces.{AreOf};
ghost use Rattle.aud_rows.specs.TrueRow.{IsTrueRow};
ghost use Rattle.aud_session_facts.specs.RowLists.{AreTrueRows};
ghost use Rattle.aud_findings.specs.Received.{tail_positions};
ghost use Rattle.aud_findings.specs.Tail.{ShowsTail, reached_row, tail_rows};
ghost use Rattle.aud_findings.specs.Private.Known.{IsShownBy};

use crate::account::greatest;
use crate::lines::frame_row;
use crate::rooms::reach_of;
use aud_cert::Turn;
use aud_rows::{Role, Row, Sheet};
use aud_session_facts::{Account, ShownSession, positions_received, push_row};
use std::alloc::{AllocError, Global};

/// The rows that show the session's tail, none where it has none.
pub(crate) fn tail_shown<'r>(
    alloc: Global,
    session: &ShownSession<'_, 'r, '_>,
    account: &Account<'_, '_>,
) -> Result<Vec<Row<'r>>, AllocError>
    requires { AreOf session.now.sheet.recording.now session.now.tap.now }
    ensures shown { (pid : Text)
        → IsShownBy session.now.sheet.recording.now pid account.now session.now
        → IfOk result (λ rows. ShowsTail session.now.sheet.recording.now
        session.now.sheet.lines.now pid (map row_seen rows.items)) }
    ensures truth { IfOk result (λ rows.
        AreTrueRows session.now.sheet.recording.now session.now.sheet.lines.now rows.items) }
{
    let got = positions_received(alloc, account.stays.as_slice())?;
    let received = got.as_slice();
    let tail = tail_in(alloc, received, account.due.as_slice())?;
    tail_rows(alloc, session, received.len(), tail.first().copied())
}

/// Of a session whose client received so many frames, and whose tail begins with the first position: the last of the
/// frames, the entry, and where the session first reached it; none without a tail.
fn tail_rows<'r>(
    alloc: Global,
    session: &ShownSession<'_, 'r, '_>,
    frames: usize,
    first: Option<u64>,
) -> Result<Vec<Row<'r>>, AllocError>
    requires { AreOf session.now.sheet.recording.now session.now.tap.now }
    ensures rows { IfOk result (λ rows. map row_seen rows.items
        ≡ tail_rows session.now.sheet.recording.now session.now.sheet.lines.now
        (map (turn_at session.now.sheet.recording.now) session.now.turns.now)
        session.now.tap.now.place session.now.numbers.now frames first) }
    ensures truth { IfOk result (λ rows.
        AreTrueRows session.now.sheet.recording.now session.now.sheet.lines.now rows.items) }
{
    let mut rows = Vec::new(alloc);
    let Some(first) = first else {
        return Ok(rows);
    };
    let sheet = &session.sheet;
    let last = frames.saturating_sub(1);
    push_row(
        &mut rows,
        frame_row(sheet, session.tap, session.numbers, last, Role::Fault),
    )?;
    push_row(&mut rows, sheet.stream_row(first, Role::Entry))?;
    push_row(&mut rows, reached_row(sheet, session.turns, first))?;
    Ok(rows)
}

/// The row of the record at which the session of these turns first reached the position.
fn reached_row<'r>(sheet: &Sheet<'r, '_>, turns: &[Turn<'_>], position: u64) -> Option<Row<'r>>
    ensures row { option_map row_seen result
        ≡ reached_row sheet.now.recording.now sheet.now.lines.now
        (map (turn_at sheet.now.recording.now) turns.now) position }
    ensures truth { IfSome result (IsTrueRow sheet.now.recording.now sheet.now.lines.now) }
{
    let reach = reach_of(sheet.recording.logs(), turns, position)?;
    sheet.node_row(reach.node, reach.number, Role::Reached)
}

/// The positions of the tail where these were received and these due.
pub(crate) fn tail_in(alloc: Global, received: &[u64], due: &[u64]) -> Result<Vec<u64>, AllocError>
    ensures { IfOk result (λ tail. tail.items ≡ tail_positions received.now due.now) }
{
    let last = greatest(received);
    due.iter()
        .copied()
        .filter(|position| last < *position)
        .collect(alloc)
}
