//! The records that show a cause, and their lines.
ghost use Rattle.std.specs.Prelude.{◌≡◌, IfOk, IfSome, flat_map, option_map, option_to_list};
ghost use Rattle.std.specs.Option.{option_and_then, option_copied};
ghost use Rattle.aud_rows.specs.ClientPlaces.{AreOf};
ghost use Rattle.aud_rows.specs.Seen.{row_seen};
ghost use Rattle.aud_rows.specs.StayRows.{stays_at};
ghost use Rattle.aud_session_facts.specs.FramePlaces.{frame_at};
ghost use Rattle.aud_causes.specs.Records.{client_row, line_at, lines_at, place_of};

use crate::list::push_some;
use aud_client::Recording;
use aud_rows::{ClientPlaces, Role, Row, Sheet};
use aud_session_facts::{FramePlace, RecordPlace, frame_at};
use std::alloc::{AllocError, Global};

/// A record of the bundle: of a node, or of the session's client. Stays and frames are those of the session, but for
/// `First`.
#[derive(Clone, Copy, Drop)]
pub enum RecordAt {
    Node(RecordPlace),
    /// A frame.
    Got(usize),
    /// What was asked in a stay.
    Ask(usize),
    /// The reply in a stay.
    Reply(usize),
    /// The first record of the stay with this number in the tap.
    First(usize),
    /// The tap's first record that is no packet.
    Bad,
}

/// The lines of these records, of those that are known.
pub(crate) fn lines_at(
    alloc: Global,
    sheet: &Sheet<'_, '_>,
    tap: Option<&ClientPlaces>,
    numbers: &[usize],
    records: &[Option<RecordAt>],
) -> Result<Vec<u64>, AllocError>
    requires { IfSome (option_copied tap) (AreOf sheet.now.recording.now) }
    ensures { IfOk result (λ found. found.items
        ≡ lines_at sheet.now.recording.now sheet.now.lines.now
        (place_of (option_copied tap.entry)) numbers.now
        (flat_map option_to_list records.now)) }
{
    let mut found = Vec::new(alloc);
    for record in records {
        push_some(&mut found, line_at(sheet, tap, numbers, *record))?;
    }
    Ok(found)
}

/// The line of this record, if there is one and its line is known. Those of clients are looked for in this tap, where
/// these are the numbers of the session's stays.
fn line_at(
    sheet: &Sheet<'_, '_>,
    tap: Option<&ClientPlaces>,
    numbers: &[usize],
    at: Option<RecordAt>,
) -> Option<u64>
    requires { IfSome (option_copied tap) (AreOf sheet.now.recording.now) }
    ensures { result ≡ option_and_then (line_at sheet.now.recording.now sheet.now.lines.now
        (place_of (option_copied tap.entry)) numbers.now) at }
{
    let at = at?;
    match (tap, at) {
        (Some(tap), _) => Some(client_row(sheet, tap, numbers, at)?.line),
        (None, RecordAt::Node(place)) => {
            Some(sheet.node_row(place.node, place.number, Role::Fault)?.line)
        }
        (None, _) => None,
    }
}

/// The row of a node's record, or of one of the client's tap.
fn client_row<'r>(
    sheet: &Sheet<'r, '_>,
    tap: &ClientPlaces,
    numbers: &[usize],
    at: RecordAt,
) -> Option<Row<'r>>
    requires { AreOf sheet.now.recording.now tap.now }
    ensures { option_map row_seen result
        ≡ client_row sheet.now.recording.now sheet.now.lines.now tap.now.place numbers.now at }
{
    match at {
        RecordAt::Node(place) => sheet.node_row(place.node, place.number, Role::Fault),
        RecordAt::Got(frame) => {
            let at = frame_in(sheet.recording, tap.place, numbers, frame)?;
            sheet.frame_row(tap, at.stay, at.frame, Role::Fault)
        }
        RecordAt::Ask(stay) => sheet.ask_row(tap, *numbers.get(stay)?, Role::Fault),
        RecordAt::Reply(stay) => sheet.reply_row(tap, *numbers.get(stay)?, Role::Fault),
        RecordAt::First(number) => sheet.first_row(tap, number, Role::Fault),
        RecordAt::Bad => sheet.bad_row(tap, Role::Fault),
    }
}

/// Where the frame stands in the stays with these numbers.
pub(crate) fn frame_in(
    recording: &Recording<'_>,
    client: usize,
    numbers: &[usize],
    frame: usize,
) -> Option<FramePlace>
    ensures { result ≡ frame_at (stays_at recording.now client) numbers.now frame }
{
    let client = recording.client(client)?;
    frame_at(&client.transcript().stays, numbers, frame)
}
