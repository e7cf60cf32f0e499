//! What happened to the client of a session.
ghost use Rattle.std.specs.Prelude.{◌≡◌, ◌++◌, IfOk, OnOk, slice_get};
ghost use Rattle.std.specs.Option.{option_map};
ghost use Rattle.aud_node.specs.Stream.{position};
ghost use Rattle.aud_rows.specs.ClientPlaces.{AreOf};
ghost use Rattle.aud_rows.specs.Seen.{row_seen, says_seen};
ghost use Rattle.aud_rows.specs.StayRows.{stays_at};
ghost use Rattle.aud_findings.specs.ClientEvents.{client_events, events_in, frame_events, happens_of, is_asked, may_be_of, row_events};

use crate::record_at::stay_at;
use crate::timeline::runs::joined_events;
use aud_client::Stay;
use aud_explanation::{ClientEvent, Happens};
use aud_node::Stream;
use aud_rows::{ClientPlaces, Role, Row, Says, Sheet};
use std::alloc::{AllocError, Global};

/// What happened to the client of a session in the stays of its tap with these numbers, in the order of the lines: that
/// it asked for the session, the answer, which is a refusal where it asked for the session and the reply names another
/// one or nobody, the entries that it received, those of consecutive positions as one, and the loss of the connection.
/// What came after a refusal is of another session or of none, and left out, as is what has no known line.
///
/// The stays are those whose reply names the session, and those that asked for it in vain. It costs these stays.
pub fn client_events(
    alloc: Global,
    sheet: &Sheet<'_, '_>,
    tap: &ClientPlaces,
    pid: &str,
    numbers: &[usize],
) -> Result<Vec<ClientEvent>, AllocError>
    requires { AreOf sheet.now.recording.now tap.now }
    ensures { IfOk result (λ events. events.items
        ≡ client_events sheet.now.recording.now sheet.now.lines.now tap.now.place pid.now
        numbers.now) }
{
    let mut events = Vec::new(alloc);
    for number in numbers {
        push_stay(sheet, tap, &mut events, pid, *number)?;
    }
    events.sort_by_key(|event| event.first)?;
    joined_events(alloc, events.as_slice())
}

/// Adds what happened in the stay with this number.
fn push_stay(
    sheet: &Sheet<'_, '_>,
    tap: &ClientPlaces,
    events: &mut Vec<ClientEvent>,
    pid: &str,
    number: usize,
) -> Result<(), AllocError>
    requires { AreOf sheet.now.recording.now tap.now }
    ensures { OnOk result (events.new.items
        ≡ events.old.items
        ++ events_in sheet.now.recording.now sheet.now.lines.now tap.now.place pid.now number
        (slice_get (stays_at sheet.now.recording.now tap.now.place) number)) }
{
    let Some(stay) = stay_at(sheet.recording, tap.place, number) else {
        return Ok(());
    };
    let asked = is_asked(pid, stay);
    let ask = sheet.ask_row(tap, number, Role::Ask);
    push_row(sheet, events, pid, asked, ask)?;
    let reply = sheet.reply_row(tap, number, Role::Reply);
    push_row(sheet, events, pid, asked, reply)?;
    if !may_be_of(pid, stay) {
        return Ok(());
    }
    push_frames(sheet, tap, events, pid, number, stay)?;
    let lost = sheet.lost_row(tap, number, Role::Later);
    push_row(sheet, events, pid, asked, lost)
}

/// Adds the frames of this stay, which has this number.
fn push_frames(
    sheet: &Sheet<'_, '_>,
    tap: &ClientPlaces,
    events: &mut Vec<ClientEvent>,
    pid: &str,
    number: usize,
    stay: &Stay<'_>,
) -> Result<(), AllocError>
    requires { AreOf sheet.now.recording.now tap.now }
    ensures { OnOk result (events.new.items
        ≡ events.old.items
        ++ frame_events sheet.now.recording.now sheet.now.lines.now tap.now.place pid.now number
        stay.now) }
{
    let asked = is_asked(pid, stay);
    for frame in 0..stay.frames.len() {
        let row = sheet.frame_row(tap, number, frame, Role::Later);
        push_row(sheet, events, pid, asked, row)?;
    }
    Ok(())
}

/// Adds what happened in the row's record, if there is a row.
fn push_row(
    sheet: &Sheet<'_, '_>,
    events: &mut Vec<ClientEvent>,
    pid: &str,
    asked: bool,
    row: Option<Row<'_>>,
) -> Result<(), AllocError>
    ensures { OnOk result (events.new.items
        ≡ events.old.items
        ++ row_events sheet.now.recording.now.stream pid.now asked
        (option_map row_seen row.entry)) }
{
    let Some(row) = row else {
        return Ok(());
    };
    let stream = sheet.recording.logs().stream();
    if let Some(happens) = happens_of(stream, pid, asked, row.says) {
        events.push(ClientEvent {
            first: row.line,
            last: row.line,
            happens,
        })?;
    }
    Ok(())
}

/// What happened to the client of the session where a record of a stay says this, which asked for the session or
/// didn't.
fn happens_of(stream: &Stream<'_>, pid: &str, asked: bool, says: Says<'_>) -> Option<Happens>
    ensures { result ≡ happens_of stream.now pid.now asked (says_seen says.entry) }
{
    match says {
        Says::Asks { off, .. } if asked => Some(Happens::Asks {
            after: match off {
                Some(off) => stream.position(off),
                None => None,
            },
        }),
        Says::Reply {
            pid: Some(named),
            ..
        } if named == pid => Some(Happens::Reply),
        Says::Reply { .. } if asked => Some(Happens::Refused),
        Says::Got { position, .. } => Some(Happens::Got {
            from: position,
            to: position,
        }),
        Says::Lost { .. } => Some(Happens::Lost),
        _ => None,
    }
}

/// Whether the stay asked for the session.
fn is_asked(pid: &str, stay: &Stay<'_>) -> bool
    ensures { result ≡ is_asked pid.now stay.now.asked }
{
    match stay.asked.as_ref() {
        Some(asked) => asked.pid.as_str() == pid,
        None => false,
    }
}

/// Whether what came in the stay may be of the session.
fn may_be_of(pid: &str, stay: &Stay<'_>) -> bool
    ensures { result ≡ may_be_of pid.now stay.now }
{
    stay.reply.is_none() || stay.names(pid)
}
