//! Why an entry was not due to a session.
ghost use Rattle.std.specs.Prelude.{◌≡◌, ◌||◌, map, option_map};
ghost use Rattle.std.specs.List.{find, list_any};
ghost use Rattle.std.specs.Option.{is_none, option_copied};
ghost use Rattle.std.specs.FinSet as set;
ghost use Rattle.aud_tap.specs.declared.records.StreamRec.TheVariants.{Ev};
ghost use Rattle.aud_node.specs.Lists.{is_empty};
ghost use Rattle.aud_node.specs.AtPosition.{is_some_recoverable};
ghost use Rattle.aud_node.specs.Recoverable.{is_recoverable};
ghost use Rattle.aud_rooms.specs.Spans.{rooms_by_spans};
ghost use Rattle.aud_rooms.specs.Turns.{slice_of};
ghost use Rattle.aud_rooms.specs.TurnsDue.{is_turn_due};
ghost use Rattle.aud_maker.specs.Made.{IsMade};
ghost use Rattle.aud_session_facts.specs.NotDue.{reason_of, why_no_event_for, why_not_due, why_not_for};
ghost use Rattle.aud_session_facts.specs.Private.BySpans.{why_by_spans};

use crate::opened::{Opened, greatest_high, opened_in};
use crate::rooms::is_held;
use aud_cert::Certificate;
use aud_node::Logs;
use aud_rooms::Span;
use aud_tap::{Event, StreamRec, Text};

/// Why an entry was not due to a session: the first of these that holds.
#[derive(Clone, Copy, Debug, PartialEq, Eq, Drop)]
pub enum NotDue<'a> {
    /// The node on which the session was opened had taken the entry before.
    BeforeBirth,
    /// The session reached it in no turn.
    InNoTurn,
    /// It is an event of another namespace.
    OtherNamespace,
    /// It is none that is sent again after a recovery.
    NotRecoverable,
    /// It is for rooms of which the session held none.
    NoCommonRoom,
    /// It excepts this room, the first of those that it excepts that the session held.
    Excepted { room: &'a str },
}

/// Why the entry at the position, which counts from 1, was not due to the session for which the certificate was made;
/// none where it was due. It costs the session's turns, and the rooms of the entry times the session's spans.
pub fn why_not_due<'a>(logs: &Logs<'a>, cert: &Certificate<'_>, position: u64) -> Option<NotDue<'a>>
    requires { IsMade logs.now cert.now.pid cert.now }
    ensures why { (made : IsMade logs.now cert.now.pid cert.now)
        → option_map reason_of result ≡ why_not_due logs.now made.who made.turns position }
    ensures due { (made : IsMade logs.now cert.now.pid cert.now)
        → is_none result
        ≡ is_turn_due logs.now.stream made.who (map (slice_of logs.now) made.turns) position }
{
    let turns = cert.turns.as_slice();
    let Some(opened) = opened_in(turns) else {
        unreachable!()
    };
    why_by_spans(
        logs,
        cert.spans.as_slice(),
        &opened,
        greatest_high(turns),
        position,
    )
}

/// The same by the session's spans, what its first record opened, and the greatest position that it reached.
fn why_by_spans<'a>(
    logs: &Logs<'a>,
    spans: &[Span<'_>],
    opened: &Opened<'_>,
    high: u64,
    position: u64,
) -> Option<NotDue<'a>>
    ensures { option_map reason_of result
        ≡ why_by_spans logs.now.stream spans.now opened.now.nsp.now opened.now.low high position }
{
    if position <= opened.low {
        return Some(NotDue::BeforeBirth);
    }
    if high < position {
        return Some(NotDue::InNoTurn);
    }
    let stream = logs.stream();
    let recoverable = stream.recoverable(position);
    why_not_for(
        stream.entry(position),
        recoverable,
        opened.nsp,
        spans,
        position,
    )
}

/// Why the entry, if there is one, is not for a session of this namespace with these spans, at this position.
fn why_not_for<'a>(
    entry: Option<&'a StreamRec>,
    recoverable: bool,
    nsp: &str,
    spans: &[Span<'_>],
    position: u64,
) -> Option<NotDue<'a>>
    requires { recoverable ≡ is_some_recoverable (option_copied entry) }
    ensures { option_map reason_of result
        ≡ why_not_for (option_copied entry.entry) nsp.now (rooms_by_spans spans.now position) }
{
    match entry {
        Some(StreamRec::Ev(event)) => why_no_event_for(event, recoverable, nsp, spans, position),
        _ => Some(NotDue::NotRecoverable),
    }
}

/// The same of an event.
fn why_no_event_for<'a>(
    event: &'a Event,
    recoverable: bool,
    nsp: &str,
    spans: &[Span<'_>],
    position: u64,
) -> Option<NotDue<'a>>
    requires { recoverable ≡ is_recoverable (Ev event.now) }
    ensures { option_map reason_of result
        ≡ why_no_event_for event.now nsp.now (rooms_by_spans spans.now position) }
{
    if event.nsp.as_str() != nsp {
        return Some(NotDue::OtherNamespace);
    }
    if !recoverable {
        return Some(NotDue::NotRecoverable);
    }
    if !names_held(event, spans, position) {
        return Some(NotDue::NoCommonRoom);
    }
    match first_held(event.except.as_slice(), spans, position) {
        Some(room) => Some(NotDue::Excepted { room }),
        None => None,
    }
}

/// Whether the event is for the whole namespace, or for a room that is held at the position.
fn names_held(event: &Event, spans: &[Span<'_>], position: u64) -> bool
    ensures { result ≡ (is_empty event.now.rooms
        || list_any (set.contains (rooms_by_spans spans.now position)) event.now.rooms) }
{
    let rooms = event.rooms.as_slice();
    rooms.is_empty() || first_held(rooms, spans, position).is_some()
}

/// The first of the rooms that is held at the position.
fn first_held<'a>(rooms: &'a [Text], spans: &[Span<'_>], position: u64) -> Option<&'a str>
    ensures { option_map (λ room. room.now) result
        ≡ find (set.contains (rooms_by_spans spans.now position)) rooms.now }
{
    for room in rooms {
        if is_held(spans, position, room.as_str()) {
            return Some(room.as_str());
        }
    }
    None
}
