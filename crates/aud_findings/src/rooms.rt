//! The changes of rooms that decide whether an entry was due to a session.
ghost use Rattle.std.specs.Prelude.{◌≡◌, map, option_map};
ghost use Rattle.std.specs.List.{find};
ghost use Rattle.aud_node.specs.Stream.{entry};
ghost use Rattle.aud_cert.specs.Certificate.{turn_at};
ghost use Rattle.aud_maker.specs.Made.{IsMade};
ghost use Rattle.aud_findings.specs.RoomChanges.{change_in, is_changed, left_change, not_due_change, reach_of, room_change, rooms_in};

use aud_cert::{Certificate, Turn, turn_place};
use aud_node::Logs;
use aud_session_facts::{NotDue, Reach, RoomChange, first_reach, last_change_of, why_not_due};
use aud_tap::StreamRec;

/// The last change, a join or a leave as asked for, of the first of the rooms of the entry at the position that has one
/// before the session first reached the entry.
pub(crate) fn room_change(
    logs: &Logs<'_>,
    cert: &Certificate<'_>,
    joined: bool,
    position: u64,
) -> Option<RoomChange>
    ensures { result ≡ room_change logs.now cert.now joined position }
{
    let reach = reach_of(logs, cert.turns.as_slice(), position)?;
    let room = first_room(logs, cert, reach, joined, position)?;
    change_in(logs, cert, reach, joined, room)
}

/// How the session came to hold the first of those rooms that it had joined no more: its last leave before the end of
/// the turn in which the session first reached the entry; none where it held the room to that end.
pub(crate) fn left_change(
    logs: &Logs<'_>,
    cert: &Certificate<'_>,
    position: u64,
) -> Option<RoomChange>
    ensures { result ≡ left_change logs.now cert.now position }
{
    let turns = cert.turns.as_slice();
    let reach = reach_of(logs, turns, position)?;
    let room = first_room(logs, cert, reach, true, position)?;
    let turn = turns.get(reach.turn)?;
    let end = Reach {
        number: turn_place(logs, turn).to,
        ..reach
    };
    change_in(logs, cert, end, false, room)
}

/// Why the entry at the position was not due to the session: the last leave of the first of its rooms that the session
/// had left, where it held none of them, or the join of the room that it excepts; none for another reason.
pub(crate) fn not_due_change(
    logs: &Logs<'_>,
    cert: &Certificate<'_>,
    position: u64,
) -> Option<RoomChange>
    requires { IsMade logs.now cert.now.pid cert.now }
    ensures { (made : IsMade logs.now cert.now.pid cert.now)
        → result ≡ not_due_change logs.now cert.now made position }
{
    match why_not_due(logs, cert, position)? {
        NotDue::NoCommonRoom => room_change(logs, cert, false, position),
        NotDue::Excepted { room } => {
            let reach = reach_of(logs, cert.turns.as_slice(), position)?;
            change_in(logs, cert, reach, true, room)
        }
        _ => None,
    }
}

/// Where the session of these turns first reached the position.
pub(crate) fn reach_of(logs: &Logs<'_>, turns: &[Turn<'_>], position: u64) -> Option<Reach>
    ensures { result ≡ reach_of logs.now (map (turn_at logs.now) turns.now) position }
{
    first_reach(logs, turns, position)
}

/// The first of the rooms that the event at the position is for whose last change before the reach is a join or a leave
/// as asked for; none of another entry.
fn first_room<'a>(
    logs: &Logs<'a>,
    cert: &Certificate<'_>,
    reach: Reach,
    joined: bool,
    position: u64,
) -> Option<&'a str>
    ensures { option_map (λ room. room.now) result
        ≡ find (is_changed logs.now cert.now reach joined)
        (rooms_in (entry logs.now.stream position)) }
{
    let Some(StreamRec::Ev(event)) = logs.stream().entry(position) else {
        return None;
    };
    for room in event.rooms.as_slice() {
        if change_in(logs, cert, reach, joined, room.as_str()).is_some() {
            return Some(room.as_str());
        }
    }
    None
}

/// The last change of the room before the reach, where it is a join or a leave as asked for.
fn change_in(
    logs: &Logs<'_>,
    cert: &Certificate<'_>,
    reach: Reach,
    joined: bool,
    room: &str,
) -> Option<RoomChange>
    ensures { result ≡ change_in logs.now cert.now reach joined room.now }
{
    let change = last_change_of(logs, cert.pid.as_str(), cert.turns.as_slice(), reach, room)?;
    if change.joined == joined {
        Some(change)
    } else {
        None
    }
}
