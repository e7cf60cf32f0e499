//! Where a session last joined or left a room.
ghost use Rattle.std.specs.Prelude.{◌≡◌, map};
ghost use Rattle.aud_cert.specs.Certificate.{turn_at};
ghost use Rattle.aud_session_facts.specs.Changes.{change_at, change_by, last_change_at, last_change_before, last_change_in, last_change_over};

use crate::reach::Reach;
use aud_cert::{Turn, turn_place};
use aud_node::Logs;
use aud_rooms::TurnPlace;
use aud_tap::NodeRec;

/// A record of a node by which a session joined or left a room.
#[derive(Clone, Copy, Debug, PartialEq, Eq, Drop)]
pub struct RoomChange {
    /// The place of the node's tap.
    pub node: usize,
    /// The number of the record in the tap. Numbers count from 0.
    pub number: usize,
    /// Whether the room was joined; else it was left.
    pub joined: bool,
}

/// The last record of these turns, before the reach, by which the session with this pid joined or left the room. None
/// where there is none: the session's own room, its sid, is held from the `open` on without a `join`. Only the
/// session's own records are looked at.
pub fn last_change_of(
    logs: &Logs<'_>,
    pid: &str,
    turns: &[Turn<'_>],
    reach: Reach,
    room: &str,
) -> Option<RoomChange>
    ensures { result ≡ last_change_before logs.now pid.now room.now
        (map (turn_at logs.now) turns.now) reach }
{
    let Some(turn) = turns.get(reach.turn) else {
        return None;
    };
    let mut place = turn_place(logs, turn);
    place.to = place.to.min(reach.number);
    let (before, _) = turns.split_at(reach.turn);
    last_change_in(logs, pid, room, &place).or(last_change_over(logs, pid, room, before))
}

/// The last in these turns.
fn last_change_over(
    logs: &Logs<'_>,
    pid: &str,
    room: &str,
    turns: &[Turn<'_>],
) -> Option<RoomChange>
    ensures { result ≡ last_change_over logs.now pid.now room.now
        (map (turn_at logs.now) turns.now) }
{
    let mut last = None;
    for turn in turns {
        let place = turn_place(logs, turn);
        last = last_change_in(logs, pid, room, &place).or(last);
    }
    last
}

/// The last in this turn.
fn last_change_in(logs: &Logs<'_>, pid: &str, room: &str, turn: &TurnPlace) -> Option<RoomChange>
    ensures { result ≡ last_change_in logs.now pid.now room.now turn.now }
{
    last_change_at(logs, pid, room, turn.node, turn.own(logs, pid))
}

/// The last at these records of the node, by their numbers.
fn last_change_at(
    logs: &Logs<'_>,
    pid: &str,
    room: &str,
    node: usize,
    numbers: &[usize],
) -> Option<RoomChange>
    ensures { result ≡ last_change_at logs.now pid.now room.now node numbers.now }
{
    let mut last = None;
    for number in numbers {
        last = change_at(logs, pid, room, node, *number).or(last);
    }
    last
}

/// The change by the node's record with this number, if it is one.
fn change_at(
    logs: &Logs<'_>,
    pid: &str,
    room: &str,
    node: usize,
    number: usize,
) -> Option<RoomChange>
    ensures { result ≡ change_at logs.now pid.now room.now node number }
{
    let Some(log) = logs.node(node) else {
        return None;
    };
    let Some(rec) = log.recs().get(number) else {
        return None;
    };
    match change_by(pid, room, rec) {
        Some(joined) => Some(RoomChange {
            node,
            number,
            joined,
        }),
        None => None,
    }
}

/// Whether the record joins the room for the session, or leaves it; none where it does neither.
fn change_by(pid: &str, room: &str, rec: &NodeRec) -> Option<bool>
    ensures { result ≡ change_by pid.now room.now rec.now }
{
    match rec {
        NodeRec::Join {
            pid: other,
            room: name,
        } if other.as_str() == pid && name.as_str() == room => Some(true),
        NodeRec::Leave {
            pid: other,
            room: name,
        } if other.as_str() == pid && name.as_str() == room => Some(false),
        _ => None,
    }
}
