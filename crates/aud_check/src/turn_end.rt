//! How the records of a turn end.
ghost use Rattle.std.specs.Prelude.{◌≡◌, ◌<◌, length, suc, if◌then◌else◌};
ghost use Rattle.std.specs.Option.{option_map};
ghost use Rattle.aud_node.specs.Cluster.{node_log};
ghost use Rattle.aud_rooms.specs.TurnPlaces.{own_between};
ghost use Rattle.aud_rooms.specs.Turns.{part_of, slice_of};
ghost use Rattle.aud_check.specs.Private.TurnEnd.{end_seen, part_seen};
ghost use Rattle.aud_check.specs.TurnRefusals.{end_of};

use crate::place::records_at;
use aud_node::Logs;
use aud_rooms::TurnPlace;
use aud_tap::NodeRec;

/// How a turn ends.
#[derive(Clone, Copy, Debug, PartialEq, Eq)]
pub(crate) enum End {
    /// With its `break`.
    Break,
    /// With the session.
    Gone,
    /// With neither of them.
    Log,
}

/// What a record after the first one is to a turn.
#[derive(Clone, Copy)]
enum Part {
    Inner,
    Last(End),
    Foreign,
}

/// How the session's turn with this number ends, whose records stand at this place; none where those after the first
/// one aren't records of it. Only the session's own records are looked at.
pub(crate) fn turn_end(logs: &Logs<'_>, place: &TurnPlace, pid: &str, turn: usize) -> Option<End>
    requires some { place.now.from < place.now.to }
    requires inside { place.now.from < length (node_log logs.now place.now.node) }
    ensures { option_map end_seen result ≡ end_of pid.now turn (slice_of logs.now place.now).recs }
{
    let Some(recs) = records_at(logs, place.node) else {
        return Some(End::Log);
    };
    let last = place.to.min(recs.len());
    for number in own_after_first(logs, place, last, pid) {
        let Some(rec) = recs.get(*number) else {
            return None;
        };
        match part_of(rec, pid, turn) {
            Part::Inner => {}
            Part::Last(end) if *number + 1 == last => return Some(end),
            Part::Last(_) => return None,
            Part::Foreign => return None,
        }
    }
    Some(End::Log)
}

/// The numbers, ascending, of the records at this place after the first one and before `last` that name the pid.
fn own_after_first<'l>(logs: &'l Logs<'_>, place: &TurnPlace, last: usize, pid: &str) -> &'l [usize]
    requires { place.now.from < place.now.to }
    ensures { result.now ≡ own_between (node_log logs.now place.now.node) pid.now
        (suc place.now.from) last }
{
    let after_first = TurnPlace {
        node: place.node,
        from: place.from + 1,
        to: last,
    };
    after_first.own(logs, pid)
}

/// What the record is to the session's turn with this number.
fn part_of(rec: &NodeRec, pid: &str, turn: usize) -> Part
    ensures { part_seen result ≡ part_of pid.now turn rec.now }
{
    match rec {
        NodeRec::Opened { pid: other, .. } => foreign_where(other.as_str() == pid),
        NodeRec::Back { pid: other, .. } => foreign_where(other.as_str() == pid),
        NodeRec::Broke {
            pid: other,
            turn: number,
        } if other.as_str() == pid => {
            if usize::from(*number) == turn {
                Part::Last(End::Break)
            } else {
                Part::Foreign
            }
        }
        NodeRec::Gone { pid: other } if other.as_str() == pid => Part::Last(End::Gone),
        _ => Part::Inner,
    }
}

fn foreign_where(is_foreign: bool) -> Part
    ensures { result ≡ (if is_foreign then Part.Foreign else Part.Inner) }
{
    if is_foreign {
        Part::Foreign
    } else {
        Part::Inner
    }
}
