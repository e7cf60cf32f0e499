//! Whether a session's records stand in its turns.
ghost use Rattle.std.specs.Prelude.{◌≡◌, slice_get};
ghost use Rattle.std.specs.List.{list_all};
ghost use Rattle.aud_maker.specs.InTurn.{number_begun, turn_past, is_in_turn, is_swept};

use aud_node::{Logs, NodeLog};
use aud_rooms::TurnPlace;
use aud_tap::NodeRec;

/// Whether all records of the session in the nodes' logs stand each in the turn that goes on there. Each of them is
/// looked at once.
pub(crate) fn are_swept(logs: &Logs<'_>, nodes: &[usize], pid: &str, turns: &[TurnPlace]) -> bool
    ensures { result ≡ list_all (is_swept logs.now turns.now pid.now) nodes.now }
{
    for node in nodes {
        if !is_node_swept(logs, *node, pid, turns) {
            return false;
        }
    }
    true
}

/// The same for one node.
fn is_node_swept(logs: &Logs<'_>, node: usize, pid: &str, turns: &[TurnPlace]) -> bool
    ensures { result ≡ is_swept logs.now turns.now pid.now node }
{
    let Some(log) = logs.node(node) else {
        return true;
    };
    let mut current = None;
    for number in log.own(pid) {
        current = turn_after(log, *number, turns, current);
        if !stands_in(node, *number, &current) {
            return false;
        }
    }
    true
}

/// The turn that goes on after the record with this number, which counts from 0 in the log: the one of `turns` that it
/// begins, else `current`.
pub fn turn_after(
    log: &NodeLog<'_>,
    number: usize,
    turns: &[TurnPlace],
    current: Option<TurnPlace>,
) -> Option<TurnPlace>
    ensures { result ≡ turn_past turns.now (slice_get log.now.recs number) current }
{
    let begun = match log.recs().get(number) {
        Some(rec) => turn_begun_by(rec),
        None => None,
    };
    match begun {
        Some(begun) => turns.get(usize::from(begun)).copied(),
        None => current,
    }
}

/// The number of the turn that the record begins, which counts from 0; none where it begins none.
pub fn turn_begun_by(rec: &NodeRec) -> Option<u16>
    ensures { result ≡ number_begun rec.now }
{
    match rec {
        NodeRec::Opened { .. } => Some(0),
        NodeRec::Back { turn, .. } if *turn > 0 => Some(*turn),
        _ => None,
    }
}

/// Whether there is a turn, and the record with this number, which counts from 0, of the node at this place stands in
/// it.
pub fn stands_in(node: usize, number: usize, turn: &Option<TurnPlace>) -> bool
    ensures { result ≡ is_in_turn node number turn.now }
{
    match turn {
        Some(turn) => turn.node == node && turn.from <= number && number < turn.to,
        None => false,
    }
}
