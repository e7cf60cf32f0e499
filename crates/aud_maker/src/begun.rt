//! The turns of a session that nodes' logs begin.
ghost use Rattle.std.specs.Prelude.{◌≡◌, ◌≤◌, ℕ, List, IfOk, MatchBool, true, None};
ghost use Rattle.aud_node.specs.Cluster.{node_log};
ghost use Rattle.aud_node.specs.TurnRecords.{begins_turn, turn_range};
ghost use Rattle.aud_node.specs.OwnPlaces.{own_places};
ghost use Rattle.aud_rooms.specs.Turns.{HasNoTurn};
ghost use Rattle.aud_maker.specs.Begun.{placed_or, turn_begun, AreAllBegun};
ghost use Rattle.aud_maker.specs.Private.Begun.{BeginsUpTo};

use aud_node::{Logs, NodeLog};
use aud_rooms::TurnPlace;
use aud_tap::NodeRec;
use std::alloc::{AllocError, Global};

/// Where the turns of the session stand, from turn 0 on, up to the first that none of the nodes begins. `nodes` are the
/// places of the nodes with records of the session, ascending: [`Logs::nodes_of`].
pub fn begun_turns(
    alloc: Global,
    logs: &Logs<'_>,
    nodes: &[usize],
    pid: &str,
) -> Result<Vec<TurnPlace>, AllocError>
    requires { nodes.now ≡ own_places logs.now pid.now }
    ensures { IfOk result (λ turns. AreAllBegun logs.now pid.now turns.items) }
{
    let last = last_begun(logs, nodes, pid);
    let mut turns = Vec::new(alloc);
    for number in 0..u32::from(last) + 1 {
        let Some(turn) = turn_at(logs, nodes, pid, number as u16) else {
            return Ok(turns);
        };
        turns.push(turn)?;
    }
    Ok(turns)
}

/// Whether one of the nodes begins turn 0.
pub(crate) fn is_opened(logs: &Logs<'_>, nodes: &[usize], pid: &str) -> bool
    requires { nodes.now ≡ own_places logs.now pid.now }
    ensures { MatchBool result (HasNoTurn logs.now pid.now 0 → ⊥) (HasNoTurn logs.now pid.now 0) }
{
    turn_at(logs, nodes, pid, 0).is_some()
}

/// Turn `number` in the first of the nodes that begins it.
fn turn_at(logs: &Logs<'_>, nodes: &[usize], pid: &str, number: u16) -> Option<TurnPlace>
    ensures { result ≡ turn_begun logs.now nodes.now pid.now number }
{
    for node in nodes {
        if let Some(turn) = turn_on(logs, *node, pid, number) {
            return Some(turn);
        }
    }
    None
}

/// Turn `number` on the node at this place.
fn turn_on(logs: &Logs<'_>, node: usize, pid: &str, number: u16) -> Option<TurnPlace>
    ensures { result ≡ placed_or None node (turn_range (node_log logs.now node) pid.now number) }
{
    let Some(log) = logs.node(node) else {
        return None;
    };
    match log.turn_range(pid, number) {
        Some(range) => Some(TurnPlace {
            node,
            from: range.start,
            to: range.end,
        }),
        None => None,
    }
}

/// A number; no record in the nodes' logs begins a turn of a greater one.
fn last_begun(logs: &Logs<'_>, nodes: &[usize], pid: &str) -> u16
    requires { nodes.now ≡ own_places logs.now pid.now }
    ensures { (node : ℕ) → BeginsUpTo (node_log logs.now node) pid.now result }
{
    let mut last = 0;
    for node in nodes {
        if let Some(log) = logs.node(*node) {
            last = last_in(log, pid).max(last);
        }
    }
    last
}

/// A number; no record of the log begins a turn of a greater one.
fn last_in(log: &NodeLog<'_>, pid: &str) -> u16
    ensures { BeginsUpTo log.now.recs pid.now result }
{
    let recs = log.recs();
    let mut last = 0;
    for number in log.own(pid) {
        if let Some(rec) = recs.get(*number) {
            last = number_of(rec).max(last);
        }
    }
    last
}

/// The number that the record gives a turn, 0 where it gives none.
fn number_of(rec: &NodeRec) -> u16
    ensures { (pid : List ℕ) (k : ℕ) → begins_turn pid k rec.now ≡ true → k ≤ result }
{
    match rec {
        NodeRec::Back { turn, .. } => *turn,
        _ => 0,
    }
}
