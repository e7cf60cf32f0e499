//! One turn of a certificate against the logs.
ghost use Rattle.std.specs.Prelude.{◌≡◌, ◌↔◌, ◌≤◌, IfErr, IsTrue, OnOk, length, map};
ghost use Rattle.std.specs.List.{All};
ghost use Rattle.std.specs.Option.{option_copied};
ghost use Rattle.aud_node.specs.Cluster.{node_log};
ghost use Rattle.aud_node.specs.Ordered.{is_ordered};
ghost use Rattle.aud_rooms.specs.TurnPlaces.{IsWithin};
ghost use Rattle.aud_rooms.specs.Turns.{MayEnd};
ghost use Rattle.aud_cert.specs.Certificate.{IsTurnOver, log_named, turn_at};
ghost use Rattle.aud_check.specs.Private.TurnEnd.{end_seen};
ghost use Rattle.aud_check.specs.TurnRefusals.{AreTurnsAccepted, HasCursors, IsTurnAccepted, is_begun_by};
ghost use Rattle.aud_check.specs.Private.TurnCheck.{IsFirstOfTurn, IsFirstOfTurns};

use crate::place::records_at;
use crate::refusal::Refusal;
use crate::turn_end::{End, turn_end};
use aud_cert::{Turn, turn_place};
use aud_node::Logs;
use aud_rooms::TurnPlace;
use aud_tap::NodeRec;

/// Whether the turns are the session's, turn 0 first. The first refusal that holds is answered: the turns are looked at
/// one after the other.
pub(crate) fn check_turns(logs: &Logs<'_>, pid: &str, turns: &[Turn<'_>]) -> Result<(), Refusal>
    requires { All (IsTurnOver logs.now) turns.now }
    ensures accepted { OnOk result (AreTurnsAccepted logs.now pid.now turns.now) }
    ensures refused { IfErr result (IsFirstOfTurns logs.now pid.now turns.now) }
{
    for (number, turn) in turns.iter().enumerate() {
        let (_, later) = turns.split_at(number + 1);
        check_turn(logs, pid, number, turn, later)?;
    }
    Ok(())
}

/// Whether the turn is the session's with this number, and stands before these: its records begin and end it, the node
/// is ordered, and the cursors are the node's. The first refusal that holds is answered.
pub(crate) fn check_turn(
    logs: &Logs<'_>,
    pid: &str,
    number: usize,
    turn: &Turn<'_>,
    later: &[Turn<'_>],
) -> Result<(), Refusal>
    requires over { IsTurnOver logs.now turn.now }
    ensures accepted { OnOk result (IsTurnAccepted logs.now pid.now number turn.now later.now) }
    ensures refused { IfErr result (IsFirstOfTurn logs.now pid.now number turn.now later.now) }
{
    if !is_begun_by(turn.recs.get(0), pid, number) {
        return Err(Refusal::NotItsTurn);
    }
    let place = turn_place(logs, turn);
    let Some(end) = turn_end(logs, &place, pid, number) else {
        return Err(Refusal::EndInside);
    };
    if !may_end(logs, &place, end, later) {
        return Err(Refusal::NoEnd);
    }
    if !has_cursors(logs, &place, turn) {
        return Err(Refusal::Cursor);
    }
    Ok(())
}

/// Whether there is a record, and it begins the session's turn with this number.
fn is_begun_by(rec: Option<&NodeRec>, pid: &str, turn: usize) -> bool
    ensures { result ≡ is_begun_by pid.now turn (option_copied rec.entry) }
{
    match rec {
        Some(NodeRec::Opened { pid: other, .. }) => turn == 0 && other.as_str() == pid,
        Some(
            NodeRec::Back {
                pid: other,
                turn: number,
            },
        ) => turn > 0 && other.as_str() == pid && usize::from(*number) == turn,
        _ => false,
    }
}

/// Whether the turn ends within the log of its node, and may end so before these.
fn may_end(logs: &Logs<'_>, place: &TurnPlace, end: End, later: &[Turn<'_>]) -> bool
    ensures { IsTrue result ↔ ((place.now.to ≤ length (node_log logs.now place.now.node))
        × MayEnd logs.now place.now (map (turn_at logs.now) later.now) (end_seen end)) }
{
    let len = count_of(logs, place.node);
    match end {
        End::Break => place.to <= len,
        End::Gone => place.to <= len && later.is_empty(),
        End::Log => place.to == len && later.is_empty(),
    }
}

/// How many records the node at this place has.
fn count_of(logs: &Logs<'_>, node: usize) -> usize
    ensures { result ≡ length (node_log logs.now node) }
{
    match records_at(logs, node) {
        Some(recs) => recs.len(),
        None => 0,
    }
}

/// Whether the log is ordered, and the turn's cursors are those of the log.
fn has_cursors(logs: &Logs<'_>, place: &TurnPlace, turn: &Turn<'_>) -> bool
    requires place { place.now ≡ turn_at logs.now turn.now }
    requires within { IsWithin logs.now place.now }
    ensures { IsTrue result ↔ HasCursors logs.now.stream
        (log_named logs.now turn.now.node) turn.now }
{
    if !is_ordered(logs, place.node) {
        return false;
    }
    if place.low(logs) != turn.low {
        return false;
    }
    place.high(logs) == turn.high
}

/// Whether the log of the node at this place is ordered.
fn is_ordered(logs: &Logs<'_>, node: usize) -> bool
    ensures { result ≡ is_ordered logs.now.stream (node_log logs.now node) }
{
    match logs.node(node) {
        Some(log) => log.ordered(),
        None => false,
    }
}
