//! The first turn of a session that doesn't end as it may.
ghost use Rattle.std.specs.Prelude.{◌≡◌, MatchOption, true, false, suc, Some, length, is_none};
ghost use Rattle.std.specs.Option.{option_copied};
ghost use Rattle.aud_node.specs.Cluster.{node_log};
ghost use Rattle.aud_node.specs.OwnPlaces.{own_places};
ghost use Rattle.aud_maker.specs.Begun.{turn_begun, AreAllBegun};
ghost use Rattle.aud_maker.specs.Ended.{is_ended, are_ended};
ghost use Rattle.aud_session_facts.specs.Misfit.{IsMisfit};
ghost use Rattle.aud_session_facts.specs.Places.{Breaks, HasNoBreak};
ghost use Rattle.aud_session_facts.specs.Private.Unended.{IsOpenEnd, IsNext, HasNoBreakOn, is_break_at};

use crate::misfit::Misfit;
use crate::place::{RecordPlace, first_of, record_at};
use aud_node::Logs;
use aud_rooms::TurnPlace;
use aud_tap::NodeRec;

/// What does not fit at the end of the first of these turns, which are all that the session begins, that doesn't end as
/// it may.
pub(crate) fn first_unended(
    logs: &Logs<'_>,
    nodes: &[usize],
    pid: &str,
    turns: &[TurnPlace],
) -> Option<Misfit>
    requires nodes { nodes.now ≡ own_places logs.now pid.now }
    requires begun { AreAllBegun logs.now pid.now turns.now }
    ensures { MatchOption result (are_ended logs.now pid.now 0 turns.now ≡ true)
        (IsMisfit logs.now pid.now) }
{
    for (number, turn) in turns.iter().enumerate() {
        if let Some(misfit) = misfit_at_end(logs, nodes, pid, number, turn, turns.get(number + 1)) {
            return Some(misfit);
        }
    }
    None
}

/// What does not fit at the end of turn `number`.
fn misfit_at_end(
    logs: &Logs<'_>,
    nodes: &[usize],
    pid: &str,
    number: usize,
    turn: &TurnPlace,
    next: Option<&TurnPlace>,
) -> Option<Misfit>
    requires nodes { nodes.now ≡ own_places logs.now pid.now }
    requires begun { turn_begun logs.now (own_places logs.now pid.now) pid.now number
        ≡ Some turn.now }
    requires next { IsNext logs.now pid.now number (option_copied next) }
    ensures { MatchOption result
        (is_ended logs.now pid.now number turn.now (is_none (option_copied next.entry)) ≡ true)
        (IsMisfit logs.now pid.now) }
{
    let last = RecordPlace {
        node: turn.node,
        number: turn.to.saturating_sub(1),
    };
    match record_at(logs, last) {
        Some(
            NodeRec::Broke {
                pid: other,
                turn: ended,
            },
        ) if other.as_str() == pid => {
            if usize::from(*ended) == number {
                return None;
            }
            Some(Misfit::OtherBreak {
                turn: number,
                begin: first_of(turn),
                broke: last,
            })
        }
        Some(NodeRec::Gone { pid: other }) if other.as_str() == pid => match next {
            Some(next) => Some(Misfit::BackAfterGone {
                gone: last,
                back: first_of(next),
            }),
            None => None,
        },
        _ => misfit_without_end(logs, nodes, pid, number, turn, next),
    }
}

/// The same where the turn ends by no `break` and no `gone`.
fn misfit_without_end(
    logs: &Logs<'_>,
    nodes: &[usize],
    pid: &str,
    number: usize,
    turn: &TurnPlace,
    next: Option<&TurnPlace>,
) -> Option<Misfit>
    requires nodes { nodes.now ≡ own_places logs.now pid.now }
    requires lasting { IsOpenEnd logs.now pid.now number turn.now }
    requires next { IsNext logs.now pid.now number (option_copied next) }
    ensures { MatchOption result
        (is_ended logs.now pid.now number turn.now (is_none (option_copied next.entry)) ≡ true)
        (IsMisfit logs.now pid.now) }
{
    match next {
        Some(next) => Some(unbroken(logs, nodes, pid, number, turn, next)),
        None => inside(logs, pid, number, turn),
    }
}

/// What does not fit where the last turn goes on to this end: another begins there, unless the log ends.
fn inside(logs: &Logs<'_>, pid: &str, number: usize, turn: &TurnPlace) -> Option<Misfit>
    requires { IsOpenEnd logs.now pid.now number turn.now }
    ensures { MatchOption result (turn.now.to ≡ length (node_log logs.now turn.now.node))
        (IsMisfit logs.now pid.now) }
{
    let place = RecordPlace {
        node: turn.node,
        number: turn.to,
    };
    match record_at(logs, place) {
        Some(_) => Some(Misfit::InsideTurn {
            begin: first_of(turn),
            place,
        }),
        None => None,
    }
}

/// What does not fit where a turn ends by no `break` and no `gone`, and the next was begun.
fn unbroken(
    logs: &Logs<'_>,
    nodes: &[usize],
    pid: &str,
    number: usize,
    turn: &TurnPlace,
    next: &TurnPlace,
) -> Misfit
    requires nodes { nodes.now ≡ own_places logs.now pid.now }
    requires lasting { IsOpenEnd logs.now pid.now number turn.now }
    requires next { turn_begun logs.now (own_places logs.now pid.now) pid.now (suc number)
        ≡ Some next.now }
    ensures { IsMisfit logs.now pid.now result }
{
    let begin = first_of(turn);
    let back = first_of(next);
    match break_of(logs, nodes, pid, number) {
        Some(broke) => Misfit::StrayBreak {
            turn: number,
            begin,
            broke,
            back,
        },
        None => Misfit::MissingBreak {
            turn: number,
            begin,
            back,
        },
    }
}

/// The first `break` of the session's turn `number`, node after node.
fn break_of(logs: &Logs<'_>, nodes: &[usize], pid: &str, number: usize) -> Option<RecordPlace>
    requires { nodes.now ≡ own_places logs.now pid.now }
    ensures { MatchOption result (HasNoBreak logs.now pid.now number)
        (Breaks logs.now pid.now number) }
{
    for node in nodes {
        if let Some(place) = break_on(logs, *node, pid, number) {
            return Some(place);
        }
    }
    None
}

/// The first on one node.
fn break_on(logs: &Logs<'_>, node: usize, pid: &str, number: usize) -> Option<RecordPlace>
    ensures { MatchOption result (HasNoBreakOn logs.now node pid.now number)
        (Breaks logs.now pid.now number) }
{
    let Some(log) = logs.node(node) else {
        return None;
    };
    for own in log.own(pid) {
        let place = RecordPlace { node, number: *own };
        if is_break(record_at(logs, place), pid, number) {
            return Some(place);
        }
    }
    None
}

/// Whether there is a record, and it is the session's `break` of turn `number`.
fn is_break(rec: Option<&NodeRec>, pid: &str, number: usize) -> bool
    ensures { result ≡ is_break_at pid.now number (option_copied rec.entry) }
{
    match rec {
        Some(NodeRec::Broke { pid: other, turn }) => {
            other.as_str() == pid && usize::from(*turn) == number
        }
        _ => false,
    }
}
