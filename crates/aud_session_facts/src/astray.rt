//! The first record of a session that stands in no turn of it.
ghost use Rattle.std.specs.Prelude.{◌≡◌, MatchOption, true, false, slice_get};
ghost use Rattle.std.specs.List.{list_all};
ghost use Rattle.std.specs.Option.{option_copied};
ghost use Rattle.aud_node.specs.Cluster.{node_log};
ghost use Rattle.aud_node.specs.OwnRecords.{own_numbers};
ghost use Rattle.aud_maker.specs.Begun.{AreAllBegun};
ghost use Rattle.aud_maker.specs.InTurn.{is_in_turn, is_swept};
ghost use Rattle.aud_session_facts.specs.Misfit.{IsMisfit};
ghost use Rattle.aud_session_facts.specs.Places.{Begins};
ghost use Rattle.aud_session_facts.specs.Private.Astray.{begun_by, astray_from, ends_at, IsPast};

use crate::misfit::Misfit;
use crate::place::{RecordPlace, first_of, record_at};
use aud_maker::{stands_in, turn_after, turn_begun_by};
use aud_node::Logs;
use aud_rooms::TurnPlace;
use aud_tap::NodeRec;

/// A record of the session that does not stand in the turn that goes on there, by its number; and that turn, where
/// there is one.
#[derive(Clone, Copy)]
pub(crate) struct Astray {
    pub number: usize,
    pub going_on: Option<TurnPlace>,
}

/// The first record of the session, node after node, that stands in none of these turns, which are all that it begins.
/// Each of its records is looked at once.
pub(crate) fn first_astray(
    logs: &Logs<'_>,
    nodes: &[usize],
    pid: &str,
    turns: &[TurnPlace],
) -> Option<Misfit>
    requires { AreAllBegun logs.now pid.now turns.now }
    ensures { MatchOption result (list_all (is_swept logs.now turns.now pid.now) nodes.now ≡ true)
        (IsMisfit logs.now pid.now) }
{
    for node in nodes {
        if let Some(misfit) = misfit_on(logs, *node, pid, turns) {
            return Some(misfit);
        }
    }
    None
}

/// The same for one node.
fn misfit_on(logs: &Logs<'_>, node: usize, pid: &str, turns: &[TurnPlace]) -> Option<Misfit>
    requires { AreAllBegun logs.now pid.now turns.now }
    ensures { MatchOption result (is_swept logs.now turns.now pid.now node ≡ true)
        (IsMisfit logs.now pid.now) }
{
    match astray_on(logs, node, pid, turns) {
        Some(astray) => Some(misfit_of(logs, node, pid, turns, astray)),
        None => None,
    }
}

/// The first record of the session on this node that doesn't stand in the turn that goes on there.
fn astray_on(logs: &Logs<'_>, node: usize, pid: &str, turns: &[TurnPlace]) -> Option<Astray>
    ensures { result ≡ astray_from (node_log logs.now node) turns.now node
        (own_numbers (node_log logs.now node) pid.now) None }
{
    let Some(log) = logs.node(node) else {
        return None;
    };
    let mut current = None;
    for number in log.own(pid) {
        current = turn_after(log, *number, turns, current);
        if !stands_in(node, *number, &current) {
            return Some(Astray {
                number: *number,
                going_on: current,
            });
        }
    }
    None
}

/// The number of the turn that the record begins, if there is a record.
fn begun_by(rec: Option<&NodeRec>) -> Option<u16>
    ensures { result ≡ begun_by (option_copied rec.entry) }
{
    match rec {
        Some(rec) => turn_begun_by(rec),
        None => None,
    }
}

/// What does not fit at a record that stands astray.
fn misfit_of(logs: &Logs<'_>, node: usize, pid: &str, turns: &[TurnPlace], astray: Astray) -> Misfit
    requires begun { AreAllBegun logs.now pid.now turns.now }
    requires out { astray_from (node_log logs.now node) turns.now node
        (own_numbers (node_log logs.now node) pid.now) None ≡ Some astray }
    ensures { IsMisfit logs.now pid.now result }
{
    let here = RecordPlace {
        node,
        number: astray.number,
    };
    match begun_by(record_at(logs, here)) {
        Some(turn) => begun_again(logs, pid, turns, usize::from(turn), here),
        None => match astray.going_on {
            Some(turn) => past_turn(logs, pid, &turn, here),
            None => Misfit::BeforeTurns { place: here },
        },
    }
}

/// What does not fit at a record that begins a turn of this number, and isn't the first record of one of these.
fn begun_again(
    logs: &Logs<'_>,
    pid: &str,
    turns: &[TurnPlace],
    turn: usize,
    here: RecordPlace,
) -> Misfit
    requires begun { AreAllBegun logs.now pid.now turns.now }
    requires begins { Begins logs.now pid.now turn here }
    requires out { is_in_turn here.node here.number (slice_get turns.now turn) ≡ false }
    ensures { IsMisfit logs.now pid.now result }
{
    match turns.get(turn) {
        Some(first) => Misfit::BegunTwice {
            turn,
            first: first_of(first),
            again: here,
        },
        None => Misfit::MissingTurn {
            turn: turns.len(),
            back: here,
        },
    }
}

/// What does not fit at a record past this turn of its node.
fn past_turn(logs: &Logs<'_>, pid: &str, turn: &TurnPlace, here: RecordPlace) -> Misfit
    requires { IsPast logs.now pid.now turn.now here }
    ensures { IsMisfit logs.now pid.now result }
{
    let last = RecordPlace {
        node: turn.node,
        number: turn.to.saturating_sub(1),
    };
    if ends_turn(record_at(logs, last), pid) {
        return Misfit::AfterTurn {
            end: last,
            place: here,
        };
    }
    Misfit::InsideTurn {
        begin: first_of(turn),
        place: RecordPlace {
            node: turn.node,
            number: turn.to,
        },
    }
}

/// Whether there is a record, and it is a `break` or the `gone` of the session.
fn ends_turn(rec: Option<&NodeRec>, pid: &str) -> bool
    ensures { result ≡ ends_at pid.now (option_copied rec.entry) }
{
    match rec {
        Some(NodeRec::Broke { pid: other, .. }) => other.as_str() == pid,
        Some(NodeRec::Gone { pid: other }) => other.as_str() == pid,
        _ => false,
    }
}
