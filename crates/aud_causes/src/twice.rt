//! Records of a session that speak of one thing twice: two begins of a turn, two opens, what is cleared up after a break.
ghost use Rattle.std.specs.Prelude.{◌≡◌, ◌++◌, None, OnOk};
ghost use Rattle.aud_causes.specs.Twice.{causes_of_twice, is_as_often, is_written_again, opened_twice, turn_not_stored, twice_by, twice_causes};
ghost use Rattle.aud_causes.specs.Cleared.{cleared_after_break, cleared_on};

use crate::cause::Cause;
use crate::list::push_some;
use crate::turns::Turns;
use aud_node::Logs;
use aud_session_facts::{Mark, RecordPlace, TurnMark};
use aud_tap::NodeRec;
use std::alloc::AllocError;

/// A turn that a record begins, and for which another one takes the session back.
#[derive(Clone, Copy, Drop)]
pub struct Twice {
    pub turn: usize,
    pub first: RecordPlace,
    pub again: RecordPlace,
}

/// Adds the causes of each of these records that takes the session back for a turn that another one begins, where this is
/// what they say of the turns, and this whether the client came back as often.
pub(crate) fn push_twice(
    found: &mut Vec<Cause>,
    turns: &Turns,
    as_often: bool,
    marks: &[TurnMark],
) -> Result<(), AllocError>
    ensures { OnOk result (found.new.items
        ≡ found.old.items ++ twice_causes turns.now.begins.items turns.now.ended.items
        as_often None marks.now) }
{
    let begins = turns.begins.as_slice();
    let ended = turns.ended.as_slice();
    let mut before = None;
    for mark in marks {
        push_causes(found, ended, as_often, twice_by(begins, before, *mark))?;
        before = Some(*mark);
    }
    Ok(())
}

/// Whether the client came back at least as often as these records take the session back, where these are its
/// recoveries.
pub(crate) fn is_as_often(marks: &[TurnMark], came: &[usize]) -> bool
    ensures { result ≡ is_as_often marks.now came.now }
{
    let backs = marks
        .iter()
        .filter(|mark| matches!(mark.mark, Mark::Back { .. }));
    backs.count() <= came.len()
}

/// The turn for which the record takes the session back, where another one is its first begin; none where the one before
/// it in its log is this one, written twice.
fn twice_by(
    begins: &[Option<RecordPlace>],
    before: Option<TurnMark>,
    mark: TurnMark,
) -> Option<Twice>
    ensures { result ≡ twice_by begins.now before mark }
{
    let Mark::Back { turn } = mark.mark else {
        return None;
    };
    let turn = turn as usize;
    let again = mark.place;
    if is_written_again(turn, again, before) {
        return None;
    }
    match begins.get(turn) {
        Some(Some(first)) if first.node != again.node || first.number != again.number => {
            Some(Twice {
                turn,
                first: *first,
                again,
            })
        }
        _ => None,
    }
}

/// Whether the record at this place takes the session back for the turn, as the one before it in the same log does.
fn is_written_again(turn: usize, place: RecordPlace, before: Option<TurnMark>) -> bool
    ensures { result ≡ is_written_again turn place before }
{
    let Some(before) = before else {
        return false;
    };
    if before.place.node != place.node {
        return false;
    }
    match before.mark {
        Mark::Back { turn: other } => turn == other as usize,
        _ => false,
    }
}

/// Adds the causes of such a turn, if there is one.
fn push_causes(
    found: &mut Vec<Cause>,
    ended: &[bool],
    as_often: bool,
    twice: Option<Twice>,
) -> Result<(), AllocError>
    ensures { OnOk result (found.new.items
        ≡ found.old.items ++ causes_of_twice ended.now as_often twice) }
{
    let Some(twice) = twice else {
        return Ok(());
    };
    push_some(found, turn_not_stored(ended, as_often, twice))?;
    let on_two_nodes = twice.first.node != twice.again.node;
    let recovered = Cause::RecoveredTwice {
        turn: twice.turn,
        first: twice.first,
        again: twice.again,
    };
    push_some(found, on_two_nodes.then_some(recovered))
}

/// Where the client came back for each `back`, or the log of a record that begins the turn ends it.
fn turn_not_stored(ended: &[bool], as_often: bool, twice: Twice) -> Option<Cause>
    ensures { result ≡ turn_not_stored ended.now as_often twice }
{
    if !as_often && !matches!(ended.get(twice.turn), Some(true)) {
        return None;
    }
    Some(Cause::TurnNotStored {
        turn: twice.turn,
        first: twice.first,
        again: twice.again,
    })
}

/// Where two records open the session: the first two.
pub(crate) fn opened_twice(marks: &[TurnMark]) -> Option<Cause>
    ensures { result ≡ opened_twice marks.now }
{
    let mut first = None;
    for mark in marks {
        if let Mark::Open = mark.mark {
            if let Some(first) = first {
                return Some(Cause::OpenedTwice {
                    first,
                    again: mark.place,
                });
            }
            first = Some(mark.place);
        }
    }
    None
}

/// Adds of each node where its log has a `leave` or the `gone` of the session after its `break`, and no turn of it begins
/// between them: the first such record. It costs the session's own records.
pub(crate) fn push_cleared(
    logs: &Logs<'_>,
    pid: &str,
    found: &mut Vec<Cause>,
) -> Result<(), AllocError>
    ensures { OnOk result (found.new.items
        ≡ found.old.items ++ cleared_after_break logs.now pid.now) }
{
    for node in logs.nodes_of(pid) {
        push_some(found, cleared_on(logs, pid, *node))?;
    }
    Ok(())
}

/// The first in the log of this node.
fn cleared_on(logs: &Logs<'_>, pid: &str, node: usize) -> Option<Cause>
    ensures { result ≡ cleared_on logs.now pid.now node }
{
    let log = logs.node(node)?;
    let mut broke = None;
    for number in log.own(pid) {
        let place = RecordPlace {
            node,
            number: *number,
        };
        match log.recs().get(*number) {
            Some(NodeRec::Broke { .. }) => {
                broke = Some(place);
            }
            Some(NodeRec::Opened { .. } | NodeRec::Back { .. }) => {
                broke = None;
            }
            Some(NodeRec::Leave { .. } | NodeRec::Gone { .. }) => {
                if let Some(broke) = broke {
                    return Some(Cause::ClearedAfterBreak {
                        broke,
                        cleared: place,
                    });
                }
            }
            _ => {}
        }
    }
    None
}
