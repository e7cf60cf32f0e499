//! The records of a session that begin or end its turns.
ghost use Rattle.std.specs.Prelude.{◌≡◌, IfOk, ◌++◌};
ghost use Rattle.std.specs.Option.{option_copied};
ghost use Rattle.aud_session_facts.specs.Marks.{mark_of, marks_on, turn_marks};

use crate::place::{RecordPlace, record_at};
use aud_node::Logs;
use aud_tap::NodeRec;
use std::alloc::{AllocError, Global};

/// How a record begins or ends a turn of its session.
#[derive(Clone, Copy, Debug, PartialEq, Eq, Drop)]
pub enum Mark {
    /// The session's `open`, which begins turn 0.
    Open,
    /// A `back`, which begins this turn.
    Back { turn: u16 },
    /// A `break`, which ends this turn.
    Break { turn: u16 },
    /// The session is over.
    Gone,
}

/// Such a record.
#[derive(Clone, Copy, Debug, PartialEq, Eq, Drop)]
pub struct TurnMark {
    pub place: RecordPlace,
    pub mark: Mark,
}

/// All node records of the session that begin or end a turn: node after node in the order of the taps, and on each by
/// number. It looks at the session's own records, and at no others.
pub fn turn_marks(alloc: Global, logs: &Logs<'_>, pid: &str) -> Result<Vec<TurnMark>, AllocError>
    ensures { IfOk result (λ marks. marks.items ≡ turn_marks logs.now pid.now) }
{
    let nodes = logs.nodes_of(pid);
    let mut marks = Vec::new(alloc);
    for node in nodes {
        add_marks(logs, *node, pid, &mut marks)?;
    }
    Ok(marks)
}

/// Adds those of one node.
fn add_marks(
    logs: &Logs<'_>,
    node: usize,
    pid: &str,
    marks: &mut Vec<TurnMark>,
) -> Result<(), AllocError>
    ensures { IfOk result (λ _. marks.new.items
        ≡ marks.old.items ++ marks_on logs.now pid.now node) }
{
    let Some(log) = logs.node(node) else {
        return Ok(());
    };
    for number in log.own(pid) {
        let place = RecordPlace {
            node,
            number: *number,
        };
        if let Some(mark) = mark_of(record_at(logs, place), pid) {
            marks.push(TurnMark { place, mark })?;
        }
    }
    Ok(())
}

/// How the record, if there is one, begins or ends a turn of the session.
fn mark_of(rec: Option<&NodeRec>, pid: &str) -> Option<Mark>
    ensures { result ≡ mark_of pid.now (option_copied rec.entry) }
{
    match rec {
        Some(NodeRec::Opened { pid: other, .. }) if other.as_str() == pid => Some(Mark::Open),
        Some(NodeRec::Back { pid: other, turn }) if other.as_str() == pid => {
            Some(Mark::Back { turn: *turn })
        }
        Some(NodeRec::Broke { pid: other, turn }) if other.as_str() == pid => {
            Some(Mark::Break { turn: *turn })
        }
        Some(NodeRec::Gone { pid: other }) if other.as_str() == pid => Some(Mark::Gone),
        _ => None,
    }
}
