//! The turns of a session whose records are a chain of turns.
ghost use Rattle.std.specs.Prelude.{◌≡◌, ◌<◌, IfOk, map};
ghost use Rattle.std.specs.Option.{option_copied};
ghost use Rattle.aud_findings.specs.ShownTurn.{turn_seen};
ghost use Rattle.aud_findings.specs.ChainTurns.{chain_span, end_of, turns_shown};

use crate::record_at::record_at;
use crate::timeline::span::{Ends, TurnSpan, push_span};
use aud_cert::{Turn, turn_place};
use aud_explanation::{TurnBegin, TurnShown};
use aud_node::Logs;
use aud_rooms::TurnPlace;
use aud_rows::Sheet;
use aud_tap::NodeRec;
use std::alloc::{AllocError, Global};

/// The turns of a certificate, as a timeline shows them, in their order: by the records of these logs. A turn whose
/// lines aren't known is left out. It costs the turns, and none of the records between.
pub fn turns_of_chain<'r>(
    alloc: Global,
    sheet: &Sheet<'r, '_>,
    turns: &[Turn<'_>],
) -> Result<Vec<TurnShown<'r>>, AllocError>
    ensures { IfOk result (λ shown. map turn_seen shown.items
        ≡ turns_shown sheet.now.recording.now sheet.now.lines.now turns.now) }
{
    let logs = sheet.recording.logs();
    let mut shown = Vec::new(alloc);
    for turn in turns {
        push_span(sheet, &mut shown, chain_span(logs, turn_place(logs, turn)))?;
    }
    Ok(shown)
}

/// The turn by its first record and its last one; none where the first begins no turn.
fn chain_span(logs: &Logs<'_>, turn: TurnPlace) -> Option<TurnSpan>
    ensures { result ≡ chain_span logs.now turn }
{
    if turn.to <= turn.from {
        return None;
    }
    let (number, begin, pid) = match record_at(logs, turn.node, turn.from)? {
        NodeRec::Opened { pid, .. } => (0, TurnBegin::Open, pid.as_str()),
        NodeRec::Back { pid, turn } => (*turn, TurnBegin::Back, pid.as_str()),
        _ => return None,
    };
    Some(TurnSpan {
        turn: number,
        begin,
        node: turn.node,
        first: turn.from,
        last: turn.to - 1,
        ends: end_of(pid, record_at(logs, turn.node, turn.to - 1)),
    })
}

/// How this last record ends a turn of the session.
fn end_of(pid: &str, last: Option<&NodeRec>) -> Ends
    ensures { result ≡ end_of pid.now (option_copied last.entry) }
{
    match last {
        Some(NodeRec::Broke { pid: other, .. }) if other.as_str() == pid => Ends::ByBreak,
        Some(NodeRec::Gone { pid: other }) if other.as_str() == pid => Ends::ByGone,
        _ => Ends::ByLog,
    }
}
