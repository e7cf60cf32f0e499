//! The turns of a session by the records that begin or end them, whether or not these are a chain of turns.
ghost use Rattle.std.specs.Prelude.{◌≡◌, ◌<◌, ◌-◌, ◌^◌, IfOk, map};
ghost use Rattle.aud_findings.specs.ShownTurn.{turn_seen};
ghost use Rattle.aud_findings.specs.MarkedTurns.{end_open, greatest_turn, last_by, last_number, mark_span, marked_turns, next_on, turn_number};

use crate::timeline::span::{Ends, LastRecord, TurnSpan, push_span};
use aud_explanation::{TurnBegin, TurnShown};
use aud_node::Logs;
use aud_rows::Sheet;
use aud_session_facts::{Mark, TurnMark};
use std::alloc::{AllocError, Global};

/// The turns that these marks of a session begin, by their numbers, those with one number in the order of the marks,
/// which stand node after node, and on each by number. A turn ends with the session's next mark on its node where that
/// is its `break` or the `gone`; else no record says that it ended where another turn follows, and it ends with the
/// node's log where none does. A turn whose lines aren't known is left out.
pub fn turns_of_marks<'r>(
    alloc: Global,
    sheet: &Sheet<'r, '_>,
    marks: &[TurnMark],
) -> Result<Vec<TurnShown<'r>>, AllocError>
    ensures { IfOk result (λ shown. map turn_seen shown.items
        ≡ marked_turns sheet.now.recording.now sheet.now.lines.now marks.now) }
{
    let greatest = greatest_turn(marks);
    let logs = sheet.recording.logs();
    let mut shown = Vec::new(alloc);
    for number in 0..marks.len() {
        push_span(sheet, &mut shown, mark_span(logs, greatest, marks, number))?;
    }
    shown.sort_by_key(|turn| turn.turn)?;
    Ok(shown)
}

/// The turn that the mark with this number begins.
fn mark_span(logs: &Logs<'_>, greatest: u16, marks: &[TurnMark], number: usize) -> Option<TurnSpan>
    requires { number < 2 ^ 64 - 1 }
    ensures { result ≡ mark_span logs.now greatest marks.now number }
{
    let mark = *marks.get(number)?;
    let (turn, begin) = match mark.mark {
        Mark::Open => (0, TurnBegin::Open),
        Mark::Back { turn } => (turn, TurnBegin::Back),
        _ => return None,
    };
    let next = marks.get(number + 1).copied();
    let node = mark.place.node;
    let log_end = last_number(logs, node);
    let last = last_by(turn, turn < greatest, log_end, node, next);
    Some(TurnSpan {
        turn,
        begin,
        node,
        first: mark.place.number,
        last: last.number,
        ends: last.ends,
    })
}

/// The number of the turn that the mark begins, 0 where it begins none.
fn turn_number(mark: Mark) -> u16
    ensures { result ≡ turn_number mark }
{
    match mark {
        Mark::Back { turn } => turn,
        _ => 0,
    }
}

/// The greatest number of a turn that one of the marks begins, 0 where none does.
fn greatest_turn(marks: &[TurnMark]) -> u16
    ensures { result ≡ greatest_turn marks.now }
{
    let mut greatest = 0;
    for mark in marks {
        greatest = turn_number(mark.mark).max(greatest);
    }
    greatest
}

/// The number of the last record of the node at this place, 0 where it has none.
fn last_number(logs: &Logs<'_>, node: usize) -> usize
    ensures { result ≡ last_number logs.now node }
{
    match logs.node(node) {
        Some(log) => log.recs().len().saturating_sub(1),
        None => 0,
    }
}

/// The last record of this turn of a session, by the session's next mark, if that is on this node. The node's log ends
/// with the record `log_end`.
fn last_by(
    turn: u16,
    is_followed: bool,
    log_end: usize,
    node: usize,
    next: Option<TurnMark>,
) -> LastRecord
    ensures { result ≡ last_by turn is_followed log_end (next_on node next) }
{
    let next = match next {
        Some(next) if next.place.node == node => next,
        _ => return end_open(is_followed, log_end, log_end),
    };
    let number = next.place.number;
    let before = number.saturating_sub(1);
    match next.mark {
        Mark::Break { turn: other } if other == turn => LastRecord {
            number,
            ends: Ends::ByBreak,
        },
        Mark::Gone => LastRecord {
            number,
            ends: Ends::ByGone,
        },
        Mark::Break { .. } => end_open(is_followed, before, log_end),
        Mark::Open | Mark::Back { .. } => end_open(true, before, log_end),
    }
}

/// The last record of a turn that no record ends: this one where another turn follows, else the log's last.
fn end_open(is_followed: bool, before: usize, log_end: usize) -> LastRecord
    ensures { result ≡ end_open is_followed before log_end }
{
    if is_followed {
        LastRecord {
            number: before,
            ends: Ends::Missing,
        }
    } else {
        LastRecord {
            number: log_end,
            ends: Ends::ByLog,
        }
    }
}
