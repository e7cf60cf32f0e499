//! The turns of a session, by their records, and as a timeline shows them.
ghost use Rattle.std.specs.Prelude.{◌≡◌, ◌++◌, OnOk, map, option_to_list};
ghost use Rattle.std.specs.Option.{option_and_then, option_map};
ghost use Rattle.aud_findings.specs.ShownTurn.{end_shown, span_shown, took_until, turn_seen};

use aud_explanation::{TurnBegin, TurnEnd, TurnShown};
use aud_rows::Sheet;
use std::alloc::AllocError;

/// A turn of a session, by the numbers of its first record and of its last one, in the log of the node whose tap is at
/// this place. Places and records count from 0.
#[derive(Clone, Copy, Drop)]
pub struct TurnSpan {
    /// Turns count from 0.
    pub turn: u16,
    /// The record by which it begins.
    pub begin: TurnBegin,
    pub node: usize,
    pub first: usize,
    pub last: usize,
    /// How its last record ends it.
    pub ends: Ends,
}

/// How the last record of a turn ends it.
#[derive(Clone, Copy, Drop)]
pub enum Ends {
    ByBreak,
    ByGone,
    /// It is the last of the node's log.
    ByLog,
    /// No record says that the turn ended, and another one follows.
    Missing,
}

/// The last record of a turn, by its number, and how it ends the turn.
#[derive(Clone, Copy, Drop)]
pub struct LastRecord {
    pub number: usize,
    pub ends: Ends,
}

/// The turn with its lines and cursors; none where it has no such record, or its lines aren't known.
fn span_shown<'r>(sheet: &Sheet<'r, '_>, span: TurnSpan) -> Option<TurnShown<'r>>
    ensures { option_map turn_seen result
        ≡ span_shown sheet.now.recording.now sheet.now.lines.now span }
{
    let logs = sheet.recording.logs();
    let tap = logs.taps().get(span.node)?;
    let begin_line = sheet.lines.line_of(span.node, span.first)?;
    let log = logs.node(span.node)?;
    let low = log.cursor_after(span.first)?;
    let last_line = sheet.lines.line_of(span.node, span.last);
    let end = end_shown(span.ends, last_line, log.cursor_after(span.last))?;
    Some(TurnShown {
        turn: span.turn,
        node: tap.name.as_str(),
        begin: span.begin,
        begin_line,
        low,
        took: took_until(low, end),
        end,
    })
}

/// The first position and the last one that a node took in a turn that begins at this cursor and ends so.
fn took_until(low: u64, end: TurnEnd) -> Option<(u64, u64)>
    ensures { result ≡ took_until low end }
{
    match end {
        TurnEnd::Break { high, .. } | TurnEnd::Gone { high, .. } | TurnEnd::Log { high, .. } => {
            if low < high {
                Some((low + 1, high))
            } else {
                None
            }
        }
        TurnEnd::Missing => None,
    }
}

/// How a turn ends whose last record stands on this line and leaves this cursor, if they are known.
fn end_shown(ends: Ends, line: Option<u64>, high: Option<u64>) -> Option<TurnEnd>
    ensures { result ≡ end_shown ends line high }
{
    match ends {
        Ends::ByBreak => Some(TurnEnd::Break {
            line: line?,
            high: high?,
        }),
        Ends::ByGone => Some(TurnEnd::Gone {
            line: line?,
            high: high?,
        }),
        Ends::ByLog => Some(TurnEnd::Log {
            line: line?,
            high: high?,
        }),
        Ends::Missing => Some(TurnEnd::Missing),
    }
}

/// Adds the turn, if there is one and it is shown.
pub(crate) fn push_span<'r>(
    sheet: &Sheet<'r, '_>,
    turns: &mut Vec<TurnShown<'r>>,
    span: Option<TurnSpan>,
) -> Result<(), AllocError>
    ensures { OnOk result (map turn_seen turns.new.items
        ≡ map turn_seen turns.old.items
        ++ option_to_list (option_and_then
        (span_shown sheet.now.recording.now sheet.now.lines.now) span)) }
{
    let Some(span) = span else {
        return Ok(());
    };
    if let Some(turn) = span_shown(sheet, span) {
        turns.push(turn)?;
    }
    Ok(())
}
