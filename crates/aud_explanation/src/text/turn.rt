//! The rows of the turns.
ghost use Rattle.std.specs.Prelude.{◌≡◌, ◌++◌, OnOk, string_bytes};
ghost use Rattle.aud_explanation.specs.TurnText.{end_words, took_words, turns_text};

use crate::text::lines::{Lines, Page, push_long};
use crate::text::page::{push_left, push_line};
use crate::text::span::push_span;
use crate::turn::{TurnBegin, TurnEnd, TurnShown};
use std::alloc::{AllocError, Global};

/// Puts what a node took in a turn at the end.
fn push_took(line: &mut String, took: Option<(u64, u64)>) -> Result<(), AllocError>
    ensures { OnOk result (string_bytes line.new ≡ string_bytes line.old ++ took_words took) }
{
    match took {
        Some((from, to)) => {
            line.push_str(" take ")?;
            push_span(line, from, to)?;
            line.push_str(" ==")
        }
        None => Ok(()),
    }
}

/// A row: `turn 0  a  4 open, cursor 0 == take 1-3 == 9 break, cursor 3`.
impl<'r> Lines for TurnShown<'r> {
    ghost use Rattle.aud_explanation.specs.TurnText.{turn_text};

    ghost lines_of = { λ page turn. turn_text page.width turn };

    fn push(&self, alloc: Global, out: &mut String, page: Page<'_>) -> Result<(), AllocError> {
        let (number, at, low) = (self.turn, self.begin_line, self.low);
        let mut line = format!(in alloc; "    turn {number}  ")?;
        push_left(&mut line, self.node, page.width)?;
        let begin = match self.begin {
            TurnBegin::Open => "open",
            TurnBegin::Back => "back",
        };
        write!(&mut line, "  {at} {begin}, cursor {low} ==")?;
        push_took(&mut line, self.took)?;
        push_end(&mut line, self.end)?;
        push_line(out, line.as_str())
    }
}

/// Puts the line on which a turn ends at the end, how it does, and the cursor there.
fn push_end(line: &mut String, end: TurnEnd) -> Result<(), AllocError>
    ensures { OnOk result (string_bytes line.new ≡ string_bytes line.old ++ end_words end) }
{
    match end {
        TurnEnd::Break { line: at, high } => write!(line, " {at} break, cursor {high}"),
        TurnEnd::Gone { line: at, high } => write!(line, " {at} gone, cursor {high}"),
        TurnEnd::Log { line: at, high } => write!(line, " {at} log ends, cursor {high}"),
        TurnEnd::Missing => line.push_str(" no break  <- missing"),
    }
}

/// Puts a row for each turn at the end: of more than 200 for the first 100 and the last 100. The column of nodes is as wide
/// as the longest name.
pub(crate) fn push_turns(
    alloc: Global,
    out: &mut String,
    page: Page<'_>,
    turns: &[TurnShown<'_>],
) -> Result<(), AllocError>
    ensures { OnOk result (string_bytes out.new ≡ string_bytes out.old ++ turns_text turns.now) }
{
    let mut width = 1;
    for turn in turns {
        width = width.max(turn.node.len());
    }
    push_long(alloc, out, Page { width, ..page }, turns)
}
