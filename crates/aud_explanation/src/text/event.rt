//! The row of what happened to the client.
ghost use Rattle.std.specs.Prelude.{◌≡◌, ◌++◌, IfOk, OnOk, map, string_bytes};
ghost use Rattle.aud_explanation.specs.EventText.{event_words, events_text, happens_words, left_words, piece, piece_end, pieces, pieces_end};

use crate::event::{ClientEvent, Happens};
use crate::long::{first_shown, last_shown, left_out};
use crate::text::span::push_span;
use std::alloc::{AllocError, Global};

/// Puts the words for what happens at the end.
fn push_happens(out: &mut String, happens: Happens) -> Result<(), AllocError>
    ensures { OnOk result (string_bytes out.new ≡ string_bytes out.old ++ happens_words happens) }
{
    match happens {
        Happens::Asks { after: None } => out.push_str(" asks"),
        Happens::Asks {
            after: Some(position),
        } => write!(out, " asks after {position}"),
        Happens::Reply => out.push_str(" reply"),
        Happens::Refused => out.push_str(" refused"),
        Happens::Got { from, to } => {
            out.push_str(" got ")?;
            push_span(out, from, to)
        }
        Happens::Lost => out.push_str(" lost"),
    }
}

/// Puts the words at the end, in the next line where this one has no room for two blanks and them; the column after them.
fn push_words(out: &mut String, column: usize, words: &str) -> Result<usize, AllocError>
    ensures text { OnOk result (string_bytes out.new
        ≡ string_bytes out.old ++ piece column words.now) }
    ensures end { IfOk result (λ end. end ≡ piece_end column words.now) }
{
    if words.len() < 99usize.saturating_sub(column) {
        write!(out, "  {words}")?;
        return Ok(column + 2 + words.len());
    }
    write!(out, "\n        {words}")?;
    Ok(8 + words.len().min(92))
}

/// Puts the lines of an event and what happens there at the end, and gives the column after that.
fn push_event(
    alloc: Global,
    out: &mut String,
    column: usize,
    event: &ClientEvent,
) -> Result<usize, AllocError>
    ensures text { OnOk result (string_bytes out.new
        ≡ string_bytes out.old ++ piece column (event_words event.now)) }
    ensures end { IfOk result (λ end. end ≡ piece_end column (event_words event.now)) }
{
    let mut words = String::new(alloc);
    push_span(&mut words, event.first, event.last)?;
    push_happens(&mut words, event.happens)?;
    push_words(out, column, words.as_str())
}

/// Puts these events at the end, from that column on, and gives the column after them.
fn push_all(
    alloc: Global,
    out: &mut String,
    column: usize,
    events: &[ClientEvent],
) -> Result<usize, AllocError>
    ensures text { OnOk result (string_bytes out.new
        ≡ string_bytes out.old ++ pieces column (map event_words events.now)) }
    ensures end { IfOk result (λ end. end ≡ pieces_end column (map event_words events.now)) }
{
    let mut column = column;
    for event in events {
        column = push_event(alloc, out, column, event)?;
    }
    Ok(column)
}

/// Puts how many events are left out at the end, where some are, and gives the column after that.
fn push_left_words(
    alloc: Global,
    out: &mut String,
    column: usize,
    left: usize,
) -> Result<usize, AllocError>
    ensures text { OnOk result (string_bytes out.new
        ≡ string_bytes out.old ++ pieces column (left_words left)) }
    ensures end { IfOk result (λ end. end ≡ pieces_end column (left_words left)) }
{
    if left == 0 {
        return Ok(column);
    }
    let words = format!(in alloc; ".. {left} more ..")?;
    push_words(out, column, words.as_str())
}

/// Puts the row of the events at the end; nothing where there is none. Of more than 200 the first 100 and the last 100
/// stand there, and between them how many are left out.
pub(crate) fn push_events(
    alloc: Global,
    out: &mut String,
    events: &[ClientEvent],
) -> Result<(), AllocError>
    ensures { OnOk result (string_bytes out.new ≡ string_bytes out.old ++ events_text events.now) }
{
    if events.is_empty() {
        return Ok(());
    }
    out.push_str("    client")?;
    let after_first = push_all(alloc, out, 10, first_shown(events))?;
    let column = push_left_words(alloc, out, after_first, left_out(events))?;
    push_all(alloc, out, column, last_shown(events))?;
    out.push_str("\n")
}
