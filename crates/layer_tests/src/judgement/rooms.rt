//! The rooms of a session: whom entries are addressed to, turns, spans, and what is due by these.
ghost use Rattle.std.specs.Prelude.{IfSome};
ghost use Rattle.aud_rooms.specs.TurnPlaces.{IsInOrder};

use crate::judgement::asked::cut;
use crate::judgement::logs::log_named;
use crate::told::Told;
use aud_node::{Logs, Recs, Stream};
use aud_rooms::{RoomSet, Span, SpanBuilder, TurnPlace, addressed, due_of, spans_of_turns};
use std::alloc::{AllocError, Global};

/// A turn of `P` on the node with this name, which took the stream in order.
fn turn(logs: &Logs<'_>, name: &str, number: u16) -> Option<TurnPlace>
    ensures { IfSome result (λ turn. IsInOrder logs.now turn) }
{
    let Some(node) = logs.place_of(name) else {
        return None;
    };
    let Some(log) = logs.node(node) else {
        return None;
    };
    if !log.ordered() {
        return None;
    }
    let Some(range) = log.turn_range("P", number) else {
        return None;
    };
    Some(TurnPlace {
        node,
        from: range.start,
        to: range.end,
    })
}

/// The place of the turn's node, its records, its first and last cursor, and the numbers of the records of the
/// session `P`, and how many records it has after its first.
fn tell_turn(logs: &Logs<'_>, turn: &TurnPlace, number: u16, out: &mut Told)
    requires { IsInOrder logs.now turn.now }
{
    out.debug(&turn.node);
    out.debug(&(turn.from, turn.to));
    out.text(", cursors");
    out.debug(&turn.low(logs));
    out.debug(&turn.high(logs));
    out.text(", own");
    out.debug(&turn.own(logs, "P"));
    if let Some(log) = logs.node(turn.node) {
        if let Some(recs) = log.turn_of("P", number) {
            out.debug(&recs.between(1, recs.len()).len());
        }
    }
    out.text("\n");
}

/// Turn 0 on node `a` and turn 1 on node `b`, the spans by these, and what is due by the spans.
pub fn tell_turns(logs: &Logs<'_>, alloc: Global, out: &mut Told) {
    let (Some(first), Some(second)) = (turn(logs, "a", 0), turn(logs, "b", 1)) else {
        return out.text("none");
    };
    tell_turn(logs, &first, 0, out);
    tell_turn(logs, &second, 1, out);
    let Ok(spans) = spans_of_turns(alloc, logs, "P", "s1", &[first, second]) else {
        return out.fail();
    };
    tell_spans(&spans, out);
    out.text("due");
    match due_of(
        alloc,
        &spans,
        logs.stream(),
        "/",
        first.low(logs),
        second.high(logs),
    ) {
        Ok(due) => out.debug(&due.as_slice()),
        Err(_) => out.fail(),
    }
}

/// Each room with its first and last position.
fn tell_spans(spans: &[Span<'_>], out: &mut Told) {
    for span in spans {
        out.text(span.room.as_str());
        out.debug(&(span.first, span.last));
        out.text(" ");
    }
}

/// The spans of the session `P` by the records of this node, each of which stands at the position of its number.
pub fn tell_walked(logs: &Logs<'_>, alloc: Global, name: &str, out: &mut Told) {
    let Some(log) = log_named(logs, name) else {
        return out.text("no node");
    };
    match walked(alloc, log.recs()) {
        Ok(spans) => tell_spans(&spans, out),
        Err(_) => out.fail(),
    }
}

/// After the records the session is in the room `z` for one position, and then goes on for one.
fn walked<'a>(alloc: Global, recs: Recs<'a>) -> Result<Vec<Span<'a>>, AllocError> {
    let count = recs.len() as u64;
    let mut builder = SpanBuilder::new(alloc, "s1", 0)?;
    for number in 0..recs.len() {
        builder.upto(number as u64)?;
        if let Some(rec) = recs.get(number) {
            builder.follow("P", rec)?;
        }
    }
    builder.upto(count)?;
    builder.join("z")?;
    builder.upto(count.saturating_add(1))?;
    builder.leave("z")?;
    builder.upto(count.saturating_add(2))?;
    builder.finish()
}

/// Whether `r` is held, and the positions of the entries for a session in this namespace, after it joined `s1` and
/// `r` and left this room.
pub fn tell_addressed(stream: &Stream<'_>, alloc: Global, of: &str, out: &mut Told) {
    let (nsp, left) = cut(of);
    let mut rooms = RoomSet::new(alloc);
    if rooms.join("s1").is_err() || rooms.join("r").is_err() {
        out.fail();
    }
    rooms.leave(left);
    out.debug(&rooms.contains("r"));
    out.text(":");
    for position in 1..4 {
        if let Some(entry) = stream.entry(position) {
            if addressed(entry, nsp, &rooms) {
                out.debug(&position);
            }
        }
    }
}
