//! The spans of the turns of a session.
ghost use Rattle.std.specs.Prelude.{◌≡◌, IfOk, OnOk, map};
ghost use Rattle.std.specs.Option.{option_map};
ghost use Rattle.std.specs.List.{All};
ghost use Rattle.aud_node.specs.Stream.{Text};
ghost use Rattle.aud_rooms.specs.Turns.{slice_of};
ghost use Rattle.aud_rooms.specs.TurnPlaces.{IsWithin, IsInOrder};
ghost use Rattle.aud_rooms.specs.Spans.{AreSpansOfTurns, first_low};
ghost use Rattle.aud_rooms.specs.Private.Walk.{walked_record, walked_turn};

use crate::builder::SpanBuilder;
use crate::span::Span;
use crate::turn_place::TurnPlace;
use aud_node::Logs;
use std::alloc::{AllocError, Global};

/// The spans of the turns of the session with this pid and sid: past the first turn's low, up to the greatest high,
/// by the bytes of the room, then by the first position. Each turn stands in the log of a node that took the stream in
/// order. It looks at the session's own records alone, and at the cursors there; rooms are borrowed from the logs. The
/// one error is running out of memory.
pub fn spans_of_turns<'a>(
    alloc: Global,
    logs: &Logs<'a>,
    pid: &str,
    sid: &'a str,
    turns: &[TurnPlace],
) -> Result<Vec<Span<'a>>, AllocError>
    requires { All (IsInOrder logs.now) turns.now }
    ensures { IfOk result (λ spans. (nsp : Text)
        → AreSpansOfTurns logs.now.stream (record { pid = pid.now; sid = sid.now; nsp = nsp })
        (map (slice_of logs.now) turns.now) spans.items) }
{
    let mut builder = SpanBuilder::new(alloc, sid, lowest(logs, turns))?;
    for turn in turns {
        walk_turn(logs, &mut builder, pid, turn)?;
    }
    builder.finish()
}

/// The position that the first turn starts from.
fn lowest(logs: &Logs<'_>, turns: &[TurnPlace]) -> u64
    requires { All (IsInOrder logs.now) turns.now }
    ensures { result ≡ first_low (map (slice_of logs.now) turns.now) }
{
    match turns.first() {
        Some(turn) => turn.low(logs),
        None => 0,
    }
}

fn walk_turn<'a>(
    logs: &Logs<'a>,
    builder: &mut SpanBuilder<'a>,
    pid: &str,
    turn: &TurnPlace,
) -> Result<(), AllocError>
    requires { IsWithin logs.now turn.now }
    ensures { OnOk result (builder.new
        ≡ option_map (walked_turn logs.now pid.now turn.now) builder.old) }
{
    builder.upto(turn.low(logs))?;
    for number in turn.own(logs, pid) {
        walk_record(logs, builder, turn.node, pid, *number)?;
    }
    builder.upto(turn.high(logs))
}

/// The positions up to the cursor at the record take the rooms held so far; then the record changes them.
fn walk_record<'a>(
    logs: &Logs<'a>,
    builder: &mut SpanBuilder<'a>,
    node: usize,
    pid: &str,
    number: usize,
) -> Result<(), AllocError>
    ensures { OnOk result (builder.new
        ≡ option_map (walked_record logs.now node pid.now number) builder.old) }
{
    let Some(log) = logs.node(node) else {
        return Ok(());
    };
    let Some(rec) = log.recs().get(number) else {
        return Ok(());
    };
    let Some(cursor) = log.cursor_after(number) else {
        return Ok(());
    };
    builder.upto(cursor)?;
    builder.follow(pid, rec)
}
