//! The rooms that a session held at the end of its turns, as spans.
ghost use Rattle.std.specs.Prelude.{◌≡◌, IfOk, OnOk, map, option_map};
ghost use Rattle.aud_cert.specs.Certificate.{turn_at};
ghost use Rattle.aud_rooms.specs.Assigned.{AreSpansOf, covered_upto, starting};
ghost use Rattle.aud_session_facts.specs.Held.{walked_record, walked_turn, walked_turns};

use aud_cert::{Turn, turn_place};
use aud_node::Logs;
use aud_rooms::{Span, SpanBuilder, TurnPlace};
use std::alloc::{AllocError, Global};

/// The spans, past `after` up to `high`, of the rooms that the session with this pid and sid held after all of these
/// turns. It looks at the session's own records alone; rooms are borrowed from the logs.
pub fn spans_held<'a>(
    alloc: Global,
    logs: &Logs<'a>,
    pid: &str,
    sid: &'a str,
    turns: &[Turn<'_>],
    after: u64,
    high: u64,
) -> Result<Vec<Span<'a>>, AllocError>
    ensures { IfOk result (λ spans. AreSpansOf
        (covered_upto high
        (walked_turns logs.now pid.now (map (turn_at logs.now) turns.now)
        (starting sid.now after))) spans.items) }
{
    let mut builder = SpanBuilder::new(alloc, sid, after)?;
    for turn in turns {
        walk_turn(&mut builder, logs, pid, &turn_place(logs, turn))?;
    }
    builder.upto(high)?;
    builder.finish()
}

fn walk_turn<'a>(
    builder: &mut SpanBuilder<'a>,
    logs: &Logs<'a>,
    pid: &str,
    turn: &TurnPlace,
) -> Result<(), AllocError>
    ensures { OnOk result (builder.new
        ≡ option_map (walked_turn logs.now pid.now turn.now) builder.old) }
{
    for number in turn.own(logs, pid) {
        walk_record(builder, logs, turn.node, pid, *number)?;
    }
    Ok(())
}

fn walk_record<'a>(
    builder: &mut SpanBuilder<'a>,
    logs: &Logs<'a>,
    node: usize,
    pid: &str,
    number: usize,
) -> Result<(), AllocError>
    ensures { OnOk result (builder.new
        ≡ option_map (walked_record logs.now node pid.now number) builder.old) }
{
    let Some(log) = logs.node(node) else {
        return Ok(());
    };
    match log.recs().get(number) {
        Some(rec) => builder.follow(pid, rec),
        None => Ok(()),
    }
}
