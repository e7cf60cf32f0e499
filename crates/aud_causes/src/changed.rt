//! What came, against what is due where the rooms were others: those held at the break, or those of a change that no log
//! has.
ghost use Rattle.std.specs.Prelude.{◌≡◌, IfOk, map, nat_eq, slice_get};
ghost use Rattle.aud_session_facts.specs.Opened.{opened_in};
ghost use Rattle.aud_causes.specs.Leavable.{are_leavable, leave_missing, own_room};
ghost use Rattle.aud_causes.specs.Changed.{fits_with, fits_with_any, namespace_in, spans_with, stretch_of, change_past, next_change, next_change_at};
ghost use Rattle.std.specs.Cmp.Lexicographic.{pointwise};
ghost use Rattle.aud_maker.specs.Made.{IsMade};
ghost use Rattle.aud_causes.specs.AtBreak.{came_within, due_at_break, rooms_at_break};

use crate::cause::Cause;
use crate::extra::rooms_named;
use crate::facts::{Facts, Replay, is_replayed, is_taken_live};
use crate::list::front_of;
use aud_cert::{Certificate, Turn, turn_place};
use aud_client::{Recording, Stay};
use aud_maker::made_is_over;
use aud_node::Logs;
use aud_rooms::{Span, due_of};
use aud_session_facts::{opened_in, spans_held};
use aud_tap::{NodeRec, Text};
use std::alloc::{AllocError, Global};
use std::borrow::CowStr;

/// Positions from the first to the last.
#[derive(Clone, Copy, Drop)]
pub struct Stretch {
    pub first: u64,
    pub last: u64,
}

/// A session, lent: its turns in these logs, the spans of its rooms, and the positions of all that came.
#[derive(Clone, Copy, Drop)]
pub(crate) struct Session<'s, 'a> {
    pub logs: &'s Logs<'a>,
    pub pid: &'s str,
    pub turns: &'s [Turn<'a>],
    pub spans: &'s [Span<'a>],
    pub came: &'s [u64],
}

/// Whether it is so of one of these rooms that what came is what was due, where the session joined it, or left it, just
/// before it reached the position, and no log has that. It costs for each room the session's own records, and what is due
/// from the position on.
pub(crate) fn fits_with_any(
    alloc: Global,
    session: Session<'_, '_>,
    joined: bool,
    position: u64,
    rooms: &[Text],
) -> Result<bool, AllocError>
    ensures { IfOk result (λ fits. fits ≡ fits_with_any session.entry.logs.now session.entry.pid.now
        session.entry.turns.now session.entry.spans.now session.entry.came.now joined position
        rooms.now) }
{
    for room in rooms {
        if fits_with(alloc, session, joined, position, room.as_str())? {
            return Ok(true);
        }
    }
    Ok(false)
}

/// The same of this room.
pub(crate) fn fits_with(
    alloc: Global,
    session: Session<'_, '_>,
    joined: bool,
    position: u64,
    room: &str,
) -> Result<bool, AllocError>
    ensures { IfOk result (λ fits. fits ≡ fits_with session.entry.logs.now session.entry.pid.now
        session.entry.turns.now session.entry.spans.now session.entry.came.now joined position
        room.now) }
{
    let stretch = stretch_of(session, room, position);
    let changed = spans_with(alloc, session.spans, room, joined, stretch)?;
    let came = session.came;
    let within: Vec<u64> = came
        .iter()
        .copied()
        .filter(|position| stretch.first <= *position && *position <= stretch.last)
        .collect(alloc)?;
    let after = stretch.first.saturating_sub(1);
    let (_, nsp) = opened_names(session.turns);
    let due = due_of(
        alloc,
        &changed,
        session.logs.stream(),
        nsp,
        after,
        stretch.last,
    )?;
    Ok(are_same(within.as_slice(), due.as_slice()))
}

/// From the position on, up to the next change of the room that a log has, or to the end of what came.
fn stretch_of(session: Session<'_, '_>, room: &str, position: u64) -> Stretch
    ensures { result ≡ stretch_of session.entry.logs.now session.entry.pid.now
        session.entry.turns.now session.entry.came.now room.now position }
{
    let mut last = 0;
    for other in session.came {
        last = (*other).max(last);
    }
    if let Some(reached) = next_change(session.logs, session.pid, session.turns, room, position) {
        last = reached.min(last);
    }
    Stretch {
        first: position,
        last,
    }
}

/// The rooms' spans, where the session holds this room over the stretch, if it `joined` it, or doesn't; they borrow the
/// rooms.
fn spans_with<'s>(
    alloc: Global,
    spans: &'s [Span<'_>],
    room: &'s str,
    joined: bool,
    stretch: Stretch,
) -> Result<Vec<Span<'s>>, AllocError>
    ensures { IfOk result (λ changed. changed.items
        ≡ spans_with spans.now room.now joined stretch) }
{
    let mut changed = Vec::new(alloc);
    for span in spans {
        let name = span.room.as_str();
        if name != room {
            changed.push(Span {
                room: CowStr::Borrowed(name),
                first: span.first,
                last: span.last,
            })?;
        }
    }
    if joined {
        changed.push(Span {
            room: CowStr::Borrowed(room),
            first: stretch.first,
            last: stretch.last,
        })?;
    }
    Ok(changed)
}

/// Where the entry was left out while the client was connected, and what came from it on is what was due if the session
/// had left one of the rooms that the entry is for.
pub(crate) fn leave_missing(
    alloc: Global,
    session: Session<'_, '_>,
    facts: Facts,
) -> Result<Option<Cause>, AllocError>
    ensures { IfOk result (λ cause. cause ≡ leave_missing session.entry.logs.now
        session.entry.pid.now session.entry.turns.now session.entry.spans.now
        session.entry.came.now facts) }
{
    let position = facts.parted.position;
    let rooms = rooms_named(session.logs.stream().entry(position));
    let (own, _) = opened_names(session.turns);
    if !is_taken_live(facts) || !are_leavable(own, rooms) {
        return Ok(None);
    }
    if !fits_with_any(alloc, session, false, position, rooms)? {
        return Ok(None);
    }
    Ok(Some(Cause::LeaveMissing(facts.parted.again)))
}

/// Whether these are rooms, and none of them is the session's own.
fn are_leavable(own: &str, rooms: &[Text]) -> bool
    ensures { result ≡ are_leavable own.now rooms.now }
{
    for room in rooms {
        if own == room.as_str() {
            return false;
        }
    }
    !rooms.is_empty()
}

/// The sid and the namespace with which the session of these turns was opened; empty texts where it was not.
fn opened_names<'a>(turns: &[Turn<'a>]) -> (&'a str, &'a str)
    ensures sid { result.0.now ≡ own_room (opened_in turns.now) }
    ensures nsp { result.1.now ≡ namespace_in (opened_in turns.now) }
{
    match opened_in(turns) {
        Some(opened) => (opened.sid, opened.nsp),
        None => ("", ""),
    }
}

/// The last position that the session of these turns had reached when it next joined or left the room, from the
/// position on; none where no record says so. It costs the session's own records.
pub(crate) fn next_change(
    logs: &Logs<'_>,
    pid: &str,
    turns: &[Turn<'_>],
    room: &str,
    position: u64,
) -> Option<u64>
    ensures { result ≡ next_change logs.now pid.now turns.now room.now position }
{
    let mut next = None;
    let mut high = 0;
    for turn in turns {
        let place = turn_place(logs, turn);
        let numbers = place.own(logs, pid);
        next = next.or(next_change_at(logs, place.node, pid, room, position, high, numbers));
        high = turn.high.max(high);
    }
    next
}

/// The same by the node's records with these numbers, where the session had reached the one position in the turns before.
fn next_change_at(
    logs: &Logs<'_>,
    node: usize,
    pid: &str,
    room: &str,
    position: u64,
    high: u64,
    numbers: &[usize],
) -> Option<u64>
    ensures { result
        ≡ next_change_at logs.now node pid.now room.now position high numbers.now }
{
    let mut next = None;
    for number in numbers {
        next = next.or(change_past(logs, node, pid, room, position, high, *number));
    }
    next
}

/// The same by the node's record with this number.
fn change_past(
    logs: &Logs<'_>,
    node: usize,
    pid: &str,
    room: &str,
    position: u64,
    high: u64,
    number: usize,
) -> Option<u64>
    ensures { result ≡ change_past logs.now node pid.now room.now position high number }
{
    let log = logs.node(node)?;
    match log.recs().get(number) {
        Some(
            NodeRec::Join {
                pid: other,
                room: name,
            }
            | NodeRec::Leave {
                pid: other,
                room: name,
            },
        ) if other.as_str() == pid && name.as_str() == room => {
            let reached = log.cursor_after(number)?.max(high);
            if reached < position {
                return None;
            }
            Some(reached)
        }
        _ => None,
    }
}

/// Where the entry was to be replayed, and of all those that were exactly those came in the stay that are addressed to
/// the rooms held at the break. It costs the session's own records, and what is addressed to these rooms.
pub(crate) fn rooms_at_break(
    alloc: Global,
    recording: &Recording<'_>,
    cert: &Certificate<'_>,
    stays: &[&Stay<'_>],
    facts: Facts,
) -> Result<Option<Cause>, AllocError>
    requires { IsMade recording.now cert.now.pid cert.now }
    ensures { IfOk result (λ found. (made : IsMade recording.now cert.now.pid cert.now)
        → found ≡ rooms_at_break recording.now made.who made.turns
        (map (λ stay. stay.now) stays.now) facts) }
{
    let Some(replay) = facts.replay else {
        return Ok(None);
    };
    if !is_replayed(replay, facts.parted.position) {
        return Ok(None);
    }
    let due = due_at_break(alloc, recording, cert, facts.later, replay)?;
    let came = came_within(alloc, stays, facts.later, replay)?;
    if !are_same(came.as_slice(), due.as_slice()) {
        return Ok(None);
    }
    Ok(Some(Cause::RoomsAtBreak {
        stay: facts.later,
        after: replay.after,
        low: replay.low,
    }))
}

/// Whether exactly these came, in this order.
pub(crate) fn are_same(came: &[u64], due: &[u64]) -> bool
    ensures { result ≡ pointwise nat_eq came.now due.now }
{
    came == due
}

/// Of the entries that were to be replayed, those that are addressed to the rooms held after so many turns.
fn due_at_break(
    alloc: Global,
    recording: &Recording<'_>,
    cert: &Certificate<'_>,
    count: usize,
    replay: Replay,
) -> Result<Vec<u64>, AllocError>
    requires { IsMade recording.now cert.now.pid cert.now }
    ensures { IfOk result (λ due. (made : IsMade recording.now cert.now.pid cert.now)
        → due.items ≡ due_at_break recording.now made.who made.turns count replay) }
{
    made_is_over();
    recording.named_once();
    let logs = recording.logs();
    let turns = cert.turns.as_slice();
    let Some(opened) = opened_in(turns) else {
        unreachable!()
    };
    let pid = cert.pid.as_str();
    let before = front_of(turns, count);
    let spans = spans_held(
        alloc,
        logs,
        pid,
        opened.sid,
        before,
        replay.after,
        replay.low,
    )?;
    let due = due_of(
        alloc,
        &spans,
        logs.stream(),
        opened.nsp,
        replay.after,
        replay.low,
    )?;
    due.into_owned(alloc)
}

/// The positions of the frames in the stay with this number that were to be replayed.
fn came_within(
    alloc: Global,
    stays: &[&Stay<'_>],
    number: usize,
    replay: Replay,
) -> Result<Vec<u64>, AllocError>
    ensures { IfOk result (λ came. came.items
        ≡ came_within (slice_get (map (λ stay. stay.now) stays.now) number) replay) }
{
    let mut came = Vec::new(alloc);
    let Some(stay) = stays.get(number).copied() else {
        return Ok(came);
    };
    for frame in &stay.frames {
        if is_replayed(replay, frame.position) {
            came.push(frame.position)?;
        }
    }
    Ok(came)
}
