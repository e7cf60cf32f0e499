//! What the refusal of a recovery may come from.
ghost use Rattle.std.specs.Prelude.{◌≡◌, ◌∷◌, [], IfOk, None, Some, map, true};
ghost use Rattle.aud_session_facts.specs.Recoveries.{stays_at};
ghost use Rattle.aud_rows.specs.ClientPlaces.{AreOf};
ghost use Rattle.aud_causes.specs.Found.{cause_seen, shown_causes};
ghost use Rattle.aud_causes.specs.Refusals.{asked_causes, asked_too_early, first_open, got_of, last_break, never_broken, node_ended, offset_cause, refusal_causes, session_over, stay_causes, count_asks, is_taken_back, marks_before};
ghost use Rattle.std.specs.List.{list_any};
ghost use Rattle.aud_client.specs.Received.{stay_names_pid};

use crate::cause::Cause;
use crate::found::{CauseFound, shown_causes};
use crate::list::held;
use crate::recorded::is_named;
use crate::turns::{is_broken, is_ended, last_begin, last_turn};
use aud_client::{Asked, Recording, Stay};
use aud_node::Logs;
use aud_rows::{ClientPlaces, Sheet};
use aud_session_facts::{Mark, RecordPlace, Recovery, TurnMark, turn_marks};
use std::alloc::{AllocError, Global};

/// What the refusal of this recovery may come from: of the causes that it can have those that hold, in a fixed order.
/// One is certain exactly where it is the only one. `tap` is that of the client. It costs the records that begin and end
/// the turns of two sessions: of the one that was asked for, and of the one that the client got; and the stays of the
/// client's tap; where the stream doesn't have the offset that was asked with, the records of the nodes' logs that are out
/// of order.
pub fn causes_of_refusal<'r>(
    alloc: Global,
    sheet: &Sheet<'r, '_>,
    tap: &ClientPlaces,
    recovery: &Recovery,
) -> Result<Vec<CauseFound>, AllocError>
    requires { AreOf sheet.now.recording.now tap.now }
    ensures { IfOk result (λ causes. map cause_seen causes.items
        ≡ shown_causes sheet.now.recording.now sheet.now.lines.now (Some tap.now.place)
        (recovery.now.stay ∷ []) true (refusal_causes sheet.now.recording.now
        (stays_at sheet.now.recording.now recovery.now.client) recovery.now.stay)) }
{
    let found = refusal_causes(alloc, sheet.recording, recovery)?;
    let numbers = [recovery.stay];
    shown_causes(alloc, sheet, Some(tap), &numbers, true, found.as_slice())
}

/// The causes that hold.
fn refusal_causes(
    alloc: Global,
    recording: &Recording<'_>,
    recovery: &Recovery,
) -> Result<Vec<Cause>, AllocError>
    ensures { IfOk result (λ found. found.items ≡ refusal_causes recording.now
        (stays_at recording.now recovery.now.client) recovery.now.stay) }
{
    let Some(client) = recording.client(recovery.client) else {
        return Ok(Vec::new(alloc));
    };
    let stays = client.transcript().stays.as_slice();
    let number = recovery.stay;
    match stays.get(number) {
        Some(stay) => stay_causes(alloc, recording.logs(), stays, number, stay),
        None => Ok(Vec::new(alloc)),
    }
}

/// The causes for the stay with this number, in which it was refused.
fn stay_causes(
    alloc: Global,
    logs: &Logs<'_>,
    stays: &[Stay<'_>],
    number: usize,
    stay: &Stay<'_>,
) -> Result<Vec<Cause>, AllocError>
    ensures { IfOk result (λ found. found.items
        ≡ stay_causes logs.now stays.now number (Some stay.now)) }
{
    match &stay.asked {
        Some(asked) => asked_causes(alloc, logs, stays, number, asked, got_of(stay)),
        None => Ok(Vec::new(alloc)),
    }
}

/// The session that the client got; the empty text where it got none.
fn got_of<'s>(stay: &'s Stay<'_>) -> &'s str
    ensures { result.now ≡ got_of stay.now.reply }
{
    match &stay.reply {
        Some(reply) => match &reply.pid {
            Some(pid) => pid.as_str(),
            None => "",
        },
        None => "",
    }
}

/// The causes where the client asked for this in the stay with this number, and got this session: by the records that begin
/// and end the turns of the session that it asked for, before it did so.
fn asked_causes(
    alloc: Global,
    logs: &Logs<'_>,
    stays: &[Stay<'_>],
    number: usize,
    asked: &Asked,
    got: &str,
) -> Result<Vec<Cause>, AllocError>
    ensures { IfOk result (λ found. found.items
        ≡ asked_causes logs.now stays.now number asked.now got.now) }
{
    let pid = asked.pid.as_str();
    let marks = turn_marks(alloc, logs, pid)?;
    let opening = turn_marks(alloc, logs, got)?;
    let before = marks_before(&marks, stays, number, pid);
    held(
        alloc,
        &[
            offset_cause(logs, asked),
            session_over(before),
            node_ended(logs, before),
            never_broken(before),
            asked_too_early(logs, &marks, &opening),
        ],
    )
}

/// Where the client gave no offset, or one that neither the stream nor a node's log has.
fn offset_cause(logs: &Logs<'_>, asked: &Asked) -> Option<Cause>
    ensures { result ≡ offset_cause logs.now asked.now.offset }
{
    let Some(off) = &asked.offset else {
        return Some(Cause::NoOffset(0));
    };
    let off = off.as_str();
    if logs.stream().position(off).is_some() || is_named(logs, off) {
        return None;
    }
    Some(Cause::UnknownOffset(0))
}

/// Where a node recorded the session's end.
fn session_over(marks: &[TurnMark]) -> Option<Cause>
    ensures { result ≡ session_over marks.now }
{
    let mark = marks.iter().find(|mark| matches!(mark.mark, Mark::Gone))?;
    Some(Cause::SessionOver(mark.place))
}

/// Where the log of the node on which the session's last turn began ends in that turn.
fn node_ended(logs: &Logs<'_>, marks: &[TurnMark]) -> Option<Cause>
    ensures { result ≡ node_ended logs.now marks.now }
{
    let begin = last_begin(marks)?;
    if is_ended(marks, begin) {
        return None;
    }
    let log = logs.node(begin.node)?;
    let last = RecordPlace {
        node: begin.node,
        number: log.recs().len().saturating_sub(1),
    };
    Some(Cause::NodeEndedInTurn(last))
}

/// Where no node recorded a break of the session's last turn, nor its end.
fn never_broken(marks: &[TurnMark]) -> Option<Cause>
    ensures { result ≡ never_broken marks.now }
{
    if is_broken(marks, last_turn(marks)) || session_over(marks).is_some() {
        return None;
    }
    Some(Cause::NeverBroken(last_begin(marks)?))
}

/// The record that opened the session.
fn first_open(marks: &[TurnMark]) -> Option<RecordPlace>
    ensures { result ≡ first_open marks.now }
{
    let mark = marks.iter().find(|mark| matches!(mark.mark, Mark::Open))?;
    Some(mark.place)
}

/// The break of the last turn that has one.
fn last_break(marks: &[TurnMark]) -> Option<RecordPlace>
    ensures { result ≡ last_break 0 None marks.now }
{
    let mut last = None;
    let mut turn = 0;
    for mark in marks {
        if let Mark::Break { turn: broken } = mark.mark {
            if turn <= broken {
                turn = broken;
                last = Some(mark.place);
            }
        }
    }
    last
}

/// Where the session broke with its node's cursor past the one with which the session was opened that the client got.
fn asked_too_early(logs: &Logs<'_>, marks: &[TurnMark], opening: &[TurnMark]) -> Option<Cause>
    ensures { result ≡ asked_too_early logs.now marks.now opening.now }
{
    let broke = last_break(marks)?;
    let begin = first_open(opening)?;
    let high = logs.node(broke.node)?.cursor_after(broke.number)?;
    let low = logs.node(begin.node)?.cursor_after(begin.number)?;
    if high <= low {
        return None;
    }
    Some(Cause::AskedTooEarly {
        broke,
        begin,
        high,
        low,
    })
}

/// These records, which begin and end the session's turns; none where it was taken back in the stay with this number of
/// its client's tap, or later: then its last turn tells nothing of why a recovery was refused there.
pub(crate) fn marks_before<'m>(
    marks: &'m [TurnMark],
    stays: &[Stay<'_>],
    number: usize,
    pid: &str,
) -> &'m [TurnMark]
    ensures { result.now ≡ marks_before marks.now stays.now number pid.now }
{
    if is_taken_back(marks, stays, number, pid) {
        return &[];
    }
    marks
}

/// Whether it was: a recovery begins one turn, and the session has more turns after its first than recoveries were asked
/// for before that stay; or the client got it back.
fn is_taken_back(marks: &[TurnMark], stays: &[Stay<'_>], number: usize, pid: &str) -> bool
    ensures { result ≡ is_taken_back marks.now stays.now number pid.now }
{
    let (before, since) = stays.split_at(number.min(stays.len()));
    if count_asks(before, pid) < last_turn(marks) {
        return true;
    }
    is_named_by(since, pid)
}

/// How often the client asks for the session in these stays.
fn count_asks(stays: &[Stay<'_>], pid: &str) -> usize
    ensures { result ≡ count_asks pid.now stays.now }
{
    let mut count = 0;
    for stay in stays {
        if let Some(asked) = &stay.asked {
            if asked.pid.as_str() == pid {
                count += 1;
            }
        }
    }
    count
}

/// Whether the reply of one of these names the session.
fn is_named_by(stays: &[Stay<'_>], pid: &str) -> bool
    ensures { result ≡ list_any (stay_names_pid pid.now) stays.now }
{
    stays.iter().any(|stay| stay.names(pid))
}
