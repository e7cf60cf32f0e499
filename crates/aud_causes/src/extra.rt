//! Why an event came that was not due.
ghost use Rattle.std.specs.Prelude.{◌≡◌, IfOk, map, option_map};
ghost use Rattle.std.specs.Option.{option_copied};
ghost use Rattle.aud_cert.specs.Certificate.{turn_at};
ghost use Rattle.aud_session_facts.specs.NotDue.{reason_of};
ghost use Rattle.aud_causes.specs.Extra.{before_birth, change_missing, extra_live, first_left, goes_on, late_leave, log_ended_early, reached_at, rooms_named, sent_after_end};

use crate::cause::Cause;
use crate::changed::{Session, fits_with, fits_with_any};
use crate::facts::{Facts, first_of, is_outside, last_of};
use aud_cert::Turn;
use aud_node::Logs;
use aud_session_facts::{NotDue, Reach, RecordPlace, first_reach, greatest_high, last_change_of};
use aud_tap::{NodeRec, StreamRec, Text};
use std::alloc::{AllocError, Global};

/// Where the session reached the entry in no turn, and the log of its last turn ends in that turn.
pub(crate) fn log_ended_early(
    logs: &Logs<'_>,
    pid: &str,
    turns: &[Turn<'_>],
    why: &Option<NotDue<'_>>,
) -> Option<Cause>
    ensures { result ≡ log_ended_early logs.now pid.now turns.now (option_map reason_of why.now) }
{
    if !matches!(why, Some(NotDue::InNoTurn)) {
        return None;
    }
    let turn = turns.get(turns.len().saturating_sub(1))?;
    if !goes_on(pid, turn) {
        return None;
    }
    Some(Cause::LogEndedEarly {
        last: last_of(logs, turn),
        high: greatest_high(turns),
    })
}

/// Whether the turn's last record is no `break` and no `gone` of the session.
pub(crate) fn goes_on(pid: &str, turn: &Turn<'_>) -> bool
    ensures { result ≡ goes_on pid.now turn.now }
{
    let recs = &turn.recs;
    match recs.get(recs.len().saturating_sub(1)) {
        Some(NodeRec::Broke { pid: other, .. }) => other.as_str() != pid,
        Some(NodeRec::Gone { pid: other }) => other.as_str() != pid,
        _ => true,
    }
}

/// Where the session reached the entry in no turn, and the log of the turn in which the event came has its end.
pub(crate) fn sent_after_end(
    logs: &Logs<'_>,
    pid: &str,
    turns: &[Turn<'_>],
    why: &Option<NotDue<'_>>,
    facts: Facts,
) -> Option<Cause>
    ensures { result
        ≡ sent_after_end logs.now pid.now turns.now (option_map reason_of why.now) facts }
{
    if !facts.matched || !matches!(why, Some(NotDue::InNoTurn)) {
        return None;
    }
    let turn = turns.get(facts.later)?;
    if goes_on(pid, turn) {
        return None;
    }
    Some(Cause::SentAfterEnd {
        end: last_of(logs, turn),
        high: turn.high,
    })
}

/// Where the node had taken the entry when it opened the session.
pub(crate) fn before_birth(
    logs: &Logs<'_>,
    turns: &[Turn<'_>],
    why: &Option<NotDue<'_>>,
) -> Option<Cause>
    ensures { result ≡ before_birth logs.now turns.now (option_map reason_of why.now) }
{
    if !matches!(why, Some(NotDue::BeforeBirth)) {
        return None;
    }
    let turn = turns.get(0)?;
    Some(Cause::BeforeBirth {
        begin: first_of(logs, turn),
        low: turn.low,
    })
}

/// The last record, before the reach, by which the session changed the first of these rooms that it had left there.
pub(crate) fn first_left(
    logs: &Logs<'_>,
    pid: &str,
    turns: &[Turn<'_>],
    reach: Reach,
    rooms: &[Text],
) -> Option<RecordPlace>
    ensures { result ≡ first_left logs.now pid.now
        (map (turn_at logs.now) turns.now) reach rooms.now }
{
    for room in rooms {
        if let Some(change) = last_change_of(logs, pid, turns, reach, room.as_str()) {
            if !change.joined {
                return Some(RecordPlace {
                    node: change.node,
                    number: change.number,
                });
            }
        }
    }
    None
}

/// The rooms that the entry is for, if it is an event.
pub(crate) fn rooms_named(entry: Option<&StreamRec>) -> &[Text]
    ensures { result.now ≡ rooms_named (option_copied entry.entry) }
{
    match entry {
        Some(StreamRec::Ev(event)) => event.rooms.as_slice(),
        _ => &[],
    }
}

/// Where the session held none of the entry's rooms when it reached the entry, and had left one of them.
pub(crate) fn late_leave(
    logs: &Logs<'_>,
    pid: &str,
    turns: &[Turn<'_>],
    position: u64,
    why: &Option<NotDue<'_>>,
) -> Option<Cause>
    ensures { result ≡ late_leave logs.now pid.now (map (turn_at logs.now) turns.now) position
        (option_map reason_of why.now) }
{
    if !matches!(why, Some(NotDue::NoCommonRoom)) {
        return None;
    }
    let reach = reached_at(logs, turns, position)?;
    let rooms = rooms_named(logs.stream().entry(position));
    Some(Cause::LateLeave(first_left(logs, pid, turns, reach, rooms)?))
}

/// Where the session first reached the position.
fn reached_at(logs: &Logs<'_>, turns: &[Turn<'_>], position: u64) -> Option<Reach>
    ensures { result ≡ reached_at logs.now (map (turn_at logs.now) turns.now) position }
{
    first_reach(logs, turns, position)
}

/// Where the entry was not addressed to the session when the session reached it, and came in no replay; none where
/// there is a cause that tells how that came to be.
pub(crate) fn extra_live(
    told: Option<Cause>,
    why: &Option<NotDue<'_>>,
    facts: Facts,
) -> Option<Cause>
    ensures { result ≡ extra_live told (option_map reason_of why.now) facts }
{
    if told.is_some() || !is_outside(facts) {
        return None;
    }
    match why {
        Some(NotDue::OtherNamespace | NotDue::NoCommonRoom | NotDue::Excepted { .. }) => {
            Some(Cause::ExtraLive(facts.parted.again))
        }
        _ => None,
    }
}

/// Where the entry came in no replay, and what came from it on is what was due if the session had joined one of its rooms
/// before, or had left the one that it excepts.
pub(crate) fn change_missing(
    alloc: Global,
    session: Session<'_, '_>,
    why: &Option<NotDue<'_>>,
    facts: Facts,
) -> Result<Option<Cause>, AllocError>
    ensures { IfOk result (λ cause. cause ≡ change_missing session.entry.logs.now
        session.entry.pid.now session.entry.turns.now session.entry.spans.now
        session.entry.came.now (option_map reason_of why.now) facts) }
{
    let position = facts.parted.position;
    let frame = facts.parted.again;
    match why {
        Some(NotDue::NoCommonRoom) if is_outside(facts) => {
            let rooms = rooms_named(session.logs.stream().entry(position));
            let fits = fits_with_any(alloc, session, true, position, rooms)?;
            Ok(fits.then_some(Cause::JoinMissing(frame)))
        }
        Some(NotDue::Excepted { room }) if is_outside(facts) => {
            let fits = fits_with(alloc, session, false, position, *room)?;
            Ok(fits.then_some(Cause::LeaveMissing(frame)))
        }
        _ => Ok(None),
    }
}
