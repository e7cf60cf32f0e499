//! What a difference between what was received and what was due may come from, and a recovery that was asked for where
//! it does not fit.
ghost use Rattle.std.specs.Prelude.{◌≡◌, ℕ, IfOk, List, map, slice_get};
ghost use Rattle.aud_maker.specs.Made.{IsMade};
ghost use Rattle.aud_causes.specs.Differences.{asked_past, case_of, causes_by, difference_causes, doubled_causes, extra_in, lost_in, offset_of_another, other_session_before, swapped_causes};
ghost use Rattle.std.specs.Option.{option_copied};
ghost use Rattle.aud_causes.specs.Windows.{by_misfit, offset_in, window_causes};

use crate::bodies::body_twice;
use crate::cause::Cause;
use crate::changed::{Session, leave_missing, rooms_at_break};
use crate::extra::{
    before_birth, change_missing, extra_live, late_leave, log_ended_early, sent_after_end,
};
use crate::facts::{
    Facts, facts_of, is_in_replay, is_live, is_taken_live, node_behind, recovery_not_recorded,
    replay_includes_offset, sent_again, skipped_in_window, stale_offset,
};
use crate::list::{held, push_some};
use crate::recorded::is_named;
use aud_cert::Turn;
use aud_check::{BadWindow, Difference, Misfit};
use aud_client::{Recording, Stay};
use aud_node::Logs;
use aud_session_facts::{Account, asked_after, positions_received, why_not_due};
use aud_tap::Text;
use std::alloc::{AllocError, Global};

/// The causes of the difference, of those that a difference of its kind can have. The account is the session's, and
/// these are the numbers of its stays in its client's tap.
pub(crate) fn difference_causes(
    alloc: Global,
    recording: &Recording<'_>,
    account: &Account<'_, '_>,
    numbers: &[usize],
    difference: Difference,
) -> Result<Vec<Cause>, AllocError>
    requires { IsMade recording.now account.now.cert.pid account.now.cert }
    ensures { IfOk result (λ found.
        (made : IsMade recording.now account.now.cert.pid account.now.cert)
        → found.items
        ≡ difference_causes (case_of recording.now account.now numbers.now made) difference) }
{
    let logs = recording.logs();
    let turns = account.cert.turns.as_slice();
    let stays = account.stays.as_slice();
    let facts = facts_of(logs.stream(), turns, stays, difference);
    let unrecorded = recovery_not_recorded(alloc, turns, stays, facts)?;
    let mut found = causes_by(alloc, recording, account, numbers, difference, facts)?;
    push_some(&mut found, unrecorded)?;
    Ok(found)
}

/// Those that a difference of its kind alone can have, where these are its facts.
fn causes_by(
    alloc: Global,
    recording: &Recording<'_>,
    account: &Account<'_, '_>,
    numbers: &[usize],
    difference: Difference,
    facts: Facts,
) -> Result<Vec<Cause>, AllocError>
    requires { IsMade recording.now account.now.cert.pid account.now.cert }
    ensures { IfOk result (λ found.
        (made : IsMade recording.now account.now.cert.pid account.now.cert)
        → found.items
        ≡ causes_by (case_of recording.now account.now numbers.now made) difference facts) }
{
    let logs = recording.logs();
    let turns = account.cert.turns.as_slice();
    match difference {
        Difference::Extra { position, .. } => extra_of(alloc, recording, account, facts, position),
        Difference::Doubled { .. } => {
            let body = body_twice(recording, account.client, numbers, facts);
            let stays = account.stays.as_slice();
            doubled_causes(alloc, logs, turns, stays, body, facts)
        }
        Difference::Swapped { .. } => swapped_causes(alloc, logs, turns, facts),
        Difference::Lost { .. } => lost_of(alloc, recording, account, facts),
    }
}

/// Those of an entry that came twice, where this holds of a body of polling.
fn doubled_causes(
    alloc: Global,
    logs: &Logs<'_>,
    turns: &[Turn<'_>],
    stays: &[&Stay<'_>],
    body: Option<Cause>,
    facts: Facts,
) -> Result<Vec<Cause>, AllocError>
    ensures { IfOk result (λ found. found.items
        ≡ doubled_causes logs.now turns.now (map (λ stay. stay.now) stays.now) body facts) }
{
    let (first, again) = (facts.parted.first, facts.parted.again);
    held(
        alloc,
        &[
            node_behind(logs, turns, facts),
            sent_again(stays, facts),
            replay_includes_offset(stays, facts),
            stale_offset(facts),
            body,
            is_in_replay(facts).then_some(Cause::DoubledInReplay { first, again }),
            is_live(facts).then_some(Cause::DoubledLive { first, again }),
        ],
    )
}

/// Those of an entry that came late.
fn swapped_causes(
    alloc: Global,
    logs: &Logs<'_>,
    turns: &[Turn<'_>],
    facts: Facts,
) -> Result<Vec<Cause>, AllocError>
    ensures { IfOk result (λ found. found.items ≡ swapped_causes logs.now turns.now facts) }
{
    let (first, again) = (facts.parted.first, facts.parted.again);
    held(
        alloc,
        &[
            node_behind(logs, turns, facts),
            is_in_replay(facts).then_some(Cause::SwappedInReplay { first, again }),
            is_live(facts).then_some(Cause::SwappedLive { first, again }),
        ],
    )
}

/// Those of an entry that was lost. The account is the session's.
fn lost_of(
    alloc: Global,
    recording: &Recording<'_>,
    account: &Account<'_, '_>,
    facts: Facts,
) -> Result<Vec<Cause>, AllocError>
    requires { IsMade recording.now account.now.cert.pid account.now.cert }
    ensures { IfOk result (λ found.
        (made : IsMade recording.now account.now.cert.pid account.now.cert)
        → (numbers : List ℕ)
        → found.items ≡ lost_in (case_of recording.now account.now numbers made) facts) }
{
    let stays = account.stays.as_slice();
    let at_break = rooms_at_break(alloc, recording, &account.cert, stays, facts)?;
    let came = positions_received(alloc, stays)?;
    let session = Session {
        logs: recording.logs(),
        pid: account.cert.pid.as_str(),
        turns: account.cert.turns.as_slice(),
        spans: account.cert.spans.as_slice(),
        came: came.as_slice(),
    };
    let leave = leave_missing(alloc, session, facts)?;
    let frame = facts.parted.again;
    held(
        alloc,
        &[
            at_break,
            skipped_in_window(facts),
            asked_past(account.due.as_slice(), facts),
            is_taken_live(facts).then_some(Cause::LostLive(frame)),
            leave,
        ],
    )
}

/// Those of an entry that was not due. The account is the session's.
fn extra_of(
    alloc: Global,
    recording: &Recording<'_>,
    account: &Account<'_, '_>,
    facts: Facts,
    position: u64,
) -> Result<Vec<Cause>, AllocError>
    requires { IsMade recording.now account.now.cert.pid account.now.cert }
    ensures { IfOk result (λ found.
        (made : IsMade recording.now account.now.cert.pid account.now.cert)
        → (numbers : List ℕ)
        → found.items
        ≡ extra_in (case_of recording.now account.now numbers made) facts position) }
{
    let stays = account.stays.as_slice();
    let at_break = rooms_at_break(alloc, recording, &account.cert, stays, facts)?;
    let logs = recording.logs();
    let why = why_not_due(logs, &account.cert, position);
    let pid = account.cert.pid.as_str();
    let turns = account.cert.turns.as_slice();
    let came = positions_received(alloc, stays)?;
    let session = Session {
        logs,
        pid,
        turns,
        spans: account.cert.spans.as_slice(),
        came: came.as_slice(),
    };
    let missing = change_missing(alloc, session, &why, facts)?;
    let behind = node_behind(logs, turns, facts);
    let left = late_leave(logs, pid, turns, facts.parted.position, &why);
    held(
        alloc,
        &[
            behind,
            at_break,
            other_session_before(account.due.as_slice(), facts),
            log_ended_early(logs, pid, turns, &why),
            sent_after_end(logs, pid, turns, &why, facts),
            left,
            before_birth(logs, turns, &why),
            extra_live(behind.or(left), &why, facts),
            missing,
        ],
    )
}

/// Where the client asked in the later stay to go on after an entry that was not due to the session, and stands before
/// the one in question.
fn other_session_before(due: &[u64], facts: Facts) -> Option<Cause>
    ensures { result ≡ other_session_before due.now facts }
{
    if facts.parted.position <= facts.asked? {
        return None;
    }
    offset_of_another(due, facts.later, facts.asked)
}

/// Where the client asked in the later stay to go on after the entry in question, or one after it: whether that was due to
/// the session, or wasn't.
fn asked_past(due: &[u64], facts: Facts) -> Option<Cause>
    ensures { result ≡ asked_past due.now facts }
{
    let stay = facts.later;
    let after = facts.asked?;
    if after < facts.parted.position {
        return None;
    }
    if due.contains(&after) {
        return Some(Cause::FrameNotRecorded { stay, after });
    }
    Some(Cause::OffsetOfAnotherSession { stay, after })
}

/// Where the entry after which the client asked to go on, if it did, was not due to the session.
pub(crate) fn offset_of_another(due: &[u64], stay: usize, asked: Option<u64>) -> Option<Cause>
    ensures { result ≡ offset_of_another due.now stay asked }
{
    let after = asked?;
    if due.contains(&after) {
        return None;
    }
    Some(Cause::OffsetOfAnotherSession { stay, after })
}

/// The causes of a recovery that was asked for where it doesn't fit, where these are the session's stays, and these
/// positions were due to it.
pub(crate) fn window_causes(
    alloc: Global,
    logs: &Logs<'_>,
    stays: &[&Stay<'_>],
    due: &[u64],
    window: BadWindow,
) -> Result<Vec<Cause>, AllocError>
    ensures { IfOk result (λ found. found.items
        ≡ window_causes logs.now (map (λ stay. stay.now) stays.now) due.now window) }
{
    let asked = asked_after(logs.stream(), stays, window.stay);
    let off = offset_in(stays, window.stay);
    held(
        alloc,
        &[
            by_misfit(logs, window, off, asked),
            offset_of_another(due, window.stay, asked),
        ],
    )
}

/// The offset with which the client asked in the stay with this number.
fn offset_in<'s>(stays: &[&'s Stay<'_>], number: usize) -> Option<&'s Text>
    ensures { option_copied result ≡ offset_in
        (slice_get (map (λ stay. stay.now) stays.now) number) }
{
    let stay = stays.get(number).copied()?;
    stay.asked.as_ref()?.offset.as_ref()
}

/// What the misfit itself says, where the client asked with this offset to go on after this position.
fn by_misfit(
    logs: &Logs<'_>,
    window: BadWindow,
    off: Option<&Text>,
    asked: Option<u64>,
) -> Option<Cause>
    ensures { result ≡ by_misfit logs.now window (option_copied off.entry) asked }
{
    let stay = window.stay;
    match window.why {
        Misfit::NoOffset => Some(Cause::NoOffset(stay)),
        Misfit::Unknown => match off {
            Some(off) if is_named(logs, off.as_str()) => None,
            _ => Some(Cause::UnknownOffset(stay)),
        },
        Misfit::Behind { .. } => Some(Cause::StaleOffset {
            stay,
            after: asked?,
        }),
        Misfit::NotBehind { .. } => None,
    }
}
