//! What the causes of a difference go by, and the causes that go by that alone, or by what came in its stays.
ghost use Rattle.std.specs.Prelude.{◌≡◌, map, slice_get, IfOk};
ghost use Rattle.aud_causes.specs.Facts.{earlier_stay, facts_of, is_recovery, parted_at, replay_of};
ghost use Rattle.aud_causes.specs.Delivery.{first_past, is_in_replay, is_live, is_outside, is_replayed, is_taken_live, replay_includes_offset, sent_again, skipped_in_window, stale_offset};
ghost use Rattle.aud_causes.specs.Unrecorded.{recovery_not_recorded};
ghost use Rattle.aud_causes.specs.Behind.{first_of, last_of, node_behind};

use crate::cause::Cause;
use crate::recorded::recoveries;
use aud_cert::{Turn, turn_place};
use aud_check::Difference;
use aud_client::{Frame, Stay};
use aud_node::{Logs, Stream};
use aud_session_facts::{RecordPlace, ahead_of, asked_after, stay_of_frame, stays_match};
use std::alloc::{AllocError, Global};

/// The entry at which what was received parts from what was due, and two frames: of an entry that came twice both; of
/// one that came late the one in its place, and its own; of one that was lost the one in its place; of one that was not
/// due the first of all, and its own. Frames count from 0 over all that was received of the session.
#[derive(Clone, Copy, Drop)]
pub struct Parted {
    pub position: u64,
    pub first: usize,
    pub again: usize,
}

/// The entries that a node had to send again: those after this position, up to its cursor where it took the session
/// back.
#[derive(Clone, Copy, Drop)]
pub struct Replay {
    pub after: u64,
    pub low: u64,
}

/// What the causes of a difference go by. Stays count from 0 among those whose reply names the session.
#[derive(Clone, Copy, Drop)]
pub struct Facts {
    /// The entry in question, and the two frames.
    pub parted: Parted,
    /// Whether the session's stays match its turns one by one.
    pub matched: bool,
    /// The stays in which the two frames stand; of an entry that was not due the first is the session's first.
    pub earlier: usize,
    pub later: usize,
    /// Whether the later stay is a recovery.
    pub recovered: bool,
    /// The position after which its client asked to go on, if it is one.
    pub asked: Option<u64>,
    /// What the node had to send again in it, where that is known.
    pub replay: Option<Replay>,
}

/// The facts of a difference, where these are the session's turns and stays. It costs the stays.
pub(crate) fn facts_of(
    stream: &Stream<'_>,
    turns: &[Turn<'_>],
    stays: &[&Stay<'_>],
    difference: Difference,
) -> Facts
    ensures { result ≡ facts_of stream.now turns.now (map (λ stay. stay.now) stays.now) difference }
{
    let (parted, earlier) = parted_at(stays, difference);
    let later = stay_of_frame(stays, parted.again);
    let asked = asked_after(stream, stays, later);
    let matched = stays_match(stream, turns, stays);
    Facts {
        parted,
        matched,
        earlier,
        later,
        recovered: is_recovery(stays, later),
        asked,
        replay: replay_of(matched, turns, later, asked),
    }
}

/// The entry and the frames of the difference; and the number of the stay that the later one is held against: that of the
/// first frame; the session's first of an entry that was not due.
fn parted_at(stays: &[&Stay<'_>], difference: Difference) -> (Parted, usize)
    ensures parted { result.0 ≡ parted_at difference }
    ensures earlier { result.1 ≡ earlier_stay (map (λ stay. stay.now) stays.now) difference }
{
    let (position, first, again) = match difference {
        Difference::Extra { frame, position } => (position, 0, frame),
        Difference::Doubled {
            first,
            again,
            position,
        } => (position, first, again),
        Difference::Swapped { frame, due, later } => (due, frame, later),
        Difference::Lost { frame, due } => (due, frame, frame),
    };
    let earlier = match difference {
        Difference::Extra { .. } => 0,
        _ => stay_of_frame(stays, first),
    };
    let parted = Parted {
        position,
        first,
        again,
    };
    (parted, earlier)
}

/// Whether the stay with this number is a recovery.
pub(crate) fn is_recovery(stays: &[&Stay<'_>], number: usize) -> bool
    ensures { result ≡ is_recovery (slice_get (map (λ stay. stay.now) stays.now) number) }
{
    match stays.get(number).copied() {
        Some(stay) => stay.is_recovered(),
        None => false,
    }
}

/// What the node had to send again in the stay with this number, where the client asked to go on after this position: that
/// is known where the stays match the turns.
fn replay_of(matched: bool, turns: &[Turn<'_>], number: usize, asked: Option<u64>) -> Option<Replay>
    ensures { result ≡ replay_of matched turns.now number asked }
{
    if !matched {
        return None;
    }
    Some(Replay {
        after: asked?,
        low: turns.get(number)?.low,
    })
}

/// Whether the position is one that the node had to send again.
pub(crate) fn is_replayed(replay: Replay, position: u64) -> bool
    ensures { result ≡ is_replayed replay position }
{
    replay.after < position && position <= replay.low
}

/// Whether the entry came in no replay, for sure: the stays match the turns, and its stay is no recovery, or it isn't one
/// that was to be replayed.
pub(crate) fn is_outside(facts: Facts) -> bool
    ensures { result ≡ is_outside facts }
{
    let position = facts.parted.position;
    let missed = matches!(facts.replay, Some(replay) if !is_replayed(replay, position));
    facts.matched && (!facts.recovered || missed)
}

/// Whether the two frames stand in one stay, and the entry came in no replay.
pub(crate) fn is_live(facts: Facts) -> bool
    ensures { result ≡ is_live facts }
{
    facts.earlier == facts.later && is_outside(facts)
}

/// Whether both frames stand in one recovery, in which the entry was to be sent again.
pub(crate) fn is_in_replay(facts: Facts) -> bool
    ensures { result ≡ is_in_replay facts }
{
    let position = facts.parted.position;
    let replayed = matches!(facts.replay, Some(replay) if is_replayed(replay, position));
    facts.earlier == facts.later && replayed
}

/// Whether the stays match the turns, and the node took the entry after it took the session back, if it did so.
pub(crate) fn is_taken_live(facts: Facts) -> bool
    ensures { result ≡ is_taken_live facts }
{
    let past = matches!(facts.replay, Some(replay) if replay.low < facts.parted.position);
    facts.matched && (!facts.recovered || past)
}

/// Where the entry is the first past what was to be replayed that came in the stay, in which both frames stand.
pub(crate) fn sent_again(stays: &[&Stay<'_>], facts: Facts) -> Option<Cause>
    ensures { result ≡ sent_again (map (λ stay. stay.now) stays.now) facts }
{
    let replay = facts.replay?;
    let stay = stays.get(facts.later).copied()?;
    let past = first_past(&stay.frames, replay.low)?;
    if facts.earlier != facts.later || past != facts.parted.position {
        return None;
    }
    Some(Cause::SentAgainAfterReplay {
        first: facts.parted.first,
        again: facts.parted.again,
        low: replay.low,
    })
}

/// The position of the first of the frames that is past this one.
fn first_past(frames: &[Frame<'_>], low: u64) -> Option<u64>
    ensures { result ≡ first_past low frames.now }
{
    let frame = frames.iter().find(|frame| low < frame.position)?;
    Some(frame.position)
}

/// Where the first that came in the later stay was the entry again, after which the client had asked to go on.
pub(crate) fn replay_includes_offset(stays: &[&Stay<'_>], facts: Facts) -> Option<Cause>
    ensures { result ≡ replay_includes_offset (map (λ stay. stay.now) stays.now) facts }
{
    let after = facts.asked?;
    let stay = stays.get(facts.later).copied()?;
    let came = stay.frames.get(0)?.position;
    if facts.later <= facts.earlier || after != facts.parted.position || came != after {
        return None;
    }
    Some(Cause::ReplayIncludesOffset {
        stay: facts.later,
        again: facts.parted.again,
        after,
    })
}

pub(crate) fn stale_offset(facts: Facts) -> Option<Cause>
    ensures { result ≡ stale_offset facts }
{
    let after = facts.asked?;
    if facts.later <= facts.earlier || facts.parted.position <= after {
        return None;
    }
    Some(Cause::StaleOffset {
        stay: facts.later,
        after,
    })
}

pub(crate) fn skipped_in_window(facts: Facts) -> Option<Cause>
    ensures { result ≡ skipped_in_window facts }
{
    let replay = facts.replay?;
    if !is_replayed(replay, facts.parted.position) {
        return None;
    }
    Some(Cause::SkippedInWindow {
        stay: facts.later,
        after: replay.after,
        low: replay.low,
    })
}

/// Where the later frame came in a recovery, and the client was taken back more often in these stays than there are turns
/// after the first: the first recovery past so many. It costs the stays.
pub(crate) fn recovery_not_recorded(
    alloc: Global,
    turns: &[Turn<'_>],
    stays: &[&Stay<'_>],
    facts: Facts,
) -> Result<Option<Cause>, AllocError>
    ensures { IfOk result (λ cause. cause
        ≡ recovery_not_recorded turns.now (map (λ stay. stay.now) stays.now) facts) }
{
    if !facts.recovered {
        return Ok(None);
    }
    let came = recoveries(alloc, stays)?;
    let turns = turns.len().saturating_sub(1);
    match came.get(turns) {
        Some(stay) => Ok(Some(Cause::RecoveryNotRecorded {
            stay: *stay,
            recoveries: came.len(),
            turns,
        })),
        None => Ok(None),
    }
}

/// Where the two frames stand in two stays, these match the turns, and the turn of the later one begins before the entry,
/// which a turn before it had reached.
pub(crate) fn node_behind(logs: &Logs<'_>, turns: &[Turn<'_>], facts: Facts) -> Option<Cause>
    ensures { result ≡ node_behind logs.now turns.now facts }
{
    if !facts.matched || facts.later <= facts.earlier {
        return None;
    }
    let turn = turns.get(facts.later)?;
    let before = ahead_of(turns, facts.parted.position, facts.later)?;
    Some(Cause::NodeBehindBreak {
        broke: last_of(logs, before),
        back: first_of(logs, turn),
        high: before.high,
        low: turn.low,
    })
}

/// The place of the turn's first record.
pub(crate) fn first_of(logs: &Logs<'_>, turn: &Turn<'_>) -> RecordPlace
    ensures { result ≡ first_of logs.now turn.now }
{
    let place = turn_place(logs, turn);
    RecordPlace {
        node: place.node,
        number: place.from,
    }
}

/// The place of the turn's last record.
pub(crate) fn last_of(logs: &Logs<'_>, turn: &Turn<'_>) -> RecordPlace
    ensures { result ≡ last_of logs.now turn.now }
{
    let place = turn_place(logs, turn);
    RecordPlace {
        node: place.node,
        number: place.to.saturating_sub(1),
    }
}
