//! The last event that a client received of a session.
ghost use Rattle.std.specs.Prelude.{◌≡◌, IfOk, map};
ghost use Rattle.aud_session_facts.specs.Missed.{last_position, last_received};
ghost use Rattle.aud_session_facts.specs.Recoveries.{stays_at};
ghost use Rattle.aud_session_facts.specs.Private.Last.{last_in_stays};

use aud_client::{Frame, Recording, Stay};
use std::alloc::{AllocError, Global};

/// The position of the last event that the client at this place received of the session; none where it received none.
/// The session's own stays are looked at, and no others.
pub(crate) fn last_received(
    alloc: Global,
    recording: &Recording<'_>,
    client: usize,
    pid: &str,
) -> Result<Option<u64>, AllocError>
    ensures { IfOk result (λ last. last ≡ last_received pid.now (stays_at recording.now client)) }
{
    let Some(transcript) = recording.client(client) else {
        return Ok(None);
    };
    let stays = transcript.naming(alloc, pid)?;
    Ok(last_in_stays(stays.as_slice()))
}

/// The position of the last event in the stays.
fn last_in_stays(stays: &[&Stay<'_>]) -> Option<u64>
    ensures { result ≡ last_in_stays (map (λ stay. stay.now) stays.now) }
{
    let mut last = None;
    for stay in stays {
        last = last_in_stay(*stay).or(last);
    }
    last
}

fn last_in_stay(stay: &Stay<'_>) -> Option<u64>
    ensures { result ≡ last_position stay.now.frames }
{
    last_position(&stay.frames)
}

/// The position of the last of the frames.
fn last_position(frames: &[Frame<'_>]) -> Option<u64>
    ensures { result ≡ last_position frames.now }
{
    match frames.last() {
        Some(frame) => Some(frame.position),
        None => None,
    }
}
