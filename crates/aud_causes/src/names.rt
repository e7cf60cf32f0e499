//! What a fault of a client's tap may come from, and where a tap may have a connection without its packets.
ghost use Rattle.std.specs.Prelude.{◌≡◌, IfOk, length, map};
ghost use Rattle.aud_client.specs.Received.{transcript_at};
ghost use Rattle.aud_client.specs.Replies.{naming_places};
ghost use Rattle.aud_causes.specs.Names.{client_causes, has_unnamed, is_unanswered, names_causes, namespace_differs, sid_differs, unnamed_from, bare_place, is_bare, tap_without_packets};

use crate::cause::Cause;
use crate::list::held;
use crate::orphans::{is_disconnect, last_of_stay};
use crate::turns::turn_count;
use aud_cert::Turn;
use aud_client::{Recording, Stay};
use aud_node::Logs;
use aud_session_facts::{opened_in, turn_marks};
use aud_tap::{ClientRec, Records, Tap};
use std::alloc::{AllocError, Global};

/// Where not exactly one client's tap names the session. Where none does it costs the stays of the clients' taps, up to
/// the first that was not answered, and the session's own records; of a stay without a reply in which no session is asked
/// for it reads the last record.
pub(crate) fn client_causes(
    alloc: Global,
    recording: &Recording<'_>,
    pid: &str,
) -> Result<Vec<Cause>, AllocError>
    ensures { IfOk result (λ found. found.items
        ≡ client_causes recording.now pid.now
        (length (naming_places recording.now.taps pid.now))) }
{
    match recording.naming(pid).len() {
        0 => {
            let bare = tap_without_packets(alloc, recording.logs(), pid)?;
            let client = unnamed_from(alloc, recording, recording.logs().taps())?;
            let missing = client.map(|client| Cause::ReplyMissing(client));
            held(alloc, &[Some(Cause::NoClientTap), missing, bare])
        }
        1 => Ok(Vec::new(alloc)),
        taps => held(alloc, &[Some(Cause::TwoTaps(taps))]),
    }
}

/// The place of the first client's tap with a CONNECT or events of no known session, among these taps, which are all.
fn unnamed_from(
    alloc: Global,
    recording: &Recording<'_>,
    taps: &[Tap],
) -> Result<Option<usize>, AllocError>
    ensures { IfOk result (λ found. found ≡ unnamed_from recording.now 0 taps.now) }
{
    for place in 0..taps.len() {
        if has_unnamed(alloc, recording, place)? {
            return Ok(Some(place));
        }
    }
    Ok(None)
}

/// Whether the tap at this place has events in a stay whose reply names nobody, or that has none; or a stay that was not
/// answered.
fn has_unnamed(alloc: Global, recording: &Recording<'_>, place: usize) -> Result<bool, AllocError>
    ensures { IfOk result (λ has. has
        ≡ has_unnamed recording.now place (transcript_at recording.now place)) }
{
    let Some(client) = recording.client(place) else {
        return Ok(false);
    };
    let transcript = client.transcript();
    if transcript.orphan {
        return Ok(true);
    }
    let stays = transcript.stays.as_slice();
    for (number, stay) in stays.iter().enumerate() {
        if is_unanswered(alloc, recording, place, number, stay)? {
            return Ok(true);
        }
    }
    Ok(false)
}

/// Whether the stay with this number has no reply; and the client asked in it for a session, or it doesn't end by a
/// DISCONNECT.
fn is_unanswered(
    alloc: Global,
    recording: &Recording<'_>,
    client: usize,
    number: usize,
    stay: &Stay<'_>,
) -> Result<bool, AllocError>
    ensures { IfOk result (λ is. is ≡ is_unanswered recording.now client number stay.now) }
{
    if stay.reply.is_some() {
        return Ok(false);
    }
    if stay.asked.is_some() {
        return Ok(true);
    }
    let last = last_of_stay(recording, client, number);
    let ended = is_disconnect(alloc, stay.nsp, last)?;
    Ok(!ended)
}

/// What differs between the replies in these stays, which name the session, and the session's `open`, where these are its
/// turns.
pub(crate) fn names_causes(
    alloc: Global,
    turns: &[Turn<'_>],
    stays: &[&Stay<'_>],
) -> Result<Vec<Cause>, AllocError>
    ensures { IfOk result (λ found. found.items
        ≡ names_causes turns.now (map (λ stay. stay.now) stays.now)) }
{
    match opened_in(turns) {
        Some(opened) => held(
            alloc,
            &[
                sid_differs(stays, opened.sid),
                namespace_differs(stays, opened.nsp),
            ],
        ),
        None => Ok(Vec::new(alloc)),
    }
}

/// Where a reply has another sid: the first such one.
fn sid_differs(stays: &[&Stay<'_>], sid: &str) -> Option<Cause>
    ensures { result ≡ sid_differs sid.now (map (λ stay. stay.now) stays.now) }
{
    for (stay, named) in stays.iter().enumerate() {
        match &named.reply {
            Some(reply) if reply.sid.as_str() == sid => {}
            _ => return Some(Cause::SidDiffers(stay)),
        }
    }
    None
}

/// Where a reply is of another namespace: the first such one.
fn namespace_differs(stays: &[&Stay<'_>], nsp: &str) -> Option<Cause>
    ensures { result ≡ namespace_differs nsp.now (map (λ stay. stay.now) stays.now) }
{
    for (stay, named) in stays.iter().enumerate() {
        if named.nsp != nsp {
            return Some(Cause::NamespaceDiffers(stay));
        }
    }
    None
}

/// Where the session has one turn, and the first connection of a client's tap has no packet: the first such tap. It
/// costs the session's own records, and two records of each tap.
pub(crate) fn tap_without_packets(
    alloc: Global,
    logs: &Logs<'_>,
    pid: &str,
) -> Result<Option<Cause>, AllocError>
    ensures { IfOk result (λ cause. cause ≡ tap_without_packets logs.now pid.now) }
{
    let marks = turn_marks(alloc, logs, pid)?;
    if turn_count(&marks) != 1 {
        return Ok(None);
    }
    let client = bare_place(logs.taps());
    Ok(client.map(|client| Cause::ClientTapHasNoPackets(client)))
}

/// The place of the first of these taps whose first connection has no packet.
fn bare_place(taps: &[Tap]) -> Option<usize>
    ensures { result ≡ bare_place taps.now }
{
    taps.iter().position(|tap| is_bare(tap))
}

/// Whether the tap is a client's, and its first connection has no packet.
fn is_bare(tap: &Tap) -> bool
    ensures { result ≡ is_bare tap.now }
{
    match &tap.records {
        Records::Client(recs) => {
            let recs = recs.as_slice();
            match (recs.get(0), recs.get(1)) {
                (
                    Some(ClientRec::Conn { .. }),
                    None | Some(ClientRec::Conn { .. } | ClientRec::Lost),
                ) => true,
                _ => false,
            }
        }
        _ => false,
    }
}
