//! The client's tap that a certificate names.
ghost use Rattle.std.specs.Prelude.{◌≡◌, IfErr, IfOk, OnOk, Some, length, true};
ghost use Rattle.std.specs.Option.{option_copied};
ghost use Rattle.aud_check.specs.Difference.{IsAscending};
ghost use Rattle.aud_check.specs.Client.{case_for};
ghost use Rattle.aud_check.specs.Private.ClientCheck.{IsClientRefusal, transcript_named};
ghost use Rattle.aud_check.specs.Faults.{IsReceived};
ghost use Rattle.aud_check.specs.NamedStays.{are_of_session};

use crate::received::check_received;
use crate::refusal::Refusal;
use crate::session::ShownSession;
use crate::stays::are_of_session;
use aud_client::{IndexedTranscript, Recording, received_by_stays, stays_tell_altered};
use aud_node::Logs;
use std::alloc::Global;

/// How many of the due positions the client with this name received, where its tap tells of the session and nothing is
/// wrong with what it received; else why not. The session's own stays are looked at, and no others.
pub(crate) fn check_client(
    alloc: Global,
    logs: &Logs<'_>,
    session: &ShownSession<'_, '_>,
    client: &str,
    transcript: Option<&IndexedTranscript<'_>>,
    due: &[u64],
) -> Result<usize, Refusal>
    requires transcript { option_copied transcript ≡ transcript_named logs.now client.now }
    requires ascending { IsAscending due.now }
    ensures named { OnOk result (are_of_session session.now
        (case_for logs.now client.now session.now.pid due.now).stays ≡ true) }
    ensures received { OnOk result (IsReceived (case_for logs.now client.now session.now.pid
        due.now)) }
    ensures got { IfOk result (λ got. got
        ≡ length (case_for logs.now client.now session.now.pid due.now).frames) }
    ensures refused { IfErr result (IsClientRefusal session.now
        (case_for logs.now client.now session.now.pid due.now)) }
{
    let Some(transcript) = transcript else {
        return Err(Refusal::Names);
    };
    received_by_stays();
    stays_tell_altered();
    let named = transcript.naming(alloc, session.pid)?;
    let stays = named.as_slice();
    if !are_of_session(session, stays) {
        return Err(Refusal::Names);
    }
    check_received(alloc, logs.stream(), transcript.transcript(), stays, due)
}

/// What the client's tap with this name tells.
pub(crate) fn transcript_named<'r, 'a>(
    recording: &'r Recording<'a>,
    name: &str,
) -> Option<&'r IndexedTranscript<'a>>
    ensures { option_copied result ≡ transcript_named recording.now name.now }
{
    match recording.logs().place_of(name) {
        Some(place) => recording.client(place),
        None => None,
    }
}
