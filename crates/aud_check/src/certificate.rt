//! The check of a certificate.
ghost use Rattle.std.specs.Prelude.{◌≡◌, ◌<◌, ◌+◌, List, length, IfErr, IfOk, OnOk};
ghost use Rattle.aud_merge.specs.declared.step.Step.{Step};
ghost use Rattle.aud_merge.specs.Runs.{IsRun};
ghost use Rattle.aud_merge.specs.Due.{due};
ghost use Rattle.aud_merge.specs.ByTurns.{IsPrefixOf};
ghost use Rattle.aud_rooms.specs.Spans.{AreSpansOfTurns};
ghost use Rattle.aud_rooms.specs.Turns.{AreTurns, IsChain};
ghost use Rattle.aud_cert.specs.Certificate.{IsOver};
ghost use Rattle.aud_check.specs.Faults.{positions_in};
ghost use Rattle.aud_check.specs.Frames.{AreEntries};
ghost use Rattle.aud_check.specs.Refusals.{IsAccepted, IsFirstRefusal, IsMismatch, Place, Refuses, certificate_case};
ghost use Rattle.aud_check.specs.Shown.{frames_received, shown_due, slices_of, turns_of, who_of};
ghost use Rattle.aud_check.specs.TurnRefusals.{AreTurnsAccepted};

use crate::client::{check_client, transcript_named};
use crate::due::shown_due;
use crate::refusal::Refusal;
use crate::session::session_of;
use crate::spans::are_spans;
use crate::turn::check_turns;
use aud_cert::Certificate;
use aud_client::Recording;
use aud_merge::due_by_turns;
use std::alloc::Global;

/// What an accepted certificate shows.
#[derive(Clone, Copy, Debug, PartialEq, Eq, Drop)]
pub struct Accepted {
    /// How many of the due events were received.
    pub got: usize,
    /// How many due events after the last one received were not.
    pub tail: usize,
    /// How many turns the certificate shows.
    pub turns: usize,
}

/// Accepts a certificate over this recording exactly where nothing refuses it: the turns are the session's, from its
/// `open` on; the spans are those of the turns; the named client's tap tells of this session; and what the client
/// received is what was due to it by these turns, up to the last event received. Else the first refusal is answered, in
/// the order of [`Refusal`], or running out of memory.
///
/// Where the logs have no run, what is said of every run says nothing. It costs the session's own records and stays,
/// and what is due to it.
pub fn check(
    alloc: Global,
    recording: &Recording<'_>,
    cert: &Certificate<'_>,
) -> Result<Accepted, Refusal>
    requires over { IsOver recording.now cert.now }
    requires some { 0 < length cert.now.turns }

    // Exactly: nothing refuses what is accepted, and what is refused is refused by this first.
    ensures accepted { OnOk result (IsAccepted recording.now cert.now) }
    ensures not_refused { OnOk result ((place : Place) (refusal : Refusal)
        → Refuses recording.now cert.now place refusal → ⊥) }
    ensures refused { IfErr result (IsFirstRefusal recording.now cert.now) }

    ensures got { IfOk result (λ a. a.got ≡ length (frames_received recording.now cert.now)) }
    ensures tail { IfOk result (λ a. a.got + a.tail ≡ length (shown_due recording.now cert.now)) }
    ensures turns { IfOk result (λ a. a.turns ≡ length cert.now.turns) }

    // The turns are the session's, from turn 0 on.
    ensures are_turns { OnOk result (AreTurns recording.now (who_of cert.now) 0
        (turns_of recording.now cert.now)) }

    // Delivery in every run.
    ensures in_every_run { OnOk result ((run : List Step) → IsRun recording.now run
        → IsPrefixOf (positions_in (certificate_case recording.now cert.now))
        (due recording.now run cert.now.pid)) }
    ensures frames_are_entries { OnOk result (AreEntries recording.now.stream
        (frames_received recording.now cert.now)) }
    ensures counts_in_every_run { IfOk result (λ a. IsChain recording.now (who_of cert.now)
        (turns_of recording.now cert.now) → (run : List Step) → IsRun recording.now run
        → a.got + a.tail ≡ length (due recording.now run cert.now.pid)) }
    ensures in_no_run { IfErr result (λ refusal. IsMismatch refusal
        → IsChain recording.now (who_of cert.now) (turns_of recording.now cert.now)
        → (run : List Step) → IsRun recording.now run
        → IsPrefixOf (positions_in (certificate_case recording.now cert.now))
        (due recording.now run cert.now.pid) → ⊥) }
{
    due_by_turns();
    check_shown(alloc, recording, cert)?;
    check_delivery(alloc, recording, cert)
}

/// Whether the turns are the session's, and the spans those of the turns. The first refusal that holds is answered: the
/// turns are looked at before the spans.
fn check_shown(
    alloc: Global,
    recording: &Recording<'_>,
    cert: &Certificate<'_>,
) -> Result<(), Refusal>
    requires { IsOver recording.now cert.now }
    ensures turns { OnOk result (AreTurnsAccepted recording.now cert.now.pid cert.now.turns) }
    ensures spans { OnOk result (AreSpansOfTurns recording.now.stream (who_of cert.now)
        (slices_of recording.now cert.now) cert.now.spans) }
    ensures refused { IfErr result (IsFirstRefusal recording.now cert.now) }
{
    let logs = recording.logs();
    let session = session_of(logs, cert);
    let turns = cert.turns.as_slice();
    check_turns(logs, session.pid, turns)?;
    if !are_spans(alloc, logs, &session, turns, cert.spans.as_slice())? {
        return Err(Refusal::Span);
    }
    Ok(())
}

/// The answer of [`check`] on a certificate whose turns and spans are known to be right, as those of a made one are:
/// they aren't looked at, so the one refusal is for the client's names or for what it received. It costs the session's
/// stays, and what is due to it.
pub fn check_delivery(
    alloc: Global,
    recording: &Recording<'_>,
    cert: &Certificate<'_>,
) -> Result<Accepted, Refusal>
    requires over { IsOver recording.now cert.now }
    requires accepted_turns { AreTurnsAccepted recording.now cert.now.pid cert.now.turns }
    requires own_spans { AreSpansOfTurns recording.now.stream (who_of cert.now)
        (slices_of recording.now cert.now) cert.now.spans }
    ensures accepted { OnOk result (IsAccepted recording.now cert.now) }
    ensures refused { IfErr result (IsFirstRefusal recording.now cert.now) }
    ensures got { IfOk result (λ a. a.got ≡ length (frames_received recording.now cert.now)) }
    ensures tail { IfOk result (λ a. a.got + a.tail ≡ length (shown_due recording.now cert.now)) }
    ensures turns { IfOk result (λ a. a.turns ≡ length cert.now.turns) }
{
    let logs = recording.logs();
    let session = session_of(logs, cert);
    let due = shown_due(
        alloc,
        logs,
        &session,
        cert.turns.as_slice(),
        cert.spans.as_slice(),
    )?;
    let transcript = transcript_named(recording, cert.client);
    let got = check_client(
        alloc,
        logs,
        &session,
        cert.client,
        transcript,
        due.as_slice(),
    )?;
    Ok(Accepted {
        got,
        tail: due.len() - got,
        turns: cert.turns.len(),
    })
}
