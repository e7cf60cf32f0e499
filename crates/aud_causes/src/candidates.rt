//! Which causes a fault can have, and which of them were refuted.
ghost use Rattle.std.specs.Prelude.{◌≡◌, IfOk, map};
ghost use Rattle.std.specs.List.{filter};
ghost use Rattle.aud_causes.specs.Candidates.{candidates, is_told, is_untold, refuted, refuted_of_refusal, text_of};

use crate::found::CauseFound;
use aud_cert::Fault;
use aud_verdict::Verdict;
use std::alloc::{AllocError, Global};

static REFUSAL: [&str; 6] = [
    "no-offset",
    "unknown-offset",
    "session-over",
    "node-ended-in-turn",
    "never-broken",
    "asked-too-early",
];

/// The names of the causes that such a fault can have, in the order in which those that hold are told. A tail has none.
fn candidates(fault: &Fault) -> &'static [&'static str]
    ensures { map text_of result.now ≡ candidates fault.now }
{
    match fault {
        Fault::NoLog => &["open-not-recorded", "node-not-tapped"],
        Fault::Chain => &[
            "node-not-tapped",
            "missing-back",
            "missing-break",
            "cleared-after-break",
            "turn-not-stored",
            "recovered-twice",
            "opened-twice",
        ],
        Fault::Order => &[
            "no-start",
            "restarted-in-old-log",
            "entries-skipped-by-node",
            "entry-taken-again",
            "not-in-stream",
        ],
        Fault::Client => &[
            "two-taps",
            "no-client-tap",
            "reply-missing",
            "client-tap-has-no-packets",
        ],
        Fault::Names => &["sid-differs", "namespace-differs"],
        Fault::Frame => &["not-a-packet"],
        Fault::Orphan => &[
            "cut-before-reply",
            "tap-began-late",
            "reply-missing",
            "after-disconnect",
            "out-after-answer",
            "second-connect",
            "reply-without-pid",
        ],
        Fault::Content(_) => &[
            "another-encoder",
            "attachments-reordered",
            "altered",
            "another-event",
        ],
        Fault::Extra(_) => &[
            "node-behind-break",
            "rooms-at-break",
            "offset-of-another-session",
            "log-ended-early",
            "sent-after-end",
            "late-leave",
            "before-birth",
            "extra-live",
            "join-missing",
            "leave-missing",
            "recovery-not-recorded",
        ],
        Fault::Doubled(_) => &[
            "node-behind-break",
            "sent-again-after-replay",
            "replay-includes-offset",
            "stale-offset",
            "body-came-twice",
            "doubled-in-replay",
            "doubled-live",
            "recovery-not-recorded",
        ],
        Fault::Swapped(_) => &[
            "node-behind-break",
            "swapped-in-replay",
            "swapped-live",
            "recovery-not-recorded",
        ],
        Fault::Lost(_) => &[
            "rooms-at-break",
            "skipped-in-window",
            "offset-of-another-session",
            "frame-not-recorded",
            "lost-live",
            "leave-missing",
            "recovery-not-recorded",
        ],
        Fault::Window(_) => &[
            "no-offset",
            "unknown-offset",
            "stale-offset",
            "offset-of-another-session",
        ],
        Fault::Tail(_) => &[],
    }
}

/// Whether one of the causes has this name.
fn is_told(told: &[CauseFound], id: &str) -> bool
    ensures { result ≡ is_told told.now id.now }
{
    told.iter().any(|cause| cause.id == id)
}

/// The names of the causes that the session's fault can have and that were refuted, in their order: of those that are
/// told of it none has such a name. None where the verdict is yes.
pub fn refuted(
    alloc: Global,
    verdict: &Verdict,
    told: &[CauseFound],
) -> Result<Vec<&'static str>, AllocError>
    ensures { IfOk result (λ ids. map text_of ids.items ≡ refuted verdict.now told.now) }
{
    match verdict {
        Verdict::Yes { .. } => Ok(Vec::new(alloc)),
        Verdict::No(fault) => untold_of(alloc, candidates(fault), told),
    }
}

/// The names of the causes that a refused recovery can have and that were refuted, in their order: of those that are
/// told of it none has such a name.
pub fn refuted_of_refusal(
    alloc: Global,
    told: &[CauseFound],
) -> Result<Vec<&'static str>, AllocError>
    ensures { IfOk result (λ ids. map text_of ids.items ≡ refuted_of_refusal told.now) }
{
    untold_of(alloc, &REFUSAL, told)
}

/// Those of these names that none of the causes has.
fn untold_of(
    alloc: Global,
    ids: &'static [&'static str],
    told: &[CauseFound],
) -> Result<Vec<&'static str>, AllocError>
    ensures { IfOk result (λ untold. map text_of untold.items
        ≡ filter (is_untold told.now) (map text_of ids.now)) }
{
    let mut untold = Vec::new(alloc);
    for id in ids {
        if !is_told(told, *id) {
            untold.push(*id)?;
        }
    }
    Ok(untold)
}
