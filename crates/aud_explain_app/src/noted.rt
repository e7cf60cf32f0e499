//! What was noted of the taps of a session, for its causes.
ghost use Rattle.std.specs.Prelude.{IfOk};
ghost use Rattle.std.specs.Option.{option_copied, option_map};
ghost use Rattle.aud_findings.specs.Prepared.{IsPreparedOf};
ghost use Rattle.aud_explain_app.specs.Noted.{IsNoted};

use aud_causes::Noted;
use aud_cert::Fault;
use aud_client::Recording;
use aud_findings::{Prepared, orphan_in, unordered_of};
use aud_session_facts::Account;
use aud_verdict::Verdict;
use std::alloc::{AllocError, Global};

/// What was noted of the session with this pid: where the fault is `ORDER` of each of its nodes that is out of order the
/// first record that is, and where it is `ORPHAN` the first stay of its client's tap with events of which nobody knows the
/// session.
pub(crate) fn noted_of(
    alloc: Global,
    recording: &Recording<'_>,
    prepared: &Prepared,
    pid: &str,
    verdict: &Verdict,
    account: Option<&Account<'_, '_>>,
) -> Result<Noted, AllocError>
    requires { IsPreparedOf recording.now prepared.now }
    ensures { IfOk result (IsNoted recording.now pid.now verdict.now
        (option_map (λ a. a.client) (option_copied account.entry))) }
{
    match verdict {
        Verdict::No(Fault::Order) => Ok(Noted {
            unordered: unordered_of(alloc, recording.logs(), prepared, pid)?,
            orphan: None,
        }),
        Verdict::No(Fault::Orphan) => Ok(Noted {
            unordered: Vec::new(alloc),
            orphan: match account {
                Some(account) => orphan_in(recording, prepared, account.client),
                None => None,
            },
        }),
        _ => Ok(Noted {
            unordered: Vec::new(alloc),
            orphan: None,
        }),
    }
}
