//! How a run of `explain` ends.
ghost use Rattle.std.specs.Prelude.{◌≡◌};
ghost use Rattle.aud_explain_app.specs.Status.{status_by};

use aud_cli::FailOn;
use aud_session_facts::{Recovery, refused};
use aud_verdict::{SessionVerdict, Status, Verdict, status_of};

/// Status 1 where a session is answered no with a fault that makes it so, or where a recovery was refused, or nothing
/// could be judged, and that does.
pub(crate) fn status_by(
    fail_on: FailOn,
    says_nothing: bool,
    verdicts: &[SessionVerdict],
    recoveries: &[Recovery],
) -> Status
    ensures { result ≡ status_by fail_on says_nothing verdicts.now recoveries.now }
{
    if fail_on.nothing && says_nothing {
        return status_of(false);
    }
    if fail_on.refused && refused(recoveries) > 0 {
        return status_of(false);
    }
    for session in verdicts {
        if let Verdict::No(fault) = &session.verdict {
            if fail_on.fails(fault) {
                return status_of(false);
            }
        }
    }
    status_of(true)
}
