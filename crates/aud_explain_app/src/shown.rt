//! Which sessions have something to explain, and are within what is shown.
ghost use Rattle.std.specs.Prelude.{◌≡◌};
ghost use Rattle.aud_explain_app.specs.Shown.{is_told, is_within};

use aud_cli::Only;
use aud_verdict::Verdict;

/// Whether the session is within what `--only` says.
pub(crate) fn is_within(only: Option<Only>, verdict: &Verdict, is_refused: bool) -> bool
    ensures { result ≡ is_within only verdict.now is_refused }
{
    let Some(only) = only else {
        return true;
    };
    match verdict {
        Verdict::No(fault) => only.shows(fault),
        Verdict::Yes { .. } if is_refused => only.shows_refused(),
        Verdict::Yes { .. } => false,
    }
}

/// Whether there is something to explain of the session, since it is answered no or a recovery of it was refused, and it
/// is within what `--only` says.
pub(crate) fn is_told(only: Option<Only>, verdict: &Verdict, is_refused: bool) -> bool
    ensures { result ≡ is_told only verdict.now is_refused }
{
    match verdict {
        Verdict::Yes { .. } if !is_refused => false,
        _ => is_within(only, verdict, is_refused),
    }
}
