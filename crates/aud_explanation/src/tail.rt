//! The tail of an account.
ghost use Rattle.std.specs.Prelude.{◌≡◌};
ghost use Rattle.aud_explanation.specs.ShownTail.{shown_tail};

use aud_cert::Fault;
use aud_verdict::Verdict;

/// This tail of an account, where the verdict is a yes or the fault is the tail.
pub(crate) fn shown_tail(verdict: &Verdict, tail: u64) -> Option<u64>
    ensures { result ≡ shown_tail verdict.now tail }
{
    match verdict {
        Verdict::Yes { .. } | Verdict::No(Fault::Tail(_)) => Some(tail),
        Verdict::No(_) => None,
    }
}
