//! What was received of what was due.
ghost use Rattle.std.specs.Prelude.{◌≡◌, IfOk, IfSome, is_some, length};
ghost use Rattle.aud_node.specs.Cluster.{Cluster};
ghost use Rattle.aud_node.specs.Stream.{Text};
ghost use Rattle.aud_session_facts.specs.Account.{IsAccountOf};
ghost use Rattle.aud_findings.specs.Received.{AreFigures, IsReceivedShown, greatest};
ghost use Rattle.aud_findings.specs.Private.Known.{IsWithin};

use aud_cert::{Class, class_of};
use aud_check::Difference;
use aud_explanation::Account as Received;
use aud_session_facts::{Account, positions_received};
use aud_verdict::Verdict;
use std::alloc::{AllocError, Global};

/// What the client received of the session of which this is the account, against what was due to it; none where there
/// is no account, or the delivery was not judged.
pub(crate) fn received_shown(
    alloc: Global,
    account: Option<&Account<'_, '_>>,
    verdict: &Verdict,
) -> Result<Option<Received>, AllocError>
    ensures { (c : Cluster) (pid : Text)
        → IfSome account.entry (λ a. IsAccountOf c pid a.now)
        → IfOk result (IsReceivedShown c pid (is_some account.entry) verdict.now) }
{
    let Some(account) = account else {
        return Ok(None);
    };
    if let Verdict::No(fault) = verdict {
        if !matches!(class_of(fault), Class::Delivery) {
            return Ok(None);
        }
    }
    let received = positions_received(alloc, account.stays.as_slice())?;
    Ok(Some(figures(&received, &account.due, account.difference())))
}

/// The figures of these positions received and these due, of which this is the difference.
fn figures(received: &[u64], due: &[u64], difference: Option<Difference>) -> Received
    ensures { IsWithin (length received.now) difference
        → AreFigures received.now due.now difference result }
{
    let last = greatest(received);
    Received {
        got: received.len() as u64,
        due: due.len() as u64,
        tail: due.iter().filter(|position| last < **position).count() as u64,
        at_frame: match difference {
            Some(
                Difference::Extra { frame, .. }
                | Difference::Doubled { again: frame, .. }
                | Difference::Swapped { frame, .. }
                | Difference::Lost { frame, .. },
            ) => Some((frame as u64).saturating_add(1)),
            None => None,
        },
    }
}

/// The greatest of the positions, 0 where there are none.
pub(crate) fn greatest(positions: &[u64]) -> u64
    ensures { result ≡ greatest positions.now }
{
    let mut greatest = 0;
    for position in positions {
        greatest = (*position).max(greatest);
    }
    greatest
}
