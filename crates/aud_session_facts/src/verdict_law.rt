//! What was found and the verdict, over the definitions alone.
ghost use Rattle.std.specs.Prelude.{◌≡◌, Bool, true};
ghost use Rattle.aud_node.specs.Cluster.{Cluster};
ghost use Rattle.aud_node.specs.Stream.{Text};
ghost use Rattle.aud_cert.specs.declared.fault.Fault.{Fault};
ghost use Rattle.aud_verdict.specs.declared.verdict.Verdict.TheVariants.{No};
ghost use Rattle.aud_verdict.specs.Verdict.{IsVerdict};
ghost use Rattle.aud_session_facts.specs.declared.account.Account.{Account};
ghost use Rattle.aud_session_facts.specs.Account.{IsAccountOf, IsFoundFor, is_of_received};

use aud_client::received_by_stays;

/// A verdict of `CONTENT`, `EXTRA`, `DOUBLED`, `SWAPPED`, `LOST` or `WINDOW` names what was found: the account of its
/// session has a finding, and the fault is that of the finding.
pub fn verdict_is_found()
    ensures { (c : Cluster) (whole : Bool) (pid : Text) (fault : Fault) (account : Account)
        → IsVerdict c whole pid (No fault) → is_of_received fault ≡ true
        → IsAccountOf c pid account → IsFoundFor c.stream fault account.found }
{
    received_by_stays();
}
