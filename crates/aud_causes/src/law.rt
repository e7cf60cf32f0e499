//! What is told of a fault, and the list of causes that such a fault can have.
ghost use Rattle.std.specs.Prelude.{◌≡◌, ◌∷◌, [], ℕ, Bool, true, List, Option, IfSome, map};
ghost use Rattle.std.specs.List.{list_all};
ghost use Rattle.aud_node.specs.Cluster.{Cluster};
ghost use Rattle.aud_node.specs.Stream.{Text};
ghost use Rattle.aud_cert.specs.declared.fault.Fault.{Fault};
ghost use Rattle.aud_verdict.specs.declared.verdict.Verdict.TheVariants.{No};
ghost use Rattle.aud_verdict.specs.Verdict.{IsVerdict};
ghost use Rattle.aud_input.specs.TapLines.{TapLines};
ghost use Rattle.aud_session_facts.specs.declared.account.Account.{Account};
ghost use Rattle.aud_session_facts.specs.Account.{IsAccountOf};
ghost use Rattle.aud_causes.specs.declared.causes.Noted.{Noted};
ghost use Rattle.aud_causes.specs.declared.found.CauseFound.{CauseFound};
ghost use Rattle.aud_client.specs.StaySeen.{StaySeen};
ghost use Rattle.aud_causes.specs.Candidates.{are_candidates, is_refusal_candidate};
ghost use Rattle.aud_causes.specs.Causes.{AreToldCauses};
ghost use Rattle.aud_causes.specs.Found.{cause_seen, shown_causes};
ghost use Rattle.aud_causes.specs.Refusals.{refusal_causes};

use aud_session_facts::verdict_is_found;

/// The causes that [`causes_of`](crate::causes_of) tells of a session's fault have names of the list of causes that
/// such a fault can have. So these names and the [`refuted`](crate::refuted) ones are together that list; and of a
/// tail, whose list is empty, nothing is told.
///
/// This is so where the verdict on the session is no for this fault, and the account, if there is one, is the
/// session's: what the account found is then what the fault names.
pub fn told_causes_are_candidates()
    ensures { (c : Cluster) (lines : List TapLines) (client : Option ℕ) (whole : Bool) (pid : Text)
        (noted : Noted) (account : Option Account) (fault : Fault) (causes : List CauseFound)
        → IsVerdict c whole pid (No fault) → IfSome account (IsAccountOf c pid)
        → AreToldCauses c lines client pid noted account fault causes
        → are_candidates fault causes ≡ true }
{
    verdict_is_found();
}

/// The causes that [`causes_of_refusal`](crate::causes_of_refusal) tells have names of the list of causes that a refused
/// recovery can have. So these names and those that [`refuted_of_refusal`](crate::refuted_of_refusal) gives are together
/// that list.
pub fn causes_of_refusals_are_candidates()
    ensures { (c : Cluster) (lines : List TapLines) (client : Option ℕ) (stays : List StaySeen)
        (number : ℕ) (causes : List CauseFound) → map cause_seen causes
        ≡ shown_causes c lines client (number ∷ []) true (refusal_causes c stays number)
        → list_all (λ cause. is_refusal_candidate cause.id.now) causes ≡ true }
{}
