//! What the acceptance of a certificate means, over the definitions alone. These functions do nothing: their contracts
//! are the laws.
ghost use Rattle.std.specs.Prelude.{◌≡◌, ◌↔◌, ◌<◌, ℕ, List, Ok, length};
ghost use Rattle.aud_node.specs.Stream.{Text};
ghost use Rattle.aud_node.specs.Cluster.{Cluster};
ghost use Rattle.aud_node.specs.Names.{AreNamedOnce};
ghost use Rattle.aud_rooms.specs.Turns.{AreTurns, IsChain};
ghost use Rattle.aud_merge.specs.declared.step.Step.{Step};
ghost use Rattle.aud_merge.specs.Runs.{IsRun};
ghost use Rattle.aud_merge.specs.Due.{due};
ghost use Rattle.aud_merge.specs.ByTurns.{IsPrefixOf};
ghost use Rattle.aud_cert.specs.declared.fault.Fault.TheVariants.{Tail};
ghost use Rattle.aud_cert.specs.Certificate.{CertificateSeen, IsOver};
ghost use Rattle.aud_cert.specs.Reading.{certificate_of};
ghost use Rattle.aud_maker.specs.Made.{IsMade};
ghost use Rattle.aud_check.specs.declared.refusal.Refusal.{Refusal};
ghost use Rattle.aud_check.specs.declared.refusal.Refusal.TheVariants.{Received};
ghost use Rattle.aud_check.specs.Faults.{positions_in};
ghost use Rattle.aud_check.specs.Refusals.{IsAccepted, RefusesFirst, IsMismatch, Place, Refuses, certificate_case};
ghost use Rattle.aud_check.specs.Shown.{shown_due, turns_of, who_of};

use aud_merge::due_by_turns;

/// A certificate is accepted exactly where nothing refuses it.
pub fn accepted_exactly()
    ensures { (c : Cluster) (cert : CertificateSeen)
        → IsAccepted c cert ↔ ((place : Place) (refusal : Refusal) → Refuses c cert place refusal
        → ⊥) }
{}

/// A tail refuses no certificate: what is still due after the last event received is counted.
pub fn tail_refuses_none()
    ensures { (c : Cluster) (cert : CertificateSeen) (place : Place) (count : ℕ)
        → Refuses c cert place (Received (Tail count)) → ⊥ }
{}

/// What an accepted certificate over the logs says holds in every run: its turns are the session's, from turn 0 on;
/// what the client received is a front of what is due; and where it shows all turns, what is due by them is all that is
/// due.
pub fn accepted_in_every_run()
    ensures turns { (c : Cluster) (cert : CertificateSeen)
        → IsOver c cert → IsAccepted c cert → AreTurns c (who_of cert) 0 (turns_of c cert) }
    ensures prefix { (c : Cluster) (cert : CertificateSeen) (run : List Step)
        → IsOver c cert → IsAccepted c cert → IsRun c run
        → IsPrefixOf (positions_in (certificate_case c cert)) (due c run cert.pid) }
    ensures all { (c : Cluster) (cert : CertificateSeen) (run : List Step)
        → IsChain c (who_of cert) (turns_of c cert) → IsRun c run
        → shown_due c cert ≡ due c run cert.pid }
{
    due_by_turns();
}

/// What a refusal says of every run, where the certificate shows all turns: after `EXTRA`, `DOUBLED`, `SWAPPED` and
/// `LOST`, what the client received is a front of what is due in none.
pub fn refused_in_no_run()
    ensures { (c : Cluster) (cert : CertificateSeen) (refusal : Refusal) (run : List Step)
        → RefusesFirst c cert refusal → IsMismatch refusal
        → IsChain c (who_of cert) (turns_of c cert) → IsRun c run
        → IsPrefixOf (positions_in (certificate_case c cert)) (due c run cert.pid) → ⊥ }
{
    due_by_turns();
}

/// A made certificate is of the session with this pid, and shows all of its turns.
pub fn made_is_whole()
    ensures pid { (c : Cluster) (pid : Text) (cert : CertificateSeen)
        → IsMade c pid cert → cert.pid ≡ pid }
    ensures whole { (c : Cluster) (pid : Text) (cert : CertificateSeen)
        → AreNamedOnce c.taps → IsMade c pid cert → IsChain c (who_of cert) (turns_of c cert) }
{}

/// A certificate that a text names over the logs has turns, and their records are those that it names there.
pub fn read_is_over()
    ensures over { (c : Cluster) (text : Text) (cert : CertificateSeen)
        → certificate_of c text ≡ Ok cert → IsOver c cert }
    ensures some { (c : Cluster) (text : Text) (cert : CertificateSeen)
        → certificate_of c text ≡ Ok cert → 0 < length cert.turns }
{}
