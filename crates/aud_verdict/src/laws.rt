//! What a verdict is and says, over the definitions alone. These functions do nothing: their contracts are the laws.
ghost use Rattle.std.specs.Prelude.{◌≡◌, ◌+◌, ℕ, Bool, true, false, List, Some, length};
ghost use Rattle.std.specs.Option.{IsSome};
ghost use Rattle.aud_node.specs.Stream.{Text};
ghost use Rattle.aud_node.specs.Cluster.{Cluster};
ghost use Rattle.aud_node.specs.Names.{AreNamedOnce};
ghost use Rattle.aud_merge.specs.declared.step.Step.{Step};
ghost use Rattle.aud_merge.specs.Runs.{IsRun};
ghost use Rattle.aud_merge.specs.Due.{due};
ghost use Rattle.aud_merge.specs.ByTurns.{IsPrefixOf};
ghost use Rattle.aud_cert.specs.declared.fault.Fault.{Fault};
ghost use Rattle.aud_cert.specs.declared.fault.Fault.TheVariants.{Tail};
ghost use Rattle.aud_cert.specs.Certificate.{CertificateSeen};
ghost use Rattle.aud_maker.specs.Faults as maker;
ghost use Rattle.aud_maker.specs.Made.{IsMade};
ghost use Rattle.aud_check.specs.declared.refusal.Refusal.{Refusal};
ghost use Rattle.aud_check.specs.Frames.{AreEntries};
ghost use Rattle.aud_check.specs.Refusals as check;
ghost use Rattle.aud_check.specs.Shown.{frames_received, shown_due};
ghost use Rattle.aud_verdict.specs.declared.verdict.Verdict.{Verdict};
ghost use Rattle.aud_verdict.specs.declared.verdict.Verdict.TheVariants.{Yes, No};
ghost use Rattle.aud_verdict.specs.Session.{SessionLogs, IsSession, positions, received_by};
ghost use Rattle.aud_verdict.specs.Faults.{IsMisdelivery};
ghost use Rattle.aud_verdict.specs.Verdict.{IsVerdict, asked_so};
ghost use Rattle.aud_verdict.specs.Refused.{fault_found};
ghost use Rattle.aud_verdict.specs.EveryRun.{HoldsInEveryRun, IsUnfinished};

use aud_merge::due_by_turns;

/// A session has one verdict, where the whole is asked for, and one where it isn't.
#[tactic(auto, using(crate::proofs::Sessions::one_verdict))]
pub fn verdict_is_one()
    ensures { (c : Cluster) (whole : Bool) (pid : Text) (one other : Verdict)
        → IsVerdict c whole pid one → IsVerdict c whole pid other → one ≡ other }
{}

/// What asking for the whole changes: a yes with a tail is a no for it, and each other verdict stays. So a yes has no
/// tail then.
pub fn verdict_of_whole()
    ensures asked { (c : Cluster) (whole : Bool) (pid : Text) (verdict : Verdict)
        → IsVerdict c false pid verdict → IsVerdict c whole pid (asked_so whole verdict) }
    ensures yes { (c : Cluster) (pid : Text) (got tail turns : ℕ)
        → IsVerdict c true pid (Yes got tail turns) → tail ≡ 0 }
{}

/// What is found by making a session's certificate and checking it is the session's verdict, where the whole isn't
/// asked for.
pub fn verdict_by_certificate()
    // No certificate could be made.
    ensures not_made { (c : Cluster) (pid : Text) (fault : Fault)
        → maker.IsFirstMakeFault c pid fault → IsVerdict c false pid (No fault) }

    // It was made and is accepted, with these numbers.
    ensures accepted { (c : Cluster) (pid : Text) (cert : CertificateSeen) (got tail turns : ℕ)
        → AreNamedOnce c.taps → IsMade c pid cert → check.IsAccepted c cert
        → got ≡ length (frames_received c cert)
        → got + tail ≡ length (shown_due c cert)
        → turns ≡ length cert.turns
        → IsVerdict c false pid (Yes got tail turns) }

    // It was made and is refused: for its names or for what the client received, and never for a turn, a cursor or a
    // span.
    ensures refused { (c : Cluster) (pid : Text) (cert : CertificateSeen) (refusal : Refusal)
        (fault : Fault) → AreNamedOnce c.taps → IsMade c pid cert
        → check.RefusesFirst c cert refusal → fault_found refusal ≡ Some fault
        → IsVerdict c false pid (No fault) }
    ensures refused_so { (c : Cluster) (pid : Text) (cert : CertificateSeen) (place : check.Place)
        (refusal : Refusal) → AreNamedOnce c.taps → IsMade c pid cert
        → check.Refuses c cert place refusal → IsSome (fault_found refusal) }
{}

/// What a verdict says of every run: after a yes, what was received is a front of what is due, and each event is its
/// entry; where the whole was asked for, it is all of that. After `EXTRA`, `DOUBLED`, `SWAPPED` and `LOST` it is a
/// front in none; after `TAIL` it is a front, and so many more are due.
pub fn verdict_in_every_run()
    ensures all { (c : Cluster) (whole : Bool) (pid : Text) (verdict : Verdict)
        → IsVerdict c whole pid verdict → HoldsInEveryRun c pid verdict }
    ensures yes { (c : Cluster) (whole : Bool) (pid : Text) (got tail turns : ℕ) (s : SessionLogs)
        (run : List Step) → IsVerdict c whole pid (Yes got tail turns) → IsSession c pid s
        → IsRun c run → IsPrefixOf (positions c s) (due c run pid) }
    ensures counts { (c : Cluster) (whole : Bool) (pid : Text) (got tail turns : ℕ)
        (run : List Step) → IsVerdict c whole pid (Yes got tail turns) → IsRun c run
        → got + tail ≡ length (due c run pid) }
    ensures entries { (c : Cluster) (whole : Bool) (pid : Text) (got tail turns : ℕ)
        (s : SessionLogs) → IsVerdict c whole pid (Yes got tail turns) → IsSession c pid s
        → AreEntries c.stream (received_by c s) }
    ensures whole { (c : Cluster) (pid : Text) (got tail turns : ℕ) (s : SessionLogs)
        (run : List Step) → IsVerdict c true pid (Yes got tail turns) → IsSession c pid s
        → IsRun c run → positions c s ≡ due c run pid }
    ensures no { (c : Cluster) (whole : Bool) (pid : Text) (fault : Fault) (s : SessionLogs)
        (run : List Step) → IsVerdict c whole pid (No fault) → IsMisdelivery fault
        → IsSession c pid s → IsRun c run → IsPrefixOf (positions c s) (due c run pid) → ⊥ }
    ensures tail { (c : Cluster) (whole : Bool) (pid : Text) (count : ℕ)
        → IsVerdict c whole pid (No (Tail count)) → IsUnfinished c pid count }
{
    due_by_turns();
}
