//! A run in which a session is recovered, and the certificate of that session. These functions do nothing: their
//! contracts are the laws.
ghost use Rattle.std.specs.Prelude.{◌≡◌, [], ◌∷◌, Some};
ghost use Rattle.aud_rooms.specs.Turns.{IsChain};
ghost use Rattle.aud_merge.specs.Runs.{IsRun};
ghost use Rattle.aud_merge.specs.Due.{due, reach};
ghost use Rattle.aud_merge.specs.ByTurns.{IsPrefixOf, FallsAfter};
ghost use Rattle.aud_cert.specs.Certificate.{IsOver};
ghost use Rattle.aud_check.specs.Faults.{positions_in};
ghost use Rattle.aud_check.specs.Refusals.{IsAccepted, certificate_case};
ghost use Rattle.aud_laws.specs.RecoveredCertificate.{certificate};
ghost use Rattle.aud_laws.specs.Recovery as recovery;
ghost use Rattle.aud_laws.specs.Recovery.{logs, received_positions, run, who};

/// What the laws tell of every run is said of something: this cluster, in which a session is recovered on another node,
/// has this run. Two events are due to the session, one that its node takes while it is there, and one that was taken
/// before it comes back; what its client received is a front of them.
pub fn run_with_recovery()
    ensures is_run { IsRun recovery.logs recovery.run }
    ensures is_chain { IsChain recovery.logs recovery.who recovery.turns }
    ensures both_are_due { due recovery.logs recovery.run recovery.who.pid ≡ 1 ∷ 2 ∷ [] }
    ensures first_is_live { FallsAfter recovery.run
        (reach recovery.logs recovery.run recovery.who.pid 1) (Some recovery.live_take) }
    ensures second_is_replayed { FallsAfter recovery.run
        (reach recovery.logs recovery.run recovery.who.pid 2) (Some recovery.back) }
    ensures received_is_front { IsPrefixOf recovery.received_positions
        (due recovery.logs recovery.run recovery.who.pid) }
{}

/// What the check promises of every run is said of something: this certificate of a recovered session is accepted, and
/// its logs have this run. Two events are due, one sent live and one replayed, and the client received both.
pub fn recovery_is_accepted()
    ensures is_over { IsOver logs certificate }
    ensures is_accepted { IsAccepted logs certificate }
    ensures is_run { IsRun logs run }
    ensures both_are_due { due logs run who.pid ≡ 1 ∷ 2 ∷ [] }
    ensures both_were_received { positions_in (certificate_case logs certificate)
        ≡ received_positions }
{}
