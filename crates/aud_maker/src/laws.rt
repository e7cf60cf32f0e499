//! What follows of a certificate that was made, over the definitions alone.
ghost use Rattle.std.specs.Prelude.{◌≡◌, ◌<◌, length, map};
ghost use Rattle.aud_node.specs.Stream.{Text};
ghost use Rattle.aud_node.specs.Cluster.{Cluster};
ghost use Rattle.aud_node.specs.Names.{AreNamedOnce};
ghost use Rattle.aud_cert.specs.Certificate.{CertificateSeen, IsOver, turn_at};
ghost use Rattle.aud_maker.specs.Made.{IsMade};

/// Where each tap is the first with its name, the records of a made certificate's turns are those that it names, and
/// they stand where it says.
pub fn made_is_over()
    ensures over { (c : Cluster) (pid : Text) (cert : CertificateSeen)
        → AreNamedOnce c.taps → IsMade c pid cert → IsOver c cert }
    ensures turns { (c : Cluster) (pid : Text) (cert : CertificateSeen) → AreNamedOnce c.taps
        → (made : IsMade c pid cert) → map (turn_at c) cert.turns ≡ made.turns }
    ensures some { (c : Cluster) (pid : Text) (cert : CertificateSeen)
        → IsMade c pid cert → 0 < length cert.turns }
{}
