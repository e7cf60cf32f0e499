//! What becomes of a certificate that was made, once its text is read again.
ghost use Rattle.std.specs.Prelude.{◌≡◌, ℕ, Option, Some, true, false, List, Ok, IsUtf8};
ghost use Rattle.std.specs.List.{All, list_all};
ghost use Rattle.aud_tap.specs.declared.taps.Tap.{Tap};
ghost use Rattle.aud_tap.specs.TapName.{is_tap_name};
ghost use Rattle.aud_node.specs.Stream.{Text};
ghost use Rattle.aud_node.specs.Cluster.{Cluster, cluster_of};
ghost use Rattle.aud_node.specs.Names.{AreNamedOnce};
ghost use Rattle.aud_reader.specs.declared.line.Line.{Line};
ghost use Rattle.aud_cert.specs.Certificate.{CertificateSeen};
ghost use Rattle.aud_cert.specs.Reading.{certificate_of};
ghost use Rattle.aud_cert.specs.Sound.{IsSound};
ghost use Rattle.aud_cert.specs.Text.{certificate_text};
ghost use Rattle.aud_maker.specs.Made.{IsMade};
ghost use Rattle.aud_verdict.specs.declared.verdict.Verdict.TheVariants.{Yes};
ghost use Rattle.aud_verdict.specs.Verdict.{IsVerdict};
ghost use Rattle.aud_app.specs.declared.answer.Answer.{Answer};
ghost use Rattle.aud_app.specs.declared.answer.Answer.TheVariants.{Accepted};
ghost use Rattle.aud_app.specs.declared.answer.Answered.{Answered};
ghost use Rattle.aud_app.specs.Lines.{is_ok};
ghost use Rattle.aud_app.specs.Verified.{IsAnswerTo, AreAnswered};
ghost use Rattle.aud_app.specs.Proofs.{IsProof, AreProofs};
ghost use Rattle.aud_writer.specs.OfABundle.{AreOfABundle};
ghost use Rattle.aud_laws.specs.Proven.{IsOfAProof};

/// Nothing of a made certificate is refused by its reading: its pid and its names have the forms that a bundle gives
/// them, its names are those of taps, its numbers are within the logs, and its records are the logs'. All that it takes
/// is that each tap is the first with its name, and that the names are such as a bundle's taps have: a pid that a
/// client's reply names has the form of a pid.
pub fn made_is_sound()
    ensures { (c : Cluster) (pid : Text) (cert : CertificateSeen) → AreNamedOnce c.taps
        → All (λ (tap : Tap). is_tap_name tap.name ≡ true) c.taps → IsMade c pid cert
        → IsSound c cert }
{}

/// The text of a made certificate is read as that certificate. The limits of a bundle keep its numbers within 64 bits,
/// and a text that is written is UTF-8. The text may be longer than a line of an input may be: that is the input's to
/// refuse, and not the reading's.
pub fn made_is_read_back()
    ensures { (taps : List Tap) (pid : Text) (cert : CertificateSeen)
        → AreOfABundle taps → IsMade (cluster_of taps) pid cert → IsUtf8 (certificate_text cert)
        → certificate_of (cluster_of taps) (certificate_text cert) ≡ Ok cert }
{}

/// What `prove` writes for a session is what `verify` accepts, over the same logs.
pub fn proved_is_accepted()
    // Where the verdict on a session is yes with these numbers, the answer on the text of its certificate is that it is
    // accepted, with these numbers.
    ensures answer { (taps : List Tap) (pid text : Text) (got tail turns : ℕ) (answer : Answer)
        → AreOfABundle taps → IsVerdict (cluster_of taps) false pid (Yes got tail turns)
        → IsProof (cluster_of taps) pid (Some text) → IsUtf8 text
        → IsAnswerTo (cluster_of taps) (certificate_of (cluster_of taps) text) answer
        → answer ≡ Accepted pid (record { got = got; tail = tail; turns = turns }) }

    // Of lines that are such texts, of any of the sessions and in any order, all are answered ok.
    ensures all { (taps : List Tap) (pids : List Text) (proofs : List (Option Text))
        (lines : List Line) (answers : List Answered) → AreOfABundle taps
        → AreProofs (cluster_of taps) pids proofs → All (IsOfAProof proofs) lines
        → AreAnswered (cluster_of taps) lines answers → list_all is_ok answers ≡ true }
{}
