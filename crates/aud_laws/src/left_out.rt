//! What is left of a recording tells the same of the sessions that are kept.
ghost use Rattle.std.specs.Prelude.{◌≡◌, Bool, true, List};
ghost use Rattle.std.specs.List.{Contains};
ghost use Rattle.aud_tap.specs.declared.records.StreamRec.{StreamRec};
ghost use Rattle.aud_tap.specs.declared.taps.Tap.{Tap};
ghost use Rattle.aud_node.specs.Stream.{Text};
ghost use Rattle.aud_node.specs.Cluster.{Cluster, cluster_of};
ghost use Rattle.aud_parts.specs.LeftOut.{keeps_record, without_records, without_taps, KeepsTapsOf, KeepsStreams, KeepsFirstOf, StartFirst, IsJudgedAlike};
ghost use Rattle.aud_parts.specs.MadeOther.{with_others, needed_by_some, KeepsNeeded};

/// Taps that don't tell of a session may be left out, and the verdict on it stays: those of clients of which no
/// reply names it, and those of nodes of which no record does.
pub fn taps_left_out()
    ensures { (c : Cluster) (keeps : Tap → Bool) (pid : Text) → KeepsTapsOf keeps c.taps pid
        → IsJudgedAlike c (without_taps keeps c) pid }
{}

/// The nodes' records of some sessions may be left out, and the verdicts on the others stay: of each session all
/// of its records, or none.
///
/// A log that begins with a record of a session is not in order, and could be without it: so in the logs that tell
/// of the session that is judged no `start` may come to stand first. None does where each log begins with its
/// `start`.
pub fn records_left_out()
    ensures alike { (c : Cluster) (keeps : Text → Bool) (pid : Text) → keeps pid ≡ true
        → KeepsFirstOf (keeps_record keeps) c.taps pid
        → IsJudgedAlike c (without_records keeps c) pid }
    ensures started { (taps : List Tap) (keeps : Text → Bool) (pid : Text) → StartFirst taps
        → KeepsFirstOf (keeps_record keeps) taps pid }
{}

/// Both at once: the nodes' records of some sessions, and taps that don't tell of the one that is judged.
pub fn sessions_left_out()
    ensures { (c : Cluster) (keeps : Text → Bool) (keeps_tap : Tap → Bool) (pid : Text)
        → keeps pid ≡ true → KeepsFirstOf (keeps_record keeps) c.taps pid
        → KeepsTapsOf keeps_tap c.taps pid
        → IsJudgedAlike c (without_records keeps (without_taps keeps_tap c)) pid }
{}

/// What is left of a recording is the recording of the taps that are left, where the stream's tap is one of them.
pub fn recording_left()
    ensures { (taps : List Tap) (keeps : Text → Bool) (keeps_tap : Tap → Bool)
        → KeepsStreams keeps_tap taps
        → let left = without_records keeps (without_taps keeps_tap (cluster_of taps)) in
        left ≡ cluster_of left.taps }
{}

/// Entries of the stream that a session doesn't need may become `other`, each at its place and with its offset, and the
/// verdict on it stays. A session needs the recoverable entries of its namespace that are for no room or for one that
/// it ever held, and those whose offset an event ends in that came in a client's tap that tells of the session.
///
/// What is left of a recording is the recording of the taps that are left.
pub fn entries_made_other()
    ensures alike { (c : Cluster) (keeps : StreamRec → Bool) (pid : Text) → KeepsNeeded keeps c pid
        → IsJudgedAlike c (with_others keeps c) pid }
    ensures recording { (taps : List Tap) (keeps : StreamRec → Bool)
        → let left = with_others keeps (cluster_of taps) in
        left ≡ cluster_of left.taps }
{}

/// All of it at once: of a recording the records of some sessions are kept, the taps that tell of them, and the entries
/// that one of them needs.
pub fn sessions_kept()
    ensures alike { (c : Cluster) (keeps : Text → Bool) (keeps_tap : Tap → Bool)
        (keeps_entry : StreamRec → Bool) (pid : Text)
        → keeps pid ≡ true → KeepsFirstOf (keeps_record keeps) c.taps pid
        → KeepsTapsOf keeps_tap c.taps pid → KeepsNeeded keeps_entry c pid
        → let kept = without_records keeps (without_taps keeps_tap c) in
        IsJudgedAlike c (with_others keeps_entry kept) pid }
    ensures needed { (c : Cluster) (pids : List Text) (pid : Text) → Contains pids pid
        → KeepsNeeded (needed_by_some c.taps pids) c pid }
    ensures recording { (taps : List Tap) (keeps : Text → Bool) (keeps_tap : Tap → Bool)
        (keeps_entry : StreamRec → Bool) → KeepsStreams keeps_tap taps
        → let kept = without_records keeps (without_taps keeps_tap (cluster_of taps)) in
        let left = with_others keeps_entry kept in
        left ≡ cluster_of left.taps }
{}
