//! What an upgrade keeps.
ghost use Rattle.aud_upgrade.specs.Kept.{UpgradesKeepVerdicts};

/// An upgrade keeps the sessions, their order, and the verdict on each: a law of [`upgrade`](crate::upgrade), and of
/// what joins `takes` records too.
///
/// For whatever taps: the upgraded ones have the same sessions in the same order, and a verdict is that of a session
/// over the one exactly where it is over the other, whether the whole is asked for or not.
pub fn upgrades_keep_verdicts()
    ensures { UpgradesKeepVerdicts }
{}
