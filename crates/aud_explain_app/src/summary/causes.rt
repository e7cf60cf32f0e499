//! How many sessions have each cause.
ghost use Rattle.std.specs.Prelude.{◌≡◌, ◌+◌, map, min};
ghost use Rattle.std.specs.Option.{option_copied};
ghost use Rattle.aud_explain_app.specs.Summary.Causes.{cause_names, count_with, name_of, sessions_if, tells};

/// What the explanation of a session told of causes.
#[derive(Debug, Drop)]
pub struct CausesTold {
    /// Their names; one may stand there several times.
    pub ids: Vec<&'static str>,
    /// Whether causes of the session's fault are known, and none of them holds.
    pub is_unknown: bool,
    /// Of how many other sessions the explanation is, too.
    pub others: usize,
}

static NAMES: [&str; 58] = [
    "node-behind-break",
    "sent-again-after-replay",
    "replay-includes-offset",
    "doubled-in-replay",
    "swapped-in-replay",
    "rooms-at-break",
    "skipped-in-window",
    "stale-offset",
    "body-came-twice",
    "offset-of-another-session",
    "frame-not-recorded",
    "unknown-offset",
    "no-offset",
    "lost-live",
    "doubled-live",
    "swapped-live",
    "another-encoder",
    "attachments-reordered",
    "another-event",
    "altered",
    "log-ended-early",
    "sent-after-end",
    "late-leave",
    "before-birth",
    "extra-live",
    "join-missing",
    "leave-missing",
    "recovery-not-recorded",
    "missing-break",
    "missing-back",
    "cleared-after-break",
    "turn-not-stored",
    "recovered-twice",
    "opened-twice",
    "node-not-tapped",
    "open-not-recorded",
    "no-start",
    "restarted-in-old-log",
    "entries-skipped-by-node",
    "entry-taken-again",
    "not-in-stream",
    "two-taps",
    "no-client-tap",
    "reply-missing",
    "client-tap-has-no-packets",
    "sid-differs",
    "namespace-differs",
    "not-a-packet",
    "cut-before-reply",
    "reply-without-pid",
    "tap-began-late",
    "out-after-answer",
    "second-connect",
    "after-disconnect",
    "session-over",
    "asked-too-early",
    "node-ended-in-turn",
    "never-broken",
];

/// The names of all causes, in the order in which a summary has them.
#[tactic(auto, unfolding(crate::specs::Summary::Causes::cause_names))]
pub fn cause_names() -> &'static [&'static str]
    ensures { map name_of result.now ≡ cause_names }
{
    &NAMES
}

/// How many sessions have the cause of this name, or, where no name is given, a fault of which no known cause holds; each
/// counts once. The greatest number of 64 bits where there are more.
pub(crate) fn count_with(told: &[CausesTold], id: Option<&str>) -> u64
    ensures { result ≡ count_with told.now (option_copied id.entry) }
{
    let mut count: u64 = 0;
    for one in told {
        let passes = match id {
            Some(id) => tells(one, id),
            None => one.is_unknown,
        };
        count = counted(count, passes, one);
    }
    count
}

/// The count, and where it passes the sessions of this explanation.
fn counted(count: u64, passes: bool, told: &CausesTold) -> u64
    ensures { result ≡ min (count + sessions_if passes told.now) u64.MAX }
{
    if !passes {
        return count;
    }
    count.saturating_add(1).saturating_add(told.others as u64)
}

/// Whether the explanation told the cause of this name.
fn tells(told: &CausesTold, id: &str) -> bool
    ensures { result ≡ tells id.now told.now }
{
    for name in &told.ids {
        if *name == id {
            return true;
        }
    }
    false
}
