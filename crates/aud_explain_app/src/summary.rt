//! The figures of a recording: how its sessions were answered, and what was in it.
pub mod causes;
pub mod counts;
pub mod json;
pub mod text;

ghost use Rattle.std.specs.Prelude.{◌≡◌, ◌+◌, count_by, length, min, sum_by};
ghost use Rattle.std.specs.List.{filter};
ghost use Rattle.aud_node.specs.Recoverable.{is_recoverable};
ghost use Rattle.aud_session_facts.specs.Recoveries.{is_granted, is_refused};
ghost use Rattle.aud_verdict.specs.YesOf.{is_yes};
ghost use Rattle.aud_explain_app.specs.Summary.Counts.{classes_of, faults_of, faults_seen, has_tail, is_no, is_unobserved, says_nothing, sum_of_classes, sum_of_faults, tail_of};

use crate::summary::counts::{
    Classes, Entries, Faults, Tails, classes_in, count_unobserved, count_yes, entries_in,
    faults_in, tails_in,
};
use aud_client::Recording;
use aud_session_facts::{Recovery, granted, refused};
use aud_verdict::SessionVerdict;

/// What was read, as the caller counted it.
#[derive(Clone, Copy, Debug, PartialEq, Eq, Drop)]
pub struct Input {
    pub lines: u64,
    pub bytes: u64,
    /// How long it took, in whole seconds.
    pub seconds: u64,
}

/// How many recoveries clients asked for: those that were granted, and those that were refused or not answered.
#[derive(Clone, Copy, Debug, PartialEq, Eq, Drop)]
pub struct Recoveries {
    pub asked: usize,
    pub granted: usize,
    pub refused: usize,
}

/// The figures of a recording.
#[derive(Clone, Copy, Debug, PartialEq, Eq, Drop)]
pub struct Summary {
    pub sessions: usize,
    pub yes: usize,
    pub no: usize,
    /// How many sessions no client's reply names: the nodes alone mention them.
    pub unobserved: usize,
    pub classes: Classes,
    pub faults: Faults,
    pub tails: Tails,
    pub recoveries: Recoveries,
    pub entries: Entries,
    pub input: Input,
}

/// The figures of the recording, of the verdicts on its sessions, and of the recoveries that its clients asked for.
/// Each entry, each verdict and each recovery is looked at a fixed number of times, and the clients that name a session
/// are looked up once.
pub fn summary_of(
    recording: &Recording<'_>,
    verdicts: &[SessionVerdict],
    recoveries: &[Recovery],
    input: Input,
) -> Summary
    ensures sessions { result.sessions ≡ length verdicts.now }
    ensures yes { result.yes ≡ count_by is_yes verdicts.now }
    ensures no { result.no ≡ count_by is_no verdicts.now }
    ensures unobserved { result.unobserved ≡ count_by (is_unobserved recording.now) verdicts.now }

    ensures classes { result.classes ≡ classes_of verdicts.now }
    ensures faults { faults_seen result.faults ≡ faults_of verdicts.now }

    ensures tails { result.tails.sessions ≡ count_by has_tail verdicts.now }
    ensures tail_events { result.tails.events ≡ min (sum_by tail_of verdicts.now) u64.MAX }

    ensures asked { result.recoveries.asked ≡ length recoveries.now }
    ensures granted { result.recoveries.granted ≡ length (filter is_granted recoveries.now) }
    ensures refused { result.recoveries.refused ≡ length (filter is_refused recoveries.now) }

    ensures entries { result.entries.all ≡ length recording.now.stream }
    ensures recoverable { result.entries.recoverable
        ≡ count_by is_recoverable recording.now.stream }
    ensures input { result.input ≡ input }

    ensures answered { result.yes + result.no ≡ result.sessions }
    ensures by_class { sum_of_classes result.classes ≡ result.no }
    ensures by_fault { sum_of_faults (faults_seen result.faults) ≡ result.no }
    ensures all_recoveries { result.recoveries.granted + result.recoveries.refused
        ≡ result.recoveries.asked }
{
    let sessions = verdicts.len();
    let yes = count_yes(verdicts);
    let no = sessions - yes;
    Summary {
        sessions,
        yes,
        no,
        unobserved: count_unobserved(recording, verdicts),
        classes: classes_in(verdicts),
        faults: faults_in(verdicts),
        tails: tails_in(verdicts),
        recoveries: Recoveries {
            asked: recoveries.len(),
            granted: granted(recoveries),
            refused: refused(recoveries),
        },
        entries: entries_in(recording.logs().stream()),
        input,
    }
}

/// Whether the answers on the recording say nothing: no session was recorded, or no entry is recoverable, so that a
/// client that received nothing received all that was due to it.
pub fn says_nothing(summary: &Summary) -> bool
    ensures { result ≡ says_nothing summary.now }
{
    summary.sessions == 0 || summary.entries.recoverable == 0
}
