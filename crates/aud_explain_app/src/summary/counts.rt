//! How many verdicts are of each kind, and how many entries the stream has.
ghost use Rattle.std.specs.Prelude.{◌≡◌, count_by, length, min, sum_by};
ghost use Rattle.aud_node.specs.Recoverable.{is_recoverable};
ghost use Rattle.aud_verdict.specs.YesOf.{is_yes};
ghost use Rattle.aud_explain_app.specs.Summary.Counts.{classes_of, faults_of, faults_seen, has_tail, is_no_for, is_no_in, is_unobserved, tail_in, tail_of};

use aud_cert::{Class, Fault, class_of, fault_word};
use aud_client::Recording;
use aud_node::Stream;
use aud_verdict::{SessionVerdict, Verdict};

/// How many are yes.
pub(crate) fn count_yes(verdicts: &[SessionVerdict]) -> usize
    ensures { result ≡ count_by is_yes verdicts.now }
{
    verdicts.iter().filter(|verdict| verdict.is_yes()).count()
}

/// How many are on a session that no client named.
pub(crate) fn count_unobserved(recording: &Recording<'_>, verdicts: &[SessionVerdict]) -> usize
    ensures { result ≡ count_by (is_unobserved recording.now) verdicts.now }
{
    let mut count = 0;
    for verdict in verdicts {
        if recording.naming(verdict.pid.as_str()).is_empty() {
            count += 1;
        }
    }
    count
}

/// How many sessions are answered no with a fault of each class.
#[derive(Clone, Copy, Debug, PartialEq, Eq, Drop)]
pub struct Classes {
    pub delivery: usize,
    pub packets: usize,
    pub recording: usize,
}

/// How many of the verdicts are no with a fault of each class.
pub(crate) fn classes_in(verdicts: &[SessionVerdict]) -> Classes
    ensures { result ≡ classes_of verdicts.now }
{
    Classes {
        delivery: count_in(verdicts, Class::Delivery),
        packets: count_in(verdicts, Class::Packets),
        recording: count_in(verdicts, Class::Recording),
    }
}

fn count_in(verdicts: &[SessionVerdict], class: Class) -> usize
    ensures { result ≡ count_by (is_no_in class) verdicts.now }
{
    verdicts
        .iter()
        .filter(|verdict| is_no_in(verdict, class))
        .count()
}

/// Whether the verdict is no with a fault of the class.
fn is_no_in(verdict: &SessionVerdict, class: Class) -> bool
    ensures { result ≡ is_no_in class verdict.now }
{
    match &verdict.verdict {
        Verdict::Yes { .. } => false,
        Verdict::No(fault) => match (class_of(fault), class) {
            (Class::Delivery, Class::Delivery) => true,
            (Class::Packets, Class::Packets) => true,
            (Class::Recording, Class::Recording) => true,
            _ => false,
        },
    }
}

/// How many sessions are answered no with each fault, by its word, in the order in which faults are looked for. The last
/// is looked for only where the whole is asked for.
pub type Faults = [(&'static str, u64); 14];

/// How many of the verdicts are no with each fault.
pub(crate) fn faults_in(verdicts: &[SessionVerdict]) -> Faults
    ensures { faults_seen result ≡ faults_of verdicts.now }
{
    [
        ("NOLOG", count_for(verdicts, "NOLOG")),
        ("CHAIN", count_for(verdicts, "CHAIN")),
        ("ORDER", count_for(verdicts, "ORDER")),
        ("CLIENT", count_for(verdicts, "CLIENT")),
        ("NAMES", count_for(verdicts, "NAMES")),
        ("FRAME", count_for(verdicts, "FRAME")),
        ("ORPHAN", count_for(verdicts, "ORPHAN")),
        ("CONTENT", count_for(verdicts, "CONTENT")),
        ("EXTRA", count_for(verdicts, "EXTRA")),
        ("DOUBLED", count_for(verdicts, "DOUBLED")),
        ("SWAPPED", count_for(verdicts, "SWAPPED")),
        ("LOST", count_for(verdicts, "LOST")),
        ("WINDOW", count_for(verdicts, "WINDOW")),
        ("TAIL", count_for(verdicts, "TAIL")),
    ]
}

fn count_for(verdicts: &[SessionVerdict], word: &str) -> u64
    ensures { result ≡ count_by (is_no_for word.now) verdicts.now }
{
    verdicts
        .iter()
        .filter(|verdict| is_no_for(verdict, word))
        .count() as u64
}

/// Whether the verdict is no with the fault of this word.
fn is_no_for(verdict: &SessionVerdict, word: &str) -> bool
    ensures { result ≡ is_no_for word.now verdict.now }
{
    match &verdict.verdict {
        Verdict::Yes { .. } => false,
        Verdict::No(fault) => fault_word(fault) == word,
    }
}

/// The tails: the events at the end of what was due that did not come.
#[derive(Clone, Copy, Debug, PartialEq, Eq, Drop)]
pub struct Tails {
    /// How many sessions have one.
    pub sessions: usize,
    /// How many events are in them; the greatest number of 64 bits where there are more.
    pub events: u64,
}

/// The tails of the verdicts.
pub(crate) fn tails_in(verdicts: &[SessionVerdict]) -> Tails
    ensures sessions { result.sessions ≡ count_by has_tail verdicts.now }
    ensures events { result.events ≡ min (sum_by tail_of verdicts.now) u64.MAX }
{
    let mut sessions = 0;
    let mut events: u64 = 0;
    for verdict in verdicts {
        let tail = tail_in(&verdict.verdict);
        if tail > 0 {
            sessions += 1;
        }
        events = events.saturating_add(tail);
    }
    Tails { sessions, events }
}

/// How many events are in the tail, whether or not it was asked for.
fn tail_in(verdict: &Verdict) -> u64
    ensures { result ≡ tail_in verdict.now }
{
    match verdict {
        Verdict::Yes { tail, .. } => *tail as u64,
        Verdict::No(Fault::Tail(count)) => *count,
        Verdict::No(_) => 0,
    }
}

/// How many entries the stream has, and how many of them are sent again after a recovery.
#[derive(Clone, Copy, Debug, PartialEq, Eq, Drop)]
pub struct Entries {
    pub all: usize,
    pub recoverable: usize,
}

/// How many entries there are, and how many are recoverable.
pub(crate) fn entries_in(stream: &Stream<'_>) -> Entries
    ensures all { result.all ≡ length stream.now }
    ensures recoverable { result.recoverable ≡ count_by is_recoverable stream.now }
{
    let all = stream.entries().len();
    let mut recoverable = 0;
    for before in 0..all {
        if stream.recoverable(before as u64 + 1) {
            recoverable += 1;
        }
    }
    Entries { all, recoverable }
}
