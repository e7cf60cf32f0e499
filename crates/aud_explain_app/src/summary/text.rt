//! A summary as lines.
ghost use Rattle.std.specs.Prelude.{◌≡◌, ◌++◌, IfOk, OnOk, codes, string_bytes};
ghost use Rattle.aud_explain_app.specs.Summary.Counts.{faults_seen};
ghost use Rattle.aud_explain_app.specs.Summary.Text.{causes_lines, class_line, classes_lines, count_line, counts_lines, fault_item, meaning_line, numbers_seen, summary_text};

use crate::summary::Summary;
use crate::summary::causes::{CausesTold, cause_names, count_with};
use crate::summary::counts::{Classes, Faults};
use std::alloc::{AllocError, Global};

/// The summary as lines, each ended: at most ten, and one for each cause that was told. Of the classes and the faults
/// those that no session has are left out. The last line says, where no session was recorded or no entry is recoverable,
/// that the answers mean nothing. No line is longer than 100 columns where fewer than 10,000 sessions have a fault of
/// delivery.
pub fn summary_text(
    alloc: Global,
    summary: &Summary,
    told: &[CausesTold],
) -> Result<String, AllocError>
    ensures { IfOk result (λ text. string_bytes text ≡ summary_text summary.now told.now) }
{
    let mut out = String::new(alloc);
    let (sessions, yes, no) = (summary.sessions, summary.yes, summary.no);
    writeln!(&mut out, "sessions: {sessions}, yes: {yes}, no: {no}")?;
    push_classes(&mut out, &summary.classes, &summary.faults)?;
    push_causes(&mut out, told)?;
    push_counts(&mut out, summary)?;
    push_meaning(&mut out, sessions, summary.entries.recoverable)?;
    Ok(out)
}

/// A line for each class that has a no. Of the faults five are of the recording, two of packets, and the others of
/// delivery.
fn push_classes(out: &mut String, classes: &Classes, faults: &Faults) -> Result<(), AllocError>
    ensures { OnOk result (string_bytes out.new
        ≡ string_bytes out.old ++ classes_lines classes.now faults.now) }
{
    let (recording, others) = faults.split_at(5);
    let (packets, delivery) = others.split_at(2);
    push_class(out, "recording", classes.recording, recording)?;
    push_class(out, "packets", classes.packets, packets)?;
    push_class(out, "delivery", classes.delivery, delivery)
}

/// The class, its count, and those of its faults that some session has; nothing where the count is 0.
fn push_class(
    out: &mut String,
    name: &str,
    count: usize,
    faults: &[(&str, u64)],
) -> Result<(), AllocError>
    ensures { OnOk result (string_bytes out.new
        ≡ string_bytes out.old ++ class_line name.now count (faults_seen faults.now)) }
{
    if count == 0 {
        return Ok(());
    }
    write!(out, "  {name} {count}:")?;
    for (word, sessions) in faults {
        push_fault(out, word, *sessions)?;
    }
    writeln!(out, "")
}

/// The fault and its count, unless that is 0.
fn push_fault(out: &mut String, word: &str, count: u64) -> Result<(), AllocError>
    ensures { OnOk result (string_bytes out.new
        ≡ string_bytes out.old ++ fault_item word.now count) }
{
    if count == 0 {
        return Ok(());
    }
    write!(out, " {word} {count}")
}

/// A line for each cause that was told, and one for sessions of whose fault no known cause holds.
fn push_causes(out: &mut String, told: &[CausesTold]) -> Result<(), AllocError>
    ensures { OnOk result (string_bytes out.new ≡ string_bytes out.old ++ causes_lines told.now) }
{
    for name in cause_names() {
        push_count(out, "cause", name, count_with(told, Some(*name)))?;
    }
    push_count(out, "no known", "cause", count_with(told, None))
}

/// How many sessions have such a cause, unless none has.
fn push_count(out: &mut String, kind: &str, cause: &str, count: u64) -> Result<(), AllocError>
    ensures { OnOk result (string_bytes out.new
        ≡ string_bytes out.old ++ count_line kind.now cause.now count) }
{
    if count == 0 {
        return Ok(());
    }
    writeln!(out, "  {kind} {cause}: {count}")
}

/// The lines of the other counts.
fn push_counts(out: &mut String, summary: &Summary) -> Result<(), AllocError>
    ensures { OnOk result (string_bytes out.new
        ≡ string_bytes out.old ++ counts_lines summary.now) }
{
    let (tails, recoveries) = (&summary.tails, &summary.recoveries);
    let (entries, input) = (&summary.entries, &summary.input);
    let counts = [
        ("sessions that no client named: ", summary.unobserved as u64),
        ("\nsessions with a tail: ", tails.sessions as u64),
        (", events in tails: ", tails.events),
        ("\nrecoveries asked for: ", recoveries.asked as u64),
        (", granted: ", recoveries.granted as u64),
        (", refused: ", recoveries.refused as u64),
        ("\nentries of the stream: ", entries.all as u64),
        (", recoverable: ", entries.recoverable as u64),
        ("\nlines: ", input.lines),
        (", bytes: ", input.bytes),
        (", seconds: ", input.seconds),
    ];
    push_numbers(out, &counts)
}

/// Each of these numbers behind its words, and the end of a line.
fn push_numbers(out: &mut String, numbers: &[(&str, u64)]) -> Result<(), AllocError>
    ensures { OnOk result (string_bytes out.new
        ≡ string_bytes out.old ++ (numbers_seen numbers.now ++ codes "\n")) }
{
    for (words, number) in numbers {
        write!(out, "{words}{number}")?;
    }
    writeln!(out, "")
}

/// Where no answer means anything, why.
fn push_meaning(out: &mut String, sessions: usize, recoverable: usize) -> Result<(), AllocError>
    ensures { OnOk result (string_bytes out.new
        ≡ string_bytes out.old ++ meaning_line sessions recoverable) }
{
    if sessions == 0 {
        return writeln!(out, "nothing was judged: no session was recorded");
    }
    if recoverable == 0 {
        return writeln!(
            out,
            "a yes says nothing here: no entry of the stream is recoverable"
        );
    }
    Ok(())
}
