//! The report, and what is written in its place where a line is refused.
ghost use Rattle.std.specs.Prelude.{◌≡◌, ◌++◌, IfOk, OnOk, string_bytes, count_by};
ghost use Rattle.std.specs.List.{list_all};
ghost use Rattle.aud_verdict.specs.YesOf.{is_yes};
ghost use Rattle.aud_verdict.specs.Report.{line_of, totals_line, report_text, refusal_line};

use crate::verdict::{SessionVerdict, Verdict};
use std::alloc::{AllocError, Global};

/// Puts a session's line at the end.
fn push_line(out: &mut String, pid: &str, verdict: &Verdict) -> Result<(), AllocError>
    ensures { OnOk result (string_bytes out.new
        ≡ string_bytes out.old ++ line_of pid.now verdict.now) }
{
    match verdict {
        Verdict::Yes { got, tail, turns } => {
            writeln!(out, "yes {pid} got={got} tail={tail} turns={turns}")
        }
        Verdict::No(fault) => writeln!(out, "no {pid} {fault}"),
    }
}

/// Whether each answer is yes.
pub fn are_all_yes(entries: &[SessionVerdict]) -> bool
    ensures { result ≡ list_all is_yes entries.now }
{
    entries.iter().all(|entry| entry.is_yes())
}

/// How many answers are yes.
fn count_yes(entries: &[SessionVerdict]) -> usize
    ensures { result ≡ count_by is_yes entries.now }
{
    entries.iter().filter(|entry| entry.is_yes()).count()
}

/// Puts the counts at the end.
fn push_totals(out: &mut String, entries: &[SessionVerdict]) -> Result<(), AllocError>
    ensures { OnOk result (string_bytes out.new ≡ string_bytes out.old ++ totals_line entries.now) }
{
    let sessions = entries.len();
    let yes = count_yes(entries);
    let no = sessions.saturating_sub(yes);
    writeln!(out, "sessions={sessions} yes={yes} no={no}")
}

/// The text of a report: a line for each session, and the counts.
pub fn report_text(alloc: Global, entries: &[SessionVerdict]) -> Result<String, AllocError>
    ensures { IfOk result (λ s. string_bytes s ≡ report_text entries.now) }
{
    let mut out = String::new(alloc);
    for entry in entries {
        push_line(&mut out, entry.pid.as_str(), &entry.verdict)?;
    }
    push_totals(&mut out, entries)?;
    Ok(out)
}

/// The one line that is written where a line of the input is refused by this name.
pub fn refusal_text(alloc: Global, line: u64, name: &str) -> Result<String, AllocError>
    ensures { IfOk result (λ s. string_bytes s ≡ refusal_line line name.now) }
{
    let mut out = String::new(alloc);
    writeln!(&mut out, "line {line}: {name}")?;
    Ok(out)
}
