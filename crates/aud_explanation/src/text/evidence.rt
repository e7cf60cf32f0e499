//! The table of evidence.
ghost use Rattle.std.specs.Prelude.{◌≡◌, ◌++◌, OnOk, string_bytes};
ghost use Rattle.aud_explanation.specs.Evidence.{evidence_text, heading_text, row_text, rows_text, table_text};

use crate::long::{first_shown, last_shown, push_more};
use crate::long_rows::{kept_rows, rows_left};
use crate::name::{Names, push_named};
use crate::text::mark::mark;
use crate::text::page::{push_blanks, push_left, push_line};
use crate::text::place::push_place;
use crate::text::record::{other_session, push_record};
use aud_input::InputFile;
use aud_rows::Row;
use aud_verdict::Verdict;
use std::alloc::{AllocError, Global};

/// Puts the line of a row at the end: of a record that speaks of another session than the one with this pid, of which.
#[tactic(auto, unfolding(crate::specs::Evidence::row_text))]
pub(crate) fn push_row(
    alloc: Global,
    out: &mut String,
    files: &[InputFile],
    pid: &str,
    verdict: &Verdict,
    width: usize,
    row: &Row<'_>,
) -> Result<(), AllocError>
    ensures { OnOk result (string_bytes out.new
        ≡ string_bytes out.old ++ row_text files.now pid.now verdict.now width row.now) }
{
    let number = row.line;
    let other = other_session(row.session, pid);
    let digits = format!(in alloc; "{number}")?;
    let digits = digits.as_str();
    let mut line = String::new(alloc);
    push_blanks(&mut line, 8usize.saturating_sub(digits.len()))?;
    line.push_str(digits)?;
    line.push_str(" ")?;
    push_left(&mut line, row.tap, width)?;
    line.push_str("  ")?;
    push_record(alloc, &mut line, Names::Short, row.says)?;
    push_named(alloc, &mut line, Names::Short, " of ", other, "")?;
    line.push_str(mark(row.role, verdict))?;
    push_place(alloc, &mut line, files, number)?;
    push_line(out, line.as_str())
}

/// Puts the heading of the table at the end.
fn push_heading(alloc: Global, out: &mut String, width: usize) -> Result<(), AllocError>
    ensures { OnOk result (string_bytes out.new ≡ string_bytes out.old ++ heading_text width) }
{
    let mut line = String::new(alloc);
    line.push_str("    line ")?;
    push_left(&mut line, "tap", width)?;
    line.push_str("  record")?;
    push_line(out, line.as_str())
}

/// Puts a line for each row at the end.
fn push_rows(
    alloc: Global,
    out: &mut String,
    files: &[InputFile],
    pid: &str,
    verdict: &Verdict,
    width: usize,
    rows: &[Row<'_>],
) -> Result<(), AllocError>
    ensures { OnOk result (string_bytes out.new
        ≡ string_bytes out.old
        ++ rows_text files.now pid.now verdict.now width rows.now) }
{
    for row in rows {
        push_row(alloc, out, files, pid, verdict, width, row)?;
    }
    Ok(())
}

/// Puts the heading and the rows at the end: of more than 200 the first 100, those between at which the fault shows, and
/// the last 100. The column of taps is as wide as the longest name, and as its heading at least.
fn push_table(
    alloc: Global,
    out: &mut String,
    files: &[InputFile],
    pid: &str,
    verdict: &Verdict,
    rows: &[Row<'_>],
) -> Result<(), AllocError>
    ensures { OnOk result (string_bytes out.new
        ≡ string_bytes out.old ++ table_text files.now pid.now verdict.now rows.now) }
{
    let mut width = 3;
    for row in rows {
        width = width.max(row.tap.len());
    }
    let kept = kept_rows(alloc, rows)?;
    let kept = kept.as_slice();
    push_heading(alloc, out, width)?;
    push_rows(alloc, out, files, pid, verdict, width, first_shown(rows))?;
    push_more(out, rows_left(rows, kept))?;
    push_rows(alloc, out, files, pid, verdict, width, kept)?;
    push_rows(alloc, out, files, pid, verdict, width, last_shown(rows))
}

/// Puts the table of evidence of the session with this pid at the end, a line for each row under a heading; nothing
/// where there is none.
pub(crate) fn push_evidence(
    alloc: Global,
    out: &mut String,
    files: &[InputFile],
    pid: &str,
    verdict: &Verdict,
    rows: &[Row<'_>],
) -> Result<(), AllocError>
    ensures { OnOk result (string_bytes out.new
        ≡ string_bytes out.old ++ evidence_text files.now pid.now verdict.now rows.now) }
{
    if rows.is_empty() {
        Ok(())
    } else {
        push_table(alloc, out, files, pid, verdict, rows)
    }
}
