//! A report, read again.
ghost use Rattle.std.specs.Prelude.{◌≡◌, IfOk, string_bytes, option_map};
ghost use Rattle.std.specs.List.{list_all};
ghost use Rattle.aud_parts.specs.ReportLines.{report_in, report_line, report_lines, report_of, says_yes, totals};

use crate::cut::{LentBytes, cut_at, pid_in, whole_lines};
use aud_base::{Bytes, Listed};
use std::alloc::{AllocError, Global};
use std::marker::Model;

/// The line of a session in a report, borrowed.
#[derive(Drop)]
pub(crate) struct ReportLine<'a> {
    pub(crate) pid: &'a str,
    pub(crate) is_yes: bool,
    /// The line, without the newline that ends it.
    pub(crate) text: &'a [u8],
}

impl<'a> Model for ReportLine<'a> {
    ghost use Rattle.aud_parts.specs.ReportLines.{ReportLine};

    ghost Value = { ReportLine };

    ghost view = { λ l. record { pid = l.pid.now; is_yes = l.is_yes; text = l.text.now } };
}

/// The line of a session: `yes` or `no`, a pid, and more.
fn report_line(text: &[u8]) -> Option<ReportLine<'_>>
    ensures { result ≡ report_line text.now }
{
    let (word, rest) = cut_at(b' ', text)?;
    let (pid, _more) = cut_at(b' ', rest)?;
    let is_yes = word == b"yes".as_slice();
    if !is_yes && word != b"no".as_slice() {
        return None;
    }
    let pid = pid_in(pid)?;
    Some(ReportLine { pid, is_yes, text })
}

/// The lines of sessions; `None` where one of them isn't.
fn report_lines<'a>(
    alloc: Global,
    texts: &[LentBytes<'a>],
) -> Result<Option<Vec<ReportLine<'a>>>, AllocError>
    ensures { IfOk result (λ lines. option_map (λ all. all.items) lines ≡ report_lines texts.now) }
{
    let mut lines = Vec::new(alloc);
    for text in texts {
        let Some(line) = report_line(text.as_slice()) else {
            return Ok(None);
        };
        lines.push(line)?;
    }
    Ok(Some(lines))
}

/// Whether each line is yes.
pub(crate) fn are_all_yes(lines: &[ReportLine<'_>]) -> bool
    ensures { result ≡ list_all says_yes lines.now }
{
    lines.iter().all(|line| line.is_yes)
}

/// The last line of a report with these lines.
fn totals(alloc: Global, lines: &[ReportLine<'_>]) -> Result<String, AllocError>
    ensures { IfOk result (λ text. string_bytes text ≡ totals lines.now) }
{
    let sessions = lines.len();
    let yes = lines.iter().filter(|line| line.is_yes).count();
    let no = sessions.saturating_sub(yes);
    let mut out = String::new(alloc);
    write!(&mut out, "sessions={sessions} yes={yes} no={no}")?;
    Ok(out)
}

/// The lines of the sessions of a report, of which the last line has their counts; `None` where the text is no whole
/// report.
pub(crate) fn report_in<'a>(
    alloc: Global,
    text: &'a [u8],
) -> Result<Option<Listed<ReportLine<'a>>>, AllocError>
    ensures { IfOk result (λ lines. lines ≡ report_in text.now) }
{
    let Some(texts) = whole_lines(alloc, text)? else {
        return Ok(None);
    };
    let Some((last, front)) = texts.split_last() else {
        return Ok(None);
    };
    let Some(lines) = report_lines(alloc, front)? else {
        return Ok(None);
    };
    let totals = totals(alloc, &lines)?;
    if last.as_slice() == totals.as_bytes() {
        Ok(Some(Listed::new(lines)))
    } else {
        Ok(None)
    }
}

/// The report with these lines.
pub(crate) fn report_of(alloc: Global, lines: &[ReportLine<'_>]) -> Result<Bytes, AllocError>
    ensures { IfOk result (λ text. text ≡ report_of lines.now) }
{
    let mut out = Vec::new(alloc);
    for line in lines {
        out.extend_from_slice(line.text)?;
        out.push(b'\n')?;
    }
    let totals = totals(alloc, lines)?;
    out.extend_from_slice(totals.as_bytes())?;
    out.push(b'\n')?;
    Ok(Bytes::new(out))
}
